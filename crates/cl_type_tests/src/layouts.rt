//! Large structures, and long chains of them.

ghost use Rattle.std.specs.Prelude.{◌≡◌, IfOk};
ghost use Rattle.cl_type_tests.specs.Structures.{content_of};

use cl_base::{Duplicate, List, Mem};
use cl_layout::{Layout, Members, Value, eval_const, size_align, some_layouts};
use cl_types::{CType, DeclNo, Member, Operand, TagWord, Typed, TypedExpr};
use std::alloc::Global;
use std::test::Fail;

/// Structures, by their numbers.
#[derive(Drop)]
struct Structures {
    members: List<List<Member>>,
}

impl Members for Structures {
    ghost content = { λ structures. content_of structures.members };

    fn members(&self, alloc: Global, tag: DeclNo) -> Mem<Option<List<Member>>> {
        match self.members.get(tag.0 as usize) {
            Some(members) => {
                let copy = copied(alloc, members.as_slice())?;
                Ok(Some(copy))
            }
            None => Ok(None),
        }
    }
}

fn copied(alloc: Global, members: &[Member]) -> Mem<List<Member>>
    ensures { IfOk result (λ list. list ≡ members.now) }
{
    let mut list = List::new(alloc);
    let mut rest = members;
    while let Some((member, more)) = rest.split_first() {
        list.push(copy_of(alloc, member)?)?;
        rest = more;
    }
    Ok(list)
}

fn copy_of(alloc: Global, member: &Member) -> Mem<Member>
    ensures { IfOk result (λ copy. copy ≡ member.now) }
{
    let ty = member.ty.duplicate(alloc)?;
    Ok(Member {
        decl: member.decl,
        ty,
        width: member.width,
    })
}

fn structure(number: u32) -> CType {
    CType::Tag(DeclNo(number), TagWord::Struct, None)
}

fn member(number: u32, ty: CType) -> Member {
    Member {
        decl: DeclNo(number),
        ty,
        width: None,
    }
}

/// So many structures, each with two of the one before it as its members, but for the first, which has none.
fn chain(alloc: Global, count: u32) -> Mem<Structures> {
    let mut structures = List::new(alloc);
    structures.push(List::new(alloc))?;
    for number in 1..count {
        let mut members = List::new(alloc);
        members.push(member(number, structure(number.wrapping_sub(1))))?;
        members.push(member(number, structure(number.wrapping_sub(1))))?;
        structures.push(members)?;
    }
    Ok(Structures {
        members: structures,
    })
}

/// A structure of so many members, of type `char` and `int` in turn.
fn wide(alloc: Global, count: u32) -> Mem<Structures> {
    let mut members = List::new(alloc);
    for number in 0..count {
        let ty = if number % 2 == 0 {
            CType::Char
        } else {
            CType::Int
        };
        members.push(member(number, ty))?;
    }
    let mut structures = List::new(alloc);
    structures.push(members)?;
    Ok(Structures {
        members: structures,
    })
}

/// The size and the alignment, 0 where they aren't known.
fn numbers(layout: Layout) -> (u64, u64) {
    match layout {
        Layout::Known { size, align } => (size, align),
        _ => (0, 0),
    }
}

#[test]
fn long_chain(rt: HostRuntime) -> Result<(), Fail> {
    let alloc = rt.alloc();
    some_layouts();
    let structures = chain(alloc, 100_000)?;
    let last = structure(99_999);
    assert!(rt; numbers(size_align(alloc, &structures, &last)?) == (0, 1));
    Ok(())
}

#[test]
fn wide_structure(rt: HostRuntime) -> Result<(), Fail> {
    let alloc = rt.alloc();
    let structures = wide(alloc, 100_000)?;
    let only = structure(0);
    assert!(rt; numbers(size_align(alloc, &structures, &only)?) == (400_000, 4));
    Ok(())
}

/// An expression of type `int`.
fn int(op: Typed, parts: List<TypedExpr>) -> TypedExpr {
    TypedExpr {
        op,
        operand: Operand {
            ty: CType::Int,
            lvalue: false,
            bit_field: false,
            register: false,
            null: false,
        },
        parts,
    }
}

/// So many casts of a constant to `int`, one over the other.
fn casts(alloc: Global, count: u32) -> Mem<TypedExpr> {
    let mut e = int(Typed::Int(7), List::new(alloc));
    for _ in 0..count {
        let mut parts = List::new(alloc);
        parts.push(e)?;
        e = int(Typed::Cast, parts);
    }
    Ok(e)
}

/// The value, where it is known.
fn known(value: Value) -> Option<i128> {
    match value {
        Value::Known(number) => Some(number),
        _ => None,
    }
}

#[test]
fn deep_constant(rt: HostRuntime) -> Result<(), Fail> {
    let alloc = rt.alloc();
    let structures = wide(alloc, 1)?;
    let e = casts(alloc, 510)?;
    assert!(rt; known(eval_const(alloc, &structures, &e)?) == Some(7));
    Ok(())
}
