//! Member access (N1570 6.5.2.3).

ghost use Rattle.std.specs.Prelude.{◌≡◌, IfOk};
ghost use Rattle.std.specs.Option.{option_copied};
ghost use Rattle.cl_conv.specs.MemberOf.{accessed, has_width, is_arrow, member_of, part, record_in};

use crate::operands::{is_record, target};
use crate::operators::value;
use cl_base::Mem;
use cl_types::{CType, Member, Operand, is_error, qualified, qualifiers_of};
use std::alloc::Global;

/// The operators of member access: `.` and `->`.
#[derive(Clone, Copy)]
pub enum Access {
    Dot,
    Arrow,
}

fn is_arrow(how: Access) -> bool
    ensures { result ≡ is_arrow how }
{
    match how {
        Access::Arrow => true,
        Access::Dot => false,
    }
}

/// The structure or union whose member is meant.
fn accessed(how: Access, a: &Operand) -> Option<&CType>
    ensures { option_copied result ≡ accessed how a.now }
{
    match how {
        Access::Dot => record_in(&a.ty),
        Access::Arrow => match target(&a.ty) {
            Some(within) => record_in(within),
            None => None,
        },
    }
}

fn record_in(t: &CType) -> Option<&CType>
    ensures { option_copied result ≡ record_in (Some t.now) }
{
    if is_record(t) { Some(t) } else { None }
}

fn is_bit_field(member: &Member) -> bool
    ensures { result ≡ has_width member.now.width }
{
    match member.width {
        Some(_) => true,
        None => false,
    }
}

fn part(alloc: Global, how: Access, a: &Operand, member: &Member, t: &CType) -> Mem<Operand>
    ensures { IfOk result (λ made. made ≡ part how a.now member.now t.now) }
{
    let ty = qualified(alloc, &member.ty, qualifiers_of(t))?;
    let bit_field = is_bit_field(member);
    Ok(Operand {
        ty,
        lvalue: is_arrow(how) || a.lvalue,
        bit_field,
        register: !is_arrow(how) && a.register,
        null: false,
    })
}

/// What access to a member gives (6.5.2.3), where the member is found in the structure or union. None comes exactly where the
/// left operand of `.` is no structure or union, and that of `->` no pointer to one. Of an operand in error it is a value in error.
pub fn member_of(alloc: Global, how: Access, a: &Operand, member: &Member) -> Mem<Option<Operand>>
    ensures { IfOk result (λ made. made ≡ member_of how a.now member.now) }
{
    if is_error(&a.ty) {
        return Ok(Some(value(CType::Error)));
    }
    match accessed(how, a) {
        Some(t) => {
            let operand = part(alloc, how, a, member, t)?;
            Ok(Some(operand))
        }
        None => Ok(None),
    }
}
