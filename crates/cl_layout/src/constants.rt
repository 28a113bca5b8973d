//! Integer constant expressions (N1570 6.6p6).

ghost use Rattle.std.specs.Prelude.{◌≡◌, ℕ, Bool, IfOk};
ghost use Rattle.cl_types.specs.declared.expressions.TypedExpr.{out-TypedExpr};
ghost use Rattle.cl_layout.specs.declared.layout.Layout.{Layout};
ghost use Rattle.cl_layout.specs.Constants.{asked_layout, constant, integer_of, reading, value_in, value_of};
ghost use Rattle.cl_layout.specs.Layouts.{AreLayouts};

use crate::layout::Layout;
use crate::reading::{Reading, read};
use crate::view::Members;
use crate::work::size_align;
use crate::worth::Worth;
use cl_base::{List, Mem};
use cl_const::Number;
use cl_types::{Typed, TypedExpr};
use std::alloc::Global;

/// The value of an expression as an integer constant expression. `NotConst`: 6.6p6 refuses it, evaluated or not: it, or an operand of it,
/// is no integer, a name that is no enumerator, a string, a floating constant that no cast stands on, a cast to another type, `sizeof` an
/// array of variable length, or an operation but on values; or what is evaluated divides by zero, shifts by a count outside 0 to the
/// width less 1, or has a signed result outside its type. `Unknown`: else, where a floating value, a value that isn't known, an
/// expression in error, or a size or alignment that isn't known is needed.
#[derive(Clone, Copy)]
pub enum Value {
    Known(i128),
    Unknown,
    NotConst,
}

/// The layout of what `sizeof` or `_Alignof` asks.
fn asked_layout<M: Members>(alloc: Global, members: &M, op: &Typed) -> Mem<Layout>
    ensures { (layouts : Bool → ℕ → Layout) → AreLayouts (M.content members.now) layouts → IfOk result (λ l. l ≡ asked_layout layouts op.now) }
{
    match op {
        Typed::SizeOf(t) => size_align(alloc, members, t),
        Typed::AlignOf(t) => size_align(alloc, members, t),
        _ => Ok(Layout::Unknown),
    }
}

/// What is told of an expression, part by part.
fn reading_of<M: Members>(alloc: Global, members: &M, e: &TypedExpr) -> Mem<Reading>
    ensures { (layouts : Bool → ℕ → Layout) → AreLayouts (M.content members.now) layouts → IfOk result (λ r. r ≡ reading layouts e.now) }
{
    let mut parts = List::new(alloc);
    for part in e.parts.as_slice() {
        let one = reading_of(alloc, members, part)?;
        parts.push(one)?;
    }
    let layout = asked_layout(alloc, members, &e.op)?;
    Ok(read(&e.op, &e.operand, layout, parts.as_slice()))
}

fn integer_of(number: Number) -> i128
    ensures { result ≡ integer_of number }
{
    match number {
        Number::Signed(value) => i128::from(value),
        Number::Unsigned(value) => i128::from(value),
    }
}

fn value_in(worth: Worth) -> Value
    ensures { result ≡ value_in worth }
{
    match worth {
        Worth::Known(number) => Value::Known(integer_of(number)),
        Worth::Unknown => Value::Unknown,
        Worth::Fails => Value::NotConst,
    }
}

fn value_of(told: Reading) -> Value
    ensures { result ≡ value_of told }
{
    if told.refused {
        Value::NotConst
    } else {
        value_in(told.worth)
    }
}

/// The value of an expression as an integer constant expression (6.6p6), over whoever tells the members of structures and unions.
pub fn eval_const<M: Members>(alloc: Global, members: &M, e: &TypedExpr) -> Mem<Value>
    ensures { (layouts : Bool → ℕ → Layout) → AreLayouts (M.content members.now) layouts → IfOk result (λ v. v ≡ constant layouts e.now) }
{
    let told = reading_of(alloc, members, e)?;
    Ok(value_of(told))
}
