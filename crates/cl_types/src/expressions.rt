//! Expressions with their types.

use crate::types::{CType, DeclNo};
use cl_base::{List, Name};

/// An expression as an operand: its type, whether it is an lvalue (N1570 6.3.2.1), a bit-field, an object declared with
/// `register`, and a null pointer constant (6.3.2.3p3).
#[derive(Drop)]
pub struct Operand {
    pub ty: CType,
    pub lvalue: bool,
    pub bit_field: bool,
    pub register: bool,
    pub null: bool,
}

/// The operators over one operand that are no casts and no `sizeof` or `_Alignof`.
#[derive(Clone, Copy)]
pub enum UnaryOp {
    PostIncrement,
    PostDecrement,
    PreIncrement,
    PreDecrement,
    AddressOf,
    Dereference,
    Plus,
    Minus,
    Complement,
    Not,
}

/// The operators between two operands that are no calls and no member accesses.
#[derive(Clone, Copy)]
pub enum BinaryOp {
    Index,
    Multiply,
    Divide,
    Remainder,
    Add,
    Subtract,
    ShiftLeft,
    ShiftRight,
    Less,
    Greater,
    LessEqual,
    GreaterEqual,
    Equal,
    NotEqual,
    BitAnd,
    BitXor,
    BitOr,
    LogicalAnd,
    LogicalOr,
    Assign,
    AssignMultiply,
    AssignDivide,
    AssignRemainder,
    AssignAdd,
    AssignSubtract,
    AssignShiftLeft,
    AssignShiftRight,
    AssignBitAnd,
    AssignBitXor,
    AssignBitOr,
    Comma,
}

/// What an expression is (N1570 6.5): a constant, a string, a name, an operation over the parts in order, or one in error.
#[derive(Drop)]
pub enum Typed {
    /// An integer constant of this value (6.4.4.1).
    Int(u64),
    /// A floating constant, as it is spelled (6.4.4.2).
    Floating(Name),
    /// A character constant (6.4.4.4); None where its value isn't known.
    Chars(Option<i128>),
    /// String literals (6.4.5).
    Text,
    /// A declared name, with its value where it is an enumerator that has one.
    Named(DeclNo, Option<i128>),
    Unary(UnaryOp),
    Binary(BinaryOp),
    /// A cast to the expression's type (6.5.4).
    Cast,
    /// `?:` (6.5.15): the condition, and what is chosen of.
    Select,
    /// `sizeof` of an expression or a type of this type (6.5.3.4).
    SizeOf(CType),
    /// `_Alignof` of this type (6.5.3.4).
    AlignOf(CType),
    /// A call (6.5.2.2): the callee and the arguments.
    Call,
    /// Access to this member (6.5.2.3).
    MemberOf(DeclNo),
    /// A generic selection (6.5.1.1) that selects the part of this number, from 0.
    Generic(u32),
    /// A compound literal (6.5.2.5).
    Compound,
    /// What has no meaning.
    Wrong,
}

/// An expression, what it is as an operand, and its parts in order.
#[derive(Drop)]
pub struct TypedExpr {
    pub op: Typed,
    pub operand: Operand,
    pub parts: List<TypedExpr>,
}
