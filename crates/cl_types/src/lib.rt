//! The types of C, and the records of a translation unit.
#![tactic(auto)]

mod comparing;
mod composing;
mod duplicates;
mod expressions;
mod kinds;
mod laws;
mod qualifying;
mod shared;
mod sizes;
mod types;
mod unit;

pub use comparing::{compatible, is_enum, is_error, promoted, unqualified};
pub use composing::composite;
pub use expressions::{BinaryOp, Operand, Typed, TypedExpr, UnaryOp};
pub use kinds::{arithmetic, promotion, stripped, usual_basic};
pub use laws::{either_way, normal_forms, with_both, with_itself};
pub use qualifying::{qualified, qualifiers_of};
pub use shared::Shared;
pub use sizes::{MOST_NODES, is_small, room_after};
pub use types::{Basic, CType, DeclNo, Length, Params, TagWord, basic_of};
pub use unit::{
    Decl, DeclKind, Dep, Entity, Import, IncludeLine, Linkage, Member, ScopeKind, Space, Unit,
    UnitView, Use, Used,
};
