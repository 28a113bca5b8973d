//! The records of a translation unit.

use crate::types::{CType, DeclNo};
use cl_base::{Diag, Known, List, MacroEvent, MacroNo, Name, Path, Span, Text};

/// What a declaration declares.
#[derive(Clone, Copy)]
pub enum DeclKind {
    Object,
    Function,
    Typedef,
    Struct,
    Union,
    Enum,
    Enumerator,
    Member,
    Param,
    Label,
}

/// The scopes (N1570 6.2.1), and the content of a structure or union.
#[derive(Clone, Copy)]
pub enum ScopeKind {
    File,
    Block,
    Prototype,
    Function,
    Members,
}

/// The name spaces (N1570 6.2.3).
#[derive(Clone, Copy)]
pub enum Space {
    Ordinary,
    Tags,
    Labels,
    MembersOf(DeclNo),
}

/// The linkages (N1570 6.2.2).
#[derive(Clone, Copy)]
pub enum Linkage {
    External,
    Internal,
    Without,
}

/// A declaration. `place` is where its name stands, and None without a name; `item` spans the innermost item in which it is
/// written. `owner` is the declaration in whose content, parameter list or body it is written, `first` the first declaration
/// of its entity. `storage` is 0 for none, 1 `typedef`, 2 `extern`, 3 `static`, 4 `auto`, 5 `register`. `value` is that of an
/// enumerator, `bit` the width of a bit-field, in bits.
#[derive(Drop)]
pub struct Decl {
    pub kind: DeclKind,
    pub name: Option<Name>,
    pub place: Option<Span>,
    pub item: Span,
    pub ty: CType,
    pub scope: ScopeKind,
    pub owner: Option<DeclNo>,
    pub first: DeclNo,
    pub linkage: Linkage,
    pub storage: u8,
    pub defines: bool,
    pub value: Option<i128>,
    pub bit: Option<u64>,
}

/// What one declaration or several declare: its first declaration, all of them in order, their composite type, and the first
/// that defines it.
#[derive(Drop)]
pub struct Entity {
    pub first: DeclNo,
    pub all: List<DeclNo>,
    pub ty: CType,
    pub complete: Option<DeclNo>,
}

/// A member of a structure or union; `width` is that of a bit-field, in bits.
#[derive(Drop)]
pub struct Member {
    pub decl: DeclNo,
    pub ty: CType,
    pub width: Option<u64>,
}

/// What a name means where it is used.
#[derive(Clone, Copy)]
pub enum Used {
    Entity(DeclNo),
    Macro(MacroNo),
}

/// A use of a name, at the span of its token.
#[derive(Clone, Copy)]
pub struct Use {
    pub at: Span,
    pub what: Used,
}

/// A path that was asked for, with the answer.
#[derive(Drop)]
pub struct Dep {
    pub path: Path,
    pub known: Known,
}

/// A translation unit (N1570 5.1.1.1): the count of its tokens, its files by number from 1, those that are read once, its
/// macro events, declarations and entities by number, its uses in token order, its diagnostics in their order, and the paths
/// that were asked for.
#[derive(Drop)]
pub struct Unit {
    pub tokens: u32,
    pub files: List<Path>,
    pub once: List<u32>,
    pub macros: List<MacroEvent>,
    pub decls: List<Decl>,
    pub entities: List<Entity>,
    pub uses: List<Use>,
    pub diags: List<Diag>,
    pub deps: List<Dep>,
}

/// The beginning of a unit, and the unit of the rest of its text over it. Its lists are those of the base followed by those of the
/// unit, and its entities the base's as the unit changed them.
#[derive(Drop)]
pub struct UnitView<'a, B> {
    pub base: &'a B,
    pub unit: &'a Unit,
}

/// An include line (N1570 6.10.2): whether the header's name stands in angle brackets, and the name.
#[derive(Drop)]
pub struct IncludeLine {
    pub angled: bool,
    pub name: Text,
}

/// What a stored beginning of a unit was made by: its include line, and how many files, names, macro events and declarations it
/// made.
#[derive(Drop)]
pub struct Import {
    pub line: IncludeLine,
    pub files: u32,
    pub names: u32,
    pub macros: u32,
    pub decls: u32,
}
