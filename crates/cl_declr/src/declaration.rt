//! The one tree of a list of tokens as a declaration, and as a type name.

ghost use Rattle.std.specs.Prelude.{◌≡◌, Some, IfOk, IfSome, List};
ghost use Rattle.cl_base.specs.declared.token.PpToken.{PpToken as TheToken};
ghost use Rattle.cl_tree.specs.Derives.{Derives};
ghost use Rattle.cl_tree.specs.declared.nonterminal.Nonterminal.TheVariants as nt;
ghost use Rattle.cl_tree.specs.declared.set.NameSet.{NameSet as TheNames};
ghost use Rattle.cl_tree.specs.declared.tree.Tree.{Tree as TheTree};

use cl_base::{Mem, PpToken};
use cl_expr::{one_tree, parse};
use cl_tree::{NameSet, Nonterminal, Tree};
use std::alloc::Global;

/// The tree of a declaration or a type name.
pub type DeclTree = Tree;

/// The one tree of these tokens as a declaration (N1570 6.7), where these names are typedef names before the first token.
/// None exactly where no tree of a height of at most 512 derives: each node counts, a token's too. Expressions and
/// initialisers in it are read too. What it declares counts from the end of its declarator on (6.2.1p7). 2^32 - 4 tokens or
/// more are want of memory.
pub fn parse_declaration(
    alloc: Global,
    tokens: &[PpToken],
    typedefs: &NameSet,
) -> Mem<Option<DeclTree>>
    ensures found { IfOk result (λ tree. IfSome tree (Derives nt.Declaration typedefs.now tokens.now)) }
    ensures only { IfOk result (λ tree. (t : TheTree) → Derives nt.Declaration typedefs.now tokens.now t → tree ≡ Some t) }
{
    parse(alloc, tokens, typedefs, Nonterminal::Declaration)
}

/// The same as a type name (6.7.7).
pub fn parse_type_name(
    alloc: Global,
    tokens: &[PpToken],
    typedefs: &NameSet,
) -> Mem<Option<DeclTree>>
    ensures found { IfOk result (λ tree. IfSome tree (Derives nt.TypeName typedefs.now tokens.now)) }
    ensures only { IfOk result (λ tree. (t : TheTree) → Derives nt.TypeName typedefs.now tokens.now t → tree ≡ Some t) }
{
    parse(alloc, tokens, typedefs, Nonterminal::TypeName)
}

/// No list of tokens has two trees as a declaration, whatever names are typedef names.
pub fn one_declaration()
    ensures { (names : TheNames) (tokens : List TheToken) (t u : TheTree) → Derives nt.Declaration names tokens t → Derives nt.Declaration names tokens u → t ≡ u }
{
    one_tree();
}

/// Nor two as a type name.
pub fn one_type_name()
    ensures { (names : TheNames) (tokens : List TheToken) (t u : TheTree) → Derives nt.TypeName names tokens t → Derives nt.TypeName names tokens u → t ≡ u }
{
    one_tree();
}
