//! The one tree of a list of tokens.

ghost use Rattle.std.specs.Prelude.{◌⊎◌, ◌≡◌, ◌<◌, ◌^◌, ◌-◌, Some, IfOk, IfSome, length, List, ℕ, true, false};
ghost use Rattle.cl_base.specs.declared.token.PpToken.{PpToken as TheToken};
ghost use Rattle.cl_tree.specs.Derives.{Derives, External, Spans, SpansFrom};
ghost use Rattle.cl_tree.specs.Scopes.{class_at};
ghost use Rattle.cl_tree.specs.declared.class.Class.TheVariants as cl;
ghost use Rattle.cl_tree.specs.declared.lexeme.Lexeme.{Lexeme as TheLexeme};
ghost use Rattle.cl_tree.specs.declared.scope.Scope.{Scope as TheScope};
ghost use Rattle.cl_tree.specs.declared.nonterminal.Nonterminal.{Nonterminal as TheNonterminal};
ghost use Rattle.cl_tree.specs.declared.nonterminal.Nonterminal.TheVariants as nt;
ghost use Rattle.cl_tree.specs.declared.set.NameSet.{NameSet as TheNames};
ghost use Rattle.cl_tree.specs.declared.tree.Tree.{Tree as TheTree};

use crate::reader::tree_at;
use crate::scan::is_brace;
use cl_base::{Mem, Memory, PpToken};
use cl_tree::{Lexeme, NameSet, Nonterminal, SharedScope, Tree, brackets, lexemes};
use std::alloc::Global;

/// The tree of an expression.
pub type ExprTree = Tree;

/// The most tokens: 2^32 - 5.
const MOST: usize = 0xffff_fffb;

/// A tree, and what is declared after it.
#[derive(Drop)]
pub struct Parsed {
    pub tree: Tree,
    pub scope: SharedScope,
}

/// The one tree of a nonterminal on all of these tokens from one on, where this is declared before it. None exactly where no
/// tree of a height of at most 512 derives. 2^32 - 4 tokens or more are want of memory.
pub fn parse_from(
    alloc: Global,
    tokens: &[Lexeme],
    scope: &SharedScope,
    goal: Nonterminal,
    from: u32,
) -> Mem<Option<Parsed>>
    ensures found { IfOk result (λ it. IfSome it (λ r. SpansFrom goal tokens.now scope.now from r.tree r.scope)) }
    ensures only { IfOk result (λ it. (t : TheTree) (w : TheScope) → SpansFrom goal tokens.now scope.now from t w → it ≡ Some (record { tree = t; scope = w })) }
{
    if tokens.len() > MOST {
        return Err(Memory);
    }
    let Some(found) = tree_at(alloc, tokens, scope, goal, 512, from)? else {
        return Ok(None);
    };
    if found.tree.to as usize == tokens.len() {
        Ok(Some(Parsed {
            tree: found.tree,
            scope: found.scope,
        }))
    } else {
        Ok(None)
    }
}

/// Whether the last token is `}`.
fn ends_with_brace(tokens: &[Lexeme], scope: &SharedScope) -> bool
    requires { length tokens.now < 2 ^ 32 }
    ensures yes { result ≡ true → class_at tokens.now scope.now (length tokens.now - 1) ≡ Some cl.RightBrace }
    ensures no { result ≡ false → class_at tokens.now scope.now (length tokens.now - 1) ≡ Some cl.RightBrace → ⊥ }
{
    is_brace(tokens, scope, tokens.len().saturating_sub(1) as u32)
}

/// The one tree of an external declaration (N1570 6.9) on all of these tokens from one on: of a function definition with its
/// body, or of a declaration. None exactly where neither derives. 2^32 - 4 tokens or more are want of memory.
pub fn parse_external(
    alloc: Global,
    tokens: &[Lexeme],
    scope: &SharedScope,
    from: u32,
) -> Mem<Option<Parsed>>
    ensures found { IfOk result (λ it. IfSome it (λ r. External tokens.now scope.now from r.tree r.scope)) }
    ensures only { IfOk result (λ it. (t : TheTree) (w : TheScope) → External tokens.now scope.now from t w → it ≡ Some (record { tree = t; scope = w })) }
{
    if tokens.len() > MOST {
        return Err(Memory);
    }
    let braced = ends_with_brace(tokens, scope);
    if braced {
        parse_from(alloc, tokens, scope, Nonterminal::FunctionDefinition, from)
    } else {
        parse_from(alloc, tokens, scope, Nonterminal::Declaration, from)
    }
}

/// The one tree of a nonterminal on all of these tokens. None exactly where no tree of a height of at most 512 derives.
/// 2^32 - 4 tokens or more are want of memory.
fn whole_tree(alloc: Global, tokens: &[Lexeme], goal: Nonterminal) -> Mem<Option<Tree>>
    ensures found { IfOk result (λ tree. IfSome tree (Spans goal tokens.now)) }
    ensures only { IfOk result (λ tree. (t : TheTree) → Spans goal tokens.now t → tree ≡ Some t) }
{
    let Some(reading) = parse_from(alloc, tokens, &SharedScope::new(), goal, 0)? else {
        return Ok(None);
    };
    Ok(Some(reading.tree))
}

/// The one tree of a nonterminal on all of these tokens, where these names are typedef names before the first. None exactly
/// where no tree of a height of at most 512 derives. 2^32 - 4 tokens or more are want of memory.
pub fn parse(
    alloc: Global,
    tokens: &[PpToken],
    typedefs: &NameSet,
    goal: Nonterminal,
) -> Mem<Option<Tree>>
    ensures found { IfOk result (λ tree. IfSome tree (Derives goal typedefs.now tokens.now)) }
    ensures only { IfOk result (λ tree. (t : TheTree) → Derives goal typedefs.now tokens.now t → tree ≡ Some t) }
{
    if tokens.len() > MOST {
        return Err(Memory);
    }
    let pairs = brackets(alloc, tokens)?;
    let all = lexemes(alloc, tokens, pairs.as_slice(), typedefs)?;
    whole_tree(alloc, all.as_slice(), goal)
}

/// The one tree of these tokens as an expression (N1570 6.5.17), where these names are typedef names before the first
/// token. None exactly where no tree of a height of at most 512 derives: each node counts, a token's too. Type names and
/// initialisers in it are read too. 2^32 - 4 tokens or more are want of memory.
pub fn parse_expr(alloc: Global, tokens: &[PpToken], typedefs: &NameSet) -> Mem<Option<ExprTree>>
    ensures found { IfOk result (λ tree. IfSome tree (Derives nt.Expression typedefs.now tokens.now)) }
    ensures only { IfOk result (λ tree. (t : TheTree) → Derives nt.Expression typedefs.now tokens.now t → tree ≡ Some t) }
{
    parse(alloc, tokens, typedefs, Nonterminal::Expression)
}

/// No list of tokens has two trees of one nonterminal, whatever names are typedef names.
pub fn one_tree()
    ensures one { (g : TheNonterminal) (names : TheNames) (tokens : List TheToken) (t u : TheTree) → Derives g names tokens t → Derives g names tokens u → t ≡ u }
    ensures external { (ts : List TheLexeme) (s : TheScope) (at : ℕ) (t u : TheTree) (w x : TheScope) → External ts s at t w → External ts s at u x → (t ≡ u) × (w ≡ x) }
{}

/// From a token on a nonterminal has a tree on all of the tokens, or it has none: which of the two is settled, for want of
/// nothing.
pub fn tree_or_none()
    ensures one { (g : TheNonterminal) (ts : List TheLexeme) (s : TheScope) (at : ℕ) → ((t : TheTree) × (w : TheScope) × SpansFrom g ts s at t w) ⊎ ((t : TheTree) (w : TheScope) → SpansFrom g ts s at t w → ⊥) }
    ensures external { (ts : List TheLexeme) (s : TheScope) (at : ℕ) → ((t : TheTree) × (w : TheScope) × External ts s at t w) ⊎ ((t : TheTree) (w : TheScope) → External ts s at t w → ⊥) }
{}
