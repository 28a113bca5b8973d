//! Declaration specifiers before others.

ghost use Rattle.std.specs.Prelude.{ℕ, ◌≡◌, ◌≤◌, true, IfOk, IfSome};
ghost use Rattle.cl_tree.specs.Derives.{External};
ghost use Rattle.cl_tree.specs.Scopes as n;
ghost use Rattle.cl_tree.specs.declared.scope.Scope.{Scope as TheScope};
ghost use Rattle.cl_tree.specs.declared.tree.Tree.{Tree as TheTree};
ghost use Rattle.cl_expr.specs.code.Parses.{Before, Chain, Led, Nests, Parses};

use crate::reader::{Found, Grammar, tree_at};
use crate::same::same_scope;
use crate::scan::is_type_at;
use cl_base::{Mem, Memory};
use cl_tree::{Lexeme, Nonterminal, SharedScope};
use std::alloc::Global;

/// The most tokens: 2^32 - 5.
const MOST: usize = 0xffff_fffb;

/// Whether what stands from one token up to another are declaration specifiers that may stand before those which begin there:
/// then an external declaration derives from the first on if one does from the other on. 2^32 - 4 tokens or more are want of
/// memory.
pub fn specifiers_before(alloc: Global, tokens: &[Lexeme], from: u32, to: u32) -> Mem<bool>
    ensures { IfOk result (λ found. found ≡ true → (t : TheTree) (w : TheScope) → External tokens.now n.empty to t w → (u : TheTree) × External tokens.now n.empty from u w) }
{
    if tokens.len() > MOST {
        return Err(Memory);
    }
    let grammar = Grammar {
        alloc,
        tokens,
        depth: 511,
        parse: tree_at,
    };
    let found = grammar.stands_before(&SharedScope::new(), 510, from, to)?;
    Ok(found)
}

impl<F: Fn(Global, &[Lexeme], &SharedScope, Nonterminal, u32, u32) -> Mem<Option<Found>>> Grammar<
    '_,
    F,
> {
    /// A specifier there, of at most a height.
    fn specifier(
        &self,
        scope: &SharedScope,
        goal: Nonterminal,
        high: u32,
        at: u32,
    ) -> Mem<Option<Found>>
        requires nests { Nests self.now.tokens.now self.now.depth (F.pre self.now.parse) (F.post self.now.parse) }
        requires high { high ≤ self.now.depth }
        ensures { IfOk result (Parses self.now.tokens.now high scope.now goal at) }
    {
        (self.parse)(self.alloc, self.tokens, scope, goal, high, at)
    }

    /// What is declared behind the specifiers that stand from one token up to another, where others stand before them.
    fn later_specifiers(
        &self,
        before: SharedScope,
        high: u32,
        from: u32,
        to: u32,
    ) -> Mem<Option<SharedScope>>
        requires nests { Nests self.now.tokens.now self.now.depth (F.pre self.now.parse) (F.post self.now.parse) }
        requires high { high ≤ self.now.depth }
        ensures { IfOk result (λ it. IfSome it (λ after. (s : TheScope) (first : ℕ) → Chain self.now.tokens.now high s first from before → Chain self.now.tokens.now high s first to after)) }
    {
        let goal = Nonterminal::LaterSpecifier;
        let mut after = before;
        let mut at = from;
        while at < to {
            let Some(found) = self.specifier(&after, goal, high, at)? else {
                return Ok(None);
            };
            at = found.tree.to;
            after = found.scope;
        }
        if at == to { Ok(Some(after)) } else { Ok(None) }
    }

    /// What is declared behind the specifiers that stand from one token up to another, of which one is of a type and no typedef
    /// name.
    fn specifiers(
        &self,
        scope: &SharedScope,
        high: u32,
        from: u32,
        to: u32,
    ) -> Mem<Option<SharedScope>>
        requires nests { Nests self.now.tokens.now self.now.depth (F.pre self.now.parse) (F.post self.now.parse) }
        requires high { high ≤ self.now.depth }
        ensures { IfOk result (λ it. IfSome it (Chain self.now.tokens.now high scope.now from to)) }
    {
        let goal = Nonterminal::OtherSpecifier;
        let mut after = scope.share()?;
        let mut at = from;
        while let Some(found) = self.specifier(&after, goal, high, at)? {
            at = found.tree.to;
            after = found.scope;
        }
        let goal = Nonterminal::LaterTypeSpecifier;
        let Some(typed) = self.specifier(&after, goal, high, at)? else {
            return Ok(None);
        };
        let next = typed.tree.to;
        self.later_specifiers(typed.scope, high, next, to)
    }

    /// Whether specifiers that are of no type stand at a token where one thing or another is declared, and behind them, where
    /// both are the same, one of a type begins that is no typedef name.
    fn led(&self, these: SharedScope, those: &SharedScope, high: u32, from: u32) -> Mem<bool>
        requires nests { Nests self.now.tokens.now self.now.depth (F.pre self.now.parse) (F.post self.now.parse) }
        requires high { high ≤ self.now.depth }
        ensures { IfOk result (λ led. led ≡ true → Led self.now.tokens.now high these those.now from) }
    {
        let goal = Nonterminal::OtherSpecifier;
        let mut one = these;
        let mut other = those.share()?;
        let mut at = from;
        while let Some(this) = self.specifier(&one, goal, high, at)? {
            let Some(that) = self.specifier(&other, goal, high, at)? else {
                return Ok(false);
            };
            if this.tree.to != that.tree.to {
                return Ok(false);
            }
            at = this.tree.to;
            one = this.scope;
            other = that.scope;
        }
        let typed = is_type_at(self.tokens, &other, at);
        if !typed {
            return Ok(false);
        }
        Ok(same_scope(&one, &other))
    }

    /// Whether what stands from one token up to another are specifiers that may stand before any that begin there.
    pub fn stands_before(&self, scope: &SharedScope, high: u32, from: u32, to: u32) -> Mem<bool>
        requires nests { Nests self.now.tokens.now self.now.depth (F.pre self.now.parse) (F.post self.now.parse) }
        requires high { high ≤ self.now.depth }
        ensures { IfOk result (λ stands. stands ≡ true → Before self.now.tokens.now high scope.now from to) }
    {
        let Some(after) = self.specifiers(scope, high, from, to)? else {
            return Ok(false);
        };
        self.led(after, scope, high, to)
    }
}
