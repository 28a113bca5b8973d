//! Reads the tree of any nonterminal of the table.

ghost use Rattle.std.specs.Prelude.{ℕ, ◌≡◌, ◌<◌, ◌≤◌, ◌+◌, ◌-◌, ◌^◌, Some, None, true, false, IfOk, IfSome, length, slice_get, max, suc, [], ◌∷◌};
ghost use Rattle.cl_tree.specs.Scopes as n;
ghost use Rattle.cl_tree.specs.Derives.{Has, start, end, leaf, bad};
ghost use Rattle.cl_tree.specs.declared.class.Class.{Class};
ghost use Rattle.cl_tree.specs.declared.class.Class.TheVariants as cl;
ghost use Rattle.cl_tree.specs.declared.nonterminal.Nonterminal.TheVariants as nt;
ghost use Rattle.cl_tree.specs.declared.rule.Rule.TheVariants as ru;
ghost use Rattle.cl_tree.specs.declared.scope.Scope.{Scope as TheScope};
ghost use Rattle.cl_tree.specs.declared.tree.Tree.{out-Tree};
ghost use Rattle.cl_tree.specs.declared.grammar.Symbol.TheVariants.{Token, Entry};
ghost use Rattle.cl_expr.specs.code.Table as t;
ghost use Rattle.cl_expr.specs.declared.table.Label.{Label};
ghost use Rattle.cl_expr.specs.code.Paths.{At, Lost};
ghost use Rattle.cl_expr.specs.code.Parses.{Parses, Nests, Part, Half, Builds, Ends, Stuck, Opens, Steps, Climbs, GoesOn, Sound, Begins, Enters, Before, Chain, Dead, Led};

use crate::node::{bad_tree, failed_at, is_entry, larger, leave, one, token_leaf};
use crate::places::{corner, kinds, name_of, next_of, turn};
use crate::scan::{bars, dangling, going, has_place, is_shunned, look, opening, same_class, taken};
use crate::table::Edge;
use cl_base::{List, Mem};
use cl_tree::{
    Act, Class, Lexeme, Nonterminal, Rule, Separator, SharedScope, Symbol, Terminal, Tree, bad_end,
    class_at, closes_at, pass,
};
use std::alloc::Global;

/// A tree, the place where its production ended, what is declared after it, and its height.
#[derive(Drop)]
pub struct Found {
    pub tree: Tree,
    pub place: u16,
    pub scope: SharedScope,
    pub height: u32,
}

/// The productions, over a parser of nonterminals.
#[derive(Clone, Copy)]
pub struct Grammar<'a, F> {
    pub alloc: Global,
    pub tokens: &'a [Lexeme],
    pub depth: u32,
    pub parse: F,
}

impl<F: Fn(Global, &[Lexeme], &SharedScope, Nonterminal, u32, u32) -> Mem<Option<Found>>> Grammar<
    '_,
    F,
> {
    fn nonterminal(&self, scope: &SharedScope, goal: Nonterminal, at: u32) -> Mem<Option<Found>>
        requires nests { Nests self.now.tokens.now self.now.depth (F.pre self.now.parse) (F.post self.now.parse) }
        ensures { IfOk result (Parses self.now.tokens.now self.now.depth scope.now goal at) }
    {
        (self.parse)(self.alloc, self.tokens, scope, goal, self.depth, at)
    }

    /// An item of a block, or what is none.
    fn entry(&self, scope: SharedScope, at: u32) -> Mem<Option<Found>>
        requires nests { Nests self.now.tokens.now self.now.depth (F.pre self.now.parse) (F.post self.now.parse) }
        ensures { IfOk result (Part self.now.tokens.now self.now.depth scope None Entry at) }
    {
        if self.depth == 0 {
            return Ok(None);
        }
        let Some(class) = class_at(self.tokens, &scope, at) else {
            return Ok(None);
        };
        let brace = same_class(class, Class::RightBrace);
        if brace {
            return Ok(None);
        }
        match self.nonterminal(&scope, Nonterminal::BlockItem, at)? {
            Some(item) => Ok(Some(item)),
            None => self.bad_entry(scope, at),
        }
    }

    /// What is no item of a block.
    fn bad_entry(&self, scope: SharedScope, at: u32) -> Mem<Option<Found>>
        requires nests { Nests self.now.tokens.now self.now.depth (F.pre self.now.parse) (F.post self.now.parse) }
        requires some { 1 ≤ self.now.depth }
        requires none { Parses self.now.tokens.now self.now.depth scope nt.BlockItem at None }
        requires token { (k : Class) × (n.class_at self.now.tokens.now scope at ≡ Some k) × (k ≡ cl.RightBrace → ⊥) }
        ensures { IfOk result (Part self.now.tokens.now self.now.depth scope None Entry at) }
    {
        let closes = closes_at(self.tokens, at as usize);
        if closes {
            return Ok(None);
        }
        let to = bad_end(self.tokens, at);
        Ok(Some(Found {
            tree: bad_tree(self.alloc, at, to),
            place: 0,
            scope,
            height: 1,
        }))
    }

    /// The token that a terminal takes.
    fn token(&self, scope: SharedScope, terminal: Terminal, act: Act, at: u32) -> Mem<Option<Found>>
        requires nests { Nests self.now.tokens.now self.now.depth (F.pre self.now.parse) (F.post self.now.parse) }
        ensures { IfOk result (Part self.now.tokens.now self.now.depth scope None (Token terminal act) at) }
    {
        if self.depth == 0 {
            return Ok(None);
        }
        let Some(class) = class_at(self.tokens, &scope, at) else {
            return Ok(None);
        };
        let there = taken(terminal, class);
        if !there {
            return Ok(None);
        }
        let after = pass(self.alloc, self.tokens, scope, act, at)?;
        Ok(Some(Found {
            tree: token_leaf(self.alloc, at),
            place: 0,
            scope: after,
            height: 1,
        }))
    }

    /// What a symbol stands for.
    fn symbol(&self, scope: SharedScope, symbol: Symbol, at: u32) -> Mem<Option<Found>>
        requires nests { Nests self.now.tokens.now self.now.depth (F.pre self.now.parse) (F.post self.now.parse) }
        ensures { IfOk result (Part self.now.tokens.now self.now.depth scope None symbol at) }
    {
        match symbol {
            Symbol::Token(terminal, act) => self.token(scope, terminal, act, at),
            Symbol::Node(goal) => self.nonterminal(&scope, goal, at),
            Symbol::Entry => self.entry(scope, at),
        }
    }

    /// What a symbol stands for, after a separator.
    fn separated(
        &self,
        scope: SharedScope,
        separator: Separator,
        symbol: Symbol,
        at: u32,
    ) -> Mem<Option<Found>>
        requires nests { Nests self.now.tokens.now self.now.depth (F.pre self.now.parse) (F.post self.now.parse) }
        ensures { IfOk result (Part self.now.tokens.now self.now.depth scope (Some separator) symbol at) }
    {
        let Some(class) = class_at(self.tokens, &scope, at) else {
            return Ok(None);
        };
        let there = same_class(class, separator.class);
        if !there {
            return Ok(None);
        }
        let after = pass(self.alloc, self.tokens, scope, separator.act, at)?;
        self.symbol(after, symbol, at + 1)
    }

    /// What stands at an edge.
    fn part(&self, scope: SharedScope, edge: Edge, at: u32) -> Mem<Option<Found>>
        requires nests { Nests self.now.tokens.now self.now.depth (F.pre self.now.parse) (F.post self.now.parse) }
        ensures { IfOk result (Part self.now.tokens.now self.now.depth scope edge.before edge.symbol at) }
    {
        match edge.before {
            Some(separator) => self.separated(scope, separator, edge.symbol, at),
            None => self.symbol(scope, edge.symbol, at),
        }
    }

    /// Whether an item of a block stands at an edge and none derives there, since none does where the bad one before it begins
    /// and that are specifiers which may stand before it.
    fn is_dead(&self, scope: &SharedScope, edge: Edge, failed: u32, at: u32) -> Mem<bool>
        requires nests { Nests self.now.tokens.now self.now.depth (F.pre self.now.parse) (F.post self.now.parse) }
        requires none { failed < at → Parses self.now.tokens.now self.now.depth scope.now nt.BlockItem failed None }
        ensures { IfOk result (λ dead. dead ≡ true → Dead self.now.tokens.now self.now.depth scope.now edge at) }
    {
        if failed >= at || self.depth < 2 {
            return Ok(false);
        }
        let entry = is_entry(edge);
        if !entry {
            return Ok(false);
        }
        let stands = self.stands_before(scope, self.depth - 2, failed, at)?;
        Ok(stands)
    }

    /// What stands at an edge, where no item of a block derives from an earlier token on.
    fn part_after(&self, scope: SharedScope, edge: Edge, failed: u32, at: u32) -> Mem<Option<Found>>
        requires nests { Nests self.now.tokens.now self.now.depth (F.pre self.now.parse) (F.post self.now.parse) }
        requires none { failed < at → Parses self.now.tokens.now self.now.depth scope nt.BlockItem failed None }
        ensures { IfOk result (Part self.now.tokens.now self.now.depth scope edge.before edge.symbol at) }
    {
        let dead = self.is_dead(&scope, edge, failed, at)?;
        if dead {
            self.bad_entry(scope, at)
        } else {
            self.part(scope, edge, at)
        }
    }

    /// Whether the token there may not follow a production that ends at a place.
    fn barred(&self, scope: &SharedScope, place: u16, at: u32) -> bool
        ensures yes { result ≡ true → (k : Class) × (n.class_at self.now.tokens.now scope.now at ≡ Some k) × Has (t.bars place) k }
        ensures no { result ≡ false → (k : Class) → n.class_at self.now.tokens.now scope.now at ≡ Some k → Has (t.bars place) k → ⊥ }
    {
        match class_at(self.tokens, scope, at) {
            Some(class) => bars(place, class),
            None => false,
        }
    }

    /// Whether an `else` is there that may follow a production that ends at a place only where no statement derives after it.
    fn dangles(&self, scope: &SharedScope, place: u16, at: u32) -> bool
        ensures yes { result ≡ true → (n.class_at self.now.tokens.now scope.now at ≡ Some cl.Else) × Has (t.bars place) cl.Else }
        ensures no { result ≡ false → n.class_at self.now.tokens.now scope.now at ≡ Some cl.Else → Has (t.bars place) cl.Else → ⊥ }
    {
        match class_at(self.tokens, scope, at) {
            Some(class) => dangling(place, class),
            None => false,
        }
    }

    /// What begins at a place of a production, but for such an `else`.
    fn edge(&self, scope: &SharedScope, place: u16, at: u32) -> Option<Edge>
        ensures some { IfSome result (λ e. Has (t.edges place) e × ((k : Class) × (n.class_at self.now.tokens.now scope.now at ≡ Some k) × Begins e.before e.symbol k × (Has (t.bars place) k → k ≡ cl.Else → ⊥))) }
        ensures none { result ≡ None → (k : Class) → n.class_at self.now.tokens.now scope.now at ≡ Some k → Enters place k → (k ≡ cl.Else) × Has (t.bars place) k }
    {
        let Some(class) = class_at(self.tokens, scope, at) else {
            return None;
        };
        let dangling = dangling(place, class);
        if dangling {
            return None;
        }
        look(place, class)
    }

    /// The node that has these parts and ends at a place of its production.
    fn node(
        &self,
        before: &SharedScope,
        inside: SharedScope,
        place: u16,
        parts: List<Tree>,
        from: u32,
        to: u32,
        height: u32,
    ) -> Mem<Option<Found>>
        requires nests { Nests self.now.tokens.now self.now.depth (F.pre self.now.parse) (F.post self.now.parse) }
        requires half { Half self.now.tokens.now self.now.depth before.now inside place parts from to height }
        requires some { (l : Label) → t.name_of place ≡ Some l → from < to }
        requires stuck { Stuck self.now.tokens.now self.now.depth inside place to }
        requires free { (k : Class) → n.class_at self.now.tokens.now inside to ≡ Some k → Has (t.bars place) k → Lost (At self.now.tokens.now self.now.depth) self.now.tokens.now k inside to }
        ensures { IfOk result (Ends self.now.tokens.now self.now.depth before.now inside place parts from to) }
    {
        let Some(label) = name_of(place) else {
            return Ok(None);
        };
        let after = leave(place, before, inside)?;
        Ok(Some(Found {
            tree: Tree {
                rule: label.rule,
                choice: label.choice,
                from,
                to,
                parts,
            },
            place,
            scope: after,
            height: height + 1,
        }))
    }

    /// The node that has these parts, an `else` and the statement after it; where none derives, it ends before the `else`.
    fn with_else(
        &self,
        before: &SharedScope,
        inside: SharedScope,
        place: u16,
        parts: List<Tree>,
        from: u32,
        at: u32,
        height: u32,
    ) -> Mem<Option<Found>>
        requires nests { Nests self.now.tokens.now self.now.depth (F.pre self.now.parse) (F.post self.now.parse) }
        requires half { Half self.now.tokens.now self.now.depth before.now inside place parts from at height }
        requires some { (l : Label) → t.name_of place ≡ Some l → from < at }
        requires token { n.class_at self.now.tokens.now inside at ≡ Some cl.Else }
        requires bar { Has (t.bars place) cl.Else }
        ensures { IfOk result (Ends self.now.tokens.now self.now.depth before.now inside place parts from at) }
    {
        let copy = inside.share()?;
        let beyond = pass(self.alloc, self.tokens, copy, Act::Close, at)?;
        let Some(statement) = self.nonterminal(&beyond, Nonterminal::Statement, at + 1)? else {
            return self.node(before, inside, place, parts, from, at, height);
        };
        let end = turn(next_of(next_of(place)), statement.place);
        let to = statement.tree.to;
        let mut all = parts;
        all.push(token_leaf(self.alloc, at))?;
        all.push(statement.tree)?;
        let tall = larger(height, statement.height);
        self.node(before, statement.scope, end, all, from, to, tall)
    }

    /// The node that has these parts, where nothing else goes on from a place of its production.
    fn ending(
        &self,
        before: &SharedScope,
        inside: SharedScope,
        place: u16,
        parts: List<Tree>,
        from: u32,
        to: u32,
        height: u32,
    ) -> Mem<Option<Found>>
        requires nests { Nests self.now.tokens.now self.now.depth (F.pre self.now.parse) (F.post self.now.parse) }
        requires half { Half self.now.tokens.now self.now.depth before.now inside place parts from to height }
        requires some { (l : Label) → t.name_of place ≡ Some l → from < to }
        requires over { (k : Class) → n.class_at self.now.tokens.now inside to ≡ Some k → Enters place k → (k ≡ cl.Else) × Has (t.bars place) k }
        ensures { IfOk result (Ends self.now.tokens.now self.now.depth before.now inside place parts from to) }
    {
        let dangling = self.dangles(&inside, place, to);
        if dangling {
            return self.with_else(before, inside, place, parts, from, to, height);
        }
        let barred = self.barred(&inside, place, to);
        if barred {
            return Ok(None);
        }
        self.node(before, inside, place, parts, from, to, height)
    }

    /// The node that has these parts, and goes on from a place of its production.
    fn read(
        &self,
        before: &SharedScope,
        inner: SharedScope,
        start: u16,
        first: List<Tree>,
        from: u32,
        mid: u32,
        least: u32,
    ) -> Mem<Option<Found>>
        requires nests { Nests self.now.tokens.now self.now.depth (F.pre self.now.parse) (F.post self.now.parse) }
        requires half { Half self.now.tokens.now self.now.depth before.now inner start first from mid least }
        requires unnamed { t.name_of start ≡ None }
        ensures { IfOk result (Builds self.now.tokens.now self.now.depth before.now inner start first from mid) }
    {
        let mut scope = inner;
        let mut place = start;
        let mut parts = first;
        let mut to = mid;
        let mut height = least;
        let mut failed = mid;
        while let Some(edge) = self.edge(&scope, place, to) {
            let Some(part) = self.part_after(scope, edge, failed, to)? else {
                return Ok(None);
            };
            failed = failed_at(&part.tree);
            place = turn(edge.next, part.place);
            to = part.tree.to;
            scope = part.scope;
            height = larger(height, part.height);
            parts.push(part.tree)?;
        }
        self.ending(before, scope, place, parts, from, to, height)
    }

    /// The node that begins a tree of a nonterminal.
    fn opener(&self, scope: &SharedScope, goal: Nonterminal, at: u32) -> Mem<Option<Found>>
        requires nests { Nests self.now.tokens.now self.now.depth (F.pre self.now.parse) (F.post self.now.parse) }
        ensures { IfOk result (Opens self.now.tokens.now self.now.depth scope.now goal at) }
    {
        let Some(class) = class_at(self.tokens, scope, at) else {
            return Ok(None);
        };
        let Some(start) = opening(goal, class) else {
            return Ok(None);
        };
        let inner = scope.share()?;
        self.read(scope, inner, start, List::new(self.alloc), at, at, 0)
    }

    /// The node of a production that begins with a part.
    fn step(&self, before: &SharedScope, start: u16, left: Found) -> Mem<Option<Found>>
        requires nests { Nests self.now.tokens.now self.now.depth (F.pre self.now.parse) (F.post self.now.parse) }
        requires left { Sound self.now.tokens.now (suc self.now.depth) before.now left }
        requires goes_on { GoesOn self.now.tokens.now left.scope start left.place (end left.tree) }
        requires start { t.home start ≡ start }
        ensures { IfOk result (Steps self.now.tokens.now self.now.depth before.now start left) }
    {
        let Some(head) = corner(start) else {
            return Ok(None);
        };
        if left.height > self.depth {
            return Ok(None);
        }
        let from = left.tree.from;
        let mid = left.tree.to;
        let height = left.height;
        let inner = left.scope;
        let parts = one(self.alloc, left.tree)?;
        self.read(before, inner, head.next, parts, from, mid, height)
    }

    /// The tree of a nonterminal that goes on from its first node.
    fn climb(&self, before: &SharedScope, goal: Nonterminal, first: Found) -> Mem<Option<Found>>
        requires nests { Nests self.now.tokens.now self.now.depth (F.pre self.now.parse) (F.post self.now.parse) }
        requires first { Sound self.now.tokens.now (suc self.now.depth) before.now first }
        ensures { IfOk result (Climbs self.now.tokens.now self.now.depth before.now goal first) }
    {
        let mut left = first;
        while let Some(start) = going(self.tokens, &left.scope, goal, left.place, left.tree.to) {
            let Some(next) = self.step(before, start, left)? else {
                return Ok(None);
            };
            left = next;
        }
        Ok(Some(left))
    }
}

/// A tree of a nonterminal from a token on, of at most a height, where this is declared.
pub fn tree_at(
    alloc: Global,
    tokens: &[Lexeme],
    scope: &SharedScope,
    goal: Nonterminal,
    depth: u32,
    at: u32,
) -> Mem<Option<Found>>
    requires depth { depth ≤ 512 }
    requires short { length tokens.now < 2 ^ 32 - 4 }
    ensures { IfOk result (Parses tokens.now depth scope.now goal at) }
{
    if depth == 0 {
        return Ok(None);
    }
    let shunned = is_shunned(tokens, scope, goal, at);
    if shunned {
        return Ok(None);
    }
    let grammar = Grammar {
        alloc,
        tokens,
        depth: depth - 1,
        parse: tree_at,
    };
    let Some(first) = grammar.opener(scope, goal, at)? else {
        return Ok(None);
    };
    let Some(last) = grammar.climb(scope, goal, first)? else {
        return Ok(None);
    };
    let fits = has_place(kinds(goal), last.place);
    if fits { Ok(Some(last)) } else { Ok(None) }
}
