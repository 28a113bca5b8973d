//! Macro replacement of a run, as callers see it.

ghost use Rattle.std.specs.Prelude.{◌≡◌, ◌≤◌, ℕ, List, Option, length, map, IfOk};
ghost use Rattle.cl_base.specs.declared.token.Kind.{Kind as TheKind};
ghost use Rattle.cl_base.specs.Lines.{IsTableOf};
ghost use Rattle.cl_macro.specs.Expansions.{IsExpansion};
ghost use Rattle.cl_macro.specs.Levels.{Within, rules_of};
ghost use Rattle.cl_macro.specs.Rules.{TellsTokens};
ghost use Rattle.cl_macro.specs.Strings.{escaped, quoted};
ghost use Rattle.cl_macro.specs.Table.{event_of, macro_of};
ghost use Rattle.cl_macro.specs.Words.{fresh};

use crate::base::MacroBase;
use crate::expanded::Expanded;
use crate::run::expand_run;
use crate::spell::push_escaped;
use crate::table::MacroTable;
use cl_base::{LineTable, Mem, Name, Path, PpToken};
use std::alloc::Global;

/// The string literal of a path (N1570 6.10.8.1).
fn file_literal(alloc: Global, path: &Path) -> Mem<Name>
    ensures { IfOk result (λ name. name ≡ quoted (escaped path.now)) }
{
    let mut text = Vec::new(alloc);
    text.push(b'"')?;
    push_escaped(&mut text, path.text().as_bytes())?;
    text.push(b'"')?;
    let name = Name::new(alloc, text.as_slice())?;
    Ok(name)
}

impl MacroTable {
    /// The whole replacement of the macros in a run of tokens that holds no directive, in the file of this path and with
    /// these lines (N1570 6.10.3). The faults are 17 (more than 65,535 replacements), 19 (wrong number of arguments), 20
    /// (no `)`) and 21 (`##` makes no token).
    pub fn expand<B: MacroBase>(
        &self,
        alloc: Global,
        base: &B,
        run: &[PpToken],
        path: &Path,
        lines: &LineTable,
    ) -> Mem<Expanded>
        ensures { (one_token : List ℕ → Option TheKind) (text : List ℕ) → TellsTokens one_token → IsTableOf lines.now text → Within text (map fresh run.now) → IfOk result (λ all. IsExpansion (rules_of (macro_of self.now (B.macros base.now)) one_token (quoted (escaped path.now)) text) (event_of self.now (B.events base.now)) run.now all) }
    {
        let file = file_literal(alloc, path)?;
        let all = expand_run(alloc, self, base, &file, lines, run)?;
        Ok(all)
    }
}
