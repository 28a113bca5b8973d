//! The macros that are there before a text begins.

ghost use Rattle.std.specs.Prelude.{◌≡◌, ◌++◌, ◌∷◌, [], option_to_list, IfOk, OnOk};
ghost use Rattle.cl_macro.specs.Starting.{Comes, Given, IsStart};
ghost use Rattle.cl_macro.specs.code.Giving.{IsGiven};

use crate::args::reversed;
use crate::table::MacroTable;
use cl_base::{Config, Define, Duplicate, List, Macro, Mem};
use cl_define::{object_like, predefined};
use cl_lex::lex;
use std::alloc::Global;

/// What a define of a config comes to.
fn given_one(alloc: Global, define: &Define) -> Mem<Option<Macro>>
    ensures { IfOk result (Comes define.now) }
{
    let lexed = lex(alloc, define.text.bytes())?;
    let mac = object_like(alloc, &define.name, lexed.tokens.as_slice())?;
    Ok(mac)
}

fn push_some(macros: &mut List<Macro>, mac: Option<Macro>) -> Mem<()>
    ensures { OnOk result (macros.new ≡ macros.old ++ option_to_list mac) }
{
    if let Some(mac) = mac {
        macros.push(mac)?;
    }
    Ok(())
}

/// What the defines of a config come to.
fn given(alloc: Global, defines: &[Define]) -> Mem<List<Macro>>
    ensures { IfOk result (Given defines.now) }
{
    let mut macros = List::new(alloc);
    let mut rest = defines;
    while let Some((define, behind)) = rest.split_first() {
        rest = behind;
        let found = given_one(alloc, define)?;
        push_some(&mut macros, found)?;
    }
    Ok(macros)
}

impl MacroTable {
    /// Gives the name a macro without an event.
    fn give(&mut self, alloc: Global, mac: Macro) -> Mem<()>
        ensures { OnOk result (IsGiven (mac ∷ []) self.old self.new) }
    {
        let name = mac.name.duplicate(alloc)?;
        self.keep(name, mac)?;
        Ok(())
    }

    /// Gives names these macros, in order, without an event.
    fn begin(&mut self, alloc: Global, macros: List<Macro>) -> Mem<()>
        ensures { OnOk result (IsGiven macros self.old self.new) }
    {
        let mut rest = reversed(alloc, macros)?;
        while let Some(mac) = rest.pop() {
            self.give(alloc, mac)?;
        }
        Ok(())
    }

    /// The macros that are there before a text begins: the predefined ones (N1570 6.10.8) and then those that the config
    /// defines, none of which is an event. A define's replacement list is the tokens of its text, and its macro is an
    /// object-like one (6.10.3p9). A later define stands in place of an earlier one of its name. One that no line may make
    /// has no effect (6.10.3p3, 6.10.3.3p1, 6.10.3p5, 6.10.8p4).
    pub fn start(alloc: Global, config: &Config) -> Mem<MacroTable>
        ensures { IfOk result (IsStart config.now.defines) }
    {
        let mut table = MacroTable::new(alloc);
        let macros = predefined(alloc)?;
        table.begin(alloc, macros)?;
        let macros = given(alloc, config.defines().as_slice())?;
        table.begin(alloc, macros)?;
        Ok(table)
    }
}
