//! Definitions, each by the macro that its name has already.

ghost use Rattle.std.specs.Prelude.{◌≡◌, Some, IfOk, OnOk, OnErr};
ghost use Rattle.cl_macro.specs.Defining.{Defines, IsDefined, IsOver};
ghost use Rattle.cl_macro.specs.Table.{IsAsBefore, IsPut, macro_of};

use crate::base::MacroBase;
use crate::table::MacroTable;
use cl_base::{Duplicate, Macro, Mem, Span};
use cl_define::is_same;
use std::alloc::Global;

/// What a definition is.
#[derive(Drop)]
pub enum Defined {
    /// The name had no macro.
    New,
    /// It is the same as the definition that stands (N1570 6.10.3p1, p2).
    Same,
    /// It differs from the one that stood, where the name is written at `old`, if anywhere.
    Replaced { old: Option<Span> },
}

/// What a definition is, where the name has this macro.
fn over(old: &Macro, new: &Macro) -> Defined
    ensures { IsOver old.now new.now result }
{
    if is_same(old, new) {
        Defined::Same
    } else {
        Defined::Replaced { old: old.place }
    }
}

impl MacroTable {
    fn answer<B: MacroBase>(&self, alloc: Global, base: &B, new: &Macro) -> Mem<Defined>
        ensures { IfOk result (λ answer. IsDefined (macro_of self.now (B.macros base.now) new.now.name) new.now answer) }
    {
        let Some(old) = self.find(alloc, base, &new.name)? else {
            return Ok(Defined::New);
        };
        let answer = over(old.get(), new);
        Ok(answer)
    }

    /// Gives the name its macro from here on (N1570 6.10.3p9, p10). `Same`: it has it already, and nothing changes. Nothing
    /// changes after want of memory, which comes at the 2^32nd event too.
    pub fn define<B: MacroBase>(&mut self, alloc: Global, base: &B, new: Macro) -> Mem<Defined>
        ensures answer { IfOk result (λ answer. IsDefined (macro_of self.old (B.macros base.now) new.name) new answer) }
        ensures ok { IfOk result (λ answer. Defines new answer self.old self.new) }
        ensures err { OnErr result (IsAsBefore self.old self.new) }
    {
        let answer = self.answer(alloc, base, &new)?;
        match answer {
            Defined::Same => Ok(Defined::Same),
            Defined::New => {
                self.set(alloc, new)?;
                Ok(Defined::New)
            }
            Defined::Replaced { old } => {
                self.set(alloc, new)?;
                Ok(Defined::Replaced { old })
            }
        }
    }

    fn set(&mut self, alloc: Global, new: Macro) -> Mem<()>
        ensures ok { OnOk result (IsPut new.name (Some new) self.old self.new) }
        ensures err { OnErr result (IsAsBefore self.old self.new) }
    {
        let name = new.name.duplicate(alloc)?;
        self.put(name, Some(new))?;
        Ok(())
    }
}
