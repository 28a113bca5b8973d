//! What a table of macros stands on.

ghost use Rattle.std.specs.Prelude.{◌≡◌, None, IfOk};
ghost use Rattle.std.specs.Option.{option_map};
ghost use Rattle.cl_base.specs.Lent.{lent_value};

use cl_base::{EmptyBase, Lent, Macro, MacroNo, Mem, Name};
use std::alloc::Global;

/// The macros that hold where a text begins, and the events that made them.
pub trait MacroBase {
    ghost use Rattle.std.specs.Prelude.{ℕ, List, Option};
    ghost use Rattle.cl_base.specs.declared.macros.Macro.{Macro as TheMacro};
    ghost use Rattle.cl_base.specs.declared.macros.MacroNo.{MacroNo as TheNo};

    ghost macros: { Self → List ℕ → Option TheMacro };

    ghost events: { Self → List ℕ → Option TheNo };

    /// The macro that the base gives the name, if it gives it one.
    fn get(&self, alloc: Global, name: &Name) -> Mem<Option<Lent<'_, Macro>>>
        ensures { IfOk result (λ found. option_map lent_value found ≡ macros self.now name.now) };

    /// The number of the name's last event in the base. None exactly where it has none.
    fn event(&self, alloc: Global, name: &Name) -> Mem<Option<MacroNo>>
        ensures { IfOk result (λ no. no ≡ events self.now name.now) };
}

impl MacroBase for EmptyBase {
    ghost use Rattle.std.specs.Prelude.{None};

    ghost macros = { λ base name. None };

    ghost events = { λ base name. None };

    fn get(&self, _alloc: Global, _name: &Name) -> Mem<Option<Lent<'_, Macro>>> {
        Ok(None)
    }

    fn event(&self, _alloc: Global, _name: &Name) -> Mem<Option<MacroNo>> {
        Ok(None)
    }
}
