//! What stands before a text.

ghost use Rattle.std.specs.Prelude.{IfOk};
ghost use Rattle.cl_pp.specs.Before.{IsFirst};

use cl_base::{Config, List, Mem, Path};
use cl_macro::MacroTable;
use std::alloc::Global;

/// What stands before a text: the macros, the files that were entered, so that the first one's number is 1, the numbers of
/// those that are entered once only, and the number of the next macro event.
#[derive(Drop)]
pub struct PpState {
    pub macros: MacroTable,
    pub files: List<Path>,
    pub once: List<u32>,
    pub events: u32,
}

impl PpState {
    /// The state before everything: the predefined macros and those of the config, no files and no events.
    pub fn start(alloc: Global, config: &Config) -> Mem<PpState>
        ensures { IfOk result (IsFirst config.now.defines) }
    {
        let macros = MacroTable::start(alloc, config)?;
        Ok(PpState {
            macros,
            files: List::new(alloc),
            once: List::new(alloc),
            events: 0,
        })
    }
}
