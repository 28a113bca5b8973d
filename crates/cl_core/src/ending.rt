ghost use Rattle.std.specs.Prelude.{◌≡◌, IfOk, OnErr};
ghost use Rattle.cl_core.specs.Steps.{Stops, status_of};

use crate::core_state::State;
use crate::decide::first_ending;
use crate::event::{Effect, Ending};
use crate::note::with_finish;
use cl_base::{List, Mem};
use std::alloc::Global;

/// Takes the end of the input.
pub fn end(alloc: Global, core: &mut State, ending: Ending) -> Mem<List<Effect>>
    ensures ok { IfOk result (λ effects. Stops core.old ending core.new effects) }
    ensures err { OnErr result (core.new ≡ core.old) }
{
    let ending = Some(first_ending(core.ending, status_of(ending)));
    let none_left = core.pending.is_empty();
    let effects = with_finish(List::new(alloc), ending, none_left)?;
    core.finished = none_left;
    core.ending = ending;
    Ok(effects)
}

/// The status that an end of the input gives.
fn status_of(ending: Ending) -> u8
    ensures { result ≡ status_of ending }
{
    match ending {
        Ending::Edge => 2,
        Ending::Bad => 3,
        Ending::Failed => 4,
        Ending::Memory => 7,
        Ending::Long => 8,
    }
}
