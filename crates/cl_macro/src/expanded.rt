//! What a run of tokens comes to.

ghost use Rattle.std.specs.Prelude.{◌≡◌, ◌++◌, ◌∷◌, [], None, OnOk};
ghost use Rattle.cl_macro.specs.Expansions.{numbered};
ghost use Rattle.cl_macro.specs.Replacing.{all_told, told_by};
ghost use Rattle.cl_macro.specs.Table.{event_of};
ghost use Rattle.cl_macro.specs.code.Gaining.{Keeps, Tells};

use crate::base::MacroBase;
use crate::note::Note;
use crate::table::MacroTable;
use crate::word::is_ident;
use cl_base::{Diag, Duplicate, List, MacroNo, Mem, Name, PpToken, Span};
use std::alloc::Global;

/// A name that is replaced: where it is written, the number of the event that gave it its macro, and how many of the
/// run's resulting tokens stand before its outermost invocation.
#[derive(Drop)]
pub struct MacroUse {
    pub at: Span,
    pub no: MacroNo,
    pub before: u32,
}

/// What a run of tokens comes to: its tokens after replacement, and, in the order of the work, its faults, the names
/// whose macros are looked up, each time anew, and the names that are replaced and written in the file, where the macro
/// has an event.
#[derive(Drop)]
pub struct Expanded {
    pub tokens: List<PpToken>,
    pub faults: List<Diag>,
    pub looked: List<Name>,
    pub uses: List<MacroUse>,
}

fn fault(number: u8, at: Span) -> Diag
    ensures { result ≡ record { number = number; at = at; name = None } }
{
    Diag {
        number,
        at,
        name: None,
    }
}

/// Adds the use of a macro that has an event.
fn push_use(uses: &mut List<MacroUse>, at: Span, before: u32, no: Option<MacroNo>) -> Mem<()>
    ensures { OnOk result (uses.new ≡ uses.old ++ numbered at before no) }
{
    if let Some(no) = no {
        uses.push(MacroUse { at, no, before })?;
    }
    Ok(())
}

impl Expanded {
    /// Nothing yet. It takes no memory.
    pub(crate) fn new(alloc: Global) -> Expanded
        ensures { result ≡ record { tokens = []; faults = []; looked = []; uses = [] } }
    {
        Expanded {
            tokens: List::new(alloc),
            faults: List::new(alloc),
            looked: List::new(alloc),
            uses: List::new(alloc),
        }
    }

    /// Adds a token of the run that stays.
    pub(crate) fn keep(&mut self, alloc: Global, token: &PpToken) -> Mem<()>
        ensures { OnOk result (Keeps token.now self.old self.new) }
    {
        if is_ident(token.kind) {
            self.looked.push(token.text.duplicate(alloc)?)?;
        }
        self.tokens.push(token.duplicate(alloc)?)?;
        Ok(())
    }

    /// Adds what a note tells.
    fn tell_one<B: MacroBase>(
        &mut self,
        alloc: Global,
        table: &MacroTable,
        base: &B,
        note: &Note,
        before: u32,
        at: Span,
    ) -> Mem<()>
        ensures { OnOk result (Tells (event_of table.now (B.events base.now)) (told_by before at note.now) self.old self.new) }
    {
        match note {
            Note::Looked(name) => self.looked.push(name.duplicate(alloc)?)?,
            Note::Replaced(name, Some(spell)) => {
                let no = table.event(alloc, base, name)?;
                push_use(&mut self.uses, *spell, before, no)?;
            }
            Note::Replaced(_, None) | Note::Took(_) => {}
            Note::Faulty(number, None) => self.faults.push(fault(*number, at))?,
            Note::Faulty(number, Some(place)) => self.faults.push(fault(*number, *place))?,
        }
        Ok(())
    }

    /// Adds what the notes of an outermost invocation tell.
    pub(crate) fn tell<B: MacroBase>(
        &mut self,
        alloc: Global,
        table: &MacroTable,
        base: &B,
        notes: &[Note],
        before: u32,
        at: Span,
    ) -> Mem<()>
        ensures { OnOk result (Tells (event_of table.now (B.events base.now)) (all_told before at notes.now) self.old self.new) }
    {
        let mut rest = notes;
        while let Some((note, behind)) = rest.split_first() {
            rest = behind;
            self.tell_one(alloc, table, base, note, before, at)?;
        }
        Ok(())
    }
}
