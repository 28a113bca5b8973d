//! The macros at a place of a translation unit.

ghost use Rattle.std.specs.Prelude.{◌≡◌, ◌+◌, ℕ, List, Option, Some, None, if◌then◌else◌, IfOk, OnOk, OnErr};
ghost use Rattle.std.specs.Option.{option_copied, option_map};
ghost use Rattle.cl_base.specs.Lent.{lent_value};
ghost use Rattle.cl_base.specs.declared.macros.Macro.{Macro as TheMacro};
ghost use Rattle.cl_base.specs.declared.macros.MacroNo.{MacroNo as TheNo};
ghost use Rattle.cl_macro.specs.Table.{IsAsBefore, IsPut, event_of, is_name, macro_of};

use crate::base::MacroBase;
use cl_base::{Duplicate, Lent, Macro, MacroNo, Mem, Memory, Name};
use std::alloc::Global;
use std::collections::BTreeMap;

/// What has become of a name: its macro, if it has one, and the number of the event that gave or took it. A macro of the
/// start has no event.
#[derive(Drop)]
pub struct Entry {
    pub set: Option<Macro>,
    pub event: Option<MacroNo>,
}

/// The macros at a place of a translation unit (N1570 6.10.3): those of its start, and what has happened to names since.
/// What the table knows nothing of, a base may give.
#[derive(Drop)]
pub struct MacroTable {
    entries: BTreeMap<Name, Entry>,
    events: u32,
}

impl MacroTable {
    /// No macros, where no event has been yet. It takes no memory.
    pub fn new(alloc: Global) -> MacroTable
        ensures macros { (base : List ℕ → Option TheMacro) (name : List ℕ) → macro_of result base name ≡ base name }
        ensures events { (base : List ℕ → Option TheNo) (name : List ℕ) → event_of result base name ≡ base name }
        ensures count { result.events ≡ 0 }
    {
        let table = MacroTable::after(alloc, 0);
        table
    }

    /// No macros, over a base with so many events. It takes no memory.
    pub fn after(alloc: Global, events: u32) -> MacroTable
        ensures macros { (base : List ℕ → Option TheMacro) (name : List ℕ) → macro_of result base name ≡ base name }
        ensures events { (base : List ℕ → Option TheNo) (name : List ℕ) → event_of result base name ≡ base name }
        ensures count { result.events ≡ events }
    {
        MacroTable {
            entries: BTreeMap::new(alloc),
            events,
        }
    }

    /// The number of the next event.
    pub fn events(&self) -> u32
        ensures { result ≡ self.now.events }
    {
        self.events
    }

    /// The macro of a name, if it has one: that of the last event here, else the base's.
    pub fn find<'a, B: MacroBase>(
        &'a self,
        alloc: Global,
        base: &'a B,
        name: &Name,
    ) -> Mem<Option<Lent<'a, Macro>>>
        ensures { IfOk result (λ found. option_map lent_value found ≡ macro_of self.now (B.macros base.now) name.now) }
    {
        let Some(entry) = self.entries.get(name) else {
            let found = base.get(alloc, name)?;
            return Ok(found);
        };
        match &entry.set {
            Some(mac) => Ok(Some(Lent::Shared(mac))),
            None => Ok(None),
        }
    }

    /// The number of the name's last event. None exactly where it has none.
    pub fn event<B: MacroBase>(&self, alloc: Global, base: &B, name: &Name) -> Mem<Option<MacroNo>>
        ensures { IfOk result (λ no. no ≡ event_of self.now (B.events base.now) name.now) }
    {
        let Some(entry) = self.entries.get(name) else {
            let no = base.event(alloc, name)?;
            return Ok(no);
        };
        Ok(entry.event)
    }

    /// Gives the name a macro without an event.
    pub(crate) fn keep(&mut self, name: Name, mac: Macro) -> Mem<()>
        ensures macros { (base : List ℕ → Option TheMacro) (other : List ℕ) → OnOk result (macro_of self.new base other ≡ (if is_name name other then Some mac else macro_of self.old base other)) }
        ensures events { (other : List ℕ) → event_of self.old (λ name. None) other ≡ None → OnOk result (event_of self.new (λ name. None) other ≡ None) }
        ensures count { OnOk result (self.new.events ≡ self.old.events) }
    {
        let entry = Entry {
            set: Some(mac),
            event: None,
        };
        self.entries.insert(name, entry)?;
        Ok(())
    }

    /// The next event gives the name this macro, or none.
    pub(crate) fn put(&mut self, name: Name, set: Option<Macro>) -> Mem<()>
        ensures ok { OnOk result (IsPut name set self.old self.new) }
        ensures err { OnErr result (IsAsBefore self.old self.new) }
    {
        let Some(events) = self.events.checked_add(1) else {
            return Err(Memory);
        };
        let event = Some(MacroNo(self.events));
        self.entries.insert(name, Entry { set, event })?;
        self.events = events;
        Ok(())
    }

    /// The name has no macro from here on, whatever the base gives it (N1570 6.10.3.5p1). Nothing changes after want of
    /// memory, which comes at the 2^32nd event too.
    pub fn undef(&mut self, alloc: Global, name: &Name) -> Mem<()>
        ensures ok { OnOk result (IsPut name.now None self.old self.new) }
        ensures err { OnErr result (IsAsBefore self.old self.new) }
    {
        let name = name.duplicate(alloc)?;
        self.put(name, None)?;
        Ok(())
    }
}
