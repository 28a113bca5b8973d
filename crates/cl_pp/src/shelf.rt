//! Headers that were entered, as they stand before their first lines.

ghost use Rattle.std.specs.Prelude.{◌≡◌, ℕ, List, IfOk, OnOk};
ghost use Rattle.cl_base.specs.declared.headers.Known.{Known};
ghost use Rattle.cl_base.specs.declared.headers.Known.TheVariants as state;
ghost use Rattle.cl_pp.specs.code.Reaching.{IsLaid};
ghost use Rattle.cl_pp.specs.code.Shelving.{IsSound};

use crate::made::{Found, Opened};
use crate::open::open;
use cl_base::{Duplicate, Mem, Path};
use std::alloc::Global;
use std::collections::BTreeMap;
use std::sync::Arc;

/// The tokens and lines of headers, by their paths: a header is lexed once, however often it is entered.
#[derive(Drop)]
pub(crate) struct Shelf {
    pub(crate) headers: BTreeMap<Path, Arc<Opened, Global>>,
}

impl Shelf {
    /// No header.
    pub(crate) fn new(alloc: Global) -> Shelf
        ensures { (known : List ℕ → Known) → IsSound known result }
    {
        Shelf {
            headers: BTreeMap::new(alloc),
        }
    }

    /// The tokens and lines of a header that was found.
    pub(crate) fn open(&mut self, alloc: Global, found: &Found) -> Mem<Arc<Opened, Global>>
        ensures laid { (known : List ℕ → Known) → IsSound known self.old → known found.now.path ≡ state.Found found.now.text → IfOk result (λ opened. IsLaid found.now.text opened.value) }
        ensures sound { (known : List ℕ → Known) → IsSound known self.old → known found.now.path ≡ state.Found found.now.text → OnOk result (IsSound known self.new) }
    {
        if let Some(opened) = self.headers.get(&found.path) {
            return Ok(opened.clone()?);
        }
        let opened = open(alloc, found.text.bytes())?;
        let opened = Arc::new(alloc, opened)?;
        let path = found.path.duplicate(alloc)?;
        self.headers.insert(path, opened.clone()?)?;
        Ok(opened)
    }
}
