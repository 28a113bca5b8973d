//! The names whose macro is looked up.

ghost use Rattle.std.specs.Prelude.{◌≡◌, ◌∷◌, [], OnOk, map};
ghost use Rattle.cl_pp.specs.Standing.{with_looked};
ghost use Rattle.cl_pp.specs.code.Keeping.{Sees, SeesNames};

use crate::made::Made;
use cl_base::{Duplicate, Mem, Name};
use std::alloc::Global;

/// Adds a name, unless it is there.
fn add(alloc: Global, made: &mut Made, name: &Name) -> Mem<()>
    requires { SeesNames made.now }
    ensures done { OnOk result (made.new.done ≡ with_looked (name.now ∷ []) made.old.done) }
    ensures sees { OnOk result (SeesNames made.new) }
    ensures recent { made.new.seen.recent ≡ made.old.seen.recent }
{
    if made.seen.names.contains_key(name) {
        return Ok(());
    }
    let key = name.duplicate(alloc)?;
    made.seen.names.insert(key, ())?;
    let name = name.duplicate(alloc)?;
    made.done.looked.push(name)
}

/// Adds a name, unless it is there. A name that is at hand is there.
pub(crate) fn look(alloc: Global, made: &mut Made, name: &Name) -> Mem<()>
    requires { Sees made.now }
    ensures done { OnOk result (made.new.done ≡ with_looked (name.now ∷ []) made.old.done) }
    ensures sees { OnOk result (Sees made.new) }
{
    if made.seen.is_at_hand(name) {
        return Ok(());
    }
    add(alloc, made, name)?;
    made.seen.put(alloc, name)
}

/// Adds the names that aren't there, in order.
pub(crate) fn look_all(alloc: Global, made: &mut Made, names: &[Name]) -> Mem<()>
    requires { Sees made.now }
    ensures done { OnOk result (made.new.done ≡ with_looked names.now made.old.done) }
    ensures sees { OnOk result (Sees made.new) }
{
    let mut rest = names;
    while let Some((name, behind)) = rest.split_first() {
        rest = behind;
        look(alloc, made, name)?;
    }
    Ok(())
}
