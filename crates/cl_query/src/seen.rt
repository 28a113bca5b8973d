//! What work on a query saw of headers.

ghost use Rattle.std.specs.Prelude.{◌≡◌, ◌↔◌, IsTrue};
ghost use Rattle.cl_query.specs.Seen.{Agrees, says};

use cl_base::Known;
use cl_headers::{Dep, HeaderMap};

/// Whether a snapshot says of each path that was looked at what was seen there. It takes no memory, and time
/// logarithmic in what the snapshot knows for each of these.
pub(crate) fn agrees(headers: &HeaderMap, seen: &[Dep]) -> bool
    ensures { IsTrue result ↔ Agrees headers.now seen.now }
{
    for dep in seen {
        if !says(headers, dep) {
            return false;
        }
    }
    true
}

/// Whether a snapshot says of a path what was seen there.
fn says(headers: &HeaderMap, dep: &Dep) -> bool
    ensures { IsTrue result ↔ (says headers.now dep.now.path ≡ dep.now.known) }
{
    match headers.get(&dep.path) {
        Some(known) => *known == dep.known,
        None => dep.known == Known::Unknown,
    }
}
