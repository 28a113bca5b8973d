//! Whether the same is declared at two places.

ghost use Rattle.std.specs.Prelude.{◌≡◌, true, length};
ghost use Rattle.cl_tree.specs.Scopes.{empty};

use cl_tree::{Change, Frame, Scope, SharedScope};

fn same_change(a: Change, b: Change) -> bool
    ensures { result ≡ true → a ≡ b }
{
    a.at == b.at && a.typed == b.typed
}

fn same_changes(a: &[Change], b: &[Change]) -> bool
    ensures { result ≡ true → a.now ≡ b.now }
{
    let mut these = a;
    let mut those = b;
    while let Some((this, more)) = these.split_first() {
        let Some((that, others)) = those.split_first() else {
            return false;
        };
        let same = same_change(*this, *that);
        if !same {
            return false;
        }
        these = more;
        those = others;
    }
    those.is_empty()
}

fn same_pending(a: Option<u32>, b: Option<u32>) -> bool
    ensures { result ≡ true → a ≡ b }
{
    match (a, b) {
        (Some(one), Some(other)) => one == other,
        (None, None) => true,
        (Some(_), None) | (None, Some(_)) => false,
    }
}

fn same_frame(a: Frame, b: Frame) -> bool
    ensures { result ≡ true → a ≡ b }
{
    a.typing == b.typing && same_pending(a.pending, b.pending) && a.kept == b.kept
}

fn same_frames(a: &[Frame], b: &[Frame]) -> bool
    ensures { result ≡ true → a.now ≡ b.now }
{
    let mut these = a;
    let mut those = b;
    while let Some((this, more)) = these.split_first() {
        let Some((that, others)) = those.split_first() else {
            return false;
        };
        let same = same_frame(*this, *that);
        if !same {
            return false;
        }
        these = more;
        those = others;
    }
    those.is_empty()
}

fn same_value(a: &Scope, b: &Scope) -> bool
    ensures { result ≡ true → a.now ≡ b.now }
{
    a.typing == b.typing
        && same_pending(a.pending, b.pending)
        && same_changes(a.changes.as_slice(), b.changes.as_slice())
        && same_frames(a.frames.as_slice(), b.frames.as_slice())
        && a.listed == b.listed
        && same_changes(a.aside.as_slice(), b.aside.as_slice())
}

/// Whether nothing is declared and nothing is open.
fn is_bare(scope: &Scope) -> bool
    ensures { result ≡ true → scope.now ≡ empty }
{
    !scope.typing
        && scope.pending.is_none()
        && scope.changes.as_slice().is_empty()
        && scope.frames.as_slice().is_empty()
        && !scope.listed
        && scope.aside.as_slice().is_empty()
}

/// Whether this is what is declared.
pub fn same_scope(a: &SharedScope, b: &SharedScope) -> bool
    ensures { result ≡ true → a.now ≡ b.now }
{
    match (a.get(), b.get()) {
        (Some(one), Some(other)) => same_value(one, other),
        (Some(one), None) => is_bare(one),
        (None, Some(other)) => is_bare(other),
        (None, None) => true,
    }
}
