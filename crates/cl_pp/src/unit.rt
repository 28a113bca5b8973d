//! Preprocesses a text.

ghost use Rattle.std.specs.Prelude.{◌≡◌, length, IfOk};
ghost use Rattle.cl_pp.specs.Before.{Preprocessed, before_over};
ghost use Rattle.cl_pp.specs.Places.{IfDone, InOrder, in_document, nowhere};

use crate::done::{PpAnswer, PpStep};
use crate::start::PpState;
use crate::work::PpWork;
use cl_base::{Config, Mem, Path, Text};
use cl_headers::HeaderView;
use cl_macro::MacroBase;
use std::alloc::Global;

/// What becomes of a text that begins where the state says, over the macros of a base that the state doesn't change (N1570
/// 5.1.1.2 phases 1 to 4, 6.10): the tokens of its active
/// lines after macro replacement, in order, where an include line stands for the file that it enters, with the definitions,
/// the uses of macros, the names that were looked up, the headers that were asked for, and the faults. A directive gives no
/// token. The text is the file 0, and a header's number is its path's place among the files. `Need` comes exactly at the
/// first header that is asked for and of which the view knows nothing, and the view is asked nothing after it.
///
/// The faults, by their numbers:
///
/// - 1: a comment without an end.
/// - 2 to 4, where a line is looked at: a quote that nothing closes, a byte of no character, a null character; not on
///   the lines of `#error` and `#pragma`.
/// - 5: no directive has this name.
/// - 6: no identifier follows where a directive needs one; at the directive's name.
/// - 7: tokens follow a directive that is complete; at the first of them.
/// - 8: the operand of an `#include`, replaced where it doesn't begin with a header name, is neither a header name nor a
///   string without a prefix nor begins with `<` that a `>` follows, or the name isn't UTF-8; at the operand's first token,
///   or the line's last one.
/// - 9: the header can't be read; 10: 200 include lines lead to this one; 11: there is no such header; at the name.
/// - 12 to 14: as `groups` tells them, in each file.
/// - 15: the condition of an `#if` or `#elif` is at fault; at the token that `eval_if` tells, or the line's last one.
/// - 17, 19 to 21: as `MacroTable::expand` tells them, in runs of text and in the operands of directives.
/// - 22: an `#error`; at its name.
/// - 23: the operand of a `#line`, replaced where it isn't of the form as it is written, is no number from 1 to 2147483647
///   with at most one plain string behind it; at the first token that doesn't fit, or the line's last one.
///
/// Nothing is looked for in a group that is skipped but where its sections begin and end. A file of more than
/// 268,435,456 bytes is want of memory. The text is copied once; `PpWork` shares it, and goes on later where it needs a header.
pub fn preprocess<B: MacroBase, V: HeaderView>(
    alloc: Global,
    start: PpState,
    base: &B,
    path: &Path,
    main: &[u8],
    config: &Config,
    view: &mut V,
) -> Mem<PpAnswer>
    requires { start.events ≡ start.macros.events }
    ensures done { IfOk result (Preprocessed (before_over (B.macros base.now) (B.events base.now) start) (V.known view.old) config.now.includes path.now main.now (V.asked view.old) (V.asked view.new)) }
    ensures order { IfOk result (IfDone (λ done. InOrder nowhere (length main.now) (in_document done.tokens))) }
    ensures fixed { V.known view.new ≡ V.known view.old }
{
    let main = Text::new(alloc, main)?;
    let work = PpWork::new(alloc, start, path, &main)?;
    match work.go_on(alloc, base, config, view)? {
        PpStep::Done(done) => Ok(PpAnswer::Done(done)),
        PpStep::Need(need) => Ok(PpAnswer::Need(need.path)),
    }
}
