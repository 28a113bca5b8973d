//! Whether a spelling is one token.

ghost use Rattle.std.specs.Prelude.{◌≡◌, IfNone, IfSome};
ghost use Rattle.cl_base.specs.declared.token.Kind.{Kind};
ghost use Rattle.cl_lex.specs.Items.{IsOneToken};

use crate::item::ItemKind;
use crate::next::next_item;
use cl_base::Kind;

/// What a spelling is, if it is exactly one token (N1570 6.4), as the operands of `##` have to be when they are joined
/// (N1570 6.10.3.3p3): its characters are taken as they stand, as after translation phases 1 and 2, so trigraphs and
/// spliced lines in it are not looked for. White space, a comment, nothing, or several tokens are `None`, and no header
/// name is formed.
pub fn one_token(spelling: &[u8]) -> Option<Kind>
    ensures some { IfSome result (λ kind. IsOneToken spelling.now kind) }
    ensures none { IfNone result ((kind : Kind) → IsOneToken spelling.now kind → ⊥) }
{
    if spelling.is_empty() {
        return None;
    }
    let item = next_item(spelling, 0, false);
    if item.to < spelling.len() {
        return None;
    }
    match item.kind {
        ItemKind::Token(kind) => Some(kind),
        _ => None,
    }
}
