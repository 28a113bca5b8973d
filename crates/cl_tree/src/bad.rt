//! How far what is no item of a block goes.

ghost use Rattle.std.specs.Prelude.{◌≡◌, ◌<◌, ◌^◌, length, slice_get};
ghost use Rattle.cl_tree.specs.BadItems as b;
ghost use Rattle.cl_tree.specs.Brackets as p;

use crate::lexeme::Lexeme;

fn spelled_at(tokens: &[Lexeme], at: usize, text: &[u8]) -> bool
    ensures { result ≡ b.spelled_at tokens.now at text.now }
{
    match tokens.get(at) {
        Some(token) => token.text.bytes() == text,
        None => false,
    }
}

fn opens_at(tokens: &[Lexeme], at: usize) -> bool
    ensures { result ≡ b.opens_at tokens.now at }
{
    spelled_at(tokens, at, b"{".as_slice()) || spelled_at(tokens, at, b"<%".as_slice())
}

/// Whether the token at a number is `}`.
pub fn closes_at(tokens: &[Lexeme], at: usize) -> bool
    ensures { result ≡ b.closes_at tokens.now at }
{
    spelled_at(tokens, at, b"}".as_slice()) || spelled_at(tokens, at, b"%>".as_slice())
}

/// The number of a token's partner; past the end 0.
fn partner_at(tokens: &[Lexeme], at: usize) -> usize
    ensures value { result ≡ b.partner_of (slice_get tokens.now at) }
    ensures room { result < 2 ^ 32 }
{
    match tokens.get(at) {
        Some(token) => token.partner as usize,
        None => 0,
    }
}

/// Past a brace group, within what ends there.
fn past_group(partner: usize, end: u32) -> u32
    ensures { result ≡ p.past_group partner end }
{
    if partner < end as usize {
        partner as u32 + 1
    } else {
        end
    }
}

/// The end of what is no item of a block and begins at `from`: past the first `;` or the first brace group at its depth,
/// whichever ends first, else the `}` of its block, or the end of the tokens.
#[tactic(auto, unfolding(crate::specs::BadItems::bad_to))]
pub fn bad_end(tokens: &[Lexeme], from: u32) -> u32
    requires { length tokens.now < 2 ^ 32 }
    ensures { result ≡ b.bad_end tokens.now from }
{
    let end = tokens.len() as u32;
    let mut at = from as usize;
    for _used in from..end {
        if at >= end as usize {
            return end;
        }
        let semicolon = spelled_at(tokens, at, b";".as_slice());
        if semicolon {
            return at as u32 + 1;
        }
        let closes = closes_at(tokens, at);
        if closes {
            return at as u32;
        }
        let partner = partner_at(tokens, at);
        if at < partner {
            let opens = opens_at(tokens, at);
            if opens {
                return past_group(partner, end);
            }
            at = partner + 1;
        } else {
            at += 1;
        }
    }
    end
}
