//! The faults of constants and string literals.

ghost use Rattle.std.specs.Prelude.{◌≡◌, ◌≢◌, ◌<◌, ◌≤◌, ◌++◌, ◌∷◌, [], ◌+◌, ◌^◌, length, IfOk, MatchOption};
ghost use Rattle.cl_literals.specs.Faults.{elements, escape_faults, fault_of, fault_where, faults, faults_from, is_plain, is_stray, is_string, keeps, literal_faults, literal_prefix, mixed_faults, number_faults, same_prefix, strings_len, token_faults};
ghost use Rattle.cl_literals.specs.Numbers.{number};
ghost use Rattle.cl_literals.specs.Strings.{unit};

use crate::numbers::{NumberConstant, number};
use crate::strings::{Prefix, count, has_bad_escape, prefix_of};
use cl_base::{Diag, Kind, List, Mem, PpToken, char_len};
use cl_const::CharType;
use std::alloc::Global;

fn add(found: &mut List<Diag>, fault: u8, token: &PpToken) -> Mem<()>
    ensures { IfOk result (λ done. found.new ≡ found.old ++ (fault_of fault token.now ∷ [])) }
{
    found.push(Diag {
        number: fault,
        at: token.at,
        name: None,
    })
}

fn add_where(found: &mut List<Diag>, holds: bool, fault: u8, token: &PpToken) -> Mem<()>
    ensures { IfOk result (λ done. found.new ≡ found.old ++ fault_where holds fault token.now) }
{
    if holds {
        add(found, fault, token)
    } else {
        Ok(())
    }
}

/// Whether what fits no token has no fault of its own yet: it is no lone quote, no byte of no character, no null character.
fn is_stray(text: &[u8]) -> bool
    ensures { result ≡ is_stray text.now }
{
    match text {
        [first, ..] => {
            let quote = *first == b'\'' || *first == b'"';
            let character = char_len(text, 0) != 0 && *first != 0;
            !quote && character
        }
        [] => true,
    }
}

fn add_number_faults(found: &mut List<Diag>, token: &PpToken) -> Mem<()>
    ensures { IfOk result (λ done. found.new ≡ found.old ++ number_faults (number token.now.text) token.now) }
{
    match number(token.text.bytes()) {
        NumberConstant::NoConstant => add(found, 24, token),
        NumberConstant::TooLarge => add(found, 25, token),
        _ => Ok(()),
    }
}

/// Adds the fault of a token that is no string literal.
fn add_token_faults(found: &mut List<Diag>, token: &PpToken) -> Mem<()>
    ensures { IfOk result (λ done. found.new ≡ found.old ++ token_faults token.now token.now.kind) }
{
    let text = token.text.bytes();
    match token.kind {
        Kind::Number => add_number_faults(found, token),
        Kind::Char => {
            let bad = has_bad_escape(prefix_of(text).unit(), text);
            add_where(found, bad, 26, token)
        }
        Kind::Other => add_where(found, is_stray(text), 24, token),
        _ => Ok(()),
    }
}

fn is_plain(prefix: Prefix) -> bool
    ensures { result ≡ is_plain prefix }
{
    match prefix {
        Prefix::Plain => true,
        _ => false,
    }
}

fn same_prefix(a: Prefix, b: Prefix) -> bool
    ensures { result ≡ same_prefix a b }
{
    match (a, b) {
        (Prefix::Plain, Prefix::Plain) => true,
        (Prefix::Utf8, Prefix::Utf8) => true,
        (Prefix::Wide, Prefix::Wide) => true,
        (Prefix::Char16, Prefix::Char16) => true,
        (Prefix::Char32, Prefix::Char32) => true,
        _ => false,
    }
}

/// The prefix of adjacent string literals, which are one: the first that one of them has (6.4.5p5).
pub fn literal_prefix(tokens: &[PpToken]) -> Prefix
    ensures { result ≡ literal_prefix tokens.now }
{
    let mut rest = tokens;
    while let Some((token, more)) = rest.split_first() {
        let prefix = prefix_of(token.text.bytes());
        if !is_plain(prefix) {
            return prefix;
        }
        rest = more;
    }
    Prefix::Plain
}

/// How many elements adjacent string literals make, without the closing zero. None comes exactly of 2^64 and more.
pub fn elements(unit: CharType, tokens: &[PpToken]) -> Option<u64>
    ensures { MatchOption result (2 ^ 64 ≤ elements unit tokens.now) (λ total. total ≡ elements unit tokens.now) }
{
    let mut total: u64 = 0;
    let mut rest = tokens;
    while let Some((token, more)) = rest.split_first() {
        total = with_more(total, count(unit, token.text.bytes()))?;
        rest = more;
    }
    Some(total)
}

fn with_more(total: u64, more: u128) -> Option<u64>
    requires { more ≤ 2 ^ 100 }
    ensures { MatchOption result (2 ^ 64 ≤ total + more) (λ sum. sum ≡ total + more) }
{
    let sum = u128::from(total) + more;
    if sum <= u128::from(u64::MAX) {
        Some(sum as u64)
    } else {
        None
    }
}

/// Whether a string literal has no prefix, or this one.
fn keeps(prefix: Prefix, token: &PpToken) -> bool
    ensures { result ≡ keeps prefix token.now }
{
    let own = prefix_of(token.text.bytes());
    is_plain(own) || same_prefix(prefix, own)
}

fn add_escape_faults(found: &mut List<Diag>, unit: CharType, tokens: &[PpToken]) -> Mem<()>
    ensures { IfOk result (λ done. found.new ≡ found.old ++ escape_faults unit tokens.now) }
{
    let mut rest = tokens;
    while let Some((token, more)) = rest.split_first() {
        let bad = has_bad_escape(unit, token.text.bytes());
        add_where(found, bad, 26, token)?;
        rest = more;
    }
    Ok(())
}

fn add_mixed_faults(found: &mut List<Diag>, prefix: Prefix, tokens: &[PpToken]) -> Mem<()>
    ensures { IfOk result (λ done. found.new ≡ found.old ++ mixed_faults prefix tokens.now) }
{
    let mut rest = tokens;
    while let Some((token, more)) = rest.split_first() {
        if !keeps(prefix, token) {
            return add(found, 27, token);
        }
        rest = more;
    }
    Ok(())
}

fn add_literal_faults(found: &mut List<Diag>, tokens: &[PpToken]) -> Mem<()>
    ensures { IfOk result (λ done. found.new ≡ found.old ++ literal_faults tokens.now) }
{
    let prefix = literal_prefix(tokens);
    add_escape_faults(found, prefix.unit(), tokens)?;
    add_mixed_faults(found, prefix, tokens)
}

fn is_string(kind: Kind) -> bool
    ensures { result ≡ is_string kind }
{
    match kind {
        Kind::Str => true,
        _ => false,
    }
}

/// How many string literals stand at the front.
fn strings_len(tokens: &[PpToken]) -> usize
    ensures value { result ≡ strings_len tokens.now }
    ensures within { result ≤ length tokens.now }
{
    let mut count = 0;
    while count < tokens.len() && is_string(tokens[count].kind) {
        count += 1;
    }
    count
}

/// Adds the faults of what stands first: adjacent string literals, or another token. What stands behind it is given.
fn add_first<'a>(found: &mut List<Diag>, tokens: &'a [PpToken]) -> Mem<&'a [PpToken]>
    requires { tokens.now ≢ [] }
    ensures faults { IfOk result (λ rest. found.new ++ faults_from 0 rest.now ≡ found.old ++ faults_from 0 tokens.now) }
    ensures shorter { IfOk result (λ rest. length rest.now < length tokens.now) }
{
    if is_string(tokens[0].kind) {
        let (run, rest) = tokens.split_at(strings_len(tokens));
        add_literal_faults(found, run)?;
        Ok(rest)
    } else {
        add_token_faults(found, &tokens[0])?;
        Ok(&tokens[1..])
    }
}

/// The faults of tokens that are read as C: each stray token (24), each integer constant too large (25), each constant and each
/// string literal with an invalid escape sequence (26), and of adjacent string literals the first whose prefix differs from an
/// earlier one's (27).
pub fn faults(alloc: Global, tokens: &[PpToken]) -> Mem<List<Diag>>
    ensures { IfOk result (λ found. found ≡ faults tokens.now) }
{
    let mut found = List::new(alloc);
    let mut rest = tokens;
    while !rest.is_empty() {
        rest = add_first(&mut found, rest)?;
    }
    Ok(found)
}
