//! What is said of each fault.

ghost use Rattle.std.specs.Prelude.{◌≡◌, ◌++◌, [], map, slice_get, unwrap_or, codes, string_bytes, IfOk, OnOk};
ghost use Rattle.cl_diag.specs.Texts.{name_text, speaks_of_a_name, tail, text, wording};

use cl_base::{Diag, Mem, Name};
use cl_lossy::shown;
use std::alloc::Global;

/// The texts of the faults, from 1 on. Where one ends in an open quote, a name goes on.
const TEXTS: [&str; 49] = [
    "",
    "unterminated comment",
    "missing closing quote",
    "invalid byte",
    "null character",
    "unknown directive",
    "directive needs a name",
    "extra tokens after directive",
    "invalid include",
    "header cannot be read",
    "includes nested too deeply",
    "header not found",
    "no matching #if",
    "after #else",
    "unterminated #if",
    "invalid #if expression",
    "macro '",
    "macro expansion too large",
    "invalid macro definition",
    "wrong number of macro arguments",
    "unterminated macro invocation",
    "pasting gives no token",
    "#error directive",
    "invalid #line",
    "stray token",
    "integer constant too large",
    "invalid escape sequence",
    "mixed string prefixes",
    "syntax error",
    "undeclared identifier '",
    "conflicting declaration of '",
    "redefinition of '",
    "'",
    "incomplete type",
    "invalid type specifiers",
    "invalid type",
    "invalid specifier",
    "invalid bit-field",
    "invalid array length",
    "constant expression needed",
    "no member '",
    "invalid operands",
    "not assignable",
    "incompatible types",
    "invalid call",
    "invalid label '",
    "misplaced statement",
    "static assertion failed",
    "invalid initializer",
];

/// What is said of a fault, with the name that it speaks of. Each byte of the name that is part of no UTF-8 character stands
/// as U+FFFD. Of a number that no fault has nothing is said.
pub fn text_of(alloc: Global, diag: &Diag) -> Mem<String>
    ensures { IfOk result (λ said. string_bytes said ≡ text diag.now) }
{
    let mut said = String::new(alloc);
    said.push_str(wording(diag.number))?;
    if speaks_of_a_name(diag.number) {
        push_name(alloc, &mut said, &diag.name)?;
        said.push_str(tail(diag.number))?;
    }
    Ok(said)
}

/// Whether a fault's text speaks of a name.
fn speaks_of_a_name(number: u8) -> bool
    ensures { result ≡ speaks_of_a_name number }
{
    match number {
        16 => true,
        29 => true,
        30 => true,
        31 => true,
        32 => true,
        40 => true,
        45 => true,
        _ => false,
    }
}

/// What stands behind the name.
fn tail(number: u8) -> &'static str
    ensures { result.now ≡ tail number }
{
    match number {
        16 => "' redefined",
        32 => "' is another kind of tag",
        _ => "'",
    }
}

fn push_name(alloc: Global, said: &mut String, name: &Option<Name>) -> Mem<()>
    ensures { OnOk result (string_bytes said.new ≡ string_bytes said.old ++ name_text name.now) }
{
    let Some(name) = name else {
        return Ok(());
    };
    let name = shown(alloc, name.bytes())?;
    said.push_str(name.as_str())?;
    Ok(())
}

fn wording(number: u8) -> &'static str
    ensures { result.now ≡ wording number }
{
    word_at(&TEXTS, number as usize)
}

#[tactic(auto, using(crate::proofs::Words::word_found))]
fn word_at<'a>(words: &[&'a str], place: usize) -> &'a str
    ensures { result.now ≡ unwrap_or (slice_get (map (λ word. word.now) words.now) place) [] }
{
    match words.get(place) {
        Some(word) => word,
        None => "",
    }
}
