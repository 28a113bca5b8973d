//! The macros that are there before a text begins (N1570 6.10.8).

ghost use Rattle.std.specs.Prelude.{◌≡◌, [], IfOk};
ghost use Rattle.std.specs.List.{list_any};
ghost use Rattle.cl_base.specs.Tokens.{spells};
ghost use Rattle.cl_define.specs.Predefined.{is_reserved, one_token, predefined, standing};

use cl_base::{BodyToken, Kind, List, Macro, Mem, Name};
use std::alloc::Global;

/// The names that are neither defined nor undefined.
const RESERVED: [&[u8]; 9] = [
    b"defined",
    b"__STDC__",
    b"__STDC_HOSTED__",
    b"__STDC_VERSION__",
    b"__STDC_NO_COMPLEX__",
    b"__DATE__",
    b"__TIME__",
    b"__FILE__",
    b"__LINE__",
];

/// Whether the name may be neither defined nor undefined: it is `defined`, or a predefined macro has it
/// (N1570 6.10.8p4).
pub fn is_reserved(name: &[u8]) -> bool
    ensures { result ≡ is_reserved name.now }
{
    is_among(&RESERVED, name)
}

fn is_among(words: &[&[u8]], name: &[u8]) -> bool
    ensures { result ≡ list_any (λ word. spells word.now name.now) words.now }
{
    words.iter().any(|word| *word == name)
}

/// The predefined macros (N1570 6.10.8.1, 6.10.8.3). `__FILE__` and `__LINE__` are among them without a token, since
/// theirs depend on the place.
pub fn predefined(alloc: Global) -> Mem<List<Macro>>
    ensures { IfOk result (λ all. all ≡ predefined) }
{
    let mut all = List::new(alloc);
    all.push(constant(alloc, b"__STDC__".as_slice(), Kind::Number, b"1".as_slice())?)?;
    all.push(constant(
        alloc,
        b"__STDC_HOSTED__".as_slice(),
        Kind::Number,
        b"1".as_slice(),
    )?)?;
    all.push(constant(
        alloc,
        b"__STDC_VERSION__".as_slice(),
        Kind::Number,
        b"201112L".as_slice(),
    )?)?;
    all.push(constant(
        alloc,
        b"__STDC_NO_COMPLEX__".as_slice(),
        Kind::Number,
        b"1".as_slice(),
    )?)?;
    all.push(constant(
        alloc,
        b"__DATE__".as_slice(),
        Kind::Str,
        b"\"Jan  1 1970\"".as_slice(),
    )?)?;
    all.push(constant(
        alloc,
        b"__TIME__".as_slice(),
        Kind::Str,
        b"\"00:00:00\"".as_slice(),
    )?)?;
    all.push(standing(alloc, b"__FILE__".as_slice(), List::new(alloc))?)?;
    all.push(standing(alloc, b"__LINE__".as_slice(), List::new(alloc))?)?;
    Ok(all)
}

/// A macro with this one token.
fn constant(alloc: Global, name: &[u8], kind: Kind, text: &[u8]) -> Mem<Macro>
    ensures { IfOk result (λ mac. mac ≡ standing name.now (one_token kind text.now)) }
{
    let text = Name::new(alloc, text)?;
    let mut body = List::new(alloc);
    body.push(BodyToken {
        kind,
        text,
        space: false,
    })?;
    let mac = standing(alloc, name, body)?;
    Ok(mac)
}

fn standing(alloc: Global, name: &[u8], body: List<BodyToken>) -> Mem<Macro>
    ensures { IfOk result (λ mac. mac ≡ standing name.now body) }
{
    let name = Name::new(alloc, name)?;
    Ok(Macro {
        name,
        params: None,
        variadic: false,
        body,
        place: None,
    })
}
