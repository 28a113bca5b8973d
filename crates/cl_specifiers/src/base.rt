//! Type specifiers (N1570 6.7.2p2).

ghost use Rattle.std.specs.Prelude.{◌≡◌, ◌<◌, ◌≤◌, ◌^◌, [], ◌∷◌, length, IfOk};
ghost use Rattle.cl_specifiers.specs.Base.{alone, base_type, double_type, integer_type, is_char, is_double, is_int, is_sized, place, signs, times, with_sign, words_type};

use cl_base::{Duplicate, List, Mem};
use cl_types::CType;
use std::alloc::Global;

/// The type specifiers that are single words.
#[derive(Clone, Copy)]
pub enum TypeWord {
    Void,
    Char,
    Short,
    Int,
    Long,
    Float,
    Double,
    Signed,
    Unsigned,
    Bool,
}

impl TypeWord {
    /// The place of this word in the list of 6.7.2p1, from 0.
    fn place(self) -> u8
        ensures { result ≡ place self }
    {
        self as u8
    }
}

fn times(word: TypeWord, words: &[TypeWord]) -> usize
    ensures value { result ≡ times word words.now }
    ensures room { result ≤ length words.now }
{
    let place = word.place();
    words.iter().filter(|other| other.place() == place).count()
}

/// How many of `signed` and `unsigned` there are.
fn signs(words: &[TypeWord]) -> usize
    requires { length words.now < 2 ^ 32 }
    ensures value { result ≡ signs words.now }
    ensures room { result < 2 ^ 33 }
{
    times(TypeWord::Signed, words) + times(TypeWord::Unsigned, words)
}

fn alone(word: TypeWord, words: &[TypeWord]) -> bool
    ensures { result ≡ alone word words.now }
{
    times(word, words) == 1 && words.len() == 1
}

fn with_sign(words: &[TypeWord], plain: CType, signed: CType, unsigned: CType) -> CType
    ensures { result ≡ with_sign words.now plain signed unsigned }
{
    if times(TypeWord::Signed, words) == 1 {
        signed
    } else if times(TypeWord::Unsigned, words) == 1 {
        unsigned
    } else {
        plain
    }
}

fn is_char(words: &[TypeWord]) -> bool
    requires { length words.now < 2 ^ 32 }
    ensures { result ≡ is_char words.now }
{
    let signs = signs(words);
    times(TypeWord::Char, words) == 1 && (signs <= 1 && words.len() == 1 + signs)
}

/// Whether this word stands so often, with or without `int` and with at most one sign.
fn is_sized(word: TypeWord, count: usize, words: &[TypeWord]) -> bool
    requires room { length words.now < 2 ^ 32 }
    requires few { count ≤ 2 }
    ensures { result ≡ is_sized word count words.now }
{
    let signs = signs(words);
    let ints = times(TypeWord::Int, words);
    times(word, words) == count
        && (ints <= 1 && (signs <= 1 && words.len() == count + (ints + signs)))
}

fn is_int(words: &[TypeWord]) -> bool
    requires { length words.now < 2 ^ 32 }
    ensures { result ≡ is_int words.now }
{
    let signs = signs(words);
    let ints = times(TypeWord::Int, words);
    1 <= words.len() && (ints <= 1 && (signs <= 1 && words.len() == ints + signs))
}

fn is_double(words: &[TypeWord]) -> bool
    requires { length words.now < 2 ^ 32 }
    ensures { result ≡ is_double words.now }
{
    let longs = times(TypeWord::Long, words);
    times(TypeWord::Double, words) == 1 && (longs <= 1 && words.len() == 1 + longs)
}

fn integer_type(words: &[TypeWord]) -> Option<CType>
    requires { length words.now < 2 ^ 32 }
    ensures { result ≡ integer_type words.now }
{
    if is_char(words) {
        return Some(with_sign(words, CType::Char, CType::SChar, CType::UChar));
    }
    if is_sized(TypeWord::Short, 1, words) {
        return Some(with_sign(words, CType::Short, CType::Short, CType::UShort));
    }
    if is_sized(TypeWord::Long, 1, words) {
        return Some(with_sign(words, CType::Long, CType::Long, CType::ULong));
    }
    if is_sized(TypeWord::Long, 2, words) {
        return Some(with_sign(words, CType::LLong, CType::LLong, CType::ULLong));
    }
    if is_int(words) {
        return Some(with_sign(words, CType::Int, CType::Int, CType::UInt));
    }
    None
}

fn double_type(words: &[TypeWord]) -> CType
    ensures { result ≡ double_type words.now }
{
    if times(TypeWord::Long, words) == 1 {
        CType::LDouble
    } else {
        CType::Double
    }
}

fn words_type(words: &[TypeWord]) -> Option<CType>
    requires { length words.now < 2 ^ 32 }
    ensures { result ≡ words_type words.now }
{
    if alone(TypeWord::Void, words) {
        return Some(CType::Void);
    }
    if alone(TypeWord::Bool, words) {
        return Some(CType::Bool);
    }
    if alone(TypeWord::Float, words) {
        return Some(CType::Float);
    }
    if is_double(words) {
        return Some(double_type(words));
    }
    integer_type(words)
}

/// The type of a declaration's type specifiers in any order: its words, and the types that `_Atomic(T)`, a tag or a typedef
/// name stand for. None comes exactly where they are none of the lists of 6.7.2p2.
pub fn base_type(alloc: Global, words: &List<TypeWord>, named: &[CType]) -> Mem<Option<CType>>
    ensures { IfOk result (λ made. made ≡ base_type words.now named.now) }
{
    match named {
        [] => Ok(words_type(words.as_slice())),
        [only] => only_named(alloc, words.as_slice(), only),
        _ => Ok(None),
    }
}

fn only_named(alloc: Global, words: &[TypeWord], only: &CType) -> Mem<Option<CType>>
    ensures { IfOk result (λ made. made ≡ base_type words.now (only.now ∷ [])) }
{
    match words {
        [] => {
            let t = only.duplicate(alloc)?;
            Ok(Some(t))
        }
        _ => Ok(None),
    }
}
