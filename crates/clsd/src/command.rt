ghost use Rattle.std.specs.Prelude.{◌≡◌, ◌≤◌, IfOk, OnErr, IsTrue, false, Some, None, codes, length, map, option_map, string_bytes};
ghost use Rattle.std.specs.List.{list_all, starts_with};
ghost use Rattle.std.specs.Str.{bytes_eq};
ghost use Rattle.clsd.specs.Words.{behind, command_in, define_in, folder_said, is_identifier, is_name_byte, is_nondigit, length_of_name, macro_said, said_with, words_in, nothing_said, workers_said, folder_or_other};

use cl_base::{Config, Define, List, Mem, Memory, Name, Path, Text};
use std::alloc::Global;

/// What the words of the program ask for.
#[derive(Drop)]
pub enum Command {
    /// A session with these settings that does each job itself, before it takes the next message.
    Serial(Config),
    /// No command: the number, from 0, of the first word that fits no rule, or the count of words where one is missing.
    Bad(u32),
}

/// What the next word is to be.
#[derive(Clone, Copy, PartialEq, Eq)]
pub enum Next {
    /// An option, or nothing.
    Word,
    /// The folder of a `-I`.
    Folder,
    /// The macro of a `-D`.
    Macro,
}

/// What the words after `serve` say so far: whether the number of workers was said, what the next word is to be, and the
/// folders and the macros in order.
#[derive(Drop)]
pub struct Said {
    pub counted: bool,
    pub next: Next,
    pub includes: List<Path>,
    pub defines: List<Define>,
}

/// What the words after the program's name ask for: `serve`, and then any of `--workers=0`, once at most, of `-I DIR` and
/// `-IDIR`, where DIR begins with `/`, and of `-D DEF` and `-DDEF`, where DEF is an identifier, or one with `=` and a text.
pub fn command_of(alloc: Global, words: &[String]) -> Mem<Command>
    ensures { IfOk result (λ command. command ≡ command_in (map string_bytes words.now)) }
{
    match words {
        [] => Ok(Command::Bad(0)),
        [first, options @ ..] => {
            if first.as_str() == "serve" {
                let command = serve_of(alloc, options)?;
                Ok(command)
            } else {
                Ok(Command::Bad(0))
            }
        }
    }
}

/// What the words after `serve` ask for.
fn serve_of(alloc: Global, options: &[String]) -> Mem<Command>
    ensures { IfOk result (λ command. command ≡ words_in 0 (Some nothing_said) (map string_bytes options.now)) }
{
    let mut said = Said {
        counted: false,
        next: Next::Word,
        includes: List::new(alloc),
        defines: List::new(alloc),
    };
    let mut at = 0;
    for word in options {
        let Some(next) = u32::checked_add(at, 1) else {
            return Err(Memory);
        };
        at = next;
        if !take_word(alloc, &mut said, word.as_str())? {
            return Ok(Command::Bad(at));
        }
    }
    if let Next::Word = said.next {
        let config = Config::new(alloc, said.includes, said.defines)?;
        return Ok(Command::Serial(config));
    }
    match at.checked_add(1) {
        Some(missing) => Ok(Command::Bad(missing)),
        None => Err(Memory),
    }
}

/// Takes one word more. False where it fits no rule.
fn take_word(alloc: Global, said: &mut Said, word: &str) -> Mem<bool>
    ensures fits { IfOk result (λ fits. IsTrue fits → said_with said.old word.now ≡ Some said.new) }
    ensures unfit { IfOk result (λ fits. fits ≡ false → said_with said.old word.now ≡ None) }
{
    match said.next {
        Next::Word => take_option(alloc, said, word),
        Next::Folder => take_folder(alloc, said, word),
        Next::Macro => take_macro(alloc, said, word.as_bytes()),
    }
}

/// Takes an option, or the front of one.
fn take_option(alloc: Global, said: &mut Said, word: &str) -> Mem<bool>
    ensures fits { IfOk result (λ fits. IsTrue fits → folder_or_other said.old word.now (behind (codes "-I") word.now) ≡ Some said.new) }
    ensures unfit { IfOk result (λ fits. fits ≡ false → folder_or_other said.old word.now (behind (codes "-I") word.now) ≡ None) }
{
    if let Some(folder) = behind(word, "-I") {
        if folder.is_empty() {
            said.next = Next::Folder;
            return Ok(true);
        }
        return take_folder(alloc, said, folder);
    }
    if let Some(text) = behind(word, "-D") {
        if text.is_empty() {
            said.next = Next::Macro;
            return Ok(true);
        }
        return take_macro(alloc, said, text.as_bytes());
    }
    if word != "--workers=0" || said.counted {
        return Ok(false);
    }
    said.counted = true;
    Ok(true)
}

/// What stands behind a mark, where a word begins with it.
fn behind<'a>(word: &'a str, mark: &str) -> Option<&'a str>
    ensures { option_map (λ rest. rest.now) result ≡ behind mark.now word.now }
{
    word.strip_prefix(mark)
}

/// Takes a folder of headers.
fn take_folder(alloc: Global, said: &mut Said, folder: &str) -> Mem<bool>
    ensures fits { IfOk result (λ fits. IsTrue fits → folder_said said.old folder.now ≡ Some said.new) }
    ensures unfit { IfOk result (λ fits. fits ≡ false → folder_said said.old folder.now ≡ None) }
{
    if !folder.as_bytes().starts_with(b"/".as_slice()) {
        return Ok(false);
    }
    let path = Path::new(alloc, folder)?;
    said.includes.push(path)?;
    said.next = Next::Word;
    Ok(true)
}

/// Takes a macro.
fn take_macro(alloc: Global, said: &mut Said, text: &[u8]) -> Mem<bool>
    ensures fits { IfOk result (λ fits. IsTrue fits → macro_said said.old text.now ≡ Some said.new) }
    ensures unfit { IfOk result (λ fits. fits ≡ false → macro_said said.old text.now ≡ None) }
{
    match define_of(alloc, text)? {
        Some(define) => {
            said.defines.push(define)?;
            said.next = Next::Word;
            Ok(true)
        }
        None => Ok(false),
    }
}

/// The macro of `NAME=TEXT`, or of `NAME`, whose text is `1`.
fn define_of(alloc: Global, text: &[u8]) -> Mem<Option<Define>>
    ensures { IfOk result (λ define. define ≡ define_in text.now) }
{
    let (name, rest) = text.split_at(length_of_name(text));
    if !is_identifier(name) {
        return Ok(None);
    }
    let text = match rest {
        [] => b"1".as_slice(),
        [_, text @ ..] => text,
    };
    let name = Name::new(alloc, name)?;
    let text = Text::new(alloc, text)?;
    Ok(Some(Define { name, text }))
}

/// How many bytes stand before the first `=`: all, where there is none.
fn length_of_name(text: &[u8]) -> usize
    ensures value { result ≡ length_of_name text.now }
    ensures within { result ≤ length text.now }
{
    match text.iter().position(|byte| *byte == b'=') {
        Some(length) => length,
        None => text.len(),
    }
}

/// Whether the bytes are an identifier (N1570 6.4.2.1).
fn is_identifier(name: &[u8]) -> bool
    ensures { result ≡ is_identifier name.now }
{
    match name {
        [] => false,
        [first, rest @ ..] => is_nondigit(*first) && are_name_bytes(rest),
    }
}

/// Whether each byte is one of a name.
fn are_name_bytes(bytes: &[u8]) -> bool
    ensures { result ≡ list_all is_name_byte bytes.now }
{
    for byte in bytes {
        if !is_name_byte(*byte) {
            return false;
        }
    }
    true
}

fn is_nondigit(byte: u8) -> bool
    ensures { result ≡ is_nondigit byte }
{
    matches!(byte, b'A'..=b'Z' | b'a'..=b'z' | b'_')
}

fn is_name_byte(byte: u8) -> bool
    ensures { result ≡ is_name_byte byte }
{
    is_nondigit(byte) || matches!(byte, b'0'..=b'9')
}
