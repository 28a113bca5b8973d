//! Storage classes, and what else declaration specifiers say (N1570 6.7.1, 6.7.4, 6.7.5).

ghost use Rattle.std.specs.Prelude.{◌≡◌};
ghost use Rattle.cl_specifiers.specs.Storage.{alignment_may_stand, function_may_stand, is_function, is_shared, is_thread, is_unaligned, may_stand, number, one, storage_may_stand, storage_of, thread_may_stand, two};

/// The storage-class specifiers.
#[derive(Clone, Copy)]
pub enum StorageWord {
    Typedef,
    Extern,
    Static,
    Auto,
    Register,
    ThreadLocal,
}

/// The storage of a declaration: 0 for none, 1 `typedef`, 2 `extern`, 3 `static`, 4 `auto`, 5 `register`; and whether it is
/// `_Thread_local`.
#[derive(Clone, Copy)]
pub struct Stored {
    pub storage: u8,
    pub thread: bool,
}

/// What declaration specifiers say beside the type: the storage as in `Stored`, and which of `inline`, `_Noreturn` and
/// `_Alignas` stand among them.
#[derive(Clone, Copy)]
pub struct Flags {
    pub storage: u8,
    pub thread: bool,
    pub inline: bool,
    pub noreturn: bool,
    pub alignas: bool,
}

/// What a declaration declares, as far as its specifiers ask.
#[derive(Clone, Copy)]
pub enum Declared {
    Object,
    Function,
    Typedef,
    Parameter,
    Member,
    BitField,
    Nothing,
}

fn number(word: StorageWord) -> u8
    ensures { result ≡ number word }
{
    match word {
        StorageWord::Typedef => 1,
        StorageWord::Extern => 2,
        StorageWord::Static => 3,
        StorageWord::Auto => 4,
        StorageWord::Register => 5,
        StorageWord::ThreadLocal => 0,
    }
}

fn is_shared(word: StorageWord) -> bool
    ensures { result ≡ is_shared word }
{
    match word {
        StorageWord::Extern => true,
        StorageWord::Static => true,
        _ => false,
    }
}

fn is_thread(word: StorageWord) -> bool
    ensures { result ≡ is_thread word }
{
    match word {
        StorageWord::ThreadLocal => true,
        _ => false,
    }
}

fn one(word: StorageWord) -> Stored
    ensures { result ≡ one word }
{
    Stored {
        storage: number(word),
        thread: is_thread(word),
    }
}

fn two(first: StorageWord, second: StorageWord) -> Option<Stored>
    ensures { result ≡ two first second }
{
    if is_thread(first) && is_shared(second) {
        return Some(Stored {
            storage: number(second),
            thread: true,
        });
    }
    if is_thread(second) && is_shared(first) {
        return Some(Stored {
            storage: number(first),
            thread: true,
        });
    }
    None
}

/// The storage that these words give. None comes exactly of two words or more, but for `_Thread_local` beside `static` or
/// `extern` (6.7.1p2).
pub fn storage_of(words: &[StorageWord]) -> Option<Stored>
    ensures { result ≡ storage_of words.now }
{
    match words {
        [] => Some(Stored {
            storage: 0,
            thread: false,
        }),
        [word] => Some(one(*word)),
        [first, second] => two(*first, *second),
        _ => None,
    }
}

fn is_function(what: Declared) -> bool
    ensures { result ≡ is_function what }
{
    match what {
        Declared::Function => true,
        _ => false,
    }
}

fn is_unaligned(what: Declared) -> bool
    ensures { result ≡ is_unaligned what }
{
    match what {
        Declared::Typedef => true,
        Declared::BitField => true,
        Declared::Function => true,
        Declared::Parameter => true,
        _ => false,
    }
}

fn thread_may_stand(flags: Flags, at_file: bool, what: Declared) -> bool
    ensures { result ≡ thread_may_stand flags at_file what }
{
    let is_named = at_file || (flags.storage == 2 || flags.storage == 3);
    !flags.thread || (!is_function(what) && is_named)
}

fn function_may_stand(flags: Flags, what: Declared) -> bool
    ensures { result ≡ function_may_stand flags what }
{
    let is_asked = flags.inline || flags.noreturn;
    !is_asked || is_function(what)
}

fn alignment_may_stand(flags: Flags, what: Declared) -> bool
    ensures { result ≡ alignment_may_stand flags what }
{
    !flags.alignas || (!is_unaligned(what) && flags.storage != 5)
}

fn storage_may_stand(flags: Flags, at_file: bool) -> bool
    ensures { result ≡ storage_may_stand flags at_file }
{
    !at_file || (flags.storage != 4 && flags.storage != 5)
}

/// Whether specifiers may stand on what they declare, at file scope or elsewhere (6.7.1p3, p4, 6.7.4p2, 6.7.5p2, 6.9p2).
pub fn may_stand(flags: Flags, at_file: bool, what: Declared) -> bool
    ensures { result ≡ may_stand flags at_file what }
{
    let first = thread_may_stand(flags, at_file, what) && function_may_stand(flags, what);
    let second = alignment_may_stand(flags, what) && storage_may_stand(flags, at_file);
    first && second
}
