//! A language server for C over standard input and output (LSP 3.17).
#![tactic(auto)]

mod command;
mod folder;
#[cfg(test)]
mod folder_tests;
mod outcome;
#[cfg(test)]
mod scripts;
mod serve;
mod session;
#[cfg(test)]
mod tests;
mod turn;
#[cfg(test)]
mod word_tests;
mod work;

use crate::command::{Command, command_of};
use crate::folder::Folder;
use crate::outcome::{NO_MEMORY, WRONG_WORDS};
use crate::serve::serve_serial;
use cl_base::Memory;
use cl_frames::{StdSink, StdSource};
use std::process::ExitCode;
use std::{env, io};

fn main(rt: HostRuntime) -> ExitCode {
    let alloc = rt.alloc();
    let mut words = Vec::new(alloc);
    let given = match env::args(&rt) {
        Ok(given) => given,
        Err(error) => return ExitCode::from(status_of_words(error.kind())),
    };
    for word in given.skip(1) {
        if words.push(word).is_err() {
            return ExitCode::from(NO_MEMORY);
        }
    }
    match command_of(alloc, words.as_slice()) {
        Ok(Command::Serial(_)) => {}
        Ok(Command::Bad(_)) => return ExitCode::from(WRONG_WORDS),
        Err(Memory) => return ExitCode::from(NO_MEMORY),
    }
    let Ok(mut source) = StdSource::new(alloc, rt.stdin()) else {
        return ExitCode::from(NO_MEMORY);
    };
    let mut headers = Folder::new(&rt);
    let mut sink = StdSink::new(rt.stdout());
    let outcome = serve_serial(
        alloc,
        words.as_slice(),
        &mut source,
        &mut sink,
        &mut headers,
    );
    ExitCode::from(outcome.status)
}

/// The status where the words can't be had: one of them isn't UTF-8, or memory is wanting.
fn status_of_words(kind: io::ErrorKind) -> u8 {
    match kind {
        io::ErrorKind::OutOfMemory => NO_MEMORY,
        _ => WRONG_WORDS,
    }
}
