//! Goes through a table of cases about types and prints it anew, each case with what it comes to. A table that is as it should be is
//! printed as it was read.
#![tactic(auto)]

mod chains;
mod constants;
mod conversions;
mod layouts;
mod literals;
mod specifiers;
mod table;
mod types;

use crate::table::Table;
use std::io;
use std::process::ExitCode;

fn main(rt: HostRuntime) -> io::Result<ExitCode> {
    let alloc = rt.alloc();
    let mut table = Table::new();
    for line in rt.lines(alloc) {
        let line = line?;
        let Ok(shown) = table.line(alloc, line.as_str()) else {
            return Ok(ExitCode::from(7));
        };
        print!(rt; "{shown}")?;
    }
    Ok(ExitCode::from(0))
}
