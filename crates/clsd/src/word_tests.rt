//! Words of the program against what they ask for. In a row the words stand between bars.

use crate::command::{Command, command_of};
use cl_base::{Config, Memory};
use std::alloc::Global;
use std::test::Fail;

const ROWS: &str = "serve => serial
serve|--workers=0 => serial
serve|-I|/a|-I/b => serial /a /b
serve|-I/|-I|/a/../b => serial / /a/../b
serve|-DX|-D|Y=int y;|-DZ= => serial X=1 Y=int y; Z=
serve|-DX=1=2|-DX => serial X=1=2 X=1
serve|-D|_x9|--workers=0|-I/ => serial / _x9=1
serve|-I => bad 2
serve|-D => bad 2
serve|-Ia => bad 1
serve|-I|./a => bad 2
serve|-I|-I/a => bad 2
serve|-D|1x => bad 2
serve|-D=1 => bad 1
serve|-Dx y => bad 1
serve|-Df(a)=a => bad 1
serve|-D|-DX => bad 2
serve|-I/a|--workers=0|--workers=0 => bad 3
serve|--workers=1 => bad 1
serve|--workers=00 => bad 1
serve|--workers=0|-x => bad 2
serve|/a.c => bad 1
serve|serve => bad 1
serve| => bad 1
Serve => bad 0
check|/a.c => bad 0";

#[test]
fn words(rt: HostRuntime) -> Result<(), Fail> {
    let alloc = rt.alloc();
    for row in ROWS.lines() {
        let (words, wanted) = row.split_once(" => ").unwrap_or((row, "?"));
        let told = asked(alloc, words)?;
        assert_eq!(rt; told.as_str(), wanted, "{row}");
    }
    assert!(rt; matches!(command_of(alloc, &[]), Ok(Command::Bad(0))));
    Ok(())
}

/// What words ask for, told in a line.
fn asked(alloc: Global, row: &str) -> Result<String, Fail> {
    let mut words = Vec::new(alloc);
    for word in row.split('|') {
        words.push(String::from_str(alloc, word)?)?;
    }
    match command_of(alloc, words.as_slice()) {
        Ok(Command::Serial(config)) => settings(alloc, &config),
        Ok(Command::Bad(number)) => Ok(format!(in alloc; "bad {number}")?),
        Err(Memory) => Err("memory".into()),
    }
}

/// The settings, told in a line.
fn settings(alloc: Global, config: &Config) -> Result<String, Fail> {
    let mut line = String::from_str(alloc, "serial")?;
    for folder in config.includes().as_slice() {
        let folder = format!(in alloc; " {}", folder.text())?;
        line.push_str(folder.as_str())?;
    }
    for define in config.defines().as_slice() {
        let name = str::from_utf8(define.name.bytes()).unwrap_or("?");
        let text = str::from_utf8(define.text.bytes()).unwrap_or("?");
        let define = format!(in alloc; " {name}={text}")?;
        line.push_str(define.as_str())?;
    }
    Ok(line)
}
