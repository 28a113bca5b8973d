//! Settings, and header sources in memory: what is listed is given, and a file that is too long is a fault.

use cl_base::{
    Config, Define, Duplicate, HeaderSource, List, Mem, Memory, MemoryHeaders, Name, Path, Query,
    Read, Text,
};
use std::alloc::Global;
use std::test::Fail;

/// The most bytes of a header file.
const MOST: usize = 67_108_864;

#[test]
fn a_file_has_at_most_2_to_the_26_bytes(rt: HostRuntime) -> Result<(), Memory> {
    let alloc = rt.alloc();
    let mut answers = List::new(alloc);
    answers.push(Read::Found(spaces(alloc, MOST)?))?;
    answers.push(Read::Found(spaces(alloc, MOST + 1)?))?;
    let path = Path::new(alloc, "/a.h")?;
    let mut files = List::new(alloc);
    files.push((path.duplicate(alloc)?, answers))?;
    let mut headers = MemoryHeaders::new(alloc, files, &[])?;
    let first = headers.read_file(alloc, &path)?;
    assert!(rt; matches!(&first, Read::Found(text) if text.bytes().len() == MOST));
    assert!(rt; matches!(headers.read_file(alloc, &path)?, Read::Failed));
    assert!(rt; matches!(headers.read_file(alloc, &path)?, Read::Failed));
    Ok(())
}

#[test]
fn settings(rt: HostRuntime) -> Result<(), Fail> {
    let alloc = rt.alloc();
    let config = config(alloc, "/usr/include")?;
    let copy = config.duplicate(alloc)?;
    let other = config_of_none(alloc)?;
    assert!(rt; copy.same(&config) && !copy.same(&other));
    assert_eq!(rt; (copy.includes().len(), copy.defines().len()), (1, 1));
    let query = Query::Symbols;
    assert!(rt; query.duplicate(alloc)? == query);
    Ok(())
}

fn spaces(alloc: Global, count: usize) -> Mem<Text> {
    let bytes = Vec::from_elem(alloc, b' ', count)?;
    let text = Text::from_vec(alloc, bytes)?;
    Ok(text)
}

/// A folder, and the macro `N` of `1`.
fn config(alloc: Global, folder: &str) -> Mem<Config> {
    let mut includes = List::new(alloc);
    includes.push(Path::new(alloc, folder)?)?;
    let mut defines = List::new(alloc);
    defines.push(Define {
        name: Name::new(alloc, b"N")?,
        text: Text::new(alloc, b"1")?,
    })?;
    let config = Config::new(alloc, includes, defines)?;
    Ok(config)
}

fn config_of_none(alloc: Global) -> Mem<Config> {
    let config = Config::new(alloc, List::new(alloc), List::new(alloc))?;
    Ok(config)
}
