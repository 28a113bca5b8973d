//! Reads of real files.

use crate::folder::Folder;
use cl_base::{HeaderSource, Memory, Path, Read};
use std::alloc::Global;
use std::fs::{Files, OpenFile};
use std::test::Fail;
use std::{env, fs, process};

/// What a read gives, in a word: the text that was found, or how it wasn't.
fn read<R: Files + Drop>(alloc: Global, files: R, path: &str) -> Result<String, Fail> {
    let mut folder = Folder::new(files);
    let path = Path::new(alloc, path).map_err(of_memory)?;
    let read = folder.read_file(alloc, &path).map_err(of_memory)?;
    let told = match &read {
        Read::Found(text) => format!(in alloc;
            "found {}",
            str::from_utf8(text.bytes()).unwrap_or("?")
        )?,
        Read::Absent => String::from_str(alloc, "absent")?,
        Read::Failed => String::from_str(alloc, "failed")?,
    };
    Ok(told)
}

fn of_memory(_memory: Memory) -> &'static str {
    "memory"
}

/// A file, an empty one, none, a folder, a file as a folder, one that is too long, and a device.
#[test]
fn reads_of_files(rt: HostRuntime) -> Result<(), Fail> {
    let alloc = rt.alloc();
    let temporary = env::temp_dir(&rt)?;
    let number = process::id(rt.process());
    let folder = format!(in alloc; "{}/clsd-{number}", temporary.as_str())?;
    fs::create_dir(&rt, folder.as_str())?;
    let file = format!(in alloc; "{folder}/a.h")?;
    fs::write(&rt, file.as_str(), "int a;\n")?;
    let empty = format!(in alloc; "{folder}/b.h")?;
    fs::write(&rt, empty.as_str(), "")?;
    let long = format!(in alloc; "{folder}/c.h")?;
    fs::write(&rt, long.as_str(), "int c;\n")?;
    fs::OpenOptions::new()
        .write(true)
        .open(&rt, long.as_str())?
        .set_len(67_108_865)?;
    let none = format!(in alloc; "{folder}/d.h")?;
    let below = format!(in alloc; "{folder}/a.h/e.h")?;
    for (path, wanted) in [
        (file.as_str(), "found int a;\n"),
        (empty.as_str(), "found "),
        (long.as_str(), "failed"),
        (none.as_str(), "absent"),
        (below.as_str(), "absent"),
        (folder.as_str(), "failed"),
        ("/dev/null", "failed"),
    ] {
        let told = read(alloc, &rt, path)?;
        assert_eq!(rt; told.as_str(), wanted, "{path}");
    }
    fs::remove_dir_all(&rt, folder.as_str())?;
    Ok(())
}
