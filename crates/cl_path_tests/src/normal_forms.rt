use cl_base::{Mem, Path};
use cl_paths::{folder_of, join, normalise, one_normal_form};
use std::alloc::Global;
use std::test::Fail;

#[test]
fn normal_forms(rt: HostRuntime) -> Result<(), Fail> {
    let alloc = rt.alloc();
    for line in normal_table().lines() {
        assert!(rt; normal_is_so(alloc, line)?, "{line}");
    }
    for line in join_table().lines() {
        assert!(rt; join_is_so(alloc, line)?, "{line}");
    }
    for line in folder_table().lines() {
        assert!(rt; folder_is_so(alloc, line)?, "{line}");
    }
    one_normal_form();
    Ok(())
}

/// Paths and their normal forms. But for the empty path all are those of `posixpath.normpath`.
fn normal_table() -> &'static str {
    "[] => .
[/] => /
[.] => .
[..] => ..
[/a//b/./../c] => /a/c
[/../x] => /x
[../x/..] => ..
[a/..] => .
[a/../..] => ..
[../..] => ../..
[../../a/../b] => ../../b
[/../../..] => /
[/a/b/../..] => /
[/a/] => /a
[a/] => a
[./a/./b/.] => a/b
[///a] => /a
[/...] => /...
[..a/.b/c..] => ..a/.b/c..
[/a b/é.c] => /a b/é.c
[/a/b/c/../../d/e/..] => /a/d"
}

fn normal_is_so(alloc: Global, line: &str) -> Mem<bool> {
    match line.split_once(" => ") {
        Some((given, wanted)) => {
            let given = inside(given);
            let normal = normalise(alloc, given)?;
            let again = normalise(alloc, normal.text())?;
            Ok(normal.text() == wanted && again.text() == wanted)
        }
        None => Ok(false),
    }
}

/// What stands between the brackets.
fn inside(given: &str) -> &str {
    match given.strip_prefix("[") {
        Some(rest) => rest.strip_suffix("]").unwrap_or(rest),
        None => given,
    }
}

/// Folders, names, and what the name means in the folder.
fn join_table() -> &'static str {
    "/p k.h => /p/k.h
/p/ k.h => /p/k.h
/p ../k.h => /k.h
/p ../../k.h => /k.h
/p sys//./k.h => /p/sys/k.h
/p /usr/../k.h => /k.h
. k.h => k.h
.. k.h => ../k.h
a ../../k.h => ../k.h
/ k.h => /k.h"
}

fn join_is_so(alloc: Global, line: &str) -> Mem<bool> {
    let Some((given, wanted)) = line.split_once(" => ") else {
        return Ok(false);
    };
    match given.split_once(' ') {
        Some((folder, name)) => {
            let folder = Path::new(alloc, folder)?;
            let path = join(alloc, &folder, name)?;
            Ok(path.text() == wanted)
        }
        None => Ok(false),
    }
}

/// Paths and their folders.
fn folder_table() -> &'static str {
    "/a/b.c => /a
/a => /
/ => /
/a//b/../c.c => /a
/a/.. => /
a.c => .
a/b.c => a
. => .
a/.. => .
../a.c => ..
../../a.c => ../.."
}

fn folder_is_so(alloc: Global, line: &str) -> Mem<bool> {
    match line.split_once(" => ") {
        Some((given, wanted)) => {
            let path = Path::new(alloc, given)?;
            let folder = folder_of(alloc, &path)?;
            Ok(folder.text() == wanted)
        }
        None => Ok(false),
    }
}

#[test]
fn long_paths(rt: HostRuntime) -> Result<(), Fail> {
    let alloc = rt.alloc();
    let turns = repeated(alloc, "a/../", 100000)?;
    assert!(rt; normalise(alloc, turns.as_str())?.text() == ".");
    let downs = repeated(alloc, "a//", 100000)?;
    assert!(rt; normalise(alloc, downs.as_str())?.text().len() == 199999);
    Ok(())
}

fn repeated(alloc: Global, part: &str, times: usize) -> Mem<String> {
    let mut text = String::new(alloc);
    for _ in 0..times {
        text.push_str(part)?;
    }
    Ok(text)
}
