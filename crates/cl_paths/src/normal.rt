ghost use Rattle.std.specs.Prelude.{◌≡◌, ◌∷◌, ◌++◌, ◌-◌, IfOk, OnOk, string_bytes, length, take, reverse};
ghost use Rattle.std.specs.List.{flat_map};
ghost use Rattle.cl_paths.specs.Parts.{slash, parts, is_rooted, gone_up, gone_on, standing, normal_parts, spelled, normal_form, joined, folder, after_slash, texts};

use cl_base::{Mem, Path};
use std::alloc::Global;

/// The normal form of a path: empty parts and `.` go, and `..` takes the part before it away. At the root `..` goes; at
/// the start of another path, and after a `..` that stayed, it stays. The empty result of such a path is `.`.
#[tactic(auto, unfolding(crate::specs::Parts::normal_form))]
pub fn normalise(alloc: Global, path: &str) -> Mem<Path>
    ensures { IfOk result (λ normal. normal ≡ normal_form path.now) }
{
    let rooted = is_rooted(path);
    let parts = normal_parts(alloc, rooted, path)?;
    let normal = path_of(alloc, rooted, parts.as_slice())?;
    Ok(normal)
}

/// The path that a name means in a folder: the name's own where it begins with `/`, and else that of the folder, `/` and
/// the name.
#[tactic(auto, unfolding(crate::specs::Parts::joined))]
pub fn join(alloc: Global, folder: &Path, name: &str) -> Mem<Path>
    ensures { IfOk result (λ path. path ≡ joined folder.now name.now) }
{
    if is_rooted(name) {
        let path = normalise(alloc, name)?;
        return Ok(path);
    }
    let mut text = String::from_str(alloc, folder.text())?;
    text.push_str("/")?;
    text.push_str(name)?;
    let path = normalise(alloc, text.as_str())?;
    Ok(path)
}

/// The folder of a path: its normal form without the last part. It is `.` for a relative path of one part, and `/` where
/// only the root is left.
#[tactic(auto, unfolding(crate::specs::Parts::folder))]
pub fn folder_of(alloc: Global, path: &Path) -> Mem<Path>
    ensures { IfOk result (λ above. above ≡ folder path.now) }
{
    let rooted = is_rooted(path.text());
    let mut parts = normal_parts(alloc, rooted, path.text())?;
    parts.pop();
    let above = path_of(alloc, rooted, parts.as_slice())?;
    Ok(above)
}

/// Whether a path begins at the root.
fn is_rooted(path: &str) -> bool
    ensures { result ≡ is_rooted path.now }
{
    match path.as_bytes() {
        [first, ..] => *first == b'/',
        [] => false,
    }
}

/// What stands between the slashes of a path.
fn parts_of<'a>(alloc: Global, path: &'a str) -> Mem<Vec<&'a str>>
    ensures { IfOk result (λ found. texts found.items ≡ parts path.now) }
{
    let found = path.split('/').collect(alloc)?;
    Ok(found)
}

/// The parts that the normal form keeps.
#[tactic(auto, unfolding(crate::specs::Parts::standing))]
fn normal_parts<'a>(alloc: Global, rooted: bool, path: &'a str) -> Mem<Vec<&'a str>>
    ensures { IfOk result (λ kept. texts kept.items ≡ standing rooted (parts path.now)) }
{
    let parts = parts_of(alloc, path)?;
    let mut kept = Vec::new(alloc);
    for part in parts.as_slice() {
        go_on(&mut kept, rooted, part)?;
    }
    Ok(kept)
}

/// Takes one more part.
fn go_on<'a>(kept: &mut Vec<&'a str>, rooted: bool, part: &'a str) -> Mem<()>
    ensures { OnOk result (reverse (texts kept.new.items) ≡ gone_on rooted (reverse (texts kept.old.items)) part.now) }
{
    if part == "" || part == "." {
        return Ok(());
    }
    if part == ".." {
        go_up(kept, rooted, part)?;
        return Ok(());
    }
    kept.push(part)?;
    Ok(())
}

/// Takes a `..`.
fn go_up<'a>(kept: &mut Vec<&'a str>, rooted: bool, up: &'a str) -> Mem<()>
    requires { up.now ≡ Rattle.cl_paths.specs.Parts.up }
    ensures { OnOk result (reverse (texts kept.new.items) ≡ gone_up rooted (reverse (texts kept.old.items))) }
{
    match kept.last() {
        None if rooted => Ok(()),
        Some(last) if *last != ".." => {
            kept.pop();
            Ok(())
        }
        _ => {
            kept.push(up)?;
            Ok(())
        }
    }
}

/// The path of these parts.
fn path_of(alloc: Global, rooted: bool, parts: &[&str]) -> Mem<Path>
    ensures { IfOk result (λ path. path ≡ spelled rooted (texts parts.now)) }
{
    let Some((first, others)) = parts.split_first() else {
        let path = Path::new(alloc, if rooted { "/" } else { "." })?;
        return Ok(path);
    };
    let mut text = String::new(alloc);
    if rooted {
        text.push_str("/")?;
    }
    text.push_str(first)?;
    push_parts(&mut text, others)?;
    let path = Path::new(alloc, text.as_str())?;
    Ok(path)
}

/// Adds the parts at the end, each after a slash.
fn push_parts(text: &mut String, parts: &[&str]) -> Mem<()>
    ensures { OnOk result (string_bytes text.new ≡ string_bytes text.old ++ flat_map after_slash (texts parts.now)) }
{
    for part in parts {
        text.push_str("/")?;
        text.push_str(part)?;
    }
    Ok(())
}
