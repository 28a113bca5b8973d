use cl_base::{Mem, Path};
use cl_paths::{path_of_uri, path_read_back, uri_of_path};
use std::alloc::Global;
use std::test::Fail;

#[test]
fn uris(rt: HostRuntime) -> Result<(), Fail> {
    let alloc = rt.alloc();
    for line in read_table().lines() {
        assert!(rt; read_is_so(alloc, line)?, "{line}");
    }
    for line in refused_table().lines() {
        assert!(rt; path_of_uri(alloc, line)?.is_none(), "{line}");
    }
    assert!(rt; path_of_uri(alloc, "")?.is_none());
    for line in written_table().lines() {
        assert!(rt; written_is_so(alloc, line)?, "{line}");
    }
    path_read_back();
    Ok(())
}

/// URIs and the paths that they name: the worked forms, and how VS Code, Neovim, Emacs and Helix write a path with a
/// blank, a plus, a colon, an é, and a bracket.
fn read_table() -> &'static str {
    "file:///a%20b/%C3%A9.c => /a b/é.c
FILE://localhost/a?b => /a
file://LocalHost/a => /a
file:/a => /a
file:/a/../b#c?d => /b
file:/// => /
file:////a//b => /a/b
file:///a#b => /a
file:///a%3Fb%23c => /a?b#c
file:///a%2Fb => /a/b
file:///a%252Fb => /a%2Fb
file:///%2e%2E/x => /x
file:///a/%2e/b => /a/b
file:///100%/a%2 => /100%/a%2
file:///a%zz%4g => /a%zz%4g
file:///%41 => /A
file:///p/a%20b.c => /p/a b.c
file:///p/a%2Bb.c => /p/a+b.c
file:///p/a+b.c => /p/a+b.c
file:///p/a%3Ab.c => /p/a:b.c
file:///p/a%3ab.c => /p/a:b.c
file:///p/a:b.c => /p/a:b.c
file:///p/%C3%A9.c => /p/é.c
file:///p/%c3%a9.c => /p/é.c
file:///p/é.c => /p/é.c
file:///p/a%5Bb.c => /p/a[b.c
file:///p/a[b.c => /p/a[b.c"
}

fn read_is_so(alloc: Global, line: &str) -> Mem<bool> {
    let Some((uri, wanted)) = line.split_once(" => ") else {
        return Ok(false);
    };
    match path_of_uri(alloc, uri)? {
        Some(path) => Ok(path.text() == wanted),
        None => Ok(false),
    }
}

/// URIs that name no path.
fn refused_table() -> &'static str {
    "http://h/a
file://h/a
file
file:
file:a
file://
file://localhost
file://localhost?x
file://localhost:80/a
file://localhos/a
file:?/a
file:%2Fa
files:///a
untitled:Untitled-1
/a
file:///a%00b
file:///%FF
file:///%C3"
}

/// Paths and the URIs that are written for them.
fn written_table() -> &'static str {
    "/a b/é.c => file:///a%20b/%C3%A9.c
/ => file:///
/a-b.c_d~e/Z9 => file:///a-b.c_d~e/Z9
/p/a+b:c[d].c => file:///p/a%2Bb%3Ac%5Bd%5D.c
/100%/a?b#c => file:///100%25/a%3Fb%23c
/x@y!$&'()*,;= => file:///x%40y%21%24%26%27%28%29%2A%2C%3B%3D
a.c => file://a.c"
}

fn written_is_so(alloc: Global, line: &str) -> Mem<bool> {
    let Some((path, wanted)) = line.split_once(" => ") else {
        return Ok(false);
    };
    let path = Path::new(alloc, path)?;
    let uri = uri_of_path(alloc, &path)?;
    if uri.as_str() != wanted {
        return Ok(false);
    }
    match path_of_uri(alloc, uri.as_str())? {
        Some(back) => Ok(back == path),
        None => Ok(path.text() == "a.c"),
    }
}
