use crate::reading::{tokens_of, two_names};
use cl_base::Mem;
use cl_expr::{parse, parse_expr};
use cl_tree::Nonterminal;
use std::alloc::Global;
use std::test::Fail;

/// A large text: so many times the first, the second, so many times the third; and whether it has a tree.
struct Case {
    before: &'static [u8],
    count: u32,
    middle: &'static [u8],
    after: &'static [u8],
    has_tree: bool,
}

/// The height of `(` around one name is 3 and two for each more; at 254 it is 511, at 255 it is 513.
static CASES: [Case; 9] = [
    Case {
        before: b"(",
        count: 100_000,
        middle: b"a",
        after: b"",
        has_tree: false,
    },
    Case {
        before: b"+",
        count: 1_000_000,
        middle: b"",
        after: b"",
        has_tree: false,
    },
    Case {
        before: b"- ",
        count: 1_000_000,
        middle: b"a",
        after: b"",
        has_tree: false,
    },
    Case {
        before: b"a[",
        count: 100_000,
        middle: b"a",
        after: b"",
        has_tree: false,
    },
    Case {
        before: b"a + ",
        count: 500_000,
        middle: b"a",
        after: b"",
        has_tree: false,
    },
    Case {
        before: b"a, ",
        count: 1_000_000,
        middle: b"a",
        after: b"",
        has_tree: false,
    },
    Case {
        before: b"a, ",
        count: 100,
        middle: b"a",
        after: b"",
        has_tree: true,
    },
    Case {
        before: b"(",
        count: 510,
        middle: b"a",
        after: b")",
        has_tree: true,
    },
    Case {
        before: b"(",
        count: 511,
        middle: b"a",
        after: b")",
        has_tree: false,
    },
];

/// What would make a block higher than 512 is a bad item of it. The height of `if (a) ;` is 3, and each `if (a)` before it
/// makes one more.
static STATEMENTS: [Case; 8] = [
    Case {
        before: b"{",
        count: 100_000,
        middle: b"",
        after: b"}",
        has_tree: true,
    },
    Case {
        before: b"{ do ",
        count: 100_000,
        middle: b";",
        after: b"}",
        has_tree: true,
    },
    Case {
        before: b"{ if (a) ",
        count: 100_000,
        middle: b"",
        after: b"",
        has_tree: false,
    },
    Case {
        before: b"if (a) ",
        count: 510,
        middle: b";",
        after: b"",
        has_tree: true,
    },
    Case {
        before: b"if (a) ",
        count: 511,
        middle: b";",
        after: b"",
        has_tree: false,
    },
    Case {
        before: b"if (a) ; else ",
        count: 100_000,
        middle: b";",
        after: b"",
        has_tree: false,
    },
    Case {
        before: b"if (a) ",
        count: 250,
        middle: b";",
        after: b" else ;",
        has_tree: true,
    },
    Case {
        before: b"a: ",
        count: 300_000,
        middle: b";",
        after: b"",
        has_tree: false,
    },
];

/// What stands in a block, so many times before and after, with a lost `else` in its midst: it always has a tree.
struct Nested {
    before: &'static [u8],
    count: u32,
    middle: &'static [u8],
    after: &'static [u8],
}

/// Time that doubled with each of these nestings would never end.
static NESTINGS: [Nested; 9] = [
    Nested {
        before: b"if (a) ",
        count: 150,
        middle: b"x; else 1 +; ",
        after: b"",
    },
    Nested {
        before: b"if (a) if (b) x; else do ",
        count: 150,
        middle: b"1 +;",
        after: b"",
    },
    Nested {
        before: b"if (a) x; else do ",
        count: 20_000,
        middle: b"1 +;",
        after: b"",
    },
    Nested {
        before: b"do if (a) if (b) x; else ",
        count: 120,
        middle: b"y;",
        after: b" while (c);",
    },
    Nested {
        before: b"do if (a) x; else do if (b) y; else ",
        count: 20_000,
        middle: b"1 +;",
        after: b" while (c);",
    },
    Nested {
        before: b"if (a) x; else ",
        count: 20_000,
        middle: b"1 +;",
        after: b"",
    },
    Nested {
        before: b"if (a) x; else { ",
        count: 20_000,
        middle: b"",
        after: b"} ",
    },
    Nested {
        before: b"if (a) { } else 1 +; ",
        count: 20_000,
        middle: b"",
        after: b"",
    },
    Nested {
        before: b"if (sizeof(enum { T })) if (b) x; else (T) 3; T y; ",
        count: 20_000,
        middle: b"",
        after: b"",
    },
];

#[test]
fn lost_elses(rt: HostRuntime) -> Result<(), Fail> {
    let alloc = rt.alloc();
    for case in NESTINGS.as_slice() {
        assert!(rt; in_block(alloc, case)?, "{}", case.count);
    }
    Ok(())
}

/// Whether a block of these has a tree.
fn in_block(alloc: Global, case: &Nested) -> Mem<bool> {
    let mut text = Vec::new(alloc);
    text.extend_from_slice(b"{ ")?;
    for _ in 0..case.count {
        text.extend_from_slice(case.before)?;
    }
    text.extend_from_slice(case.middle)?;
    for _ in 0..case.count {
        text.extend_from_slice(case.after)?;
    }
    text.extend_from_slice(b" }")?;
    let tokens = tokens_of(alloc, text.as_slice())?;
    let goal = Nonterminal::CompoundStatement;
    let tree = parse(alloc, tokens.as_slice(), &two_names(alloc)?, goal)?;
    Ok(tree.is_some())
}

#[test]
fn sizes(rt: HostRuntime) -> Result<(), Fail> {
    let alloc = rt.alloc();
    for case in CASES.as_slice() {
        let found = has_tree(alloc, case, Nonterminal::Expression)?;
        assert!(rt; found == case.has_tree, "{}", case.count);
    }
    assert!(rt; call(alloc)?, "a call with a million arguments");
    Ok(())
}

#[test]
fn statements(rt: HostRuntime) -> Result<(), Fail> {
    let alloc = rt.alloc();
    for case in STATEMENTS.as_slice() {
        let found = has_tree(alloc, case, Nonterminal::Statement)?;
        assert!(rt; found == case.has_tree, "{}", case.count);
    }
    assert!(rt; block(alloc)?, "a block of 800,000 items");
    Ok(())
}

fn has_tree(alloc: Global, case: &Case, goal: Nonterminal) -> Mem<bool> {
    let mut text = Vec::new(alloc);
    for _ in 0..case.count {
        text.extend_from_slice(case.before)?;
    }
    text.extend_from_slice(case.middle)?;
    for _ in 0..case.count {
        text.extend_from_slice(case.after)?;
    }
    let tokens = tokens_of(alloc, text.as_slice())?;
    let tree = parse(alloc, tokens.as_slice(), &two_names(alloc)?, goal)?;
    Ok(tree.is_some())
}

/// Whether a call with a million arguments has its tree: its second part's third part has a million parts.
fn call(alloc: Global) -> Mem<bool> {
    let mut text = Vec::new(alloc);
    text.extend_from_slice(b"f(a")?;
    for _ in 0..999_999 {
        text.extend_from_slice(b",a")?;
    }
    text.extend_from_slice(b")")?;
    let tokens = tokens_of(alloc, text.as_slice())?;
    let Some(tree) = parse_expr(alloc, tokens.as_slice(), &two_names(alloc)?)? else {
        return Ok(false);
    };
    let Some(list) = tree.parts.get(2) else {
        return Ok(false);
    };
    Ok(tree.to as usize == tokens.len() && list.parts.len() == 1_000_000)
}

/// Whether a block of many items has its tree: its second part has as many parts.
fn block(alloc: Global) -> Mem<bool> {
    let mut text = Vec::new(alloc);
    text.extend_from_slice(b"{")?;
    for _ in 0..200_000 {
        text.extend_from_slice(b"if (T) x; T y; 1 +; { }")?;
    }
    text.extend_from_slice(b"}")?;
    let tokens = tokens_of(alloc, text.as_slice())?;
    let goal = Nonterminal::CompoundStatement;
    let Some(tree) = parse(alloc, tokens.as_slice(), &two_names(alloc)?, goal)? else {
        return Ok(false);
    };
    let Some(list) = tree.parts.get(1) else {
        return Ok(false);
    };
    Ok(tree.to as usize == tokens.len() && list.parts.len() == 800_000)
}
