//! Macros that come and go, and runs that are long or deep.

use cl_base::{
    Config, Define, Duplicate, EmptyBase, LineTable, List, Macro, Mem, Name, Path, PpToken, Span,
    Text,
};
use cl_define::{object_like, predefined, read_define};
use cl_lex::lex;
use cl_macro::{Defined, Expanded, MacroTable};
use std::alloc::Global;
use std::test::Fail;

const NAME_PLACE: Span = Span {
    file: 3,
    from: 8,
    to: 9,
};

/// The macro of a line behind its `define`.
fn read(alloc: Global, line: &str) -> Mem<Option<Macro>> {
    let lexed = lex(alloc, line.as_bytes())?;
    read_define(alloc, lexed.tokens.as_slice(), NAME_PLACE)
}

/// The table of these definitions, one a line.
fn table_of(alloc: Global, defines: &str) -> Mem<MacroTable> {
    let mut table = MacroTable::new(alloc);
    for line in defines.split("\n") {
        if let Some(mac) = read(alloc, line)? {
            let _how = table.define(alloc, &EmptyBase, mac)?;
        }
    }
    Ok(table)
}

/// The tokens of a file's text.
fn run_of(alloc: Global, text: &[u8]) -> Mem<List<PpToken>> {
    let lexed = lex(alloc, text)?;
    let mut run = List::new(alloc);
    for token in lexed.tokens.as_slice() {
        let at = Span {
            file: 0,
            from: token.from,
            to: token.to,
        };
        run.push(PpToken {
            kind: token.kind,
            text: token.text.duplicate(alloc)?,
            space: token.space,
            spell: Some(at),
            at,
        })?;
    }
    Ok(run)
}

fn expansion(alloc: Global, table: &MacroTable, text: &[u8]) -> Mem<Expanded> {
    let run = run_of(alloc, text)?;
    let path = Path::new(alloc, "/a\"b.c")?;
    let lines = LineTable::new(alloc, text)?;
    let all = table.expand(alloc, &EmptyBase, run.as_slice(), &path, &lines)?;
    Ok(all)
}

/// The tokens by their spellings, with a space where white space stands.
fn shown(alloc: Global, all: &Expanded) -> Mem<String> {
    let mut shown = Vec::new(alloc);
    for token in all.tokens.as_slice() {
        if token.space && !shown.is_empty() {
            shown.push(b' ')?;
        }
        shown.extend_from_slice(token.text.bytes())?;
    }
    let text = String::from_utf8_lossy(alloc, shown.as_slice())?;
    Ok(text)
}

/// The faults, and then the uses.
fn told_of(alloc: Global, all: &Expanded) -> Mem<String> {
    let mut text = String::new(alloc);
    for fault in all.faults.as_slice() {
        let one = format!(in alloc; "!{}@{}-{} ", fault.number, fault.at.from, fault.at.to)?;
        text.push_str(one.as_str())?;
    }
    for used in all.uses.as_slice() {
        let one = format!(in alloc; "{}-{}:{} ", used.at.from, used.at.to, used.before)?;
        text.push_str(one.as_str())?;
    }
    Ok(text)
}

/// Sixteen macros, each twice the one before.
fn doublings(alloc: Global) -> Mem<MacroTable> {
    let mut text = String::new(alloc);
    text.push_str("a0 0\n")?;
    let mut last = 0;
    for i in 1..=15u32 {
        let one = format!(in alloc; "a{i} a{last} a{last}\n")?;
        text.push_str(one.as_str())?;
        last = i;
    }
    text.push_str("b a15\n")?;
    table_of(alloc, text.as_str())
}

/// An invocation makes 65,535 replacements, and not one more.
#[test]
fn as_many_replacements_as_there_may_be(rt: HostRuntime) -> Result<(), Fail> {
    let alloc = rt.alloc();
    let table = doublings(alloc)?;
    let whole = expansion(alloc, &table, b"a15".as_slice())?;
    assert!(rt; whole.tokens.len() == 32_768 && whole.faults.is_empty());
    let large = expansion(alloc, &table, b"x b a3".as_slice())?;
    assert!(rt; large.tokens.len() == 10);
    let told = told_of(alloc, &large)?;
    assert!(rt; told.as_str() == "!17@2-3 4-6:2 ", "{told}");
    Ok(())
}

/// A long run, and invocations in one another, need no stack as deep.
#[test]
fn long_runs_and_deep_invocations(rt: HostRuntime) -> Result<(), Fail> {
    let alloc = rt.alloc();
    let table = table_of(alloc, "f(x) x")?;
    let mut text = Vec::new(alloc);
    for _ in 0..10_000 {
        text.extend_from_slice(b"a + f(1) ".as_slice())?;
    }
    for _ in 0..500 {
        text.extend_from_slice(b"f(".as_slice())?;
    }
    text.push(b'2')?;
    for _ in 0..500 {
        text.push(b')')?;
    }
    let all = expansion(alloc, &table, text.as_slice())?;
    assert!(rt; all.tokens.len() == 30_001 && all.faults.is_empty());
    Ok(())
}

/// A definition stands until another one, or until it is taken away.
#[test]
fn definitions_come_and_go(rt: HostRuntime) -> Result<(), Fail> {
    let alloc = rt.alloc();
    let mut table = table_of(alloc, "x 1\ny 2\nx 3")?;
    let text = b"x y z".as_slice();
    let all = expansion(alloc, &table, text)?;
    let found = shown(alloc, &all)?;
    assert!(rt; found.as_str() == "3 2 z", "{found}");
    let mut events = all.uses.as_slice().iter().map(|used| used.no.0);
    assert!(rt; events.next() == Some(2) && events.next() == Some(1));
    let run = run_of(alloc, text)?;
    for token in run.as_slice() {
        table.undef(alloc, &token.text)?;
        let found = table.find(alloc, &EmptyBase, &token.text)?;
        assert!(rt; found.is_none());
    }
    let all = expansion(alloc, &table, text)?;
    let found = shown(alloc, &all)?;
    assert!(rt; found.as_str() == "x y z" && table.events() == 6, "{found}");
    Ok(())
}

/// What a definition is after these: new (0), the same (1) or another in its place (2); 3 for none.
fn defined(alloc: Global, defines: &str, line: &str) -> Mem<u8> {
    let mut table = table_of(alloc, defines)?;
    let Some(mac) = read(alloc, line)? else {
        return Ok(3);
    };
    Ok(match table.define(alloc, &EmptyBase, mac)? {
        Defined::New => 0,
        Defined::Same => 1,
        Defined::Replaced { old: _ } => 2,
    })
}

#[test]
fn what_a_definition_is(rt: HostRuntime) -> Result<(), Fail> {
    let alloc = rt.alloc();
    let rows: [(&str, &str, u8); 7] = [
        ("g(a) f(a)", "f(a) a*g", 0),
        ("f(a) a*g", "f(a) a*g", 1),
        ("f(a) a*g", "f(a) a * g", 2),
        ("f(a) a*g", "f(b) b*g", 2),
        ("x (1-1)", "x  (1-1)", 1),
        ("x (1-1)", "x (0)", 2),
        ("v(...) a", "v(a) a", 2),
    ];
    for (defines, line, wanted) in rows {
        let found = defined(alloc, defines, line)?;
        assert!(rt; found == wanted, "{line} after {defines}");
    }
    Ok(())
}

/// A config of the defines of these lines: a name, and behind a space its text.
fn config_of(alloc: Global, lines: &str) -> Mem<Config> {
    let mut defines = List::new(alloc);
    for line in lines.split("\n") {
        let (name, text) = line.split_once(" ").unwrap_or((line, ""));
        defines.push(Define {
            name: Name::new(alloc, name.as_bytes())?,
            text: Text::new(alloc, text.as_bytes())?,
        })?;
    }
    let config = Config::new(alloc, List::new(alloc), defines)?;
    Ok(config)
}

/// A start has as many macros as its config defines.
#[test]
fn many_defines(rt: HostRuntime) -> Result<(), Fail> {
    let alloc = rt.alloc();
    let mut lines = String::new(alloc);
    for i in 0..1_000u32 {
        let one = format!(in alloc; "x{i} {i}\n")?;
        lines.push_str(one.as_str())?;
    }
    lines.push_str("x7 y")?;
    let config = config_of(alloc, lines.as_str())?;
    let mut table = MacroTable::start(alloc, &config)?;
    let all = expansion(alloc, &table, b"x0 x7 x500 x999 x1000".as_slice())?;
    let found = shown(alloc, &all)?;
    assert!(rt; found.as_str() == "0 y 500 999 x1000", "{found}");
    let name = Name::new(alloc, b"x500")?;
    assert!(rt; table.event(alloc, &EmptyBase, &name)?.is_none());
    table.undef(alloc, &name)?;
    let event = table.event(alloc, &EmptyBase, &name)?;
    assert!(rt; matches!(event, Some(no) if no.0 == 0) && table.events() == 1);
    Ok(())
}

/// A macro with 20,000 parameters, each of them made a string.
#[test]
fn many_parameters(rt: HostRuntime) -> Result<(), Fail> {
    let alloc = rt.alloc();
    let mut line = String::new(alloc);
    line.push_str("f(")?;
    let mut body = String::new(alloc);
    for i in 0..20_000u32 {
        let one = format!(in alloc; "p{i},")?;
        line.push_str(one.as_str())?;
        let one = format!(in alloc; "#p{i}")?;
        body.push_str(one.as_str())?;
    }
    line.push_str("...)")?;
    line.push_str(body.as_str())?;
    match read(alloc, line.as_str())? {
        Some(mac) => assert!(rt; mac.body.len() == 40_000 && mac.variadic),
        None => assert!(rt; false, "no macro"),
    }
    Ok(())
}

/// What the crates of macros give beside tables of cases.
#[test]
fn other_calls(rt: HostRuntime) -> Result<(), Fail> {
    let alloc = rt.alloc();
    assert!(rt; predefined(alloc)?.len() == 8, "predefined macros");
    let name = Name::new(alloc, b"a")?;
    let lexed = lex(alloc, b"1 + x".as_slice())?;
    match object_like(alloc, &name, lexed.tokens.as_slice())? {
        Some(mac) => assert!(rt; mac.body.len() == 3 && mac.params.is_none()),
        None => assert!(rt; false, "no macro"),
    }
    Ok(())
}
