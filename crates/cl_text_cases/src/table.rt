//! A table of cases. A line with ` => ` is a case: what is given, and behind the arrow what it comes to. Of the other lines
//! `[section]` begins a section, `#define` defines a macro, and an empty line and one that begins with `;` say nothing. What
//! is given may have several parts, with ` | ` between them.

use crate::{conditions, definitions, faults, includes, macros, sections, texts, tokens};
use cl_base::{Mem, Memory};
use cl_cases::{escaped, unescaped};
use cl_macro::MacroTable;
use std::alloc::Global;
use std::mem;

/// What the cases of a section are about.
#[derive(Clone, Copy, Drop)]
enum Section {
    /// Texts, with their tokens and faults after phases 1 to 3 (N1570 5.1.1.2).
    Tokens,
    /// Spellings, with the kind of the one token that each is.
    OneToken,
    /// Files in words, with their marks and faults (6.10).
    Groups,
    /// Conditions in words, with their values (6.6, 6.10.1).
    Conditions,
    /// Lines behind `define`, with the macros that they define (6.10.3).
    Definitions,
    /// Two lines behind `define`, with whether the second may follow the first (6.10.3p2).
    Same,
    /// A name and a list of tokens of the settings, with the macro that they make.
    Settings,
    /// Definitions, and texts with their tokens after macro replacement (6.10.3).
    Replaced,
    /// Definitions, and texts with their tokens, white space kept, faults and uses.
    Told,
    /// Defines of the settings and a text, with its tokens.
    Started,
    /// Texts, with their tokens and faults after phase 4.
    Texts,
    /// Texts, with their macro events, uses and names looked up.
    Noted,
    /// Headers and a text, with its tokens and faults after phase 4, and the headers that were asked for.
    Includes,
    /// Numbers of diagnostics and names, with what is said and how severe it is.
    Diagnostics,
    /// A text of several lines up to a line `=>`, with its tokens after phase 4.
    Whole,
}

/// What stands between the lines of a table.
#[derive(Drop)]
pub(crate) struct Table {
    section: Section,
    /// The macros that the lines `#define` of this part of the section have defined.
    macros: MacroTable,
    /// The lines of a whole text so far.
    text: Vec<u8>,
    /// Whether the lines up to the next empty one are what a whole text came to.
    skips: bool,
}

impl Table {
    /// A table before its first line.
    pub(crate) fn new(alloc: Global) -> Table {
        Table {
            section: Section::Tokens,
            macros: MacroTable::new(alloc),
            text: Vec::new(alloc),
            skips: false,
        }
    }

    /// What is printed for the table's next line.
    pub(crate) fn line(&mut self, alloc: Global, line: &str) -> Mem<String> {
        if line.starts_with("[") && !line.contains(" => ") {
            self.section = section_of(line);
            self.macros = MacroTable::new(alloc);
            return same(alloc, line);
        }
        if let Section::Whole = self.section {
            return self.whole_line(alloc, line);
        }
        if line.contains(" => ") {
            return self.case(alloc, line);
        }
        if line.is_empty() || line.starts_with(";") {
            return same(alloc, line);
        }
        if line == "----" {
            self.macros = MacroTable::new(alloc);
            return same(alloc, line);
        }
        if let Some(definition) = line.strip_prefix("#define ") {
            let bytes = unescaped(alloc, definition)?;
            macros::define(alloc, &mut self.macros, bytes.as_slice())?;
            return same(alloc, line);
        }
        self.case(alloc, line)
    }

    fn case(&self, alloc: Global, line: &str) -> Mem<String> {
        let (given, _wanted) = line.split_once(" => ").unwrap_or((line, ""));
        let (first, second) = given.split_once(" | ").unwrap_or((given, ""));
        let text = unescaped(alloc, given)?;
        let first = unescaped(alloc, first)?;
        let second = unescaped(alloc, second)?;
        let found = if let Section::Includes = self.section {
            includes::tokens_and_asked(alloc, given)?
        } else {
            self.found(alloc, text.as_slice(), first.as_slice(), second.as_slice())?
        };
        let found = escaped(alloc, found.as_slice())?;
        let shown = format!(in alloc; "{given} => {found}\n")?;
        Ok(shown)
    }

    /// What a case comes to: the whole of what is given, or its two parts.
    fn found(&self, alloc: Global, text: &[u8], first: &[u8], second: &[u8]) -> Mem<Vec<u8>> {
        match self.section {
            Section::Tokens => tokens::all(alloc, text),
            Section::OneToken => tokens::one(alloc, text),
            Section::Groups => sections::marks_and_faults(alloc, text),
            Section::Conditions => conditions::value(alloc, text),
            Section::Definitions => definitions::macro_of(alloc, text),
            Section::Same => definitions::same(alloc, first, second),
            Section::Settings => definitions::setting(alloc, first, second),
            Section::Replaced => macros::tokens(alloc, &self.macros, text),
            Section::Told => macros::told(alloc, &self.macros, text),
            Section::Started => macros::started(alloc, first, second),
            Section::Texts => texts::tokens_and_faults(alloc, text),
            Section::Noted => texts::noted(alloc, text),
            Section::Diagnostics => faults::said(alloc, first, second),
            Section::Includes | Section::Whole => Err(Memory),
        }
    }

    fn whole_line(&mut self, alloc: Global, line: &str) -> Mem<String> {
        if line.is_empty() {
            self.skips = false;
            return same(alloc, line);
        }
        if self.skips {
            return Ok(String::new(alloc));
        }
        if line != "=>" {
            self.text.extend_from_slice(line.as_bytes())?;
            self.text.push(b'\n')?;
            return same(alloc, line);
        }
        self.skips = true;
        let text = mem::replace(&mut self.text, Vec::new(alloc));
        let found = texts::tokens(alloc, text.as_slice())?;
        let found = escaped(alloc, found.as_slice())?;
        let shown = format!(in alloc; "=>\n{found}\n")?;
        Ok(shown)
    }
}

fn same(alloc: Global, line: &str) -> Mem<String> {
    let shown = format!(in alloc; "{line}\n")?;
    Ok(shown)
}

fn section_of(name: &str) -> Section {
    match name {
        "[one token]" => Section::OneToken,
        "[groups]" => Section::Groups,
        "[conditions]" => Section::Conditions,
        "[definitions]" => Section::Definitions,
        "[same]" => Section::Same,
        "[settings]" => Section::Settings,
        "[replaced]" => Section::Replaced,
        "[told]" => Section::Told,
        "[started]" => Section::Started,
        "[texts]" => Section::Texts,
        "[noted]" => Section::Noted,
        "[includes]" => Section::Includes,
        "[diagnostics]" => Section::Diagnostics,
        "[whole]" => Section::Whole,
        _ => Section::Tokens,
    }
}
