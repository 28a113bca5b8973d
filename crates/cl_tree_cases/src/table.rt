//! A table of cases. A line with ` => ` is a case: a text, and behind the arrow its tree. Of the other lines `[section]` says
//! what the texts behind it are read as, `typedefs` which names are typedef names before each, and an empty line and one
//! that begins with `;` say nothing.

use crate::{files, trees};
use cl_base::{Mem, Name};
use cl_tree::NameSet;
use std::alloc::Global;

/// What the texts of a section are read as.
#[derive(Clone, Copy, Drop)]
enum Section {
    /// Expressions (N1570 6.5.17).
    Expression,
    /// Declarations (6.7).
    Declaration,
    /// Type names (6.7.7).
    TypeName,
    /// Statements (6.8).
    Statement,
    /// Items of a block (6.8.2).
    BlockItem,
    /// Files, with the trees of their items (6.9).
    File,
    /// Files, with whether they end whole.
    EndsWhole,
    /// Files, with their items.
    Items,
    /// Files, with what they declare.
    Outline,
}

/// What stands between the lines of a table.
#[derive(Drop)]
pub(crate) struct Table {
    section: Section,
    names: String,
}

impl Table {
    /// A table before its first line.
    pub(crate) fn new(alloc: Global) -> Table {
        Table {
            section: Section::Expression,
            names: String::new(alloc),
        }
    }

    /// What is printed for the table's next line.
    pub(crate) fn line(&mut self, alloc: Global, line: &str) -> Mem<String> {
        if line.contains(" => ") {
            return self.case(alloc, line);
        }
        if line.starts_with("[") {
            self.section = section_of(line);
        }
        if let Some(names) = line.strip_prefix("typedefs ") {
            self.names.clear();
            self.names.push_str(names)?;
        }
        let shown = format!(in alloc; "{line}\n")?;
        Ok(shown)
    }

    fn case(&self, alloc: Global, line: &str) -> Mem<String> {
        let (text, _wanted) = line.split_once(" => ").unwrap_or((line, ""));
        let names = names_of(alloc, self.names.as_str())?;
        let found = match self.section {
            Section::Expression => trees::expression(alloc, text.as_bytes(), &names)?,
            Section::Declaration => trees::declaration(alloc, text.as_bytes(), &names)?,
            Section::TypeName => trees::type_name(alloc, text.as_bytes(), &names)?,
            Section::Statement => trees::statement(alloc, text.as_bytes(), &names)?,
            Section::BlockItem => trees::block_item(alloc, text.as_bytes(), &names)?,
            Section::File => files::trees_of(alloc, text.as_bytes(), names)?,
            Section::EndsWhole => files::whole(alloc, text.as_bytes())?,
            Section::Items => files::items_of(alloc, text.as_bytes())?,
            Section::Outline => files::outline_of(alloc, text.as_bytes())?,
        };
        let shown = format!(in alloc; "{text} => {found}\n")?;
        Ok(shown)
    }
}

/// The names of a line, with a space between them.
fn names_of(alloc: Global, line: &str) -> Mem<NameSet> {
    let mut names = NameSet::new(alloc);
    for name in line.split(" ") {
        if !name.is_empty() {
            names.add(alloc, &Name::new(alloc, name.as_bytes())?)?;
        }
    }
    Ok(names)
}

fn section_of(name: &str) -> Section {
    match name {
        "[declaration]" => Section::Declaration,
        "[type name]" => Section::TypeName,
        "[statement]" => Section::Statement,
        "[block item]" => Section::BlockItem,
        "[file]" => Section::File,
        "[ends whole]" => Section::EndsWhole,
        "[items]" => Section::Items,
        "[outline]" => Section::Outline,
        _ => Section::Expression,
    }
}
