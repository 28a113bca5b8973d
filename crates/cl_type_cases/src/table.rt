//! A table of cases. A line with ` => ` is a case: what is given, and behind the arrow what it comes to. Of the other lines
//! `[section]` begins a section, and all else says nothing. What is given may have two parts, with ` | ` between them.

use crate::{constants, conversions, layouts, literals, specifiers, types};
use cl_base::Mem;
use std::alloc::Global;

/// What the cases of a section are about.
#[derive(Clone, Copy, Drop)]
enum Section {
    /// Types and names, with the declarations that are printed.
    Printed,
    /// Two types, with whether they are compatible (N1570 6.2.7).
    Compatible,
    /// Two types, with a pointer to their composite.
    Composite,
    /// An arithmetic type, with its sums with all of them (6.3.1.8).
    Sums,
    /// An arithmetic type, with its promotion (6.3.1.1p2).
    Promoted,
    /// An operator and two operands, with the type of the operation (6.5.5 to 6.5.17).
    Binary,
    /// An operator and its operand (6.5.2.4, 6.5.3).
    Unary,
    /// The second and third operand of `?:` (6.5.15).
    Choices,
    /// A type and an operand, with whether it may be assigned (6.5.16.1p1).
    Assigned,
    /// A type and an operand, with the type of the cast (6.5.4).
    Casts,
    /// A callee, with the type of a call, and whether two arguments are taken (6.5.2.2).
    Calls,
    /// An operand of `sizeof` (6.5.3.4).
    Sizes,
    /// An operator of member access with its left operand and a member, with the type of the access, whether it is an lvalue, and
    /// whether it is a bit-field (6.5.2.3).
    Members,
    /// Type specifiers and typedef names, with their type (6.7.2p2).
    Words,
    /// A parameter and qualifiers, with its type (6.7.6.3p7, p8).
    Adjusted,
    /// A type and qualifiers, with the type of both (6.7.3).
    Qualified,
    /// Storage-class specifiers, with what they say (6.7.1p2).
    Storage,
    /// Specifiers and a place, with whether they may stand there.
    Stand,
    /// A number, with its value and type (6.4.4.1, 6.4.4.2).
    Numbers,
    /// A character constant, with its value and type (6.4.4.4).
    Characters,
    /// Adjacent string literals, with how many elements they make and of which type (6.4.5).
    Strings,
    /// Tokens, with their faults.
    Faults,
    /// Structures and unions, with where the members of the last one begin, its size and its alignment (6.7.2.1).
    Layouts,
    /// An expression, and the same with each operator behind its operands, with its value as a constant one (6.6p6).
    Constants,
}

/// What stands between the lines of a table.
#[derive(Drop)]
pub(crate) struct Table {
    section: Section,
}

impl Table {
    /// A table before its first line.
    pub(crate) fn new() -> Table {
        Table {
            section: Section::Printed,
        }
    }

    /// What is printed for the table's next line.
    pub(crate) fn line(&mut self, alloc: Global, line: &str) -> Mem<String> {
        match line.split_once(" => ") {
            Some((given, _wanted)) => {
                let (first, second) = given.split_once(" | ").unwrap_or((given, ""));
                let found = found(alloc, self.section, first, second)?;
                let shown = format!(in alloc; "{given} => {found}\n")?;
                Ok(shown)
            }
            None => {
                if line.starts_with("[") {
                    self.section = section_of(line);
                }
                let shown = format!(in alloc; "{line}\n")?;
                Ok(shown)
            }
        }
    }
}

/// What a case comes to.
fn found(alloc: Global, section: Section, first: &str, second: &str) -> Mem<String> {
    match section {
        Section::Printed => types::printed(alloc, first, second),
        Section::Compatible => types::are_compatible(alloc, first, second),
        Section::Composite => types::composite_of(alloc, first, second),
        Section::Sums => conversions::sums(alloc, first),
        Section::Promoted => conversions::promoted(alloc, first),
        Section::Binary => conversions::binary_of(alloc, first, second),
        Section::Unary => conversions::unary_of(alloc, first, second),
        Section::Choices => conversions::choice(alloc, first, second),
        Section::Assigned => conversions::is_assigned(alloc, first, second),
        Section::Casts => conversions::cast_of(alloc, first, second),
        Section::Calls => conversions::call_of(alloc, first),
        Section::Sizes => conversions::size(alloc, first),
        Section::Members => conversions::part_of(alloc, first, second),
        Section::Words => specifiers::base_of(alloc, first, second),
        Section::Adjusted => specifiers::parameter(alloc, first, second),
        Section::Qualified => specifiers::qualified_of(alloc, first, second),
        Section::Storage => specifiers::stored(alloc, first),
        Section::Stand => specifiers::stands(alloc, first, second),
        Section::Numbers => literals::number_of(alloc, first),
        Section::Characters => literals::character_of(alloc, first),
        Section::Strings => literals::string_of(alloc, first),
        Section::Faults => literals::faults_of(alloc, first),
        Section::Layouts => layouts::layout_of(alloc, first),
        Section::Constants => constants::value_of(alloc, second),
    }
}

fn section_of(name: &str) -> Section {
    match name {
        "[compatible]" => Section::Compatible,
        "[composite]" => Section::Composite,
        "[sums]" => Section::Sums,
        "[promoted]" => Section::Promoted,
        "[binary]" => Section::Binary,
        "[unary]" => Section::Unary,
        "[choices]" => Section::Choices,
        "[assigned]" => Section::Assigned,
        "[casts]" => Section::Casts,
        "[calls]" => Section::Calls,
        "[sizeof]" => Section::Sizes,
        "[members]" => Section::Members,
        "[words]" => Section::Words,
        "[adjusted]" => Section::Adjusted,
        "[qualified]" => Section::Qualified,
        "[storage]" => Section::Storage,
        "[stand]" => Section::Stand,
        "[numbers]" => Section::Numbers,
        "[characters]" => Section::Characters,
        "[strings]" => Section::Strings,
        "[faults]" => Section::Faults,
        "[layouts]" => Section::Layouts,
        "[constants]" => Section::Constants,
        _ => Section::Printed,
    }
}
