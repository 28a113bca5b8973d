use crate::grammar_cases::{fifth, first, fourth, second, sixth, third};
use cl_base::Mem;
use cl_tree::{
    Class, Nonterminal, Part, Production, Rule, Symbol, Terminal, parts, productions, units,
};
use std::alloc::Global;
use std::test::Fail;

/// The table, written out, is the list that was typed in from the standard: none is missing, and no line is more.
#[test]
fn table(rt: HostRuntime) -> Result<(), Fail> {
    let alloc = rt.alloc();
    let lines = table_lines(alloc)?;
    let lines = lines.as_slice();
    assert!(rt; are_found(first(), lines), "the first lines");
    assert!(rt; are_found(second(), lines), "the second lines");
    assert!(rt; are_found(third(), lines), "the third lines");
    assert!(rt; are_found(fourth(), lines), "the fourth lines");
    assert!(rt; are_found(fifth(), lines), "the fifth lines");
    assert!(rt; are_found(sixth(), lines), "the last lines");
    for line in lines {
        assert!(rt; is_typed(line.as_bytes()), "{line}");
    }
    Ok(())
}

/// Whether each of these stands in the table.
fn are_found(typed: &[&[u8]], lines: &[String]) -> bool {
    typed
        .iter()
        .all(|one| lines.iter().any(|line| line.as_bytes() == *one))
}

/// Whether a line of the table was typed in.
fn is_typed(line: &[u8]) -> bool {
    is_among(first(), line)
        || is_among(second(), line)
        || is_among(third(), line)
        || is_among(fourth(), line)
        || is_among(fifth(), line)
        || is_among(sixth(), line)
}

fn is_among(typed: &[&[u8]], line: &[u8]) -> bool {
    typed.iter().any(|one| *one == line)
}

/// Each production with and without each of its optional parts, and each nonterminal that stands for another.
fn table_lines(alloc: Global) -> Mem<Vec<String>> {
    let mut lines = Vec::new(alloc);
    for production in productions() {
        if !matches!(
            production.rule,
            Rule::DeclarationSpecifiers | Rule::SpecifierQualifierList
        ) {
            let head = format!(in alloc; "{:?} {}:", production.rule, production.choice)?;
            add_lines(alloc, &mut lines, head, production)?;
        }
    }
    for unit in units() {
        let of = standard(unit.of);
        let by = standard(unit.by);
        if is_standard(unit.of) && of != by {
            lines.push(format!(in alloc; "{of:?} unit: {by:?}")?)?;
        }
    }
    Ok(lines)
}

fn add_lines(
    alloc: Global,
    lines: &mut Vec<String>,
    head: String,
    production: &Production,
) -> Mem<()> {
    let mut made = Vec::new(alloc);
    made.push(head)?;
    let from = production.parts.from as usize;
    let to = production.parts.to as usize;
    for part in parts().iter().skip(from).take(to.saturating_sub(from)) {
        made = longer(alloc, made.as_slice(), *part)?;
    }
    for line in made.as_slice() {
        lines.push(line.clone()?)?;
    }
    Ok(())
}

/// The lines with one more part: a part that may be left out stands in half of them, and what may stand any number of times
/// in none.
fn longer(alloc: Global, lines: &[String], part: Part) -> Mem<Vec<String>> {
    let mut made = Vec::new(alloc);
    for line in lines {
        match part {
            Part::One(symbol) => made.push(with(alloc, line, symbol)?)?,
            Part::Optional(symbol) => {
                made.push(with(alloc, line, symbol)?)?;
                made.push(line.clone()?)?;
            }
            Part::Many(_) => made.push(line.clone()?)?,
        }
    }
    Ok(made)
}

fn with(alloc: Global, line: &String, symbol: Symbol) -> Mem<String> {
    let text = match symbol {
        Symbol::Token(terminal, _) => format!(in alloc; "{line} {:?}", plain(terminal))?,
        Symbol::Node(goal) => format!(in alloc; "{line} {:?}", standard(goal))?,
        Symbol::Entry => format!(in alloc; "{line} BlockItem")?,
    };
    Ok(text)
}

/// A terminal without what it asks of the tokens around it.
fn plain(terminal: Terminal) -> Class {
    match terminal {
        Terminal::Name | Terminal::Typed | Terminal::Label | Terminal::Marked => Class::Ident,
        Terminal::Open | Terminal::TypeOpen => Class::LeftParen,
        Terminal::Is(Class::TypeParen) | Terminal::Is(Class::LiteralParen) => Class::LeftParen,
        Terminal::Is(Class::LastComma) | Terminal::Is(Class::DesignationComma) => Class::Comma,
        Terminal::Is(Class::StarBracket) => Class::Star,
        Terminal::Is(Class::AtomicParen) => Class::Atomic,
        Terminal::Is(class) => class,
    }
}

/// The standard's nonterminal for one that tells apart where it stands.
fn standard(goal: Nonterminal) -> Nonterminal {
    match goal {
        Nonterminal::LaterTypeSpecifier => Nonterminal::TypeSpecifier,
        Nonterminal::ParameterDeclarator => Nonterminal::Declarator,
        Nonterminal::DirectParameterDeclarator => Nonterminal::DirectDeclarator,
        Nonterminal::UnlabelledExpression | Nonterminal::PlainExpression => Nonterminal::Expression,
        Nonterminal::BlockSpecifiers => Nonterminal::DeclarationSpecifiers,
        Nonterminal::BlockDeclaration => Nonterminal::Declaration,
        Nonterminal::BlockStatement | Nonterminal::ClosedStatement | Nonterminal::OpenStatement => {
            Nonterminal::Statement
        }
        Nonterminal::ClosedLabeledStatement | Nonterminal::OpenLabeledStatement => {
            Nonterminal::LabeledStatement
        }
        Nonterminal::ClosedSelectionStatement | Nonterminal::OpenSelectionStatement => {
            Nonterminal::SelectionStatement
        }
        Nonterminal::ClosedIterationStatement | Nonterminal::OpenIterationStatement => {
            Nonterminal::IterationStatement
        }
        Nonterminal::BlockExpressionStatement => Nonterminal::ExpressionStatement,
        Nonterminal::FunctionBody => Nonterminal::CompoundStatement,
        other => other,
    }
}

/// Whether a nonterminal is one of the standard, or stands for one.
fn is_standard(goal: Nonterminal) -> bool {
    !matches!(
        goal,
        Nonterminal::OtherSpecifier
            | Nonterminal::LaterSpecifier
            | Nonterminal::LaterQualifier
            | Nonterminal::AnyDeclarator
            | Nonterminal::DirectAnyDeclarator
    )
}
