ghost use Rattle.std.specs.Prelude.{false, OnOk, string_bytes};
ghost use Rattle.serde_json.specs.Written.{compact_text, members_text, comma_if};
ghost use Rattle.cl_base.specs.declared.answer.Symbol.TheViews.{out-Symbol};
ghost use Rattle.cl_rpc.specs.Replies.{Adds, text_data, position_data, range_data, own_members, symbol_data, symbols_data};

use crate::reply_pieces::{push, push_count, push_text};
use cl_base::{List, Mem, Position, Range, Symbol};
use std::alloc::Global;

/// Adds a list of symbols, one after another.
#[cycle(symbols)]
pub fn push_symbols(alloc: Global, out: &mut String, symbols: &List<Symbol>) -> Mem<()>
    ensures { OnOk result (Adds (string_bytes out.old) (string_bytes out.new) (compact_text (symbols_data symbols.now))) }
{
    push(out, "[")?;
    let mut later = false;
    for symbol in symbols.as_slice() {
        push_comma(out, later)?;
        push_symbol(alloc, out, symbol)?;
        later = true;
    }
    push(out, "]")?;
    Ok(())
}

/// Adds a symbol. Its children, if it has some, stand first, and each may have its own.
#[cycle(symbols)]
fn push_symbol(alloc: Global, out: &mut String, symbol: &Symbol) -> Mem<()>
    ensures { OnOk result (Adds (string_bytes out.old) (string_bytes out.new) (compact_text (symbol_data symbol.now))) }
{
    push(out, "{")?;
    if symbol.children.is_empty() {
        push_own(alloc, out, symbol)?;
        return Ok(());
    }
    push(out, "\"children\":")?;
    push_symbols(alloc, out, &symbol.children)?;
    push(out, ",")?;
    push_own(alloc, out, symbol)?;
    Ok(())
}

/// Adds a comma, where something stands before.
fn push_comma(out: &mut String, later: bool) -> Mem<()>
    ensures { OnOk result (Adds (string_bytes out.old) (string_bytes out.new) (comma_if later)) }
{
    if later {
        return push(out, ",");
    }
    Ok(())
}

/// Adds the members that each symbol has, and the symbol's end.
fn push_own(alloc: Global, out: &mut String, symbol: &Symbol) -> Mem<()>
    ensures { let s = out-Symbol symbol.now in
        OnOk result (Adds (string_bytes out.old) (string_bytes out.new) (members_text false (own_members s.kind (text_data s.name) (range_data s.range) (range_data s.selection)))) }
{
    push(out, "\"kind\":")?;
    push_count(out, symbol.kind as u32)?;
    push(out, ",\"name\":")?;
    push_text(alloc, out, &symbol.name)?;
    push(out, ",\"range\":")?;
    push_range(out, symbol.range)?;
    push(out, ",\"selectionRange\":")?;
    push_range(out, symbol.selection)?;
    push(out, "}")?;
    Ok(())
}

fn push_range(out: &mut String, range: Range) -> Mem<()>
    ensures { OnOk result (Adds (string_bytes out.old) (string_bytes out.new) (compact_text (range_data range))) }
{
    push(out, "{\"end\":")?;
    push_position(out, range.end)?;
    push(out, ",\"start\":")?;
    push_position(out, range.start)?;
    push(out, "}")?;
    Ok(())
}

fn push_position(out: &mut String, position: Position) -> Mem<()>
    ensures { OnOk result (Adds (string_bytes out.old) (string_bytes out.new) (compact_text (position_data position))) }
{
    push(out, "{\"character\":")?;
    push_count(out, position.character)?;
    push(out, ",\"line\":")?;
    push_count(out, position.line)?;
    push(out, "}")?;
    Ok(())
}
