//! Files, with their items and what they declare.

use crate::trees::{tokens_of, write_range, write_tree};
use cl_base::Mem;
use cl_outline::outline;
use cl_parse::{Item, ends_whole, items, text_at};
use cl_tree::NameSet;
use std::alloc::Global;

/// Whether a file ends whole: `yes` or `no`.
pub(crate) fn whole(alloc: Global, text: &[u8]) -> Mem<String> {
    let tokens = tokens_of(alloc, text)?;
    let mut out = String::new(alloc);
    if ends_whole(alloc, tokens.as_slice())? {
        out.push_str("yes")?;
    } else {
        out.push_str("no")?;
    }
    Ok(out)
}

/// The items of a file: each with its rule, or `bad`, and how many tokens it has.
pub(crate) fn items_of(alloc: Global, text: &[u8]) -> Mem<String> {
    let tokens = tokens_of(alloc, text)?;
    let items = items(alloc, tokens.as_slice(), NameSet::new(alloc))?;
    let mut out = String::new(alloc);
    for item in items.as_slice() {
        if !out.is_empty() {
            out.push_str(", ")?;
        }
        let shown = match item {
            Item::Proper(tree) => {
                let count = tree.to.saturating_sub(tree.from);
                format!(in alloc; "{:?} {count}", tree.rule)?
            }
            Item::Bad(from, to) => {
                let count = to.saturating_sub(*from);
                format!(in alloc; "bad {count}")?
            }
        };
        out.push_str(shown.as_str())?;
    }
    Ok(out)
}

/// The items of a file, each as its tree; a bad one as the tokens it goes over.
pub(crate) fn trees_of(alloc: Global, text: &[u8], typedefs: NameSet) -> Mem<String> {
    let tokens = tokens_of(alloc, text)?;
    let tokens = tokens.as_slice();
    let items = items(alloc, tokens, typedefs)?;
    let mut out = String::new(alloc);
    for item in items.as_slice() {
        if !out.is_empty() {
            out.push_str(" ")?;
        }
        match item {
            Item::Proper(tree) => write_tree(alloc, &mut out, tokens, tree)?,
            Item::Bad(from, to) => {
                out.push_str("(Bad.0")?;
                write_range(alloc, &mut out, tokens, *from, *to)?;
                out.push_str(")")?;
            }
        }
    }
    Ok(out)
}

/// What a file declares: each name with what it stands for.
pub(crate) fn outline_of(alloc: Global, text: &[u8]) -> Mem<String> {
    let tokens = tokens_of(alloc, text)?;
    let items = items(alloc, tokens.as_slice(), NameSet::new(alloc))?;
    let all = outline(alloc, tokens.as_slice(), items.as_slice())?;
    let mut out = String::new(alloc);
    for mention in all.as_slice() {
        if !out.is_empty() {
            out.push_str(", ")?;
        }
        let name = String::from_utf8_lossy(alloc, text_at(tokens.as_slice(), mention.at as usize))?;
        let shown = format!(in alloc; "{:?} ", mention.sort)?;
        out.push_str(shown.as_str())?;
        out.push_str(&name)?;
    }
    Ok(out)
}
