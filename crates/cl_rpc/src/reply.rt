ghost use Rattle.std.specs.Prelude.{◌≡◌, IfOk, OnOk, string_bytes};
ghost use Rattle.cl_rpc.specs.Replies.{framed, reply_frame};

use crate::out::Reply;
use crate::reply_body::push_body;
use cl_base::{Mem, Text};
use std::alloc::Global;

/// The frame of a reply: its header, and its JSON in compact form with the keys in byte order
/// (LSP 3.17, base protocol). In a printed string each byte that is part of no UTF-8 character
/// stands as U+FFFD. The message of an error whose code isn't known is empty. The body is printed
/// once, piece by piece, and moved once to make room for the header.
pub fn reply_text(alloc: Global, reply: &Reply) -> Mem<Text>
    ensures { IfOk result (λ text. text ≡ reply_frame reply.now) }
{
    let mut out = String::new(alloc);
    push_body(alloc, &mut out, reply)?;
    add_header(alloc, &mut out)?;
    let text = Text::from_vec(alloc, out.into_bytes())?;
    Ok(text)
}

/// Puts a frame's header before the body that `out` holds.
fn add_header(alloc: Global, out: &mut String) -> Mem<()>
    ensures { OnOk result (string_bytes out.new ≡ framed (string_bytes out.old)) }
{
    let header = format!(in alloc; "Content-Length: {}\r\n\r\n", out.len())?;
    out.insert_str(0, header.as_str())?;
    Ok(())
}
