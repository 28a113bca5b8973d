//! The session's messages: JSON bodies in, replies out (JSON-RPC 2.0; LSP 3.17).
#![tactic(auto)]

mod call;
mod class;
mod id;
mod json;
mod message;
mod message_call;
mod message_changes;
mod message_method;
mod message_params;
mod message_watched;
mod out;
mod reply;
mod reply_body;
mod reply_pieces;
mod reply_symbols;

pub use call::{Call, Parsed};
pub use class::Class;
pub use id::Id;
pub use message::message_of;
pub use out::{How, Out, Reply};
pub use reply::reply_text;
