// The message reader: the 20-byte header as a struct by value, and the visit of the AVPs behind it, for requests and answers of any size.
// `read_message` asks nothing of its caller. Every contract cites document 01 as the crate `paper` defines it.
#![tactic(auto)]

pub mod header;
mod kinds;
pub mod message;
pub mod visit;
