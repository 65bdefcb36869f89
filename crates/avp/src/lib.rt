// One AVP in code: read by a cursor, found by its key, its data as a part of the caller's slice, and written.
// Every contract cites document 01 as the crate `paper` defines it.
#![tactic(auto)]

pub mod cursor;
pub mod find;
pub mod write;
