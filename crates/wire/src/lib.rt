// Bytes and numbers: big-endian numbers read and written at any width, bytes put at a place, tests of whole stretches.
// Every writer has the one contract `Wrote`; every reader of a number the one definition `num_at`.
#![tactic(auto)]

pub mod number;
pub mod put;
pub mod stretch;
