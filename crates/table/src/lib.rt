// The lent subscriber table of document 01: whether it is valid, which record has an IMSI, and the fields of a record, read and stored.
// Every contract is an equation with the definitions of `paper`; `valid_table` alone takes any bytes.
#![tactic(auto)]

pub mod lookup;
pub mod record;
pub mod valid;
