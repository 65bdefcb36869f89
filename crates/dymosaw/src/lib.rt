// Dymosaw, the home registry: every public call of the product. Each states its answer and every byte that it leaves, for any bytes that it is given;
// none has a `requires`. C calls the two that crates/dymosaw_c exports; what C owes beside (pointers, buffers apart) is said in include/dymosaw.h.
#![tactic(auto)]

pub mod correct;
pub mod desk;
mod line;
pub mod one_avp;
pub mod read;
pub mod serve;
