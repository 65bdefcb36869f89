// The answer's bytes: header and AVPs in document 01's order, for success, Experimental-Result and each refusal. Every writer says by avp's `Appended` which bytes it puts.
// What is asked of a caller, a buffer that is long enough first of all, the law of sizes of the crate `paper` gives.
#![tactic(auto)]

pub mod answer;
pub mod echo;
pub mod failed;
pub mod parts;
pub mod reply;
