// A request judged: from its bytes to the first refusal with an answer that applies, or to what an accepted request asks, by numbers and by parts of the request itself.
// Every contract cites document 01 as the crate `paper` defines it.
#![tactic(auto)]

pub mod accept;
pub mod held;
pub mod judge;
pub mod noted;
pub mod place;
pub mod profile;
pub mod tests;
pub mod values;
