// What 01 has a request do, once its IMSI was found in record `i` of the table: the Experimental-Result that refuses it, or the record changed and the list
// of nodes to cancel. The request is here as the values that the caller read out of it; each contract ties them to the request by `asked_of`.
#![tactic(auto)]

pub mod cancel;
pub mod carry;
pub mod flags;
pub mod nodes;
pub mod subscriber;
pub mod verdict;
