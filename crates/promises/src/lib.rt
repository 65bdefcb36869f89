// What the customer may hold the public calls to: a crate without functions. specs/ has the calls and the promises about them, proofs/ shows each from the
// contracts of `dymosaw` alone. docs/PROMISES.md gives each in plain English.
#![tactic(auto)]
