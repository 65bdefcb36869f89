// Document 01 as definitions: a crate without functions. The statements stand in specs/, a file a section of the paper; their laws and the
// promises made of them in proofs/. A reviewer reads this folder beside 01. Here are the types that they speak of, and 01's numbers for code.
#![tactic(auto)]

use dictionary::Key;

pub mod keys;
pub mod layout;
pub mod profile;

// What the message reader answers of the AVPs of a message: "first fault of the visit", "visited unknown AVP with M set; the first", or neither.
// A place counts from the start of the message; `end` is the end of what encloses the AVP. Three outcomes, which `join` of specs/Reader.antt puts in order;
// the code of a fault is the number that the definitions say.
#[derive(Clone, Copy, Debug, PartialEq, Eq)]
pub enum Visit {
    Clean,
    Fault { code: u32, at: usize, end: usize },
    Unsupported { at: usize, end: usize },
}

// "A Result-Code and an Experimental-Result-Code are separate numberings": base 5001 cannot be written where the 3GPP 5001 is meant. Each is the
// protocol's own number, as the definitions and the promises say it.
#[derive(Clone, Copy, Debug, PartialEq, Eq)]
pub struct ResultCode(pub u32);

#[derive(Clone, Copy, Debug, PartialEq, Eq)]
pub struct ExperimentalCode(pub u32);

// What an answer says: "Result-Code (success 2001) or Experimental-Result".
#[derive(Clone, Copy, Debug, PartialEq, Eq)]
pub enum Verdict {
    Base(ResultCode),
    Experimental(ExperimentalCode),
}

// The AVP that Failed-AVP shows, by its place in the request, `end` the end of what encloses it, or by its key.
#[derive(Clone, Copy, Debug, PartialEq, Eq)]
pub enum Failed {
    // The AVP itself, its data as received.
    Whole { at: usize, end: usize },
    // Its head alone, for a fault of the visit.
    Bare { at: usize, end: usize },
    // An AVP that is not there; `four` says that its type has 4 bytes.
    Missing { key: Key, four: bool },
}

// The numbers of Subscription-Data.
#[derive(Clone, Copy, Debug, PartialEq, Eq)]
pub struct Subscription {
    pub restriction: u32,
    pub uplink: u32,
    pub downlink: u32,
}

// The AVPs that the success of a ULR or a PUR has beside those of every answer.
#[derive(Clone, Copy, Debug, PartialEq, Eq)]
pub enum Extra {
    // ULA-Flags, and Subscription-Data unless skipped.
    Ula { subscription: Option<Subscription> },
    // PUA-Flags.
    Pua { flags: u32 },
}

// What a request asks of the procedures, as plain numbers. `flags` is the flag word of the command's own, if it is there: ULR-Flags, PUR-Flags or NOR-Flags.
#[derive(Clone, Copy, Debug, PartialEq, Eq)]
pub struct Asked {
    pub command: u32,
    pub rat: u32,
    pub flags: Option<u32>,
}

// What a line of the desk says of a frame behind its number: letter, code (an Experimental one or not), answer length, entries listed.
// The letter is the byte that `line_bytes` of specs/Desk.antt prints; a code stands there whether it is an Experimental one or not.
#[derive(Clone, Copy, Debug, PartialEq, Eq)]
pub struct Line {
    pub letter: u8,
    pub experimental: bool,
    pub code: u32,
    pub size: usize,
    pub listed: usize,
}
