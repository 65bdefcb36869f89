// The nodes of a record: MME and SGSN are two cases of one description. Names are compared here and nowhere else.
ghost use Rattle.std.specs.Prelude.{◌≡◌};
ghost use Rattle.paper.specs.Procedures.{same_name};
ghost use Rattle.procedures.specs.Values.{slot_of, other_of};

use paper::layout::{MME_AT, SGSN_AT};

#[derive(Clone, Copy, Debug, PartialEq, Eq)]
pub enum Node {
    Mme,
    Sgsn,
}

impl Node {
    // Its number in the list: "1 MME or 2 SGSN".
    pub fn number(self) -> u8
        ensures { result ≡ (slot_of self).number }
    {
        match self {
            Node::Mme => 1,
            Node::Sgsn => 2,
        }
    }

    // The name's length stands here in a record, the name behind it.
    pub fn name_at(self) -> usize
        ensures { result ≡ (slot_of self).at }
    {
        match self {
            Node::Mme => MME_AT,
            Node::Sgsn => SGSN_AT,
        }
    }

    // "Bit 0 purged in MME, bit 1 purged in SGSN", in a record and in the flag words of a PUR.
    pub fn purge_bit(self) -> u8
        ensures { result ≡ (slot_of self).purge_bit }
    {
        match self {
            Node::Mme => 0,
            Node::Sgsn => 1,
        }
    }

    // The other one of a record's two.
    pub fn other(self) -> Node
        ensures { result ≡ other_of self }
    {
        match self {
            Node::Mme => Node::Sgsn,
            Node::Sgsn => Node::Mme,
        }
    }
}

// "Names are equal when their bytes are.": a function of its own, so that the one place says it.
pub fn same_name(a: &[u8], b: &[u8]) -> bool
    ensures { result ≡ same_name a.now b.now }
{
    wire::stretch::same_bytes(a, b)
}
