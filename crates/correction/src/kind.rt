// What a correction is of: 01's four kinds, how long the value of each is, and whether a value may stand in a table. A byte past the end reads as 0.
ghost use Rattle.std.specs.Prelude.{◌≡◌, ◌+◌, ◌*◌, ◌&&◌, drop, nat_le, slice_index};
ghost use Rattle.wire.specs.Stretch.{zeros};
ghost use Rattle.paper.specs.Layout.{plmn_size, most_plmns};
ghost use Rattle.paper.specs.Correction.{value_size, value_right};
ghost use Rattle.correction.specs.Kind.{code_of, Decodes};

use crate::refusal::Refusal;
use paper::layout::{MOST_PLMNS, PLMN_SIZE};

#[derive(Clone, Copy, Debug, PartialEq, Eq)]
pub enum Kind {
    Subscription,
    Restriction,
    Plmns,
    Ambr,
}

impl TryFrom<u8> for Kind {
    type Error = Refusal;

    ghost try_from_gives = { Decodes };

    fn try_from(code: u8) -> Result<Self, Refusal> {
        match code {
            1 => Ok(Kind::Subscription),
            2 => Ok(Kind::Restriction),
            3 => Ok(Kind::Plmns),
            4 => Ok(Kind::Ambr),
            _ => Err(Refusal::KindUnknown),
        }
    }
}

impl Kind {
    // How many bytes the value has.
    #[tactic(auto, unfolding(paper::specs::Correction::value_size))]
    pub fn value_size(self) -> usize
        ensures { result ≡ value_size (code_of self) }
    {
        match self {
            Kind::Subscription => 1,
            Kind::Restriction => 4,
            Kind::Plmns => 25,
            Kind::Ambr => 8,
        }
    }

    // Whether the value may stand in a table; it may have any size.
    #[tactic(auto, unfolding(paper::specs::Correction::value_right))]
    pub fn value_right(self, value: &[u8]) -> bool
        ensures { result ≡ value_right (code_of self) value.now }
    {
        match self {
            Kind::Subscription => wire::number::byte_or_zero(value, 0) < 4,
            Kind::Plmns => plmns_right(value),
            Kind::Restriction | Kind::Ambr => true,
        }
    }
}

// How many bytes the value of the kind with this number has; 0 where there is no such kind.
pub fn value_size(code: u8) -> usize
    ensures { result ≡ value_size code }
{
    match Kind::try_from(code) {
        Ok(kind) => kind.value_size(),
        Err(_) => 0,
    }
}

// Whether the value may stand in a table under the kind with this number; where there is no such kind, any may.
pub fn value_right(code: u8, value: &[u8]) -> bool
    ensures { result ≡ value_right code value.now }
{
    match Kind::try_from(code) {
        Ok(kind) => kind.value_right(value),
        Err(_) => true,
    }
}

// A count of at most 8 PLMNs, and zeros behind as many.
pub fn plmns_right(value: &[u8]) -> bool
    ensures { result ≡ nat_le (slice_index value.now 0) most_plmns && zeros (drop (1 + plmn_size * slice_index value.now 0) value.now) }
{
    let count = wire::number::byte_or_zero(value, 0) as usize;
    if MOST_PLMNS < count {
        return false;
    }
    let used = 1 + PLMN_SIZE * count;
    if value.len() < used {
        return true;
    }
    wire::stretch::all_zeros(&value[used..])
}
