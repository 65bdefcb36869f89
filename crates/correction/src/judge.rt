// The tests of a correction in 01's order; the first that fails is the refusal. Nothing is written here.
ghost use Rattle.std.specs.Prelude.{◌≡◌, ◌≤◌, true, length, MatchResult};
ghost use Rattle.paper.specs.Table.{valid};
ghost use Rattle.paper.specs.Correction.{frame_head, corrected};
ghost use Rattle.correction.specs.Judged.{HeadRight, ValueRight, Refused, RecordFound, RecordRefused, Judges};

use crate::kind::Kind;
use crate::refusal::Refusal;
use table::lookup::find_record;
use table::record::Record;

// Whole length (2), version 1, kind, IMSI (16), change number seen (4), value.
pub const FRAME_HEAD: usize = 24;

pub const FRAME_VERSION: u8 = 1;

pub const VERSION_AT: usize = 2;

pub const KIND_AT: usize = 3;

pub const IMSI_AT: usize = 4;

pub const SEEN_AT: usize = 20;

// What an accepted correction alters: the fields of its kind in a record of the table.
#[derive(Clone, Copy, Debug, PartialEq, Eq)]
pub struct Accepted {
    pub record: usize,
    pub kind: Kind,
}

// "11 under 24 bytes or length field wrong; 12 version; 13 kind": the kind of a frame whose head is right.
pub fn frame_kind(frame: &[u8]) -> Result<Kind, Refusal>
    ensures { MatchResult result (HeadRight frame.now) (Refused frame.now) }
{
    if frame.len() < FRAME_HEAD {
        return Err(Refusal::LengthWrong);
    }
    if wire::number::get::<u16>(frame, 0) as usize != frame.len() {
        return Err(Refusal::LengthWrong);
    }
    if frame[VERSION_AT] != FRAME_VERSION {
        return Err(Refusal::VersionWrong);
    }
    Kind::try_from(frame[KIND_AT])
}

// "14 length wrong for the kind; 15 value not valid in a table". A value of any size can be judged, so that the order of the two tests is 01's alone.
pub fn judge_value(frame: &[u8], kind: Kind) -> Result<(), Refusal>
    requires { HeadRight frame.now kind }
    ensures { MatchResult result (λ _. ValueRight frame.now) (Refused frame.now) }
{
    let value = &frame[FRAME_HEAD..];
    let sized = value.len() == kind.value_size();
    let right = kind.value_right(value);
    if !sized {
        return Err(Refusal::LengthWrongForKind);
    }
    if !right {
        return Err(Refusal::ValueNotValid);
    }
    Ok(())
}

// "16 no such IMSI; 17 change number differs": the tests that look into the table, of a frame that is right.
pub fn judge_record(table: &[u8], frame: &[u8]) -> Result<usize, Refusal>
    requires { (valid table.now ≡ true) × (frame_head ≤ length frame.now) }
    ensures { MatchResult result (RecordFound table.now frame.now) (RecordRefused table.now frame.now) }
{
    let i = find_record(table, &frame[IMSI_AT..SEEN_AT]).ok_or(Refusal::NoSuchImsi)?;
    let change = Record::at(table, i).change_number();
    let seen = wire::number::get::<u32>(frame, SEEN_AT);
    if change != seen {
        return Err(Refusal::ChangeDiffers);
    }
    Ok(i)
}

// Every test of 01's list.
pub fn judge(table: &[u8], frame: &[u8]) -> Result<Accepted, Refusal>
    ensures { Judges result table.now frame.now (corrected table.now frame.now) }
{
    if !table::valid::valid_table(table) {
        return Err(Refusal::TableNotValid);
    }
    let kind = frame_kind(frame)?;
    judge_value(frame, kind)?;
    let record = judge_record(table, frame)?;
    Ok(Accepted { record, kind })
}
