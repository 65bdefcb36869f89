// An accepted correction, written: the value in the fields of its kind, and the next change number.
ghost use Rattle.std.specs.Prelude.{◌≡◌, ◌+◌, ◌≤◌, length};
ghost use Rattle.paper.specs.Layout.{record_size};
ghost use Rattle.paper.specs.Table.{record_at};
ghost use Rattle.paper.specs.Correction.{value_size, store_value};
ghost use Rattle.paper.specs.Correction.{accepted as accepted_for};
ghost use Rattle.correction.specs.Kind.{code_of};
ghost use Rattle.correction.specs.Judged.{Ready};

use crate::judge::{Accepted, FRAME_HEAD};
use crate::kind::Kind;
use paper::layout::{AMBR_AT, PLMN_COUNT_AT, PLMNS_AT, RESTRICTION_AT, SUBSCRIPTION_AT};
use table::record::{Record, store_bytes, store_change};

// The value of a kind in record `i`.
#[tactic(auto, unfolding(paper::specs::Correction::value_size, paper::specs::Correction::store_value))]
pub fn store_value(table: &mut [u8], i: usize, kind: Kind, value: &[u8])
    requires { (record_at i + record_size ≤ length table.old) × (length value.now ≡ value_size (code_of kind)) }
    ensures { table.new ≡ store_value (code_of kind) i value.now table.old }
{
    match kind {
        Kind::Subscription => store_bytes(table, i, SUBSCRIPTION_AT, value),
        Kind::Restriction => store_bytes(table, i, RESTRICTION_AT, value),
        Kind::Plmns => {
            store_bytes(table, i, PLMN_COUNT_AT, &value[..1]);
            store_bytes(table, i, PLMNS_AT, &value[1..]);
        }
        Kind::Ambr => store_bytes(table, i, AMBR_AT, value),
    }
}

// "stores the value and adds 1 to the change number, 4,294,967,295 going to 0"
pub fn store_correction(table: &mut [u8], accepted: Accepted, frame: &[u8])
    requires { Ready accepted table.old frame.now }
    ensures { table.new ≡ (accepted_for accepted.record frame.now table.old).table }
{
    let i = accepted.record;
    let change = Record::at(table, i).change_number();
    store_value(table, i, accepted.kind, &frame[FRAME_HEAD..]);
    store_change(table, i, std::num::wrapping_add_u32(change, 1));
}
