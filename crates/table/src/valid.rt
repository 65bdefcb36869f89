// Whether bytes are a valid table, for any bytes. This is the hot path: every request tests the whole table first.
// A record is tested rule by rule, each over a whole stretch by a loop that runs wide. A field with a count is held against constant bounds: see `Range`.
ghost use Rattle.std.specs.Prelude.{◌≡◌, true, ◌&&◌, ◌+◌, ◌-◌, ◌≤◌, length, leb, ltb};
ghost use Rattle.wire.specs.Number.{num};
ghost use Rattle.wire.specs.Put.{part};
ghost use Rattle.wire.specs.Stretch.{all_in, zeros};
ghost use Rattle.paper.specs.Layout.{table_header, record_size};
ghost use Rattle.paper.specs.Table.{counted, imsi_right, plmns_right, plmn_count_right, purged_right, imei_right, record_right, imsi_of, header_right, valid};
ghost use Rattle.table.specs.Bounds.{half, halves, first_of};

use crate::{lookup, record};
use layout::RECORD_SIZE;
use paper::layout;

// The longest field, and half of a list of bounds.
const HALF: usize = 64;

// The bytes from `low[0][0]` to `high[0][0]`, as bounds for every field that is filled from its start: each 64 times, and 64 zeros behind
// them. The window that starts `n` before the middle bounds `n` bytes and the zeros behind them.
#[derive(Clone, Copy)]
struct Range<'a> {
    low: &'a [[u8; HALF]; 2],
    high: &'a [[u8; HALF]; 2],
    ghost low_bounds: { low.now ≡ halves (first_of low.now) },
    ghost high_bounds: { high.now ≡ halves (first_of high.now) },
}

// References, so that nothing is made at a call: what they refer to stands among the program's constants.
const DIGITS: Range = Range {
    low: &[[b'0'; HALF], [0; HALF]],
    high: &[[b'9'; HALF], [0; HALF]],
};

const NAMES: Range = Range {
    low: &[[b'!'; HALF], [0; HALF]],
    high: &[[b'~'; HALF], [0; HALF]],
};

const FREE: Range = Range {
    low: &[[0; HALF], [0; HALF]],
    high: &[[255; HALF], [0; HALF]],
};

// The `most` bytes of `r` at `at` are `n` bytes within the range and zeros behind them.
fn filled_part(r: &[u8; RECORD_SIZE], at: usize, most: usize, n: usize, range: Range) -> bool
    requires { (at + most ≤ record_size) × (n ≤ most) × (most ≤ half) }
    ensures { result ≡ all_in (first_of range.entry.low.now) (first_of range.entry.high.now) (part at n r.now) && zeros (part (at + n) (most - n) r.now) }
{
    let from = HALF - n;
    let to = from + most;
    let end = at + most;
    let (low, high) = (range.low, range.high);
    let (low, high) = (low.as_flattened(), high.as_flattened());
    wire::stretch::between_bounds(&r[at..end], &low[from..to], &high[from..to])
}

// The field at `at` is a count, `most` at most, as many bytes within the range, and zeros behind them.
fn right_counted(r: &[u8; RECORD_SIZE], at: usize, most: usize, range: Range) -> bool
    requires { (at + 1 + most ≤ record_size) × (most ≤ half) }
    ensures { result ≡ counted (λ n. leb n most) (all_in (first_of range.entry.low.now) (first_of range.entry.high.now)) most at r.now }
{
    let n = r[at] as usize;
    n <= most && filled_part(r, at + 1, most, n, range)
}

// Bytes without a meaning.
fn unlisted(r: &[u8; RECORD_SIZE], at: usize, n: usize) -> bool
    requires { at + n ≤ record_size }
    ensures { result ≡ zeros (part at n r.now) }
{
    let end = at + n;
    wire::stretch::all_zeros(&r[at..end])
}

fn right_imsi(r: &[u8; RECORD_SIZE]) -> bool
    ensures { result ≡ imsi_right r.now }
{
    layout::LEAST_IMSI <= r[0] as usize && right_counted(r, 0, layout::MOST_DIGITS, DIGITS)
}

fn right_imei(r: &[u8; RECORD_SIZE]) -> bool
    ensures { result ≡ imei_right r.now }
{
    let n = r[layout::IMEI_AT] as usize;
    ((n == 0) | (n == layout::LEAST_IMEI) | (n == layout::MOST_DIGITS))
        && right_counted(r, layout::IMEI_AT, layout::MOST_DIGITS, DIGITS)
}

// At most 8 PLMNs: the counted ones are free, the bytes behind them zero.
fn right_plmns(r: &[u8; RECORD_SIZE]) -> bool
    ensures { result ≡ plmn_count_right r.now && plmns_right r.now }
{
    let n = r[layout::PLMN_COUNT_AT] as usize;
    n <= layout::MOST_PLMNS
        && filled_part(
            r,
            layout::PLMNS_AT,
            layout::PLMNS_SIZE,
            layout::PLMN_SIZE * n,
            FREE,
        )
}

// A purge bit needs a name.
fn right_purged(r: &[u8; RECORD_SIZE]) -> bool
    ensures { result ≡ purged_right r.now }
{
    let b = r[layout::PURGED_AT];
    (b < 4)
        & ((b % 2 != 1) | (0 < r[layout::MME_AT]))
        & ((b / 2 % 2 != 1) | (0 < r[layout::SGSN_AT]))
}

// The rules in the order of document 01. Between two of them the test may be left, so that the wide loops stay apart.
fn right_record(r: &[u8; RECORD_SIZE]) -> bool
    ensures { result ≡ record_right r.now }
{
    let right = right_imsi(r)
        && r[layout::SUBSCRIPTION_AT] < 4
        && unlisted(r, 21, 3)
        && right_plmns(r)
        && unlisted(r, 29, 3)
        && right_purged(r)
        && unlisted(r, 57, 7)
        && right_counted(r, layout::MME_AT, layout::MOST_NAME, NAMES)
        && right_counted(r, layout::SGSN_AT, layout::MOST_NAME, NAMES)
        && unlisted(r, 194, 2)
        && right_imei(r);
    right & unlisted(r, 220, 36)
}

fn right_header(t: &[u8]) -> bool
    ensures { result ≡ header_right t.now }
{
    if t.len() < layout::TABLE_HEADER {
        return false;
    }
    let n = lookup::count_of(t);
    if layout::MOST_RECORDS < n {
        return false;
    }
    let said = wire::number::get::<u32>(t, 0) as usize;
    (said == t.len())
        & (t[4] == layout::TABLE_VERSION)
        & (t[5] == 0)
        & (t.len() == layout::TABLE_HEADER + layout::RECORD_SIZE * n)
}

// A record that may stand behind another: it is right, and its IMSI above that of the one before.
fn follows(before: &[u8; RECORD_SIZE], r: &[u8; RECORD_SIZE]) -> bool
    ensures { result ≡ record_right r.now && ltb (num (imsi_of before.now)) (num (imsi_of r.now)) }
{
    right_record(r) && lookup::key_less(lookup::key_at(before, 0), lookup::key_at(r, 0))
}

// Each record is right, and its IMSI above that of the record before: one pass, left at the first that is not.
fn right_records(t: &[u8]) -> bool
    requires { header_right t.now ≡ true }
    ensures { result ≡ valid t.now }
{
    let records = record::records(t);
    records.first().is_none_or(|r| right_record(r))
        && records.is_sorted_by(|before, r| follows(before, r))
}

// "A table is valid exactly if all this holds"
pub fn valid_table(t: &[u8]) -> bool
    ensures { result ≡ valid t.now }
{
    right_header(t) && right_records(t)
}
