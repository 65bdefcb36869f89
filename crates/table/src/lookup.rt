// Which record has an IMSI: std's search by halving, since the IMSIs of a valid table ascend.
// A key is the 16 bytes of an IMSI as two numbers, so that the order of bytes is that of numbers.
ghost use Rattle.std.specs.Prelude.{◌≡◌, true, ◌+◌, ◌≤◌, length, ltb};
ghost use Rattle.std.specs.Ordering.{nat_cmp};
ghost use Rattle.wire.specs.Number.{num};
ghost use Rattle.wire.specs.Put.{part};
ghost use Rattle.paper.specs.Layout.{table_header, imsi_size, imsi_at};
ghost use Rattle.paper.specs.Table.{valid, lookup, count_of, imsi_of};
ghost use Rattle.table.specs.Found.{place_of, key_num};

use crate::record;
use std::cmp::Ordering;

#[derive(Clone, Copy, Debug, PartialEq, Eq)]
pub struct Key(pub u64, pub u64);

// The IMSI at the start of `s`, as a number.
pub fn imsi_number(s: &[u8]) -> u128
    requires { imsi_size ≤ length s.now }
    ensures { result ≡ num (imsi_of s.now) }
{
    let high = wire::number::get::<u64>(s, 0);
    let low = wire::number::get::<u64>(s, 8);
    u128::from(high) * (1 << 64) + u128::from(low)
}

// The 16 bytes of `s` from `at`.
pub fn key_at(s: &[u8], at: usize) -> Key
    requires { at + imsi_size ≤ length s.now }
    ensures { key_num result ≡ num (part at imsi_size s.now) }
{
    let high = wire::number::get::<u64>(s, at);
    let low = wire::number::get::<u64>(s, at + 8);
    Key(high, low)
}

pub fn key_less(a: Key, b: Key) -> bool
    ensures { result ≡ ltb (key_num a) (key_num b) }
{
    if a.0 == b.0 { a.1 < b.1 } else { a.0 < b.0 }
}

// Which of two keys is the lower one: the first 8 bytes decide, or else the last 8.
pub fn compare(a: Key, b: Key) -> Ordering
    ensures { result ≡ nat_cmp (key_num a) (key_num b) }
{
    let (x, y) = if a.0 == b.0 { (a.1, b.1) } else { (a.0, b.0) };
    x.cmp(&y)
}

// The number of records that the header says.
pub fn count_of(t: &[u8]) -> usize
    requires { table_header ≤ length t.now }
    ensures { result ≡ count_of t.now }
{
    wire::number::get::<u16>(t, 6) as usize
}

// The record of a valid table that has the IMSI, 16 bytes as stored.
pub fn find_record(t: &[u8], imsi: &[u8]) -> Option<usize>
    requires { (valid t.now ≡ true) × (length imsi.now ≡ imsi_size) }
    ensures { place_of result ≡ lookup imsi.now t.now }
{
    let wanted = key_at(imsi, 0);
    match record::records(t).binary_search_by(|r| compare(key_at(r, 0), wanted)) {
        Ok(i) => Some(i),
        Err(_) => None,
    }
}
