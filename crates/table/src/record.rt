// The fields of a record, read and stored. A field's place counts from the start of the record; a store leaves every other byte as it is.
// What is asked of record `i` is that it lies inside the buffer, as every record that `find_record` finds does; a `Record` does by itself.
ghost use Rattle.std.specs.Prelude.{◌≡◌, [], ◌∷◌, ◌+◌, ◌*◌, ◌^◌, ◌≤◌, ◌<◌, length, get_or};
ghost use Rattle.wire.specs.Number.{be, num_at};
ghost use Rattle.wire.specs.Put.{part};
ghost use Rattle.paper.specs.Layout.{table_header, record_size, change_at, subscription_at, restriction_at, plmn_count_at, plmns_at, plmn_size, most_plmns, purged_at, most_name, ambr_at, most_digits};
ghost use Rattle.paper.specs.Table.{record_at, record_of, change_of, store};
ghost use Rattle.table.specs.Records.{records_of};
ghost use Rattle.paper.specs.Fields.{filled, with_bit, without_bit, purged_of, store_node, store_purged, store_imei};

use paper::layout;

// The place of record `i`.
pub fn record_at(i: usize) -> usize
    requires { record_at i < 2 ^ 64 }
    ensures { result ≡ record_at i }
{
    layout::TABLE_HEADER + layout::RECORD_SIZE * i
}

// The records behind the header, each a whole one.
pub fn records(t: &[u8]) -> &[[u8; layout::RECORD_SIZE]]
    requires { table_header ≤ length t.now }
    ensures { result.now ≡ records_of t.now }
{
    t[layout::TABLE_HEADER..].as_chunks().0
}

// ---- read

// One record as it stands in the table, always a whole one.
#[derive(Clone, Copy)]
pub struct Record<'a> {
    pub bytes: &'a [u8; layout::RECORD_SIZE],
}

impl<'a> Record<'a> {
    // Record `i`.
    pub fn at(t: &'a [u8], i: usize) -> Record<'a>
        requires { record_at i + record_size ≤ length t.now }
        ensures { result.bytes.now ≡ record_of t.now i }
    {
        Record {
            bytes: &records(t)[i],
        }
    }

    // The byte at `at`.
    pub fn byte(self, at: usize) -> u8
        requires { at < record_size }
        ensures { result ≡ get_or self.entry.bytes.now at 0 }
    {
        self.bytes[at]
    }

    // The number of 4 bytes at `at`.
    pub fn word(self, at: usize) -> u32
        requires { at + 4 ≤ record_size }
        ensures { result ≡ num_at 4 self.entry.bytes.now at }
    {
        let bytes = self.bytes;
        wire::number::get::<u32>(bytes, at)
    }

    // `n` bytes at `at`, as that stretch of the table itself.
    pub fn part(self, at: usize, n: usize) -> &'a [u8]
        requires { at + n ≤ record_size }
        ensures { result.now ≡ part at n self.entry.bytes.now }
    {
        let bytes = self.bytes;
        let end = at + n;
        &bytes[at..end]
    }

    // The bytes of the field at `at` that stands with its count in front: a node's name, none where the node is not registered, or the IMEI.
    pub fn counted(self, at: usize) -> &'a [u8]
        requires { at + 1 + get_or self.bytes.now at 0 ≤ record_size }
        ensures { result.now ≡ part (at + 1) (get_or self.entry.bytes.now at 0) self.entry.bytes.now }
    {
        let n = self.byte(at) as usize;
        self.part(at + 1, n)
    }

    pub fn change_number(self) -> u32
        ensures { result ≡ change_of self.entry.bytes.now }
    {
        self.word(layout::CHANGE_AT)
    }

    // Bit 0 EPS subscription, bit 1 GPRS subscription.
    pub fn subscription(self) -> u8
        ensures { result ≡ get_or self.entry.bytes.now subscription_at 0 }
    {
        self.byte(layout::SUBSCRIPTION_AT)
    }

    // Access-Restriction-Data.
    pub fn restriction(self) -> u32
        ensures { result ≡ num_at 4 self.entry.bytes.now restriction_at }
    {
        self.word(layout::RESTRICTION_AT)
    }

    pub fn plmn_count(self) -> u8
        ensures { result ≡ get_or self.entry.bytes.now plmn_count_at 0 }
    {
        self.byte(layout::PLMN_COUNT_AT)
    }

    // PLMN `j`, counted from 0.
    pub fn plmn(self, j: usize) -> &'a [u8]
        requires { j < most_plmns }
        ensures { result.now ≡ part (plmns_at + plmn_size * j) plmn_size self.entry.bytes.now }
    {
        self.part(layout::PLMNS_AT + layout::PLMN_SIZE * j, layout::PLMN_SIZE)
    }

    // Bit 0 purged in MME, bit 1 purged in SGSN.
    pub fn purged(self) -> u8
        ensures { result ≡ get_or self.entry.bytes.now purged_at 0 }
    {
        self.byte(layout::PURGED_AT)
    }

    // AMBR uplink.
    pub fn uplink(self) -> u32
        ensures { result ≡ num_at 4 self.entry.bytes.now ambr_at }
    {
        self.word(layout::AMBR_AT)
    }

    // AMBR downlink.
    pub fn downlink(self) -> u32
        ensures { result ≡ num_at 4 self.entry.bytes.now (ambr_at + 4) }
    {
        self.word(layout::AMBR_AT + 4)
    }
}

// ---- stored: by the table and the number of the record, since `store` and its promises are said of the whole table

// The bytes `xs` at `at` of record `i`: every value of a correction.
pub fn store_bytes(t: &mut [u8], i: usize, at: usize, xs: &[u8])
    requires { (record_at i + record_size ≤ length t.old) × (at + length xs.now ≤ record_size) }
    ensures { t.new ≡ store i at xs.now t.old }
{
    let start = record_at(i);
    wire::put::put_bytes(t, start + at, xs);
}

pub fn store_change(t: &mut [u8], i: usize, v: u32)
    requires { record_at i + record_size ≤ length t.old }
    ensures { t.new ≡ store i change_at (be 4 v) t.old }
{
    let start = record_at(i);
    wire::number::put(t, start + layout::CHANGE_AT, v);
}

fn store_byte(t: &mut [u8], i: usize, at: usize, b: u8)
    requires { (record_at i + record_size ≤ length t.old) × (at < record_size) }
    ensures { t.new ≡ store i at (b ∷ []) t.old }
{
    let start = record_at(i);
    t[start + at] = b;
}

// The bytes `xs` with their count in front and zeros behind, in the field of `most` bytes at `at`.
fn store_counted(t: &mut [u8], i: usize, at: usize, most: usize, xs: &[u8])
    requires { (record_at i + record_size ≤ length t.old) × (at + 1 + most ≤ record_size) × (length xs.now ≤ most) }
    ensures { t.new ≡ store i at (filled most xs.now) t.old }
{
    let from = record_at(i) + at;
    let n = xs.len();
    let first = wire::number::put(t, from, n as u8);
    let behind = wire::put::put_bytes(t, first, xs);
    wire::put::put_zeros(t, behind, most - n);
}

// The byte `b` with its bit `k` set.
fn with_bit(k: u8, b: u8) -> u8
    requires { (k < 2) × (b < 4) }
    ensures { result ≡ with_bit k b }
{
    if (b >> k) % 2 == 1 { b } else { b + (1 << k) }
}

// The byte `b` with its bit `k` cleared.
fn without_bit(k: u8, b: u8) -> u8
    requires { (k < 2) × (b < 4) }
    ensures { result ≡ without_bit k b }
{
    if (b >> k) % 2 == 1 { b - (1 << k) } else { b }
}

// Registers the node whose name stands at `at` and whose purge bit is `bit`: the name stored, the bit cleared. No bytes for a name clear the node.
pub fn store_node(t: &mut [u8], i: usize, at: usize, bit: u8, name: &[u8])
    requires { (record_at i + record_size ≤ length t.old) × (purged_of t.old i < 4) × (at + 1 + most_name ≤ record_size) × (bit < 2) × (length name.now ≤ most_name) }
    ensures { t.new ≡ store_node at bit i name.now t.old }
{
    let b = without_bit(bit, Record::at(t, i).purged());
    store_byte(t, i, layout::PURGED_AT, b);
    store_counted(t, i, at, layout::MOST_NAME, name);
}

// Sets the purge bit `bit`.
pub fn store_purged(t: &mut [u8], i: usize, bit: u8)
    requires { (record_at i + record_size ≤ length t.old) × (purged_of t.old i < 4) × (bit < 2) }
    ensures { t.new ≡ store_purged bit i t.old }
{
    let b = with_bit(bit, Record::at(t, i).purged());
    store_byte(t, i, layout::PURGED_AT, b);
}

pub fn store_imei(t: &mut [u8], i: usize, imei: &[u8])
    requires { (record_at i + record_size ≤ length t.old) × (length imei.now ≤ most_digits) }
    ensures { t.new ≡ store_imei i imei.now t.old }
{
    store_counted(t, i, layout::IMEI_AT, layout::MOST_DIGITS, imei);
}
