// AVPs written one behind another: as received, by key and M, a number, and the header of a group. Each method of `Writer` says by `Appended` which bytes
// it puts; `write_avp` tests for room itself.
ghost use Rattle.std.specs.Prelude.{◌≡◌, true, ◌+◌, ◌≤◌, ◌<◌, length, replicate};
ghost use Rattle.wire.specs.Number.{be};
ghost use Rattle.paper.specs.Avp.{head_size, padded, vendor_field, flags_for, written};
ghost use Rattle.paper.proofs.WrittenLaws.{head_bytes};
ghost use Rattle.avp.specs.Written.{Room, Appended, Opened, Closed, group_head, group_head_size, received, came_to, avp_written};

use crate::cursor::{has_v, head_size, with_padding};
use dictionary::Key;
use wire::number::put;
use wire::put::{put_bytes, put_zeros};

// The most data of an AVP that is written: with a header of 12 bytes its length has 24 bits.
const MOST_DATA: usize = 16777199;

// Why an AVP is not written: it has more than the most data, or does not end inside the buffer.
#[derive(Clone, Copy, Debug, PartialEq, Eq)]
pub struct NoRoom;

// A buffer and the place where the next AVP goes.
#[derive(Drop)]
pub struct Writer<'a> {
    pub out: &'a mut [u8],
    pub at: usize,
}

// V, 128, exactly if there is a vendor; M is 64.
fn flags_for(vendor: u32, mandatory: bool) -> u8
    ensures { result ≡ flags_for vendor mandatory }
{
    if vendor == 0 {
        if mandatory { 64 } else { 0 }
    } else {
        if mandatory { 192 } else { 128 }
    }
}

impl Writer<'_> {
    fn put_u32(&mut self, v: u32)
        requires { Room self.old 4 }
        ensures { Appended self.old (be 4 v) self.new }
    {
        self.at = put(self.out, self.at, v);
    }

    fn put_bytes(&mut self, bytes: &[u8])
        requires { Room self.old (length bytes.now) }
        ensures { Appended self.old bytes.now self.new }
    {
        self.at = put_bytes(self.out, self.at, bytes);
    }

    fn put_zeros(&mut self, n: usize)
        requires { Room self.old n }
        ensures { Appended self.old (replicate n 0) self.new }
    {
        self.at = put_zeros(self.out, self.at, n);
    }

    fn put_vendor(&mut self, flags: u8, vendor: u32)
        requires { Room self.old (length (vendor_field flags vendor)) }
        ensures { Appended self.old (vendor_field flags vendor) self.new }
    {
        if has_v(flags) {
            self.put_u32(vendor);
        }
    }

    // The header of an AVP with `n` bytes of data. Flags and length are one number of four bytes.
    fn put_head(&mut self, key: Key, flags: u8, n: usize)
        requires { (n < 16777200) × Room self.old (length (head_bytes key.code flags key.vendor n)) }
        ensures { Appended self.old (head_bytes key.code flags key.vendor n) self.new }
    {
        self.put_u32(key.code);
        self.put_u32((flags as u32) * 16777216 + (head_size(flags) + n) as u32);
        self.put_vendor(flags, key.vendor);
    }

    // An AVP as received, its length mended and its padding zero.
    pub fn put_as_received(&mut self, key: Key, flags: u8, body: &[u8])
        requires { (length body.now < 16777200) × Room self.old (length (received key.code flags key.vendor body.now)) }
        ensures { Appended self.old (received key.code flags key.vendor body.now) self.new }
    {
        let n = body.len();
        self.put_head(key, flags, n);
        self.put_bytes(body);
        self.put_zeros(with_padding(n) - n);
    }

    // An AVP by its key, M and data.
    pub fn put_avp(&mut self, key: Key, mandatory: bool, body: &[u8])
        requires { (length body.now < 16777200) × Room self.old (length (written key.vendor key.code mandatory body.now)) }
        ensures { Appended self.old (written key.vendor key.code mandatory body.now) self.new }
    {
        self.put_as_received(key, flags_for(key.vendor, mandatory), body);
    }

    // The header of a group with M whose `n` bytes of data, fours, stand behind it or will.
    pub fn put_group_head(&mut self, key: Key, n: usize)
        requires { (n < 16777200) × Room self.old (length (group_head key.vendor key.code n)) }
        ensures { Appended self.old (group_head key.vendor key.code n) self.new }
    {
        self.put_head(key, flags_for(key.vendor, true), n);
    }

    // An AVP with M that holds a number of four bytes.
    pub fn put_number(&mut self, key: Key, v: u32)
        requires { Room self.old (length (written key.vendor key.code true (be 4 v))) }
        ensures { Appended self.old (written key.vendor key.code true (be 4 v)) self.new }
    {
        self.put_group_head(key, 4);
        self.put_u32(v);
    }

    // A group with M is begun: its parts come next, behind the place of its header. Answers where that starts.
    pub fn open_group(&mut self, key: Key) -> usize
        requires { Room self.old (group_head_size key.vendor) }
        ensures opened { Opened self.old (group_head_size key.vendor) self.new }
        ensures start { result ≡ self.old.at }
    {
        let start = self.at;
        self.at = start + head_size(flags_for(key.vendor, true));
        start
    }

    // The header of the group that was begun at `start` and whose parts, fours, end here: their length is known by now.
    pub fn close_group(&mut self, key: Key, start: usize)
        requires { (start + group_head_size key.vendor ≤ self.old.at) × (self.old.at < start + group_head_size key.vendor + 16777200) × Room self.old 0 }
        ensures { Closed self.old key.vendor key.code start self.new }
    {
        let end = self.at;
        self.at = start;
        self.put_group_head(key, end - start - head_size(flags_for(key.vendor, true)));
        self.at = end;
    }
}

// The bytes that an AVP with `n` bytes of data takes, with its padding.
fn written_size(key: Key, mandatory: bool, n: usize) -> usize
    requires { n < 16777200 }
    ensures { result ≡ padded (head_size (flags_for key.vendor mandatory) + n) }
{
    with_padding(head_size(flags_for(key.vendor, mandatory)) + n)
}

// An AVP by its key, M and data, at any place of any buffer: written where there is room for all of it, and else nothing is.
// Answers the place behind its padding.
pub fn write_avp(
    out: &mut [u8],
    at: usize,
    key: Key,
    mandatory: bool,
    body: &[u8],
) -> Result<usize, NoRoom>
    ensures { came_to result out.new ≡ avp_written out.old at key.vendor key.code mandatory body.now }
{
    let n = body.len();
    if MOST_DATA < n {
        return Err(NoRoom);
    }
    let size = written_size(key, mandatory, n);
    if out.len() < at {
        return Err(NoRoom);
    }
    if out.len() - at < size {
        return Err(NoRoom);
    }
    let mut writer = Writer { out, at };
    writer.put_avp(key, mandatory, body);
    Ok(writer.at)
}
