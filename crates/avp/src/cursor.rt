// The AVPs of a stretch: step by step, by a cursor that tells where the stretch breaks off, and as an iterator that ends there.
// Any bytes and any place may be read; nothing bounds the stretch.
ghost use Rattle.std.specs.Prelude.{◌≡◌, cond, ◌+◌, ◌<◌, ◌≤◌, ◌^◌, length};
ghost use Rattle.wire.specs.Number.{num_at};
ghost use Rattle.paper.specs.Avp.{has_v, has_m, head_size, padded};
ghost use Rattle.avp.specs.Step.{key_at, step_at};
ghost use Rattle.std.specs.Iterator.{YieldsFirst, item_count};
ghost use Rattle.paper.specs.Reader.{avps};
ghost use Rattle.avp.specs.Walk.{items, left};
ghost use Rattle.avp.specs.Found.{Inside, data_of};

use dictionary::Key;
use wire::number::{U24, get};

// An AVP of a stretch: its place there, the numbers of its header, and where its data starts and ends.
#[derive(Clone, Copy, Debug, PartialEq, Eq)]
pub struct Avp {
    pub at: usize,
    pub code: u32,
    pub vendor: u32,
    pub flags: u8,
    pub start: usize,
    pub end: usize,
}

// A place of a stretch: a step takes the cursor and gives back the AVP and the next cursor.
#[derive(Clone, Copy, Debug, PartialEq, Eq)]
pub struct Cursor {
    pub at: usize,
}

// What stands at a cursor. Three outcomes, none of which is an error: dymosaw's public `read_avp` answers it, and the promises name its cases.
#[derive(Clone, Copy, Debug, PartialEq, Eq)]
pub enum Step {
    // An AVP that lies inside the stretch, and the cursor behind its padding.
    Item { avp: Avp, next: Cursor },
    // Nothing: the stretch ends here.
    End,
    // No AVP that lies inside the stretch.
    Bad { at: usize },
}

// A vendor follows the length.
pub fn has_v(flags: u8) -> bool
    ensures { result ≡ has_v flags }
{
    flags & 128 != 0
}

// The AVP is mandatory.
pub fn has_m(flags: u8) -> bool
    ensures { result ≡ has_m flags }
{
    flags & 64 != 0
}

pub fn head_size(flags: u8) -> usize
    ensures { result ≡ head_size flags }
{
    if has_v(flags) { 12 } else { 8 }
}

// A length with the padding after it.
pub fn with_padding(n: usize) -> usize
    requires { n < 2 ^ 32 }
    ensures { result ≡ padded n }
{
    n.next_multiple_of(4)
}

// The vendor of the AVP at `at` with these flags, whose header lies inside the stretch.
fn vendor_at(s: &[u8], at: usize, flags: u8) -> u32
    requires { at + head_size flags ≤ length s.now }
    ensures { result ≡ cond (has_v flags) (num_at 4 s.now (at + 8)) 0 }
{
    if has_v(flags) {
        get::<u32>(s, at + 8)
    } else {
        0
    }
}

impl Avp {
    // "An AVP's key is (vendor, code)".
    pub fn key(self) -> Key
        ensures { result ≡ key_at self }
    {
        Key {
            vendor: self.vendor,
            code: self.code,
        }
    }

    // Its data, as a part of the stretch that it was read from.
    pub fn data(self, s: &[u8]) -> &[u8]
        requires { Inside s.now self }
        ensures { result.now ≡ data_of s.now self }
    {
        let start = self.start;
        let end = self.end;
        &s[start..end]
    }
}

impl Cursor {
    // The start of a stretch.
    pub fn new() -> Cursor
        ensures { result.at ≡ 0 }
    {
        Cursor { at: 0 }
    }

    // Fewer than 8 bytes hold no AVP, so the header is read only where it is there whole.
    pub fn next(self, s: &[u8]) -> Step
        ensures { result ≡ step_at s.now self.at }
    {
        let at = self.at;
        if s.len() <= at {
            return Step::End;
        }
        let left = s.len() - at;
        if left < 8 {
            return Step::Bad { at };
        }
        let flags = s[at + 4];
        let head = head_size(flags);
        let len = get::<U24>(s, at + 5).0 as usize;
        if len < head {
            return Step::Bad { at };
        }
        let size = with_padding(len);
        if left < size {
            return Step::Bad { at };
        }
        let code = get::<u32>(s, at);
        let vendor = vendor_at(s, at, flags);
        Step::Item {
            avp: Avp {
                at,
                code,
                vendor,
                flags,
                start: at + head,
                end: at + len,
            },
            next: Cursor { at: at + size },
        }
    }
}

// The AVPs of a stretch in their order, up to where it ends or breaks off.
#[derive(Clone, Debug, Drop)]
pub struct Avps<'a> {
    stretch: &'a [u8],
    at: usize,
}

impl<'a> Avps<'a> {
    pub fn new(stretch: &'a [u8]) -> Avps<'a>
        ensures { left result ≡ items stretch.now (avps 0 stretch.now) }
    {
        Avps { stretch, at: 0 }
    }
}

impl<'a> Iterator for Avps<'a> {
    type Item = Avp;

    ghost next_gives = { YieldsFirst left };

    ghost remaining = { item_count left };

    fn next(&mut self) -> Option<Avp> {
        let cursor = Cursor { at: self.at };
        let Step::Item { avp, next } = cursor.next(self.stretch) else {
            return None;
        };
        self.at = next.at;
        Some(avp)
    }
}
