// AVPs sought in a list of AVPs that stands in a message; what is found is told by its places in the message.
ghost use Rattle.std.specs.Prelude.{◌≡◌, [], ◌+◌, ◌≤◌, ◌<◌, ◌^◌, length, map};
ghost use Rattle.avp.specs.Found.{number};
ghost use Rattle.paper.specs.Reader.{avps};
ghost use Rattle.paper.specs.Find.{first_of, first_second};
ghost use Rattle.request.specs.Place.{sought_of, earlier_sought};

use avp::cursor::Avp;
use avp::find::{find, first_second};
use dictionary::Key;

// An AVP of the message: its place, the end of what encloses it, and where its data starts and ends.
#[derive(Clone, Copy, Debug, PartialEq, Eq)]
pub struct Spot {
    pub at: usize,
    pub end: usize,
    pub from: usize,
    pub to: usize,
}

// A list of AVPs: its bytes, and where in the message they start.
#[derive(Clone, Copy)]
pub struct AvpList<'a> {
    pub at: usize,
    pub bytes: &'a [u8],
    pub ghost fits: { at + length bytes.now < 2 ^ 64 },
}

impl AvpList<'_> {
    // An AVP of the list, by places of the message.
    pub fn spot_of(&self, a: Avp) -> Spot
        requires { (self.now.at + a.at < 2 ^ 64) × (self.now.at + a.end < 2 ^ 64) × (self.now.at + a.start < 2 ^ 64) }
        ensures { result ≡ record { at = self.now.at + a.at; end = self.now.at + length self.now.bytes.now; from = self.now.at + a.start; to = self.now.at + a.end } }
    {
        Spot {
            at: self.at + a.at,
            end: self.at + self.bytes.len(),
            from: self.at + a.start,
            to: self.at + a.end,
        }
    }

    // The first AVP of a key.
    pub fn find(&self, key: Key) -> Option<Spot>
        ensures { result ≡ sought_of (first_of key.vendor key.code (avps self.now.at self.now.bytes.now)) }
    {
        let a = find(self.bytes, key)?;
        Some(self.spot_of(a))
    }

    // The first AVP that is a second of one of the keys.
    pub fn second(&self, keys: &[Key]) -> Option<Spot>
        requires { length keys.now ≤ 16 }
        ensures { result ≡ sought_of (first_second (map number keys.now) [] (avps self.now.at self.now.bytes.now)) }
    {
        let a = first_second(self.bytes, keys)?;
        Some(self.spot_of(a))
    }
}

// Of two that were found the one that stands first.
pub fn earlier(f: Option<Spot>, g: Option<Spot>) -> Option<Spot>
    ensures { result ≡ earlier_sought f g }
{
    match (f, g) {
        (Some(p), Some(q)) => Some(if q.at < p.at { q } else { p }),
        (f, g) => f.or(g),
    }
}
