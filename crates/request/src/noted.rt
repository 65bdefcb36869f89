// A request as it was noted by one walk: its header, its command, and where the first of each AVP that some command uses stands. Every search in it goes
// by these.
ghost use Rattle.std.specs.Prelude.{◌≡◌, false, [], ◌≤◌, length, drop};
ghost use Rattle.std.proofs.Props.{props};
ghost use base.Stored.{Coded-set};
ghost use Rattle.paper.specs.Layout.{message_header};
ghost use Rattle.paper.specs.Profile.{command_of};
ghost use Rattle.paper.specs.Request.{command_code, find, avps_of};
ghost use Rattle.reader.specs.Header.{header_of};
ghost use Rattle.request.specs.Held.{Places, second_noted, Frames};
ghost use Rattle.request.specs.Place.{Finds};
ghost use Rattle.request.specs.Profile.{row_of, key_at};

use crate::place::{AvpList, Spot};
use crate::profile::{Command, NOTED_KEYS, command_of};
use avp::find::{Firsts, find_noted, first_places};
use dictionary::Key;
use paper::layout::MESSAGE_HEADER;
use reader::header::{Header, read_header};

#[derive(Clone, Copy)]
pub struct Noted<'a> {
    pub request: &'a [u8],
    pub header: Header,
    // None where the code is no command's of the profile.
    pub command: Option<Command>,
    // Some AVP that some command uses was met twice.
    pub again: bool,
    pub places: [Option<usize>; 16],
    pub ghost whole: { message_header ≤ length request.now },
    pub ghost read: { header ≡ header_of request.now } by { Coded-set header-code _ _ },
    pub ghost own: { row_of command ≡ command_of (command_code request.now) } by { Prim.hlevel props },
    pub ghost noted: { Places request.now places } by { Prim.hlevel props },
    pub ghost unrepeated: { again ≡ false → second_noted request.now ≡ false },
}

// All AVPs behind the header.
pub fn avps_of(m: &[u8]) -> AvpList
    requires { message_header ≤ length m.now }
    ensures at { result.at ≡ message_header }
    ensures bytes { result.bytes.now ≡ drop message_header m.now }
    ensures framed { Frames m.now (avps_of m.now) result.at result.bytes.now }
{
    AvpList {
        at: MESSAGE_HEADER,
        bytes: &m[MESSAGE_HEADER..],
    }
}

// Notes the request `m`.
pub fn note(m: &[u8]) -> Noted
    requires { message_header ≤ length m.now }
    ensures { result.request.now ≡ m.now }
{
    let header = read_header(m);
    let Firsts { again, places } = first_places(avps_of(m).bytes, &NOTED_KEYS);
    Noted {
        request: m,
        header,
        command: command_of(header.command),
        again,
        places,
    }
}

impl<'a> Noted<'a> {
    // The first AVP of a key at the top level.
    pub fn find_top(&self, key: Key) -> Option<Spot>
        ensures { Finds self.now.request.now (find (key_at key) (avps_of self.now.request.now)) result }
    {
        let list = avps_of(self.request);
        let a = find_noted(list.bytes, &NOTED_KEYS, &self.places, key)?;
        Some(list.spot_of(a))
    }
}
