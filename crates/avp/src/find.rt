// AVPs looked for at the top level of a stretch: the first of a key, the places of the first of several keys by one walk, the first that is a second
// of a key of a set, and their data as a part of the caller's own slice. A stretch that breaks off is looked through as far as it can be read.
ghost use Rattle.std.specs.Prelude.{◌≡◌, false, [], ◌≤◌, ◌<◌, length, map};
ghost use Rattle.std.proofs.Math.Option.{none};
ghost use Rattle.paper.specs.Reader.{avps};
ghost use Rattle.paper.specs.Find.{first_of, first_second, body_found, origin_host};
ghost use Rattle.avp.specs.Step.{step_at};
ghost use Rattle.avp.specs.Found.{number, index_of, found_at, found_by, Noted};

use crate::cursor::{Avp, Avps, Cursor, Step};
use dictionary::Key;
use paper::keys::ORIGIN_HOST;
use paper::layout::MESSAGE_HEADER;

// The first AVP of a key.
pub fn find(s: &[u8], key: Key) -> Option<Avp>
    ensures { result ≡ found_at s.now (first_of key.vendor key.code (avps 0 s.now)) }
{
    Avps::new(s).find(|a| a.key() == key)
}

// The index of the first key that is `key`: by number, as the paper counts keys, since `==` would not tell that each code of the list fits its half.
pub fn index_of(keys: &[Key], key: Key) -> Option<usize>
    ensures index { result ≡ index_of (number key) keys.now }
    ensures code_bound { key.code < 4294967296 }
{
    let number = key.number();
    keys.iter().position(|k| k.number() == number)
}

// The first AVP that is a second of any of the keys, by one walk: `met` says by the index of a key that it was met.
pub fn first_second(s: &[u8], keys: &[Key]) -> Option<Avp>
    requires { length keys.now ≤ 16 }
    ensures { result ≡ found_at s.now (first_second (map number keys.now) [] (avps 0 s.now)) }
{
    let mut met = [false; 16];
    for avp in Avps::new(s) {
        if let Some(i) = index_of(keys, avp.key()) {
            if met[i] {
                return Some(avp);
            }
            met[i] = true;
        }
    }
    None
}

// Where the first AVP of each of some keys stands, by the index of the key.
#[derive(Clone, Copy, Debug, PartialEq, Eq)]
pub struct Firsts {
    // A key was met twice.
    pub again: bool,
    pub places: [Option<usize>; 16],
}

// The places of the first AVPs of the keys, by one walk.
pub fn first_places(s: &[u8], keys: &[Key]) -> Firsts
    requires { length keys.now ≤ 16 }
    ensures noted { Noted s.now keys.now result.places }
    ensures unrepeated { result.again ≡ false → first_second (map number keys.now) [] (avps 0 s.now) ≡ none }
{
    let mut places = [None; 16];
    let mut again = false;
    for avp in Avps::new(s) {
        if let Some(i) = index_of(keys, avp.key()) {
            match places[i] {
                None => places[i] = Some(avp.at),
                Some(_) => again = true,
            }
        }
    }
    Firsts { again, places }
}

// The AVP at a place, if one stands there.
fn found_at(s: &[u8], at: usize) -> Option<Avp>
    ensures { result ≡ found_by (step_at s.now at) }
{
    let c = Cursor { at };
    match c.next(s) {
        Step::Item { avp, next: _ } => Some(avp),
        Step::End | Step::Bad { at: _ } => None,
    }
}

// The first AVP of a key: by its place where the key is one of those that were noted, else by a walk.
// Keys and places come apart: who holds the places has the keys as a static, so that a value with both would be no plainer.
pub fn find_noted(s: &[u8], keys: &[Key], places: &[Option<usize>], key: Key) -> Option<Avp>
    requires { Noted s.now keys.now places.now }
    ensures { result ≡ found_at s.now (first_of key.vendor key.code (avps 0 s.now)) }
{
    let Some(i) = index_of(keys, key) else {
        return find(s, key);
    };
    found_at(s, places[i]?)
}

// The data of the first AVP of a key, and an empty part where there is none.
pub fn found_data(s: &[u8], key: Key) -> &[u8]
    ensures { result.now ≡ body_found (first_of key.vendor key.code (avps 0 s.now)) }
{
    match find(s, key) {
        Some(a) => a.data(s),
        None => &s[..0],
    }
}

// The data of Origin-Host in a message, as that stretch of the message itself; any bytes may be given.
pub fn origin_host(m: &[u8]) -> &[u8]
    ensures { result.now ≡ origin_host m.now }
{
    if m.len() < MESSAGE_HEADER {
        return &m[..0];
    }
    found_data(&m[MESSAGE_HEADER..], ORIGIN_HOST)
}
