// The visit: "a list of AVPs holds groups, and a group holds a list again". Reading a list calls reading one AVP, which calls reading a list;
// the list goes by a loop over the cursor, so that depth bounds the stack and not the number of AVPs.
// Places count from the start of the message, at `base` of which the stretch `s` stands.
ghost use Rattle.std.specs.Prelude.{◌≡◌, true, cond, ◌+◌, ◌<◌, ◌^◌, length};
ghost use Rattle.dictionary.specs.Rows.{rising, keys_of, kind_in, kind_of};
ghost use Rattle.paper.specs.declared.Visit.TheVariants.{Clean, Fault, Unsupported};
ghost use Rattle.paper.specs.Reader.{join};
ghost use Rattle.reader.specs.Visit.{told_of, told_avp, ReadFrom};
ghost use Rattle.reader.specs.Message.{visit_of};

use crate::kinds::{Kinds, Known, Lent};
use avp::cursor::{Avp, Cursor, Step, has_m};
use dictionary::{Kind, Row};
use paper::Visit;
use paper::layout::{MESSAGE_HEADER, MOST_GROUPS};

// What is told of two stretches in a row: a fault anywhere wins, then the first unknown AVP with M.
fn joined(a: Visit, b: Visit) -> Visit
    ensures { result ≡ join a b }
{
    match (a, b) {
        (Visit::Clean, _) => b,
        (Visit::Unsupported { .. }, Visit::Fault { .. }) => b,
        _ => a,
    }
}

// A known AVP that is not entered, by whether its data has the size of its type.
fn sized(right: bool, at: usize, end: usize) -> Visit
    ensures { result ≡ cond right Clean (Fault 5014 at end) }
{
    if right {
        Visit::Clean
    } else {
        Visit::Fault {
            code: 5014,
            at,
            end,
        }
    }
}

fn unknown(mandatory: bool, at: usize, end: usize) -> Visit
    ensures { result ≡ cond mandatory (Unsupported at end) Clean }
{
    if mandatory {
        Visit::Unsupported { at, end }
    } else {
        Visit::Clean
    }
}

// Reads the AVPs of `s`; `left` groups may still be entered, one in another. By the cursor: `told_of` says where `s` breaks off, and avp's iterator only ends there.
#[cycle(visit_avp_visit_list)]
fn visit_list_by<K: Kinds>(kinds: K, s: &[u8], base: usize, left: usize) -> Visit
    requires { base + length s.now < 2 ^ 64 }
    ensures { result ≡ told_of (K.kind kinds) left base s.now }
{
    let mut told = Visit::Clean;
    let mut c = Cursor::new();
    loop {
        match c.next(s) {
            Step::End => return told,
            Step::Bad { at } => return joined(
                told,
                Visit::Fault {
                    code: 5014,
                    at: base + at,
                    end: base + s.len(),
                },
            ),
            Step::Item { avp, next } => {
                told = joined(told, visit_avp(kinds, s, avp, base, left));
                c = next;
            }
        }
    }
}

// Reads one AVP of `s`, and what is inside it where it is a group that is entered.
#[cycle(visit_avp_visit_list)]
fn visit_avp<K: Kinds>(kinds: K, s: &[u8], a: Avp, base: usize, left: usize) -> Visit
    requires { (base + length s.now < 2 ^ 64) × ReadFrom s.now a }
    ensures { result ≡ told_avp (K.kind kinds) left base s.now a.at }
{
    let at = base + a.at;
    let end = base + s.len();
    let size = a.end - a.start;
    match kinds.of(a.key()) {
        Kind::Unknown => unknown(has_m(a.flags), at, end),
        Kind::Any | Kind::Closed => Visit::Clean,
        Kind::Four => sized(size == 4, at, end),
        Kind::Eight => sized(size == 8, at, end),
        Kind::Group => {
            if left == 0 {
                return Visit::Fault {
                    code: 5004,
                    at,
                    end,
                };
            }
            let inside = a.data(s);
            visit_list_by(kinds, inside, base + a.start, left - 1)
        }
    }
}

// Reads the AVPs of `s` by the dictionary.
pub fn visit_list(s: &[u8], base: usize, left: usize) -> Visit
    requires { base + length s.now < 2 ^ 64 }
    ensures { result ≡ told_of kind_of left base s.now }
{
    visit_list_by(Known, s, base, left)
}

// The same by rows of the caller's own, whose keys ascend.
pub fn visit_list_in(rows: &[Row], s: &[u8], base: usize, left: usize) -> Visit
    requires { (rising 0 (keys_of rows.now) ≡ true) × (base + length s.now < 2 ^ 64) }
    ensures { result ≡ told_of (kind_in rows.now) left base s.now }
{
    visit_list_by(Lent { rows }, s, base, left)
}

// The visit of a message. A message without a whole header holds no AVP.
fn visit_by<K: Kinds>(kinds: K, m: &[u8]) -> Visit
    ensures { result ≡ visit_of (K.kind kinds) m.now }
{
    if m.len() < MESSAGE_HEADER {
        return Visit::Clean;
    }
    visit_list_by(kinds, &m[MESSAGE_HEADER..], MESSAGE_HEADER, MOST_GROUPS)
}

pub fn visit(m: &[u8]) -> Visit
    ensures { result ≡ visit_of kind_of m.now }
{
    visit_by(Known, m)
}

// The same by rows of the caller's own, whose keys ascend.
pub fn visit_in(rows: &[Row], m: &[u8]) -> Visit
    requires { rising 0 (keys_of rows.now) ≡ true }
    ensures { result ≡ visit_of (kind_in rows.now) m.now }
{
    visit_by(Lent { rows }, m)
}
