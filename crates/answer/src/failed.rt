// Failed-AVP: it holds the AVP itself, its head alone, or the AVP that is absent, with padding.
ghost use Rattle.std.specs.Prelude.{◌≡◌, true, cond, ◌+◌, ◌≤◌, ◌<◌, length};
ghost use Rattle.wire.specs.Number.{num_at};
ghost use Rattle.paper.specs.Avp.{has_v, framed, avp_of, bare_of, as_received};
ghost use Rattle.paper.specs.Layout.{most_request};
ghost use Rattle.paper.specs.Answer.{failed_item};
ghost use Rattle.paper.specs.Shown.{absent, failed_in};
ghost use Rattle.paper.specs.ShownIn.{ShownIn};
ghost use Rattle.avp.specs.Written.{Room, Appended};
ghost use Rattle.answer.specs.Parts.{shown_bytes};

use avp::cursor::{Cursor, Step, has_v};
use avp::write::Writer;
use dictionary::Key;
use paper::Failed;
use paper::keys::FAILED_AVP;
use wire::number::{byte_or_zero, get_cut};

// The AVP at the front of `s`, its data as received.
fn put_whole(out: &mut Writer<'_>, s: &[u8])
    requires { (length s.now < 16777200) × (framed s.now ≡ true) × Room out.old (length (as_received (avp_of s.now))) }
    ensures { Appended out.old (as_received (avp_of s.now)) out.new }
{
    let Step::Item { avp, next: _ } = Cursor::new().next(s) else {
        unreachable!()
    };
    out.put_as_received(avp.key(), avp.flags, avp.data(s));
}

// The vendor field at the front of `s`, bytes past the end read as 0.
fn vendor_or_zero(s: &[u8], flags: u8) -> u32
    ensures { result ≡ cond (has_v flags) (num_at 4 s.now 8) 0 }
{
    if !has_v(flags) || s.len() < 8 {
        return 0;
    }
    get_cut(s, 8, 4) as u32
}

// The head at the front of `s`, with no data; bytes past the end read as 0.
fn put_bare(out: &mut Writer<'_>, s: &[u8])
    requires { Room out.old 12 }
    ensures { Appended out.old (as_received (bare_of s.now)) out.new }
{
    let code = get_cut(s, 0, 4) as u32;
    let flags = byte_or_zero(s, 4);
    let vendor = vendor_or_zero(s, flags);
    out.put_as_received(Key { vendor, code }, flags, &[]);
}

// The AVP that is absent: four zero bytes for a 4-byte type, else no data.
fn put_absent(out: &mut Writer<'_>, key: Key, four: bool)
    requires { Room out.old 16 }
    ensures { Appended out.old (as_received (absent key.vendor key.code four)) out.new }
{
    if four {
        out.put_number(key, 0);
    } else {
        out.put_avp(key, true, &[]);
    }
}

// What Failed-AVP holds.
fn put_shown(out: &mut Writer<'_>, m: &[u8], failed: Failed)
    requires { (length m.now ≤ most_request) × ShownIn m.now (Some failed) × Room out.old (length (shown_bytes (failed_in m.now (Some failed))) + 16) }
    ensures { Appended out.old (shown_bytes (failed_in m.now (Some failed))) out.new }
{
    match failed {
        Failed::Whole { at, end } => put_whole(out, &m[at..end]),
        Failed::Bare { at, end } => put_bare(out, &m[at..end]),
        Failed::Missing { key, four } => put_absent(out, key, four),
    }
}

// Failed-AVP, where there is something to show.
pub fn put_failed(out: &mut Writer<'_>, m: &[u8], failed: Option<Failed>)
    requires { (length m.now ≤ most_request) × ShownIn m.now failed × Room out.old (length (shown_bytes (failed_in m.now failed)) + 24) }
    ensures { Appended out.old (failed_item (failed_in m.now failed)) out.new }
{
    if let Some(failed) = failed {
        let start = out.open_group(FAILED_AVP);
        put_shown(out, m, failed);
        out.close_group(FAILED_AVP, start);
    }
}
