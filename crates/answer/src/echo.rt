// The parts of an answer that the request's own AVPs are copied to: Session-Id, the first, and each Proxy-Info in order, its data as received.
// Both are written with M and without V, whatever was received.
ghost use Rattle.std.specs.Prelude.{◌<◌, length};
ghost use Rattle.paper.specs.Reader.{avps};
ghost use Rattle.paper.specs.Profile.{session_id, proxy_info};
ghost use Rattle.paper.specs.Request.{find};
ghost use Rattle.paper.specs.Answer.{echoed, each_of};
ghost use Rattle.avp.specs.Found.{Inside};
ghost use Rattle.avp.specs.Written.{Room, Appended};
ghost use Rattle.answer.specs.Parts.{copied};

use avp::cursor::{Avp, Avps};
use avp::find::find;
use avp::write::Writer;
use paper::keys::{PROXY_INFO, SESSION_ID};

// Session-Id, if there is one among the AVPs of `s`.
pub fn put_session_id(out: &mut Writer<'_>, s: &[u8])
    requires { (length s.now < 16777200) × Room out.old (length (echoed session_id (find session_id (avps 0 s.now)))) }
    ensures { Appended out.old (echoed session_id (find session_id (avps 0 s.now))) out.new }
{
    if let Some(a) = find(s, SESSION_ID) {
        out.put_avp(SESSION_ID, true, a.data(s));
    }
}

// The AVP `a` of `s`, if it is a Proxy-Info.
fn put_if_proxy_info(out: &mut Writer<'_>, s: &[u8], a: Avp)
    requires { (length s.now < 16777200) × Inside s.now a × Room out.old (length (copied s.now a)) }
    ensures { Appended out.old (copied s.now a) out.new }
{
    if a.key() == PROXY_INFO {
        out.put_avp(PROXY_INFO, true, a.data(s));
    }
}

// Each Proxy-Info among the AVPs of `s`.
pub fn put_proxy_infos(out: &mut Writer<'_>, s: &[u8])
    requires { (length s.now < 16777200) × Room out.old (length (each_of proxy_info (avps 0 s.now))) }
    ensures { Appended out.old (each_of proxy_info (avps 0 s.now)) out.new }
{
    for a in Avps::new(s) {
        put_if_proxy_info(out, s, a);
    }
}
