// The whole answer: the AVPs in document 01's order behind the place of the header, then that, whose length is known by then.
ghost use Rattle.std.specs.Prelude.{◌≤◌, ◌<◌, length};
ghost use Rattle.wire.specs.Put.{Wrote};
ghost use Rattle.paper.specs.Layout.{least_request, most_request, message_header};
ghost use Rattle.paper.specs.Answer.{reply_avps, answer};
ghost use Rattle.avp.specs.Written.{Room, Appended};
ghost use Rattle.answer.specs.Parts.{session_echo, proxy_echo, header_bytes};
ghost use Rattle.answer.specs.Ask.{said, AvpsAsk, AnswerAsk};

use crate::echo::{put_proxy_infos, put_session_id};
use crate::failed::put_failed;
use crate::parts::{put_extra, put_own, put_result};
use crate::reply::{Own, Reply};
use avp::write::Writer;
use paper::layout::MESSAGE_HEADER;
use wire::number::put;
use wire::put::put_bytes;

// Session-Id, where the answer echoes.
fn echo_session_id(out: &mut Writer<'_>, m: &[u8], echo: bool)
    requires { (least_request ≤ length m.now) × (length m.now ≤ most_request) × Room out.old (length (session_echo m.now echo)) }
    ensures { Appended out.old (session_echo m.now echo) out.new }
{
    if echo {
        put_session_id(out, &m[MESSAGE_HEADER..]);
    }
}

// Each Proxy-Info, where the answer echoes.
fn echo_proxy_infos(out: &mut Writer<'_>, m: &[u8], echo: bool)
    requires { (least_request ≤ length m.now) × (length m.now ≤ most_request) × Room out.old (length (proxy_echo m.now echo)) }
    ensures { Appended out.old (proxy_echo m.now echo) out.new }
{
    if echo {
        put_proxy_infos(out, &m[MESSAGE_HEADER..]);
    }
}

// The AVPs of the answer.
fn put_avps(out: &mut Writer<'_>, m: &[u8], own: Own<'_>, reply: Reply)
    requires { AvpsAsk out.old m.now own.host.now own.realm.now reply.failed (said m.now reply) }
    ensures { Appended out.old (reply_avps m.now own.entry.host.now own.entry.realm.now (said m.now reply)) out.new }
{
    echo_session_id(out, m, reply.echo);
    put_result(out, reply.verdict);
    put_own(out, own);
    put_failed(out, m, reply.failed);
    put_extra(out, reply.extra);
    echo_proxy_infos(out, m, reply.echo);
}

// The header of an answer of `n` bytes: version 1 and the length are one number of four bytes; what stands behind the flags is as received.
fn put_header(out: &mut [u8], m: &[u8], flags: u8, n: usize) -> usize
    requires { (message_header ≤ length out.old) × (least_request ≤ length m.now) × (n < 16777216) }
    ensures { Wrote out.old 0 (header_bytes n flags m.now) out.new result }
{
    let a = put(out, 0, 16777216 + n as u32);
    let b = put(out, a, flags);
    put_bytes(out, b, &m[5..MESSAGE_HEADER])
}

// The answer to the request `m` at the start of `out`; its length is returned, and later bytes of the buffer stay.
pub fn put_answer(out: &mut [u8], m: &[u8], own: Own<'_>, reply: Reply) -> usize
    requires { AnswerAsk out.old m.now own.host.now own.realm.now reply.failed (said m.now reply) }
    ensures { Wrote out.old 0 (answer m.now own.entry.host.now own.entry.realm.now (said m.now reply)) out.new result }
{
    let mut avps = Writer {
        out,
        at: MESSAGE_HEADER,
    };
    put_avps(&mut avps, m, own, reply);
    let end = avps.at;
    put_header(out, m, reply.flags(m), end);
    end
}
