// A request from its bytes to the answer's bytes, the record and the list of nodes to cancel. It is decided first, with every buffer only read, and
// written after. `serve` is the call for Rattle, `dymosaw_request` the one for C, which crates/dymosaw_c exports.
ghost use Rattle.std.specs.Prelude.{◌≡◌, ℕ, ◌+◌, ◌<◌, ◌≤◌, List, [], length, true, Ok, None, unwrap_or};
ghost use Rattle.std.proofs.Math.Option.{none};
ghost use Rattle.wire.specs.Number.{num_at, Bytes};
ghost use Rattle.answer.specs.Ask.{AnswerAsk, said};
ghost use Rattle.paper.specs.Asked.{asked_of};
ghost use Rattle.paper.specs.Avp.{bit};
ghost use Rattle.paper.specs.Fields.{filled};
ghost use Rattle.paper.specs.Layout.{most_digits, least_request, cancel_size, ambr_at};
ghost use Rattle.paper.specs.Outcome.{outcome, answered, success_items, by_refusal, by_record, by_verdict};
ghost use Rattle.paper.specs.Passed.{Passed};
ghost use Rattle.paper.specs.Procedures.{Done, restriction_of, imsi_field, experimental, sender as sender_of};
ghost use Rattle.paper.specs.Request.{is_request, refusal};
ghost use Rattle.paper.specs.Shown.{extra_of};
ghost use Rattle.paper.specs.Table.{record_of, lookup};
ghost use Rattle.paper.specs.declared.Verdict.TheVariants.{Experimental};
ghost use Rattle.procedures.specs.Values.{Held};
ghost use Rattle.request.specs.Accepted.{Accepts};
ghost use Rattle.dymosaw.specs.Serve.{lent, came_to, Is, number_refused, silent_number, entry_at, entries_in, Ready};

use answer::answer::put_answer;
use answer::reply::{Own, Reply};
use avp::find::origin_host;
use paper::layout::{
    CANCEL_SIZE, ENTRY_SIZE, IMSI_SIZE, LEAST_ANSWER, LEAST_REQUEST, MOST_REQUEST,
};
use paper::{Asked, ExperimentalCode, Extra, ResultCode, Subscription, Verdict};
use procedures::cancel::no_entries;
use procedures::carry::carry_out;
use procedures::verdict::verdict;
use request::accept::{Accepted, accept};
use request::judge::judge;
use request::noted::{Noted, note};
use request::profile::{Command, command_of};
use request::values::is_name;
use table::lookup::find_record;
use table::record::Record;
use table::valid::valid_table;

// What an answered request came to: what the answer says, its length, and how many nodes are listed to cancel.
#[derive(Clone, Copy, Debug, PartialEq, Eq)]
pub struct Answered {
    pub verdict: Verdict,
    pub length: usize,
    pub listed: usize,
}

// Why a request gets no answer: every buffer is then as it came. specs/Serve.antt gives each its number.
#[derive(Clone, Copy, Debug, PartialEq, Eq)]
pub enum Silent {
    // a request under 20 or over 4,096 bytes
    RequestSize,
    // R bit clear
    NotRequest,
    // answer or cancel buffer too short
    ShortBuffer,
    TableNotValid,
    // own host or realm
    OwnNameNotValid,
}

// The number of 01's list.
impl From<Silent> for u32 {
    ghost use Rattle.dymosaw.specs.Serve.{number_of_silent};

    ghost from_gives = { λ refusal n. n ≡ number_of_silent refusal };

    fn from(refusal: Silent) -> u32 {
        match refusal {
            Silent::RequestSize => 1,
            Silent::NotRequest => 2,
            Silent::ShortBuffer => 3,
            Silent::TableNotValid => 4,
            Silent::OwnNameNotValid => 5,
        }
    }
}

// ---- the refusals without an answer

// The R bit.
fn is_request(request: &[u8]) -> bool
    requires { least_request ≤ length request.now }
    ensures { result ≡ is_request request.now }
{
    (request[4] >> 7) % 2 == 1
}

// The first that applies, "Tested in this order"; every test is made, whichever fails.
fn admit(
    table: &[u8],
    request: &[u8],
    host: &[u8],
    realm: &[u8],
    answer: &[u8],
    cancel: &[u8],
) -> Result<(), Silent>
    ensures { number_refused result ≡ silent_number (lent table.now request.now host.now realm.now answer.now cancel.now) }
{
    let short = (answer.len() < LEAST_ANSWER) | (cancel.len() < CANCEL_SIZE);
    let named = is_name(host) & is_name(realm);
    let valid = valid_table(table);
    let misfit = (request.len() < LEAST_REQUEST) | (MOST_REQUEST < request.len());
    if short {
        return Err(Silent::ShortBuffer);
    }
    if !named {
        return Err(Silent::OwnNameNotValid);
    }
    if !valid {
        return Err(Silent::TableNotValid);
    }
    if misfit {
        return Err(Silent::RequestSize);
    }
    if !is_request(request) {
        return Err(Silent::NotRequest);
    }
    Ok(())
}

// ---- refusals with an answer

// The answer of a refusal, Experimental ones too, and an empty list. The table is not lent: it stays as it is.
fn put_refusal(
    request: &[u8],
    own: Own<'_>,
    reply: Reply,
    answer: &mut [u8],
    cancel: &mut [u8],
) -> Answered
    requires { AnswerAsk answer.old request.now own.host.now own.realm.now reply.failed (said request.now reply) × (cancel_size ≤ length cancel.old) }
    ensures { (t : List ℕ) → came_to (Ok result) t answer.new cancel.new ≡ answered (lent t request.now own.entry.host.now own.entry.realm.now answer.old cancel.old) t [] (said request.now reply) }
{
    no_entries(cancel);
    let length = put_answer(answer, request, own, reply);
    Answered {
        verdict: reply.verdict,
        length,
        listed: 0,
    }
}

// What an Experimental-Result replies.
fn experimental(code: ExperimentalCode) -> Reply
    ensures { result ≡ record { verdict = Experimental code; failed = None; extra = None; echo = true } }
{
    Reply {
        verdict: Verdict::Experimental(code),
        failed: None,
        extra: None,
        echo: true,
    }
}

// ---- an accepted request

// The IMSI of User-Name as stored: its digit count, the digits, zeros.
fn imsi_field(digits: &[u8]) -> [u8; IMSI_SIZE]
    requires { length digits.now ≤ most_digits }
    ensures { result ≡ filled most_digits digits.now }
{
    let mut field = [0; IMSI_SIZE];
    let n = digits.len() as u8;
    field[0] = n;
    wire::put::put_bytes(&mut field, 1, digits);
    field
}

// The numbers of Subscription-Data that record `i` holds.
fn subscription_of(table: &[u8], i: usize) -> Subscription
    requires { Held table.now i }
    ensures restriction { result.restriction ≡ restriction_of (record_of table.now i) }
    ensures uplink { result.uplink ≡ num_at 4 (record_of table.now i) ambr_at }
    ensures downlink { result.downlink ≡ num_at 4 (record_of table.now i) (ambr_at + 4) }
{
    let r = Record::at(table, i);
    Subscription {
        restriction: r.restriction(),
        uplink: r.uplink(),
        downlink: r.downlink(),
    }
}

// Skip-Subscriber-Data of ULR-Flags.
fn skips(flags: Option<u32>) -> bool
    ensures { result ≡ bit 2 (unwrap_or flags 0) }
{
    (flags.unwrap_or(0) >> 2) % 2 == 1
}

// The AVPs of a success: ULA-Flags and Subscription-Data, PUA-Flags, or nothing more.
fn extra_of(asked: Asked, subscription: Subscription, purges: u32) -> Option<Extra>
    ensures { (m r : List ℕ) (d : Done) → asked ≡ asked_of m → subscription.restriction ≡ restriction_of r → subscription.uplink ≡ num_at 4 r ambr_at → subscription.downlink ≡ num_at 4 r (ambr_at + 4) → purges ≡ d.purges → extra_of result ≡ success_items m r d }
{
    match command_of(asked.command)? {
        Command::Ulr => Some(Extra::Ula {
            subscription: if skips(asked.flags) {
                None
            } else {
                Some(subscription)
            },
        }),
        Command::Pur => Some(Extra::Pua { flags: purges }),
        Command::Nor => None,
    }
}

// 1 where an entry of the list stands at the place: an unused one is zero.
fn entry_at(cancel: &[u8], at: usize) -> usize
    requires { at < length cancel.now }
    ensures { result ≡ entry_at cancel.now at }
{
    if 0 < cancel[at] { 1 } else { 0 }
}

// How many nodes the list in the cancel buffer holds.
fn entries_in(cancel: &[u8]) -> usize
    requires { cancel_size ≤ length cancel.now }
    ensures { result ≡ entries_in cancel.now }
{
    entry_at(cancel, 0) + entry_at(cancel, ENTRY_SIZE)
}

// The request carried out on record `i`, and the answer of success.
fn grant(
    table: &mut [u8],
    i: usize,
    accepted: Accepted,
    sender: &[u8],
    request: &[u8],
    own: Own<'_>,
    answer: &mut [u8],
    cancel: &mut [u8],
) -> Answered
    requires { Ready (lent table.old request.now own.host.now own.realm.now answer.old cancel.old) × Held table.old i × Accepts request.now accepted × (sender.now ≡ sender_of request.now) }
    ensures { came_to (Ok result) table.new answer.new cancel.new ≡ by_verdict (lent table.old request.now own.entry.host.now own.entry.realm.now answer.old cancel.old) i (record_of table.old i) none }
{
    let subscription = subscription_of(table, i);
    let purges = carry_out(table, i, accepted.asked, sender, accepted.imei, cancel);
    let reply = Reply {
        verdict: Verdict::Base(ResultCode(2001)),
        failed: None,
        extra: extra_of(accepted.asked, subscription, purges),
        echo: true,
    };
    let length = put_answer(answer, request, own, reply);
    Answered {
        verdict: reply.verdict,
        length,
        listed: entries_in(cancel),
    }
}

// Record `i` has the request's IMSI: an Experimental-Result of it, or success.
fn serve_record(
    table: &mut [u8],
    i: usize,
    accepted: Accepted,
    sender: &[u8],
    request: &[u8],
    own: Own<'_>,
    answer: &mut [u8],
    cancel: &mut [u8],
) -> Answered
    requires { Ready (lent table.old request.now own.host.now own.realm.now answer.old cancel.old) × Held table.old i × Accepts request.now accepted × (sender.now ≡ sender_of request.now) }
    ensures { came_to (Ok result) table.new answer.new cancel.new ≡ by_verdict (lent table.old request.now own.entry.host.now own.entry.realm.now answer.old cancel.old) i (record_of table.old i) (experimental request.now (record_of table.old i)) }
{
    match verdict(table, i, accepted.asked, sender, accepted.visited_plmn) {
        Err(code) => put_refusal(request, own, experimental(code), answer, cancel),
        Ok(()) => grant(table, i, accepted, sender, request, own, answer, cancel),
    }
}

// No Result-Code refuses the request: its IMSI is looked up. Experimental 5001 where no record has it.
// "Origin-Host, once found, is handed on as that stretch of the request itself": `sender`, compared and stored below.
fn serve_accepted(
    table: &mut [u8],
    noted: &Noted,
    own: Own<'_>,
    answer: &mut [u8],
    cancel: &mut [u8],
) -> Answered
    requires { Ready (lent table.old noted.now.request.now own.host.now own.realm.now answer.old cancel.old) }
    ensures { came_to (Ok result) table.new answer.new cancel.new ≡ by_record (lent table.old noted.now.request.now own.entry.host.now own.entry.realm.now answer.old cancel.old) (lookup (imsi_field noted.now.request.now) table.old) }
{
    let request = noted.request;
    let accepted = accept(noted);
    let sender = origin_host(request);
    let imsi = imsi_field(accepted.user_name);
    match find_record(table, &imsi) {
        Some(i) => serve_record(table, i, accepted, sender, request, own, answer, cancel),
        None => put_refusal(
            request,
            own,
            experimental(ExperimentalCode(5001)),
            answer,
            cancel,
        ),
    }
}

// ---- the call

// A request that gets an answer.
fn serve_request(
    table: &mut [u8],
    request: &[u8],
    own: Own<'_>,
    answer: &mut [u8],
    cancel: &mut [u8],
) -> Answered
    requires { Passed (lent table.old request.now own.host.now own.realm.now answer.old cancel.old) }
    ensures { came_to (Ok result) table.new answer.new cancel.new ≡ by_refusal (lent table.old request.now own.entry.host.now own.entry.realm.now answer.old cancel.old) (refusal request.now) }
{
    let noted = note(request);
    match judge(&noted) {
        Err(refusal) => put_refusal(
            request,
            own,
            Reply {
                verdict: Verdict::Base(refusal.code),
                failed: refusal.failed,
                extra: None,
                echo: refusal.echo,
            },
            answer,
            cancel,
        ),
        Ok(()) => serve_accepted(table, &noted, own, answer, cancel),
    }
}

// Answers a request, for any bytes: 01's `outcome` of what was lent. That the request lent is bytes is in its type; a caller learns it here.
// Six buffers, as C lends them: the length of the answer is handed back beside its buffer.
pub fn serve(
    table: &mut [u8],
    request: &[u8],
    host: &[u8],
    realm: &[u8],
    answer: &mut [u8],
    cancel: &mut [u8],
) -> Result<Answered, Silent>
    ensures comes_to { came_to result table.new answer.new cancel.new ≡ outcome (lent table.old request.now host.now realm.now answer.old cancel.old) }
    ensures bytes { Bytes request.now }
{
    admit(table, request, host, realm, answer, cancel)?;
    Ok(serve_request(table, request, Own { host, realm }, answer, cancel))
}

// The same for C: the high 32 bits are the refusal's number, 0 where there is an answer, and the low 32 bits the answer's length.
pub fn dymosaw_request(
    table: &mut [u8],
    request: &[u8],
    host: &[u8],
    realm: &[u8],
    answer: &mut [u8],
    cancel: &mut [u8],
) -> u64
    ensures is { Is (outcome (lent table.old request.now host.now realm.now answer.old cancel.old)) result table.new answer.new cancel.new }
    ensures bytes { Bytes request.now }
{
    match serve(table, request, host, realm, answer, cancel) {
        Ok(answered) => answered.length as u64,
        Err(refusal) => u64::from(u32::from(refusal)) * 4294967296,
    }
}
