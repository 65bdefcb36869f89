// The refusals with an answer, each a test by itself: fine, or the refusal. The order of the tests is that of `judge`.
ghost use Rattle.std.specs.Prelude.{◌≡◌, true, false, cond, List, ℕ, ◌≤◌, [], map, length};
ghost use Rattle.std.proofs.Math.Option.{none, some};
ghost use Rattle.paper.specs.Reader.{told};
ghost use Rattle.paper.specs.Find.{first_second};
ghost use Rattle.paper.specs.Layout.{message_header};
ghost use Rattle.paper.specs.Profile.{command_of};
ghost use Rattle.paper.specs.Request.{command_code, view_of, avps_of, key_number, used, version_test, length_test, error_test, fault_test, application_test, command_test, unsupported_test, repeated_test, first_absent, missing, refuse, absent_test, values_test};
ghost use Rattle.reader.specs.Header.{header_of};
ghost use Rattle.request.specs.Profile.{row_of, key_at};
ghost use Rattle.request.specs.Place.{sought_of};
ghost use Rattle.request.specs.Test.{Answers, refusal_of, shown_test, is_four};

use crate::noted::{Noted, avps_of};
use crate::place::{Spot, earlier};
use crate::profile::Command;
use crate::values::{is_imei, is_imsi, is_name, is_plmn};
use dictionary::{Key, Kind, lookup};
use paper::keys::{IMEI, ORIGIN_HOST, USER_NAME, VISITED_PLMN_ID};
use paper::profile::APPLICATION;
use paper::{Failed, ResultCode, Visit};
use reader::header::Header;

// A refusal with an answer: its Result-Code, the AVP that Failed-AVP shows, and whether the answer echoes Session-Id and Proxy-Info.
#[derive(Clone, Copy, Debug, PartialEq, Eq)]
pub struct Refusal {
    pub code: ResultCode,
    pub failed: Option<Failed>,
    pub echo: bool,
}

// A refusal whose answer echoes Session-Id and Proxy-Info.
fn refuse(code: u32, failed: Option<Failed>) -> Refusal
    ensures { result ≡ refusal_of code failed true }
{
    Refusal {
        code: ResultCode(code),
        failed,
        echo: true,
    }
}

// One whose answer echoes neither: 5011, 5015, 3008 and faults of the visit.
fn mute(code: u32, failed: Option<Failed>) -> Refusal
    ensures { result ≡ refusal_of code failed false }
{
    Refusal {
        code: ResultCode(code),
        failed,
        echo: false,
    }
}

// 5011: version not 1.
pub fn version_test(header: Header) -> Result<(), Refusal>
    ensures { (m : List ℕ) → header ≡ header_of m → Answers m (version_test m) result }
{
    if header.version == 1 {
        return Ok(());
    }
    Err(mute(5011, None))
}

// 5015: the length field is not the `n` bytes given, or they are no multiple of 4.
pub fn length_test(header: Header, n: usize) -> Result<(), Refusal>
    ensures { (m : List ℕ) → header ≡ header_of m → n ≡ length m → Answers m (length_test m) result }
{
    if (header.length as usize == n) & (n % 4 == 0) {
        return Ok(());
    }
    Err(mute(5015, None))
}

// 3008: E bit set.
pub fn error_test(header: Header) -> Result<(), Refusal>
    ensures { (m : List ℕ) → header ≡ header_of m → Answers m (error_test m) result }
{
    if header.flags / 32 % 2 == 1 {
        return Err(mute(3008, None));
    }
    Ok(())
}

// 5014 or 5004: the first fault of the visit, shown by its head alone.
pub fn fault_test(visit: Visit) -> Result<(), Refusal>
    ensures { (m : List ℕ) → message_header ≤ length m → visit ≡ told (view_of m) → Answers m (fault_test m) result }
{
    match visit {
        Visit::Fault { code, at, end } => Err(mute(code, Some(Failed::Bare { at, end }))),
        _ => Ok(()),
    }
}

// 3007: another application.
pub fn application_test(header: Header) -> Result<(), Refusal>
    ensures { (m : List ℕ) → header ≡ header_of m → Answers m (application_test m) result }
{
    if header.application == APPLICATION {
        return Ok(());
    }
    Err(refuse(3007, None))
}

// 3001: no command of the profile.
pub fn command_test(command: Option<Command>) -> Result<(), Refusal>
    ensures { (m : List ℕ) → row_of command ≡ command_of (command_code m) → Answers m (command_test m) result }
{
    match command {
        Some(_) => Ok(()),
        None => Err(refuse(3001, None)),
    }
}

// 5001: the first unknown AVP with M, where the visit has no fault.
pub fn unsupported_test(visit: Visit) -> Result<(), Refusal>
    ensures { (m : List ℕ) → message_header ≤ length m → visit ≡ told (view_of m) → fault_test m ≡ none → Answers m (unsupported_test m) result }
{
    match visit {
        Visit::Unsupported { at, end } => Err(refuse(5001, Some(Failed::Whole { at, end }))),
        _ => Ok(()),
    }
}

// A refusal that shows what was found, and none where nothing was.
fn shown(code: u32, found: Option<Spot>) -> Result<(), Refusal>
    ensures { result ≡ shown_test code found }
{
    match found {
        Some(spot) => Err(refuse(
            code,
            Some(Failed::Whole {
                at: spot.at,
                end: spot.end,
            }),
        )),
        None => Ok(()),
    }
}

// The first at the top level that is a second of an AVP that the command uses.
fn second_used(noted: &Noted) -> Option<Spot>
    ensures { result ≡ sought_of (first_second (map key_number (used noted.now.request.now)) [] (avps_of noted.now.request.now)) }
{
    if !noted.again {
        return None;
    }
    let command = noted.command?;
    avps_of(noted.request).second(command.used())
}

// 5009: the second of an AVP that the command uses, at the top or as an IMEI of Terminal-Information; the one that stands first.
pub fn repeated_test(noted: &Noted) -> Result<(), Refusal>
    ensures { Answers noted.now.request.now (repeated_test noted.now.request.now) result }
{
    let imei = noted.terminal_avps().second(&[IMEI]);
    shown(5009, earlier(second_used(noted), imei))
}

fn is_four(kind: Kind) -> bool
    ensures { result ≡ is_four kind }
{
    matches!(kind, Kind::Four)
}

// The refusal that shows an AVP that is not there.
fn missing(key: Key) -> Refusal
    ensures { (m : List ℕ) → Answers m (refuse 5005 (some (missing (key_at key)))) (Err result) }
{
    let four = is_four(lookup(key));
    refuse(5005, Some(Failed::Missing { key, four }))
}

// The first of the required keys that no AVP has.
fn first_absent(noted: &Noted, required: &[Key]) -> Result<(), Refusal>
    ensures { Answers noted.now.request.now (first_absent (map key_at required.now) (avps_of noted.now.request.now)) result }
{
    for key in required {
        if noted.find_top(*key).is_none() {
            return Err(missing(*key));
        }
    }
    Ok(())
}

// 5005: a required AVP absent; the first in the profile's order.
pub fn absent_test(noted: &Noted) -> Result<(), Refusal>
    ensures { Answers noted.now.request.now (absent_test noted.now.request.now) result }
{
    match noted.command {
        Some(command) => first_absent(noted, command.required()),
        None => Ok(()),
    }
}

// 5004 for what was found and is not right.
fn value_test(right: bool, found: Option<Spot>) -> Result<(), Refusal>
    ensures { result ≡ cond right (Ok tt) (shown_test 5004 found) }
{
    if right {
        return Ok(());
    }
    shown(5004, found)
}

// 5004: User-Name, Origin-Host, Visited-PLMN-Id, IMEI, in this order.
pub fn values_test(noted: &Noted) -> Result<(), Refusal>
    ensures { Answers noted.now.request.now (values_test noted.now.request.now) result }
{
    let user_name = noted.find_used(USER_NAME);
    value_test(is_imsi(noted.data_of(user_name)), user_name)?;
    let origin_host = noted.find_used(ORIGIN_HOST);
    value_test(is_name(noted.data_of(origin_host)), origin_host)?;
    let visited_plmn = noted.find_used(VISITED_PLMN_ID);
    value_test(is_plmn(noted.data_of(visited_plmn)), visited_plmn)?;
    let imei = noted.find_imei();
    value_test(is_imei(noted.data_of(imei)), imei)
}
