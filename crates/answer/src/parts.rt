// The parts of an answer that do not come from the request: what it says, the own names, the AVPs of a success.
ghost use Rattle.std.specs.Prelude.{◌+◌, ◌≤◌, length};
ghost use Rattle.paper.specs.Layout.{most_name};
ghost use Rattle.paper.specs.Answer.{result_item, restriction_item};
ghost use Rattle.paper.specs.Shown.{verdict_of, subscription_in, extra_of};
ghost use Rattle.paper.specs.declared.Verdict.TheVariants.{Experimental};
ghost use Rattle.avp.specs.Written.{Room, Appended};
ghost use Rattle.answer.specs.Parts.{own_items, ambr_item, ula_items};

use crate::reply::Own;
use avp::write::Writer;
use paper::keys::{
    ACCESS_RESTRICTION_DATA, AMBR, AUTH_SESSION_STATE, BANDWIDTH_DL, BANDWIDTH_UL,
    EXPERIMENTAL_RESULT, EXPERIMENTAL_RESULT_CODE, ORIGIN_HOST, ORIGIN_REALM, PUA_FLAGS,
    RESULT_CODE, SUBSCRIBER_STATUS, SUBSCRIPTION_DATA, ULA_FLAGS, VENDOR_ID,
};
use paper::profile::VENDOR_3GPP;
use paper::{ExperimentalCode, Extra, Subscription, Verdict};

// Experimental-Result: Vendor-Id and Experimental-Result-Code.
fn put_experimental(out: &mut Writer<'_>, code: ExperimentalCode)
    requires { Room out.old 32 }
    ensures { Appended out.old (result_item (verdict_of (Experimental code))) out.new }
{
    let start = out.open_group(EXPERIMENTAL_RESULT);
    out.put_number(VENDOR_ID, VENDOR_3GPP);
    out.put_number(EXPERIMENTAL_RESULT_CODE, code.0);
    out.close_group(EXPERIMENTAL_RESULT, start);
}

// Result-Code, or Experimental-Result.
pub fn put_result(out: &mut Writer<'_>, verdict: Verdict)
    requires { Room out.old 32 }
    ensures { Appended out.old (result_item (verdict_of verdict)) out.new }
{
    match verdict {
        Verdict::Base(code) => out.put_number(RESULT_CODE, code.0),
        Verdict::Experimental(code) => put_experimental(out, code),
    }
}

// Auth-Session-State 1, Origin-Host, Origin-Realm.
pub fn put_own(out: &mut Writer<'_>, own: Own<'_>)
    requires { (length own.host.now ≤ most_name) × (length own.realm.now ≤ most_name) × Room out.old (length (own_items own.host.now own.realm.now)) }
    ensures { Appended out.old (own_items own.entry.host.now own.entry.realm.now) out.new }
{
    out.put_number(AUTH_SESSION_STATE, 1);
    out.put_avp(ORIGIN_HOST, true, own.host);
    out.put_avp(ORIGIN_REALM, true, own.realm);
}

// AMBR: uplink, then downlink.
fn put_ambr(out: &mut Writer<'_>, uplink: u32, downlink: u32)
    requires { Room out.old 44 }
    ensures { Appended out.old (ambr_item uplink downlink) out.new }
{
    let start = out.open_group(AMBR);
    out.put_number(BANDWIDTH_UL, uplink);
    out.put_number(BANDWIDTH_DL, downlink);
    out.close_group(AMBR, start);
}

// Access-Restriction-Data if not 0.
fn put_restriction(out: &mut Writer<'_>, restriction: u32)
    requires { Room out.old 16 }
    ensures { Appended out.old (restriction_item restriction) out.new }
{
    if restriction != 0 {
        out.put_number(ACCESS_RESTRICTION_DATA, restriction);
    }
}

// Subscription-Data.
fn put_subscription(out: &mut Writer<'_>, subscription: Subscription)
    requires { Room out.old 88 }
    ensures { Appended out.old (subscription_in (Some subscription)) out.new }
{
    let start = out.open_group(SUBSCRIPTION_DATA);
    out.put_number(SUBSCRIBER_STATUS, 0);
    put_restriction(out, subscription.restriction);
    put_ambr(out, subscription.uplink, subscription.downlink);
    out.close_group(SUBSCRIPTION_DATA, start);
}

// ULA-Flags 1, and Subscription-Data unless skipped.
fn put_ula(out: &mut Writer<'_>, subscription: Option<Subscription>)
    requires { Room out.old (length (ula_items subscription) + 16) }
    ensures { Appended out.old (ula_items subscription) out.new }
{
    out.put_number(ULA_FLAGS, 1);
    if let Some(subscription) = subscription {
        put_subscription(out, subscription);
    }
}

// The AVPs of a success that has some of its own.
pub fn put_extra(out: &mut Writer<'_>, extra: Option<Extra>)
    requires { Room out.old (length (extra_of extra) + 16) }
    ensures { Appended out.old (extra_of extra) out.new }
{
    match extra {
        Some(Extra::Ula { subscription }) => put_ula(out, subscription),
        Some(Extra::Pua { flags }) => out.put_number(PUA_FLAGS, flags),
        None => {}
    }
}
