// The Experimental results that a record gives: 5420, 5421, 5004, 5423, "first that applies". 5001, no such IMSI, is the caller's.
ghost use Rattle.std.specs.Prelude.{◌≡◌, List, ℕ};
ghost use Rattle.paper.specs.Avp.{bit};
ghost use Rattle.paper.specs.Profile.{visited_plmn_id};
ghost use Rattle.paper.specs.Request.{value_of};
ghost use Rattle.paper.specs.Table.{record_of};
ghost use Rattle.paper.specs.Asked.{asked_of};
ghost use Rattle.paper.specs.Procedures.{sender, unsubscribed, rat_refused, plmn_refused, stranger, experimental, code_if};
ghost use Rattle.procedures.specs.Values.{Held, bytes_of, bit_of_rat, code_of, refused_update};

use crate::flags::{Flags, bit_of};
use crate::nodes::Node;
use crate::subscriber::Subscriber;
use paper::profile::{NOR, ULR};
use paper::{Asked, ExperimentalCode};
use wire::stretch::same_bytes;

// Access-Restriction-Data bits by RAT-Type, from 1000 on.
const RAT_BITS: [u32; 6] = [0, 1, 2, 3, 4, 4];

// "5420 S6a without EPS subscription, or S6d with neither"
fn is_unsubscribed(subscriber: Subscriber, on_s6a: bool) -> bool
    ensures { result ≡ unsubscribed on_s6a (bytes_of subscriber.entry) }
{
    let subscription = subscriber.record.subscription() as u32;
    let eps = bit_of(subscription, 0);
    let gprs = bit_of(subscription, 1);
    if on_s6a { !eps } else { !eps & !gprs }
}

// The bit of a RAT-Type, if it has one.
fn rat_bit(rat: u32) -> Option<u32>
    ensures { result ≡ bit_of_rat rat }
{
    let place = rat.checked_sub(1000)?;
    RAT_BITS.get(place as usize).copied()
}

// "5421 RAT refused": "Bit set: refused. Any other RAT-Type: refused."
fn rat_refused(rat: u32, restriction: u32) -> bool
    ensures { result ≡ rat_refused rat restriction }
{
    match rat_bit(rat) {
        Some(bit) => bit_of(restriction, bit),
        None => true,
    }
}

// "5004 PLMN list not empty and lacks the visited one"
fn plmn_refused(subscriber: Subscriber, plmn: &[u8]) -> bool
    ensures { result ≡ plmn_refused plmn.now (bytes_of subscriber.entry) }
{
    let n = subscriber.record.plmn_count() as usize;
    let listed = (0..n).any(|j| same_bytes(subscriber.record.plmn(j), plmn));
    (0 < n) & !listed
}

// "5423 sender is neither registered node"
fn is_stranger(subscriber: Subscriber, host: &[u8]) -> bool
    ensures { result ≡ stranger host.now (bytes_of subscriber.entry) }
{
    !subscriber.is_sender(Node::Mme, host) & !subscriber.is_sender(Node::Sgsn, host)
}

// The Experimental-Result of a test.
fn refuse_if(applies: bool, code: u32) -> Result<(), ExperimentalCode>
    ensures { code_of result ≡ code_if applies code }
{
    if applies {
        Err(ExperimentalCode(code))
    } else {
        Ok(())
    }
}

// What refuses a ULR.
fn update_verdict(
    subscriber: Subscriber,
    flags: Flags,
    rat: u32,
    plmn: &[u8],
) -> Result<(), ExperimentalCode>
    ensures { code_of result ≡ refused_update flags.0 rat plmn.now (bytes_of subscriber.entry) }
{
    refuse_if(is_unsubscribed(subscriber, flags.on_s6a()), 5420)?;
    refuse_if(rat_refused(rat, subscriber.record.restriction()), 5421)?;
    refuse_if(plmn_refused(subscriber, plmn), 5004)
}

// What refuses the request `m` whose values these are. (t, i) and `Held` stay: docs/STATEMENTS.md names `verdict`.
pub fn verdict(
    t: &[u8],
    i: usize,
    asked: Asked,
    host: &[u8],
    plmn: &[u8],
) -> Result<(), ExperimentalCode>
    requires { Held t.now i }
    ensures { (m : List ℕ) → asked ≡ asked_of m → host.now ≡ sender m → plmn.now ≡ value_of visited_plmn_id m → code_of result ≡ experimental m (record_of t.now i) }
{
    let subscriber = Subscriber::at(t, i);
    match asked.command {
        ULR => update_verdict(subscriber, Flags::of(asked.flags), asked.rat, plmn),
        NOR => refuse_if(is_stranger(subscriber, host), 5423),
        _ => Ok(()),
    }
}
