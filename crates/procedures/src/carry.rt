// What an accepted request does. The list of nodes is written while the record is as it was; then the record is changed.
ghost use Rattle.std.specs.Prelude.{◌≡◌, true, cond, List, ℕ, ◌≤◌, length, is_some, unwrap_or, option_copied, IfSome};
ghost use Rattle.paper.specs.Avp.{bit};
ghost use Rattle.paper.specs.Layout.{most_name, cancel_size};
ghost use Rattle.paper.specs.Request.{is_name, imei_digits};
ghost use Rattle.paper.specs.Table.{mme, sgsn, record_of};
ghost use Rattle.paper.specs.Asked.{asked_of, imei_in};
ghost use Rattle.paper.specs.Procedures.{sender, register, clear, code_if, other_type, updated, located, purges, purged_if, notified, carried_out};
ghost use Rattle.procedures.specs.Values.{slot_of, other_of, update_of, type_number, type_of, bytes_of, Held, clears, stored_if, Did, Purged, Carried};

use crate::cancel::{CancellationType, list_notified, list_updated, no_entries};
use crate::flags::{Flags, bit_of};
use crate::nodes::Node;
use crate::subscriber::Subscriber;
use paper::Asked;
use paper::profile::{PUR, ULR};

// ---- a node cleared, a purge bit set, the IMEI stored, each where it applies
// A record that is written stays (t, i): a struct that held the table's `&mut` would need a clause on its reference at each function, in place of `Held`.

// The node is cancelled, and registered: it is to be cleared.
fn is_cleared(subscriber: Subscriber, node: Node, how: Option<CancellationType>) -> bool
    ensures { result ≡ clears (slot_of node) (type_of how) (bytes_of subscriber.entry) }
{
    how.is_some() & subscriber.is_registered(node)
}

// "the name becomes Origin-Host; its purge bit is cleared". No bytes for a name clear the node.
fn register(t: &mut [u8], i: usize, node: Node, name: &[u8])
    requires { (Held t.old i) × (length name.now ≤ most_name) }
    ensures { t.new ≡ register (slot_of node) name.now i t.old }
{
    table::record::store_node(t, i, node.name_at(), node.purge_bit(), name);
}

// "name and purge bit are cleared"
fn clear_if(t: &mut [u8], i: usize, node: Node, gone: bool)
    requires { Held t.old i }
    ensures { t.new ≡ cond gone (clear (slot_of node) i t.old) t.old }
{
    if gone {
        register(t, i, node, b"");
    }
}

// "gets its purge bit"
fn purge_if(t: &mut [u8], i: usize, node: Node, told: bool)
    requires { Held t.old i }
    ensures { t.new ≡ purged_if told (slot_of node) i t.old }
{
    if told {
        table::record::store_purged(t, i, node.purge_bit());
    }
}

// "IMEI, if there, is stored."
fn store_imei_if(t: &mut [u8], i: usize, imei: Option<&[u8]>)
    requires { (Held t.old i) × (IfSome (option_copied imei) (λ x. imei_digits x ≡ true)) }
    ensures { t.new ≡ stored_if (option_copied imei.entry) i t.old }
{
    if let Some(digits) = imei {
        table::record::store_imei(t, i, digits);
    }
}

// ---- ULR

// "Single-Registration lists it with type 1, else Initial-Attach lists it with type 4"; on S6d "Single-Registration has no effect".
#[tactic(auto, unfolding(paper::specs::Procedures::other_type))]
fn other_type(flags: Flags) -> Option<CancellationType>
    ensures { type_of result ≡ other_type (bit 1 flags.0) (bit 0 flags.0) (bit 5 flags.0) }
{
    let obeyed = flags.on_s6a() & flags.single_registration();
    if obeyed {
        return Some(CancellationType::SgsnUpdate);
    }
    if flags.initial_attach() {
        return Some(CancellationType::InitialAttach);
    }
    None
}

// The sender becomes the node `own`, and the other one is cancelled as `how` says.
fn update_node(
    t: &mut [u8],
    i: usize,
    own: Node,
    how: Option<CancellationType>,
    host: &[u8],
    cancel: &mut [u8],
)
    requires { (Held t.old i) × (is_name host.now ≡ true) × (cancel_size ≤ length cancel.old) }
    ensures { Did (updated (slot_of own) (slot_of (other_of own)) (type_number (update_of own)) (type_of how) host.now (record_of t.old i) i t.old) cancel.old t.new cancel.new }
{
    let subscriber = Subscriber::at(t, i);
    let other = own.other();
    let gone = is_cleared(subscriber, other, how);
    list_updated(cancel, subscriber, own, how, host);
    register(t, i, own, host);
    clear_if(t, i, other, gone);
}

// "ULR on S6a: [..] Cancellation-Type 0"; "On S6d, for the SGSN: type 1".
fn update_location(t: &mut [u8], i: usize, flags: Flags, host: &[u8], cancel: &mut [u8])
    requires { (Held t.old i) × (is_name host.now ≡ true) × (cancel_size ≤ length cancel.old) }
    ensures { Did (located (bit 1 flags.0) (other_type (bit 1 flags.0) (bit 0 flags.0) (bit 5 flags.0)) host.now (record_of t.old i) i t.old) cancel.old t.new cancel.new }
{
    let own = if flags.on_s6a() {
        Node::Mme
    } else {
        Node::Sgsn
    };
    update_node(t, i, own, other_type(flags), host, cancel);
}

// ---- PUR

// "each registered name equal to Origin-Host gets its purge bit; with PUR-Flags only where its bit is set too"
fn is_purged(subscriber: Subscriber, node: Node, host: &[u8], flags: Option<u32>) -> bool
    ensures { result ≡ purges (slot_of node) host.now (is_some flags) (unwrap_or flags 0) (bytes_of subscriber.entry) }
{
    let bit = node.purge_bit() as u32;
    let told = flags.is_none_or(|word| bit_of(word, bit));
    subscriber.is_sender(node, host) & told
}

// A bit of PUA-Flags.
fn flag_if(told: bool, flag: u32) -> u32
    ensures { result ≡ cond told flag 0 }
{
    if told { flag } else { 0 }
}

// Answers PUA-Flags: "the purge bits this request sets".
fn purge_ue(t: &mut [u8], i: usize, host: &[u8], flags: Option<u32>) -> u32
    requires { Held t.old i }
    ensures { Purged (purges mme host.now (is_some flags) (unwrap_or flags 0) (record_of t.old i)) (purges sgsn host.now (is_some flags) (unwrap_or flags 0) (record_of t.old i)) i t.old result t.new }
{
    let subscriber = Subscriber::at(t, i);
    let in_mme = is_purged(subscriber, Node::Mme, host, flags);
    let in_sgsn = is_purged(subscriber, Node::Sgsn, host, flags);
    purge_if(t, i, Node::Mme, in_mme);
    purge_if(t, i, Node::Sgsn, in_sgsn);
    flag_if(in_mme, 1) + flag_if(in_sgsn, 2)
}

// ---- NOR

// Single-Registration of NOR-Flags.
fn notified_type(flags: Flags) -> Option<CancellationType>
    ensures { type_of result ≡ code_if (bit 0 flags.0) 1 }
{
    if flags.single_registration() {
        Some(CancellationType::SgsnUpdate)
    } else {
        None
    }
}

// "Single-Registration lists a registered SGSN with type 1 (unless it is the sender) and clears it."
fn notify(t: &mut [u8], i: usize, flags: Flags, host: &[u8], cancel: &mut [u8])
    requires { (Held t.old i) × (cancel_size ≤ length cancel.old) }
    ensures { Did (notified (code_if (bit 0 flags.0) 1) host.now (record_of t.old i) i t.old) cancel.old t.new cancel.new }
{
    let subscriber = Subscriber::at(t, i);
    let how = notified_type(flags);
    let gone = is_cleared(subscriber, Node::Sgsn, how);
    list_notified(cancel, subscriber, Node::Sgsn, how, host);
    clear_if(t, i, Node::Sgsn, gone);
}

// ---- the command

// Carries out the request `m` whose values these are, on record `i`: the table and the list after it, and as the result the purge bits that it sets:
// a number, as `Done` of specs/Procedures.antt has them, with none set by a ULR or a NOR.
pub fn carry_out(
    t: &mut [u8],
    i: usize,
    asked: Asked,
    host: &[u8],
    imei: Option<&[u8]>,
    cancel: &mut [u8],
) -> u32
    requires { (Held t.old i) × (is_name host.now ≡ true) × (IfSome (option_copied imei) (λ x. imei_digits x ≡ true)) × (cancel_size ≤ length cancel.old) }
    ensures { (m : List ℕ) → asked ≡ asked_of m → host.now ≡ sender m → option_copied imei.entry ≡ imei_in m → Carried (carried_out m i t.old) cancel.old result t.new cancel.new }
{
    match asked.command {
        ULR => {
            update_location(t, i, Flags::of(asked.flags), host, cancel);
            store_imei_if(t, i, imei);
            0
        }
        PUR => {
            no_entries(cancel);
            purge_ue(t, i, host, asked.flags)
        }
        _ => {
            notify(t, i, Flags::of(asked.flags), host, cancel);
            store_imei_if(t, i, imei);
            0
        }
    }
}
