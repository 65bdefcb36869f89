// The list of nodes to cancel, in the cancel buffer: "two entries of 68 bytes, filled from the first". Each writer answers
// the place behind what it wrote, by wire's `Wrote`: an entry is no AVP, so no `Writer` of avp serves here.
ghost use Rattle.std.specs.Prelude.{◌≡◌, [], ◌++◌, ◌+◌, ◌≤◌, length};
ghost use Rattle.wire.specs.Put.{put, Wrote};
ghost use Rattle.paper.specs.Layout.{most_name, entry_size, most_entries, cancel_size};
ghost use Rattle.paper.specs.Procedures.{listed, cancel_list, entry_bytes, cancel_bytes};
ghost use Rattle.paper.proofs.EntryLaws.{list_bytes};
ghost use Rattle.procedures.specs.Values.{slot_of, other_of, type_number, type_of, update_of, bytes_of};

use crate::nodes::{Node, same_name};
use crate::subscriber::Subscriber;
use paper::layout::{CANCEL_SIZE, MOST_NAME};

// The Cancellation-Types that 01 uses, clause 7.3.24.
#[derive(Clone, Copy, Debug, PartialEq, Eq)]
pub enum CancellationType {
    MmeUpdate = 0,
    SgsnUpdate = 1,
    InitialAttach = 4,
}

impl CancellationType {
    pub fn number(self) -> u8
        ensures { result ≡ type_number self }
    {
        self as u8
    }

    // The type for a node that an update of its own kind displaces: "Cancellation-Type 0"; "On S6d, for the SGSN: type 1".
    pub fn of_update(node: Node) -> CancellationType
        ensures { result ≡ update_of node }
    {
        match node {
            Node::Mme => CancellationType::MmeUpdate,
            Node::Sgsn => CancellationType::SgsnUpdate,
        }
    }
}

// "1 MME or 2 SGSN, type, name length, zero, name zero-filled"
fn put_entry(cancel: &mut [u8], at: usize, node: Node, kind: CancellationType, name: &[u8]) -> usize
    requires { (at + entry_size ≤ length cancel.old) × (length name.now ≤ most_name) }
    ensures { Wrote cancel.old at (entry_bytes (record { node = (slot_of node).number; type = type_number kind; name = name.now })) cancel.new result }
{
    let n = name.len();
    let head = [node.number(), kind.number(), n as u8, 0];
    let first = wire::put::put_bytes(cancel, at, &head);
    let behind = wire::put::put_bytes(cancel, first, name);
    wire::put::put_zeros(cancel, behind, MOST_NAME - n)
}

// A registered node is listed. "A name equal to the sender's is never listed."
pub fn list_node(
    cancel: &mut [u8],
    at: usize,
    subscriber: Subscriber,
    node: Node,
    kind: CancellationType,
    host: &[u8],
) -> usize
    requires { at + entry_size ≤ length cancel.old }
    ensures { Wrote cancel.old at (list_bytes (listed (slot_of node) (type_number kind) host.now (bytes_of subscriber.entry))) cancel.new result }
{
    let name = subscriber.name(node);
    if name.is_empty() {
        return at;
    }
    if same_name(name, host) {
        return at;
    }
    put_entry(cancel, at, node, kind, name)
}

// A node that is cancelled is listed.
pub fn list_cancelled(
    cancel: &mut [u8],
    at: usize,
    subscriber: Subscriber,
    node: Node,
    how: Option<CancellationType>,
    host: &[u8],
) -> usize
    requires { at + entry_size ≤ length cancel.old }
    ensures { Wrote cancel.old at (list_bytes (cancel_list (slot_of node) (type_of how) host.now (bytes_of subscriber.entry))) cancel.new result }
{
    match how {
        None => at,
        Some(kind) => list_node(cancel, at, subscriber, node, kind, host),
    }
}

// The list of a ULR: the displaced node of the request's own interface first, then the other one, and zeros.
pub fn list_updated(
    cancel: &mut [u8],
    subscriber: Subscriber,
    own: Node,
    how: Option<CancellationType>,
    host: &[u8],
)
    requires { cancel_size ≤ length cancel.old }
    ensures { cancel.new ≡ put 0 (cancel_bytes most_entries (listed (slot_of own) (type_number (update_of own)) host.now (bytes_of subscriber.entry) ++ cancel_list (slot_of (other_of own)) (type_of how) host.now (bytes_of subscriber.entry))) cancel.old }
{
    let displaced = CancellationType::of_update(own);
    let behind = list_node(cancel, 0, subscriber, own, displaced, host);
    let end = list_cancelled(cancel, behind, subscriber, own.other(), how, host);
    wire::put::put_zeros(cancel, end, CANCEL_SIZE - end);
}

// The list of a NOR: the node if it is cancelled, and zeros.
pub fn list_notified(
    cancel: &mut [u8],
    subscriber: Subscriber,
    node: Node,
    how: Option<CancellationType>,
    host: &[u8],
)
    requires { cancel_size ≤ length cancel.old }
    ensures { cancel.new ≡ put 0 (cancel_bytes most_entries (cancel_list (slot_of node) (type_of how) host.now (bytes_of subscriber.entry))) cancel.old }
{
    let end = list_cancelled(cancel, 0, subscriber, node, how, host);
    wire::put::put_zeros(cancel, end, CANCEL_SIZE - end);
}

// "Unused entries are zero.": the list of a refusal and of a PUR.
pub fn no_entries(cancel: &mut [u8])
    requires { cancel_size ≤ length cancel.old }
    ensures { cancel.new ≡ put 0 (cancel_bytes most_entries []) cancel.old }
{
    wire::put::put_zeros(cancel, 0, CANCEL_SIZE);
}
