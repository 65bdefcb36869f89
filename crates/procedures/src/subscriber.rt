// The record of a subscriber, as a valid table has it: what every test of a request reads. Its names and its PLMNs lie inside it.
ghost use Rattle.std.specs.Prelude.{◌≡◌, true, length};
ghost use Rattle.paper.specs.Layout.{record_size};
ghost use Rattle.paper.specs.Table.{record_right};

use crate::nodes::{Node, same_name};
use table::record::Record;

#[derive(Clone, Copy)]
pub struct Subscriber<'a> {
    pub record: Record<'a>,
    pub ghost long: { length record.bytes.now ≡ record_size },
    pub ghost right: { record_right record.bytes.now ≡ true },
}

impl<'a> Subscriber<'a> {
    ghost use Rattle.paper.specs.Table.{record_of, name_of};
    ghost use Rattle.paper.specs.Procedures.{registered, is_sender};
    ghost use Rattle.procedures.specs.Values.{slot_of, Held, bytes_of};

    // Record `i` of a valid table.
    pub fn at(t: &'a [u8], i: usize) -> Subscriber<'a>
        requires { Held t.now i }
        ensures { bytes_of result ≡ record_of t.now i }
    {
        Subscriber {
            record: Record::at(t, i),
        }
    }

    // The name under which the node is registered, no bytes where it is not.
    pub fn name(self, node: Node) -> &'a [u8]
        ensures { result.now ≡ name_of (slot_of node) (bytes_of self.entry) }
    {
        self.record.counted(node.name_at())
    }

    pub fn is_registered(self, node: Node) -> bool
        ensures { result ≡ registered (slot_of node) (bytes_of self.entry) }
    {
        0 < self.record.byte(node.name_at())
    }

    // The node is registered under the sender's name.
    pub fn is_sender(self, node: Node, host: &[u8]) -> bool
        ensures { result ≡ is_sender (slot_of node) host.now (bytes_of self.entry) }
    {
        self.is_registered(node) & same_name(self.name(node), host)
    }
}
