// What can be asked of bytes alone: whether they are a valid table, what a message holds, and its Origin-Host.
ghost use Rattle.std.specs.Prelude.{◌≡◌};
ghost use Rattle.paper.specs.Find.{origin_host};
ghost use Rattle.paper.specs.Table.{valid};
ghost use Rattle.reader.specs.Message.{message_of};

use reader::message::Message;

// "A table is valid exactly if all this holds"
pub fn valid_table(t: &[u8]) -> bool
    ensures { result ≡ valid t.now }
{
    table::valid::valid_table(t)
}

// The header of a message, a request or an answer, and what the visit of its AVPs tells.
pub fn read_message(m: &[u8]) -> Message
    ensures { result ≡ message_of m.now }
{
    reader::message::read_message(m)
}

// The data of Origin-Host in a message, as that stretch of the message itself.
pub fn origin_host(m: &[u8]) -> &[u8]
    ensures { result.now ≡ origin_host m.now }
{
    avp::find::origin_host(m)
}
