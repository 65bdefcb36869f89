// A whole message: header and visit. What is read here needs no check before the call.
ghost use Rattle.std.specs.Prelude.{◌≡◌};
ghost use Rattle.reader.specs.Message.{message_of};

use crate::header::{Header, read_header};
use crate::visit::visit;
use paper::Visit;

#[derive(Clone, Copy, Debug, PartialEq, Eq)]
pub struct Message {
    pub header: Header,
    pub visit: Visit,
}

// Reads any bytes as a message, a request or an answer.
pub fn read_message(m: &[u8]) -> Message
    ensures { result ≡ message_of m.now }
{
    Message {
        header: read_header(m),
        visit: visit(m),
    }
}
