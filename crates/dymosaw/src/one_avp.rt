// One AVP at any place of any bytes, read and written: what a caller needs to read AVPs and write them again.
// "An AVP written again keeps key (V unless vendor 0), M and data; AVPs alike in these are the same."
ghost use Rattle.std.specs.Prelude.{◌≡◌};
ghost use Rattle.wire.specs.Number.{Bytes};
ghost use Rattle.avp.specs.Step.{step_at};
ghost use Rattle.avp.specs.Written.{came_to, avp_written};

use avp::cursor::{Cursor, Step};
use avp::write::NoRoom;
use dictionary::Key;

// What stands at a place: an AVP that lies inside the stretch, with the place behind its padding; nothing, where the stretch ends; or no such AVP.
// That the stretch is bytes is in its type; a caller learns it here.
pub fn read_avp(s: &[u8], at: usize) -> Step
    ensures value { result ≡ step_at s.now at }
    ensures bytes { Bytes s.now }
{
    let c = Cursor { at };
    c.next(s)
}

// An AVP by its key, M and data: written, with the place behind its padding; or, where it has no room or more than 16,777,199 bytes of data, nothing is written.
pub fn write_avp(
    out: &mut [u8],
    at: usize,
    vendor: u32,
    code: u32,
    mandatory: bool,
    body: &[u8],
) -> Result<usize, NoRoom>
    ensures { came_to result out.new ≡ avp_written out.old at vendor code mandatory body.now }
{
    avp::write::write_avp(out, at, Key { vendor, code }, mandatory, body)
}
