// The header of a message (RFC 6733 section 3). Bytes that a short message lacks read as 0.
ghost use Rattle.std.specs.Prelude.{◌≡◌};
ghost use Rattle.reader.specs.Header.{header_of};

use paper::layout::MESSAGE_HEADER;
use wire::number::{U24, get};
use wire::put::put_bytes;

#[derive(Clone, Copy, Debug, PartialEq, Eq)]
pub struct Header {
    pub version: u8,
    pub length: u32,
    pub flags: u8,
    pub command: u32,
    pub application: u32,
    pub hop_by_hop: u32,
    pub end_to_end: u32,
}

// The header that these 20 bytes are. Out of line: put into both branches of `read_header` it takes 77 instructions where this takes 64.
#[inline(never)]
fn whole_header(m: &[u8; MESSAGE_HEADER]) -> Header
    ensures { result ≡ header_of m.now }
{
    Header {
        version: m[0],
        length: get::<U24>(m, 1).0,
        flags: m[4],
        command: get::<U24>(m, 5).0,
        application: get::<u32>(m, 8),
        hop_by_hop: get::<u32>(m, 12),
        end_to_end: get::<u32>(m, 16),
    }
}

// The header of `m`: where it is there whole, no byte is tested for being there; where it is cut short, zeros stand for what lacks.
pub fn read_header(m: &[u8]) -> Header
    ensures { result ≡ header_of m.now }
{
    match m.first_chunk() {
        Some(whole) => whole_header(whole),
        None => {
            let mut filled = [0; MESSAGE_HEADER];
            put_bytes(&mut filled, 0, m);
            whole_header(&filled)
        }
    }
}
