// What can be asked of a message, for the tests in C: the answer of the visit as one number, and Origin-Host copied out. It is no part of the product.
#![tactic(auto)]

ghost use Rattle.std.specs.Prelude.{◌≡◌};
ghost use Rattle.paper.specs.Find.{origin_host};
ghost use Rattle.reader.specs.Message.{message_of};
ghost use Rattle.reader_c.specs.Packed.{packed, pack};
ghost use Rattle.reader_c.specs.Copied.{Copied};

use dymosaw::read::{origin_host, read_message};
use paper::Visit;
use wire::put::put_bytes;

fn packed_of(code: u32, at: usize, end: usize) -> u64
    ensures { result ≡ pack code at end }
{
    ((code % 65536) as u64) * 281474976710656
        + ((end % 16777216) as u64) * 16777216
        + (at % 16777216) as u64
}

#[tactic(auto, unfolding(crate::specs::Packed::packed))]
#[unsafe(no_mangle)]
pub extern "C" fn dymosaw_read_visit(m: &[u8]) -> u64
    ensures { result ≡ packed (message_of m.now).visit }
{
    let told = read_message(m).visit;
    match told {
        Visit::Clean => 0,
        Visit::Fault { code, at, end } => packed_of(code, at, end),
        Visit::Unsupported { at, end } => packed_of(5001, at, end),
    }
}

// How many bytes were copied: none where the buffer is too short.
#[unsafe(no_mangle)]
pub extern "C" fn dymosaw_read_origin_host(m: &[u8], out: &mut [u8]) -> u64
    ensures { Copied (origin_host m.now) out.old out.new result }
{
    let host = origin_host(m);
    if out.len() < host.len() {
        return 0;
    }
    put_bytes(out, 0, host) as u64
}
