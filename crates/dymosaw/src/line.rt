// A line of the desk: frame number, letter, code, answer length, entries listed, and a line feed. Each part answers the place behind
// it, by wire's `Wrote`: a line is no AVP, so no `Writer` of avp serves here.
ghost use Rattle.std.specs.Prelude.{◌≡◌, ◌+◌, ◌<◌, ◌≤◌, [], ◌∷◌, length};
ghost use Rattle.wire.specs.Put.{Wrote};
ghost use Rattle.paper.specs.Desk.{decimal, spaced, code_bytes, line_bytes};
ghost use Rattle.paper.specs.Desk.{plain as plain_line};
ghost use Rattle.dymosaw.specs.Desk.{line_room};

use paper::Line;
use wire::put::put_bytes;

// A number in decimal: the digits before the last, then the last. By a recursion: `write!` promises its bytes of a String alone, which needs the heap.
pub fn put_decimal(out: &mut [u8], at: usize, n: u64) -> usize
    requires { at + length (decimal n) ≤ length out.old }
    ensures { Wrote out.old at (decimal n) out.new result }
{
    if n < 10 {
        return put_bytes(out, at, &[b'0' + n as u8]);
    }
    let last = put_decimal(out, at, n / 10);
    put_bytes(out, last, &[b'0' + (n % 10) as u8])
}

pub fn put_spaced(out: &mut [u8], at: usize, n: u64) -> usize
    requires { at + length (spaced n) ≤ length out.old }
    ensures { Wrote out.old at (spaced n) out.new result }
{
    let next = put_bytes(out, at, b" ");
    put_decimal(out, next, n)
}

// The code behind a space, with E before an Experimental one: a bool, as `paper`'s `code_bytes` has it, for a code stands there either way.
pub fn put_code(out: &mut [u8], at: usize, experimental: bool, code: u32) -> usize
    requires { at + length (code_bytes experimental code) ≤ length out.old }
    ensures { Wrote out.old at (code_bytes experimental code) out.new result }
{
    if !experimental {
        return put_spaced(out, at, code as u64);
    }
    let next = put_bytes(out, at, b" E");
    put_decimal(out, next, code as u64)
}

// The line of a frame with this number: its parts one after another. Every line fits.
pub fn put_line(out: &mut [u8], number: u64, line: Line) -> usize
    requires { line_room ≤ length out.old }
    ensures wrote { Wrote out.old 0 (line_bytes number line) out.new result }
    ensures upper_bound { result ≤ line_room }
{
    let space = put_decimal(out, 0, number);
    let code_at = put_bytes(out, space, &[b' ', line.letter]);
    let size_at = put_code(out, code_at, line.experimental, line.code);
    let listed_at = put_spaced(out, size_at, line.size as u64);
    let end = put_spaced(out, listed_at, line.listed as u64);
    put_bytes(out, end, b"\n")
}

// A line of a frame that is not answered. The letter is a byte, as `paper`'s `line_bytes` has it.
pub fn plain(letter: u8, code: u32) -> Line
    ensures { result ≡ plain_line letter code }
{
    Line {
        letter,
        experimental: false,
        code,
        size: 0,
        listed: 0,
    }
}
