// Bytes put at a place of a slice: a copy, and zeros. Both answer the place after what they wrote.
ghost use Rattle.std.specs.Prelude.{◌+◌, ◌≤◌, length, replicate};
ghost use Rattle.wire.specs.Put.{Wrote};

// The bytes of `src` at `at`. Every copy goes through this routine. By a `for`: `copy_from_slice` asks C for memmove, and the library's header promises that
// it needs memcpy and memset only.
pub fn put_bytes(out: &mut [u8], at: usize, src: &[u8]) -> usize
    requires { at + length src.now ≤ length out.old }
    ensures { Wrote out.old at src.now out.new result }
{
    for j in 0..src.len() {
        out[at + j] = src[j];
    }
    at + src.len()
}

// `n` zeros at `at`.
pub fn put_zeros(out: &mut [u8], at: usize, n: usize) -> usize
    requires { at + n ≤ length out.old }
    ensures { Wrote out.old at (replicate n 0) out.new result }
{
    let end = at + n;
    out[at..end].fill(0);
    end
}
