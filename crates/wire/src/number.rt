// Big-endian numbers: read and written by one loop each over the width; `get` and `put` take the width from the number's type.
// `get_cut` reads past the end as zeros, which is what a cut header asks for.
ghost use Rattle.std.specs.Prelude.{ℕ, ◌≡◌, ◌+◌, ◌^◌, ◌≤◌, ◌<◌, length, get_or};
ghost use Rattle.std.proofs.Common.{rules};
ghost use Rattle.wire.specs.Number.{be, num_at};
ghost use Rattle.wire.specs.Put.{Wrote};

// The number that `width` bytes of `s` from `at` are.
pub fn get_be(s: &[u8], at: usize, width: usize) -> u64
    requires { (at + width ≤ length s.now) × (width ≤ 8) }
    ensures value { result ≡ num_at width s.now at }
    ensures upper_bound { result < 256 ^ width }
{
    let mut v: u64 = 0;
    for b in &s[at..at + width] {
        v = v * 256 + *b as u64;
    }
    v
}

// The byte at `at`, or 0 past the end.
pub fn byte_or_zero(s: &[u8], at: usize) -> u8
    ensures { result ≡ get_or s.now at 0 }
{
    s.get(at).copied().unwrap_or(0)
}

// The number that `width` bytes of `s` from `at` are, those past the end read as 0.
pub fn get_cut(s: &[u8], at: usize, width: usize) -> u64
    requires { (at ≤ length s.now) × (width ≤ 8) }
    ensures value { result ≡ num_at width s.now at }
    ensures upper_bound { result < 256 ^ width }
{
    let mut v: u64 = 0;
    for k in 0..width {
        v = v * 256 + byte_or_zero(s, at + k) as u64;
    }
    v
}

// The last `width` bytes of `v`, the most significant first. The loop goes from the last byte to the first.
pub fn put_be(out: &mut [u8], at: usize, width: usize, v: u64) -> usize
    requires { at + width ≤ length out.old }
    ensures { Wrote out.old at (be width v) out.new result }
{
    let mut w = v;
    for k in (0..width).rev() {
        out[at + k] = (w % 256) as u8;
        w /= 256;
    }
    at + width
}

// A number whose type says in how many bytes it stands.
pub trait Number {
    ghost WIDTH: { ℕ };

    // The number itself.
    ghost value: { Self → ℕ };

    const WIDTH: usize;

    fn narrowed(v: u64) -> Self
        requires { v < 256 ^ WIDTH }
        ensures { value result ≡ v };

    fn widened(self) -> u64
        ensures { result ≡ value self };

    // One loop reads every width, into a `u64`.
    ghost narrow: { WIDTH ≤ 8 };
}

impl Number for u8 {
    ghost WIDTH = { 1 };

    ghost value = { λ x. x };

    ghost narrow = { Prim.search rules };

    const WIDTH: usize = 1;

    fn narrowed(v: u64) -> u8 {
        v as u8
    }

    fn widened(self) -> u64 {
        self as u64
    }
}

impl Number for u16 {
    ghost WIDTH = { 2 };

    ghost value = { λ x. x };

    ghost narrow = { Prim.search rules };

    const WIDTH: usize = 2;

    fn narrowed(v: u64) -> u16 {
        v as u16
    }

    fn widened(self) -> u64 {
        self as u64
    }
}

// A number of three bytes, as lengths and command codes are; of a larger one `put` writes the last three.
#[derive(Clone, Copy, Debug, PartialEq, Eq)]
pub struct U24(pub u32);

impl Number for U24 {
    ghost WIDTH = { 3 };

    ghost value = { λ x. x.0 };

    ghost narrow = { Prim.search rules };

    const WIDTH: usize = 3;

    fn narrowed(v: u64) -> U24 {
        U24(v as u32)
    }

    fn widened(self) -> u64 {
        self.0 as u64
    }
}

impl Number for u32 {
    ghost WIDTH = { 4 };

    ghost value = { λ x. x };

    ghost narrow = { Prim.search rules };

    const WIDTH: usize = 4;

    fn narrowed(v: u64) -> u32 {
        v as u32
    }

    fn widened(self) -> u64 {
        self as u64
    }
}

impl Number for u64 {
    ghost WIDTH = { 8 };

    ghost value = { λ x. x };

    ghost narrow = { Prim.search rules };

    const WIDTH: usize = 8;

    fn narrowed(v: u64) -> u64 {
        v
    }

    fn widened(self) -> u64 {
        self
    }
}

// The number that stands at `at`.
pub fn get<N: Number>(s: &[u8], at: usize) -> N
    requires { at + N.WIDTH ≤ length s.now }
    ensures value { N.value result ≡ num_at N.WIDTH s.now at }
    ensures upper_bound { N.value result < 256 ^ N.WIDTH }
{
    N::narrowed(get_be(s, at, N::WIDTH))
}

// The bytes of `v` at `at`; the place after them is returned.
pub fn put<N: Number>(out: &mut [u8], at: usize, v: N) -> usize
    requires { at + N.WIDTH ≤ length out.old }
    ensures { Wrote out.old at (be N.WIDTH (N.value v)) out.new result }
{
    put_be(out, at, N::WIDTH, v.widened())
}
