// Tests of whole stretches. A test of ranges gathers one answer and leaves only at the end, so that it compiles to wide instructions: a fold, and not `all`.
ghost use Rattle.std.specs.Prelude.{◌≡◌, length};
ghost use Rattle.wire.specs.Stretch.{same, all_in, between, name_bytes, digits, zeros};

// The two stretches are equal, length and bytes.
pub fn same_bytes(a: &[u8], b: &[u8]) -> bool
    ensures { result ≡ same a.now b.now }
{
    a == b
}

// Every byte of `s` is at least `low` and at most `high`.
pub fn all_in(s: &[u8], low: u8, high: u8) -> bool
    ensures { result ≡ all_in low high s.now }
{
    s.iter()
        .fold(true, move |good, b| good & (low <= *b) & (*b <= high))
}

// Every byte of `s` lies between the bounds that stand at its place: names, digits, zeros and free bytes in one pass.
pub fn between_bounds(s: &[u8], low: &[u8], high: &[u8]) -> bool
    requires { (length s.now ≡ length low.now) × (length s.now ≡ length high.now) }
    ensures { result ≡ between low.now high.now s.now }
{
    s.iter()
        .zip(low)
        .zip(high)
        .fold(true, |good, ((b, l), h)| good & (*l <= *b) & (*b <= *h))
}

// The three tests of document 01 by its own names, each one range.
pub fn name_bytes(s: &[u8]) -> bool
    ensures { result ≡ name_bytes s.now }
{
    all_in(s, 0x21, 0x7E)
}

pub fn all_digits(s: &[u8]) -> bool
    ensures { result ≡ digits s.now }
{
    all_in(s, b'0', b'9')
}

pub fn all_zeros(s: &[u8]) -> bool
    ensures { result ≡ zeros s.now }
{
    all_in(s, 0, 0)
}
