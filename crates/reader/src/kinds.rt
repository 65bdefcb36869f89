// Where the visit looks up the kind of an AVP: the dictionary, or rows of a caller's own.
ghost use Rattle.std.specs.Prelude.{ℕ, ◌≡◌, true};
ghost use Rattle.dictionary.specs.declared.Kind.{Kind};
ghost use Rattle.dictionary.specs.Rows.{rising, keys_of, kind_in, kind_of};

use dictionary::{Key, Kind, ROWS, Row, lookup, lookup_in};

// Where a search by halves looks first, second and third for keys that are below each time.
const MIDDLE: usize = ROWS.len() / 2;

const QUARTER: usize = MIDDLE / 2;

const EIGHTH: usize = QUARTER / 2;

pub(crate) trait Kinds: Copy {
    ghost kind: { Self → ℕ → ℕ → Kind };

    fn of(self, key: Key) -> Kind
        ensures { result ≡ kind self key.vendor key.code };
}

// The dictionary.
#[derive(Clone, Copy)]
pub(crate) struct Known;

impl Kinds for Known {
    ghost kind = { λ known. kind_of };

    // The lookup halves to the end, also where it has met the key: three rows are asked before it. One by one, since a loop over them makes every other key
    // dearer; and here, since with them in `lookup` the compiler takes it out of the visit's loop.
    fn of(self, key: Key) -> Kind {
        if ROWS[MIDDLE].key == key {
            return ROWS[MIDDLE].kind;
        }
        if ROWS[QUARTER].key == key {
            return ROWS[QUARTER].kind;
        }
        if ROWS[EIGHTH].key == key {
            return ROWS[EIGHTH].kind;
        }
        lookup(key)
    }
}

// Rows that a caller lends, whose keys ascend.
#[derive(Clone, Copy)]
pub(crate) struct Lent<'a> {
    pub(crate) rows: &'a [Row],
    pub(crate) ghost rise: { rising 0 (keys_of rows.now) ≡ true },
}

impl<'a> Kinds for Lent<'a> {
    ghost kind = { λ lent. kind_in lent.rows.now };

    fn of(self, key: Key) -> Kind {
        lookup_in(self.rows, key)
    }
}
