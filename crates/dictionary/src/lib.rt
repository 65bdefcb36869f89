// The AVPs that the registry knows, and what their types mean to the reader (document 01, "The reader").
// A lookup halves the rows, whose keys ascend: that they do is proved once over all of them, and asked of any other rows.
#![tactic(auto)]

ghost use Rattle.std.specs.Prelude.{◌≡◌, ◌<◌, true};
ghost use Rattle.dictionary.specs.Rows.{rows, keys_of, rising, key_of, kind_in, kind_of};

pub use rows::ROWS;

mod rows;

// What an AVP's type asks of its data, and whether the reader goes inside.
#[derive(Clone, Copy, Debug, PartialEq, Eq)]
pub enum Kind {
    // 4 bytes: Unsigned32, Integer32, Enumerated, Time
    Four,
    // 8 bytes: the 64-bit types
    Eight,
    // any number of bytes
    Any,
    // a group that is entered
    Group,
    // a group that is not entered: Failed-AVP, Proxy-Info
    Closed,
    // no row has the key; no `Option` around five kinds, since paper's `by_kind`, `blank`, `empty_of` and the promise `unknown_added` (docs/PROMISES.md) speak of six
    Unknown,
}

// "An AVP's key is (vendor, code)"; vendor 0 where the AVP has none. The code comes first, so that a key's number is one load of memory.
#[derive(Clone, Copy, Debug, PartialEq, Eq)]
pub struct Key {
    pub code: u32,
    pub vendor: u32,
}

impl Key {
    // Vendor and code as one number, so that one comparison orders keys.
    pub fn number(self) -> u64
        ensures value { result ≡ key_of self.vendor self.code }
        ensures code_bound { self.code < 4294967296 }
    {
        (self.vendor as u64) * 4294967296 + (self.code as u64)
    }
}

// What the dictionary says of one AVP.
#[derive(Clone, Copy, Debug, PartialEq, Eq)]
pub struct Row {
    pub key: Key,
    pub kind: Kind,
}

// All rows, by ascending keys.
pub fn all_rows() -> &'static [Row]
    ensures { result.now ≡ rows }
{
    &ROWS
}

// The kind of the row with this key among rows of the caller's own whose keys ascend; Unknown where none has it.
pub fn lookup_in(list: &[Row], key: Key) -> Kind
    requires { rising 0 (keys_of list.now) ≡ true }
    ensures { result ≡ kind_in list.now key.vendor key.code }
{
    match list.binary_search_by_key(&key.number(), |row| row.key.number()) {
        Ok(at) => list[at].kind,
        Err(_) => Kind::Unknown,
    }
}

// The kind of the AVP with this key; Unknown where no row has it. Each AVP of a message comes here: the search is written out over the static, whose length is known.
pub fn lookup(key: Key) -> Kind
    ensures { result ≡ kind_of key.vendor key.code }
{
    match ROWS.binary_search_by_key(&key.number(), |row| row.key.number()) {
        Ok(at) => ROWS[at].kind,
        Err(_) => Kind::Unknown,
    }
}
