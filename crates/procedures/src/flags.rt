// The bits of flag words that 01 uses: clauses 7.3.7, 7.3.49 and 7.3.149.
ghost use Rattle.std.specs.Prelude.{◌≡◌, ◌<◌, unwrap_or};
ghost use Rattle.paper.specs.Avp.{bit};

// Bit `k` of a flag word, counted from 0 at the low end.
pub fn bit_of(flags: u32, k: u32) -> bool
    requires { k < 32 }
    ensures { result ≡ bit k flags }
{
    (flags >> k) % 2 == 1
}

// ULR-Flags or NOR-Flags. The bits of PUR-Flags are the purge bits of the nodes.
#[derive(Clone, Copy, Debug, PartialEq, Eq)]
pub struct Flags(pub u32);

impl Flags {
    // A word that is not there has no bit set.
    pub fn of(word: Option<u32>) -> Flags
        ensures { result.0 ≡ unwrap_or word 0 }
    {
        Flags(word.unwrap_or(0))
    }

    // Of ULR-Flags and of NOR-Flags.
    pub fn single_registration(self) -> bool
        ensures { result ≡ bit 0 self.0 }
    {
        bit_of(self.0, 0)
    }

    // Of ULR-Flags; "set means S6a".
    pub fn on_s6a(self) -> bool
        ensures { result ≡ bit 1 self.0 }
    {
        bit_of(self.0, 1)
    }

    // Of ULR-Flags.
    pub fn initial_attach(self) -> bool
        ensures { result ≡ bit 5 self.0 }
    {
        bit_of(self.0, 5)
    }
}
