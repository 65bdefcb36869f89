// Why a correction is refused, and 01's number of each reason.
ghost use Rattle.std.specs.Prelude.{◌≡◌};
ghost use Rattle.correction.specs.Refusal.{number_of};

// The first of 01's tests that fails; specs/Refusal.antt gives each its number.
#[derive(Clone, Copy, Debug, PartialEq, Eq)]
pub enum Refusal {
    TableNotValid,
    LengthWrong,
    VersionWrong,
    KindUnknown,
    LengthWrongForKind,
    ValueNotValid,
    NoSuchImsi,
    ChangeDiffers,
}

impl From<Refusal> for u32 {
    ghost from_gives = { λ refusal number. number ≡ number_of refusal };

    fn from(refusal: Refusal) -> u32 {
        match refusal {
            Refusal::TableNotValid => 4,
            Refusal::LengthWrong => 11,
            Refusal::VersionWrong => 12,
            Refusal::KindUnknown => 13,
            Refusal::LengthWrongForKind => 14,
            Refusal::ValueNotValid => 15,
            Refusal::NoSuchImsi => 16,
            Refusal::ChangeDiffers => 17,
        }
    }
}
