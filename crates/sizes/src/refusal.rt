// Why a call is refused. Inside, a test ends in a refusal; a reply carries its number, and 0 where there is none.
ghost use Rattle.std.specs.Prelude.{◌≡◌};
ghost use Rattle.sizes.specs.Numbers.{number_of, refusal_in};

#[derive(Clone, Copy, Debug, PartialEq, Eq)]
pub enum Refusal {
    // A heading of fewer than 9 bytes.
    ShortHeading,
    // The mark is not `HNB`.
    NoMark,
    // The version is not 1.
    OtherVersion,
    // n, or the number of rows, is outside 1 to 13.
    Outside,
    // 3t is not less than n.
    TooMany,
    // The faulty set has a bit at place n or above.
    Stray,
    // Fewer or more bytes than are due.
    WrongBytes,
    // A sound box's row is 0.
    SoundZero,
    // A slice to be written is too short.
    ShortSlice,
    // A slice has not the length that is due.
    WrongLength,
    // All iterations are done.
    AllDone,
    // A confidence is above 2.
    Above2,
    // The state is none that a run comes to.
    BadState,
    // No box has this number, or a faulty one.
    NoBox,
}

impl From<Refusal> for u8 {
    ghost from_gives = { λ refusal number. number ≡ number_of refusal };

    fn from(refusal: Refusal) -> u8 {
        match refusal {
            Refusal::ShortHeading => 1,
            Refusal::NoMark => 2,
            Refusal::OtherVersion => 3,
            Refusal::Outside => 4,
            Refusal::TooMany => 5,
            Refusal::Stray => 6,
            Refusal::WrongBytes => 8,
            Refusal::SoundZero => 9,
            Refusal::ShortSlice => 10,
            Refusal::WrongLength => 11,
            Refusal::AllDone => 12,
            Refusal::Above2 => 13,
            Refusal::BadState => 14,
            Refusal::NoBox => 15,
        }
    }
}

// The number of a test: 0 where it is passed.
pub fn refusal_number(tested: Result<(), Refusal>) -> u8
    ensures { result ≡ refusal_in tested }
{
    match tested {
        Ok(()) => 0,
        Err(refusal) => u8::from(refusal),
    }
}
