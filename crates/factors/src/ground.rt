// Why a call is refused.
ghost use Rattle.std.specs.Prelude.{◌≡◌};
ghost use Rattle.factors.specs.Grounds.{ground_number, refusal_on};

// The grounds, by their numbers.
#[derive(Clone, Copy, PartialEq, Eq, Debug)]
pub enum Ground {
    // no line feed among the next 120 bytes
    NoLineFeed = 1,
    // fewer than four fields, an unknown kind letter, or the wrong count of fields after it
    WrongShape,
    // not a plain number, or not a class letter
    NotPlain,
    // the entry number is out of range
    NumberOutOfRange,
    UnknownLand,
    UnknownSite,
    // a field of the activity is out of range
    FieldOutOfRange,
    UnknownCrop,
    // manure shares above the whole
    SharesAboveWhole,
    // more nitrogen than one entry may bring
    TooManyGrams,
    // the number to be entered stands already
    AlreadyStands,
    BookFull,
    // a land's nitrous oxide would pass its limit
    LandFull,
    // the number to be withdrawn or moved does not stand
    NotStanding,
    BufferTooShort,
    // too many trials, or a trial value out of range
    UnfitTrials,
}

// The ground, and the place from 1 of the field that it is about, or 0 for the whole of what was given; a refused line prints this number.
#[derive(Clone, Copy, PartialEq, Eq, Debug)]
pub struct Refusal {
    pub ground: Ground,
    pub field: u8,
}

impl Ground {
    // The refusal on this ground that names this field.
    pub fn at(self, field: u8) -> Refusal
        ensures { result ≡ refusal_on self field }
    {
        Refusal {
            ground: self,
            field,
        }
    }
}

impl From<Ground> for u8 {
    ghost from_gives = { λ g n. n ≡ ground_number g };

    fn from(ground: Ground) -> u8 {
        ground as u8
    }
}
