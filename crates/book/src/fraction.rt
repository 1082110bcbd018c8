// Grams of nitrogen that need not be whole.
ghost use Rattle.std.specs.Prelude.{◌≡◌, ◌^◌, ◌<◌};
ghost use Rattle.book.specs.Nearest.{nearest};

// Small enough to be doubled and added.
#[derive(Clone, Copy)]
pub(crate) struct Fraction {
    pub(crate) numerator: u128,
    pub(crate) denominator: u128,
    ghost positive: { 0 < denominator },
    ghost small: { (numerator < 2 ^ 126) × (denominator < 2 ^ 126) },
}

impl Fraction {
    pub(crate) const NOTHING: Fraction = Fraction {
        numerator: 0,
        denominator: 1,
    };

    // The nearest whole number, halves upward.
    pub(crate) fn nearest(self) -> u128
        ensures { result ≡ nearest self.numerator self.denominator }
    {
        (2 * self.numerator + self.denominator) / (2 * self.denominator)
    }
}
