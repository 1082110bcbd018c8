// The nitrogen that an activity brings.
ghost use Rattle.std.specs.Prelude.{◌≡◌};
ghost use Rattle.book.specs.Activity.{as_given};
ghost use Rattle.book.specs.Grams.{exact, ratio, grams_of};

use super::activity::LawfulActivity;
use super::fraction::Fraction;

impl LawfulActivity {
    // The exact grams of nitrogen.
    fn exact(self) -> Fraction
        ensures { ratio result ≡ exact (as_given self) }
    {
        match self {
            LawfulActivity::Synthetic { mass, content } => Fraction {
                numerator: u128::from(mass) * u128::from(content),
                denominator: 1,
            },
            LawfulActivity::Manure(manure) => Fraction {
                numerator: manure.spread(),
                denominator: 1,
            },
            LawfulActivity::Sludge { mass, content } => Fraction {
                numerator: u128::from(mass) * u128::from(content),
                denominator: 1_000,
            },
            LawfulActivity::Grazing(herd) => Fraction {
                numerator: u128::from(herd.heads)
                    * u128::from(herd.grams_per_head)
                    * u128::from(herd.pasture),
                denominator: 1_000,
            },
            LawfulActivity::Residues(residues) => residues.exact(),
            LawfulActivity::Mineralised { carbon } => Fraction {
                numerator: 1_000 * u128::from(carbon),
                denominator: 15,
            },
            LawfulActivity::Drained { .. }
            | LawfulActivity::Lime { .. }
            | LawfulActivity::Urea { .. } => Fraction::NOTHING,
        }
    }

    // The nearest whole grams of nitrogen.
    pub(crate) fn grams(self) -> u128
        ensures { result ≡ grams_of (as_given self) }
    {
        self.exact().nearest()
    }
}
