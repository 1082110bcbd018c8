// Crop residues as they are kept.
ghost use Rattle.std.specs.Prelude.{◌≡◌, Some, None};
ghost use Rattle.book.specs.Crops.{row_of};
ghost use Rattle.book.specs.Ranges.{range_fault};
ghost use Rattle.book.specs.Residues.{left_by};
ghost use Rattle.book.specs.declared.entry.Activity.TheVariants.{Residues};

use super::crops::CropRow;
use super::fraction::Fraction;

// What a crop leaves behind, with the crop's row in place of its code, each number in its range. Small numbers are bytes, so that the row makes no kept entry larger.
#[derive(Clone, Copy)]
pub struct LawfulResidues {
    pub row: CropRow,
    // kg, fresh
    pub harvest: u32,
    // ares
    pub area: u32,
    // percent of what is above ground
    pub burnt: u8,
    // percent of what is above ground
    pub removed: u8,
    // between renewals
    pub years: u8,
    ghost cropped: { row_of row.code ≡ Some row },
    ghost ranged: { range_fault (Residues (left_by row harvest area burnt removed years)) ≡ None },
}

impl LawfulResidues {
    ghost use Rattle.std.specs.Prelude.{◌-◌, ◌*◌, ◌<◌, ◌≤◌, ◌^◌};
    ghost use Rattle.book.specs.Activity.{given_of};
    ghost use Rattle.book.specs.Grams.{above_ground, tops, roots, exact, ratio};

    // Dry residue above ground, in tenths of a gram.
    fn above_ground(self) -> u128
        ensures value { result ≡ above_ground self.row (given_of self) }
        ensures bound { result < 2 ^ 51 }
    {
        let grown = u128::from(self.harvest)
            * u128::from(self.row.dry)
            * u128::from(self.row.slope);
        grown + 1_000 * u128::from(self.row.intercept) * u128::from(self.area)
    }

    // The part of the tops that is not burnt, in ten-thousandths.
    fn not_burnt(self) -> u128
        ensures value { result ≡ 10000 - self.burnt * self.row.combusted }
        ensures bound { result ≤ 10000 }
    {
        10_000 - u128::from(self.burnt) * u128::from(self.row.combusted)
    }

    // The part of the tops that is not removed, in hundredths.
    fn not_removed(self) -> u128
        ensures value { result ≡ 100 - self.removed }
        ensures bound { result ≤ 100 }
    {
        100 - u128::from(self.removed)
    }

    // Nitrogen of all tops, in ten-thousandths of a gram.
    fn grown_tops(self) -> u128
        ensures value { result ≡ above_ground self.row (given_of self) * self.row.tops_nitrogen }
        ensures bound { result < 2 ^ 59 }
    {
        self.above_ground() * u128::from(self.row.tops_nitrogen)
    }

    // Nitrogen of the tops that are left, in ten-thousand-millionths of a gram.
    fn tops(self) -> u128
        ensures value { result ≡ tops self.row (given_of self) }
        ensures bound { result < 2 ^ 88 }
    {
        self.grown_tops() * self.not_burnt() * self.not_removed()
    }

    // Nitrogen of the roots, in millionths of a gram.
    fn roots(self) -> u128
        ensures value { result ≡ roots self.row (given_of self) }
        ensures bound { result < 2 ^ 90 }
    {
        let harvested = 100 * u128::from(self.harvest) * u128::from(self.row.dry);
        (self.above_ground() + harvested)
            * u128::from(self.row.root_ratio)
            * u128::from(self.row.roots_nitrogen)
    }

    // The exact grams of nitrogen.
    pub(crate) fn exact(self) -> Fraction
        ensures { ratio result ≡ exact (Residues (given_of self)) }
    {
        Fraction {
            numerator: self.tops() + 10_000 * self.roots(),
            denominator: 10_000_000_000 * u128::from(self.years),
        }
    }
}
