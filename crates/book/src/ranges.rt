// The ranges of an entry's numbers.
ghost use Rattle.std.specs.Prelude.{◌≡◌, ◌+◌, ◌≤◌, length, not, position};
ghost use Rattle.book.specs.Ranges.{within, outside, range_fault, checked};

use super::entry::{Activity, CropResidues};
use factors::{Ground, Refusal};

// From the least to the greatest. The standard inclusive range is an iterator too, and what it contains depends on whether it is used up, which a list of ranges would have to rule out of each.
#[derive(Clone, Copy)]
pub(crate) struct Range {
    least: u32,
    greatest: u32,
}

pub(crate) const NUMBER: Range = Range {
    least: 1,
    greatest: 999_999_999,
};

const KILOGRAMS: Range = Range {
    least: 1,
    greatest: 10_000_000,
};

const ARES: Range = Range {
    least: 1,
    greatest: 100_000,
};

// contents of fertiliser, in thousandths
const THOUSANDTHS: Range = Range {
    least: 1,
    greatest: 1_000,
};

// contents of sludge, in mg per kg
const MILLIGRAMS: Range = Range {
    least: 1,
    greatest: 100_000,
};

const AVAILABLE: Range = Range {
    least: 1,
    greatest: 1_000_000,
};

// a share, in thousandths
const SHARE: Range = Range {
    least: 0,
    greatest: 1_000,
};

const HEADS: Range = Range {
    least: 1,
    greatest: 1_000_000,
};

const GRAMS_PER_HEAD: Range = Range {
    least: 1,
    greatest: 500_000,
};

const PERCENT: Range = Range {
    least: 0,
    greatest: 100,
};

const YEARS: Range = Range {
    least: 1,
    greatest: 20,
};

const CLASSES: Range = Range {
    least: 1,
    greatest: 5,
};

impl Range {
    pub(crate) fn holds(self, value: u32) -> bool
        ensures { result ≡ within value self }
    {
        (self.least..=self.greatest).contains(&value)
    }
}

// The index of the first value out of its range; apart, since the check finds the answer of `position` where it is the whole result.
fn index_outside(values: &[(u32, Range)]) -> Option<usize>
    ensures { result ≡ position (λ x. not (within x.0 x.1)) values.now }
{
    values
        .iter()
        .position(|(value, range)| !range.holds(*value))
}

// Refused at the first value out of its range, the first value standing at `first`.
fn check(first: u8, values: &[(u32, Range)]) -> Result<(), Refusal>
    requires { first + length values.now ≤ 255 }
    ensures { result ≡ checked (outside first values.now) }
{
    match index_outside(values) {
        Some(i) => Err(Ground::FieldOutOfRange.at(first + i as u8)),
        None => Ok(()),
    }
}

// Apart, so that no function is over 40 lines.
fn check_residues(left: CropResidues) -> Result<(), Refusal>
    ensures { result ≡ checked (range_fault (Activity.Residues left)) }
{
    check(
        6,
        &[
            (left.harvest, KILOGRAMS),
            (left.area, ARES),
            (left.burnt, PERCENT),
            (left.removed, PERCENT),
            (left.years, YEARS),
        ],
    )
}

// Refused at the first number of the activity that is out of its range; its field is its place in the line.
pub(crate) fn check_ranges(activity: Activity) -> Result<(), Refusal>
    ensures { result ≡ checked (range_fault activity) }
{
    match activity {
        Activity::Synthetic { mass, content } => {
            check(5, &[(mass, KILOGRAMS), (content, THOUSANDTHS)])
        }
        Activity::Manure(manure) => check(
            5,
            &[
                (manure.available, AVAILABLE),
                (manure.feed, SHARE),
                (manure.fuel, SHARE),
                (manure.building, SHARE),
            ],
        ),
        Activity::Sludge { mass, content } => check(5, &[(mass, KILOGRAMS), (content, MILLIGRAMS)]),
        Activity::Grazing(herd) => check(
            6,
            &[
                (herd.heads, HEADS),
                (herd.grams_per_head, GRAMS_PER_HEAD),
                (herd.pasture, SHARE),
            ],
        ),
        Activity::Residues(left) => check_residues(left),
        Activity::Mineralised { carbon } => check(5, &[(carbon, KILOGRAMS)]),
        Activity::Drained { class, area } => check(5, &[(class, CLASSES), (area, ARES)]),
        Activity::Lime { stone: _, mass } => check(6, &[(mass, KILOGRAMS)]),
        Activity::Urea { mass } => check(5, &[(mass, KILOGRAMS)]),
    }
}
