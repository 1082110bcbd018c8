// Entries as they are kept.
ghost use Rattle.std.specs.Prelude.{◌≡◌, ◌≤◌, true};
ghost use Rattle.book.specs.Activity.{as_given};
ghost use Rattle.book.specs.Grams.{grams_of, most_grams};
ghost use Rattle.book.specs.Kinds.{crop_known};
ghost use Rattle.book.specs.Ranges.{numbers, in_ranges};

use super::activity::LawfulActivity;
use super::land::Land;
use factors::Site;

// A lawful entry, and its whole grams of nitrogen. Not one type with `Entry`: three fields change their type, and the grams and five facts come.
#[derive(Clone, Copy)]
pub struct LawfulEntry {
    pub number: u32,
    pub land: Land,
    pub site: Site,
    pub activity: LawfulActivity,
    pub grams: u32,
    ghost numbered: { (numbers.least ≤ number) × (number ≤ numbers.greatest) },
    ghost ranged: { in_ranges (as_given activity) ≡ true },
    ghost cropped: { crop_known (as_given activity) ≡ true },
    ghost weighed: { grams ≡ grams_of (as_given activity) },
    ghost light: { grams ≤ most_grams },
}
