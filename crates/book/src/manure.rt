// Managed manure as it is kept.
ghost use Rattle.std.specs.Prelude.{◌≡◌, ◌-◌, ◌*◌, ◌≤◌};
ghost use Rattle.book.specs.Manure.{unspread};

use super::entry::Manure;
use factors::Ground;

// Manure whose shares to feed, fuel and building are at most the whole.
#[derive(Clone, Copy)]
pub struct LawfulManure {
    pub given: Manure,
    ghost shares: { unspread given ≤ 1000 },
}

impl TryFrom<Manure> for LawfulManure {
    ghost use Rattle.book.specs.Activity.{ManureRead};

    type Error = Ground;

    ghost try_from_gives = { ManureRead };

    fn try_from(given: Manure) -> Result<LawfulManure, Ground> {
        let shares = u64::from(given.feed) + u64::from(given.fuel) + u64::from(given.building);
        if shares > 1_000 {
            return Err(Ground::SharesAboveWhole);
        }
        Ok(LawfulManure { given })
    }
}

impl LawfulManure {
    // Grams of nitrogen that are spread.
    pub(crate) fn spread(self) -> u128
        ensures { result ≡ self.given.available * (1000 - unspread self.given) }
    {
        let shares = self.given.feed + self.given.fuel + self.given.building;
        u128::from(self.given.available) * u128::from(1_000 - shares)
    }
}
