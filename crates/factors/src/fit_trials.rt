// Trials that a plot set can be made over.
ghost use Rattle.std.specs.Prelude.{◌≡◌, ◌≤◌, true};
ghost use Rattle.factors.specs.Trials.{trials_fit};

use super::by_water::ByWater;
use super::ground::{Ground, Refusal};
use super::ipcc2006::direct_by_water;
use super::material::Material;
use super::site::Water;
use super::trial::{Trial, all_fit};

// At most 64, each with its values in their ranges.
#[derive(Drop)]
pub(crate) struct FitTrials<'a> {
    trials: &'a [Trial],
    ghost fit: { trials_fit trials.now ≡ true },
}

impl<'a> TryFrom<&'a [Trial]> for FitTrials<'a> {
    ghost use Rattle.factors.specs.Plot.{Admits};

    type Error = Refusal;

    ghost try_from_gives = { λ ts r. Admits ts.now r };

    fn try_from(trials: &'a [Trial]) -> Result<FitTrials<'a>, Refusal> {
        if !all_fit(trials) {
            return Err(Ground::UnfitTrials.at(0));
        }
        Ok(FitTrials { trials })
    }
}

// What trials add up to.
#[derive(Drop)]
struct Totals {
    applied: u64,
    treated: u64,
    control: u64,
}

impl FitTrials<'_> {
    ghost use Rattle.factors.specs.Plot.{answer, Adds, Both};
    ghost use Rattle.factors.specs.Trials.{chosen};

    // What those of one material and flood mark add up to. Tried as one chain over a closure that picks the field: the proof did not close.
    fn totals(&self, material: Material, water: Water) -> Totals
        ensures sums { Adds (chosen material water self.now.trials.now) result }
        ensures bound { result.treated ≤ 64000000000 }
    {
        let mut sums = Totals {
            applied: 0,
            treated: 0,
            control: 0,
        };
        for trial in self.trials {
            if trial.is_of(material, water) {
                sums.applied += u64::from(trial.applied);
                sums.treated += u64::from(trial.treated);
                sums.control += u64::from(trial.control);
            }
        }
        sums
    }

    // The direct factor that the trials bear, or the 2006 one where there is no trial of the kind.
    fn direct(&self, material: Material, water: Water) -> u16
        ensures value { result ≡ answer material water (chosen material water self.now.trials.now) }
        ensures within { result ≤ 1000 }
    {
        let sums = self.totals(material, water);
        if sums.applied == 0 {
            return direct_by_water(material, water);
        }
        let net = sums.treated.saturating_sub(sums.control);
        (10 * net / sums.applied).min(1000) as u16
    }

    pub(crate) fn both_waters(&self, material: Material) -> ByWater
        ensures { Both self.now.trials.now material result }
    {
        ByWater {
            flooded: self.direct(material, Water::Flooded),
            not_flooded: self.direct(material, Water::NotFlooded),
        }
    }
}
