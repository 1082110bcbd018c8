// Plot trials: nitrous oxide measured on a treated and on a control plot.
ghost use Rattle.std.specs.Prelude.{◌≡◌};
ghost use Rattle.factors.specs.Trials.{trial_fits, each_fits, trials_fit, is_of};

use super::material::Material;
use super::site::Water;

const MOST_TRIALS: usize = 64;

const MOST_APPLIED: u32 = 1_000_000;

const MOST_MEASURED: u32 = 1_000_000_000;

// A trial as given.
#[derive(Clone, Copy)]
pub struct Trial {
    pub material: Material,
    pub water: Water,
    // grams of nitrogen
    pub applied: u32,
    // milligrams of N2O-N
    pub treated: u32,
    pub control: u32,
}

impl Trial {
    // Whether each value is in its range.
    fn fits(&self) -> bool
        ensures { result ≡ trial_fits self.now }
    {
        (1..=MOST_APPLIED).contains(&self.applied)
            && self.treated <= MOST_MEASURED
            && self.control <= MOST_MEASURED
    }

    // Whether it was made with this material, on plots with this flood mark.
    pub(crate) fn is_of(&self, material: Material, water: Water) -> bool
        ensures { result ≡ is_of material water self.now }
    {
        self.material == material && self.water == water
    }
}

// Apart, since the check finds the answer of `all` where it is the whole result.
fn each_fits(trials: &[Trial]) -> bool
    ensures { result ≡ each_fits trials.now }
{
    trials.iter().all(|trial| trial.fits())
}

// Whether a plot set can be made over these.
pub(crate) fn all_fit(trials: &[Trial]) -> bool
    ensures { result ≡ trials_fit trials.now }
{
    trials.len() <= MOST_TRIALS && each_fits(trials)
}
