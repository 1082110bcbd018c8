// A factor set whose direct factors come from plot trials.
ghost use Rattle.std.specs.Prelude.{◌≡◌};
ghost use Rattle.factors.specs.Plot.{Made, table_of};
ghost use Rattle.std.proofs.Common.{rules};

use super::by_water::ByWater;
use super::drained::DrainedClass;
use super::fit_trials::FitTrials;
use super::ground::Refusal;
use super::ipcc2006::Ipcc2006;
use super::material::{CarbonMaterial, Material};
use super::set::FactorSet;
use super::site::{Site, Water};
use super::trial::Trial;

// A field for each material: an array would be read at a number that has to be proved in range.
#[derive(Clone, Copy)]
pub struct PlotSet {
    synthetic: ByWater,
    organic: ByWater,
    residue: ByWater,
    mineralised: ByWater,
    cattle_poultry_pigs: ByWater,
    sheep_and_others: ByWater,
}

impl PlotSet {
    // The set over these trials: at most 64, each with its values in their ranges.
    pub fn over(trials: &[Trial]) -> Result<PlotSet, Refusal>
        ensures { Made trials.now result }
    {
        let trials = FitTrials::try_from(trials)?;
        Ok(PlotSet {
            synthetic: trials.both_waters(Material::Synthetic),
            organic: trials.both_waters(Material::Organic),
            residue: trials.both_waters(Material::Residue),
            mineralised: trials.both_waters(Material::Mineralised),
            cattle_poultry_pigs: trials.both_waters(Material::CattlePoultryPigs),
            sheep_and_others: trials.both_waters(Material::SheepAndOthers),
        })
    }
}

impl FactorSet for PlotSet {
    const EDITION: u16 = 0;

    ghost EDITION = { 0 };

    ghost table = { table_of };

    ghost lawful = { Prim.search rules };

    fn direct(&self, material: Material, site: Site) -> u16 {
        let factors = match material {
            Material::Synthetic => self.synthetic,
            Material::Organic => self.organic,
            Material::Residue => self.residue,
            Material::Mineralised => self.mineralised,
            Material::CattlePoultryPigs => self.cattle_poultry_pigs,
            Material::SheepAndOthers => self.sheep_and_others,
        };
        match site.water {
            Water::Flooded => factors.flooded,
            Water::NotFlooded => factors.not_flooded,
        }
    }

    // Every other question goes to the 2006 set; the trait has no default for one, so that no set forgets it.
    fn volatilised(&self, material: Material, site: Site) -> u16 {
        Ipcc2006.volatilised(material, site)
    }

    fn leached(&self, material: Material, site: Site) -> u16 {
        Ipcc2006.leached(material, site)
    }

    fn redeposited(&self, site: Site) -> u16 {
        Ipcc2006.redeposited(site)
    }

    fn runoff(&self) -> u16 {
        Ipcc2006.runoff()
    }

    fn drained(&self, class: DrainedClass) -> u16 {
        Ipcc2006.drained(class)
    }

    fn carbon(&self, material: CarbonMaterial) -> u16 {
        Ipcc2006.carbon(material)
    }
}
