// Prints the whole factor sheet of the 2006 set, and then of a plot set over a few trials.
#![tactic(auto)]

mod rows;
mod sheet;

use factors::{Ipcc2006, Material, PlotSet, Trial, Water};
use sheet::FactorSheet;

// Two trials of synthetic fertiliser on land that is not flooded, one on flooded rice, and one of organic fertiliser whose treated plot gave off less than its control plot.
const TRIALS: [Trial; 4] = [
    Trial {
        material: Material::Synthetic,
        water: Water::NotFlooded,
        applied: 12_000,
        treated: 190_000,
        control: 40_000,
    },
    Trial {
        material: Material::Synthetic,
        water: Water::NotFlooded,
        applied: 9_000,
        treated: 160_000,
        control: 55_000,
    },
    Trial {
        material: Material::Synthetic,
        water: Water::Flooded,
        applied: 15_000,
        treated: 61_000,
        control: 20_000,
    },
    Trial {
        material: Material::Organic,
        water: Water::NotFlooded,
        applied: 8_000,
        treated: 30_000,
        control: 31_000,
    },
];

fn main(rt: HostRuntime) -> anyhow::Result<()> {
    rt.print(FactorSheet(&Ipcc2006))?;
    match PlotSet::over(&TRIALS) {
        Ok(set) => rt.print(FactorSheet(&set))?,
        Err(refusal) => {
            let ground = u8::from(refusal.ground);
            println!(rt; "no plot set: ground {ground}")?
        }
    }
    Ok(())
}
