// Emission factors for nitrogen put on land, drained peat, lime and urea: what a factor set is, and two sets.
#![tactic(auto)]

mod by_water;
mod drained;
mod fit_trials;
mod ground;
mod ipcc2006;
mod listed;
mod material;
mod plot;
mod set;
mod site;
mod trial;

pub use drained::DrainedClass;
pub use ground::{Ground, Refusal};
pub use ipcc2006::Ipcc2006;
pub use listed::Listed;
pub use material::{CarbonMaterial, Material};
pub use plot::PlotSet;
pub use set::FactorSet;
pub use site::{Climate, Leaching, Site, Water};
pub use trial::Trial;
