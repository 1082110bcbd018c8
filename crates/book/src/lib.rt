// Entries of a farm's year: what they are, when they are lawful, and how much nitrogen they bring.
#![tactic(auto)]

mod activity;
mod crops;
mod entry;
mod fraction;
mod grams;
mod judge;
mod land;
mod lawful;
mod lookup;
mod manure;
mod ranges;
mod residues;

pub use activity::LawfulActivity;
pub use crops::{CropRow, crop_row};
pub use entry::{Activity, Animals, CropResidues, Entry, Herd, LimeStone, Manure};
pub use land::Land;
pub use lawful::LawfulEntry;
pub use lookup::{Numbered, place};
pub use manure::LawfulManure;
pub use residues::LawfulResidues;
