// Activities as they are kept.

use super::entry::{Herd, LimeStone};
use super::manure::LawfulManure;
use super::residues::LawfulResidues;
use factors::DrainedClass;

// As in an entry as given, but typed: manure has lawful shares, residues their crop's row, and drained soil a class. The kinds are written out again: one enum for both would need three type parameters, named wherever it stands.
#[derive(Clone, Copy)]
pub enum LawfulActivity {
    Synthetic { mass: u32, content: u32 },
    Manure(LawfulManure),
    Sludge { mass: u32, content: u32 },
    Grazing(Herd),
    Residues(LawfulResidues),
    Mineralised { carbon: u32 },
    Drained { class: DrainedClass, area: u32 },
    Lime { stone: LimeStone, mass: u32 },
    Urea { mass: u32 },
}
