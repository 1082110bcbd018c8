// The default factors of the 2006 IPCC Guidelines, Volume 4, Chapter 11.
ghost use Rattle.std.specs.Prelude.{◌≡◌};
ghost use Rattle.factors.specs.Ipcc2006.{table2006, direct2006};
ghost use Rattle.std.proofs.Common.{rules};

use super::drained::DrainedClass;
use super::material::{CarbonMaterial, Material};
use super::set::FactorSet;
use super::site::{Leaching, Site, Water};

// EF4 is 0.010 and EF5 is 0.0075.
const REDEPOSITED: u16 = 100;

const RUNOFF: u16 = 75;

#[derive(Clone, Copy)]
pub struct Ipcc2006;

// The direct factor, which depends on no other mark of the site. Material and mark are two parameters wherever both are taken: a type for the pair would be taken apart again in each clause.
pub(crate) fn direct_by_water(material: Material, water: Water) -> u16
    ensures { result ≡ direct2006 material water }
{
    match (material, water) {
        (Material::CattlePoultryPigs, _) => 200,
        (Material::SheepAndOthers, _) => 100,
        (_, Water::Flooded) => 30,
        (_, Water::NotFlooded) => 100,
    }
}

impl FactorSet for Ipcc2006 {
    const EDITION: u16 = 2006;

    ghost EDITION = { 2006 };

    ghost table = { λ _. table2006 };

    ghost lawful = { Prim.search rules };

    fn direct(&self, material: Material, site: Site) -> u16 {
        direct_by_water(material, site.water)
    }

    fn volatilised(&self, material: Material, _site: Site) -> u16 {
        match material {
            Material::Synthetic => 100,
            Material::Residue | Material::Mineralised => 0,
            Material::Organic | Material::CattlePoultryPigs | Material::SheepAndOthers => 200,
        }
    }

    fn leached(&self, _material: Material, site: Site) -> u16 {
        match site.leaching {
            Leaching::Occurs => 300,
            Leaching::Absent => 0,
        }
    }

    fn redeposited(&self, _site: Site) -> u16 {
        REDEPOSITED
    }

    fn runoff(&self) -> u16 {
        RUNOFF
    }

    fn drained(&self, class: DrainedClass) -> u16 {
        match class {
            DrainedClass::TemperateCropGrass => 80,
            DrainedClass::TropicalCropGrass => 160,
            DrainedClass::TemperateForestRich => 6,
            DrainedClass::TemperateForestPoor => 1,
            DrainedClass::TropicalForest => 80,
        }
    }

    fn carbon(&self, material: CarbonMaterial) -> u16 {
        match material {
            CarbonMaterial::Limestone => 120,
            CarbonMaterial::Dolomite => 130,
            CarbonMaterial::Urea => 200,
        }
    }
}
