// What brings nitrogen or carbon to the land.
ghost use Rattle.std.specs.Prelude.{◌≡◌, Some};
ghost use Rattle.factors.specs.Materials.{all_materials, all_carbon_materials, material_number, material_name, carbon_name};
ghost use Rattle.factors.specs.Whole.{has_material, has_carbon_material};

use super::listed::Listed;
use std::fmt;

// A nitrogen material.
#[derive(Clone, Copy, PartialEq, Eq)]
pub enum Material {
    // fertiliser from a factory
    Synthetic = 1,
    // spread manure, sludge and compost
    Organic,
    // crop residues left on the field
    Residue,
    // nitrogen set free where a soil loses carbon
    Mineralised,
    // dung and urine that cattle, poultry and pigs leave on pasture
    CattlePoultryPigs,
    // dung and urine that sheep and other animals leave on pasture
    SheepAndOthers,
}

// In the order of the numbers.
impl Listed<6> for Material {
    ghost list = { all_materials };

    fn all() -> [Material; 6] {
        [
            Material::Synthetic,
            Material::Organic,
            Material::Residue,
            Material::Mineralised,
            Material::CattlePoultryPigs,
            Material::SheepAndOthers,
        ]
    }

    ghost each = { has_material };
}

impl From<Material> for u8 {
    ghost from_gives = { λ m n. n ≡ material_number m };

    fn from(material: Material) -> u8 {
        material as u8
    }
}

impl Material {
    pub fn name(self) -> &'static str
        ensures { result.now ≡ material_name self }
    {
        match self {
            Material::Synthetic => "synthetic",
            Material::Organic => "organic",
            Material::Residue => "residue",
            Material::Mineralised => "mineralised",
            Material::CattlePoultryPigs => "grazing cattle, poultry, pigs",
            Material::SheepAndOthers => "grazing sheep and others",
        }
    }
}

impl fmt::Display for Material {
    ghost output = { λ m. Some (material_name m) };

    fn fmt<W: fmt::Write>(&self, f: &mut fmt::Formatter<W>) -> fmt::Result {
        f.write_str(self.name())
    }
}

// A material whose carbon leaves as carbon dioxide.
#[derive(Clone, Copy)]
pub enum CarbonMaterial {
    Limestone,
    Dolomite,
    Urea,
}

impl Listed<3> for CarbonMaterial {
    ghost list = { all_carbon_materials };

    fn all() -> [CarbonMaterial; 3] {
        [
            CarbonMaterial::Limestone,
            CarbonMaterial::Dolomite,
            CarbonMaterial::Urea,
        ]
    }

    ghost each = { has_carbon_material };
}

impl CarbonMaterial {
    pub fn name(self) -> &'static str
        ensures { result.now ≡ carbon_name self }
    {
        match self {
            CarbonMaterial::Limestone => "limestone",
            CarbonMaterial::Dolomite => "dolomite",
            CarbonMaterial::Urea => "urea",
        }
    }
}

impl fmt::Display for CarbonMaterial {
    ghost output = { λ m. Some (carbon_name m) };

    fn fmt<W: fmt::Write>(&self, f: &mut fmt::Formatter<W>) -> fmt::Result {
        f.write_str(self.name())
    }
}
