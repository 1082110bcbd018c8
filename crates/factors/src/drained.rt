// Drained organic soils.
ghost use Rattle.std.specs.Prelude.{◌≡◌, Some};
ghost use Rattle.factors.specs.Drained.{all_classes, class_number, class_name, ClassRead};
ghost use Rattle.factors.specs.Whole.{has_class};

use super::ground::Ground;
use super::listed::Listed;
use std::fmt;

// The classes that a drained factor depends on.
#[derive(Clone, Copy)]
pub enum DrainedClass {
    TemperateCropGrass = 1,
    TropicalCropGrass,
    TemperateForestRich,
    TemperateForestPoor,
    TropicalForest,
}

// In the order of the numbers.
impl Listed<5> for DrainedClass {
    ghost list = { all_classes };

    fn all() -> [DrainedClass; 5] {
        [
            DrainedClass::TemperateCropGrass,
            DrainedClass::TropicalCropGrass,
            DrainedClass::TemperateForestRich,
            DrainedClass::TemperateForestPoor,
            DrainedClass::TropicalForest,
        ]
    }

    ghost each = { has_class };
}

impl From<DrainedClass> for u8 {
    ghost from_gives = { λ c n. n ≡ class_number c };

    fn from(class: DrainedClass) -> u8 {
        class as u8
    }
}

// The class with this number.
impl TryFrom<u32> for DrainedClass {
    type Error = Ground;

    ghost try_from_gives = { ClassRead };

    fn try_from(number: u32) -> Result<DrainedClass, Ground> {
        match number {
            1 => Ok(DrainedClass::TemperateCropGrass),
            2 => Ok(DrainedClass::TropicalCropGrass),
            3 => Ok(DrainedClass::TemperateForestRich),
            4 => Ok(DrainedClass::TemperateForestPoor),
            5 => Ok(DrainedClass::TropicalForest),
            _ => Err(Ground::FieldOutOfRange),
        }
    }
}

impl DrainedClass {
    pub fn name(self) -> &'static str
        ensures { result.now ≡ class_name self }
    {
        match self {
            DrainedClass::TemperateCropGrass => "temperate crop and grass",
            DrainedClass::TropicalCropGrass => "tropical crop and grass",
            DrainedClass::TemperateForestRich => "temperate forest, rich",
            DrainedClass::TemperateForestPoor => "temperate forest, poor",
            DrainedClass::TropicalForest => "tropical forest",
        }
    }
}

impl fmt::Display for DrainedClass {
    ghost output = { λ c. Some (class_name c) };

    fn fmt<W: fmt::Write>(&self, f: &mut fmt::Formatter<W>) -> fmt::Result {
        f.write_str(self.name())
    }
}
