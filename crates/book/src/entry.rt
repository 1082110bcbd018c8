// Entries as they are given, lawful or not.

// Whose dung and urine a pasture gets; no `Material`, of which four do not graze.
#[derive(Clone, Copy)]
pub enum Animals {
    CattlePoultryPigs,
    SheepAndOthers,
}

// No `CarbonMaterial`, since urea is a kind of its own.
#[derive(Clone, Copy)]
pub enum LimeStone {
    Limestone,
    Dolomite,
}

// Animals that graze.
#[derive(Clone, Copy)]
pub struct Herd {
    pub animals: Animals,
    pub heads: u32,
    // nitrogen in the year
    pub grams_per_head: u32,
    // thousandths of the nitrogen
    pub pasture: u32,
}

// Managed manure.
#[derive(Clone, Copy)]
pub struct Manure {
    // kg of nitrogen
    pub available: u32,
    // thousandths of it that go to feed
    pub feed: u32,
    // thousandths that go to fuel
    pub fuel: u32,
    // thousandths that go to building
    pub building: u32,
}

// What a crop leaves behind.
#[derive(Clone, Copy)]
pub struct CropResidues {
    // the code of the crop; a number, so that one without a row can be given and refused
    pub crop: u32,
    // kg, fresh
    pub harvest: u32,
    // ares
    pub area: u32,
    // percent of what is above ground
    pub burnt: u32,
    // percent of what is above ground
    pub removed: u32,
    // between renewals
    pub years: u32,
}

// What was done on a piece of land in the year.
#[derive(Clone, Copy)]
pub enum Activity {
    // kg of fertiliser, and its nitrogen in thousandths
    Synthetic { mass: u32, content: u32 },
    Manure(Manure),
    // kg of sludge, compost or other, and its nitrogen in mg per kg
    Sludge { mass: u32, content: u32 },
    Grazing(Herd),
    Residues(CropResidues),
    // kg of soil carbon lost
    Mineralised { carbon: u32 },
    // the number of the class, any number, so that one without a class can be given and refused; and ares
    Drained { class: u32, area: u32 },
    // kg
    Lime { stone: LimeStone, mass: u32 },
    // kg
    Urea { mass: u32 },
}

// The land and the site by letters, any letters, so that unknown ones can be given and refused.
#[derive(Clone, Copy)]
pub struct Entry {
    pub number: u32,
    pub land: char,
    pub site: [char; 3],
    pub activity: Activity,
}
