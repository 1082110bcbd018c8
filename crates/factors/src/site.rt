// Where nitrogen is put: the three marks that factors depend on.
ghost use Rattle.std.specs.Prelude.{◌≡◌, Some};
ghost use Rattle.std.specs.Option.{ok_or};
ghost use Rattle.factors.specs.Site.{water_letter, climate_letter, leaching_letter, water_of, climate_of, leaching_of, site_letters, sites_with, all_sites, SiteRead};
ghost use Rattle.factors.specs.declared.ground.Ground.TheVariants.{UnknownSite};
ghost use Rattle.factors.specs.Whole.{has_site};

use super::ground::Ground;
use super::listed::Listed;
use std::fmt;

// Flooded rice, or not.
#[derive(Clone, Copy, PartialEq, Eq)]
pub enum Water {
    Flooded,
    NotFlooded,
}

#[derive(Clone, Copy)]
pub enum Climate {
    Wet,
    Dry,
}

// Whether nitrogen is washed out of the root zone.
#[derive(Clone, Copy)]
pub enum Leaching {
    Occurs,
    Absent,
}

#[derive(Clone, Copy)]
pub struct Site {
    pub water: Water,
    pub climate: Climate,
    pub leaching: Leaching,
}

impl From<Water> for char {
    ghost from_gives = { λ w c. c ≡ water_letter w };

    fn from(water: Water) -> char {
        match water {
            Water::Flooded => 'R',
            Water::NotFlooded => 'U',
        }
    }
}

impl From<Climate> for char {
    ghost from_gives = { λ k c. c ≡ climate_letter k };

    fn from(climate: Climate) -> char {
        match climate {
            Climate::Wet => 'W',
            Climate::Dry => 'D',
        }
    }
}

impl From<Leaching> for char {
    ghost from_gives = { λ l c. c ≡ leaching_letter l };

    fn from(leaching: Leaching) -> char {
        match leaching {
            Leaching::Occurs => 'L',
            Leaching::Absent => 'N',
        }
    }
}

impl TryFrom<char> for Water {
    type Error = Ground;

    ghost try_from_gives = { λ c r. r ≡ ok_or (water_of c) UnknownSite };

    fn try_from(letter: char) -> Result<Water, Ground> {
        match letter {
            'R' => Ok(Water::Flooded),
            'U' => Ok(Water::NotFlooded),
            _ => Err(Ground::UnknownSite),
        }
    }
}

impl TryFrom<char> for Climate {
    type Error = Ground;

    ghost try_from_gives = { λ c r. r ≡ ok_or (climate_of c) UnknownSite };

    fn try_from(letter: char) -> Result<Climate, Ground> {
        match letter {
            'W' => Ok(Climate::Wet),
            'D' => Ok(Climate::Dry),
            _ => Err(Ground::UnknownSite),
        }
    }
}

impl TryFrom<char> for Leaching {
    type Error = Ground;

    ghost try_from_gives = { λ c r. r ≡ ok_or (leaching_of c) UnknownSite };

    fn try_from(letter: char) -> Result<Leaching, Ground> {
        match letter {
            'L' => Ok(Leaching::Occurs),
            'N' => Ok(Leaching::Absent),
            _ => Err(Ground::UnknownSite),
        }
    }
}

impl Site {
    // The four sites with this flood mark.
    fn with_water(water: Water) -> [Site; 4]
        ensures { result ≡ sites_with water }
    {
        [
            Site {
                water,
                climate: Climate::Wet,
                leaching: Leaching::Occurs,
            },
            Site {
                water,
                climate: Climate::Wet,
                leaching: Leaching::Absent,
            },
            Site {
                water,
                climate: Climate::Dry,
                leaching: Leaching::Occurs,
            },
            Site {
                water,
                climate: Climate::Dry,
                leaching: Leaching::Absent,
            },
        ]
    }
}

// U before R, W before D, L before N.
impl Listed<8> for Site {
    ghost list = { all_sites };

    fn all() -> [Site; 8] {
        let [a, b, c, d] = Site::with_water(Water::NotFlooded);
        let [e, f, g, h] = Site::with_water(Water::Flooded);
        [a, b, c, d, e, f, g, h]
    }

    ghost each = { has_site };
}

impl From<Site> for [char; 3] {
    ghost from_gives = { λ s letters. letters ≡ site_letters s };

    fn from(site: Site) -> [char; 3] {
        [
            char::from(site.water),
            char::from(site.climate),
            char::from(site.leaching),
        ]
    }
}

// The site with these letters.
impl TryFrom<[char; 3]> for Site {
    type Error = Ground;

    ghost try_from_gives = { SiteRead };

    fn try_from(letters: [char; 3]) -> Result<Site, Ground> {
        let [water, climate, leaching] = letters;
        Ok(Site {
            water: Water::try_from(water)?,
            climate: Climate::try_from(climate)?,
            leaching: Leaching::try_from(leaching)?,
        })
    }
}

impl fmt::Display for Site {
    ghost output = { λ s. Some (site_letters s) };

    fn fmt<W: fmt::Write>(&self, f: &mut fmt::Formatter<W>) -> fmt::Result {
        let [water, climate, leaching] = <[char; 3]>::from(*self);
        write!(f, "{water}{climate}{leaching}")
    }
}
