// Judging entries.
ghost use Rattle.book.specs.Judge.{Typed, Judged, JudgedLaw};

use super::activity::LawfulActivity;
use super::crops::crop_row;
use super::entry::{Activity, Entry};
use super::land::Land;
use super::lawful::LawfulEntry;
use super::manure::LawfulManure;
use super::ranges::{NUMBER, check_ranges};
use super::residues::LawfulResidues;
use factors::{DrainedClass, Ground, Refusal, Site};

const MOST_GRAMS: u128 = 500_000_000;

// Each number in its range; a crop needs its row, and manure lawful shares.
impl TryFrom<Activity> for LawfulActivity {
    type Error = Refusal;

    ghost try_from_gives = { Typed };

    fn try_from(activity: Activity) -> Result<LawfulActivity, Refusal> {
        check_ranges(activity)?;
        match activity {
            Activity::Synthetic { mass, content } => Ok(LawfulActivity::Synthetic {
                mass,
                content,
            }),
            Activity::Manure(given) => {
                let manure = LawfulManure::try_from(given).map_err(|ground| ground.at(0))?;
                Ok(LawfulActivity::Manure(manure))
            }
            Activity::Sludge { mass, content } => Ok(LawfulActivity::Sludge { mass, content }),
            Activity::Grazing(herd) => Ok(LawfulActivity::Grazing(herd)),
            Activity::Residues(given) => {
                let row = crop_row(given.crop).ok_or(Ground::UnknownCrop.at(5))?;
                Ok(LawfulActivity::Residues(LawfulResidues {
                    row,
                    harvest: given.harvest,
                    area: given.area,
                    burnt: given.burnt as u8,
                    removed: given.removed as u8,
                    years: given.years as u8,
                }))
            }
            Activity::Mineralised { carbon } => Ok(LawfulActivity::Mineralised { carbon }),
            Activity::Drained { class, area } => {
                // never refused here, since the range was checked with the others
                let class = DrainedClass::try_from(class).map_err(|ground| ground.at(5))?;
                Ok(LawfulActivity::Drained { class, area })
            }
            Activity::Lime { stone, mass } => Ok(LawfulActivity::Lime { stone, mass }),
            Activity::Urea { mass } => Ok(LawfulActivity::Urea { mass }),
        }
    }
}

impl Entry {
    // The lawful entry that this one asks for, with its grams; or why there is none.
    pub fn judge(&self) -> Result<LawfulEntry, Refusal>
        ensures answer { Judged self.now result }
        ensures law { JudgedLaw self.now result }
    {
        if !NUMBER.holds(self.number) {
            return Err(Ground::NumberOutOfRange.at(1));
        }
        let land = Land::try_from(self.land).map_err(|ground| ground.at(2))?;
        let site = Site::try_from(self.site).map_err(|ground| ground.at(3))?;
        let activity = LawfulActivity::try_from(self.activity)?;
        let grams = activity.grams();
        if grams > MOST_GRAMS {
            return Err(Ground::TooManyGrams.at(0));
        }
        Ok(LawfulEntry {
            number: self.number,
            land,
            site,
            activity,
            grams: grams as u32,
        })
    }
}
