// Worked examples: an entry of each kind, and an entry refused on each ground.
ghost use Rattle.std.specs.Prelude.{◌≡◌, map};
ghost use Rattle.worksheet.specs.Examples.{worked, Right};

use book::{Activity, Animals, CropResidues, Entry, Herd, LimeStone, Manure};

const EXAMPLES: [Entry; 19] = [
    Entry {
        number: 1,
        land: 'C',
        site: ['U', 'W', 'L'],
        activity: Activity::Synthetic {
            mass: 1_000,
            content: 460,
        },
    },
    Entry {
        number: 2,
        land: 'C',
        site: ['U', 'W', 'L'],
        activity: Activity::Manure(Manure {
            available: 1_000,
            feed: 0,
            fuel: 0,
            building: 0,
        }),
    },
    Entry {
        number: 3,
        land: 'C',
        site: ['U', 'W', 'L'],
        activity: Activity::Manure(Manure {
            available: 1_000,
            feed: 1_000,
            fuel: 0,
            building: 0,
        }),
    },
    Entry {
        number: 4,
        land: 'C',
        site: ['U', 'W', 'L'],
        activity: Activity::Sludge {
            mass: 1,
            content: 500,
        },
    },
    Entry {
        number: 5,
        land: 'C',
        site: ['U', 'W', 'L'],
        activity: Activity::Sludge {
            mass: 1,
            content: 499,
        },
    },
    Entry {
        number: 6,
        land: 'G',
        site: ['U', 'W', 'L'],
        activity: Activity::Grazing(Herd {
            animals: Animals::CattlePoultryPigs,
            heads: 100,
            grams_per_head: 70_000,
            pasture: 500,
        }),
    },
    Entry {
        number: 7,
        land: 'C',
        site: ['U', 'D', 'N'],
        activity: Activity::Residues(CropResidues {
            crop: 3,
            harvest: 5_000,
            area: 100,
            burnt: 0,
            removed: 0,
            years: 1,
        }),
    },
    Entry {
        number: 8,
        land: 'C',
        site: ['U', 'D', 'N'],
        activity: Activity::Residues(CropResidues {
            crop: 3,
            harvest: 5_000,
            area: 100,
            burnt: 50,
            removed: 0,
            years: 1,
        }),
    },
    Entry {
        number: 9,
        land: 'C',
        site: ['R', 'W', 'L'],
        activity: Activity::Mineralised { carbon: 1 },
    },
    Entry {
        number: 10,
        land: 'W',
        site: ['U', 'W', 'L'],
        activity: Activity::Drained {
            class: 2,
            area: 100,
        },
    },
    Entry {
        number: 11,
        land: 'C',
        site: ['U', 'W', 'L'],
        activity: Activity::Lime {
            stone: LimeStone::Dolomite,
            mass: 3,
        },
    },
    Entry {
        number: 12,
        land: 'C',
        site: ['U', 'W', 'L'],
        activity: Activity::Urea { mass: 1_000 },
    },
    Entry {
        number: 0,
        land: 'C',
        site: ['U', 'W', 'L'],
        activity: Activity::Urea { mass: 1_000 },
    },
    Entry {
        number: 13,
        land: 'A',
        site: ['U', 'W', 'L'],
        activity: Activity::Urea { mass: 1_000 },
    },
    Entry {
        number: 14,
        land: 'C',
        site: ['U', 'L', 'W'],
        activity: Activity::Urea { mass: 1_000 },
    },
    Entry {
        number: 15,
        land: 'C',
        site: ['U', 'W', 'L'],
        activity: Activity::Synthetic {
            mass: 1_000,
            content: 1_001,
        },
    },
    Entry {
        number: 16,
        land: 'C',
        site: ['U', 'W', 'L'],
        activity: Activity::Residues(CropResidues {
            crop: 7,
            harvest: 5_000,
            area: 100,
            burnt: 0,
            removed: 0,
            years: 1,
        }),
    },
    Entry {
        number: 17,
        land: 'C',
        site: ['U', 'W', 'L'],
        activity: Activity::Manure(Manure {
            available: 1_000,
            feed: 1_000,
            fuel: 1,
            building: 0,
        }),
    },
    Entry {
        number: 18,
        land: 'C',
        site: ['U', 'W', 'L'],
        activity: Activity::Synthetic {
            mass: 500_001,
            content: 1_000,
        },
    },
];

// Each of them is judged as the table of worked examples says.
pub fn worked_examples() -> [Entry; 19]
    ensures entries { result ≡ map (λ x. x.0) worked }
    ensures right { Right worked }
{
    EXAMPLES
}
