// Examples of entries that are accepted and refused.
#![tactic(auto)]

#[cfg(test)]
mod tests {
    use book::{Activity, Animals, CropResidues, Entry, Herd, LimeStone, Manure, crop_row};
    use factors::{Ground, Refusal};

    // The columns of the printed table of crops, in thousandths: dry share, slope, intercept, nitrogen of tops, root ratio, nitrogen of roots.
    const PRINTED: [[u32; 6]; 6] = [
        [880, 1_090, 880, 6, 220, 9],
        [870, 1_030, 610, 6, 220, 7],
        [890, 1_510, 520, 6, 240, 9],
        [890, 980, 590, 7, 220, 14],
        [910, 930, 1_350, 8, 190, 8],
        [220, 100, 1_060, 19, 200, 14],
    ];

    // A number of an activity: the kind's letter, the place among the kind's numbers, the place in the line, and the range.
    const RANGES: [(char, usize, u8, u32, u32); 21] = [
        ('N', 0, 5, 1, 10_000_000),
        ('N', 1, 6, 1, 1_000),
        ('M', 0, 5, 1, 1_000_000),
        ('M', 1, 6, 0, 1_000),
        ('M', 2, 7, 0, 1_000),
        ('M', 3, 8, 0, 1_000),
        ('S', 0, 5, 1, 10_000_000),
        ('S', 1, 6, 1, 100_000),
        ('P', 0, 6, 1, 1_000_000),
        ('P', 1, 7, 1, 500_000),
        ('P', 2, 8, 0, 1_000),
        ('R', 0, 6, 1, 10_000_000),
        ('R', 1, 7, 1, 100_000),
        ('R', 2, 8, 0, 100),
        ('R', 3, 9, 0, 100),
        ('R', 4, 10, 1, 20),
        ('C', 0, 5, 1, 10_000_000),
        ('H', 0, 5, 1, 5),
        ('H', 1, 6, 1, 100_000),
        ('L', 0, 6, 1, 10_000_000),
        ('U', 0, 5, 1, 10_000_000),
    ];

    fn field(activity: Activity) -> Entry {
        Entry {
            number: 1,
            land: 'C',
            site: ['U', 'W', 'L'],
            activity,
        }
    }

    // The entry's grams, or why it is refused.
    fn grams(entry: Entry) -> Result<u32, Refusal> {
        let lawful = entry.judge()?;
        Ok(lawful.grams)
    }

    fn refused(ground: Ground, field: u8) -> Result<u32, Refusal> {
        Err(ground.at(field))
    }

    fn residues(crop: u32, numbers: [u32; 5]) -> CropResidues {
        let [harvest, area, burnt, removed, years] = numbers;
        CropResidues {
            crop,
            harvest,
            area,
            burnt,
            removed,
            years,
        }
    }

    // An activity of the kind with this letter, by which the tables name it, as a line does.
    fn activity(kind: char, numbers: [u32; 5]) -> Activity {
        let [a, b, c, d, _] = numbers;
        match kind {
            'N' => Activity::Synthetic {
                mass: a,
                content: b,
            },
            'M' => Activity::Manure(Manure {
                available: a,
                feed: b,
                fuel: c,
                building: d,
            }),
            'S' => Activity::Sludge {
                mass: a,
                content: b,
            },
            'P' => Activity::Grazing(Herd {
                animals: Animals::SheepAndOthers,
                heads: a,
                grams_per_head: b,
                pasture: c,
            }),
            'R' => Activity::Residues(residues(1, numbers)),
            'C' => Activity::Mineralised { carbon: a },
            'H' => Activity::Drained { class: a, area: b },
            'L' => Activity::Lime {
                stone: LimeStone::Dolomite,
                mass: a,
            },
            _ => Activity::Urea { mass: a },
        }
    }

    // The refusal where an entry of the kind has a number out of its range: this number has this value, all others are 1.
    fn out_of_range(kind: char, at: usize, value: u32) -> Option<Refusal> {
        let mut numbers = [1; 5];
        if at < 5 {
            numbers[at] = value;
        }
        let refusal = field(activity(kind, numbers)).judge().err()?;
        (refusal.ground == Ground::FieldOutOfRange).then_some(refusal)
    }

    #[test]
    fn the_crop_rows_are_the_printed_ones(rt: HostRuntime) {
        for (code, printed) in (1..7).zip(PRINTED) {
            let row = crop_row(code).expect(&rt, "a row is missing");
            let kept = [
                10 * u32::from(row.dry),
                10 * u32::from(row.slope),
                10 * u32::from(row.intercept),
                u32::from(row.tops_nitrogen),
                10 * u32::from(row.root_ratio),
                u32::from(row.roots_nitrogen),
            ];
            assert!(rt; kept == printed, "another row");
            let combusted = if code == 3 { 90 } else { 80 };
            assert_eq!(rt; row.combusted, combusted, "another combusted share");
        }
        assert!(rt;
            crop_row(0).is_none() && crop_row(7).is_none(),
            "a row too many"
        );
    }

    #[test]
    fn each_range_has_both_its_ends(rt: HostRuntime) {
        for (kind, at, place, least, greatest) in RANGES {
            assert_eq!(rt; out_of_range(kind, at, least), None, "the least");
            assert_eq!(rt; out_of_range(kind, at, greatest), None, "the greatest");
            assert_eq!(rt;
                out_of_range(kind, at, greatest.saturating_add(1)),
                Some(Ground::FieldOutOfRange.at(place)),
                "above the greatest"
            );
            if least > 0 {
                assert_eq!(rt;
                    out_of_range(kind, at, least - 1),
                    Some(Ground::FieldOutOfRange.at(place)),
                    "below the least"
                );
            }
        }
    }

    #[test]
    fn grounds_come_in_their_order(rt: HostRuntime) {
        let bad = Entry {
            number: 0,
            land: 'A',
            site: ['U', 'W', 'W'],
            activity: activity('M', [0, 1_000, 1, 0, 0]),
        };
        assert_eq!(rt; grams(bad), refused(Ground::NumberOutOfRange, 1));
        let numbered = Entry { number: 1, ..bad };
        assert_eq!(rt; grams(numbered), refused(Ground::UnknownLand, 2));
        let placed = Entry {
            land: 'O',
            ..numbered
        };
        assert_eq!(rt; grams(placed), refused(Ground::UnknownSite, 3));
        let sited = Entry {
            site: ['R', 'D', 'N'],
            ..placed
        };
        assert_eq!(rt; grams(sited), refused(Ground::FieldOutOfRange, 5));
        let ranged = Entry {
            activity: activity('M', [1, 1_000, 1, 0, 0]),
            ..sited
        };
        assert_eq!(rt; grams(ranged), refused(Ground::SharesAboveWhole, 0));
    }

    #[test]
    fn numbers_and_grams_have_limits(rt: HostRuntime) {
        let last = field(activity('N', [500_000, 1_000, 0, 0, 0]));
        assert_eq!(rt; grams(last), Ok(500_000_000));
        let heavy = field(activity('N', [500_001, 1_000, 0, 0, 0]));
        assert_eq!(rt; grams(heavy), refused(Ground::TooManyGrams, 0));
        assert_eq!(rt;
            grams(Entry {
                number: 999_999_999,
                ..last
            }),
            Ok(500_000_000)
        );
        assert_eq!(rt;
            grams(Entry {
                number: 1_000_000_000,
                ..heavy
            }),
            refused(Ground::NumberOutOfRange, 1)
        );
    }

    #[test]
    fn a_crop_needs_a_row(rt: HostRuntime) {
        for code in [0, 7] {
            let left = field(Activity::Residues(residues(code, [1, 1, 0, 0, 1])));
            assert_eq!(rt; grams(left), refused(Ground::UnknownCrop, 5));
            let spoilt = field(Activity::Residues(residues(code, [1, 1, 0, 0, 21])));
            assert_eq!(rt; grams(spoilt), refused(Ground::FieldOutOfRange, 10));
        }
    }
}
