// Examples of what factor sets answer and refuse.
#![tactic(auto)]

#[cfg(test)]
mod tests {
    use factors::{
        CarbonMaterial, Climate, DrainedClass, FactorSet, Ground, Ipcc2006, Leaching, Listed,
        Material, PlotSet, Refusal, Site, Trial, Water,
    };
    use std::test::Fail;

    const RICE: Site = Site {
        water: Water::Flooded,
        climate: Climate::Dry,
        leaching: Leaching::Absent,
    };

    const FIELD: Site = Site {
        water: Water::NotFlooded,
        climate: Climate::Wet,
        leaching: Leaching::Occurs,
    };

    // A trial of synthetic fertiliser on land that is not flooded.
    fn trial(applied: u32, treated: u32, control: u32) -> Trial {
        Trial {
            material: Material::Synthetic,
            water: Water::NotFlooded,
            applied,
            treated,
            control,
        }
    }

    // The direct answer for synthetic fertiliser on the field, of a set over these trials.
    fn direct(trials: &[Trial]) -> Result<u16, Refusal> {
        let set = PlotSet::over(trials)?;
        Ok(set.direct(Material::Synthetic, FIELD))
    }

    fn unfit() -> Result<u16, Refusal> {
        Err(Ground::UnfitTrials.at(0))
    }

    #[test]
    fn the_trials_are_weighed(rt: HostRuntime) {
        assert_eq!(rt;
            direct(&[trial(21_000, 350_000, 95_000)]),
            Ok(121),
            "10 * 255,000 / 21,000 is 121.4"
        );
        assert_eq!(rt; direct(&[trial(1_000, 99_999, 0)]), Ok(999), "rounded down");
        assert_eq!(rt; direct(&[trial(100, 10, 20)]), Ok(0), "negative");
        assert_eq!(rt;
            direct(&[trial(100, 5, 20), trial(50, 40, 10)]),
            Ok(1),
            "the sum is positive"
        );
        assert_eq!(rt;
            direct(&[trial(1_000, 100_000, 0)]),
            Ok(1_000),
            "at the limit"
        );
        assert_eq!(rt;
            direct(&[trial(1_000, 100_100, 0)]),
            Ok(1_000),
            "past the limit"
        );
        assert_eq!(rt;
            direct(&[trial(1, 1_000_000_000, 0)]),
            Ok(1_000),
            "far past the limit"
        );
    }

    #[test]
    fn ranges_end_where_they_should(rt: HostRuntime) {
        assert_eq!(rt; direct(&[trial(0, 1, 0)]), unfit(), "applied 0");
        assert_eq!(rt; direct(&[trial(1, 0, 0)]), Ok(0), "applied 1");
        assert_eq!(rt;
            direct(&[trial(1_000_000, 1_000_000_000, 0)]),
            Ok(1_000),
            "applied 1,000,000"
        );
        assert_eq!(rt;
            direct(&[trial(1_000_001, 1, 0)]),
            unfit(),
            "applied 1,000,001"
        );
        assert_eq!(rt;
            direct(&[trial(1, 1_000_000_001, 0)]),
            unfit(),
            "treated 1,000,000,001"
        );
        assert_eq!(rt;
            direct(&[trial(1, 0, 1_000_000_000)]),
            Ok(0),
            "control 1,000,000,000"
        );
        assert_eq!(rt;
            direct(&[trial(1, 0, 1_000_000_001)]),
            unfit(),
            "control 1,000,000,001"
        );
        assert_eq!(rt;
            direct(&[trial(1, 0, 0), trial(0, 0, 0)]),
            unfit(),
            "the second trial"
        );
    }

    #[test]
    fn at_most_64_trials(rt: HostRuntime) {
        assert_eq!(rt;
            direct(&[trial(1_000_000, 1_000_000_000, 999_990_000); 64]),
            Ok(0),
            "64 of the largest"
        );
        assert_eq!(rt; direct(&[trial(1_000, 1_700, 0); 64]), Ok(17), "64");
        assert_eq!(rt; direct(&[trial(1_000, 1_700, 0); 65]), unfit(), "65");
    }

    #[test]
    fn other_trials_do_not_count(rt: HostRuntime) -> Result<(), Fail> {
        let wet = Trial {
            water: Water::Flooded,
            ..trial(1_000, 4_000, 0)
        };
        let dung = Trial {
            material: Material::Organic,
            ..trial(1_000, 8_000, 0)
        };
        let set = PlotSet::over(&[wet, dung])?;
        assert_eq!(rt; set.direct(Material::Synthetic, RICE), 40);
        assert_eq!(rt; set.direct(Material::Synthetic, FIELD), 100);
        assert_eq!(rt; set.direct(Material::Organic, FIELD), 80);
        assert_eq!(rt; set.direct(Material::Organic, RICE), 30);
        Ok(())
    }

    #[test]
    fn without_trials_as_in_2006(rt: HostRuntime) -> Result<(), Fail> {
        let set = PlotSet::over(&[])?;
        for material in Material::all() {
            for site in Site::all() {
                assert_eq!(rt; set.direct(material, site), Ipcc2006.direct(material, site));
                assert_eq!(rt;
                    set.volatilised(material, site),
                    Ipcc2006.volatilised(material, site)
                );
                assert_eq!(rt;
                    set.leached(material, site),
                    Ipcc2006.leached(material, site)
                );
            }
        }
        assert_eq!(rt; set.runoff(), 75);
        assert_eq!(rt; set.redeposited(RICE), 100);
        assert_eq!(rt; set.drained(DrainedClass::TropicalCropGrass), 160);
        assert_eq!(rt; set.carbon(CarbonMaterial::Dolomite), 130);
        Ok(())
    }

    #[test]
    fn nitrogen_is_parted(rt: HostRuntime) {
        assert_eq!(rt;
            Ipcc2006.partition(Material::Organic, FIELD, 7),
            (1_400, 2_100, 3_500)
        );
        assert_eq!(rt;
            Ipcc2006.partition(Material::Residue, RICE, 7),
            (0, 0, 7_000)
        );
        assert_eq!(rt;
            Ipcc2006.partition(Material::Synthetic, FIELD, u32::MAX),
            (429_496_729_500, 1_288_490_188_500, 2_576_980_377_000)
        );
    }

    // As code over any set reads it.
    fn edition<F: FactorSet>() -> u16 {
        F::EDITION
    }

    #[test]
    fn editions(rt: HostRuntime) {
        assert_eq!(rt; Ipcc2006::EDITION, 2006);
        assert_eq!(rt; edition::<Ipcc2006>(), 2006);
        assert_eq!(rt; PlotSet::EDITION, 0);
        assert_eq!(rt; edition::<PlotSet>(), 0);
    }
}
