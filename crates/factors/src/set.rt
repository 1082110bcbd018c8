// What a factor set is: one table of answers, within its limits.
ghost use Rattle.std.specs.Prelude.{◌≡◌, ℕ, ◌+◌, ◌*◌};
ghost use Rattle.factors.specs.Table.{Table, Lawful, partitioned};

use super::drained::DrainedClass;
use super::material::{CarbonMaterial, Material};
use super::site::Site;

// The questions take what the rules ask them of, a material and a site or one of the two; the site's marks are a struct already.
pub trait FactorSet {
    // the year of the guidelines that the set follows; 0, as it is printed, where it follows none
    const EDITION: u16;

    ghost EDITION: { ℕ };

    ghost table: { Self → Table };

    // Ten-thousandths of the nitrogen that leave as nitrous oxide from where it is put.
    fn direct(&self, material: Material, site: Site) -> u16
        ensures { result ≡ (table self.now).direct material site };

    // Thousandths of the nitrogen that leave as ammonia and nitrogen oxides.
    fn volatilised(&self, material: Material, site: Site) -> u16
        ensures { result ≡ (table self.now).volatilised material site };

    // Thousandths of the nitrogen that are washed out.
    fn leached(&self, material: Material, site: Site) -> u16
        ensures { result ≡ (table self.now).leached material site };

    // Ten-thousandths of the volatilised nitrogen that become nitrous oxide where it comes down again.
    fn redeposited(&self, site: Site) -> u16
        ensures { result ≡ (table self.now).redeposited site };

    // Ten-thousandths of the leached nitrogen that become nitrous oxide.
    fn runoff(&self) -> u16
        ensures { result ≡ (table self.now).runoff };

    // Grams of N2O-N from an are of drained organic soil in a year.
    fn drained(&self, class: DrainedClass) -> u16
        ensures { result ≡ (table self.now).drained class };

    // Thousandths of the mass that leave as carbon.
    fn carbon(&self, material: CarbonMaterial) -> u16
        ensures { result ≡ (table self.now).carbon material };

    // Milligrams volatilised, leached and kept, of a mass of nitrogen in grams; a triple in this order by the rules.
    fn partition(&self, material: Material, site: Site, grams: u32) -> (u64, u64, u64)
        ensures parts { result ≡ partitioned (table self.now) material site grams }
        ensures whole { result.0 + result.1 + result.2 ≡ 1000 * grams }
    {
        let volatilised = u64::from(self.volatilised(material, site));
        let leached = u64::from(self.leached(material, site));
        let grams = u64::from(grams);
        (
            grams * volatilised,
            grams * leached,
            grams * (1000 - volatilised - leached),
        )
    }

    ghost lawful: { (s : Self) → Lawful (table s) };
}
