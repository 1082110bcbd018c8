// The rows of a factor sheet.
ghost use Rattle.std.specs.Prelude.{ℕ, List};
ghost use Rattle.std.specs.Fmt.{WritesOnOk};
ghost use Rattle.factors.specs.Table.{Table};
ghost use Rattle.factorsheet.specs.Sheet.{nitrogen_row, nitrogen_rows, redeposited_row, drained_row, carbon_row};

use factors::{CarbonMaterial, DrainedClass, FactorSet, Listed, Material, Site};
use std::fmt;
use std::fmt::Formatter;

// What a row, or several rows in turn, are about. A method, and no `Display`: a block over any kind of row would need a bound that says which text each displays.
pub trait Row {
    ghost row: { Table → Self → List ℕ };

    // Writes it with a set's answers.
    fn write_row<F: FactorSet, W: fmt::Write>(&self, set: &F, f: &mut Formatter<W>) -> fmt::Result
        ensures { WritesOnOk W.write_str_gives f.old result (row (F.table set.now) self.now) f.new };
}

// A material's factors at a site.
impl Row for (Material, Site) {
    ghost row = { λ t (material, site). nitrogen_row t material site };

    fn write_row<F: FactorSet, W: fmt::Write>(&self, set: &F, f: &mut Formatter<W>) -> fmt::Result {
        let (material, site) = *self;
        let number = u8::from(material);
        let direct = set.direct(material, site);
        let volatilised = set.volatilised(material, site);
        let leached = set.leached(material, site);
        writeln!(
            f,
            "{number}\t{material}\t{site}\t{direct}\t{volatilised}\t{leached}"
        )
    }
}

// A material's factors, site by site.
impl Row for Material {
    ghost row = { nitrogen_rows };

    fn write_row<F: FactorSet, W: fmt::Write>(&self, set: &F, f: &mut Formatter<W>) -> fmt::Result {
        for site in Site::all() {
            (*self, site).write_row(set, f)?;
        }
        Ok(())
    }
}

// What becomes of redeposited nitrogen at a site.
impl Row for Site {
    ghost row = { redeposited_row };

    fn write_row<F: FactorSet, W: fmt::Write>(&self, set: &F, f: &mut Formatter<W>) -> fmt::Result {
        let redeposited = set.redeposited(*self);
        writeln!(f, "{self}\t{redeposited}")
    }
}

impl Row for DrainedClass {
    ghost row = { drained_row };

    fn write_row<F: FactorSet, W: fmt::Write>(&self, set: &F, f: &mut Formatter<W>) -> fmt::Result {
        let number = u8::from(*self);
        let drained = set.drained(*self);
        writeln!(f, "{number}\t{self}\t{drained}")
    }
}

impl Row for CarbonMaterial {
    ghost row = { carbon_row };

    fn write_row<F: FactorSet, W: fmt::Write>(&self, set: &F, f: &mut Formatter<W>) -> fmt::Result {
        let carbon = set.carbon(*self);
        writeln!(f, "{self}\t{carbon}")
    }
}
