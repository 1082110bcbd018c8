// A whole factor sheet.
ghost use Rattle.std.specs.Prelude.{Some};
ghost use Rattle.std.specs.Fmt.{WritesOnOk};
ghost use Rattle.factorsheet.specs.Sheet.{block, sheet_text};

use super::rows::Row;
use factors::{CarbonMaterial, DrainedClass, FactorSet, Listed, Material, Site};
use std::fmt;
use std::fmt::{Display, Formatter};

const NITROGEN: &str = "number\tmaterial\tsite\tdirect /10000\tvolatilised /1000\tleached /1000\n";

const REDEPOSITED: &str = "site\tredeposited /10000\n";

const DRAINED: &str = "class\tdrained soil\tg N2O-N per are\n";

const CARBON: &str = "material\tcarbon /1000\n";

// Shows every factor of a set.
#[derive(Drop)]
pub struct FactorSheet<'a, F>(pub &'a F);

impl<F: FactorSet> FactorSheet<'_, F> {
    // Writes a heading and the rows under it; a method for the reason that `Row` gives.
    fn write_block<R: Row, W: fmt::Write>(
        &self,
        heading: &str,
        rows: &[R],
        f: &mut Formatter<W>,
    ) -> fmt::Result
        ensures { WritesOnOk W.write_str_gives f.old result
            (block heading.now (R.Row.row (F.table self.now.0.now)) rows.now) f.new }
    {
        f.write_str(heading)?;
        for row in rows {
            row.write_row(self.0, f)?;
        }
        Ok(())
    }
}

impl<F: FactorSet> Display for FactorSheet<'_, F> {
    ghost output = { λ sheet. Some (sheet_text F.EDITION (F.table sheet.0.now)) };

    fn fmt<W: fmt::Write>(&self, f: &mut Formatter<W>) -> fmt::Result {
        let edition = F::EDITION;
        let runoff = self.0.runoff();
        writeln!(f, "edition\t{edition}")?;
        writeln!(f, "runoff /10000\t{runoff}")?;
        self.write_block(NITROGEN, &Material::all(), f)?;
        self.write_block(REDEPOSITED, &Site::all(), f)?;
        self.write_block(DRAINED, &DrainedClass::all(), f)?;
        self.write_block(CARBON, &CarbonMaterial::all(), f)
    }
}
