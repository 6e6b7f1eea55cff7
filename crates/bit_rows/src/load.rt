//! Loading bit rows: the checks in their order, then the rows as they are.
ghost use Rattle.std.specs.Prelude.{◌≡◌, length};
ghost use Rattle.refusal.specs.Checks.{checked};
ghost use Rattle.bottom.specs.LoadFaults.{few_fault, Loads};
ghost use Rattle.bit_rows.specs.Rows.{few, rows_fault, rows_meaning};
ghost use Rattle.bit_rows.specs.Means.{means};

use crate::BitRows;
use crate::pins::check_pins;
use moduleset::ModuleSet;
use price::Price;
use refusal::Fault;

impl<'a, P: Price> BitRows<'a, P> {
    /// Fills the rows with the caller's own, or refuses them and leaves what was there.
    pub fn load(&mut self, modules: usize, rows: &'a [u64], prices: &'a [P]) -> Result<(), Fault>
        ensures { Loads means (rows_fault modules rows.now (length prices.now))
            (rows_meaning modules rows.now prices.now) self.old self.new result }
    {
        bottom::check_counts(modules, prices.len())?;
        if rows.len() != prices.len() {
            return Err(Fault::TablesDisagree);
        }
        check_pin_counts(rows)?;
        check_pins(modules, rows)?;
        *self = BitRows {
            modules,
            rows,
            prices,
        };
        Ok(())
    }
}

// Refuses the first net with fewer than two pins.
fn check_pin_counts(rows: &[u64]) -> Result<(), Fault>
    ensures { result ≡ checked (few_fault (few rows.now) (length rows.now)) }
{
    let mut nets = rows.iter();
    bottom::check_few_pins(nets.position(|row| ModuleSet::from(*row).size() < 2))
}
