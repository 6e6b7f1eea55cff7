//! Loading pin tables: the checks in their order, then the tables as they are.
ghost use Rattle.std.specs.Prelude.{◌≡◌, ◌-◌, ◌<◌, ◌≤◌, length};
ghost use Rattle.std.specs.Bool.{then_some};
ghost use Rattle.refusal.specs.declared.Fault.TheVariants.{TablesDisagree};
ghost use Rattle.refusal.specs.Checks.{checked};
ghost use Rattle.bottom.specs.LoadFaults.{few_fault, Loads};
ghost use Rattle.pin_tables.specs.Tables.{disagree, few, tables_fault, tables_meaning};
ghost use Rattle.pin_tables.specs.Means.{means};

use crate::PinTables;
use crate::pins::check_pins;
use price::Price;
use refusal::Fault;

impl<'a, P: Price> PinTables<'a, P> {
    /// Fills the tables with the caller's own, or refuses them and leaves what was there.
    pub fn load(
        &mut self,
        modules: usize,
        starts: &'a [u32],
        pins: &'a [u8],
        prices: &'a [P],
    ) -> Result<(), Fault>
        ensures { Loads means (tables_fault modules starts.now pins.now (length prices.now))
            (tables_meaning modules starts.now pins.now prices.now) self.old self.new result }
    {
        let nets = prices.len();
        bottom::check_counts(modules, nets)?;
        check_tables(starts, pins.len(), nets)?;
        check_pin_counts(starts)?;
        check_pins(modules, starts, pins)?;
        *self = PinTables {
            modules,
            starts,
            pins,
            prices,
        };
        Ok(())
    }
}

// Refuses starts that do not fit the number of pins and nets.
fn check_tables(starts: &[u32], pins: usize, nets: usize) -> Result<(), Fault>
    requires { nets ≤ 1024 }
    ensures { result ≡ checked (then_some (disagree starts.now pins nets) TablesDisagree) }
{
    if starts.len() != nets + 1 || starts[0] != 0 || starts[nets] as usize != pins {
        return Err(Fault::TablesDisagree);
    }
    Ok(())
}

// Refuses the first net with fewer than two pins; starts that fall count so.
fn check_pin_counts(starts: &[u32]) -> Result<(), Fault>
    requires { 0 < length starts.now }
    ensures { result ≡ checked (few_fault (few starts.now) (length starts.now - 1)) }
{
    let mut nets = starts.iter().zip(&starts[1..]);
    bottom::check_few_pins(nets.position(|(from, to)| to.saturating_sub(*from) < 2))
}
