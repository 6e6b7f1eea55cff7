//! A trial's netlist as the tables that the product's pin tables borrow.
use crate::trial::Trial;
use anyhow::bail;
use pin_tables::PinTables;
use price::Price;
use std::alloc::Global;

// Starts, pins and prices: net i owns the pins from starts[i] up to, not including, starts[i + 1].
#[derive(Drop)]
pub(crate) struct Tables<P> {
    modules: usize,
    starts: Vec<u32>,
    pins: Vec<u8>,
    prices: Vec<P>,
}

impl<P: Price> Tables<P> {
    // The tables of a trial's home nets.
    pub(crate) fn of(heap: Global, trial: &Trial<P>) -> anyhow::Result<Tables<P>> {
        let mut tables = Tables {
            modules: trial.modules,
            starts: vec![in heap; 0]?,
            pins: Vec::new(heap),
            prices: Vec::new(heap),
        };
        for net in trial.nets.iter() {
            tables.push_pins(net.pins.as_slice())?;
            tables.prices.push(net.price)?;
        }
        Ok(tables)
    }

    // Adds the pins of one net, and where they end.
    fn push_pins(&mut self, pins: &[usize]) -> anyhow::Result<()> {
        for pin in pins {
            self.pins.push(u8::try_from(*pin)?)?;
        }
        self.starts.push(u32::try_from(self.pins.len())?)?;
        Ok(())
    }

    // The product's netlist over these tables.
    pub(crate) fn load(&self) -> anyhow::Result<PinTables<'_, P>> {
        let mut netlist = PinTables::empty();
        let loaded = netlist.load(
            self.modules,
            self.starts.as_slice(),
            self.pins.as_slice(),
            self.prices.as_slice(),
        );
        if loaded.is_err() {
            bail!("the tables of a netlist were refused");
        }
        Ok(netlist)
    }
}
