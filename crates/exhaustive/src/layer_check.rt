//! Straps and mutes piled on a netlist: what the product's layers, split and order answer, compared with the rules as read here.
use crate::cells::{are_cleared, cells_before};
use crate::drawing::Tries;
use crate::order_check::{order_agrees, short_rows_agree};
use crate::tables::Tables;
use crate::trial::Trial;
use fixtures::number_of;
use layers::mute::MuteLayer;
use layers::strap::StrapLayer;
use netlist::Netlist;
use partition::splitting::split;
use pin_tables::PinTables;
use price::Price;
use std::alloc::{AllocError, Global};

// In what the product and the rules agree over one netlist.
#[derive(Clone, Copy)]
pub(crate) struct Agreement {
    pub(crate) layers: bool,
    pub(crate) split: bool,
    pub(crate) order: bool,
}

// A netlist with straps and mutes made in layers over it.
#[derive(Drop)]
pub(crate) struct Pile<'a, P> {
    pub(crate) top: MuteLayer<StrapLayer<PinTables<'a, P>>>,
    // Whether the layers refuse what the rules refuse, by the same numbers.
    pub(crate) agrees: bool,
}

impl<'a, P: Price> Pile<'a, P> {
    // Tries the straps and then the mutes. In the trial those that the rules accept stand afterwards.
    pub(crate) fn over(
        tables: &'a Tables<P>,
        trial: &mut Trial<P>,
        tries: &Tries,
    ) -> anyhow::Result<Pile<'a, P>> {
        let mut strapped = StrapLayer::over(tables.load()?);
        let straps_agree = strap_all(&mut strapped, trial, tries.straps.as_slice())?;
        let mut top = MuteLayer::over(strapped);
        let mutes_agree = mute_all(&mut top, trial, tries.mutes.as_slice())?;
        Ok(Pile {
            top,
            agrees: straps_agree && mutes_agree,
        })
    }
}

impl Agreement {
    pub(crate) fn is_full(&self) -> bool {
        self.layers && self.split && self.order
    }
}

// Piles the straps and mutes that are tried on a netlist, and splits and orders what they leave. In the trial they stand afterwards.
pub(crate) fn compare<P: Price>(
    heap: Global,
    trial: &mut Trial<P>,
    tries: &Tries,
) -> anyhow::Result<Agreement> {
    let tables = Tables::of(heap, trial)?;
    let pile = Pile::over(&tables, trial, tries)?;
    Ok(Agreement {
        layers: pile.agrees,
        split: split_agrees(heap, trial, &pile.top)?,
        order: order_agrees(heap, &pile.top)? && short_rows_agree(heap, &pile.top)?,
    })
}

// Makes the straps in the layer and, where the rules accept them, in the trial; whether each is refused in both alike.
fn strap_all<N: Netlist>(
    layer: &mut StrapLayer<N>,
    trial: &mut Trial<N::Price>,
    straps: &[(usize, usize)],
) -> Result<bool, AllocError> {
    let mut agree = true;
    for (a, b) in straps {
        let refusal = trial.strap_refusal(*a, *b);
        agree = agree && number_of(layer.strap(*a, *b)) == refusal;
        if refusal.is_none() {
            trial.straps.push((*a, *b))?;
        }
    }
    Ok(agree)
}

// Makes the mutes likewise.
fn mute_all<N: Netlist>(
    layer: &mut MuteLayer<N>,
    trial: &mut Trial<N::Price>,
    mutes: &[usize],
) -> Result<bool, AllocError> {
    let mut agree = true;
    for net in mutes {
        let refusal = trial.mute_refusal(*net);
        agree = agree && number_of(layer.mute(*net)) == refusal;
        if refusal.is_none() {
            trial.muted.push(*net)?;
        }
    }
    Ok(agree)
}

// Whether the product's split is one that the rules allow, and the cells are left as they should be.
fn split_agrees<N: Netlist>(
    heap: Global,
    trial: &Trial<N::Price>,
    netlist: &N,
) -> Result<bool, AllocError> {
    let mut cells = cells_before(heap, trial.modules.saturating_add(1))?;
    let answer = split(netlist, cells.as_mut_slice());
    let cleared = if answer.is_ok() { trial.modules } else { 0 };
    Ok(trial.allows(answer) && are_cleared(cells.as_slice(), cleared))
}
