//! The pull row: a key for each module in the cells handed in, and which modules are taken.
ghost use Rattle.std.specs.Prelude.{◌≡◌, ◌<◌, length, replicate, slice_set, if◌then◌else◌};
ghost use Rattle.partition.specs.Pulls.{WaitBelow, GreatestWaiting, TakesGreatest, key_in};

use moduleset::ModuleSet;
use netlist::limits::MODULES_MOST;
use price::Price;

// The pulls of one step of an order. Each module that waits has a cell.
#[derive(Drop)]
pub(crate) struct PullRow<'a, P> {
    pub(crate) cells: &'a mut [P],
    pub(crate) taken: ModuleSet,
    ghost room: { WaitBelow taken.word (length cells.now) },
}

impl<'a, P: Price> PullRow<'a, P> {
    // Joins a price onto the key of a module.
    pub(crate) fn join(&mut self, v: u8, price: P)
        requires { v < length self.old.cells.now }
        ensures cells { self.new.cells.now ≡ slice_set self.old.cells.now v (P.kind.join (key_in P.kind self.old.cells.now v) price) }
        ensures taken { self.new.taken ≡ self.old.taken }
    {
        let key = self.key(v);
        self.cells[v as usize] = key.join(price);
    }

    // Takes the waiting module with the greatest key, the lowest on equal keys.
    pub(crate) fn take_greatest(&mut self) -> Option<u8>
        ensures took { TakesGreatest P.kind (key_in P.kind self.old.cells.now) self.old.taken.word self.new.taken.word result }
        ensures cells { self.new.cells.now ≡ self.old.cells.now }
    {
        let v = self.greatest_waiting()?;
        self.taken = self.taken.with(v);
        Some(v)
    }

    // The waiting module with the greatest key, the lowest on equal keys.
    fn greatest_waiting(&self) -> Option<u8>
        ensures { GreatestWaiting P.kind (key_in P.kind self.now.cells.now) self.now.taken.word result }
    {
        let mut best = ModuleSet::at_or_past(0).minus(self.taken).lowest()?;
        // A chain of `filter` and `reduce`: tried, and what `reduce` answers was not proved.
        for v in best + 1..MODULES_MOST as u8 {
            if !self.taken.has(v) {
                best = self.greater_of(best, v);
            }
        }
        Some(best)
    }

    // Of two modules the one with the greater key, the first on equal keys.
    fn greater_of(&self, v: u8, w: u8) -> u8
        requires first { v < length self.now.cells.now }
        requires second { w < length self.now.cells.now }
        ensures { result ≡ (if P.kind.less (key_in P.kind self.now.cells.now v) (key_in P.kind self.now.cells.now w) then w else v) }
    {
        if self.key(v).less(self.key(w)) { w } else { v }
    }

    // The key of a module.
    pub(crate) fn key(&self, v: u8) -> P
        requires { v < length self.now.cells.now }
        ensures { result ≡ key_in P.kind self.now.cells.now v }
    {
        self.cells[v as usize]
    }
}

// Makes every cell zero.
pub(crate) fn clear<P: Price>(cells: &mut [P])
    ensures { cells.new ≡ replicate (length cells.old) P.kind.zero }
{
    // `fill`: tried, and it asks that a clone cannot fail, which a price kind does not promise.
    for cell in cells.iter_mut() {
        *cell = P::zero();
    }
}
