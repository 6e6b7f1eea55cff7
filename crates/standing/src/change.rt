//! A change.
ghost use Rattle.std.specs.Prelude.{◌≡◌};
ghost use Rattle.standing.specs.declared.change.Change.TheVariants.{Strapped};

/// A change that stands over a netlist.
#[derive(Clone, Copy, PartialEq, Eq, Debug)]
pub enum Change {
    /// Two home modules strapped together.
    Strapped(usize, usize),
    /// A net muted.
    Muted(usize),
}

/// A table of changes holds this where none stands; no layer accepts it.
impl Default for Change {
    ghost is_default = { λ change. change ≡ Strapped 0 0 };

    fn default() -> Change {
        Change::Strapped(0, 0)
    }
}
