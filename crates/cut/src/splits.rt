//! What holds of the split that the rounds find, and of its sides word.
ghost use Rattle.cut.specs.ModuleRounds.{RoundsOverModules};
ghost use Rattle.cut.specs.SidesWord.{SidesWordHasEachSide};
ghost use Rattle.cut.specs.SplitLaws.{RoundsFindCheapest, MutedCostNothing, SplitIsCheapest};

use price::Price;

/// Over any row of groups: the rounds find the first of the lowest among the splits noted, and no lawful split is cheaper.
/// With fewer than two groups there is no lawful split, and they find none.
pub fn rounds_find_cheapest<P: Price>()
    ensures { RoundsFindCheapest P.kind }
{}

/// A split's price over the netlist's own nets is its price over the home nets that are not muted.
pub fn muted_cost_nothing<P: Price>()
    ensures { MutedCostNothing P.kind }
{}

/// Of every sound meaning with two modules and more, the split found is a cheapest lawful one at its true price.
/// With fewer there is no lawful split, and none is found.
pub fn split_is_cheapest<P: Price>()
    ensures { SplitIsCheapest P.kind }
{}

/// The rounds over the netlist's modules and own nets find the same split, each home module on the side of its place.
pub fn rounds_over_modules<P: Price>()
    ensures { RoundsOverModules P.kind }
{}

/// The sides word has 64 bits, and each tells the side of its home module.
pub fn sides_word_has_each_side()
    ensures { SidesWordHasEachSide }
{}
