//! What holds of the order of the modules.
ghost use Rattle.cut.specs.OrderLaws.{OrderIsTheOnlyOne, OrderTakesEachOnce, LastPartedCheapest};

use price::Price;

/// The order obeys its rule, and is the only list that does.
pub fn order_is_the_only_one<P: Price>()
    ensures { OrderIsTheOnlyOne P.kind }
{}

/// The order takes each module once, and nothing else.
pub fn order_takes_each_once<P: Price>()
    ensures { OrderTakesEachOnce P.kind }
{}

/// No split that parts the last two of an order is cheaper than parting off the last alone.
pub fn last_parted_cheapest<P: Price>()
    ensures { LastPartedCheapest P.kind }
{}
