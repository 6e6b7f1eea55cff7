//! The one list of all worked lines: of pages, of orders and splits of small netlists, and of what is refused.
#![tactic(auto)]

ghost use Rattle.std.specs.List.{AllByRecursion};
ghost use Rattle.worked.specs.Lines.{Stands, worked_lines};

use cut::worked::worked_lines_hold;
use page::worked::worked_pages_stand;

/// Every worked line stands, by the definitions that the public calls promise by.
pub fn worked_lines_stand()
    ensures { AllByRecursion Stands worked_lines }
{
    worked_pages_stand();
    worked_lines_hold();
}
