//! The worked pages, as a theorem of the definitions that `unpack_page` promises by.
ghost use Rattle.std.specs.List.{AllByRecursion};
ghost use Rattle.page.specs.Worked.{Stands, worked_pages};

/// Every worked page unpacks, or is refused, as its line says.
pub fn worked_pages_stand()
    ensures { AllByRecursion Stands worked_pages }
{}
