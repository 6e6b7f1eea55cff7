//! What the tests of a net's pins tell.
ghost use Rattle.cut.specs.CutLaws.{CrossesTells, PullsTells};

/// A net crosses a split exactly when it has a pin on each side.
pub fn crossing_nets_have_both_sides()
    ensures { CrossesTells }
{}

/// A net pulls a module toward a set exactly when it has a pin at the module, one in the set and none elsewhere.
pub fn pulling_nets_have_no_pin_elsewhere()
    ensures { PullsTells }
{}
