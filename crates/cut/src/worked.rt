//! The worked lines of small netlists.
ghost use Rattle.cut.specs.Worked.{WorkedLinesHold};

/// Every worked line has the answer that the definitions give.
pub fn worked_lines_hold()
    ensures { WorkedLinesHold }
{}
