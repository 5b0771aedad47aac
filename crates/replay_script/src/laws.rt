ghost use Rattle.replay_script.specs.Laws.{OneReading, FaultlessScript, OneFault};

/// A text is read as at most one script.
pub fn one_reading()
    ensures { OneReading }
{}

/// A text that is a script has no fault but want of memory, so a fault of another kind comes only where no script is.
pub fn faultless_script()
    ensures { FaultlessScript }
{}

/// The fault of a text is one, its line and its kind, but for want of memory.
pub fn one_fault()
    ensures { OneFault }
{}
