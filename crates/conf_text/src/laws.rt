ghost use Rattle.conf_text.specs.Laws.{OneReading, FaultlessText, OneFault};

/// A text is read as at most one list of statements.
pub fn one_reading()
    ensures { OneReading }
{}

/// A text of statements has no fault but want of memory, so a fault of another kind comes only where no statements are.
pub fn faultless_text()
    ensures { FaultlessText }
{}

/// The fault of a text is one, with its line, but for want of memory.
pub fn one_fault()
    ensures { OneFault }
{}
