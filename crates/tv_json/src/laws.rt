//! What makes the answer of the reader exact, as laws about its definitions. Nothing runs here.

ghost use Rattle.tv_json.specs.Laws.{HasOneFile, HasOneFault, RefusesNoFile};

/// Bytes are at most one file in JSON.
pub fn one_file()
    ensures { HasOneFile }
{}

/// Bytes are refused for one reason at most.
pub fn one_fault()
    ensures { HasOneFault }
{}

/// A file in JSON within the limits is not refused.
pub fn no_refusal_of_a_file()
    ensures { RefusesNoFile }
{}
