// Laws of what is found in a text, which no code states: each is the contract of a function without a body.
ghost use Rattle.b2_text.specs.Laws.{DataAreFound, FunctionsAreFound, MarksAreFound};

/// `marked` finds the lowest line whose tree begins with the DEFFN' of the number.
pub fn marks_are_found()
    ensures { MarksAreFound }
{}

/// `function` finds the lowest line whose tree begins with the DEFFN of the name.
pub fn functions_are_found()
    ensures { FunctionsAreFound }
{}

/// `data_at` finds the first unit at or after the spot whose tree is a DATA.
pub fn data_are_found()
    ensures { DataAreFound }
{}
