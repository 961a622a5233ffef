// The laws of listed lines, which no code states: each is the contract of a function without a body.
ghost use Rattle.b2_lister.specs.Laws.{EachListedLineIsReadBack, EachTreeIsListedAndReadBack};

/// Each typed line that is read as a line of a program is, once it is listed, read as the same number and the same atoms.
pub fn each_listed_line_is_read_back()
    ensures { EachListedLineIsReadBack }
{}

/// Each tree that a line of a program allows is listed as its number, a blank and its canonical source, and read back from
/// there.
pub fn each_tree_is_listed_and_read_back()
    ensures { EachTreeIsListedAndReadBack }
{}
