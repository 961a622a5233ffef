// Laws of rows that are read, which no code states: each is the contract of a function without a body.
ghost use Rattle.b2_rows.specs.Laws.{EachChainStands, EachListSteps, EachRowStands, EachTakerShortens, EachTreeUnitIsItsRow, EachUnitIsARow, NothingIsAdded};

/// A row that is read stands item by item at its text, is the tree of its items, and leaves what they leave.
pub fn each_row_stands()
    ensures { EachRowStands }
{}

/// A repetition goes on exactly where its row begins: then the row is read, and what is left is the same repetition.
pub fn each_list_steps()
    ensures { EachListSteps }
{}

/// A chain is an item and further items, which go on exactly where an operator stands.
pub fn each_chain_stands()
    ensures { EachChainStands }
{}

/// What is left after a row or a repetition is no longer than the text.
pub fn nothing_is_added()
    ensures { NothingIsAdded }
{}

/// What is left after a row that takes a byte is shorter than the text.
pub fn each_taker_shortens()
    ensures { EachTakerShortens }
{}

/// Each unit of a line is a row that is read, from its first byte to its last.
pub fn each_unit_is_a_row()
    ensures { EachUnitIsARow }
{}

/// Each unit on the tree of a line is read as the row and as the tree that it has there.
pub fn each_tree_unit_is_its_row()
    ensures { EachTreeUnitIsItsRow }
{}
