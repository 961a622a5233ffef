// Laws of lines, which no code states: each is the contract of a function without a body.
ghost use Rattle.b2_atom.specs.Laws.{EachLineSpellsATree, EachTreeIsALine, EachTreeIsReadFromItsAtoms, WhatIsReadFitsTheRows, NoTwoTreesShareAtoms, WhatIsReadIsALine, WhatIsListedIsReadBack, EachUnitIsAStatement, EachUnitIsReadByItsRow, EachTreeIsCutIntoUnits};

/// Each list of bytes that spells a line is the atoms of a tree that the table allows.
pub fn each_line_spells_a_tree()
    ensures { EachLineSpellsATree }
{}

/// The atoms of each tree that the table allows spell a line, where they are no more than 255 bytes.
pub fn each_tree_is_a_line()
    ensures { EachTreeIsALine }
{}

/// Each tree that the table allows is read from its atoms, with nothing left.
pub fn each_tree_is_read_from_its_atoms()
    ensures { EachTreeIsReadFromItsAtoms }
{}

/// What is read of a line of any kind is a tree that the table allows in such a line, and nothing is left.
pub fn what_is_read_fits_the_rows()
    ensures { WhatIsReadFitsTheRows }
{}

/// No two trees that the table allows have the same atoms, however deep their parentheses are.
pub fn no_two_trees_share_atoms()
    ensures { NoTwoTreesShareAtoms }
{}

/// The atoms of what is read from any source spell a line, where they are no more than 255 bytes.
pub fn what_is_read_is_a_line()
    ensures { WhatIsReadIsALine }
{}

/// The canonical source of each tree that a line of its kind allows is read back as the tree's atoms.
pub fn what_is_listed_is_read_back()
    ensures { WhatIsListedIsReadBack }
{}

/// Each unit of a line is read as one statement by itself, cut off where the next begins.
pub fn each_unit_is_a_statement()
    ensures { EachUnitIsAStatement }
{}

/// Each unit of a line is read by its row: the one that the table chooses for the unit's own bytes.
pub fn each_unit_is_read_by_its_row()
    ensures { EachUnitIsReadByItsRow }
{}

/// The units of a tree's atoms are the atoms of the statements at which the tree is cut, each read by itself.
pub fn each_tree_is_cut_into_units()
    ensures { EachTreeIsCutIntoUnits }
{}
