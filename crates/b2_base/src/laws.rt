// Laws that no code states: each is the contract of a function without a body.
ghost use Rattle.b2_base.specs.Laws.{WhatRoseIsGreater};

/// A count that rose is greater than before, or stood at the end of its type.
pub fn what_rose_is_greater()
    ensures { WhatRoseIsGreater }
{}
