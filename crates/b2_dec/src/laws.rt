// What holds of the definitions, as contracts of functions that do nothing.
ghost use Rattle.b2_dec.specs.Laws.{RoundsToNearest, CutsDown, HasLimits, SumsCommute, NothingIsLeft, HasOneSpelling};

/// A rounded fraction is the nearest number, and the larger one of two that are equally near.
pub fn law_rounds_to_nearest()
    ensures { RoundsToNearest }
{}

/// A cut fraction is the largest number that isn't above it in size.
pub fn law_cuts_down()
    ensures { CutsDown }
{}

/// A rounded fraction is a number, C60 or C61 exactly by its size.
pub fn law_has_limits()
    ensures { HasLimits }
{}

/// A sum doesn't depend on the order.
pub fn law_sums_commute()
    ensures { SumsCommute }
{}

/// Nothing is left of a number less itself.
pub fn law_nothing_is_left()
    ensures { NothingIsLeft }
{}

/// Numbers of one value are one number.
pub fn law_has_one_spelling()
    ensures { HasOneSpelling }
{}
