//! What the marks say: each law is the contract of a function without a body.
ghost use Rattle.b2_audit.specs.Steps.{MarksSayClean, MarkedInParts, OwnTextsAreIdle, AccessesAreMarked, AccessesWriteOwnTexts, LoansAreMarked};

/// After the marks of a list of steps a partition is clean exactly where none of its steps touched an object that a step of
/// another one wrote before.
pub fn law_marks_say_who_is_clean()
    ensures { MarksSayClean }
{}

/// A step may be marked in parts, by loans before and after its access: the marks are those of all that it touched, judged by
/// what was written before it, and of all that it wrote.
pub fn law_a_step_is_marked_in_parts()
    ensures { MarkedInParts }
{}

/// The objects that an access touches and writes are among those that are marked.
pub fn law_accesses_are_marked()
    ensures { AccessesAreMarked }
{}

/// So are those that a loan touches.
pub fn law_loans_are_marked()
    ensures { LoansAreMarked }
{}

/// An access writes no text but that of the partition that asks.
pub fn law_accesses_write_own_texts()
    ensures { AccessesWriteOwnTexts }
{}

/// After steps that write no text of another, a partition that touches its own text leaves the marks as they are. So it makes
/// no difference whether a step that lends nothing counts as touching it.
pub fn law_own_texts_are_idle()
    ensures { OwnTextsAreIdle }
{}
