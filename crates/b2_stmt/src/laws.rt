//! What holds of statements of control, whatever they are: the contracts of functions without a body.
ghost use Rattle.b2_access.specs.LeftAlone.{LeaveTheRest};
ghost use Rattle.b2_access.specs.Standing.{FinishesStanding, PlansStanding};
ghost use Rattle.b2_stmt.specs.Borrowing.{EntersOthers};
ghost use Rattle.b2_stmt.specs.Plan.{finish, plan};

/// A statement, as it plans and as it finishes, names no partition as a home, in a place, in a frame, where it leads or in what
/// it asks for, but its own, those that were named before, and whom the answer leads to. It leaves the place of the partition,
/// which moves by its outcome, and its terminal, and asks there alone. Where no place is kept for CONTINUE it keeps none, or the partition is then ready.
/// Where it plans an access, has to wait, or finds no key, nothing of the partition has changed.
pub fn statements_leave_the_rest()
    ensures { LeaveTheRest plan finish }
{}

/// A partition stands in the text of another only above a call that entered it, and so do the place that is kept, where its calls
/// lead back to and the bodies of its loops. Where that is so before a statement, it is so after it, and after what the statement
/// asked for and was answered. A statement that has ended leaves how many calls entered each text; one that enters a text has one
/// more after it, one that leaves a text one less, and where all are given back there are none. GOSUB' enters a text only where the
/// own one has no such DEFFN', so that no partition enters its own text as that of another.
pub fn statements_enter_as_said()
    ensures plans { PlansStanding plan }
    ensures finishes { FinishesStanding plan finish }
    ensures others { EntersOthers plan }
{}
