//! What holds of statements on variables, whatever they are: each law is the contract of a function without a body.
ghost use Rattle.b2_access.specs.LeftAlone.{LeaveTheRest};
ghost use Rattle.b2_stmt_var.specs.Lengths.{LengthsAreSums};
ghost use Rattle.b2_stmt_var.specs.Plan.{finish, plan};
ghost use Rattle.b2_stmt_var.specs.ReadingOrder.{ReadsInOrder};

/// A statement, as it plans and as it finishes, names no partition as a home, in a place, in a frame, where it leads or in what
/// it asks for, but its own and those that were named before. It leaves the place of the partition, which moves by its outcome,
/// and its terminal, and asks there alone. Where no place is kept for CONTINUE it keeps none, or the partition is then ready.
/// Where it plans an access, has to wait, or finds no key, nothing of the partition has changed.
pub fn statements_leave_the_rest()
    ensures { LeaveTheRest plan finish }
{}

/// Receivers that READ one after another take the literals of a text's DATA in the order of its lines and units, each once,
/// until none is left.
pub fn literals_are_read_in_order()
    ensures { ReadsInOrder }
{}

/// A length after a name without dimensions, as DIM and COM have it, is worth what the sum at the same bytes is worth.
pub fn lengths_are_sums()
    ensures { LengthsAreSums }
{}
