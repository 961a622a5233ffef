//! What holds of statements on packed fields, whatever they are: each law is the contract of a function without a body.
ghost use Rattle.b2_access.specs.LeftAlone.{LeaveTheRest};
ghost use Rattle.b2_stmt_pack.specs.Laws.{ChangeWhatIsNamed, NumbersComeBack};
ghost use Rattle.b2_stmt_pack.specs.Plan.{finish, plan};

/// A statement, as it plans and as it finishes, names no partition as a home, in a place, in a frame, where it leads or in what
/// it asks for, but its own and those that were named before. It leaves the place of the partition, which moves by its outcome,
/// and its terminal, and asks there alone. Where no place is kept for CONTINUE it keeps none, or the partition is then ready.
/// Where it plans an access, has to wait, or finds no key, nothing of the partition has changed.
pub fn statements_leave_the_rest()
    ensures { LeaveTheRest plan finish }
{}

/// What PACK put into an array without a code, UNPACK gives back: each number that the image spells exactly.
pub fn numbers_come_back()
    ensures { NumbersComeBack }
{}

/// PACK and $PACK change the variable of their buffer and no other, and UNPACK and $UNPACK those of their receivers and no
/// others, with a code and without.
pub fn what_is_named_changes()
    ensures { ChangeWhatIsNamed }
{}
