//! What holds of statements on whole arrays, whatever they are: each law is the contract of a function without a body.
ghost use Rattle.b2_access.specs.LeftAlone.{LeaveTheRest};
ghost use Rattle.b2_stmt_mat.specs.Laws.{ChangeOneArray, CopiesAreEqual, SortedAreMoved, TransposingIsUndone};
ghost use Rattle.b2_stmt_mat.specs.Plan.{finish, plan};

/// A statement, as it plans and as it finishes, names no partition as a home, in a place, in a frame, where it leads or in what
/// it asks for, but its own and those that were named before. It leaves the place of the partition, which moves by its outcome,
/// and its terminal, and asks there alone. Where no place is kept for CONTINUE it keeps none, or the partition is then ready.
/// Where it plans an access, has to wait, or finds no key, nothing of the partition has changed.
pub fn statements_leave_the_rest()
    ensures { LeaveTheRest plan finish }
{}

/// After MAT A=B without a code A is equal to B, element by element, and has its rows and its columns.
pub fn copies_are_equal()
    ensures { CopiesAreEqual }
{}

/// An array transposed twice by TRN is as it was.
pub fn transposing_is_undone()
    ensures { TransposingIsUndone }
{}

/// After MAT SORT A$() TO W$(),L$() without a code, MAT MOVE A$(),L$() TO B$() puts the elements of A$ into B$ in the order of
/// their bytes, equal ones as they stood, and has no code; where B$ has values of the same length and as many, as A$ itself.
pub fn sorted_are_moved()
    ensures { SortedAreMoved }
{}

/// MAT, MAT REDIM, MAT SEARCH, MAT MOVE, MAT SORT and MAT COPY change the variable that they assign and no other.
pub fn one_array_changes()
    ensures { ChangeOneArray }
{}
