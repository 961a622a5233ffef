//! What holds of statements on programs on disks, whatever they are: the contracts of functions without a body.
ghost use Rattle.b2_stmt_disk.specs.programs.Laws.{AskedDevicesAreListed, StatementsLeaveTheRest, StatementsPlanByListed, StatementsPlanLegally};

/// A statement, as it plans over any devices and as it finishes, names no partition as a home, in a place, in a frame, where it
/// leads or in what it asks for, but its own and those that were named before. It leaves the place of the partition, which moves
/// by its outcome, and its terminal, and asks at no terminal. Where no place is kept for CONTINUE it keeps none, or the
/// partition is then ready. Where it plans an access, or has to wait, nothing of the partition has changed.
pub fn statements_leave_the_rest()
    ensures { StatementsLeaveTheRest }
{}

/// What a statement asks for reaches no devices but platters that the table lists for its partition.
pub fn asked_devices_are_listed()
    ensures { AskedDevicesAreListed }
{}

/// What a statement asks for may be asked for.
pub fn what_is_asked_is_legal()
    ensures { StatementsPlanLegally }
{}

/// What a statement plans follows from the platters that the table lists for its partition: over two tables that list the same, it plans
/// the same.
pub fn statements_plan_by_what_is_listed()
    ensures { StatementsPlanByListed }
{}
