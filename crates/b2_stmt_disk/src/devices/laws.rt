//! What holds of statements that take and free devices: the contracts of functions without a body.
ghost use Rattle.b2_stmt_disk.specs.devices.Laws.{AskedDevicesAreListed, DevicesAreHeldOnce, StatementsLeaveTheRest, StatementsPlanByListed, StatementsPlanLegally};

/// A statement, as it plans over any devices and as it finishes, names no partition as a home, in a place, in a frame, where it
/// leads or in what it asks for, but its own and those that were named before. It leaves the place of the partition, which moves
/// by its outcome, and its terminal, and asks at no terminal. Where no place is kept for CONTINUE it keeps none, or the
/// partition is then ready. Where it plans an access, or has to wait, nothing of the partition has changed.
pub fn statements_leave_the_rest()
    ensures { StatementsLeaveTheRest }
{}

/// What a statement asks for reaches no devices but those that the table lists for its partition.
pub fn asked_devices_are_listed()
    ensures { AskedDevicesAreListed }
{}

/// What a statement asks for may be asked for.
pub fn what_is_asked_is_legal()
    ensures { StatementsPlanLegally }
{}

/// What a statement plans follows from the devices that the table lists for its partition, by their kinds: over two tables that list the
/// same, it plans the same.
pub fn statements_plan_by_what_is_listed()
    ensures { StatementsPlanByListed }
{}

/// Where the partition holds no device twice, it holds none twice after a statement has planned, and after it has finished.
pub fn devices_are_held_once()
    ensures { DevicesAreHeldOnce }
{}
