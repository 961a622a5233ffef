//! What holds of steps, whatever the language and the store are: each law is the contract of a function without a body.
ghost use Rattle.std.specs.Prelude.{List};
ghost use Rattle.b2_access.specs.declared.devices.Device.{Device};
ghost use Rattle.b2_access.specs.Partition.{KeepsNone};
ghost use Rattle.b2_access.specs.declared.private.Private.{Private};
ghost use Rattle.b2_machine.specs.Counting.{StepsCountOrEnd, UncountedStepsChangeNothing};
ghost use Rattle.b2_machine.specs.OpenFiles.{StepsKeepOpenFiles};
ghost use Rattle.b2_machine.specs.Seeing.{StepsAreSeen, TurnsAreSeen};
ghost use Rattle.b2_machine.specs.Step.{step};
ghost use Rattle.b2_machine.specs.Tables.{StepsGoByListed, TurnsGoByListed};
ghost use Rattle.b2_machine.specs.Touched.{StepsAreLocal, StepsAskAtTerminal, StepsAskForListed, StepsKeepPart, StepsLeadNames, StepsShowAtTerminal, StepsStayWithin};

use b2_access::Shared;
use b2_language::Language;

/// A step is local: from two meanings that agree on what it touches the partition, the end of the step and what it writes are
/// the same; what it doesn't write stays; and what it writes it touches.
pub fn law_a_step_is_local<L: Language, S: Shared>()
    ensures { (devices : List Device) → StepsAreLocal (L.ways devices) S.store S.serving S.lending }
{}

/// A step names no partition as a home, in a place or in a frame, but its own, those that were named before, and those to whom a
/// name leads that it touches.
pub fn law_a_step_stays_within<L: Language, S: Shared>()
    ensures { (devices : List Device) → StepsStayWithin (L.ways devices) S.store S.serving S.lending }
{}

/// After a step a name leads to whom it led before, or to the partition of the step.
pub fn law_a_step_leads_names<L: Language, S: Shared>()
    ensures { (devices : List Device) → StepsLeadNames (L.ways devices) S.store S.serving S.lending }
{}

/// Where no place is kept for CONTINUE while program text runs, a step leaves it so.
pub fn law_a_step_keeps_no_place<L: Language, S: Shared>()
    ensures { (devices : List Device) (me : Private) (m : S.Meaning) → KeepsNone me → KeepsNone (step (L.ways devices) S.store S.serving S.lending me m).me }
{}

/// A step leaves which partition it is.
pub fn law_a_step_keeps_its_part<L: Language, S: Shared>()
    ensures { (devices : List Device) → StepsKeepPart (L.ways devices) S.store S.serving S.lending }
{}

/// A step asks at the terminal of its partition alone, and leaves which one that is.
pub fn law_a_step_asks_at_its_terminal<L: Language, S: Shared>()
    ensures { (devices : List Device) → StepsAskAtTerminal (L.ways devices) S.store S.serving S.lending }
{}

/// What waits to be shown after a step waited before, or is for the terminal.
pub fn law_a_step_shows_at_its_terminal<L: Language, S: Shared>()
    ensures { (devices : List Device) → StepsShowAtTerminal (L.ways devices) S.store S.serving S.lending }
{}

/// A step asks for devices that the table lists for its partition, and for no others, where what waits to be shown is for one of these
/// or for the terminal.
pub fn law_a_step_asks_for_listed_devices<L: Language>()
    ensures { StepsAskForListed L.ways }
{}

/// A step and a turn go by what the table lists for their partition, and by nothing else of it: over two tables that list the same
/// platters and the same printers for it they are the same.
pub fn law_a_step_goes_by_what_is_listed<L: Language, S: Shared>()
    ensures steps { StepsGoByListed L.ways S.store S.serving S.lending }
    ensures turns { TurnsGoByListed L.ways S.store S.serving S.lending }
{}

/// Where each file that a partition has open is on a platter that the table lists for it, at its first sector or after it, that is so after
/// a step, if what may be asked for is answered by what fits.
pub fn law_a_step_keeps_open_files<L: Language, S: Shared>()
    ensures { StepsKeepOpenFiles L.ways S.store S.serving S.lending }
{}

/// A step that doesn't count ends its turn. So each turn has at most one, its last.
pub fn law_a_step_counts_or_ends_its_turn<L: Language, S: Shared>()
    ensures { (devices : List Device) → StepsCountOrEnd (L.ways devices) S.store S.serving S.lending }
{}

/// A step that doesn't count has changed nothing of its partition, but that a halt which found it ready is forgotten.
pub fn law_an_uncounted_step_changes_nothing<L: Language, S: Shared>()
    ensures { (devices : List Device) → UncountedStepsChangeNothing (L.ways devices) S.store S.serving S.lending }
{}

/// Over a store that is seen as another one, which serves and lends as that does, a step and a turn are, seen so, what they are over the
/// other.
pub fn law_a_turn_is_seen_as_over_another<L: Language, S: Shared, T: Shared>()
    ensures steps { (devices : List Device) → StepsAreSeen S.store T.store S.serving T.serving S.lending T.lending (L.ways devices) }
    ensures turns { (devices : List Device) → TurnsAreSeen S.store T.store S.serving T.serving S.lending T.lending (L.ways devices) }
{}
