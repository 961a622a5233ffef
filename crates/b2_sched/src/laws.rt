//! What holds of every world: each law is the contract of a function without a body.
ghost use Rattle.std.specs.Prelude.{ℕ, Bool};
ghost use Rattle.b2_boot.specs.Alone.{alone};
ghost use Rattle.b2_boot.specs.Boots.{BootState, IsGood};
ghost use Rattle.b2_sched.specs.Clean.{CleanOnesAreAsAlone, MarksSayWhoIsClean, RunsMarkTheirSteps};
ghost use Rattle.b2_sched.specs.Devices.{RunsTouchListedDevices};
ghost use Rattle.b2_sched.specs.Files.{FilesOutlastTurns, HeldFilesStay};
ghost use Rattle.b2_sched.specs.Groups.{CleanGroupsAreAsAlone, GroupsRelyOnTheirOwn, TurnsChangeTheirOwn};
ghost use Rattle.b2_sched.specs.Holding.{HeldUntilFreed, ListsAreWhatIsHeld, OthersLeaveHeld, OthersReadNothing, OthersWait, StepsKeepTheList};
ghost use Rattle.b2_sched.specs.Inside.{AreInsideAsEntered, StepsEnterAsSaid, TextsStayWhileInside};
ghost use Rattle.b2_sched.specs.Laws.{RunsByActions, LeavesOthers, KeepsPresent, QuotasStay, RoundsAscend, CountsTurns, NoPlaceIsKept, RunsKeepToTheirGrant, TurnsCountAllButOne};
ghost use Rattle.b2_sched.specs.Marking.{TurnsMarkTheirSteps};
ghost use Rattle.b2_sched.specs.OpenFiles.{OpenFilesAreListed};
ghost use Rattle.b2_sched.specs.Parts.{PartsAreEnough, PartsOfCleanGroupsAreEnough};
ghost use Rattle.b2_sched.specs.Saving.{RunsSaveRecords, RunsSaveStorable, StepsSaveRecords, StepsSaveStorable, WorldsHoldNumbers};
ghost use Rattle.b2_sched.specs.Sound.{RunsStaySound};
ghost use Rattle.b2_sched.specs.Start.{CanStart};

/// A run is one list of actions, of which each is a key, a front, a halt, a reset or a turn.
pub fn law_a_run_is_its_actions()
    ensures { RunsByActions }
{}

/// A turn of a partition leaves the own states of all others.
pub fn law_a_turn_leaves_the_others()
    ensures { LeavesOthers }
{}

/// Whatever happens, the same partitions are present.
pub fn law_the_same_are_present()
    ensures { KeepsPresent }
{}

/// In a round each of the sixteen numbers has exactly one turn, with its own quota, in ascending order.
pub fn law_a_round_has_a_turn_of_each()
    ensures { RoundsAscend }
{}

/// Through every run each partition has the quota of its boot: its own, or the boot's where it has none.
pub fn law_quotas_stay()
    ensures { QuotasStay }
{}

/// In a round as many turns are counted as partitions are present, also of those that pass them.
pub fn law_a_round_counts_those_present()
    ensures { CountsTurns }
{}

/// A run from a boot counts no more steps than its log grants.
pub fn law_a_run_keeps_to_its_grant()
    ensures { RunsKeepToTheirGrant }
{}

/// A turn has at most one step that doesn't count; one that is passed has none.
pub fn law_a_turn_counts_all_but_one()
    ensures { TurnsCountAllButOne }
{}

/// Whatever was run, no partition keeps a place for CONTINUE while its program runs.
pub fn law_no_place_is_kept_while_a_program_runs()
    ensures { NoPlaceIsKept }
{}

/// A group of partitions is clean where none of its steps touches what a step of another wrote before. Whatever a world and that
/// of a clean group alone have in common, they have so after any log, but for what others wrote.
pub fn law_a_clean_group_relies_on_its_own()
    ensures { GroupsRelyOnTheirOwn }
{}

/// What a clean group can rely on: after any log each member has the own state, and each object that no other wrote has the
/// contents, that they have in the world booted with the group alone under the same log. What belongs to others isn't compared.
pub fn law_a_clean_group_is_as_alone()
    ensures { CleanGroupsAreAsAlone }
{}

/// The own part of a group is enough: after any log that can be run its partitions have the own states, and its terminals, its printers
/// and its platters the contents, that they have after the part of boot and log that its partitions can come to. So it is where the
/// group is alone, and for a clean group among others, but for what these wrote.
pub fn law_the_own_part_is_enough()
    ensures alone { PartsAreEnough }
    ensures clean { PartsOfCleanGroupsAreEnough }
{}

/// No turn of a partition changes the text of another.
pub fn law_a_turn_changes_its_own()
    ensures { TurnsChangeTheirOwn }
{}

/// A turn of a partition whose text nobody else wrote is over a watched store what it is over the store itself, and it leaves the
/// marks of its steps.
pub fn law_a_watched_turn_marks_its_steps()
    ensures { TurnsMarkTheirSteps }
{}

/// The marks after a run are those before it with those of its steps.
pub fn law_a_run_marks_its_steps()
    ensures { RunsMarkTheirSteps }
{}

/// Who is clean: after any log the marks of a world say so exactly of each partition none of whose steps touched what a step of
/// another wrote before.
pub fn law_the_marks_say_who_is_clean()
    ensures { MarksSayWhoIsClean }
{}

/// After any log a partition that the marks say is clean has the own state that it has in the world booted with it alone under the
/// same log.
pub fn law_who_is_clean_is_as_alone()
    ensures { CleanOnesAreAsAlone }
{}

/// A boot that passed its checks has few devices, each address once, programs whose names can stand in a line, and orders of
/// terminals with a partition each, and none twice.
pub fn law_a_boot_can_start()
    ensures { (b : BootState) → IsGood b → CanStart b }
{}

/// So has a boot with a group alone.
pub fn law_a_group_can_start_alone()
    ensures { (b : BootState) (group : ℕ → Bool) → CanStart b → CanStart (alone group b) }
{}

/// Whatever was run from a boot, each object of a device that a step touched belongs to one that the boot lists for its partition:
/// for all of them, or for this one alone.
pub fn law_a_run_touches_listed_devices()
    ensures { RunsTouchListedDevices }
{}

/// Whatever was run from a boot with sound images, each platter is sound: good, with an index of at most 255 sectors.
pub fn law_runs_stay_sound()
    ensures { RunsStaySound }
{}

/// Whatever was run from a boot with sound platters, each file that a partition has open is on a platter that the boot lists for it, with its
/// place at its first sector or after it.
pub fn law_open_files_are_listed()
    ensures { OpenFilesAreListed }
{}

/// Whatever happens, and whichever partitions take turns, from sound platters a data file keeps its records, up to a place and up to its
/// end mark, where no step of these turns asks for an access that is about the file.
pub fn law_a_file_outlasts_turns()
    ensures { FilesOutlastTurns }
{}

/// So it does on a disk that a partition holds, whatever others ask for.
pub fn law_files_on_a_held_disk_stay()
    ensures { HeldFilesStay }
{}

/// Where variables hold numbers as the machine has them, each value that a step asks to be saved is such as a record may hold; and the
/// record that it saves follows the records up to its place.
pub fn law_steps_save_records()
    ensures storable { StepsSaveStorable }
    ensures follow { StepsSaveRecords }
{}

/// Whatever was run from a boot, the variables of each partition that is present hold numbers as the machine has them, and so do all `@`
/// variables.
pub fn law_worlds_hold_numbers()
    ensures { WorldsHoldNumbers }
{}

/// So each value that any step of a run from a boot asks to be saved is such as a record may hold; and the record that it saves follows the
/// records up to its place.
pub fn law_runs_save_records()
    ensures storable { RunsSaveStorable }
    ensures follow { RunsSaveRecords }
{}

/// A device that a partition holds is held by it still, has the same image, and printed the same, after whatever others did.
pub fn law_others_leave_a_held_device()
    ensures { OthersLeaveHeld }
{}

/// Whatever a device has, all else comes out the same after whatever others did, while a partition holds the device: own states, texts,
/// terminals, other devices, marks and counts.
pub fn law_others_read_nothing_of_a_held_device()
    ensures { OthersReadNothing }
{}

/// Each step of another that asks for a held device, and doesn't free it, is answered Wait.
pub fn law_others_wait_for_a_held_device()
    ensures { OthersWait }
{}

/// Whatever happens, a device is held by the same partition until one of its own steps asks for it to be freed, and that is done.
pub fn law_a_device_is_held_until_it_is_freed()
    ensures { HeldUntilFreed }
{}

/// A step leaves the list of devices of its partition as the access that it asks for and its answer say: what was taken is added, what
/// was freed is taken out, and else it stays as it is.
pub fn law_a_step_keeps_the_list()
    ensures { StepsKeepTheList }
{}

/// Whatever was run from a boot that can start, the list of devices of each partition that is present is what it holds: it names each
/// device once, twelve at most, and none but those that the boot lists for the partition.
pub fn law_a_partition_lists_what_it_holds()
    ensures { ListsAreWhatIsHeld }
{}

/// A step of a partition that stands in the texts of others above calls that entered them, keeps no place while its program runs, has a
/// line to put only where it is ready, and is in no immediate line but its own, as every one in a world that a boot leads to, makes as
/// many of its frames enter each text as the access that it asks for and the answer say; and it stands so after the step.
pub fn law_a_step_enters_as_said()
    ensures { StepsEnterAsSaid }
{}

/// Whatever was run from a boot, each partition that is present stands inside the text of each other one as often as its open calls
/// entered that, and never inside its own; and it stands in the texts of others above calls that entered them: with its place, with
/// the place that it keeps for CONTINUE, and with those to which its loops and calls lead back.
pub fn law_who_stands_inside()
    ensures { AreInsideAsEntered }
{}

/// Whatever was run from a boot, a text in which somebody stands before a turn of its partition is the same after the turn.
pub fn law_a_text_stays_while_somebody_is_inside()
    ensures { TextsStayWhileInside }
{}
