//! What holds of every log and boot: each law is the contract of a function without a body.
ghost use Rattle.b2_boot.specs.Drills.{DrillsAreGood, DrillsAreOfTheirBoot, DrillsGrantFew};
ghost use Rattle.b2_boot.specs.Laws.{AloneGrantsNoMore, BootsOfFilesAreGood, LogsAreOfTheirBoot, LogsKeepToTheBound, PartsHaveEachRound, PartsHaveNoLess, PartsHaveNoMore};

/// The boot of a file that passes its checks is good.
pub fn law_a_boot_of_a_file_is_good()
    ensures { BootsOfFilesAreGood }
{}

/// A log that passes its checks grants at most five million steps in all.
pub fn law_a_log_keeps_to_the_bound()
    ensures { LogsKeepToTheBound }
{}

/// Each event of a log that passes its checks is of the boot.
pub fn law_a_log_is_of_its_boot()
    ensures { LogsAreOfTheirBoot }
{}

/// To a group alone the same events grant no more.
pub fn law_a_group_alone_is_granted_no_more()
    ensures { AloneGrantsNoMore }
{}

/// The own part of a group has nothing of others: its boot has members, terminals at which one of them stands, and devices that one of
/// them may use, and its log events at these terminals and of these members, without rounds. A boot and a log of which all is so are
/// their own part. In place of rounds each member that is there has as many turns, with the quota that a round gives it.
pub fn law_a_part_is_what_is_own()
    ensures no_more { PartsHaveNoMore }
    ensures no_less { PartsHaveNoLess }
    ensures rounds { PartsHaveEachRound }
{}

/// The boot of each drill is good.
pub fn law_a_drill_has_a_good_boot()
    ensures { DrillsAreGood }
{}

/// Each event of a drill is of its boot.
pub fn law_a_drill_is_of_its_boot()
    ensures { DrillsAreOfTheirBoot }
{}

/// A drill grants 820 steps for each of its number and 1,600 more at the most, so that it keeps to the bound of logs.
pub fn law_a_drill_grants_few_steps()
    ensures { DrillsGrantFew }
{}
