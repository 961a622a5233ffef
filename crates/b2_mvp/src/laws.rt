//! What holds of every run that the main promise speaks of, of the world at its end and of each before: each law is the contract of a
//! function without a body.
ghost use Rattle.b2_mvp.specs.Laws.{FilesOutlastRuns, OpenFilesOfRunsAreListed, RunsAreSound, RunsCountFewSteps};

/// Each platter of a run is sound: good, with an index of at most 255 sectors.
pub fn law_runs_are_sound()
    ensures { RunsAreSound }
{}

/// Each file that a partition has open in a run is on a platter that the boot lists for it, with its place at its first sector or
/// after it.
pub fn law_open_files_of_runs_are_listed()
    ensures { OpenFilesOfRunsAreListed }
{}

/// A data file of a run keeps its records, up to a place and up to its end mark, where no step asks for an access that is about the
/// file.
pub fn law_files_outlast_runs()
    ensures { FilesOutlastRuns }
{}

/// A run counts at most five million steps.
pub fn law_runs_count_few_steps()
    ensures { RunsCountFewSteps }
{}
