//! What holds of programs that are saved and loaded, and of files that are moved. Each call does nothing: its contract is
//! the law.
ghost use Rattle.b2_progfile.specs.Laws.{FilesAreLoaded, FilesAreMoved, FilesAreRefusedBySize, FilesKeepTheirOrder, LiveFilesAreListed, LiveFilesHaveOneOrder, NothingElseIsMoved, PlatterIsMoved, PlatterIsRefused, ProgramIsRefused, ProgramIsSaved, ProgramsAreMoved, ProgramsAreTold, TextIsLoaded, TextIsRefused, WhatIsReadIsSpelled, WhatIsSpelledIsRead};

/// No two programs share a spelling.
pub fn programs_are_told()
    ensures { ProgramsAreTold }
{}

/// What is loaded from a program file into an empty text is its program; it is refused only where it passes the area.
pub fn files_are_loaded()
    ensures loaded { FilesAreLoaded }
    ensures refused { FilesAreRefusedBySize }
{}

/// Where all files are moved, each live one is there, with its kind, its sectors and as many used, and no other file.
pub fn files_are_moved()
    ensures each { FilesAreMoved }
    ensures others { NothingElseIsMoved }
    ensures order { FilesKeepTheirOrder }
{}

/// A program file that is moved has the same program.
pub fn programs_are_moved()
    ensures { ProgramsAreMoved }
{}

/// What is read of sectors is the program that they spell, and each program that they spell is read.
pub fn programs_are_read_back()
    ensures spelled { WhatIsReadIsSpelled }
    ensures read { WhatIsSpelledIsRead }
{}

/// What the function of a load says is a program that is loaded, or a cause for its code.
pub fn a_program_is_loaded_or_refused()
    ensures loaded { TextIsLoaded }
    ensures refused { TextIsRefused }
{}

/// What the function of saving says is a program that is saved, or the refusal's code.
pub fn a_program_is_saved_or_refused()
    ensures saved { ProgramIsSaved }
    ensures refused { ProgramIsRefused }
{}

/// The live files that are picked sector by sector are all of them, in the one order of their starts.
pub fn live_files_are_listed()
    ensures listed { LiveFilesAreListed }
    ensures one { LiveFilesHaveOneOrder }
{}

/// What the function of moving all files says is that they are moved, or a cause for its code.
pub fn a_platter_is_moved_or_refused()
    ensures moved { PlatterIsMoved }
    ensures refused { PlatterIsRefused }
{}
