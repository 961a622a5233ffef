//! What holds of the files on a store's platters: each law is the contract of a function without a body.
ghost use Rattle.b2_platter.specs.Checks.{IsGood};
ghost use Rattle.b2_access.specs.Fitting.{AnswersFit};
ghost use Rattle.b2_access.specs.Serving.{itself};
ghost use Rattle.b2_store.specs.DiskWork.{serves};
ghost use Rattle.b2_store.specs.Files.{EndedFilesAreWhole, LoadedRecordsFollow, MadeFilesAreEmpty, MovedPlacesGoOver, OtherFilesStay, OtherRecordsStay, PlattersStaySound, SavedRecordsFollow};

/// What is answered fits what was asked: a file that is opened stands on the disk that was asked for, no place is before the first
/// sector of its file, values are as many as were asked and of the asked kinds, and the bytes of a sector are 256.
pub fn law_answers_fit()
    ensures { AnswersFit itself IsGood serves }
{}

/// A record that is saved at a place follows the records up to there.
pub fn law_a_saved_record_follows()
    ensures { SavedRecordsFollow }
{}

/// An end mark at a place makes the records up to there the whole of the file.
pub fn law_an_ended_file_is_whole()
    ensures { EndedFilesAreWhole }
{}

/// Values are loaded exactly where a record stands that has them first: as many as are asked, of the asked kinds.
pub fn law_loaded_values_are_first()
    ensures { LoadedRecordsFollow }
{}

/// A place that is moved goes over the records that stand there.
pub fn law_a_moved_place_goes_over_records()
    ensures { MovedPlacesGoOver }
{}

/// A data file that is made has no records.
pub fn law_a_made_file_is_empty()
    ensures { MadeFilesAreEmpty }
{}

/// An access leaves every file that it isn't about, its entry and its sectors, whoever asks.
pub fn law_other_files_stay()
    ensures files { OtherFilesStay }
    ensures records { OtherRecordsStay }
{}

/// Each access leaves every platter sound: good, with an index of at most 255 sectors.
pub fn law_platters_stay_sound()
    ensures { PlattersStaySound }
{}
