//! What holds of a partition itself, of statements by their form, and of serving: each law is the contract of a function without a body.
ghost use Rattle.std.specs.Prelude.{ℕ, List, Option};
ghost use Rattle.b2_access.specs.Partition.{at_start, KeepsNone};
ghost use Rattle.b2_access.specs.Answering.{AnswersByRow, RowsTellTheirAnswers};
ghost use Rattle.b2_access.specs.AskedAgain.{OnlyDelaysAreAskedAgain};
ghost use Rattle.b2_access.specs.Causes.{WaitsForTheFirst, LocksForTheFirst, MissesNobodyElse, RefusesWithTheCode};
ghost use Rattle.b2_access.specs.Disks.{DiskWork};
ghost use Rattle.b2_access.specs.Entering.{AccessesEnterAsSaid};
ghost use Rattle.b2_access.specs.Holding.{ChangesDeviceOrName, HeldIsOutOfReach, HeldStaysAsItIs, OtherHoldersStay, OtherImagesStay, WhoAsksWaits};
ghost use Rattle.b2_access.specs.Leading.{AnswersLeadToHolders, AnswersLeadToWhoIsPresent, HoldersStayPresent, NamesLeadToWhoAsks};
ghost use Rattle.b2_access.specs.Loans.{LoansEndWell};
ghost use Rattle.b2_access.specs.Serving.{StopsUnchanged, serves, itself};
ghost use Rattle.b2_access.specs.Sharing.{IsLocal, KeepsListed};
ghost use Rattle.b2_access.specs.Steering.{SteeringIsPutBack};
ghost use Rattle.b2_access.specs.Touching.{MayWantMemory};
ghost use Rattle.b2_access.specs.Working.{FinishesArePutBack, PlansArePutBack};

use crate::accesses::Access;
use crate::shared::Shared;

/// A partition that starts keeps no place. While program text runs none is kept: that is what statements have to leave so.
pub fn law_a_start_keeps_none()
    ensures { (p t area : ℕ) (line disk : Option (List ℕ)) → KeepsNone (at_start p t area line disk) }
{}

/// A statement that changes no frame and no place that is kept, whatever it plans, leaves the partition in its place and at its
/// terminal, keeps no place, and has changed nothing where it asks for an access; it names no other partition where it leads to
/// none. The files that are open stay so, and the devices that are held; and the `@` variables, where no receiver among them was
/// reached.
pub fn law_plans_are_put_back()
    ensures { PlansArePutBack }
{}

/// And so does one that finishes; it changes nothing where its work stays as it was. One on data files leaves the devices that are held,
/// one that takes or frees devices the files that are open, and every other both.
pub fn law_finishes_are_put_back()
    ensures { FinishesArePutBack }
{}

/// A statement of control changes frames and the place that is kept as it finishes, and for the rest leaves what the others do, and the
/// devices that are held.
pub fn law_control_is_put_back()
    ensures { SteeringIsPutBack }
{}

/// What an access is answered and writes depends on what it touches alone, and all else stays.
pub fn law_serving_is_local()
    ensures { (disks : DiskWork) → IsLocal itself (serves disks) }
{}

/// What is listed stays so.
pub fn law_what_is_listed_stays_so()
    ensures { (disks : DiskWork) → KeepsListed itself (serves disks) }
{}

/// An access that is answered Wait, Locked or Refused leaves the store as it was.
pub fn law_what_stops_an_access_changes_nothing()
    ensures { StopsUnchanged }
{}

/// Wait is answered exactly where another partition comes first: the one in front of the terminal that an access reaches, and then
/// those who hold the devices. It names the first that is another.
pub fn law_wait_is_for_the_first()
    ensures { WaitsForTheFirst }
{}

/// Locked is answered exactly where nobody comes first, and an edit meets a partition inside the text; it names the first of them.
pub fn law_locked_is_for_the_first_inside()
    ensures { LocksForTheFirst }
{}

/// A code is answered exactly where nobody comes first or stands inside the text that is edited, and the access meets the code: A01,
/// where a text has no room for the line that is put, or the code of what is made of an image or looked for in it, of a text and an image, or of two images.
pub fn law_a_code_is_met()
    ensures { RefusesWithTheCode }
{}

/// That nobody is there is answered exactly where an access looks for who holds a name, or enters the text of who does, and nobody does.
pub fn law_no_part_is_for_a_name_of_nobody()
    ensures { MissesNobodyElse }
{}

/// Who stands inside a text, and how often, changes for the partition that asks alone: it is there once more where it has entered, once
/// less where it has left, and no more where it has given the text back; all else leaves that as it is.
pub fn law_accesses_enter_as_said()
    ensures { AccessesEnterAsSaid }
{}

/// An answer that leads to a partition leads to who holds a name that its access touches; so, where names are held by partitions that
/// are present, to one that is.
pub fn law_answers_lead_to_holders()
    ensures leads { AnswersLeadToHolders }
    ensures present { AnswersLeadToWhoIsPresent }
{}

/// A name leads after an access to whom it led before, or to the one that asked; so names are still held by partitions that are present.
pub fn law_names_lead_to_who_asks()
    ensures leads { NamesLeadToWhoAsks }
    ensures present { HoldersStayPresent }
{}

/// What belongs to a device stays as it is through every access of a partition, while another one holds the device.
pub fn law_a_held_device_stays_as_it_is()
    ensures { HeldStaysAsItIs }
{}

/// While another holds a device, an access that reaches its platter or its printer, or is to take it, is answered Wait.
pub fn law_who_asks_for_a_held_device_waits()
    ensures { WhoAsksWaits }
{}

/// Whatever a device has, an access of a partition is answered alike and leaves all else alike, while another one holds the device.
pub fn law_a_held_device_is_out_of_reach()
    ensures { HeldIsOutOfReach }
{}

/// Who holds a device stays so through every access, but through one by which it is taken or freed.
pub fn law_other_holders_stay_as_they_are()
    ensures { OtherHoldersStay }
{}

/// An access that scratches a file, formats a disk, makes a data file, saves a record or a program or writes an end mark on one, or moves
/// files to one leaves every other image as it is, and all other accesses leave every image.
pub fn law_other_images_stay_as_they_are()
    ensures { OtherImagesStay }
{}

/// Each row tells the answers that it says.
pub fn law_rows_tell_their_answers()
    ensures { RowsTellTheirAnswers }
{}

/// Every answer is one that may stop its access, or that its row tells.
pub fn law_answers_are_of_their_rows()
    ensures { (disks : DiskWork) → AnswersByRow (serves disks) }
{}

/// What is answered by a store of any kind is seen by who asked for it as what came of the access, but an answer by which a step is repeated:
/// another has to be waited for, or no key is there.
pub fn law_only_what_delays_is_asked_for_again<S: Shared>()
    ensures { OnlyDelaysAreAskedAgain S.serving }
{}

/// To find who holds a name is an access for which no store wants memory: neither a plain one, nor one whose devices and names are watched.
pub fn law_finding_a_name_wants_no_memory()
    ensures plain { (name : List ℕ) → MayWantMemory (Access.FindPart name) → ⊥ }
    ensures watched { (name : List ℕ) → ChangesDeviceOrName (Access.FindPart name) → ⊥ }
{}

/// A loan by a store of any kind ends well. Where no `@` variables are found, all stays as it was, whatever becomes of the spare; where some
/// are, they are what the loan left, lent again they are that, and nothing else changes.
pub fn law_a_loan_ends_well<S: Shared>()
    ensures { LoansEndWell S.store S.lending }
{}
