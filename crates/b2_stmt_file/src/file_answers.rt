// What comes of an access that opens a file or moves the place in one.
ghost use Rattle.std.specs.Prelude.{◌≡◌, ◌≤◌, true};
ghost use Rattle.b2_access.specs.Answering.{can_answer};
ghost use Rattle.b2_access.specs.Views.{loading_came, opening_came, place_came};
ghost use Rattle.b2_stmt_file.specs.FileAnswers as spec;

use b2_access::{Access, Answer, Outcome};
use b2_base::{Code, Slot};
use b2_dec::Value;

/// What came of an access that opens a file or moves the place in one.
#[derive(Clone, Copy)]
pub enum Came {
    /// The file, with its place.
    File(Slot),
    /// The records of the file end at its place.
    Ended,
    /// It was refused with a code.
    Refused(Code),
    /// It is to be asked for again.
    Later,
}

/// What came of opening a file.
pub fn came_of_opening(access: &Access, answer: &Answer) -> Came
    requires possible { can_answer access.now answer.now ≡ true }
    ensures { result ≡ spec.by_opening (opening_came access.now answer.now) }
{
    match access {
        Access::DataNew { .. } | Access::DataOpen { .. } => match answer {
            Answer::Opened(slot) => Came::File(*slot),
            Answer::Refused(code) => Came::Refused(*code),
            Answer::Wait(_) => Came::Later,
            _ => unreachable!(),
        },
        _ => Came::Later,
    }
}

/// The file with another place.
fn moved(slot: &Slot, answer: &Answer) -> Came
    ensures { result ≡ spec.moved_by slot.now answer.now }
{
    match answer {
        Answer::Moved(pos) => Came::File(Slot { pos: *pos, ..*slot }),
        Answer::Refused(code) => Came::Refused(*code),
        _ => Came::Later,
    }
}

/// What came of an access that moves the place in a file.
pub fn came_of_moving(access: &Access, answer: &Answer) -> Came
    requires possible { can_answer access.now answer.now ≡ true }
    ensures { result ≡ spec.by_place (place_came access.now answer.now) }
{
    match access {
        Access::DataSave { slot, .. } | Access::DataEnd { slot } | Access::Skip { slot, .. } => {
            moved(slot, answer)
        }
        _ => Came::Later,
    }
}

/// What came of loading values.
pub fn came_of_loading(access: &Access, answer: &Answer) -> Came
    requires possible { can_answer access.now answer.now ≡ true }
    ensures { result ≡ spec.by_loading (loading_came access.now answer.now) }
{
    match access {
        Access::DataLoad { slot, .. } => match answer {
            Answer::Values(_, pos) => Came::File(Slot { pos: *pos, ..*slot }),
            Answer::AtEnd => Came::Ended,
            Answer::Refused(code) => Came::Refused(*code),
            Answer::Wait(_) => Came::Later,
            _ => unreachable!(),
        },
        _ => Came::Later,
    }
}

/// The values that were loaded, none where none came.
pub fn values_loaded<'a>(access: &Access, answer: &'a Answer) -> &'a [Value]
    ensures { result.now ≡ spec.values_in (loading_came access.now answer.now) }
{
    match access {
        Access::DataLoad { .. } => match answer {
            Answer::Values(values, _) => values.values(),
            _ => &[],
        },
        _ => &[],
    }
}

/// Whether the records ended where the last load was to be.
pub fn end_after(came: &Came, at_end: bool) -> bool
    ensures { result ≡ spec.end_after came.now at_end }
{
    match came {
        Came::File(_) => false,
        Came::Ended => true,
        _ => at_end,
    }
}

/// The slot of a statement holds the file that came.
pub fn keep_file(slots: &mut [Option<Slot>; 16], n: u8, came: &Came)
    requires small { n ≤ 15 }
    ensures { slots.new ≡ spec.slots_after n came.now slots.old }
{
    if let Came::File(slot) = came {
        slots[usize::from(n)] = Some(*slot);
    }
}

/// How a statement ends by what came.
pub fn outcome_of(came: &Came) -> Outcome
    ensures { result ≡ spec.outcome_of came.now }
{
    match came {
        Came::File(_) | Came::Ended => Outcome::Next,
        Came::Refused(code) => Outcome::Failed(*code),
        Came::Later => Outcome::Repeat,
    }
}
