// What statements on disks ask for, and how a change of a disk ends.
ghost use Rattle.std.specs.Prelude.{◌≡◌, true};
ghost use Rattle.b2_access.specs.Answering.{can_answer};
ghost use Rattle.b2_access.specs.Views.{change_came};
ghost use Rattle.b2_drive.specs.Asking as spec;

use b2_access::{Access, Answer, Outcome, Planned};
use b2_base::Code;

/// An access is asked for, or it is a fault.
pub fn asks_or_fails(asked: Result<Access, Code>) -> Planned
    ensures { result ≡ spec.asks_or_fails asked }
{
    match asked {
        Ok(access) => Planned::Ask(access),
        Err(code) => Planned::Done(Outcome::Failed(code)),
    }
}

/// How a statement ends that changes a disk, by the access that it asked for and its answer, which is one that the access can have.
pub fn after_change(access: &Access, answer: &Answer) -> Outcome
    requires possible { can_answer access.now answer.now ≡ true }
    ensures { result ≡ spec.change_ends (change_came access.now answer.now) }
{
    match access {
        Access::Scratch { .. }
        | Access::Format { .. }
        | Access::SaveProgram { .. }
        | Access::MovePlatter { .. }
        | Access::MoveFile { .. } => match answer {
            Answer::Done => Outcome::Next,
            Answer::Refused(code) => Outcome::Failed(*code),
            Answer::Wait(_) => Outcome::Repeat,
            _ => unreachable!(),
        },
        _ => Outcome::Repeat,
    }
}
