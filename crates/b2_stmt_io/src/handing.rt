// $RELEASE TERMINAL: the terminal is handed on.
ghost use Rattle.std.specs.Prelude.{◌≡◌, true};
ghost use Rattle.b2_access.specs.Answering.{can_answer};
ghost use Rattle.b2_access.specs.Views.{handed_on};
ghost use Rattle.b2_stmt_io.specs.Handing.{goes_where};

use b2_access::{Access, Answer, Outcome};

/// Where a partition goes on that handed its terminal on, or waits to.
pub fn after_release(access: &Access, answer: &Answer) -> Outcome
    requires possible { can_answer access.now answer.now ≡ true }
    ensures { result ≡ goes_where (handed_on access.now answer.now) }
{
    let Access::Release { .. } = access else {
        return Outcome::Repeat;
    };
    match answer {
        Answer::Done => Outcome::Next,
        Answer::Wait(_) => Outcome::Repeat,
        _ => unreachable!(),
    }
}
