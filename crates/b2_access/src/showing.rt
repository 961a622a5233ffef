// What becomes of a partition once something was shown or printed.
ghost use Rattle.std.specs.Prelude.{◌≡◌, true};
ghost use Rattle.b2_access.specs.Answering.{can_answer};
ghost use Rattle.b2_access.specs.Showing as spec;
ghost use Rattle.b2_access.specs.Working.{ended};

use crate::accesses::{Access, Answer};
use crate::planned::Outcome;
use crate::private::Private;

/// How a statement that shows something at the terminal finishes, as LIST.
pub fn after_show(me: &mut Private, access: &Access, answer: &Answer) -> Outcome
    requires possible { can_answer access.now answer.now ≡ true }
    ensures ended { record { me = me.new; outcome = result } ≡ ended me.old (spec.shown access.now answer.now me.old) }
    ensures part { me.new.part ≡ me.old.part }
{
    let Access::Show { column, .. } = access else {
        return Outcome::Repeat;
    };
    match answer {
        Answer::Done => {
            me.term_column = *column;
            Outcome::Next
        }
        Answer::Wait(_) => Outcome::Repeat,
        _ => unreachable!(),
    }
}

/// How a statement that shows something at the terminal or at a printer finishes, as PRINT and PRINTUSING.
pub fn after_show_or_print(me: &mut Private, access: &Access, answer: &Answer) -> Outcome
    requires possible { can_answer access.now answer.now ≡ true }
    ensures ended { record { me = me.new; outcome = result } ≡ ended me.old (spec.shown_or_printed access.now answer.now me.old) }
    ensures part { me.new.part ≡ me.old.part }
{
    let Access::PrintTo { column, .. } = access else {
        return after_show(me, access, answer);
    };
    match answer {
        Answer::Done => {
            me.print_column = *column;
            Outcome::Next
        }
        Answer::Wait(_) => Outcome::Repeat,
        _ => unreachable!(),
    }
}
