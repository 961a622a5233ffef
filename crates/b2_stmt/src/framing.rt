// Frames that statements put on the stack.
ghost use Rattle.std.specs.Prelude.{◌≡◌};
ghost use Rattle.b2_stmt.specs.Frames.{with_frame};
ghost use Rattle.b2_access.specs.Steering.{steered};

use b2_access::{Outcome, Private};
use b2_flow::Frame;

/// Puts a frame on top, A04 where there is no room for it.
#[tactic(auto, using(crate::proofs::Framed::frame_put, crate::proofs::Framed::no_room))]
pub fn put_frame(me: &mut Private, frame: Frame, goes: Outcome) -> Outcome
    ensures ended { record { me = me.new; outcome = result } ≡ steered me.old (with_frame frame goes me.old) }
    ensures part { me.new.part ≡ me.old.part }
{
    match me.stack.push(frame) {
        Ok(()) => goes,
        Err(code) => Outcome::Failed(code),
    }
}
