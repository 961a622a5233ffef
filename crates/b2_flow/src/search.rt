// What is looked for among frames, which stand here with the lowest first.
ghost use Rattle.std.specs.Prelude.{◌≡◌, ◌≤◌, ◌-◌, ℕ, ◌∷◌, Some, reverse, take, is_some, IfSome, if◌then◌else◌};
ghost use Rattle.std.specs.Int.{bit_at};
ghost use Rattle.std.specs.List.{list_any};
ghost use Rattle.b2_flow.specs.declared.frame.Frame.TheVariants.{Call};
ghost use Rattle.b2_flow.specs.Frames.{enters};
ghost use Rattle.b2_flow.specs.Stacks.{has_loop, from_loop, has_call, from_call, top_loop};

use crate::frame::{Frame, Place, Var2};
use b2_base::Part;
use b2_dec::Dec;

/// The highest loop of a variable above the nearest call: how many frames stand up to it, with itself, and its limit, its
/// step and its body.
pub(crate) fn highest_loop(frames: &[Frame], v: Var2) -> Option<(usize, (Dec, Dec, Place))>
    ensures found { is_some result ≡ has_loop v (reverse frames.now) }
    ensures kept { IfSome result (λ r. reverse (take r.0 frames.now) ≡ from_loop v (reverse frames.now)) }
    ensures parts { IfSome result (λ r. top_loop (from_loop v (reverse frames.now)) ≡ Some r.1) }
{
    let mut rest = frames;
    while let Some((frame, below)) = rest.split_last() {
        match *frame {
            Frame::Call { .. } => return None,
            Frame::For {
                var,
                limit,
                step,
                body,
            } => {
                if var == v {
                    return Some((rest.len(), (limit, step, body)));
                }
            }
        }
        rest = below;
    }
    None
}

/// The nearest call: how many frames stand below it, where it leads back to, and the partition whose text it entered.
pub(crate) fn nearest_call(frames: &[Frame]) -> Option<(usize, (Option<Place>, Option<Part>))>
    ensures found { is_some result ≡ has_call (reverse frames.now) }
    ensures call { IfSome result (λ r. from_call (reverse frames.now) ≡ Call r.1.0 r.1.1 ∷ reverse (take r.0 frames.now)) }
{
    let mut rest = frames;
    while let Some((frame, below)) = rest.split_last() {
        if let Frame::Call { back, entered } = *frame {
            return Some((below.len(), (back, entered)));
        }
        rest = below;
    }
    None
}

/// The partitions whose texts frames entered, as marks.
pub(crate) fn homes(frames: &[Frame]) -> u16
    ensures { (h : ℕ) → 1 ≤ h → bit_at result (h - 1) ≡ (if list_any (enters h) frames.now then 1 else 0) }
{
    let mut marks = 0;
    for frame in frames {
        marks |= frame.entered();
    }
    marks
}
