// The stack of frames.
ghost use Rattle.std.specs.Prelude.{◌≡◌, ◌≤◌, ◌-◌, ℕ, List, [], ◌∷◌, ◌++◌, ◌<◌, Some, None, is_some, OnSome, IfNone, length, reverse, not, nat_lt, is_ok, IfOk, IfErr, OnOk, OnErr, option_copied, if◌then◌else◌};
ghost use Rattle.std.specs.Int.{bit_at};
ghost use Rattle.std.specs.Vec.{vec_capacity};
ghost use Rattle.std.specs.List.{filter, list_any, slice_get};
ghost use Rattle.b2_base.specs.declared.codes.TheConstants.{A04_TOO_DEEP, P40_NO_FOR, P41_NO_CALL};
ghost use Rattle.b2_flow.specs.declared.frame.Frame.TheVariants.{Call};
ghost use Rattle.b2_flow.specs.Frames.{is_immediate_loop, enters};
ghost use Rattle.b2_flow.specs.Stacks.{entered_last, has_room, most_frames, has_loop, from_loop, has_call, from_call, top_loop, without_top_call, without_top_loop};

use crate::frame::{Frame, Place, Var2};
use crate::search;
use b2_base::codes::{A04_TOO_DEEP, P40_NO_FOR, P41_NO_CALL};
use b2_base::{Code, NoMemory, Part};
use b2_dec::Dec;
use std::alloc::Global;
use std::marker::Model;

/// How many frames there may be.
const MOST_FRAMES: usize = 200;

/// The loops and calls that haven't ended, at most 200. Contracts see them as a list, the highest first.
#[derive(Drop)]
pub struct Stack {
    /// The lowest first.
    frames: Vec<Frame>,
}

impl Model for Stack {
    ghost use Rattle.std.specs.Prelude.{◌≤◌, List, length, reverse};
    ghost use Rattle.std.specs.Vec.{vec_capacity};
    ghost use Rattle.b2_flow.specs.declared.frame.Frame.{Frame};

    ghost Value = { List Frame };

    ghost view = { λ s. reverse s.frames.items };

    ghost invariant = { λ s. (200 ≤ vec_capacity s.frames) × (length s.frames.items ≤ 200) };
}

/// Puts a frame on top, or gives it back where 200 frames are there.
fn put_on_top(frames: &mut Vec<Frame>, f: Frame) -> Option<Frame>
    requires { most_frames ≤ vec_capacity frames.old }
    ensures put { IfNone result (frames.new.items ≡ frames.old.items ++ f ∷ []) }
    ensures room { is_some result ≡ not (nat_lt (length frames.old.items) most_frames) }
    ensures full { OnSome result (frames.new.items ≡ frames.old.items) }
    ensures capacity { vec_capacity frames.new ≡ vec_capacity frames.old }
{
    if frames.len() >= MOST_FRAMES {
        return Some(f);
    }
    frames.push_reserved(f);
    None
}

impl Stack {
    /// No frames, and the room for 200.
    pub fn new(alloc: Global) -> Result<Stack, NoMemory>
        ensures { IfOk result (λ stack. stack ≡ []) }
    {
        Ok(Stack {
            frames: Vec::with_capacity(alloc, MOST_FRAMES)?,
        })
    }

    /// Puts a frame on top. A04 comes exactly where 200 frames are there, and then all is as before.
    pub fn push(&mut self, f: Frame) -> Result<(), Code>
        ensures ok { OnOk result (self.new ≡ f ∷ self.old) }
        ensures room { is_ok result ≡ nat_lt (length self.old) most_frames }
        ensures code { IfErr result (λ code. code ≡ A04_TOO_DEEP) }
        ensures err { OnErr result (self.new ≡ self.old) }
    {
        match put_on_top(&mut self.frames, f) {
            None => Ok(()),
            Some(_) => Err(Code::known(A04_TOO_DEEP)),
        }
    }

    /// The limit, the step and the body of the loop of a variable above the nearest call; the frames above it are dropped.
    /// P40 comes exactly where there is no such loop, and then all is as before.
    pub fn loop_of(&mut self, v: Var2) -> Result<(Dec, Dec, Place), Code>
        ensures value { IfOk result (λ parts. top_loop (from_loop v self.old) ≡ Some parts) }
        ensures ok { OnOk result (self.new ≡ from_loop v self.old) }
        ensures found { is_ok result ≡ has_loop v self.old }
        ensures code { IfErr result (λ code. code ≡ P40_NO_FOR) }
        ensures err { OnErr result (self.new ≡ self.old) }
    {
        match search::highest_loop(&self.frames, v) {
            Some((height, parts)) => {
                self.frames.truncate(height);
                Ok(parts)
            }
            None => Err(Code::known(P40_NO_FOR)),
        }
    }

    /// Drops the loop on top. Where a call or nothing is on top, all stays as it is.
    pub fn end_loop(&mut self)
        ensures { self.new ≡ without_top_loop self.old }
    {
        if let Some(Frame::For { .. }) = self.frames.last() {
            self.frames.pop();
        }
    }

    /// Drops the call on top. Where a loop or nothing is on top, all stays as it is.
    #[inline(always)]
    pub fn end_call(&mut self)
        ensures { self.new ≡ without_top_call self.old }
    {
        if let Some(Frame::Call { .. }) = self.frames.last() {
            self.frames.pop();
        }
    }

    /// Takes the nearest call and the loops above it away: where the call leads back to, and the partition whose text it
    /// entered. P41 comes exactly where there is no call, and then all is as before.
    pub fn pop_call(&mut self) -> Result<(Option<Place>, Option<Part>), Code>
        ensures ok { IfOk result (λ call. from_call self.old ≡ Call call.0 call.1 ∷ self.new) }
        ensures found { is_ok result ≡ has_call self.old }
        ensures code { IfErr result (λ code. code ≡ P41_NO_CALL) }
        ensures err { OnErr result (self.new ≡ self.old) }
    {
        match search::nearest_call(&self.frames) {
            Some((height, call)) => {
                self.frames.truncate(height);
                Ok(call)
            }
            None => Err(Code::known(P41_NO_CALL)),
        }
    }

    /// The partition whose text the nearest call entered, None where it entered none or there is no call.
    #[tactic(auto, using(crate::proofs::Calls::no_call_left))]
    pub fn entered_last(&self) -> Option<Part>
        ensures { result ≡ entered_last self.now }
    {
        match search::nearest_call(&self.frames) {
            Some((_, (_, entered))) => entered,
            None => None,
        }
    }

    /// Whether there is a call.
    pub fn has_call(&self) -> bool
        ensures { result ≡ has_call self.now }
    {
        search::nearest_call(&self.frames).is_some()
    }

    /// Whether there is room for one more frame.
    pub fn has_room(&self) -> bool
        ensures { result ≡ has_room self.now }
    {
        self.frames.len() < MOST_FRAMES
    }

    /// How many frames there are, at most 200.
    pub fn len(&self) -> usize
        ensures value { result ≡ length self.now }
        ensures few { result ≤ most_frames }
    {
        self.frames.len()
    }

    /// The frame on top, None exactly where there is none.
    #[inline(always)]
    pub fn top(&self) -> Option<&Frame>
        ensures { option_copied result ≡ slice_get self.now 0 }
    {
        self.frames.last()
    }

    /// The allocator that its memory comes from.
    #[inline(always)]
    pub fn allocator(&self) -> Global {
        *self.frames.allocator()
    }

    /// The k-th frame from below, counted from 0, None exactly where at most k are there.
    pub fn frame(&self, k: usize) -> Option<Frame>
        ensures { result ≡ slice_get (reverse self.now) k }
    {
        self.frames.get(k).copied()
    }

    /// The partitions whose texts the frames entered, as marks: the bit of partition h is h - 1. A partition that a call or a
    /// loop only leads back to is not among them, and the own one is only where a call entered it.
    pub fn homes(&self) -> u16
        ensures marks { (h : ℕ) → 1 ≤ h → bit_at result (h - 1) ≡ (if list_any (enters h) self.now then 1 else 0) }
    {
        search::homes(&self.frames)
    }

    /// Drops all frames.
    pub fn clear(&mut self)
        ensures { self.new ≡ [] }
    {
        self.frames.clear();
    }

    /// Drops the loops of an immediate line. All other frames stay.
    pub fn drop_immediate(&mut self)
        ensures { self.new ≡ filter (λ frame. not (is_immediate_loop frame)) self.old }
    {
        self.frames.retain(|frame| !frame.is_immediate_loop());
    }
}
