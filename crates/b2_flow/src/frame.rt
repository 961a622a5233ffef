// What stands on the stack: loops and calls, and the places that they lead to.
ghost use Rattle.std.specs.Prelude.{◌≡◌, ◌≤◌, ◌-◌, ℕ, if◌then◌else◌};
ghost use Rattle.std.specs.Int.{bit_at};
ghost use Rattle.b2_flow.specs.Frames.{is_loop_of, is_immediate_loop, is_entered, enters};

use b2_base::Part;
use b2_dec::Dec;

/// A unit of a text: that of a line of the home's program, or of the immediate line where there is no line number.
#[derive(Clone, Copy)]
pub struct Place {
    pub home: Part,
    pub line: Option<u16>,
    pub unit: u8,
}

/// The numeric scalar that a loop counts: a letter, and a digit where there is one.
#[derive(Clone, Copy, PartialEq, Eq)]
pub struct Var2 {
    pub letter: u8,
    pub digit: Option<u8>,
}

/// A loop or a call that hasn't ended.
#[derive(Clone, Copy)]
pub enum Frame {
    /// A loop: its variable, the last value, what NEXT adds, and the unit after its FOR.
    For {
        var: Var2,
        limit: Dec,
        step: Dec,
        body: Place,
    },
    /// A call: the unit that RETURN leads to, and the partition whose text it entered. Where there is no unit, RETURN ends
    /// in the ready state.
    Call {
        back: Option<Place>,
        entered: Option<Part>,
    },
}

impl Frame {
    /// Whether the frame is a loop of a variable.
    pub(crate) fn is_loop_of(self, v: Var2) -> bool
        ensures { result ≡ is_loop_of v self }
    {
        match self {
            Frame::For { var, .. } => var == v,
            Frame::Call { .. } => false,
        }
    }

    /// Whether the frame is a loop of an immediate line.
    pub(crate) fn is_immediate_loop(self) -> bool
        ensures { result ≡ is_immediate_loop self }
    {
        match self {
            Frame::For { body, .. } => body.line.is_none(),
            Frame::Call { .. } => false,
        }
    }

    /// The partition whose text the frame entered, as a mark.
    pub(crate) fn entered(self) -> u16
        ensures { (h : ℕ) → 1 ≤ h → bit_at result (h - 1) ≡ (if enters h self then 1 else 0) }
    {
        match self {
            Frame::For { .. } => 0,
            Frame::Call { entered, .. } => entered_mark(entered),
        }
    }
}

/// The bit of the partition whose text a call entered.
fn entered_mark(entered: Option<Part>) -> u16
    ensures { (h : ℕ) → 1 ≤ h → bit_at result (h - 1) ≡ (if is_entered h entered then 1 else 0) }
{
    match entered {
        Some(part) => part.bit(),
        None => 0,
    }
}
