// How a statement ends.
use crate::accesses::Access;
use b2_base::Code;
use b2_flow::Place;

/// How a statement ends.
#[derive(Clone, Copy)]
pub enum Outcome {
    /// The place moves on to the next unit.
    Next,
    /// The place is this one.
    Jump(Place),
    /// A fault with a code: the error of that code, unless an ERROR takes it.
    Failed(Code),
    /// The place stays.
    Repeat,
    /// The place moves on to the next unit, and the turn ends.
    Break,
    /// The partition is ready.
    Ready,
}

/// What a statement plans.
#[derive(Drop)]
pub enum Planned {
    /// It has ended.
    Done(Outcome),
    /// It asks for an access, and finishes by its answer.
    Ask(Access),
}
