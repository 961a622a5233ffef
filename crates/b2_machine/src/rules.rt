// Which of the six rules of a step applies.
ghost use Rattle.std.specs.Prelude.{◌≡◌};
ghost use Rattle.b2_machine.specs.Due as spec;

use b2_access::Private;
use b2_flow::Place;

/// A rule of a step. The fourth has two parts: a literal is typed, or a line is read.
#[derive(Clone, Copy)]
pub enum Rule {
    /// A reset.
    Reset,
    /// A halt of a partition that runs.
    Halt,
    /// Output that is pending is shown.
    Show,
    /// A literal is typed.
    Insert,
    /// A line is read.
    Read,
    /// A numbered line is put into the text.
    Put,
    /// The statement at a place is executed.
    Execute(Place),
}

/// The statement at the place, or a line that is read.
fn due_at(place: Option<Place>) -> Rule
    ensures { result ≡ spec.due_at place }
{
    match place {
        Some(place) => Rule::Execute(place),
        None => Rule::Read,
    }
}

/// The rule that applies.
pub fn due(me: &Private) -> Rule
    ensures which { result ≡ spec.due me.now }
    ensures there { spec.HasDue result me.now }
{
    if me.reset {
        return Rule::Reset;
    }
    if me.halt && me.place.is_some() {
        return Rule::Halt;
    }
    if me.pending.is_some() {
        return Rule::Show;
    }
    if me.literal.is_some() {
        return Rule::Insert;
    }
    if me.numbered.is_some() {
        return Rule::Put;
    }
    due_at(me.place)
}
