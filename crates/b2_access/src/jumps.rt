// Where a step goes on, by the lines of the home.
ghost use Rattle.std.specs.Prelude.{◌≡◌, ◌+◌, ◌<◌, ◌≤◌, IfOk, true, get_or, if◌then◌else◌};
ghost use Rattle.b2_atom.specs.Grammar.{starts};
ghost use Rattle.b2_atom.specs.declared.forms.Leaf.TheVariants as leaf;
ghost use Rattle.b2_atom.specs.declared.forms.Start.TheVariants as start;
ghost use Rattle.b2_atom.specs.declared.words.Origin.TheVariants.{Atoms};
ghost use Rattle.b2_rows.specs.Leaves.{is_leaf};
ghost use Rattle.b2_rows.specs.Values.{line_of};
ghost use Rattle.b2_access.specs.Places.{IsUnit};
ghost use Rattle.b2_access.specs.Jumps as spec;

use crate::places::goal_place;
use crate::planned::Outcome;
use b2_base::Code;
use b2_base::codes::P36_NO_LINE;
use b2_flow::Place;
use b2_rows::{Goal, is_line_at, line_at};
use b2_text::Text;

/// A fault with a code.
pub fn failed(code: u8) -> Outcome
    requires low { 1 ≤ code }
    requires high { code ≤ 99 }
    ensures { result ≡ Outcome.Failed code }
{
    Outcome::Failed(Code::known(code))
}

/// To the first unit of a line, P36 where it isn't there.
pub fn to_line(home: &Text, place: Place, n: u16) -> Outcome
    ensures { result ≡ spec.to_line home.now.lines place n }
{
    if home.line(n).is_none() {
        return failed(P36_NO_LINE);
    }
    Outcome::Jump(Place {
        home: place.home,
        line: Some(n),
        unit: 0,
    })
}

/// To a place; where there is none, the program or the immediate line ends.
pub fn to_place(place: Option<Place>) -> Outcome
    ensures { result ≡ spec.to_place place }
{
    match place {
        Some(place) => Outcome::Jump(place),
        None => Outcome::Ready,
    }
}

/// To a goal on the line of a place.
pub fn to_goal(home: &Text, place: Place, goal: Goal) -> Outcome
    requires unit { IsUnit goal }
    ensures { result ≡ spec.to_goal home.now.lines place goal }
{
    match goal {
        Goal::Line(n) => to_line(home, place, n),
        Goal::Unit(_) => to_place(goal_place(home, place, goal)),
        Goal::NextLine => to_place(goal_place(home, place, goal)),
    }
}

/// To a goal, or a code.
pub fn to_found(home: &Text, place: Place, found: Result<Goal, Code>) -> Outcome
    requires unit { IfOk found IsUnit }
    ensures { result ≡ spec.to_found home.now.lines place found }
{
    match found {
        Ok(goal) => to_goal(home, place, goal),
        Err(code) => Outcome::Failed(code),
    }
}

/// The line that is named at a text, or the unit after the k-th.
pub fn named_at(text: &[u8], k: usize) -> Goal
    requires line { starts Atoms start.Line text.now ≡ true → is_leaf leaf.LineNumber text.now ≡ true }
    requires few { k < 255 }
    ensures goal { result ≡ (if starts Atoms start.Line text.now then Goal.Line (line_of (get_or text.now 1 0) (get_or text.now 2 0)) else Goal.Unit (k + 1)) }
    ensures unit { IsUnit result }
{
    if is_line_at(text) {
        Goal::Line(line_at(text))
    } else {
        Goal::Unit(k + 1)
    }
}
