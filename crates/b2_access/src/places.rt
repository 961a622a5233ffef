// The place to which a goal on a line leads.
ghost use Rattle.std.specs.Prelude.{◌≡◌, ◌<◌, ◌+◌};
ghost use Rattle.b2_rows.specs.Following.{unit_or_next, tree_units};
ghost use Rattle.b2_access.specs.Places as spec;

use b2_atom::LentAtoms;
use b2_flow::Place;
use b2_rows::{Goal, next_unit};
use b2_text::Text;

/// The place to which a goal leads from a place, where the text is its home's; none where the line that is wanted is not
/// there, as at the end of the text and of an immediate line.
pub fn goal_place(home: &Text, place: Place, goal: Goal) -> Option<Place>
    requires unit { spec.IsUnit goal }
    ensures place { result ≡ spec.goal_place home.now.lines place goal }
{
    match goal {
        Goal::Unit(k) => Some(Place {
            unit: k as u8,
            ..place
        }),
        Goal::Line(n) => Some(Place {
            home: place.home,
            line: Some(n),
            unit: 0,
        }),
        Goal::NextLine => line_after(home, place),
    }
}

/// The first unit of the line after a place.
fn line_after(home: &Text, place: Place) -> Option<Place>
    ensures place { result ≡ spec.line_after home.now.lines place }
{
    let line = place.line?;
    let next = home.next_after(Some(line))?;
    Some(Place {
        home: place.home,
        line: Some(next),
        unit: 0,
    })
}

/// The place after a unit of a line where nothing else is said: the next unit, else the next line of the text, which is its
/// home's; none at the end of the text and of an immediate line.
pub fn place_after(home: &Text, line: &LentAtoms<'_>, place: Place) -> Option<Place>
    requires { place.unit < 255 }
    ensures place { result ≡ spec.goal_place home.now.lines place (unit_or_next (place.unit + 1) (tree_units line.now)) }
{
    goal_place(home, place, next_unit(line, usize::from(place.unit)))
}
