// Where a partition goes on after a unit.
ghost use Rattle.std.specs.Prelude.{◌≡◌, ◌+◌};
ghost use Rattle.b2_access.specs.Places.{goal_place as place_of_goal};
ghost use Rattle.b2_rows.specs.Following.{tree_units, unit_or_next};
ghost use Rattle.b2_language.specs.Following as spec;

use b2_access::{Private, goal_place, place_after};
use b2_atom::LentAtoms;
use b2_flow::Place;
use b2_rows::{Goal, spells_a_line};
use b2_text::Text;

/// The place after a unit of a line, where nothing else is said.
#[tactic(auto, using(crate::proofs::LastUnits::none_after))]
pub fn place_on(home: &Text, line: &LentAtoms<'_>, place: Place) -> Option<Place>
    ensures { result ≡ place_of_goal home.now.lines place (unit_or_next (place.unit + 1) (tree_units line.now)) }
{
    spells_a_line(line);
    line.units();
    if place.unit == u8::MAX {
        return goal_place(home, place, Goal::NextLine);
    }
    place_after(home, line, place)
}

/// It stands at another place, where no prompt was shown yet.
pub fn move_to(me: &mut Private, place: Place)
    ensures changed { me.new ≡ spec.moves_to place me.old }
    ensures part { me.new.part ≡ me.old.part }
{
    me.place = Some(place);
    me.prompted = false;
}
