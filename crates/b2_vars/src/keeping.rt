// Keeping the entries of common variables in a block, in one pass.
ghost use Rattle.std.specs.Prelude.{◌≡◌, ◌≤◌, ◌<◌, length, IfOk};
ghost use Rattle.b2_vars.specs.Tables.{Entries};
ghost use Rattle.b2_vars.specs.Block.{IsLaid, IsKept, common_entries};

use crate::entry::{common_at, name_at, number_of, shape_at};
use crate::shape::cost;
use crate::writing::{close_up, set_place};

/// Looks at the entry at a place: that of a common variable is moved down to another place, and that of another variable
/// goes. Gives the place after the entry, and the one after all that are kept.
fn keep_next(
    bytes: &mut Vec<u8>,
    places: &mut Vec<u32>,
    from: usize,
    to: usize,
    used: usize,
) -> (usize, usize)
    requires kept { (es : Entries) × IsKept bytes.old.items from to used places.old.items es }
    requires more { from < used }
    ensures kept { (es : Entries) → IsKept bytes.old.items from to used places.old.items es → IsKept bytes.new.items result.0 result.1 used places.new.items es }
    ensures further { from < result.0 }
    ensures within { result.0 ≤ used }
    ensures size { length bytes.new.items ≡ length bytes.old.items }
{
    let v = name_at(bytes, from);
    let size = cost(v, shape_at(v, bytes, from));
    if common_at(bytes, from) {
        set_place(places, number_of(v), to + 1);
        close_up(bytes, from, from + size, to);
        (from + size, to + size)
    } else {
        set_place(places, number_of(v), 0);
        (from + size, to)
    }
}

/// Moves the entries of common variables to the front, with their places, and drops those of the others. Gives how many
/// bytes are left in use.
pub fn keep_common(bytes: &mut Vec<u8>, places: &mut Vec<u32>, used: usize) -> usize
    requires { (es : Entries) × IsLaid bytes.old.items used places.old.items es }
    ensures laid { (es : Entries) → IsLaid bytes.old.items used places.old.items es → IsLaid bytes.new.items result places.new.items (common_entries es) }
    ensures size { length bytes.new.items ≡ length bytes.old.items }
{
    let mut from = 0;
    let mut to = 0;
    while from < used {
        let next = keep_next(bytes, places, from, to, used);
        from = next.0;
        to = next.1;
    }
    to
}
