// Moves and copies.
ghost use Rattle.std.specs.Prelude.{◌≡◌, ◌<◌, ◌≤◌, ◌+◌, ◌++◌, length, take, drop};
ghost use Rattle.b2_alpha.specs.Values.{padded};
ghost use Rattle.b2_matalpha.specs.Moves.{wanted_places, after_move, move_answer};

use crate::elements::element_at;
use crate::locators::locator;
use b2_alpha::assign;
use b2_base::Code;
use b2_base::codes::X76_LOCATOR_OR_FIELD;

/// Assigns bytes to the element of a length that begins at an index. All else stays.
fn assign_at(to: &mut [u8], at: usize, len: usize, from: &[u8])
    requires { at + len ≤ length to.old }
    ensures { to.new ≡ take at to.old ++ (padded len from.now ++ drop (at + len) to.old) }
{
    assign(&mut to[at..at + len], from);
}

/// Assigns the elements of `of` that the locators name to the elements of `to`, one after another, each padded or cut to
/// the length of those, and answers how many. It ends at the locator 0000, at the end of the locators or at that of `to`,
/// whichever comes first. X76 comes exactly where a locator before that end is past the array; the elements before it
/// stay assigned. What is after the last element that was assigned stays.
pub fn move_by(
    of: &[u8],
    len: usize,
    locators: &[u8],
    to: &mut [u8],
    to_len: usize,
) -> Result<usize, Code>
    requires len { 0 < len }
    requires to_len { 0 < to_len }
    requires short { length of.now ≤ 65535 }
    ensures answer { result ≡ move_answer of.now len (wanted_places locators.now to_len to.old) }
    ensures moved { to.new ≡ after_move of.now len (wanted_places locators.now to_len to.old) to_len to.old }
{
    let count = of.len() / len;
    let most = (locators.len() / 2).min(to.len() / to_len);
    for moved in 0..most {
        let place = locator(locators[2 * moved], locators[2 * moved + 1]);
        if place == 0 {
            return Ok(moved);
        }
        if place > count {
            return Err(Code::known(X76_LOCATOR_OR_FIELD));
        }
        assign_at(to, moved * to_len, to_len, element_at(of, len, place));
    }
    Ok(most)
}

/// Assigns all bytes of an array to those of another, as one value: padded with blanks, or cut.
pub fn copy(of: &[u8], to: &mut [u8])
    ensures { to.new ≡ padded (length to.old) of.now }
{
    assign(to, of);
}
