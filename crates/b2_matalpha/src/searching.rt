// The search.
ghost use Rattle.std.specs.Prelude.{◌≡◌, ◌<◌, ◌≤◌, length};
ghost use Rattle.b2_matalpha.specs.Locators.{received};
ghost use Rattle.b2_matalpha.specs.Searches.{stands_at, found_places};

use crate::locators::put_locator;
use b2_alpha::{Rel, compare};

/// Whether as many bytes as are wanted fit from an index on and stand in the relation to them.
fn stands_at(of: &[u8], rel: Rel, want: &[u8], index: usize) -> bool
    requires { index ≤ length of.now }
    ensures { result ≡ stands_at of.now rel want.now index }
{
    let rest = &of[index..];
    want.len() <= rest.len() && rel.holds(compare(&rest[..want.len()], want))
}

/// Writes the places, counted from 1, of the bytes of `of` that stand in the relation to `want`, as locators in ascending
/// order. The places looked at are the first and each that is `step` after another, as long as enough bytes stand there.
/// Locators are written until `into` is full, and then 0000 where it fits; what is after them stays.
pub fn search(of: &[u8], rel: Rel, want: &[u8], step: usize, into: &mut [u8])
    requires some { 0 < length want.now }
    requires step { 0 < step }
    requires short { length of.now ≤ 65535 }
    ensures { into.new ≡ received (found_places of.now rel want.now step) into.old }
{
    let mut used = 0;
    let mut index = 0;
    while index < of.len() {
        if stands_at(of, rel, want, index) {
            used = put_locator(into, used, (index + 1) as u16);
        }
        index += step.min(of.len() - index);
    }
    put_locator(into, used, 0);
}
