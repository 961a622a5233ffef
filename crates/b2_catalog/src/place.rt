// Where a new name goes: the lowest free slot of the first index sector, from its hash on, that has one.
ghost use Rattle.std.specs.Prelude.{◌≡◌, ◌+◌, ◌*◌, ◌≤◌, length};
ghost use Rattle.b2_platter.specs.Image.{index_of};
ghost use Rattle.b2_catalog.specs.Ways.{lowest_free, place};

use b2_platter::{checks, image, slot};

/// The lowest free slot of an index sector.
fn lowest_free(bytes: &[u8], s: usize) -> Option<usize>
    requires { 256 * s + 256 ≤ length bytes.now }
    ensures { result ≡ lowest_free bytes.now s }
{
    for k in checks::first_slot(s)..16 * s + 16 {
        if slot::is_free(image::row(bytes, k)) {
            return Some(k);
        }
    }
    None
}

/// The slot that a new name takes, None where no slot is free.
pub fn place_for(bytes: &[u8], name: &[u8]) -> Option<usize>
    requires some { 1 ≤ index_of bytes.now }
    requires room { 256 * index_of bytes.now ≤ length bytes.now }
    requires len { length name.now ≡ 8 }
    ensures { result ≡ place bytes.now name.now }
{
    let index = image::index(bytes);
    let first = checks::hash(index, name);
    for j in 0..index {
        let here = lowest_free(bytes, (first + j) % index);
        if here.is_some() {
            return here;
        }
    }
    None
}
