// The elements of an array.
ghost use Rattle.std.specs.Prelude.{◌≡◌};
ghost use Rattle.b2_matalpha.specs.Elements.{element_at};

/// The element at a place, counted from 1: `len` bytes, and fewer or none past the end of the array.
pub(crate) fn element_at(of: &[u8], len: usize, place: usize) -> &[u8]
    ensures { result.now ≡ element_at len of.now place }
{
    let start = place.saturating_sub(1).saturating_mul(len).min(of.len());
    let end = start.saturating_add(len).min(of.len());
    &of[start..end]
}
