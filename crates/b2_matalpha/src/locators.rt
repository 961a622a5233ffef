// Locators of two bytes.
ghost use Rattle.std.specs.Prelude.{◌≡◌, ◌+◌, ◌*◌, ◌<◌, ◌≤◌, ◌++◌, length, take, drop, nat_le, if◌then◌else◌};
ghost use Rattle.b2_matalpha.specs.Locators.{with_locator};

/// Writes a locator at an index where two bytes are left, and answers the index after what was written. Where fewer are
/// left nothing is written.
pub(crate) fn put_locator(into: &mut [u8], at: usize, place: u16) -> usize
    requires { at ≤ length into.old }
    ensures after { into.new ≡ take at into.old ++ with_locator place (drop at into.old) }
    ensures next { result ≡ (if nat_le (at + 2) (length into.old) then at + 2 else at) }
    ensures within { result ≤ length into.old }
{
    if into.len() - at < 2 {
        return at;
    }
    into[at] = (place / 256) as u8;
    into[at + 1] = (place % 256) as u8;
    at + 2
}

/// The locator that two bytes are, the high one first.
pub(crate) fn locator(high: u8, low: u8) -> usize
    ensures value { result ≡ high * 256 + low }
    ensures small { result < 65536 }
{
    usize::from(high) * 256 + usize::from(low)
}
