// The value in a byte string, and assignment with its padding.
ghost use Rattle.std.specs.Prelude.{◌≡◌, ◌≢◌, ◌-◌, ◌<◌, ◌≤◌, length, drop, replicate, slice_index};
ghost use Rattle.b2_base.specs.Byte as byte;
ghost use Rattle.b2_alpha.specs.Values.{padded, value_of};

/// Puts `from` into the whole of `to`: cut where it is longer, with blanks after it where it is shorter.
pub fn assign(to: &mut [u8], from: &[u8])
    ensures { to.new ≡ padded (length to.old) from.now }
{
    let count = to.len().min(from.len());
    to[..count].copy_from_slice(&from[..count]);
    to[count..].fill(b' ');
}

/// The length of the value in a variable's bytes: up to the last that is no blank, and at least 1. No bytes have
/// the length 0.
pub fn value_len(a: &[u8]) -> usize
    ensures value { result ≡ length (value_of a.now) }
    ensures within { result ≤ length a.now }
    ensures some { 0 < length a.now → 0 < result }
    ensures blanks { drop result a.now ≡ replicate (length a.now - result) byte.blank }
    ensures last { 1 < result → slice_index a.now (result - 1) ≢ byte.blank }
{
    let mut len = a.len();
    while len > 1 && a[len - 1] == b' ' {
        len -= 1;
    }
    len
}
