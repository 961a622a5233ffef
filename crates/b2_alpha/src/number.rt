// Numbers in bytes, high byte first, and bytes in hexadecimal.
ghost use Rattle.std.specs.Prelude.{◌≡◌, ◌+◌, ◌*◌, ◌^◌, ◌<◌, ◌≤◌, ◌↔◌, length, take, OnOk, OnErr, IfErr, IsErr, IsTrue, slice_index};
ghost use Rattle.b2_alpha.specs.Places.{number_in_base, digits_in_base};
ghost use Rattle.b2_base.specs.Lexical.{hex_pair, hex_value};

use b2_base::Code;
use b2_base::codes::P34_RANGE;
use b2_base::lexical::hex_pair;

/// The number in the first `n` bytes of `a`, from 1 to 4 of them and at most all.
pub fn val(a: &[u8], n: usize) -> u32
    requires one { 1 ≤ n }
    requires four { n ≤ 4 }
    requires there { n ≤ length a.now }
    ensures { result ≡ number_in_base 256 (take n a.now) }
{
    let mut value = 0;
    for b in &a[..n] {
        value = value * 256 + u32::from(*b);
    }
    value
}

/// Whether a number has at most `n` bytes.
fn fits(v: u64, n: usize) -> bool
    ensures { IsTrue result ↔ (v < 256 ^ n) }
{
    match n {
        0 => v == 0,
        1..=7 => v >> (8 * n) == 0,
        _ => true,
    }
}

/// Puts a number into all bytes of `to`. P34 exactly where it doesn't fit, and then `to` is as before.
pub fn bin(v: u64, to: &mut [u8]) -> Result<(), Code>
    ensures ok { OnOk result (to.new ≡ digits_in_base 256 (length to.old) v) }
    ensures read_back { OnOk result (number_in_base 256 to.new ≡ v) }
    ensures unfit { IsErr result ↔ (256 ^ length to.old ≤ v) }
    ensures code { IfErr result (λ code. code ≡ P34_RANGE) }
    ensures refused { OnErr result (to.new ≡ to.old) }
{
    if !fits(v, to.len()) {
        return Err(Code::known(P34_RANGE));
    }
    let mut rest = v;
    for i in 0..to.len() {
        let place = to.len() - 1 - i;
        to[place] = (rest % 256) as u8;
        rest /= 256;
    }
    Ok(())
}

/// A byte as two upper hexadecimal digits.
pub fn hex_text(b: u8) -> [u8; 2]
    ensures text { result ≡ hex_pair b }
    ensures read_back { hex_value (slice_index result 0) * 16 + hex_value (slice_index result 1) ≡ b }
{
    hex_pair(b)
}
