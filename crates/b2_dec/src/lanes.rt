// Sixteen decimal digits, a digit in each nibble of a word, read and written in several parts of the word at once.
ghost use Rattle.std.specs.Prelude.{◌≡◌, ◌+◌, ◌*◌, ◌^◌, ◌<◌};
ghost use Rattle.b2_dec.specs.Lanes.{rebased};

/// The lower nibble of each byte.
const LOW_NIBBLES: u64 = 0x0F0F_0F0F_0F0F_0F0F;

/// The lower byte of each two.
const LOW_BYTES: u64 = 0x00FF_00FF_00FF_00FF;

/// The lower two bytes of each four.
const LOW_PAIRS: u64 = 0x0000_FFFF_0000_FFFF;

/// The number that the sixteen nibbles of a word spell as digits.
pub(crate) fn nibbles_value(word: u64) -> u64
    ensures { result ≡ rebased 16 10 16 word }
{
    let pairs = word - 6 * (word >> 4 & LOW_NIBBLES);
    let fours = pairs - 156 * (pairs >> 8 & LOW_BYTES);
    let eights = fours - 55_536 * (fours >> 16 & LOW_PAIRS);
    eights - 4_194_967_296 * (eights >> 32)
}

/// Sixteen digits, given as two numbers of eight, each in a nibble of a word.
pub(crate) fn nibbles_of(high: u32, low: u32) -> u64
    requires high { high < 10 ^ 8 }
    requires low { low < 10 ^ 8 }
    ensures { result ≡ rebased 10 16 16 (high * 10 ^ 8 + low) }
{
    let pairs = pairs_of(high, low);
    // A tenth of a number below 100 is 103 / 2^10 of it.
    let even = (pairs & LOW_BYTES) * 103 >> 10 & 0x000F_000F_000F_000F;
    let odd = (pairs >> 8 & LOW_BYTES) * 103 >> 10 & 0x000F_000F_000F_000F;
    pairs + 6 * (even + (odd << 8))
}

/// The eight pairs of these digits, each in a byte of a word.
fn pairs_of(high: u32, low: u32) -> u64
    requires high { high < 10 ^ 8 }
    requires low { low < 10 ^ 8 }
    ensures { result ≡ rebased 100 256 8 (high * 10 ^ 8 + low) }
{
    let fours = fours_of(high, low);
    // A hundredth of a number below 10,000 is 5,243 / 2^19 of it.
    let even = (fours & LOW_PAIRS) * 5_243 >> 19 & 0x0000_007F_0000_007F;
    let odd = (fours >> 16 & LOW_PAIRS) * 5_243 >> 19 & 0x0000_007F_0000_007F;
    fours + 156 * (even + (odd << 16))
}

/// The four parts of four of these digits, each in two bytes of a word.
fn fours_of(high: u32, low: u32) -> u64
    requires high { high < 10 ^ 8 }
    requires low { low < 10 ^ 8 }
    ensures { result ≡ rebased 10000 65536 4 (high * 10 ^ 8 + low) }
{
    let halves = (u64::from(high) << 32) + u64::from(low);
    let upper = (u64::from(high / 10_000) << 32) + u64::from(low / 10_000);
    halves + 55_536 * upper
}
