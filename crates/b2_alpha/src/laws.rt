//! Laws of the definitions that this crate's contracts cite. Each call does nothing: its contract is the law.
ghost use Rattle.std.specs.Prelude.{◌≡◌, ◌++◌, ◌<◌, ◌≤◌, pos, negsuc, neg_ℤ, ◌≤ℤ◌, true, length, take, drop, bit_and, bit_or, bit_xor};
ghost use Rattle.b2_alpha.specs.Values.{each_pair, padded, value_of};
ghost use Rattle.b2_alpha.specs.Bits.{joined_by, rotated};

/// Blanks after a value are no part of it: a string that is padded and not cut keeps its value.
pub fn padding_keeps_the_value(bytes: &[u8], len: usize)
    requires some { 0 < length bytes.now }
    requires fits { length bytes.now ≤ len }
    ensures { value_of (padded len bytes.now) ≡ value_of bytes.now }
{}

/// The digit 8 joins by AND.
pub fn digit_8_is_and(to: &[u8], from: &[u8])
    ensures { joined_by 8 to.now from.now ≡ each_pair bit_and to.now from.now }
{}

/// The digit E joins by OR.
pub fn digit_e_is_or(to: &[u8], from: &[u8])
    ensures { joined_by 14 to.now from.now ≡ each_pair bit_or to.now from.now }
{}

/// The digit 6 joins by XOR.
pub fn digit_6_is_xor(to: &[u8], from: &[u8])
    ensures { joined_by 6 to.now from.now ≡ each_pair bit_xor to.now from.now }
{}

/// Turned by `n` and then by `-n`, a string is as it was.
pub fn turned_back(bytes: &[u8], n: i8, whole: bool)
    requires low { negsuc 7 ≤ℤ n }
    requires high { n ≤ℤ pos 8 }
    ensures { rotated whole (neg_ℤ n) (rotated whole n bytes.now) ≡ bytes.now }
{}

/// Turned by 8 as a whole, a string has its first byte last.
pub fn eight_bits_are_a_byte(bytes: &[u8])
    requires { 0 < length bytes.now }
    ensures { rotated true (pos 8) bytes.now ≡ drop 1 bytes.now ++ take 1 bytes.now }
{}
