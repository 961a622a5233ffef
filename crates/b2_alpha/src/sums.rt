// Sums and differences of strings that end at the same place.
ghost use Rattle.std.specs.Prelude.{◌≡◌, ◌+◌, ◌-◌, ◌%◌, ◌^◌, ◌<◌, length, true, nat_lt, slice_index, if◌then◌else◌, OnOk, OnErr, IfErr, is_ok};
ghost use Rattle.std.specs.List.{list_all};
ghost use Rattle.b2_alpha.specs.Places.{number_in_base};
ghost use Rattle.b2_base.specs.Lexical.{is_decimal, decimal_of, decimal_byte};
ghost use Rattle.b2_alpha.specs.Sums.{bytewise_sum, bytewise_difference, binary_sum, binary_difference, decimal_value, are_decimal, decimal_sum, decimal_difference};

use b2_base::Code;
use b2_base::codes::X75_NOT_DECIMAL;
use b2_base::lexical::{decimal_byte, decimal_of, is_decimal};

/// The operand's byte at a place counted from its end, and 0 past its first.
fn from_end(from: &[u8], i: usize) -> u8
    ensures { result ≡ (if nat_lt i (length from.now) then slice_index from.now (length from.now - 1 - i) else 0) }
{
    if i < from.len() {
        from[from.len() - 1 - i]
    } else {
        0
    }
}

/// Adds the operand byte by byte, without carries, both from the right.
pub fn add(to: &mut [u8], from: &[u8])
    ensures { to.new ≡ bytewise_sum to.old from.now }
{
    for i in 0..to.len() {
        let operand = from_end(from, to.len() - 1 - i);
        to[i] = to[i].wrapping_add(operand);
    }
}

/// Takes the operand away byte by byte, without borrows, both from the right.
pub fn sub(to: &mut [u8], from: &[u8])
    ensures { to.new ≡ bytewise_difference to.old from.now }
{
    for i in 0..to.len() {
        let operand = from_end(from, to.len() - 1 - i);
        to[i] = to[i].wrapping_sub(operand);
    }
}

/// The operand's place in a sum, or its complement, which with a carry of 1 takes it away.
fn addend(place: u16, base: u16, subtract: bool) -> u16
    requires { place < base }
    ensures { result ≡ (if subtract then base - 1 - place else place) }
{
    if subtract { base - 1 - place } else { place }
}

/// Sum or difference with carries over places of base 256. A difference adds the complement and 1.
fn sum_bytes(to: &mut [u8], from: &[u8], subtract: bool)
    ensures { to.new ≡ (if subtract then binary_difference to.old from.now else binary_sum to.old from.now) }
{
    let mut carry = u16::from(subtract);
    for i in 0..to.len() {
        let place = to.len() - 1 - i;
        let operand = addend(u16::from(from_end(from, i)), 256, subtract);
        let sum = u16::from(to[place]) + operand + carry;
        to[place] = (sum % 256) as u8;
        carry = sum / 256;
    }
}

/// Adds the operand with carries, both from the right. The last carry is lost.
pub fn addc(to: &mut [u8], from: &[u8])
    ensures sum { to.new ≡ binary_sum to.old from.now }
    ensures modular { number_in_base 256 to.new ≡ (number_in_base 256 to.old + number_in_base 256 from.now) % 256 ^ length to.old }
{
    sum_bytes(to, from, false);
}

/// Takes the operand away with borrows, both from the right. The last borrow is lost.
pub fn subc(to: &mut [u8], from: &[u8])
    ensures difference { to.new ≡ binary_difference to.old from.now }
    ensures modular { (number_in_base 256 to.new + number_in_base 256 from.now) % 256 ^ length to.old ≡ number_in_base 256 to.old % 256 ^ length to.old }
{
    sum_bytes(to, from, true);
}

fn all_decimal(bytes: &[u8]) -> bool
    ensures { result ≡ list_all is_decimal bytes.now }
{
    bytes.iter().all(|b| is_decimal(*b))
}

/// The number in two decimal nibbles.
fn decimal(b: u8) -> u16
    requires { is_decimal b ≡ true }
    ensures value { result ≡ decimal_of b }
    ensures below { result < 100 }
{
    u16::from(decimal_of(b))
}

/// The two decimal nibbles of a number.
fn nibbles(d: u16) -> u8
    requires { d < 100 }
    ensures { result ≡ decimal_byte d }
{
    decimal_byte(d as u8)
}

/// Sum or difference with carries over places of base 100, where all nibbles are decimal digits.
fn sum_decimals(to: &mut [u8], from: &[u8], subtract: bool)
    requires { are_decimal to.old from.now ≡ true }
    ensures { to.new ≡ (if subtract then decimal_difference to.old from.now else decimal_sum to.old from.now) }
{
    let mut carry = u16::from(subtract);
    for i in 0..to.len() {
        let place = to.len() - 1 - i;
        let operand = addend(decimal(from_end(from, i)), 100, subtract);
        let sum = decimal(to[place]) + operand + carry;
        to[place] = nibbles(sum % 100);
        carry = sum / 100;
    }
}

/// X75 exactly where a nibble that a decimal sum of the two uses is no decimal digit.
fn check_decimal(to: &[u8], from: &[u8]) -> Result<(), Code>
    ensures exact { is_ok result ≡ are_decimal to.now from.now }
    ensures code { IfErr result (λ code. code ≡ X75_NOT_DECIMAL) }
{
    let used = &from[from.len() - from.len().min(to.len())..];
    if all_decimal(to) && all_decimal(used) {
        Ok(())
    } else {
        Err(Code::known(X75_NOT_DECIMAL))
    }
}

/// Adds the operand as decimal digits with carries, both from the right. The last carry is lost. X75 exactly where a
/// nibble of the receiver, or of the part of the operand that stands under it, is above 9; the receiver then stays.
pub fn dac(to: &mut [u8], from: &[u8]) -> Result<(), Code>
    ensures exact { is_ok result ≡ are_decimal to.old from.now }
    ensures ok { OnOk result (to.new ≡ decimal_sum to.old from.now) }
    ensures modular { OnOk result (decimal_value to.new
        ≡ (decimal_value to.old + decimal_value from.now) % 100 ^ length to.old) }
    ensures code { IfErr result (λ code. code ≡ X75_NOT_DECIMAL) }
    ensures refused { OnErr result (to.new ≡ to.old) }
{
    check_decimal(to, from)?;
    sum_decimals(to, from, false);
    Ok(())
}

/// Takes the operand away as decimal digits with borrows, both from the right. The last borrow is lost. X75 exactly
/// where a nibble of the receiver, or of the part of the operand that stands under it, is above 9; the receiver then
/// stays.
pub fn dsc(to: &mut [u8], from: &[u8]) -> Result<(), Code>
    ensures exact { is_ok result ≡ are_decimal to.old from.now }
    ensures ok { OnOk result (to.new ≡ decimal_difference to.old from.now) }
    ensures modular { OnOk result ((decimal_value to.new + decimal_value from.now) % 100 ^ length to.old
        ≡ decimal_value to.old % 100 ^ length to.old) }
    ensures code { IfErr result (λ code. code ≡ X75_NOT_DECIMAL) }
    ensures refused { OnErr result (to.new ≡ to.old) }
{
    check_decimal(to, from)?;
    sum_decimals(to, from, true);
    Ok(())
}
