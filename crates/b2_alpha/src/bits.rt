// Bits: a receiver and an operand joined by a digit, and rotation.
ghost use Rattle.std.specs.Prelude.{◌≡◌, ◌<◌, ◌≤◌, ◌+◌, ◌-◌, ◌*◌, ◌/◌, ◌%◌, ◌^◌, pos, negsuc, ◌≤ℤ◌, length, map};
ghost use Rattle.std.specs.Int.{bit_at};
ghost use Rattle.b2_alpha.specs.Bits.{byte_by, joined_by, turned, turned_whole, rotated};
ghost use Rattle.b2_alpha.specs.Places.{number_in_base, digits_in_base};

/// All ones where the digit has a 1 at the place, else all zeros.
fn mask(digit: u8, place: u8) -> u8
    requires { place < 4 }
    ensures { result ≡ 255 * bit_at digit place }
{
    if digit >> place & 1 == 1 { 0xff } else { 0 }
}

/// Two bytes joined bit by bit: the digit's bit 2r + o for a bit r and a bit o.
fn join(digit: u8, r: u8, o: u8) -> u8
    ensures { result ≡ byte_by digit r o }
{
    mask(digit, 0) & !r & !o
        | mask(digit, 1) & !r & o
        | mask(digit, 2) & r & !o
        | mask(digit, 3) & r & o
}

/// Joins the receiver with the operand bit by bit, both from the left: where the receiver has the bit r and the operand
/// the bit o, the receiver gets bit 2r + o of the digit, which is below 16. The receiver's bytes past the operand stay.
pub fn bool_op(to: &mut [u8], from: &[u8], digit: u8)
    requires { digit < 16 }
    ensures { to.new ≡ joined_by digit to.old from.now }
{
    for i in 0..to.len().min(from.len()) {
        to[i] = join(digit, to[i], from[i]);
    }
}

/// The bits that leave a string at the left when it is turned.
fn high_bits(bytes: &[u8], left: u8) -> u32
    requires { left ≤ 8 }
    ensures value { result ≡ number_in_base 256 bytes.now / 2 ^ (8 * length bytes.now - left) }
    ensures small { result < 256 }
{
    match bytes {
        [first, ..] => u32::from(*first) >> (8 - left),
        [] => 0,
    }
}

/// The bits that leave it at the right.
fn low_bits(bytes: &[u8], right: u8) -> u32
    requires { right ≤ 8 }
    ensures value { result ≡ number_in_base 256 bytes.now % 2 ^ right }
    ensures small { result < 2 ^ right }
{
    match bytes {
        [.., last] => u32::from(*last) % (1 << right),
        [] => 0,
    }
}

/// The string's number times 2 ^ left, with other bits coming in at the right.
fn shift_left(to: &mut [u8], left: u8, incoming: u32)
    requires within { left ≤ 8 }
    requires small { incoming < 256 }
    ensures { to.new ≡ digits_in_base 256 (length to.old) (number_in_base 256 to.old * 2 ^ left + incoming) }
{
    let mut carry = incoming;
    for i in 0..to.len() {
        let place = to.len() - 1 - i;
        let shifted = (u32::from(to[place]) << left) + carry;
        to[place] = (shifted % 256) as u8;
        carry = shifted / 256;
    }
}

/// The string's number divided by 2 ^ right, with other bits coming in at the left.
fn shift_right(to: &mut [u8], right: u8, incoming: u32)
    requires within { right ≤ 8 }
    requires small { incoming < 2 ^ right }
    ensures { to.new ≡ digits_in_base 256 (length to.old) ((incoming * 256 ^ length to.old + number_in_base 256 to.old) / 2 ^ right) }
{
    let unit = 1u32 << right;
    let mut carry = incoming;
    for i in 0..to.len() {
        let both = carry * 256 + u32::from(to[i]);
        to[i] = (both / unit) as u8;
        carry = both % unit;
    }
}

/// The string turned as one number.
fn turn_left(to: &mut [u8], left: u8)
    requires { left ≤ 8 }
    ensures { to.new ≡ turned_whole left to.old }
{
    let leaving = high_bits(to, left);
    shift_left(to, left, leaving);
}

fn turn_right(to: &mut [u8], right: u8)
    requires { right ≤ 8 }
    ensures { to.new ≡ turned_whole (8 * length to.old - right) to.old }
{
    let leaving = low_bits(to, right);
    shift_right(to, right, leaving);
}

/// Each byte turned by itself.
fn turn_each(to: &mut [u8], left: u8)
    requires { left ≤ 8 }
    ensures { to.new ≡ map (turned 8 left) to.old }
{
    for b in to.iter_mut() {
        *b = b.rotate_left(u32::from(left));
    }
}

/// Turns each byte, or the whole string as one number, left by `n` bits, from -8 to 8; below zero it turns right.
pub fn rotate(to: &mut [u8], n: i8, whole: bool)
    requires low { negsuc 7 ≤ℤ n }
    requires high { n ≤ℤ pos 8 }
    ensures { to.new ≡ rotated whole n to.old }
{
    match (whole, n < 0) {
        (false, false) => turn_each(to, n as u8),
        (false, true) => turn_each(to, (8 + n) as u8),
        (true, false) => turn_left(to, n as u8),
        (true, true) => turn_right(to, (-n) as u8),
    }
}
