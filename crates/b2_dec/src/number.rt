// A number of thirteen digits.
ghost use Rattle.std.specs.Prelude.{◌≡◌, ◌-ℤ◌, pos, ◌*◌, ◌^◌, ◌<◌, ◌≤◌, ◌==◌, Ok, Err, is_err, true, false};
ghost use Rattle.b2_dec.specs.Rounding.{rnd};
ghost use Rattle.b2_dec.specs.Number.{zero_number, opposite, value, IsNumber};

use crate::rounding::ten_to;
use b2_base::Code;
use std::marker::Model;

/// How a result with more than thirteen digits becomes a number.
#[derive(Clone, Copy)]
pub enum Mode {
    /// The nearest number, a half away from zero.
    Round,
    /// The digits past the thirteenth are dropped.
    Cut,
}

/// A decimal number of thirteen digits. Contracts see it as its sign, its digits and the place of the last of them.
#[derive(Clone, Copy, PartialEq, Eq)]
pub struct Dec {
    /// The digits in the lowest 44 bits, the place of the last of them in the next eight, and then the sign.
    word: u64,
}

/// What one place counts in a word.
const PLACE: u64 = 1 << 44;

/// What the sign of a number below zero counts in a word.
const SIGN: u64 = 1 << 52;

/// The word of zero.
const ZERO: u64 = 99 * PLACE;

/// What a code counts above its number in a word.
const CODED: u64 = 1 << 63;

impl Model for Dec {
    ghost use Rattle.b2_dec.specs.Number.{Number};

    ghost Value = { Number };

    ghost use Rattle.b2_dec.specs.Spelling.{seen, IsSpelled, inside_of, inside_of-seen};

    ghost view = { seen };

    ghost invariant = { IsSpelled };

    ghost inverse = { inside_of };

    ghost inverse_ok = { inside_of-seen };
}

impl Dec {
    /// Zero.
    pub const fn zero() -> Dec
        ensures { result ≡ zero_number }
    {
        Dec { word: ZERO }
    }

    /// A whole number below 10^13.
    pub fn of_whole(n: u64) -> Dec
        requires { n < 10 ^ 13 }
        ensures value { value result ≡ pos (n * 10 ^ 111) }
        ensures exact { (mode : Mode) → rnd mode false n 1 ≡ Ok result }
        ensures sign { result.neg ≡ false }
    {
        if n == 0 {
            return Dec::zero();
        }
        let missing = 12 - n.ilog10();
        Dec::ending_at(false, n * ten_to(missing), (111 - missing) as u8)
    }

    /// The number of this sign whose thirteen digits end at this place, counted from 10^-111.
    pub fn ending_at(neg: bool, coef: u64, place: u8) -> Dec
        requires least { 1000000000000 ≤ coef }
        requires digits { coef < 10000000000000 }
        requires highest { place ≤ 198 }
        ensures { result ≡ record { neg = neg; coef = coef; place = place } }
    {
        Dec::of_parts(neg, coef, place)
    }

    /// The number of this sign with these digits, which end at this place.
    pub(crate) fn of_parts(neg: bool, coef: u64, place: u8) -> Dec
        requires { IsNumber (record { neg = neg; coef = coef; place = place }) }
        ensures { result ≡ record { neg = neg; coef = coef; place = place } }
    {
        Dec {
            word: u64::from(neg) * SIGN + u64::from(place) * PLACE + coef,
        }
    }

    /// The place of the last digit, counted from 10^-111: from 0 to 198, and 99 for zero.
    pub fn place(self) -> u32
        ensures value { result ≡ self.place }
        ensures highest { result ≤ 198 }
    {
        (self.word % SIGN / PLACE) as u32
    }

    /// The number of the other sign; zero is its own.
    pub(crate) fn opposite(self) -> Dec
        ensures { result ≡ opposite self }
    {
        if self.word == ZERO {
            return self;
        }
        Dec {
            word: self.word ^ SIGN,
        }
    }

    /// Whether the number is zero.
    pub fn is_zero(self) -> bool
        ensures zero { result ≡ (self.coef == 0) }
        ensures spelling { IsNumber self }
    {
        self.word == ZERO
    }

    /// Whether the number is below zero.
    pub fn is_negative(self) -> bool
        ensures value { result ≡ self.neg }
        ensures spelling { IsNumber self }
    {
        self.word >= SIGN
    }

    /// The thirteen digits as a whole number: 0, or from 10^12 to 10^13 - 1.
    pub fn coefficient(self) -> u64
        ensures value { result ≡ self.coef }
        ensures digits { result < 10000000000000 }
        ensures spelling { IsNumber self }
    {
        self.word % PLACE
    }

    /// The exponent of ten of the first digit, from -99 to 99; 0 for zero.
    pub fn exponent(self) -> i8
        ensures { result ≡ pos self.place -ℤ pos 99 }
    {
        (self.place() as i32 - 99) as i8
    }
}

/// A number, or a code, in one word. Contracts see it as a `Result`.
#[derive(Clone, Copy)]
pub struct NumberOrCode {
    /// The word of a number, or a code's number above every word of a number.
    word: u64,
}

impl Model for NumberOrCode {
    ghost use Rattle.std.specs.Prelude.{ℕ, Result};
    ghost use Rattle.b2_dec.specs.Number.{Number};

    ghost Value = { Result Number ℕ };

    ghost use Rattle.b2_dec.specs.OneWord.{one_seen, IsOneWord, one_inside, one_inside-seen};

    ghost view = { one_seen };

    ghost invariant = { IsOneWord };

    ghost inverse = { one_inside };

    ghost inverse_ok = { one_inside-seen };
}

impl NumberOrCode {
    /// A number.
    pub fn number(x: Dec) -> NumberOrCode
        ensures { result ≡ Ok x }
    {
        NumberOrCode { word: x.word }
    }

    /// A code.
    pub fn code(code: Code) -> NumberOrCode
        ensures { result ≡ Err code }
    {
        NumberOrCode {
            word: CODED + u64::from(code.number()),
        }
    }

    /// A number or a code.
    pub fn of(answer: Result<Dec, Code>) -> NumberOrCode
        ensures { result ≡ answer }
    {
        match answer {
            Ok(x) => NumberOrCode::number(x),
            Err(code) => NumberOrCode::code(code),
        }
    }

    /// Whether it is a code.
    pub fn is_code(self) -> bool
        ensures { result ≡ is_err self }
    {
        self.word >= CODED
    }

    /// The number that it is.
    pub fn get(self) -> Dec
        requires { is_err self ≡ false }
        ensures { self ≡ Ok result }
    {
        Dec { word: self.word }
    }

    /// The code that it is.
    pub fn get_code(self) -> Code
        requires { is_err self ≡ true }
        ensures { self ≡ Err result }
    {
        Code::known((self.word - CODED) as u8)
    }

    /// The number, or the code.
    pub fn result(self) -> Result<Dec, Code>
        ensures { result ≡ self }
    {
        if self.is_code() {
            Err(self.get_code())
        } else {
            Ok(self.get())
        }
    }
}
