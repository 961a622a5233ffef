// The codes of errors, by their classes.
ghost use Rattle.std.specs.Prelude.{◌≡◌, ◌≤◌};
ghost use Rattle.b2_base.specs.Codes.{code_of, class_of};

use crate::NoMemory;
use std::marker::Model;

/// A program's text has no room left.
pub const A01_TEXT_AREA: u8 = 1;
/// The variables have no room left.
pub const A02_DATA_AREA: u8 = 2;
/// Parentheses, calls or frames nest too deep.
pub const A04_TOO_DEEP: u8 = 4;
/// A line has more than 255 atom bytes.
pub const A05_LINE_TOO_LONG: u8 = 5;
/// A line's number is above 9999.
pub const A07_LINE_NUMBER: u8 = 7;
/// A text that another partition runs is not edited.
pub const A08_TEXT_BORROWED: u8 = 8;
/// A `(` is missing.
pub const S10_OPEN: u8 = 10;
/// A `)` is missing.
pub const S11_CLOSE: u8 = 11;
/// A `=` is missing.
pub const S12_EQUALS: u8 = 12;
/// A `,` or a `;` is missing.
pub const S13_SEPARATOR: u8 = 13;
/// A statement is missing.
pub const S14_STATEMENT: u8 = 14;
/// A line number is missing.
pub const S15_LINE_NUMBER: u8 = 15;
/// A number literal is missing.
pub const S16_NUMBER_LITERAL: u8 = 16;
/// A numeric operand is missing.
pub const S17_NUMERIC: u8 = 17;
/// An alpha operand is missing.
pub const S18_ALPHA: u8 = 18;
/// Hex digits in pairs, or a closing quote, are missing.
pub const S19_HEX_OR_QUOTE: u8 = 19;
/// A variable of the stated kind is missing.
pub const S20_VARIABLE: u8 = 20;
/// A comparison sign is missing.
pub const S21_COMPARISON: u8 = 21;
/// A word of the form is missing.
pub const S22_WORD: u8 = 22;
/// `T` or a device address is missing.
pub const S23_DEVICE: u8 = 23;
/// A small number in its range is missing.
pub const S24_SMALL_NUMBER: u8 = 24;
/// The statement doesn't end where it must.
pub const S25_END: u8 = 25;
/// The statement isn't allowed in an immediate line.
pub const S26_PROGRAM_ONLY: u8 = 26;
/// A word of the real machine that this one leaves out.
pub const S27_LEFT_OUT: u8 = 27;
/// The statement stands at the wrong place of its line.
pub const S28_PLACE_ON_LINE: u8 = 28;
/// A byte that isn't from 20 to 7E.
pub const S29_BYTE: u8 = 29;
/// A value is out of its range.
pub const P34_RANGE: u8 = 34;
/// The arguments don't fit the subroutine.
pub const P35_ARGUMENTS: u8 = 35;
/// There is no such line.
pub const P36_NO_LINE: u8 = 36;
/// There is no such marked subroutine or function.
pub const P38_NO_DEFFN: u8 = 38;
/// NEXT without its FOR.
pub const P40_NO_FOR: u8 = 40;
/// RETURN without a call.
pub const P41_NO_CALL: u8 = 41;
/// An image doesn't fit its items.
pub const P42_IMAGE: u8 = 42;
/// The shapes of arrays don't fit.
pub const P43_SHAPES: u8 = 43;
/// The unit matrix isn't square.
pub const P44_NOT_SQUARE: u8 = 44;
/// An operand is the result.
pub const P45_OPERAND_IS_RESULT: u8 = 45;
/// There is nothing to continue.
pub const P46_NOTHING_KEPT: u8 = 46;
/// The partition has no such device.
pub const P48_DEVICE: u8 = 48;
/// A dimension is out of its range.
pub const P50_DIMENSION: u8 = 50;
/// A length isn't from 1 to 124, or is given to a number.
pub const P53_LENGTH: u8 = 53;
/// A variable is there in another shape.
pub const P55_SHAPE_DIFFERS: u8 = 55;
/// A variable is there and not common.
pub const P56_NOT_COMMON: u8 = 56;
/// A subscript is out of its range.
pub const P57_SUBSCRIPT: u8 = 57;
/// A field specification is wrong.
pub const P58_SPECIFICATION: u8 = 58;
/// An array was not made.
pub const P59_NO_ARRAY: u8 = 59;
/// A number is too small.
pub const C60_UNDERFLOW: u8 = 60;
/// A number is too large.
pub const C61_OVERFLOW: u8 = 61;
/// A divisor is zero.
pub const C62_ZERO_DIVISOR: u8 = 62;
/// Zero is divided by zero.
pub const C63_ZERO_BY_ZERO: u8 = 63;
/// An exponent isn't a whole number from 0 to 255.
pub const C65_EXPONENT: u8 = 65;
/// A square root of a number below zero.
pub const C66_ROOT: u8 = 66;
/// There is too little data, or too little room for it.
pub const X70_TOO_LITTLE: u8 = 70;
/// A number doesn't fit its field.
pub const X71_DOES_NOT_FIT: u8 = 71;
/// An alpha value is too long.
pub const X72_TOO_LONG: u8 = 72;
/// A text isn't a number.
pub const X73_NOT_A_NUMBER: u8 = 73;
/// A value is of another kind.
pub const X74_OTHER_KIND: u8 = 74;
/// A nibble isn't a decimal digit.
pub const X75_NOT_DECIMAL: u8 = 75;
/// A locator or a field is wrong.
pub const X76_LOCATOR_OR_FIELD: u8 = 76;
/// There is no such global partition.
pub const X77_NO_PARTITION: u8 = 77;
/// Another partition holds the name.
pub const X78_NAME_HELD: u8 = 78;
/// No file is open there.
pub const D80_NOT_OPEN: u8 = 80;
/// A file is full.
pub const D81_FILE_FULL: u8 = 81;
/// There is no such file.
pub const D82_NO_FILE: u8 = 82;
/// The name is in the catalogue already.
pub const D83_NAME_PRESENT: u8 = 83;
/// A file isn't scratched.
pub const D84_NOT_SCRATCHED: u8 = 84;
/// The index is full.
pub const D85_INDEX_FULL: u8 = 85;
/// The catalogue has no room left.
pub const D86_NO_ROOM: u8 = 86;
/// A file name isn't legal.
pub const D87_FILE_NAME: u8 = 87;
/// Sectors don't have the format.
pub const D88_FORMAT: u8 = 88;
/// A file is of another kind.
pub const D89_OTHER_KIND: u8 = 89;
/// A sector is out of its range.
pub const I98_SECTOR: u8 = 98;

/// The code of an error, from 1 to 99. Contracts see it as its number.
#[derive(Clone, Copy)]
pub struct Code {
    number: u8,
}

impl Model for Code {
    ghost use Rattle.std.specs.Prelude.{ℕ, ◌≤◌};

    ghost Value = { ℕ };

    ghost view = { λ c. c.number };

    ghost invariant = { λ c. (1 ≤ c.number) × (c.number ≤ 99) };

    ghost inverse = { λ n. record { number = n } };
}

impl Code {
    /// The code of a number, None outside 1 to 99.
    pub fn new(n: u8) -> Option<Code>
        ensures { result ≡ code_of n }
    {
        if n >= 1 && n <= 99 {
            Some(Code { number: n })
        } else {
            None
        }
    }

    /// The code of a number that is known to be one.
    pub fn known(n: u8) -> Code
        requires low { 1 ≤ n }
        requires high { n ≤ 99 }
        ensures { result ≡ n }
    {
        Code { number: n }
    }

    /// Its number, from 1 to 99.
    pub fn number(self) -> u8
        ensures value { result ≡ self }
        ensures low { 1 ≤ result }
        ensures high { result ≤ 99 }
    {
        self.number
    }

    /// The letter of its class: A, S, P, C, X, D or I.
    pub fn class(self) -> u8
        ensures { result ≡ class_of self }
    {
        match self.number {
            0..=9 => b'A',
            10..=29 => b'S',
            30..=59 => b'P',
            60..=69 => b'C',
            70..=79 => b'X',
            80..=89 => b'D',
            _ => b'I',
        }
    }
}

/// A refusal with its code, or that memory failed.
#[derive(Clone, Copy)]
pub enum Fault {
    Code(Code),
    NoMemory,
}

impl From<NoMemory> for Fault {
    ghost use Rattle.std.specs.Prelude.{◌≡◌};
    ghost use Rattle.b2_base.specs.declared.codes.Fault.TheVariants as fault;

    ghost from_gives = { λ _ e. e ≡ fault.NoMemory };

    fn from(_: NoMemory) -> Fault {
        Fault::NoMemory
    }
}

impl From<Code> for Fault {
    ghost use Rattle.std.specs.Prelude.{◌≡◌};
    ghost use Rattle.b2_base.specs.declared.codes.Fault.TheVariants as fault;

    ghost from_gives = { λ c e. e ≡ fault.Code c };

    fn from(code: Code) -> Fault {
        Fault::Code(code)
    }
}
