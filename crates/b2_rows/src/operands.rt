// The kinds of operands, by the first byte of each.
ghost use Rattle.std.specs.Prelude.{◌≡◌};
ghost use Rattle.b2_base.specs.Lexical as lexical;
ghost use Rattle.b2_rows.specs.Choices as spec;

use b2_atom::words::{
    ABS_OPEN, BIN_OPEN, ERR, FN, HASH_TERM, HEX_OPEN, LEN_OPEN, MAX_OPEN, MIN_OPEN, MOD_OPEN,
    NUM_OPEN, POS_OPEN, ROUND_OPEN, SQR_OPEN, STR_OPEN, VAL_OPEN,
};
use b2_base::lexical::{first, is_digit};

/// A kind of operand in a numeric expression.
#[derive(Clone, Copy)]
pub enum Operand {
    /// A number that is written out.
    Number,
    /// An expression in parentheses.
    Parentheses,
    /// FN and its argument.
    Function,
    /// ABS, INT, FIX, SGN or SQR of one number.
    OfOne,
    /// ROUND or MOD of two numbers.
    OfTwo,
    /// MAX or MIN of two to eight numbers.
    OfMore,
    /// LEN or NUM of an alpha expression.
    OfAlpha,
    /// POS of two alpha expressions.
    Position,
    /// VAL of an alpha expression.
    Value,
    /// ERR, #PART or #TERM.
    KeptNumber,
    /// A variable, with subscripts or none.
    Variable,
}

/// A kind of operand in an alpha expression.
#[derive(Clone, Copy)]
pub enum AlphaOperand {
    /// Bytes in quotes.
    Literal,
    /// STR of a variable.
    StringPart,
    /// HEX of hexadecimal digits.
    Hex,
    /// BIN of a number.
    Binary,
    /// A variable, with subscripts or none.
    Variable,
}

/// The kind of the operand at a text, where one is read.
pub fn operand_at(text: &[u8]) -> Operand
    ensures { result ≡ spec.operand_of (lexical.first text.now) }
{
    let byte = first(text);
    if is_digit(byte) || byte == b'.' {
        Operand::Number
    } else if byte == b'(' {
        Operand::Parentheses
    } else if byte == FN {
        Operand::Function
    } else if byte >= ABS_OPEN && byte <= SQR_OPEN {
        Operand::OfOne
    } else if byte >= ROUND_OPEN && byte <= MOD_OPEN {
        Operand::OfTwo
    } else if byte >= MAX_OPEN && byte <= MIN_OPEN {
        Operand::OfMore
    } else if byte >= LEN_OPEN && byte <= NUM_OPEN {
        Operand::OfAlpha
    } else if byte == POS_OPEN {
        Operand::Position
    } else if byte == VAL_OPEN {
        Operand::Value
    } else if byte >= ERR && byte <= HASH_TERM {
        Operand::KeptNumber
    } else {
        Operand::Variable
    }
}

/// The kind of the alpha operand at a text, where one is read.
pub fn alpha_operand_at(text: &[u8]) -> AlphaOperand
    ensures { result ≡ spec.alpha_operand_of (lexical.first text.now) }
{
    match first(text) {
        b'"' => AlphaOperand::Literal,
        STR_OPEN => AlphaOperand::StringPart,
        HEX_OPEN => AlphaOperand::Hex,
        BIN_OPEN => AlphaOperand::Binary,
        _ => AlphaOperand::Variable,
    }
}
