// The table of forms: what a line, an expression and each statement are made of, as the code walks over it. The
// definition's own table stands in specs/Table.antt, and `Table` below says that the two are one.

use crate::forms::{Form, Item, Leaf, Position, Rule, Start};
use crate::{rows, words};
use b2_base::codes;

/// The rows from 0 on.
#[rattlefmt::skip]
pub const ROWS_0: [&[Item]; 64] = [
    // a line
    // LINE
    &[Item::Statement(Position::First), Item::Many(Start::Code(b':'), rows::FURTHER_STATEMENT), Item::End],
    // FURTHER_STATEMENT
    &[Item::Sign(b':', codes::S25_END), Item::Statement(Position::Further)],
    // FOLLOWING
    &[Item::Statement(Position::Following)],
    // LINE_NUMBER
    &[Item::Typed(Leaf::LineNumber, codes::S15_LINE_NUMBER)],
    // COMMA_LINE
    &[Item::Sign(b',', codes::S13_SEPARATOR), Item::Typed(Leaf::LineNumber, codes::S15_LINE_NUMBER)],
    // COMMA_LINES
    &[Item::Sign(b',', codes::S13_SEPARATOR), Item::Typed(Leaf::LineNumber, codes::S15_LINE_NUMBER), Item::Maybe(Start::Code(b','), rows::COMMA_LINE)],
    // LINE_NUMBERS
    &[Item::Typed(Leaf::LineNumber, codes::S15_LINE_NUMBER), Item::Maybe(Start::Code(b','), rows::COMMA_LINE)],
    // LEFT_OUT
    &[Item::LeftOut],
    // numeric expressions
    // SUM
    &[Item::Part(rows::PRODUCT), Item::Many(Start::Two(b'+', b'-'), rows::ADDEND)],
    // ADDEND
    &[Item::Part(rows::SIGN), Item::Part(rows::PRODUCT)],
    // SIGN
    &[Item::Either(Start::Code(b'+'), rows::PLUS, rows::MINUS)],
    // PLUS
    &[Item::Sign(b'+', codes::S22_WORD)],
    // MINUS
    &[Item::Sign(b'-', codes::S22_WORD)],
    // PRODUCT
    &[Item::Part(rows::FACTOR), Item::Many(Start::Two(b'*', b'/'), rows::MULTIPLIER)],
    // MULTIPLIER
    &[Item::Either(Start::Code(b'*'), rows::TIMES, rows::OVER), Item::Part(rows::FACTOR)],
    // TIMES
    &[Item::Sign(b'*', codes::S22_WORD)],
    // OVER
    &[Item::Sign(b'/', codes::S22_WORD)],
    // FACTOR
    &[Item::Maybe(Start::Two(b'+', b'-'), rows::SIGN), Item::Part(rows::POWER)],
    // POWER
    &[Item::Part(rows::OPERAND), Item::Many(Start::Code(b'^'), rows::EXPONENT)],
    // EXPONENT
    &[Item::Sign(b'^', codes::S22_WORD), Item::Part(rows::OPERAND)],
    // OPERAND
    &[Item::Either(Start::Number, rows::NUMBER, rows::OPERAND_BUT_NUMBER)],
    // OPERAND_BUT_NUMBER
    &[Item::Either(Start::Code(b'('), rows::PARENTHESES, rows::NAMED_OPERAND)],
    // NAMED_OPERAND
    &[Item::Either(Start::Code(words::FN), rows::FUNCTION, rows::OPERAND_BUT_FN)],
    // OPERAND_BUT_FN
    &[Item::Either(Start::Among(words::ABS_OPEN, words::SQR_OPEN), rows::OF_ONE, rows::OPERAND_BUT_ONE)],
    // OPERAND_BUT_ONE
    &[Item::Either(Start::Among(words::ROUND_OPEN, words::MOD_OPEN), rows::OF_TWO, rows::OPERAND_BUT_TWO)],
    // OPERAND_BUT_TWO
    &[Item::Either(Start::Among(words::MAX_OPEN, words::MIN_OPEN), rows::OF_MORE, rows::OPERAND_BUT_MORE)],
    // OPERAND_BUT_MORE
    &[Item::Either(Start::Among(words::LEN_OPEN, words::NUM_OPEN), rows::OF_ALPHA, rows::OPERAND_BUT_ALPHA)],
    // OPERAND_BUT_ALPHA
    &[Item::Either(Start::Code(words::POS_OPEN), rows::POSITION, rows::OPERAND_BUT_POSITION)],
    // OPERAND_BUT_POSITION
    &[Item::Either(Start::Code(words::VAL_OPEN), rows::VALUE, rows::OPERAND_BUT_VALUE)],
    // OPERAND_BUT_VALUE
    &[Item::Either(Start::Among(words::ERR, words::HASH_TERM), rows::KEPT_NUMBER, rows::VARIABLE)],
    // NUMBER
    &[Item::Typed(Leaf::Number, codes::S17_NUMERIC)],
    // PARENTHESES
    &[Item::Sign(b'(', codes::S10_OPEN), Item::Nest(rows::SUM), Item::Sign(b')', codes::S11_CLOSE)],
    // FUNCTION
    &[Item::Word(words::FN), Item::Typed(Leaf::FunctionName, codes::S22_WORD), Item::Sign(b'(', codes::S10_OPEN), Item::Nest(rows::SUM), Item::Sign(b')', codes::S11_CLOSE)],
    // OF_ONE
    &[Item::Among(words::ABS_OPEN, words::SQR_OPEN, codes::S17_NUMERIC), Item::Nest(rows::SUM), Item::Sign(b')', codes::S11_CLOSE)],
    // OF_TWO
    &[Item::Among(words::ROUND_OPEN, words::MOD_OPEN, codes::S17_NUMERIC), Item::Nest(rows::TWO_NUMBERS), Item::Sign(b')', codes::S11_CLOSE)],
    // OF_MORE
    &[Item::Among(words::MAX_OPEN, words::MIN_OPEN, codes::S17_NUMERIC), Item::Nest(rows::NUMBERS_2), Item::Sign(b')', codes::S11_CLOSE)],
    // OF_ALPHA
    &[Item::Among(words::LEN_OPEN, words::NUM_OPEN, codes::S17_NUMERIC), Item::Nest(rows::ALPHA), Item::Sign(b')', codes::S11_CLOSE)],
    // POSITION
    &[Item::Word(words::POS_OPEN), Item::Nest(rows::POSITION_ARGUMENTS), Item::Sign(b')', codes::S11_CLOSE)],
    // VALUE
    &[Item::Word(words::VAL_OPEN), Item::Nest(rows::ALPHA_AND_NUMBER), Item::Sign(b')', codes::S11_CLOSE)],
    // KEPT_NUMBER
    &[Item::Among(words::ERR, words::HASH_TERM, codes::S17_NUMERIC)],
    // VARIABLE
    &[Item::Typed(Leaf::Name, codes::S17_NUMERIC), Item::Maybe(Start::Code(b'('), rows::SUBSCRIPTS)],
    // TWO_NUMBERS
    &[Item::Part(rows::SUM), Item::Sign(b',', codes::S13_SEPARATOR), Item::Part(rows::SUM)],
    // COMMA_NUMBER
    &[Item::Sign(b',', codes::S13_SEPARATOR), Item::Part(rows::SUM)],
    // NUMBERS_2
    &[Item::Part(rows::SUM), Item::Sign(b',', codes::S13_SEPARATOR), Item::Part(rows::SUM), Item::Maybe(Start::Code(b','), rows::NUMBERS_3)],
    // NUMBERS_3
    &[Item::Sign(b',', codes::S13_SEPARATOR), Item::Part(rows::SUM), Item::Maybe(Start::Code(b','), rows::NUMBERS_4)],
    // NUMBERS_4
    &[Item::Sign(b',', codes::S13_SEPARATOR), Item::Part(rows::SUM), Item::Maybe(Start::Code(b','), rows::NUMBERS_5)],
    // NUMBERS_5
    &[Item::Sign(b',', codes::S13_SEPARATOR), Item::Part(rows::SUM), Item::Maybe(Start::Code(b','), rows::NUMBERS_6)],
    // NUMBERS_6
    &[Item::Sign(b',', codes::S13_SEPARATOR), Item::Part(rows::SUM), Item::Maybe(Start::Code(b','), rows::NUMBERS_7)],
    // NUMBERS_7
    &[Item::Sign(b',', codes::S13_SEPARATOR), Item::Part(rows::SUM), Item::Maybe(Start::Code(b','), rows::COMMA_NUMBER)],
    // POSITION_ARGUMENTS
    &[Item::Part(rows::ALPHA), Item::Typed(Leaf::Relation, codes::S21_COMPARISON), Item::Part(rows::ALPHA)],
    // ALPHA_AND_NUMBER
    &[Item::Part(rows::ALPHA), Item::Maybe(Start::Code(b','), rows::COMMA_NUMBER)],
    // SUBSCRIPTS
    &[Item::Sign(b'(', codes::S10_OPEN), Item::Nest(rows::ONE_OR_TWO_NUMBERS), Item::Sign(b')', codes::S11_CLOSE)],
    // ONE_OR_TWO_NUMBERS
    &[Item::Part(rows::SUM), Item::Maybe(Start::Code(b','), rows::COMMA_NUMBER)],
    // alpha expressions
    // ALPHA
    &[Item::Part(rows::ALPHA_OPERAND), Item::Many(Start::Code(b'&'), rows::JOINED)],
    // JOINED
    &[Item::Sign(b'&', codes::S22_WORD), Item::Part(rows::ALPHA_OPERAND)],
    // ALPHA_OPERAND
    &[Item::Either(Start::Code(b'"'), rows::LITERAL, rows::ALPHA_BUT_LITERAL)],
    // ALPHA_BUT_LITERAL
    &[Item::Either(Start::Code(words::STR_OPEN), rows::STRING_PART, rows::ALPHA_BUT_PART)],
    // ALPHA_BUT_PART
    &[Item::Either(Start::Code(words::HEX_OPEN), rows::HEX, rows::ALPHA_BUT_HEX)],
    // ALPHA_BUT_HEX
    &[Item::Either(Start::Code(words::BIN_OPEN), rows::BINARY, rows::ALPHA_VARIABLE)],
    // LITERAL
    &[Item::Typed(Leaf::Literal, codes::S18_ALPHA)],
    // STRING_PART
    &[Item::Word(words::STR_OPEN), Item::Nest(rows::STRING_PART_ARGUMENTS), Item::Sign(b')', codes::S11_CLOSE)],
    // STRING_PART_ARGUMENTS
    &[Item::Part(rows::ALPHA_RECEIVER_VARIABLE), Item::Sign(b',', codes::S13_SEPARATOR), Item::Part(rows::SUM), Item::Maybe(Start::Code(b','), rows::COMMA_NUMBER)],
    // HEX
    &[Item::Word(words::HEX_OPEN), Item::Nest(rows::HEX_PAIRS), Item::Sign(b')', codes::S11_CLOSE)],
    // HEX_PAIRS
    &[Item::Typed(Leaf::HexPair, codes::S19_HEX_OR_QUOTE), Item::Many(Start::Hex, rows::HEX_PAIR)],
];

/// The rows from 64 on.
#[rattlefmt::skip]
pub const ROWS_1: [&[Item]; 64] = [
    // HEX_PAIR
    &[Item::Typed(Leaf::HexPair, codes::S19_HEX_OR_QUOTE)],
    // BINARY
    &[Item::Word(words::BIN_OPEN), Item::Nest(rows::ONE_OR_TWO_NUMBERS), Item::Sign(b')', codes::S11_CLOSE)],
    // ALPHA_VARIABLE
    &[Item::Typed(Leaf::AlphaName, codes::S18_ALPHA), Item::Maybe(Start::Code(b'('), rows::SUBSCRIPTS)],
    // conditions
    // CONDITION
    &[Item::Part(rows::COMPARISON), Item::Many(Start::Among(words::AND, words::XOR), rows::FURTHER_COMPARISON)],
    // FURTHER_COMPARISON
    &[Item::Among(words::AND, words::XOR, codes::S22_WORD), Item::Part(rows::COMPARISON)],
    // COMPARISON
    &[Item::Either(Start::Alpha, rows::ALPHA_COMPARISON, rows::NUMERIC_COMPARISON)],
    // ALPHA_COMPARISON
    &[Item::Part(rows::ALPHA), Item::Typed(Leaf::Relation, codes::S21_COMPARISON), Item::Part(rows::ALPHA)],
    // NUMERIC_COMPARISON
    &[Item::Part(rows::SUM), Item::Typed(Leaf::Relation, codes::S21_COMPARISON), Item::Part(rows::SUM)],
    // receivers and operands
    // NUMERIC_RECEIVER
    &[Item::Typed(Leaf::Name, codes::S20_VARIABLE), Item::Maybe(Start::Code(b'('), rows::SUBSCRIPTS)],
    // ALPHA_RECEIVER
    &[Item::Either(Start::Code(words::STR_OPEN), rows::STRING_PART, rows::ALPHA_RECEIVER_VARIABLE)],
    // ALPHA_RECEIVER_VARIABLE
    &[Item::Typed(Leaf::AlphaName, codes::S20_VARIABLE), Item::Maybe(Start::Code(b'('), rows::SUBSCRIPTS)],
    // RECEIVER
    &[Item::Either(Start::Alpha, rows::ALPHA_RECEIVER, rows::NUMERIC_RECEIVER)],
    // COMMA_NUMERIC_RECEIVER
    &[Item::Sign(b',', codes::S13_SEPARATOR), Item::Part(rows::NUMERIC_RECEIVER)],
    // COMMA_ALPHA_RECEIVER
    &[Item::Sign(b',', codes::S13_SEPARATOR), Item::Part(rows::ALPHA_RECEIVER)],
    // COMMA_RECEIVER
    &[Item::Sign(b',', codes::S13_SEPARATOR), Item::Part(rows::RECEIVER)],
    // RECEIVERS
    &[Item::Part(rows::RECEIVER), Item::Many(Start::Code(b','), rows::COMMA_RECEIVER)],
    // BUFFER
    &[Item::Either(Start::Code(words::STR_OPEN), rows::STRING_PART, rows::BUFFER_VARIABLE)],
    // BUFFER_VARIABLE
    &[Item::Either(Start::Array, rows::ALPHA_ARRAY, rows::ALPHA_RECEIVER_VARIABLE)],
    // COMMA_BUFFER
    &[Item::Sign(b',', codes::S13_SEPARATOR), Item::Part(rows::BUFFER)],
    // OPERAND_OF_ANY_KIND
    &[Item::Either(Start::Alpha, rows::ALPHA, rows::SUM)],
    // COMMA_OPERAND
    &[Item::Sign(b',', codes::S13_SEPARATOR), Item::Part(rows::OPERAND_OF_ANY_KIND)],
    // OPERANDS
    &[Item::Part(rows::OPERAND_OF_ANY_KIND), Item::Many(Start::Code(b','), rows::COMMA_OPERAND)],
    // ALPHA_ARRAY
    &[Item::Typed(Leaf::AlphaName, codes::S20_VARIABLE), Item::Sign(b'(', codes::S10_OPEN), Item::Sign(b')', codes::S11_CLOSE)],
    // NUMERIC_ARRAY
    &[Item::Typed(Leaf::Name, codes::S20_VARIABLE), Item::Sign(b'(', codes::S10_OPEN), Item::Sign(b')', codes::S11_CLOSE)],
    // WHOLE_ARRAY
    &[Item::Either(Start::Alpha, rows::ALPHA_ARRAY, rows::NUMERIC_ARRAY)],
    // SAVED
    &[Item::Either(Start::Array, rows::WHOLE_ARRAY, rows::OPERAND_OF_ANY_KIND)],
    // COMMA_SAVED
    &[Item::Sign(b',', codes::S13_SEPARATOR), Item::Part(rows::SAVED)],
    // LOADED
    &[Item::Either(Start::Array, rows::WHOLE_ARRAY, rows::RECEIVER)],
    // COMMA_LOADED
    &[Item::Sign(b',', codes::S13_SEPARATOR), Item::Part(rows::LOADED)],
    // NUMERIC_NAME
    &[Item::Typed(Leaf::Name, codes::S20_VARIABLE)],
    // ALPHA_NAME
    &[Item::Typed(Leaf::AlphaName, codes::S20_VARIABLE)],
    // devices
    // DEVICE
    &[Item::Sign(b'/', codes::S23_DEVICE), Item::Typed(Leaf::Address, codes::S23_DEVICE)],
    // COMMA_DEVICE_2
    &[Item::Sign(b',', codes::S13_SEPARATOR), Item::Part(rows::DEVICE), Item::Maybe(Start::Code(b','), rows::COMMA_DEVICE_3)],
    // COMMA_DEVICE_3
    &[Item::Sign(b',', codes::S13_SEPARATOR), Item::Part(rows::DEVICE), Item::Maybe(Start::Code(b','), rows::COMMA_DEVICE_4)],
    // COMMA_DEVICE_4
    &[Item::Sign(b',', codes::S13_SEPARATOR), Item::Part(rows::DEVICE)],
    // DEVICES
    &[Item::Part(rows::DEVICE), Item::Maybe(Start::Code(b','), rows::COMMA_DEVICE_2)],
    // DRIVE
    &[Item::Either(Start::Two(b'F', b'R'), rows::LEFT_OUT, rows::DRIVE_OF_T)],
    // DRIVE_OF_T
    &[Item::Sign(b'T', codes::S23_DEVICE), Item::Maybe(Start::Code(b'/'), rows::DEVICE)],
    // DRIVE_COMMA
    &[Item::Either(Start::Two(b'F', b'R'), rows::LEFT_OUT, rows::DRIVE_OF_T_COMMA)],
    // DRIVE_OF_T_COMMA
    &[Item::Sign(b'T', codes::S23_DEVICE), Item::Either(Start::Code(b'/'), rows::DEVICE_COMMA, rows::COMMA_AFTER_T)],
    // DEVICE_COMMA
    &[Item::Part(rows::DEVICE), Item::Sign(b',', codes::S13_SEPARATOR)],
    // COMMA_AFTER_T
    &[Item::Comma],
    // SLOT
    &[Item::Typed(Leaf::Slot, codes::S24_SMALL_NUMBER), Item::Sign(b',', codes::S13_SEPARATOR)],
    // statements on variables and on the course of a program
    // ASSIGNMENT
    &[Item::Either(Start::Alpha, rows::ALPHA_ASSIGNMENT, rows::NUMERIC_ASSIGNMENT)],
    // NUMERIC_ASSIGNMENT
    &[Item::Part(rows::NUMERIC_RECEIVER), Item::Many(Start::Code(b','), rows::COMMA_NUMERIC_RECEIVER), Item::Sign(b'=', codes::S12_EQUALS), Item::Part(rows::SUM)],
    // ALPHA_ASSIGNMENT
    &[Item::Part(rows::ALPHA_RECEIVER), Item::Many(Start::Code(b','), rows::COMMA_ALPHA_RECEIVER), Item::Sign(b'=', codes::S12_EQUALS), Item::Either(Start::Alpha, rows::FIRST_AND_OPERATIONS, rows::OPERATIONS)],
    // FIRST_AND_OPERATIONS
    &[Item::Part(rows::ALPHA), Item::Many(Start::Among(words::AND, words::DSC), rows::OPERATION)],
    // OPERATIONS
    &[Item::Part(rows::OPERATION), Item::Many(Start::Among(words::AND, words::DSC), rows::OPERATION)],
    // OPERATION
    &[Item::Either(Start::Code(words::BOOL), rows::BOOLEAN, rows::OTHER_OPERATION)],
    // BOOLEAN
    &[Item::Word(words::BOOL), Item::Typed(Leaf::HexDigit, codes::S19_HEX_OR_QUOTE), Item::Part(rows::ALPHA)],
    // OTHER_OPERATION
    &[Item::Either(Start::Among(words::AND, words::XOR), rows::LOGICAL, rows::BINARY_SUM)],
    // LOGICAL
    &[Item::Among(words::AND, words::XOR, codes::S18_ALPHA), Item::Part(rows::ALPHA)],
    // BINARY_SUM
    &[Item::Among(words::ADD, words::DSC, codes::S18_ALPHA), Item::Part(rows::ALPHA)],
    // REMARK
    &[Item::Word(words::REM), Item::Typed(Leaf::Text, codes::S14_STATEMENT)],
    // IMAGE_LINE
    &[Item::Sign(b'%', codes::S14_STATEMENT), Item::Typed(Leaf::Text, codes::S14_STATEMENT)],
    // DIM
    &[Item::Among(words::DIM, words::COM, codes::S22_WORD), Item::Part(rows::DIMENSIONED), Item::Many(Start::Code(b','), rows::COMMA_DIMENSIONED)],
    // COMMA_DIMENSIONED
    &[Item::Sign(b',', codes::S13_SEPARATOR), Item::Part(rows::DIMENSIONED)],
    // DIMENSIONED
    &[Item::Either(Start::Alpha, rows::DIMENSIONED_ALPHA, rows::DIMENSIONED_NUMERIC)],
    // DIMENSIONED_ALPHA
    &[Item::Typed(Leaf::AlphaName, codes::S20_VARIABLE), Item::Either(Start::Code(b'('), rows::SUBSCRIPTS_AND_LENGTH, rows::MAYBE_LENGTH)],
    // DIMENSIONED_NUMERIC
    &[Item::Typed(Leaf::Name, codes::S20_VARIABLE), Item::Maybe(Start::Code(b'('), rows::SUBSCRIPTS_AND_LENGTH)],
    // SUBSCRIPTS_AND_LENGTH
    &[Item::Part(rows::SUBSCRIPTS), Item::Maybe(Start::Numeric, rows::SUM)],
    // MAYBE_LENGTH
    &[Item::Maybe(Start::Numeric, rows::LENGTH)],
    // LENGTH
    &[Item::Part(rows::LENGTH_PRODUCT), Item::Many(Start::Two(b'+', b'-'), rows::ADDEND)],
    // LENGTH_PRODUCT
    &[Item::Part(rows::LENGTH_FACTOR), Item::Many(Start::Two(b'*', b'/'), rows::MULTIPLIER)],
];

/// The rows from 128 on.
#[rattlefmt::skip]
pub const ROWS_2: [&[Item]; 64] = [
    // LENGTH_FACTOR
    &[Item::Either(Start::Two(b'+', b'-'), rows::SIGNED_FACTOR, rows::LENGTH_POWER)],
    // SIGNED_FACTOR
    &[Item::Part(rows::SIGN), Item::Part(rows::POWER)],
    // LENGTH_POWER
    &[Item::Part(rows::LENGTH_OPERAND), Item::Many(Start::Code(b'^'), rows::EXPONENT)],
    // LENGTH_OPERAND
    &[Item::Either(Start::Number, rows::NUMBER, rows::NAMED_OPERAND)],
    // GOTO
    &[Item::Word(words::GOTO), Item::Typed(Leaf::LineNumber, codes::S15_LINE_NUMBER)],
    // GOSUB
    &[Item::Word(words::GOSUB), Item::Typed(Leaf::LineNumber, codes::S15_LINE_NUMBER)],
    // GOSUB_MARKED
    &[Item::Word(words::GOSUB_PRIME), Item::Typed(Leaf::Small, codes::S24_SMALL_NUMBER), Item::Maybe(Start::Code(b'('), rows::ARGUMENTS)],
    // ARGUMENTS
    &[Item::Sign(b'(', codes::S10_OPEN), Item::Nest(rows::OPERANDS), Item::Sign(b')', codes::S11_CLOSE)],
    // RETURN
    &[Item::Word(words::RETURN)],
    // RETURN_CLEAR
    &[Item::Word(words::RETURN), Item::Word(words::CLEAR), Item::Maybe(Start::Code(words::ALL), rows::ALL)],
    // ALL
    &[Item::Word(words::ALL)],
    // ON
    &[Item::Word(words::ON), Item::Part(rows::SUM), Item::Either(Start::Code(words::GOTO), rows::ON_GOTO, rows::ON_GOSUB)],
    // ON_GOTO
    &[Item::Word(words::GOTO), Item::Typed(Leaf::LineNumber, codes::S15_LINE_NUMBER), Item::Many(Start::Code(b','), rows::COMMA_LINE)],
    // ON_GOSUB
    &[Item::ProgramWord(words::GOSUB), Item::Typed(Leaf::LineNumber, codes::S15_LINE_NUMBER), Item::Many(Start::Code(b','), rows::COMMA_LINE)],
    // IF
    &[Item::Word(words::IF), Item::Part(rows::CONDITION), Item::Word(words::THEN), Item::Either(Start::Line, rows::LINE_NUMBER, rows::FOLLOWING)],
    // IF_END
    &[Item::Word(words::IF), Item::Word(words::END), Item::Word(words::THEN), Item::Typed(Leaf::LineNumber, codes::S15_LINE_NUMBER)],
    // ELSE
    &[Item::Word(words::ELSE), Item::Either(Start::Line, rows::LINE_NUMBER, rows::FOLLOWING)],
    // ERROR
    &[Item::Word(words::ERROR), Item::Part(rows::FOLLOWING)],
    // FOR
    &[Item::Word(words::FOR), Item::Typed(Leaf::LocalName, codes::S20_VARIABLE), Item::Sign(b'=', codes::S12_EQUALS), Item::Part(rows::SUM), Item::Word(words::TO), Item::Part(rows::SUM), Item::Maybe(Start::Code(words::STEP), rows::STEP)],
    // STEP
    &[Item::Word(words::STEP), Item::Part(rows::SUM)],
    // NEXT
    &[Item::Word(words::NEXT), Item::Typed(Leaf::LocalName, codes::S20_VARIABLE)],
    // END
    &[Item::Word(words::END)],
    // STOP
    &[Item::Word(words::STOP), Item::Maybe(Start::Code(b'"'), rows::LITERAL)],
    // DEFFN
    &[Item::Word(words::DEFFN), Item::Either(Start::Code(words::GLOBAL_PART), rows::GLOBAL_PART, rows::FUNCTION_BODY)],
    // GLOBAL_PART
    &[Item::Word(words::GLOBAL_PART), Item::Part(rows::LITERAL)],
    // FUNCTION_BODY
    &[Item::Typed(Leaf::FunctionName, codes::S22_WORD), Item::Sign(b'(', codes::S10_OPEN), Item::Nest(rows::NUMERIC_NAME), Item::Sign(b')', codes::S11_CLOSE), Item::Sign(b'=', codes::S12_EQUALS), Item::Part(rows::SUM)],
    // DEFFN_MARKED
    &[Item::Word(words::DEFFN_PRIME), Item::Typed(Leaf::Small, codes::S24_SMALL_NUMBER), Item::Maybe(Start::Two(b'"', b'('), rows::MARKED_TAIL)],
    // MARKED_TAIL
    &[Item::Either(Start::Code(b'"'), rows::LITERAL, rows::PARAMETERS)],
    // PARAMETERS
    &[Item::Sign(b'(', codes::S10_OPEN), Item::Nest(rows::RECEIVERS), Item::Sign(b')', codes::S11_CLOSE)],
    // READ
    &[Item::Word(words::READ), Item::Part(rows::RECEIVER), Item::Many(Start::Code(b','), rows::COMMA_RECEIVER)],
    // DATA
    &[Item::Word(words::DATA), Item::Part(rows::DATUM), Item::Many(Start::Code(b','), rows::COMMA_DATUM)],
    // COMMA_DATUM
    &[Item::Sign(b',', codes::S13_SEPARATOR), Item::Part(rows::DATUM)],
    // DATUM
    &[Item::Either(Start::Code(b'"'), rows::LITERAL, rows::NUMBER_DATUM)],
    // NUMBER_DATUM
    &[Item::Typed(Leaf::SignedNumber, codes::S16_NUMBER_LITERAL)],
    // RESTORE
    &[Item::Word(words::RESTORE), Item::Maybe(Start::Code(words::LINE), rows::LINE_OF_DATA)],
    // LINE_OF_DATA
    &[Item::Word(words::LINE), Item::Typed(Leaf::LineNumber, codes::S15_LINE_NUMBER)],
    // CLEAR
    &[Item::Word(words::CLEAR)],
    // CLEAR_V
    &[Item::Word(words::CLEAR), Item::Sign(b'V', codes::S22_WORD)],
    // CLEAR_N
    &[Item::Word(words::CLEAR), Item::Sign(b'N', codes::S22_WORD)],
    // CLEAR_P
    &[Item::Word(words::CLEAR), Item::Sign(b'P', codes::S22_WORD), Item::Maybe(Start::Line, rows::LINE_NUMBERS)],
    // INIT
    &[Item::Word(words::INIT_OPEN), Item::Nest(rows::HEX_PAIR), Item::Sign(b')', codes::S11_CLOSE), Item::Part(rows::BUFFER), Item::Many(Start::Code(b','), rows::COMMA_BUFFER)],
    // CONVERT
    &[Item::Word(words::CONVERT), Item::Either(Start::Alpha, rows::CONVERT_ALPHA, rows::CONVERT_NUMBER)],
    // CONVERT_ALPHA
    &[Item::Part(rows::ALPHA), Item::Word(words::TO), Item::Part(rows::NUMERIC_RECEIVER)],
    // CONVERT_NUMBER
    &[Item::Part(rows::SUM), Item::Word(words::TO), Item::Part(rows::ALPHA_RECEIVER), Item::Sign(b',', codes::S13_SEPARATOR), Item::Sign(b'(', codes::S10_OPEN), Item::Typed(Leaf::Image, codes::S11_CLOSE)],
    // ROTATE
    &[Item::Among(words::ROTATE_OPEN, words::ROTATEC_OPEN, codes::S22_WORD), Item::Nest(rows::ROTATION), Item::Sign(b')', codes::S11_CLOSE)],
    // ROTATION
    &[Item::Part(rows::ALPHA_RECEIVER), Item::Sign(b',', codes::S13_SEPARATOR), Item::Part(rows::SUM)],
    // SELECT
    &[Item::Word(words::SELECT), Item::Either(Start::Letters(b'O', b'F', b'F'), rows::LEFT_OUT, rows::ROUND)],
    // ROUND
    &[Item::Word(words::ROUND)],
    // SELECT_NO_ROUND
    &[Item::Word(words::SELECT), Item::Word(words::NO), Item::Word(words::ROUND)],
    // SELECT_PRINT
    &[Item::Word(words::SELECT), Item::Word(words::PRINT), Item::Typed(Leaf::Address, codes::S23_DEVICE)],
    // SELECT_DISK
    &[Item::Word(words::SELECT), Item::Word(words::DISK), Item::Typed(Leaf::Address, codes::S23_DEVICE)],
    // SELECT_PART
    &[Item::Word(words::SELECT), Item::Part(rows::GLOBAL_PART)],
    // SELECT_LEFT_OUT
    &[Item::Word(words::SELECT), Item::LeftOut],
    // statements at the terminal
    // PRINT
    &[Item::Word(words::PRINT), Item::Maybe(Start::PrintItem, rows::PRINT_ITEM), Item::Many(Start::Two(b',', b';'), rows::FURTHER_ITEM)],
    // FURTHER_ITEM
    &[Item::Part(rows::SEPARATOR), Item::Maybe(Start::PrintItem, rows::PRINT_ITEM)],
    // SEPARATOR
    &[Item::Either(Start::Code(b','), rows::COMMA, rows::SEMICOLON)],
    // COMMA
    &[Item::Sign(b',', codes::S13_SEPARATOR)],
    // SEMICOLON
    &[Item::Sign(b';', codes::S13_SEPARATOR)],
    // PRINT_ITEM
    &[Item::Either(Start::Code(words::TAB_OPEN), rows::TAB, rows::PRINT_BUT_TAB)],
    // PRINT_BUT_TAB
    &[Item::Either(Start::Code(words::HEXOF_OPEN), rows::HEXOF, rows::PRINT_BUT_HEXOF)],
    // TAB
    &[Item::Word(words::TAB_OPEN), Item::Nest(rows::SUM), Item::Sign(b')', codes::S11_CLOSE)],
    // HEXOF
    &[Item::Word(words::HEXOF_OPEN), Item::Nest(rows::ALPHA), Item::Sign(b')', codes::S11_CLOSE)],
    // PRINTUSING
    &[Item::Word(words::PRINTUSING), Item::Either(Start::Line, rows::LINE_NUMBER, rows::IMAGE_LITERAL), Item::Sign(b',', codes::S13_SEPARATOR), Item::Part(rows::OPERAND_OF_ANY_KIND), Item::Many(Start::Code(b','), rows::COMMA_OPERAND), Item::Maybe(Start::Code(b';'), rows::SEMICOLON)],
    // IMAGE_LITERAL
    &[Item::Typed(Leaf::Literal, codes::S15_LINE_NUMBER)],
];

/// The rows from 192 on.
#[rattlefmt::skip]
pub const ROWS_3: [&[Item]; 72] = [
    // INPUT
    &[Item::Word(words::INPUT), Item::Maybe(Start::Code(b'"'), rows::PROMPT), Item::Part(rows::RECEIVER), Item::Many(Start::Code(b','), rows::COMMA_RECEIVER)],
    // LINPUT
    &[Item::Word(words::LINPUT), Item::Maybe(Start::Code(b'"'), rows::PROMPT), Item::Part(rows::ALPHA_RECEIVER)],
    // PROMPT
    &[Item::Part(rows::LITERAL), Item::Sign(b',', codes::S13_SEPARATOR)],
    // KEYIN
    &[Item::Word(words::KEYIN), Item::Part(rows::ALPHA_RECEIVER), Item::Maybe(Start::Code(b','), rows::COMMA_TWO_LINES)],
    // COMMA_TWO_LINES
    &[Item::Sign(b',', codes::S13_SEPARATOR), Item::Typed(Leaf::LineNumber, codes::S15_LINE_NUMBER), Item::Sign(b',', codes::S13_SEPARATOR), Item::Typed(Leaf::LineNumber, codes::S15_LINE_NUMBER)],
    // BREAK
    &[Item::Word(words::DOLLAR_BREAK), Item::Maybe(Start::Numeric, rows::SUM)],
    // OPEN
    &[Item::Word(words::DOLLAR_OPEN), Item::Maybe(Start::Line, rows::LINE_AND_COMMA), Item::Part(rows::DEVICES)],
    // LINE_AND_COMMA
    &[Item::Typed(Leaf::LineNumber, codes::S15_LINE_NUMBER), Item::Sign(b',', codes::S13_SEPARATOR)],
    // CLOSE
    &[Item::Word(words::DOLLAR_CLOSE), Item::Maybe(Start::Code(b'/'), rows::DEVICES)],
    // statements on arrays and on packed fields
    // MAT
    &[Item::Word(words::MAT), Item::Typed(Leaf::Name, codes::S20_VARIABLE), Item::Sign(b'=', codes::S12_EQUALS), Item::Either(Start::Code(b'('), rows::SCALED, rows::MATRIX_BUT_SCALED)],
    // SCALED
    &[Item::Sign(b'(', codes::S10_OPEN), Item::Nest(rows::SUM), Item::Sign(b')', codes::S11_CLOSE), Item::Sign(b'*', codes::S22_WORD), Item::Typed(Leaf::Name, codes::S20_VARIABLE)],
    // MATRIX_BUT_SCALED
    &[Item::Either(Start::Code(words::TRN_OPEN), rows::TRANSPOSED, rows::MATRIX_BUT_TRANSPOSED)],
    // TRANSPOSED
    &[Item::Word(words::TRN_OPEN), Item::Nest(rows::NUMERIC_NAME), Item::Sign(b')', codes::S11_CLOSE)],
    // MATRIX_BUT_TRANSPOSED
    &[Item::Either(Start::Among(words::CON, words::IDN), rows::FILLED, rows::MATRICES)],
    // FILLED
    &[Item::Among(words::CON, words::IDN, codes::S20_VARIABLE), Item::Maybe(Start::Code(b'('), rows::SUBSCRIPTS)],
    // MATRICES
    &[Item::Typed(Leaf::Name, codes::S20_VARIABLE), Item::Maybe(Start::Three(b'*', b'+', b'-'), rows::SECOND_MATRIX)],
    // SECOND_MATRIX
    &[Item::Either(Start::Code(b'*'), rows::TIMES, rows::SIGN), Item::Typed(Leaf::Name, codes::S20_VARIABLE)],
    // MAT_LEFT_OUT
    &[Item::Word(words::MAT), Item::LeftOut],
    // MAT_REDIM
    &[Item::Word(words::MAT), Item::Word(words::REDIM), Item::Either(Start::Alpha, rows::ALPHA_NAME, rows::NUMERIC_NAME), Item::Part(rows::SUBSCRIPTS_AND_LENGTH)],
    // MAT_SEARCH
    &[Item::Word(words::MAT), Item::Word(words::SEARCH), Item::Part(rows::BUFFER), Item::Sign(b',', codes::S13_SEPARATOR), Item::Typed(Leaf::Relation, codes::S21_COMPARISON), Item::Part(rows::ALPHA), Item::Word(words::TO), Item::Part(rows::ALPHA_RECEIVER), Item::Maybe(Start::Code(words::STEP), rows::STEP)],
    // MAT_MOVE
    &[Item::Word(words::MAT), Item::Word(words::MOVE), Item::Part(rows::ALPHA_ARRAY), Item::Sign(b',', codes::S13_SEPARATOR), Item::Part(rows::ALPHA_ARRAY), Item::Word(words::TO), Item::Part(rows::ALPHA_ARRAY)],
    // MAT_SORT
    &[Item::Word(words::MAT), Item::Word(words::SORT), Item::Part(rows::ALPHA_ARRAY), Item::Word(words::TO), Item::Part(rows::ALPHA_ARRAY), Item::Sign(b',', codes::S13_SEPARATOR), Item::Part(rows::ALPHA_ARRAY)],
    // MAT_COPY
    &[Item::Word(words::MAT), Item::Word(words::COPY), Item::Part(rows::ALPHA_ARRAY), Item::Word(words::TO), Item::Part(rows::ALPHA_ARRAY)],
    // PACK
    &[Item::Word(words::PACK_OPEN), Item::Typed(Leaf::Image, codes::S11_CLOSE), Item::Part(rows::BUFFER), Item::Word(words::FROM), Item::Part(rows::SUM), Item::Many(Start::Code(b','), rows::COMMA_NUMBER)],
    // UNPACK
    &[Item::Word(words::UNPACK_OPEN), Item::Typed(Leaf::Image, codes::S11_CLOSE), Item::Part(rows::BUFFER), Item::Word(words::TO), Item::Part(rows::NUMERIC_RECEIVER), Item::Many(Start::Code(b','), rows::COMMA_NUMERIC_RECEIVER)],
    // FIELD_PACK
    &[Item::Word(words::DOLLAR_PACK_OPEN), Item::Nest(rows::SPECIFICATION), Item::Sign(b')', codes::S11_CLOSE), Item::Part(rows::BUFFER), Item::Word(words::FROM), Item::Part(rows::OPERAND_OF_ANY_KIND), Item::Many(Start::Code(b','), rows::COMMA_OPERAND)],
    // FIELD_UNPACK
    &[Item::Word(words::DOLLAR_UNPACK_OPEN), Item::Nest(rows::SPECIFICATION), Item::Sign(b')', codes::S11_CLOSE), Item::Part(rows::BUFFER), Item::Word(words::TO), Item::Part(rows::RECEIVER), Item::Many(Start::Code(b','), rows::COMMA_RECEIVER)],
    // SPECIFICATION
    &[Item::Either(Start::Code(b'D'), rows::LEFT_OUT, rows::FIELDS)],
    // FIELDS
    &[Item::Sign(b'F', codes::S22_WORD), Item::Sign(b'=', codes::S12_EQUALS), Item::Part(rows::ALPHA_RECEIVER)],
    // statements on disks
    // LIMITS
    &[Item::Word(words::LIMITS), Item::Part(rows::DRIVE_COMMA), Item::Either(Start::Alpha, rows::FILE_LIMITS, rows::DISK_LIMITS)],
    // FILE_LIMITS
    &[Item::Part(rows::ALPHA), Item::Sign(b',', codes::S13_SEPARATOR), Item::Part(rows::NUMERIC_RECEIVER), Item::Sign(b',', codes::S13_SEPARATOR), Item::Part(rows::NUMERIC_RECEIVER), Item::Sign(b',', codes::S13_SEPARATOR), Item::Part(rows::NUMERIC_RECEIVER), Item::Maybe(Start::Code(b','), rows::COMMA_NUMERIC_RECEIVER)],
    // DISK_LIMITS
    &[Item::Part(rows::NUMERIC_RECEIVER), Item::Sign(b',', codes::S13_SEPARATOR), Item::Part(rows::NUMERIC_RECEIVER), Item::Sign(b',', codes::S13_SEPARATOR), Item::Part(rows::NUMERIC_RECEIVER)],
    // SCRATCH
    &[Item::Word(words::SCRATCH), Item::Part(rows::DRIVE_COMMA), Item::Part(rows::ALPHA)],
    // SCRATCH_DISK
    &[Item::Word(words::SCRATCH), Item::Word(words::DISK), Item::Part(rows::DRIVE_COMMA), Item::Word(words::LS), Item::Sign(b'=', codes::S12_EQUALS), Item::Part(rows::SUM), Item::Sign(b',', codes::S13_SEPARATOR), Item::Word(words::END), Item::Sign(b'=', codes::S12_EQUALS), Item::Part(rows::SUM)],
    // DATASAVE
    &[Item::Word(words::DATASAVE), Item::Word(words::DC), Item::Either(Start::Code(words::OPEN), rows::NEW_FILE, rows::SAVED_VALUES)],
    // NEW_FILE
    &[Item::Word(words::OPEN), Item::Part(rows::DRIVE_COMMA), Item::Maybe(Start::Code(b'#'), rows::SLOT), Item::Either(Start::AlphaInside, rows::SCRATCHED_FILE, rows::SUM), Item::Sign(b',', codes::S13_SEPARATOR), Item::Part(rows::ALPHA)],
    // SCRATCHED_FILE
    &[Item::Sign(b'(', codes::S10_OPEN), Item::Nest(rows::ALPHA), Item::Sign(b')', codes::S11_CLOSE)],
    // SAVED_VALUES
    &[Item::Maybe(Start::Code(b'#'), rows::SLOT), Item::Either(Start::Code(words::END), rows::END, rows::SAVED_LIST)],
    // SAVED_LIST
    &[Item::Part(rows::SAVED), Item::Many(Start::Code(b','), rows::COMMA_SAVED)],
    // DATALOAD
    &[Item::Word(words::DATALOAD), Item::Word(words::DC), Item::Either(Start::Code(words::OPEN), rows::OLD_FILE, rows::LOADED_VALUES)],
    // OLD_FILE
    &[Item::Word(words::OPEN), Item::Part(rows::DRIVE_COMMA), Item::Maybe(Start::Code(b'#'), rows::SLOT), Item::Part(rows::ALPHA)],
    // LOADED_VALUES
    &[Item::Maybe(Start::Code(b'#'), rows::SLOT), Item::Part(rows::LOADED), Item::Many(Start::Code(b','), rows::COMMA_LOADED)],
    // DSKIP
    &[Item::Word(words::DSKIP), Item::Maybe(Start::Code(b'#'), rows::SLOT), Item::Either(Start::Code(words::END), rows::END, rows::SUM)],
    // DBACKSPACE
    &[Item::Word(words::DBACKSPACE), Item::Maybe(Start::Code(b'#'), rows::SLOT), Item::Either(Start::Letters(b'B', b'E', b'G'), rows::BEG, rows::SUM)],
    // BEG
    &[Item::Sign(b'B', codes::S22_WORD), Item::Sign(b'E', codes::S22_WORD), Item::Sign(b'G', codes::S22_WORD)],
    // MOVE
    &[Item::Word(words::MOVE), Item::Either(Start::Two(b'F', b'R'), rows::LEFT_OUT, rows::MOVED), Item::Word(words::TO), Item::Part(rows::DRIVE)],
    // MOVED
    &[Item::Sign(b'T', codes::S23_DEVICE), Item::Either(Start::Code(b'/'), rows::MOVED_FROM_DEVICE, rows::MOVED_FROM_T)],
    // MOVED_FROM_DEVICE
    &[Item::Part(rows::DEVICE), Item::Maybe(Start::Code(b','), rows::COMMA_ALPHA)],
    // COMMA_ALPHA
    &[Item::Sign(b',', codes::S13_SEPARATOR), Item::Part(rows::ALPHA)],
    // MOVED_FROM_T
    &[Item::Maybe(Start::CommaOrAlpha, rows::COMMA_AFTER_T_AND_ALPHA)],
    // COMMA_AFTER_T_AND_ALPHA
    &[Item::Comma, Item::Part(rows::ALPHA)],
    // SAVE
    &[Item::Word(words::SAVE), Item::Ignored(words::DC), Item::Part(rows::DRIVE_COMMA), Item::Maybe(Start::Code(b'('), rows::SCRATCHED_AND_COMMA), Item::Part(rows::ALPHA), Item::Maybe(Start::Code(b','), rows::COMMA_LINES)],
    // SCRATCHED_AND_COMMA
    &[Item::Part(rows::SCRATCHED_FILE), Item::Sign(b',', codes::S13_SEPARATOR)],
    // LOAD
    &[Item::Word(words::LOAD), Item::Ignored(words::DC), Item::Maybe(Start::Code(words::RUN), rows::RUN_WORD), Item::Part(rows::DRIVE_COMMA), Item::Part(rows::ALPHA)],
    // RUN_WORD
    &[Item::Word(words::RUN)],
    // LIST
    &[Item::Word(words::LIST), Item::Maybe(Start::Line, rows::LINE_NUMBERS)],
    // LIST_DISK
    &[Item::Word(words::LIST), Item::Word(words::DC), Item::Part(rows::DRIVE)],
    // RUN
    &[Item::Word(words::RUN), Item::Maybe(Start::Line, rows::LINE_NUMBER)],
    // CONTINUE
    &[Item::Word(words::CONTINUE)],
    // PRINT_BUT_HEXOF
    &[Item::Either(Start::Code(words::AT_OPEN), rows::AT, rows::PRINT_BUT_AT)],
    // PRINT_BUT_AT
    &[Item::Either(Start::Code(words::BOX_OPEN), rows::BOX, rows::OPERAND_OF_ANY_KIND)],
    // AT
    &[Item::Word(words::AT_OPEN), Item::Nest(rows::AT_NUMBERS), Item::Sign(b')', codes::S11_CLOSE)],
    // AT_NUMBERS
    &[Item::Part(rows::SUM), Item::Sign(b',', codes::S13_SEPARATOR), Item::Part(rows::SUM), Item::Maybe(Start::Code(b','), rows::COMMA_NUMBER)],
    // BOX
    &[Item::Word(words::BOX_OPEN), Item::Nest(rows::BOX_NUMBERS), Item::Sign(b')', codes::S11_CLOSE)],
    // BOX_NUMBERS
    &[Item::Part(rows::SUM), Item::Sign(b',', codes::S13_SEPARATOR), Item::Part(rows::SUM)],
    // RELEASE
    &[Item::Word(words::DOLLAR_RELEASE), Item::Word(words::TERMINAL)],
    // SECTOR
    &[Item::Sign(b'(', codes::S10_OPEN), Item::Nest(rows::SECTOR_NUMBERS), Item::Sign(b')', codes::S11_CLOSE)],
    // SECTOR_NUMBERS
    &[Item::Part(rows::SUM), Item::Maybe(Start::Code(b','), rows::COMMA_NUMERIC_RECEIVER)],
    // SAVE_RECORD
    &[Item::Word(words::DATASAVE), Item::ShortWord(words::DA), Item::Part(rows::DRIVE_COMMA), Item::Part(rows::SECTOR), Item::Either(Start::Code(words::END), rows::END, rows::SAVED_LIST)],
    // LOAD_RECORD
    &[Item::Word(words::DATALOAD), Item::ShortWord(words::DA), Item::Part(rows::DRIVE_COMMA), Item::Part(rows::SECTOR), Item::Part(rows::LOADED), Item::Many(Start::Code(b','), rows::COMMA_LOADED)],
    // SAVE_BLOCK
    &[Item::Word(words::DATASAVE), Item::ShortWord(words::BA), Item::Part(rows::DRIVE_COMMA), Item::Part(rows::SECTOR), Item::Part(rows::BUFFER)],
    // LOAD_BLOCK
    &[Item::Word(words::DATALOAD), Item::ShortWord(words::BA), Item::Part(rows::DRIVE_COMMA), Item::Part(rows::SECTOR), Item::Part(rows::BUFFER)],
];

/// The statements, by what they begin with; the first that begins is the one.
#[rattlefmt::skip]
pub const FORMS: [Form; 76] = [
    Form { start: Start::Code(words::REM), rule: Rule::Anywhere, row: rows::REMARK },
    Form { start: Start::Code(b'%'), rule: Rule::First, row: rows::IMAGE_LINE },
    Form { start: Start::Among(words::DIM, words::COM), rule: Rule::Anywhere, row: rows::DIM },
    Form { start: Start::Code(words::GOTO), rule: Rule::Anywhere, row: rows::GOTO },
    Form { start: Start::Code(words::GOSUB), rule: Rule::Program, row: rows::GOSUB },
    Form { start: Start::Code(words::GOSUB_PRIME), rule: Rule::Program, row: rows::GOSUB_MARKED },
    Form { start: Start::Pair(words::RETURN, words::CLEAR), rule: Rule::Program, row: rows::RETURN_CLEAR },
    Form { start: Start::Code(words::RETURN), rule: Rule::Program, row: rows::RETURN },
    Form { start: Start::Code(words::ON), rule: Rule::Anywhere, row: rows::ON },
    Form { start: Start::Pair(words::IF, words::END), rule: Rule::Anywhere, row: rows::IF_END },
    Form { start: Start::Code(words::IF), rule: Rule::Anywhere, row: rows::IF },
    Form { start: Start::Code(words::ELSE), rule: Rule::AfterColon, row: rows::ELSE },
    Form { start: Start::Code(words::ERROR), rule: Rule::AfterColon, row: rows::ERROR },
    Form { start: Start::Code(words::FOR), rule: Rule::Anywhere, row: rows::FOR },
    Form { start: Start::Code(words::NEXT), rule: Rule::Anywhere, row: rows::NEXT },
    Form { start: Start::Code(words::END), rule: Rule::Anywhere, row: rows::END },
    Form { start: Start::Code(words::STOP), rule: Rule::Anywhere, row: rows::STOP },
    Form { start: Start::Code(words::DEFFN), rule: Rule::FirstInProgram, row: rows::DEFFN },
    Form { start: Start::Code(words::DEFFN_PRIME), rule: Rule::FirstInProgram, row: rows::DEFFN_MARKED },
    Form { start: Start::Code(words::READ), rule: Rule::Anywhere, row: rows::READ },
    Form { start: Start::Code(words::DATA), rule: Rule::Program, row: rows::DATA },
    Form { start: Start::Code(words::RESTORE), rule: Rule::Anywhere, row: rows::RESTORE },
    Form { start: Start::Pair(words::CLEAR, b'V'), rule: Rule::Anywhere, row: rows::CLEAR_V },
    Form { start: Start::Pair(words::CLEAR, b'N'), rule: Rule::Anywhere, row: rows::CLEAR_N },
    Form { start: Start::Pair(words::CLEAR, b'P'), rule: Rule::Anywhere, row: rows::CLEAR_P },
    Form { start: Start::Code(words::CLEAR), rule: Rule::Anywhere, row: rows::CLEAR },
    Form { start: Start::Code(words::INIT_OPEN), rule: Rule::Anywhere, row: rows::INIT },
    Form { start: Start::Code(words::CONVERT), rule: Rule::Anywhere, row: rows::CONVERT },
    Form { start: Start::Among(words::ROTATE_OPEN, words::ROTATEC_OPEN), rule: Rule::Anywhere, row: rows::ROTATE },
    Form { start: Start::Pair(words::SELECT, words::GLOBAL_PART), rule: Rule::Anywhere, row: rows::SELECT_PART },
    Form { start: Start::Pair(words::SELECT, words::NO), rule: Rule::Anywhere, row: rows::SELECT_NO_ROUND },
    Form { start: Start::Pair(words::SELECT, words::PRINT), rule: Rule::Anywhere, row: rows::SELECT_PRINT },
    Form { start: Start::Pair(words::SELECT, words::DISK), rule: Rule::Anywhere, row: rows::SELECT_DISK },
    Form { start: Start::Pair(words::SELECT, words::ERROR), rule: Rule::Anywhere, row: rows::SELECT_LEFT_OUT },
    Form { start: Start::Pair(words::SELECT, words::ON), rule: Rule::Anywhere, row: rows::SELECT_LEFT_OUT },
    Form { start: Start::Code(words::SELECT), rule: Rule::Anywhere, row: rows::SELECT },
    Form { start: Start::Code(words::PRINT), rule: Rule::Anywhere, row: rows::PRINT },
    Form { start: Start::Code(words::PRINTUSING), rule: Rule::Anywhere, row: rows::PRINTUSING },
    Form { start: Start::Code(words::INPUT), rule: Rule::Program, row: rows::INPUT },
    Form { start: Start::Code(words::LINPUT), rule: Rule::Program, row: rows::LINPUT },
    Form { start: Start::Code(words::KEYIN), rule: Rule::Program, row: rows::KEYIN },
    Form { start: Start::Code(words::DOLLAR_BREAK), rule: Rule::Anywhere, row: rows::BREAK },
    Form { start: Start::Code(words::DOLLAR_OPEN), rule: Rule::Anywhere, row: rows::OPEN },
    Form { start: Start::Code(words::DOLLAR_CLOSE), rule: Rule::Anywhere, row: rows::CLOSE },
    Form { start: Start::Pair(words::MAT, words::REDIM), rule: Rule::Anywhere, row: rows::MAT_REDIM },
    Form { start: Start::Pair(words::MAT, words::SEARCH), rule: Rule::Anywhere, row: rows::MAT_SEARCH },
    Form { start: Start::Pair(words::MAT, words::MOVE), rule: Rule::Anywhere, row: rows::MAT_MOVE },
    Form { start: Start::Pair(words::MAT, words::SORT), rule: Rule::Anywhere, row: rows::MAT_SORT },
    Form { start: Start::Pair(words::MAT, words::COPY), rule: Rule::Anywhere, row: rows::MAT_COPY },
    Form { start: Start::Pair(words::MAT, words::PRINT), rule: Rule::Anywhere, row: rows::MAT_LEFT_OUT },
    Form { start: Start::Pair(words::MAT, words::INPUT), rule: Rule::Anywhere, row: rows::MAT_LEFT_OUT },
    Form { start: Start::Pair(words::MAT, words::READ), rule: Rule::Anywhere, row: rows::MAT_LEFT_OUT },
    Form { start: Start::Code(words::MAT), rule: Rule::Anywhere, row: rows::MAT },
    Form { start: Start::Code(words::PACK_OPEN), rule: Rule::Anywhere, row: rows::PACK },
    Form { start: Start::Code(words::UNPACK_OPEN), rule: Rule::Anywhere, row: rows::UNPACK },
    Form { start: Start::Code(words::DOLLAR_PACK_OPEN), rule: Rule::Anywhere, row: rows::FIELD_PACK },
    Form { start: Start::Code(words::DOLLAR_UNPACK_OPEN), rule: Rule::Anywhere, row: rows::FIELD_UNPACK },
    Form { start: Start::Code(words::LIMITS), rule: Rule::Anywhere, row: rows::LIMITS },
    Form { start: Start::Pair(words::SCRATCH, words::DISK), rule: Rule::Anywhere, row: rows::SCRATCH_DISK },
    Form { start: Start::Code(words::SCRATCH), rule: Rule::Anywhere, row: rows::SCRATCH },
    Form { start: Start::ShortAfter(words::DATASAVE, words::DA), rule: Rule::Anywhere, row: rows::SAVE_RECORD },
    Form { start: Start::ShortAfter(words::DATASAVE, words::BA), rule: Rule::Anywhere, row: rows::SAVE_BLOCK },
    Form { start: Start::Code(words::DATASAVE), rule: Rule::Anywhere, row: rows::DATASAVE },
    Form { start: Start::ShortAfter(words::DATALOAD, words::DA), rule: Rule::Anywhere, row: rows::LOAD_RECORD },
    Form { start: Start::ShortAfter(words::DATALOAD, words::BA), rule: Rule::Anywhere, row: rows::LOAD_BLOCK },
    Form { start: Start::Code(words::DATALOAD), rule: Rule::Anywhere, row: rows::DATALOAD },
    Form { start: Start::Code(words::DSKIP), rule: Rule::Anywhere, row: rows::DSKIP },
    Form { start: Start::Code(words::DBACKSPACE), rule: Rule::Anywhere, row: rows::DBACKSPACE },
    Form { start: Start::Code(words::MOVE), rule: Rule::Anywhere, row: rows::MOVE },
    Form { start: Start::Code(words::SAVE), rule: Rule::Anywhere, row: rows::SAVE },
    Form { start: Start::Code(words::LOAD), rule: Rule::Anywhere, row: rows::LOAD },
    Form { start: Start::Pair(words::LIST, words::DC), rule: Rule::Immediate, row: rows::LIST_DISK },
    Form { start: Start::Code(words::LIST), rule: Rule::Immediate, row: rows::LIST },
    Form { start: Start::Code(words::RUN), rule: Rule::Immediate, row: rows::RUN },
    Form { start: Start::Code(words::CONTINUE), rule: Rule::Immediate, row: rows::CONTINUE },
    Form { start: Start::Code(words::DOLLAR_RELEASE), rule: Rule::Anywhere, row: rows::RELEASE },
];
