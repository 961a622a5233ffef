// The values of numeric and of alpha expressions, along their bytes.
ghost use Rattle.std.specs.Prelude.{◌≡◌, ◌≤◌, ◌++◌, ◌||◌, ◌==◌, [], true, false, None, is_err, drop, length, MatchResult, IfOk, IfSome, Ok, Err, option_map};
ghost use Rattle.b2_base.specs.Byte as byte;
ghost use Rattle.b2_base.specs.Lexical.{is_digit, is_letter};
ghost use Rattle.b2_base.specs.Lexical as lexical;
ghost use Rattle.b2_expr.specs.declared.named.NameKind.TheVariants as name_kind;
ghost use Rattle.b2_vars.specs.Names.{is_legal_name};
ghost use Rattle.b2_text.specs.Spots.{first_opening, is_function, unit_at};
ghost use Rattle.b2_atom.specs.declared.rows.TheConstants as row;
ghost use Rattle.b2_atom.specs.declared.forms.Start.TheVariants as start;
ghost use Rattle.b2_rows.specs.Rows.{is_phrase, tree_at, after_phrase, is_list, list_at, after_list};
ghost use Rattle.b2_rows.specs.Chains.{more_start};
ghost use Rattle.b2_rows.specs.declared.chains.Chain.TheVariants as chain;
ghost use Rattle.b2_rows.specs.Optional.{maybe_phrase, maybe_tree, after_maybe};
ghost use Rattle.b2_expr.specs.Further.{after_further, are_further, further_tree};
ghost use Rattle.b2_expr.specs.Levels.{row_of_level};
ghost use Rattle.b2_expr.specs.Named.{after_name, is_alpha_kind, name_row, cell_seen, plain_width};
ghost use Rattle.b2_expr.specs.Scope.{surroundings};
ghost use Rattle.b2_expr.specs.Reads.{Appends, Finds, Gives};
ghost use Rattle.b2_expr.specs.Value as meaning;
ghost use Rattle.b2_expr.specs.Value.{element_number, called, context, extremes, further_text, kept_value, located, second, subscripts, text_row, value};
ghost use Rattle.b2_expr.specs.declared.operators.Level.TheVariants as level_of;
ghost use Rattle.b2_rows.specs.declared.operands.Operand.TheVariants as kind_is;
ghost use Rattle.b2_rows.specs.declared.operands.AlphaOperand.TheVariants as alpha_kind_is;

use crate::appended::{bytes_of_part, hex_at, join_number, join_text, quoted_at};
use crate::evaluated::{Evaluated, after_sum, last_bytes};
use crate::functions::{
    column_written, count_written, extreme, number_of, of_one, of_text, of_two, position_of,
    subscript, whole_number,
};
use crate::literals::written_number_at;
use crate::named::{
    Element, Located, NameKind, Subscripts, counted_digit, element_number, name_at, plain_width,
    variable_of,
};
use crate::operators::{Level, joined, under_sign};
use crate::scope::{Env, Parameter, Scope, hidden_by, kept_number, variables_of};
use b2_alpha::value_len;
use b2_atom::{Origin, numeric_name_width, relation_width};
use b2_base::Code;
use b2_base::codes::{A04_TOO_DEEP, P38_NO_DEFFN};
use b2_base::lexical::{at, first, first_bytes, is_digit, is_letter, rest_after};
use b2_dec::{Bytes, Dec, NumberOrCode};
use b2_rows::{
    AlphaOperand, Chain, Operand, alpha_operand_at, goes_on, has_sign, is_at, numeric_name,
    operand_at, relation_at, row_unit, spells_a_line,
};

/// The value of an expression of a level, and what stands after it.
#[tactic(auto, using(crate::proofs::Tails::part_tail))]
pub fn climb<'a>(wanted: Level, s: &Scope<'_>, text: &'a [u8]) -> Result<(Dec, &'a [u8]), Code>
    requires phrase { is_phrase (row_of_level wanted) text.now ≡ true }
    ensures { Gives (value (context s.now) wanted (tree_at (row_of_level wanted) text.now)) (after_phrase (row_of_level wanted) text.now) result }
{
    let found = level_at(wanted, s, text);
    if found.number.is_code() {
        return Err(found.number.get_code());
    }
    Ok((found.number.get(), last_bytes(text, found.left)))
}

/// The value of an expression of a level.
fn level_at(wanted: Level, s: &Scope<'_>, text: &[u8]) -> Evaluated
    requires phrase { is_phrase (row_of_level wanted) text.now ≡ true }
    ensures { Finds (value (context s.now) wanted (tree_at (row_of_level wanted) text.now)) (after_phrase (row_of_level wanted) text.now) result }
{
    match wanted {
        Level::Sum => sum(s, text),
        Level::Product => product(s, text),
        Level::Factor => factor(s, text),
        Level::Power => power(s, text),
        Level::Operand => operand(s, text),
    }
}

/// A sum of products. One of a single product, after which nothing is left, is that product.
#[cycle(values)]
pub fn sum(s: &Scope<'_>, text: &[u8]) -> Evaluated
    requires phrase { is_phrase row.SUM text.now ≡ true }
    ensures { Finds (value (context s.now) level_of.Sum (tree_at row.SUM text.now)) (after_phrase row.SUM text.now) result }
{
    let start = product(s, text);
    if start.left == 0 {
        return start;
    }
    if start.number.is_code() {
        return start;
    }
    let mut number = start.number.get();
    let mut left = last_bytes(text, start.left);
    while goes_on(Chain::Sum, left) {
        let item = rest_after(left, 1);
        let other = product(s, item);
        if other.number.is_code() {
            return other;
        }
        let made = joined(s.env.mode, first(left), number, other.number.get());
        if made.is_code() {
            return Evaluated::at_end(made);
        }
        number = made.get();
        left = last_bytes(item, other.left);
    }
    Evaluated::with(number, left.len())
}

/// A product of factors. One of a single factor, which neither `*` nor `/` follows, is that factor.
#[cycle(values)]
fn product(s: &Scope<'_>, text: &[u8]) -> Evaluated
    requires phrase { is_phrase row.PRODUCT text.now ≡ true }
    ensures { Finds (value (context s.now) level_of.Product (tree_at row.PRODUCT text.now)) (after_phrase row.PRODUCT text.now) result }
{
    let start = factor(s, text);
    if start.number.is_code() {
        return start;
    }
    if !goes_on(Chain::Product, last_bytes(text, start.left)) {
        return start;
    }
    factors_from(s, text, start)
}

/// A product of factors, of which the first is found.
#[cycle(values)]
fn factors_from(s: &Scope<'_>, text: &[u8], start: Evaluated) -> Evaluated
    requires phrase { is_phrase row.PRODUCT text.now ≡ true }
    requires start { Finds (value (context s.now) level_of.Factor (tree_at row.FACTOR text.now)) (after_phrase row.FACTOR text.now) start }
    requires some { is_err start.number ≡ false }
    ensures { Finds (value (context s.now) level_of.Product (tree_at row.PRODUCT text.now)) (after_phrase row.PRODUCT text.now) result }
{
    let mut number = start.number.get();
    let mut left = last_bytes(text, start.left);
    while goes_on(Chain::Product, left) {
        let item = rest_after(left, 1);
        let other = factor(s, item);
        if other.number.is_code() {
            return other;
        }
        let made = joined(s.env.mode, first(left), number, other.number.get());
        if made.is_code() {
            return Evaluated::at_end(made);
        }
        number = made.get();
        left = last_bytes(item, other.left);
    }
    Evaluated::with(number, left.len())
}

/// A power, with a sign before it or none.
#[cycle(values)]
#[inline(always)]
fn factor(s: &Scope<'_>, text: &[u8]) -> Evaluated
    requires phrase { is_phrase row.FACTOR text.now ≡ true }
    ensures { Finds (value (context s.now) level_of.Factor (tree_at row.FACTOR text.now)) (after_phrase row.FACTOR text.now) result }
{
    if !has_sign(text) {
        return power(s, text);
    }
    let found = power(s, rest_after(text, 1));
    if found.number.is_code() {
        return found;
    }
    Evaluated {
        number: under_sign(s.env.mode, first(text), found.number.get()),
        left: found.left,
    }
}

/// A power of operands. One of a single operand, which no `^` follows, is that operand.
#[cycle(values)]
#[inline(always)]
fn power(s: &Scope<'_>, text: &[u8]) -> Evaluated
    requires phrase { is_phrase row.POWER text.now ≡ true }
    ensures { Finds (value (context s.now) level_of.Power (tree_at row.POWER text.now)) (after_phrase row.POWER text.now) result }
{
    let start = operand(s, text);
    if start.number.is_code() {
        return start;
    }
    if !goes_on(Chain::Power, last_bytes(text, start.left)) {
        return start;
    }
    powers_from(s, text, start)
}

/// A power of operands, of which the first is found.
#[cycle(values)]
fn powers_from(s: &Scope<'_>, text: &[u8], start: Evaluated) -> Evaluated
    requires phrase { is_phrase row.POWER text.now ≡ true }
    requires start { Finds (value (context s.now) level_of.Operand (tree_at row.OPERAND text.now)) (after_phrase row.OPERAND text.now) start }
    requires some { is_err start.number ≡ false }
    ensures { Finds (value (context s.now) level_of.Power (tree_at row.POWER text.now)) (after_phrase row.POWER text.now) result }
{
    let mut number = start.number.get();
    let mut left = last_bytes(text, start.left);
    while goes_on(Chain::Power, left) {
        let item = rest_after(left, 1);
        let other = operand(s, item);
        if other.number.is_code() {
            return other;
        }
        let made = joined(s.env.mode, first(left), number, other.number.get());
        if made.is_code() {
            return Evaluated::at_end(made);
        }
        number = made.get();
        left = last_bytes(item, other.left);
    }
    Evaluated::with(number, left.len())
}

/// An operand. A variable that begins with a letter and a number that begins with a digit are told by that byte alone.
#[cycle(values)]
#[tactic(auto, using(b2_rows::proofs::EachOperand::number_here, b2_rows::proofs::EachOperand::variable_here, b2_rows::proofs::EachOperand::number_left, b2_rows::proofs::EachOperand::variable_left, crate::proofs::PlainNames::letter_operand, crate::proofs::PlainNames::digit_operand, crate::proofs::OperandKinds::number_gives, crate::proofs::OperandKinds::variable_gives))]
#[inline(always)]
fn operand(s: &Scope<'_>, text: &[u8]) -> Evaluated
    requires phrase { is_phrase row.OPERAND text.now ≡ true }
    ensures { Finds (value (context s.now) level_of.Operand (tree_at row.OPERAND text.now)) (after_phrase row.OPERAND text.now) result }
{
    let byte = first(text);
    if is_letter(byte) {
        return variable(s, text);
    }
    if is_digit(byte) {
        return written_number_at(text);
    }
    other_operand(s, text)
}

/// An operand of any kind.
#[cycle(values)]
#[tactic(auto, using(b2_rows::proofs::EachOperand::number_here, b2_rows::proofs::EachOperand::parentheses_here, b2_rows::proofs::EachOperand::function_here, b2_rows::proofs::EachOperand::of_one_here, b2_rows::proofs::EachOperand::of_two_here, b2_rows::proofs::EachOperand::of_more_here, b2_rows::proofs::EachOperand::of_alpha_here, b2_rows::proofs::EachOperand::position_here, b2_rows::proofs::EachOperand::value_here, b2_rows::proofs::EachOperand::kept_number_here, b2_rows::proofs::EachOperand::variable_here, b2_rows::proofs::EachOperand::number_left, b2_rows::proofs::EachOperand::parentheses_left, b2_rows::proofs::EachOperand::function_left, b2_rows::proofs::EachOperand::of_one_left, b2_rows::proofs::EachOperand::of_two_left, b2_rows::proofs::EachOperand::of_more_left, b2_rows::proofs::EachOperand::of_alpha_left, b2_rows::proofs::EachOperand::position_left, b2_rows::proofs::EachOperand::value_left, b2_rows::proofs::EachOperand::kept_number_left, b2_rows::proofs::EachOperand::variable_left, crate::proofs::OperandKinds::number_gives, crate::proofs::OperandKinds::parentheses_gives, crate::proofs::OperandKinds::function_gives, crate::proofs::OperandKinds::of_one_gives, crate::proofs::OperandKinds::of_two_gives, crate::proofs::OperandKinds::of_more_gives, crate::proofs::OperandKinds::of_alpha_gives, crate::proofs::OperandKinds::position_gives, crate::proofs::OperandKinds::value_gives, crate::proofs::OperandKinds::kept_number_gives, crate::proofs::OperandKinds::variable_gives))]
fn other_operand(s: &Scope<'_>, text: &[u8]) -> Evaluated
    requires phrase { is_phrase row.OPERAND text.now ≡ true }
    ensures { Finds (value (context s.now) level_of.Operand (tree_at row.OPERAND text.now)) (after_phrase row.OPERAND text.now) result }
{
    match operand_at(text) {
        Operand::Number => written_number_at(text),
        Operand::Parentheses => group(s, text),
        Operand::Function => call_at(s, text),
        Operand::OfOne => of_one_at(s, text),
        Operand::OfTwo => of_two_at(s, text),
        Operand::OfMore => of_more_at(s, text),
        Operand::OfAlpha => of_alpha_at(s, text),
        Operand::Position => position_at(s, text),
        Operand::Value => bytes_at(s, text),
        Operand::KeptNumber => kept_at(s.env, text),
        Operand::Variable => hidden_or_there(s, text),
    }
}

/// ERR, #PART or #TERM.
#[tactic(auto, using(crate::proofs::Operands::kept_is, crate::proofs::Operands::kept_rest))]
fn kept_at(env: &Env<'_>, text: &[u8]) -> Evaluated
    requires phrase { is_phrase row.KEPT_NUMBER text.now ≡ true }
    ensures { Finds (kept_value (surroundings env.now) (tree_at row.KEPT_NUMBER text.now)) (after_phrase row.KEPT_NUMBER text.now) result }
{
    let number = kept_number(env, first(text));
    Evaluated::with(whole_number(u64::from(number)), rest_after(text, 1).len())
}

/// An expression in parentheses.
#[cycle(values)]
#[tactic(auto, using(crate::proofs::Operands::group_sum, crate::proofs::Operands::group_is, crate::proofs::Operands::group_rest, crate::proofs::Operands::group_shorter))]
fn group(s: &Scope<'_>, text: &[u8]) -> Evaluated
    requires phrase { is_phrase row.PARENTHESES text.now ≡ true }
    ensures { Finds (meaning.operand (context s.now) kind_is.Parentheses (tree_at row.PARENTHESES text.now)) (after_phrase row.PARENTHESES text.now) result }
{
    let found = sum(s, rest_after(text, 1));
    Evaluated {
        number: found.number,
        left: found.left.saturating_sub(1),
    }
}

/// A call of a DEFFN.
#[cycle(values)]
#[tactic(auto, using(crate::proofs::Operands::call_sum, crate::proofs::Operands::call_name, crate::proofs::Operands::call_is, crate::proofs::Operands::call_rest, crate::proofs::Operands::call_shorter))]
fn call_at(s: &Scope<'_>, text: &[u8]) -> Evaluated
    requires phrase { is_phrase row.FUNCTION text.now ≡ true }
    ensures { Finds (meaning.operand (context s.now) kind_is.Function (tree_at row.FUNCTION text.now)) (after_phrase row.FUNCTION text.now) result }
{
    let argument = sum(s, rest_after(text, 3));
    if argument.number.is_code() {
        return argument;
    }
    Evaluated {
        number: call(s, at(text, 1), argument.number.get()),
        left: argument.left.saturating_sub(1),
    }
}

/// What the function of a name gives for an argument: P38 where the home has none, A04 where sixteen calls are open.
#[cycle(values)]
#[tactic(auto, using(crate::proofs::Defined::called_nowhere, crate::proofs::Defined::called_too_deep, crate::proofs::Defined::called_body, crate::proofs::Defined::body_part, crate::proofs::Defined::parameter_here))]
fn call(s: &Scope<'_>, name: u8, argument: Dec) -> NumberOrCode
    requires named { (is_letter name || is_digit name) ≡ true }
    ensures { result ≡ called (surroundings s.now.env.now) s.now.room name argument }
{
    let Some(unit) = definition_of(s.env, name) else {
        return NumberOrCode::code(Code::known(P38_NO_DEFFN));
    };
    if s.room == 0 {
        return NumberOrCode::code(Code::known(A04_TOO_DEEP));
    }
    let named = rest_after(unit, 3);
    let (name, width) = numeric_name(named);
    let inner = Scope {
        env: s.env,
        parameter: Some(Parameter {
            name,
            value: argument,
        }),
        room: s.room - 1,
    };
    let body = rest_after(named, width + 2);
    let found = sum(&inner, body);
    found.number
}

/// The unit of the DEFFN of a name.
#[tactic(auto, using(crate::proofs::Defined::is_definition))]
fn definition_of<'a>(env: &Env<'a>, name: u8) -> Option<&'a [u8]>
    requires named { (is_letter name || is_digit name) ≡ true }
    ensures unit { option_map (λ unit. unit.now) result ≡ option_map (λ spot. unit_at spot env.now.home.now.lines) (first_opening (is_function name) env.now.home.now.lines) }
    ensures part { IfSome result (λ unit. is_phrase row.DEFFN unit.now ≡ true) }
    ensures found { IfSome result (λ unit. is_function name unit.now ≡ true) }
    ensures short { IfSome result (λ unit. length unit.now ≤ 255) }
{
    let home = env.home;
    let Some(spot) = home.function(name) else {
        return None;
    };
    let Some(line) = home.line(spot.line) else {
        return None;
    };
    let atoms = line.lend();
    spells_a_line(&atoms);
    match row_unit(&atoms, usize::from(spot.unit)) {
        Some(unit) => Some(unit.bytes),
        None => None,
    }
}

/// ABS, INT, FIX, SGN or SQR.
#[cycle(values)]
#[tactic(auto, using(crate::proofs::Operands::one_sum, crate::proofs::Operands::one_is, crate::proofs::Operands::one_rest, crate::proofs::Operands::one_shorter))]
fn of_one_at(s: &Scope<'_>, text: &[u8]) -> Evaluated
    requires phrase { is_phrase row.OF_ONE text.now ≡ true }
    ensures { Finds (meaning.operand (context s.now) kind_is.OfOne (tree_at row.OF_ONE text.now)) (after_phrase row.OF_ONE text.now) result }
{
    let found = sum(s, rest_after(text, 1));
    if found.number.is_code() {
        return found;
    }
    Evaluated {
        number: NumberOrCode::of(of_one(first(text), found.number.get())),
        left: found.left.saturating_sub(1),
    }
}

/// ROUND or MOD.
#[cycle(values)]
#[tactic(auto, using(crate::proofs::Operands::two_first, crate::proofs::Operands::two_second, crate::proofs::Operands::two_is, crate::proofs::Operands::two_rest, crate::proofs::Operands::two_shorter, crate::proofs::Operands::second_shorter))]
fn of_two_at(s: &Scope<'_>, text: &[u8]) -> Evaluated
    requires phrase { is_phrase row.OF_TWO text.now ≡ true }
    ensures { Finds (meaning.operand (context s.now) kind_is.OfTwo (tree_at row.OF_TWO text.now)) (after_phrase row.OF_TWO text.now) result }
{
    let inside = rest_after(text, 1);
    let one = sum(s, inside);
    if one.number.is_code() {
        return one;
    }
    let other = sum(s, rest_after(after_sum(inside, one.left), 1));
    if other.number.is_code() {
        return other;
    }
    let (x, y) = (one.number.get(), other.number.get());
    Evaluated {
        number: NumberOrCode::of(of_two(s.env.mode, first(text), x, y)),
        left: other.left.saturating_sub(1),
    }
}

/// MAX or MIN.
#[cycle(values)]
#[tactic(auto, using(crate::proofs::Operands::more_first, crate::proofs::Operands::more_further, crate::proofs::Operands::more_is, crate::proofs::Operands::more_rest, crate::proofs::Operands::more_shorter, crate::proofs::Operands::rest_shorter, crate::proofs::Extremes::refused))]
fn of_more_at(s: &Scope<'_>, text: &[u8]) -> Evaluated
    requires phrase { is_phrase row.OF_MORE text.now ≡ true }
    ensures { Finds (meaning.operand (context s.now) kind_is.OfMore (tree_at row.OF_MORE text.now)) (after_phrase row.OF_MORE text.now) result }
{
    let inside = rest_after(text, 1);
    let start = sum(s, inside);
    if start.number.is_code() {
        return start;
    }
    let after = after_sum(inside, start.left);
    let found = further_numbers(first(text), start.number.get(), s, after);
    Evaluated {
        number: found.number,
        left: found.left.saturating_sub(1),
    }
}

/// The greatest or the least of a number and of those that follow it, of which there are at most seven.
#[cycle(values)]
fn further_numbers(word: u8, start: Dec, s: &Scope<'_>, text: &[u8]) -> Evaluated
    requires phrase { are_further 7 text.now ≡ true }
    ensures { Finds (extremes (context s.now) word (Ok start) (further_tree 7 text.now)) (after_further 7 text.now) result }
{
    let mut number = start;
    let mut left = text;
    for _ in 0..7usize {
        if !is_at(b',', left) {
            return Evaluated::with(number, left.len());
        }
        let item = rest_after(left, 1);
        let other = sum(s, item);
        if other.number.is_code() {
            return other;
        }
        number = extreme(word, number, other.number.get());
        left = after_sum(item, other.left);
    }
    Evaluated::with(number, left.len())
}

/// LEN or NUM.
#[cycle(values)]
#[tactic(auto, using(crate::proofs::Operands::alpha_text, crate::proofs::Operands::alpha_is, crate::proofs::Operands::alpha_rest, crate::proofs::Operands::alpha_shorter))]
fn of_alpha_at(s: &Scope<'_>, text: &[u8]) -> Evaluated
    requires phrase { is_phrase row.OF_ALPHA text.now ≡ true }
    ensures { Finds (meaning.operand (context s.now) kind_is.OfAlpha (tree_at row.OF_ALPHA text.now)) (after_phrase row.OF_ALPHA text.now) result }
{
    let mut value = Bytes::new();
    match alpha(s, rest_after(text, 1), &mut value) {
        Ok(rest) => Evaluated::with(
            of_text(first(text), value.bytes()),
            rest_after(rest, 1).len(),
        ),
        Err(code) => Evaluated::at_end(NumberOrCode::code(code)),
    }
}

/// POS.
#[cycle(values)]
#[tactic(auto, using(crate::proofs::Operands::position_first, crate::proofs::Operands::position_sign, crate::proofs::Operands::position_second, crate::proofs::Operands::position_is, crate::proofs::Operands::position_rest, crate::proofs::Operands::position_shorter, crate::proofs::Operands::other_shorter))]
fn position_at(s: &Scope<'_>, text: &[u8]) -> Evaluated
    requires phrase { is_phrase row.POSITION text.now ≡ true }
    ensures { Finds (meaning.operand (context s.now) kind_is.Position (tree_at row.POSITION text.now)) (after_phrase row.POSITION text.now) result }
{
    let mut value = Bytes::new();
    let sign = match alpha(s, rest_after(text, 1), &mut value) {
        Ok(rest) => rest,
        Err(code) => return Evaluated::at_end(NumberOrCode::code(code)),
    };
    let width = relation_width(sign);
    let mut wanted = Bytes::new();
    match alpha(s, rest_after(sign, width), &mut wanted) {
        Ok(rest) => {
            let relation = relation_at(sign);
            Evaluated::with(
                position_of(relation, value.bytes(), wanted.bytes()),
                rest_after(rest, 1).len(),
            )
        }
        Err(code) => Evaluated::at_end(NumberOrCode::code(code)),
    }
}

/// VAL.
#[cycle(values)]
#[tactic(auto, using(crate::proofs::Operands::bytes_first, crate::proofs::Operands::bytes_count, crate::proofs::Operands::bytes_is, crate::proofs::Operands::bytes_rest, crate::proofs::Operands::bytes_shorter, crate::proofs::Operands::count_shorter))]
fn bytes_at(s: &Scope<'_>, text: &[u8]) -> Evaluated
    requires phrase { is_phrase row.VALUE text.now ≡ true }
    ensures { Finds (meaning.operand (context s.now) kind_is.Value (tree_at row.VALUE text.now)) (after_phrase row.VALUE text.now) result }
{
    let mut value = Bytes::new();
    let after = match alpha(s, rest_after(text, 1), &mut value) {
        Ok(rest) => rest,
        Err(code) => return Evaluated::at_end(NumberOrCode::code(code)),
    };
    let (count, rest) = match second(s, after) {
        Ok(found) => found,
        Err(code) => return Evaluated::at_end(NumberOrCode::code(code)),
    };
    let count = match count_written(count) {
        Ok(count) => count,
        Err(code) => return Evaluated::at_end(NumberOrCode::code(code)),
    };
    Evaluated {
        number: NumberOrCode::of(number_of(value.bytes(), count)),
        left: rest_after(rest, 1).len(),
    }
}

/// A number after a comma, where one is written.
#[cycle(values)]
#[tactic(auto, using(crate::proofs::Names::second_part, crate::proofs::Names::second_is, crate::proofs::Names::second_rest, crate::proofs::Names::no_second, crate::proofs::Names::no_second_rest, crate::proofs::Names::second_shorter))]
#[inline(always)]
pub fn second<'a>(s: &Scope<'_>, text: &'a [u8]) -> Result<(Option<Dec>, &'a [u8]), Code>
    requires phrase { maybe_phrase (start.Code byte.comma) row.COMMA_NUMBER text.now ≡ true }
    ensures { Gives (second (context s.now) (maybe_tree (start.Code byte.comma) row.COMMA_NUMBER text.now)) (after_maybe (start.Code byte.comma) row.COMMA_NUMBER text.now) result }
{
    if !is_at(b',', text) {
        return Ok((None, text));
    }
    let item = rest_after(text, 1);
    let found = sum(s, item);
    if found.number.is_code() {
        return Err(found.number.get_code());
    }
    Ok((Some(found.number.get()), after_sum(item, found.left)))
}

/// The row and the column of subscripts, 0 where there is none.
#[cycle(values)]
#[tactic(auto, using(crate::proofs::Names::row_part, crate::proofs::Names::column_part, crate::proofs::Names::subscripts_is, crate::proofs::Names::subscripts_rest, crate::proofs::Names::no_subscripts, crate::proofs::Names::no_subscripts_rest, crate::proofs::Names::row_shorter, crate::proofs::Names::column_shorter))]
#[inline(always)]
fn subscripts<'a>(s: &Scope<'_>, text: &'a [u8]) -> Result<(Subscripts, &'a [u8]), Code>
    requires phrase { maybe_phrase (start.Code byte.opening) row.SUBSCRIPTS text.now ≡ true }
    ensures { Gives (subscripts (context s.now) (maybe_tree (start.Code byte.opening) row.SUBSCRIPTS text.now)) (after_maybe (start.Code byte.opening) row.SUBSCRIPTS text.now) result }
{
    if !is_at(b'(', text) {
        return Ok((Subscripts { row: 0, column: 0 }, text));
    }
    let inside = rest_after(text, 1);
    let row = sum(s, inside);
    if row.number.is_code() {
        return Err(row.number.get_code());
    }
    let (column, rest) = match second(s, after_sum(inside, row.left)) {
        Ok(found) => found,
        Err(code) => return Err(code),
    };
    let at = Subscripts {
        row: subscript(row.number.get()),
        column: column_written(column),
    };
    Ok((at, rest_after(rest, 1)))
}

/// The element that a name and its subscripts stand for. X77 comes at the name, before its subscripts.
#[cycle(values)]
#[tactic(auto, using(crate::proofs::Names::located_subscripts, crate::proofs::Names::located_is, crate::proofs::Names::located_rest, crate::proofs::Names::branch_is, crate::proofs::Names::drop_no_longer))]
#[inline(always)]
pub fn located<'a, 'v>(
    s: &Scope<'v>,
    kind: NameKind,
    text: &'a [u8],
) -> Result<(Located<'v>, &'a [u8]), Code>
    requires phrase { is_phrase (name_row kind) text.now ≡ true }
    ensures place { MatchResult result (λ p. (located (context s.now) (is_alpha_kind kind) (tree_at (name_row kind) text.now) ≡ Ok (cell_seen p.0)) × (p.1.now ≡ after_phrase (name_row kind) text.now)) (λ code. located (context s.now) (is_alpha_kind kind) (tree_at (name_row kind) text.now) ≡ Err code) }
    ensures name { IfOk result (λ p. (is_legal_name p.0.element.var ≡ true) × (p.0.element.var.alpha ≡ is_alpha_kind kind)) }
{
    let (name, width) = name_at(kind, text);
    let vars = match variables_of(s.env, name) {
        Ok(vars) => vars,
        Err(code) => return Err(code),
    };
    let after = rest_after(text, width);
    let (at, rest) = match subscripts(s, after) {
        Ok(found) => found,
        Err(code) => return Err(code),
    };
    let element = Element {
        global: name.global,
        var: variable_of(name, is_at(b'(', after)),
        row: at.row,
        column: at.column,
    };
    Ok((Located { vars, element }, rest))
}

/// The value of the parameter, where a numeric variable has its name.
#[tactic(auto, using(crate::proofs::Names::variable_hidden, crate::proofs::Names::variable_shown, crate::proofs::Names::variable_array, crate::proofs::Names::variable_plain, crate::proofs::Names::number_leaf))]
#[inline(always)]
fn hidden_at(s: &Scope<'_>, text: &[u8]) -> Option<Dec>
    requires phrase { is_phrase row.VARIABLE text.now ≡ true }
    ensures some { IfSome result (λ x. meaning.operand (context s.now) kind_is.Variable (tree_at row.VARIABLE text.now) ≡ Ok x) }
    ensures plain { IfSome result (λ x. (lexical.first (after_name name_kind.Number text.now) == byte.opening) ≡ false) }
    ensures none { result ≡ None → meaning.operand (context s.now) kind_is.Variable (tree_at row.VARIABLE text.now) ≡ element_number (located (context s.now) false (tree_at row.VARIABLE text.now)) }
{
    let Some(_) = s.parameter else {
        return None;
    };
    let (name, width) = numeric_name(text);
    if is_at(b'(', rest_after(text, width)) {
        return None;
    }
    hidden_by(s.parameter, name)
}

/// A numeric variable that begins with a letter. A plain one outside a function is read by its letter and its digit at once.
#[cycle(values)]
fn variable(s: &Scope<'_>, text: &[u8]) -> Evaluated
    requires phrase { is_phrase row.VARIABLE text.now ≡ true }
    requires letter { is_letter (lexical.first text.now) ≡ true }
    ensures { Finds (meaning.operand (context s.now) kind_is.Variable (tree_at row.VARIABLE text.now)) (after_phrase row.VARIABLE text.now) result }
{
    let None = s.parameter else {
        return hidden_or_there(s, text);
    };
    let rest = rest_after(text, plain_width(text));
    if is_at(b'(', rest) {
        return element(s, text, rest_after(rest, 1));
    }
    let letter = first(text);
    let digit = counted_digit(at(text, 1));
    Evaluated::with(s.env.own.scalar(letter, digit), rest.len())
}

/// An element of the array of a plain name, inside whose parentheses its subscripts stand.
#[cycle(values)]
#[tactic(auto, using(crate::proofs::PlainElements::row_here, crate::proofs::PlainElements::column_here, crate::proofs::PlainElements::inside_shorter, crate::proofs::PlainElements::column_inside, crate::proofs::PlainElements::one_is, crate::proofs::PlainElements::one_rest, crate::proofs::PlainElements::two_is, crate::proofs::PlainElements::two_rest))]
#[inline(never)]
fn element(s: &Scope<'_>, text: &[u8], inside: &[u8]) -> Evaluated
    requires phrase { is_phrase row.VARIABLE text.now ≡ true }
    requires letter { is_letter (lexical.first text.now) ≡ true }
    requires opening { (lexical.first (drop (plain_width text.now) text.now) == byte.opening) ≡ true }
    requires inside { inside.now ≡ drop 1 (drop (plain_width text.now) text.now) }
    ensures { Finds (meaning.operand (context s.now) kind_is.Variable (tree_at row.VARIABLE text.now)) (after_phrase row.VARIABLE text.now) result }
{
    let row = sum(s, inside);
    if row.number.is_code() {
        return row;
    }
    let at_row = subscript(row.number.get());
    let rest = after_sum(inside, row.left);
    if !is_at(b',', rest) {
        return Evaluated {
            number: element_number(s.env.own, first(text), at(text, 1), at_row, 0),
            left: row.left.saturating_sub(1),
        };
    }
    let column = sum(s, rest_after(rest, 1));
    if column.number.is_code() {
        return column;
    }
    let at_column = subscript(column.number.get());
    Evaluated {
        number: element_number(s.env.own, first(text), at(text, 1), at_row, at_column),
        left: column.left.saturating_sub(1),
    }
}

/// A numeric variable: the parameter of its name, and else the number that it has.
#[cycle(values)]
#[tactic(auto, using(crate::proofs::Names::variable_rest))]
fn hidden_or_there(s: &Scope<'_>, text: &[u8]) -> Evaluated
    requires phrase { is_phrase row.VARIABLE text.now ≡ true }
    ensures { Finds (meaning.operand (context s.now) kind_is.Variable (tree_at row.VARIABLE text.now)) (after_phrase row.VARIABLE text.now) result }
{
    if let Some(number) = hidden_at(s, text) {
        let width = numeric_name_width(Origin::Atoms, text);
        return Evaluated::with(number, rest_after(text, width).len());
    }
    let (located, rest) = match located(s, NameKind::Number, text) {
        Ok(found) => found,
        Err(code) => return Evaluated::at_end(NumberOrCode::code(code)),
    };
    Evaluated {
        number: NumberOrCode::of(located.number()),
        left: rest.len(),
    }
}

/// An alpha expression: its bytes, and what stands after it.
#[cycle(values)]
#[tactic(auto, using(crate::proofs::Texts::text_first, crate::proofs::Texts::text_list, crate::proofs::Texts::text_value, crate::proofs::Texts::text_rest, crate::proofs::Texts::text_refused, b2_rows::proofs::Levels::part_no_longer))]
pub fn alpha<'a>(s: &Scope<'_>, text: &'a [u8], into: &mut Bytes) -> Result<&'a [u8], Code>
    requires phrase { is_phrase row.ALPHA text.now ≡ true }
    requires empty { into.old ≡ [] }
    ensures { MatchResult result (λ left. (meaning.text (context s.now) (tree_at row.ALPHA text.now) ≡ Ok into.new) × (left.now ≡ after_phrase row.ALPHA text.now)) (λ code. meaning.text (context s.now) (tree_at row.ALPHA text.now) ≡ Err code) }
{
    match alpha_operand(s, text, into) {
        Ok(rest) => further_operands(s, rest, into),
        Err(code) => Err(code),
    }
}

/// Further alpha operands, each after `&`, put after what stands before them.
#[cycle(values)]
#[tactic(auto, using(crate::proofs::Texts::on_operand, crate::proofs::Texts::on_list, crate::proofs::Texts::on_value, crate::proofs::Texts::on_rest, crate::proofs::Texts::on_shorter, crate::proofs::Texts::off_value, crate::proofs::Texts::off_rest, crate::proofs::Texts::text_refused, b2_rows::proofs::Levels::part_no_longer))]
fn further_operands<'a>(s: &Scope<'_>, text: &'a [u8], into: &mut Bytes) -> Result<&'a [u8], Code>
    requires list { is_list (more_start chain.Alpha) row.JOINED text.now ≡ true }
    ensures { MatchResult result (λ left. (further_text (context s.now) (Ok into.old) (list_at (more_start chain.Alpha) row.JOINED text.now) ≡ Ok into.new) × (left.now ≡ after_list (more_start chain.Alpha) row.JOINED text.now)) (λ code. further_text (context s.now) (Ok into.old) (list_at (more_start chain.Alpha) row.JOINED text.now) ≡ Err code) }
{
    let mut left = text;
    while goes_on(Chain::Alpha, left) {
        left = match alpha_operand(s, rest_after(left, 1), into) {
            Ok(rest) => rest,
            Err(code) => return Err(code),
        };
    }
    Ok(left)
}

/// An alpha operand, put after what stands before it.
#[cycle(values)]
#[tactic(auto, using(b2_rows::proofs::EachOperand::literal_here, b2_rows::proofs::EachOperand::string_part_here, b2_rows::proofs::EachOperand::hex_here, b2_rows::proofs::EachOperand::binary_here, b2_rows::proofs::EachOperand::alpha_variable_here, b2_rows::proofs::EachOperand::literal_left, b2_rows::proofs::EachOperand::string_part_left, b2_rows::proofs::EachOperand::hex_left, b2_rows::proofs::EachOperand::binary_left, b2_rows::proofs::EachOperand::alpha_variable_left, crate::proofs::OperandKinds::literal_gives, crate::proofs::OperandKinds::string_part_gives, crate::proofs::OperandKinds::hex_gives, crate::proofs::OperandKinds::binary_gives, crate::proofs::OperandKinds::alpha_variable_gives))]
fn alpha_operand<'a>(s: &Scope<'_>, text: &'a [u8], into: &mut Bytes) -> Result<&'a [u8], Code>
    requires phrase { is_phrase row.ALPHA_OPERAND text.now ≡ true }
    ensures { Appends (text_row (context s.now) (tree_at row.ALPHA_OPERAND text.now)) (after_phrase row.ALPHA_OPERAND text.now) into.old into.new result }
{
    match alpha_operand_at(text) {
        AlphaOperand::Literal => quoted_at(text, into),
        AlphaOperand::StringPart => str_part_at(s, text, into),
        AlphaOperand::Hex => hex_at(text, into),
        AlphaOperand::Binary => binary_at(s, text, into),
        AlphaOperand::Variable => alpha_variable(s, text, into),
    }
}

/// STR.
#[cycle(values)]
#[tactic(auto, using(crate::proofs::Texts::part_variable, crate::proofs::Texts::part_from, crate::proofs::Texts::part_count, crate::proofs::Texts::part_is, crate::proofs::Texts::part_rest, crate::proofs::Texts::part_shorter, crate::proofs::Texts::from_shorter, crate::proofs::Texts::count_shorter))]
fn str_part_at<'a>(s: &Scope<'_>, text: &'a [u8], into: &mut Bytes) -> Result<&'a [u8], Code>
    requires phrase { is_phrase row.STRING_PART text.now ≡ true }
    ensures { Appends (meaning.text_operand (context s.now) alpha_kind_is.StringPart (tree_at row.STRING_PART text.now)) (after_phrase row.STRING_PART text.now) into.old into.new result }
{
    let (located, after) = match located(s, NameKind::AlphaReceiver, rest_after(text, 1)) {
        Ok(found) => found,
        Err(code) => return Err(code),
    };
    let bytes = match located.bytes() {
        Ok(bytes) => bytes,
        Err(code) => return Err(code),
    };
    let inside = rest_after(after, 1);
    let from = sum(s, inside);
    if from.number.is_code() {
        return Err(from.number.get_code());
    }
    let (count, rest) = match second(s, after_sum(inside, from.left)) {
        Ok(found) => found,
        Err(code) => return Err(code),
    };
    let part = match bytes_of_part(bytes, from.number.get(), count) {
        Ok(part) => part,
        Err(code) => return Err(code),
    };
    match join_text(part, into) {
        Ok(()) => Ok(rest_after(rest, 1)),
        Err(code) => Err(code),
    }
}

/// BIN.
#[cycle(values)]
#[tactic(auto, using(crate::proofs::Texts::binary_number, crate::proofs::Texts::binary_count, crate::proofs::Texts::binary_is, crate::proofs::Texts::binary_rest, crate::proofs::Texts::binary_shorter, crate::proofs::Texts::binary_count_shorter))]
fn binary_at<'a>(s: &Scope<'_>, text: &'a [u8], into: &mut Bytes) -> Result<&'a [u8], Code>
    requires phrase { is_phrase row.BINARY text.now ≡ true }
    ensures { Appends (meaning.text_operand (context s.now) alpha_kind_is.Binary (tree_at row.BINARY text.now)) (after_phrase row.BINARY text.now) into.old into.new result }
{
    let inside = rest_after(text, 1);
    let number = sum(s, inside);
    if number.number.is_code() {
        return Err(number.number.get_code());
    }
    let (count, rest) = match second(s, after_sum(inside, number.left)) {
        Ok(found) => found,
        Err(code) => return Err(code),
    };
    let count = match count_written(count) {
        Ok(count) => count,
        Err(code) => return Err(code),
    };
    match join_number(number.number.get(), count, into) {
        Ok(()) => Ok(rest_after(rest, 1)),
        Err(code) => Err(code),
    }
}

/// An alpha variable: its bytes but the blanks at their end.
#[cycle(values)]
#[tactic(auto, using(crate::proofs::Texts::variable_text, crate::proofs::Texts::text_there))]
fn alpha_variable<'a>(s: &Scope<'_>, text: &'a [u8], into: &mut Bytes) -> Result<&'a [u8], Code>
    requires phrase { is_phrase row.ALPHA_VARIABLE text.now ≡ true }
    ensures { Appends (meaning.text_operand (context s.now) alpha_kind_is.Variable (tree_at row.ALPHA_VARIABLE text.now)) (after_phrase row.ALPHA_VARIABLE text.now) into.old into.new result }
{
    let (located, rest) = match located(s, NameKind::Alpha, text) {
        Ok(found) => found,
        Err(code) => return Err(code),
    };
    let bytes = match located.bytes() {
        Ok(bytes) => bytes,
        Err(code) => return Err(code),
    };
    match join_text(first_bytes(bytes, value_len(bytes)), into) {
        Ok(()) => Ok(rest),
        Err(code) => Err(code),
    }
}
