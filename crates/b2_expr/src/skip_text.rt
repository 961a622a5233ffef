// What stands after expressions, found without their values.
ghost use Rattle.std.specs.Prelude.{◌≡◌, true};
ghost use Rattle.b2_base.specs.Byte as byte;
ghost use Rattle.b2_atom.specs.declared.rows.TheConstants as row;
ghost use Rattle.b2_atom.specs.declared.forms.Start.TheVariants as start;
ghost use Rattle.b2_rows.specs.Rows.{is_phrase, after_phrase};
ghost use Rattle.b2_rows.specs.Optional.{maybe_phrase, after_maybe};
ghost use Rattle.b2_expr.specs.Further.{after_further, are_further};
ghost use Rattle.b2_expr.specs.Named.{name_leaf, name_row};
ghost use Rattle.b2_atom.specs.Leaves.{leaf_width};
ghost use Rattle.b2_atom.specs.declared.words.Origin.TheVariants.{Atoms};

use crate::named::NameKind;
use b2_atom::{
    Origin, alpha_name_width, literal_width, number_width, numeric_name_width, relation_width,
};
use b2_base::lexical::rest_after;
use b2_rows::{
    AlphaOperand, Chain, Operand, alpha_operand_at, goes_on, has_sign, is_at, is_hex_at, operand_at,
};

/// Past a sum.
#[cycle(skip_text)]
#[tactic(auto, using(b2_rows::proofs::EachChain::sum_item, b2_rows::proofs::EachChain::sum_list, b2_rows::proofs::EachChain::sum_rest, crate::proofs::ItemsSkipped::sum_on_item, crate::proofs::ItemsSkipped::sum_on_list, crate::proofs::ItemsSkipped::sum_on_rest, crate::proofs::ItemsSkipped::sum_on_shorter, crate::proofs::ItemsSkipped::sum_off_rest, b2_rows::proofs::Levels::part_no_longer))]
pub fn past_sum(text: &[u8]) -> &[u8]
    requires phrase { is_phrase row.SUM text.now ≡ true }
    ensures { result.now ≡ after_phrase row.SUM text.now }
{
    let mut left = past_product(text);
    while goes_on(Chain::Sum, left) {
        left = past_product(rest_after(left, 1));
    }
    left
}

/// Past a product.
#[cycle(skip_text)]
#[tactic(auto, using(b2_rows::proofs::EachChain::product_item, b2_rows::proofs::EachChain::product_list, b2_rows::proofs::EachChain::product_rest, crate::proofs::ItemsSkipped::product_on_item, crate::proofs::ItemsSkipped::product_on_list, crate::proofs::ItemsSkipped::product_on_rest, crate::proofs::ItemsSkipped::product_on_shorter, crate::proofs::ItemsSkipped::product_off_rest, b2_rows::proofs::Levels::part_no_longer))]
fn past_product(text: &[u8]) -> &[u8]
    requires phrase { is_phrase row.PRODUCT text.now ≡ true }
    ensures { result.now ≡ after_phrase row.PRODUCT text.now }
{
    let mut left = past_factor(text);
    while goes_on(Chain::Product, left) {
        left = past_factor(rest_after(left, 1));
    }
    left
}

/// Past a factor.
#[cycle(skip_text)]
#[tactic(auto, using(b2_rows::proofs::EachChain::signed_part, b2_rows::proofs::EachChain::signed_rest, b2_rows::proofs::EachChain::signed_shorter, b2_rows::proofs::EachChain::plain_part, b2_rows::proofs::EachChain::plain_rest))]
fn past_factor(text: &[u8]) -> &[u8]
    requires phrase { is_phrase row.FACTOR text.now ≡ true }
    ensures { result.now ≡ after_phrase row.FACTOR text.now }
{
    if has_sign(text) {
        past_power(rest_after(text, 1))
    } else {
        past_power(text)
    }
}

/// Past a power.
#[cycle(skip_text)]
#[tactic(auto, using(b2_rows::proofs::EachChain::power_item, b2_rows::proofs::EachChain::power_list, b2_rows::proofs::EachChain::power_rest, crate::proofs::ItemsSkipped::power_on_item, crate::proofs::ItemsSkipped::power_on_list, crate::proofs::ItemsSkipped::power_on_rest, crate::proofs::ItemsSkipped::power_on_shorter, crate::proofs::ItemsSkipped::power_off_rest, b2_rows::proofs::Levels::part_no_longer))]
fn past_power(text: &[u8]) -> &[u8]
    requires phrase { is_phrase row.POWER text.now ≡ true }
    ensures { result.now ≡ after_phrase row.POWER text.now }
{
    let mut left = past_operand(text);
    while goes_on(Chain::Power, left) {
        left = past_operand(rest_after(left, 1));
    }
    left
}

/// Past an operand.
#[cycle(skip_text)]
#[tactic(auto, using(b2_rows::proofs::EachOperand::number_here, b2_rows::proofs::EachOperand::parentheses_here, b2_rows::proofs::EachOperand::function_here, b2_rows::proofs::EachOperand::of_one_here, b2_rows::proofs::EachOperand::of_two_here, b2_rows::proofs::EachOperand::of_more_here, b2_rows::proofs::EachOperand::of_alpha_here, b2_rows::proofs::EachOperand::position_here, b2_rows::proofs::EachOperand::value_here, b2_rows::proofs::EachOperand::kept_number_here, b2_rows::proofs::EachOperand::variable_here, b2_rows::proofs::EachOperand::number_left, b2_rows::proofs::EachOperand::parentheses_left, b2_rows::proofs::EachOperand::function_left, b2_rows::proofs::EachOperand::of_one_left, b2_rows::proofs::EachOperand::of_two_left, b2_rows::proofs::EachOperand::of_more_left, b2_rows::proofs::EachOperand::of_alpha_left, b2_rows::proofs::EachOperand::position_left, b2_rows::proofs::EachOperand::value_left, b2_rows::proofs::EachOperand::kept_number_left, b2_rows::proofs::EachOperand::variable_left, crate::proofs::Operands::literal_rest, crate::proofs::Operands::kept_rest))]
fn past_operand(text: &[u8]) -> &[u8]
    requires phrase { is_phrase row.OPERAND text.now ≡ true }
    ensures { result.now ≡ after_phrase row.OPERAND text.now }
{
    match operand_at(text) {
        Operand::Number => rest_after(text, number_width(Origin::Atoms, text)),
        Operand::Parentheses => past_group(text),
        Operand::Function => past_function(text),
        Operand::OfOne => past_of_one(text),
        Operand::OfTwo => past_of_two(text),
        Operand::OfMore => past_of_more(text),
        Operand::OfAlpha => past_of_alpha(text),
        Operand::Position => past_position(text),
        Operand::Value => past_value(text),
        Operand::KeptNumber => rest_after(text, 1),
        Operand::Variable => past_name(NameKind::Number, text),
    }
}

/// Past an expression in parentheses.
#[cycle(skip_text)]
#[tactic(auto, using(crate::proofs::Operands::group_sum, crate::proofs::Operands::group_rest, crate::proofs::Operands::group_shorter))]
fn past_group(text: &[u8]) -> &[u8]
    requires phrase { is_phrase row.PARENTHESES text.now ≡ true }
    ensures { result.now ≡ after_phrase row.PARENTHESES text.now }
{
    rest_after(past_sum(rest_after(text, 1)), 1)
}

/// Past a call of a DEFFN.
#[cycle(skip_text)]
#[tactic(auto, using(crate::proofs::Operands::call_sum, crate::proofs::Operands::call_rest, crate::proofs::Operands::call_shorter))]
fn past_function(text: &[u8]) -> &[u8]
    requires phrase { is_phrase row.FUNCTION text.now ≡ true }
    ensures { result.now ≡ after_phrase row.FUNCTION text.now }
{
    rest_after(past_sum(rest_after(text, 3)), 1)
}

/// Past ABS, INT, FIX, SGN or SQR.
#[cycle(skip_text)]
#[tactic(auto, using(crate::proofs::Operands::one_sum, crate::proofs::Operands::one_rest, crate::proofs::Operands::one_shorter))]
fn past_of_one(text: &[u8]) -> &[u8]
    requires phrase { is_phrase row.OF_ONE text.now ≡ true }
    ensures { result.now ≡ after_phrase row.OF_ONE text.now }
{
    rest_after(past_sum(rest_after(text, 1)), 1)
}

/// Past ROUND or MOD.
#[cycle(skip_text)]
#[tactic(auto, using(crate::proofs::Operands::two_first, crate::proofs::Operands::two_second, crate::proofs::Operands::two_rest, crate::proofs::Operands::two_shorter, crate::proofs::Operands::second_shorter))]
fn past_of_two(text: &[u8]) -> &[u8]
    requires phrase { is_phrase row.OF_TWO text.now ≡ true }
    ensures { result.now ≡ after_phrase row.OF_TWO text.now }
{
    let after = past_sum(rest_after(text, 1));
    rest_after(past_sum(rest_after(after, 1)), 1)
}

/// Past MAX or MIN.
#[cycle(skip_text)]
#[tactic(auto, using(crate::proofs::Operands::more_first, crate::proofs::Operands::more_further, crate::proofs::Operands::more_rest, crate::proofs::Operands::more_shorter, crate::proofs::Operands::rest_shorter))]
fn past_of_more(text: &[u8]) -> &[u8]
    requires phrase { is_phrase row.OF_MORE text.now ≡ true }
    ensures { result.now ≡ after_phrase row.OF_MORE text.now }
{
    let after = past_sum(rest_after(text, 1));
    rest_after(past_further(after), 1)
}

/// Past the numbers that follow the first of MAX or MIN, of which there are at most seven.
#[cycle(skip_text)]
fn past_further(text: &[u8]) -> &[u8]
    requires phrase { are_further 7 text.now ≡ true }
    ensures { result.now ≡ after_further 7 text.now }
{
    let mut left = text;
    for _ in 0..7usize {
        if !is_at(b',', left) {
            return left;
        }
        left = past_sum(rest_after(left, 1));
    }
    left
}

/// Past LEN or NUM.
#[cycle(skip_text)]
#[tactic(auto, using(crate::proofs::Operands::alpha_text, crate::proofs::Operands::alpha_rest, crate::proofs::Operands::alpha_shorter))]
fn past_of_alpha(text: &[u8]) -> &[u8]
    requires phrase { is_phrase row.OF_ALPHA text.now ≡ true }
    ensures { result.now ≡ after_phrase row.OF_ALPHA text.now }
{
    rest_after(past_alpha(rest_after(text, 1)), 1)
}

/// Past POS.
#[cycle(skip_text)]
#[tactic(auto, using(crate::proofs::Operands::position_first, crate::proofs::Operands::position_sign, crate::proofs::Operands::position_second, crate::proofs::Operands::position_rest, crate::proofs::Operands::position_shorter, crate::proofs::Operands::other_shorter))]
fn past_position(text: &[u8]) -> &[u8]
    requires phrase { is_phrase row.POSITION text.now ≡ true }
    ensures { result.now ≡ after_phrase row.POSITION text.now }
{
    let sign = past_alpha(rest_after(text, 1));
    let width = relation_width(sign);
    rest_after(past_alpha(rest_after(sign, width)), 1)
}

/// Past VAL.
#[cycle(skip_text)]
#[tactic(auto, using(crate::proofs::Operands::bytes_first, crate::proofs::Operands::bytes_count, crate::proofs::Operands::bytes_rest, crate::proofs::Operands::bytes_shorter, crate::proofs::Operands::count_shorter))]
fn past_value(text: &[u8]) -> &[u8]
    requires phrase { is_phrase row.VALUE text.now ≡ true }
    ensures { result.now ≡ after_phrase row.VALUE text.now }
{
    let after = past_alpha(rest_after(text, 1));
    rest_after(past_second(after), 1)
}

/// Past a number after a comma, where one is written.
#[cycle(skip_text)]
#[tactic(auto, using(crate::proofs::Names::second_part, crate::proofs::Names::second_rest, crate::proofs::Names::no_second_rest, crate::proofs::Names::second_shorter))]
fn past_second(text: &[u8]) -> &[u8]
    requires phrase { maybe_phrase (start.Code byte.comma) row.COMMA_NUMBER text.now ≡ true }
    ensures { result.now ≡ after_maybe (start.Code byte.comma) row.COMMA_NUMBER text.now }
{
    if !is_at(b',', text) {
        return text;
    }
    past_sum(rest_after(text, 1))
}

/// Past subscripts, where some are written.
#[cycle(skip_text)]
#[tactic(auto, using(crate::proofs::Names::row_part, crate::proofs::Names::column_part, crate::proofs::Names::subscripts_rest, crate::proofs::Names::no_subscripts_rest, crate::proofs::Names::row_shorter, crate::proofs::Names::column_shorter))]
fn past_subscripts(text: &[u8]) -> &[u8]
    requires phrase { maybe_phrase (start.Code byte.opening) row.SUBSCRIPTS text.now ≡ true }
    ensures { result.now ≡ after_maybe (start.Code byte.opening) row.SUBSCRIPTS text.now }
{
    if !is_at(b'(', text) {
        return text;
    }
    let after = past_sum(rest_after(text, 1));
    rest_after(past_second(after), 1)
}

/// How many bytes a name of a kind takes.
#[tactic(auto, using(crate::proofs::Names::alpha_leaf_is, crate::proofs::Names::number_leaf_is))]
fn width_of_name(kind: NameKind, text: &[u8]) -> usize
    ensures { result ≡ leaf_width Atoms (name_leaf kind) text.now }
{
    if kind.is_alpha() {
        alpha_name_width(Origin::Atoms, text)
    } else {
        numeric_name_width(Origin::Atoms, text)
    }
}

/// Past a name with subscripts or none.
#[cycle(skip_text)]
#[tactic(auto, using(crate::proofs::Names::located_subscripts, crate::proofs::Names::located_rest, crate::proofs::Names::drop_no_longer))]
pub fn past_name(kind: NameKind, text: &[u8]) -> &[u8]
    requires phrase { is_phrase (name_row kind) text.now ≡ true }
    ensures { result.now ≡ after_phrase (name_row kind) text.now }
{
    past_subscripts(rest_after(text, width_of_name(kind, text)))
}

/// Past an alpha expression.
#[cycle(skip_text)]
#[tactic(auto, using(crate::proofs::Texts::text_first, crate::proofs::Texts::text_list, crate::proofs::Texts::text_rest, crate::proofs::Texts::on_operand, crate::proofs::Texts::on_list, crate::proofs::Texts::on_rest, crate::proofs::Texts::on_shorter, crate::proofs::Texts::off_rest, b2_rows::proofs::Levels::part_no_longer))]
pub fn past_alpha(text: &[u8]) -> &[u8]
    requires phrase { is_phrase row.ALPHA text.now ≡ true }
    ensures { result.now ≡ after_phrase row.ALPHA text.now }
{
    let mut left = past_alpha_operand(text);
    while goes_on(Chain::Alpha, left) {
        left = past_alpha_operand(rest_after(left, 1));
    }
    left
}

/// Past an alpha operand.
#[cycle(skip_text)]
#[tactic(auto, using(b2_rows::proofs::EachOperand::literal_here, b2_rows::proofs::EachOperand::string_part_here, b2_rows::proofs::EachOperand::hex_here, b2_rows::proofs::EachOperand::binary_here, b2_rows::proofs::EachOperand::alpha_variable_here, b2_rows::proofs::EachOperand::literal_left, b2_rows::proofs::EachOperand::string_part_left, b2_rows::proofs::EachOperand::hex_left, b2_rows::proofs::EachOperand::binary_left, b2_rows::proofs::EachOperand::alpha_variable_left, crate::proofs::Texts::quoted_rest))]
fn past_alpha_operand(text: &[u8]) -> &[u8]
    requires phrase { is_phrase row.ALPHA_OPERAND text.now ≡ true }
    ensures { result.now ≡ after_phrase row.ALPHA_OPERAND text.now }
{
    match alpha_operand_at(text) {
        AlphaOperand::Literal => rest_after(text, literal_width(text)),
        AlphaOperand::StringPart => past_part(text),
        AlphaOperand::Hex => past_hex(text),
        AlphaOperand::Binary => past_binary(text),
        AlphaOperand::Variable => past_name(NameKind::Alpha, text),
    }
}

/// Past HEX.
#[tactic(auto, using(crate::proofs::Texts::hex_pairs, crate::proofs::Texts::hex_rest))]
fn past_hex(text: &[u8]) -> &[u8]
    requires phrase { is_phrase row.HEX text.now ≡ true }
    ensures { result.now ≡ after_phrase row.HEX text.now }
{
    rest_after(past_pairs(rest_after(text, 1)), 1)
}

/// Past pairs of hexadecimal digits.
#[tactic(auto, using(crate::proofs::Pairs::pairs_list, crate::proofs::Pairs::pairs_rest, crate::proofs::Pairs::pair_list, crate::proofs::Pairs::pair_rest, crate::proofs::Pairs::pair_shorter, crate::proofs::Pairs::none_rest))]
fn past_pairs(text: &[u8]) -> &[u8]
    requires phrase { is_phrase row.HEX_PAIRS text.now ≡ true }
    ensures { result.now ≡ after_phrase row.HEX_PAIRS text.now }
{
    let mut left = rest_after(text, 2);
    while is_hex_at(left) {
        left = rest_after(left, 2);
    }
    left
}

/// Past BIN.
#[cycle(skip_text)]
#[tactic(auto, using(crate::proofs::Texts::binary_number, crate::proofs::Texts::binary_count, crate::proofs::Texts::binary_rest, crate::proofs::Texts::binary_shorter, crate::proofs::Texts::binary_count_shorter))]
fn past_binary(text: &[u8]) -> &[u8]
    requires phrase { is_phrase row.BINARY text.now ≡ true }
    ensures { result.now ≡ after_phrase row.BINARY text.now }
{
    let after = past_sum(rest_after(text, 1));
    rest_after(past_second(after), 1)
}

/// Past STR.
#[cycle(skip_text)]
#[tactic(auto, using(crate::proofs::Texts::part_variable, crate::proofs::Texts::part_from, crate::proofs::Texts::part_count, crate::proofs::Texts::part_rest, crate::proofs::Texts::part_shorter, crate::proofs::Texts::from_shorter, crate::proofs::Texts::count_shorter))]
pub fn past_part(text: &[u8]) -> &[u8]
    requires phrase { is_phrase row.STRING_PART text.now ≡ true }
    ensures { result.now ≡ after_phrase row.STRING_PART text.now }
{
    let comma = past_name(NameKind::AlphaReceiver, rest_after(text, 1));
    let after = past_sum(rest_after(comma, 1));
    rest_after(past_second(after), 1)
}
