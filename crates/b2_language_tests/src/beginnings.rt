// What begins at a text of a unit: kinds of items, operands and operators.
use b2_cases::Sheet;
use b2_rows::{
    AlphaOperand, Chain, Operand, alpha_operand_at, goes_on, has_sign, is_alpha_at, is_array_at,
    is_at, is_hex_at, is_line_at, is_numeric_at, operand_at,
};

/// Shows the words of what holds, or that nothing does.
fn show_noted(sheet: &mut Sheet<'_>, notes: &[(&str, bool)]) {
    let mut is_first = true;
    for (word, holds) in notes {
        if *holds {
            if !is_first {
                sheet.show(", ");
            }
            sheet.show(word);
            is_first = false;
        }
    }
    if is_first {
        sheet.show("nothing");
    }
}

/// `begins | TEXT`: which kinds of items begin there.
pub fn begins(sheet: &mut Sheet<'_>, text: &[u8]) {
    let notes = [
        ("line", is_line_at(text)),
        ("alpha", is_alpha_at(text)),
        ("numeric", is_numeric_at(text)),
        ("array", is_array_at(text)),
        ("hex digit", is_hex_at(text)),
        ("comma", is_at(b',', text)),
    ];
    show_noted(sheet, &notes);
}

/// `goes on | TEXT`: the chains of which an operator stands there, and whether that is a sign.
pub fn chains(sheet: &mut Sheet<'_>, text: &[u8]) {
    let notes = [
        ("sum", goes_on(Chain::Sum, text)),
        ("product", goes_on(Chain::Product, text)),
        ("power", goes_on(Chain::Power, text)),
        ("alpha", goes_on(Chain::Alpha, text)),
        ("condition", goes_on(Chain::Condition, text)),
        ("length", goes_on(Chain::Length, text)),
        ("length product", goes_on(Chain::LengthProduct, text)),
        ("length power", goes_on(Chain::LengthPower, text)),
        ("sign", has_sign(text)),
    ];
    show_noted(sheet, &notes);
}

/// `operand | TEXT`: the kind of the operand that stands there.
pub fn operand(text: &[u8]) -> &'static str {
    match operand_at(text) {
        Operand::Number => "number",
        Operand::Parentheses => "parentheses",
        Operand::Function => "function",
        Operand::OfOne => "of one",
        Operand::OfTwo => "of two",
        Operand::OfMore => "of more",
        Operand::OfAlpha => "of alpha",
        Operand::Position => "position",
        Operand::Value => "value",
        Operand::KeptNumber => "kept number",
        Operand::Variable => "variable",
    }
}

/// `alpha operand | TEXT`: the kind of the alpha operand that stands there.
pub fn alpha_operand(text: &[u8]) -> &'static str {
    match alpha_operand_at(text) {
        AlphaOperand::Literal => "literal",
        AlphaOperand::StringPart => "part of a string",
        AlphaOperand::Hex => "hex",
        AlphaOperand::Binary => "binary",
        AlphaOperand::Variable => "variable",
    }
}
