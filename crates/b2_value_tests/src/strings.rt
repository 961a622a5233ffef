// Operations on alpha values. Bytes are hexadecimal digits, and texts in quotes.
//
// - `alpha NAME | VALUE | OPERAND`, for `assign`, `add`, `sub`, `addc`, `subc`, `dac` and `dsc`: the value after it, after the
//   code, if any.
// - `alpha bool_op | VALUE | OPERAND | DIGIT`, `alpha rotate | VALUE | N | HOW`: the value after it. HOW is `each` or `whole`.
// - `alpha pos | VALUE | RELATION | BYTE`, `alpha compare | ONE | OTHER`, `alpha value_len | VALUE`.
// - `alpha val | VALUE | COUNT`, `alpha bin | NUMBER | VALUE`, `alpha hex_text | BYTE`.
use crate::decimals::{name_of_order, next_places};
use crate::items::{dec_of, next_packed};
use crate::showing::show_packed;
use b2_alpha::{
    Rel, add, addc, assign, bin, bool_op, compare, dac, dsc, hex_text, pos, rotate, sub, subc, val,
    value_len,
};
use b2_base::lexical::first;
use b2_cases::{Sheet, str_of};
use b2_dec::whole;

pub fn answer(call: &str, sheet: &mut Sheet<'_>) {
    match call {
        "bool_op" => joined(sheet),
        "rotate" => rotated(sheet),
        "pos" => found(sheet),
        "compare" => compared(sheet),
        "value_len" => measured(sheet),
        "val" => valued(sheet),
        "bin" => put_number(sheet),
        "hex_text" => spelled(sheet),
        _ => changed(call, sheet),
    }
}

fn changed(call: &str, sheet: &mut Sheet<'_>) {
    let mut value = next_packed(sheet);
    let operand = next_packed(sheet);
    let mut refusal = Ok(());
    match call {
        "assign" => assign(&mut value, &operand),
        "add" => add(&mut value, &operand),
        "sub" => sub(&mut value, &operand),
        "addc" => addc(&mut value, &operand),
        "subc" => subc(&mut value, &operand),
        "dac" => refusal = dac(&mut value, &operand),
        "dsc" => refusal = dsc(&mut value, &operand),
        _ => return sheet.no_such_call(),
    }
    sheet.show_refused(refusal);
    show_packed(sheet, &value);
}

fn joined(sheet: &mut Sheet<'_>) {
    let mut value = next_packed(sheet);
    let operand = next_packed(sheet);
    sheet.open();
    let digit = sheet.small();
    if digit >= 16 {
        return sheet.misread();
    }
    bool_op(&mut value, &operand, digit);
    show_packed(sheet, &value);
}

/// Reads a cell that says whether the value is rotated as a whole, or each byte.
fn next_is_whole(sheet: &mut Sheet<'_>) -> bool {
    match str_of(sheet.cell()) {
        "each" => false,
        "whole" => true,
        _ => {
            sheet.misread();
            false
        }
    }
}

fn rotated(sheet: &mut Sheet<'_>) {
    let mut value = next_packed(sheet);
    let n = next_places(sheet);
    let is_whole = next_is_whole(sheet);
    if n < -8 || n > 8 {
        return sheet.misread();
    }
    rotate(&mut value, n, is_whole);
    show_packed(sheet, &value);
}

/// Reads a cell that spells a relation.
pub fn next_relation(sheet: &mut Sheet<'_>) -> Rel {
    match str_of(sheet.cell()) {
        "=" => Rel::Eq,
        "<>" => Rel::Ne,
        "<" => Rel::Lt,
        "<=" => Rel::Le,
        ">" => Rel::Gt,
        ">=" => Rel::Ge,
        _ => {
            sheet.misread();
            Rel::Eq
        }
    }
}

fn found(sheet: &mut Sheet<'_>) {
    let value = next_packed(sheet);
    let relation = next_relation(sheet);
    let byte = first(&next_packed(sheet));
    sheet.show_number(pos(&value, relation, byte) as u64);
}

fn compared(sheet: &mut Sheet<'_>) {
    let one = next_packed(sheet);
    let other = next_packed(sheet);
    sheet.show(name_of_order(compare(&one, &other)));
}

fn measured(sheet: &mut Sheet<'_>) {
    let value = next_packed(sheet);
    sheet.show_number(value_len(&value) as u64);
}

fn valued(sheet: &mut Sheet<'_>) {
    let value = next_packed(sheet);
    sheet.open();
    let n = sheet.count();
    if n < 1 || n > 4 || n > value.len() {
        return sheet.misread();
    }
    sheet.show_number(u64::from(val(&value, n)));
}

/// Reads a cell that says a whole number; `most` is the greatest.
fn next_wide(sheet: &mut Sheet<'_>) -> u64 {
    let cell = sheet.cell();
    if str_of(cell) == "most" {
        return u64::MAX;
    }
    match whole(dec_of(sheet, cell)) {
        Some(n) if n >= 0 => n as u64,
        _ => {
            sheet.misread();
            0
        }
    }
}

fn put_number(sheet: &mut Sheet<'_>) {
    let number = next_wide(sheet);
    let mut value = next_packed(sheet);
    sheet.show_outcome(bin(number, &mut value));
    sheet.show(" ");
    show_packed(sheet, &value);
}

fn spelled(sheet: &mut Sheet<'_>) {
    let byte = first(&next_packed(sheet));
    sheet.show_bytes(&hex_text(byte));
}
