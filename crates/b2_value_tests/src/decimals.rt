// Decimals.
//
// - `number add | MODE | A | B`, and so `sub`, `mul`, `div` and `modulo`: the number, or the code. MODE is `round` or `cut`.
// - `number cmp | A | B`: `less`, `equal` or `greater`.
// - `number power | MODE | A | N`, `number round_to | A | N`, `number NAME | A` for `sqr`, `int`, `fix`, `abs`, `sgn` and `whole`.
// - `number parts | A`: whether it is below zero and whether it is zero, its thirteen digits and its exponent.
// - `number packed | BYTES`: the number that is packed in eight bytes, and the bytes that it packs to.
// - `number mixed | MODE | TIMES`: four operations in a circle, each on what the one before it gave, as many times.
use crate::items::{dec_of, next_dec, next_packed};
use crate::showing::{show_dec, show_packed};
use b2_base::Code;
use b2_cases::{Sheet, str_of};
use b2_dec::{
    Dec, Mode, abs, add, cmp, div, fix, int, modulo, mul, pack, power, round_to, sgn, sqr, sub,
    unpack, whole,
};
use std::cmp::Ordering;

pub fn answer(call: &str, sheet: &mut Sheet<'_>) {
    match call {
        "add" | "sub" | "mul" | "div" | "modulo" => joined(call, sheet),
        "power" => raised(sheet),
        "round_to" => rounded(sheet),
        "cmp" => compared(sheet),
        "packed" => packed(sheet),
        "parts" => parts(sheet),
        "mixed" => mixed(sheet),
        _ => of_one(call, sheet),
    }
}

/// Reads a cell that names a mode.
pub fn next_mode(sheet: &mut Sheet<'_>) -> Mode {
    match str_of(sheet.cell()) {
        "round" => Mode::Round,
        "cut" => Mode::Cut,
        _ => {
            sheet.misread();
            Mode::Round
        }
    }
}

/// Shows a number, or the code.
fn show_result(sheet: &mut Sheet<'_>, outcome: Result<Dec, Code>) {
    match outcome {
        Ok(x) => show_dec(sheet, x),
        Err(code) => sheet.show_code(code),
    }
}

fn joined(call: &str, sheet: &mut Sheet<'_>) {
    let mode = next_mode(sheet);
    let a = next_dec(sheet);
    let b = next_dec(sheet);
    let found = match call {
        "add" => add(a, b, mode),
        "sub" => sub(a, b, mode),
        "mul" => mul(a, b, mode),
        "div" => div(a, b, mode),
        _ => modulo(a, b, mode),
    };
    show_result(sheet, found);
}

/// Reads a cell that says a number of places, from -128 to 127.
pub fn next_places(sheet: &mut Sheet<'_>) -> i8 {
    match whole(next_dec(sheet)) {
        Some(n) if -128 <= n && n <= 127 => n as i8,
        _ => {
            sheet.misread();
            0
        }
    }
}

fn raised(sheet: &mut Sheet<'_>) {
    let mode = next_mode(sheet);
    let a = next_dec(sheet);
    sheet.open();
    let n = sheet.small();
    show_result(sheet, power(a, n, mode));
}

fn rounded(sheet: &mut Sheet<'_>) {
    let a = next_dec(sheet);
    let n = next_places(sheet);
    show_result(sheet, round_to(a, n));
}

/// The name of an order.
pub fn name_of_order(order: Ordering) -> &'static str {
    match order {
        Ordering::Less => "less",
        Ordering::Equal => "equal",
        Ordering::Greater => "greater",
    }
}

fn compared(sheet: &mut Sheet<'_>) {
    let a = next_dec(sheet);
    let b = next_dec(sheet);
    sheet.show(name_of_order(cmp(a, b)));
}

fn of_one(call: &str, sheet: &mut Sheet<'_>) {
    let a = next_dec(sheet);
    match call {
        "sqr" => show_result(sheet, sqr(a)),
        "int" => show_dec(sheet, int(a)),
        "fix" => show_dec(sheet, fix(a)),
        "abs" => show_dec(sheet, abs(a)),
        "sgn" => show_dec(sheet, sgn(a)),
        "whole" => match whole(a) {
            Some(n) => sheet.show_signed(n),
            None => sheet.show("none"),
        },
        _ => sheet.no_such_call(),
    }
}

fn parts(sheet: &mut Sheet<'_>) {
    let a = next_dec(sheet);
    sheet.show_truth(a.is_negative());
    sheet.show(" ");
    sheet.show_truth(a.is_zero());
    sheet.show(" ");
    sheet.show_number(a.coefficient());
    sheet.show(" ");
    sheet.show_signed(i64::from(a.exponent()));
}

fn packed(sheet: &mut Sheet<'_>) {
    let text = next_packed(sheet);
    let [a, b, c, d, e, f, g, h] = text.as_slice() else {
        return sheet.misread();
    };
    let Some(x) = unpack(&[*a, *b, *c, *d, *e, *f, *g, *h]) else {
        return sheet.show("none");
    };
    show_dec(sheet, x);
    sheet.show(" ");
    show_packed(sheet, &pack(x));
}

/// The numbers of the circle of operations.
#[derive(Clone, Copy)]
struct Circle {
    factor: Dec,
    addend: Dec,
    divisor: Dec,
    less: Dec,
    top: Dec,
    scale: Dec,
}

/// Once round the circle: a number above the top is scaled down.
fn round_once(circle: &Circle, start: Dec, mode: Mode) -> Result<Dec, Code> {
    let product = mul(start, circle.factor, mode)?;
    let sum = add(product, circle.addend, mode)?;
    let quotient = div(sum, circle.divisor, mode)?;
    let x = sub(quotient, circle.less, mode)?;
    if cmp(x, circle.top) == Ordering::Greater {
        mul(x, circle.scale, mode)
    } else {
        Ok(x)
    }
}

/// The numbers of the circle.
fn circle_of_numbers(sheet: &mut Sheet<'_>) -> Circle {
    Circle {
        factor: dec_of(sheet, b"1.000321765432"),
        addend: dec_of(sheet, b".7654321"),
        divisor: dec_of(sheet, b"1.000043219876"),
        less: dec_of(sheet, b".25"),
        top: dec_of(sheet, b"1E9"),
        scale: dec_of(sheet, b"1E-9"),
    }
}

/// So many times round the circle, from 1 on.
fn rounds(circle: &Circle, mode: Mode, times: usize) -> Result<Dec, Code> {
    let mut x = Dec::of_whole(1);
    for _ in 0..times {
        x = round_once(circle, x, mode)?;
    }
    Ok(x)
}

fn mixed(sheet: &mut Sheet<'_>) {
    let mode = next_mode(sheet);
    sheet.open();
    let times = sheet.count();
    let circle = circle_of_numbers(sheet);
    show_result(sheet, rounds(&circle, mode, times));
}
