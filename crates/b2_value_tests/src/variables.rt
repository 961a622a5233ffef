// A partition's variables.
//
// - `variable is_legal | NAME`.
// - `variable calls | AREA | CALL | CALL ..`: what each call gives, and what the variables take after it.
//
// A name is written as `A`, `A1`, `A$`, `A()` and `A$()`. A call is its name, the variable's, and what the call takes in its
// order: a row and a column (0 where there is none), or rows, columns and a length; numbers that are left out are 0. What
// `part_mut` and `all_mut` lend is filled with `X`, what `change_part` and `change_all` lend is turned round.
ghost use Rattle.std.specs.Prelude.{◌≡◌, true};
ghost use Rattle.b2_vars.specs.Names.{is_legal_name};

use crate::items::{dec_of, value};
use crate::showing::show_value;
use b2_cases::{Sheet, str_of};
use b2_dec::Value;
use b2_vars::{Shape, Var, Vars};

pub fn answer(call: &str, sheet: &mut Sheet<'_>) {
    match call {
        "is_legal" => is_legal(sheet),
        "calls" => calls(sheet),
        _ => sheet.no_such_call(),
    }
}

/// A value of a variable.
#[derive(Clone, Copy)]
struct At {
    v: Var,
    row: u16,
    column: u16,
}

/// The variable that a word names, None where it names none.
fn variable(word: &[u8]) -> Option<Var> {
    let [letter, after @ ..] = word else {
        return None;
    };
    let (digit, kind) = match after {
        [] | [b'$' | b'(', ..] => (None, after),
        [digit, kind @ ..] => (Some(*digit), kind),
    };
    let (alpha, array) = match str_of(kind) {
        "" => (false, false),
        "$" => (true, false),
        "()" => (false, true),
        "$()" => (true, true),
        _ => return None,
    };
    Some(Var {
        letter: *letter,
        digit,
        alpha,
        array,
    })
}

fn is_legal(sheet: &mut Sheet<'_>) {
    match variable(sheet.cell()) {
        Some(v) => sheet.show_truth(v.is_legal()),
        None => sheet.misread(),
    }
}

fn calls(sheet: &mut Sheet<'_>) {
    sheet.open();
    let area = sheet.count();
    let Ok(mut vars) = Vars::new(sheet.alloc(), area) else {
        return sheet.no_memory();
    };
    for place in 0..100u8 {
        if sheet.is_empty() {
            break;
        }
        if place > 0 {
            sheet.show(", ");
        }
        sheet.open();
        one_call(&mut vars, sheet);
        sheet.show(" ");
        sheet.show_number(vars.count() as u64);
    }
}

/// Makes a call, and shows what it gives.
fn one_call(vars: &mut Vars, sheet: &mut Sheet<'_>) {
    let call = str_of(sheet.word());
    match call {
        "clear" => {
            vars.clear();
            sheet.show("ok");
        }
        "clear_non_common" => {
            vars.clear_non_common();
            sheet.show("ok");
        }
        _ => match variable(sheet.word()) {
            Some(v) if v.is_legal() => of_variable(vars, v, call, sheet),
            _ => sheet.misread(),
        },
    }
}

/// Makes a call on a variable.
fn of_variable(vars: &mut Vars, v: Var, call: &str, sheet: &mut Sheet<'_>)
    requires { is_legal_name v ≡ true }
{
    match call {
        "dim" | "com" | "redim" => shaped(vars, v, call, sheet),
        "shape" => show_shape(vars, v, sheet),
        "all" | "all_mut" | "change_all" => of_all(vars, v, call, sheet),
        _ => {
            let at = At {
                v,
                row: sheet.number(),
                column: sheet.number(),
            };
            of_value(vars, at, call, sheet);
        }
    }
}

fn show_shape(vars: &Vars, v: Var, sheet: &mut Sheet<'_>)
    requires { is_legal_name v ≡ true }
{
    match vars.shape(v) {
        Some(shape) => {
            sheet.show_number(u64::from(shape.rows));
            sheet.show(" ");
            sheet.show_number(u64::from(shape.cols));
            sheet.show(" ");
            sheet.show_number(u64::from(shape.len));
        }
        None => sheet.show("none"),
    }
}

fn shaped(vars: &mut Vars, v: Var, call: &str, sheet: &mut Sheet<'_>)
    requires { is_legal_name v ≡ true }
{
    let shape = Shape {
        rows: sheet.number(),
        cols: sheet.number(),
        len: sheet.small(),
    };
    match call {
        "dim" => sheet.show_outcome(vars.dim(v, shape)),
        "com" => sheet.show_outcome(vars.com(v, shape)),
        _ => sheet.show_outcome(vars.redim(v, shape)),
    }
}

fn of_all(vars: &mut Vars, v: Var, call: &str, sheet: &mut Sheet<'_>)
    requires { is_legal_name v ≡ true }
{
    if let Err(code) = vars.reach_all(v) {
        return sheet.show_code(code);
    }
    match call {
        "all_mut" => vars.all_mut(v).fill(b'X'),
        "change_all" => vars.change_all(v, |all: &mut [u8]| all.reverse()),
        _ => {}
    }
    match vars.all(v) {
        Ok(all) => sheet.show_quoted(all),
        Err(code) => sheet.show_code(code),
    }
}

/// Makes a call on a value of a variable.
fn of_value(vars: &mut Vars, at: At, call: &str, sheet: &mut Sheet<'_>)
    requires { is_legal_name at.v ≡ true }
{
    match call {
        "get" => match vars.get(at.v, at.row, at.column) {
            Ok(value) => show_value(sheet, &value),
            Err(code) => sheet.show_code(code),
        },
        "reach_value" => sheet.show_outcome(vars.reach_value(at.v, at.row, at.column)),
        "set" => set(vars, at, sheet),
        "set_number" => set_number(vars, at, sheet),
        "set_alpha" => set_alpha(vars, at, sheet),
        "set_part" => set_part(vars, at, sheet),
        _ => change_part(vars, at, call, sheet),
    }
}

fn set(vars: &mut Vars, at: At, sheet: &mut Sheet<'_>)
    requires { is_legal_name at.v ≡ true }
{
    match value(sheet) {
        Value::Number(x) if !at.v.alpha => {
            sheet.show_outcome(vars.set(at.v, at.row, at.column, &Value::Number(x)));
        }
        Value::Alpha(bytes) if at.v.alpha => {
            sheet.show_outcome(vars.set(at.v, at.row, at.column, &Value::Alpha(bytes)));
        }
        _ => sheet.misread(),
    }
}

fn set_number(vars: &mut Vars, at: At, sheet: &mut Sheet<'_>)
    requires { is_legal_name at.v ≡ true }
{
    let word = sheet.word();
    let x = dec_of(sheet, word);
    if at.v.alpha {
        return sheet.misread();
    }
    sheet.show_outcome(vars.set_number(at.v, at.row, at.column, x));
}

fn set_alpha(vars: &mut Vars, at: At, sheet: &mut Sheet<'_>)
    requires { is_legal_name at.v ≡ true }
{
    let bytes = sheet.quoted();
    if !at.v.alpha {
        return sheet.misread();
    }
    sheet.show_outcome(vars.set_alpha(at.v, at.row, at.column, &bytes));
}

fn set_part(vars: &mut Vars, at: At, sheet: &mut Sheet<'_>)
    requires { is_legal_name at.v ≡ true }
{
    let from = sheet.count();
    let bytes = sheet.quoted();
    match vars.reach_part(at.v, at.row, at.column, from, bytes.len()) {
        Ok(()) => {
            vars.set_part(at.v, at.row, at.column, from, &bytes);
            sheet.show("ok");
        }
        Err(code) => sheet.show_code(code),
    }
}

/// Makes a call that lends a part of an alpha value, and changes it.
fn change_part(vars: &mut Vars, at: At, call: &str, sheet: &mut Sheet<'_>)
    requires { is_legal_name at.v ≡ true }
{
    let from = sheet.count();
    let n = sheet.count();
    if let Err(code) = vars.reach_part(at.v, at.row, at.column, from, n) {
        return sheet.show_code(code);
    }
    match call {
        "reach_part" => {}
        "part_mut" => vars.part_mut(at.v, at.row, at.column, from, n).fill(b'X'),
        "change_part" => {
            vars.change_part(at.v, at.row, at.column, from, n, |part: &mut [u8]| {
                part.reverse()
            });
        }
        _ => return sheet.no_such_call(),
    }
    sheet.show("ok");
}
