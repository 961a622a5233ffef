// Arrays of numbers, as MAT works on them. An array is its rows, its columns (0 for one dimension), and its numbers along the
// rows. The receiver has a 7 in each place before a call.
//
// - `matrix add | MODE | ARRAY | ARRAY`, and so `sub` and `mul`: the shape and the receiver, or the code, and the receiver where the shapes were
//   refused.
// - `matrix scale | MODE | NUMBER | ARRAY`, `matrix transpose | ARRAY`: the receiver, after the code, if any.
// - `matrix fill | WITH | ROWS COLUMNS`: the receiver, after the code, if any. WITH is `ones`, `zeros` or `unit`.
ghost use Rattle.std.specs.Prelude.{◌≡◌, ◌*◌, length, IfOk};
ghost use Rattle.b2_matrix.specs.Arrays.{columns_of};

use crate::decimals::next_mode;
use crate::items::{decs_left, next_dec};
use crate::showing::show_decs;
use b2_base::Code;
use b2_cases::{Sheet, str_of};
use b2_dec::Dec;
use b2_matrix::{Fill, Mat, MatOp, combine, fill, scale, transpose};
use std::alloc::{AllocError, Global};

pub fn answer(call: &str, sheet: &mut Sheet<'_>) {
    match call {
        "add" => combined(MatOp::Add, sheet),
        "sub" => combined(MatOp::Sub, sheet),
        "mul" => combined(MatOp::Mul, sheet),
        "scale" => scaled(sheet),
        "transpose" => turned(sheet),
        "fill" => filled(sheet),
        _ => sheet.no_such_call(),
    }
}

/// An array that a cell spells.
#[derive(Drop)]
struct Array {
    rows: u16,
    cols: u16,
    cells: Vec<Dec>,
}

/// Reads a cell that spells an array.
fn next_array(sheet: &mut Sheet<'_>) -> Array {
    sheet.open();
    let rows = sheet.number();
    let cols = sheet.number();
    let cells = decs_left(sheet);
    Array { rows, cols, cells }
}

/// How many numbers a shape has.
fn count_of(rows: u16, cols: u16) -> usize
    ensures { result ≡ rows * columns_of cols }
{
    usize::from(rows) * usize::from(cols.max(1))
}

/// A receiver.
fn sevens(alloc: Global, count: usize) -> Result<Vec<Dec>, AllocError>
    ensures { IfOk result (λ into. length into.items ≡ count) }
{
    vec![in alloc; Dec::of_whole(7); count]
}

/// Shows the receiver, after the code, if any. After the code of an element the receiver may hold anything.
fn show_received(sheet: &mut Sheet<'_>, refusal: Result<(), Code>, into: &[Dec]) {
    if let Err(code) = refusal {
        sheet.show_code(code);
        if code.class() == b'C' {
            return;
        }
        sheet.show(" ");
    }
    show_decs(sheet, into);
}

fn combined(op: MatOp, sheet: &mut Sheet<'_>) {
    let mode = next_mode(sheet);
    let first = next_array(sheet);
    let second = next_array(sheet);
    if first.cells.len() != count_of(first.rows, first.cols)
        || second.cells.len() != count_of(second.rows, second.cols)
    {
        return sheet.misread();
    }
    let Ok(mut into) = sevens(sheet.alloc(), count_of(first.rows, second.cols)) else {
        return sheet.no_memory();
    };
    let a = Mat {
        rows: first.rows,
        cols: first.cols,
        cells: &first.cells,
    };
    let b = Mat {
        rows: second.rows,
        cols: second.cols,
        cells: &second.cells,
    };
    match combine(op, a, b, mode, &mut into) {
        Ok((rows, cols)) => {
            sheet.show_number(u64::from(rows));
            sheet.show(" ");
            sheet.show_number(u64::from(cols));
            sheet.show(" ");
            show_decs(sheet, &into);
        }
        Err(code) => show_received(sheet, Err(code), &into),
    }
}

fn scaled(sheet: &mut Sheet<'_>) {
    let mode = next_mode(sheet);
    let k = next_dec(sheet);
    let array = next_array(sheet);
    let count = count_of(array.rows, array.cols);
    if array.cells.len() != count {
        return sheet.misread();
    }
    let Ok(mut into) = sevens(sheet.alloc(), count) else {
        return sheet.no_memory();
    };
    let a = Mat {
        rows: array.rows,
        cols: array.cols,
        cells: &array.cells,
    };
    let refusal = scale(k, a, mode, &mut into);
    show_received(sheet, refusal, &into);
}

fn turned(sheet: &mut Sheet<'_>) {
    let array = next_array(sheet);
    let count = count_of(array.rows, array.cols);
    if array.cells.len() != count {
        return sheet.misread();
    }
    let Ok(mut into) = sevens(sheet.alloc(), count) else {
        return sheet.no_memory();
    };
    let a = Mat {
        rows: array.rows,
        cols: array.cols,
        cells: &array.cells,
    };
    transpose(a, &mut into);
    show_decs(sheet, &into);
}

/// Reads a cell that says what an array is filled with.
fn next_fill(sheet: &mut Sheet<'_>) -> Fill {
    match str_of(sheet.cell()) {
        "ones" => Fill::Con,
        "zeros" => Fill::Zer,
        "unit" => Fill::Idn,
        _ => {
            sheet.misread();
            Fill::Zer
        }
    }
}

fn filled(sheet: &mut Sheet<'_>) {
    let with = next_fill(sheet);
    sheet.open();
    let rows = sheet.number();
    let cols = sheet.number();
    let Ok(mut into) = sevens(sheet.alloc(), count_of(rows, cols)) else {
        return sheet.no_memory();
    };
    let refusal = fill(with, rows, cols, &mut into);
    show_received(sheet, refusal, &into);
}
