//! Rows of the calls on the language: typed lines read into atoms, atoms cut into units and listed, program texts, and what
//! stands at the bytes of a unit. The file `stdin` has the rows, each a line as `b2_cases` reads it.
//!
//! Atoms are written with the words between braces, and the numbers of lines too: `{GOTO}{20}` is four bytes. Each other
//! byte is written as in any cell.
#![tactic(auto)]

mod atom_cells;
mod beginnings;
mod codes;
mod following;
mod leaves;
mod lines;
mod row_names;
mod text_steps;
mod typed;

use atom_cells::atoms_of;
use b2_cases::{Calls, Cells, Sheet, str_of, try_rows};
use std::alloc::{AllocError, Global};
use std::io;

struct LanguageCalls;

impl Calls for LanguageCalls {
    fn given(alloc: Global, call: &[u8], cells: Cells<'_>) -> Result<String, AllocError> {
        let mut sheet = Sheet::new(alloc, cells);
        answer(&mut sheet, str_of(call));
        sheet.finish()
    }
}

/// Makes the call of that name.
fn answer(sheet: &mut Sheet<'_>, call: &str) {
    match call {
        "read" => typed::read_line(sheet),
        "source" => typed::source(sheet),
        "line" => typed::line(sheet),
        "word" => typed::word(sheet),
        "unit" => following::unit(sheet),
        "uses" => following::uses(sheet),
        "text" => text_steps::text(sheet),
        _ => at_atoms(sheet, call),
    }
}

/// Makes the call of that name at the atoms that its first cell spells.
fn at_atoms(sheet: &mut Sheet<'_>, call: &str) {
    let cell = sheet.cell();
    let atoms = atoms_of(sheet, cell);
    match call {
        "units" => lines::units(sheet, &atoms),
        "rows" => lines::rows(sheet, &atoms),
        "list" => lines::listed(sheet, &atoms),
        "reads row" => lines::reads(sheet, &atoms),
        "begins" => beginnings::begins(sheet, &atoms),
        "operand" => sheet.show(beginnings::operand(&atoms)),
        "alpha operand" => sheet.show(beginnings::alpha_operand(&atoms)),
        "goes on" => beginnings::chains(sheet, &atoms),
        _ => leaves::leaf(sheet, call, &atoms),
    }
}

fn main(rt: HostRuntime) -> io::Result<()> {
    try_rows::<LanguageCalls>(&rt)
}
