// The items of PRINT that are for a screen as a whole: AT and BOX.
ghost use Rattle.std.specs.Prelude.{◌≡◌, ◌≤◌, ◌+◌, ℕ, IfOk, MatchResult, Ok, Err, true};
ghost use Rattle.b2_base.specs.Byte as byte;
ghost use Rattle.b2_atom.specs.declared.rows.TheConstants as row;
ghost use Rattle.b2_atom.specs.declared.forms.Start.TheVariants as start;
ghost use Rattle.b2_rows.specs.Rows.{is_phrase, tree_at, after_phrase};
ghost use Rattle.b2_rows.specs.Optional.{maybe_phrase, maybe_tree, after_maybe};
ghost use Rattle.b2_expr.specs.Scope.{surroundings};
ghost use Rattle.b2_expr.specs.Value.{in_statement};
ghost use Rattle.b2_print.specs.Layout.{is_on_screen};
ghost use Rattle.b2_print.specs.declared.layout.Item.TheVariants as item;
ghost use Rattle.b2_stmt_io.specs.Outlets.{width_of};
ghost use Rattle.b2_stmt_io.specs.Printing as spec;
ghost use Rattle.b2_stmt_io.specs.Printing.{ShowsItem};

use crate::outlets::Outlet;
use crate::printing::{Shown, item_to, refusal};
use b2_atom::Cursor;
use b2_base::codes::P48_DEVICE;
use b2_base::lexical::rest_after;
use b2_base::{Code, Fault};
use b2_expr::{Env, number, whole_between};
use b2_print::{SCREEN_COLUMNS, SCREEN_ROWS, lay_outline, lay_place};
use b2_rows::is_at;
use std::alloc::Global;

/// A place on the screen, and how many cells are erased from there on.
#[derive(Clone, Copy)]
pub struct ScreenPlace {
    pub row: u8,
    pub column: u8,
    pub erase: u8,
}

/// How large a box is.
#[derive(Clone, Copy)]
pub struct BoxSize {
    pub rows: u8,
    pub columns: u8,
}

/// The number that stands at a cursor without its fraction, from a least to a most. Where it is refused, nothing is told of where
/// the cursor stands.
fn whole_number_at(e: &Env<'_>, least: u8, most: u8, c: &mut Cursor<'_>) -> Result<u8, Code>
    requires phrase { is_phrase row.SUM c.old ≡ true }
    ensures value { MatchResult result (λ n. (spec.whole_in (in_statement (surroundings e.now)) least most (tree_at row.SUM c.old) ≡ Ok n) × (c.new ≡ after_phrase row.SUM c.old)) (λ code. spec.whole_in (in_statement (surroundings e.now)) least most (tree_at row.SUM c.old) ≡ Err code) }
    ensures within { IfOk result (λ n. (least ≤ n) × (n ≤ most)) }
{
    let x = match number(c, e) {
        Ok(x) => x,
        Err(code) => return Err(code),
    };
    whole_between(least, most, x)
}

/// How many cells are erased from a column on, none where no number is written.
#[tactic(auto, using(crate::proofs::ScreenRows::count_part, crate::proofs::ScreenRows::count_is, crate::proofs::ScreenRows::count_rest, crate::proofs::ScreenRows::no_count, crate::proofs::ScreenRows::no_count_rest))]
fn erased_at(e: &Env<'_>, column: u8, c: &mut Cursor<'_>) -> Result<u8, Code>
    requires phrase { maybe_phrase (start.Code byte.comma) row.COMMA_NUMBER c.old ≡ true }
    requires column { column ≤ 79 }
    ensures value { MatchResult result (λ n. (spec.erased_in (in_statement (surroundings e.now)) column (maybe_tree (start.Code byte.comma) row.COMMA_NUMBER c.old) ≡ Ok n) × (c.new ≡ after_maybe (start.Code byte.comma) row.COMMA_NUMBER c.old)) (λ code. spec.erased_in (in_statement (surroundings e.now)) column (maybe_tree (start.Code byte.comma) row.COMMA_NUMBER c.old) ≡ Err code) }
    ensures within { IfOk result (λ n. column + n ≤ 80) }
{
    if !is_at(b',', c.rest()) {
        return Ok(0);
    }
    *c = Cursor::over(rest_after(c.rest(), 1));
    whole_number_at(e, 0, SCREEN_COLUMNS - column, c)
}

/// The place that the numbers at a cursor are.
#[tactic(auto, using(crate::proofs::ScreenRows::place_column, crate::proofs::ScreenRows::place_count, crate::proofs::ScreenRows::place_row, crate::proofs::ScreenRows::place_is, crate::proofs::ScreenRows::place_rest, crate::proofs::ScreenRows::place_on_screen))]
fn place_at(e: &Env<'_>, c: &mut Cursor<'_>) -> Result<ScreenPlace, Code>
    requires phrase { is_phrase row.AT_NUMBERS c.old ≡ true }
    ensures value { MatchResult result (λ p. (spec.place_in (in_statement (surroundings e.now)) (tree_at row.AT_NUMBERS c.old) ≡ Ok (item.At p.row p.column p.erase)) × (c.new ≡ after_phrase row.AT_NUMBERS c.old)) (λ code. spec.place_in (in_statement (surroundings e.now)) (tree_at row.AT_NUMBERS c.old) ≡ Err code) }
    ensures on_screen { IfOk result (λ p. is_on_screen (item.At p.row p.column p.erase) ≡ true) }
{
    let row = match whole_number_at(e, 0, SCREEN_ROWS - 1, c) {
        Ok(row) => row,
        Err(code) => return Err(code),
    };
    *c = Cursor::over(rest_after(c.rest(), 1));
    let column = match whole_number_at(e, 0, SCREEN_COLUMNS - 1, c) {
        Ok(column) => column,
        Err(code) => return Err(code),
    };
    let erase = match erased_at(e, column, c) {
        Ok(erase) => erase,
        Err(code) => return Err(code),
    };
    Ok(ScreenPlace { row, column, erase })
}

/// The size that the numbers at a cursor are.
#[tactic(auto, using(crate::proofs::ScreenRows::size_rows, crate::proofs::ScreenRows::size_columns, crate::proofs::ScreenRows::size_is, crate::proofs::ScreenRows::size_rest, crate::proofs::ScreenRows::size_on_screen))]
fn size_at(e: &Env<'_>, c: &mut Cursor<'_>) -> Result<BoxSize, Code>
    requires phrase { is_phrase row.BOX_NUMBERS c.old ≡ true }
    ensures value { MatchResult result (λ b. (spec.outline_in (in_statement (surroundings e.now)) (tree_at row.BOX_NUMBERS c.old) ≡ Ok (item.Outline b.rows b.columns)) × (c.new ≡ after_phrase row.BOX_NUMBERS c.old)) (λ code. spec.outline_in (in_statement (surroundings e.now)) (tree_at row.BOX_NUMBERS c.old) ≡ Err code) }
    ensures on_screen { IfOk result (λ b. is_on_screen (item.Outline b.rows b.columns) ≡ true) }
{
    let rows = match whole_number_at(e, 2, SCREEN_ROWS, c) {
        Ok(rows) => rows,
        Err(code) => return Err(code),
    };
    *c = Cursor::over(rest_after(c.rest(), 1));
    let columns = match whole_number_at(e, 2, SCREEN_COLUMNS, c) {
        Ok(columns) => columns,
        Err(code) => return Err(code),
    };
    Ok(BoxSize { rows, columns })
}

/// Shows what AT does at a terminal; at a printer it is refused before its numbers are evaluated.
#[tactic(auto, using(crate::proofs::ScreenRows::at_numbers, crate::proofs::ScreenRows::at_is, crate::proofs::ScreenRows::at_rest))]
pub fn at_shown(
    alloc: Global,
    e: &Env<'_>,
    outlet: &Outlet,
    c: &mut Cursor<'_>,
    out: &mut Vec<u8>,
    fault: &mut Fault,
) -> Shown
    requires phrase { is_phrase row.AT c.old ≡ true }
    ensures { (column : ℕ) → ShowsItem (spec.on_screen outlet.now (spec.at_in (in_statement (surroundings e.now)) (tree_at row.AT c.old))) (after_phrase row.AT c.old) (width_of outlet.now) column out.old.items out.new.items c.new fault.new result }
{
    if !outlet.is_terminal() {
        return refusal(Fault::Code(Code::known(P48_DEVICE)), fault);
    }
    *c = Cursor::over(rest_after(c.rest(), 1));
    let place = match place_at(e, c) {
        Ok(place) => place,
        Err(code) => return refusal(Fault::Code(code), fault),
    };
    *c = Cursor::over(rest_after(c.rest(), 1));
    match lay_place(alloc, place.row, place.column, place.erase, out) {
        Ok(after) => item_to(after),
        Err(_) => refusal(Fault::NoMemory, fault),
    }
}

/// Shows a box at a terminal; at a printer it is refused before its numbers are evaluated.
#[tactic(auto, using(crate::proofs::ScreenRows::box_numbers, crate::proofs::ScreenRows::box_is, crate::proofs::ScreenRows::box_rest))]
pub fn box_shown(
    e: &Env<'_>,
    outlet: &Outlet,
    column: u16,
    c: &mut Cursor<'_>,
    out: &mut Vec<u8>,
    fault: &mut Fault,
) -> Shown
    requires phrase { is_phrase row.BOX c.old ≡ true }
    ensures { ShowsItem (spec.on_screen outlet.now (spec.box_in (in_statement (surroundings e.now)) (tree_at row.BOX c.old))) (after_phrase row.BOX c.old) (width_of outlet.now) column out.old.items out.new.items c.new fault.new result }
{
    if !outlet.is_terminal() {
        return refusal(Fault::Code(Code::known(P48_DEVICE)), fault);
    }
    *c = Cursor::over(rest_after(c.rest(), 1));
    let size = match size_at(e, c) {
        Ok(size) => size,
        Err(code) => return refusal(Fault::Code(code), fault),
    };
    *c = Cursor::over(rest_after(c.rest(), 1));
    match lay_outline(size.rows, size.columns, column, out) {
        Ok(after) => item_to(after),
        Err(_) => refusal(Fault::NoMemory, fault),
    }
}
