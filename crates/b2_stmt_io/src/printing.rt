// What PRINT shows, and the column after it.
ghost use Rattle.std.specs.Prelude.{◌≡◌, ◌==◌, ◌++◌, true, false, MatchResult, OnOk, IfOk, Ok};
ghost use Rattle.b2_base.specs.Byte as byte;
ghost use Rattle.b2_base.specs.Refusals.{IsRefused};
ghost use Rattle.b2_atom.specs.Grammar.{starts};
ghost use Rattle.b2_atom.specs.declared.words.Origin.TheVariants.{Atoms};
ghost use Rattle.b2_atom.specs.declared.rows.TheConstants as row;
ghost use Rattle.b2_atom.specs.declared.forms.Start.TheVariants as start;
ghost use Rattle.b2_rows.specs.Rows.{is_phrase, tree_at, after_phrase};
ghost use Rattle.b2_rows.specs.Optional.{maybe_phrase, maybe_tree, after_maybe};
ghost use Rattle.b2_expr.specs.Functions.{whole_between};
ghost use Rattle.b2_expr.specs.Scope.{surroundings};
ghost use Rattle.b2_expr.specs.Value.{in_statement};
ghost use Rattle.b2_stmt_io.specs.Outlets.{column_of, width_of};
ghost use Rattle.b2_stmt_io.specs.Printing as spec;
ghost use Rattle.b2_print.specs.Layout.{item_column, item_placed, items_column, layout};
ghost use Rattle.b2_print.specs.declared.layout.Item.TheVariants as item;
ghost use Rattle.b2_stmt_io.specs.Printing.{ShowsItem, ShowsMaybe, alpha_item, hex_item, laid_after, newline_where, zone_where};

use crate::outlets::Outlet;
use crate::screen_items::{at_shown, box_shown};
use b2_atom::Cursor;
use b2_atom::words::{AT_OPEN, BOX_OPEN, HEXOF_OPEN, TAB_OPEN};
use b2_base::lexical::{first, rest_after};
use b2_base::{Fault, NoMemory};
use b2_dec::Bytes;
use b2_expr::{Env, alpha, number, whole_between};
use b2_print::{lay_bytes, lay_hex, lay_line, lay_number, lay_tab, lay_zone};
use b2_rows::{is_alpha_at, is_at, is_numeric_at};
use std::alloc::Global;

/// What showing an item came to, in one word: the column after it, and whether an item stood there; or that it was refused.
#[derive(Clone, Copy)]
pub struct Shown {
    pub column: u16,
    pub is_item: bool,
    pub refused: bool,
}

/// An item, by the column after it.
#[inline(always)]
pub fn item_to(column: u16) -> Shown
    ensures { result ≡ record { column = column; is_item = true; refused = false } }
{
    Shown {
        column,
        is_item: true,
        refused: false,
    }
}

/// No item where one may stand.
#[inline(always)]
fn no_item(column: u16) -> Shown
    ensures { result ≡ record { column = column; is_item = false; refused = false } }
{
    Shown {
        column,
        is_item: false,
        refused: false,
    }
}

/// An item that is refused: the fault is told apart.
pub fn refusal(why: Fault, fault: &mut Fault) -> Shown
    ensures refused { result.refused ≡ true }
    ensures fault { fault.new ≡ why }
{
    *fault = why;
    Shown {
        column: 0,
        is_item: false,
        refused: true,
    }
}

/// Shows what a separator does after a text, and gives the column after it.
#[tactic(auto, using(crate::proofs::Printed::one_laid, crate::proofs::Printed::none_laid))]
fn show_separator(mark: u8, width: u16, column: u16, out: &mut Vec<u8>) -> Result<u16, NoMemory>
    ensures text { OnOk result (out.new.items ≡ out.old.items ++ layout width column (zone_where (mark == byte.comma))) }
    ensures column { IfOk result (λ after. after ≡ items_column width column (zone_where (mark == byte.comma))) }
{
    if mark == b',' {
        lay_zone(width, column, out)
    } else {
        Ok(column)
    }
}

/// Shows the newline at the end after a text, where one belongs there, and gives the column after it.
#[tactic(auto, using(crate::proofs::Printed::one_laid, crate::proofs::Printed::none_laid))]
fn show_end(line: bool, width: u16, column: u16, out: &mut Vec<u8>) -> Result<u16, NoMemory>
    ensures text { OnOk result (out.new.items ≡ out.old.items ++ layout width column (newline_where line)) }
    ensures column { IfOk result (λ after. after ≡ items_column width column (newline_where line)) }
{
    if line {
        lay_line(width, column, out)
    } else {
        Ok(column)
    }
}

/// Shows the blanks of TAB.
#[tactic(auto, using(crate::proofs::PrintRows::tab_sum, crate::proofs::PrintRows::tab_is, crate::proofs::PrintRows::tab_rest))]
fn tab_shown(
    e: &Env<'_>,
    width: u16,
    column: u16,
    c: &mut Cursor<'_>,
    out: &mut Vec<u8>,
    fault: &mut Fault,
) -> Shown
    requires phrase { is_phrase row.TAB c.old ≡ true }
    ensures { ShowsItem (spec.tab_in (in_statement (surroundings e.now)) (tree_at row.TAB c.old)) (after_phrase row.TAB c.old) width column out.old.items out.new.items c.new fault.new result }
{
    *c = Cursor::over(rest_after(c.rest(), 1));
    let x = match number(c, e) {
        Ok(x) => x,
        Err(code) => return refusal(Fault::Code(code), fault),
    };
    let to = match whole_between(0, 255, x) {
        Ok(to) => to,
        Err(code) => return refusal(Fault::Code(code), fault),
    };
    *c = Cursor::over(rest_after(c.rest(), 1));
    match lay_tab(to, width, column, out) {
        Ok(after) => item_to(after),
        Err(_) => refusal(Fault::NoMemory, fault),
    }
}

/// Shows the digits of HEXOF.
#[tactic(auto, using(crate::proofs::PrintRows::hex_alpha, crate::proofs::PrintRows::hex_is, crate::proofs::PrintRows::hex_rest))]
fn hex_shown(
    alloc: Global,
    e: &Env<'_>,
    width: u16,
    column: u16,
    c: &mut Cursor<'_>,
    out: &mut Vec<u8>,
    fault: &mut Fault,
) -> Shown
    requires phrase { is_phrase row.HEXOF c.old ≡ true }
    ensures { ShowsItem (spec.hex_in (in_statement (surroundings e.now)) (tree_at row.HEXOF c.old)) (after_phrase row.HEXOF c.old) width column out.old.items out.new.items c.new fault.new result }
{
    *c = Cursor::over(rest_after(c.rest(), 1));
    let mut bytes = Bytes::new();
    match alpha(c, e, &mut bytes) {
        Ok(()) => {}
        Err(code) => return refusal(Fault::Code(code), fault),
    }
    *c = Cursor::over(rest_after(c.rest(), 1));
    match lay_hex(alloc, bytes.bytes(), width, column, out) {
        Ok(after) => item_to(after),
        Err(_) => refusal(Fault::NoMemory, fault),
    }
}

/// Shows the bytes of an alpha expression.
fn alpha_shown(
    e: &Env<'_>,
    width: u16,
    column: u16,
    c: &mut Cursor<'_>,
    out: &mut Vec<u8>,
    fault: &mut Fault,
) -> Shown
    requires phrase { is_phrase row.ALPHA c.old ≡ true }
    ensures { ShowsItem (spec.alpha_in (in_statement (surroundings e.now)) (tree_at row.ALPHA c.old)) (after_phrase row.ALPHA c.old) width column out.old.items out.new.items c.new fault.new result }
{
    let mut bytes = Bytes::new();
    match alpha(c, e, &mut bytes) {
        Ok(()) => {}
        Err(code) => return refusal(Fault::Code(code), fault),
    }
    match lay_bytes(bytes.bytes(), width, column, out) {
        Ok(after) => item_to(after),
        Err(_) => refusal(Fault::NoMemory, fault),
    }
}

/// Shows a numeric expression.
fn number_shown(
    e: &Env<'_>,
    width: u16,
    column: u16,
    c: &mut Cursor<'_>,
    out: &mut Vec<u8>,
    fault: &mut Fault,
) -> Shown
    requires phrase { is_phrase row.SUM c.old ≡ true }
    ensures { ShowsItem (spec.number_in (in_statement (surroundings e.now)) (tree_at row.SUM c.old)) (after_phrase row.SUM c.old) width column out.old.items out.new.items c.new fault.new result }
{
    let x = match number(c, e) {
        Ok(x) => x,
        Err(code) => return refusal(Fault::Code(code), fault),
    };
    match lay_number(x, width, column, out) {
        Ok(after) => item_to(after),
        Err(_) => refusal(Fault::NoMemory, fault),
    }
}

/// Shows an item of PRINT that is neither TAB nor HEXOF.
#[tactic(auto, using(crate::proofs::PrintRows::other_at, crate::proofs::PrintRows::other_at_is, crate::proofs::PrintRows::other_at_rest, crate::proofs::PrintRows::other_box, crate::proofs::PrintRows::other_box_is, crate::proofs::PrintRows::other_box_rest, crate::proofs::PrintRows::other_alpha, crate::proofs::PrintRows::other_alpha_is, crate::proofs::PrintRows::other_alpha_rest, crate::proofs::PrintRows::other_number, crate::proofs::PrintRows::other_number_is, crate::proofs::PrintRows::other_number_rest))]
#[inline(always)]
fn other_shown(
    alloc: Global,
    e: &Env<'_>,
    outlet: &Outlet,
    column: u16,
    c: &mut Cursor<'_>,
    out: &mut Vec<u8>,
    fault: &mut Fault,
) -> Shown
    requires phrase { is_phrase row.PRINT_BUT_HEXOF c.old ≡ true }
    ensures { ShowsItem (spec.but_hexof_in (record { context = in_statement (surroundings e.now); outlet = outlet.now }) (tree_at row.PRINT_BUT_HEXOF c.old)) (after_phrase row.PRINT_BUT_HEXOF c.old) (width_of outlet.now) column out.old.items out.new.items c.new fault.new result }
{
    if is_at(AT_OPEN, c.rest()) {
        return at_shown(alloc, e, outlet, c, out, fault);
    }
    if is_at(BOX_OPEN, c.rest()) {
        return box_shown(e, outlet, column, c, out, fault);
    }
    if is_alpha_at(c.rest()) {
        alpha_shown(e, outlet.width(), column, c, out, fault)
    } else {
        number_shown(e, outlet.width(), column, c, out, fault)
    }
}

/// Shows an item of PRINT.
#[tactic(auto, using(crate::proofs::PrintRows::item_tab, crate::proofs::PrintRows::item_tab_is, crate::proofs::PrintRows::item_tab_rest, crate::proofs::PrintRows::item_hex, crate::proofs::PrintRows::item_hex_is, crate::proofs::PrintRows::item_hex_rest, crate::proofs::PrintRows::item_other, crate::proofs::PrintRows::item_other_is, crate::proofs::PrintRows::item_other_rest))]
fn item_shown(
    alloc: Global,
    e: &Env<'_>,
    outlet: &Outlet,
    column: u16,
    c: &mut Cursor<'_>,
    out: &mut Vec<u8>,
    fault: &mut Fault,
) -> Shown
    requires phrase { is_phrase row.PRINT_ITEM c.old ≡ true }
    ensures { ShowsItem (spec.item_of (record { context = in_statement (surroundings e.now); outlet = outlet.now }) (tree_at row.PRINT_ITEM c.old)) (after_phrase row.PRINT_ITEM c.old) (width_of outlet.now) column out.old.items out.new.items c.new fault.new result }
{
    if is_at(TAB_OPEN, c.rest()) {
        return tab_shown(e, outlet.width(), column, c, out, fault);
    }
    if is_at(HEXOF_OPEN, c.rest()) {
        return hex_shown(alloc, e, outlet.width(), column, c, out, fault);
    }
    other_shown(alloc, e, outlet, column, c, out, fault)
}

/// Whether an item of PRINT begins at a text.
#[tactic(auto, unfolding(b2_atom::specs::Grammar::starts))]
fn is_item_at(text: &[u8]) -> bool
    ensures { result ≡ starts Atoms start.PrintItem text.now }
{
    let byte = first(text);
    byte >= TAB_OPEN && byte <= HEXOF_OPEN
        || byte >= AT_OPEN && byte <= BOX_OPEN
        || is_numeric_at(text)
        || is_alpha_at(text)
}

/// Whether a separator stands at a text.
#[tactic(auto, unfolding(b2_atom::specs::Grammar::starts))]
fn is_separator_at(text: &[u8]) -> bool
    ensures { result ≡ starts Atoms (start.Two byte.comma byte.semicolon) text.now }
{
    is_at(b',', text) || is_at(b';', text)
}

/// Shows the item of PRINT that stands at a cursor, which then stands after it, or nothing.
#[tactic(auto, using(crate::proofs::Printed::one_part, crate::proofs::Printed::none_shown, crate::proofs::Printed::none_past, crate::proofs::Printed::none_some, crate::proofs::Printed::none_rest))]
fn item_or_none(
    alloc: Global,
    e: &Env<'_>,
    outlet: &Outlet,
    column: u16,
    c: &mut Cursor<'_>,
    out: &mut Vec<u8>,
    fault: &mut Fault,
) -> Shown
    requires phrase { maybe_phrase start.PrintItem row.PRINT_ITEM c.old ≡ true }
    ensures { ShowsMaybe (spec.item_at (record { context = in_statement (surroundings e.now); outlet = outlet.now }) (maybe_tree start.PrintItem row.PRINT_ITEM c.old)) (after_maybe start.PrintItem row.PRINT_ITEM c.old) (width_of outlet.now) column out.old.items out.new.items c.new fault.new result }
{
    if !is_item_at(c.rest()) {
        return no_item(column);
    }
    item_shown(alloc, e, outlet, column, c, out, fault)
}

/// Shows the items of PRINT after a text from the column on at which its outlet is, and a newline where no separator stands last;
/// gives the column after them.
#[tactic(auto, using(crate::proofs::Printed::print_item, crate::proofs::Printed::print_list, crate::proofs::Printed::first_shown, crate::proofs::Printed::first_fault, crate::proofs::Printed::next_item, crate::proofs::Printed::next_list, crate::proofs::Printed::next_shorter, crate::proofs::Printed::next_shown, crate::proofs::Printed::next_fault, crate::proofs::Printed::all_shown))]
pub fn show_items(
    alloc: Global,
    e: &Env<'_>,
    outlet: &Outlet,
    unit: &[u8],
    out: &mut Vec<u8>,
) -> Result<u16, Fault>
    requires phrase { is_phrase row.PRINT unit.now ≡ true }
    ensures { MatchResult result (λ after. laid_after (width_of outlet.now) out.old.items (column_of outlet.now) (spec.shown_items (record { context = in_statement (surroundings e.now); outlet = outlet.now }) (tree_at row.PRINT unit.now)) ≡ Ok (out.new.items, after)) (λ f. IsRefused (spec.shown_items (record { context = in_statement (surroundings e.now); outlet = outlet.now }) (tree_at row.PRINT unit.now)) f) }
{
    let mut fault = Fault::NoMemory;
    let mut c = Cursor::over(rest_after(unit, 1));
    let start = item_or_none(alloc, e, outlet, outlet.column(), &mut c, out, &mut fault);
    if start.refused {
        return Err(fault);
    }
    let mut at = start.column;
    let mut line = true;
    while is_separator_at(c.rest()) {
        let zone = show_separator(first(c.rest()), outlet.width(), at, out)?;
        c = Cursor::over(rest_after(c.rest(), 1));
        let next = item_or_none(alloc, e, outlet, zone, &mut c, out, &mut fault);
        if next.refused {
            return Err(fault);
        }
        at = next.column;
        line = next.is_item;
    }
    let after = show_end(line, outlet.width(), at, out)?;
    Ok(after)
}
