// One walk over the table of forms, from a source as from atoms.
ghost use Rattle.std.specs.Prelude.{◌≡◌, ◌≤◌, ◌<◌, ◌+◌, [], length, map, get_or};
ghost use Rattle.b2_atom.specs.Tree.{seen_output, Takes};
ghost use Rattle.b2_atom.specs.Grammar as spec;

use crate::forms::{Item, Position, Start};
use crate::output::{Output, Stop};
use crate::rows;
use crate::starts::{begins, statement_row};
use crate::symbols::read_item;
use crate::table::{ROWS_0, ROWS_1, ROWS_2, ROWS_3};
use crate::words::Origin;
use b2_base::codes;

/// How many parentheses may be open at a place.
pub const DEPTH: u8 = 32;

/// How many parts may stand in one another between two parentheses; no form has as many.
pub const LEVELS: u8 = 40;

/// A row of a table, or an empty one.
fn row_in(table: &'static [&'static [Item]], index: usize) -> &'static [Item]
    ensures { result.now ≡ get_or (map (λ r. r.now) table.now) index [] }
{
    match table.get(index) {
        Some(row) => row,
        None => &[],
    }
}

/// A row.
#[tactic(auto, unfolding(crate::specs::Grammar::row_items))]
fn row_items(number: u16) -> &'static [Item]
    ensures { result.now ≡ spec.row_items number }
{
    let index = usize::from(if number < 192 {
        number % 64
    } else {
        number - 192
    });
    match number / 64 {
        0 => row_in(&ROWS_0, index),
        1 => row_in(&ROWS_1, index),
        2 => row_in(&ROWS_2, index),
        _ => row_in(&ROWS_3, index),
    }
}

/// Reads an item.
#[cycle(walk)]
fn take_item<'a>(
    out: &mut Output,
    origin: Origin,
    fuel: usize,
    room: u8,
    level: u8,
    item: Item,
    text: &'a [u8],
) -> Result<&'a [u8], Stop>
    requires room { room ≤ 32 }
    requires level { level ≤ 40 }
    ensures { Takes (seen_output out.old) (spec.item_of_part origin fuel room level item text.now) (seen_output out.new) result }
{
    match item {
        Item::Part(row) => part(out, origin, fuel, room, level, row, text),
        Item::Maybe(start, row) => {
            if begins(origin, start, text) {
                part(out, origin, fuel, room, level, row, text)
            } else {
                Ok(text)
            }
        }
        Item::Either(start, row, other) => {
            if begins(origin, start, text) {
                part(out, origin, fuel, room, level, row, text)
            } else {
                part(out, origin, fuel, room, level, other, text)
            }
        }
        Item::Many(start, row) => many(out, origin, fuel, room, level, start, row, text),
        Item::Nest(row) => {
            if room == 0 {
                return Err(Stop::Deep);
            }
            part(out, origin, fuel, room - 1, LEVELS, row, text)
        }
        Item::Statement(position) => statement(out, origin, fuel, position, text),
        Item::Word(_)
        | Item::Sign(_, _)
        | Item::Among(_, _, _)
        | Item::ProgramWord(_)
        | Item::Ignored(_)
        | Item::ShortWord(_)
        | Item::Comma
        | Item::LeftOut
        | Item::End
        | Item::Typed(_, _) => read_item(out, origin, item, text),
    }
}

/// Reads a part as often as it begins.
#[cycle(walk)]
fn many<'a>(
    out: &mut Output,
    origin: Origin,
    fuel: usize,
    room: u8,
    level: u8,
    start: Start,
    row: u16,
    text: &'a [u8],
) -> Result<&'a [u8], Stop>
    requires room { room ≤ 32 }
    requires level { level ≤ 40 }
    ensures { Takes (seen_output out.old) (spec.many (spec.reader origin) start (spec.part origin fuel room level row) (length text.now) text.now) (seen_output out.new) result }
{
    let mut left = text;
    for _ in 0..text.len() {
        if !begins(origin, start, left) {
            return Ok(left);
        }
        left = part(out, origin, fuel, room, level, row, left)?;
    }
    if begins(origin, start, left) {
        return Err(Stop::At(codes::S14_STATEMENT, 0));
    }
    Ok(left)
}

/// Reads a part.
#[cycle(walk)]
pub fn part<'a>(
    out: &mut Output,
    origin: Origin,
    fuel: usize,
    room: u8,
    level: u8,
    row: u16,
    text: &'a [u8],
) -> Result<&'a [u8], Stop>
    requires room { room ≤ 32 }
    requires level { level ≤ 40 }
    ensures { Takes (seen_output out.old) (spec.part origin fuel room level row text.now) (seen_output out.new) result }
{
    if level == 0 {
        return Err(Stop::At(codes::S14_STATEMENT, 0));
    }
    let mut wanted = row_items(row);
    let mut left = text;
    while let [item, others @ ..] = wanted {
        left = take_item(out, origin, fuel, room, level - 1, *item, left)?;
        wanted = others;
    }
    Ok(left)
}

/// Reads a statement, with the statements that follow it after THEN, ELSE or ERROR.
#[cycle(walk)]
pub fn statement<'a>(
    out: &mut Output,
    origin: Origin,
    fuel: usize,
    position: Position,
    text: &'a [u8],
) -> Result<&'a [u8], Stop>
    ensures { Takes (seen_output out.old) (spec.statement (spec.reader origin) fuel position text.now) (seen_output out.new) result }
{
    if fuel == 0 {
        return Ok(text);
    }
    match statement_row(origin, position, text) {
        Ok((row, here)) => part(out, origin, fuel - 1, DEPTH, LEVELS, row, here),
        Err(stop) => Err(stop),
    }
}

/// Reads a whole line.
pub fn parse_line<'a>(out: &mut Output, origin: Origin, text: &'a [u8]) -> Result<&'a [u8], Stop>
    ensures { Takes (seen_output out.old) (spec.parse_line origin text.now) (seen_output out.new) result }
{
    part(out, origin, text.len() + 1, DEPTH, LEVELS, rows::LINE, text)
}
