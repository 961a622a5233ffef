// What is found in the lines of a text.
ghost use Rattle.std.specs.Prelude.{◌≡◌, ℕ, List, Some, is_some};
ghost use Rattle.std.specs.List.Sorted.{IsStrictlySortedBy};
ghost use Rattle.std.specs.Map.{keys_of};
ghost use Rattle.std.specs.Ordering.{nat_cmp};
ghost use Rattle.b2_text.specs.Blocks.{AreSpansOf, IsLaid, heading, holds_data, is_opener, is_opening, kind, lines_laid};
ghost use Rattle.b2_text.specs.Members.{numbers_where};
ghost use Rattle.b2_text.specs.Numbered.{IsNumbered};
ghost use Rattle.b2_text.specs.Program.{line_at};
ghost use Rattle.b2_text.specs.Spots.{unit_of, is_mark, is_function, is_data, data_in, data_of, first_opening, data_from};

use crate::block::LinePlace;
use crate::line::line_of;
use crate::members::rank;
use b2_atom::{DATA, DEFFN, DEFFN_PRIME, LentAtoms, Span};
use b2_base::lexical::capped_value;

/// A place in a text: a unit of a line, counted from 0.
#[derive(Clone, Copy)]
pub struct Spot {
    pub line: u16,
    pub unit: u8,
}

/// Whether a unit is the DEFFN' of a number.
fn is_mark(n: u8, unit: &[u8]) -> bool
    ensures { result ≡ is_mark n unit.now }
{
    match unit {
        [word, number @ ..] => *word == DEFFN_PRIME && capped_value(number, 999) == u32::from(n),
        [] => false,
    }
}

/// Whether a unit is the DEFFN of a name.
fn is_function(name: u8, unit: &[u8]) -> bool
    ensures { result ≡ is_function name unit.now }
{
    match unit {
        [word, letter, sign, ..] => *word == DEFFN && *letter == name && *sign == b'(',
        _ => false,
    }
}

fn is_data(unit: &[u8]) -> bool
    ensures { result ≡ is_data unit.now }
{
    match unit {
        [word, ..] => *word == DATA,
        [] => false,
    }
}

/// Whether a unit begins with DEFFN or DEFFN'.
fn is_opener(unit: &[u8]) -> bool
    ensures { result ≡ is_opener unit.now }
{
    match unit {
        [word, ..] => *word == DEFFN || *word == DEFFN_PRIME,
        [] => false,
    }
}

/// The bytes of a unit, none where there is no such unit.
fn unit_of<'a>(line: &LentAtoms<'a>, unit: u8) -> &'a [u8]
    ensures { result.now ≡ unit_of unit line.now }
{
    match line.unit(usize::from(unit)) {
        Some(cursor) => cursor.rest(),
        None => &[],
    }
}

/// The first DATA of a line from a unit on.
fn data_in(from: u8, line: &LentAtoms<'_>) -> Option<u8>
    ensures { result ≡ data_in from line.now }
{
    let count = line.units() as u8;
    for unit in from..count {
        if is_data(unit_of(line, unit)) {
            return Some(unit);
        }
    }
    None
}

/// Whether a line begins with DEFFN or DEFFN'.
pub fn is_opening(line: &LentAtoms<'_>) -> bool
    ensures { result ≡ is_opening line.now }
{
    is_opener(unit_of(line, 0))
}

/// Whether a DATA stands in a line.
pub fn holds_data(line: &LentAtoms<'_>) -> bool
    ensures { result ≡ holds_data line.now }
{
    match data_in(0, line) {
        Some(_) => true,
        None => false,
    }
}

/// What kind of line: 1 where it begins with DEFFN or DEFFN', and 2 where a DATA stands in it.
fn kind(line: &LentAtoms<'_>) -> u8
    ensures { result ≡ kind line.now }
{
    let opens = if is_opening(line) { 1 } else { 0 };
    let holds = if holds_data(line) { 2 } else { 0 };
    opens + holds
}

/// What stands before the atoms of a line: its number, how many atom bytes and units it has, and its kind.
pub fn heading(n: u16, line: &LentAtoms<'_>) -> [u8; 5]
    ensures { result ≡ heading n line.now }
{
    [
        (n / 256) as u8,
        (n % 256) as u8,
        line.bytes().len() as u8,
        line.units() as u8,
        kind(line),
    ]
}

/// The first DATA of a line at or after a spot.
fn data_of(from: Spot, number: u16, line: &LentAtoms<'_>) -> Option<Spot>
    ensures { result ≡ data_of from (number, line.now) }
{
    if number < from.line {
        return None;
    }
    let first = if number == from.line { from.unit } else { 0 };
    match data_in(first, line) {
        Some(unit) => Some(Spot { line: number, unit }),
        None => None,
    }
}

impl Spot {
    /// The first unit of a line.
    fn first_of(line: u16) -> Spot
        ensures { result ≡ record { line = line; unit = 0 } }
    {
        Spot { line, unit: 0 }
    }
}

/// The first unit of the line of a number, where there is such a line.
#[inline(always)]
fn first_unit<'a>(
    block: &'a Vec<u8>,
    places: &Vec<LinePlace>,
    units: &'a Vec<Span>,
    table: &Vec<u16>,
    number: u16,
) -> &'a [u8]
    requires laid { IsLaid block.now.items places.now.items }
    requires ordered { IsStrictlySortedBy nat_cmp (keys_of (lines_laid block.now.items places.now.items)) }
    requires kept { AreSpansOf (lines_laid block.now.items places.now.items) units.now.items }
    requires numbered { IsNumbered table.now.items (lines_laid block.now.items places.now.items) }
    ensures { (atoms : List ℕ) → line_at number (lines_laid block.now.items places.now.items) ≡ Some atoms → result.now ≡ unit_of 0 atoms }
{
    match line_of(block, places, units, table, number) {
        Some(line) => unit_of(&line.lend(), 0),
        None => &[],
    }
}

/// The first DATA at or after a spot in the line of a number, where there is such a line.
fn data_on(
    block: &Vec<u8>,
    places: &Vec<LinePlace>,
    units: &Vec<Span>,
    table: &Vec<u16>,
    from: Spot,
    number: u16,
) -> Option<Spot>
    requires laid { IsLaid block.now.items places.now.items }
    requires ordered { IsStrictlySortedBy nat_cmp (keys_of (lines_laid block.now.items places.now.items)) }
    requires kept { AreSpansOf (lines_laid block.now.items places.now.items) units.now.items }
    requires numbered { IsNumbered table.now.items (lines_laid block.now.items places.now.items) }
    ensures { (atoms : List ℕ) → line_at number (lines_laid block.now.items places.now.items) ≡ Some atoms → result ≡ data_of from (number, atoms) }
{
    match line_of(block, places, units, table, number) {
        Some(line) => data_of(from, number, &line.lend()),
        None => None,
    }
}

/// The DEFFN' of a number in the lowest line that begins with one, of the lines that begin with DEFFN or DEFFN'.
pub fn first_mark(
    block: &Vec<u8>,
    places: &Vec<LinePlace>,
    units: &Vec<Span>,
    table: &Vec<u16>,
    openers: &Vec<u16>,
    n: u8,
) -> Option<Spot>
    requires laid { IsLaid block.now.items places.now.items }
    requires ordered { IsStrictlySortedBy nat_cmp (keys_of (lines_laid block.now.items places.now.items)) }
    requires kept { AreSpansOf (lines_laid block.now.items places.now.items) units.now.items }
    requires numbered { IsNumbered table.now.items (lines_laid block.now.items places.now.items) }
    requires listed { openers.now.items ≡ numbers_where is_opening (lines_laid block.now.items places.now.items) }
    ensures { result ≡ first_opening (is_mark n) (lines_laid block.now.items places.now.items) }
{
    for i in 0..openers.len() {
        let number = openers[i];
        if is_mark(n, first_unit(block, places, units, table, number)) {
            return Some(Spot::first_of(number));
        }
    }
    None
}

/// The DEFFN of a name in the lowest line that begins with one, of the lines that begin with DEFFN or DEFFN'.
pub fn first_function(
    block: &Vec<u8>,
    places: &Vec<LinePlace>,
    units: &Vec<Span>,
    table: &Vec<u16>,
    openers: &Vec<u16>,
    name: u8,
) -> Option<Spot>
    requires laid { IsLaid block.now.items places.now.items }
    requires ordered { IsStrictlySortedBy nat_cmp (keys_of (lines_laid block.now.items places.now.items)) }
    requires kept { AreSpansOf (lines_laid block.now.items places.now.items) units.now.items }
    requires numbered { IsNumbered table.now.items (lines_laid block.now.items places.now.items) }
    requires listed { openers.now.items ≡ numbers_where is_opening (lines_laid block.now.items places.now.items) }
    ensures { result ≡ first_opening (is_function name) (lines_laid block.now.items places.now.items) }
{
    for i in 0..openers.len() {
        let number = openers[i];
        if is_function(name, first_unit(block, places, units, table, number)) {
            return Some(Spot::first_of(number));
        }
    }
    None
}

/// The first DATA at or after a spot, of the lines in which a DATA stands.
pub fn first_data(
    block: &Vec<u8>,
    places: &Vec<LinePlace>,
    units: &Vec<Span>,
    table: &Vec<u16>,
    datas: &Vec<u16>,
    from: Spot,
) -> Option<Spot>
    requires laid { IsLaid block.now.items places.now.items }
    requires ordered { IsStrictlySortedBy nat_cmp (keys_of (lines_laid block.now.items places.now.items)) }
    requires kept { AreSpansOf (lines_laid block.now.items places.now.items) units.now.items }
    requires numbered { IsNumbered table.now.items (lines_laid block.now.items places.now.items) }
    requires listed { datas.now.items ≡ numbers_where holds_data (lines_laid block.now.items places.now.items) }
    ensures { result ≡ data_from from (lines_laid block.now.items places.now.items) }
{
    let first = rank(datas, u32::from(from.line));
    for i in first..datas.len() {
        let number = datas[i];
        if let Some(spot) = data_on(block, places, units, table, from, number) {
            return Some(spot);
        }
    }
    None
}
