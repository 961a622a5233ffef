// The lines of a block by their numbers.
ghost use Rattle.std.specs.Prelude.{All, ◌≡◌, ◌+◌, ◌<◌, ◌≤◌, ℕ, List, length, option_copied, take, drop, true, false, ◌≢◌, ◌++◌, ◌∷◌, suc, vec_len, vec_capacity, Some};
ghost use Rattle.std.specs.Ordering.{nat_cmp};
ghost use Rattle.std.specs.List.Sorted.{IsStrictlySortedBy};
ghost use Rattle.std.specs.Map.{keys_of};
ghost use Rattle.b2_atom.specs.Lines.{KeepsUnits};
ghost use Rattle.b2_text.specs.Blocks.{AreSpansOf, IsLaid, IsPlaceOf, heading as heading_of, lines_laid, number_at, units_in};
ghost use Rattle.b2_text.specs.Numbered.{IsNumbered};
ghost use Rattle.b2_text.specs.Program.{cost_at, first_number, line_at, number_after, size_of, with_line, without};

use crate::block::{LinePlace, atoms_at, cut_lines, find, put_line};
use crate::table::{forget_lines, number_lines, seek};
use b2_atom::Span;

/// The greatest number that a line may have.
pub const MOST_NUMBER: u16 = 9999;

/// What a line takes beside its atoms.
pub const LINE_COST: usize = 5;

/// The atoms of the line of a number, None where there is none.
fn atoms_of<'a>(block: &'a Vec<u8>, places: &Vec<LinePlace>, n: u16) -> Option<&'a [u8]>
    requires laid { IsLaid block.now.items places.now.items }
    requires ordered { IsStrictlySortedBy nat_cmp (keys_of (lines_laid block.now.items places.now.items)) }
    ensures { option_copied result ≡ line_at n (lines_laid block.now.items places.now.items) }
{
    let i = find(places, n);
    if i == places.len() {
        return None;
    }
    let place = places[i];
    if place.number != n {
        return None;
    }
    Some(atoms_at(block, place))
}

/// The number of the first line, None where there is none.
pub fn first_number(places: &Vec<LinePlace>) -> Option<u16>
    ensures { (block : List ℕ) → result ≡ first_number (lines_laid block places.now.items) }
{
    match places.first() {
        Some(place) => Some(place.number),
        None => None,
    }
}

/// The place in an index after all lines up to a number: one look, where the number has a line.
fn place_above(block: &Vec<u8>, places: &Vec<LinePlace>, table: &Vec<u16>, n: u16) -> usize
    requires ordered { IsStrictlySortedBy nat_cmp (keys_of (lines_laid block.now.items places.now.items)) }
    requires numbered { IsNumbered table.now.items (lines_laid block.now.items places.now.items) }
    requires small { n < 65535 }
    ensures { IsPlaceOf (n + 1) places.now.items result }
{
    let place = seek(table, n);
    if place > 0 {
        return place;
    }
    find(places, n + 1)
}

/// The least number of a line above this one, None where there is none.
pub fn number_above(
    block: &Vec<u8>,
    places: &Vec<LinePlace>,
    table: &Vec<u16>,
    n: u16,
) -> Option<u16>
    requires ordered { IsStrictlySortedBy nat_cmp (keys_of (lines_laid block.now.items places.now.items)) }
    requires numbered { IsNumbered table.now.items (lines_laid block.now.items places.now.items) }
    requires small { n < 65535 }
    ensures { result ≡ number_after (Some n) (lines_laid block.now.items places.now.items) }
{
    let i = place_above(block, places, table, n);
    if i == places.len() {
        return None;
    }
    Some(places[i].number)
}

/// The place in an index after all lines up to a number.
pub fn place_after(block: &Vec<u8>, places: &Vec<LinePlace>, n: u16) -> usize
    requires ordered { IsStrictlySortedBy nat_cmp (keys_of (lines_laid block.now.items places.now.items)) }
    requires numbers { All (λ n. n ≤ 9999) (keys_of (lines_laid block.now.items places.now.items)) }
    ensures { IsPlaceOf (n + 1) places.now.items result }
{
    if n >= MOST_NUMBER {
        return places.len();
    }
    find(places, n + 1)
}

/// Takes the lines out that stand from a number to another, with what is kept of their units.
pub fn take_range(
    block: &mut Vec<u8>,
    places: &mut Vec<LinePlace>,
    units: &mut Vec<Span>,
    table: &mut Vec<u16>,
    from: u16,
    to: u16,
)
    requires laid { IsLaid block.old.items places.old.items }
    requires ordered { IsStrictlySortedBy nat_cmp (keys_of (lines_laid block.old.items places.old.items)) }
    requires kept { AreSpansOf (lines_laid block.old.items places.old.items) units.old.items }
    requires numbers { All (λ n. n ≤ 9999) (keys_of (lines_laid block.old.items places.old.items)) }
    requires numbered { IsNumbered table.old.items (lines_laid block.old.items places.old.items) }
    requires order { from ≤ to }
    requires small { vec_len block.old ≤ 65535 }
    ensures laid { IsLaid block.new.items places.new.items }
    ensures lines { lines_laid block.new.items places.new.items ≡ without from to (lines_laid block.old.items places.old.items) }
    ensures ordered { IsStrictlySortedBy nat_cmp (keys_of (lines_laid block.new.items places.new.items)) }
    ensures kept { AreSpansOf (lines_laid block.new.items places.new.items) units.new.items }
    ensures numbered { IsNumbered table.new.items (lines_laid block.new.items places.new.items) }
    ensures capacity { vec_capacity block.new ≡ vec_capacity block.old }
    ensures index_capacity { vec_capacity places.new ≡ vec_capacity places.old }
    ensures units_capacity { vec_capacity units.new ≡ vec_capacity units.old }
{
    let i = find(places, from);
    let j = place_after(block, places, to);
    forget_lines(table, &places[i..j]);
    cut_lines(block, places, units, i, j);
    number_lines(table, places, i);
}

/// Whether the line of a number stands at a place of an index.
fn is_at(places: &Vec<LinePlace>, i: usize, n: u16) -> bool
    ensures there { result ≡ true → (i < length places.now.items) × (number_at places.now.items i ≡ n) }
    ensures other { result ≡ false → i < length places.now.items → number_at places.now.items i ≢ n }
{
    if i == places.len() {
        return false;
    }
    if i > places.len() {
        return false;
    }
    let place = places[i];
    place.number == n
}

/// Puts a line in place of another, with what is kept of its units. There is room for it.
fn replace_line(
    block: &mut Vec<u8>,
    places: &mut Vec<LinePlace>,
    units: &mut Vec<Span>,
    i: usize,
    n: u16,
    heading: &[u8],
    atoms: &[u8],
    spans: &[Span],
)
    requires laid { IsLaid block.old.items places.old.items }
    requires kept { AreSpansOf (lines_laid block.old.items places.old.items) units.old.items }
    requires there { i < vec_len places.old }
    requires heading { heading.now ≡ heading_of n atoms.now }
    requires spans { KeepsUnits atoms.now spans.now }
    requires short { length atoms.now ≤ 255 }
    requires before { vec_len block.old ≤ 65535 }
    requires small { size_of (take i (lines_laid block.old.items places.old.items) ++ (n, atoms.now) ∷ drop (suc i) (lines_laid block.old.items places.old.items)) ≤ 65535 }
    requires room { size_of (take i (lines_laid block.old.items places.old.items) ++ (n, atoms.now) ∷ drop (suc i) (lines_laid block.old.items places.old.items)) ≤ vec_capacity block.old }
    requires units_room { units_in (take i (lines_laid block.old.items places.old.items) ++ (n, atoms.now) ∷ drop (suc i) (lines_laid block.old.items places.old.items)) ≤ vec_capacity units.old }
    requires index_room { vec_len places.old ≤ vec_capacity places.old }
    ensures laid { IsLaid block.new.items places.new.items }
    ensures lines { lines_laid block.new.items places.new.items ≡ take i (lines_laid block.old.items places.old.items) ++ (n, atoms.now) ∷ drop (suc i) (lines_laid block.old.items places.old.items) }
    ensures kept { AreSpansOf (lines_laid block.new.items places.new.items) units.new.items }
    ensures capacity { vec_capacity block.old ≤ vec_capacity block.new }
    ensures index_capacity { vec_capacity places.old ≤ vec_capacity places.new }
    ensures units_capacity { vec_capacity units.old ≤ vec_capacity units.new }
{
    cut_lines(block, places, units, i, i + 1);
    put_line(block, places, units, i, n, heading, atoms, spans);
}

/// Puts a line in, where one of its number gives way, with what is kept of its units. There is room for it.
pub fn put_number(
    block: &mut Vec<u8>,
    places: &mut Vec<LinePlace>,
    units: &mut Vec<Span>,
    table: &mut Vec<u16>,
    n: u16,
    heading: &[u8],
    atoms: &[u8],
    spans: &[Span],
)
    requires laid { IsLaid block.old.items places.old.items }
    requires ordered { IsStrictlySortedBy nat_cmp (keys_of (lines_laid block.old.items places.old.items)) }
    requires kept { AreSpansOf (lines_laid block.old.items places.old.items) units.old.items }
    requires numbers { All (λ n. n ≤ 9999) (keys_of (lines_laid block.old.items places.old.items)) }
    requires within { n ≤ 9999 }
    requires numbered { IsNumbered table.old.items (lines_laid block.old.items places.old.items) }
    requires heading { heading.now ≡ heading_of n atoms.now }
    requires spans { KeepsUnits atoms.now spans.now }
    requires short { length atoms.now ≤ 255 }
    requires before { vec_len block.old ≤ 65535 }
    requires small { size_of (with_line n atoms.now (lines_laid block.old.items places.old.items)) ≤ 65535 }
    requires room { size_of (with_line n atoms.now (lines_laid block.old.items places.old.items)) ≤ vec_capacity block.old }
    requires units_room { units_in (with_line n atoms.now (lines_laid block.old.items places.old.items)) ≤ vec_capacity units.old }
    requires index_room { length (with_line n atoms.now (lines_laid block.old.items places.old.items)) ≤ vec_capacity places.old }
    ensures laid { IsLaid block.new.items places.new.items }
    ensures lines { lines_laid block.new.items places.new.items ≡ with_line n atoms.now (lines_laid block.old.items places.old.items) }
    ensures ordered { IsStrictlySortedBy nat_cmp (keys_of (lines_laid block.new.items places.new.items)) }
    ensures kept { AreSpansOf (lines_laid block.new.items places.new.items) units.new.items }
    ensures numbered { IsNumbered table.new.items (lines_laid block.new.items places.new.items) }
    ensures capacity { vec_capacity block.old ≤ vec_capacity block.new }
    ensures index_capacity { vec_capacity places.old ≤ vec_capacity places.new }
    ensures units_capacity { vec_capacity units.old ≤ vec_capacity units.new }
{
    let i = find(places, n);
    if is_at(places, i, n) {
        replace_line(block, places, units, i, n, heading, atoms, spans);
        return;
    }
    put_line(block, places, units, i, n, heading, atoms, spans);
    number_lines(table, places, i);
}

/// What the line of a number takes, 0 where there is none.
pub fn cost_of(block: &Vec<u8>, places: &Vec<LinePlace>, n: u16) -> usize
    requires laid { IsLaid block.now.items places.now.items }
    requires ordered { IsStrictlySortedBy nat_cmp (keys_of (lines_laid block.now.items places.now.items)) }
    ensures { result ≡ cost_at n (lines_laid block.now.items places.now.items) }
{
    match atoms_of(block, places, n) {
        Some(atoms) => atoms.len() + LINE_COST,
        None => 0,
    }
}
