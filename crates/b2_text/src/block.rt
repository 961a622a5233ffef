// Lines as they lie in a block of bytes, one after another in order of their numbers, with an index of them.
ghost use Rattle.std.specs.Prelude.{◌≡◌, ◌+◌, ◌<◌, ◌≤◌, ◌++◌, ◌∷◌, length, map, take, drop, vec_len, vec_capacity};
ghost use Rattle.std.specs.List.{remove_range, splice};
ghost use Rattle.b2_atom.specs.Lines.{units_of};
ghost use Rattle.b2_text.specs.Blocks.{IsAscending, IsLaid, IsPlaceOf, heading as heading_of, line_placed, lines_laid, lowered, raised, units_in};
ghost use Rattle.b2_text.specs.Program.{size_of};

use crate::packed::{put_in, take_out};

/// Where a line lies: its number, the place of its first byte in the block and of its first unit among all units, and how many
/// bytes its atoms and how many units it has.
#[derive(Clone, Copy)]
pub struct LinePlace {
    pub number: u16,
    pub start: u16,
    pub first: u16,
    pub width: u8,
    pub units: u8,
}

impl LinePlace {
    /// The place some bytes and some units further on.
    fn raised(&self, by: u16, more: u16) -> LinePlace
        ensures { result ≡ raised by more self.now }
    {
        LinePlace {
            number: self.number,
            start: self.start.saturating_add(by),
            first: self.first.saturating_add(more),
            width: self.width,
            units: self.units,
        }
    }

    /// The place some bytes and some units before.
    fn lowered(&self, by: u16, less: u16) -> LinePlace
        ensures { result ≡ lowered by less self.now }
    {
        LinePlace {
            number: self.number,
            start: self.start.saturating_sub(by),
            first: self.first.saturating_sub(less),
            width: self.width,
            units: self.units,
        }
    }
}

/// The place of a number in an index, where it is or would stand.
#[tactic(auto, using(crate::proofs::Finding::lower, crate::proofs::Finding::upper, crate::proofs::Finding::found, crate::proofs::Finding::place_read))]
pub fn find(places: &Vec<LinePlace>, n: u16) -> usize
    requires { IsAscending places.now.items }
    ensures { IsPlaceOf n places.now.items result }
{
    let mut low = 0;
    let mut high = places.len();
    while low < high {
        let middle = low + (high - low) / 2;
        if places[middle].number < n {
            low = middle + 1;
        } else {
            high = middle;
        }
    }
    low
}

/// The atoms of the line that lies at a place.
pub fn atoms_at(block: &Vec<u8>, place: LinePlace) -> &[u8]
    requires { place.start + 5 + place.width ≤ vec_len block.now }
    ensures { result.now ≡ (line_placed block.now.items place).1 }
{
    let start = usize::from(place.start) + 5;
    &block[start..][..usize::from(place.width)]
}

/// What is kept of the units of the line that lies at a place.
pub fn units_at<U: Copy>(units: &Vec<U>, place: LinePlace) -> &[U]
    requires { place.first + place.units ≤ vec_len units.now }
    ensures { result.now ≡ take place.units (drop place.first units.now.items) }
{
    let first = usize::from(place.first);
    let count = usize::from(place.units);
    &units[first..][..count]
}

/// Moves all lines of an index further on.
fn raise_all(places: &mut [LinePlace], by: u16, more: u16)
    ensures { places.new ≡ map (raised by more) places.old }
{
    for i in 0..places.len() {
        places[i] = places[i].raised(by, more);
    }
}

/// Moves all lines of an index to the front.
fn lower_all(places: &mut [LinePlace], by: u16, less: u16)
    ensures { places.new ≡ map (lowered by less) places.old }
{
    for i in 0..places.len() {
        places[i] = places[i].lowered(by, less);
    }
}

/// Moves the lines further on that stand from a place of the index on.
fn raise_from(places: &mut [LinePlace], from: usize, by: u16, more: u16)
    requires { from ≤ length places.old }
    ensures { places.new ≡ take from places.old ++ map (raised by more) (drop from places.old) }
{
    raise_all(&mut places[from..], by, more);
}

/// Moves the lines to the front that stand from a place of the index on.
fn lower_from(places: &mut [LinePlace], from: usize, by: u16, less: u16)
    requires { from ≤ length places.old }
    ensures { places.new ≡ take from places.old ++ map (lowered by less) (drop from places.old) }
{
    lower_all(&mut places[from..], by, less);
}

/// Where the line at a place of the index begins in the block, and where its units do among all; past the last one, where all
/// end.
fn begin_of<U: Copy>(
    block: &Vec<u8>,
    places: &Vec<LinePlace>,
    units: &Vec<U>,
    i: usize,
) -> (usize, usize)
    requires laid { IsLaid block.now.items places.now.items }
    requires units { vec_len units.now ≡ units_in (lines_laid block.now.items places.now.items) }
    ensures start { result.0 ≡ size_of (take i (lines_laid block.now.items places.now.items)) }
    ensures first { result.1 ≡ units_in (take i (lines_laid block.now.items places.now.items)) }
{
    if i < places.len() {
        let place = places[i];
        (usize::from(place.start), usize::from(place.first))
    } else {
        (block.len(), units.len())
    }
}

/// Puts a place into an index, before which all that stand from there on move further on.
fn put_place(places: &mut Vec<LinePlace>, i: usize, place: LinePlace, by: u16, more: u16)
    requires within { i ≤ vec_len places.old }
    requires room { vec_len places.old < vec_capacity places.old }
    ensures items { places.new.items ≡ take i places.old.items ++ place ∷ map (raised by more) (drop i places.old.items) }
    ensures capacity { vec_capacity places.old ≤ vec_capacity places.new }
{
    raise_from(places, i, by, more);
    put_in(places, i, &[place]);
}

/// Puts bytes in before a line, after what stands before its atoms.
fn put_line_bytes(block: &mut Vec<u8>, start: usize, heading: &[u8], atoms: &[u8])
    requires place { start ≤ vec_len block.old }
    requires room { vec_len block.old + (length heading.now + length atoms.now) ≤ vec_capacity block.old }
    ensures items { block.new.items ≡ splice (splice block.old.items start start atoms.now) start start heading.now }
    ensures capacity { vec_capacity block.old ≤ vec_capacity block.new }
{
    put_in(block, start, atoms);
    put_in(block, start, heading);
}

/// Puts a line in at a place of the index, with what is kept of its units. There is room for it.
pub fn put_line<U: Copy>(
    block: &mut Vec<u8>,
    places: &mut Vec<LinePlace>,
    units: &mut Vec<U>,
    i: usize,
    n: u16,
    heading: &[u8],
    atoms: &[u8],
    spans: &[U],
)
    requires laid { IsLaid block.old.items places.old.items }
    requires units { vec_len units.old ≡ units_in (lines_laid block.old.items places.old.items) }
    requires within { i ≤ vec_len places.old }
    requires heading { heading.now ≡ heading_of n atoms.now }
    requires spans { length spans.now ≡ length (units_of atoms.now) }
    requires short { length atoms.now ≤ 255 }
    requires small { vec_len block.old + (length atoms.now + 5) ≤ 65535 }
    requires room { vec_len block.old + (length atoms.now + 5) ≤ vec_capacity block.old }
    requires index_room { vec_len places.old < vec_capacity places.old }
    requires units_room { vec_len units.old + length spans.now ≤ vec_capacity units.old }
    ensures laid { IsLaid block.new.items places.new.items }
    ensures lines { lines_laid block.new.items places.new.items ≡ take i (lines_laid block.old.items places.old.items) ++ (n, atoms.now) ∷ drop i (lines_laid block.old.items places.old.items) }
    ensures units { units.new.items ≡ splice units.old.items (units_in (take i (lines_laid block.old.items places.old.items))) (units_in (take i (lines_laid block.old.items places.old.items))) spans.now }
    ensures counted { vec_len units.new ≡ units_in (lines_laid block.new.items places.new.items) }
    ensures capacity { vec_capacity block.old ≤ vec_capacity block.new }
    ensures index_capacity { vec_capacity places.old ≤ vec_capacity places.new }
    ensures units_capacity { vec_capacity units.old ≤ vec_capacity units.new }
{
    let (start, first) = begin_of(block, places, units, i);
    let place = LinePlace {
        number: n,
        start: start as u16,
        first: first as u16,
        width: atoms.len() as u8,
        units: spans.len() as u8,
    };
    put_line_bytes(block, start, heading, atoms);
    put_place(places, i, place, atoms.len() as u16 + 5, spans.len() as u16);
    put_in(units, first, spans);
}

/// Takes places out of an index, and moves all that stand after them to the front.
fn cut_places(places: &mut Vec<LinePlace>, i: usize, j: usize, by: u16, less: u16)
    requires order { i ≤ j }
    requires within { j ≤ vec_len places.old }
    ensures items { places.new.items ≡ take i places.old.items ++ map (lowered by less) (drop j places.old.items) }
    ensures capacity { vec_capacity places.new ≡ vec_capacity places.old }
{
    take_out(places, i, j);
    lower_from(places, i, by, less);
}

/// Takes the lines out that stand from a place of the index up to another, with what is kept of their units.
pub fn cut_lines<U: Copy>(
    block: &mut Vec<u8>,
    places: &mut Vec<LinePlace>,
    units: &mut Vec<U>,
    i: usize,
    j: usize,
)
    requires laid { IsLaid block.old.items places.old.items }
    requires units { vec_len units.old ≡ units_in (lines_laid block.old.items places.old.items) }
    requires order { i ≤ j }
    requires within { j ≤ vec_len places.old }
    requires small { vec_len block.old ≤ 65535 }
    ensures laid { IsLaid block.new.items places.new.items }
    ensures lines { lines_laid block.new.items places.new.items ≡ remove_range (lines_laid block.old.items places.old.items) i j }
    ensures units { units.new.items ≡ remove_range units.old.items (units_in (take i (lines_laid block.old.items places.old.items))) (units_in (take j (lines_laid block.old.items places.old.items))) }
    ensures counted { vec_len units.new ≡ units_in (lines_laid block.new.items places.new.items) }
    ensures capacity { vec_capacity block.new ≡ vec_capacity block.old }
    ensures index_capacity { vec_capacity places.new ≡ vec_capacity places.old }
    ensures units_capacity { vec_capacity units.new ≡ vec_capacity units.old }
{
    let (from, first) = begin_of(block, places, units, i);
    let (to, end) = begin_of(block, places, units, j);
    take_out(block, from, to);
    cut_places(places, i, j, (to - from) as u16, (end - first) as u16);
    take_out(units, first, end);
}
