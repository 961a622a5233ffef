// A line of a text, where it lies.
ghost use Rattle.std.specs.Prelude.{◌≡◌, ◌<◌, ◌≤◌, IfSome, get_or, length, option_map, slice_get, vec_len};
ghost use Rattle.std.specs.List.Sorted.{IsStrictlySortedBy};
ghost use Rattle.std.specs.Map.{keys_of};
ghost use Rattle.std.specs.Ordering.{nat_cmp};
ghost use Rattle.b2_atom.specs.Lines.{KeepsUnits, further_unit, units_of};
ghost use Rattle.b2_text.specs.Blocks.{AreSpansOf, IsLaid, line_placed, lines_laid, no_place, number_at};
ghost use Rattle.b2_text.specs.Numbered.{IsNumbered};
ghost use Rattle.b2_text.specs.Program.{line_at};

use crate::block::{LinePlace, atoms_at, units_at};
use crate::table::seek;
use b2_atom::{Cursor, LentAtoms, Span};

/// A line of a text, where it lies: its number and its atoms, with what is kept of its units.
#[derive(Clone, Copy)]
pub struct Line<'a> {
    pub number: u16,
    pub atoms: &'a [u8],
    units: &'a [Span],
}

impl<'a> Line<'a> {
    /// Its atoms with its units, lent.
    pub fn lend(&self) -> LentAtoms<'a>
        requires { KeepsUnits self.now.atoms.now self.now.units.now }
        ensures { result ≡ self.now.atoms.now }
    {
        LentAtoms::over(self.atoms, self.units)
    }

    /// How many units it has.
    pub fn units(&self) -> usize
        requires { KeepsUnits self.now.atoms.now self.now.units.now }
        ensures count { result ≡ length (units_of self.now.atoms.now) }
        ensures few { result ≤ 255 }
    {
        self.lend().units()
    }

    /// A cursor over the k-th unit, counted from 0, None exactly where there are at most k units.
    pub fn unit(&self, k: usize) -> Option<Cursor<'a>>
        requires { KeepsUnits self.now.atoms.now self.now.units.now }
        ensures { result ≡ option_map (λ u. u.bytes) (slice_get (units_of self.now.atoms.now) k) }
    {
        self.lend().unit(k)
    }

    /// The first unit after the k-th that follows a `:`, or the number of units where there is none.
    pub fn skip(&self, k: usize) -> usize
        requires { KeepsUnits self.now.atoms.now self.now.units.now }
        ensures { result ≡ further_unit k 0 (units_of self.now.atoms.now) }
    {
        self.lend().skip(k)
    }
}

/// The line that lies at a place of the index.
#[inline(always)]
pub fn line_placed<'a>(
    block: &'a Vec<u8>,
    places: &Vec<LinePlace>,
    units: &'a Vec<Span>,
    i: usize,
) -> Line<'a>
    requires laid { IsLaid block.now.items places.now.items }
    requires kept { AreSpansOf (lines_laid block.now.items places.now.items) units.now.items }
    requires there { i < vec_len places.now }
    ensures number { result.number ≡ number_at places.now.items i }
    ensures atoms { result.atoms.now ≡ (line_placed block.now.items (get_or places.now.items i no_place)).1 }
    ensures kept { KeepsUnits result.atoms.now result.units.now }
{
    let place = places[i];
    Line {
        number: place.number,
        atoms: atoms_at(block, place),
        units: units_at(units, place),
    }
}

/// The line of a number, None where there is none.
#[inline(always)]
pub fn line_of<'a>(
    block: &'a Vec<u8>,
    places: &Vec<LinePlace>,
    units: &'a Vec<Span>,
    table: &Vec<u16>,
    n: u16,
) -> Option<Line<'a>>
    requires laid { IsLaid block.now.items places.now.items }
    requires ordered { IsStrictlySortedBy nat_cmp (keys_of (lines_laid block.now.items places.now.items)) }
    requires kept { AreSpansOf (lines_laid block.now.items places.now.items) units.now.items }
    requires numbered { IsNumbered table.now.items (lines_laid block.now.items places.now.items) }
    ensures atoms { option_map (λ l. l.atoms.now) result ≡ line_at n (lines_laid block.now.items places.now.items) }
    ensures number { IfSome result (λ l. l.number ≡ n) }
    ensures kept { IfSome result (λ l. KeepsUnits l.atoms.now l.units.now) }
{
    let place = seek(table, n);
    if place == 0 {
        return None;
    }
    Some(line_placed(block, places, units, place - 1))
}
