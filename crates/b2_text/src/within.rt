// The lines of a text from a number to another, one after another.
ghost use Rattle.std.specs.Prelude.{All, ◌≡◌, ◌<◌, ◌≤◌, IfSome, drop, filter, option_map, slice_get};
ghost use Rattle.std.specs.List.Sorted.{IsStrictlySortedBy};
ghost use Rattle.std.specs.Map.{keys_of};
ghost use Rattle.std.specs.Ordering.{nat_cmp};
ghost use Rattle.b2_atom.specs.Lines.{KeepsUnits};
ghost use Rattle.b2_text.specs.Blocks.{AreSpansOf, IsLaid, lines_laid};
ghost use Rattle.b2_text.specs.Program.{is_within};

use crate::block::{LinePlace, find};
use crate::line::{Line, line_placed};
use crate::numbers::place_after;
use b2_atom::Span;
use std::marker::Model;

/// Lines of a text that are still to come, ascending. Contracts see it as the list of their numbers and atoms.
#[derive(Drop)]
pub struct LinesWithin<'a> {
    block: &'a Vec<u8>,
    places: &'a Vec<LinePlace>,
    units: &'a Vec<Span>,
    at: usize,
    end: usize,
}

impl<'a> Model for LinesWithin<'a> {
    ghost use Rattle.std.specs.Prelude.{◌-◌, ◌≤◌, drop, take, vec_len};
    ghost use Rattle.b2_text.specs.Blocks.{AreSpansOf, IsLaid, lines_laid};
    ghost use Rattle.b2_text.specs.Program.{Lines};

    ghost Value = { Lines };

    ghost view = { λ w. take (w.end - w.at) (drop w.at (lines_laid w.block.now.items w.places.now.items)) };

    ghost invariant = { λ w. IsLaid w.block.now.items w.places.now.items × AreSpansOf (lines_laid w.block.now.items w.places.now.items) w.units.now.items × (w.end ≤ vec_len w.places.now) };
}

impl<'a> LinesWithin<'a> {
    /// The next line, None where there is none any more.
    pub fn next(&mut self) -> Option<Line<'a>>
        ensures line { option_map (λ l. (l.number, l.atoms.now)) result ≡ slice_get self.old 0 }
        ensures rest { self.new ≡ drop 1 self.old }
        ensures kept { IfSome result (λ l. KeepsUnits l.atoms.now l.units.now) }
    {
        if self.at < self.end {
            let line = line_placed(self.block, self.places, self.units, self.at);
            self.at += 1;
            return Some(line);
        }
        None
    }
}

/// The lines from a number to another.
pub fn lines_within<'a>(
    block: &'a Vec<u8>,
    places: &'a Vec<LinePlace>,
    units: &'a Vec<Span>,
    from: u16,
    to: u16,
) -> LinesWithin<'a>
    requires laid { IsLaid block.now.items places.now.items }
    requires ordered { IsStrictlySortedBy nat_cmp (keys_of (lines_laid block.now.items places.now.items)) }
    requires kept { AreSpansOf (lines_laid block.now.items places.now.items) units.now.items }
    requires numbers { All (λ n. n ≤ 9999) (keys_of (lines_laid block.now.items places.now.items)) }
    requires order { from ≤ to }
    ensures { result ≡ filter (λ l. is_within from to l.0) (lines_laid block.now.items places.now.items) }
{
    let at = find(places, from);
    let end = place_after(block, places, to);
    LinesWithin {
        block,
        places,
        units,
        at,
        end,
    }
}
