// A program text: its lines by number.
ghost use Rattle.std.specs.Prelude.{All, true, ◌||◌, ◌≡◌, ◌<◌, ◌≤◌, [], filter, option_map, OnOk, OnErr, IfOk, IfErr, IfSome};
ghost use Rattle.std.specs.List.Sorted.{IsStrictlySortedBy};
ghost use Rattle.std.specs.Map.{keys_of};
ghost use Rattle.std.specs.Ordering.{nat_cmp};
ghost use Rattle.b2_atom.specs.Lines.{KeepsUnits};
ghost use Rattle.b2_base.specs.declared.codes.TheConstants.{A01_TEXT_AREA};
ghost use Rattle.b2_base.specs.Lexical.{is_digit, is_letter};
ghost use Rattle.b2_text.specs.Program.{is_within, size_of, line_at, with_line, without, number_after};
ghost use Rattle.b2_text.specs.Spots.{is_mark, is_function, is_data, unit_at, first_opening, data_from};

use crate::block::LinePlace;
use crate::line::{Line, line_of};
use crate::members::{set_member, take_members};
use crate::numbers::{
    LINE_COST, MOST_NUMBER, cost_of, first_number, number_above, put_number, take_range,
};
use crate::spots::{Spot, first_data, first_function, first_mark, heading, holds_data, is_opening};
use crate::table::{forget_all, no_places};
use crate::within::{LinesWithin, lines_within};
use b2_atom::{Atoms, Span};
use b2_base::codes::A01_TEXT_AREA;
use b2_base::{Code, NoMemory};
use std::alloc::Global;
use std::marker::Model;

/// The greatest area that a text may have.
const MOST_AREA: usize = 65_535;

/// What the shortest line takes: a byte of atoms and what stands before it.
const LEAST_COST: usize = LINE_COST + 1;

/// What the shortest line takes that begins with DEFFN or DEFFN' or in which a DATA stands: two bytes of atoms.
const LEAST_LISTED: usize = LINE_COST + 2;

/// A program text. Contracts see it as its area and its lines, ascending. The lines lie in one block of the area's bytes,
/// beside an index of them, a table of their places in it by number, the places of their units, and the numbers of the lines
/// that begin with DEFFN or DEFFN' and of those in which a DATA stands; all memory is taken when the text is made.
#[derive(Drop)]
pub struct Text {
    area: usize,
    block: Vec<u8>,
    places: Vec<LinePlace>,
    table: Vec<u16>,
    units: Vec<Span>,
    openers: Vec<u16>,
    datas: Vec<u16>,
}

impl Model for Text {
    ghost use Rattle.std.specs.Prelude.{vec_capacity};
    ghost use Rattle.b2_text.specs.Blocks.{IsKept, IsRoomy, lines_laid};
    ghost use Rattle.b2_text.specs.Members.{IsListed};
    ghost use Rattle.b2_text.specs.Numbered.{IsNumbered};
    ghost use Rattle.b2_text.specs.Program.{TextState};

    ghost Value = { TextState };

    ghost view = { λ t. record { area = t.area; lines = lines_laid t.block.items t.places.items } };

    ghost invariant = { λ t. IsKept t.area t.block.items t.places.items t.units.items × IsRoomy t.area (vec_capacity t.block) (vec_capacity t.places) (vec_capacity t.units) × IsListed t.area (lines_laid t.block.items t.places.items) t.openers.items t.datas.items (vec_capacity t.openers) (vec_capacity t.datas) × IsNumbered t.table.items (lines_laid t.block.items t.places.items) };
}

impl Text {
    /// An empty text with an area of `area` bytes. It takes all its memory now, and answers want of it where the area is above
    /// 65,535 too.
    pub fn new(alloc: Global, area: usize) -> Result<Text, NoMemory>
        ensures { IfOk result (λ t. t ≡ record { area = area; lines = [] }) }
    {
        if area > MOST_AREA {
            return Err(NoMemory);
        }
        let block = Vec::with_capacity(alloc, area)?;
        let places = Vec::with_capacity(alloc, area / LEAST_COST)?;
        let table = no_places(alloc)?;
        // No line has more units than two thirds of the bytes that it takes.
        let units = Vec::with_capacity(alloc, area * 2 / 3)?;
        let openers = Vec::with_capacity(alloc, area / LEAST_LISTED)?;
        let datas = Vec::with_capacity(alloc, area / LEAST_LISTED)?;
        Ok(Text {
            area,
            block,
            places,
            table,
            units,
            openers,
            datas,
        })
    }

    /// The bytes that its lines may take.
    pub fn area(&self) -> usize
        ensures { result ≡ self.now.area }
    {
        self.area
    }

    /// The bytes that its lines take, at most its area.
    pub fn size(&self) -> usize
        ensures size { result ≡ size_of self.now.lines }
        ensures fits { result ≤ self.now.area }
    {
        self.block.len()
    }

    /// The line of a number, None where there is none.
    #[inline(always)]
    pub fn line(&self, n: u16) -> Option<Line<'_>>
        ensures atoms { option_map (λ l. l.atoms.now) result ≡ line_at n self.now.lines }
        ensures number { IfSome result (λ l. l.number ≡ n) }
        ensures kept { IfSome result (λ l. KeepsUnits l.atoms.now l.units.now) }
    {
        line_of(&self.block, &self.places, &self.units, &self.table, n)
    }

    /// The least number of a line above this one, for None the least of all; None where there is none.
    pub fn next_after(&self, n: Option<u16>) -> Option<u16>
        ensures least { result ≡ number_after n self.now.lines }
        ensures ascending { IsStrictlySortedBy nat_cmp (keys_of self.now.lines) }
        ensures small { All (λ n. n ≤ 9999) (keys_of self.now.lines) }
    {
        match n {
            Some(n) => {
                if n >= MOST_NUMBER {
                    return None;
                }
                number_above(&self.block, &self.places, &self.table, n)
            }
            None => first_number(&self.places),
        }
    }

    /// The lines from a number to another, ascending.
    pub fn lines(&self, from: u16, to: u16) -> LinesWithin<'_>
        requires { from ≤ to }
        ensures { result ≡ filter (λ l. is_within from to l.0) self.now.lines }
    {
        lines_within(&self.block, &self.places, &self.units, from, to)
    }

    /// The DEFFN' of a number in the lowest line that has one, None where no line has.
    pub fn marked(&self, n: u8) -> Option<Spot>
        ensures lowest { result ≡ first_opening (is_mark n) self.now.lines }
        ensures there { IfSome result (λ spot. is_mark n (unit_at spot self.now.lines) ≡ true) }
    {
        first_mark(
            &self.block,
            &self.places,
            &self.units,
            &self.table,
            &self.openers,
            n,
        )
    }

    /// The DEFFN of a name, a letter or a digit, in the lowest line that has one, None where no line has.
    pub fn function(&self, name: u8) -> Option<Spot>
        requires { (is_letter name || is_digit name) ≡ true }
        ensures lowest { result ≡ first_opening (is_function name) self.now.lines }
        ensures there { IfSome result (λ spot. is_function name (unit_at spot self.now.lines) ≡ true) }
    {
        first_function(
            &self.block,
            &self.places,
            &self.units,
            &self.table,
            &self.openers,
            name,
        )
    }

    /// The first DATA at or after a spot, None where there is none.
    pub fn data_at(&self, from: Spot) -> Option<Spot>
        ensures first { result ≡ data_from from self.now.lines }
        ensures there { IfSome result (λ spot. is_data (unit_at spot self.now.lines) ≡ true) }
    {
        first_data(
            &self.block,
            &self.places,
            &self.units,
            &self.table,
            &self.datas,
            from,
        )
    }

    /// Puts a line in its place, where one of its number gives way. A01 comes exactly where the size would pass the area. After
    /// a fault the text is as before. It takes no memory.
    pub fn put(&mut self, n: u16, a: &Atoms) -> Result<(), Code>
        requires { n ≤ 9999 }
        ensures ok { OnOk result (self.new ≡ record self.old { lines = with_line n a.now self.old.lines }) }
        ensures fits { OnOk result (size_of (with_line n a.now self.old.lines) ≤ self.old.area) }
        ensures full { IfErr result (λ code. (code ≡ A01_TEXT_AREA) × (self.old.area < size_of (with_line n a.now self.old.lines))) }
        ensures err { OnErr result (self.new ≡ self.old) }
    {
        let line = a.lend();
        let cost = line.bytes().len() + LINE_COST;
        let rest = self.block.len() - cost_of(&self.block, &self.places, n);
        if cost > self.area - rest {
            return Err(Code::known(A01_TEXT_AREA));
        }
        put_number(
            &mut self.block,
            &mut self.places,
            &mut self.units,
            &mut self.table,
            n,
            &heading(n, &line),
            line.bytes(),
            a.spans(),
        );
        set_member(&mut self.openers, n, is_opening(&line));
        set_member(&mut self.datas, n, holds_data(&line));
        Ok(())
    }

    /// Deletes all lines from a number to another.
    pub fn delete(&mut self, from: u16, to: u16)
        ensures { self.new ≡ record self.old { lines = without from to self.old.lines } }
    {
        if from > to {
            return;
        }
        take_range(
            &mut self.block,
            &mut self.places,
            &mut self.units,
            &mut self.table,
            from,
            to,
        );
        take_members(&mut self.openers, from, to);
        take_members(&mut self.datas, from, to);
    }

    /// Deletes all lines.
    pub fn clear(&mut self)
        ensures { self.new ≡ record self.old { lines = [] } }
    {
        self.block.clear();
        self.places.clear();
        forget_all(&mut self.table);
        self.units.clear();
        self.openers.clear();
        self.datas.clear();
    }
}
