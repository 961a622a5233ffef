// Lines as atoms, their units, and a cursor over the bytes of one.
ghost use Rattle.std.specs.Prelude.{◌≡◌, ◌≢◌, ◌≤◌, ◌<◌, length, drop, ◌+◌, ◌==◌, IfErr, IfOk, IfSome, MatchResult, Some, None, if◌then◌else◌, true, is_ok, slice_get};
ghost use Rattle.std.specs.Option.{option_map};
ghost use Rattle.b2_atom.specs.Grammar as spec;
ghost use Rattle.b2_atom.specs.Lines.{IsKnown, KeepsUnits, is_line, line_atoms, line_source, short_line, units_of, further_unit, IsReadBy, unit_row, unit_uses};

use crate::laws::what_is_read_is_a_line;
use crate::output::{Output, Source, Stop, Uses, bytes_of};
use crate::spans::{Span, further_unit, span_at, spans_of, walked_unit};
use crate::walk::{DEPTH, LEVELS, parse_line, part};
use crate::words::Origin;
use b2_base::NoMemory;
use std::alloc::Global;
use std::marker::Model;

/// At most 255 bytes that spell a line of the language. Contracts see it as the list of its bytes.
#[derive(Drop)]
pub struct Atoms {
    bytes: Vec<u8>,
    units: Vec<Span>,
}

impl Model for Atoms {
    ghost use Rattle.std.specs.Prelude.{ℕ, List};
    ghost use Rattle.b2_atom.specs.Lines.{KeepsUnits};

    ghost Value = { List ℕ };

    ghost view = { λ a. a.bytes.items };

    ghost invariant = { λ a. KeepsUnits a.bytes.items a.units.items };
}

/// The atoms of a line where they lie, with its units. Contracts see it as the list of its bytes.
#[derive(Drop)]
pub struct LentAtoms<'a> {
    bytes: &'a [u8],
    units: &'a [Span],
}

impl<'a> Model for LentAtoms<'a> {
    ghost use Rattle.std.specs.Prelude.{ℕ, List};
    ghost use Rattle.b2_atom.specs.Lines.{KeepsUnits};

    ghost Value = { List ℕ };

    ghost view = { λ a. a.bytes.now };

    ghost invariant = { λ a. KeepsUnits a.bytes.now a.units.now };
}

/// The bytes of a unit from a place on. Contracts see it as the list of them.
#[derive(Drop)]
pub struct Cursor<'a> {
    left: &'a [u8],
}

impl<'a> Model for Cursor<'a> {
    ghost use Rattle.std.specs.Prelude.{ℕ, List};

    ghost Value = { List ℕ };

    ghost view = { λ c. c.left.now };
}

/// A unit of a line: its bytes, the row of its statement, what it uses, and whether it is the last one.
#[derive(Drop)]
pub struct FoundUnit<'a> {
    pub cursor: Cursor<'a>,
    pub row: u16,
    pub uses: Uses,
    pub is_last: bool,
}

/// Whether bytes spell a line.
#[tactic(auto, unfolding(crate::specs::Lines::is_line))]
fn spells_line(bytes: &[u8]) -> bool
    ensures { result ≡ is_line bytes.now }
{
    if bytes.len() > 255 {
        return false;
    }
    let mut output = Output::Silent;
    match parse_line(&mut output, Origin::Atoms, bytes) {
        Ok(_) => true,
        Err(_) => false,
    }
}

/// Whether a row is read at a text of a unit, which may go on after it; a statement in the row reads nothing. It walks the
/// table: whoever has a unit finds its row with it.
pub fn reads_row(row: u16, text: &[u8]) -> bool
    ensures { result ≡ is_ok (spec.part Origin.Atoms 0 32 40 row text.now) }
{
    let mut output = Output::Silent;
    match part(&mut output, Origin::Atoms, 0, DEPTH, LEVELS, row, text) {
        Ok(_) => true,
        Err(_) => false,
    }
}

/// Reads a typed line without its number, and gives its atom bytes.
#[tactic(auto, using(crate::proofs::reading::Binds::held, crate::proofs::reading::Binds::held_none), unfolding(crate::specs::Lines::line_atoms))]
pub fn read_source(alloc: Global, origin: Origin, text: &[u8]) -> Result<Vec<u8>, Stop>
    ensures known { IfErr result IsKnown }
    ensures read { MatchResult result (λ bytes. line_atoms origin text.now ≡ Ok bytes.items) (λ e. e ≢ Stop.NoMemory → line_atoms origin text.now ≡ Err e) }
{
    let mut output = Output::Written(Vec::new(alloc));
    match parse_line(&mut output, origin, text) {
        Ok(_) => Ok(bytes_of(alloc, output)),
        Err(stop) => Err(stop),
    }
}

/// The canonical source of a text of atoms, or why it spells no line.
#[tactic(auto, using(crate::proofs::reading::Binds::shown, crate::proofs::reading::Binds::shown_none), unfolding(crate::specs::Lines::line_source))]
fn line_source(alloc: Global, line: &[u8]) -> Result<Vec<u8>, Stop>
    ensures { MatchResult result (λ bytes. line_source line.now ≡ Ok bytes.items) (λ e. e ≢ Stop.NoMemory → line_source line.now ≡ Err e) }
{
    let mut output = Output::Listed(Source {
        bytes: Vec::new(alloc),
        wordy: false,
        operand: false,
    });
    match parse_line(&mut output, Origin::Atoms, line) {
        Ok(_) => Ok(bytes_of(alloc, output)),
        Err(stop) => Err(stop),
    }
}

/// The canonical source of a line of atoms.
#[tactic(auto, using(crate::proofs::reading::Binds::line_has_source))]
pub fn source_of(alloc: Global, line: &[u8]) -> Result<Vec<u8>, NoMemory>
    requires line { is_line line.now ≡ true }
    ensures { IfOk result (λ bytes. line_source line.now ≡ Ok bytes.items) }
{
    match line_source(alloc, line) {
        Ok(bytes) => Ok(bytes),
        Err(Stop::NoMemory) => Err(NoMemory),
        Err(Stop::At(_code, _left)) => unreachable!(),
        Err(Stop::Deep) => unreachable!(),
    }
}

impl Atoms {
    /// The line that these bytes spell, None exactly where they spell none.
    pub fn of(alloc: Global, bytes: &[u8]) -> Result<Option<Atoms>, NoMemory>
        ensures { IfOk result (λ atoms. atoms ≡ (if is_line bytes.now then Some bytes.now else None)) }
    {
        if !spells_line(bytes) {
            return Ok(None);
        }
        let bytes = Vec::from_slice(alloc, bytes)?;
        let units = spans_of(alloc, &bytes)?;
        Ok(Some(Atoms { bytes, units }))
    }

    /// Reads a typed line without its number. A line of more than 255 atom bytes is None.
    pub fn read(alloc: Global, origin: Origin, text: &[u8]) -> Result<Option<Atoms>, Stop>
        ensures known { IfErr result IsKnown }
        ensures read { MatchResult result (λ atoms. short_line (line_atoms origin text.now) ≡ Ok atoms) (λ e. e ≢ Stop.NoMemory → line_atoms origin text.now ≡ Err e) }
    {
        let line = match read_source(alloc, origin, text) {
            Ok(line) => line,
            Err(stop) => return Err(stop),
        };
        if line.len() > 255 {
            return Ok(None);
        }
        what_is_read_is_a_line();
        let Ok(units) = spans_of(alloc, &line) else {
            return Err(Stop::NoMemory);
        };
        Ok(Some(Atoms { bytes: line, units }))
    }

    /// Its bytes.
    pub fn bytes(&self) -> &[u8]
        ensures value { result.now ≡ self.now }
        ensures line { is_line self.now ≡ true }
    {
        let bytes = &self.bytes;
        bytes.as_slice()
    }

    /// Its bytes and units, lent.
    pub fn lend(&self) -> LentAtoms<'_>
        ensures { result ≡ self.now }
    {
        LentAtoms {
            bytes: &self.bytes,
            units: &self.units,
        }
    }

    /// Where its units are, for those who keep the line elsewhere.
    pub fn spans(&self) -> &[Span]
        ensures { KeepsUnits self.now result.now }
    {
        let units = &self.units;
        units.as_slice()
    }

    /// A line of its own with the same bytes.
    pub fn try_clone(&self, alloc: Global) -> Result<Atoms, NoMemory>
        ensures { IfOk result (λ copy. copy ≡ self.now) }
    {
        let bytes = Vec::from_slice(alloc, &self.bytes)?;
        let units = Vec::from_slice(alloc, &self.units)?;
        Ok(Atoms { bytes, units })
    }

    /// Its canonical source.
    pub fn source(&self, alloc: Global) -> Result<Vec<u8>, NoMemory>
        ensures { IfOk result (λ bytes. line_source self.now ≡ Ok bytes.items) }
    {
        source_of(alloc, &self.bytes)
    }

    /// How many units it has: statements, where one that follows THEN, ELSE or ERROR is a unit of its own.
    pub fn units(&self) -> usize
        ensures count { result ≡ length (units_of self.now) }
        ensures few { result ≤ 255 }
    {
        self.lend().units()
    }

    /// A cursor over the k-th unit, counted from 0, None exactly where there are at most k units.
    pub fn unit(&self, k: usize) -> Option<Cursor<'_>>
        ensures { result ≡ option_map (λ u. u.bytes) (slice_get (units_of self.now) k) }
    {
        self.lend().unit(k)
    }

    /// The k-th unit, with its row, what it uses, and whether it is the last.
    pub fn find_unit(&self, k: usize) -> Option<FoundUnit<'_>>
        ensures bytes { option_map (λ u. u.cursor) result ≡ option_map (λ u. u.bytes) (slice_get (units_of self.now) k) }
        ensures row { option_map (λ u. u.row) result ≡ option_map unit_row (slice_get (units_of self.now) k) }
        ensures uses { option_map (λ u. u.uses) result ≡ option_map unit_uses (slice_get (units_of self.now) k) }
        ensures read { IfSome result (λ u. IsReadBy u.row u.cursor) }
        ensures short { IfSome result (λ u. length u.cursor ≤ 255) }
        ensures last { IfSome result (λ u. u.is_last ≡ (k + 1 == length (units_of self.now))) }
        ensures few { IfSome result (λ u. k < 255) }
    {
        self.lend().find_unit(k)
    }

    /// The first unit after the k-th that follows a `:`, or the number of units where there is none.
    pub fn skip(&self, k: usize) -> usize
        ensures { result ≡ further_unit k 0 (units_of self.now) }
    {
        self.lend().skip(k)
    }
}

impl<'a> LentAtoms<'a> {
    /// A line with its units, whoever keeps them.
    pub fn over(bytes: &'a [u8], units: &'a [Span]) -> LentAtoms<'a>
        requires { KeepsUnits bytes.now units.now }
        ensures { result ≡ bytes.now }
    {
        LentAtoms { bytes, units }
    }

    /// Its bytes.
    pub fn bytes(&self) -> &'a [u8]
        ensures value { result.now ≡ self.now }
        ensures line { is_line self.now ≡ true }
    {
        self.bytes
    }

    /// How many units it has: statements, where one that follows THEN, ELSE or ERROR is a unit of its own.
    pub fn units(&self) -> usize
        ensures count { result ≡ length (units_of self.now) }
        ensures few { result ≤ 255 }
    {
        self.units.len()
    }

    /// A cursor over the k-th unit, counted from 0, None exactly where there are at most k units.
    pub fn unit(&self, k: usize) -> Option<Cursor<'a>>
        ensures { result ≡ option_map (λ u. u.bytes) (slice_get (units_of self.now) k) }
    {
        match span_at(self.units, k) {
            Some(span) => Some(Cursor::over(span.unit_bytes(self.bytes))),
            None => None,
        }
    }

    /// The k-th unit, with its row, what it uses, and whether it is the last.
    pub fn find_unit(&self, k: usize) -> Option<FoundUnit<'a>>
        ensures bytes { option_map (λ u. u.cursor) result ≡ option_map (λ u. u.bytes) (slice_get (units_of self.now) k) }
        ensures row { option_map (λ u. u.row) result ≡ option_map unit_row (slice_get (units_of self.now) k) }
        ensures uses { option_map (λ u. u.uses) result ≡ option_map unit_uses (slice_get (units_of self.now) k) }
        ensures read { IfSome result (λ u. IsReadBy u.row u.cursor) }
        ensures short { IfSome result (λ u. length u.cursor ≤ 255) }
        ensures last { IfSome result (λ u. u.is_last ≡ (k + 1 == length (units_of self.now))) }
        ensures few { IfSome result (λ u. k < 255) }
    {
        let count = self.units();
        match span_at(self.units, k) {
            Some(span) => Some(FoundUnit {
                cursor: Cursor::over(span.unit_bytes(self.bytes)),
                row: span.unit_row(),
                uses: span.unit_uses(),
                is_last: k + 1 == count,
            }),
            None => None,
        }
    }

    /// The first unit after the k-th that follows a `:`, or the number of units where there is none.
    pub fn skip(&self, k: usize) -> usize
        ensures { result ≡ further_unit k 0 (units_of self.now) }
    {
        further_unit(self.units, k)
    }
}

impl<'a> Cursor<'a> {
    /// A cursor over bytes.
    pub fn over(bytes: &'a [u8]) -> Cursor<'a>
        ensures { result ≡ bytes.now }
    {
        Cursor { left: bytes }
    }

    /// A cursor over the k-th unit of a line of atoms, counted from 0, None exactly where it has at most k units. It walks the
    /// line: `Atoms::unit` looks the unit up.
    pub fn of_line(line: &'a [u8], k: usize) -> Option<Cursor<'a>>
        ensures { result ≡ option_map (λ u. u.bytes) (slice_get (units_of line.now) k) }
    {
        match walked_unit(line, k) {
            Some(bytes) => Some(Cursor::over(bytes)),
            None => None,
        }
    }

    /// The next byte, None exactly at the unit's end.
    pub fn peek(&self) -> Option<u8>
        ensures { result ≡ slice_get self.now 0 }
    {
        self.left.first().copied()
    }

    /// Takes the next byte, None exactly at the unit's end.
    pub fn take(&mut self) -> Option<u8>
        ensures byte { result ≡ slice_get self.old 0 }
        ensures rest { self.new ≡ drop 1 self.old }
    {
        match self.left {
            [byte, rest @ ..] => {
                self.left = rest;
                Some(*byte)
            }
            _ => None,
        }
    }

    /// The bytes up to the unit's end.
    pub fn rest(&self) -> &'a [u8]
        ensures { result.now ≡ self.now }
    {
        self.left
    }
}
