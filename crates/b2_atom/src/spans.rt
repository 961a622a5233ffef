// The units of a line: found once, when the line is made, and looked up from then on.
ghost use Rattle.std.specs.Prelude.{◌≡◌, ◌≤◌, ◌/◌, ◌%◌, ℕ, List, IfOk, if◌then◌else◌, length, map, option_copied, slice_get};
ghost use Rattle.std.specs.List.{All};
ghost use Rattle.std.specs.Option.{option_map};
ghost use Rattle.b2_atom.specs.Lines.{IsEndOf, KeepsRow, KeepsUses, after_unit, further_unit, is_further, next_position, next_text, position_number, position_of, row_of, span_position, span_row, span_uses, spanned, leading_unit, unit_row, unit_uses, units_of, uses_of_word};

use crate::forms::Position;
use crate::output::{Output, Uses, noted};
use crate::rows;
use crate::starts::statement_row;
use crate::walk::statement;
use crate::words::Origin;
use b2_base::NoMemory;
use b2_base::lexical::{first, first_bytes, rest_after};
use std::alloc::Global;

/// A unit of a line: which of the line's bytes are its own, and in one word the row of its statement, where it stands, and what
/// it uses. A span is as small as that because a text keeps one for each unit.
#[derive(Clone, Copy)]
pub struct Span {
    from: u8,
    width: u8,
    word: u16,
}

/// The number of a place in a line.
fn position_number(position: Position) -> u16
    ensures { result ≡ position_number position }
{
    match position {
        Position::First => 0,
        Position::Further => 1,
        Position::Following => 2,
    }
}

/// One where something is so, and else zero.
fn flag(is: bool) -> u16
    ensures { result ≡ (if is then 1 else 0) }
{
    if is { 1 } else { 0 }
}

/// The row of a statement, where it stands, and what it uses, in one word.
fn word_of(position: Position, row: u16, uses: Uses) -> u16
    requires { row ≤ 4095 }
    ensures row { row_of result ≡ row }
    ensures position { position_of result ≡ position }
    ensures uses { uses_of_word result ≡ uses }
{
    row * 16 + position_number(position) * 4 + flag(uses.globals) * 2 + flag(uses.functions)
}

impl Span {
    /// The unit's bytes.
    pub fn unit_bytes<'a>(&self, line: &'a [u8]) -> &'a [u8]
        ensures { result.now ≡ (spanned line.now self.now).bytes }
    {
        first_bytes(
            rest_after(line, usize::from(self.from)),
            usize::from(self.width),
        )
    }

    /// The row of the unit's statement.
    pub fn unit_row(&self) -> u16
        ensures { result ≡ span_row self.now }
    {
        self.word / 16
    }

    /// What the unit uses.
    pub fn unit_uses(&self) -> Uses
        ensures { result ≡ span_uses self.now }
    {
        Uses {
            globals: self.word / 2 % 2 == 1,
            functions: self.word % 2 == 1,
        }
    }

    /// Whether the unit stands after a `:`.
    fn follows_colon(&self) -> bool
        ensures { result ≡ is_further (span_position self.now) }
    {
        self.word / 4 % 4 == 1
    }
}

/// The k-th of some spans, None exactly where there are at most k.
pub fn span_at(units: &[Span], k: usize) -> Option<Span>
    ensures { result ≡ slice_get units.now k }
{
    units.get(k).copied()
}

/// What stands after the first unit of a text.
#[tactic(auto, unfolding(crate::specs::Lines::after_unit))]
fn after_unit(position: Position, text: &[u8]) -> &[u8]
    ensures { result.now ≡ after_unit position text.now }
{
    let mut output = Output::Silent;
    match statement(&mut output, Origin::Atoms, 1, position, text) {
        Ok(rest) => rest,
        Err(_) => &[],
    }
}

/// The row of the statement that is a unit's bytes.
#[tactic(auto, unfolding(crate::specs::Lines::unit_row))]
fn unit_row(position: Position, bytes: &[u8]) -> u16
    ensures row { result ≡ unit_row (record { position = position; bytes = bytes.now }) }
    ensures small { result ≤ 4095 }
{
    match statement_row(Origin::Atoms, position, bytes) {
        Ok((row, _)) => row,
        Err(_) => rows::LINE,
    }
}

/// What the statement uses that is a unit's bytes.
#[tactic(auto, using(crate::proofs::reading::Binds::uses_noted, crate::proofs::reading::Binds::none_noted), unfolding(crate::specs::Lines::unit_uses))]
fn unit_uses(position: Position, bytes: &[u8]) -> Uses
    ensures { result ≡ unit_uses (record { position = position; bytes = bytes.now }) }
{
    let mut output = Output::Noted(Uses::nothing());
    match statement(&mut output, Origin::Atoms, 1, position, bytes) {
        Ok(_) => noted(&output),
        Err(_) => Uses::nothing(),
    }
}

/// Where the unit stands that begins after another.
fn next_position(rest: &[u8]) -> Position
    ensures { result ≡ next_position rest.now }
{
    if first(rest) == b':' {
        Position::Further
    } else {
        Position::Following
    }
}

/// What is left of a line where the next unit begins.
fn next_text(rest: &[u8]) -> &[u8]
    ensures { result.now ≡ next_text rest.now }
{
    if first(rest) == b':' {
        rest_after(rest, 1)
    } else {
        rest
    }
}

/// The unit at a text that is left of a line, before what stands after the unit.
fn span_between(line: &[u8], position: Position, left: &[u8], rest: &[u8]) -> Span
    requires few { length line.now ≤ 255 }
    requires left { IsEndOf line.now left.now }
    requires rest { rest.now ≡ after_unit position left.now }
    ensures unit { spanned line.now result ≡ leading_unit position left.now }
    ensures row { span_row result ≡ unit_row (leading_unit position left.now) }
    ensures uses { span_uses result ≡ unit_uses (leading_unit position left.now) }
{
    let from = line.len() - left.len();
    let width = left.len() - rest.len();
    let row = unit_row(position, first_bytes(left, width));
    let uses = unit_uses(position, first_bytes(left, width));
    Span {
        from: from as u8,
        width: width as u8,
        word: word_of(position, row, uses),
    }
}

/// The units of a line of at most 255 bytes, each with its row and with what it uses.
pub fn spans_of(alloc: Global, line: &[u8]) -> Result<Vec<Span>, NoMemory>
    requires { length line.now ≤ 255 }
    ensures units { IfOk result (λ spans. map (spanned line.now) spans.items ≡ units_of line.now) }
    ensures rows { IfOk result (λ spans. All (KeepsRow line.now) spans.items) }
    ensures uses { IfOk result (λ spans. All (KeepsUses line.now) spans.items) }
{
    let mut spans = Vec::new(alloc);
    let mut position = Position::First;
    let mut left = line;
    for _ in 0..line.len() {
        let rest = after_unit(position, left);
        spans.push(span_between(line, position, left, rest))?;
        if rest.is_empty() {
            return Ok(spans);
        }
        position = next_position(rest);
        left = next_text(rest);
    }
    Ok(spans)
}

/// The bytes of the k-th unit of a line, None exactly where there are at most k. It walks the line, whose units nobody kept.
pub fn walked_unit(line: &[u8], k: usize) -> Option<&[u8]>
    ensures { option_copied result ≡ option_map (λ u. u.bytes) (slice_get (units_of line.now) k) }
{
    let mut position = Position::First;
    let mut left = line;
    for unit in 0..line.len() {
        let rest = after_unit(position, left);
        if unit == k {
            return Some(first_bytes(left, left.len() - rest.len()));
        }
        if rest.is_empty() {
            return None;
        }
        position = next_position(rest);
        left = next_text(rest);
    }
    None
}

/// The first unit after the k-th that follows a `:`, or the number of units.
pub fn further_unit(units: &[Span], k: usize) -> usize
    ensures { (line : List ℕ) → result ≡ further_unit k 0 (map (spanned line) units.now) }
{
    if k >= units.len() {
        return units.len();
    }
    let mut unit = k + 1;
    while unit < units.len() {
        if units[unit].follows_colon() {
            return unit;
        }
        unit += 1;
    }
    units.len()
}
