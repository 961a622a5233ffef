// What follows a unit of a line.
ghost use Rattle.std.specs.Prelude.{◌≡◌, ◌<◌, ◌+◌, true, option_copied, IfSome};
ghost use Rattle.b2_atom.specs.Lines.{units_of};
ghost use Rattle.b2_atom.specs.declared.rows.TheConstants as row;
ghost use Rattle.std.specs.Prelude.{slice_get};
ghost use Rattle.std.specs.Option.{option_map};
ghost use Rattle.b2_rows.specs.Rows.{is_phrase, tree_at};
ghost use Rattle.b2_rows.specs.Following as spec;

use crate::begins::{is_at, is_line_at};
use crate::leaves::line_at;
use crate::row_units::{row_unit, spells_a_line};
use b2_atom::LentAtoms;
use b2_atom::words::{ELSE, ERROR};
use b2_base::lexical::rest_after;

/// Where a step goes on.
#[derive(Clone, Copy)]
pub enum Goal {
    /// At the line of a number.
    Line(u16),
    /// At a unit of the same line, counted from 0.
    Unit(usize),
    /// At the line that follows.
    NextLine,
}

/// The bytes of a unit, None where the line has no such unit.
fn bytes_of_unit<'a>(line: &LentAtoms<'a>, k: usize) -> Option<&'a [u8]>
    ensures few { IfSome result (λ unit. k < 255) }
    ensures bytes { option_copied result ≡ option_map (λ u. u.bytes) (slice_get (units_of line.now) k) }
{
    match row_unit(line, k) {
        Some(unit) => Some(unit.bytes),
        None => None,
    }
}

/// A unit of the line, or the next line where there is no such unit.
#[tactic(auto, using(crate::proofs::WhatFollows::within_line, crate::proofs::WhatFollows::beyond_line))]
fn unit_or_next(line: &LentAtoms<'_>, k: usize) -> Goal
    ensures goal { result ≡ spec.unit_or_next k (spec.tree_units line.now) }
{
    spells_a_line(line);
    if k < line.units() {
        Goal::Unit(k)
    } else {
        Goal::NextLine
    }
}

/// Where a step goes on after the k-th unit where nothing else is said: at the next unit.
pub fn next_unit(line: &LentAtoms<'_>, k: usize) -> Goal
    requires { k < 255 }
    ensures goal { result ≡ spec.unit_or_next (k + 1) (spec.tree_units line.now) }
{
    unit_or_next(line, k + 1)
}

/// Where a step goes on that passes the rest of the k-th unit's statement: past the next `:`.
#[tactic(auto, using(crate::proofs::WhatFollows::past_is))]
pub fn past_colon(line: &LentAtoms<'_>, k: usize) -> Goal
    ensures goal { result ≡ spec.past_colon k (spec.tree_units line.now) }
{
    spells_a_line(line);
    unit_or_next(line, line.skip(k))
}

/// Where an ELSE leads that is the k-th unit: to its line, or to the next unit.
#[tactic(auto, using(crate::proofs::WhatFollows::else_line, crate::proofs::WhatFollows::else_named, crate::proofs::WhatFollows::else_next))]
fn else_goal(unit: &[u8], k: usize) -> Goal
    requires phrase { is_phrase row.ELSE unit.now ≡ true }
    requires few { k < 255 }
    ensures goal { result ≡ spec.else_goal k (tree_at row.ELSE unit.now) }
{
    let named = rest_after(unit, 1);
    if is_line_at(named) {
        Goal::Line(line_at(named))
    } else {
        Goal::Unit(k + 1)
    }
}

/// Where a step goes on after a false IF that is the k-th unit: past the next `:`, and where an ELSE stands there, where that
/// leads.
#[tactic(auto, using(crate::proofs::WhatFollows::false_none, crate::proofs::WhatFollows::false_plain, crate::proofs::WhatFollows::false_part, crate::proofs::WhatFollows::false_else))]
pub fn after_false(line: &LentAtoms<'_>, k: usize) -> Goal
    ensures goal { result ≡ spec.after_false k (spec.tree_units line.now) }
{
    spells_a_line(line);
    let further = line.skip(k);
    match bytes_of_unit(line, further) {
        Some(unit) => {
            if is_at(ELSE, unit) {
                else_goal(unit, further)
            } else {
                Goal::Unit(further)
            }
        }
        None => Goal::NextLine,
    }
}

/// The unit at which a step goes on after a fault of the k-th, None where no ERROR takes it: where an ERROR stands after the
/// next `:`, the unit after that.
#[tactic(auto, using(crate::proofs::WhatFollows::none_taken, crate::proofs::WhatFollows::error_takes, crate::proofs::WhatFollows::no_error))]
pub fn taken_fault(line: &LentAtoms<'_>, k: usize) -> Option<usize>
    ensures goal { result ≡ spec.taken_fault k (spec.tree_units line.now) }
{
    spells_a_line(line);
    let further = line.skip(k);
    match bytes_of_unit(line, further) {
        Some(unit) => {
            if is_at(ERROR, unit) {
                Some(further + 1)
            } else {
                None
            }
        }
        None => None,
    }
}
