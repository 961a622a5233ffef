// Where a partition goes on after a statement, by its outcome.
ghost use Rattle.std.specs.Prelude.{◌≡◌, Some, IfOk, option_map};
ghost use Rattle.b2_access.specs.Placed.{line_named as line_of_place, statement_placed as named_at};
ghost use Rattle.b2_rows.specs.Following.{taken_fault as fault_taken, tree_units};
ghost use Rattle.b2_language.specs.Following.{following_place};
ghost use Rattle.b2_machine.specs.Endings as ending;
ghost use Rattle.b2_machine.specs.Moving as spec;

use crate::ends::{Stepped, Why, counts, ends_turn};
use crate::messages::error_at;
use crate::readiness::{become_ready, become_ready_quietly, end_line, note_error};
use b2_access::{Outcome, Private, goal_place, line_named, statement_placed};
use b2_atom::{LentAtoms, rows};
use b2_base::{Code, NoMemory};
use b2_flow::Place;
use b2_language::{move_to, place_on};
use b2_rows::{Goal, next_unit, spells_a_line, taken_fault};
use b2_text::Text;
use std::alloc::Global;

/// Where the line of a statement goes on after it.
#[derive(Clone, Copy)]
pub enum Onward {
    /// At its next unit.
    NextUnit,
    /// It has no further unit: at the next line.
    NextLine,
}

/// Where a line goes on after one of its units.
#[tactic(auto, using(crate::proofs::UnitCounts::last_onward))]
pub fn onward_on(line: &LentAtoms<'_>, unit: u8) -> Onward
    ensures { result ≡ spec.goes_onward unit (tree_units line.now) }
{
    spells_a_line(line);
    line.units();
    if unit == u8::MAX {
        return Onward::NextLine;
    }
    match next_unit(line, usize::from(unit)) {
        Goal::Unit(_) => Onward::NextUnit,
        _ => Onward::NextLine,
    }
}

/// Where the line of a partition's place goes on after it.
pub fn onward_from(me: &Private, home: &Text, place: Place) -> Onward
    ensures { result ≡ spec.onward_from place me.now home.now.lines }
{
    match line_named(&me.immediate, home, place.line) {
        Some(line) => onward_on(&line, place.unit),
        None => Onward::NextLine,
    }
}

/// The place that this is.
fn place_onward(home: &Text, place: Place, onward: Onward) -> Option<Place>
    ensures { result ≡ spec.place_onward home.now.lines place onward }
{
    match onward {
        Onward::NextUnit => Some(Place {
            unit: place.unit.saturating_add(1),
            ..place
        }),
        Onward::NextLine => goal_place(home, place, Goal::NextLine),
    }
}

/// The place after a place of a partition, where nothing else is said.
fn following_place(me: &Private, home: &Text, place: Place) -> Option<Place>
    ensures { result ≡ following_place place me.now home.now.lines }
{
    match line_named(&me.immediate, home, place.line) {
        Some(line) => place_on(home, &line, place),
        None => goal_place(home, place, Goal::NextLine),
    }
}

/// From an immediate line into the program.
fn enter_program(me: &mut Private, continues: bool, place: Place)
    ensures changed { me.new ≡ spec.enters_program continues place me.old }
    ensures part { me.new.part ≡ me.old.part }
{
    move_to(me, place);
    end_line(me);
    me.kept = None;
    if !continues {
        me.args = None;
    }
}

/// Whether CONTINUE stands at a place.
fn is_continue(me: &Private, home: &Text, place: Place) -> bool
    ensures { result ≡ spec.is_continue (named_at place me.now.immediate home.now.lines) }
{
    match statement_placed(place, &me.immediate, home) {
        Some(unit) => unit.row == rows::CONTINUE,
        None => false,
    }
}

/// From a place to one that a statement names.
fn jump(me: &mut Private, home: &Text, place: Place, to: Place)
    ensures changed { me.new ≡ spec.jumps place to me.old home.now.lines }
    ensures part { me.new.part ≡ me.old.part }
{
    if place.line.is_none() && to.line.is_some() {
        let continues = is_continue(me, home, place);
        enter_program(me, continues, to);
    } else {
        move_to(me, to);
    }
}

/// On to a place; where there is none, the text or the immediate line ends.
fn go_to(alloc: Global, me: &mut Private, place: Option<Place>) -> Result<Stepped, NoMemory>
    ensures ended { IfOk result (λ e. record { me = me.new; end = e } ≡ spec.goes_to place me.old) }
    ensures part { me.new.part ≡ me.old.part }
{
    match place {
        Some(place) => {
            move_to(me, place);
            Ok(counts())
        }
        None => become_ready_quietly(alloc, me),
    }
}

/// Whether an ERROR takes a fault.
fn is_taken(code: Code) -> bool
    ensures { result ≡ spec.is_taken code }
{
    let class = code.class();
    class == b'C' || class == b'X' || class == b'D'
}

/// Where an ERROR of a line takes a fault of the unit at a place.
#[tactic(auto, using(crate::proofs::UnitCounts::few_taken))]
fn error_on(line: &LentAtoms<'_>, place: Place) -> Option<Place>
    ensures { result ≡ option_map (λ k. record place { unit = k }) (fault_taken place.unit (tree_units line.now)) }
{
    spells_a_line(line);
    line.units();
    match taken_fault(line, usize::from(place.unit)) {
        Some(k) => Some(Place {
            unit: k as u8,
            ..place
        }),
        None => None,
    }
}

/// Where an ERROR takes a fault at a place.
fn error_place(me: &Private, home: &Text, place: &Place, code: Code) -> Option<Place>
    ensures { result ≡ spec.error_place code place.now me.now home.now.lines }
{
    if !is_taken(code) {
        return None;
    }
    match line_named(&me.immediate, home, place.line) {
        Some(line) => error_on(&line, *place),
        None => None,
    }
}

/// A fault at a place.
fn fault(
    alloc: Global,
    me: &mut Private,
    home: &Text,
    place: Place,
    code: Code,
) -> Result<Stepped, NoMemory>
    ensures ended { IfOk result (λ e. record { me = me.new; end = e } ≡ spec.faults code (spec.error_place code place me.old home.now.lines) place me.old) }
    ensures part { me.new.part ≡ me.old.part }
{
    match error_place(me, home, &place, code) {
        Some(to) => {
            note_error(me, code);
            move_to(me, to);
            Ok(counts())
        }
        None => {
            let text = error_at(alloc, code, me.part, place)?;
            note_error(me, code);
            become_ready(me, text)
        }
    }
}

/// On to the next place, where the turn ends.
fn break_to(alloc: Global, me: &mut Private, next: Option<Place>) -> Result<Stepped, NoMemory>
    ensures ended { IfOk result (λ e. record { me = me.new; end = e } ≡ spec.breaks (spec.goes_to next me.old)) }
    ensures part { me.new.part ≡ me.old.part }
{
    go_to(alloc, me, next)?;
    Ok(ends_turn(Why::Break))
}

/// What comes of the outcome of a statement at a place, where `same` says how a step ends that is repeated.
pub fn settle(
    alloc: Global,
    me: &mut Private,
    home: &Text,
    place: Place,
    outcome: Outcome,
    same: Stepped,
) -> Result<Stepped, NoMemory>
    ensures ended { IfOk result (λ e. record { me = me.new; end = e } ≡ spec.ends_by same outcome place me.old home.now.lines) }
    ensures part { me.new.part ≡ me.old.part }
{
    match outcome {
        Outcome::Next => {
            let next = following_place(me, home, place);
            go_to(alloc, me, next)
        }
        Outcome::Jump(to) => {
            jump(me, home, place, to);
            Ok(counts())
        }
        Outcome::Failed(code) => fault(alloc, me, home, place, code),
        Outcome::Repeat => Ok(same),
        Outcome::Break => {
            let next = following_place(me, home, place);
            break_to(alloc, me, next)
        }
        Outcome::Ready => become_ready_quietly(alloc, me),
    }
}

/// What comes of the outcome of a statement at a place in a line of the program.
pub fn settle_on(
    alloc: Global,
    me: &mut Private,
    home: &Text,
    line: &LentAtoms<'_>,
    place: Place,
    outcome: Outcome,
) -> Result<Stepped, NoMemory>
    requires line { line_of_place me.old.immediate home.now.lines place.line ≡ Some line.now }
    ensures ended { IfOk result (λ e. record { me = me.new; end = e } ≡ spec.ends_by ending.counts outcome place me.old home.now.lines) }
    ensures part { me.new.part ≡ me.old.part }
{
    match outcome {
        Outcome::Next => go_to(alloc, me, place_on(home, line, place)),
        Outcome::Jump(to) => {
            jump(me, home, place, to);
            Ok(counts())
        }
        outcome => settle(alloc, me, home, place, outcome, counts()),
    }
}

/// What comes of the outcome of a statement that asked for an access, where its line goes on as was found before.
pub fn settle_onward(
    alloc: Global,
    me: &mut Private,
    home: &Text,
    place: Place,
    onward: Onward,
    outcome: Outcome,
    same: Stepped,
) -> Result<Stepped, NoMemory>
    ensures ended { IfOk result (λ e. record { me = me.new; end = e } ≡ spec.ends_onward same outcome onward place me.old home.now.lines) }
    ensures part { me.new.part ≡ me.old.part }
{
    match outcome {
        Outcome::Next => go_to(alloc, me, place_onward(home, place, onward)),
        Outcome::Break => break_to(alloc, me, place_onward(home, place, onward)),
        outcome => settle(alloc, me, home, place, outcome, same),
    }
}
