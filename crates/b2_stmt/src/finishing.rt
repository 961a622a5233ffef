// How a statement finishes, by the access that it asked for and its answer.
ghost use Rattle.std.specs.Prelude.{◌≡◌, true, IfOk, Some};
ghost use Rattle.b2_rows.specs.Following.{tree_units};
ghost use Rattle.b2_access.specs.Answering.{can_answer};
ghost use Rattle.b2_access.specs.Dispatch.{dispatch_at, permitted};
ghost use Rattle.b2_access.specs.Found.{IsRead, here_found, seen_found, statement_found};
ghost use Rattle.b2_access.specs.Lending.{globals_lent, seen_lent};
ghost use Rattle.b2_access.specs.Placed.{statement_on as named_on};
ghost use Rattle.b2_access.specs.Steering.{steered};
ghost use Rattle.b2_stmt.specs.Asked.{HasLegalNames};
ghost use Rattle.b2_stmt.specs.Borrowing as borrowing;
ghost use Rattle.b2_stmt.specs.Borrowing.{lent_came};
ghost use Rattle.b2_stmt.specs.Clearing.{edit_finishes};
ghost use Rattle.b2_stmt.specs.Plan as spec;

use crate::asked::{Asked, do_asked};
use crate::calls::go_back;
use crate::clearing::finish_edit;
use crate::marked::{call_into, place_in};
use crate::planning::{asked_found, copy_of_line, is_refused};
use b2_access::{Access, Answer, Found, Lent, Outcome, Private, failed, statement_on};
use b2_atom::LentAtoms;
use b2_base::codes::{S26_PROGRAM_ONLY, X77_NO_PARTITION};
use b2_base::{NoMemory, Part};
use b2_flow::Place;
use b2_text::Spot;
use std::alloc::Global;

/// What a statement asks of the private state that was found on a line, nothing where it may not stand there.
#[tactic(auto, using(b2_access::proofs::Dispatch::may_not_stand, b2_access::proofs::Dispatch::may_stand))]
fn asked_unit(
    alloc: Global,
    me: &mut Private,
    lent: &mut Lent<'_>,
    found: &Found<'_>,
) -> Result<Asked, NoMemory>
    requires read { IsRead found.now }
    ensures asked { IfOk result (λ asked. asked ≡ permitted spec.is_refused Asked.Nothing (λ u h. spec.asked_by u h me.old (seen_found found.now (globals_lent lent.old))) (statement_found found.now) (here_found found.now)) }
    ensures named { IfOk result HasLegalNames }
    ensures me { me.new ≡ me.old }
    ensures same { globals_lent lent.new ≡ globals_lent lent.old }
    ensures same_texts { (lent.new.own ≡ lent.old.own) × (lent.new.home ≡ lent.old.home) }
    ensures same_reference { lent.new.globals.ghost_name ≡ lent.old.globals.ghost_name }
{
    if is_refused(found.unit.row, found.place.line.is_some()) {
        return Ok(Asked::Nothing(failed(S26_PROGRAM_ONLY)));
    }
    asked_found(alloc, me, lent, found)
}

/// What the unit at a place on a line asks of the private state.
fn asked_on(
    alloc: Global,
    me: &mut Private,
    lent: &mut Lent<'_>,
    line: &LentAtoms<'_>,
    place: Place,
) -> Result<Asked, NoMemory>
    ensures asked { IfOk result (λ asked. asked ≡ dispatch_at spec.is_refused Asked.Nothing (λ u h. spec.asked_by u h me.old (seen_lent lent.old)) (named_on (Some line.now) place.unit) (record { place = place; units = tree_units line.now })) }
    ensures named { IfOk result HasLegalNames }
    ensures me { me.new ≡ me.old }
    ensures same { globals_lent lent.new ≡ globals_lent lent.old }
    ensures same_texts { (lent.new.own ≡ lent.old.own) × (lent.new.home ≡ lent.old.home) }
    ensures same_reference { lent.new.globals.ghost_name ≡ lent.old.globals.ghost_name }
{
    match statement_on(line, usize::from(place.unit)) {
        Some(unit) => {
            let found = Found {
                own: lent.own,
                home: lent.home,
                line,
                unit: &unit,
                place,
            };
            asked_unit(alloc, me, lent, &found)
        }
        None => Ok(Asked::Nothing(Outcome::Ready)),
    }
}

/// What the statement at the place of a partition asks of the private state.
fn asked_at(alloc: Global, me: &mut Private, lent: &mut Lent<'_>) -> Result<Asked, NoMemory>
    ensures asked { IfOk result (λ asked. asked ≡ spec.asked_at me.old (seen_lent lent.old)) }
    ensures named { IfOk result HasLegalNames }
    ensures me { me.new ≡ me.old }
    ensures same { globals_lent lent.new ≡ globals_lent lent.old }
    ensures same_texts { (lent.new.own ≡ lent.old.own) × (lent.new.home ≡ lent.old.home) }
    ensures same_reference { lent.new.globals.ghost_name ≡ lent.old.globals.ghost_name }
{
    let Some(place) = me.place else {
        return Ok(Asked::Nothing(Outcome::Ready));
    };
    match place.line {
        Some(n) => match lent.home.line(n) {
            Some(line) => asked_on(alloc, me, lent, &line.lend(), place),
            None => Ok(Asked::Nothing(Outcome::Ready)),
        },
        None => match copy_of_line(alloc, &me.immediate)? {
            Some(line) => asked_on(alloc, me, lent, &line.lend(), place),
            None => Ok(Asked::Nothing(Outcome::Ready)),
        },
    }
}

/// A text was entered, at a spot: what was asked goes on there.
fn enter(me: &mut Private, home: Part, spot: &Spot, asked: Asked) -> Outcome
    ensures ended { record { me = me.new; outcome = result } ≡ steered me.old (borrowing.enters home spot.now asked me.old) }
    ensures part { me.new.part ≡ me.old.part }
{
    match asked {
        Asked::CallMark(_, args, back) => call_into(
            me,
            Some(home),
            place_in(home, *spot),
            args,
            back,
        ),
        _ => Outcome::Repeat,
    }
}

/// How a statement finishes at a place that asked for the text of another.
fn finish_at(
    alloc: Global,
    me: &mut Private,
    lent: &mut Lent<'_>,
    place: Place,
    access: &Access,
    answer: &Answer,
) -> Result<Outcome, NoMemory>
    requires stands { me.old.place ≡ Some place }
    requires possible { can_answer access.now answer.now ≡ true }
    ensures ended { IfOk result (λ o. record { me = me.new; outcome = o } ≡ steered me.old (borrowing.lent_ends (lent_came access.now answer.now) (spec.asked_at me.old (seen_lent lent.old)) place me.old lent.old.own.now.lines lent.old.home.now.lines (edit_finishes access.now answer.now me.old))) }
    ensures same { globals_lent lent.new ≡ globals_lent lent.old }
    ensures same_texts { (lent.new.own ≡ lent.old.own) × (lent.new.home ≡ lent.old.home) }
    ensures same_reference { lent.new.globals.ghost_name ≡ lent.old.globals.ghost_name }
    ensures part { me.new.part ≡ me.old.part }
{
    match access {
        Access::Enter { .. } => match answer {
            Answer::Entered(home, spot) => {
                let asked = asked_at(alloc, me, lent)?;
                Ok(enter(me, *home, spot, asked))
            }
            Answer::NoPart => Ok(failed(X77_NO_PARTITION)),
            Answer::Refused(code) => Ok(Outcome::Failed(*code)),
            _ => unreachable!(),
        },
        Access::Leave { .. } => match answer {
            Answer::Done => Ok(go_back(me)),
            _ => unreachable!(),
        },
        Access::Drop { .. } => match answer {
            Answer::Done => {
                let asked = asked_at(alloc, me, lent)?;
                do_asked(me, lent.own, lent.home, place, asked)
            }
            _ => unreachable!(),
        },
        _ => finish_edit(alloc, me, access, answer),
    }
}

/// How a statement finishes, by the access that it asked for and its answer, which is one that the access can have.
pub fn finish(
    alloc: Global,
    me: &mut Private,
    lent: &mut Lent<'_>,
    access: &Access,
    answer: &Answer,
) -> Result<Outcome, NoMemory>
    requires possible { can_answer access.now answer.now ≡ true }
    ensures finished { IfOk result (λ o. record { me = me.new; globals = globals_lent lent.new; outcome = o } ≡ spec.finish access.now answer.now me.old (seen_lent lent.old)) }
    ensures same_reference { lent.new.globals.ghost_name ≡ lent.old.globals.ghost_name }
    ensures part { me.new.part ≡ me.old.part }
{
    match me.place {
        Some(place) => finish_at(alloc, me, lent, place, access, answer),
        None => finish_edit(alloc, me, access, answer),
    }
}
