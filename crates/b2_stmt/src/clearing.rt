// CLEAR, CLEAR P, DEFFN @PART and SELECT @PART: what they ask of the store, and how they finish.
ghost use Rattle.std.specs.Prelude.{◌≡◌, true, IfOk};
ghost use Rattle.b2_atom.specs.declared.rows.TheConstants as row;
ghost use Rattle.b2_rows.specs.Rows.{is_phrase, tree_at};
ghost use Rattle.b2_access.specs.Answering.{can_answer};
ghost use Rattle.b2_access.specs.Partition.{no_files};
ghost use Rattle.b2_access.specs.Borrowers.{homes_entered};
ghost use Rattle.b2_access.specs.Views.{AllCleared, LinesErased};
ghost use Rattle.b2_stmt.specs.Clearing as spec;
ghost use Rattle.b2_access.specs.Steering.{steered};

use crate::parts::{ask_to_declare, ask_to_find, declare, declared_by, select_part, selected_by};
use b2_access::{Access, Answer, Outcome, Private, drop_frames, failed, homes_entered};
use b2_atom::rows;
use b2_base::codes::{A08_TEXT_BORROWED, X77_NO_PARTITION};
use b2_base::lexical::rest_after;
use b2_base::{Addr, ByteList, NoMemory, Slot};
use b2_rows::named_lines;
use std::alloc::Global;

/// What CLEAR P asks for.
#[tactic(auto, using(crate::proofs::ClearRows::clear_lines, crate::proofs::ClearRows::clear_is))]
fn asks_to_erase(unit: &[u8], homes: u16) -> Access
    requires phrase { is_phrase row.CLEAR_P unit.now ≡ true }
    ensures { result ≡ spec.asks_to_erase homes (tree_at row.CLEAR_P unit.now) }
{
    let (from, to) = named_lines(rest_after(rest_after(unit, 1), 1));
    Access::Erase {
        from,
        to: to.unwrap_or(9999),
        homes,
    }
}

/// Whether a statement may ask for an access by its row.
pub fn asks_access(row: u16) -> bool
    ensures { result ≡ spec.asks_access row }
{
    row == rows::CLEAR || row == rows::CLEAR_P || row == rows::DEFFN || row == rows::SELECT_PART
}

/// The access that a statement asks for by its row, where it asks for one.
pub fn asked_access(row: u16, unit: &[u8], me: &Private) -> Option<Access>
    requires phrase { is_phrase row unit.now ≡ true }
    ensures { result ≡ spec.asked_access row (tree_at row unit.now) me.now.declared (homes_entered me.now.stack) }
{
    match row {
        rows::CLEAR => Some(Access::ClearAll {
            name: me.declared,
            homes: homes_entered(&me.stack),
        }),
        rows::CLEAR_P => Some(asks_to_erase(unit, homes_entered(&me.stack))),
        rows::DEFFN => ask_to_declare(me.declared, declared_by(unit)),
        rows::SELECT_PART => ask_to_find(selected_by(unit)),
        _ => None,
    }
}

/// After lines were erased.
fn erase_lines(me: &mut Private) -> Outcome
    ensures ended { record { me = me.new; outcome = result } ≡ steered me.old (spec.clearing_ends LinesErased me.old) }
    ensures part { me.new.part ≡ me.old.part }
{
    drop_frames(me);
    Outcome::Ready
}

/// No open data files.
fn no_files() -> [Option<Slot>; 16]
    ensures { result ≡ no_files }
{
    [None; 16]
}

/// After all was cleared: the variables go too, no data file is open, and the terminal and the platter with which the partition started
/// are selected again, no partition is selected, and no name is declared. The devices that it has taken stay so.
fn clear_all(alloc: Global, me: &mut Private) -> Result<Outcome, NoMemory>
    ensures ended { IfOk result (λ o. record { me = me.new; outcome = o } ≡ steered me.old (spec.clearing_ends AllCleared me.old)) }
    ensures part { me.new.part ≡ me.old.part }
{
    let ready = ByteList::from_slice(alloc, b"READY\n")?;
    let outcome = erase_lines(me);
    me.vars.clear();
    me.slots = no_files();
    me.print = Addr::default();
    me.disk = me.boot_disk;
    me.global = None;
    me.declared = None;
    me.pending = Some((Addr::default(), ready));
    Ok(outcome)
}

/// How a statement finishes by the answer to the access that it asked for.
pub fn finish_edit(
    alloc: Global,
    me: &mut Private,
    access: &Access,
    answer: &Answer,
) -> Result<Outcome, NoMemory>
    requires possible { can_answer access.now answer.now ≡ true }
    ensures ended { IfOk result (λ o. record { me = me.new; outcome = o } ≡ steered me.old (spec.edit_finishes access.now answer.now me.old)) }
    ensures part { me.new.part ≡ me.old.part }
{
    match access {
        Access::ClearAll { .. } => match answer {
            Answer::Done => clear_all(alloc, me),
            Answer::Locked(_) => Ok(failed(A08_TEXT_BORROWED)),
            _ => unreachable!(),
        },
        Access::Erase { .. } => match answer {
            Answer::Done => Ok(erase_lines(me)),
            Answer::Locked(_) => Ok(failed(A08_TEXT_BORROWED)),
            _ => unreachable!(),
        },
        Access::Declare { name, .. } => match answer {
            Answer::Done => Ok(declare(me, *name)),
            Answer::Refused(code) => Ok(Outcome::Failed(*code)),
            _ => unreachable!(),
        },
        Access::FindPart { name } => match answer {
            Answer::Holder(_) => Ok(select_part(me, *name)),
            Answer::NoPart => Ok(failed(X77_NO_PARTITION)),
            _ => unreachable!(),
        },
        _ => Ok(Outcome::Repeat),
    }
}
