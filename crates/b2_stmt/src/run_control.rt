// STOP, RUN, CONTINUE and SELECT.
ghost use Rattle.std.specs.Prelude.{◌≡◌, true, IfOk, Some, option_copied};
ghost use Rattle.b2_atom.specs.declared.rows.TheConstants as row;
ghost use Rattle.b2_rows.specs.Rows.{is_phrase, tree_at};
ghost use Rattle.b2_stmt.specs.RunControl as spec;
ghost use Rattle.b2_access.specs.Steering.{steered};

use b2_access::{Outcome, Private, failed};
use b2_base::codes::{P36_NO_LINE, P46_NOTHING_KEPT};
use b2_base::lexical::rest_after;
use b2_base::{Addr, ByteList, NoMemory};
use b2_dec::Mode;
use b2_flow::Place;
use b2_rows::{is_at, is_line_at, line_at, quoted_at};
use b2_text::Text;
use std::alloc::Global;

/// SELECT ROUND and SELECT NO ROUND.
pub fn select(me: &mut Private, mode: Mode) -> Outcome
    ensures ended { record { me = me.new; outcome = result } ≡ steered me.old (spec.selects mode me.old) }
    ensures part { me.new.part ≡ me.old.part }
{
    me.mode = mode;
    Outcome::Next
}

/// The text that STOP shows.
#[tactic(auto, using(crate::proofs::RunControlRows::stop_literal, crate::proofs::RunControlRows::stop_with, crate::proofs::RunControlRows::stop_without))]
pub fn text_of_stop(unit: &[u8]) -> Option<&[u8]>
    requires phrase { is_phrase row.STOP unit.now ≡ true }
    ensures { option_copied result ≡ spec.text_of_stop (tree_at row.STOP unit.now) }
{
    let text = rest_after(unit, 1);
    if is_at(b'"', text) {
        Some(quoted_at(text))
    } else {
        None
    }
}

/// What STOP shows, with a text or without.
pub fn stop_text(alloc: Global, text: Option<&[u8]>) -> Result<ByteList, NoMemory>
    ensures { IfOk result (λ shown. shown ≡ spec.stop_text (option_copied text.entry)) }
{
    let mut shown = Vec::from_slice(alloc, b"STOP")?;
    if let Some(text) = text {
        shown.push(b' ')?;
        shown.extend_from_slice(text)?;
    }
    shown.push(b'\n')?;
    Ok(ByteList::new(shown))
}

/// STOP at a place, where what it shows and the place after it are known.
pub fn stop(me: &mut Private, shown: ByteList, place: Place, after: Option<Place>) -> Outcome
    ensures ended { record { me = me.new; outcome = result } ≡ steered me.old (spec.stops_program shown place after me.old) }
    ensures part { me.new.part ≡ me.old.part }
{
    me.pending = Some((Addr::default(), shown));
    if place.line.is_some() {
        me.kept = after;
    }
    Outcome::Ready
}

/// The program begins anew, at a line of its own text or with none.
fn run_from(me: &mut Private, n: Option<u16>) -> Outcome
    ensures ended { record { me = me.new; outcome = result } ≡ steered me.old (spec.runs_from n me.old) }
    ensures part { me.new.part ≡ me.old.part }
{
    me.vars.clear_non_common();
    me.stack.clear();
    me.kept = None;
    me.args = None;
    me.last = 0;
    me.next_data = None;
    match n {
        Some(n) => Outcome::Jump(Place {
            home: me.part,
            line: Some(n),
            unit: 0,
        }),
        None => Outcome::Ready,
    }
}

/// RUN.
pub fn run_program(me: &mut Private, own: &Text, n: Option<u16>) -> Outcome
    ensures ended { record { me = me.new; outcome = result } ≡ steered me.old (spec.runs n own.now.lines me.old) }
    ensures part { me.new.part ≡ me.old.part }
{
    let Some(n) = n else {
        let first = own.next_after(None);
        return run_from(me, first);
    };
    if own.line(n).is_none() {
        return failed(P36_NO_LINE);
    }
    run_from(me, Some(n))
}

/// The line that RUN names.
#[tactic(auto, using(crate::proofs::RunControlRows::run_line, crate::proofs::RunControlRows::run_with, crate::proofs::RunControlRows::run_without))]
pub fn line_to_run(unit: &[u8]) -> Option<u16>
    requires phrase { is_phrase row.RUN unit.now ≡ true }
    ensures { result ≡ spec.line_to_run (tree_at row.RUN unit.now) }
{
    let line = rest_after(unit, 1);
    if is_line_at(line) {
        Some(line_at(line))
    } else {
        None
    }
}

/// CONTINUE.
pub fn resume(me: &Private) -> Outcome
    ensures { record { me = me.now; outcome = result } ≡ steered me.now (spec.continues me.now.kept me.now) }
{
    match me.kept {
        Some(place) => Outcome::Jump(place),
        None => failed(P46_NOTHING_KEPT),
    }
}
