// LOAD: what it asks for, and how it finishes.
ghost use Rattle.std.specs.Prelude.{◌≡◌, true};
ghost use Rattle.b2_access.specs.Answering.{can_answer};
ghost use Rattle.b2_access.specs.Steering.{steered};
ghost use Rattle.b2_access.specs.Views.{program_came};
ghost use Rattle.b2_atom.specs.declared.rows.TheConstants as row;
ghost use Rattle.b2_rows.specs.Rows.{after_phrase, is_phrase, tree_at};
ghost use Rattle.b2_expr.specs.Scope.{surroundings};
ghost use Rattle.b2_expr.specs.Value.{in_statement};
ghost use Rattle.b2_drive.specs.Drives.{drives_seen};
ghost use Rattle.b2_stmt_disk.specs.programs.Loading as spec;
ghost use Rattle.b2_stmt_disk.specs.programs.Plan.{ends};

use b2_access::{Access, Answer, Outcome, Private, drop_frames, failed};
use b2_atom::words::RUN;
use b2_base::codes::A08_TEXT_BORROWED;
use b2_base::lexical::rest_after;
use b2_base::{Code, Name8};
use b2_drive::{Drives, after_change, drive, name_at, past_drive};
use b2_expr::Env;
use b2_flow::Place;
use b2_rows::is_at;
use b2_text::Text;

/// The name that is given up: the declared one, where the lines are replaced.
fn given_up(replace: bool, declared: Option<Name8>) -> Option<Name8>
    ensures { result ≡ spec.given_up replace declared }
{
    if replace { declared } else { None }
}

/// What LOAD asks for by the drive and the name at a text, in place of the lines of the text or among them.
fn ask_for(
    d: &Drives<'_>,
    e: &Env<'_>,
    declared: Option<Name8>,
    homes: u16,
    replace: bool,
    text: &[u8],
) -> Result<Access, Code>
    requires drive { is_phrase row.DRIVE_COMMA text.now ≡ true }
    requires name { is_phrase row.ALPHA (after_phrase row.DRIVE_COMMA text.now) ≡ true }
    ensures { result ≡ spec.asks_for (drives_seen d.now) (in_statement (surroundings e.now)) declared homes replace (tree_at row.DRIVE_COMMA text.now) (tree_at row.ALPHA (after_phrase row.DRIVE_COMMA text.now)) }
{
    let addr = match drive(d, text) {
        Ok(addr) => addr,
        Err(code) => return Err(code),
    };
    match name_at(e, past_drive(text)) {
        Ok(name) => Ok(Access::LoadProgram {
            addr,
            name,
            replace,
            declared: given_up(replace, declared),
            homes,
        }),
        Err(code) => Err(code),
    }
}

/// What LOAD asks for, in a line of the program or in an immediate line: its drive first, and then the name of the program.
#[tactic(auto, using(crate::proofs::of_programs::LoadRows::run_drive, crate::proofs::of_programs::LoadRows::run_name, crate::proofs::of_programs::LoadRows::run_is, crate::proofs::of_programs::LoadRows::load_drive, crate::proofs::of_programs::LoadRows::load_name, crate::proofs::of_programs::LoadRows::load_is))]
pub fn ask_to_load(
    d: &Drives<'_>,
    e: &Env<'_>,
    declared: Option<Name8>,
    homes: u16,
    program: bool,
    unit: &[u8],
) -> Result<Access, Code>
    requires phrase { is_phrase row.LOAD unit.now ≡ true }
    ensures { result ≡ spec.asks_to_load (drives_seen d.now) (in_statement (surroundings e.now)) declared homes program (tree_at row.LOAD unit.now) }
{
    let text = rest_after(unit, 1);
    if is_at(RUN, text) {
        return ask_for(d, e, declared, homes, true, rest_after(text, 1));
    }
    ask_for(d, e, declared, homes, program, text)
}

/// After the lines of a program came among those of the text.
fn merge(me: &mut Private) -> Outcome
    ensures ended { record { me = me.new; outcome = result } ≡ steered me.old (spec.merged me.old) }
    ensures part { me.new.part ≡ me.old.part }
{
    drop_frames(me);
    Outcome::Next
}

/// After they came in place of those of the text: no name is declared, and the program starts at its first line.
fn start(me: &mut Private, first: Option<u16>) -> Outcome
    ensures ended { record { me = me.new; outcome = result } ≡ steered me.old (spec.started first me.old) }
    ensures part { me.new.part ≡ me.old.part }
{
    drop_frames(me);
    me.vars.clear_non_common();
    me.declared = None;
    match first {
        Some(n) => Outcome::Jump(Place {
            home: me.part,
            line: Some(n),
            unit: 0,
        }),
        None => Outcome::Ready,
    }
}

/// After a program was loaded into the text.
fn after_load(me: &mut Private, own: &Text, replace: bool) -> Outcome
    ensures ended { record { me = me.new; outcome = result } ≡ steered me.old (spec.loaded replace own.now.lines me.old) }
    ensures part { me.new.part ≡ me.old.part }
{
    if !replace {
        return merge(me);
    }
    let first = own.next_after(None);
    start(me, first)
}

/// How a statement finishes by the answer to the access that it asked for, over its text as it then is.
pub fn finish_with(me: &mut Private, own: &Text, access: &Access, answer: &Answer) -> Outcome
    requires possible { can_answer access.now answer.now ≡ true }
    ensures ended { record { me = me.new; outcome = result } ≡ steered me.old (ends access.now answer.now own.now.lines me.old) }
    ensures part { me.new.part ≡ me.old.part }
{
    match access {
        Access::LoadProgram { replace, .. } => match answer {
            Answer::Done => after_load(me, own, *replace),
            Answer::Locked(_) => failed(A08_TEXT_BORROWED),
            Answer::Refused(code) => Outcome::Failed(*code),
            Answer::Wait(_) => Outcome::Repeat,
            _ => unreachable!(),
        },
        _ => after_change(access, answer),
    }
}
