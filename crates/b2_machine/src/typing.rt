// Lines that are typed: what is read, and numbered ones that go into the text.
ghost use Rattle.std.specs.Prelude.{◌≡◌, ◌≢◌, true, [], None, Err, IfOk, IsSome, OnOk};
ghost use Rattle.b2_access.specs.Answering.{can_answer};
ghost use Rattle.b2_access.specs.Touching.{IsLegal};
ghost use Rattle.b2_machine.specs.Typing as spec;

use crate::ends::{Stepped, counts, repeats};
use crate::messages::{error_in_line, print_text, show_text};
use crate::readiness::{note_error, prompt, refuse};
use b2_access::{Access, Answer, Private, drop_frames};
use b2_atom::Atoms;
use b2_base::codes::A08_TEXT_BORROWED;
use b2_base::{Addr, ByteList, Code, NoMemory};
use b2_flow::Place;
use b2_syntax::{Entered, LineErr, read};
use std::alloc::Global;

/// Output on a line of its own.
fn on_own_line(alloc: Global, column: u16, text: &[u8]) -> Result<ByteList, NoMemory>
    ensures { IfOk result (λ shown. shown ≡ spec.on_own_line column text.now) }
{
    if column == 0 {
        return ByteList::from_slice(alloc, text);
    }
    let mut shown = Vec::from_slice(alloc, b"\n")?;
    shown.extend_from_slice(text)?;
    Ok(ByteList::new(shown))
}

/// What shows the output that is pending at the device that it is for.
pub fn ask_to_show(alloc: Global, me: &Private) -> Result<Access, NoMemory>
    requires waits { IsSome me.now.pending }
    ensures asked { IfOk result (λ a. a ≡ spec.shows_output me.now) }
    ensures legal { IfOk result IsLegal }
{
    let Some((device, text)) = &me.pending else {
        unreachable!();
    };
    if *device == Addr::default() {
        let shown = on_own_line(alloc, me.term_column, text.bytes())?;
        Ok(show_text(me, shown))
    } else {
        let printed = ByteList::from_slice(alloc, text.bytes())?;
        Ok(print_text(me, *device, printed))
    }
}

/// Pending output was shown, or waits on.
pub fn after_pending(me: &mut Private, access: &Access, answer: &Answer) -> Stepped
    requires possible { can_answer access.now answer.now ≡ true }
    ensures ended { record { me = me.new; end = result } ≡ spec.shown_by access.now answer.now me.old }
    ensures part { me.new.part ≡ me.old.part }
{
    match access {
        Access::Show { column, .. } => match answer {
            Answer::Done => {
                me.pending = None;
                me.term_column = *column;
                counts()
            }
            Answer::Wait(_) => repeats(answer),
            _ => unreachable!(),
        },
        Access::PrintTo { column, .. } => match answer {
            Answer::Done => {
                me.pending = None;
                me.print_column = *column;
                counts()
            }
            Answer::Wait(_) => repeats(answer),
            _ => unreachable!(),
        },
        _ => repeats(answer),
    }
}

/// A literal was typed, or waits on.
pub fn after_literal(me: &mut Private, answer: &Answer) -> Stepped
    requires possible { can_answer (Access.Insert me.old.term []) answer.now ≡ true }
    ensures ended { record { me = me.new; end = result } ≡ spec.typed_by_key answer.now me.old }
    ensures part { me.new.part ≡ me.old.part }
{
    match answer {
        Answer::Done => {
            me.literal = None;
            counts()
        }
        Answer::Wait(_) => repeats(answer),
        _ => unreachable!(),
    }
}

/// The immediate line runs from its first unit on.
fn run_line(me: &mut Private, atoms: Atoms)
    ensures changed { me.new ≡ spec.runs_line atoms me.old }
    ensures part { me.new.part ≡ me.old.part }
{
    me.place = Some(Place {
        home: me.part,
        line: None,
        unit: 0,
    });
    me.immediate = Some(atoms);
}

/// What a typed line says is taken.
fn take_entered(alloc: Global, me: &mut Private, entered: Entered) -> Result<(), NoMemory>
    ensures changed { OnOk result (me.new ≡ spec.takes entered me.old) }
    ensures part { me.new.part ≡ me.old.part }
{
    match entered {
        Entered::Empty => prompt(me, Vec::new(alloc))?,
        Entered::Delete(n) => me.numbered = Some((n, None)),
        Entered::Numbered(n, atoms) => me.numbered = Some((n, Some(atoms))),
        Entered::Immediate(atoms) => run_line(me, atoms),
    }
    Ok(())
}

/// A typed line isn't taken, where memory didn't fail.
fn refuse_line(alloc: Global, me: &mut Private, error: LineErr) -> Result<(), NoMemory>
    ensures changed { OnOk result ((error ≢ LineErr.NoMemory) × (me.new ≡ spec.takes_or_refuses (Err error) me.old)) }
    ensures part { me.new.part ≡ me.old.part }
{
    match error {
        LineErr::At(code, column) => {
            let text = error_in_line(alloc, code, column)?;
            note_error(me, code);
            prompt(me, text)
        }
        LineErr::NoMemory => Err(NoMemory),
    }
}

/// A line that was read is taken.
pub fn take_line(alloc: Global, me: &mut Private, line: &[u8]) -> Result<(), NoMemory>
    ensures changed { OnOk result (me.new ≡ spec.line_taken line.now me.old) }
    ensures part { me.new.part ≡ me.old.part }
{
    me.term_column = 0;
    match read(alloc, line) {
        Ok(entered) => take_entered(alloc, me, entered),
        Err(error) => refuse_line(alloc, me, error),
    }
}

/// What puts a numbered line into the own text, and gives back the texts of the homes that a mask marks.
pub fn put_line(line: u16, atoms: Option<Atoms>, homes: u16) -> Access
    ensures { result ≡ spec.puts_line (line, atoms) homes }
{
    Access::PutLine {
        line: line.min(9999),
        atoms,
        homes,
    }
}

/// A numbered line, which waits no more, was put, or it is refused.
pub fn after_put(alloc: Global, me: &mut Private, answer: &Answer) -> Result<Stepped, NoMemory>
    requires taken { me.old.numbered ≡ None }
    requires possible { can_answer (Access.PutLine 0 None 0) answer.now ≡ true }
    ensures ended { IfOk result (λ e. record { me = me.new; end = e } ≡ spec.put_by answer.now me.old) }
    ensures part { me.new.part ≡ me.old.part }
{
    match answer {
        Answer::Done => {
            drop_frames(me);
            prompt(me, Vec::new(alloc))?;
            Ok(counts())
        }
        Answer::Locked(_) => {
            refuse(alloc, me, Code::known(A08_TEXT_BORROWED))?;
            Ok(counts())
        }
        Answer::Refused(code) => {
            refuse(alloc, me, *code)?;
            Ok(counts())
        }
        _ => unreachable!(),
    }
}
