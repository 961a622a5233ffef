// What is asked about texts, and about who stands inside them.
ghost use Rattle.std.specs.Prelude.{◌≡◌, ◌≤◌, Some, None, IfOk, is_some};
ghost use Rattle.b2_access.specs.AccessRows.{mark_in};
ghost use Rattle.b2_access.specs.Store.{content};
ghost use Rattle.b2_store.specs.Cleared.{text_cleared};
ghost use Rattle.b2_store.specs.Doing.{Does};
ghost use Rattle.b2_store.specs.Giving.{given_unless_refused};

use crate::borrows::{enter_text, give_back, leave_text};
use crate::lookups::Lookups;
use crate::names::give_up;
use crate::refusals::made_answer;
use b2_access::{Access, Answer, Object};
use b2_atom::Atoms;
use b2_base::codes::P38_NO_DEFFN;
use b2_base::{Addr, Code, Name8, NoMemory, Part};
use b2_text::Spot;

/// The DEFFN' of a number in the text of a partition, None where it has none.
fn marked_in<S: Lookups>(store: &S, home: Part, mark: u8) -> Option<Spot>
    ensures { result ≡ mark_in mark (content (S.state store.now) (Object.Text home)) }
{
    match store.text(home) {
        Some(text) => text.marked(mark),
        None => None,
    }
}

/// A partition enters the text of the one that holds a name.
pub(crate) fn enter<S: Lookups>(
    store: &mut S,
    who: Part,
    name: Name8,
    mark: u8,
) -> Result<Answer, NoMemory>
    ensures { IfOk result (Does who (Access.Enter name mark) (S.state store.old) (S.state store.new)) }
{
    let Some(holder) = store.name_holder(name) else {
        return Ok(Answer::NoPart);
    };
    let Some(spot) = marked_in(store, holder, mark) else {
        return Ok(Answer::Refused(Code::known(P38_NO_DEFFN)));
    };
    enter_text(store, who, holder)?;
    Ok(Answer::Entered(holder, spot))
}

/// A partition leaves the text of another once.
pub(crate) fn leave<S: Lookups>(store: &mut S, who: Part, home: Part) -> Answer
    ensures { Does who (Access.Leave home) (S.state store.old) (S.state store.new) result }
{
    leave_text(store, who, home);
    Answer::Done
}

/// A partition gives texts back.
pub(crate) fn give_texts_back<S: Lookups>(store: &mut S, who: Part, homes: u16) -> Answer
    ensures { Does who (Access.Drop homes) (S.state store.old) (S.state store.new) result }
{
    give_back(store, who, homes);
    Answer::Done
}

/// What an edit of its text comes to beside that: the partition gives texts back, and a name up, unless the edit is refused.
fn give_after<S: Lookups>(
    store: &mut S,
    who: Part,
    homes: u16,
    name: Option<Name8>,
    answer: &Answer,
)
    ensures { S.state store.new ≡ given_unless_refused who homes name answer.now (S.state store.old) }
{
    if !answer.stops() {
        give_up(store, who, name);
        give_back(store, who, homes);
    }
}

/// Puts a line into the text of a partition.
#[tactic(auto, using(crate::proofs::Same::same_text))]
fn put_own_line<S: Lookups>(
    store: &mut S,
    who: Part,
    line: u16,
    atoms: &Atoms,
) -> Result<Answer, NoMemory>
    requires { line ≤ 9999 }
    ensures { IfOk result (Does who (Access.PutLine line (Some atoms.now) 0) (S.state store.old) (S.state store.new)) }
{
    let Some(text) = store.text_mut(who) else {
        return Ok(Answer::Done);
    };
    Ok(made_answer(text.put(line, atoms)))
}

/// The same, and the partition gives texts back.
pub(crate) fn put_line<S: Lookups>(
    store: &mut S,
    who: Part,
    line: u16,
    atoms: &Atoms,
    homes: u16,
) -> Result<Answer, NoMemory>
    requires { line ≤ 9999 }
    ensures { IfOk result (Does who (Access.PutLine line (Some atoms.now) homes) (S.state store.old) (S.state store.new)) }
{
    let answer = put_own_line(store, who, line, atoms)?;
    give_after(store, who, homes, None, &answer);
    Ok(answer)
}

/// Takes lines out of the text of a partition.
fn erase_own<S: Lookups>(store: &mut S, who: Part, from: u16, to: u16)
    ensures { Does who (Access.Erase from to 0) (S.state store.old) (S.state store.new) Answer.Done }
{
    if let Some(text) = store.text_mut(who) {
        text.delete(from, to);
    }
}

/// The same, and the partition gives texts back.
pub(crate) fn erase<S: Lookups>(store: &mut S, who: Part, from: u16, to: u16, homes: u16) -> Answer
    ensures { Does who (Access.Erase from to homes) (S.state store.old) (S.state store.new) result }
{
    erase_own(store, who, from, to);
    give_back(store, who, homes);
    Answer::Done
}

/// Takes all lines of the text of a partition away, and says whether it has one.
fn clear_text<S: Lookups>(store: &mut S, who: Part) -> bool
    ensures listed { result ≡ is_some (content (S.state store.old) (Object.Text who)) }
    ensures cleared { S.state store.new ≡ text_cleared who (S.state store.old) }
{
    match store.text_mut(who) {
        Some(text) => {
            text.clear();
            true
        }
        None => false,
    }
}

/// Takes all lines and all `@` variables of a partition away.
#[tactic(auto, using(crate::proofs::Giving::own_cleared, crate::proofs::Giving::own_unlisted))]
fn clear_own<S: Lookups>(store: &mut S, who: Part)
    ensures { Does who (Access.ClearAll None 0) (S.state store.old) (S.state store.new) Answer.Done }
{
    if clear_text(store, who) {
        store.clear_globals(who);
    }
}

/// The same, and the partition gives texts back, and a name up that it holds, where one is given.
pub(crate) fn clear_all<S: Lookups>(
    store: &mut S,
    who: Part,
    name: Option<Name8>,
    homes: u16,
) -> Answer
    ensures { Does who (Access.ClearAll name homes) (S.state store.old) (S.state store.new) result }
{
    clear_own(store, who);
    give_up(store, who, name);
    give_back(store, who, homes);
    Answer::Done
}

/// Loads the lines of a program into the text of a partition, which gives texts back, and a name up that it has declared, where one is
/// given.
pub(crate) fn load_program<S: Lookups>(
    store: &mut S,
    who: Part,
    addr: Addr,
    name: Name8,
    replace: bool,
    declared: Option<Name8>,
    homes: u16,
) -> Result<Answer, NoMemory>
    ensures { IfOk result (Does who (Access.LoadProgram addr name replace declared homes) (S.state store.old) (S.state store.new)) }
{
    let answer = store.load_own(who, addr, name, replace)?;
    give_after(store, who, homes, declared, &answer);
    Ok(answer)
}
