// What terminals are asked.
ghost use Rattle.std.specs.Prelude.{◌≡◌, ℕ, IfOk};
ghost use Rattle.b2_access.specs.AccessRows.{line_answer, key_answer};
ghost use Rattle.b2_store.specs.Doing.{Does};

use crate::lookups::Lookups;
use b2_access::{Access, Answer};
use b2_base::{NoMemory, Term};
use b2_term::{KeyItem, Read};

/// The answer to the reading of a line.
fn line_answer(read: Read) -> Answer
    ensures { result ≡ line_answer read }
{
    match read {
        Read::Line(line) => Answer::Line(line),
        Read::Special(n) => Answer::Special(n),
        Read::NoKeys => Answer::NoKeys,
    }
}

/// The answer to the reading of a key.
fn key_answer(key: Option<KeyItem>) -> Answer
    ensures { result ≡ key_answer key }
{
    match key {
        Some(KeyItem::Byte(b)) => Answer::Key(b),
        Some(KeyItem::Special(n)) => Answer::Special(n),
        None => Answer::NoKeys,
    }
}

/// Shows bytes at a terminal.
pub(crate) fn show<S: Lookups>(store: &mut S, term: Term, bytes: &[u8]) -> Result<Answer, NoMemory>
    ensures { (who column : ℕ) → IfOk result (Does who (Access.Show term bytes.now column) (S.state store.old) (S.state store.new)) }
{
    if let Some(terminal) = store.terminal_mut(term) {
        terminal.show(bytes)?;
    }
    Ok(Answer::Done)
}

/// Reads a line from a terminal.
pub(crate) fn read_line<S: Lookups>(store: &mut S, term: Term) -> Result<Answer, NoMemory>
    ensures { (who : ℕ) → IfOk result (Does who (Access.ReadLine term) (S.state store.old) (S.state store.new)) }
{
    let Some(terminal) = store.terminal_mut(term) else {
        return Ok(Answer::NoKeys);
    };
    let read = terminal.read_line()?;
    Ok(line_answer(read))
}

/// Types bytes into the line at a terminal.
pub(crate) fn insert<S: Lookups>(
    store: &mut S,
    term: Term,
    bytes: &[u8],
) -> Result<Answer, NoMemory>
    ensures { (who : ℕ) → IfOk result (Does who (Access.Insert term bytes.now) (S.state store.old) (S.state store.new)) }
{
    if let Some(terminal) = store.terminal_mut(term) {
        terminal.insert(bytes)?;
    }
    Ok(Answer::Done)
}

/// Takes a key from a terminal.
pub(crate) fn take_key<S: Lookups>(store: &mut S, term: Term) -> Answer
    ensures { (who : ℕ) → Does who (Access.Key term) (S.state store.old) (S.state store.new) result }
{
    match store.terminal_mut(term) {
        Some(terminal) => key_answer(terminal.one_key()),
        None => Answer::NoKeys,
    }
}

/// Hands a terminal on.
pub(crate) fn release<S: Lookups>(store: &mut S, term: Term) -> Answer
    ensures { (who : ℕ) → Does who (Access.Release term) (S.state store.old) (S.state store.new) result }
{
    if let Some(terminal) = store.terminal_mut(term) {
        terminal.release();
    }
    Answer::Done
}
