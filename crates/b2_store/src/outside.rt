// What the outside does to a store of any make, and what it sees of one.
ghost use Rattle.std.specs.Prelude.{◌≡◌, option_copied};
ghost use Rattle.b2_access.specs.Store.{content};
ghost use Rattle.b2_store.specs.Changes.{keyed_at, front_at, room_at};

use crate::lookups::Lookups;
use b2_access::Object;
use b2_base::{Addr, Part, Term};
use b2_term::KeyItem;

/// The bytes that a printer printed, None exactly where its address isn't listed.
pub fn printed_of<S: Lookups>(store: &S, a: Addr) -> Option<&[u8]>
    ensures { option_copied result ≡ content (S.state store.now) (Object.Printer a) }
{
    match store.printer_at(a) {
        Some(printer) => Some(printer.printed()),
        None => None,
    }
}

/// Queues a key at a terminal. It answers whether there was room, None exactly where the terminal isn't listed.
pub fn queue_key<S: Lookups>(store: &mut S, t: Term, k: KeyItem) -> Option<bool>
    ensures room { result ≡ room_at (content (S.state store.old) (Object.Terminal t)) }
    ensures queued { S.state store.new ≡ keyed_at t k (S.state store.old) }
{
    match store.terminal_mut(t) {
        Some(terminal) => Some(terminal.key(k)),
        None => None,
    }
}

/// Puts a partition in front of a terminal, where it is listed.
pub fn put_in_front<S: Lookups>(store: &mut S, t: Term, p: Part)
    ensures { S.state store.new ≡ front_at t p (S.state store.old) }
{
    if let Some(terminal) = store.terminal_mut(t) {
        terminal.set_front(p);
    }
}
