// What stops an access: who comes first at what it reaches, and who stands inside a text that it edits.
ghost use Rattle.std.specs.Prelude.{◌≡◌, [], ◌∷◌};
ghost use Rattle.b2_access.specs.AccessRows.{reach};
ghost use Rattle.b2_access.specs.Reach.{to_take};
ghost use Rattle.b2_access.specs.Stopping as stopping;
ghost use Rattle.b2_access.specs.Store.{content};

use crate::borrows::first_inside;
use crate::lookups::Lookups;
use b2_access::{Access, Answer, Devices, Object, TextUse, devices_reached, reached_by};
use b2_base::{Addr, Part, Term};

/// A partition, where it is another.
fn other(who: Part, p: Part) -> Option<Part>
    ensures { result ≡ stopping.first_other who (p ∷ []) }
{
    if p == who { None } else { Some(p) }
}

/// What stops an access, by who comes first and who stands inside the text.
fn stop_by(first: Option<Part>, inside: Option<Part>) -> Option<Answer>
    ensures { result ≡ stopping.stop_by first inside }
{
    match first {
        Some(q) => Some(Answer::Wait(q)),
        None => match inside {
            Some(q) => Some(Answer::Locked(q)),
            None => None,
        },
    }
}

/// The partition in front of a terminal, where it is another.
fn other_in_front<S: Lookups>(store: &S, who: Part, term: Option<Term>) -> Option<Part>
    ensures { result ≡ stopping.first_other who (stopping.at_front term (S.state store.now)) }
{
    match store.terminal_at(term?) {
        Some(terminal) => other(who, terminal.front()),
        None => None,
    }
}

/// The partition that holds a device, where it is another.
fn other_holder<S: Lookups>(store: &S, who: Part, device: Addr) -> Option<Part>
    ensures { result ≡ stopping.first_other who (stopping.holding (content (S.state store.now) (Object.Hog device))) }
{
    match store.hog(device) {
        Some(Some(holder)) => other(who, holder),
        _ => None,
    }
}

/// The first of those who hold devices that are to be taken, where it is another.
#[tactic(auto, using(crate::proofs::Firsts::first_of_both))]
fn other_among<S: Lookups>(store: &S, who: Part, devices: &[Addr]) -> Option<Part>
    ensures { result ≡ stopping.first_other who (stopping.holders (to_take devices.now).devices (S.state store.now)) }
{
    for device in devices {
        if let Some(q) = other_holder(store, who, *device) {
            return Some(q);
        }
    }
    None
}

/// The first of those who hold the devices that an access reaches, where it is another; nobody comes before one who frees some.
#[tactic(auto, using(crate::proofs::Firsts::first_of_one, crate::proofs::Firsts::first_of_two, crate::proofs::Firsts::first_of_freed))]
fn other_holding<S: Lookups>(store: &S, who: Part, access: &Access) -> Option<Part>
    ensures { result ≡ stopping.first_other who (stopping.holders (reach access.now).devices (S.state store.now)) }
{
    match devices_reached(access) {
        Devices::NoDevice | Devices::Freed(_) => None,
        Devices::Disk(a) | Devices::Printer(a) => other_holder(store, who, a),
        Devices::TwoDisks(from, to) => match other_holder(store, who, from) {
            Some(q) => Some(q),
            None => other_holder(store, who, to),
        },
        Devices::Taken(addresses) => other_among(store, who, addresses),
    }
}

/// The first that stands inside the text of a partition, where it is edited.
fn inside_edited<S: Lookups>(store: &S, who: Part, text: TextUse) -> Option<Part>
    ensures { result ≡ stopping.inside_edited who text (S.state store.now) }
{
    match text {
        TextUse::Unused | TextUse::Read => None,
        TextUse::Edited => first_inside(store, who),
    }
}

/// What stops an access: the first partition that is another, of those who come first at what it reaches, the one in front of the
/// terminal and then those who hold the devices; or one that stands inside the text. It is tested here alone, before anything is done.
#[tactic(auto, using(crate::proofs::Firsts::first_of_both))]
pub(crate) fn stop<S: Lookups>(store: &S, who: Part, access: &Access) -> Option<Answer>
    ensures { result ≡ stopping.stop who (reach access.now) (S.state store.now) }
{
    let reached = reached_by(access);
    let first = match other_in_front(store, who, reached.terminal) {
        Some(q) => Some(q),
        None => other_holding(store, who, access),
    };
    stop_by(first, inside_edited(store, who, reached.text))
}
