// Who holds which name of global text.
ghost use Rattle.std.specs.Prelude.{◌≡◌, [], OnOk};
ghost use Rattle.b2_access.specs.AccessRows.{is_held_by, is_held_by_other};
ghost use Rattle.b2_access.specs.Rows.{name_row, with_name_row};
ghost use Rattle.b2_access.specs.Store.{content};
ghost use Rattle.b2_store.specs.Names.{freed_rows, named, without_name, without_one};

use crate::lookups::Lookups;
use crate::rows::Rows;
use b2_access::Object;
use b2_base::{Name8, NoMemory, Part};
use std::alloc::Global;
use std::marker::Model;

/// Who holds each name that was ever declared, in rows by the names. Contracts see the list of the rows.
#[derive(Drop)]
pub struct Names {
    rows: Rows<Name8, Option<Part>>,
}

impl Model for Names {
    ghost use Rattle.b2_access.specs.Rows.{NameRows};

    ghost Value = { NameRows };

    ghost view = { λ n. n.rows };
}

impl Names {
    /// No name is held. It takes no memory.
    pub fn new(alloc: Global) -> Names
        ensures { result ≡ [] }
    {
        Names {
            rows: Rows::new(alloc),
        }
    }

    /// The partition that holds a name, None where nobody does.
    pub fn holder(&self, name: Name8) -> Option<Part>
        ensures { result ≡ name_row name self.now }
    {
        match self.rows.get(name) {
            Some(holder) => *holder,
            None => None,
        }
    }

    /// A name has another holder.
    pub fn set_holder(&mut self, name: Name8, holder: Option<Part>) -> Result<(), NoMemory>
        ensures { OnOk result (self.new ≡ with_name_row name self.old holder) }
    {
        if let Some(row) = self.rows.get_mut(name) {
            *row = holder;
            return Ok(());
        }
        self.rows.add(name, holder)
    }

    /// Nobody holds a name any more, where one did.
    pub fn free(&mut self, name: Name8)
        ensures { self.new ≡ freed_rows name self.old }
    {
        if let Some(row) = self.rows.get_mut(name) {
            *row = None;
        }
    }
}

/// Whether another partition holds a name.
pub fn is_held_by_other<S: Lookups>(store: &S, who: Part, name: Name8) -> bool
    ensures { result ≡ is_held_by_other who (content (S.state store.now) (Object.Name name)) }
{
    match store.name_holder(name) {
        Some(p) => p != who,
        None => false,
    }
}

/// Whether a partition holds a name.
fn is_held_by<S: Lookups>(store: &S, who: Part, name: Name8) -> bool
    ensures { result ≡ is_held_by who (content (S.state store.now) (Object.Name name)) }
{
    match store.name_holder(name) {
        Some(p) => p == who,
        None => false,
    }
}

/// A partition gives up a name that it holds; where it doesn't, all stays.
fn give_up_one<S: Lookups>(store: &mut S, who: Part, name: Name8)
    ensures { S.state store.new ≡ without_one who name (S.state store.old) }
{
    if is_held_by(store, who, name) {
        store.free_name(name);
    }
}

/// A partition gives up a name, where one is given and it holds it. It takes no memory.
pub fn give_up<S: Lookups>(store: &mut S, who: Part, name: Option<Name8>)
    ensures { S.state store.new ≡ without_name who name (S.state store.old) }
{
    if let Some(name) = name {
        give_up_one(store, who, name);
    }
}

/// A partition holds a name, and gives up another one that it holds, where one is given.
pub fn take_name<S: Lookups>(
    store: &mut S,
    who: Part,
    name: Name8,
    old: Option<Name8>,
) -> Result<(), NoMemory>
    ensures { OnOk result (S.state store.new ≡ named who name old (S.state store.old)) }
{
    give_up(store, who, old);
    store.set_name(name, Some(who))
}
