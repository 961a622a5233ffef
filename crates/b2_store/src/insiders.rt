// Who stands inside a text.
ghost use Rattle.std.specs.Prelude.{◌≡◌, ◌∷◌, [], ◌++◌, OnOk, slice_get};
ghost use Rattle.b2_access.specs.Borrowers.{without, without_last};

use b2_base::{NoMemory, Part};
use std::marker::Model;

/// The partitions that stand inside a text, one of them perhaps more than once. Contracts see the list of their numbers.
#[derive(Drop)]
pub struct Insiders {
    parts: Vec<Part>,
}

impl Model for Insiders {
    ghost use Rattle.std.specs.Prelude.{ℕ, List};

    ghost Value = { List ℕ };

    ghost view = { λ l. l.parts.items };
}

/// Takes a partition out of some, at its last place.
fn take_last(parts: &mut Vec<Part>, p: Part)
    ensures { parts.new.items ≡ without_last p parts.old.items }
{
    for place in (0..parts.len()).rev() {
        if parts[place] == p {
            parts.remove(place);
            return;
        }
    }
}

/// Takes a partition out of some, at each of its places.
fn take_out_each(parts: &mut Vec<Part>, p: Part)
    ensures { parts.new.items ≡ without p parts.old.items }
{
    parts.retain(|x| *x != p);
}

impl Insiders {
    /// These partitions. It takes no memory.
    pub fn new(parts: Vec<Part>) -> Insiders
        ensures { result ≡ parts.items }
    {
        Insiders { parts }
    }

    /// The first of them, None where there is none.
    pub fn first(&self) -> Option<Part>
        ensures { result ≡ slice_get self.now 0 }
    {
        self.parts.first().copied()
    }

    /// Adds one after the others.
    pub fn push(&mut self, p: Part) -> Result<(), NoMemory>
        ensures { OnOk result (self.new ≡ self.old ++ p ∷ []) }
    {
        self.parts.push(p)?;
        Ok(())
    }

    /// Takes one out, at its last place.
    pub fn remove_last(&mut self, p: Part)
        ensures { self.new ≡ without_last p self.old }
    {
        take_last(&mut self.parts, p);
    }

    /// Takes one out, at each of its places.
    pub fn remove_all(&mut self, p: Part)
        ensures { self.new ≡ without p self.old }
    {
        take_out_each(&mut self.parts, p);
    }
}
