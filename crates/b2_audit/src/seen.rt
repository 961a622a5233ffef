// The marks that partitions leave.
ghost use Rattle.std.specs.Prelude.{◌≡◌, ◌<◌, None, OnOk, IfErr, IfSome, position};
ghost use Rattle.b2_audit.specs.Marks.{unmarked, is_clean, is_same, object_index, set_among, with_one_among, writers_of, touch, write};

use crate::part_set::PartSet;
use b2_access::Object;
use b2_base::{NoMemory, Part};
use std::alloc::Global;
use std::marker::Model;

/// Texts, who stands inside each and `@` variables of sixteen partitions, and twelve terminals.
const INDEXED: usize = 60;

/// The marks that partitions leave where they touch and write: who wrote each object, and which partitions are clean. A partition is
/// clean until it touches an object that another one wrote before.
#[derive(Drop)]
pub struct Seen {
    // Those who wrote each object that has an index.
    indexed: [PartSet; INDEXED],
    // Those who wrote each other object, once one did.
    others: Vec<(Object, PartSet)>,
    clean: PartSet,
}

impl Model for Seen {
    ghost use Rattle.b2_audit.specs.Marks.{Marks};

    ghost Value = { Marks };

    ghost view = { λ s. record { writers = record { indexed = s.indexed; others = s.others.items }; clean = s.clean } };
}

/// The index of an object, None for a name or a device.
fn object_index(object: &Object) -> Option<usize>
    ensures value { result ≡ object_index object.now }
    ensures below { IfSome result (λ index. index < 60) }
{
    match object {
        Object::Text(p) => Some(usize::from(p.number() - 1)),
        Object::Borrow(p) => Some(16 + usize::from(p.number() - 1)),
        Object::Globals(p) => Some(32 + usize::from(p.number() - 1)),
        Object::Terminal(t) => Some(48 + usize::from(t.number() - 1)),
        Object::Name(_) | Object::Printer(_) | Object::Platter(_) | Object::Hog(_) => None,
    }
}

/// Whether two objects without indices are the same.
fn is_same(a: &Object, b: &Object) -> bool
    ensures { result ≡ is_same a.now b.now }
{
    match a {
        Object::Name(n) => match b {
            Object::Name(m) => n == m,
            _ => false,
        },
        Object::Printer(n) => match b {
            Object::Printer(m) => n == m,
            _ => false,
        },
        Object::Platter(n) => match b {
            Object::Platter(m) => n == m,
            _ => false,
        },
        Object::Hog(n) => match b {
            Object::Hog(m) => n == m,
            _ => false,
        },
        _ => false,
    }
}

/// The index of an object among the others, None where nobody wrote it.
fn index_among(others: &[(Object, PartSet)], object: &Object) -> Option<usize>
    ensures { result ≡ position (λ e. is_same e.0 object.now) others.now }
{
    others.iter().position(|row| is_same(&row.0, object))
}

/// Who wrote an object without an index.
fn set_among(others: &[(Object, PartSet)], object: &Object) -> PartSet
    ensures { result ≡ set_among object.now others.now }
{
    for row in others {
        if is_same(&row.0, object) {
            return row.1;
        }
    }
    PartSet::none()
}

/// Adds a partition to those who wrote an object without an index.
fn add_among(others: &mut Vec<(Object, PartSet)>, who: Part, object: Object) -> Result<(), NoMemory>
    ensures { OnOk result (others.new.items ≡ with_one_among who object others.old.items) }
{
    match index_among(others, &object) {
        Some(index) => {
            let row = &mut others[index];
            row.1 = row.1.with(who);
        }
        None => others.push((object, PartSet::none().with(who)))?,
    }
    Ok(())
}

impl Seen {
    /// Nobody wrote anything, and each partition is clean. It takes no memory.
    pub fn new(alloc: Global) -> Seen
        ensures { result ≡ unmarked }
    {
        Seen {
            indexed: [PartSet::none(); INDEXED],
            others: Vec::new(alloc),
            clean: PartSet::all(),
        }
    }

    /// Whether a partition is clean.
    pub fn is_clean(&self, p: Part) -> bool
        ensures { result ≡ is_clean p self.now }
    {
        self.clean.has(p)
    }

    /// Who wrote an object.
    fn writers_of(&self, object: &Object) -> PartSet
        ensures { result ≡ writers_of object.now self.now }
    {
        match object_index(object) {
            Some(index) => self.indexed[index],
            None => set_among(&self.others, object),
        }
    }

    /// Marks that a partition touches an object.
    pub(crate) fn touch(&mut self, who: Part, object: Object)
        ensures { self.new ≡ touch who object self.old }
    {
        if self.writers_of(&object).has_other(who) {
            self.clean = self.clean.without(who);
        }
    }

    /// Marks that a partition touches a text, which has an index: its own, or that of another.
    pub(crate) fn touch_text(&mut self, who: Part, owner: Part)
        ensures { self.new ≡ touch who (Object.Text owner) self.old }
    {
        if self.indexed[usize::from(owner.number() - 1)].has_other(who) {
            self.clean = self.clean.without(who);
        }
    }

    /// Marks that a partition writes an object. Memory fails only for a name or a device.
    pub(crate) fn write(&mut self, who: Part, object: Object) -> Result<(), NoMemory>
        ensures written { OnOk result (self.new ≡ write who object self.old) }
        ensures memory { IfErr result (λ _. object_index object ≡ None) }
    {
        match object_index(&object) {
            Some(index) => {
                self.indexed[index] = self.indexed[index].with(who);
                Ok(())
            }
            None => add_among(&mut self.others, who, object),
        }
    }
}
