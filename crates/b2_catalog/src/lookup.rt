// How a name is looked up: from its hash on, all slots of an index sector, up to the name or a sector with a free slot.
ghost use Rattle.std.specs.Prelude.{◌≡◌, ◌+◌, ◌*◌, ◌<◌, ◌≤◌, IfSome, length};
ghost use Rattle.std.specs.FinMap.{get};
ghost use Rattle.b2_platter.specs.Image.{row, index_of, has_free};
ghost use Rattle.b2_catalog.specs.Catalogue.{catalogue, entry_at};
ghost use Rattle.b2_catalog.specs.Ways.{has_name, slot_in, way_of, way, found_along, slot_found, IsSlotOf};

use crate::Entry;
use b2_base::{Name8, Steps};
use b2_platter::{Platter, checks, image, slot};
use std::marker::Brand;
use std::sync::ledger::{Blank, Ledger};

/// Whether a slot is that of the file with a name.
#[tactic(auto, unfolding(crate::specs::Ways::has_name))]
fn has_name(name: &[u8], slot: &[u8; 16]) -> bool
    ensures { result ≡ has_name name.now slot.now }
{
    slot::is_entry(slot) && slot::name(slot) == name
}

/// The slot of an index sector that has the name.
fn slot_in(bytes: &[u8], name: &[u8], s: usize) -> Option<usize>
    requires { 256 * s + 256 ≤ length bytes.now }
    ensures { result ≡ slot_in bytes.now name.now s }
{
    for k in checks::first_slot(s)..16 * s + 16 {
        if has_name(name, image::row(bytes, k)) {
            return Some(k);
        }
    }
    None
}

/// The slot that a look-up finds, with a tick for each index sector that it reads.
fn slot_found<L: Ledger>(bytes: &[u8], name: &[u8], steps: &mut Steps<L>) -> Option<usize>
    requires some { 1 ≤ index_of bytes.now }
    requires room { 256 * index_of bytes.now ≤ length bytes.now }
    requires len { length name.now ≡ 8 }
    ensures found { result ≡ found_along (slot_in bytes.now name.now) (has_free bytes.now) (way_of bytes.now name.now) }
    ensures ticks { steps.new ≡ steps.old + way bytes.now name.now }
{
    let index = image::index(bytes);
    let first = checks::hash(index, name);
    for j in 0..index {
        let s = (first + j) % index;
        steps.tick();
        let here = slot_in(bytes, name, s);
        if here.is_some() {
            return here;
        }
        if checks::has_free(bytes, s) {
            return None;
        }
    }
    None
}

/// The entry of a slot that has the name.
#[tactic(auto, unfolding(crate::specs::Catalogue::entry_at))]
pub fn entry_at(p: &Platter, k: usize, name: Name8) -> Entry
    requires { IsSlotOf p.now name k }
    ensures value { result ≡ entry_at p.now k }
    ensures named { result.name ≡ name }
{
    let layout = p.layout();
    let slot = image::row(p.image(), k);
    let end = slot::last_sector(layout, slot);
    Entry {
        name,
        live: slot::is_live(slot),
        program: slot::is_program(slot),
        start: slot::first_sector(layout, slot),
        end,
        used: checks::used(layout, p.sector(end)),
    }
}

/// The slot of the file with the name, with a tick for each index sector that is read.
pub fn find_slot<L: Ledger>(p: &Platter, name: Name8, steps: &mut Steps<L>) -> Option<usize>
    ensures slot { result ≡ slot_found p.now name }
    ensures held { IfSome result (IsSlotOf p.now name) }
    ensures ticks { steps.new ≡ steps.old + way p.now name }
{
    slot_found(p.image(), &name.bytes(), steps)
}

/// The file with the name, None where the catalogue hasn't it. One step is counted for each index sector that is read.
pub fn find<L: Ledger>(p: &Platter, name: Name8, steps: &mut Steps<L>) -> Option<Entry>
    ensures entry { result ≡ get (catalogue p.now) name }
    ensures named { IfSome result (λ e. e.name ≡ name) }
    ensures ticks { steps.new ≡ steps.old + way p.now name }
{
    let k = find_slot(p, name, steps)?;
    Some(entry_at(p, k, name))
}

/// The slot of the file with the name, where nobody counts the steps.
fn uncounted<L: Ledger>(p: &Platter, name: Name8, blank: Blank) -> Option<usize>
    requires name { blank.name ≡ L.name }
    requires parts { blank.parts ≡ L.parts }
    requires some { 0 < L.parts }
    ensures slot { result ≡ slot_found p.now name }
    ensures held { IfSome result (IsSlotOf p.now name) }
{
    find_slot(p, name, &mut Steps::<L>::new(blank))
}

/// The slot of the file with the name.
pub fn look_slot(p: &Platter, name: Name8) -> Option<usize>
    ensures slot { result ≡ slot_found p.now name }
    ensures held { IfSome result (IsSlotOf p.now name) }
{
    uncounted::<Brand>(p, name, Blank::new(1))
}

/// The file with the name, None where the catalogue hasn't it.
pub fn look(p: &Platter, name: Name8) -> Option<Entry>
    ensures entry { result ≡ get (catalogue p.now) name }
    ensures named { IfSome result (λ e. e.name ≡ name) }
{
    let k = look_slot(p, name)?;
    Some(entry_at(p, k, name))
}
