// The listing of a catalogue.
ghost use Rattle.std.specs.Prelude.{◌≡◌, ◌*◌, ◌<◌, ◌≤◌, ◌++◌, true, OnOk, decimal};
ghost use Rattle.b2_platter.specs.Slot.{is_entry, is_live, is_program};
ghost use Rattle.b2_platter.specs.Image.{row, index_of};
ghost use Rattle.b2_catalog.specs.Listing.{head_line, file_line, slot_line, listing_of, marks_of, spaced};

use crate::limits;
use b2_base::NoMemory;
use b2_platter::{Platter, checks, image, slot};
use itoa::Buffer;

fn push_number(into: &mut Vec<u8>, n: u32) -> Result<(), NoMemory>
    ensures { OnOk result (into.new.items ≡ into.old.items ++ decimal n) }
{
    let mut buffer = Buffer::new();
    into.extend_from_slice(buffer.format(n).as_bytes())?;
    Ok(())
}

fn push_spaced(into: &mut Vec<u8>, n: u32) -> Result<(), NoMemory>
    ensures { OnOk result (into.new.items ≡ into.old.items ++ spaced n) }
{
    into.extend_from_slice(b" ")?;
    push_number(into, n)
}

/// The line of the head.
#[tactic(auto, unfolding(crate::specs::Listing::head_line))]
fn push_head(p: &Platter, into: &mut Vec<u8>) -> Result<(), NoMemory>
    ensures { OnOk result (into.new.items ≡ into.old.items ++ head_line p.now) }
{
    let (index, end, next) = limits(p);
    into.extend_from_slice(b"INDEX ")?;
    push_number(into, index)?;
    into.extend_from_slice(b" END ")?;
    push_number(into, end)?;
    into.extend_from_slice(b" NEXT ")?;
    push_number(into, next)?;
    into.extend_from_slice(b"\n")?;
    Ok(())
}

/// A space, the kind of the file, and whether it is scratched.
fn marks_of(slot: &[u8; 16]) -> &'static [u8]
    ensures { result.now ≡ marks_of (is_program slot.now) (is_live slot.now) }
{
    match (slot::is_program(slot), slot::is_live(slot)) {
        (true, true) => b" P",
        (true, false) => b" PS",
        (false, true) => b" D",
        (false, false) => b" DS",
    }
}

/// The line of a file.
#[tactic(auto, unfolding(crate::specs::Listing::file_line))]
fn push_file(p: &Platter, k: usize, into: &mut Vec<u8>) -> Result<(), NoMemory>
    requires low { 1 ≤ k }
    requires high { k < 16 * index_of p.now }
    requires entry { is_entry (row p.now k) ≡ true }
    ensures { OnOk result (into.new.items ≡ into.old.items ++ file_line p.now k) }
{
    let layout = p.layout();
    let slot = image::row(p.image(), k);
    let end = slot::last_sector(layout, slot);
    let used = checks::used(layout, p.sector(end));
    into.extend_from_slice(slot::name(slot))?;
    into.extend_from_slice(marks_of(slot))?;
    push_spaced(into, slot::first_sector(layout, slot))?;
    push_spaced(into, end)?;
    push_spaced(into, used)?;
    into.extend_from_slice(b"\n")?;
    Ok(())
}

/// The line of a slot, where it is a file's.
fn push_slot(p: &Platter, k: usize, into: &mut Vec<u8>) -> Result<(), NoMemory>
    requires low { 1 ≤ k }
    requires high { k < 16 * index_of p.now }
    ensures { OnOk result (into.new.items ≡ into.old.items ++ slot_line p.now k) }
{
    if slot::is_entry(image::row(p.image(), k)) {
        return push_file(p, k, into);
    }
    Ok(())
}

/// Appends the listing: a line `INDEX i END e NEXT n`, and then in the order of the slots a line for each file: its name
/// in eight bytes, P or D, S where it is scratched, and its first, its last and its used sectors.
pub fn listing(p: &Platter, into: &mut Vec<u8>) -> Result<(), NoMemory>
    ensures { OnOk result (into.new.items ≡ into.old.items ++ listing_of p.now) }
{
    push_head(p, into)?;
    for k in 1..16 * image::index(p.image()) {
        push_slot(p, k, into)?;
    }
    Ok(())
}
