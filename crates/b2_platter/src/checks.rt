// The nine checks that make an image good.
ghost use Rattle.std.specs.Prelude.{◌≡◌, ◌+◌, ◌-◌, ◌*◌, ◌/◌, ◌^◌, ◌<◌, ◌≤◌, true, length};
ghost use Rattle.std.specs.List.{list_all, range_with_len};
ghost use Rattle.b2_platter.specs.Slot.{is_entry, slot_start, slot_end};
ghost use Rattle.b2_platter.specs.Image.{row, index_of, next_free, hash, has_free, cyclic_from, is_clear_to, first_slot};
ghost use Rattle.b2_platter.specs.Checks.{is_sized, has_head, is_ordered, lies_in, all_lie_in, all_spelled, differ_in_name, all_differ, is_reachable, all_reached, lie_apart, all_apart, is_control, is_controlled, all_controlled, used_of, first_check, own_check};

use crate::image::{self, SECTOR_BYTES};
use crate::layout::{MOST_SECTORS, layout_of};
use crate::{Layout, slot};

/// The first byte of a control sector.
pub const CONTROL: u8 = 0xA1;

/// 1: whole sectors, at most as many as any layout allows.
#[tactic(auto, unfolding(crate::specs::Checks::is_sized))]
fn is_sized(bytes: &[u8]) -> bool
    ensures { result ≡ is_sized bytes.now }
{
    let sectors = bytes.len() / SECTOR_BYTES;
    bytes.len() % SECTOR_BYTES == 0 && 16 <= sectors && sectors <= MOST_SECTORS
}

/// 2: version, at most its number of sectors, index and total, and 00 after the head's numbers.
#[tactic(auto, unfolding(crate::specs::Checks::has_head))]
fn has_head(layout: Layout, bytes: &[u8]) -> bool
    requires { 16 ≤ length bytes.now }
    ensures { result ≡ has_head layout bytes.now }
{
    let image_head = image::row(bytes, 0);
    image_head[0] == layout.version()
        && bytes.len() / SECTOR_BYTES <= layout.most_sectors()
        && 1 <= image::index(bytes)
        && image::total(layout, bytes) as usize == bytes.len() / SECTOR_BYTES
        && slot::all_zero(&image_head[2 + 3 * layout.width()..])
}

/// 3: index, files, catalogue and image end in this order.
#[tactic(auto, unfolding(crate::specs::Checks::is_ordered))]
fn is_ordered(layout: Layout, bytes: &[u8]) -> bool
    requires { 16 ≤ length bytes.now }
    ensures { result ≡ is_ordered layout bytes.now }
{
    let next = image::next_free(layout, bytes);
    let end = image::catalogue_end(layout, bytes);
    image::index(bytes) <= next as usize && next <= end && end <= image::total(layout, bytes)
}

/// A file lies between the index and the next free sector.
#[tactic(auto, unfolding(crate::specs::Checks::lies_in))]
fn lies_in(layout: Layout, index: usize, next: u32, slot: &[u8; 16]) -> bool
    ensures { result ≡ lies_in layout index next slot.now }
{
    if !slot::is_entry(slot) {
        return true;
    }
    let start = slot::first_sector(layout, slot);
    let end = slot::last_sector(layout, slot);
    index <= start as usize && start < end && end < next
}

/// 4: each file lies there.
fn all_lie_in(layout: Layout, bytes: &[u8]) -> bool
    requires some { 16 ≤ length bytes.now }
    requires room { 256 * index_of bytes.now ≤ length bytes.now }
    ensures { result ≡ all_lie_in layout bytes.now }
{
    let index = image::index(bytes);
    let next = image::next_free(layout, bytes);
    (1..16 * index).all(|k| lies_in(layout, index, next, image::row(bytes, k)))
}

/// 5: each slot is spelled as its status wants.
fn all_spelled(layout: Layout, bytes: &[u8]) -> bool
    requires some { 16 ≤ length bytes.now }
    requires room { 256 * index_of bytes.now ≤ length bytes.now }
    ensures { result ≡ all_spelled layout bytes.now }
{
    (1..16 * image::index(bytes)).all(|k| slot::is_spelled(layout, image::row(bytes, k)))
}

/// Two slots are not of two files with one name.
#[tactic(auto, unfolding(crate::specs::Checks::differ_in_name))]
fn differ_in_name(slot: &[u8; 16], other: &[u8; 16]) -> bool
    ensures { result ≡ differ_in_name slot.now other.now }
{
    !(slot::is_entry(slot) && slot::is_entry(other) && slot::name(slot) == slot::name(other))
}

/// A slot against all that follow it.
fn differs_from_later(bytes: &[u8], j: usize) -> bool
    requires some { 16 ≤ length bytes.now }
    requires room { 256 * index_of bytes.now ≤ length bytes.now }
    requires in_index { j < 16 * index_of bytes.now }
    ensures { result ≡ list_all (λ k. differ_in_name (row bytes.now j) (row bytes.now k)) (range_with_len (j + 1) (16 * index_of bytes.now - (j + 1))) }
{
    let slot = image::row(bytes, j);
    (j + 1..16 * image::index(bytes)).all(|k| differ_in_name(slot, image::row(bytes, k)))
}

/// 6: no two files have one name.
fn all_differ(bytes: &[u8]) -> bool
    requires some { 16 ≤ length bytes.now }
    requires room { 256 * index_of bytes.now ≤ length bytes.now }
    ensures { result ≡ all_differ bytes.now }
{
    for j in 1..16 * image::index(bytes) {
        if !differs_from_later(bytes, j) {
            return false;
        }
    }
    true
}

/// The first slot of an index sector: the head stands before those of sector 0.
pub fn first_slot(s: usize) -> usize
    requires { 16 * s < 2 ^ 64 }
    ensures value { result ≡ first_slot s }
    ensures in_sector { result ≤ 16 * s + 1 }
{
    if s == 0 { 1 } else { 16 * s }
}

/// Whether an index sector has a free slot.
#[tactic(auto, unfolding(crate::specs::Image::has_free))]
pub fn has_free(bytes: &[u8], s: usize) -> bool
    requires { 256 * s + 256 ≤ length bytes.now }
    ensures { result ≡ has_free bytes.now s }
{
    (first_slot(s)..16 * s + 16).any(|k| slot::is_free(image::row(bytes, k)))
}

/// Whether no sector before this one, from the first on, has a free slot.
fn is_clear_to(bytes: &[u8], own: usize, first: usize) -> bool
    requires within { first < index_of bytes.now }
    requires room { 256 * index_of bytes.now ≤ length bytes.now }
    ensures { result ≡ is_clear_to (has_free bytes.now) own (cyclic_from (index_of bytes.now) first) }
{
    let index = image::index(bytes);
    for j in 0..index {
        let s = (first + j) % index;
        if s == own {
            return true;
        }
        if has_free(bytes, s) {
            return false;
        }
    }
    true
}

/// The index sector at which the look-up of a name begins: the sum of its eight bytes, by the number of index sectors.
pub fn hash(index: usize, name: &[u8]) -> usize
    requires some { 1 ≤ index }
    requires len { length name.now ≡ 8 }
    ensures value { result ≡ hash index name.now }
    ensures within { result < index }
{
    let mut sum = 0;
    for b in name {
        sum += usize::from(*b);
    }
    sum % index
}

/// The file of a slot is found from its hash on.
#[tactic(auto, unfolding(crate::specs::Checks::is_reachable))]
fn is_reachable(bytes: &[u8], k: usize) -> bool
    requires some { 1 ≤ index_of bytes.now }
    requires room { 256 * index_of bytes.now ≤ length bytes.now }
    requires in_index { k < 16 * index_of bytes.now }
    ensures { result ≡ is_reachable bytes.now k }
{
    let slot = image::row(bytes, k);
    !slot::is_entry(slot) || is_clear_to(bytes, k / 16, hash(image::index(bytes), slot::name(slot)))
}

/// 7: each file is found so.
fn all_reached(bytes: &[u8]) -> bool
    requires some { 1 ≤ index_of bytes.now }
    requires room { 256 * index_of bytes.now ≤ length bytes.now }
    ensures { result ≡ all_reached bytes.now }
{
    (1..16 * image::index(bytes)).all(|k| is_reachable(bytes, k))
}

/// Two slots are not of two files that share a sector.
#[tactic(auto, unfolding(crate::specs::Checks::lie_apart))]
fn lie_apart(layout: Layout, slot: &[u8; 16], other: &[u8; 16]) -> bool
    ensures { result ≡ lie_apart layout slot.now other.now }
{
    !(slot::is_entry(slot)
        && slot::is_entry(other)
        && slot::first_sector(layout, slot) <= slot::last_sector(layout, other)
        && slot::first_sector(layout, other) <= slot::last_sector(layout, slot))
}

/// A slot against all that follow it.
fn lies_apart_from_later(layout: Layout, bytes: &[u8], j: usize) -> bool
    requires some { 16 ≤ length bytes.now }
    requires room { 256 * index_of bytes.now ≤ length bytes.now }
    requires in_index { j < 16 * index_of bytes.now }
    ensures { result ≡ list_all (λ k. lie_apart layout (row bytes.now j) (row bytes.now k)) (range_with_len (j + 1) (16 * index_of bytes.now - (j + 1))) }
{
    let slot = image::row(bytes, j);
    (j + 1..16 * image::index(bytes)).all(|k| lie_apart(layout, slot, image::row(bytes, k)))
}

/// 8: no two files share a sector.
fn all_apart(layout: Layout, bytes: &[u8]) -> bool
    requires some { 16 ≤ length bytes.now }
    requires room { 256 * index_of bytes.now ≤ length bytes.now }
    ensures { result ≡ all_apart layout bytes.now }
{
    for j in 1..16 * image::index(bytes) {
        if !lies_apart_from_later(layout, bytes, j) {
            return false;
        }
    }
    true
}

/// How many sectors a control sector says are used.
#[tactic(auto, unfolding(crate::specs::Checks::used_of))]
pub fn used(layout: Layout, control: &[u8; 256]) -> u32
    ensures { result ≡ used_of layout control.now }
{
    layout.number(control, 1)
}

/// Whether a control sector says that at least one and at most `most` sectors are used.
#[tactic(auto, unfolding(crate::specs::Checks::is_control))]
fn is_control(layout: Layout, most: u32, control: &[u8; 256]) -> bool
    ensures { result ≡ is_control layout most control.now }
{
    let used = used(layout, control);
    control[0] == CONTROL
        && 1 <= used
        && used <= most
        && slot::all_zero(&control[1 + layout.width()..])
}

/// The last sector of the slot's file is its control sector.
#[tactic(auto, unfolding(crate::specs::Checks::is_controlled))]
fn is_controlled(layout: Layout, bytes: &[u8], slot: &[u8; 16]) -> bool
    requires order { is_entry slot.now ≡ true → slot_start layout slot.now < slot_end layout slot.now }
    requires room { is_entry slot.now ≡ true → 256 * slot_end layout slot.now + 256 ≤ length bytes.now }
    ensures { result ≡ is_controlled layout bytes.now slot.now }
{
    if !slot::is_entry(slot) {
        return true;
    }
    let end = slot::last_sector(layout, slot);
    is_control(
        layout,
        end - slot::first_sector(layout, slot),
        image::sector(bytes, end as usize),
    )
}

/// 9: the last sector of each file is its control sector.
fn all_controlled(layout: Layout, bytes: &[u8]) -> bool
    requires some { 16 ≤ length bytes.now }
    requires room { 256 * index_of bytes.now ≤ length bytes.now }
    requires ends { 256 * next_free layout bytes.now ≤ length bytes.now }
    requires files { all_lie_in layout bytes.now ≡ true }
    ensures { result ≡ all_controlled layout bytes.now }
{
    for k in 1..16 * image::index(bytes) {
        if !is_controlled(layout, bytes, image::row(bytes, k)) {
            return false;
        }
    }
    true
}

/// The first of the nine checks that the bytes fail in a layout.
#[tactic(auto, unfolding(crate::specs::Checks::first_check), using(crate::proofs::Rooms::rooms))]
fn first_in(layout: Layout, bytes: &[u8]) -> Option<u8>
    ensures { result ≡ first_check layout bytes.now }
{
    if !is_sized(bytes) {
        return Some(1);
    }
    if !has_head(layout, bytes) {
        return Some(2);
    }
    if !is_ordered(layout, bytes) {
        return Some(3);
    }
    if !all_lie_in(layout, bytes) {
        return Some(4);
    }
    if !all_spelled(layout, bytes) {
        return Some(5);
    }
    if !all_differ(bytes) {
        return Some(6);
    }
    if !all_reached(bytes) {
        return Some(7);
    }
    if !all_apart(layout, bytes) {
        return Some(8);
    }
    if !all_controlled(layout, bytes) {
        return Some(9);
    }
    None
}

/// The first of the nine checks that the bytes fail, None where they are a good image. Their first byte tells the layout.
pub fn first_check(bytes: &[u8]) -> Option<u8>
    ensures { result ≡ own_check bytes.now }
{
    first_in(layout_of(bytes), bytes)
}
