// A slot of the index, sixteen bytes.
ghost use Rattle.std.specs.Prelude.{◌≡◌, length};
ghost use Rattle.std.specs.List.{list_all};
ghost use Rattle.b2_platter.specs.Layout.{is_zero};
ghost use Rattle.b2_platter.specs.Slot.{is_free, is_gone, is_live, is_entry, is_program, has_kind, slot_start, slot_end, slot_name, is_spelled};

use crate::Layout;
use b2_base::Name8;

/// How many bytes a slot has.
pub const SLOT_BYTES: usize = 16;

/// The status of a slot that was never used.
pub const FREE: u8 = 0x00;
/// The status of a live file.
pub const LIVE: u8 = 0x10;
/// The status of a scratched file.
pub const SCRATCHED: u8 = 0x11;
/// The status of a slot whose file took another name.
pub const GONE: u8 = 0x12;
/// The kind of a program.
pub const PROGRAM: u8 = 0x50;
/// The kind of a data file.
pub const DATA: u8 = 0x44;

/// Whether the slot was never used.
#[tactic(auto, unfolding(crate::specs::Slot::is_free))]
pub fn is_free(slot: &[u8; 16]) -> bool
    ensures { result ≡ is_free slot.now }
{
    slot[0] == FREE
}

#[tactic(auto, unfolding(crate::specs::Slot::is_gone))]
fn is_gone(slot: &[u8; 16]) -> bool
    ensures { result ≡ is_gone slot.now }
{
    slot[0] == GONE
}

/// Whether the slot is that of a live file.
#[tactic(auto, unfolding(crate::specs::Slot::is_live))]
pub fn is_live(slot: &[u8; 16]) -> bool
    ensures { result ≡ is_live slot.now }
{
    slot[0] == LIVE
}

/// Whether the slot is that of a file, live or scratched.
#[tactic(auto, unfolding(crate::specs::Slot::is_entry))]
pub fn is_entry(slot: &[u8; 16]) -> bool
    ensures { result ≡ is_entry slot.now }
{
    slot[0] == LIVE || slot[0] == SCRATCHED
}

/// Whether the slot's file is a program.
#[tactic(auto, unfolding(crate::specs::Slot::is_program))]
pub fn is_program(slot: &[u8; 16]) -> bool
    ensures { result ≡ is_program slot.now }
{
    slot[1] == PROGRAM
}

#[tactic(auto, unfolding(crate::specs::Slot::has_kind))]
fn has_kind(slot: &[u8; 16]) -> bool
    ensures { result ≡ has_kind slot.now }
{
    slot[1] == PROGRAM || slot[1] == DATA
}

/// The first sector of the slot's file.
#[tactic(auto, unfolding(crate::specs::Slot::slot_start))]
pub fn first_sector(layout: Layout, slot: &[u8; 16]) -> u32
    ensures { result ≡ slot_start layout slot.now }
{
    layout.number(slot, 2)
}

/// The last sector of the slot's file.
#[tactic(auto, unfolding(crate::specs::Slot::slot_end))]
pub fn last_sector(layout: Layout, slot: &[u8; 16]) -> u32
    ensures { result ≡ slot_end layout slot.now }
{
    layout.number(slot, 2 + layout.width())
}

/// The name of the slot's file.
#[tactic(auto, unfolding(crate::specs::Slot::slot_name))]
pub fn name(slot: &[u8; 16]) -> &[u8]
    ensures value { result.now ≡ slot_name slot.now }
    ensures len { length result.now ≡ 8 }
{
    &slot[8..]
}

/// Whether all bytes are 00.
pub fn all_zero(bytes: &[u8]) -> bool
    ensures { result ≡ list_all is_zero bytes.now }
{
    bytes.iter().all(|b| *b == 0)
}

/// Whether the slot is spelled as its status wants.
#[tactic(auto, unfolding(crate::specs::Slot::is_spelled))]
pub fn is_spelled(layout: Layout, slot: &[u8; 16]) -> bool
    ensures { result ≡ is_spelled layout slot.now }
{
    if is_entry(slot) {
        let gap = &slot[..8];
        return has_kind(slot)
            && all_zero(&gap[2 + 2 * layout.width()..])
            && Name8::of(name(slot)).is_some();
    }
    (is_free(slot) || is_gone(slot)) && all_zero(&slot[1..])
}
