// Slots and control sectors as they are written.
ghost use Rattle.std.specs.Prelude.{◌≡◌, ◌+◌, ◌*◌, ◌<◌, true, length};
ghost use Rattle.b2_base.specs.Names.{is_name8};
ghost use Rattle.b2_platter.specs.Layout.{number_limit};
ghost use Rattle.b2_catalog.specs.Changes.{put_row, kind_of, file_slot, scratched_slot, gone_slot, control_sector};

use b2_base::Name8;
use b2_platter::{Layout, checks, edits, slot};

/// The kind of a program, or of data.
fn kind(program: bool) -> u8
    ensures { result ≡ kind_of program }
{
    if program { slot::PROGRAM } else { slot::DATA }
}

/// The slot of a live file, in a layout.
pub fn file_slot(layout: Layout, program: bool, start: u32, end: u32, name: Name8) -> [u8; 16]
    requires start_fits { start < number_limit layout }
    requires end_fits { end < number_limit layout }
    ensures value { result ≡ file_slot layout program start end name }
    ensures legal { is_name8 name ≡ true }
    ensures len { length name ≡ 8 }
{
    let mut bytes = [0; 16];
    bytes[0] = slot::LIVE;
    bytes[1] = kind(program);
    edits::put_sector_number(layout, &mut bytes, 2, start);
    edits::put_sector_number(layout, &mut bytes, layout.second_place(), end);
    bytes[8..].copy_from_slice(&name.bytes());
    bytes
}

/// The slot of a file that is scratched.
#[tactic(auto, unfolding(crate::specs::Changes::scratched_slot))]
pub fn scratched_slot(slot: &[u8; 16]) -> [u8; 16]
    ensures { result ≡ scratched_slot slot.now }
{
    let mut bytes = *slot;
    bytes[0] = slot::SCRATCHED;
    bytes
}

/// The slot of a file that took another name.
#[tactic(auto, unfolding(crate::specs::Changes::gone_slot))]
pub fn gone_slot() -> [u8; 16]
    ensures { result ≡ gone_slot }
{
    let mut bytes = [0; 16];
    bytes[0] = slot::GONE;
    bytes
}

/// A control sector that says how many sectors are used.
pub fn control_sector(layout: Layout, used: u32) -> [u8; 256]
    requires { used < number_limit layout }
    ensures { result ≡ control_sector layout used }
{
    let mut bytes = [0; 256];
    bytes[0] = checks::CONTROL;
    edits::put_sector_number(layout, &mut bytes, 1, used);
    bytes
}

/// A sector with a row of sixteen bytes in place.
#[tactic(auto, unfolding(crate::specs::Changes::put_row))]
pub fn with_row(sector: &[u8; 256], k: usize, row: &[u8; 16]) -> [u8; 256]
    requires { k < 16 }
    ensures { result ≡ put_row sector.now k row.now }
{
    let mut bytes = *sector;
    bytes[16 * k..16 * k + 16].copy_from_slice(row);
    bytes
}
