// The drive of a statement, and SELECT DISK.
ghost use Rattle.std.specs.Prelude.{◌≡◌, ◌==◌, true, drop};
ghost use Rattle.b2_base.specs.Byte as byte;
ghost use Rattle.b2_base.specs.Lexical.{first};
ghost use Rattle.b2_atom.specs.declared.forms.Leaf.TheVariants as leaf;
ghost use Rattle.b2_atom.specs.declared.rows.TheConstants as row;
ghost use Rattle.b2_rows.specs.Leaves.{is_leaf};
ghost use Rattle.b2_rows.specs.Rows.{after_phrase, is_phrase, tree_at};
ghost use Rattle.b2_drive.specs.Drives as spec;

use b2_access::{DeviceTable, Private};
use b2_base::codes::P48_DEVICE;
use b2_base::lexical::rest_after;
use b2_base::{Addr, Code, Part};
use b2_rows::{address_at, is_at};

/// What a drive goes by.
#[derive(Clone, Copy)]
pub struct Drives<'a> {
    /// The devices that there are.
    pub devices: &'a DeviceTable,
    /// The partition that asks.
    pub who: Part,
    /// The platter that it has selected, if one.
    pub selected: Option<Addr>,
}

/// What the drives of a partition go by.
pub fn drives_for<'a>(devices: &'a DeviceTable, me: &Private) -> Drives<'a>
    ensures { spec.drives_seen result ≡ spec.drives_of devices.now me.now }
{
    Drives {
        devices,
        who: me.part,
        selected: me.disk,
    }
}

/// The platter that is meant, where the partition may use it; else P48.
fn platter_used(d: &Drives<'_>, meant: Option<Addr>) -> Result<Addr, Code>
    ensures { result ≡ spec.platter_used (spec.drives_seen d.now) meant }
{
    match meant {
        Some(addr) => {
            if d.devices.platter(d.who, addr) {
                Ok(addr)
            } else {
                Err(Code::known(P48_DEVICE))
            }
        }
        None => Err(Code::known(P48_DEVICE)),
    }
}

/// The device that a drive names.
fn device_at(text: &[u8]) -> Option<Addr>
    requires address { (first (drop 1 text.now) == byte.slash) ≡ true → is_leaf leaf.Address (drop 1 (drop 1 text.now)) ≡ true }
    ensures { result ≡ spec.device_at text.now }
{
    let after = rest_after(text, 1);
    if is_at(b'/', after) {
        Some(address_at(rest_after(after, 1)))
    } else {
        None
    }
}

/// The platter that a drive means at a text, whatever stands after it: the one that it names, or the one that is selected.
pub fn used_at(d: &Drives<'_>, text: &[u8]) -> Result<Addr, Code>
    requires address { (first (drop 1 text.now) == byte.slash) ≡ true → is_leaf leaf.Address (drop 1 (drop 1 text.now)) ≡ true }
    ensures { result ≡ spec.platter_used (spec.drives_seen d.now) (spec.platter_meant (spec.device_at text.now) d.now.selected) }
{
    match device_at(text) {
        Some(addr) => platter_used(d, Some(addr)),
        None => platter_used(d, d.selected),
    }
}

/// The platter of a drive at the end of a statement.
#[tactic(auto, using(crate::proofs::DriveRows::last_address, crate::proofs::DriveRows::last_is))]
pub fn last_drive(d: &Drives<'_>, text: &[u8]) -> Result<Addr, Code>
    requires phrase { is_phrase row.DRIVE text.now ≡ true }
    ensures { result ≡ spec.drive_used (spec.drives_seen d.now) (tree_at row.DRIVE text.now) }
{
    used_at(d, text)
}

/// The platter of a drive with a comma after it.
#[tactic(auto, using(crate::proofs::DriveRows::drive_address, crate::proofs::DriveRows::drive_is))]
pub fn drive(d: &Drives<'_>, text: &[u8]) -> Result<Addr, Code>
    requires phrase { is_phrase row.DRIVE_COMMA text.now ≡ true }
    ensures { result ≡ spec.drive_used (spec.drives_seen d.now) (tree_at row.DRIVE_COMMA text.now) }
{
    used_at(d, text)
}

/// What stands after a drive and its comma.
#[tactic(auto, using(crate::proofs::DriveRows::after_named, crate::proofs::DriveRows::after_selected))]
pub fn past_drive(text: &[u8]) -> &[u8]
    requires phrase { is_phrase row.DRIVE_COMMA text.now ≡ true }
    ensures { result.now ≡ after_phrase row.DRIVE_COMMA text.now }
{
    let after = rest_after(text, 1);
    if is_at(b'/', after) {
        rest_after(rest_after(rest_after(after, 1), 3), 1)
    } else {
        rest_after(after, 1)
    }
}

/// The platter that SELECT DISK selects.
#[tactic(auto, using(crate::proofs::DriveRows::select_address, crate::proofs::DriveRows::select_is))]
pub fn select(d: &Drives<'_>, unit: &[u8]) -> Result<Addr, Code>
    requires phrase { is_phrase row.SELECT_DISK unit.now ≡ true }
    ensures { result ≡ spec.selects (spec.drives_seen d.now) (tree_at row.SELECT_DISK unit.now) }
{
    platter_used(d, Some(address_at(rest_after(rest_after(unit, 1), 1))))
}
