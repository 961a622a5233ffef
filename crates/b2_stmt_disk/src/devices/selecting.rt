// SELECT PRINT: where PRINT shows.
ghost use Rattle.std.specs.Prelude.{◌≡◌, true};
ghost use Rattle.b2_access.specs.Working.{ended};
ghost use Rattle.b2_atom.specs.declared.rows.TheConstants as row;
ghost use Rattle.b2_rows.specs.Rows.{is_phrase, tree_at};
ghost use Rattle.b2_stmt_disk.specs.devices.Selecting as spec;

use b2_access::{DeviceTable, Outcome, Private};
use b2_base::codes::P48_DEVICE;
use b2_base::lexical::rest_after;
use b2_base::{Addr, Code, Part};
use b2_rows::address_at;

/// Whether PRINT may show at a device: at the terminal, or at a printer that the partition may use.
fn shows_at(devices: &DeviceTable, who: Part, a: Addr) -> bool
    ensures { result ≡ spec.shows_at devices.now who a }
{
    a == Addr::default() || devices.printer(who, a)
}

/// The device that is written, where PRINT may show there; else P48.
#[tactic(auto, using(crate::proofs::of_devices::SelectRows::address_here, crate::proofs::of_devices::SelectRows::selected_is))]
pub(crate) fn device_selected(devices: &DeviceTable, who: Part, unit: &[u8]) -> Result<Addr, Code>
    requires phrase { is_phrase row.SELECT_PRINT unit.now ≡ true }
    ensures { result ≡ spec.device_selected devices.now who (tree_at row.SELECT_PRINT unit.now) }
{
    let a = address_at(rest_after(rest_after(unit, 1), 1));
    if shows_at(devices, who, a) {
        Ok(a)
    } else {
        Err(Code::known(P48_DEVICE))
    }
}

/// Selects a device, where it is one, and its column is then 0; else nothing changes.
pub(crate) fn select(me: &mut Private, device: Result<Addr, Code>) -> Outcome
    ensures ended { record { me = me.new; outcome = result } ≡ ended me.old (spec.selected device me.old) }
    ensures part { me.new.part ≡ me.old.part }
{
    match device {
        Ok(a) => {
            me.print = a;
            me.print_column = 0;
            Outcome::Next
        }
        Err(code) => Outcome::Failed(code),
    }
}
