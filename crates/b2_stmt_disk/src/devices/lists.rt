// A list of devices, as it is written: at most four.
ghost use Rattle.std.specs.Prelude.{◌≡◌, ◌≤◌, ◌++◌, true, drop, length};
ghost use Rattle.b2_base.specs.Byte as byte;
ghost use Rattle.b2_atom.specs.declared.forms.Start.TheVariants as start;
ghost use Rattle.b2_atom.specs.declared.rows.TheConstants as row;
ghost use Rattle.b2_rows.specs.Optional.{maybe_phrase, maybe_tree};
ghost use Rattle.b2_rows.specs.Rows.{is_phrase, tree_at};
ghost use Rattle.b2_stmt_disk.specs.devices.Lists as spec;

use b2_base::AddrList;
use b2_base::lexical::rest_after;
use b2_rows::{address_at, is_at};

/// What stands after a device.
fn past_device(text: &[u8]) -> &[u8]
    ensures { result.now ≡ drop 3 (drop 1 text.now) }
{
    rest_after(rest_after(text, 1), 3)
}

/// Adds the fourth device, where one is written.
#[tactic(auto, using(crate::proofs::of_devices::ListRows::fourth_address, crate::proofs::of_devices::ListRows::fourth_is))]
fn add_fourth(list: &mut AddrList, text: &[u8])
    requires phrase { maybe_phrase (start.Code byte.comma) row.COMMA_DEVICE_4 text.now ≡ true }
    requires room { length list.old ≤ 11 }
    ensures { list.new ≡ list.old ++ spec.more_devices (maybe_tree (start.Code byte.comma) row.COMMA_DEVICE_4 text.now) }
{
    if is_at(b',', text) {
        list.push(address_at(rest_after(rest_after(text, 1), 1)));
    }
}

/// Adds the third device, where one is written, and the one after it.
#[tactic(auto, using(crate::proofs::of_devices::ListRows::third_address))]
fn add_third(list: &mut AddrList, text: &[u8])
    requires phrase { maybe_phrase (start.Code byte.comma) row.COMMA_DEVICE_3 text.now ≡ true }
    requires room { length list.old ≤ 10 }
    ensures { list.new ≡ list.old ++ spec.more_devices (maybe_tree (start.Code byte.comma) row.COMMA_DEVICE_3 text.now) }
{
    if is_at(b',', text) {
        let device = rest_after(text, 1);
        list.push(address_at(rest_after(device, 1)));
        add_fourth(list, past_device(device));
    }
}

/// Adds the second device, where one is written, and those after it.
#[tactic(auto, using(crate::proofs::of_devices::ListRows::second_address))]
fn add_second(list: &mut AddrList, text: &[u8])
    requires phrase { maybe_phrase (start.Code byte.comma) row.COMMA_DEVICE_2 text.now ≡ true }
    requires room { length list.old ≤ 9 }
    ensures { list.new ≡ list.old ++ spec.more_devices (maybe_tree (start.Code byte.comma) row.COMMA_DEVICE_2 text.now) }
{
    if is_at(b',', text) {
        let device = rest_after(text, 1);
        list.push(address_at(rest_after(device, 1)));
        add_third(list, past_device(device));
    }
}

/// The devices that are written at a text.
#[tactic(auto, using(crate::proofs::of_devices::ListRows::first_address, crate::proofs::of_devices::ListRows::first_is))]
pub(crate) fn devices_at(text: &[u8]) -> AddrList
    requires phrase { is_phrase row.DEVICES text.now ≡ true }
    ensures { result ≡ spec.devices_in (tree_at row.DEVICES text.now) }
{
    let mut list = AddrList::new();
    list.push(address_at(rest_after(text, 1)));
    add_second(&mut list, past_device(text));
    list
}
