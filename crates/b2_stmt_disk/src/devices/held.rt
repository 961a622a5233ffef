// The devices that a partition has taken.
ghost use Rattle.std.specs.Prelude.{◌≡◌};
ghost use Rattle.b2_access.specs.OwnDevices.{is_device_for};
ghost use Rattle.b2_stmt_disk.specs.devices.Held as spec;

use b2_access::{Access, Answer, DeviceTable};
use b2_base::{Addr, AddrList, Part};

/// As many devices as a partition can hold: all that there can be.
const MOST_HELD: usize = 12;

/// Whether an address is among some.
fn is_among(a: Addr, addrs: &[Addr]) -> bool
    ensures { result ≡ spec.is_among a addrs.now }
{
    for x in addrs {
        if *x == a {
            return true;
        }
    }
    false
}

/// Adds a device, unless it is there.
fn add_device(held: &mut AddrList, a: Addr)
    ensures { held.new ≡ spec.with_device held.old a }
{
    if !is_among(a, held.addresses()) && held.addresses().len() < MOST_HELD {
        held.push(a);
    }
}

/// Adds devices.
fn add_devices(held: &mut AddrList, addrs: &[Addr])
    ensures { held.new ≡ spec.with_devices held.old addrs.now }
{
    for a in addrs {
        add_device(held, *a);
    }
}

/// What is held but for some devices.
fn without_devices(held: &AddrList, addrs: &[Addr]) -> AddrList
    ensures { result ≡ spec.without_devices addrs.now held.now }
{
    let mut left = AddrList::new();
    for a in held.addresses() {
        if !is_among(*a, addrs) {
            left.push(*a);
        }
    }
    left
}

/// Keeps what is held after an access, by it and its answer.
pub(crate) fn keep_held(held: &mut AddrList, access: &Access, answer: &Answer)
    ensures { held.new ≡ spec.held_after access.now answer.now held.old }
{
    let Answer::Done = answer else {
        return;
    };
    match access {
        Access::OpenDevices { addrs } => add_devices(held, addrs.addresses()),
        Access::CloseDevices { addrs } => *held = without_devices(held, addrs.addresses()),
        _ => {}
    }
}

/// Whether a partition may use a device, of either kind.
fn is_device_for(devices: &DeviceTable, who: Part, a: Addr) -> bool
    ensures { result ≡ is_device_for who a devices.now }
{
    devices.platter(who, a) || devices.printer(who, a)
}

/// Those of some devices that the partition may use.
pub(crate) fn those_listed(devices: &DeviceTable, who: Part, held: &AddrList) -> AddrList
    ensures { result ≡ spec.those_listed devices.now who held.now }
{
    let mut listed = AddrList::new();
    for a in held.addresses() {
        if is_device_for(devices, who, *a) {
            listed.push(*a);
        }
    }
    listed
}

/// Whether a partition may use all of some devices.
pub(crate) fn are_listed(devices: &DeviceTable, who: Part, addrs: &[Addr]) -> bool
    ensures { result ≡ spec.are_listed devices.now who addrs.now }
{
    for a in addrs {
        if !is_device_for(devices, who, *a) {
            return false;
        }
    }
    true
}
