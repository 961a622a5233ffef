// Which devices there are.
ghost use Rattle.std.specs.Prelude.{◌≡◌, ◌≤◌, length, true, map};
ghost use Rattle.b2_access.specs.Devices as spec;

use b2_base::{Addr, Part};
use std::marker::Model;

/// A device: its address, whether it is a printer or else a platter, and the partition that alone may use it, if one is named.
#[derive(Clone, Copy)]
pub struct Device {
    pub addr: Addr,
    pub printer: bool,
    pub only: Option<Part>,
}

/// The devices of the boot, at most 12, each address once. Contracts see the list of them.
#[derive(Drop)]
pub struct DeviceTable {
    rows: Vec<Device>,
}

impl Model for DeviceTable {
    ghost use Rattle.std.specs.Prelude.{List};
    ghost use Rattle.b2_access.specs.declared.devices.Device.{Device};

    ghost Value = { List Device };

    ghost view = { λ t. t.rows.items };
}

/// Whether a device is of a kind and an address, and the partition may use it.
fn meets(device: &Device, printer: bool, who: Part, a: Addr) -> bool
    ensures { result ≡ spec.meets printer who a device.now }
{
    device.addr == a
        && device.printer == printer
        && match device.only {
            Some(part) => part == who,
            None => true,
        }
}

/// Whether one of some devices is of a kind and an address, and the partition may use it.
fn has_device(devices: &[Device], printer: bool, who: Part, a: Addr) -> bool
    ensures { result ≡ spec.has_device printer who a devices.now }
{
    for device in devices {
        if meets(device, printer, who, a) {
            return true;
        }
    }
    false
}

impl DeviceTable {
    /// The table of these devices. It takes no memory.
    pub fn new(rows: Vec<Device>) -> DeviceTable
        requires few { length rows.items ≤ 12 }
        requires distinct { spec.are_distinct (map (λ d. d.addr) rows.items) ≡ true }
        ensures rows { result ≡ rows.items }
    {
        DeviceTable { rows }
    }

    /// Whether the address is a platter's that the partition may use.
    pub fn platter(&self, who: Part, a: Addr) -> bool
        ensures listed { result ≡ spec.is_platter_for who a self.now }
    {
        has_device(&self.rows, false, who, a)
    }

    /// Whether the address is a printer's that the partition may use.
    pub fn printer(&self, who: Part, a: Addr) -> bool
        ensures listed { result ≡ spec.is_printer_for who a self.now }
    {
        has_device(&self.rows, true, who, a)
    }
}
