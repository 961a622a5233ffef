// What a partition has for itself, and the devices that it may use.
//
// `device | PARTITION | ADDRESS`: whether the partition may use a platter or a printer of the address. There are the platters
// D11, for all, and D12, for partition 2 alone, and the printers 215, for all, and 216, for partition 3 alone.
//
// `partition | NUMBER | TERMINAL | AREA | FLAG | ..`: a partition as it starts, and its flags then and after each that is asked for,
// `halt` or `reset`.
//
// `start | NUMBER | BYTES`: where a partition is that starts with the line of these bytes, and what it has.
//
// `disk | NUMBER | ADDRESS`: the disk of a partition that starts on this one, and the one that it is given back at a CLEAR.
ghost use Rattle.std.specs.Prelude.{◌≡◌, true};
ghost use Rattle.b2_base.specs.Names.{is_address};

use crate::pieces::{show_count, show_named};
use crate::places::{line_spelled, show_place};
use b2_access::{Device, DeviceTable, Private};
use b2_atom::Atoms;
use b2_base::{Addr, NoMemory, Part, Term};
use b2_cases::{Sheet, small_of, str_of, whole_of};
use b2_dec::Mode;
use std::alloc::Global;

/// The address of three digits.
fn address(digits: &[u8]) -> Addr
    requires { is_address digits.now ≡ true }
    ensures { result ≡ digits.now }
{
    match Addr::of(digits) {
        Some(address) => address,
        None => unreachable!(),
    }
}

/// The four devices.
fn four_devices(alloc: Global) -> Result<DeviceTable, NoMemory> {
    let mut rows = Vec::new(alloc);
    rows.push(Device {
        addr: address(b"D11"),
        printer: false,
        only: None,
    })?;
    rows.push(Device {
        addr: address(b"D12"),
        printer: false,
        only: Some(Part::known(2)),
    })?;
    rows.push(Device {
        addr: address(b"215"),
        printer: true,
        only: None,
    })?;
    rows.push(Device {
        addr: address(b"216"),
        printer: true,
        only: Some(Part::known(3)),
    })?;
    Ok(DeviceTable::new(rows))
}

/// Shows a text, and whether something holds.
fn show_whether(sheet: &mut Sheet<'_>, text: &str, holds: bool) {
    sheet.show(text);
    sheet.show_truth(holds);
}

/// What a partition may use at an address.
pub fn device(sheet: &mut Sheet<'_>) {
    let Some(who) = Part::of(small_of(sheet.cell())) else {
        return sheet.misread();
    };
    let Some(address) = Addr::of(sheet.cell()) else {
        return sheet.misread();
    };
    let Ok(devices) = four_devices(sheet.alloc()) else {
        return sheet.no_memory();
    };
    show_whether(sheet, "platter ", devices.platter(who, address));
    show_whether(sheet, ", printer ", devices.printer(who, address));
}

/// Shows where a partition runs, and what it keeps.
fn show_places(sheet: &mut Sheet<'_>, me: &Private) {
    show_whether(sheet, ", runs ", me.place.is_some());
    show_whether(sheet, ", kept ", me.kept.is_some());
    show_whether(sheet, ", immediate line ", me.immediate.is_some());
}

/// Shows its mode, its counts, its variables and its frames.
fn show_counts(sheet: &mut Sheet<'_>, me: &Private) {
    sheet.show(match me.mode {
        Mode::Round => ", rounds",
        Mode::Cut => ", cuts",
    });
    show_count(sheet, ", last ", u64::from(me.last));
    show_count(sheet, ", column ", u64::from(me.term_column));
    show_count(sheet, ", variables ", me.vars.count() as u64);
    show_count(sheet, ", frames ", me.stack.len() as u64);
}

/// Shows what waits to be shown.
fn show_pending(sheet: &mut Sheet<'_>, me: &Private) {
    match &me.pending {
        Some((device, bytes)) => {
            sheet.show(", waits ");
            sheet.show_letters(&device.bytes());
            show_named(sheet, "", bytes.bytes());
        }
        None => sheet.show(", nothing waits"),
    }
}

/// Shows its flags.
fn show_flags(sheet: &mut Sheet<'_>, me: &Private) {
    show_whether(sheet, ", halt ", me.halt);
    show_whether(sheet, " reset ", me.reset);
}

/// Shows all of these.
fn show_all(sheet: &mut Sheet<'_>, me: &Private) {
    show_places(sheet, me);
    show_counts(sheet, me);
    show_pending(sheet, me);
    show_flags(sheet, me);
}

/// Asks for a halt or a reset.
fn ask(me: &mut Private, flag: &[u8]) {
    match str_of(flag) {
        "halt" => me.flag_halt(),
        "reset" => me.flag_reset(),
        _ => {}
    }
}

/// Shows a partition that starts with a line: where it is, and what it has.
fn show_at_line(sheet: &mut Sheet<'_>, me: &Private) {
    show_place(sheet, &me.place);
    show_all(sheet, me);
}

/// Shows a partition, and its flags after each that is asked for.
fn show_asked(sheet: &mut Sheet<'_>, me: &mut Private) {
    show_count(sheet, "partition ", u64::from(me.part.number()));
    show_count(sheet, " at ", u64::from(me.term.number()));
    show_all(sheet, me);
    for _ in 0..u64::MAX {
        if sheet.is_empty() {
            break;
        }
        ask(me, sheet.cell());
        show_flags(sheet, me);
    }
}

/// Shows a disk, where there is one.
fn show_disk(sheet: &mut Sheet<'_>, name: &str, disk: Option<Addr>) {
    sheet.show(name);
    match disk {
        Some(address) => sheet.show_letters(&address.bytes()),
        None => sheet.show("none"),
    }
}

/// Shows the disks of a partition.
fn show_disks(sheet: &mut Sheet<'_>, me: &Private) {
    show_disk(sheet, "disk ", me.disk);
    show_disk(sheet, ", at first ", me.boot_disk);
}

/// Shows what a call wants of a partition.
fn show_start(call: &str, sheet: &mut Sheet<'_>, me: &mut Private) {
    match call {
        "partition" => show_asked(sheet, me),
        "start" => show_at_line(sheet, me),
        _ => show_disks(sheet, me),
    }
}

/// A partition at a terminal as it starts with a line, and on a disk.
fn start(
    call: &str,
    sheet: &mut Sheet<'_>,
    who: (Part, Term),
    area: usize,
    line: Option<Atoms>,
    disk: Option<Addr>,
) {
    match Private::new(sheet.alloc(), who.0, who.1, area, line, disk) {
        Ok(mut me) => show_start(call, sheet, &mut me),
        Err(NoMemory) => sheet.no_memory(),
    }
}

/// A partition as it starts. A line that isn't spelled is told.
pub fn started(call: &str, sheet: &mut Sheet<'_>) {
    let Some(part) = Part::of(small_of(sheet.cell())) else {
        return sheet.misread();
    };
    match call {
        "partition" => at_terminal(sheet, part),
        "start" => with_line(sheet, part),
        _ => {
            let disk = Addr::of(sheet.cell());
            start(call, sheet, (part, Term::known(1)), 0, None, disk);
        }
    }
}

/// The same at the terminal and with the area of the next cells.
fn at_terminal(sheet: &mut Sheet<'_>, part: Part) {
    let Some(term) = Term::of(small_of(sheet.cell())) else {
        return sheet.misread();
    };
    let area = whole_of(sheet.cell()) as usize;
    start("partition", sheet, (part, term), area, None, None);
}

/// The same with the line of the bytes in the next cell.
fn with_line(sheet: &mut Sheet<'_>, part: Part) {
    let bytes = sheet.bytes();
    match line_spelled(sheet, &bytes) {
        Some(line) => start(
            "start",
            sheet,
            (part, Term::known(1)),
            2048,
            Some(line),
            None,
        ),
        None => sheet.show("no line"),
    }
}
