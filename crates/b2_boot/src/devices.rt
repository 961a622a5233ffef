// The checks of devices: of platters and printers, of the disks and programs of partitions, and of the orders of terminals.
ghost use Rattle.std.specs.Prelude.{◌≡◌, ◌==◌, ◌&&◌};
ghost use Rattle.std.specs.List.{list_all, list_any};
ghost use Rattle.b2_boot.specs.Boots as spec;
ghost use Rattle.b2_boot.specs.Rows.{spells};

use crate::numbered::has_number;
use crate::orders::all_orders_fit;
use crate::platters::{self, are_platter_addresses, images_differ, images_named};
use crate::printers::{self, are_printer_addresses};
use crate::rows::{PartitionRow, PlatterRow, PrinterRow, TerminalRow};
use b2_base::{ByteList, Name8};

/// Whether an address is that of a printer or of a platter.
#[tactic(auto, using(crate::proofs::DeviceAddresses::any_of_both))]
fn has_address(address: &[u8], printers: &[PrinterRow], platters: &[PlatterRow]) -> bool
    ensures { result ≡ list_any (spells address.now) (spec.row_addresses printers.now platters.now) }
{
    printers::has_address(address, printers) || platters::has_address(address, platters)
}

/// Whether no address stands twice among printers and platters.
fn addresses_differ(printers: &[PrinterRow], platters: &[PlatterRow]) -> bool
    ensures { result ≡ spec.no_two_same spells (spec.row_addresses printers.now platters.now) }
{
    let mut left = printers;
    while let [printer, rest @ ..] = left {
        if has_address(printer.address.bytes(), rest, platters) {
            return false;
        }
        left = rest;
    }
    platters::addresses_differ(platters)
}

/// 10: each address is one of a platter or of a printer, and none stands twice among them all.
fn addresses_fit(platters: &[PlatterRow], printers: &[PrinterRow]) -> bool
    ensures { result ≡ spec.addresses_fit platters.now printers.now }
{
    are_platter_addresses(platters)
        && are_printer_addresses(printers)
        && addresses_differ(printers, platters)
}

/// Whether a device is for all partitions, or for one that is listed.
fn may_be_for(partitions: &[PartitionRow], only: Option<u16>) -> bool
    ensures { result ≡ spec.may_be_for partitions.now only }
{
    match only {
        Some(number) => has_number(number, partitions),
        None => true,
    }
}

/// Whether each platter is for all partitions, or for one that is listed.
fn platters_have_partitions(partitions: &[PartitionRow], platters: &[PlatterRow]) -> bool
    ensures { result ≡ list_all (λ p. spec.may_be_for partitions.now p.only) platters.now }
{
    platters.iter().all(|p| may_be_for(partitions, p.only))
}

/// Whether each printer is for all partitions, or for one that is listed.
fn printers_have_partitions(partitions: &[PartitionRow], printers: &[PrinterRow]) -> bool
    ensures { result ≡ list_all (λ p. spec.may_be_for partitions.now p.only) printers.now }
{
    printers.iter().all(|p| may_be_for(partitions, p.only))
}

/// 11: each device is for all partitions, or for one that is listed.
fn devices_have_partitions(
    partitions: &[PartitionRow],
    platters: &[PlatterRow],
    printers: &[PrinterRow],
) -> bool
    ensures { result ≡ spec.devices_have_partitions partitions.now platters.now printers.now }
{
    platters_have_partitions(partitions, platters) && printers_have_partitions(partitions, printers)
}

/// Whether a device is for a partition: for all, or for it alone.
fn is_for(who: u16, only: Option<u16>) -> bool
    ensures { result ≡ spec.is_for who only }
{
    match only {
        Some(number) => number == who,
        None => true,
    }
}

/// Whether a platter has an address and is for a partition.
fn is_usable_platter(address: &[u8], who: u16, platter: &PlatterRow) -> bool
    ensures { result ≡ (spells address.now platter.now.address && spec.is_for who platter.now.only) }
{
    platter.address.bytes() == address && is_for(who, platter.only)
}

/// Whether a platter of an address is for a partition.
fn is_platter_for(address: &[u8], who: u16, platters: &[PlatterRow]) -> bool
    ensures { result ≡ list_any (λ p. spells address.now p.address && spec.is_for who p.only) platters.now }
{
    platters.iter().any(|p| is_usable_platter(address, who, p))
}

/// Whether a disk is a platter that its partition may use.
fn is_disk_for(platters: &[PlatterRow], who: u16, disk: &Option<ByteList>) -> bool
    ensures { result ≡ spec.is_disk_for (λ p. p.address) (λ p. p.only) platters.now who disk.now }
{
    match disk {
        Some(address) => is_platter_for(address.bytes(), who, platters),
        None => true,
    }
}

/// 12: each disk is a platter that its partition may use.
fn disks_fit(partitions: &[PartitionRow], platters: &[PlatterRow]) -> bool
    ensures { result ≡ spec.disks_fit partitions.now platters.now }
{
    partitions
        .iter()
        .all(|p| is_disk_for(platters, p.number, &p.disk))
}

/// Whether a name has a quote in it.
fn has_quote(name: &[u8]) -> bool
    ensures { result ≡ spec.has_quote name.now }
{
    name.iter().any(|b| *b == b'"')
}

/// Whether a name is that of a file on a disk, without a quote.
fn is_program_name(name: &[u8]) -> bool
    ensures { result ≡ spec.is_program_name name.now }
{
    Name8::of(name).is_some() && !has_quote(name)
}

/// Whether a program, where there is one, has such a name and a disk from which it is loaded.
fn may_load(disk: &Option<ByteList>, program: &Option<ByteList>) -> bool
    ensures { result ≡ spec.may_load disk.now program.now }
{
    match program {
        Some(name) => disk.is_some() && is_program_name(name.bytes()),
        None => true,
    }
}

/// 13: each program can be loaded.
fn programs_fit(partitions: &[PartitionRow]) -> bool
    ensures { result ≡ spec.programs_fit partitions.now }
{
    partitions.iter().all(|p| may_load(&p.disk, &p.program))
}

/// The first check that programs, the names of images and orders fail, from 13, None where they pass them all.
fn last_check(
    terminals: &[TerminalRow],
    partitions: &[PartitionRow],
    platters: &[PlatterRow],
) -> Option<u8>
    ensures { result ≡ spec.first_failed (spec.last_checks terminals.now partitions.now platters.now) }
{
    if !programs_fit(partitions) {
        return Some(13);
    }
    if !images_named(platters) {
        return Some(14);
    }
    if !all_orders_fit(terminals, partitions) {
        return Some(15);
    }
    None
}

/// The first check that platters, printers, the disks and programs of partitions, and orders fail, from 9, None where they pass
/// them all.
pub fn check_of_devices(
    terminals: &[TerminalRow],
    partitions: &[PartitionRow],
    platters: &[PlatterRow],
    printers: &[PrinterRow],
) -> Option<u8>
    ensures { result ≡ spec.first_failed (spec.checks_of_devices terminals.now partitions.now platters.now printers.now) }
{
    if !images_differ(platters) {
        return Some(9);
    }
    if !addresses_fit(platters, printers) {
        return Some(10);
    }
    if !devices_have_partitions(partitions, platters, printers) {
        return Some(11);
    }
    if !disks_fit(partitions, platters) {
        return Some(12);
    }
    last_check(terminals, partitions, platters)
}
