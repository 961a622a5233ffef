// What a world starts with.
ghost use Rattle.std.specs.Prelude.{◌≡◌, ◌++◌, IfOk, OnOk, map, true};
ghost use Rattle.std.specs.List.{list_all};
ghost use Rattle.b2_boot.specs.Boots.{is_program_name};
ghost use Rattle.b2_boot.specs.Quotas.{quota_row};
ghost use Rattle.b2_sched.specs.Start.{AreNumbered, in_bytes, load_line, may_start, private_row, starting_line, areas_of, front_of_boot};
ghost use Rattle.b2_sched.specs.Start.{devices_of, platter_addresses, platter_device, printer_addresses, printer_device};

use b2_access::{Device, Private};
use b2_alpha::value_len;
use b2_atom::{Atoms, words};
use b2_base::{Addr, Name8, NoMemory, Part, Term};
use b2_boot::{BootPartition, BootPlatter, BootPrinter, BootTerminal};
use b2_store::Rows;
use b2_term::PartList;
use std::alloc::Global;

/// How many bytes a size in KiB is.
fn in_bytes(size: u16) -> usize
    ensures { result ≡ in_bytes size }
{
    usize::from(size) * 1024
}

/// The line that loads a program from the selected disk and starts it.
#[tactic(auto, using(crate::proofs::LoadLines::line_loads, crate::proofs::LoadLines::value_taken))]
fn load_line(alloc: Global, name: Name8) -> Result<Atoms, NoMemory>
    requires { is_program_name name ≡ true }
    ensures { IfOk result (λ line. line ≡ load_line name) }
{
    let padded = name.bytes();
    let mut bytes = Vec::new(alloc);
    bytes.extend_from_slice(&[words::LOAD, words::RUN, b'T', b',', b'"'])?;
    bytes.extend_from_slice(&padded[..value_len(&padded)])?;
    bytes.push(b'"')?;
    match Atoms::of(alloc, &bytes)? {
        Some(line) => Ok(line),
        None => unreachable!(),
    }
}

/// The line that a partition starts with, where it has a program.
fn starting_line(alloc: Global, program: Option<Name8>) -> Result<Option<Atoms>, NoMemory>
    requires { may_start program ≡ true }
    ensures { IfOk result (λ line. line ≡ starting_line program) }
{
    match program {
        Some(name) => Ok(Some(load_line(alloc, name)?)),
        None => Ok(None),
    }
}

/// A partition as it starts.
fn private_of(alloc: Global, p: &BootPartition) -> Result<Private, NoMemory>
    requires { may_start p.now.program ≡ true }
    ensures { IfOk result (λ me. me ≡ (private_row p.now).1) }
{
    let line = starting_line(alloc, p.program)?;
    Private::new(alloc, p.number, p.terminal, in_bytes(p.vars), line, p.disk)
}

/// Each partition as it starts. Each has a number and a terminal that there are.
pub fn privates_of(
    alloc: Global,
    partitions: &[BootPartition],
) -> Result<Rows<Part, Private>, NoMemory>
    requires programs { list_all (λ p. may_start p.program) partitions.now ≡ true }
    ensures started { IfOk result (λ rows. rows ≡ map private_row partitions.now) }
    ensures numbered { OnOk result (AreNumbered partitions.now) }
{
    let mut rows = Rows::new(alloc);
    for p in partitions {
        rows.add(p.number, private_of(alloc, p)?)?;
    }
    Ok(rows)
}

/// Each partition, with its quota in a round: its own, or that of the boot.
pub fn quotas_of(
    alloc: Global,
    partitions: &[BootPartition],
    of_boot: u16,
) -> Result<Rows<Part, u16>, NoMemory>
    ensures { IfOk result (λ rows. rows ≡ map (quota_row of_boot) partitions.now) }
{
    let mut rows = Rows::new(alloc);
    for p in partitions {
        rows.add(p.number, p.quota_or(of_boot))?;
    }
    Ok(rows)
}

/// Each partition, with the areas of its text and of its `@` variables.
pub fn areas_of(
    alloc: Global,
    partitions: &[BootPartition],
) -> Result<Vec<(Part, usize, usize)>, NoMemory>
    ensures { IfOk result (λ areas. areas.items ≡ map areas_of partitions.now) }
{
    let mut areas = Vec::new(alloc);
    for p in partitions {
        areas.push((p.number, in_bytes(p.text), in_bytes(p.globals)))?;
    }
    Ok(areas)
}

/// Each terminal, with the partition in front of it and the order in which it goes round.
pub fn fronts_of(
    alloc: Global,
    terminals: &[BootTerminal],
) -> Result<Vec<(Term, Part, PartList)>, NoMemory>
    ensures { IfOk result (λ fronts. fronts.items ≡ map front_of_boot terminals.now) }
{
    let mut fronts = Vec::new(alloc);
    for t in terminals {
        fronts.push((t.number, t.front, t.order.copied()))?;
    }
    Ok(fronts)
}

/// The address of each printer.
pub fn printer_addresses(alloc: Global, printers: &[BootPrinter]) -> Result<Vec<Addr>, NoMemory>
    ensures { IfOk result (λ addresses. addresses.items ≡ printer_addresses printers.now) }
{
    let mut addresses = Vec::new(alloc);
    for p in printers {
        addresses.push(p.address)?;
    }
    Ok(addresses)
}

/// The address of each platter.
pub fn platter_addresses(alloc: Global, platters: &[BootPlatter]) -> Result<Vec<Addr>, NoMemory>
    ensures { IfOk result (λ addresses. addresses.items ≡ platter_addresses platters.now) }
{
    let mut addresses = Vec::new(alloc);
    for p in platters {
        addresses.push(p.address)?;
    }
    Ok(addresses)
}

/// Adds printers to devices.
fn add_printers(devices: &mut Vec<Device>, printers: &[BootPrinter]) -> Result<(), NoMemory>
    ensures { OnOk result (devices.new.items ≡ devices.old.items ++ map printer_device printers.now) }
{
    for printer in printers {
        devices.push(Device {
            addr: printer.address,
            printer: true,
            only: printer.only,
        })?;
    }
    Ok(())
}

/// Adds platters to devices.
fn add_platters(devices: &mut Vec<Device>, platters: &[BootPlatter]) -> Result<(), NoMemory>
    ensures { OnOk result (devices.new.items ≡ devices.old.items ++ map platter_device platters.now) }
{
    for platter in platters {
        devices.push(Device {
            addr: platter.address,
            printer: false,
            only: platter.only,
        })?;
    }
    Ok(())
}

/// Printers and then platters as devices, each for all partitions or for one alone.
pub fn devices_of(
    alloc: Global,
    printers: &[BootPrinter],
    platters: &[BootPlatter],
) -> Result<Vec<Device>, NoMemory>
    ensures { IfOk result (λ devices. devices.items ≡ devices_of printers.now platters.now) }
{
    let mut devices = Vec::new(alloc);
    add_printers(&mut devices, printers)?;
    add_platters(&mut devices, platters)?;
    Ok(devices)
}
