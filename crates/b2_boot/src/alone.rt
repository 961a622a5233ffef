// A boot with a group of partitions alone.
ghost use Rattle.std.specs.Prelude.{◌≡◌, IfOk, filter};
ghost use Rattle.b2_boot.specs.Alone.{alone, is_in_group};

use crate::boot::{Boot, BootPartition, BootPlatter, BootPrinter, BootTerminal};
use b2_base::{FileName, NoMemory, Part};
use std::alloc::Global;

impl Boot {
    /// The boot with a group of partitions alone: those that it doesn't list are dropped, and all else stays, fronts and orders
    /// included, and devices that are for one of those that are dropped.
    pub fn alone(&self, alloc: Global, group: &[Part]) -> Result<Boot, NoMemory>
        ensures alone { IfOk result (λ b. b ≡ alone (is_in_group group.now) self.now) }
    {
        Ok(Boot {
            quota: self.quota,
            terminals: terminals_copied(alloc, &self.terminals)?,
            partitions: members(alloc, &self.partitions, group)?,
            platters: platters_copied(alloc, &self.platters)?,
            printers: printers_copied(alloc, &self.printers)?,
        })
    }
}

/// Whether a group lists a partition.
fn is_in_group(group: &[Part], part: Part) -> bool
    ensures { result ≡ is_in_group group.now part }
{
    group.iter().any(|p| *p == part)
}

/// A terminal again.
fn terminal_copied(terminal: &BootTerminal) -> BootTerminal
    ensures { result ≡ terminal.now }
{
    BootTerminal {
        number: terminal.number,
        front: terminal.front,
        order: terminal.order.copied(),
    }
}

/// All terminals.
fn terminals_copied(
    alloc: Global,
    terminals: &[BootTerminal],
) -> Result<Vec<BootTerminal>, NoMemory>
    ensures { IfOk result (λ copies. copies.items ≡ terminals.now) }
{
    let mut copies = Vec::new(alloc);
    for terminal in terminals {
        copies.push(terminal_copied(terminal))?;
    }
    Ok(copies)
}

/// A name again.
fn name_copied(name: &FileName) -> FileName
    ensures { result ≡ name.now }
{
    FileName::empty().with(name.bytes())
}

/// A name again, where there is one.
fn image_copied(image: &Option<FileName>) -> Option<FileName>
    ensures { result ≡ image.now }
{
    match image {
        Some(name) => Some(name_copied(name)),
        None => None,
    }
}

/// A platter again.
fn platter_copied(platter: &BootPlatter) -> BootPlatter
    ensures { result ≡ platter.now }
{
    BootPlatter {
        address: platter.address,
        image: image_copied(&platter.image),
        blank: platter.blank,
        only: platter.only,
        version: platter.version,
    }
}

/// All platters.
fn platters_copied(alloc: Global, platters: &[BootPlatter]) -> Result<Vec<BootPlatter>, NoMemory>
    ensures { IfOk result (λ copies. copies.items ≡ platters.now) }
{
    let mut copies = Vec::new(alloc);
    for platter in platters {
        copies.push(platter_copied(platter))?;
    }
    Ok(copies)
}

/// All printers.
fn printers_copied(alloc: Global, printers: &[BootPrinter]) -> Result<Vec<BootPrinter>, NoMemory>
    ensures { IfOk result (λ copies. copies.items ≡ printers.now) }
{
    let mut copies = Vec::new(alloc);
    copies.extend_from_slice(printers)?;
    Ok(copies)
}

/// The partitions that a group lists.
fn members(
    alloc: Global,
    partitions: &[BootPartition],
    group: &[Part],
) -> Result<Vec<BootPartition>, NoMemory>
    ensures { IfOk result (λ members. members.items ≡ filter (λ p. is_in_group group.now p.number) partitions.now) }
{
    let mut members = Vec::new(alloc);
    for p in partitions {
        if is_in_group(group, p.number) {
            members.push(*p)?;
        }
    }
    Ok(members)
}
