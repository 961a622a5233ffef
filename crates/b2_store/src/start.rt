// The rows of a store as it starts.
ghost use Rattle.std.specs.Prelude.{◌≡◌, ◌++◌, IfOk, OnOk, length, map, true};
ghost use Rattle.std.specs.List.{list_all};
ghost use Rattle.b2_store.specs.Start.{text_row, borrow_row, globals_row, has_order, idle_row, blank_row, free_row, with_keys};

use crate::insiders::Insiders;
use crate::printer::Printer;
use crate::rows::Rows;
use b2_base::{Addr, NoMemory, Part, Term};
use b2_platter::Platter;
use b2_term::{PartList, Terminal};
use b2_text::Text;
use b2_vars::Vars;
use std::alloc::Global;

/// An empty text for each partition, of its area.
pub fn texts_of(
    alloc: Global,
    partitions: &[(Part, usize, usize)],
) -> Result<Rows<Part, Text>, NoMemory>
    ensures { IfOk result (λ rows. rows ≡ map text_row partitions.now) }
{
    let mut rows = Rows::new(alloc);
    for partition in partitions {
        rows.add(partition.0, Text::new(alloc, partition.1)?)?;
    }
    Ok(rows)
}

/// Nobody inside the text of each partition.
pub fn borrows_of(
    alloc: Global,
    partitions: &[(Part, usize, usize)],
) -> Result<Rows<Part, Insiders>, NoMemory>
    ensures { IfOk result (λ rows. rows ≡ map borrow_row partitions.now) }
{
    let mut rows = Rows::new(alloc);
    for partition in partitions {
        rows.add(partition.0, Insiders::new(Vec::new(alloc)))?;
    }
    Ok(rows)
}

/// No `@` variables for each partition, in its area.
pub fn globals_of(
    alloc: Global,
    partitions: &[(Part, usize, usize)],
) -> Result<Rows<Part, Vars>, NoMemory>
    ensures { IfOk result (λ rows. rows ≡ map globals_row partitions.now) }
{
    let mut rows = Rows::new(alloc);
    for partition in partitions {
        rows.add(partition.0, Vars::new(alloc, partition.2)?)?;
    }
    Ok(rows)
}

/// An idle terminal for each, with its partition in front and its order.
pub fn terminals_of(
    alloc: Global,
    terminals: &[(Term, Part, PartList)],
) -> Result<Rows<Term, Terminal>, NoMemory>
    requires orders { list_all has_order terminals.now ≡ true }
    ensures { IfOk result (λ rows. rows ≡ map idle_row terminals.now) }
{
    let mut rows = Rows::new(alloc);
    for terminal in terminals {
        rows.add(
            terminal.0,
            Terminal::new(alloc, terminal.1, terminal.2.parts())?,
        )?;
    }
    Ok(rows)
}

/// Each platter at its address.
pub fn platters_of(
    alloc: Global,
    addresses: &[Addr],
    platters: Vec<Platter>,
) -> Result<Rows<Addr, Platter>, NoMemory>
    requires as_many { length addresses.now ≡ length platters.items }
    ensures { IfOk result (λ rows. rows ≡ with_keys addresses.now platters.items) }
{
    let mut left = platters;
    let mut rows = Rows::new(alloc);
    for address in addresses {
        rows.add(*address, left.remove(0))?;
    }
    Ok(rows)
}

/// A printer that printed nothing at each address.
pub fn printers_of(alloc: Global, addresses: &[Addr]) -> Result<Rows<Addr, Printer>, NoMemory>
    ensures { IfOk result (λ rows. rows ≡ map blank_row addresses.now) }
{
    let mut rows = Rows::new(alloc);
    for address in addresses {
        rows.add(*address, Printer::new(alloc))?;
    }
    Ok(rows)
}

/// Adds devices that nobody holds.
fn add_free(rows: &mut Rows<Addr, Option<Part>>, addresses: &[Addr]) -> Result<(), NoMemory>
    ensures { OnOk result (rows.new ≡ rows.old ++ map free_row addresses.now) }
{
    for address in addresses {
        rows.add(*address, None)?;
    }
    Ok(())
}

/// Nobody who holds each printer and each platter.
pub fn holders_of(
    alloc: Global,
    printers: &[Addr],
    platters: &[Addr],
) -> Result<Rows<Addr, Option<Part>>, NoMemory>
    ensures { IfOk result (λ rows. rows ≡ map free_row printers.now ++ map free_row platters.now) }
{
    let mut rows = Rows::new(alloc);
    add_free(&mut rows, printers)?;
    add_free(&mut rows, platters)?;
    Ok(rows)
}
