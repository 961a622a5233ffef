// What printers are asked, and who holds devices.
ghost use Rattle.std.specs.Prelude.{◌≡◌, ℕ, Some, None, IfOk};
ghost use Rattle.b2_access.specs.AccessRows.{is_held_by};
ghost use Rattle.b2_access.specs.Store.{content};
ghost use Rattle.b2_store.specs.Doing.{Does};
ghost use Rattle.b2_store.specs.Holders.{all_held, own_among};

use crate::lookups::Lookups;
use b2_access::{Access, Answer, Object};
use b2_base::{Addr, AddrList, NoMemory, Part};

/// Prints bytes at a printer.
pub(crate) fn print<S: Lookups>(store: &mut S, addr: Addr, bytes: &[u8]) -> Result<Answer, NoMemory>
    ensures { (who column : ℕ) → IfOk result (Does who (Access.PrintTo addr bytes.now column) (S.state store.old) (S.state store.new)) }
{
    if let Some(printer) = store.printer_mut(addr) {
        printer.print(bytes)?;
    }
    Ok(Answer::Done)
}

/// A partition holds each of some devices.
fn hold_each<S: Lookups>(store: &mut S, addrs: &[Addr], holder: Part)
    ensures { S.state store.new ≡ all_held (Some holder) addrs.now (S.state store.old) }
{
    for addr in addrs {
        store.set_hog(*addr, Some(holder));
    }
}

/// Nobody holds each of some devices.
fn free_each<S: Lookups>(store: &mut S, addrs: &[Addr])
    ensures { S.state store.new ≡ all_held None addrs.now (S.state store.old) }
{
    for addr in addrs {
        store.set_hog(*addr, None);
    }
}

/// Takes devices.
#[tactic(auto, using(crate::proofs::Holders::taken))]
pub(crate) fn open_devices<S: Lookups>(store: &mut S, who: Part, addrs: &AddrList) -> Answer
    ensures { Does who (Access.OpenDevices addrs.now) (S.state store.old) (S.state store.new) result }
{
    hold_each(store, addrs.addresses(), who);
    Answer::Done
}

/// Whether a partition holds a device.
fn is_held_by<S: Lookups>(store: &S, who: Part, addr: Addr) -> bool
    ensures { result ≡ is_held_by who (content (S.state store.now) (Object.Hog addr)) }
{
    match store.hog(addr) {
        Some(Some(holder)) => holder == who,
        _ => false,
    }
}

/// Those of some devices that a partition holds.
fn own_among<S: Lookups>(store: &S, who: Part, addrs: &AddrList) -> AddrList
    ensures { result ≡ own_among who addrs.now (S.state store.now) }
{
    let mut own = AddrList::new();
    for addr in addrs.addresses() {
        if is_held_by(store, who, *addr) {
            own.push(*addr);
        }
    }
    own
}

/// Frees those of some devices that the partition holds.
#[tactic(auto, using(crate::proofs::Holders::freed))]
pub(crate) fn close_devices<S: Lookups>(store: &mut S, who: Part, addrs: &AddrList) -> Answer
    ensures { Does who (Access.CloseDevices addrs.now) (S.state store.old) (S.state store.new) result }
{
    let own = own_among(store, who, addrs);
    free_each(store, own.addresses());
    Answer::Done
}
