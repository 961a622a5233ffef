// What disks do with data files.
ghost use Rattle.std.specs.Prelude.{◌≡◌, ◌≤◌, true, None, Ok, Err, IfOk, IfErr};
ghost use Rattle.std.specs.List.{list_all};
ghost use Rattle.b2_platter.specs.Checks.{IsGood};
ghost use Rattle.b2_access.specs.AccessRows.{loaded_answer, no_file};
ghost use Rattle.b2_access.specs.Touching.{is_short};
ghost use Rattle.b2_store.specs.DiskWork.{disks};
ghost use Rattle.b2_store.specs.Refusals as spec;

use b2_access::Answer;
use b2_base::{Addr, By, Code, Fault, Name8, NoMemory, Slot};
use b2_datafile::{end, load, open, open_new, save, skip};
use b2_dec::{Kind, Value, ValueList};
use b2_platter::Platter;
use std::alloc::Global;

/// A file without sectors.
pub fn no_file(addr: Addr, name: Name8) -> Slot
    ensures { result ≡ no_file addr name }
{
    Slot {
        addr,
        name,
        start: 0,
        end: 0,
        pos: 0,
    }
}

/// The answer to a file that is opened or refused.
pub fn opened_answer(opened: Result<Slot, Code>) -> Answer
    ensures { result ≡ spec.opened_answer opened }
{
    match opened {
        Ok(slot) => Answer::Opened(slot),
        Err(code) => Answer::Refused(code),
    }
}

/// The answer to a place that is moved or refused.
pub fn moved_answer(moved: Result<u32, Code>) -> Answer
    ensures { result ≡ spec.moved_answer moved }
{
    match moved {
        Ok(place) => Answer::Moved(place),
        Err(code) => Answer::Refused(code),
    }
}

/// Makes a data file without records and opens it.
pub fn new_file(
    p: &mut Platter,
    addr: Addr,
    old: Option<Name8>,
    sectors: u32,
    name: Name8,
) -> Result<Slot, Code>
    requires { old ≡ None → 2 ≤ sectors }
    ensures ok { IfOk result (λ slot. disks.data_new addr old sectors name p.old ≡ Ok (record { image = p.new; told = slot })) }
    ensures err { IfErr result (λ code. (disks.data_new addr old sectors name p.old ≡ Err code) × (p.new ≡ p.old)) }
{
    match open_new(p, addr, old, sectors, name) {
        Ok(slot) => Ok(slot),
        Err(code) => Err(code),
    }
}

/// Opens a data file.
pub fn open_file(p: &Platter, addr: Addr, name: Name8) -> Result<Slot, Code>
    ensures { result ≡ disks.data_open addr name p.now }
{
    match open(p, addr, name) {
        Ok(slot) => Ok(slot),
        Err(code) => Err(code),
    }
}

/// Saves a record at the place in a file.
pub fn save_record(p: &mut Platter, slot: &Slot, values: &[Value]) -> Result<u32, Code>
    requires short { list_all is_short values.now ≡ true }
    requires place { slot.now.start ≤ slot.now.pos }
    ensures ok { IfOk result (λ place. disks.data_save slot.now values.now p.old ≡ Ok (record { image = p.new; told = place })) }
    ensures err { IfErr result (λ code. (disks.data_save slot.now values.now p.old ≡ Err code) × (p.new ≡ p.old)) }
{
    match save(p, slot, values) {
        Ok(place) => Ok(place),
        Err(code) => Err(code),
    }
}

/// Writes the end mark at the place in a file.
pub fn end_file(p: &mut Platter, slot: &Slot) -> Result<u32, Code>
    requires { slot.now.start ≤ slot.now.pos }
    ensures ok { IfOk result (λ place. disks.data_end slot.now p.old ≡ Ok (record { image = p.new; told = place })) }
    ensures err { IfErr result (λ code. (disks.data_end slot.now p.old ≡ Err code) × (p.new ≡ p.old)) }
{
    match end(p, slot) {
        Ok(place) => Ok(place),
        Err(code) => Err(code),
    }
}

/// Loads values of these kinds from the record at the place in a file.
pub fn load_record(
    alloc: Global,
    p: &Platter,
    slot: &Slot,
    kinds: &[Kind],
) -> Result<Answer, NoMemory>
    requires { slot.now.start ≤ slot.now.pos }
    ensures { IfOk result (λ answer. answer ≡ spec.found_answer loaded_answer (disks.data_load slot.now kinds.now p.now)) }
{
    match load(alloc, p, slot, kinds) {
        Ok(found) => match found {
            Some((values, place)) => Ok(Answer::Values(ValueList::new(values), place)),
            None => Ok(Answer::AtEnd),
        },
        Err(fault) => match fault {
            Fault::Code(code) => Ok(Answer::Refused(code)),
            Fault::NoMemory => Err(NoMemory),
        },
    }
}

/// Moves the place in a file.
pub fn skip_records(alloc: Global, p: &Platter, slot: &Slot, by: By) -> Result<Answer, NoMemory>
    requires { slot.now.start ≤ slot.now.pos }
    ensures value { IfOk result (λ answer. answer ≡ spec.moved_answer (disks.skip slot.now by p.now)) }
    ensures good { IsGood p.now }
{
    let _image = p.image();
    match skip(alloc, p, slot, by) {
        Ok(place) => Ok(Answer::Moved(place)),
        Err(fault) => match fault {
            Fault::Code(code) => Ok(Answer::Refused(code)),
            Fault::NoMemory => Err(NoMemory),
        },
    }
}
