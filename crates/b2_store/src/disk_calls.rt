// What disks are asked.
ghost use Rattle.std.specs.Prelude.{◌≡◌, ◌≤◌, ℕ, true, None, IfOk};
ghost use Rattle.std.specs.List.{list_all};
ghost use Rattle.b2_access.specs.Touching.{is_short};
ghost use Rattle.b2_store.specs.Asked.{IsGoodAt};
ghost use Rattle.b2_store.specs.Doing.{Does};

use crate::data_files::{
    end_file, load_record, moved_answer, new_file, no_file, open_file, opened_answer, save_record,
    skip_records,
};
use crate::disks::{format_disk, limits_answer, scratch_file};
use crate::lookups::Lookups;
use crate::refusals::made_answer;
use b2_access::{Access, Answer};
use b2_base::{Addr, By, ByteList, Name8, NoMemory, Slot};
use b2_catalog::listing;
use b2_dec::{Kind, Value};

/// Says the limits of a file or of the catalogue.
pub(crate) fn limits<S: Lookups>(store: &S, addr: Addr, name: Option<Name8>) -> Answer
    ensures { (who : ℕ) → Does who (Access.Limits addr name) (S.state store.now) (S.state store.now) result }
{
    match store.platter_at(addr) {
        Some(platter) => limits_answer(platter, name),
        None => Answer::Four(0, 0, 0, 0),
    }
}

/// Lists the index of a platter.
pub(crate) fn list_disk<S: Lookups>(store: &S, addr: Addr) -> Result<Answer, NoMemory>
    ensures { (who : ℕ) → IfOk result (Does who (Access.ListDisk addr) (S.state store.now) (S.state store.now)) }
{
    let mut bytes = Vec::new(store.allocator());
    if let Some(platter) = store.platter_at(addr) {
        listing(platter, &mut bytes)?;
    }
    Ok(Answer::Bytes(ByteList::new(bytes)))
}

/// Scratches a file.
#[tactic(auto, using(crate::proofs::Same::same_platter))]
pub(crate) fn scratch<S: Lookups>(store: &mut S, addr: Addr, name: Name8) -> Answer
    ensures { (who : ℕ) → Does who (Access.Scratch addr name) (S.state store.old) (S.state store.new) result }
{
    match store.platter_mut(addr) {
        Some(platter) => made_answer(scratch_file(platter, name)),
        None => Answer::Done,
    }
}

/// Makes an empty index.
#[tactic(auto, using(crate::proofs::Same::same_platter))]
pub(crate) fn format<S: Lookups>(store: &mut S, addr: Addr, index: u32, end: u32) -> Answer
    ensures { (who : ℕ) → Does who (Access.Format addr index end) (S.state store.old) (S.state store.new) result }
{
    match store.platter_mut(addr) {
        Some(platter) => made_answer(format_disk(platter, index, end)),
        None => Answer::Done,
    }
}

/// Makes a data file and opens it.
#[tactic(auto, using(crate::proofs::Same::same_platter))]
pub(crate) fn data_new<S: Lookups>(
    store: &mut S,
    addr: Addr,
    old: Option<Name8>,
    sectors: u32,
    name: Name8,
) -> Answer
    requires { old ≡ None → 2 ≤ sectors }
    ensures { (who : ℕ) → Does who (Access.DataNew addr old sectors name) (S.state store.old) (S.state store.new) result }
{
    match store.platter_mut(addr) {
        Some(platter) => opened_answer(new_file(platter, addr, old, sectors, name)),
        None => Answer::Opened(no_file(addr, name)),
    }
}

/// Opens a data file.
pub(crate) fn data_open<S: Lookups>(store: &S, addr: Addr, name: Name8) -> Answer
    ensures { (who : ℕ) → Does who (Access.DataOpen addr name) (S.state store.now) (S.state store.now) result }
{
    match store.platter_at(addr) {
        Some(platter) => opened_answer(open_file(platter, addr, name)),
        None => Answer::Opened(no_file(addr, name)),
    }
}

/// Saves a record at the place in a file.
#[tactic(auto, using(crate::proofs::Same::same_platter))]
pub(crate) fn data_save<S: Lookups>(store: &mut S, slot: &Slot, values: &[Value]) -> Answer
    requires short { list_all is_short values.now ≡ true }
    requires place { slot.now.start ≤ slot.now.pos }
    ensures { (who : ℕ) → Does who (Access.DataSave slot.now values.now) (S.state store.old) (S.state store.new) result }
{
    match store.platter_mut(slot.addr) {
        Some(platter) => moved_answer(save_record(platter, slot, values)),
        None => Answer::Moved(slot.pos),
    }
}

/// Writes the end mark at the place in a file.
#[tactic(auto, using(crate::proofs::Same::same_platter))]
pub(crate) fn data_end<S: Lookups>(store: &mut S, slot: &Slot) -> Answer
    requires { slot.now.start ≤ slot.now.pos }
    ensures { (who : ℕ) → Does who (Access.DataEnd slot.now) (S.state store.old) (S.state store.new) result }
{
    match store.platter_mut(slot.addr) {
        Some(platter) => moved_answer(end_file(platter, slot)),
        None => Answer::Moved(slot.pos),
    }
}

/// Loads values from the record at the place in a file.
pub(crate) fn data_load<S: Lookups>(
    store: &S,
    slot: &Slot,
    kinds: &[Kind],
) -> Result<Answer, NoMemory>
    requires { slot.now.start ≤ slot.now.pos }
    ensures { (who : ℕ) → IfOk result (Does who (Access.DataLoad slot.now kinds.now) (S.state store.now) (S.state store.now)) }
{
    match store.platter_at(slot.addr) {
        Some(platter) => load_record(store.allocator(), platter, slot, kinds),
        None => Ok(Answer::AtEnd),
    }
}

/// Moves the place in a file, on a platter that is good by its type.
pub(crate) fn skip<S: Lookups>(store: &S, slot: &Slot, by: By) -> Result<Answer, NoMemory>
    requires { slot.now.start ≤ slot.now.pos }
    ensures good { IsGoodAt slot.now.addr (S.state store.now) }
    ensures done { (who : ℕ) → IfOk result (Does who (Access.Skip slot.now by) (S.state store.now) (S.state store.now)) }
{
    match store.platter_at(slot.addr) {
        Some(platter) => skip_records(store.allocator(), platter, slot, by),
        None => Ok(Answer::Moved(slot.pos)),
    }
}
