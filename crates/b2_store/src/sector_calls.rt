// What disks are asked of their sectors by number.
ghost use Rattle.std.specs.Prelude.{◌≡◌, ◌≤◌, ℕ, length, true, IfOk};
ghost use Rattle.std.specs.List.{list_all};
ghost use Rattle.b2_access.specs.Touching.{is_short};
ghost use Rattle.b2_store.specs.Asked.{IsGoodAt};
ghost use Rattle.b2_store.specs.Doing.{Does};

use crate::data_files::moved_answer;
use crate::lookups::Lookups;
use crate::sectors::{end_at, load_at, no_block, put_at, read_at, save_at};
use b2_access::{Access, Answer};
use b2_base::{Addr, ByteList, NoMemory};
use b2_dec::{Kind, Value};

/// Saves a record to sectors.
#[tactic(auto, using(crate::proofs::Same::same_platter))]
pub(crate) fn raw_save<S: Lookups>(store: &mut S, addr: Addr, at: u32, values: &[Value]) -> Answer
    requires { list_all is_short values.now ≡ true }
    ensures { (who : ℕ) → Does who (Access.RawSave addr at values.now) (S.state store.old) (S.state store.new) result }
{
    match store.platter_mut(addr) {
        Some(platter) => moved_answer(save_at(platter, at, values)),
        None => Answer::Moved(at),
    }
}

/// Writes the end mark to a sector.
#[tactic(auto, using(crate::proofs::Same::same_platter))]
pub(crate) fn raw_end<S: Lookups>(store: &mut S, addr: Addr, at: u32) -> Answer
    ensures { (who : ℕ) → Does who (Access.RawEnd addr at) (S.state store.old) (S.state store.new) result }
{
    match store.platter_mut(addr) {
        Some(platter) => moved_answer(end_at(platter, at)),
        None => Answer::Moved(at),
    }
}

/// Loads values from the record in sectors.
pub(crate) fn raw_load<S: Lookups>(
    store: &S,
    addr: Addr,
    at: u32,
    kinds: &[Kind],
) -> Result<Answer, NoMemory>
    ensures { (who : ℕ) → IfOk result (Does who (Access.RawLoad addr at kinds.now) (S.state store.now) (S.state store.now)) }
{
    match store.platter_at(addr) {
        Some(platter) => load_at(store.allocator(), platter, at, kinds),
        None => Ok(Answer::AtEnd),
    }
}

/// Writes bytes to a sector.
#[tactic(auto, using(crate::proofs::Same::same_platter))]
pub(crate) fn block_save<S: Lookups>(store: &mut S, addr: Addr, at: u32, bytes: &[u8]) -> Answer
    requires { length bytes.now ≤ 256 }
    ensures { (who : ℕ) → Does who (Access.BlockSave addr at bytes.now) (S.state store.old) (S.state store.new) result }
{
    match store.platter_mut(addr) {
        Some(platter) => moved_answer(put_at(platter, at, bytes)),
        None => Answer::Moved(at),
    }
}

/// Reads a sector, of a platter that is good by its type.
pub(crate) fn block_load<S: Lookups>(store: &S, addr: Addr, at: u32) -> Result<Answer, NoMemory>
    ensures good { IsGoodAt addr (S.state store.now) }
    ensures done { (who : ℕ) → IfOk result (Does who (Access.BlockLoad addr at) (S.state store.now) (S.state store.now)) }
{
    match store.platter_at(addr) {
        Some(platter) => read_at(store.allocator(), platter, at),
        None => Ok(Answer::Block(ByteList::from_slice(store.allocator(), &no_block())?)),
    }
}
