// How each access is served.
ghost use Rattle.std.specs.Prelude.{◌≡◌, true, IfOk, IfErr};
ghost use Rattle.b2_access.specs.Answering.{can_answer};
ghost use Rattle.b2_access.specs.Fitting.{AnswerFits};
ghost use Rattle.b2_access.specs.Touching.{IsLegal, MayWantMemory};
ghost use Rattle.b2_store.specs.Asked.{IsGoodIfRead, IsGoodIfSkipped};
ghost use Rattle.b2_store.specs.Doing.{Does, Serves};

use crate::device_calls::{close_devices, open_devices, print};
use crate::disk_calls::{
    data_end, data_load, data_new, data_open, data_save, format, limits, list_disk, scratch, skip,
};
use crate::lookups::Lookups;
use crate::name_calls::{declare, find_part};
use crate::sector_calls::{block_load, block_save, raw_end, raw_load, raw_save};
use crate::stops::stop;
use crate::terminal_calls::{insert, read_line, release, show, take_key};
use crate::text_calls::{clear_all, enter, erase, give_texts_back, leave, load_program, put_line};
use b2_access::{Access, Answer};
use b2_base::{NoMemory, Part};

/// Does what an access does that nothing stops.
fn perform<S: Lookups>(store: &mut S, who: Part, access: &Access) -> Result<Answer, NoMemory>
    requires legal { IsLegal access.now }
    ensures done { IfOk result (Does who access.now (S.state store.old) (S.state store.new)) }
    ensures memory { IfErr result (λ _. MayWantMemory access.now) }
    ensures good { IsGoodIfSkipped access.now (S.state store.old) }
    ensures good_read { IsGoodIfRead access.now (S.state store.old) }
{
    match access {
        Access::Show { term, bytes, .. } => show(store, *term, bytes.bytes()),
        Access::PrintTo { addr, bytes, .. } => print(store, *addr, bytes.bytes()),
        Access::OpenDevices { addrs } => Ok(open_devices(store, who, addrs)),
        Access::CloseDevices { addrs } => Ok(close_devices(store, who, addrs)),
        Access::ReadLine { term } => read_line(store, *term),
        Access::Insert { term, bytes } => insert(store, *term, bytes.bytes()),
        Access::Key { term } => Ok(take_key(store, *term)),
        Access::Release { term } => Ok(release(store, *term)),
        Access::PutLine { line, atoms, homes } => match atoms {
            Some(atoms) => put_line(store, who, *line, atoms, *homes),
            None => Ok(erase(store, who, *line, *line, *homes)),
        },
        Access::Erase { from, to, homes } => Ok(erase(store, who, *from, *to, *homes)),
        Access::ClearAll { name, homes } => Ok(clear_all(store, who, *name, *homes)),
        Access::Enter { name, mark } => enter(store, who, *name, *mark),
        Access::Leave { home } => Ok(leave(store, who, *home)),
        Access::Drop { homes } => Ok(give_texts_back(store, who, *homes)),
        Access::Declare { name, old } => declare(store, who, *name, *old),
        Access::FindPart { name } => Ok(find_part(store, *name)),
        Access::Limits { addr, name } => Ok(limits(store, *addr, *name)),
        Access::ListDisk { addr } => list_disk(store, *addr),
        Access::Scratch { addr, name } => Ok(scratch(store, *addr, *name)),
        Access::Format { addr, index, end } => Ok(format(store, *addr, *index, *end)),
        Access::DataNew {
            addr,
            old,
            sectors,
            name,
        } => Ok(data_new(store, *addr, *old, *sectors, *name)),
        Access::DataOpen { addr, name } => Ok(data_open(store, *addr, *name)),
        Access::DataSave { slot, values } => Ok(data_save(store, slot, values.values())),
        Access::DataEnd { slot } => Ok(data_end(store, slot)),
        Access::DataLoad { slot, kinds } => data_load(store, slot, kinds.kinds()),
        Access::Skip { slot, by } => skip(store, slot, *by),
        Access::SaveProgram {
            addr,
            old,
            name,
            from,
            to,
        } => store.save_program(who, *addr, *old, *name, *from, *to),
        Access::LoadProgram {
            addr,
            name,
            replace,
            declared,
            homes,
        } => load_program(store, who, *addr, *name, *replace, *declared, *homes),
        Access::RawSave { addr, at, values } => Ok(raw_save(store, *addr, *at, values.values())),
        Access::RawEnd { addr, at } => Ok(raw_end(store, *addr, *at)),
        Access::RawLoad { addr, at, kinds } => raw_load(store, *addr, *at, kinds.kinds()),
        Access::BlockSave { addr, at, bytes } => Ok(block_save(store, *addr, *at, bytes.bytes())),
        Access::BlockLoad { addr, at } => block_load(store, *addr, *at),
        Access::MovePlatter { from, to } => store.move_files(*from, *to, None),
        Access::MoveFile { from, name, to } => store.move_files(*from, *to, Some(*name)),
    }
}

/// Serves an access: what stops it is tested first, and then it is done. The answer is one that the access can have, and fits it.
pub fn serve_access<S: Lookups>(
    store: &mut S,
    who: Part,
    access: &Access,
) -> Result<Answer, NoMemory>
    requires legal { IsLegal access.now }
    ensures served { IfOk result (Serves who access.now (S.state store.old) (S.state store.new)) }
    ensures memory { IfErr result (λ _. MayWantMemory access.now) }
    ensures possible { IfOk result (λ a. can_answer access.now a ≡ true) }
    ensures fits { IfOk result (AnswerFits access.now) }
{
    match stop(store, who, access) {
        Some(answer) => Ok(answer),
        None => perform(store, who, access),
    }
}
