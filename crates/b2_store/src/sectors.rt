// What disks do with sectors by their number.
ghost use Rattle.std.specs.Prelude.{◌≡◌, ◌≤◌, length, true, Ok, Err, IfOk, IfErr};
ghost use Rattle.std.specs.List.{list_all};
ghost use Rattle.b2_platter.specs.Checks.{IsGood};
ghost use Rattle.b2_access.specs.AccessRows.{loaded_answer, no_block};
ghost use Rattle.b2_access.specs.Touching.{is_short};
ghost use Rattle.b2_store.specs.DiskWork.{disks};
ghost use Rattle.b2_store.specs.Refusals as spec;

use b2_access::Answer;
use b2_base::{ByteList, Code, Fault, NoMemory};
use b2_dec::{Kind, Value, ValueList};
use b2_platter::Platter;
use b2_raw::{block, end, load, put_block, save};
use std::alloc::Global;

/// Saves a record to the sectors from one on.
pub fn save_at(p: &mut Platter, at: u32, values: &[Value]) -> Result<u32, Code>
    requires { list_all is_short values.now ≡ true }
    ensures ok { IfOk result (λ next. disks.raw_save at values.now p.old ≡ Ok (record { image = p.new; told = next })) }
    ensures err { IfErr result (λ code. (disks.raw_save at values.now p.old ≡ Err code) × (p.new ≡ p.old)) }
{
    match save(p, at, values) {
        Ok(next) => Ok(next),
        Err(code) => Err(code),
    }
}

/// Writes the end mark to a sector.
pub fn end_at(p: &mut Platter, at: u32) -> Result<u32, Code>
    ensures ok { IfOk result (λ next. disks.raw_end at p.old ≡ Ok (record { image = p.new; told = next })) }
    ensures err { IfErr result (λ code. (disks.raw_end at p.old ≡ Err code) × (p.new ≡ p.old)) }
{
    match end(p, at) {
        Ok(next) => Ok(next),
        Err(code) => Err(code),
    }
}

/// Loads values of these kinds from the record in the sectors from one on.
pub fn load_at(alloc: Global, p: &Platter, at: u32, kinds: &[Kind]) -> Result<Answer, NoMemory>
    ensures { IfOk result (λ answer. answer ≡ spec.found_answer loaded_answer (disks.raw_load at kinds.now p.now)) }
{
    match load(alloc, p, at, kinds) {
        Ok(found) => match found {
            Some((values, next)) => Ok(Answer::Values(ValueList::new(values), next)),
            None => Ok(Answer::AtEnd),
        },
        Err(fault) => match fault {
            Fault::Code(code) => Ok(Answer::Refused(code)),
            Fault::NoMemory => Err(NoMemory),
        },
    }
}

/// Writes bytes to a sector.
pub fn put_at(p: &mut Platter, at: u32, bytes: &[u8]) -> Result<u32, Code>
    requires { length bytes.now ≤ 256 }
    ensures ok { IfOk result (λ next. disks.block_save at bytes.now p.old ≡ Ok (record { image = p.new; told = next })) }
    ensures err { IfErr result (λ code. (disks.block_save at bytes.now p.old ≡ Err code) × (p.new ≡ p.old)) }
{
    match put_block(p, at, bytes) {
        Ok(next) => Ok(next),
        Err(code) => Err(code),
    }
}

/// Reads the bytes of a sector.
pub fn read_at(alloc: Global, p: &Platter, at: u32) -> Result<Answer, NoMemory>
    ensures value { IfOk result (λ answer. answer ≡ spec.block_answer (disks.block_load at p.now)) }
    ensures good { IsGood p.now }
{
    let _image = p.image();
    match block(p, at) {
        Ok(bytes) => Ok(Answer::Block(ByteList::from_slice(alloc, &bytes)?)),
        Err(code) => Ok(Answer::Refused(code)),
    }
}

/// The bytes of a sector of a disk that isn't there.
pub fn no_block() -> [u8; 256]
    ensures { result ≡ no_block }
{
    [0; 256]
}
