// A place in a file is moved over records.
ghost use Rattle.std.specs.Prelude.{◌≡◌, ◌+◌, ◌-◌, ◌<◌, ◌≤◌, Some, Ok, IfOk, IfErr};
ghost use Rattle.b2_platter.specs.Own.{sectors_of};
ghost use Rattle.b2_platter.specs.Reading.{Unspelled};
ghost use Rattle.b2_catalog.specs.declared.entry.Entry.{Entry as File};
ghost use Rattle.b2_datafile.specs.Slots.{file_of};
ghost use Rattle.b2_datafile.specs.Moving.{Ahead, NoneAhead, Behind, NoneBehind, IsNoRecordBefore, IsRecordFrom, Moves, SkipFails, place_moved};
ghost use Rattle.b2_catalog.specs.Results.{FailsBy};

use crate::loading::is_end_of_records;
use crate::opening::file_of;
use b2_base::codes::{D80_NOT_OPEN, D88_FORMAT};
use b2_base::{By, Code, Fault, Slot};
use b2_catalog::Entry;
use b2_platter::Platter;
use b2_record::take;
use std::alloc::Global;

/// Moves a slot's place: over records towards the end, up to where they end; over records towards the beginning, up to the
/// first; to the beginning; or to the end mark. D80 where the slot's file isn't there, else D88 where a record is to be
/// passed and none is spelled there.
pub fn skip(alloc: Global, p: &Platter, s: &Slot, by: By) -> Result<u32, Fault>
    requires { s.now.start ≤ s.now.pos }
    ensures value { IfOk result (λ pos. place_moved p.now s.now by ≡ Ok pos) }
    ensures fails { IfErr result (FailsBy (place_moved p.now s.now by)) }
    ensures ok { IfOk result (λ pos. (e : File) × (file_of p.now s.now ≡ Some e) × Moves p.now e s.now.pos by pos) }
    ensures err { IfErr result (SkipFails p.now s.now by) }
{
    let Some(e) = file_of(p, s) else {
        return Err(Fault::Code(Code::known(D80_NOT_OPEN)));
    };
    match by {
        By::Forward(count) => forward(alloc, p, &e, s.pos.min(e.end), count),
        By::Back(count) => back(alloc, p, &e, s.pos.min(e.end), count),
        By::Begin => Ok(e.start),
        By::End => Ok(e.start + e.used - 1),
    }
}

/// The place after a number of records from a place on, or that where they end.
fn forward(alloc: Global, p: &Platter, e: &Entry, from: u32, count: u32) -> Result<u32, Fault>
    requires order { e.now.start < e.now.end }
    requires within { e.now.end < sectors_of p.now }
    ensures ok { IfOk result (Ahead p.now e.now count from) }
    ensures err { IfErr result (Unspelled (NoneAhead p.now e.now count from)) }
{
    let last = e.end - 1;
    let mut pos = from;
    for _passed in 0..count {
        if is_end_of_records(p, e, pos) {
            return Ok(pos);
        }
        match take(alloc, p, pos, last) {
            Ok((_, sectors)) => pos += sectors,
            Err(fault) => return Err(fault),
        }
    }
    Ok(pos)
}

/// The place a number of records before a place, or the file's first.
fn back(alloc: Global, p: &Platter, e: &Entry, from: u32, count: u32) -> Result<u32, Fault>
    requires within { from ≤ sectors_of p.now }
    ensures ok { IfOk result (Behind p.now e.now count from) }
    ensures err { IfErr result (Unspelled (NoneBehind p.now e.now count from)) }
{
    let mut pos = from;
    for _passed in 0..count {
        if pos <= e.start {
            return Ok(pos);
        }
        match before(alloc, p, e, pos) {
            Ok(place) => pos = place,
            Err(fault) => return Err(fault),
        }
    }
    Ok(pos)
}

/// Where the record begins that ends directly before a place. D88 where none does. The number in its last sector says how
/// many sectors it has.
fn before(alloc: Global, p: &Platter, e: &Entry, pos: u32) -> Result<u32, Fault>
    requires low { e.now.start < pos }
    requires high { pos ≤ sectors_of p.now }
    ensures ok { IfOk result (IsRecordFrom p.now e.now pos) }
    ensures err { IfErr result (Unspelled (IsNoRecordBefore p.now e.now pos)) }
{
    let last = pos - 1;
    let count = u32::from(p.sector(last)[1]);
    if count == 0 {
        return Err(Fault::Code(Code::known(D88_FORMAT)));
    }
    if count > pos - e.start {
        return Err(Fault::Code(Code::known(D88_FORMAT)));
    }
    let found = match take(alloc, p, pos - count, last) {
        Ok((_, sectors)) => sectors,
        Err(fault) => return Err(fault),
    };
    if found != count {
        return Err(Fault::Code(Code::known(D88_FORMAT)));
    }
    Ok(pos - count)
}
