// Records are read.
ghost use Rattle.std.specs.Prelude.{◌≡◌, ◌↔◌, ◌<◌, ◌≤◌, IsTrue, IfOk, IfErr, Ok};
ghost use Rattle.b2_platter.specs.Own.{sectors_of};
ghost use Rattle.b2_datafile.specs.Files.{IsEndOfRecords};
ghost use Rattle.b2_catalog.specs.Results.{FailsBy};
ghost use Rattle.b2_record.specs.Asking.{as_values};
ghost use Rattle.b2_datafile.specs.Loading.{Loads, LoadFails, values_loaded};

use crate::opening::file_of;
use b2_base::codes::{D80_NOT_OPEN, X70_TOO_LITTLE, X74_OTHER_KIND};
use b2_base::{Code, Fault, Slot};
use b2_catalog::Entry;
use b2_dec::{Kind, Value};
use b2_platter::Platter;
use b2_record::{agree, end_sector, take};
use std::alloc::Global;

/// Whether the records of a file end at a place: that of its control sector, one after it, or one with the end mark.
pub(crate) fn is_end_of_records(p: &Platter, e: &Entry, pos: u32) -> bool
    requires { e.now.end < sectors_of p.now }
    ensures { IsTrue result ↔ IsEndOfRecords p.now e.now pos }
{
    e.end <= pos || end_sector::is_end_mark(p.sector(pos))
}

/// Loads the record at a slot's place: its first values, as many as there are kinds, and the place after it; None where
/// the records end there. D80 where the slot's file isn't there, else D88 where no record is spelled at the place, else
/// X74 where a value is of another kind than asked, else X70 where more values are asked than there are.
pub fn load(
    alloc: Global,
    p: &Platter,
    s: &Slot,
    kinds: &[Kind],
) -> Result<Option<(Vec<Value>, u32)>, Fault>
    requires { s.now.start ≤ s.now.pos }
    ensures value { IfOk result (λ given. values_loaded p.now s.now kinds.now ≡ Ok (as_values given)) }
    ensures fails { IfErr result (FailsBy (values_loaded p.now s.now kinds.now)) }
    ensures ok { IfOk result (Loads p.now s.now kinds.now) }
    ensures err { IfErr result (LoadFails p.now s.now kinds.now) }
{
    let Some(e) = file_of(p, s) else {
        return Err(Fault::Code(Code::known(D80_NOT_OPEN)));
    };
    if is_end_of_records(p, &e, s.pos) {
        return Ok(None);
    }
    let pos = s.pos;
    let last = e.end - 1;
    let (values, count) = match take(alloc, p, pos, last) {
        Ok(found) => found,
        Err(fault) => return Err(fault),
    };
    if !agree(kinds, &values) {
        return Err(Fault::Code(Code::known(X74_OTHER_KIND)));
    }
    if values.len() < kinds.len() {
        return Err(Fault::Code(Code::known(X70_TOO_LITTLE)));
    }
    let mut asked = values;
    asked.truncate(kinds.len());
    Ok(Some((asked, pos + count)))
}
