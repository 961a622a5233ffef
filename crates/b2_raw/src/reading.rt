// Sectors are read, wherever they lie.
ghost use Rattle.std.specs.Prelude.{◌≡◌, Ok, Err, IfOk, IfErr};
ghost use Rattle.b2_catalog.specs.Results.{FailsBy};
ghost use Rattle.b2_record.specs.Asking.{as_values};
ghost use Rattle.b2_raw.specs.Raw.{block_at, loaded};

use b2_base::codes::{I98_SECTOR, X70_TOO_LITTLE, X74_OTHER_KIND};
use b2_base::{Code, Fault};
use b2_dec::{Kind, Value};
use b2_platter::Platter;
use b2_record::{agree, end_sector, take};
use std::alloc::Global;

/// The bytes of a sector. I98 where it isn't one of the platter.
pub fn block(p: &Platter, at: u32) -> Result<[u8; 256], Code>
    ensures ok { IfOk result (λ bytes. block_at p.now at ≡ Ok bytes) }
    ensures err { IfErr result (λ code. block_at p.now at ≡ Err code) }
{
    if at >= p.sectors() {
        return Err(Code::known(I98_SECTOR));
    }
    Ok(*p.sector(at))
}

/// Loads the record from a sector on: its first values, as many as there are kinds, and the next sector; None where the
/// sector is the end mark. I98 where it isn't a sector of the platter, else D88 where no record is spelled from it on, else
/// X74 where a value is of another kind than asked, else X70 where more values are asked than there are.
pub fn load(
    alloc: Global,
    p: &Platter,
    at: u32,
    kinds: &[Kind],
) -> Result<Option<(Vec<Value>, u32)>, Fault>
    ensures ok { IfOk result (λ given. loaded p.now at kinds.now ≡ Ok (as_values given)) }
    ensures err { IfErr result (FailsBy (loaded p.now at kinds.now)) }
{
    let total = p.sectors();
    if at >= total {
        return Err(Fault::Code(Code::known(I98_SECTOR)));
    }
    if end_sector::is_end_mark(p.sector(at)) {
        return Ok(None);
    }
    let last = total - 1;
    let (values, count) = match take(alloc, p, at, last) {
        Ok(found) => found,
        Err(fault) => return Err(fault),
    };
    if !agree(kinds, &values) {
        return Err(Fault::Code(Code::known(X74_OTHER_KIND)));
    }
    if values.len() < kinds.len() {
        return Err(Fault::Code(Code::known(X70_TOO_LITTLE)));
    }
    let mut asked = values;
    asked.truncate(kinds.len());
    Ok(Some((asked, at + count)))
}
