// Sectors after the catalogue are written.
ghost use Rattle.std.specs.Prelude.{◌≡◌, ◌+◌, ◌^◌, ◌<◌, ◌≤◌, [], ◌∷◌, ◌++◌, drop, true, Ok, Err, IfOk, IfErr, length};
ghost use Rattle.std.specs.List.{list_all};
ghost use Rattle.b2_platter.specs.Checks.{IsGood};
ghost use Rattle.b2_platter.specs.Own.{end_of, sectors_of};
ghost use Rattle.b2_platter.specs.Edits.{put_from};
ghost use Rattle.b2_record.specs.Items.{is_short};
ghost use Rattle.b2_record.specs.Writing.{record_of};
ghost use Rattle.b2_raw.specs.Raw.{are_spare, block_put, ended, filled, saved, written_at};

use b2_base::Code;
use b2_base::codes::{D81_FILE_FULL, I98_SECTOR};
use b2_dec::Value;
use b2_platter::Platter;
use b2_record::end_sector::end_mark;
use b2_record::{put_next, sectors_of};

/// Whether so many sectors from one on lie after the catalogue, and are sectors of the platter.
fn are_spare(p: &Platter, at: u32, count: u32) -> bool
    ensures value { result ≡ are_spare p.now at count }
    ensures good { IsGood p.now }
{
    let total = p.sectors();
    p.catalogue_end() <= at && u64::from(at) + u64::from(count) <= u64::from(total)
}

/// Writes the record of these values from a sector on.
fn put_record(p: &mut Platter, at: u32, values: &[Value], count: u32)
    requires short { list_all is_short values.now ≡ true }
    requires count { count ≡ length (record_of values.now) }
    requires few { count ≤ 255 }
    requires ends { at + count < 2 ^ 32 }
    requires low { end_of p.old ≤ at }
    requires high { at + count ≤ sectors_of p.old }
    ensures { p.new ≡ put_from p.old at (record_of values.now) }
{
    let _image = p.image();
    let mut sector = [0; 256];
    let mut rest = values;
    for k in 0..count {
        rest = put_next(rest, k + 1, &mut sector);
        p.put_spare(at + k, &sector);
    }
}

/// Saves the record of these values from a sector on; the answer is the next sector. D81 where the record needs more than
/// 255 sectors, else I98 where one of its sectors lies before the catalogue's end, or isn't a sector of the platter. A
/// refusal writes nothing.
pub fn save(p: &mut Platter, at: u32, values: &[Value]) -> Result<u32, Code>
    requires { list_all is_short values.now ≡ true }
    ensures ok { IfOk result (λ next. saved p.old at values.now ≡ Ok (p.new, next)) }
    ensures err { IfErr result (λ code. (saved p.old at values.now ≡ Err code) × (p.new ≡ p.old)) }
{
    let Some(count) = sectors_of(values) else {
        return Err(Code::known(D81_FILE_FULL));
    };
    if !are_spare(p, at, count) {
        return Err(Code::known(I98_SECTOR));
    }
    put_record(p, at, values, count);
    Ok(at + count)
}

/// Writes one sector; the answer is the next one.
fn put_sector(p: &mut Platter, at: u32, sector: &[u8; 256]) -> Result<u32, Code>
    ensures ok { IfOk result (λ next. written_at p.old at (sector.now ∷ []) ≡ Ok (p.new, next)) }
    ensures err { IfErr result (λ code. (written_at p.old at (sector.now ∷ []) ≡ Err code) × (p.new ≡ p.old)) }
{
    if !are_spare(p, at, 1) {
        return Err(Code::known(I98_SECTOR));
    }
    p.put_spare(at, sector);
    Ok(at + 1)
}

/// Writes the end mark to a sector; the answer is the next sector. I98 where the sector lies before the catalogue's end, or
/// isn't one of the platter; then nothing is written.
pub fn end(p: &mut Platter, at: u32) -> Result<u32, Code>
    ensures ok { IfOk result (λ next. ended p.old at ≡ Ok (p.new, next)) }
    ensures err { IfErr result (λ code. (ended p.old at ≡ Err code) × (p.new ≡ p.old)) }
{
    put_sector(p, at, &end_mark())
}

/// Puts bytes at the front.
fn put_front(into: &mut [u8], bytes: &[u8])
    requires { length bytes.now ≤ length into.old }
    ensures { into.new ≡ bytes.now ++ drop (length bytes.now) into.old }
{
    into[..bytes.len()].copy_from_slice(bytes);
}

/// The bytes, and 00 to the end of a sector.
fn filled(bytes: &[u8]) -> [u8; 256]
    requires { length bytes.now ≤ 256 }
    ensures { result ≡ filled bytes.now }
{
    let mut sector = [0; 256];
    put_front(&mut sector, bytes);
    sector
}

/// Writes bytes to a sector, and 00 to its end; the answer is the next sector. I98 where the sector lies before the
/// catalogue's end, or isn't one of the platter; then nothing is written.
pub fn put_block(p: &mut Platter, at: u32, bytes: &[u8]) -> Result<u32, Code>
    requires { length bytes.now ≤ 256 }
    ensures ok { IfOk result (λ next. block_put p.old at bytes.now ≡ Ok (p.new, next)) }
    ensures err { IfErr result (λ code. (block_put p.old at bytes.now ≡ Err code) × (p.new ≡ p.old)) }
{
    put_sector(p, at, &filled(bytes))
}
