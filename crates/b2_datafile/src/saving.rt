// Records and end marks are written.
ghost use Rattle.std.specs.Prelude.{◌≡◌, ◌+◌, ◌-◌, ◌^◌, ◌<◌, ◌≤◌, ℕ, true, Some, None, IfSome, IfOk, IfErr, OnOk, length};
ghost use Rattle.std.specs.FinMap.{get, insert};
ghost use Rattle.std.specs.List.{list_all};
ghost use Rattle.b2_platter.specs.Layout.{layout_of};
ghost use Rattle.b2_platter.specs.Edits.{is_data_sector, put_from};
ghost use Rattle.b2_catalog.specs.Catalogue.{catalogue};
ghost use Rattle.b2_record.specs.Items.{is_short};
ghost use Rattle.b2_record.specs.Writing.{record_of};
ghost use Rattle.b2_datafile.specs.Files.{with_end};
ghost use Rattle.b2_datafile.specs.Slots.{file_of, write_refusal};

use crate::opening::file_of;
use b2_base::codes::{D80_NOT_OPEN, D81_FILE_FULL};
use b2_base::{Code, Slot};
use b2_catalog::{Entry, set_used};
use b2_dec::Value;
use b2_platter::Platter;
use b2_record::{end_sector, put_next, sectors_of};

/// Writes the record of these values from a sector on.
fn put_record(p: &mut Platter, at: u32, values: &[Value], count: u32)
    requires short { list_all is_short values.now ≡ true }
    requires count { count ≡ length (record_of values.now) }
    requires few { count ≤ 255 }
    requires ends { at + count < 2 ^ 32 }
    requires sectors { (n : ℕ) → at ≤ n → n < at + count → is_data_sector (layout_of p.old) p.old n ≡ true }
    ensures { p.new ≡ put_from p.old at (record_of values.now) }
{
    let _image = p.image();
    let mut sector = [0; 256];
    let mut rest = values;
    for k in 0..count {
        rest = put_next(rest, k + 1, &mut sector);
        p.put_file(at + k, &sector);
    }
}

/// Saves a record at a slot's place; the answer is the place after it. D80 where the slot's file isn't there, else D81
/// where the record needs more than 255 sectors, or would pass the last sector before the file's control sector.
pub fn save(p: &mut Platter, s: &Slot, values: &[Value]) -> Result<u32, Code>
    requires short { list_all is_short values.now ≡ true }
    requires place { s.now.start ≤ s.now.pos }
    ensures ok { IfOk result (λ pos. (write_refusal (file_of p.old s.now) s.now.pos (length (record_of values.now)) ≡ None) × (pos ≡ s.now.pos + length (record_of values.now))) }
    ensures image { OnOk result (p.new ≡ put_from p.old s.now.pos (record_of values.now)) }
    ensures err { IfErr result (λ code. (write_refusal (file_of p.old s.now) s.now.pos (length (record_of values.now)) ≡ Some code) × (p.new ≡ p.old)) }
{
    let Some(e) = file_of(p, s) else {
        return Err(Code::known(D80_NOT_OPEN));
    };
    let Some(count) = sectors_of(values) else {
        return Err(Code::known(D81_FILE_FULL));
    };
    if s.pos > e.end || count > e.end - s.pos {
        return Err(Code::known(D81_FILE_FULL));
    }
    put_record(p, s.pos, values, count);
    Ok(s.pos + count)
}

/// Writes the end mark at a place of a file and says that the sectors up to it are used.
pub(crate) fn put_end(p: &mut Platter, e: Entry, pos: u32)
    requires file { get (catalogue p.old) e.name ≡ Some e }
    requires live { e.live ≡ true }
    requires low { e.start ≤ pos }
    requires high { pos < e.end }
    ensures image { p.new ≡ with_end p.old e pos }
    ensures files { catalogue p.new ≡ insert (catalogue p.old) e.name (record e { used = pos - e.start + 1 }) }
{
    let _image = p.image();
    p.put_file(pos, &end_sector::end_mark());
    set_used(p, e, pos - e.start + 1);
}

/// Writes the end mark at a slot's place and says that the sectors up to it are used; the answer is the place. D80 where
/// the slot's file isn't there, else D81 where the place isn't before the file's control sector.
pub fn end(p: &mut Platter, s: &Slot) -> Result<u32, Code>
    requires { s.now.start ≤ s.now.pos }
    ensures ok { IfOk result (λ pos. (write_refusal (file_of p.old s.now) s.now.pos 1 ≡ None) × (pos ≡ s.now.pos)) }
    ensures image { OnOk result (IfSome (file_of p.old s.now) (λ e. p.new ≡ with_end p.old e s.now.pos)) }
    ensures files { OnOk result (IfSome (file_of p.old s.now) (λ e. catalogue p.new ≡ insert (catalogue p.old) e.name (record e { used = s.now.pos - e.start + 1 }))) }
    ensures err { IfErr result (λ code. (write_refusal (file_of p.old s.now) s.now.pos 1 ≡ Some code) × (p.new ≡ p.old)) }
{
    let Some(e) = file_of(p, s) else {
        return Err(Code::known(D80_NOT_OPEN));
    };
    if s.pos >= e.end {
        return Err(Code::known(D81_FILE_FULL));
    }
    put_end(p, e, s.pos);
    Ok(s.pos)
}
