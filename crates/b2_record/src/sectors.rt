// One sector of a record, written and read.
ghost use Rattle.std.specs.Prelude.{◌≡◌, ◌==◌, ◌+◌, ◌-◌, ◌≤◌, [], ◌∷◌, ◌++◌, Bool, true, List, IfSome, IfNone, IfOk, IfErr, OnOk, length, replicate};
ghost use Rattle.b2_dec.specs.declared.values.Value.{Value as AnyValue};
ghost use Rattle.b2_record.specs.Items.{value_spelled, group_bytes, is_short, AllStorable};
ghost use Rattle.std.specs.List.{list_all};
ghost use Rattle.b2_platter.specs.Reading.{Unspelled};
ghost use Rattle.b2_record.specs.Records.{sector_kind, sector_of, fits_in_sector, IsGroup};

use crate::items::{ALPHA, END_OF_VALUES, NUMBER, value_at, value_width};
use arrayvec::ArrayVec;
use b2_base::codes::D88_FORMAT;
use b2_base::{Code, Fault, NoMemory, lexical};
use b2_dec::{Value, pack};
use b2_platter::slot;
use std::alloc::Global;

/// How many bytes of values fit into a sector, between its kind and its number, and the byte that ends the values.
pub const ROOM: usize = 253;

/// The kind of the only sector of a record.
pub const ONLY: u8 = 0x81;
/// The kind of the first of several sectors.
pub const FIRST: u8 = 0x82;
/// The kind of a sector between the first and the last.
pub const MIDDLE: u8 = 0x83;
/// The kind of the last of several sectors.
pub const LAST: u8 = 0x84;

/// The kind of a sector, by whether it is the first of its record, and whether it is the last.
pub(crate) fn sector_kind(is_first: bool, is_last: bool) -> u8
    ensures { result ≡ sector_kind is_first is_last }
{
    match (is_first, is_last) {
        (true, true) => ONLY,
        (true, false) => FIRST,
        (false, false) => MIDDLE,
        (false, true) => LAST,
    }
}

/// Whether a sector of this kind is the last of its record, None where it has another kind than a first or a further
/// sector may have.
fn last_by(kind: u8, is_first: bool) -> Option<bool>
    ensures some { IfSome result (λ last. kind ≡ sector_kind is_first last) }
    ensures none { IfNone result ((last : Bool) → ¬ (kind ≡ sector_kind is_first last)) }
{
    if kind == sector_kind(is_first, true) {
        return Some(true);
    }
    if kind == sector_kind(is_first, false) {
        return Some(false);
    }
    None
}

/// The bytes of a sector as far as they are written.
type Draft = ArrayVec<u8, 256>;

/// Adds bytes at the end.
fn write(draft: &mut Draft, bytes: &[u8])
    requires { length draft.old.items + length bytes.now ≤ 256 }
    ensures { draft.new.items ≡ draft.old.items ++ bytes.now }
{
    let _fits = draft.try_extend_from_slice(bytes);
}

/// Adds a value.
fn write_value(draft: &mut Draft, value: &Value)
    requires short { is_short value.now ≡ true }
    requires room { length draft.old.items + length (value_spelled value.now) ≤ 256 }
    ensures { draft.new.items ≡ draft.old.items ++ value_spelled value.now }
{
    match value {
        Value::Number(x) => {
            write(draft, &[NUMBER]);
            write(draft, &pack(*x));
        }
        Value::Alpha(bytes) => {
            write(draft, &[ALPHA + bytes.len() as u8]);
            write(draft, bytes.bytes());
        }
    }
}

/// Adds values.
fn write_values(draft: &mut Draft, values: &[Value])
    requires short { list_all is_short values.now ≡ true }
    requires room { length draft.old.items + length (group_bytes values.now) ≤ 256 }
    ensures { draft.new.items ≡ draft.old.items ++ group_bytes values.now }
{
    for value in values {
        write_value(draft, value);
    }
}

/// Adds 00 up to the end of the sector.
fn fill_up(draft: &mut Draft)
    requires { length draft.old.items ≤ 256 }
    ensures { draft.new.items ≡ draft.old.items ++ replicate (256 - length draft.old.items) 0 }
{
    while draft.len() < 256 {
        write(draft, &[0]);
    }
}

/// Writes a sector: its kind, its number within the record, its values, the byte that ends them, and 00 to the end.
pub(crate) fn write_sector(kind: u8, number: u8, values: &[Value], into: &mut [u8; 256])
    requires short { list_all is_short values.now ≡ true }
    requires room { fits_in_sector values.now ≡ true }
    ensures { into.new ≡ sector_of kind number values.now }
{
    let mut draft = Draft::new();
    write(&mut draft, &[kind, number]);
    write_values(&mut draft, values);
    write(&mut draft, &[END_OF_VALUES]);
    fill_up(&mut draft);
    into.copy_from_slice(draft.as_slice());
}

/// Adds a value at the end.
fn add(values: &mut Vec<Value>, value: Value) -> Result<(), NoMemory>
    ensures { OnOk result (values.new.items ≡ values.old.items ++ value ∷ []) }
{
    values.push(value)?;
    Ok(())
}

/// The values at the front up to the byte that ends them, after which nothing but 00 follows. D88 where they are not
/// spelled so.
fn values_of(alloc: Global, bytes: &[u8]) -> Result<Vec<Value>, Fault>
    ensures ok { IfOk result (λ values. IsGroup values.items bytes.now) }
    ensures err { IfErr result (Unspelled ((group : List AnyValue) → ¬ IsGroup group bytes.now)) }
{
    let mut values = Vec::new(alloc);
    let mut rest = bytes;
    while lexical::first(rest) != END_OF_VALUES {
        let Some((value, len)) = value_at(rest) else {
            return Err(Fault::Code(Code::known(D88_FORMAT)));
        };
        add(&mut values, value)?;
        rest = lexical::rest_after(rest, len);
    }
    if !slot::all_zero(lexical::rest_after(rest, 1)) {
        return Err(Fault::Code(Code::known(D88_FORMAT)));
    }
    Ok(values)
}

/// A sector of a record as it is read.
#[derive(Drop)]
pub(crate) struct Group {
    /// Its values.
    pub(crate) values: Vec<Value>,
    /// Whether it is the last of its record.
    pub(crate) is_last: bool,
}

/// The sector of a number within its record. D88 where the bytes aren't those of such a sector.
pub(crate) fn group_at(alloc: Global, bytes: &[u8; 256], number: u8) -> Result<Group, Fault>
    ensures ok { IfOk result (λ group. AllStorable group.values.items × (bytes.now ≡ sector_of (sector_kind (number == 1) group.is_last) number group.values.items)) }
    ensures room { IfOk result (λ group. length (group_bytes group.values.items) ≤ 253) }
    ensures err { IfErr result (Unspelled ((last : Bool) (group : List AnyValue) → AllStorable group → ¬ (bytes.now ≡ sector_of (sector_kind (number == 1) last) number group))) }
{
    let Some(is_last) = last_by(bytes[0], number == 1) else {
        return Err(Fault::Code(Code::known(D88_FORMAT)));
    };
    if bytes[1] != number {
        return Err(Fault::Code(Code::known(D88_FORMAT)));
    }
    match values_of(alloc, lexical::rest_after(bytes, 2)) {
        Ok(values) => Ok(Group { values, is_last }),
        Err(fault) => Err(fault),
    }
}
