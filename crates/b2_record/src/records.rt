// Records: a list of values in as many sectors as it needs.
ghost use Rattle.std.specs.Prelude.{◌≡◌, ◌==◌, ◌||◌, ◌+◌, ◌-◌, ◌<◌, ◌≤◌, ◌∷◌, ◌++◌, true, min, Some, None, OnOk, OnSome, IfOk, IfErr, length, nat_le, drop, take, if◌then◌else◌};
ghost use Rattle.std.specs.List.{list_all, slice_get};
ghost use Rattle.b2_platter.specs.Own.{sectors_of};
ghost use Rattle.b2_platter.specs.Image.{sectors_at};
ghost use Rattle.b2_record.specs.Items.{is_short, AllStorable};
ghost use Rattle.b2_platter.specs.Reading.{Unspelled};
ghost use Rattle.b2_record.specs.Records.{goes_over, sectors_from, Spells, IsNoRecord};
ghost use Rattle.b2_record.specs.Reading.{record_at};
ghost use Rattle.b2_record.specs.Writing.{groups_of, record_of, first_count, sectors_left};

use crate::items::{bytes_len, value_width};
use crate::sectors::{ROOM, group_at, sector_kind, write_sector};
use b2_base::codes::D88_FORMAT;
use b2_base::{Code, Fault, NoMemory};
use b2_dec::Value;
use b2_platter::Platter;
use std::alloc::Global;

/// How many sectors a record has at most.
const MOST_SECTORS: u32 = 255;

/// How many of the values go into one sector.
fn first_count(values: &[Value]) -> usize
    requires { list_all is_short values.now ≡ true }
    ensures count { result ≡ first_count 0 values.now }
    ensures within { result ≤ length values.now }
    ensures storable { AllStorable (take result values.now) }
{
    let mut used = 0;
    let mut count = 0;
    for value in values {
        used += value_width(value);
        if used > ROOM {
            return count;
        }
        count += 1;
    }
    count
}

/// The values that don't go into the first sector.
fn after_first(values: &[Value]) -> &[Value]
    requires { list_all is_short values.now ≡ true }
    ensures value { result.now ≡ drop (first_count 0 values.now) values.now }
    ensures short { list_all is_short result.now ≡ true }
    ensures storable { AllStorable result.now → AllStorable values.now }
{
    let (_, after) = values.split_at(first_count(values));
    after
}

/// How many sectors the record of these values has, None exactly where there are more than 255.
pub fn sectors_of(values: &[Value]) -> Option<u32>
    requires { list_all is_short values.now ≡ true }
    ensures count { result ≡ (if nat_le (length (record_of values.now)) 255 then Some (length (record_of values.now)) else None) }
    ensures record { OnSome result (Spells values.now (record_of values.now)) }
{
    let mut rest = after_first(values);
    let mut count = 1;
    while !rest.is_empty() {
        if count == MOST_SECTORS {
            return None;
        }
        rest = after_first(rest);
        count += 1;
    }
    Some(count)
}

/// The values from sector k of the record on.
fn from_sector(values: &[Value], k: u32) -> &[Value]
    requires short { list_all is_short values.now ≡ true }
    requires some { 1 ≤ k }
    requires within { k ≤ length (groups_of values.now) }
    ensures groups { groups_of result.now ≡ drop (k - 1) (groups_of values.now) }
    ensures short { list_all is_short result.now ≡ true }
{
    let mut rest = values;
    for _number in 1..k {
        rest = after_first(rest);
    }
    rest
}

/// Writes the sector with number k of the record that goes on with these values, and gives the values that are left for
/// the sectors after it.
pub fn put_next<'a>(values: &'a [Value], k: u32, into: &mut [u8; 256]) -> &'a [Value]
    requires short { list_all is_short values.now ≡ true }
    requires few { k ≤ 255 }
    ensures sectors { sectors_from k (groups_of values.now) ≡ into.new ∷ sectors_left (k + 1) result.now }
    ensures short { list_all is_short result.now ≡ true }
{
    let (group, after) = values.split_at(first_count(values));
    write_sector(sector_kind(k == 1, after.is_empty()), k as u8, group, into);
    after
}

/// Writes sector k of the record of these values, counted from 1.
pub fn put(values: &[Value], k: u32, into: &mut [u8; 256])
    requires short { list_all is_short values.now ≡ true }
    requires some { 1 ≤ k }
    requires within { k ≤ length (record_of values.now) }
    requires few { k ≤ 255 }
    ensures { slice_get (record_of values.now) (k - 1) ≡ Some into.new }
{
    let rest = from_sector(values, k);
    let _after = put_next(rest, k, into);
}

/// Whether the values of a further sector begin with one that had no room in the sector before.
fn goes_over(used: usize, values: &[Value]) -> bool
    requires storable { AllStorable values.now }
    requires few { used ≤ 253 }
    ensures { result ≡ goes_over used values.now }
{
    match values.first() {
        Some(value) => used + value_width(value) > ROOM,
        None => false,
    }
}

/// Whether values go on with a record of which some sectors were read, the last of them with some bytes of values.
fn follows(count: u32, used: usize, values: &[Value]) -> bool
    requires storable { AllStorable values.now }
    requires few { used ≤ 253 }
    ensures { result ≡ ((count == 0) || goes_over used values.now) }
{
    count == 0 || goes_over(used, values)
}

/// How many sectors a record from a sector on may have that ends at a last one or before.
fn sectors_left(at: u32, last: u32) -> u32
    ensures { result ≡ min 255 (last + 1 - at) }
{
    if last < at {
        return 0;
    }
    (last - at).min(MOST_SECTORS - 1) + 1
}

/// Adds values at the end.
fn add_all(values: &mut Vec<Value>, more: Vec<Value>) -> Result<(), NoMemory>
    ensures { OnOk result (values.new.items ≡ values.old.items ++ more.items) }
{
    let mut more = more;
    values.append(&mut more)?;
    Ok(())
}

/// The record that begins at a sector and ends at a last one or before, and how many sectors it has. D88 exactly where
/// none is spelled there.
pub fn take(alloc: Global, p: &Platter, at: u32, last: u32) -> Result<(Vec<Value>, u32), Fault>
    requires { last < sectors_of p.now }
    ensures ok { IfOk result (λ found. Spells found.0.items (sectors_at p.now at found.1)) }
    ensures within { IfOk result (λ found. at + found.1 ≤ last + 1) }
    ensures value { IfOk result (λ found. record_at p.now at last ≡ Some (found.0.items, found.1)) }
    ensures none { IfErr result (Unspelled (record_at p.now at last ≡ None)) }
    ensures err { IfErr result (Unspelled (IsNoRecord p.now at last)) }
{
    let mut values = Vec::new(alloc);
    let mut used = 0;
    let mut count = 0;
    let most = sectors_left(at, last);
    while count < most {
        let group = match group_at(alloc, p.sector(at + count), count as u8 + 1) {
            Ok(group) => group,
            Err(fault) => return Err(fault),
        };
        if !follows(count, used, &group.values) {
            return Err(Fault::Code(Code::known(D88_FORMAT)));
        }
        used = bytes_len(&group.values);
        add_all(&mut values, group.values)?;
        count += 1;
        if group.is_last {
            return Ok((values, count));
        }
    }
    Err(Fault::Code(Code::known(D88_FORMAT)))
}
