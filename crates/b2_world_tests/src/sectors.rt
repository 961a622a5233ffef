// Accesses to sectors of disks by their number.
//
// `record ADDRESS SECTOR NUMBER BYTES` saves a record of a whole number and these bytes, `end ADDRESS SECTOR` writes the end mark,
// `records ADDRESS SECTOR KINDS` loads values of these kinds, an N for a number and an A for bytes, `block ADDRESS SECTOR BYTES` writes
// bytes, and `sector ADDRESS SECTOR` reads a sector.
ghost use Rattle.std.specs.Prelude.{◌≡◌, ◌&&◌, ◌≤◌, nat_le, length, true, IfSome};
ghost use Rattle.std.specs.List.{list_all};
ghost use Rattle.b2_access.specs.Touching.{IsLegal, is_short};

use crate::pieces::word;
use b2_access::Access;
use b2_base::{Addr, ByteList};
use b2_cases::{Sheet, whole_of};
use b2_dec::{Bytes, Dec, Kind, KindList, Value, ValueList};

/// Whether bytes may stand in a record.
fn is_storable(bytes: &[u8]) -> bool
    ensures { result ≡ (nat_le 1 (length bytes.now) && nat_le (length bytes.now) 124) }
{
    1 <= bytes.len() && bytes.len() <= 124
}

/// A number and bytes, None where these may not stand in a record.
fn values_of(sheet: &mut Sheet<'_>, spelled: &[u8]) -> Option<ValueList>
    ensures { IfSome result (λ values. list_all is_short values ≡ true) }
{
    let (number, text) = word(spelled);
    let alpha = Bytes::of(&sheet.spelled(text))?;
    if !is_storable(alpha.bytes()) {
        return None;
    }
    let mut values = Vec::new(sheet.alloc());
    let number = Dec::of_whole(u64::from(whole_of(number)));
    values.push(Value::Number(number)).ok()?;
    values.push(Value::Alpha(alpha)).ok()?;
    Some(ValueList::new(values))
}

/// The kinds that letters name.
fn kinds_of(sheet: &mut Sheet<'_>, letters: &[u8]) -> KindList {
    let mut kinds = Vec::new(sheet.alloc());
    for letter in letters {
        let kind = match *letter {
            b'N' => Kind::Number,
            _ => Kind::Alpha,
        };
        sheet.push(&mut kinds, kind);
    }
    KindList::new(kinds)
}

/// An access that writes bytes to a sector, None where they are too many.
fn writing(sheet: &mut Sheet<'_>, addr: Addr, at: u32, text: &[u8]) -> Option<Access>
    ensures { IfSome result IsLegal }
{
    let bytes = sheet.spelled(text);
    if bytes.len() > 256 {
        return None;
    }
    Some(Access::BlockSave {
        addr,
        at,
        bytes: ByteList::new(bytes),
    })
}

/// An access to sectors of a disk, None where it is misspelled.
pub fn at_sectors(sheet: &mut Sheet<'_>, kind: &str, spelled: &[u8]) -> Option<Access>
    ensures { IfSome result IsLegal }
{
    let (first, numbered) = word(spelled);
    let addr = Addr::of(first)?;
    let (number, rest) = word(numbered);
    let at = whole_of(number);
    match kind {
        "record" => Some(Access::RawSave {
            addr,
            at,
            values: values_of(sheet, rest)?,
        }),
        "end" => Some(Access::RawEnd { addr, at }),
        "records" => Some(Access::RawLoad {
            addr,
            at,
            kinds: kinds_of(sheet, rest),
        }),
        "block" => writing(sheet, addr, at, rest),
        _ => Some(Access::BlockLoad { addr, at }),
    }
}
