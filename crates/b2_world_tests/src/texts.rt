// Accesses to texts and to who stands inside them, as rows spell them.
//
// `put LINE SOURCE`, `take LINE`, `erase FROM TO` and `clear [NAME]` edit the own text; `giving HOMES EDIT` is an edit that gives texts
// back, those of the partitions in HOMES, which have commas between them. `enter NAME MARK` enters the text of who holds a name at a
// DEFFN', `leave HOME` leaves that of a partition once, and `drop HOMES` gives texts back.
ghost use Rattle.std.specs.Prelude.{IfSome};
ghost use Rattle.b2_access.specs.Touching.{IsLegal};

use crate::pieces::word;
use crate::places::line_spelled;
use b2_access::Access;
use b2_atom::Atoms;
use b2_base::{Name8, Part, cut};
use b2_cases::{Sheet, number_of, small_of, str_of};

/// The mask of some partitions with commas between them; what is no partition is left out.
fn homes_of(spelled: &[u8]) -> u16 {
    let mut homes = 0;
    let mut left = spelled;
    for _ in 0..16u8 {
        let (first, rest) = cut(left, b',');
        if let Some(p) = Part::of(small_of(first)) {
            homes |= p.bit();
        }
        left = rest.unwrap_or(&[]);
    }
    homes
}

/// The atoms of a line that is put.
fn put_of(sheet: &mut Sheet<'_>, text: &[u8]) -> Option<Atoms> {
    let bytes = sheet.spelled(text);
    line_spelled(sheet, &bytes)
}

/// An edit of the own text, None where it is misspelled.
fn edit_of(sheet: &mut Sheet<'_>, homes: u16, kind: &str, rest: &[u8]) -> Option<Access>
    ensures { IfSome result IsLegal }
{
    let (number, text) = word(rest);
    let line = number_of(number).min(9999);
    match kind {
        "put" => Some(Access::PutLine {
            line,
            atoms: Some(put_of(sheet, text)?),
            homes,
        }),
        "take" => Some(Access::PutLine {
            line,
            atoms: None,
            homes,
        }),
        "erase" => Some(Access::Erase {
            from: line,
            to: number_of(text),
            homes,
        }),
        "clear" => Some(Access::ClearAll {
            name: Name8::of(number),
            homes,
        }),
        _ => None,
    }
}

/// An edit of the own text that may give texts back, None where it is misspelled.
pub fn edit(sheet: &mut Sheet<'_>, kind: &str, rest: &[u8]) -> Option<Access>
    ensures { IfSome result IsLegal }
{
    match kind {
        "giving" => {
            let (homes, spelled) = word(rest);
            let (first, more) = word(spelled);
            edit_of(sheet, homes_of(homes), str_of(first), more)
        }
        _ => edit_of(sheet, 0, kind, rest),
    }
}

/// An access to who stands inside a text, None where it is misspelled.
pub fn at_borrowers(kind: &str, rest: &[u8]) -> Option<Access>
    ensures { IfSome result IsLegal }
{
    let (first, second) = word(rest);
    match kind {
        "enter" => Some(Access::Enter {
            name: Name8::of(first)?,
            mark: small_of(second),
        }),
        "leave" => Some(Access::Leave {
            home: Part::of(small_of(first))?,
        }),
        _ => Some(Access::Drop {
            homes: homes_of(first),
        }),
    }
}
