// Accesses, as rows spell them: at terminals, at disks and to names. Those to texts stand in `texts.rt`, and those of devices in
// `devices.rt`, those to programs on disks in `files.rt`, and those to sectors of disks in `sectors.rt`.
//
// `show TERMINAL BYTES`, `read TERMINAL`, `insert TERMINAL BYTES`, `key TERMINAL`, `release TERMINAL`; `limits ADDRESS [NAME]`, `list ADDRESS`, `scratch
// ADDRESS NAME`, `format ADDRESS SECTORS END`; `declare NAME [OLD]`, `find NAME`.
ghost use Rattle.std.specs.Prelude.{IfSome};
ghost use Rattle.b2_access.specs.Touching.{IsLegal};

use crate::pieces::word;
use crate::{devices, files, sectors, texts};
use b2_access::Access;
use b2_base::{Addr, ByteList, Name8, Term};
use b2_cases::{Sheet, small_of, str_of, whole_of};

/// An access at a terminal, None where it is misspelled.
fn at_terminal(sheet: &mut Sheet<'_>, kind: &str, rest: &[u8]) -> Option<Access>
    ensures { IfSome result IsLegal }
{
    let (number, text) = word(rest);
    let term = Term::of(small_of(number))?;
    match kind {
        "read" => Some(Access::ReadLine { term }),
        "key" => Some(Access::Key { term }),
        "release" => Some(Access::Release { term }),
        "show" => Some(Access::Show {
            term,
            bytes: ByteList::new(sheet.spelled(text)),
            column: 0,
        }),
        _ => Some(Access::Insert {
            term,
            bytes: ByteList::new(sheet.spelled(text)),
        }),
    }
}

/// An access at a disk, None where it is misspelled.
fn at_disk(kind: &str, rest: &[u8]) -> Option<Access>
    ensures { IfSome result IsLegal }
{
    let (address, text) = word(rest);
    let addr = Addr::of(address)?;
    let (first, second) = word(text);
    match kind {
        "limits" => Some(Access::Limits {
            addr,
            name: Name8::of(first),
        }),
        "list" => Some(Access::ListDisk { addr }),
        "scratch" => Some(Access::Scratch {
            addr,
            name: Name8::of(first)?,
        }),
        _ => Some(Access::Format {
            addr,
            index: whole_of(first),
            end: whole_of(second),
        }),
    }
}

/// An access to a name, None where it is misspelled.
fn at_name(kind: &str, rest: &[u8]) -> Option<Access>
    ensures { IfSome result IsLegal }
{
    let (first, second) = word(rest);
    let name = Name8::of(first)?;
    match kind {
        "find" => Some(Access::FindPart { name }),
        _ => Some(Access::Declare {
            name,
            old: Name8::of(second),
        }),
    }
}

/// An access, None where it is misspelled.
pub fn access_of(sheet: &mut Sheet<'_>, spelled: &[u8]) -> Option<Access>
    ensures { IfSome result IsLegal }
{
    let (first, rest) = word(spelled);
    let kind = str_of(first);
    match kind {
        "show" | "read" | "insert" | "key" | "release" => at_terminal(sheet, kind, rest),
        "limits" | "list" | "scratch" | "format" => at_disk(kind, rest),
        "declare" | "find" => at_name(kind, rest),
        "print" => devices::printing(sheet, rest),
        "hold" | "free" => devices::taking(kind, rest),
        "save" | "load" | "chain" | "move" => files::at_programs(kind, rest),
        "record" | "end" | "records" | "block" | "sector" => sectors::at_sectors(sheet, kind, rest),
        "enter" | "leave" | "drop" => texts::at_borrowers(kind, rest),
        _ => texts::edit(sheet, kind, rest),
    }
}
