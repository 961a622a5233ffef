// Accesses to programs on disks.
//
// `save ADDRESS NAME FROM TO` saves lines of the own text, `load ADDRESS NAME` and `chain ADDRESS NAME` load the lines of a program into it, in
// the place of the others or beside them, and `move FROM TO [NAME]` moves the file of a name to another disk, or all live files.
ghost use Rattle.std.specs.Prelude.{IfSome};
ghost use Rattle.b2_access.specs.Touching.{IsLegal};

use crate::pieces::word;
use b2_access::Access;
use b2_base::{Addr, Name8};
use b2_cases::number_of;

/// An access that saves lines, None where it is misspelled.
fn saving(addr: Addr, rest: &[u8]) -> Option<Access>
    ensures { IfSome result IsLegal }
{
    let (first, lines) = word(rest);
    let (from, to) = word(lines);
    let name = Name8::of(first)?;
    let _bytes = name.bytes();
    Some(Access::SaveProgram {
        addr,
        old: None,
        name,
        from: number_of(from),
        to: number_of(to),
    })
}

/// An access that loads a program, None where it is misspelled.
fn loading(addr: Addr, rest: &[u8], replace: bool) -> Option<Access>
    ensures { IfSome result IsLegal }
{
    let (first, _) = word(rest);
    Some(Access::LoadProgram {
        addr,
        name: Name8::of(first)?,
        replace,
        declared: None,
        homes: 0,
    })
}

/// An access that moves files, None where it is misspelled or names one disk twice.
fn moving(from: Addr, rest: &[u8]) -> Option<Access>
    ensures { IfSome result IsLegal }
{
    let (second, third) = word(rest);
    let to = Addr::of(second)?;
    if from == to {
        return None;
    }
    match Name8::of(third) {
        Some(name) => Some(Access::MoveFile { from, name, to }),
        None => Some(Access::MovePlatter { from, to }),
    }
}

/// An access to programs on a disk, None where it is misspelled.
pub fn at_programs(kind: &str, spelled: &[u8]) -> Option<Access>
    ensures { IfSome result IsLegal }
{
    let (first, rest) = word(spelled);
    let addr = Addr::of(first)?;
    match kind {
        "save" => saving(addr, rest),
        "load" => loading(addr, rest, true),
        "chain" => loading(addr, rest, false),
        _ => moving(addr, rest),
    }
}
