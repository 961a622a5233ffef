// What disks do to an image.
ghost use Rattle.std.specs.Prelude.{◌≡◌, Ok, Err, OnOk, IfErr};
ghost use Rattle.b2_access.specs.AccessRows.{four_answer};
ghost use Rattle.b2_store.specs.DiskWork.{disks, kind_number, limits_of};

use b2_access::Answer;
use b2_base::{Code, Name8};
use b2_catalog::{Entry, format, limits, look, scratch};
use b2_platter::Platter;

/// The kind of a file: 1 a program, 2 data, negative where it is scratched.
fn kind_number(e: &Entry) -> i64
    ensures { result ≡ kind_number e.now }
{
    let kind = if e.program { 1 } else { 2 };
    if e.live { kind } else { -kind }
}

/// The limits of a file, all 0 where there is none, or of the catalogue.
pub fn limits_answer(p: &Platter, name: Option<Name8>) -> Answer
    ensures { result ≡ four_answer (limits_of name p.now) }
{
    let Some(name) = name else {
        let (index, end, next) = limits(p);
        return Answer::Four(i64::from(index), i64::from(end), i64::from(next), 0);
    };
    match look(p, name) {
        Some(e) => Answer::Four(
            i64::from(e.start),
            i64::from(e.end),
            i64::from(e.used),
            kind_number(&e),
        ),
        None => Answer::Four(0, 0, 0, 0),
    }
}

/// Scratches a file.
#[tactic(auto, using(crate::proofs::DiskCalls::scratch_refused))]
pub fn scratch_file(p: &mut Platter, name: Name8) -> Result<(), Code>
    ensures ok { OnOk result (disks.scratch name p.old ≡ Ok p.new) }
    ensures err { IfErr result (λ code. (disks.scratch name p.old ≡ Err code) × (p.new ≡ p.old)) }
{
    match scratch(p, name) {
        Ok(()) => Ok(()),
        Err(code) => Err(code),
    }
}

/// Makes an empty index.
pub fn format_disk(p: &mut Platter, index: u32, end: u32) -> Result<(), Code>
    ensures ok { OnOk result (disks.format index end p.old ≡ Ok p.new) }
    ensures err { IfErr result (λ code. (disks.format index end p.old ≡ Err code) × (p.new ≡ p.old)) }
{
    format(p, index, end)
}
