// LIST DC: what it asks for, and what it was told.
ghost use Rattle.std.specs.Prelude.{◌≡◌, true, IfOk};
ghost use Rattle.b2_access.specs.Answering.{can_answer};
ghost use Rattle.b2_access.specs.Views.{listing_told};
ghost use Rattle.b2_atom.specs.declared.rows.TheConstants as row;
ghost use Rattle.b2_rows.specs.Rows.{is_phrase, tree_at};
ghost use Rattle.b2_drive.specs.Drives.{drives_seen};
ghost use Rattle.b2_stmt_disk.specs.Listing as spec;

use b2_access::{Access, Answer};
use b2_base::lexical::rest_after;
use b2_base::{ByteList, Code, NoMemory};
use b2_drive::{Drives, last_drive};
use std::alloc::Global;

/// What LIST DC asks for.
#[tactic(auto, using(crate::proofs::ListRows::list_drive, crate::proofs::ListRows::list_is))]
pub fn ask_to_list(d: &Drives<'_>, unit: &[u8]) -> Result<Access, Code>
    requires phrase { is_phrase row.LIST_DISK unit.now ≡ true }
    ensures { result ≡ spec.asks_to_list (drives_seen d.now) (tree_at row.LIST_DISK unit.now) }
{
    match last_drive(d, rest_after(rest_after(unit, 1), 1)) {
        Ok(addr) => Ok(Access::ListDisk { addr }),
        Err(code) => Err(code),
    }
}

/// The listing that LIST DC was told, none where it is asked for again.
pub fn listing_of(
    alloc: Global,
    access: &Access,
    answer: &Answer,
) -> Result<Option<ByteList>, NoMemory>
    requires possible { can_answer access.now answer.now ≡ true }
    ensures { IfOk result (λ listing. listing ≡ listing_told access.now answer.now) }
{
    let Access::ListDisk { .. } = access else {
        return Ok(None);
    };
    match answer {
        Answer::Bytes(bytes) => Ok(Some(ByteList::from_slice(alloc, bytes.bytes())?)),
        Answer::Wait(_) => Ok(None),
        _ => unreachable!(),
    }
}
