// MOVE: what it asks for.
ghost use Rattle.std.specs.Prelude.{◌≡◌, true};
ghost use Rattle.b2_atom.specs.declared.rows.TheConstants as row;
ghost use Rattle.b2_rows.specs.Rows.{after_phrase, is_phrase, tree_at};
ghost use Rattle.b2_expr.specs.Scope.{surroundings};
ghost use Rattle.b2_expr.specs.Value.{in_statement};
ghost use Rattle.b2_drive.specs.Drives.{drives_seen};
ghost use Rattle.b2_stmt_disk.specs.Moving as spec;

use b2_access::Access;
use b2_base::codes::P34_RANGE;
use b2_base::lexical::rest_after;
use b2_base::{Addr, Code, Name8};
use b2_drive::{Drives, last_drive, name_at, used_at};
use b2_expr::{Env, past_alpha};
use b2_rows::is_at;

/// What stands after the drive of what is moved.
#[tactic(auto, unfolding(crate::specs::Moving::after_drive_from))]
fn after_drive_from(text: &[u8]) -> &[u8]
    ensures { result.now ≡ spec.after_drive_from text.now }
{
    let device = rest_after(text, 1);
    if is_at(b'/', device) {
        rest_after(rest_after(device, 1), 3)
    } else {
        device
    }
}

/// The platter from which files are moved.
#[tactic(auto, using(crate::proofs::MoveRows::moved_address))]
fn drive_from(d: &Drives<'_>, text: &[u8]) -> Result<Addr, Code>
    requires phrase { is_phrase row.MOVED text.now ≡ true }
    ensures { result ≡ spec.drive_from (drives_seen d.now) (tree_at row.MOVED text.now) }
{
    used_at(d, text)
}

/// The name of the file that is moved, where one is written.
#[tactic(auto, using(crate::proofs::MoveRows::name_here, crate::proofs::MoveRows::file_is, crate::proofs::MoveRows::no_file))]
fn file_moved(e: &Env<'_>, text: &[u8]) -> Result<Option<Name8>, Code>
    requires phrase { is_phrase row.MOVED text.now ≡ true }
    ensures { result ≡ spec.file_moved (in_statement (surroundings e.now)) (tree_at row.MOVED text.now) }
{
    let after = after_drive_from(text);
    if !is_at(b',', after) {
        return Ok(None);
    }
    match name_at(e, rest_after(after, 1)) {
        Ok(name) => Ok(Some(name)),
        Err(code) => Err(code),
    }
}

/// What stands after what is moved.
#[tactic(auto, using(crate::proofs::MoveRows::name_here, crate::proofs::MoveRows::after_file, crate::proofs::MoveRows::after_none))]
fn past_moved(text: &[u8]) -> &[u8]
    requires phrase { is_phrase row.MOVED text.now ≡ true }
    ensures { result.now ≡ after_phrase row.MOVED text.now }
{
    let after = after_drive_from(text);
    if !is_at(b',', after) {
        return after;
    }
    past_alpha(rest_after(after, 1))
}

/// All files are moved, or the one that is named; P34 where both platters are one.
fn move_apart(from: Addr, name: Option<Name8>, to: Addr) -> Result<Access, Code>
    ensures { result ≡ spec.moves_apart from name to }
{
    if from == to {
        return Err(Code::known(P34_RANGE));
    }
    match name {
        Some(name) => Ok(Access::MoveFile { from, name, to }),
        None => Ok(Access::MovePlatter { from, to }),
    }
}

/// What MOVE asks for: the drive and the name of what is moved first, and then the other drive.
#[tactic(auto, using(crate::proofs::MoveRows::moved_here, crate::proofs::MoveRows::other_drive, crate::proofs::MoveRows::move_is))]
pub fn ask_to_move(d: &Drives<'_>, e: &Env<'_>, unit: &[u8]) -> Result<Access, Code>
    requires phrase { is_phrase row.MOVE unit.now ≡ true }
    ensures { result ≡ spec.asks_to_move (drives_seen d.now) (in_statement (surroundings e.now)) (tree_at row.MOVE unit.now) }
{
    let text = rest_after(unit, 1);
    let from = match drive_from(d, text) {
        Ok(from) => from,
        Err(code) => return Err(code),
    };
    let name = match file_moved(e, text) {
        Ok(name) => name,
        Err(code) => return Err(code),
    };
    match last_drive(d, rest_after(past_moved(text), 1)) {
        Ok(to) => move_apart(from, name, to),
        Err(code) => Err(code),
    }
}
