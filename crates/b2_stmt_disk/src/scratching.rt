// SCRATCH and SCRATCH DISK: what they ask for.
ghost use Rattle.std.specs.Prelude.{◌≡◌, true};
ghost use Rattle.b2_atom.specs.declared.rows.TheConstants as row;
ghost use Rattle.b2_rows.specs.Rows.{is_phrase, tree_at};
ghost use Rattle.b2_expr.specs.Scope.{surroundings};
ghost use Rattle.b2_expr.specs.Value.{in_statement};
ghost use Rattle.b2_drive.specs.Drives.{drives_seen};
ghost use Rattle.b2_stmt_disk.specs.Scratching as spec;

use b2_access::Access;
use b2_atom::Cursor;
use b2_base::Code;
use b2_base::codes::P34_RANGE;
use b2_base::lexical::rest_after;
use b2_drive::{Drives, drive, name_at, past_drive};
use b2_expr::{Env, fixed, number, past_sum};

/// What SCRATCH asks for: its drive first, and then the name of the file.
#[tactic(auto, using(crate::proofs::ScratchRows::scratch_drive, crate::proofs::ScratchRows::scratch_name, crate::proofs::ScratchRows::scratch_is))]
pub fn ask_to_scratch(d: &Drives<'_>, e: &Env<'_>, unit: &[u8]) -> Result<Access, Code>
    requires phrase { is_phrase row.SCRATCH unit.now ≡ true }
    ensures { result ≡ spec.asks_to_scratch (drives_seen d.now) (in_statement (surroundings e.now)) (tree_at row.SCRATCH unit.now) }
{
    let text = rest_after(unit, 1);
    let addr = match drive(d, text) {
        Ok(addr) => addr,
        Err(code) => return Err(code),
    };
    match name_at(e, past_drive(text)) {
        Ok(name) => Ok(Access::Scratch { addr, name }),
        Err(code) => Err(code),
    }
}

/// A number of sectors, P34 where it isn't one of 32 bits without a sign.
fn sectors(n: Option<i64>) -> Result<u32, Code>
    ensures { result ≡ spec.sectors n }
{
    match n {
        Some(n) if 0 <= n && n <= 4_294_967_295 => Ok(n as u32),
        _ => Err(Code::known(P34_RANGE)),
    }
}

/// The number of sectors at a text.
fn sectors_at(e: &Env<'_>, text: &[u8]) -> Result<u32, Code>
    requires phrase { is_phrase row.SUM text.now ≡ true }
    ensures { result ≡ spec.sectors_given (in_statement (surroundings e.now)) (tree_at row.SUM text.now) }
{
    match number(&mut Cursor::over(text), e) {
        Ok(x) => sectors(fixed(x)),
        Err(code) => Err(code),
    }
}

/// What SCRATCH DISK asks for: its drive, the sectors of the index, and the last sector of the catalogue.
#[tactic(auto, using(crate::proofs::ScratchRows::format_drive, crate::proofs::ScratchRows::format_index, crate::proofs::ScratchRows::format_last, crate::proofs::ScratchRows::format_is))]
pub fn ask_to_format(d: &Drives<'_>, e: &Env<'_>, unit: &[u8]) -> Result<Access, Code>
    requires phrase { is_phrase row.SCRATCH_DISK unit.now ≡ true }
    ensures { result ≡ spec.asks_to_format (drives_seen d.now) (in_statement (surroundings e.now)) (tree_at row.SCRATCH_DISK unit.now) }
{
    let text = rest_after(rest_after(unit, 1), 1);
    let addr = match drive(d, text) {
        Ok(addr) => addr,
        Err(code) => return Err(code),
    };
    let first = rest_after(rest_after(past_drive(text), 1), 1);
    let index = match sectors_at(e, first) {
        Ok(index) => index,
        Err(code) => return Err(code),
    };
    let second = rest_after(rest_after(rest_after(past_sum(first), 1), 1), 1);
    match sectors_at(e, second) {
        Ok(end) => Ok(Access::Format { addr, index, end }),
        Err(code) => Err(code),
    }
}
