// How programs are spelled.
ghost use Rattle.std.specs.Prelude.{◌≡◌, ◌+◌, ◌-◌, ◌*◌, ◌<◌, ◌≤◌, ◌++◌, true, OnOk, IfOk, length, take, drop, min, replicate};
ghost use Rattle.b2_atom.specs.Lines.{is_line};
ghost use Rattle.b2_progfile.specs.Programs.{line_bytes, all_line_bytes, program_bytes, Ascending};
ghost use Rattle.b2_progfile.specs.Saving.{lines_between, lines_within, piece_at, pieces_count};

use b2_atom::LentAtoms;
use b2_base::{NoMemory, lexical};
use b2_text::Text;
use std::alloc::Global;

/// The first byte of each sector of a program.
pub const PIECE: u8 = 0x50;

/// The byte that ends the lines of a program, where it stands twice in the place of a number.
pub const PROGRAM_END: u8 = 0xFF;

/// How many bytes of a program a sector holds.
pub const PIECE_BYTES: usize = 255;

/// The greatest number of a line.
pub const MOST_NUMBER: u16 = 9999;

/// The atoms of a line.
fn bytes_of_atoms<'a>(atoms: &LentAtoms<'a>) -> &'a [u8]
    ensures value { result.now ≡ atoms.now }
    ensures line { is_line atoms.now ≡ true }
    ensures short { length atoms.now ≤ 255 }
{
    atoms.bytes()
}

/// Adds a line.
fn spell_line(out: &mut Vec<u8>, number: u16, atoms: &LentAtoms<'_>) -> Result<(), NoMemory>
    ensures bytes { OnOk result (out.new.items ≡ out.old.items ++ line_bytes (number, atoms.now)) }
    ensures line { is_line atoms.now ≡ true }
{
    let bytes = bytes_of_atoms(atoms);
    out.push((number / 256) as u8)?;
    out.push((number % 256) as u8)?;
    out.push(bytes.len() as u8)?;
    out.extend_from_slice(bytes)?;
    Ok(())
}

/// Adds the lines from a number to another.
fn add_lines(out: &mut Vec<u8>, t: &Text, from: u16, to: u16) -> Result<(), NoMemory>
    requires { to ≤ 9999 }
    ensures bytes { OnOk result (out.new.items ≡ out.old.items ++ all_line_bytes (lines_between from to t.now.lines)) }
    ensures ascending { OnOk result (Ascending 0 (lines_between from to t.now.lines)) }
{
    let _first = t.next_after(None);
    if from > to {
        return Ok(());
    }
    let mut left = t.lines(from, to);
    while let Some(line) = left.next() {
        spell_line(out, line.number, &line.lend())?;
    }
    Ok(())
}

/// The lines of a text from a number to another, and what ends them.
pub(crate) fn program_of(alloc: Global, t: &Text, from: u16, to: u16) -> Result<Vec<u8>, NoMemory>
    ensures bytes { IfOk result (λ bytes. bytes.items ≡ program_bytes (lines_within from to t.now.lines)) }
    ensures ascending { OnOk result (Ascending 0 (lines_within from to t.now.lines)) }
{
    let mut out = Vec::new(alloc);
    add_lines(&mut out, t, from, to.min(MOST_NUMBER))?;
    out.push(PROGRAM_END)?;
    out.push(PROGRAM_END)?;
    Ok(out)
}

/// How many sectors hold some bytes.
pub(crate) fn pieces_count(bytes: &[u8]) -> u32
    requires { length bytes.now ≤ 16777216 }
    ensures { result ≡ pieces_count bytes.now }
{
    ((bytes.len() + (PIECE_BYTES - 1)) / PIECE_BYTES) as u32
}

/// The bytes that the k-th sector holds.
fn part_bytes(bytes: &[u8], k: usize) -> &[u8]
    requires { 255 * k < length bytes.now }
    ensures value { result.now ≡ take 255 (drop (255 * k) bytes.now) }
    ensures short { length result.now ≤ 255 }
{
    lexical::first_bytes(lexical::rest_after(bytes, PIECE_BYTES * k), PIECE_BYTES)
}

/// Some bytes, and 00 after them.
fn padded(bytes: &[u8]) -> [u8; 255]
    requires { length bytes.now ≤ 255 }
    ensures { result ≡ bytes.now ++ replicate (255 - length bytes.now) 0 }
{
    let mut padded = [0; 255];
    padded[..bytes.len()].copy_from_slice(bytes);
    padded
}

/// The k-th sector that holds some of the bytes.
pub(crate) fn piece_at(bytes: &[u8], k: usize) -> [u8; 256]
    requires { 255 * k < length bytes.now }
    ensures { result ≡ piece_at bytes.now k }
{
    let mut sector = [PIECE; 256];
    sector[1..].copy_from_slice(&padded(part_bytes(bytes, k)));
    sector
}
