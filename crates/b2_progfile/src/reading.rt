// A program is read from sectors.
ghost use Rattle.std.specs.Prelude.{◌≡◌, ◌+◌, ◌-◌, ◌<◌, ◌≤◌, ◌++◌, ℕ, List, true, false, OnOk, IfOk, IfErr, length, drop};
ghost use Rattle.b2_base.specs.declared.codes.Fault.TheVariants as fault;
ghost use Rattle.b2_base.specs.declared.codes.TheConstants.{D88_FORMAT};
ghost use Rattle.b2_base.specs.Lexical.{first};
ghost use Rattle.b2_platter.specs.Own.{sectors_of};
ghost use Rattle.b2_platter.specs.Image.{sectors_at};
ghost use Rattle.b2_text.specs.Program.{Lines};
ghost use Rattle.b2_progfile.specs.Programs.{AllPieces, IsProgramText, SpellsProgram, held_bytes};
ghost use Rattle.b2_platter.specs.Reading.{Unspelled};
ghost use Rattle.b2_progfile.specs.Loading.{IsProgramEnd, IsLineAt};

use crate::gathered::{Gathered, gather};
use crate::spelling::{MOST_NUMBER, PIECE, PROGRAM_END};
use b2_atom::Atoms;
use b2_base::codes::D88_FORMAT;
use b2_base::{Code, Fault, NoMemory, lexical};
use b2_platter::{Platter, slot};
use std::alloc::Global;
use std::collections::BTreeMap;

/// What is answered where no program is spelled.
fn no_program() -> Fault
    ensures { result ≡ fault.Code D88_FORMAT }
{
    Fault::Code(Code::known(D88_FORMAT))
}

/// Adds bytes at the end.
fn add(bytes: &mut Vec<u8>, more: &[u8]) -> Result<(), NoMemory>
    ensures { OnOk result (bytes.new.items ≡ bytes.old.items ++ more.now) }
{
    bytes.extend_from_slice(more)?;
    Ok(())
}

/// What some sectors hold. D88 exactly where one of them isn't a piece of a program.
fn held_bytes(alloc: Global, p: &Platter, at: u32, count: u32) -> Result<Vec<u8>, Fault>
    requires { at + count ≤ sectors_of p.now }
    ensures pieces { OnOk result (AllPieces (sectors_at p.now at count)) }
    ensures bytes { IfOk result (λ bytes. bytes.items ≡ held_bytes (sectors_at p.now at count)) }
    ensures err { IfErr result (Unspelled (¬ AllPieces (sectors_at p.now at count))) }
{
    let _image = p.image();
    let mut bytes = Vec::new(alloc);
    for k in 0..count {
        let sector = p.sector(at + k);
        if lexical::first(sector) != PIECE {
            return Err(no_program());
        }
        add(&mut bytes, lexical::rest_after(sector, 1))?;
    }
    Ok(bytes)
}

/// The line at the front of some bytes, whose number is at least some number. D88 exactly where no line is spelled there.
fn next_line(alloc: Global, bytes: &[u8], least: u16) -> Result<(u16, Atoms), Fault>
    ensures ok { IfOk result (λ line. IsLineAt least line bytes.now (drop (length line.1) (drop 3 bytes.now))) }
    ensures err { IfErr result (Unspelled ((line : ℕ × List ℕ) (after : List ℕ) → ¬ IsLineAt least line bytes.now after)) }
{
    let [high, low, count, after @ ..] = bytes else {
        return Err(no_program());
    };
    let number = u16::from(*high) * 256 + u16::from(*low);
    let count = usize::from(*count);
    if number < least {
        return Err(no_program());
    }
    if number > MOST_NUMBER {
        return Err(no_program());
    }
    if after.len() < count {
        return Err(no_program());
    }
    let found = Atoms::of(alloc, lexical::first_bytes(after, count))?;
    let Some(atoms) = found else {
        return Err(no_program());
    };
    Ok((number, atoms))
}

/// Whether bytes of which the first ends a program are its end: the same byte again, and fewer than 255 bytes 00.
fn is_program_end(bytes: &[u8]) -> bool
    requires { first bytes.now ≡ 255 }
    ensures yes { result ≡ true → IsProgramEnd bytes.now }
    ensures no { result ≡ false → ¬ IsProgramEnd bytes.now }
{
    if lexical::at(bytes, 1) != PROGRAM_END {
        return false;
    }
    if bytes.len() >= 257 {
        return false;
    }
    slot::all_zero(lexical::rest_after(bytes, 2))
}

/// The lines of a program that some bytes spell. D88 exactly where they spell none.
fn lines_of(alloc: Global, bytes: &[u8]) -> Result<Gathered, Fault>
    ensures ok { IfOk result (λ t. IsProgramText t.entries bytes.now) }
    ensures err { IfErr result (Unspelled ((lines : Lines) → ¬ IsProgramText lines bytes.now)) }
{
    let mut t = BTreeMap::new(alloc);
    let mut rest = bytes;
    let mut least = 0;
    while lexical::first(rest) != PROGRAM_END {
        let (number, atoms) = match next_line(alloc, rest, least) {
            Ok(line) => line,
            Err(fault) => return Err(fault),
        };
        rest = lexical::rest_after(lexical::rest_after(rest, 3), atoms.bytes().len());
        gather(&mut t, number, atoms)?;
        least = number + 1;
    }
    if !is_program_end(rest) {
        return Err(no_program());
    }
    Ok(t)
}

/// The program that some sectors spell. D88 exactly where they spell none.
pub(crate) fn read_program(
    alloc: Global,
    p: &Platter,
    at: u32,
    count: u32,
) -> Result<Gathered, Fault>
    requires { at + count ≤ sectors_of p.now }
    ensures ok { IfOk result (λ t. SpellsProgram t.entries (sectors_at p.now at count)) }
    ensures err { IfErr result (Unspelled ((lines : Lines) → ¬ SpellsProgram lines (sectors_at p.now at count))) }
{
    let bytes = match held_bytes(alloc, p, at, count) {
        Ok(bytes) => bytes,
        Err(fault) => return Err(fault),
    };
    lines_of(alloc, &bytes)
}
