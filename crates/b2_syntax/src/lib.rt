//! Typed lines, read into atoms.
//!
//! Stands on `b2_atom`, which has the language as one table and the walk over it, and on `b2_base`.
//!
//! `read` gives what a typed line means, or the code and the column of the first thing that is missing. The definition
//! is `reads` in `specs/Reading.antt`.
#![tactic(auto)]

ghost use Rattle.std.specs.Prelude.{◌≡◌, ◌≢◌, ◌≤◌, ◌<◌, ◌^◌, length, MatchResult, IfOk};
ghost use Rattle.b2_atom.specs.Lines.{IsKnown};
ghost use Rattle.b2_syntax.specs.Reading as spec;

use b2_atom::{Atoms, Origin, Stop};
use b2_base::Code;
use b2_base::codes::{A04_TOO_DEEP, A05_LINE_TOO_LONG, A07_LINE_NUMBER, S29_BYTE};
use b2_base::lexical::{capped_value, digits_width, is_printable, rest_after, skip_blanks};
use std::alloc::Global;

/// What a typed line means.
#[derive(Drop)]
pub enum Entered {
    /// Nothing but blanks.
    Empty,
    /// A line number alone: the line of that number is deleted.
    Delete(u16),
    /// A line of a program.
    Numbered(u16, Atoms),
    /// Statements that are executed at once.
    Immediate(Atoms),
}

/// Why a typed line isn't read.
#[derive(Clone, Copy)]
pub enum LineErr {
    /// A code and the column, from 1, of what is missing; codes of class A have no column, and 0 in its place.
    At(Code, usize),
    NoMemory,
}

/// How many bytes stand before the first that can't stand in a line.
fn printable_width(line: &[u8]) -> usize
    ensures count { result ≡ spec.printable_width line.now }
    ensures within { result ≤ length line.now }
{
    let mut rest = line;
    let mut count = 0usize;
    while let [byte, after @ ..] = rest {
        if !is_printable(*byte) {
            return count;
        }
        rest = after;
        count += 1;
    }
    count
}

/// A refusal of the table as the refusal of a line of `length` bytes.
fn refusal(stop: Stop, length: usize) -> LineErr
    requires known { IsKnown stop }
    requires short { length < 2 ^ 63 }
    ensures { result ≡ spec.refusal stop length }
{
    match stop {
        Stop::At(code, left) => LineErr::At(
            Code::known(code),
            length.saturating_sub(left).saturating_add(1),
        ),
        Stop::Deep => LineErr::At(Code::known(A04_TOO_DEEP), 0),
        Stop::NoMemory => LineErr::NoMemory,
    }
}

/// The atoms of a line of `length` bytes, of which `rest` follows its own number.
fn read_atoms(alloc: Global, origin: Origin, rest: &[u8], length: usize) -> Result<Atoms, LineErr>
    requires { length < 2 ^ 63 }
    ensures { MatchResult result (λ a. spec.read_atoms origin rest.now length ≡ Ok a) (λ e. e ≢ LineErr.NoMemory → spec.read_atoms origin rest.now length ≡ Err e) }
{
    match Atoms::read(alloc, origin, rest) {
        Ok(Some(atoms)) => Ok(atoms),
        Ok(None) => Err(LineErr::At(Code::known(A05_LINE_TOO_LONG), 0)),
        Err(stop) => Err(refusal(stop, length)),
    }
}

/// A line of a program: `own` begins with its number.
fn numbered(alloc: Global, line: &[u8], own: &[u8]) -> Result<Entered, LineErr>
    ensures value { MatchResult result (λ e. spec.numbered (length line.now) own.now ≡ Ok e) (λ e. e ≢ LineErr.NoMemory → spec.numbered (length line.now) own.now ≡ Err e) }
    ensures number { IfOk result spec.IsNumbered }
{
    let number = capped_value(own, 10000) as u16;
    if number > 9999 {
        return Err(LineErr::At(Code::known(A07_LINE_NUMBER), 0));
    }
    let rest = skip_blanks(rest_after(own, digits_width(own)));
    if rest.is_empty() {
        return Ok(Entered::Delete(number));
    }
    match read_atoms(alloc, Origin::Program, rest, line.len()) {
        Ok(atoms) => Ok(Entered::Numbered(number, atoms)),
        Err(error) => Err(error),
    }
}

/// An immediate line, without the blanks at its front.
fn immediate(alloc: Global, line: &[u8], rest: &[u8]) -> Result<Entered, LineErr>
    ensures value { MatchResult result (λ e. spec.immediate (length line.now) rest.now ≡ Ok e) (λ e. e ≢ LineErr.NoMemory → spec.immediate (length line.now) rest.now ≡ Err e) }
    ensures number { IfOk result spec.IsNumbered }
{
    match read_atoms(alloc, Origin::Immediate, rest, line.len()) {
        Ok(atoms) => Ok(Entered::Immediate(atoms)),
        Err(error) => Err(error),
    }
}

/// Reads a typed line: its number and its atoms, or the code and column of what is missing.
pub fn read(alloc: Global, line: &[u8]) -> Result<Entered, LineErr>
    ensures value { MatchResult result (λ e. spec.reads line.now ≡ Ok e) (λ e. e ≢ LineErr.NoMemory → spec.reads line.now ≡ Err e) }
    ensures number { IfOk result spec.IsNumbered }
{
    let count = printable_width(line);
    if count < line.len() {
        return Err(LineErr::At(Code::known(S29_BYTE), count + 1));
    }
    let own = skip_blanks(line);
    match own {
        [] => Ok(Entered::Empty),
        [b'0'..=b'9', ..] => numbered(alloc, line, own),
        _ => immediate(alloc, line, own),
    }
}
