// What the machine itself shows: errors and lines.
ghost use Rattle.std.specs.Prelude.{◌≡◌, ◌++◌, [], IfOk, OnOk};
ghost use Rattle.std.specs.Fmt.{decimal};
ghost use Rattle.b2_machine.specs.Messages as spec;

use b2_access::{Access, Private};
use b2_base::{Addr, ByteList, Code, NoMemory, Part};
use b2_flow::Place;
use b2_print::column_after;
use itoa::Buffer;
use std::alloc::Global;

/// Adds a number in plain digits.
fn add_plain_number(n: u64, out: &mut Vec<u8>) -> Result<(), NoMemory>
    ensures { OnOk result (out.new.items ≡ out.old.items ++ decimal n) }
{
    let mut buffer = Buffer::new();
    out.extend_from_slice(buffer.format(n).as_bytes())?;
    Ok(())
}

/// `ERR`, the letter of a code's class and its two digits.
fn code_text(alloc: Global, code: Code) -> Result<Vec<u8>, NoMemory>
    ensures { IfOk result (λ text. text.items ≡ spec.code_text code) }
{
    let mut out = Vec::from_slice(alloc, b"ERR ")?;
    out.push(code.class())?;
    out.push(b'0' + code.number() / 10)?;
    out.push(b'0' + code.number() % 10)?;
    Ok(out)
}

/// Adds ` AT l` for a line of a program.
fn add_line(line: Option<u16>, out: &mut Vec<u8>) -> Result<(), NoMemory>
    ensures { OnOk result (out.new.items ≡ out.old.items ++ spec.line_text line) }
{
    match line {
        Some(n) => {
            out.extend_from_slice(b" AT ")?;
            add_plain_number(u64::from(n), out)
        }
        None => Ok(()),
    }
}

/// Adds ` IN h` for the text of another partition.
fn add_home(part: Part, home: Part, out: &mut Vec<u8>) -> Result<(), NoMemory>
    ensures { OnOk result (out.new.items ≡ out.old.items ++ spec.home_text part home) }
{
    if home == part {
        return Ok(());
    }
    out.extend_from_slice(b" IN ")?;
    add_plain_number(u64::from(home.number()), out)
}

/// An error at a place of a partition.
pub fn error_at(alloc: Global, code: Code, part: Part, place: Place) -> Result<Vec<u8>, NoMemory>
    ensures { IfOk result (λ text. text.items ≡ spec.error_text code (spec.where_text part place)) }
{
    let mut out = code_text(alloc, code)?;
    add_line(place.line, &mut out)?;
    add_home(part, place.home, &mut out)?;
    out.push(b'\n')?;
    Ok(out)
}

/// An error of a numbered line, or of a special function key.
pub fn plain_error(alloc: Global, code: Code) -> Result<Vec<u8>, NoMemory>
    ensures { IfOk result (λ text. text.items ≡ spec.error_text code []) }
{
    let mut out = code_text(alloc, code)?;
    out.push(b'\n')?;
    Ok(out)
}

/// An error of a typed line, with its column where the code has one.
pub fn error_in_line(alloc: Global, code: Code, column: usize) -> Result<Vec<u8>, NoMemory>
    ensures { IfOk result (λ text. text.items ≡ spec.error_text code (spec.column_text code column)) }
{
    let mut out = code_text(alloc, code)?;
    if code.class() == b'S' {
        out.extend_from_slice(b" COL ")?;
        add_plain_number(column as u64, &mut out)?;
    }
    out.push(b'\n')?;
    Ok(out)
}

/// Shows a text as it is at the terminal of a partition.
pub fn show_text(me: &Private, text: ByteList) -> Access
    ensures { result ≡ spec.shows_text text me.now }
{
    let column = column_after(me.term_column, text.bytes());
    Access::Show {
        term: me.term,
        bytes: text,
        column,
    }
}

/// Shows a text as it is at a printer.
pub fn print_text(me: &Private, device: Addr, text: ByteList) -> Access
    ensures { result ≡ spec.prints_text device text me.now }
{
    let column = column_after(me.print_column, text.bytes());
    Access::PrintTo {
        addr: device,
        bytes: text,
        column,
    }
}
