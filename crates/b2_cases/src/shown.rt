// What calls give, as rows show it.
use b2_base::lexical::{hex_digit, is_printable};
use b2_base::{Code, Fault};
use std::alloc::AllocError;
use std::fmt::Write;

/// Appends bytes: each that a cell can show as it is, and else a backslash and two hexadecimal digits.
pub fn show_bytes(into: &mut String, bytes: &[u8]) -> Result<(), AllocError> {
    for (place, byte) in bytes.iter().enumerate() {
        let is_at_an_end = place == 0 || place + 1 == bytes.len();
        show_byte(into, *byte, is_at_an_end)?;
    }
    Ok(())
}

/// Appends bytes between quotes.
pub fn show_quoted(into: &mut String, bytes: &[u8]) -> Result<(), AllocError> {
    into.push('"')?;
    for byte in bytes {
        show_byte(into, *byte, false)?;
    }
    into.push('"')
}

/// Appends a byte; a blank at an end of a cell can't be shown as it is.
fn show_byte(into: &mut String, byte: u8, is_at_an_end: bool) -> Result<(), AllocError> {
    if is_shown(byte) && !(is_at_an_end && byte == b' ') {
        return into.push(byte as char);
    }
    show_hex(into, byte)
}

/// Appends a byte as a backslash and two hexadecimal digits.
pub fn show_hex(into: &mut String, byte: u8) -> Result<(), AllocError> {
    into.push('\\')?;
    into.push(hex_digit(byte / 16) as char)?;
    into.push(hex_digit(byte % 16) as char)
}

/// Returns whether a cell shows the byte as it is.
fn is_shown(byte: u8) -> bool {
    is_printable(byte) && byte != b'\\' && byte != b'|'
}

/// Appends `yes` or `no`.
pub fn show_truth(into: &mut String, holds: bool) -> Result<(), AllocError> {
    into.push_str(if holds { "yes" } else { "no" })
}

/// Appends a code: the letter of its class and two digits.
pub fn show_code(into: &mut String, code: Code) -> Result<(), AllocError> {
    let number = code.number();
    into.push(code.class() as char)?;
    write!(into, "{number:02}")?;
    Ok(())
}

/// Appends the code of a fault, or that memory failed.
pub fn show_fault(into: &mut String, fault: Fault) -> Result<(), AllocError> {
    match fault {
        Fault::Code(code) => show_code(into, code),
        Fault::NoMemory => into.push_str("no memory"),
    }
}
