//! The canonical source of lines.
//!
//! Stands on `b2_atom`, whose walk over the language's table writes the source of a line of atoms, and on `b2_base`.
//!
//! `list` appends a line's number, a blank and its source. The definition is `listing` in `specs/Listing.antt`.
#![tactic(auto)]

ghost use Rattle.std.specs.Prelude.{◌≡◌, ◌++◌, true, OnOk, OnErr};
ghost use Rattle.b2_atom.specs.Lines.{is_line};
ghost use Rattle.b2_lister.specs.Listing.{five_digits, listing};

use b2_atom::source_of;
use b2_base::NoMemory;
use b2_base::lexical::without_zeros;
use std::alloc::Global;

mod laws;

pub use laws::{each_listed_line_is_read_back, each_tree_is_listed_and_read_back};

/// The five digits of a number.
fn five_digits(number: u16) -> [u8; 5]
    ensures { result ≡ five_digits number }
{
    [
        b'0' + (number / 10000) as u8,
        b'0' + (number / 1000 % 10) as u8,
        b'0' + (number / 100 % 10) as u8,
        b'0' + (number / 10 % 10) as u8,
        b'0' + (number % 10) as u8,
    ]
}

/// Appends the number of a line, a blank and its canonical source; after `NoMemory` nothing is appended.
pub fn list(alloc: Global, line: u16, atoms: &[u8], into: &mut Vec<u8>) -> Result<(), NoMemory>
    requires line { is_line atoms.now ≡ true }
    ensures ok { OnOk result (into.new.items ≡ into.old.items ++ listing line atoms.now) }
    ensures err { OnErr result (into.new.items ≡ into.old.items) }
{
    let digits = five_digits(line);
    let source = source_of(alloc, atoms)?;
    let mut text = Vec::new(alloc);
    text.extend_from_slice(without_zeros(&digits))?;
    text.push(b' ')?;
    text.extend_from_slice(&source)?;
    into.extend_from_slice(&text)?;
    Ok(())
}
