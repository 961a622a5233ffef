// The names of files on disks, and of global texts.
ghost use Rattle.std.specs.Prelude.{◌≡◌, ◌≤◌, length, true};
ghost use Rattle.b2_base.specs.Names.{is_name8, padded8, name8_of};

use crate::lexical::all_printable;
use std::marker::Model;

/// A name of 1 to 8 bytes from 20 to 7E, the first not 20, padded with 20. Contracts see it as its eight bytes.
#[derive(Clone, Copy, PartialEq, Eq)]
pub struct Name8 {
    padded: [u8; 8],
}

impl Model for Name8 {
    ghost use Rattle.std.specs.Prelude.{ℕ, List, ◌≡◌, true};
    ghost use Rattle.b2_base.specs.Names.{is_name8};

    ghost Value = { List ℕ };

    ghost view = { λ n. n.padded };

    ghost invariant = { λ n. is_name8 n.padded ≡ true };

    ghost inverse = { λ bytes. record { padded = bytes } };
}

/// Whether the bytes are a name.
fn is_name(bytes: &[u8]) -> bool
    ensures value { result ≡ is_name8 bytes.now }
    ensures short { result ≡ true → length bytes.now ≤ 8 }
{
    let [first, ..] = bytes else {
        return false;
    };
    *first != b' ' && bytes.len() <= 8 && all_printable(bytes)
}

/// Up to eight bytes, padded with blanks.
fn pad(bytes: &[u8]) -> [u8; 8]
    requires { length bytes.now ≤ 8 }
    ensures { result ≡ padded8 bytes.now }
{
    let mut padded = [b' '; 8];
    padded[..bytes.len()].copy_from_slice(bytes);
    padded
}

impl Name8 {
    /// The name of these bytes with blanks up to eight, None where they are no name.
    pub fn of(bytes: &[u8]) -> Option<Name8>
        ensures { result ≡ name8_of bytes.now }
    {
        if !is_name(bytes) {
            return None;
        }
        Some(Name8 { padded: pad(bytes) })
    }

    /// Its eight bytes.
    pub fn bytes(&self) -> [u8; 8]
        ensures value { result ≡ self.now }
        ensures legal { is_name8 result ≡ true }
    {
        self.padded
    }
}
