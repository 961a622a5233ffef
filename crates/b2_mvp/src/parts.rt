// Lists of partitions: as the command line names a group, and as the summary tells who is apart.
ghost use Rattle.std.specs.Prelude.{◌≡◌, ◌↔◌, ◌∷◌, ◌++◌, ◌<◌, ℕ, List, [], Some, OnOk, length};
ghost use Rattle.std.specs.Fmt.{decimal};
ghost use Rattle.b2_mvp.specs.Parts as spec;

use arrayvec::ArrayVec;
use b2_base::lexical::is_digit;
use b2_base::{NoMemory, Part, cut};
use itoa::Buffer;
use std::marker::Model;

/// At most sixteen partitions, in order. Contracts see them as a list.
#[derive(Drop)]
pub struct Parts {
    parts: ArrayVec<Part, 16>,
}

impl Model for Parts {
    ghost use Rattle.std.specs.Prelude.{ℕ, List, ◌≤◌, length};

    ghost Value = { List ℕ };

    ghost view = { λ s. s.parts.items };

    ghost invariant = { λ s. length s.parts.items ≤ 16 };
}

impl Parts {
    fn empty() -> Parts
        ensures { result ≡ [] }
    {
        Parts {
            parts: ArrayVec::new(),
        }
    }

    /// Adds a partition at the end.
    fn push(&mut self, part: Part)
        requires { length self.old < 16 }
        ensures { self.new ≡ self.old ++ part ∷ [] }
    {
        let _ = self.parts.try_push(part);
    }

    /// The partitions in order.
    pub fn as_slice(&self) -> &[Part]
        ensures { result.now ≡ self.now }
    {
        self.parts.as_slice()
    }

    /// The partitions that a word lists: numbers from 1 to 16 that ascend, each without zeros before, joined by commas. None
    /// where the word is no such list.
    pub fn of(word: &[u8]) -> Option<Parts>
        ensures value { result ≡ spec.listed_parts word.now }
        ensures lists { (parts : List ℕ) → (result ≡ Some parts) ↔ spec.Lists word.now parts }
    {
        read_parts(word)
    }
}

/// The partition that a piece spells: a number from 1 to 16 without zeros before.
fn part_in(piece: &[u8]) -> Option<Part>
    ensures { result ≡ spec.part_in piece.now }
{
    match piece {
        [d] if is_digit(*d) => Part::of(*d - b'0'),
        [b'1', d] if is_digit(*d) => Part::of(10 + (*d - b'0')),
        _ => None,
    }
}

/// The partitions that a word lists, read from left to right.
fn read_parts(word: &[u8]) -> Option<Parts>
    ensures { result ≡ spec.listed_parts word.now }
{
    let mut parts = Parts::empty();
    let mut last = 0u8;
    let mut left = Some(word);
    while let Some(text) = left {
        let (piece, rest) = cut(text, b',');
        let part = part_in(piece)?;
        if part.number() <= last {
            return None;
        }
        last = part.number();
        parts.push(part);
        left = rest;
    }
    Some(parts)
}

/// Adds the number of a partition.
fn add_part_number(line: &mut Vec<u8>, part: Part) -> Result<(), NoMemory>
    ensures { OnOk result (line.new.items ≡ line.old.items ++ decimal part) }
{
    let mut buffer = Buffer::new();
    line.extend_from_slice(buffer.format(part.number()).as_bytes())?;
    Ok(())
}

/// Adds partitions, each after a comma.
fn add_more(line: &mut Vec<u8>, parts: &[Part]) -> Result<(), NoMemory>
    ensures { OnOk result (line.new.items ≡ line.old.items ++ spec.each_after_comma parts.now) }
{
    for part in parts {
        line.push(b',')?;
        add_part_number(line, *part)?;
    }
    Ok(())
}

/// Adds partitions joined by commas, or `-` where there are none.
pub fn add_list(line: &mut Vec<u8>, parts: &[Part]) -> Result<(), NoMemory>
    ensures { OnOk result (line.new.items ≡ line.old.items ++ spec.list_or_dash parts.now) }
{
    let [first, others @ ..] = parts else {
        line.push(b'-')?;
        return Ok(());
    };
    add_part_number(line, *first)?;
    add_more(line, others)
}
