// A call made on many disks, each with one byte changed.
use crate::images::{put_byte, show_check};
use crate::sessions::{Session, simple_answer};
use b2_base::cut;
use b2_base::lexical::at;
use b2_cases::{Sheet, whole_of};
use b2_platter::Platter;
use std::alloc::{AllocError, Global};
use std::mem;

/// Makes a call on the disk with a byte in place, and leaves the disk as it was: its answer. Where the image isn't good, the
/// answer is the check that it fails.
fn answer_changed(
    alloc: Global,
    session: &mut Session,
    place: usize,
    byte: u8,
    call: &[u8],
) -> Result<String, AllocError> {
    let mut sheet = Sheet::of_items(alloc, &[]);
    let mut image = Vec::from_slice(alloc, session.disk.image())?;
    put_byte(&mut sheet, &mut image, place, byte);
    match Platter::open(image) {
        Ok(changed) => {
            let kept = mem::replace(&mut session.disk, changed);
            let answer = simple_answer(alloc, session, call)?;
            session.disk = kept;
            sheet.show(answer.as_str());
        }
        Err(refused) => show_check(&mut sheet, refused),
    }
    sheet.finish()
}

/// What the answers to a call are: each with the places, or the bytes, that gave it.
#[derive(Drop)]
struct Runs {
    /// The first that gave the last answer.
    first: u32,
    /// The last that gave it.
    last: u32,
    /// The last answer, None before the first.
    answer: Option<String>,
    /// The answers before it.
    said: String,
}

impl Runs {
    fn new(alloc: Global) -> Runs {
        Runs {
            first: 0,
            last: 0,
            answer: None,
            said: String::new(alloc),
        }
    }

    /// Returns whether the last answer is this one.
    fn ends_with(&self, answer: &str) -> bool {
        match &self.answer {
            Some(last) => last.as_str() == answer,
            None => false,
        }
    }

    /// Shows the last answer.
    fn show_last(&mut self) -> Result<(), AllocError> {
        let first = self.first;
        let last = self.last;
        let Some(answer) = &self.answer else {
            return Ok(());
        };
        if !self.said.is_empty() {
            self.said.push_str("; ")?;
        }
        if first == last {
            write!(self.said, "{first} {answer}")
        } else {
            write!(self.said, "{first}-{last} {answer}")
        }
    }

    /// Adds the answer of the next place or byte.
    fn add(&mut self, number: u32, answer: String) -> Result<(), AllocError> {
        if !self.ends_with(answer.as_str()) {
            self.show_last()?;
            self.first = number;
            self.answer = Some(answer);
        }
        self.last = number;
        Ok(())
    }
}

/// The number that the first word says, and what follows it.
fn number_before(words: &[u8]) -> (u32, &[u8]) {
    let (number, rest) = cut(words, b' ');
    (whole_of(number), rest.unwrap_or(&[]))
}

/// `each-place PLACE COUNT CALL`: makes a call with the byte at a place greater by one, for each of some places: the answers.
pub fn places(alloc: Global, session: &mut Session, words: &[u8]) -> Result<String, AllocError> {
    let (from, rest) = number_before(words);
    let (count, call) = number_before(rest);
    let mut runs = Runs::new(alloc);
    for k in 0..count {
        let place = from.saturating_add(k);
        let byte = at(session.disk.image(), place as usize).wrapping_add(1);
        let answer = answer_changed(alloc, session, place as usize, byte, call)?;
        runs.add(place, answer)?;
    }
    runs.show_last()?;
    Ok(runs.said)
}

/// `each-value PLACE CALL`: makes a call with each of the 256 bytes at a place: the answers.
pub fn values(alloc: Global, session: &mut Session, words: &[u8]) -> Result<String, AllocError> {
    let (place, call) = number_before(words);
    let mut runs = Runs::new(alloc);
    for byte in 0..=255u8 {
        let answer = answer_changed(alloc, session, place as usize, byte, call)?;
        runs.add(u32::from(byte), answer)?;
    }
    runs.show_last()?;
    Ok(runs.said)
}
