// A call as a row asks for it: what it reads, and what it shows.
use crate::answers::Unanswered;
use crate::cells::{Cells, bytes_of, number_of, small_of, whole_of};
use crate::shown;
use b2_base::lexical::{digits_width, skip_blanks};
use b2_base::{Code, Fault, cut};
use std::alloc::{AllocError, Global};
use std::fmt::Write;

/// An item of a cell.
#[derive(Clone, Copy)]
pub enum Item<'a> {
    /// Bytes up to a blank.
    Word(&'a [u8]),
    /// Bytes between two quotes.
    Quoted(&'a [u8]),
}

/// The cells that a call hasn't read, and what it has shown. The first thing that goes wrong is noted, and is all that the row
/// gives: so a driver reads and shows one after the other, and needn't end early.
#[derive(Drop)]
pub struct Sheet<'a> {
    alloc: Global,
    cells: Cells<'a>,
    /// The items of the open cell that have not been read.
    items: &'a [u8],
    shown: String,
    trouble: Option<Unanswered>,
}

impl<'a> Sheet<'a> {
    pub fn new(alloc: Global, cells: Cells<'a>) -> Sheet<'a> {
        Sheet {
            alloc,
            cells,
            items: &[],
            shown: String::new(alloc),
            trouble: None,
        }
    }

    /// A sheet whose open cell has the items of a text, and that has no cells.
    pub fn of_items(alloc: Global, text: &'a [u8]) -> Sheet<'a> {
        Sheet {
            alloc,
            cells: Cells::of(&[]),
            items: skip_blanks(text),
            shown: String::new(alloc),
            trouble: None,
        }
    }

    /// Returns whether all has been read, and nothing went wrong.
    pub fn is_well_read(&self) -> bool {
        self.trouble.is_none() && self.is_empty() && !self.has_items()
    }

    /// What the row gives: what was shown, or what went wrong.
    pub fn finish(self) -> Result<String, AllocError> {
        let alloc = self.alloc;
        let is_read = self.is_empty() && !self.has_items();
        match self.trouble {
            None if is_read => Ok(self.shown),
            None => format!(in alloc; "a cell that no call reads"),
            Some(Unanswered::NoSuchCall) => format!(in alloc; "no such call"),
            Some(Unanswered::Misread) => format!(in alloc; "a cell that is misread"),
            Some(Unanswered::NoMemory) => format!(in alloc; "no memory"),
        }
    }

    pub fn alloc(&self) -> Global {
        self.alloc
    }

    /// Notes what went wrong, unless something did before.
    pub fn note(&mut self, trouble: Unanswered) {
        if self.trouble.is_none() {
            self.trouble = Some(trouble);
        }
    }

    /// Notes that a cell doesn't say what the call takes there.
    pub fn misread(&mut self) {
        self.note(Unanswered::Misread);
    }

    /// Notes that there is no call of that name.
    pub fn no_such_call(&mut self) {
        self.note(Unanswered::NoSuchCall);
    }

    /// Notes that memory failed.
    pub fn no_memory(&mut self) {
        self.note(Unanswered::NoMemory);
    }

    /// Notes that memory failed, where it did.
    fn done(&mut self, outcome: Result<(), AllocError>) {
        if outcome.is_err() {
            self.no_memory();
        }
    }

    /// Adds to a list.
    pub fn push<T: Drop>(&mut self, list: &mut Vec<T>, item: T) {
        if list.push(item).is_err() {
            self.no_memory();
        }
    }

    /// Adds bytes to a list.
    pub fn append(&mut self, list: &mut Vec<u8>, bytes: &[u8]) {
        if list.extend_from_slice(bytes).is_err() {
            self.no_memory();
        }
    }

    /// Returns whether all cells have been read.
    pub fn is_empty(&self) -> bool {
        self.cells.is_empty()
    }

    /// Reads a cell; an empty one where all have been read.
    pub fn cell(&mut self) -> &'a [u8] {
        self.cells.next()
    }

    /// Reads a cell: the bytes that it spells.
    pub fn bytes(&mut self) -> Vec<u8> {
        let cell = self.cell();
        self.spelled(cell)
    }

    /// The bytes that a text spells.
    pub fn spelled(&mut self, text: &[u8]) -> Vec<u8> {
        match bytes_of(self.alloc, text) {
            Ok(bytes) => bytes,
            Err(_) => {
                self.no_memory();
                Vec::new(self.alloc)
            }
        }
    }

    /// Opens a cell: its items are read next. Those of the cell before it have to be read.
    pub fn open(&mut self) {
        if self.has_items() {
            self.misread();
        }
        self.items = skip_blanks(self.cells.next());
    }

    /// Returns whether the open cell has items that haven't been read.
    pub fn has_items(&self) -> bool {
        !self.items.is_empty()
    }

    /// Reads an item: an empty word where all have been read.
    pub fn item(&mut self) -> Item<'a> {
        let (item, after) = match self.items {
            [b'"', rest @ ..] => {
                let (inner, after) = cut(rest, b'"');
                (Item::Quoted(inner), after)
            }
            _ => {
                let (word, after) = cut(self.items, b' ');
                (Item::Word(word), after)
            }
        };
        self.items = skip_blanks(after.unwrap_or(&[]));
        item
    }

    /// Reads a word: an empty one where all items have been read.
    pub fn word(&mut self) -> &'a [u8] {
        match self.item() {
            Item::Word(word) => word,
            Item::Quoted(_) => {
                self.misread();
                &[]
            }
        }
    }

    /// Reads the bytes that are spelled between quotes.
    pub fn quoted(&mut self) -> Vec<u8> {
        match self.item() {
            Item::Quoted(text) => self.spelled(text),
            Item::Word(_) => {
                self.misread();
                Vec::new(self.alloc)
            }
        }
    }

    /// Reads a word of digits: an empty one where all items have been read.
    fn digits(&mut self) -> &'a [u8] {
        let word = self.word();
        if digits_width(word) != word.len() {
            self.misread();
        }
        word
    }

    /// Reads a whole number, at most 65535: 0 where all items have been read.
    pub fn number(&mut self) -> u16 {
        number_of(self.digits())
    }

    /// Reads a whole number, at most 255: 0 where all items have been read.
    pub fn small(&mut self) -> u8 {
        small_of(self.digits())
    }

    /// Reads a whole number; the word `most` is the greatest.
    pub fn count(&mut self) -> usize {
        let word = self.word();
        if word == b"most".as_slice() {
            return usize::MAX;
        }
        if digits_width(word) != word.len() {
            self.misread();
        }
        whole_of(word) as usize
    }

    /// Shows a text.
    pub fn show(&mut self, text: &str) {
        let outcome = self.shown.push_str(text);
        self.done(outcome);
    }

    /// Shows a byte as the character that it is.
    pub fn show_letter(&mut self, byte: u8) {
        let outcome = self.shown.push(byte as char);
        self.done(outcome);
    }

    /// Shows bytes, each as the character that it is.
    pub fn show_letters(&mut self, bytes: &[u8]) {
        for byte in bytes {
            self.show_letter(*byte);
        }
    }

    /// Shows a byte as a backslash and two hexadecimal digits.
    pub fn show_hex(&mut self, byte: u8) {
        let outcome = shown::show_hex(&mut self.shown, byte);
        self.done(outcome);
    }

    /// Shows bytes, each as a cell can hold it.
    pub fn show_bytes(&mut self, bytes: &[u8]) {
        let outcome = shown::show_bytes(&mut self.shown, bytes);
        self.done(outcome);
    }

    /// Shows bytes between quotes.
    pub fn show_quoted(&mut self, bytes: &[u8]) {
        let outcome = shown::show_quoted(&mut self.shown, bytes);
        self.done(outcome);
    }

    /// Shows `yes` or `no`.
    pub fn show_truth(&mut self, holds: bool) {
        self.show(if holds { "yes" } else { "no" });
    }

    /// Shows a whole number.
    pub fn show_number(&mut self, number: u64) {
        let outcome = write!(self.shown, "{number}");
        self.done(outcome);
    }

    /// Shows a whole number that may be below zero.
    pub fn show_signed(&mut self, number: i64) {
        let outcome = write!(self.shown, "{number}");
        self.done(outcome);
    }

    /// Shows a code.
    pub fn show_code(&mut self, code: Code) {
        let outcome = shown::show_code(&mut self.shown, code);
        self.done(outcome);
    }

    /// Shows the code of a fault, or that memory failed.
    pub fn show_fault(&mut self, fault: Fault) {
        let outcome = shown::show_fault(&mut self.shown, fault);
        self.done(outcome);
    }

    /// Shows `ok`, or the code.
    pub fn show_outcome(&mut self, outcome: Result<(), Code>) {
        match outcome {
            Ok(()) => self.show("ok"),
            Err(code) => self.show_code(code),
        }
    }

    /// Shows the code of a refusal and a blank.
    pub fn show_refused(&mut self, outcome: Result<(), Code>) {
        if let Err(code) = outcome {
            self.show_code(code);
            self.show(" ");
        }
    }
}
