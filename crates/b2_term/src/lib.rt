//! A terminal: a queue of keys, the partition in front, the order in which it goes round, the line being typed, and a
//! transcript of all that it showed.
//!
//! Stands on `b2_base` and `arrayvec`. The definition is `specs/Terminal.antt`: a terminal is seen in contracts as its record
//! of lists, and each call is proved to be the function of that file, for every queue, order, line and transcript.
//! `specs/Orders.antt` has which partition comes next in an order.
#![tactic(auto)]

ghost use Rattle.std.specs.Prelude.{◌≡◌, ◌≤◌, ◌<◌, [], ◌++◌, length, nat_lt, drop, slice_get, OnOk, IfOk, false, true, ◌↔◌};
ghost use Rattle.std.specs.List.{list_any};
ghost use Rattle.std.specs.VecDeque.{deque_capacity};
ghost use Rattle.b2_term.specs.Orders.{is_order};
ghost use Rattle.b2_term.specs.Terminal.{reading, line_read, after_read, typed, type_bytes, inserted, echo, keyed, released, ends_line, IsShortLine};

pub mod laws;
mod orders;

use crate::orders::next_in;
use b2_base::lexical::is_printable;
use b2_base::{ByteList, NoMemory, Part};
pub use orders::{PartList, is_order};
use std::alloc::Global;
use std::collections::VecDeque;
use std::marker::Model;
use std::mem;

/// How many keys may wait.
const QUEUE_SIZE: usize = 128;

/// How many bytes a typed line may have.
const LINE_SIZE: usize = 256;

/// What is shown where a line has no room.
const BELL: u8 = 7;

/// What takes the last byte of a line away.
const BACKSPACE: u8 = 8;

/// A key: a byte, or a special function key by its number.
#[derive(Clone, Copy)]
pub enum KeyItem {
    Byte(u8),
    Special(u8),
}

/// The answer to the reading of a line.
#[derive(Drop)]
pub enum Read {
    /// The line that a RETURN ended, without it.
    Line(ByteList),
    /// A special function key, which leaves the line as it is.
    Special(u8),
    /// No key that ends a line is there; those that were have been typed into the line.
    NoKeys,
}

/// A terminal. At most 128 keys wait, and the line being typed has at most 256 bytes. The order in which it goes round has a
/// partition, and none twice.
#[derive(Drop)]
pub struct Terminal {
    alloc: Global,
    queue: VecDeque<KeyItem>,
    front: Part,
    order: Vec<Part>,
    line: Vec<u8>,
    transcript: Vec<u8>,
}

impl Model for Terminal {
    ghost use Rattle.std.specs.Prelude.{◌≡◌, ◌≤◌, length, true};
    ghost use Rattle.std.specs.VecDeque.{deque_capacity};
    ghost use Rattle.b2_term.specs.Orders.{is_order};
    ghost use Rattle.b2_term.specs.Terminal.{TerminalState};

    ghost Value = { TerminalState };

    ghost view = { λ t. record { queue = t.queue.items; front = t.front; order = t.order.items; line = t.line.items; transcript = t.transcript.items } };

    ghost invariant = { λ t. (128 ≤ deque_capacity t.queue) × (length t.queue.items ≤ 128) × (length t.line.items ≤ 256) × (is_order t.order.items ≡ true) };
}

/// Types a byte that doesn't end the line.
fn type_byte(line: &mut Vec<u8>, transcript: &mut Vec<u8>, b: u8) -> Result<(), NoMemory>
    requires { length line.old.items ≤ 256 }
    ensures line { OnOk result (line.new.items ≡ typed b line.old.items) }
    ensures short { length line.new.items ≤ 256 }
    ensures transcript { OnOk result (transcript.new.items ≡ transcript.old.items ++ echo b line.old.items) }
{
    if is_printable(b) {
        if line.len() < LINE_SIZE {
            line.push(b)?;
            transcript.push(b)?;
        } else {
            transcript.push(BELL)?;
        }
    } else if b == BACKSPACE && !line.is_empty() {
        line.truncate(line.len() - 1);
        transcript.extend_from_slice(&[BACKSPACE, b' ', BACKSPACE])?;
    }
    Ok(())
}

/// Types bytes that don't end the line.
fn type_bytes(line: &mut Vec<u8>, transcript: &mut Vec<u8>, bytes: &[u8]) -> Result<(), NoMemory>
    requires { length line.old.items ≤ 256 }
    ensures typed { OnOk result (record { line = line.new.items; transcript = transcript.new.items }
        ≡ type_bytes bytes.now (record { line = line.old.items; transcript = transcript.old.items })) }
    ensures short { length line.new.items ≤ 256 }
{
    for b in bytes {
        type_byte(line, transcript, *b)?;
    }
    Ok(())
}

/// Takes keys up to one that ends the reading.
fn read_keys(
    alloc: Global,
    queue: &mut VecDeque<KeyItem>,
    line: &mut Vec<u8>,
    transcript: &mut Vec<u8>,
) -> Result<Read, NoMemory>
    requires { length line.old.items ≤ 256 }
    ensures reads { IfOk result (λ read. record { answer = read; queue = queue.new.items; line = line.new.items; transcript = transcript.new.items }
        ≡ reading queue.old.items (record { line = line.old.items; transcript = transcript.old.items })) }
    ensures capacity { deque_capacity queue.new ≡ deque_capacity queue.old }
    ensures shorter { length queue.new.items ≤ length queue.old.items }
    ensures short { length line.new.items ≤ 256 }
    ensures line { IfOk result IsShortLine }
{
    while let Some(key) = queue.pop_front() {
        match key {
            KeyItem::Special(n) => return Ok(Read::Special(n)),
            KeyItem::Byte(b'\r') => {
                transcript.push(b'\n')?;
                let whole = mem::replace(line, Vec::new(alloc));
                return Ok(Read::Line(ByteList::new(whole)));
            }
            KeyItem::Byte(b) => type_byte(line, transcript, b)?,
        }
    }
    Ok(Read::NoKeys)
}

impl Terminal {
    /// An idle terminal with this partition in front, which goes round in this order. It takes the room for 128 keys and for the
    /// order.
    pub fn new(alloc: Global, front: Part, order: &[Part]) -> Result<Terminal, NoMemory>
        requires order { is_order order.now ≡ true }
        ensures { IfOk result (λ t. t ≡ record { queue = []; front = front; order = order.now; line = []; transcript = [] }) }
    {
        Ok(Terminal {
            alloc,
            queue: VecDeque::with_capacity(alloc, QUEUE_SIZE)?,
            front,
            order: Vec::from_slice(alloc, order)?,
            line: Vec::new(alloc),
            transcript: Vec::new(alloc),
        })
    }

    /// Queues a key. It answers false exactly where 128 keys wait, and then the key is dropped. It takes no memory.
    pub fn key(&mut self, k: KeyItem) -> bool
        ensures room { result ≡ nat_lt (length self.old.queue) 128 }
        ensures queued { self.new ≡ keyed k self.old }
    {
        if self.queue.len() >= QUEUE_SIZE {
            return false;
        }
        self.queue.push_back_reserved(k);
        true
    }

    /// Puts a partition in front.
    pub fn set_front(&mut self, p: Part)
        ensures { self.new ≡ record self.old { front = p } }
    {
        self.front = p;
    }

    /// The front hands the terminal on: the partition that comes next in the order is in front. It takes no memory.
    pub fn release(&mut self)
        ensures { self.new ≡ released self.old }
    {
        self.front = next_in(&self.order, self.front);
    }

    /// The partition in front.
    pub fn front(&self) -> Part
        ensures { result ≡ self.now.front }
    {
        self.front
    }

    /// Shows bytes: they are added to the transcript.
    pub fn show(&mut self, bytes: &[u8]) -> Result<(), NoMemory>
        ensures { OnOk result (self.new ≡ record self.old { transcript = self.old.transcript ++ bytes.now }) }
    {
        self.transcript.extend_from_slice(bytes)?;
        Ok(())
    }

    /// Types the keys that wait, up to one that ends the line, which has at most 256 bytes.
    pub fn read_line(&mut self) -> Result<Read, NoMemory>
        ensures answer { IfOk result (λ read. read ≡ line_read self.old) }
        ensures after { OnOk result (self.new ≡ after_read self.old) }
        ensures short { IfOk result IsShortLine }
        ensures no_keys { IfOk result (λ read. (read ≡ Read.NoKeys) ↔ (list_any ends_line self.old.queue ≡ false)) }
    {
        read_keys(
            self.alloc,
            &mut self.queue,
            &mut self.line,
            &mut self.transcript,
        )
    }

    /// Types bytes into the line, as keys that don't end it: RETURN among them does nothing. The keys that wait stay.
    pub fn insert(&mut self, bytes: &[u8]) -> Result<(), NoMemory>
        ensures { OnOk result (self.new ≡ inserted bytes.now self.old) }
    {
        type_bytes(&mut self.line, &mut self.transcript, bytes)
    }

    /// Takes the first key that waits, None exactly where none does. It takes no memory.
    pub fn one_key(&mut self) -> Option<KeyItem>
        ensures key { result ≡ slice_get self.old.queue 0 }
        ensures rest { self.new ≡ record self.old { queue = drop 1 self.old.queue } }
    {
        self.queue.pop_front()
    }

    /// All that was shown and echoed.
    pub fn transcript(&self) -> &[u8]
        ensures { result.now ≡ self.now.transcript }
    {
        &self.transcript
    }
}
