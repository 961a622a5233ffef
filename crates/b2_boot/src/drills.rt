// The drill: a boot of eight clerks with a disk each, and a log of what they do at once, both made from a number.
ghost use Rattle.std.specs.Prelude.{◌≡◌, ◌≤◌, ◌++◌, IfOk, IfSome, OnOk, true, map, flat_map};
ghost use Rattle.std.specs.Fmt.{decimal};
ghost use Rattle.std.specs.List.{list_all};
ghost use Rattle.b2_boot.specs.Drills as spec;
ghost use Rattle.b2_boot.specs.Logs.{key_events};

use crate::addresses::address_known;
use crate::boot::{Boot, BootPartition, BootPlatter, BootTerminal};
use crate::log::{Event, push_text};
use crate::log_lines::plain_number;
use b2_base::{Addr, NoMemory, Part, Term};
use b2_term::PartList;
use itoa::Buffer;
use std::alloc::Global;

/// The greatest number of a drill: its log grants some four million steps.
const MOST: u32 = 5000;

/// The clerks: eight partitions, each in front of the terminal of its number.
const CLERKS: [u8; 8] = [1, 2, 3, 4, 5, 6, 7, 8];

/// A clerk's terminal, which goes round to the clerk alone.
fn terminal_of(clerk: u8) -> BootTerminal
    requires { spec.is_clerk clerk ≡ true }
    ensures { result ≡ spec.terminal_of clerk }
{
    let mut order = PartList::new();
    order.push(Part::known(clerk));
    BootTerminal {
        number: Term::known(clerk),
        front: Part::known(clerk),
        order,
    }
}

/// The terminals of clerks.
fn drill_terminals(alloc: Global, clerks: &[u8]) -> Result<Vec<BootTerminal>, NoMemory>
    requires { list_all spec.is_clerk clerks.now ≡ true }
    ensures { IfOk result (λ terminals. terminals.items ≡ map spec.terminal_of clerks.now) }
{
    let mut terminals = Vec::new(alloc);
    for clerk in clerks {
        terminals.push(terminal_of(*clerk))?;
    }
    Ok(terminals)
}

/// The address of a clerk's disk.
fn disk_of(clerk: u8) -> Addr
    requires { spec.is_clerk clerk ≡ true }
    ensures { result ≡ spec.disk_of clerk }
{
    address_known(&[b'D', b'1', b'0' + (clerk - 1)])
}

/// The partitions of clerks.
fn partitions_of(alloc: Global, clerks: &[u8]) -> Result<Vec<BootPartition>, NoMemory>
    requires { list_all spec.is_clerk clerks.now ≡ true }
    ensures { IfOk result (λ partitions. partitions.items ≡ map spec.partition_of clerks.now) }
{
    let mut partitions = Vec::new(alloc);
    for clerk in clerks {
        partitions.push(BootPartition {
            number: Part::known(*clerk),
            terminal: Term::known(*clerk),
            text: 4,
            vars: 4,
            globals: 0,
            disk: Some(disk_of(*clerk)),
            program: None,
            quota: None,
        })?;
    }
    Ok(partitions)
}

/// The platters of clerks, each with ten sectors more than the number, at least 16.
fn drill_platters(alloc: Global, clerks: &[u8], n: u16) -> Result<Vec<BootPlatter>, NoMemory>
    requires clerks { list_all spec.is_clerk clerks.now ≡ true }
    requires few { n ≤ 5000 }
    ensures { IfOk result (λ platters. platters.items ≡ map (spec.platter_of n) clerks.now) }
{
    let mut platters = Vec::new(alloc);
    for clerk in clerks {
        platters.push(BootPlatter {
            address: disk_of(*clerk),
            image: None,
            blank: Some(u32::from(n + 10).max(16)),
            version: None,
            only: Some(Part::known(*clerk)),
        })?;
    }
    Ok(platters)
}

/// The boot of a drill.
#[tactic(auto, unfolding(crate::specs::Drills::drill_boot))]
fn drill_boot(alloc: Global, n: u16) -> Result<Boot, NoMemory>
    requires { n ≤ 5000 }
    ensures { IfOk result (λ boot. boot ≡ spec.drill_boot n) }
{
    Ok(Boot {
        quota: 20,
        terminals: drill_terminals(alloc, &CLERKS)?,
        partitions: partitions_of(alloc, &CLERKS)?,
        platters: drill_platters(alloc, &CLERKS, n)?,
        printers: Vec::new(alloc),
    })
}

/// Adds the digits of a number.
fn push_digits(line: &mut Vec<u8>, n: u16) -> Result<(), NoMemory>
    ensures { OnOk result (line.new.items ≡ line.old.items ++ decimal n) }
{
    let mut buffer = Buffer::new();
    line.extend_from_slice(buffer.format(n).as_bytes())?;
    Ok(())
}

/// What each clerk types, with the key RETURN at its end.
#[tactic(auto, unfolding(crate::specs::Drills::typed_line))]
fn typed_line(alloc: Global, n: u16) -> Result<Vec<u8>, NoMemory>
    requires { n ≤ 5000 }
    ensures { IfOk result (λ line. line.items ≡ spec.typed_line n) }
{
    let mut line = Vec::new(alloc);
    line.extend_from_slice(b"DATASAVE DC OPEN T,#1,")?;
    push_digits(&mut line, n + 2)?;
    line.extend_from_slice(b",\"F\":FOR I=1 TO ")?;
    push_digits(&mut line, n)?;
    line.extend_from_slice(b":DATASAVE DC #1,I:NEXT I:DATASAVE DC #1,END:PRINT I\r")?;
    Ok(line)
}

/// Adds the keys of a line at each clerk's terminal.
fn push_lines(events: &mut Vec<Event>, clerks: &[u8], line: &[u8]) -> Result<(), NoMemory>
    requires { list_all spec.is_clerk clerks.now ≡ true }
    ensures { OnOk result (events.new.items ≡ events.old.items ++ flat_map (λ i. key_events i line.now) clerks.now) }
{
    for clerk in clerks {
        push_text(events, Term::known(*clerk), line)?;
    }
    Ok(())
}

/// Adds turns by chance.
fn push_turns(events: &mut Vec<Event>, count: u32, start: u32) -> Result<(), NoMemory>
    requires { start ≤ 65536 }
    ensures { OnOk result (events.new.items ≡ events.old.items ++ spec.turns count start) }
{
    let mut x = start;
    for _ in 0..count {
        x = (75 * x + 74) % 65_537;
        events.push(Event::Turn(Part::known((1 + x % 8) as u8), (1 + x % 50) as u16))?;
    }
    Ok(())
}

/// The log of a drill.
#[tactic(auto, unfolding(crate::specs::Drills::drill_log))]
fn drill_log(alloc: Global, n: u16) -> Result<Vec<Event>, NoMemory>
    requires { n ≤ 5000 }
    ensures { IfOk result (λ events. events.items ≡ spec.drill_log n) }
{
    let line = typed_line(alloc, n)?;
    let mut events = Vec::new(alloc);
    push_lines(&mut events, &CLERKS, &line)?;
    push_turns(&mut events, 10 * u32::from(n), u32::from(n))?;
    events.push(Event::Rounds(2 * u32::from(n) + 10))?;
    Ok(events)
}

/// The number of a drill that a word spells: from 1 to 5,000, without zeros before.
pub fn drill_number(word: &[u8]) -> Option<u16>
    ensures value { result ≡ spec.drill_number word.now }
    ensures few { IfSome result (λ n. n ≤ 5000) }
{
    match plain_number(word) {
        Some(n) if 1 <= n && n <= MOST => Some(n as u16),
        _ => None,
    }
}

/// The boot and the log of a drill: eight clerks, each at a terminal of its own with a disk of its own, save a record for each
/// number up to `n`, in turns that a row of numbers from `n` on gives them.
pub fn drill(alloc: Global, n: u16) -> Result<(Boot, Vec<Event>), NoMemory>
    requires { n ≤ 5000 }
    ensures boot { IfOk result (λ made. made.0 ≡ spec.drill_boot n) }
    ensures log { IfOk result (λ made. made.1.items ≡ spec.drill_log n) }
{
    let boot = drill_boot(alloc, n)?;
    let events = drill_log(alloc, n)?;
    Ok((boot, events))
}
