// The events of a log, or the first line that fails a check.
ghost use Rattle.std.specs.Prelude.{◌≡◌, ◌≤◌, ◌+◌, ◌-◌, ◌*◌, ◌^◌, ◌++◌, IfOk, IfErr, OnOk, true, map, min, length};
ghost use Rattle.std.specs.List.{list_all};
ghost use Rattle.b2_boot.specs.Boots.{has_terminal, has_partition, first_failed};
ghost use Rattle.b2_boot.specs.Rows.{is_between};
ghost use Rattle.b2_boot.specs.Quotas.{quota_row, quotas_of, steps_of_round};
ghost use Rattle.b2_boot.specs.Logs as spec;

use crate::boot::{Boot, BootPartition, BootTerminal};
use crate::log_lines::{Asked, LineRead, Typed, asked_by_line, first_line};
use b2_base::{NoMemory, Part, Term};
use b2_term::KeyItem;
use std::alloc::Global;

/// What happens.
#[derive(Clone, Copy)]
pub enum Event {
    /// A key at a terminal.
    Key(Term, KeyItem),
    /// A partition is put in front of a terminal.
    Front(Term, Part),
    /// A partition is halted.
    Halt(Part),
    /// A partition is reset.
    Reset(Part),
    /// A turn of a partition, with its quota.
    Turn(Part, u16),
    /// So many rounds: in each, every partition has a turn with its own quota, or with the boot's where it has none.
    Rounds(u32),
}

/// Why there are no events.
#[derive(Clone, Copy)]
pub enum LogErr {
    /// The first line that fails a check, from 1, and its first check.
    Line(u32, u8),
    /// Memory failed.
    NoMemory,
}

impl From<NoMemory> for LogErr {
    ghost use Rattle.std.specs.Prelude.{◌≡◌};
    ghost use Rattle.b2_boot.specs.declared.log.LogErr.TheVariants as refused;

    ghost from_gives = { λ _ e. e ≡ refused.NoMemory };

    fn from(_: NoMemory) -> LogErr {
        LogErr::NoMemory
    }
}

/// How many steps a log may grant in all.
const MOST_STEPS: u64 = 5_000_000;

/// Whether a number is a terminal's.
fn is_terminal_number(n: u32) -> bool
    ensures { result ≡ is_between 1 12 n }
{
    1 <= n && n <= 12
}

/// Whether a number is a partition's.
fn is_partition(n: u32) -> bool
    ensures { result ≡ is_between 1 16 n }
{
    1 <= n && n <= 16
}

/// 4: each number is in range.
fn is_in_range(asked: &Asked<'_>) -> bool
    ensures { result ≡ spec.is_in_range asked.now }
{
    match asked {
        Asked::Keys(t, _keys) => is_terminal_number(*t),
        Asked::Special(t, n) => is_terminal_number(*t) && *n <= 31,
        Asked::Front(t, p) => is_terminal_number(*t) && is_partition(*p),
        Asked::Halt(p) => is_partition(*p),
        Asked::Reset(p) => is_partition(*p),
        Asked::Turn(p, n) => is_partition(*p) && 1 <= *n && *n <= 1000,
        Asked::Rounds(n) => 1 <= *n && *n <= 100_000,
    }
}

/// Whether a terminal of a number stands in a boot.
fn has_terminal(number: u32, terminals: &[BootTerminal]) -> bool
    ensures { result ≡ has_terminal number terminals.now }
{
    terminals
        .iter()
        .any(|t| u32::from(t.number.number()) == number)
}

/// Whether a partition of a number is on a terminal.
fn has_partition(terminal: u32, number: u32, partitions: &[BootPartition]) -> bool
    ensures { result ≡ has_partition terminal number partitions.now }
{
    partitions.iter().any(|p| u32::from(p.number.number()) == number
        && u32::from(p.terminal.number()) == terminal)
}

/// 5: the terminal stands in the boot, and the front is a partition of it.
fn is_in_boot(boot: &Boot, asked: &Asked<'_>) -> bool
    ensures { result ≡ spec.is_in_boot boot.now asked.now }
{
    match asked {
        Asked::Keys(t, _keys) => has_terminal(*t, &boot.terminals),
        Asked::Special(t, _n) => has_terminal(*t, &boot.terminals),
        Asked::Front(t, p) => {
            has_terminal(*t, &boot.terminals) && has_partition(*t, *p, &boot.partitions)
        }
        _ => true,
    }
}

/// The steps that a round grants partitions, up to the most that are counted.
fn steps_granted(partitions: &[BootPartition], quota: u16) -> u64
    ensures { result ≡ min (steps_of_round (map (quota_row quota) partitions.now)) (2 ^ 64 - 1) }
{
    let mut steps = 0u64;
    for partition in partitions {
        steps = steps.saturating_add(u64::from(partition.quota_or(quota)));
    }
    steps
}

/// The steps that a round grants, up to the most that are counted.
fn steps_of_round(boot: &Boot) -> u64
    ensures { result ≡ min (steps_of_round (quotas_of boot.now)) (2 ^ 64 - 1) }
{
    steps_granted(&boot.partitions, boot.quota)
}

/// The steps that are asked for, up to the most that are counted.
fn steps_asked(boot: &Boot, asked: &Asked<'_>) -> u64
    ensures { result ≡ min (spec.steps_asked boot.now asked.now) (2 ^ 64 - 1) }
{
    match asked {
        Asked::Turn(_p, n) => u64::from(*n),
        Asked::Rounds(n) => u64::from(*n).saturating_mul(steps_of_round(boot)),
        _ => 0,
    }
}

/// The first check that what is asked fails, from 4, None where it passes them all.
fn check_of_asked(boot: &Boot, granted: u64, asked: &Asked<'_>) -> Option<u8>
    requires { granted ≤ 5000000 }
    ensures { result ≡ first_failed (spec.checks_of_asked boot.now granted asked.now) }
{
    if !is_in_range(asked) {
        return Some(4);
    }
    if !is_in_boot(boot, asked) {
        return Some(5);
    }
    if granted.saturating_add(steps_asked(boot, asked)) > MOST_STEPS {
        return Some(6);
    }
    None
}

/// What a line says, where `granted` steps were granted before it.
fn read_log_line<'a>(boot: &Boot, granted: u64, line: &'a [u8]) -> LineRead<'a>
    requires { granted ≤ 5000000 }
    ensures value { result ≡ spec.log_line boot.now granted line.now }
    ensures holds { spec.LineHolds boot.now granted result }
{
    match asked_by_line(line) {
        LineRead::Nothing => LineRead::Nothing,
        LineRead::Fails(check) => LineRead::Fails(check),
        LineRead::Asks(asked) => match check_of_asked(boot, granted, &asked) {
            Some(check) => LineRead::Fails(check),
            None => LineRead::Asks(asked),
        },
    }
}

/// Adds an event for each key of a text.
pub fn push_text(events: &mut Vec<Event>, terminal: Term, text: &[u8]) -> Result<(), NoMemory>
    ensures { OnOk result (events.new.items ≡ events.old.items ++ spec.key_events terminal text.now) }
{
    for key in text {
        events.push(Event::Key(terminal, KeyItem::Byte(*key)))?;
    }
    Ok(())
}

/// Adds an event for each key.
fn push_keys(events: &mut Vec<Event>, terminal: Term, keys: &Typed<'_>) -> Result<(), NoMemory>
    ensures { OnOk result (events.new.items ≡ events.old.items ++ spec.key_events terminal keys.now) }
{
    let (text, end) = keys.parts();
    push_text(events, terminal, text)?;
    if let Some(key) = end {
        events.push(Event::Key(terminal, KeyItem::Byte(key)))?;
    }
    Ok(())
}

/// Adds the events of what is asked.
fn push_events(events: &mut Vec<Event>, asked: &Asked<'_>) -> Result<(), NoMemory>
    requires { spec.is_in_range asked.now ≡ true }
    ensures { OnOk result (events.new.items ≡ events.old.items ++ spec.events_of asked.now) }
{
    match asked {
        Asked::Keys(t, keys) => push_keys(events, Term::known(*t as u8), keys)?,
        Asked::Special(t, n) => {
            events.push(Event::Key(Term::known(*t as u8), KeyItem::Special(*n as u8)))?;
        }
        Asked::Front(t, p) => {
            events.push(Event::Front(Term::known(*t as u8), Part::known(*p as u8)))?;
        }
        Asked::Halt(p) => events.push(Event::Halt(Part::known(*p as u8)))?,
        Asked::Reset(p) => events.push(Event::Reset(Part::known(*p as u8)))?,
        Asked::Turn(p, n) => events.push(Event::Turn(Part::known(*p as u8), *n as u16))?,
        Asked::Rounds(n) => events.push(Event::Rounds(*n))?,
    }
    Ok(())
}

/// The events of a log, or the first line that fails a check and its first check. The events grant at most five million
/// steps in all.
pub fn log_of(alloc: Global, bytes: &[u8], boot: &Boot) -> Result<Vec<Event>, LogErr>
    requires { length bytes.now ≤ 4194304 }
    ensures value { spec.Answers (spec.log_of boot.now bytes.now) result }
    ensures first { IfErr result (spec.IsFirst boot.now bytes.now) }
    ensures grants { IfOk result (λ events. spec.granted_by boot.now events.items ≤ 5000000) }
    ensures of_boot { IfOk result (λ events. list_all (spec.is_of_boot boot.now) events.items ≡ true) }
{
    let mut events = Vec::new(alloc);
    let mut granted = 0u64;
    let mut number = 1u32;
    let mut left = Some(bytes);
    while let Some(text) = left {
        let (line, rest) = first_line(text);
        let here = number;
        number += 1;
        left = rest;
        match read_log_line(boot, granted, line) {
            LineRead::Nothing => continue,
            LineRead::Fails(check) => return Err(LogErr::Line(here, check)),
            LineRead::Asks(asked) => {
                granted += steps_asked(boot, &asked);
                push_events(&mut events, &asked)?;
            }
        }
    }
    Ok(events)
}
