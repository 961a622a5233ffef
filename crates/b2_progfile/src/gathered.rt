// Lines that are gathered, in as much memory as they need.
ghost use Rattle.std.specs.Prelude.{All, ◌≡◌, ◌≤◌, nat_le, true, IfOk, OnOk};
ghost use Rattle.std.specs.List.Sorted.{IsStrictlySortedBy};
ghost use Rattle.std.specs.Map.{keys_of};
ghost use Rattle.std.specs.Ordering.{nat_cmp};
ghost use Rattle.b2_atom.specs.Lines.{KeepsUnits};
ghost use Rattle.b2_text.specs.Program.{size_of, with_line};
ghost use Rattle.b2_progfile.specs.Loading.{merged};

use crate::spelling::MOST_NUMBER;
use b2_atom::Atoms;
use b2_base::NoMemory;
use b2_text::{Line, Text};
use std::alloc::Global;
use std::collections::BTreeMap;

/// Lines by their numbers.
pub(crate) type Gathered = BTreeMap<u16, Atoms>;

/// What a line takes in a text beside its atoms.
const LINE_COST: usize = 5;

/// Puts a line to others, where one of its number gives way.
pub(crate) fn gather(lines: &mut Gathered, number: u16, atoms: Atoms) -> Result<(), NoMemory>
    ensures { OnOk result (lines.new.entries ≡ with_line number atoms lines.old.entries) }
{
    lines.insert(number, atoms)?;
    Ok(())
}

/// Puts lines to others, where one of the same number gives way.
pub(crate) fn gather_all(
    alloc: Global,
    lines: &mut Gathered,
    more: &Gathered,
) -> Result<(), NoMemory>
    ensures { OnOk result (lines.new.entries ≡ merged more.now.entries lines.old.entries) }
{
    for (number, atoms) in more {
        let copy = atoms.try_clone(alloc)?;
        gather(lines, *number, copy)?;
    }
    Ok(())
}

/// A line of its own with the same atoms.
fn line_copied(alloc: Global, line: &Line<'_>) -> Result<Atoms, NoMemory>
    requires { KeepsUnits line.now.atoms.now line.now.units.now }
    ensures { IfOk result (λ copy. copy ≡ line.now.atoms.now) }
{
    let atoms = line.lend();
    let found = Atoms::of(alloc, atoms.bytes())?;
    match found {
        Some(copy) => Ok(copy),
        None => unreachable!(),
    }
}

/// The lines of a text.
pub(crate) fn lines_of_text(alloc: Global, t: &Text) -> Result<Gathered, NoMemory>
    ensures { IfOk result (λ lines. lines.entries ≡ t.now.lines) }
{
    let _first = t.next_after(None);
    let mut lines = BTreeMap::new(alloc);
    let mut left = t.lines(0, MOST_NUMBER);
    while let Some(line) = left.next() {
        let copy = line_copied(alloc, &line)?;
        gather(&mut lines, line.number, copy)?;
    }
    Ok(lines)
}

/// Whether lines fit into an area.
pub(crate) fn fits(lines: &Gathered, area: usize) -> bool
    ensures { result ≡ nat_le (size_of lines.now.entries) area }
{
    let mut room = area;
    for (_, atoms) in lines {
        let cost = atoms.bytes().len() + LINE_COST;
        if cost > room {
            return false;
        }
        room -= cost;
    }
    true
}

/// Puts a line into a text, whose area it doesn't pass.
fn put_fitting(t: &mut Text, number: u16, atoms: &Atoms)
    requires number { number ≤ 9999 }
    requires fits { size_of (with_line number atoms.now t.old.lines) ≤ t.old.area }
    ensures { t.new ≡ record t.old { lines = with_line number atoms.now t.old.lines } }
{
    match t.put(number, atoms) {
        Ok(()) => (),
        Err(_code) => unreachable!(),
    }
}

/// Gives a text these lines in place of its own. They fit into its area.
pub(crate) fn refill(t: &mut Text, lines: &Gathered)
    requires sorted { IsStrictlySortedBy nat_cmp (keys_of lines.now.entries) }
    requires numbers { All (λ n. n ≤ 9999) (keys_of lines.now.entries) }
    requires fits { size_of lines.now.entries ≤ t.old.area }
    ensures { t.new ≡ record t.old { lines = lines.now.entries } }
{
    t.clear();
    for (number, atoms) in lines {
        put_fitting(t, *number, atoms);
    }
}
