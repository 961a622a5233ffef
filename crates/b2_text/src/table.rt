// The table that has the place of the line of each number in the index.
ghost use Rattle.std.specs.Prelude.{◌≡◌, ◌+◌, ◌<◌, ◌≤◌, ℕ, List, IfOk, drop, get_or, length, replicate, slice_set};
ghost use Rattle.b2_text.specs.Blocks.{lines_laid, number_at};
ghost use Rattle.b2_text.specs.Numbered.{forgotten, place_among};

use crate::block::LinePlace;
use b2_base::NoMemory;
use std::alloc::Global;

/// How many numbers there are.
const NUMBERS: usize = 10_000;

/// The table of a text without lines.
pub fn no_places(alloc: Global) -> Result<Vec<u16>, NoMemory>
    ensures { IfOk result (λ table. table.items ≡ replicate 10000 0) }
{
    Ok(vec![in alloc; 0; NUMBERS]?)
}

/// No number has a line any more.
pub fn forget_all(table: &mut Vec<u16>)
    ensures { table.new.items ≡ replicate (length table.old.items) 0 }
{
    table.fill(0);
}

/// The place in the index of the line of a number, counted from 1, and 0 where there is none.
pub fn seek(table: &Vec<u16>, n: u16) -> usize
    ensures { result ≡ get_or table.now.items n 0 }
{
    match table.get(usize::from(n)) {
        Some(place) => usize::from(*place),
        None => 0,
    }
}

/// Puts a place under a number.
fn put_place_under(table: &mut Vec<u16>, n: u16, place: u16)
    requires { n < length table.old.items }
    ensures { table.new.items ≡ slice_set table.old.items n place }
{
    table[usize::from(n)] = place;
}

/// Writes down the places of the lines that stand in the index from a place on.
pub fn number_lines(table: &mut Vec<u16>, places: &Vec<LinePlace>, from: usize)
    requires within { from ≤ length places.now.items }
    requires few { length places.now.items ≤ 65535 }
    requires small { (k : ℕ) → k < length places.now.items → number_at places.now.items k < length table.old.items }
    ensures long { length table.new.items ≡ length table.old.items }
    ensures places { (n : ℕ) (block : List ℕ) → get_or table.new.items n 0 ≡ place_among (get_or table.old.items n 0) (from + 1) n (drop from (lines_laid block places.now.items)) }
{
    for i in from..places.len() {
        let place = places[i];
        put_place_under(table, place.number, (i + 1) as u16);
    }
}

/// The numbers of lines that go have no line any more.
pub fn forget_lines(table: &mut Vec<u16>, gone: &[LinePlace])
    requires small { (k : ℕ) → k < length gone.now → number_at gone.now k < length table.old.items }
    ensures long { length table.new.items ≡ length table.old.items }
    ensures places { (n : ℕ) (block : List ℕ) → get_or table.new.items n 0 ≡ forgotten (get_or table.old.items n 0) n (lines_laid block gone.now) }
{
    for i in 0..gone.len() {
        let place = gone[i];
        put_place_under(table, place.number, 0);
    }
}
