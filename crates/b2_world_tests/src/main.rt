//! Rows of the calls on what partitions share: terminals, boot files and logs, what a partition has for itself, the store and the
//! watch around it, and the screen that a transcript leaves. What whole worlds do stands in the runs of `tests/`. The file `stdin`
//! has the rows, each a line as `b2_cases` reads it.
#![tactic(auto)]

mod accesses;
mod boots;
mod devices;
mod files;
mod images;
mod lending;
mod logs;
mod partitions;
mod pieces;
mod places;
mod screens;
mod sectors;
mod stores;
mod terminals;
mod texts;

ghost use Rattle.b2_access.specs.declared.accesses.Access.{Access as AccessSpec};
ghost use Rattle.b2_access.specs.Touching.{MayWantMemory};

use b2_cases::{Calls, Cells, Sheet, str_of, try_rows};
use b2_store::{Ends, PlainStores, Stores};
use std::alloc::{AllocError, Global};
use std::io;

struct WorldCalls;

/// Makes the call of that name.
fn answer(call: &str, sheet: &mut Sheet<'_>) {
    match call {
        "terminal" => terminals::called(sheet),
        "round" => terminals::went_round(sheet),
        "boot" => boots::read(sheet),
        "alone" => boots::left_alone(sheet),
        "log" => logs::read(sheet),
        "device" => partitions::device(sheet),
        "partition" | "start" | "disk" => partitions::started(call, sheet),
        "after" => places::after_unit(sheet),
        "goal" => places::at_goal(sheet),
        "lent" => lending::called(sheet),
        "screen" => screens::fed(sheet),
        _ => sheet.no_such_call(),
    }
}

/// What a row of a store gives over one of this make.
fn given_over<S: Ends + Drop>(
    alloc: Global,
    call: &str,
    cells: Cells<'_>,
) -> Result<String, AllocError>
    requires plain { (a : AccessSpec) → S.wants a → MayWantMemory a }
{
    let mut sheet = Sheet::new(alloc, cells);
    match call {
        "store" => stores::called::<S>(&mut sheet),
        _ => stores::called_over_image::<S>(&mut sheet),
    }
    sheet.finish()
}

/// What a row of a store gives over one in rows and over one in two lists, which is to be the same.
fn given_by_both(alloc: Global, call: &str, cells: Cells<'_>) -> Result<String, AllocError> {
    let in_rows = given_over::<Stores>(alloc, call, cells)?;
    let in_lists = given_over::<PlainStores>(alloc, call, cells)?;
    if in_rows == in_lists {
        return Ok(in_rows);
    }
    format!(in alloc; "in rows {in_rows} and in lists {in_lists}")
}

impl Calls for WorldCalls {
    fn given(alloc: Global, call: &[u8], cells: Cells<'_>) -> Result<String, AllocError> {
        let call = str_of(call);
        if matches!(call, "store" | "image") {
            return given_by_both(alloc, call, cells);
        }
        let mut sheet = Sheet::new(alloc, cells);
        answer(call, &mut sheet);
        sheet.finish()
    }
}

fn main(rt: HostRuntime) -> io::Result<()> {
    try_rows::<WorldCalls>(&rt)
}
