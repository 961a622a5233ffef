//! Rows of the calls on statements that no typed line over the whole machine shows: where a value or a receiver ends in its line,
//! what a receiver is, whether it counts as reached, and statements that a crate refuses since another one has them. What a typed
//! line shows stands in the sessions and runs of `tests/`. The file `stdin` has the rows, each a line as `b2_cases` reads it, and
//! each module's first lines say how its rows are written.
#![tactic(auto)]

mod assigning;
mod desk;
mod locating;
mod places;
mod refusing;
mod values;

use crate::desk::Desk;
use b2_access::Private;
use b2_base::{Part, Term};
use b2_cases::{Calls, Cells, Sheet, str_of, try_rows};
use b2_text::Text;
use b2_vars::Vars;
use std::alloc::{AllocError, Global};
use std::io;

struct StatementCalls;

/// Makes the call of that name.
fn answer(call: &str, sheet: &mut Sheet<'_>, desk: &mut Desk) {
    match call {
        "control" | "variables" | "terminal" => refusing::refused(call, sheet, desk),
        "print" => refusing::refused_print(sheet, desk),
        "assign" => assigning::assign_typed(sheet, desk),
        "elsewhere" => assigning::elsewhere(sheet, desk),
        _ => locating::locate(call, sheet, desk),
    }
}

/// The same over a partition of its own.
fn answer_alone(call: &str, sheet: &mut Sheet<'_>) {
    let alloc = sheet.alloc();
    let Ok(home) = Text::new(alloc, 0) else {
        return sheet.no_memory();
    };
    let Ok(globals) = Vars::new(alloc, 4096) else {
        return sheet.no_memory();
    };
    let Ok(me) = Private::new(alloc, Part::known(1), Term::known(1), 4096, None, None) else {
        return sheet.no_memory();
    };
    answer(call, sheet, &mut Desk::of(me, home, globals));
}

impl Calls for StatementCalls {
    fn given(alloc: Global, call: &[u8], cells: Cells<'_>) -> Result<String, AllocError> {
        let mut sheet = Sheet::new(alloc, cells);
        answer_alone(str_of(call), &mut sheet);
        sheet.finish()
    }
}

fn main(rt: HostRuntime) -> io::Result<()> {
    try_rows::<StatementCalls>(&rt)
}
