//! Rows of the calls on values: the outside and the lexical layer, decimals and their text, byte strings, layout, packed
//! fields, arrays, variables and frames. The file `stdin` has the rows, each a line as `b2_cases` reads it.
//!
//! A row's call is a topic, a module of this crate, and the name of a call in it; each module's first lines say how its rows
//! are written. `files` calls what is outside itself.
#![tactic(auto)]

mod decimals;
mod elements;
mod files;
mod frames;
mod items;
mod kept;
mod lexical;
mod matrices;
mod names;
mod numerals;
mod outside;
mod packing;
mod printing;
mod showing;
mod strings;
mod variables;

use b2_base::cut;
use b2_cases::{Calls, Cells, Sheet, str_of, try_rows};
use std::alloc::{AllocError, Global};
use std::io;

struct ValueCalls;

/// Makes the call of that name in a topic.
fn answer(topic: &str, call: &str, sheet: &mut Sheet<'_>) {
    match topic {
        "text" => lexical::answer(call, sheet),
        "name" => names::answer(call, sheet),
        "outside" => outside::answer(call, sheet),
        "number" => decimals::answer(call, sheet),
        "numeral" => numerals::answer(call, sheet),
        "value" => kept::answer(call, sheet),
        "alpha" => strings::answer(call, sheet),
        "packed" => packing::answer(call, sheet),
        "print" => printing::answer(call, sheet),
        "matrix" => matrices::answer(call, sheet),
        "element" => elements::answer(call, sheet),
        "frame" => frames::answer(call, sheet),
        "variable" => variables::answer(call, sheet),
        _ => sheet.no_such_call(),
    }
}

impl Calls for ValueCalls {
    fn given(alloc: Global, call: &[u8], cells: Cells<'_>) -> Result<String, AllocError> {
        let mut sheet = Sheet::new(alloc, cells);
        let (topic, name) = cut(call, b' ');
        answer(str_of(topic), str_of(name.unwrap_or(&[])), &mut sheet);
        sheet.finish()
    }
}

fn main(rt: HostRuntime) -> io::Result<()> {
    try_rows::<ValueCalls>(&rt)?;
    files::try_files(&rt)
}
