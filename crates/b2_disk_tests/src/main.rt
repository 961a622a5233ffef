//! Rows of the calls on disks: platters, their catalogue, records, data files, and program files. The file `stdin` has the
//! rows, each a line as `b2_cases` reads it.
//!
//! A row `disk` has a call in each cell. The calls are made one after the other, from a blank disk of sixteen sectors and an
//! empty text on, and the answers of all of them are what the row gives. Its disks are of version 1, those of a row `wide` of
//! version 2, and the calls of a row `both` are made over either. A row `record` shows the sectors of a record, and a row
//! `sectors` how many they are.
#![tactic(auto)]

mod answers;
mod catalogs;
mod data_files;
mod each;
mod images;
mod programs;
mod raws;
mod records;
mod sessions;
mod values;
mod words;

use b2_cases::{Calls, Cells, Sheet, str_of, try_rows};
use std::alloc::{AllocError, Global};
use std::io;

struct DiskCalls;

impl Calls for DiskCalls {
    fn given(alloc: Global, call: &[u8], cells: Cells<'_>) -> Result<String, AllocError> {
        let mut sheet = Sheet::new(alloc, cells);
        match str_of(call) {
            "disk" => sessions::all_answers(&mut sheet),
            "wide" => sessions::wide_answers(&mut sheet),
            "both" => return sessions::both_answers(alloc, cells),
            "record" => records::show_sectors(&mut sheet),
            "sectors" => records::count_sectors(&mut sheet),
            _ => sheet.no_such_call(),
        }
        sheet.finish()
    }
}

fn main(rt: HostRuntime) -> io::Result<()> {
    try_rows::<DiskCalls>(&rt)
}
