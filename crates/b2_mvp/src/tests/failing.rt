// Calls of the shelf and of the sink that fail, and inputs that are refused: the status of each, and what was kept before.
use super::{run, shelf_with};
use b2_base::{MemShelf, MemSink};
use std::test::Fail;

// A command and a log, the number of a failing call of the shelf and of the sink, 0 for none, how many outputs are kept, and the
// number and the line of the status.
struct Row {
    words: &'static [u8],
    log: &'static [u8],
    shelf: u32,
    sink: u32,
    kept: usize,
    number: u8,
    line: &'static [u8],
}

// The words of most commands.
const RUN: &[u8] = b"run two log out";

#[rattlefmt::skip]
const ROWS: [Row; 28] = [
    // The fetches of the boot file and of the log.
    Row { words: RUN, log: b"", shelf: 1, sink: 0, kept: 0, number: 3, line: b"read fault two" },
    Row { words: RUN, log: b"", shelf: 2, sink: 0, kept: 0, number: 3, line: b"read fault log" },
    // The keeps of two transcripts, a printout and two images. Those before the one that fails stand, and no other is kept.
    Row { words: RUN, log: b"", shelf: 3, sink: 0, kept: 0, number: 7, line: b"write fault out.t01" },
    Row { words: RUN, log: b"", shelf: 4, sink: 0, kept: 1, number: 7, line: b"write fault out.t02" },
    Row { words: RUN, log: b"", shelf: 5, sink: 0, kept: 2, number: 7, line: b"write fault out.p215" },
    Row { words: RUN, log: b"", shelf: 6, sink: 0, kept: 3, number: 7, line: b"write fault out.D11" },
    Row { words: RUN, log: b"", shelf: 7, sink: 0, kept: 4, number: 7, line: b"write fault out.D12" },
    // The put of the summary.
    Row { words: RUN, log: b"", shelf: 0, sink: 1, kept: 5, number: 7, line: b"write fault " },
    // Calls that aren't made.
    Row { words: RUN, log: b"", shelf: 8, sink: 0, kept: 5, number: 0, line: b"" },
    Row { words: RUN, log: b"", shelf: 0, sink: 2, kept: 5, number: 0, line: b"" },
    // No words; a boot file that isn't there, one that is too long, and one with two disks from one image; a line of a log.
    Row { words: b"", log: b"", shelf: 0, sink: 0, kept: 0, number: 1, line: b"usage" },
    Row { words: b"run none log out", log: b"", shelf: 0, sink: 0, kept: 0, number: 2, line: b"missing none" },
    Row { words: b"run long log out", log: b"", shelf: 0, sink: 0, kept: 0, number: 9, line: b"too long long 65536" },
    Row { words: b"run twice log out", log: b"", shelf: 0, sink: 0, kept: 0, number: 4, line: b"bad boot 9" },
    Row { words: RUN, log: b"rounds 1\njump 1\n", shelf: 0, sink: 0, kept: 0, number: 5, line: b"bad log 2 2" },
    // Images.
    Row { words: b"run first log out", log: b"", shelf: 0, sink: 0, kept: 0, number: 6, line: b"bad image D11 1" },
    Row { words: b"run fourth log out", log: b"", shelf: 0, sink: 0, kept: 0, number: 6, line: b"bad image D11 4" },
    Row { words: b"run seventh log out", log: b"", shelf: 0, sink: 0, kept: 0, number: 6, line: b"bad image D11 7" },
    // The one fetch and the one put of the commands of one file, and calls that aren't made.
    Row { words: b"screen log", log: b"", shelf: 1, sink: 0, kept: 0, number: 3, line: b"read fault log" },
    Row { words: b"screen log", log: b"", shelf: 0, sink: 1, kept: 0, number: 7, line: b"write fault " },
    Row { words: b"screen log", log: b"", shelf: 2, sink: 0, kept: 0, number: 0, line: b"" },
    Row { words: b"screen log", log: b"", shelf: 0, sink: 2, kept: 0, number: 0, line: b"" },
    Row { words: b"screen none", log: b"", shelf: 0, sink: 0, kept: 0, number: 2, line: b"missing none" },
    Row { words: b"check short", log: b"", shelf: 1, sink: 0, kept: 0, number: 3, line: b"read fault short" },
    Row { words: b"check short", log: b"", shelf: 0, sink: 1, kept: 0, number: 7, line: b"write fault " },
    Row { words: b"check short", log: b"", shelf: 2, sink: 0, kept: 0, number: 0, line: b"" },
    Row { words: b"check short", log: b"", shelf: 0, sink: 2, kept: 0, number: 0, line: b"" },
    Row { words: b"check none", log: b"", shelf: 0, sink: 0, kept: 0, number: 2, line: b"missing none" },
];

// The outputs, in the order in which they are kept.
const OUTPUTS: [&[u8]; 5] = [b"out.t01", b"out.t02", b"out.p215", b"out.D11", b"out.D12"];

// Whether exactly the first of the outputs are there.
fn are_kept(shelf: &MemShelf, count: usize) -> bool {
    for (place, name) in OUTPUTS.iter().enumerate() {
        if shelf.file(name).is_some() != (place < count) {
            return false;
        }
    }
    true
}

#[test]
fn failing_calls_have_their_status(rt: HostRuntime) -> Result<(), Fail> {
    let alloc = rt.alloc();
    for (number, row) in ROWS.iter().enumerate() {
        let mut shelf = shelf_with(alloc, row.log, row.shelf)?;
        let mut sink = MemSink::new(alloc, vec![in alloc; row.sink]?);
        let status = run(alloc, row.words, &mut shelf, &mut sink)?;
        assert_eq!(rt; status.message().bytes(), row.line);
        assert_eq!(rt; status.number(), row.number);
        assert!(rt; are_kept(&shelf, row.kept), "row {number}");
        assert_eq!(rt; sink.written().is_empty(), row.number != 0);
    }
    Ok(())
}
