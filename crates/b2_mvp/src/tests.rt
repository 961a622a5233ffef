// Runs over a shelf and a sink in memory, which tell their files and what is put: the worked examples, and calls that fail. All
// other runs are texts, which are given to the built program.
use crate::top::mvp;
use b2_base::{MemShelf, MemSink, cut};
use b2_status::Status;
use std::alloc::{AllocError, Global};
use std::collections::BTreeMap;

mod failing;
mod worked;

// A piece of a file: some bytes, and 00 after them where it is longer.
type Piece = (usize, &'static [u8]);

// Partitions 1 and 2, each on a terminal of its own; two disks of 64 blank sectors, and a printer.
#[rattlefmt::skip]
const FIRST: Piece = (0, b"quota=20\n[[terminal]]\nnumber=1\nfront=1\n[[partition]]\nnumber=1\nterminal=1\ntext=8\ndata=8\nglobals=2\ndisk=\"D11\"\n");

#[rattlefmt::skip]
const SECOND: Piece = (0, b"[[terminal]]\nnumber=2\nfront=2\n[[partition]]\nnumber=2\nterminal=2\ntext=8\ndata=8\nglobals=2\ndisk=\"D11\"\n");

#[rattlefmt::skip]
const DEVICES: Piece = (0, b"[[platter]]\naddress=\"D11\"\nblank=64\n[[platter]]\naddress=\"D12\"\nblank=64\n[[printer]]\naddress=\"215\"\n");

#[rattlefmt::skip]
const FILES: [(&[u8], &[Piece]); 13] = [
    // Boot files of one partition, of two and of three; of one with a text of 2 KiB, and with a disk of 256 sectors.
    (b"one", &[FIRST, DEVICES]),
    (b"two", &[FIRST, SECOND, DEVICES]),
    (b"three", &[FIRST, SECOND, (0, b"[[terminal]]\nnumber=3\nfront=3\n[[partition]]\nnumber=3\nterminal=3\ntext=8\ndata=8\nglobals=2\ndisk=\"D11\"\n"), DEVICES]),
    (b"small", &[(0, b"quota=20\n[[terminal]]\nnumber=1\nfront=1\n[[partition]]\nnumber=1\nterminal=1\ntext=2\ndata=8\nglobals=2\n"), DEVICES]),
    (b"large", &[FIRST, (0, b"[[platter]]\naddress=\"D11\"\nblank=256\n")]),
    // One of a byte too much, one with two disks from one image, and one with each of the images below.
    (b"long", &[(65_537, b"")]),
    (b"twice", &[FIRST, (0, b"[[platter]]\naddress=\"D11\"\nimage=\"short\"\n[[platter]]\naddress=\"D12\"\nimage=\"short\"\n")]),
    (b"first", &[FIRST, (0, b"[[platter]]\naddress=\"D11\"\nimage=\"short\"\n")]),
    (b"fourth", &[FIRST, (0, b"[[platter]]\naddress=\"D11\"\nimage=\"ended\"\n")]),
    (b"seventh", &[FIRST, (0, b"[[platter]]\naddress=\"D11\"\nimage=\"hidden\"\n")]),
    // The image of a disk of 64 sectors with two files of three each: the head; a slot in each of two index sectors; and for each
    // file an end mark and a control sector. It is a byte short; or the first file ends at the next free sector, 8; or the second
    // has a name whose look-up begins in the first sector, where slots are free.
    (b"short", &[(16, b"\x01\x02\x00\x40\x00\x40\x00\x08"), (240, b"\x10\x44\x00\x02\x00\x04\x00\x00F       "), (256, b"\x10\x44\x00\x05\x00\x07\x00\x00G       "), (512, b"\xA0"), (256, b"\xA1\x00\x01"), (512, b"\xA0"), (14_591, b"\xA1\x00\x01")]),
    (b"ended", &[(16, b"\x01\x02\x00\x40\x00\x40\x00\x08"), (240, b"\x10\x44\x00\x02\x00\x08\x00\x00F       "), (256, b"\x10\x44\x00\x05\x00\x07\x00\x00G       "), (512, b"\xA0"), (256, b"\xA1\x00\x01"), (512, b"\xA0"), (14_592, b"\xA1\x00\x01")]),
    (b"hidden", &[(16, b"\x01\x02\x00\x40\x00\x40\x00\x08"), (240, b"\x10\x44\x00\x02\x00\x04\x00\x00F       "), (256, b"\x10\x44\x00\x05\x00\x07\x00\x00H       "), (512, b"\xA0"), (256, b"\xA1\x00\x01"), (512, b"\xA0"), (14_592, b"\xA1\x00\x01")]),
];

// A file of its pieces.
fn file_of(alloc: Global, pieces: &[Piece]) -> Result<Vec<u8>, AllocError> {
    let mut file = Vec::new(alloc);
    for (length, bytes) in pieces {
        file.extend_from_slice(bytes)?;
        let rest = vec![in alloc; 0; length.saturating_sub(bytes.len())]?;
        file.extend_from_slice(&rest)?;
    }
    Ok(file)
}

// A shelf with all of them and a log; the call of this number fails, 0 for none.
fn shelf_with(alloc: Global, log: &[u8], failing: u32) -> Result<MemShelf, AllocError> {
    let mut files = BTreeMap::new(alloc);
    for (name, pieces) in &FILES {
        files.insert(Vec::from_slice(alloc, name)?, file_of(alloc, pieces)?)?;
    }
    let log = Vec::from_slice(alloc, log)?;
    files.insert(Vec::from_slice(alloc, b"log")?, log)?;
    Ok(MemShelf::new(alloc, files, vec![in alloc; failing]?))
}

// How a command ends, whose words are cut at blanks.
fn run(
    alloc: Global,
    command: &[u8],
    shelf: &mut MemShelf,
    sink: &mut MemSink,
) -> Result<Status, AllocError> {
    let mut words = Vec::new(alloc);
    let mut left = command;
    for _ in 0..command.len() {
        let (word, rest) = cut(left, b' ');
        words.push(Vec::from_slice(alloc, word)?)?;
        match rest {
            Some(rest) => left = rest,
            None => break,
        }
    }
    Ok(mvp(alloc, &words, shelf, sink))
}
