// Files of the file system and standard output. No row can hold what is outside: the program itself makes these calls, and
// the file `stdout` holds what each gives.
ghost use Rattle.std.specs.Prelude.{◌<◌, ◌^◌};

use crate::outside::{name_of_fetch, name_of_keep};
use b2_base::{FileShelf, HostFiles, OutSink, Shelf, Sink};
use std::{fs, io};

/// The longest file that is fetched here.
const LONGEST: u32 = 65_537;

/// Makes the calls, and says what each gives.
pub fn try_files(rt: &HostRuntime) -> io::Result<()> {
    small_file(rt)?;
    folder_in_the_way(rt)?;
    folder_beside(rt)?;
    names_alike(rt)?;
    changed_file(rt)?;
    files_of_sizes(rt)?;
    large_file(rt)
}

/// Keeps a file, and says how it went.
fn keep(rt: &HostRuntime, name: &str, bytes: &[u8]) -> io::Result<()> {
    let mut shelf = FileShelf::new(HostFiles::new(rt));
    let kept = shelf.keep(name.as_bytes(), bytes);
    println!(rt; "keep {name}: {}", name_of_keep(kept))
}

/// Fetches a file, and says how it went and how many bytes there are; gives them.
fn fetch(rt: &HostRuntime, name: &str, limit: u32) -> io::Result<Vec<u8>>
    requires limit { limit < 2 ^ 31 }
{
    let mut shelf = FileShelf::new(HostFiles::new(rt));
    let mut into = Vec::new(rt.alloc());
    let fetched = shelf.fetch(name.as_bytes(), limit as usize, &mut into);
    println!(rt;
        "fetch {name} of at most {limit} bytes: {}, {} bytes",
        name_of_fetch(fetched),
        into.len()
    )?;
    Ok(into)
}

/// Shows bytes on standard output, and says how it went.
fn put(rt: &HostRuntime, bytes: &[u8]) -> io::Result<()> {
    let mut sink = OutSink::new(io::writer(rt));
    let shown = sink.put(bytes);
    println!(rt; "put: {}", name_of_keep(shown))
}

/// A file is read whole, and cut where it is longer than the limit; a missing one and one that can't be read or written
/// are told apart. What stood beside it is gone.
fn small_file(rt: &HostRuntime) -> io::Result<()> {
    fs::write(rt, "b2_value_small.tmp~", b"stale")?;
    keep(rt, "b2_value_small.tmp", b"ABC\n")?;
    fetch(rt, "b2_value_small.tmp~", 9)?;
    let whole = fetch(rt, "b2_value_small.tmp", 4)?;
    put(rt, &whole)?;
    let cut = fetch(rt, "b2_value_small.tmp", 2)?;
    put(rt, &cut)?;
    fetch(rt, "b2_value_none.tmp", 3)?;
    fetch(rt, ".", 3)?;
    keep(rt, "b2_value_none.tmp/x", b"ABC")?;
    fs::remove_file(rt, "b2_value_small.tmp")
}

/// A folder of the name is in the way: the file beside it, which is written first, is taken away again.
fn folder_in_the_way(rt: &HostRuntime) -> io::Result<()> {
    fs::create_dir(rt, "b2_value_folder.tmp")?;
    keep(rt, "b2_value_folder.tmp", b"new")?;
    fetch(rt, "b2_value_folder.tmp~", 9)?;
    fs::remove_dir(rt, "b2_value_folder.tmp")
}

/// A folder stands where the file beside it would be written: the old file stays whole.
fn folder_beside(rt: &HostRuntime) -> io::Result<()> {
    fs::create_dir(rt, "b2_value_old.tmp~")?;
    fs::write(rt, "b2_value_old.tmp", b"old\n")?;
    keep(rt, "b2_value_old.tmp", b"new\n")?;
    let old = fetch(rt, "b2_value_old.tmp", 9)?;
    put(rt, &old)?;
    fs::remove_file(rt, "b2_value_old.tmp")?;
    fs::remove_dir(rt, "b2_value_old.tmp~")
}

/// Two files whose names differ in one letter hold what each was given, whichever is fetched first by one shelf.
fn names_alike(rt: &HostRuntime) -> io::Result<()> {
    keep(rt, "b2_value_alike_a.tmp", b"first\n")?;
    keep(rt, "b2_value_alike_b.tmp", b"another\n")?;
    let mut shelf = FileShelf::new(HostFiles::new(rt));
    for name in ["b2_value_alike_b.tmp", "b2_value_alike_a.tmp"] {
        let mut into = Vec::new(rt.alloc());
        let fetched = shelf.fetch(name.as_bytes(), 9, &mut into);
        println!(rt;
            "fetch {name}: {}, {} bytes",
            name_of_fetch(fetched),
            into.len()
        )?;
        put(rt, &into)?;
    }
    fetch(rt, "b2_value_alike_c.tmp", 9)?;
    fs::remove_file(rt, "b2_value_alike_a.tmp")?;
    fs::remove_file(rt, "b2_value_alike_b.tmp")
}

/// A file that is kept again, longer and then shorter than before, holds what was kept last.
fn changed_file(rt: &HostRuntime) -> io::Result<()> {
    for text in ["one\n", "one and two\n", "1\n"] {
        keep(rt, "b2_value_changed.tmp", text.as_bytes())?;
        let now = fetch(rt, "b2_value_changed.tmp", 20)?;
        put(rt, &now)?;
    }
    fs::remove_file(rt, "b2_value_changed.tmp")
}

/// Bytes of which those at places 251 apart, and no others nearby, are alike.
fn bytes_by_place(rt: &HostRuntime, count: u32) -> io::Result<Vec<u8>> {
    let mut bytes = Vec::new(rt.alloc());
    for place in 0..count {
        bytes.push((place % 251) as u8)?;
    }
    Ok(bytes)
}

/// Files of no byte, of one, and of as many as one block of 64 KiB has, less and more by one, are kept and fetched whole.
fn files_of_sizes(rt: &HostRuntime) -> io::Result<()> {
    for count in [0, 1, 65_535, 65_536, LONGEST] {
        let bytes = bytes_by_place(rt, count)?;
        keep(rt, "b2_value_sizes.tmp", &bytes)?;
        let fetched = fetch(rt, "b2_value_sizes.tmp", LONGEST)?;
        let alike = fetched.as_slice() == bytes.as_slice();
        println!(rt; "the bytes that were kept: {alike}")?;
    }
    fetch(rt, "b2_value_sizes.tmp", LONGEST - 1)?;
    fs::remove_file(rt, "b2_value_sizes.tmp")
}

/// Ten thousand bytes are kept, fetched and shown whole, and nothing stays beside the file.
fn large_file(rt: &HostRuntime) -> io::Result<()> {
    let mut bytes = vec![in rt.alloc(); b'A'; 9_998]?;
    bytes.extend_from_slice(b"Z\n")?;
    keep(rt, "b2_value_large.tmp", &bytes)?;
    let fetched = fetch(rt, "b2_value_large.tmp", 10_000)?;
    fetch(rt, "b2_value_large.tmp~", 9)?;
    fs::remove_file(rt, "b2_value_large.tmp")?;
    put(rt, &fetched)
}
