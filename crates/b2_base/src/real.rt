// The shelf over a file system, and the sink over a writer. What a file system or a writer tells, they tell.
ghost use Rattle.std.specs.Prelude.{◌≡◌, ◌≢◌, ◌≤◌, ◌<◌, ◌+◌, ◌^◌, ◌++◌, None, option_map, [], ℕ, length, take, IfSome, true};
ghost use Rattle.b2_base.specs.Counts.{Rose};
ghost use Rattle.b2_base.specs.Files.{Files, IsFetched, IsAbsent, IsCutShort, with_file, without_file};
ghost use Rattle.b2_base.specs.Outside.{IsPartWritten};
ghost use Rattle.std.specs.Io.KnownBytes.{Appends};
ghost use Rattle.b2_base.specs.Real.{fetch_counts, keep_counts, put_counts};
ghost use Rattle.b2_base.specs.declared.real.Reading.TheVariants.{Whole, TooLong, Missing};

use crate::{Fetch, FileSystem, Keep, Opened, Shelf, Sink};
use std::io::{ErrorKind, Read, Write};

/// The files of a file system. A file that can't be opened, read or written is a fault; one that isn't there is a miss.
#[derive(Drop)]
pub struct FileShelf<S: FileSystem + Drop> {
    system: S,
    faults: u64,
    misses: u64,
    longs: u64,
}

impl<S: FileSystem + Drop> FileShelf<S> {
    /// The shelf with all counts 0.
    pub fn new(system: S) -> FileShelf<S>
        ensures { result ≡ record { system = system; faults = 0; misses = 0; longs = 0 } }
    {
        FileShelf {
            system,
            faults: 0,
            misses: 0,
            longs: 0,
        }
    }
}

/// How reading a file went.
enum Reading {
    Whole,
    Missing,
    Failed,
    TooLong,
    NoMemory,
}

/// Reads what remains of a file, or as much as passes the limit by one byte.
fn read_whole<F: Read + Drop>(file: F, limit: usize, into: &mut Vec<u8>) -> Reading
    requires empty { into.old.items ≡ [] }
    requires limit { limit < 2 ^ 31 }
    ensures there { result ≢ Missing }
    ensures whole { result ≡ Whole → length into.new.items ≤ limit }
    ensures too_long { result ≡ TooLong → length into.new.items ≡ limit + 1 }
    ensures all { result ≡ Whole → IfSome (F.remaining file) (λ xs. into.new.items ≡ xs) }
    ensures front { result ≡ TooLong → IfSome (F.remaining file) (λ xs. into.new.items ≡ take (limit + 1) xs) }
{
    match file.take(limit as u64 + 1).read_to_end(into) {
        Ok(_) => {
            if into.len() <= limit {
                return Reading::Whole;
            }
            into.truncate(limit + 1);
            Reading::TooLong
        }
        Err(e) => {
            if e.kind() == ErrorKind::OutOfMemory {
                Reading::NoMemory
            } else {
                Reading::Failed
            }
        }
    }
}

/// Reads the file of a name.
fn read_file<S: FileSystem>(system: &S, name: &[u8], limit: usize, into: &mut Vec<u8>) -> Reading
    requires empty { into.old.items ≡ [] }
    requires limit { limit < 2 ^ 31 }
    ensures whole { result ≡ Whole → IsFetched (S.files system.now) name.now limit into.new.items }
    ensures too_long { result ≡ TooLong → IsCutShort (S.files system.now) name.now limit into.new.items }
    ensures missing { result ≡ Missing → IsAbsent (S.files system.now) name.now }
{
    match system.open(name) {
        Opened::Source(file) => read_whole(file, limit, into),
        Opened::Missing => Reading::Missing,
        Opened::Failed => Reading::Failed,
    }
}

impl<S: FileSystem + Drop> Shelf for FileShelf<S> {
    ghost files = { λ s. S.files s.system };

    ghost faults = { λ s. s.faults };

    ghost misses = { λ s. s.misses };

    ghost longs = { λ s. s.longs };

    fn fetch(&mut self, name: &[u8], limit: usize, into: &mut Vec<u8>) -> Fetch
        requires empty { into.old.items ≡ [] }
        requires limit { limit < 2 ^ 31 }
        ensures same { S.files self.new.system ≡ S.files self.old.system }
        ensures faults { self.old.faults ≤ self.new.faults }
        ensures misses { self.old.misses ≤ self.new.misses }
        ensures longs { self.old.longs ≤ self.new.longs }
        ensures done { result ≡ Fetch.Done → IsFetched (S.files self.old.system) name.now limit into.new.items }
        ensures missing { result ≡ Fetch.Missing → Rose self.old.misses self.new.misses × IsAbsent (S.files self.old.system) name.now }
        ensures failed { result ≡ Fetch.Failed → Rose self.old.faults self.new.faults }
        ensures too_long { result ≡ Fetch.TooLong → Rose self.old.longs self.new.longs × IsCutShort (S.files self.old.system) name.now limit into.new.items }
        ensures counts { record { faults = self.new.faults; misses = self.new.misses; longs = self.new.longs } ≡ fetch_counts result (record { faults = self.old.faults; misses = self.old.misses; longs = self.old.longs }) }
    {
        match read_file(&self.system, name, limit, into) {
            Reading::Whole => Fetch::Done,
            Reading::NoMemory => Fetch::NoMemory,
            Reading::Missing => {
                self.misses = self.misses.saturating_add(1);
                Fetch::Missing
            }
            Reading::Failed => {
                self.faults = self.faults.saturating_add(1);
                Fetch::Failed
            }
            Reading::TooLong => {
                self.longs = self.longs.saturating_add(1);
                Fetch::TooLong
            }
        }
    }

    fn keep(&mut self, name: &[u8], bytes: &[u8]) -> Keep
        ensures faults { self.old.faults ≤ self.new.faults }
        ensures misses { self.old.misses ≤ self.new.misses }
        ensures longs { self.old.longs ≤ self.new.longs }
        ensures done { result ≡ Keep.Done → S.files self.new.system ≡ with_file name.now bytes.now (S.files self.old.system) }
        ensures others { without_file name.now (S.files self.new.system) ≡ without_file name.now (S.files self.old.system) }
        ensures failed { result ≡ Keep.Failed → Rose self.old.faults self.new.faults }
        ensures counts { record { faults = self.new.faults; misses = self.new.misses; longs = self.new.longs } ≡ keep_counts result (record { faults = self.old.faults; misses = self.old.misses; longs = self.old.longs }) }
    {
        if write_file(&mut self.system, name, bytes) {
            return Keep::Done;
        }
        self.faults = self.faults.saturating_add(1);
        Keep::Failed
    }
}

/// Hands all bytes to a writer, in their order: whether all went well.
fn write_whole<W: Write>(writer: &mut W, bytes: &[u8]) -> bool
    ensures handed_on { result ≡ true → Appends (W.contents writer.old) (W.contents writer.new) bytes.now }
{
    writer.write_all(bytes).is_ok()
}

/// Writes the file of a name: whether all went well. The bytes go to a file beside it, which takes its place once they are
/// whole; where a step fails, the file beside it is removed and an old file of the name stays whole.
fn write_file<S: FileSystem>(system: &mut S, name: &[u8], bytes: &[u8]) -> bool
    ensures done { result ≡ true → S.files system.new ≡ with_file name.now bytes.now (S.files system.old) }
    ensures others { without_file name.now (S.files system.new) ≡ without_file name.now (S.files system.old) }
{
    let Some(mut target) = system.begin(name) else {
        return false;
    };
    if write_whole(&mut target, bytes) {
        if system.place(name, target) {
            return true;
        }
    }
    system.abandon(name);
    false
}

/// The end of a writer, as standard output.
#[derive(Drop)]
pub struct OutSink<W: Write + Drop> {
    writer: W,
    faults: u64,
}

impl<W: Write + Drop> OutSink<W> {
    /// The sink with its count 0.
    pub fn new(writer: W) -> OutSink<W>
        ensures { result ≡ record { writer = writer; faults = 0 } }
    {
        OutSink { writer, faults: 0 }
    }
}

impl<W: Write + Drop> Sink for OutSink<W> {
    ghost written = { λ s. None };

    ghost faults = { λ s. s.faults };

    fn put(&mut self, bytes: &[u8]) -> Keep
        ensures faults { self.old.faults ≤ self.new.faults }
        ensures done { result ≡ Keep.Done → None ≡ option_map (λ w. w ++ bytes.now) None }
        ensures part { IsPartWritten None None bytes.now }
        ensures failed { result ≡ Keep.Failed → Rose self.old.faults self.new.faults }
        ensures handed_on { result ≡ Keep.Done → Appends (W.contents self.old.writer) (W.contents self.new.writer) bytes.now }
        ensures counts { self.new.faults ≡ put_counts result self.old.faults }
    {
        if write_whole(&mut self.writer, bytes) {
            return Keep::Done;
        }
        self.faults = self.faults.saturating_add(1);
        Keep::Failed
    }
}
