// A shelf and a sink in memory, whose calls fail by a list of their numbers.
ghost use Rattle.std.specs.Prelude.{◌≡◌, ◌≤◌, ◌<◌, ◌^◌, ◌++◌, [], Some, Option, option_map, option_copied, OnOk, OnErr};
ghost use Rattle.std.specs.FinMap as map;
ghost use Rattle.b2_base.specs.Counts.{Rose};
ghost use Rattle.b2_base.specs.Files.{IsFetched, IsAbsent, IsCutShort, with_file, without_file};
ghost use Rattle.b2_base.specs.Keyed.{files_of};
ghost use Rattle.b2_base.specs.Memory.{is_listed};
ghost use Rattle.b2_base.specs.Outside.{IsPartWritten};

use crate::{Fetch, Keep, Shelf, Sink};
use std::alloc::{AllocError, Global};
use std::collections::BTreeMap;
use std::marker::Model;

/// Whether a call is one of those that fail.
fn is_failing(failing: &[u32], call: u32) -> bool
    ensures { result ≡ is_listed call failing.now }
{
    failing.contains(&call)
}

/// A sink that keeps what is put, and fails in the listed calls alone.
#[derive(Drop)]
pub struct MemSink {
    bytes: Vec<u8>,
    failing: Vec<u32>,
    calls: u32,
    faults: u64,
}

impl Model for MemSink {
    ghost use Rattle.b2_base.specs.Memory.{MemSinkState};

    ghost Value = { MemSinkState };

    ghost view = { λ s. record { written = s.bytes.items; failing = s.failing.items; calls = s.calls; faults = s.faults } };
}

impl MemSink {
    /// An empty sink, and the numbers, from 1, of the calls that fail.
    pub fn new(alloc: Global, failing: Vec<u32>) -> MemSink
        ensures { result ≡ record { written = []; failing = failing.items; calls = 0; faults = 0 } }
    {
        MemSink {
            bytes: Vec::new(alloc),
            failing,
            calls: 0,
            faults: 0,
        }
    }

    /// What was written.
    pub fn written(&self) -> &[u8]
        ensures { result.now ≡ self.now.written }
    {
        &self.bytes
    }
}

impl Sink for MemSink {
    ghost use Rattle.b2_base.specs.Memory.{MemPuts};

    ghost written = { λ s. Some s.written };

    ghost faults = { λ s. s.faults };

    fn put(&mut self, bytes: &[u8]) -> Keep
        ensures faults { self.old.faults ≤ self.new.faults }
        ensures done { result ≡ Keep.Done → Some self.new.written ≡ option_map (λ w. w ++ bytes.now) (Some self.old.written) }
        ensures part { IsPartWritten (Some self.old.written) (Some self.new.written) bytes.now }
        ensures failed { result ≡ Keep.Failed → Rose self.old.faults self.new.faults }
        ensures exactly { MemPuts bytes.now self.old self.new result }
    {
        self.calls = self.calls.saturating_add(1);
        if is_failing(&self.failing, self.calls) {
            self.faults = self.faults.saturating_add(1);
            return Keep::Failed;
        }
        if self.bytes.extend_from_slice(bytes).is_err() {
            return Keep::NoMemory;
        }
        Keep::Done
    }
}

/// A shelf of files in a map, whose calls fail by a list. Fetches and keeps are counted together.
#[derive(Drop)]
pub struct MemShelf {
    alloc: Global,
    files: BTreeMap<Vec<u8>, Vec<u8>>,
    failing: Vec<u32>,
    calls: u32,
    faults: u64,
    misses: u64,
    longs: u64,
}

impl Model for MemShelf {
    ghost use Rattle.b2_base.specs.Memory.{MemShelfState, shelf_code};
    ghost use Rattle.b2_base.specs.Keyed.{files_of};

    ghost Value = { MemShelfState };

    ghost coded = { shelf_code };

    ghost view = { λ s. record { files = files_of s.files.entries; failing = s.failing.items; calls = s.calls; faults = s.faults; misses = s.misses; longs = s.longs } };
}

impl MemShelf {
    /// A shelf of these files, and the numbers, from 1, of the calls that fail.
    pub fn new(alloc: Global, files: BTreeMap<Vec<u8>, Vec<u8>>, failing: Vec<u32>) -> MemShelf
        ensures { result ≡ record { files = files_of files.entries; failing = failing.items; calls = 0; faults = 0; misses = 0; longs = 0 } }
    {
        MemShelf {
            alloc,
            files,
            failing,
            calls: 0,
            faults: 0,
            misses: 0,
            longs: 0,
        }
    }

    /// The bytes of a file, None where there is none of that name.
    pub fn file(&self, name: &[u8]) -> Option<&[u8]>
        ensures { option_copied result ≡ map.get self.now.files name.now }
    {
        look(&self.files, name)
    }
}

/// The bytes of a file.
fn look<'a>(files: &'a BTreeMap<Vec<u8>, Vec<u8>>, name: &[u8]) -> Option<&'a [u8]>
    ensures { option_copied result ≡ map.get (files_of files.now.entries) name.now }
{
    match files.get(name) {
        Some(file) => Some(file.as_slice()),
        None => None,
    }
}

/// Sets the bytes of a file.
fn store(
    alloc: Global,
    files: &mut BTreeMap<Vec<u8>, Vec<u8>>,
    name: &[u8],
    bytes: &[u8],
) -> Result<(), AllocError>
    ensures ok { OnOk result (files_of files.new.entries ≡ map.insert (files_of files.old.entries) name.now bytes.now) }
    ensures err { OnErr result (files_of files.new.entries ≡ files_of files.old.entries) }
{
    let name = Vec::from_slice(alloc, name)?;
    let bytes = Vec::from_slice(alloc, bytes)?;
    files.insert(name, bytes)?;
    Ok(())
}

impl Shelf for MemShelf {
    ghost use Rattle.b2_base.specs.Memory.{MemFetches, MemKeeps};

    ghost files = { λ s. Some s.files };

    ghost faults = { λ s. s.faults };

    ghost misses = { λ s. s.misses };

    ghost longs = { λ s. s.longs };

    fn fetch(&mut self, name: &[u8], limit: usize, into: &mut Vec<u8>) -> Fetch
        requires empty { into.old.items ≡ [] }
        requires limit { limit < 2 ^ 31 }
        ensures same { Some self.new.files ≡ Some self.old.files }
        ensures faults { self.old.faults ≤ self.new.faults }
        ensures misses { self.old.misses ≤ self.new.misses }
        ensures longs { self.old.longs ≤ self.new.longs }
        ensures done { result ≡ Fetch.Done → IsFetched (Some self.old.files) name.now limit into.new.items }
        ensures missing { result ≡ Fetch.Missing → Rose self.old.misses self.new.misses × IsAbsent (Some self.old.files) name.now }
        ensures failed { result ≡ Fetch.Failed → Rose self.old.faults self.new.faults }
        ensures too_long { result ≡ Fetch.TooLong → Rose self.old.longs self.new.longs × IsCutShort (Some self.old.files) name.now limit into.new.items }
        ensures exactly { MemFetches name.now limit self.old self.new into.new.items result }
    {
        self.calls = self.calls.saturating_add(1);
        if is_failing(&self.failing, self.calls) {
            self.faults = self.faults.saturating_add(1);
            return Fetch::Failed;
        }
        let Some(file) = look(&self.files, name) else {
            self.misses = self.misses.saturating_add(1);
            return Fetch::Missing;
        };
        if file.len() <= limit {
            return match into.extend_from_slice(file) {
                Ok(()) => Fetch::Done,
                Err(_) => Fetch::NoMemory,
            };
        }
        if into.extend_from_slice(&file[..limit + 1]).is_err() {
            return Fetch::NoMemory;
        }
        self.longs = self.longs.saturating_add(1);
        Fetch::TooLong
    }

    fn keep(&mut self, name: &[u8], bytes: &[u8]) -> Keep
        ensures faults { self.old.faults ≤ self.new.faults }
        ensures misses { self.old.misses ≤ self.new.misses }
        ensures longs { self.old.longs ≤ self.new.longs }
        ensures done { result ≡ Keep.Done → Some self.new.files ≡ with_file name.now bytes.now (Some self.old.files) }
        ensures others { without_file name.now (Some self.new.files) ≡ without_file name.now (Some self.old.files) }
        ensures failed { result ≡ Keep.Failed → Rose self.old.faults self.new.faults }
        ensures exactly { MemKeeps name.now bytes.now self.old self.new result }
    {
        self.calls = self.calls.saturating_add(1);
        if is_failing(&self.failing, self.calls) {
            self.faults = self.faults.saturating_add(1);
            return Keep::Failed;
        }
        let Ok(()) = store(self.alloc, &mut self.files, name, bytes) else {
            return Keep::NoMemory;
        };
        Keep::Done
    }
}
