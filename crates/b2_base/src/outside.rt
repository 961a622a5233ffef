// The outside: a shelf of files and a sink for text, by what they tell and by counts that show why a call gave up.
ghost use Rattle.std.specs.Prelude.{◌≡◌, ◌≤◌, ◌<◌, ◌^◌, ◌++◌, List, [], ℕ, Option, option_map};
ghost use Rattle.b2_base.specs.Counts.{Rose};
ghost use Rattle.b2_base.specs.Files.{Files, IsFetched, IsAbsent, IsCutShort, with_file, without_file};
ghost use Rattle.b2_base.specs.Outside.{IsPartWritten};

/// The answer of a fetch.
#[derive(Clone, Copy)]
pub enum Fetch {
    /// The whole file was read.
    Done,
    /// There is no such file.
    Missing,
    /// Reading failed.
    Failed,
    /// The file has more bytes than the limit.
    TooLong,
    NoMemory,
}

/// The answer of a keep or a put.
#[derive(Clone, Copy)]
pub enum Keep {
    /// All bytes were written.
    Done,
    /// Writing failed.
    Failed,
    NoMemory,
}

/// Files by name. What a real file holds can't be told, so a shelf may keep its files to itself; whichever it does, its
/// three counts show why a call gave up. A count rose in a call where it is greater at exit than at entry, or stands at
/// the end of its type.
pub trait Shelf {
    /// The files, where the shelf tells them.
    ghost files: { Self → Option Files };

    /// How often a call has failed.
    ghost faults: { Self → ℕ };

    /// How often a file was missing.
    ghost misses: { Self → ℕ };

    /// How often a file was above its limit.
    ghost longs: { Self → ℕ };

    /// Reads the whole of a file of at most `limit` bytes into an empty buffer. After `TooLong` the buffer holds one
    /// byte more than the limit; after any other answer than `Done` it is to be dropped.
    fn fetch(&mut self, name: &[u8], limit: usize, into: &mut Vec<u8>) -> Fetch
        requires empty { into.old.items ≡ [] }
        requires limit { limit < 2 ^ 31 }
        ensures same { files self.new ≡ files self.old }
        ensures faults { faults self.old ≤ faults self.new }
        ensures misses { misses self.old ≤ misses self.new }
        ensures longs { longs self.old ≤ longs self.new }
        ensures done { result ≡ Fetch.Done → IsFetched (files self.old) name.now limit into.new.items }
        ensures missing { result ≡ Fetch.Missing → Rose (misses self.old) (misses self.new) × IsAbsent (files self.old) name.now }
        ensures failed { result ≡ Fetch.Failed → Rose (faults self.old) (faults self.new) }
        ensures too_long { result ≡ Fetch.TooLong → Rose (longs self.old) (longs self.new) × IsCutShort (files self.old) name.now limit into.new.items };

    /// Writes the whole of a file. After any other answer than `Done` the named file is unknown; all others stay in any
    /// case.
    fn keep(&mut self, name: &[u8], bytes: &[u8]) -> Keep
        ensures faults { faults self.old ≤ faults self.new }
        ensures misses { misses self.old ≤ misses self.new }
        ensures longs { longs self.old ≤ longs self.new }
        ensures done { result ≡ Keep.Done → files self.new ≡ with_file name.now bytes.now (files self.old) }
        ensures others { without_file name.now (files self.new) ≡ without_file name.now (files self.old) }
        ensures failed { result ≡ Keep.Failed → Rose (faults self.old) (faults self.new) };
}

/// A place for text, at whose end it is written.
pub trait Sink {
    /// What was written, where the sink tells it.
    ghost written: { Self → Option (List ℕ) };

    /// How often a call has failed.
    ghost faults: { Self → ℕ };

    /// Writes bytes at the end. After any other answer than `Done` a front of them was written.
    fn put(&mut self, bytes: &[u8]) -> Keep
        ensures faults { faults self.old ≤ faults self.new }
        ensures done { result ≡ Keep.Done → written self.new ≡ option_map (λ w. w ++ bytes.now) (written self.old) }
        ensures part { IsPartWritten (written self.old) (written self.new) bytes.now }
        ensures failed { result ≡ Keep.Failed → Rose (faults self.old) (faults self.new) };
}
