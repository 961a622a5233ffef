// A file system as the real shelf uses it. Where it tells its files, contracts tie each call to them; the one of the
// system that the program runs on tells none.
ghost use Rattle.std.specs.Prelude.{◌≡◌, Option, List, ℕ, true};
ghost use Rattle.b2_base.specs.Files.{Files, IsAbsent, without_file};
ghost use Rattle.b2_base.specs.FileSystems.{IsOpened, IsNew, IsPlaced};
ghost use Rattle.b2_base.specs.declared.file_system.Opened.TheVariants as opened;

use std::io::{Read, Write};

/// How opening a file went.
#[derive(Drop)]
pub enum Opened<F> {
    /// It is to be read from its start.
    Source(F),
    /// There is no such file.
    Missing,
    /// It can't be opened.
    Failed,
}

/// Files by name. A file is read as a stream, and made beside the one of its name, which it replaces once it is whole.
pub trait FileSystem {
    /// An open file, of which what remains is read.
    type Source: Read + Drop;

    /// A new file, which is written at its end.
    type Target: Write + Drop;

    /// The files, where the file system tells them.
    ghost files: { Self → Option Files };

    /// Opens the file of a name: what it holds remains to be read.
    fn open(&self, name: &[u8]) -> Opened<Self::Source>
        ensures source { IsOpened Self.Source.remaining (files self.now) name.now result }
        ensures missing { result ≡ opened.Missing → IsAbsent (files self.now) name.now };

    /// Makes a new and empty file beside the one of a name. What stands there before is removed.
    fn begin(&mut self, name: &[u8]) -> Option<Self::Target>
        ensures empty { IsNew Self.Target.contents (files self.old) result }
        ensures same { files self.new ≡ files self.old };

    /// Closes the new file beside the one of a name and puts it in its place, both down to the disk: whether all went well.
    /// Else the file of the name is unknown; all others stay in any case.
    fn place(&mut self, name: &[u8], target: Self::Target) -> bool
        ensures placed { result ≡ true → IsPlaced (Self.Target.contents target) name.now (files self.old) (files self.new) }
        ensures others { without_file name.now (files self.new) ≡ without_file name.now (files self.old) };

    /// Removes what stands beside the file of a name.
    fn abandon(&mut self, name: &[u8])
        ensures same { files self.new ≡ files self.old };
}
