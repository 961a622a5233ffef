// The trusted edge: the files of the system that the program runs on, by names in the current folder. They tell no bytes, so
// no contract ties what these calls do to the files; tests over real files do.
ghost use Rattle.std.specs.Prelude.{◌≡◌, None, true};
ghost use Rattle.b2_base.specs.Files.{IsAbsent, without_file};
ghost use Rattle.b2_base.specs.FileSystems.{IsOpened, IsNew, IsPlaced};

use crate::{FileSystem, Opened};
use arrayvec::ArrayString;
use std::fs::{OpenFile, OpenOptions};
use std::io::ErrorKind;
use std::rt::Files;
use std::{fs, str};

/// The files of the system that the program runs on. A name that is no text names none.
#[derive(Drop)]
pub struct HostFiles<'a, R: Files> {
    rt: &'a R,
}

impl<'a, R: Files> HostFiles<'a, R> {
    pub fn new(rt: &'a R) -> HostFiles<'a, R> {
        HostFiles { rt }
    }
}

/// The path of a file, and the one beside it at which it is written.
#[derive(Drop)]
struct Paths<'a> {
    path: &'a str,
    beside: ArrayString<256>,
}

/// The paths of a name, None where it is no text or is too long.
fn paths_of(name: &[u8]) -> Option<Paths<'_>> {
    let Ok(path) = str::from_utf8(name) else {
        return None;
    };
    let mut beside = ArrayString::new();
    if beside.try_push_str(path).is_err() || beside.try_push('~').is_err() {
        return None;
    }
    Some(Paths { path, beside })
}

/// Brings a file down to the disk and closes it: whether that went well.
fn is_synced<F: OpenFile + Drop>(file: F) -> bool {
    file.sync_all().is_ok()
}

impl<'a, R: Files> FileSystem for HostFiles<'a, R> {
    type Source = R::File;

    type Target = R::File;

    ghost files = { λ s. None };

    fn open(&self, name: &[u8]) -> Opened<R::File> {
        let Ok(path) = str::from_utf8(name) else {
            return Opened::Failed;
        };
        match fs::open(self.rt, path) {
            Ok(file) => Opened::Source(file),
            Err(e) => {
                if e.kind() == ErrorKind::NotFound {
                    Opened::Missing
                } else {
                    Opened::Failed
                }
            }
        }
    }

    /// What stands beside the file is never written through, be it a link to another file or not.
    fn begin(&mut self, name: &[u8]) -> Option<R::File> {
        let Some(paths) = paths_of(name) else {
            return None;
        };
        let _ = fs::remove_file(self.rt, paths.beside.as_str());
        let mut options = OpenOptions::new();
        options.write(true).create_new(true);
        match options.open(self.rt, paths.beside.as_str()) {
            Ok(file) => Some(file),
            Err(_) => None,
        }
    }

    fn place(&mut self, name: &[u8], target: R::File) -> bool {
        let Some(paths) = paths_of(name) else {
            return false;
        };
        is_synced(target) && fs::rename(self.rt, paths.beside.as_str(), paths.path).is_ok()
    }

    fn abandon(&mut self, name: &[u8]) {
        if let Some(paths) = paths_of(name) {
            let _ = fs::remove_file(self.rt, paths.beside.as_str());
        }
    }
}
