// The commands of one file.
ghost use Rattle.std.specs.Prelude.{◌≡◌, IfOk};
ghost use Rattle.b2_base.specs.Seen.{shelf_seen, sink_seen};
ghost use Rattle.b2_look.specs.Shows.{shown, Shows};

use crate::rows::screen_lines;
use b2_base::{FileName, NoMemory, Shelf, Sink};
use b2_raw::report;
use b2_screen::Screen;
use b2_status::{Status, fetch_input, put_last};
use std::alloc::Global;

/// How many bytes a file that is shown may have.
const FILE_LIMIT: u32 = 67_108_864;

/// What a file is shown as.
#[derive(Clone, Copy)]
pub enum View {
    /// A transcript, as the screen that it leaves.
    Screen,
    /// A disk image, as the report on it.
    Check,
}

/// The screen that a transcript leaves, as lines.
fn transcript_shown(alloc: Global, bytes: &[u8]) -> Result<Vec<u8>, NoMemory>
    ensures { IfOk result (λ lines. lines.items ≡ shown View.Screen bytes.now) }
{
    let mut screen = Screen::new();
    screen.feed(bytes);
    screen_lines(alloc, &screen)
}

/// The report on a disk image.
fn image_shown(alloc: Global, bytes: Vec<u8>) -> Result<Vec<u8>, NoMemory>
    ensures { IfOk result (λ lines. lines.items ≡ shown View.Check bytes.items) }
{
    let mut lines = Vec::new(alloc);
    report(bytes, &mut lines)?;
    Ok(lines)
}

/// What is shown of the bytes of a file.
fn file_shown(alloc: Global, view: View, bytes: Vec<u8>) -> Result<Vec<u8>, NoMemory>
    ensures { IfOk result (λ lines. lines.items ≡ shown view bytes.items) }
{
    match view {
        View::Screen => transcript_shown(alloc, &bytes),
        View::Check => image_shown(alloc, bytes),
    }
}

/// Fetches a file and puts what is shown of it, whatever it holds. No file changes, and nothing is put before all of it is made.
pub fn show<F: Shelf, O: Sink>(
    alloc: Global,
    view: View,
    name: FileName,
    shelf: &mut F,
    sink: &mut O,
) -> Status
    ensures { Shows view name
        (shelf_seen F.files F.faults F.misses F.longs shelf.old) (shelf_seen F.files F.faults F.misses F.longs shelf.new)
        (sink_seen O.written O.faults sink.old) (sink_seen O.written O.faults sink.new) result }
{
    let bytes = match fetch_input(alloc, name, FILE_LIMIT, shelf) {
        Ok(bytes) => bytes,
        Err(status) => return status,
    };
    let Ok(lines) = file_shown(alloc, view, bytes) else {
        return Status::NoMemory;
    };
    put_last(&lines, sink)
}
