// The outputs of a run: a file for each terminal's transcript, for what each printer printed and for each platter's image, and the
// last line. None of them takes memory once it is kept: transcripts, printouts and images are kept as they stand in the store.
ghost use Rattle.std.specs.Prelude.{◌≡◌, ◌≤◌, ◌∷◌, ◌++◌, [], OnOk, IfOk, IfErr, length};
ghost use Rattle.b2_base.specs.Seen.{shelf_seen};
ghost use Rattle.b2_access.specs.declared.objects.Object.{Object};
ghost use Rattle.b2_access.specs.Store.{content};
ghost use Rattle.b2_sched.specs.Start.{platter_addresses, printer_addresses};
ghost use Rattle.b2_mvp.specs.Outputs as spec;

use crate::parts::add_list;
use b2_base::{Addr, FileName, Keep, NoMemory, Part, Shelf, Term};
use b2_boot::{Boot, BootPartition, BootPlatter, BootPrinter};
use b2_sched::World;
use b2_status::Status;
use b2_store::Ends;
use std::alloc::Global;

/// Adds a partition where it is apart.
fn add_where(is_apart: bool, number: Part, parts: &mut Vec<Part>) -> Result<(), NoMemory>
    ensures { OnOk result (parts.new.items ≡ parts.old.items ++ spec.listed_where is_apart number) }
{
    if is_apart {
        parts.push(number)?;
    }
    Ok(())
}

/// The partitions that are apart in a world.
fn apart<S: Ends + Drop>(
    alloc: Global,
    partitions: &[BootPartition],
    world: &World<S>,
) -> Result<Vec<Part>, NoMemory>
    ensures { IfOk result (λ parts. parts.items ≡ spec.apart_in world.now.marks partitions.now) }
{
    let mut parts = Vec::new(alloc);
    for p in partitions {
        add_where(world.clean(p.number), p.number, &mut parts)?;
    }
    Ok(parts)
}

/// The line that a run ends with.
pub fn summarize<S: Ends + Drop>(
    alloc: Global,
    boot: &Boot,
    world: &World<S>,
) -> Result<Vec<u8>, NoMemory>
    ensures { IfOk result (λ line. line.items ≡ spec.summary boot.now world.now) }
{
    let turns = world.turns();
    let steps = world.steps();
    let dropped = world.dropped();
    let counts = format!(in alloc; "turns {turns} steps {steps} dropped {dropped} apart ")?;
    let mut line = counts.into_bytes();
    let parts = apart(alloc, &boot.partitions, world)?;
    add_list(&mut line, &parts)?;
    line.push(b'\n')?;
    Ok(line)
}

/// The name of a terminal's transcript: the front of the outputs' names, `.t` and its number of two digits.
fn transcript_name(out: &FileName, t: Term) -> FileName
    requires { length out.now ≤ 190 }
    ensures { result ≡ spec.transcript_name out.now t }
{
    let number = t.number();
    let ending = [b'.', b't', b'0' + number / 10, b'0' + number % 10];
    FileName::empty().with(out.bytes()).with(&ending)
}

/// Keeps a file.
fn keep_output<F: Shelf>(name: FileName, bytes: &[u8], shelf: &mut F) -> Result<(), Status>
    ensures faults { F.faults shelf.old ≤ F.faults shelf.new }
    ensures ok { OnOk result (F.files shelf.new ≡ spec.with_files (record { name = name; bytes = bytes.now } ∷ []) (F.files shelf.old)) }
    ensures err { IfErr result (λ status. spec.CannotKeep (record { name = name; bytes = bytes.now } ∷ []) (shelf_seen F.files F.faults F.misses F.longs shelf.old) (shelf_seen F.files F.faults F.misses F.longs shelf.new) status) }
{
    match shelf.keep(name.bytes(), bytes) {
        Keep::Done => Ok(()),
        Keep::Failed => Err(Status::WriteFault(name)),
        Keep::NoMemory => Err(Status::KeepNoMemory(name)),
    }
}

/// Keeps the transcript of a terminal, where it is listed.
fn keep_transcript<S: Ends, F: Shelf>(
    out: &FileName,
    t: Term,
    stores: &S,
    shelf: &mut F,
) -> Result<(), Status>
    requires { length out.now ≤ 190 }
    ensures faults { F.faults shelf.old ≤ F.faults shelf.new }
    ensures ok { OnOk result (F.files shelf.new ≡ spec.with_files (spec.transcript out.now t (content (S.store (S.meaning stores.now)) (Object.Terminal t))) (F.files shelf.old)) }
    ensures err { IfErr result (λ status. spec.CannotKeep (spec.transcript out.now t (content (S.store (S.meaning stores.now)) (Object.Terminal t)))
        (shelf_seen F.files F.faults F.misses F.longs shelf.old) (shelf_seen F.files F.faults F.misses F.longs shelf.new) status) }
{
    let Some(terminal) = stores.terminal(t) else {
        return Ok(());
    };
    keep_output(transcript_name(out, t), terminal.transcript(), shelf)
}

/// Keeps the transcript of each terminal, by number.
fn keep_transcripts<S: Ends, F: Shelf>(
    out: &FileName,
    stores: &S,
    shelf: &mut F,
) -> Result<(), Status>
    requires { length out.now ≤ 190 }
    ensures faults { F.faults shelf.old ≤ F.faults shelf.new }
    ensures ok { OnOk result (F.files shelf.new ≡ spec.with_files (spec.transcripts_to out.now (S.store (S.meaning stores.now)) 12) (F.files shelf.old)) }
    ensures err { IfErr result (λ status. spec.CannotKeep (spec.transcripts_to out.now (S.store (S.meaning stores.now)) 12)
        (shelf_seen F.files F.faults F.misses F.longs shelf.old) (shelf_seen F.files F.faults F.misses F.longs shelf.new) status) }
{
    for before in 0..12u8 {
        match keep_transcript(out, Term::known(before + 1), stores, shelf) {
            Ok(()) => {}
            Err(status) => return Err(status),
        }
    }
    Ok(())
}

/// The name of a printout: the front of the outputs' names, `.p` and the address of its printer.
fn printout_name(out: &FileName, address: Addr) -> FileName
    requires { length out.now ≤ 190 }
    ensures { result ≡ spec.printout_name out.now address }
{
    FileName::empty()
        .with(out.bytes())
        .with(b".p")
        .with(&address.bytes())
}

/// Keeps what the printer at an address printed, where it is listed.
fn keep_printout<S: Ends, F: Shelf>(
    out: &FileName,
    address: Addr,
    stores: &S,
    shelf: &mut F,
) -> Result<(), Status>
    requires { length out.now ≤ 190 }
    ensures faults { F.faults shelf.old ≤ F.faults shelf.new }
    ensures ok { OnOk result (F.files shelf.new ≡ spec.with_files (spec.printout out.now address (content (S.store (S.meaning stores.now)) (Object.Printer address))) (F.files shelf.old)) }
    ensures err { IfErr result (λ status. spec.CannotKeep (spec.printout out.now address (content (S.store (S.meaning stores.now)) (Object.Printer address)))
        (shelf_seen F.files F.faults F.misses F.longs shelf.old) (shelf_seen F.files F.faults F.misses F.longs shelf.new) status) }
{
    let Some(printed) = stores.printer(address) else {
        return Ok(());
    };
    keep_output(printout_name(out, address), printed, shelf)
}

/// Keeps what each printer printed, by address.
fn keep_printouts<S: Ends, F: Shelf>(
    out: &FileName,
    printers: &[BootPrinter],
    stores: &S,
    shelf: &mut F,
) -> Result<(), Status>
    requires { length out.now ≤ 190 }
    ensures faults { F.faults shelf.old ≤ F.faults shelf.new }
    ensures ok { OnOk result (F.files shelf.new ≡ spec.with_files (spec.printouts_at out.now (S.store (S.meaning stores.now)) (printer_addresses printers.now)) (F.files shelf.old)) }
    ensures err { IfErr result (λ status. spec.CannotKeep (spec.printouts_at out.now (S.store (S.meaning stores.now)) (printer_addresses printers.now))
        (shelf_seen F.files F.faults F.misses F.longs shelf.old) (shelf_seen F.files F.faults F.misses F.longs shelf.new) status) }
{
    for printer in printers {
        match keep_printout(out, printer.address, stores, shelf) {
            Ok(()) => {}
            Err(status) => return Err(status),
        }
    }
    Ok(())
}

/// The name of a platter's image: the front of the outputs' names, a point and its address.
fn image_name(out: &FileName, address: Addr) -> FileName
    requires { length out.now ≤ 190 }
    ensures { result ≡ spec.image_name out.now address }
{
    FileName::empty()
        .with(out.bytes())
        .with(b".")
        .with(&address.bytes())
}

/// Keeps the image of the platter at an address, where it is listed.
fn keep_image<S: Ends, F: Shelf>(
    out: &FileName,
    address: Addr,
    stores: &S,
    shelf: &mut F,
) -> Result<(), Status>
    requires { length out.now ≤ 190 }
    ensures faults { F.faults shelf.old ≤ F.faults shelf.new }
    ensures ok { OnOk result (F.files shelf.new ≡ spec.with_files (spec.image out.now address (content (S.store (S.meaning stores.now)) (Object.Platter address))) (F.files shelf.old)) }
    ensures err { IfErr result (λ status. spec.CannotKeep (spec.image out.now address (content (S.store (S.meaning stores.now)) (Object.Platter address)))
        (shelf_seen F.files F.faults F.misses F.longs shelf.old) (shelf_seen F.files F.faults F.misses F.longs shelf.new) status) }
{
    let Some(platter) = stores.platter(address) else {
        return Ok(());
    };
    keep_output(image_name(out, address), platter.image(), shelf)
}

/// Keeps the image of each platter, by address.
fn keep_images<S: Ends, F: Shelf>(
    out: &FileName,
    platters: &[BootPlatter],
    stores: &S,
    shelf: &mut F,
) -> Result<(), Status>
    requires { length out.now ≤ 190 }
    ensures faults { F.faults shelf.old ≤ F.faults shelf.new }
    ensures ok { OnOk result (F.files shelf.new ≡ spec.with_files (spec.images_at out.now (S.store (S.meaning stores.now)) (platter_addresses platters.now)) (F.files shelf.old)) }
    ensures err { IfErr result (λ status. spec.CannotKeep (spec.images_at out.now (S.store (S.meaning stores.now)) (platter_addresses platters.now))
        (shelf_seen F.files F.faults F.misses F.longs shelf.old) (shelf_seen F.files F.faults F.misses F.longs shelf.new) status) }
{
    for platter in platters {
        match keep_image(out, platter.address, stores, shelf) {
            Ok(()) => {}
            Err(status) => return Err(status),
        }
    }
    Ok(())
}

/// Keeps the transcript of each terminal, by number, then what each printer of a boot printed, by address, and then the image of
/// each of its platters, by address.
pub fn keep_outputs<S: Ends, F: Shelf>(
    out: &FileName,
    boot: &Boot,
    stores: &S,
    shelf: &mut F,
) -> Result<(), Status>
    requires { length out.now ≤ 190 }
    ensures faults { F.faults shelf.old ≤ F.faults shelf.new }
    ensures ok { OnOk result (F.files shelf.new ≡ spec.with_files (spec.outputs out.now boot.now (S.store (S.meaning stores.now))) (F.files shelf.old)) }
    ensures err { IfErr result (λ status. spec.CannotKeep (spec.outputs out.now boot.now (S.store (S.meaning stores.now)))
        (shelf_seen F.files F.faults F.misses F.longs shelf.old) (shelf_seen F.files F.faults F.misses F.longs shelf.new) status) }
{
    match keep_transcripts(out, stores, shelf) {
        Ok(()) => {}
        Err(status) => return Err(status),
    }
    match keep_printouts(out, &boot.printers, stores, shelf) {
        Ok(()) => {}
        Err(status) => return Err(status),
    }
    match keep_images(out, &boot.platters, stores, shelf) {
        Ok(()) => Ok(()),
        Err(status) => Err(status),
    }
}
