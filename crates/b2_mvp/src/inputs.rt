// The inputs of a run: their bytes within a limit, and what they say.
ghost use Rattle.std.specs.Prelude.{◌≡◌, ◌≤◌, IfOk, IfErr, true};
ghost use Rattle.std.specs.List.{list_all};
ghost use Rattle.b2_base.specs.Seen.{shelf_seen, Later};
ghost use Rattle.b2_boot.specs.Boots.{IsGood, is_platter};
ghost use Rattle.b2_boot.specs.Rows.{blank_version, is_blank};
ghost use Rattle.b2_platter.specs.Edits.{blank_image};
ghost use Rattle.b2_platter.specs.Image.{index_of};
ghost use Rattle.b2_platter.specs.Layout.{by_version};
ghost use Rattle.b2_mvp.specs.declared.inputs.Source.TheVariants as source;
ghost use Rattle.b2_status.specs.declared.status.Status.{Status};
ghost use Rattle.b2_mvp.specs.Inputs as spec;

use b2_base::{Addr, FileName, Shelf};
use b2_boot::{Boot, BootErr, BootPlatter, Event, LogErr, boot_of, drill, log_of};
use b2_platter::Platter;
use b2_status::{Status, fetch_input};
use std::alloc::Global;

/// The files of a boot and of a log.
#[derive(Drop)]
pub struct BootAndLog {
    pub boot: FileName,
    pub log: FileName,
}

/// Where a run takes its boot and its log from.
#[derive(Drop)]
pub enum Source {
    /// A boot file and a log.
    Files(BootAndLog),
    /// The drill of a number.
    Drill(u16),
}

/// A boot and the events of its log.
#[derive(Drop)]
pub struct Inputs {
    pub boot: Boot,
    pub events: Vec<Event>,
}

/// How many bytes a boot file may have.
const BOOT_LIMIT: u32 = 65_536;

/// How many bytes a log may have.
const LOG_LIMIT: u32 = 4_194_304;

/// How many bytes the image of a platter may have: 262,144 sectors.
const IMAGE_LIMIT: u32 = 67_108_864;

/// What a boot file that is refused ends the call with.
fn boot_status(refused: BootErr) -> Status
    ensures { result ≡ spec.boot_status refused }
{
    match refused {
        BootErr::Check(check) => Status::BadBoot(check),
        BootErr::NoMemory => Status::NoMemory,
    }
}

/// What a log that is refused ends the call with.
fn log_status(refused: LogErr) -> Status
    ensures { result ≡ spec.log_status refused }
{
    match refused {
        LogErr::Line(line, check) => Status::BadLog(line, check),
        LogErr::NoMemory => Status::NoMemory,
    }
}

/// The boot of a file.
fn read_boot<F: Shelf>(alloc: Global, name: FileName, shelf: &mut F) -> Result<Boot, Status>
    ensures same { F.files shelf.new ≡ F.files shelf.old }
    ensures later { Later (shelf_seen F.files F.faults F.misses F.longs shelf.old) (shelf_seen F.files F.faults F.misses F.longs shelf.new) }
    ensures ok { IfOk result (λ boot. spec.HasBoot name (F.files shelf.old) boot) }
    ensures good { IfOk result IsGood }
    ensures err { IfErr result (λ status. spec.CannotBoot name (shelf_seen F.files F.faults F.misses F.longs shelf.old) (shelf_seen F.files F.faults F.misses F.longs shelf.new) status) }
{
    let bytes = match fetch_input(alloc, name, BOOT_LIMIT, shelf) {
        Ok(bytes) => bytes,
        Err(status) => return Err(status),
    };
    match boot_of(alloc, &bytes) {
        Ok(boot) => Ok(boot),
        Err(refused) => Err(boot_status(refused)),
    }
}

/// The events of a log for a boot.
fn read_log<F: Shelf>(
    alloc: Global,
    name: FileName,
    boot: &Boot,
    shelf: &mut F,
) -> Result<Vec<Event>, Status>
    ensures same { F.files shelf.new ≡ F.files shelf.old }
    ensures later { Later (shelf_seen F.files F.faults F.misses F.longs shelf.old) (shelf_seen F.files F.faults F.misses F.longs shelf.new) }
    ensures ok { IfOk result (λ events. spec.HasLog name (F.files shelf.old) boot.now events.items) }
    ensures err { IfErr result (λ status. spec.CannotLog name boot.now (shelf_seen F.files F.faults F.misses F.longs shelf.old) (shelf_seen F.files F.faults F.misses F.longs shelf.new) status) }
{
    let bytes = match fetch_input(alloc, name, LOG_LIMIT, shelf) {
        Ok(bytes) => bytes,
        Err(status) => return Err(status),
    };
    match log_of(alloc, &bytes, boot) {
        Ok(events) => Ok(events),
        Err(refused) => Err(log_status(refused)),
    }
}

/// The boot and the log of two files.
fn read_files<F: Shelf>(alloc: Global, files: BootAndLog, shelf: &mut F) -> Result<Inputs, Status>
    ensures same { F.files shelf.new ≡ F.files shelf.old }
    ensures later { Later (shelf_seen F.files F.faults F.misses F.longs shelf.old) (shelf_seen F.files F.faults F.misses F.longs shelf.new) }
    ensures ok { IfOk result (λ inputs. spec.HaveTexts files (F.files shelf.old) inputs.boot inputs.events.items) }
    ensures good { IfOk result (λ inputs. IsGood inputs.boot) }
    ensures err { IfErr result (λ status. spec.Refuses (source.Files files) (shelf_seen F.files F.faults F.misses F.longs shelf.old) (shelf_seen F.files F.faults F.misses F.longs shelf.new) status) }
{
    let boot = match read_boot(alloc, files.boot, shelf) {
        Ok(boot) => boot,
        Err(status) => return Err(status),
    };
    match read_log(alloc, files.log, &boot, shelf) {
        Ok(events) => Ok(Inputs { boot, events }),
        Err(status) => Err(status),
    }
}

/// The boot and the log of a drill.
fn drill_inputs(alloc: Global, n: u16) -> Result<Inputs, Status>
    requires { n ≤ 5000 }
    ensures ok { IfOk result (λ inputs. spec.AreOfDrill n inputs.boot inputs.events.items) }
    ensures err { IfErr result (λ status. status ≡ Status.NoMemory) }
{
    match drill(alloc, n) {
        Ok((boot, events)) => Ok(Inputs { boot, events }),
        Err(_) => Err(Status::NoMemory),
    }
}

/// The boot and the log of a run.
pub fn read_inputs<F: Shelf>(alloc: Global, source: Source, shelf: &mut F) -> Result<Inputs, Status>
    requires { spec.HasNumber source }
    ensures same { F.files shelf.new ≡ F.files shelf.old }
    ensures later { Later (shelf_seen F.files F.faults F.misses F.longs shelf.old) (shelf_seen F.files F.faults F.misses F.longs shelf.new) }
    ensures ok { IfOk result (λ inputs. spec.Gives source (F.files shelf.old) inputs.boot inputs.events.items) }
    ensures good { IfOk result (λ inputs. IsGood inputs.boot) }
    ensures err { IfErr result (λ status. spec.Refuses source (shelf_seen F.files F.faults F.misses F.longs shelf.old) (shelf_seen F.files F.faults F.misses F.longs shelf.new) status) }
{
    match source {
        Source::Files(files) => read_files(alloc, files, shelf),
        Source::Drill(n) => drill_inputs(alloc, n),
    }
}

/// A name again.
fn name_again(name: &FileName) -> FileName
    ensures { result ≡ name.now }
{
    FileName::empty().with(name.bytes())
}

/// The index of an image is counted by a byte. It has no code.
fn index_is_counted_by_a_byte(image: &[u8])
    ensures { index_of image.now ≤ 255 }
{}

/// The platter of a file.
fn open_image<F: Shelf>(
    alloc: Global,
    address: Addr,
    name: &FileName,
    shelf: &mut F,
) -> Result<Platter, Status>
    ensures same { F.files shelf.new ≡ F.files shelf.old }
    ensures later { Later (shelf_seen F.files F.faults F.misses F.longs shelf.old) (shelf_seen F.files F.faults F.misses F.longs shelf.new) }
    ensures ok { IfOk result (λ image. spec.IsRead name.now (F.files shelf.old) image) }
    ensures err { IfErr result (λ status. spec.CannotOpen address name.now (shelf_seen F.files F.faults F.misses F.longs shelf.old) (shelf_seen F.files F.faults F.misses F.longs shelf.new) status) }
{
    let bytes = match fetch_input(alloc, name_again(name), IMAGE_LIMIT, shelf) {
        Ok(bytes) => bytes,
        Err(status) => return Err(status),
    };
    index_is_counted_by_a_byte(&bytes);
    match Platter::open(bytes) {
        Ok(platter) => Ok(platter),
        Err(failed) => Err(Status::BadImage(address, failed.0)),
    }
}

/// A blank platter of so many sectors, and of a version, 1 where none is said.
#[tactic(auto, using(crate::proofs::SoundImages::version_known, crate::proofs::SoundImages::blank_fits, crate::proofs::SoundImages::blank_known))]
fn blank_platter(alloc: Global, sectors: u32, version: Option<u8>) -> Result<Platter, Status>
    requires { is_blank version sectors ≡ true }
    ensures ok { IfOk result (λ image. image ≡ blank_image (by_version (blank_version version)) sectors) }
    ensures err { IfErr result (λ status. status ≡ Status.NoMemory) }
{
    let version = match version {
        Some(version) => version,
        None => 1,
    };
    match Platter::blank(alloc, sectors, version) {
        Ok(platter) => Ok(platter),
        Err(_) => Err(Status::NoMemory),
    }
}

/// A platter as the machine starts: the image of its file, or blank.
fn read_image<F: Shelf>(
    alloc: Global,
    platter: &BootPlatter,
    shelf: &mut F,
) -> Result<Platter, Status>
    requires good { is_platter platter.now ≡ true }
    ensures same { F.files shelf.new ≡ F.files shelf.old }
    ensures later { Later (shelf_seen F.files F.faults F.misses F.longs shelf.old) (shelf_seen F.files F.faults F.misses F.longs shelf.new) }
    ensures ok { IfOk result (λ image. spec.HasImage (F.files shelf.old) platter.now image) }
    ensures err { IfErr result (λ status. spec.CannotRead platter.now (shelf_seen F.files F.faults F.misses F.longs shelf.old) (shelf_seen F.files F.faults F.misses F.longs shelf.new) status) }
{
    if let Some(name) = &platter.image {
        return open_image(alloc, platter.address, name, shelf);
    }
    match platter.blank {
        Some(sectors) => blank_platter(alloc, sectors, platter.version),
        None => unreachable!(),
    }
}

/// The platters of a boot as the machine starts, in its order, which is that of their addresses.
pub fn read_images<F: Shelf>(
    alloc: Global,
    platters: &[BootPlatter],
    shelf: &mut F,
) -> Result<Vec<Platter>, Status>
    requires good { list_all is_platter platters.now ≡ true }
    ensures same { F.files shelf.new ≡ F.files shelf.old }
    ensures later { Later (shelf_seen F.files F.faults F.misses F.longs shelf.old) (shelf_seen F.files F.faults F.misses F.longs shelf.new) }
    ensures ok { IfOk result (λ images. spec.HaveImages (F.files shelf.old) platters.now images.items) }
    ensures err { IfErr result (λ status. spec.CannotReadAll platters.now (shelf_seen F.files F.faults F.misses F.longs shelf.old) (shelf_seen F.files F.faults F.misses F.longs shelf.new) status) }
{
    let mut images = Vec::new(alloc);
    for platter in platters {
        let image = match read_image(alloc, platter, shelf) {
            Ok(image) => image,
            Err(status) => return Err(status),
        };
        let Ok(()) = images.push(image) else {
            return Err(Status::NoMemory);
        };
    }
    Ok(images)
}
