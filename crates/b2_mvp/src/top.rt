// The top call.
ghost use Rattle.std.specs.Prelude.{◌≡◌, ◌≤◌, ◌∷◌, [], IfSome, IfOk, None, length};
ghost use Rattle.b2_base.specs.Seen.{shelf_seen, sink_seen};
ghost use Rattle.b2_mvp.specs.Complete.{IsComplete};
ghost use Rattle.b2_mvp.specs.Outputs.{outputs, summary};
ghost use Rattle.b2_sched.specs.Start.{CanStart};
ghost use Rattle.b2_mvp.specs.Top.{command_of, run_by, drill_by, show_by, boot_for, texts, world_after, CanRun, IsReady, Delivers, JobEnds, Comes};

use crate::inputs::{BootAndLog, Source, read_images, read_inputs};
use crate::outputs::{keep_outputs, summarize};
use crate::parts::Parts;
use b2_base::{FileName, NoMemory, Shelf, Sink};
use b2_boot::{Boot, Event, drill_number};
use b2_look::{View, show};
use b2_platter::Platter;
use b2_sched::World;
use b2_status::{Status, put_last};
use b2_store::{Ends, PlainStores, Stores};
use std::alloc::Global;

/// What a run is given: where its boot and its log come from, the front of the outputs' names, and the partitions that are to be
/// there alone, where they are named.
#[derive(Drop)]
pub struct Job {
    pub source: Source,
    pub out: FileName,
    pub group: Option<Parts>,
}

/// What the words of a command say.
#[derive(Drop)]
pub enum Command {
    /// Run a log from a boot: `run`, `alone` for some partitions alone, and `drill`.
    Run(Job),
    /// Show a file: `screen`, and `check`.
    Show(View, FileName),
}

/// The world at the end of a run, and the line for it.
#[derive(Drop)]
struct Ready<S: Ends> {
    world: World<S>,
    line: Vec<u8>,
}

/// The run of three names and a group, where the names are those of files.
fn run_by(boot: &[u8], log: &[u8], out: &[u8], group: Option<Parts>) -> Option<Command>
    ensures value { result ≡ run_by boot.now log.now out.now group }
    ensures can_run { IfSome result CanRun }
{
    let boot = FileName::of(boot)?;
    let log = FileName::of(log)?;
    let out = FileName::of(out)?;
    Some(Command::Run(Job {
        source: Source::Files(BootAndLog { boot, log }),
        out,
        group,
    }))
}

/// The run of the drill of a number, where it is one, and the name that of a file.
fn drill_by(number: &[u8], out: &[u8]) -> Option<Command>
    ensures value { result ≡ drill_by number.now out.now }
    ensures can_run { IfSome result CanRun }
{
    let n = drill_number(number)?;
    let out = FileName::of(out)?;
    Some(Command::Run(Job {
        source: Source::Drill(n),
        out,
        group: None,
    }))
}

/// The view of a file, where the name is one.
fn show_by(view: View, name: &[u8]) -> Option<Command>
    ensures value { result ≡ show_by view name.now }
    ensures can_run { IfSome result CanRun }
{
    let name = FileName::of(name)?;
    Some(Command::Show(view, name))
}

/// The command of two words.
fn two_word_command(word: &[u8], name: &[u8]) -> Option<Command>
    ensures value { result ≡ command_of (word.now ∷ name.now ∷ []) }
    ensures can_run { IfSome result CanRun }
{
    if word == b"screen".as_slice() {
        return show_by(View::Screen, name);
    }
    if word == b"check".as_slice() {
        return show_by(View::Check, name);
    }
    None
}

/// The command of three words.
fn of_three(word: &[u8], number: &[u8], out: &[u8]) -> Option<Command>
    ensures value { result ≡ command_of (word.now ∷ number.now ∷ out.now ∷ []) }
    ensures can_run { IfSome result CanRun }
{
    if word == b"drill".as_slice() {
        return drill_by(number, out);
    }
    None
}

/// The command of four words.
fn of_four(word: &[u8], boot: &[u8], log: &[u8], out: &[u8]) -> Option<Command>
    ensures value { result ≡ command_of (word.now ∷ boot.now ∷ log.now ∷ out.now ∷ []) }
    ensures can_run { IfSome result CanRun }
{
    if word == b"run".as_slice() {
        return run_by(boot, log, out, None);
    }
    None
}

/// The command of five words.
fn of_five(word: &[u8], boot: &[u8], log: &[u8], out: &[u8], parts: &[u8]) -> Option<Command>
    ensures value { result ≡ command_of (word.now ∷ boot.now ∷ log.now ∷ out.now ∷ parts.now ∷ []) }
    ensures can_run { IfSome result CanRun }
{
    if word == b"alone".as_slice() {
        let group = Parts::of(parts)?;
        return run_by(boot, log, out, Some(group));
    }
    None
}

/// The command that the words are.
fn read_command(words: &[Vec<u8>]) -> Option<Command>
    ensures value { result ≡ command_of (texts words.now) }
    ensures can_run { IfSome result CanRun }
{
    match words {
        [word, name] => two_word_command(word, name),
        [word, number, out] => of_three(word, number, out),
        [word, boot, log, out] => of_four(word, boot, log, out),
        [word, boot, log, out, parts] => of_five(word, boot, log, out, parts),
        _ => None,
    }
}

/// Runs the events from the world of the boot and the images of its platters.
fn run_events<S: Ends + Drop>(
    alloc: Global,
    boot: &Boot,
    platters: Vec<Platter>,
    events: &[Event],
) -> Result<Ready<S>, NoMemory>
    requires start { CanStart boot.now }
    requires as_many { length boot.now.platters ≡ length platters.items }
    ensures world { IfOk result (λ ready. ready.world ≡ world_after boot.now platters.items events.now) }
    ensures line { IfOk result (λ ready. ready.line.items ≡ summary boot.now (world_after boot.now platters.items events.now)) }
{
    let mut world = World::boot(alloc, boot, platters)?;
    world.run(events)?;
    let line = summarize(alloc, boot, &world)?;
    Ok(Ready { world, line })
}

/// Runs the events from the world of the boot, or of the boot with a group alone.
#[tactic(auto, using(b2_sched::proofs::BootDevices::starts_alone))]
fn run_group<S: Ends + Drop>(
    alloc: Global,
    group: &Option<Parts>,
    boot: &Boot,
    platters: Vec<Platter>,
    events: &[Event],
) -> Result<Ready<S>, NoMemory>
    requires start { CanStart boot.now }
    requires as_many { length boot.now.platters ≡ length platters.items }
    ensures world { IfOk result (λ ready. ready.world ≡ world_after (boot_for group.now boot.now) platters.items events.now) }
    ensures line { IfOk result (λ ready. ready.line.items ≡ summary (boot_for group.now boot.now) (world_after (boot_for group.now boot.now) platters.items events.now)) }
{
    match group {
        None => run_events(alloc, boot, platters, events),
        Some(parts) => {
            let members = boot.alone(alloc, parts.as_slice())?;
            run_events(alloc, &members, platters, events)
        }
    }
}

/// Keeps the transcripts, the printouts and the images, and puts the line.
fn deliver<S: Ends + Drop, F: Shelf, O: Sink>(
    out: &FileName,
    boot: &Boot,
    ready: &Ready<S>,
    shelf: &mut F,
    sink: &mut O,
) -> Status
    requires { length out.now ≤ 190 }
    ensures { Delivers (outputs out.now boot.now ready.now.world.store) ready.now.line.items
        (shelf_seen F.files F.faults F.misses F.longs shelf.old) (shelf_seen F.files F.faults F.misses F.longs shelf.new)
        (sink_seen O.written O.faults sink.old) (sink_seen O.written O.faults sink.new) result }
{
    match keep_outputs(out, boot, ready.world.stores(), shelf) {
        Ok(()) => {}
        Err(status) => return status,
    }
    put_last(&ready.line, sink)
}

/// Does a job, over a store of any make.
fn run_job<S: Ends + Drop, F: Shelf, O: Sink>(
    alloc: Global,
    job: Job,
    shelf: &mut F,
    sink: &mut O,
) -> Status
    requires { IsReady job }
    ensures { JobEnds job
        (shelf_seen F.files F.faults F.misses F.longs shelf.old) (shelf_seen F.files F.faults F.misses F.longs shelf.new)
        (sink_seen O.written O.faults sink.old) (sink_seen O.written O.faults sink.new) result }
{
    let inputs = match read_inputs(alloc, job.source, shelf) {
        Ok(inputs) => inputs,
        Err(status) => return status,
    };
    let platters = match read_images(alloc, &inputs.boot.platters, shelf) {
        Ok(platters) => platters,
        Err(status) => return status,
    };
    let Ok(ready) = run_group::<S>(alloc, &job.group, &inputs.boot, platters, &inputs.events) else {
        return Status::NoMemory;
    };
    deliver(&job.out, &inputs.boot, &ready, shelf, sink)
}

/// Does a job: of a group alone over the store in two lists, and else over the one in rows.
fn run_over<F: Shelf, O: Sink>(alloc: Global, job: Job, shelf: &mut F, sink: &mut O) -> Status
    requires { IsReady job }
    ensures { JobEnds job
        (shelf_seen F.files F.faults F.misses F.longs shelf.old) (shelf_seen F.files F.faults F.misses F.longs shelf.new)
        (sink_seen O.written O.faults sink.old) (sink_seen O.written O.faults sink.new) result }
{
    if job.group.is_some() {
        run_job::<PlainStores, F, O>(alloc, job, shelf, sink)
    } else {
        run_job::<Stores, F, O>(alloc, job, shelf, sink)
    }
}

/// Does what the words say.
fn run_words<F: Shelf, O: Sink>(
    alloc: Global,
    words: &[Vec<u8>],
    shelf: &mut F,
    sink: &mut O,
) -> Status
    ensures { Comes (texts words.now)
        (shelf_seen F.files F.faults F.misses F.longs shelf.old) (shelf_seen F.files F.faults F.misses F.longs shelf.new)
        (sink_seen O.written O.faults sink.old) (sink_seen O.written O.faults sink.new) result }
{
    match read_command(words) {
        None => Status::Usage,
        Some(Command::Run(job)) => run_over(alloc, job, shelf, sink),
        Some(Command::Show(view, name)) => show(alloc, view, name, shelf, sink),
    }
}

/// Does all that the program does with the words after its name, over a shelf of files and a sink for the summary:
/// `run BOOT LOG OUT` fetches the boot file, the log and the images of the platters by address, runs the log from the boot, keeps
/// the transcript of each terminal as `OUT.t` and its number of two digits, what each printer printed as `OUT.p` and its address,
/// and the image of each platter as `OUT.` and its address, and puts the summary line, which also lists the partitions that are apart. `alone BOOT LOG OUT PARTS` does the same with the
/// listed partitions alone; the log is checked against the whole boot all the same. `drill N OUT` does as `run` with the boot and
/// the log of a number from 1 to 5,000, and fetches nothing. `screen FILE` fetches a transcript and puts the
/// screen that it leaves, as 24 lines, and `check IMAGE` a disk image and puts whether it is good, with its listing, or the first
/// check that it fails; neither changes a file.
///
/// The first refusal on the way is the answer. Until the log has run to its end, no file changes; nothing is put before
/// the last image is kept. Where the words are no command, the answer is `Usage`, whatever the memory.
pub fn mvp<F: Shelf, O: Sink>(
    alloc: Global,
    words: &[Vec<u8>],
    shelf: &mut F,
    out: &mut O,
) -> Status
    // Each status has its cause, and what it leaves. This is the main promise, at `Ok`.
    ensures comes { Comes (texts words.now)
        (shelf_seen F.files F.faults F.misses F.longs shelf.old) (shelf_seen F.files F.faults F.misses F.longs shelf.new)
        (sink_seen O.written O.faults out.old) (sink_seen O.written O.faults out.new) result }

    // Where the files are told and no fault rises, the status is the one that the files ask for, unless memory fails.
    ensures complete { IsComplete (texts words.now)
        (shelf_seen F.files F.faults F.misses F.longs shelf.old) (shelf_seen F.files F.faults F.misses F.longs shelf.new)
        (sink_seen O.written O.faults out.old) (sink_seen O.written O.faults out.new) result }
    ensures usage { command_of (texts words.now) ≡ None → result ≡ Status.Usage }
{
    run_words(alloc, words, shelf, out)
}
