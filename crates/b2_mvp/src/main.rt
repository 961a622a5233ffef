//! The machine as a program: `b2_mvp run BOOT LOG OUT`, `b2_mvp alone BOOT LOG OUT PARTS` for some partitions alone, and
//! `b2_mvp drill N OUT` for a boot and a log that are made from a number; and `b2_mvp screen FILE` and `b2_mvp check IMAGE`, which
//! show a transcript's screen and whether a disk image is good.
//!
//! It reads a boot file, a log of keystrokes, halts and turns, and the images of platters, runs the machine that the boot and its
//! images start under that log, writes the transcript of each terminal, what each printer printed and the image of each platter to a
//! file, and a summary line to standard output. Stands on `b2_base` for the outside, on `b2_boot` for what boot file and log say, on `b2_platter` for what
//! an image has to be, on `b2_sched` for the machine, on `b2_store` for what is kept of it, on `b2_audit` for who is clean, on `b2_status`
//! for how a call ends, and on `b2_look` for the commands of one file.
//!
//! The main promise is the contract of `top::mvp`: whatever the words, the boot, the log and the outside, each status comes
//! by its cause, and where the status is `Ok`, what was written is what the machine defined in `b2_sched` writes from this
//! boot and its images and under this log, and each group of partitions that is clean there shows what it shows alone. The definitions: `Inputs`
//! what the inputs say and how their fetches end, `Parts` lists of partitions, `Outputs` what is written, `Groups` what that shows
//! of groups, `Top` what the words say and when each status comes, `Complete` what is to be answered where nothing fails, and `Laws` what
//! holds of every run that the promise speaks of.
#![tactic(auto)]

mod inputs;
mod laws;
mod outputs;
mod parts;
#[cfg(test)]
mod tests;
mod top;

use b2_base::{FileShelf, HostFiles, OutSink};
pub use b2_status::Status;
use std::env::{self, Env};
use std::io::{self, ErrorKind};
use std::process::ExitCode;
use std::str;

/// The words after the program's name.
fn words(rt: &(impl Env + AllocGlobal)) -> io::Result<Vec<Vec<u8>>> {
    let mut words = Vec::new(rt.alloc());
    for word in env::args(rt)?.skip(1) {
        words.push(word.into_bytes())?;
    }
    Ok(words)
}

/// Runs the program. Words that are no text are no command.
fn run_process(rt: &HostRuntime) -> Status {
    match words(rt) {
        Ok(words) => {
            let mut shelf = FileShelf::new(HostFiles::new(rt));
            let mut sink = OutSink::new(io::writer(rt));
            top::mvp(rt.alloc(), &words, &mut shelf, &mut sink)
        }
        Err(error) => {
            if error.kind() == ErrorKind::InvalidData {
                Status::Usage
            } else {
                Status::NoMemory
            }
        }
    }
}

fn main(rt: HostRuntime) -> ExitCode {
    let status = run_process(&rt);
    let line = status.message();
    if !line.bytes().is_empty() {
        if let Ok(text) = str::from_utf8(line.bytes()) {
            let _ = rt.eprintln(text);
        }
    }
    ExitCode::from(status.number())
}
