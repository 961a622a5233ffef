// The statuses of the program.
ghost use Rattle.std.specs.Prelude.{◌≡◌, ◌≤◌, ◌+◌, ◌++◌, length};
ghost use Rattle.std.specs.Fmt.{decimal};
ghost use Rattle.b2_status.specs.Status.{status_number, status_line};

use b2_base::{Addr, FileName, LineText};
use itoa::Buffer;

/// How a call of the program ended.
#[derive(Drop)]
pub enum Status {
    /// All inputs were read and all outputs written.
    Ok,
    /// The words are no command.
    Usage,
    /// An input isn't there.
    Missing(FileName),
    /// Reading an input failed.
    ReadFault(FileName),
    /// An input has more bytes than its limit.
    TooLong(FileName, u32),
    /// The first check that the boot file fails.
    BadBoot(u8),
    /// The first line of the log that fails a check, from 1, and its first check.
    BadLog(u32, u8),
    /// The address of the first platter whose image isn't good, and the first check that the image fails.
    BadImage(Addr, u8),
    /// Writing an output failed; the name is empty for what is put.
    WriteFault(FileName),
    /// Memory failed before anything was written.
    NoMemory,
    /// Memory failed in writing an output; the name is empty for what is put.
    KeepNoMemory(FileName),
}

impl Status {
    /// The number that the process ends with.
    pub fn number(&self) -> u8
        ensures { result ≡ status_number self.now }
    {
        match self {
            Status::Ok => 0,
            Status::Usage => 1,
            Status::Missing(_) => 2,
            Status::ReadFault(_) => 3,
            Status::TooLong(_, _) => 9,
            Status::BadBoot(_) => 4,
            Status::BadLog(_, _) => 5,
            Status::BadImage(_, _) => 6,
            Status::WriteFault(_) => 7,
            Status::NoMemory => 8,
            Status::KeepNoMemory(_) => 11,
        }
    }

    /// The line for standard error, empty for `Ok`. It takes no memory.
    pub fn message(&self) -> LineText
        ensures { result ≡ status_line self.now }
    {
        match self {
            Status::Ok => LineText::empty(),
            Status::Usage => text(b"usage"),
            Status::Missing(name) => named(b"missing ", name),
            Status::ReadFault(name) => named(b"read fault ", name),
            Status::TooLong(name, limit) => {
                let mut line = named(b"too long ", name);
                line.add(b" ");
                add_number(&mut line, *limit);
                line
            }
            Status::BadBoot(check) => {
                let mut line = text(b"bad boot ");
                add_number(&mut line, u32::from(*check));
                line
            }
            Status::BadLog(number, check) => {
                let mut line = text(b"bad log ");
                add_number(&mut line, *number);
                line.add(b" ");
                add_number(&mut line, u32::from(*check));
                line
            }
            Status::BadImage(address, check) => {
                let mut line = text(b"bad image ");
                line.add(&address.bytes());
                line.add(b" ");
                add_number(&mut line, u32::from(*check));
                line
            }
            Status::WriteFault(name) => named(b"write fault ", name),
            Status::NoMemory => text(b"no memory"),
            Status::KeepNoMemory(name) => named(b"no memory for ", name),
        }
    }
}

fn text(words: &[u8]) -> LineText
    requires { length words.now ≤ 40 }
    ensures text { result ≡ words.now }
    ensures len { length result ≤ 40 }
{
    let mut line = LineText::empty();
    line.add(words);
    line
}

fn named(words: &[u8], name: &FileName) -> LineText
    requires { length words.now ≤ 20 }
    ensures text { result ≡ words.now ++ name.now }
    ensures len { length result ≤ length words.now + 200 }
{
    let mut line = LineText::empty();
    line.add(words);
    line.add(name.bytes());
    line
}

fn add_number(line: &mut LineText, n: u32)
    requires { length line.old + 10 ≤ 240 }
    ensures added { line.new ≡ line.old ++ decimal n }
    ensures len { length line.new ≤ length line.old + 10 }
{
    let mut buffer = Buffer::new();
    line.add(buffer.format(n).as_bytes());
}
