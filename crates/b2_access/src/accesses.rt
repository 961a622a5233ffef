// What a step asks of the store, and what is answered.
ghost use Rattle.std.specs.Prelude.{◌≡◌};
ghost use Rattle.b2_access.specs.AnswerKinds as kind;
ghost use Rattle.b2_access.specs.Touching.{entered_in};

use b2_atom::Atoms;
use b2_base::{Addr, AddrList, By, ByteList, Code, Name8, Part, Slot, Term};
use b2_dec::{KindList, ValueList};
use b2_text::Spot;

/// What a step asks of the store, once at most. `homes` marks the partitions whose text the asking one gives back: the bit of
/// a partition is that of its number less 1.
#[derive(Drop)]
pub enum Access {
    /// The bytes are shown at the terminal, whose column is then this one.
    Show {
        term: Term,
        bytes: ByteList,
        column: u16,
    },
    /// The bytes are printed at a printer, whose column is then this one.
    PrintTo {
        addr: Addr,
        bytes: ByteList,
        column: u16,
    },
    /// Devices are taken, all or none.
    OpenDevices {
        addrs: AddrList,
    },
    /// Those of some devices that the asking partition holds are freed.
    CloseDevices {
        addrs: AddrList,
    },
    /// A line is read from the terminal.
    ReadLine {
        term: Term,
    },
    /// The bytes are typed into the line at the terminal.
    Insert {
        term: Term,
        bytes: ByteList,
    },
    /// One key is read from the terminal.
    Key {
        term: Term,
    },
    /// The terminal is handed on to the partition that comes next in its order.
    Release {
        term: Term,
    },
    /// A line of this number goes into the text of the asking partition, or is taken out where there are no atoms.
    PutLine {
        line: u16,
        atoms: Option<Atoms>,
        homes: u16,
    },
    /// The lines from a number to another are taken out of its text.
    Erase {
        from: u16,
        to: u16,
        homes: u16,
    },
    /// All lines are taken out of its text, its `@` variables go, and it gives up the name that it holds.
    ClearAll {
        name: Option<Name8>,
        homes: u16,
    },
    /// The asking partition enters the text of the one that holds a name, at the DEFFN' of a number there.
    Enter {
        name: Name8,
        mark: u8,
    },
    /// It leaves the text of a partition, which it has entered, once.
    Leave {
        home: Part,
    },
    /// It gives back texts, each as often as it has entered it.
    Drop {
        homes: u16,
    },
    /// The asking partition declares a name, and gives up another one that it holds, where one is given.
    Declare {
        name: Name8,
        old: Option<Name8>,
    },
    /// Who holds a name is looked for.
    FindPart {
        name: Name8,
    },
    /// The limits of a file on a platter, or of its catalogue where no name is given.
    Limits {
        addr: Addr,
        name: Option<Name8>,
    },
    /// The index of a platter is listed.
    ListDisk {
        addr: Addr,
    },
    /// A file on a platter is scratched.
    Scratch {
        addr: Addr,
        name: Name8,
    },
    /// A platter gets an empty index of so many sectors, and a catalogue up to this last sector.
    Format {
        addr: Addr,
        index: u32,
        end: u32,
    },
    /// A data file without records is made on a platter and opened: a new one of so many sectors, or a scratched file's sectors
    /// again where an old name is given.
    DataNew {
        addr: Addr,
        old: Option<Name8>,
        sectors: u32,
        name: Name8,
    },
    /// A data file on a platter is opened.
    DataOpen {
        addr: Addr,
        name: Name8,
    },
    /// A record of these values is saved at the place in an open file.
    DataSave {
        slot: Slot,
        values: ValueList,
    },
    /// The end mark is written at the place in an open file.
    DataEnd {
        slot: Slot,
    },
    /// Values of these kinds are loaded from the record at the place in an open file.
    DataLoad {
        slot: Slot,
        kinds: KindList,
    },
    /// The place in an open file is moved.
    Skip {
        slot: Slot,
        by: By,
    },
    /// The lines from a number to another of the text of the asking partition are saved as a program on a platter: as a new file,
    /// or in a scratched file's sectors where an old name is given.
    SaveProgram {
        addr: Addr,
        old: Option<Name8>,
        name: Name8,
        from: u16,
        to: u16,
    },
    /// The lines of a program on a platter go into the text of the asking partition, or become its lines; it gives up the name
    /// that it has declared.
    LoadProgram {
        addr: Addr,
        name: Name8,
        replace: bool,
        declared: Option<Name8>,
        homes: u16,
    },
    /// A record of these values is written to the sectors of a platter from one on, after its catalogue.
    RawSave {
        addr: Addr,
        at: u32,
        values: ValueList,
    },
    /// The end mark is written to a sector of a platter after its catalogue.
    RawEnd {
        addr: Addr,
        at: u32,
    },
    /// Values of these kinds are loaded from the record in the sectors of a platter from one on.
    RawLoad {
        addr: Addr,
        at: u32,
        kinds: KindList,
    },
    /// Bytes are written to a sector of a platter after its catalogue, and 00 to its end.
    BlockSave {
        addr: Addr,
        at: u32,
        bytes: ByteList,
    },
    /// The bytes of a sector of a platter are read.
    BlockLoad {
        addr: Addr,
        at: u32,
    },
    /// All live files of a platter are moved to another.
    MovePlatter {
        from: Addr,
        to: Addr,
    },
    /// A file of a platter is moved to another.
    MoveFile {
        from: Addr,
        name: Name8,
        to: Addr,
    },
}

/// What the store answers.
#[derive(Drop)]
pub enum Answer {
    /// It is done.
    Done,
    /// A line was read.
    Line(ByteList),
    /// A special function key was read, by its number.
    Special(u8),
    /// A key was read as a byte.
    Key(u8),
    /// No key that ends a line, or no key, is there.
    NoKeys,
    /// Four numbers: the first and the last sector, the sectors used and the kind of a file, or the sectors of the index, the first
    /// sector after the catalogue, the next free sector and 0.
    Four(i64, i64, i64, i64),
    /// Bytes that were laid out.
    Bytes(ByteList),
    /// The bytes of a sector.
    Block(ByteList),
    /// A data file is open.
    Opened(Slot),
    /// The place in an open file is now this one, or this is the sector after those that were written.
    Moved(u32),
    /// Values were loaded, and the place in the file is now this one, or this is the sector after their record.
    Values(ValueList, u32),
    /// The records of the file end at its place, or an end mark is in the sector.
    AtEnd,
    /// This partition holds the name.
    Holder(Part),
    /// The text of this partition is entered, in which the DEFFN' stands at this spot.
    Entered(Part, Spot),
    /// Another partition is in front of the terminal, or holds the device: nothing was done.
    Wait(Part),
    /// Another partition stands inside the text: nothing was done.
    Locked(Part),
    /// Nobody holds the name: nothing was done.
    NoPart,
    /// It was refused with a code: nothing was done.
    Refused(Code),
}

impl Answer {
    /// Whether nothing was done.
    pub fn stops(&self) -> bool
        ensures { result ≡ kind.stops self.now }
    {
        matches!(
            self,
            Answer::Wait(_) | Answer::Locked(_) | Answer::NoPart | Answer::Refused(_)
        )
    }

    /// The partition whose text was entered, None where none was.
    pub fn entered_in(&self) -> Option<Part>
        ensures { result ≡ entered_in self.now }
    {
        match self {
            Answer::Entered(home, _) => Some(*home),
            _ => None,
        }
    }
}
