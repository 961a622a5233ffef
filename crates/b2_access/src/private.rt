// What a partition has for itself.
ghost use Rattle.std.specs.Prelude.{◌≡◌, IfOk, true};
ghost use Rattle.b2_access.specs.Partition as spec;
ghost use Rattle.b2_access.specs.Partition.{at_start, without_frames};

use b2_atom::Atoms;
use b2_base::{Addr, AddrList, ByteList, Name8, NoMemory, Part, Slot, Term};
use b2_dec::{Mode, ValueList};
use b2_flow::{Place, Stack};
use b2_text::Spot;
use b2_vars::Vars;
use std::alloc::Global;

/// What is shown where a partition becomes ready.
const READY: &[u8] = b"READY\n:";

/// What a partition has for itself. It holds no text but the immediate line and a numbered line that was read. It is ready
/// exactly where it has no place. Contracts see each part as its value.
#[derive(Drop)]
pub struct Private {
    /// Which partition it is.
    pub part: Part,
    /// Its terminal.
    pub term: Term,
    /// How results become numbers.
    pub mode: Mode,
    /// The unit that the next step executes, none where it is ready.
    pub place: Option<Place>,
    /// The unit at which CONTINUE goes on.
    pub kept: Option<Place>,
    /// The immediate line that runs.
    pub immediate: Option<Atoms>,
    /// Its variables.
    pub vars: Vars,
    /// Its loops and calls.
    pub stack: Stack,
    /// Its open data files, by the numbers of their slots.
    pub slots: [Option<Slot>; 16],
    /// The devices that it has taken, in the order of taking.
    pub held: AddrList,
    /// The device that PRINT and PRINTUSING show at: 005 for the terminal, or a printer.
    pub print: Addr,
    /// The platter that is selected, none where none is.
    pub disk: Option<Addr>,
    /// The platter that is selected at the start, and after CLEAR.
    pub boot_disk: Option<Addr>,
    /// The name of the partition that is selected: in its own text `@` variables are those of who holds it. None where none is.
    pub global: Option<Name8>,
    /// The name that it has declared.
    pub declared: Option<Name8>,
    /// The column at its terminal; it stays at 65,535 once it is there.
    pub term_column: u16,
    /// The column at the printer that is selected; it stays at 65,535 once it is there.
    pub print_column: u16,
    /// The last code, 0 for none.
    pub last: u8,
    /// Whether the records ended where DATALOAD DC was to load one.
    pub at_end: bool,
    /// The unit from which READ looks for DATA, and how many of its literals were read; none for the first of the text.
    pub next_data: Option<(Spot, u8)>,
    /// The arguments of a call that its DEFFN' has not taken yet.
    pub args: Option<ValueList>,
    /// Whether a halt was asked for.
    pub halt: bool,
    /// Whether a reset was asked for.
    pub reset: bool,
    /// What waits to be shown, and the device that it is for: 005 for the terminal.
    pub pending: Option<(Addr, ByteList)>,
    /// A numbered line that was read: its number, and its atoms where it has any.
    pub numbered: Option<(u16, Option<Atoms>)>,
    /// What a special function key types.
    pub literal: Option<ByteList>,
    /// Whether the prompt of an INPUT or LINPUT was shown.
    pub prompted: bool,
    /// How many turns it passes yet, before it takes one again.
    pub pass: u8,
}

/// Where a partition starts: at the first unit of a line, or ready where it has none.
fn starting_place(p: Part, line: &Option<Atoms>) -> Option<Place>
    ensures { result ≡ spec.starting_place p line.now }
{
    match line {
        Some(_) => Some(Place {
            home: p,
            line: None,
            unit: 0,
        }),
        None => None,
    }
}

/// What waits to be shown at the start, where a partition is ready.
fn greeting(alloc: Global, line: &Option<Atoms>) -> Result<Option<(Addr, ByteList)>, NoMemory>
    ensures { IfOk result (λ shown. shown ≡ spec.greeting line.now) }
{
    match line {
        Some(_) => Ok(None),
        None => Ok(Some((
            Addr::default(),
            ByteList::new(Vec::from_slice(alloc, READY)?),
        ))),
    }
}

impl Private {
    /// A partition at its terminal, with an area of `area` bytes for its variables, and the platter that it starts with. It
    /// starts at the first unit of a line. Without one it is ready, and `READY`, a newline and `:` wait to be shown.
    pub fn new(
        alloc: Global,
        p: Part,
        t: Term,
        area: usize,
        start: Option<Atoms>,
        disk: Option<Addr>,
    ) -> Result<Private, NoMemory>
        ensures at_start { IfOk result (λ me. me ≡ at_start p t area start disk) }
    {
        Ok(Private {
            part: p,
            term: t,
            mode: Mode::Round,
            place: starting_place(p, &start),
            kept: None,
            pending: greeting(alloc, &start)?,
            immediate: start,
            vars: Vars::new(alloc, area)?,
            stack: Stack::new(alloc)?,
            slots: [None; 16],
            held: AddrList::new(),
            print: Addr::default(),
            disk,
            boot_disk: disk,
            global: None,
            declared: None,
            term_column: 0,
            print_column: 0,
            last: 0,
            at_end: false,
            next_data: None,
            args: None,
            halt: false,
            reset: false,
            numbered: None,
            literal: None,
            prompted: false,
            pass: 0,
        })
    }

    /// Asks for a halt.
    pub fn flag_halt(&mut self)
        ensures halt { self.new ≡ record self.old { halt = true } }
    {
        self.halt = true;
    }

    /// Asks for a reset.
    pub fn flag_reset(&mut self)
        ensures reset { self.new ≡ record self.old { reset = true } }
    {
        self.reset = true;
    }
}

/// No frames, no arguments and no place to continue at are left.
pub fn drop_frames(me: &mut Private)
    ensures dropped { me.new ≡ without_frames me.old }
    ensures part { me.new.part ≡ me.old.part }
{
    me.stack.clear();
    me.kept = None;
    me.args = None;
}
