// Where PRINT and PRINTUSING show: at the terminal of the partition, or at the printer that it has selected.
ghost use Rattle.std.specs.Prelude.{◌≡◌};
ghost use Rattle.b2_stmt_io.specs.Outlets as spec;

use b2_access::{Access, DeviceTable, Private};
use b2_base::codes::P48_DEVICE;
use b2_base::{Addr, ByteList, Code, Term};
use b2_print::column_after;

/// How wide the lines of a terminal are.
const TERMINAL_WIDTH: u16 = 80;

/// How wide the lines of a printer are.
const PRINTER_WIDTH: u16 = 132;

/// Where PRINT and PRINTUSING show, with the column there.
#[derive(Clone, Copy)]
pub enum Outlet {
    /// The terminal of the partition.
    Terminal { term: Term, column: u16 },
    /// The printer at an address.
    Printer { addr: Addr, column: u16 },
}

impl Outlet {
    /// Whether it is a terminal, which has a screen.
    #[inline(always)]
    pub fn is_terminal(&self) -> bool
        ensures { result ≡ spec.is_terminal self.now }
    {
        match self {
            Outlet::Terminal { .. } => true,
            Outlet::Printer { .. } => false,
        }
    }

    /// How wide its lines are.
    #[inline(always)]
    pub fn width(&self) -> u16
        ensures { result ≡ spec.width_of self.now }
    {
        match self {
            Outlet::Terminal { .. } => TERMINAL_WIDTH,
            Outlet::Printer { .. } => PRINTER_WIDTH,
        }
    }

    /// The column there.
    #[inline(always)]
    pub fn column(&self) -> u16
        ensures { result ≡ spec.column_of self.now }
    {
        match self {
            Outlet::Terminal { column, .. } => *column,
            Outlet::Printer { column, .. } => *column,
        }
    }

    /// What shows bytes there that lead to a column.
    #[inline(always)]
    pub fn show_to(&self, bytes: ByteList, after: u16) -> Access
        ensures { result ≡ spec.shows_to self.now bytes after }
    {
        match self {
            Outlet::Terminal { term, .. } => Access::Show {
                term: *term,
                bytes,
                column: after,
            },
            Outlet::Printer { addr, .. } => Access::PrintTo {
                addr: *addr,
                bytes,
                column: after,
            },
        }
    }

    /// What shows bytes as they are.
    pub fn show_from(&self, bytes: ByteList) -> Access
        ensures { result ≡ spec.shows_from self.now bytes }
    {
        let after = column_after(self.column(), bytes.bytes());
        self.show_to(bytes, after)
    }
}

/// Where a partition shows: at its terminal where 005 is selected, and else at the printer that is; P48 where the table doesn't
/// list that for the partition.
pub fn outlet_of(devices: &DeviceTable, me: &Private) -> Result<Outlet, Code>
    ensures { result ≡ spec.outlet_of devices.now me.now }
{
    if me.print == Addr::default() {
        return Ok(Outlet::Terminal {
            term: me.term,
            column: me.term_column,
        });
    }
    if devices.printer(me.part, me.print) {
        Ok(Outlet::Printer {
            addr: me.print,
            column: me.print_column,
        })
    } else {
        Err(Code::known(P48_DEVICE))
    }
}
