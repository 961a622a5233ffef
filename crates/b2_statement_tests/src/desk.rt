// Partitions, their variables, and statements that are planned one by one.
ghost use Rattle.std.specs.Prelude.{◌≡◌, true};
ghost use Rattle.b2_base.specs.Names.{is_address};

use b2_access::{Device, DeviceTable, Lent, Outcome, Planned, Private};
use b2_atom::Atoms;
use b2_atom::words::Origin;
use b2_base::{Addr, Code, NoMemory, Part, cut};
use b2_cases::Sheet;
use b2_expr::Env;
use b2_flow::Place;
use b2_text::Text;
use b2_vars::Vars;
use std::alloc::Global;
use std::mem::swap;

/// What stands between the statements of a cell.
const MARK: u8 = b'~';

/// The line of a source, as one of a program.
pub fn line_of(sheet: &mut Sheet<'_>, source: &[u8]) -> Option<Atoms> {
    match Atoms::read(sheet.alloc(), Origin::Program, source) {
        Ok(Some(line)) => Some(line),
        _ => {
            sheet.misread();
            None
        }
    }
}

/// The address of three digits.
fn address(digits: &[u8]) -> Addr
    requires { is_address digits.now ≡ true }
    ensures { result ≡ digits.now }
{
    match Addr::of(digits) {
        Some(address) => address,
        None => unreachable!(),
    }
}

/// The printers 215, for all, and 216, for partition 2 alone, and the platter D11.
fn three_devices(alloc: Global) -> Result<DeviceTable, NoMemory> {
    let mut rows = Vec::new(alloc);
    rows.push(Device {
        addr: address(b"215"),
        printer: true,
        only: None,
    })?;
    rows.push(Device {
        addr: address(b"216"),
        printer: true,
        only: Some(Part::known(2)),
    })?;
    rows.push(Device {
        addr: address(b"D11"),
        printer: false,
        only: None,
    })?;
    Ok(DeviceTable::new(rows))
}

/// A partition over a text without lines, and `@` variables that it may be lent.
#[derive(Drop)]
pub struct Desk {
    pub me: Private,
    home: Text,
    globals: Vars,
    /// Whether there are `@` variables.
    found: bool,
}

impl Desk {
    /// A partition without variables. There are no `@` variables.
    pub fn of(me: Private, home: Text, globals: Vars) -> Desk {
        Desk {
            me,
            home,
            globals,
            found: false,
        }
    }

    /// What expressions look at.
    pub fn env(&self) -> Env<'_> {
        Env {
            own: &self.me.vars,
            globals: if self.found {
                Some(&self.globals)
            } else {
                None
            },
            home: &self.home,
            mode: self.me.mode,
            err: self.me.last,
            part: self.me.part,
            term: self.me.term,
        }
    }

    /// Makes `@` variables of the variables of the partition, which has none then.
    pub fn lend(&mut self) {
        swap(&mut self.me.vars, &mut self.globals);
        self.found = true;
    }

    /// What the statement at the place of the partition plans by the crate of control, by that of statements on variables, or by that
    /// of statements at the terminal. There are no `@` variables.
    fn planned(
        &mut self,
        alloc: Global,
        devices: &DeviceTable,
        by: &str,
    ) -> Result<Planned, NoMemory> {
        let mut lent = Lent {
            own: &self.home,
            home: &self.home,
            globals: &mut self.globals,
            found: false,
            reached: false,
        };
        match by {
            "control" => b2_stmt::plan(alloc, &mut self.me, &mut lent, devices),
            "variables" => b2_stmt_var::plan(alloc, &mut self.me, &mut lent, devices),
            _ => b2_stmt_io::plan(alloc, &mut self.me, &mut lent, devices),
        }
    }

    /// Puts the partition at a unit of a line.
    fn put_at(&mut self, line: Atoms, unit: u8) {
        self.me.immediate = Some(line);
        self.me.place = Some(Place {
            home: Part::known(1),
            line: None,
            unit,
        });
    }
}

/// The code with which a statement failed, if there is one. One that asks for something is misread.
fn code_of(sheet: &mut Sheet<'_>, planned: &Result<Planned, NoMemory>) -> Option<Code> {
    match planned {
        Ok(Planned::Done(Outcome::Failed(code))) => return Some(*code),
        Ok(Planned::Done(_)) => {}
        Ok(Planned::Ask(_)) => sheet.misread(),
        Err(NoMemory) => sheet.no_memory(),
    }
    None
}

/// The code with which a statement of a line fails, if there is one.
pub fn code_at(
    sheet: &mut Sheet<'_>,
    desk: &mut Desk,
    source: &[u8],
    unit: u8,
    by: &str,
) -> Option<Code> {
    desk.put_at(line_of(sheet, source)?, unit);
    let Ok(devices) = three_devices(sheet.alloc()) else {
        sheet.no_memory();
        return None;
    };
    let planned = desk.planned(sheet.alloc(), &devices, by);
    code_of(sheet, &planned)
}

/// Executes the statements of a cell, which set variables.
pub fn execute(sheet: &mut Sheet<'_>, desk: &mut Desk, cell: &[u8]) {
    let mut left = cell;
    for _ in 0..cell.len() {
        if left.is_empty() {
            break;
        }
        let (statement, rest) = cut(left, MARK);
        if code_at(sheet, desk, statement, 0, "variables").is_some() {
            sheet.misread();
        }
        left = rest.unwrap_or(&[]);
    }
}
