// Which crate executes the statements of a row.
ghost use Rattle.std.specs.Prelude.{◌≡◌};
ghost use Rattle.b2_sched.specs.Choice as spec;

use b2_atom::rows;

/// A family of statements: those of one crate that finish in one way.
#[derive(Clone, Copy)]
pub enum Family {
    /// Statements on variables.
    Variables,
    /// Statements of control.
    Control,
    /// Statements that print, at the terminal or at a printer.
    Printing,
    /// Other statements at the terminal.
    Terminal,
    /// Statements on arrays.
    Arrays,
    /// Statements on packed fields.
    Packed,
    /// Statements on data files.
    Files,
    /// Statements on programs on disks.
    Programs,
    /// Statements that take devices and free them, and SELECT PRINT.
    Devices,
    /// Statements on disks.
    Disks,
}

/// The family of a row that is built. PRINT, the commonest of those that aren't done fast, is told first.
pub fn family_of(row: u16) -> Family
    ensures { result ≡ spec.family_of row }
{
    if row == rows::PRINT {
        Family::Printing
    } else if b2_stmt_var::is_built(row) {
        Family::Variables
    } else if b2_stmt::is_built(row) {
        Family::Control
    } else if b2_stmt_io::is_printing(row) {
        Family::Printing
    } else if b2_stmt_io::is_built(row) {
        Family::Terminal
    } else if b2_stmt_mat::is_built(row) {
        Family::Arrays
    } else if b2_stmt_pack::is_built(row) {
        Family::Packed
    } else if b2_stmt_file::is_built(row) {
        Family::Files
    } else if b2_stmt_disk::programs::is_built(row) {
        Family::Programs
    } else if b2_stmt_disk::devices::is_built(row) {
        Family::Devices
    } else {
        Family::Disks
    }
}
