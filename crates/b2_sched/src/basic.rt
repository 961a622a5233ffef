// The language of the machine.
ghost use Rattle.std.specs.Prelude.{◌≡◌};

use crate::choice::{Family, family_of};
use b2_access::{Access, Answer, DeviceTable, Found, Lead, Lent, Outcome, Planned, Private};
use b2_atom::rows;
use b2_base::NoMemory;
use b2_language::Language;
use std::alloc::Global;

/// The language of the machine, as it is built.
pub struct Basic;

impl Language for Basic {
    ghost use Rattle.b2_sched.specs.Choice.{basic, is_at_once};
    ghost use Rattle.b2_sched.specs.Lawful.{at_once_is_built, basic_asks_for_listed, basic_goes_by_listed, basic_is_lawful, basic_keeps_open_files};

    ghost ways = { basic };

    ghost at_once = { is_at_once };

    fn is_built(row: u16) -> bool {
        row == rows::PRINT
            || b2_stmt_var::is_built(row)
            || b2_stmt::is_built(row)
            || b2_stmt_io::is_built(row)
            || b2_stmt_mat::is_built(row)
            || b2_stmt_pack::is_built(row)
            || b2_stmt_file::is_built(row)
            || b2_stmt_disk::programs::is_built(row)
            || b2_stmt_disk::devices::is_built(row)
            || b2_stmt_disk::is_built(row)
    }

    fn plan(
        alloc: Global,
        row: u16,
        me: &mut Private,
        lent: &mut Lent<'_>,
        devices: &DeviceTable,
    ) -> Result<Planned, NoMemory> {
        match family_of(row) {
            Family::Variables => b2_stmt_var::plan(alloc, me, lent, devices),
            Family::Control => b2_stmt::plan(alloc, me, lent, devices),
            Family::Printing | Family::Terminal => b2_stmt_io::plan(alloc, me, lent, devices),
            Family::Arrays => b2_stmt_mat::plan(alloc, me, lent, devices),
            Family::Packed => b2_stmt_pack::plan(alloc, me, lent, devices),
            Family::Files => b2_stmt_file::plan(alloc, me, lent, devices),
            Family::Programs => b2_stmt_disk::programs::plan(alloc, me, lent, devices),
            Family::Devices => b2_stmt_disk::devices::plan(alloc, me, lent, devices),
            Family::Disks => b2_stmt_disk::plan(alloc, me, lent, devices),
        }
    }

    fn finish(
        alloc: Global,
        row: u16,
        me: &mut Private,
        lent: &mut Lent<'_>,
        access: &Access,
        answer: &Answer,
    ) -> Result<Outcome, NoMemory> {
        match family_of(row) {
            Family::Variables => b2_stmt_var::finish(alloc, me, lent, access, answer),
            Family::Control => b2_stmt::finish(alloc, me, lent, access, answer),
            Family::Printing => Ok(b2_stmt_io::finish_printing(me, access, answer)),
            Family::Terminal => b2_stmt_io::finish(alloc, me, lent, access, answer),
            Family::Arrays => b2_stmt_mat::finish(alloc, me, lent, access, answer),
            Family::Packed => b2_stmt_pack::finish(alloc, me, lent, access, answer),
            Family::Files => b2_stmt_file::finish(alloc, me, lent, access, answer),
            Family::Programs => b2_stmt_disk::programs::finish(alloc, me, lent, access, answer),
            Family::Devices => b2_stmt_disk::devices::finish(alloc, me, lent, access, answer),
            Family::Disks => b2_stmt_disk::finish(alloc, me, lent, access, answer),
        }
    }

    fn is_at_once(row: u16) -> bool {
        row != rows::PRINT
            && (b2_stmt_var::is_built(row)
                || (b2_stmt::is_built(row) && !b2_stmt::asks_access(row)))
    }

    fn plan_at_once(
        alloc: Global,
        me: &mut Private,
        lent: &mut Lent<'_>,
        found: &Found<'_>,
        access: &mut Option<Access>,
    ) -> Result<Outcome, NoMemory> {
        if b2_stmt_var::is_built(found.unit.row) {
            b2_stmt_var::execute(alloc, me, lent, found)
        } else {
            b2_stmt::execute(alloc, me, lent, found, access)
        }
    }

    #[inline(always)]
    fn do_fast(me: &mut Private, found: &Found<'_>) -> Lead {
        let row = found.unit.row;
        if row == rows::ASSIGNMENT {
            return b2_stmt_var::do_fast(me, found);
        }
        if b2_stmt_var::is_built(row) {
            return Lead::none();
        }
        b2_stmt::do_fast(me, found)
    }

    fn plan_found(
        alloc: Global,
        me: &mut Private,
        lent: &mut Lent<'_>,
        devices: &DeviceTable,
        found: &Found<'_>,
    ) -> Result<Planned, NoMemory> {
        match family_of(found.unit.row) {
            Family::Variables => b2_stmt_var::plan_found(alloc, me, lent, found),
            Family::Control => b2_stmt::plan_found(alloc, me, lent, found),
            Family::Printing => b2_stmt_io::plan_found(alloc, me, lent, devices, found.unit),
            Family::Terminal => b2_stmt_io::plan_found(alloc, me, lent, devices, found.unit),
            Family::Arrays => b2_stmt_mat::plan(alloc, me, lent, devices),
            Family::Packed => b2_stmt_pack::plan(alloc, me, lent, devices),
            Family::Files => b2_stmt_file::plan(alloc, me, lent, devices),
            Family::Programs => b2_stmt_disk::programs::plan(alloc, me, lent, devices),
            Family::Devices => b2_stmt_disk::devices::plan(alloc, me, lent, devices),
            Family::Disks => b2_stmt_disk::plan(alloc, me, lent, devices),
        }
    }

    ghost at_once_is_built = { at_once_is_built };

    ghost lawful = { basic_is_lawful };

    ghost asks_listed = { basic_asks_for_listed };

    ghost goes_by_listed = { basic_goes_by_listed };

    ghost keeps_open = { basic_keeps_open_files };
}
