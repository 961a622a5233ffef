// `$OPEN`: devices are taken.
ghost use Rattle.std.specs.Prelude.{◌≡◌, true};
ghost use Rattle.b2_access.specs.Answering.{can_answer};
ghost use Rattle.b2_access.specs.Views.{taking_came};
ghost use Rattle.b2_atom.specs.declared.rows.TheConstants as row;
ghost use Rattle.b2_rows.specs.Rows.{is_phrase, tree_at};
ghost use Rattle.b2_stmt_disk.specs.devices.Taking as spec;

use crate::devices::held::are_listed;
use crate::devices::lists::devices_at;
use b2_access::{Access, Answer, DeviceTable, Outcome, to_line};
use b2_base::codes::P48_DEVICE;
use b2_base::lexical::rest_after;
use b2_base::{AddrList, Code, Part};
use b2_flow::Place;
use b2_rows::{is_line_at, line_at};
use b2_text::Text;

/// The line that is named before the devices, where one is.
#[tactic(auto, using(crate::proofs::of_devices::OpenRows::line_here, crate::proofs::of_devices::OpenRows::line_is, crate::proofs::of_devices::OpenRows::no_line))]
pub(crate) fn line_if_busy(unit: &[u8]) -> Option<u16>
    requires phrase { is_phrase row.OPEN unit.now ≡ true }
    ensures { result ≡ spec.line_if_busy (tree_at row.OPEN unit.now) }
{
    let text = rest_after(unit, 1);
    if is_line_at(text) {
        Some(line_at(text))
    } else {
        None
    }
}

/// The devices that are to be taken.
#[tactic(auto, using(crate::proofs::of_devices::OpenRows::devices_after, crate::proofs::of_devices::OpenRows::after_is, crate::proofs::of_devices::OpenRows::devices_alone, crate::proofs::of_devices::OpenRows::alone_is))]
fn devices_to_take(unit: &[u8]) -> AddrList
    requires phrase { is_phrase row.OPEN unit.now ≡ true }
    ensures { result ≡ spec.devices_to_take (tree_at row.OPEN unit.now) }
{
    let text = rest_after(unit, 1);
    if is_line_at(text) {
        devices_at(rest_after(rest_after(text, 3), 1))
    } else {
        devices_at(text)
    }
}

/// What is asked for, or P48.
pub(crate) fn ask_to_take(devices: &DeviceTable, who: Part, unit: &[u8]) -> Result<Access, Code>
    requires phrase { is_phrase row.OPEN unit.now ≡ true }
    ensures { result ≡ spec.asks_to_take devices.now who (tree_at row.OPEN unit.now) }
{
    let addrs = devices_to_take(unit);
    if are_listed(devices, who, addrs.addresses()) {
        Ok(Access::OpenDevices { addrs })
    } else {
        Err(Code::known(P48_DEVICE))
    }
}

/// Where a step goes on that met a device which another holds.
fn where_busy(home: &Text, place: Place, line: Option<u16>) -> Outcome
    ensures { result ≡ spec.goes_where_busy line home.now.lines place }
{
    match line {
        Some(n) => to_line(home, place, n),
        None => Outcome::Repeat,
    }
}

/// Where the statement goes on, by the access that it asked for and its answer, which is one that the access can have, and by the line
/// that it names.
pub(crate) fn after_taking(
    home: &Text,
    place: &Place,
    access: &Access,
    answer: &Answer,
    line: Option<u16>,
) -> Outcome
    requires possible { can_answer access.now answer.now ≡ true }
    ensures { result ≡ spec.goes_taken (taking_came access.now answer.now) line home.now.lines place.now }
{
    let Access::OpenDevices { .. } = access else {
        return Outcome::Repeat;
    };
    match answer {
        Answer::Done => Outcome::Next,
        Answer::Wait(_) => where_busy(home, *place, line),
        _ => unreachable!(),
    }
}
