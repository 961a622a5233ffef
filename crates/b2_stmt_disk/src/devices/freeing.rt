// `$CLOSE`: devices are freed.
ghost use Rattle.std.specs.Prelude.{◌≡◌, true};
ghost use Rattle.b2_access.specs.Answering.{can_answer};
ghost use Rattle.b2_access.specs.Views.{devices_freed};
ghost use Rattle.b2_atom.specs.declared.rows.TheConstants as row;
ghost use Rattle.b2_rows.specs.Rows.{is_phrase, tree_at};
ghost use Rattle.b2_stmt_disk.specs.devices.Freeing as spec;

use crate::devices::held::{are_listed, those_listed};
use crate::devices::lists::devices_at;
use b2_access::{Access, Answer, DeviceTable, Outcome, Planned, Private};
use b2_base::codes::P48_DEVICE;
use b2_base::lexical::rest_after;
use b2_base::{AddrList, Code, Part};
use b2_drive::asks_or_fails;
use b2_rows::is_at;

/// The devices that are named, None where none is.
#[tactic(auto, using(crate::proofs::of_devices::CloseRows::devices_here, crate::proofs::of_devices::CloseRows::named_is, crate::proofs::of_devices::CloseRows::none_named))]
fn devices_to_free(unit: &[u8]) -> Option<AddrList>
    requires phrase { is_phrase row.CLOSE unit.now ≡ true }
    ensures { result ≡ spec.devices_to_free (tree_at row.CLOSE unit.now) }
{
    let text = rest_after(unit, 1);
    if is_at(b'/', text) {
        Some(devices_at(text))
    } else {
        None
    }
}

/// What is asked for, or P48.
fn ask_to_free(devices: &DeviceTable, who: Part, addrs: AddrList) -> Result<Access, Code>
    ensures { result ≡ spec.asks_to_free devices.now who addrs }
{
    if are_listed(devices, who, addrs.addresses()) {
        Ok(Access::CloseDevices { addrs })
    } else {
        Err(Code::known(P48_DEVICE))
    }
}

/// What is planned to free what is held; nothing is asked for where nothing is.
fn free_held(held: AddrList) -> Planned
    ensures { result ≡ spec.frees_held held }
{
    match held.addresses() {
        [] => Planned::Done(Outcome::Next),
        _ => Planned::Ask(Access::CloseDevices { addrs: held }),
    }
}

/// What the statement plans.
pub(crate) fn plan_to_free(devices: &DeviceTable, me: &Private, unit: &[u8]) -> Planned
    requires phrase { is_phrase row.CLOSE unit.now ≡ true }
    ensures { result ≡ spec.plans_to_free devices.now me.now (spec.devices_to_free (tree_at row.CLOSE unit.now)) }
{
    match devices_to_free(unit) {
        Some(addrs) => asks_or_fails(ask_to_free(devices, me.part, addrs)),
        None => free_held(those_listed(devices, me.part, &me.held)),
    }
}

/// Where the statement goes on, by the access that it asked for and its answer, which is one that the access can have.
pub(crate) fn after_freeing(access: &Access, answer: &Answer) -> Outcome
    requires possible { can_answer access.now answer.now ≡ true }
    ensures { result ≡ spec.goes_freed (devices_freed access.now answer.now) }
{
    let Access::CloseDevices { .. } = access else {
        return Outcome::Repeat;
    };
    match answer {
        Answer::Done => Outcome::Next,
        _ => Outcome::Repeat,
    }
}
