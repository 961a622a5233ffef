// Statements of a partition one after another over one loan of texts.
ghost use Rattle.std.specs.Prelude.{◌≡◌, ◌≤◌, List, None, IfOk};
ghost use Rattle.b2_access.specs.declared.devices.Device.{Device};
ghost use Rattle.b2_machine.specs.StraightLine as spec;
ghost use Rattle.b2_machine.specs.StraightLine.{AllLead, led};
ghost use Rattle.b2_machine.specs.Statements.{texts_seen};

use crate::statements::Opening;
use crate::text_only::{fast_at, open_in_program};
use b2_access::{Access, DeviceTable, Private};
use b2_base::{NoMemory, Part};
use b2_flow::Place;
use b2_language::Language;
use b2_text::Text;
use b2_vars::Vars;
use std::alloc::Global;

/// A statement that was opened.
#[derive(Clone, Copy)]
pub struct Opened {
    /// Its place.
    pub place: Place,
    /// What came of it.
    pub opening: Opening,
}

/// Statements that were executed one after another.
#[derive(Clone, Copy)]
pub struct Ran {
    /// How many have ended, after which the turn goes on.
    pub steps: u16,
    /// The statement after them, where it was opened.
    pub last: Option<Opened>,
}

/// Whether nothing comes before the statement at the place of a partition.
fn is_undisturbed(me: &Private) -> bool
    ensures { result ≡ spec.is_undisturbed me.now }
{
    !me.reset
        && !me.halt
        && !me.pending.is_some()
        && !me.literal.is_some()
        && !me.numbered.is_some()
}

/// A place, where it is in the program of a home.
fn placed_in(home: Part, place: Option<Place>) -> Option<Place>
    ensures { result ≡ spec.placed_in home place }
{
    match place {
        Some(place) => {
            if place.home == home && place.line.is_some() {
                Some(place)
            } else {
                None
            }
        }
        None => None,
    }
}

/// The place of a partition in the program of a home, whose statement comes next.
pub fn place_in(home: Part, me: &Private) -> Option<Place>
    ensures { result ≡ spec.place_in home me.now }
{
    if is_undisturbed(me) {
        placed_in(home, me.place)
    } else {
        None
    }
}

/// Statements in the program of a home that are done fast, one after another, up to the first that isn't, and at most so many. How
/// many they were.
#[inline(never)]
fn fast_on<L: Language>(
    me: &mut Private,
    own: &Text,
    text: &Text,
    home: Part,
    left: u16,
) -> Result<u16, NoMemory>
    ensures lead { IfOk result (λ n. (devices : List Device) → AllLead (L.ways devices) home (texts_seen own.now text.now) n me.old) }
    ensures led { IfOk result (λ n. (devices : List Device) → led (L.ways devices) home (texts_seen own.now text.now) n me.old ≡ me.new) }
    ensures few { IfOk result (λ n. n ≤ left) }
    ensures part { me.new.part ≡ me.old.part }
{
    let mut steps = 0;
    let Some(start) = place_in(home, me) else {
        return Ok(steps);
    };
    let mut place = start;
    for _ in 0..left {
        let lead = fast_at::<L>(me, own, text, place);
        if !lead.is_done() {
            if lead.memory_failed() {
                return Err(NoMemory);
            }
            return Ok(steps);
        }
        place = lead.place(home);
        steps += 1;
    }
    Ok(steps)
}

/// Statements in the program of a home, one after another: at most so many, up to the first after which the turn doesn't go on. Those
/// that are done fast are not opened. Where the last one asks for an access, the access goes to the caller.
#[inline(always)]
pub fn run_on<L: Language>(
    alloc: Global,
    me: &mut Private,
    own: &Text,
    text: &Text,
    spare: &mut Vars,
    devices: &DeviceTable,
    home: Part,
    left: u16,
    access: &mut Option<Access>,
) -> Result<Ran, NoMemory>
    requires empty { access.old ≡ None }
    ensures ran { IfOk result (spec.RunsOn (L.ways devices.now) home (texts_seen own.now text.now) left me.old me.new access.new) }
    ensures part { me.new.part ≡ me.old.part }
{
    let mut steps = 0;
    let mut opening = Opening::Leads;
    loop {
        let gone_fast = fast_on::<L>(me, own, text, home, left - steps)?;
        steps += gone_fast;
        if steps == left {
            return Ok(Ran { steps, last: None });
        }
        let Some(place) = place_in(home, me) else {
            return Ok(Ran { steps, last: None });
        };
        let Some(n) = place.line else {
            return Ok(Ran { steps, last: None });
        };
        let led = open_in_program::<L>(
            alloc,
            me,
            own,
            text,
            spare,
            devices,
            &place,
            n,
            access,
            &mut opening,
        )?;
        if !led {
            let last = Some(Opened { place, opening });
            return Ok(Ran { steps, last });
        }
        steps += 1;
    }
}
