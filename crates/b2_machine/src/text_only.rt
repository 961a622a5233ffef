// How the statement at a place is opened over texts alone. In a line of the program it is found by one look-up.
ghost use Rattle.std.specs.Prelude.{◌≡◌, false, List, Some, None, IfOk, if◌then◌else◌};
ghost use Rattle.b2_atom.specs.Tree.{uses_in};
ghost use Rattle.b2_access.specs.declared.devices.Device.{Device};
ghost use Rattle.b2_access.specs.Found.{IsFound, statement_found};
ghost use Rattle.b2_access.specs.JumpTargets.{lead_seen};
ghost use Rattle.b2_language.specs.Wanted as wanted;
ghost use Rattle.b2_machine.specs.AtOnce.{IsFoundAtOnce};
ghost use Rattle.b2_machine.specs.StraightLine.{is_undisturbed};
ghost use Rattle.b2_machine.specs.Statements as spec;

use crate::moving::{onward_on, settle_on};
use crate::readiness::become_ready_quietly;
use crate::statements::{Builder, Opening, Progress, begin_over, builder_of, plan_found};
use b2_access::{
    Access, At, DeviceTable, Found, Lead, Lent, Planned, Private, statement_on, statement_placed,
};
use b2_base::NoMemory;
use b2_flow::Place;
use b2_language::{Language, globals_wanted, move_to, names_globals};
use b2_text::Text;
use b2_vars::Vars;
use std::alloc::Global;

/// Whose `@` variables the statement at a place is lent, none where none is there.
fn wanted_at(me: &Private, home: &Text, place: &Place) -> At
    ensures { result ≡ wanted.wanted_at place.now me.now home.now.lines }
{
    match statement_placed(*place, &me.immediate, home) {
        Some(unit) => globals_wanted(&unit, place.home, me),
        None => At::None,
    }
}

/// What came of a statement that began; what it asks for goes to the caller.
fn opening_of(progress: Progress, access: &mut Option<Access>) -> Opening
    requires empty { access.old ≡ None }
    ensures how { result ≡ spec.opening_of progress }
    ensures asked { access.new ≡ spec.asked_in progress }
{
    match progress {
        Progress::Ended(end) => Opening::Ends(end),
        Progress::Asks(asked, builder, onward) => {
            *access = Some(asked);
            Opening::Asks(builder, onward)
        }
    }
}

/// The statement at a place in the immediate line is opened.
fn open_immediate<L: Language>(
    alloc: Global,
    me: &mut Private,
    own: &Text,
    home: &Text,
    spare: &mut Vars,
    devices: &DeviceTable,
    place: Place,
    access: &mut Option<Access>,
) -> Result<Opening, NoMemory>
    requires empty { access.old ≡ None }
    ensures opened { IfOk result (spec.Opens (L.ways devices.now) place me.old me.new (spec.texts_seen own.now home.now) access.new) }
    ensures part { me.new.part ≡ me.old.part }
{
    match wanted_at(me, home, &place) {
        At::None => {
            let mut lent = Lent {
                own,
                home,
                globals: spare,
                found: false,
                reached: false,
            };
            let progress = begin_over::<L>(alloc, me, &mut lent, devices, place)?;
            Ok(opening_of(progress, access))
        }
        At::Home => Ok(Opening::Wants(At::Home)),
        At::Named(name) => Ok(Opening::Wants(At::Named(name))),
    }
}

/// A statement that was found in a line of the program is opened, where the language plans it at once.
fn open_at_once<L: Language>(
    alloc: Global,
    me: &mut Private,
    spare: &mut Vars,
    found: &Found<'_>,
    access: &mut Option<Access>,
) -> Result<Opening, NoMemory>
    requires found { IsFoundAtOnce L.at_once found.now me.old }
    requires empty { access.old ≡ None }
    ensures opened { (devices : List Device) → IfOk result (spec.Opens (L.ways devices) found.now.place me.old me.new (spec.texts_seen found.now.own.now found.now.home.now) access.new) }
    ensures part { me.new.part ≡ me.old.part }
{
    let mut lent = Lent {
        own: found.own,
        home: found.home,
        globals: spare,
        found: false,
        reached: false,
    };
    let outcome = L::plan_at_once(alloc, me, &mut lent, found, access)?;
    if access.is_some() {
        let onward = onward_on(found.line, found.place.unit);
        return Ok(Opening::Asks(Builder::Language(found.unit.row), onward));
    }
    let end = settle_on(alloc, me, found.home, found.line, found.place, outcome)?;
    if end.counted && end.why.is_none() {
        return Ok(Opening::Leads);
    }
    Ok(Opening::Ends(end))
}

/// A statement that was found in a line of the program, and wants no `@` variables, is opened by who executes it.
fn open_planned<L: Language>(
    alloc: Global,
    me: &mut Private,
    spare: &mut Vars,
    devices: &DeviceTable,
    found: &Found<'_>,
    access: &mut Option<Access>,
) -> Result<Opening, NoMemory>
    requires found { IsFound found.now found.now.home.now.lines me.old }
    requires local { wanted.names_globals (statement_found found.now).tree ≡ false }
    requires empty { access.old ≡ None }
    ensures opened { IfOk result (spec.Opens (L.ways devices.now) found.now.place me.old me.new (spec.texts_seen found.now.own.now found.now.home.now) access.new) }
    ensures part { me.new.part ≡ me.old.part }
{
    let builder = builder_of::<L>(found.unit);
    let mut lent = Lent {
        own: found.own,
        home: found.home,
        globals: spare,
        found: false,
        reached: false,
    };
    let planned = plan_found::<L>(alloc, me, &mut lent, devices, found, builder)?;
    match planned {
        Planned::Done(outcome) => {
            let end = settle_on(alloc, me, found.home, found.line, found.place, outcome)?;
            Ok(Opening::Ends(end))
        }
        Planned::Ask(asked) => {
            *access = Some(asked);
            let onward = onward_on(found.line, found.place.unit);
            Ok(Opening::Asks(builder, onward))
        }
    }
}

/// A statement that was found in a line of the program, and wants no `@` variables, is done fast, where the language can. Where it
/// leads then, and there the partition stands.
#[inline(always)]
fn fast_found<L: Language>(me: &mut Private, found: &Found<'_>) -> Lead
    requires found { IsFound found.now found.now.home.now.lines me.old }
    requires local { wanted.names_globals (statement_found found.now).tree ≡ false }
    ensures gone_fast { (devices : List Device) → spec.WentFast (lead_seen result) (L.ways devices) found.now.place me.old me.new (spec.texts_seen found.now.own.now found.now.home.now) }
    ensures undisturbed { is_undisturbed me.new ≡ is_undisturbed me.old }
    ensures part { me.new.part ≡ me.old.part }
{
    let lead = L::do_fast(me, found);
    if lead.is_done() {
        move_to(me, lead.place(found.place.home));
    }
    lead
}

/// The statement at a place in the program of a home is done fast, where it is there, wants no `@` variables, and the language can.
/// Where it leads then, and there the partition stands.
#[inline(always)]
pub fn fast_at<L: Language>(me: &mut Private, own: &Text, home: &Text, place: Place) -> Lead
    requires stands { me.old.place ≡ Some place }
    ensures gone_fast { (devices : List Device) → spec.WentFast (lead_seen result) (L.ways devices) place me.old me.new (spec.texts_seen own.now home.now) }
    ensures undisturbed { is_undisturbed me.new ≡ is_undisturbed me.old }
    ensures part { me.new.part ≡ me.old.part }
{
    let Some(n) = place.line else {
        return Lead::none();
    };
    let Some(line) = home.line(n) else {
        return Lead::none();
    };
    let line = line.lend();
    let Some(unit) = statement_on(&line, usize::from(place.unit)) else {
        return Lead::none();
    };
    if names_globals(&unit) {
        return Lead::none();
    }
    let found = Found {
        own,
        home,
        line: &line,
        unit: &unit,
        place,
    };
    fast_found::<L>(me, &found)
}

/// A statement that was found in a line of the program is opened.
fn open_found<L: Language>(
    alloc: Global,
    me: &mut Private,
    spare: &mut Vars,
    devices: &DeviceTable,
    found: &Found<'_>,
    access: &mut Option<Access>,
) -> Result<Opening, NoMemory>
    requires found { IsFound found.now found.now.home.now.lines me.old }
    requires uses { found.now.unit.now.uses ≡ uses_in (statement_found found.now).tree }
    requires empty { access.old ≡ None }
    ensures opened { IfOk result (spec.Opens (L.ways devices.now) found.now.place me.old me.new (spec.texts_seen found.now.own.now found.now.home.now) access.new) }
    ensures part { me.new.part ≡ me.old.part }
{
    if names_globals(found.unit) {
        let whose = globals_wanted(found.unit, found.place.home, me);
        return Ok(Opening::Wants(whose));
    }
    if L::is_at_once(found.unit.row) {
        return open_at_once::<L>(alloc, me, spare, found, access);
    }
    open_planned::<L>(alloc, me, spare, devices, found, access)
}

/// A statement that was found in a line of the program is opened; whether the turn goes on after it. Where it doesn't, how it was opened
/// goes to the caller.
fn lead_or_open<L: Language>(
    alloc: Global,
    me: &mut Private,
    spare: &mut Vars,
    devices: &DeviceTable,
    found: &Found<'_>,
    access: &mut Option<Access>,
    opening: &mut Opening,
) -> Result<bool, NoMemory>
    requires found { IsFound found.now found.now.home.now.lines me.old }
    requires uses { found.now.unit.now.uses ≡ uses_in (statement_found found.now).tree }
    requires empty { access.old ≡ None }
    ensures opened { IfOk result (λ led. spec.Opens (L.ways devices.now) found.now.place me.old me.new (spec.texts_seen found.now.own.now found.now.home.now) access.new (if led then Opening.Leads else opening.new)) }
    ensures part { me.new.part ≡ me.old.part }
{
    let opened = open_found::<L>(alloc, me, spare, devices, found, access)?;
    match opened {
        Opening::Leads => Ok(true),
        opened => {
            *opening = opened;
            Ok(false)
        }
    }
}

/// The statement at a place in the program of a home is opened over texts alone; whether the turn goes on after it. Where it doesn't,
/// how it was opened goes to the caller, and so does what it asks for.
pub fn open_in_program<L: Language>(
    alloc: Global,
    me: &mut Private,
    own: &Text,
    home: &Text,
    spare: &mut Vars,
    devices: &DeviceTable,
    place: &Place,
    n: u16,
    access: &mut Option<Access>,
    opening: &mut Opening,
) -> Result<bool, NoMemory>
    requires stands { me.old.place ≡ Some place.now }
    requires line { place.now.line ≡ Some n }
    requires empty { access.old ≡ None }
    ensures opened { IfOk result (λ led. spec.Opens (L.ways devices.now) place.now me.old me.new (spec.texts_seen own.now home.now) access.new (if led then Opening.Leads else opening.new)) }
    ensures part { me.new.part ≡ me.old.part }
{
    let Some(line) = home.line(n) else {
        let end = become_ready_quietly(alloc, me)?;
        *opening = Opening::Ends(end);
        return Ok(false);
    };
    let line = line.lend();
    let Some(unit) = statement_on(&line, usize::from(place.unit)) else {
        let end = become_ready_quietly(alloc, me)?;
        *opening = Opening::Ends(end);
        return Ok(false);
    };
    let found = Found {
        own,
        home,
        line: &line,
        unit: &unit,
        place: *place,
    };
    lead_or_open::<L>(alloc, me, spare, devices, &found, access, opening)
}

/// The statement at a place of a partition is opened over texts alone: it begins where it wants no `@` variables, and what it asks for
/// goes to the caller.
pub fn open_over<L: Language>(
    alloc: Global,
    me: &mut Private,
    own: &Text,
    home: &Text,
    spare: &mut Vars,
    devices: &DeviceTable,
    place: &Place,
    access: &mut Option<Access>,
) -> Result<Opening, NoMemory>
    requires stands { me.old.place ≡ Some place.now }
    requires empty { access.old ≡ None }
    ensures opened { IfOk result (spec.Opens (L.ways devices.now) place.now me.old me.new (spec.texts_seen own.now home.now) access.new) }
    ensures part { me.new.part ≡ me.old.part }
{
    let Some(n) = place.line else {
        return open_immediate::<L>(alloc, me, own, home, spare, devices, *place, access);
    };
    let mut opening = Opening::Leads;
    let led = open_in_program::<L>(
        alloc,
        me,
        own,
        home,
        spare,
        devices,
        place,
        n,
        access,
        &mut opening,
    )?;
    if led {
        return Ok(Opening::Leads);
    }
    Ok(opening)
}
