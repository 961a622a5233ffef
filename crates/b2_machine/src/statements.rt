// What a statement plans and how it finishes, over what is lent.
ghost use Rattle.std.specs.Prelude.{◌≡◌, true, List, IfOk, IfSome, OnOk, Option, Some, None, is_some, option_map, if◌then◌else◌};
ghost use Rattle.b2_atom.specs.Tree.{uses_in};
ghost use Rattle.b2_rows.specs.Laws.{IsRow};
ghost use Rattle.b2_rows.specs.Rows.{tree_at};
ghost use Rattle.b2_access.specs.declared.devices.Device.{Device};
ghost use Rattle.b2_access.specs.Answering.{can_answer};
ghost use Rattle.b2_access.specs.Found.{IsFound, seen_found, statement_found};
ghost use Rattle.b2_access.specs.Lending.{globals_lent, seen_lent, SeenLent};
ghost use Rattle.b2_access.specs.Placed.{line_named as line_of_place, statement_placed as named_at};
ghost use Rattle.b2_machine.specs.AtOnce.{IsFoundAtOnce};
ghost use Rattle.b2_language.specs.Wanted as wanted;
ghost use Rattle.b2_machine.specs.Listed.{lists};
ghost use Rattle.b2_machine.specs.Statements as spec;

use crate::ends::{Stepped, counts, repeats};
use crate::listed::{named_range, range_listed};
use crate::messages::show_text;
use crate::moving::{Onward, onward_from, onward_on, settle, settle_on, settle_onward};
use crate::readiness::become_ready_quietly;
use b2_access::{
    Access, Answer, At, DeviceTable, Found, Lent, Outcome, Planned, Private, after_show, failed,
    statement_on, statement_placed,
};
use b2_atom::{LentAtoms, rows};
use b2_base::NoMemory;
use b2_base::codes::{S26_PROGRAM_ONLY, S27_LEFT_OUT};
use b2_flow::Place;
use b2_language::{Language, globals_wanted, names_globals};
use b2_rows::RowUnit;
use b2_text::Text;
use b2_vars::Vars;
use std::alloc::Global;

/// Who executes a statement.
#[derive(Clone, Copy)]
pub enum Builder {
    /// This crate: LIST from a line to a line.
    Listing(u16, u16),
    /// The language, by the row of the statement.
    Language(u16),
    /// Nobody yet.
    Nobody,
}

/// What became of a statement that began.
#[derive(Drop)]
pub enum Progress {
    /// The step has ended.
    Ended(Stepped),
    /// It asks for an access; who executes it finishes by the answer, and its line then goes on there.
    Asks(Access, Builder, Onward),
}

/// What came of a statement where texts alone were lent to it, beside the access that it asks for.
#[derive(Clone, Copy)]
pub enum Opening {
    /// It has ended, and the turn goes on.
    Leads,
    /// It has ended.
    Ends(Stepped),
    /// It asks for the access; who executes it finishes by the answer, and its line then goes on there.
    Asks(Builder, Onward),
    /// It wants some `@` variables: nothing was done.
    Wants(At),
}

/// Who executes the statement of a unit.
pub fn builder_of<L: Language>(unit: &RowUnit<'_>) -> Builder
    requires read { IsRow unit.now.row unit.now.bytes.now (tree_at unit.now.row unit.now.bytes.now) }
    ensures { (devices : List Device) → result ≡ spec.builder_of (L.ways devices) (record { row = unit.now.row; tree = tree_at unit.now.row unit.now.bytes.now }) }
{
    if unit.row == rows::LIST {
        let (from, to) = named_range(unit.bytes);
        Builder::Listing(from, to)
    } else if L::is_built(unit.row) {
        Builder::Language(unit.row)
    } else {
        Builder::Nobody
    }
}

/// Who executes the statement at a place, where one is there.
fn builder_at<L: Language>(me: &Private, home: &Text, place: Place) -> Option<Builder>
    ensures { (devices : List Device) → result ≡ option_map (spec.builder_of (L.ways devices)) (named_at place me.now.immediate home.now.lines) }
{
    match statement_placed(place, &me.immediate, home) {
        Some(unit) => Some(builder_of::<L>(&unit)),
        None => None,
    }
}

/// What LIST plans.
fn plan_list(
    alloc: Global,
    me: &Private,
    own: &Text,
    place: Place,
    from: u16,
    to: u16,
) -> Result<Planned, NoMemory>
    ensures { (s : SeenLent) → s.own ≡ own.now → IfOk result (λ p. record { me = me.now; globals = s.globals; planned = p } ≡ lists (is_some place.line) (from, to) me.now s) }
{
    if place.line.is_some() {
        return Ok(Planned::Done(failed(S26_PROGRAM_ONLY)));
    }
    let listed = range_listed(alloc, own, from, to)?;
    Ok(Planned::Ask(show_text(me, listed)))
}

/// What the statement at a place plans.
fn plan_by<L: Language>(
    alloc: Global,
    me: &mut Private,
    lent: &mut Lent<'_>,
    devices: &DeviceTable,
    place: Place,
    builder: Builder,
) -> Result<Planned, NoMemory>
    ensures planned { IfOk result (λ p. record { me = me.new; globals = globals_lent lent.new; planned = p } ≡ spec.plan_by (L.ways devices.now) builder place me.old (seen_lent lent.old)) }
    ensures same_reference { lent.new.globals.ghost_name ≡ lent.old.globals.ghost_name }
    ensures part { me.new.part ≡ me.old.part }
{
    match builder {
        Builder::Listing(from, to) => plan_list(alloc, me, lent.own, place, from, to),
        Builder::Language(row) => L::plan(alloc, row, me, lent, devices),
        Builder::Nobody => Ok(Planned::Done(failed(S27_LEFT_OUT))),
    }
}

/// How it finishes, by the answer to its access.
fn finish_by<L: Language>(
    alloc: Global,
    me: &mut Private,
    lent: &mut Lent<'_>,
    builder: Builder,
    access: &Access,
    answer: &Answer,
) -> Result<Outcome, NoMemory>
    requires possible { can_answer access.now answer.now ≡ true }
    ensures finished { (devices : List Device) → IfOk result (λ o. record { me = me.new; globals = globals_lent lent.new; outcome = o } ≡ spec.finish_by (L.ways devices) builder access.now answer.now me.old (seen_lent lent.old)) }
    ensures same_reference { lent.new.globals.ghost_name ≡ lent.old.globals.ghost_name }
    ensures part { me.new.part ≡ me.old.part }
{
    match builder {
        Builder::Listing(_, _) => Ok(after_show(me, access, answer)),
        Builder::Language(row) => L::finish(alloc, row, me, lent, access, answer),
        Builder::Nobody => Ok(Outcome::Repeat),
    }
}

/// What becomes of a plan.
fn begun(
    alloc: Global,
    me: &mut Private,
    home: &Text,
    place: Place,
    planned: Planned,
    builder: Builder,
) -> Result<Progress, NoMemory>
    ensures begun { IfOk result (λ c. record { me = me.new; progress = c } ≡ spec.begun_by planned builder place me.old home.now.lines) }
    ensures part { me.new.part ≡ me.old.part }
{
    match planned {
        Planned::Done(outcome) => {
            let end = settle(alloc, me, home, place, outcome, counts())?;
            Ok(Progress::Ended(end))
        }
        Planned::Ask(access) => {
            let onward = onward_from(me, home, place);
            Ok(Progress::Asks(access, builder, onward))
        }
    }
}

/// What a statement plans that was found in a line of the program.
pub fn plan_found<L: Language>(
    alloc: Global,
    me: &mut Private,
    lent: &mut Lent<'_>,
    devices: &DeviceTable,
    found: &Found<'_>,
    builder: Builder,
) -> Result<Planned, NoMemory>
    requires found { IsFound found.now lent.old.home.now.lines me.old }
    requires chosen { builder ≡ spec.builder_of (L.ways devices.now) (statement_found found.now) }
    ensures planned { IfOk result (λ p. record { me = me.new; globals = globals_lent lent.new; planned = p } ≡ spec.plan_by (L.ways devices.now) builder found.now.place me.old (seen_lent lent.old)) }
    ensures same_reference { lent.new.globals.ghost_name ≡ lent.old.globals.ghost_name }
    ensures part { me.new.part ≡ me.old.part }
{
    match builder {
        Builder::Listing(from, to) => plan_list(alloc, me, lent.own, found.place, from, to),
        Builder::Language(_) => L::plan_found(alloc, me, lent, devices, found),
        Builder::Nobody => Ok(Planned::Done(failed(S27_LEFT_OUT))),
    }
}

/// The statement at a place begins wherever that is, over texts and `@` variables.
fn begin_anywhere<L: Language>(
    alloc: Global,
    me: &mut Private,
    lent: &mut Lent<'_>,
    devices: &DeviceTable,
    place: Place,
) -> Result<Progress, NoMemory>
    ensures begun { IfOk result (λ c. record { me = me.new; progress = c } ≡ spec.begins (L.ways devices.now) place me.old (seen_lent lent.old)) }
    ensures left { OnOk result (globals_lent lent.new ≡ spec.leaves (L.ways devices.now) place me.old (seen_lent lent.old)) }
    ensures same_reference { lent.new.globals.ghost_name ≡ lent.old.globals.ghost_name }
    ensures part { me.new.part ≡ me.old.part }
{
    let home = lent.home;
    let Some(builder) = builder_at::<L>(me, home, place) else {
        return Ok(Progress::Ended(become_ready_quietly(alloc, me)?));
    };
    let planned = plan_by::<L>(alloc, me, lent, devices, place, builder)?;
    begun(alloc, me, home, place, planned, builder)
}

/// The statement that was found in a line of the program begins, over texts and `@` variables.
fn begin_found<L: Language>(
    alloc: Global,
    me: &mut Private,
    lent: &mut Lent<'_>,
    devices: &DeviceTable,
    found: &Found<'_>,
) -> Result<Progress, NoMemory>
    requires found { IsFound found.now lent.old.home.now.lines me.old }
    requires home { found.now.home.now ≡ lent.old.home.now }
    ensures begun { IfOk result (λ c. record { me = me.new; progress = c } ≡ spec.begins (L.ways devices.now) found.now.place me.old (seen_lent lent.old)) }
    ensures left { OnOk result (globals_lent lent.new ≡ spec.leaves (L.ways devices.now) found.now.place me.old (seen_lent lent.old)) }
    ensures same_reference { lent.new.globals.ghost_name ≡ lent.old.globals.ghost_name }
    ensures part { me.new.part ≡ me.old.part }
{
    let builder = builder_of::<L>(found.unit);
    let planned = plan_found::<L>(alloc, me, lent, devices, found, builder)?;
    match planned {
        Planned::Done(outcome) => {
            let end = settle_on(alloc, me, found.home, found.line, found.place, outcome)?;
            Ok(Progress::Ended(end))
        }
        Planned::Ask(access) => {
            let onward = onward_on(found.line, found.place.unit);
            Ok(Progress::Asks(access, builder, onward))
        }
    }
}

/// Whether a place is another one too.
fn is_place_same(here: Place, place: Place) -> bool
    ensures same { result ≡ true → here ≡ place }
{
    here.home == place.home && here.line == place.line && here.unit == place.unit
}

/// The number of the line of a place where a partition stands in a program, None for another place.
fn line_where_it_stands(me: &Private, place: Place) -> Option<u16>
    ensures stands { IfSome result (λ n. (me.now.place ≡ Some place) × (place.line ≡ Some n)) }
{
    let Some(n) = place.line else {
        return None;
    };
    let Some(here) = me.place else {
        return None;
    };
    if is_place_same(here, place) {
        Some(n)
    } else {
        None
    }
}

/// The statement at a place begins, over texts and `@` variables. One in the program, where the partition stands, is found by one
/// look-up.
pub fn begin_over<L: Language>(
    alloc: Global,
    me: &mut Private,
    lent: &mut Lent<'_>,
    devices: &DeviceTable,
    place: Place,
) -> Result<Progress, NoMemory>
    ensures begun { IfOk result (λ c. record { me = me.new; progress = c } ≡ spec.begins (L.ways devices.now) place me.old (seen_lent lent.old)) }
    ensures left { OnOk result (globals_lent lent.new ≡ spec.leaves (L.ways devices.now) place me.old (seen_lent lent.old)) }
    ensures same_reference { lent.new.globals.ghost_name ≡ lent.old.globals.ghost_name }
    ensures part { me.new.part ≡ me.old.part }
{
    let (own, home) = (lent.own, lent.home);
    let Some(n) = line_where_it_stands(me, place) else {
        return begin_anywhere::<L>(alloc, me, lent, devices, place);
    };
    let Some(line) = home.line(n) else {
        return Ok(Progress::Ended(become_ready_quietly(alloc, me)?));
    };
    let line = line.lend();
    let Some(unit) = statement_on(&line, usize::from(place.unit)) else {
        return Ok(Progress::Ended(become_ready_quietly(alloc, me)?));
    };
    let found = Found {
        own,
        home,
        line: &line,
        unit: &unit,
        place,
    };
    begin_found::<L>(alloc, me, lent, devices, &found)
}

/// What a statement left of a loan of `@` variables beside these: whether there are such, and whether a receiver among them was reached.
#[derive(Clone, Copy)]
pub struct Left {
    pub found: bool,
    pub reached: bool,
}

/// The statement at a place begins, over texts and the `@` variables that were lent for it.
pub fn begin_with<L: Language>(
    alloc: Global,
    me: &mut Private,
    own: &Text,
    home: &Text,
    globals: &mut Vars,
    found: bool,
    devices: &DeviceTable,
    place: Place,
) -> (Result<Progress, NoMemory>, Left)
    ensures begun { IfOk result.0 (λ c. record { me = me.new; progress = c } ≡ spec.begins (L.ways devices.now) place me.old (spec.seen_there own.now home.now found globals.old)) }
    ensures left { OnOk result.0 (record { vars = if result.1.found then Some globals.new else None; reached = result.1.reached } ≡ spec.leaves (L.ways devices.now) place me.old (spec.seen_there own.now home.now found globals.old)) }
    ensures part { me.new.part ≡ me.old.part }
{
    let mut lent = Lent {
        own,
        home,
        globals,
        found,
        reached: false,
    };
    let begun = begin_over::<L>(alloc, me, &mut lent, devices, place);
    let left = Left {
        found: lent.found,
        reached: lent.reached,
    };
    (begun, left)
}

/// It ends by the answer to its access, over what is lent again.
#[inline(always)]
pub fn finish_over<L: Language>(
    alloc: Global,
    me: &mut Private,
    lent: &mut Lent<'_>,
    place: Place,
    builder: Builder,
    onward: Onward,
    access: &Access,
    answer: &Answer,
) -> Result<Stepped, NoMemory>
    requires possible { can_answer access.now answer.now ≡ true }
    ensures ended { (devices : List Device) → IfOk result (λ e. record { me = me.new; end = e } ≡ spec.finishes (L.ways devices) builder access.now answer.now onward place me.old (seen_lent lent.old)) }
    ensures left { (devices : List Device) → OnOk result (globals_lent lent.new ≡ (spec.finish_by (L.ways devices) builder access.now answer.now me.old (seen_lent lent.old)).globals) }
    ensures same_reference { lent.new.globals.ghost_name ≡ lent.old.globals.ghost_name }
    ensures part { me.new.part ≡ me.old.part }
{
    let home = lent.home;
    let outcome = finish_by::<L>(alloc, me, lent, builder, access, answer)?;
    settle_onward(alloc, me, home, place, onward, outcome, repeats(answer))
}

/// The statement that a builder executes finishes, over texts and the `@` variables that were lent for it.
#[inline(always)]
pub fn finish_with<L: Language>(
    alloc: Global,
    me: &mut Private,
    own: &Text,
    home: &Text,
    globals: &mut Vars,
    found: bool,
    place: Place,
    builder: Builder,
    onward: Onward,
    access: &Access,
    answer: &Answer,
) -> (Result<Stepped, NoMemory>, Left)
    requires possible { can_answer access.now answer.now ≡ true }
    ensures ended { (devices : List Device) → IfOk result.0 (λ e. record { me = me.new; end = e } ≡ spec.finishes (L.ways devices) builder access.now answer.now onward place me.old (spec.seen_there own.now home.now found globals.old)) }
    ensures left { (devices : List Device) → OnOk result.0 (record { vars = if result.1.found then Some globals.new else None; reached = result.1.reached } ≡ (spec.finish_by (L.ways devices) builder access.now answer.now me.old (spec.seen_there own.now home.now found globals.old)).globals) }
    ensures part { me.new.part ≡ me.old.part }
{
    let mut lent = Lent {
        own,
        home,
        globals,
        found,
        reached: false,
    };
    let finished = finish_over::<L>(alloc, me, &mut lent, place, builder, onward, access, answer);
    let left = Left {
        found: lent.found,
        reached: lent.reached,
    };
    (finished, left)
}
