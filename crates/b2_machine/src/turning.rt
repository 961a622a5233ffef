// A turn: it is passed without a step, or it goes on up to the first step that ends it, or to as many as its quota.
ghost use Rattle.std.specs.Prelude.{◌≡◌, ◌≤◌, ◌<◌, ◌+◌, ℕ, Some, IfOk, IsSome, if◌then◌else◌};
ghost use Rattle.b2_access.specs.Homes.{IsWithin};
ghost use Rattle.b2_access.specs.Leading.{NamesIn, is_present};
ghost use Rattle.b2_machine.specs.Advancing.{Advances, ArePresent};
ghost use Rattle.b2_machine.specs.StraightLine.{place_in};
ghost use Rattle.b2_machine.specs.Stays.{Keeps};
ghost use Rattle.b2_machine.specs.Turn as spec;

use crate::ends::{Stepped, Turned, Why};
use crate::stepping::{go_through, run_lent, step};
use crate::straight_line::{Opened, place_in};
use b2_access::{DeviceTable, Private, Shared};
use b2_base::{NoMemory, Part};
use b2_language::Language;
use std::alloc::Global;

/// How far a turn went on.
#[derive(Clone, Copy)]
pub struct Went {
    /// How many steps were taken.
    pub taken: u16,
    /// How many of them counted.
    pub counted: u16,
    /// Why the turn ends with the last of them, None where it goes on.
    pub why: Option<Why>,
}

/// How many steps have counted after one more.
fn counted_on(steps: u16, counted: bool) -> u16
    requires { steps < 65535 }
    ensures { result ≡ (if counted then steps + 1 else steps) }
{
    if counted { steps + 1 } else { steps }
}

/// After some steps, which counted, and one more.
fn went_on(steps: u16, end: Stepped) -> Went
    requires { steps < 65535 }
    ensures { result ≡ record { taken = steps + 1; counted = if end.counted then steps + 1 else steps; why = end.why } }
{
    Went {
        taken: steps + 1,
        counted: counted_on(steps, end.counted),
        why: end.why,
    }
}

/// Steps of a partition at a place in the program of a home: its statements one after another, over one loan.
fn run<L: Language, S: Shared>(
    alloc: Global,
    me: &mut Private,
    s: &mut S,
    d: &DeviceTable,
    home: Part,
    left: u16,
) -> Result<Went, NoMemory>
    requires present { ArePresent (S.store (S.meaning s.old)) me.old }
    requires there { IsSome (place_in home me.old) }
    requires some { 1 ≤ left }
    ensures advances { IfOk result (Advances (L.ways d.now) S.store S.serving S.lending left me.old me.new (S.meaning s.old) (S.meaning s.new)) }
    ensures kept { Keeps result (S.holds s.old) (S.holds s.new) me.old.part me.new.part (S.store (S.meaning s.old)) (S.store (S.meaning s.new)) }
{
    let mut access = None;
    let ran = run_lent::<L, S>(alloc, me, s, d, home, left, &mut access)?;
    let steps = ran.steps;
    let last = ran.last;
    match last {
        None => Ok(Went {
            taken: steps,
            counted: steps,
            why: None,
        }),
        Some(opened) => {
            let Opened { place, opening } = opened;
            let end = go_through::<L, S>(alloc, me, s, d, place, opening, &access)?;
            Ok(went_on(steps, end))
        }
    }
}

/// The home in whose program a partition stands at a statement that comes next.
fn home_to_run_in(me: &Private) -> Option<Part>
    ensures { (home : ℕ) → result ≡ Some home → IsSome (place_in home me.now) }
{
    match me.place {
        Some(place) => match place_in(place.home, me) {
            Some(_) => Some(place.home),
            None => None,
        },
        None => None,
    }
}

/// One step of a partition, or several.
fn advance<L: Language, S: Shared>(
    alloc: Global,
    me: &mut Private,
    s: &mut S,
    d: &DeviceTable,
    left: u16,
) -> Result<Went, NoMemory>
    requires present { ArePresent (S.store (S.meaning s.old)) me.old }
    requires some { 1 ≤ left }
    ensures advances { IfOk result (Advances (L.ways d.now) S.store S.serving S.lending left me.old me.new (S.meaning s.old) (S.meaning s.new)) }
    ensures kept { Keeps result (S.holds s.old) (S.holds s.new) me.old.part me.new.part (S.store (S.meaning s.old)) (S.store (S.meaning s.new)) }
{
    match home_to_run_in(me) {
        Some(home) => run::<L, S>(alloc, me, s, d, home, left),
        None => {
            let end = step::<L, S>(alloc, me, s, d)?;
            Ok(went_on(0, end))
        }
    }
}

/// The steps of a turn that isn't passed: at most `quota` that count. Where the last of them also ends the turn by itself, that is why it
/// ended. After want of memory nothing is said of the partition and of what the store means.
#[inline(never)]
fn take_steps<L: Language, S: Shared>(
    alloc: Global,
    me: &mut Private,
    s: &mut S,
    d: &DeviceTable,
    quota: u16,
) -> Result<Turned, NoMemory>
    requires present { IsWithin (is_present (S.store (S.meaning s.old))) me.old }
    requires names { NamesIn (is_present (S.store (S.meaning s.old))) (S.store (S.meaning s.old)) }
    ensures turned { IfOk result (λ t. record { me = me.new; after = S.meaning s.new; turned = t } ≡ spec.turn_from (L.ways d.now) S.store S.serving S.lending quota me.old (S.meaning s.old) 0) }
    ensures few { IfOk result (λ t. t.steps ≤ quota) }
    ensures kept { Keeps result (S.holds s.old) (S.holds s.new) me.old.part me.new.part (S.store (S.meaning s.old)) (S.store (S.meaning s.new)) }
{
    let mut steps = 0;
    let mut taken = 0;
    while taken < quota {
        let went = advance::<L, S>(alloc, me, s, d, quota - taken)?;
        steps += went.counted;
        taken += went.taken;
        let why = went.why;
        match why {
            Some(why) => return Ok(Turned { steps, why }),
            None => {}
        }
    }
    Ok(Turned {
        steps,
        why: Why::Quota,
    })
}

/// Whether a partition passes its turn: it is to pass some yet, and neither a halt nor a reset was asked for.
fn passes_turn(me: &Private) -> bool
    ensures { result ≡ spec.passes_turn me.now }
{
    me.pass != 0 && !me.halt && !me.reset
}

/// One turn of a partition that is present, as all are that it names, and all to whom names lead: it is passed without a step, or takes at
/// most `quota` steps that count. Where the last of them also ends the turn by itself, that is why it ended. After want of memory nothing
/// is said of the partition and of what the store means.
#[inline(always)]
pub fn turn<L: Language, S: Shared>(
    alloc: Global,
    me: &mut Private,
    s: &mut S,
    d: &DeviceTable,
    quota: u16,
) -> Result<Turned, NoMemory>
    requires present { IsWithin (is_present (S.store (S.meaning s.old))) me.old }
    requires names { NamesIn (is_present (S.store (S.meaning s.old))) (S.store (S.meaning s.old)) }
    ensures turned { IfOk result (λ t. record { me = me.new; after = S.meaning s.new; turned = t } ≡ spec.turn (L.ways d.now) S.store S.serving S.lending quota me.old (S.meaning s.old)) }
    ensures few { IfOk result (λ t. t.steps ≤ quota) }
    ensures kept { Keeps result (S.holds s.old) (S.holds s.new) me.old.part me.new.part (S.store (S.meaning s.old)) (S.store (S.meaning s.new)) }
{
    if passes_turn(me) {
        me.pass = me.pass.saturating_sub(1);
        return Ok(Turned {
            steps: 0,
            why: Why::Break,
        });
    }
    me.pass = 0;
    take_steps::<L, S>(alloc, me, s, d, quota)
}
