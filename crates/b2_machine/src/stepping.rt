// A step: the first of six rules that applies.
ghost use Rattle.std.specs.Prelude.{◌≡◌, true, List, Option, Some, None, IfOk, IsSome, OnOk};
ghost use Rattle.b2_vars.specs.Globals.{unreached};
ghost use Rattle.b2_vars.specs.Tables.{VarsState};
ghost use Rattle.b2_access.specs.declared.devices.Device.{Device};
ghost use Rattle.b2_access.specs.Answering.{can_answer};
ghost use Rattle.b2_access.specs.Homes.{PlaceIn};
ghost use Rattle.b2_access.specs.Leading.{is_present};
ghost use Rattle.b2_access.specs.Store.{content};
ghost use Rattle.b2_access.specs.Touching.{IsLegal};
ghost use Rattle.b2_machine.specs.StraightLine.{RunsOn};
ghost use Rattle.b2_machine.specs.Statements.{Opens, begins, finish_by, finishes, leaves};
ghost use Rattle.b2_machine.specs.Stays.{Keeps, IsLegalOpening, IsLegalProgress};
ghost use Rattle.b2_machine.specs.Step as spec;

use crate::ends::{Stepped, counts, repeats};
use crate::keys::press_over;
use crate::moving::Onward;
use crate::readiness::{give_back, halt, reset};
use crate::rules::{Rule, due};
use crate::statements::{Builder, Opening, Progress, begin_with, finish_with};
use crate::straight_line::{Ran, run_on};
use crate::text_only::open_over;
use crate::typing::{after_literal, after_pending, after_put, ask_to_show, put_line, take_line};
use b2_access::{Access, Answer, At, DeviceTable, Lent, Object, Private, Shared, homes_entered};
use b2_base::{ByteList, NoMemory, Part};
use b2_flow::Place;
use b2_language::Language;
use std::alloc::Global;

/// An access of a partition is served.
fn ask_store<S: Shared>(s: &mut S, who: Part, access: &Access) -> Result<Answer, NoMemory>
    requires legal { IsLegal access.now }
    ensures served { IfOk result (λ a. record { after = S.meaning s.new; answer = a } ≡ S.serving (S.meaning s.old) who access.now) }
    ensures possible { IfOk result (λ a. can_answer access.now a ≡ true) }
    ensures kept { Keeps result (S.holds s.old) (S.holds s.new) who who (S.store (S.meaning s.old)) (S.store (S.meaning s.new)) }
{
    s.serve(who, access)
}

/// A reset, before which the texts are given back that calls of the partition entered.
fn give_back_and_reset<S: Shared>(
    alloc: Global,
    me: &mut Private,
    s: &mut S,
) -> Result<Stepped, NoMemory>
    ensures ended { IfOk result (λ e. record { me = me.new; after = S.meaning s.new; end = e } ≡ spec.resets_by S.store S.serving S.lending me.old (S.meaning s.old)) }
    ensures kept { Keeps result (S.holds s.old) (S.holds s.new) me.old.part me.new.part (S.store (S.meaning s.old)) (S.store (S.meaning s.new)) }
{
    let access = give_back(me);
    let _answer = ask_store(s, me.part, &access)?;
    reset(alloc, me)
}

/// Output that is pending is shown.
fn show<S: Shared>(alloc: Global, me: &mut Private, s: &mut S) -> Result<Stepped, NoMemory>
    requires waits { IsSome me.old.pending }
    ensures ended { IfOk result (λ e. record { me = me.new; after = S.meaning s.new; end = e } ≡ spec.shows S.store S.serving S.lending me.old (S.meaning s.old)) }
    ensures kept { Keeps result (S.holds s.old) (S.holds s.new) me.old.part me.new.part (S.store (S.meaning s.old)) (S.store (S.meaning s.new)) }
{
    let access = ask_to_show(alloc, me)?;
    let answer = ask_store(s, me.part, &access)?;
    Ok(after_pending(me, &access, &answer))
}

/// A literal is typed.
fn insert_literal<S: Shared>(
    alloc: Global,
    me: &mut Private,
    s: &mut S,
) -> Result<Stepped, NoMemory>
    requires waits { IsSome me.old.literal }
    ensures ended { IfOk result (λ e. record { me = me.new; after = S.meaning s.new; end = e } ≡ spec.types_literal S.store S.serving S.lending me.old (S.meaning s.old)) }
    ensures kept { Keeps result (S.holds s.old) (S.holds s.new) me.old.part me.new.part (S.store (S.meaning s.old)) (S.store (S.meaning s.new)) }
{
    let Some(text) = &me.literal else {
        unreachable!();
    };
    let typed = ByteList::from_slice(alloc, text.bytes())?;
    let access = Access::Insert {
        term: me.term,
        bytes: typed,
    };
    let answer = ask_store(s, me.part, &access)?;
    Ok(after_literal(me, &answer))
}

/// A special function key was read.
fn press<S: Shared>(alloc: Global, me: &mut Private, s: &mut S, n: u8) -> Result<Stepped, NoMemory>
    requires own { IsSome (content (S.store (S.meaning s.old)) (Object.Text me.old.part)) }
    ensures ended { IfOk result (λ e. record { me = me.new; after = S.meaning s.new; end = e } ≡ spec.line_read S.store S.serving S.lending (Answer.Special n) me.old (S.meaning s.old)) }
    ensures kept { Keeps result (S.holds s.old) (S.holds s.new) me.old.part me.new.part (S.store (S.meaning s.old)) (S.store (S.meaning s.new)) }
{
    let part = me.part;
    press_over(alloc, me, s.lend(part, part, &At::None), n)?;
    Ok(counts())
}

/// A line is read.
#[tactic(auto, using(crate::proofs::Kept::both_kept))]
fn read_typed_line<S: Shared>(
    alloc: Global,
    me: &mut Private,
    s: &mut S,
) -> Result<Stepped, NoMemory>
    requires own { IsSome (content (S.store (S.meaning s.old)) (Object.Text me.old.part)) }
    ensures ended { IfOk result (λ e. record { me = me.new; after = S.meaning s.new; end = e } ≡ spec.reads_line S.store S.serving S.lending me.old (S.meaning s.old)) }
    ensures kept { Keeps result (S.holds s.old) (S.holds s.new) me.old.part me.new.part (S.store (S.meaning s.old)) (S.store (S.meaning s.new)) }
{
    let access = Access::ReadLine { term: me.term };
    let answer = ask_store(s, me.part, &access)?;
    match &answer {
        Answer::Line(line) => {
            take_line(alloc, me, line.bytes())?;
            Ok(counts())
        }
        Answer::Special(n) => press(alloc, me, s, *n),
        Answer::NoKeys | Answer::Wait(_) => Ok(repeats(&answer)),
        _ => unreachable!(),
    }
}

/// A numbered line is put into the own text, and the texts are given back that calls of the partition entered, whose frames go with it.
fn enter_line<S: Shared>(alloc: Global, me: &mut Private, s: &mut S) -> Result<Stepped, NoMemory>
    requires waits { IsSome me.old.numbered }
    ensures ended { IfOk result (λ e. record { me = me.new; after = S.meaning s.new; end = e } ≡ spec.enters_line S.store S.serving S.lending me.old (S.meaning s.old)) }
    ensures kept { Keeps result (S.holds s.old) (S.holds s.new) me.old.part me.new.part (S.store (S.meaning s.old)) (S.store (S.meaning s.new)) }
{
    let homes = homes_entered(&me.stack);
    let Some((line, atoms)) = me.numbered.take() else {
        unreachable!();
    };
    let access = put_line(line, atoms, homes);
    let answer = ask_store(s, me.part, &access)?;
    after_put(alloc, me, &answer)
}

/// The statement at a place is opened over texts alone; what it asks for goes to the caller.
fn open<L: Language, S: Shared>(
    alloc: Global,
    me: &mut Private,
    s: &mut S,
    d: &DeviceTable,
    place: &Place,
    access: &mut Option<Access>,
) -> Result<Opening, NoMemory>
    requires stands { me.old.place ≡ Some place.now }
    requires empty { access.old ≡ None }
    requires own { IsSome (content (S.store (S.meaning s.old)) (Object.Text me.old.part)) }
    requires home { IsSome (content (S.store (S.meaning s.old)) (Object.Text place.now.home)) }
    ensures legal { IfOk result (λ o. IsLegalOpening o access.new) }
    ensures opened { IfOk result (Opens (L.ways d.now) place.now me.old me.new (spec.seen_by me.old.part place.now.home At.None (S.store (S.meaning s.old))) access.new) }
    ensures lent { S.meaning s.new ≡ spec.texts_lent S.store S.serving S.lending me.old.part place.now.home (S.meaning s.old) }
    ensures kept { Keeps result (S.holds s.old) (S.holds s.new) me.old.part me.new.part (S.store (S.meaning s.old)) (S.store (S.meaning s.new)) }
{
    let part = me.part;
    let Lent {
        own,
        home,
        globals,
        ..
    } = s.lend(part, place.home, &At::None);
    open_over::<L>(alloc, me, own, home, globals, d, place, access)
}

/// After a loan to a partition the store is told where a receiver among the `@` variables was reached.
fn note_where_reached<S: Shared>(s: &mut S, who: Part, home: Part, whose: &At, reached: bool)
    ensures noted { (m : S.Meaning) (left : Option VarsState) → S.meaning s.old ≡ S.lending who home whose.now m (unreached left) → S.meaning s.new ≡ S.lending who home whose.now m (record { vars = left; reached = reached }) }
    ensures same { S.holds s.new ≡ S.holds s.old }
{
    if reached {
        s.note(who, home, whose);
    }
}

/// The statement at a place begins, over texts and the `@` variables that it wants.
fn begin<L: Language, S: Shared>(
    alloc: Global,
    me: &mut Private,
    s: &mut S,
    d: &DeviceTable,
    place: &Place,
    whose: &At,
) -> Result<Progress, NoMemory>
    requires own { IsSome (content (S.store (S.meaning s.old)) (Object.Text me.old.part)) }
    requires home { IsSome (content (S.store (S.meaning s.old)) (Object.Text place.now.home)) }
    ensures legal { IfOk result IsLegalProgress }
    ensures begun { IfOk result (λ c. record { me = me.new; progress = c } ≡ begins (L.ways d.now) place.now me.old (spec.seen_by me.old.part place.now.home whose.now (S.store (S.meaning s.old)))) }
    ensures lent { OnOk result (S.meaning s.new ≡ S.lending me.old.part place.now.home whose.now (S.meaning s.old) (leaves (L.ways d.now) place.now me.old (spec.seen_by me.old.part place.now.home whose.now (S.store (S.meaning s.old))))) }
    ensures kept { Keeps result (S.holds s.old) (S.holds s.new) me.old.part me.new.part (S.store (S.meaning s.old)) (S.store (S.meaning s.new)) }
{
    let part = me.part;
    let Lent {
        own,
        home,
        globals,
        found,
        ..
    } = s.lend(part, place.home, whose);
    let (begun, left) = begin_with::<L>(alloc, me, own, home, globals, found, d, *place);
    note_where_reached(s, part, place.home, whose, left.reached);
    begun
}

/// It finishes, after its access was answered.
fn finish<L: Language, S: Shared>(
    alloc: Global,
    me: &mut Private,
    s: &mut S,
    place: &Place,
    whose: &At,
    builder: Builder,
    onward: Onward,
    access: &Access,
    answer: &Answer,
) -> Result<Stepped, NoMemory>
    requires own { IsSome (content (S.store (S.meaning s.old)) (Object.Text me.old.part)) }
    requires home { IsSome (content (S.store (S.meaning s.old)) (Object.Text place.now.home)) }
    requires possible { can_answer access.now answer.now ≡ true }
    ensures ended { (devices : List Device) → IfOk result (λ e. record { me = me.new; end = e } ≡ finishes (L.ways devices) builder access.now answer.now onward place.now me.old (spec.seen_by me.old.part place.now.home whose.now (S.store (S.meaning s.old)))) }
    ensures lent { (devices : List Device) → OnOk result (S.meaning s.new ≡ S.lending me.old.part place.now.home whose.now (S.meaning s.old) (finish_by (L.ways devices) builder access.now answer.now me.old (spec.seen_by me.old.part place.now.home whose.now (S.store (S.meaning s.old)))).globals) }
    ensures kept { Keeps result (S.holds s.old) (S.holds s.new) me.old.part me.new.part (S.store (S.meaning s.old)) (S.store (S.meaning s.new)) }
{
    let part = me.part;
    let Lent {
        own,
        home,
        globals,
        found,
        ..
    } = s.lend(part, place.home, whose);
    let (finished, left) = finish_with::<L>(
        alloc, me, own, home, globals, found, *place, builder, onward, access, answer,
    );
    note_where_reached(s, part, place.home, whose, left.reached);
    finished
}

/// What a statement asks for is done, and it finishes.
#[tactic(auto, using(crate::proofs::Kept::both_kept))]
fn ask_and_finish<L: Language, S: Shared>(
    alloc: Global,
    me: &mut Private,
    s: &mut S,
    place: &Place,
    whose: &At,
    builder: Builder,
    onward: Onward,
    access: &Access,
) -> Result<Stepped, NoMemory>
    requires own { IsSome (content (S.store (S.meaning s.old)) (Object.Text me.old.part)) }
    requires home { IsSome (content (S.store (S.meaning s.old)) (Object.Text place.now.home)) }
    requires legal { IsLegal access.now }
    ensures ended { (devices : List Device) → IfOk result (λ e. record { me = me.new; after = S.meaning s.new; end = e } ≡ spec.asks_and_finishes (L.ways devices) S.store S.serving S.lending me.old.part builder access.now onward place.now whose.now me.old (S.meaning s.old)) }
    ensures kept { Keeps result (S.holds s.old) (S.holds s.new) me.old.part me.new.part (S.store (S.meaning s.old)) (S.store (S.meaning s.new)) }
{
    let answer = ask_store(s, me.part, access)?;
    finish::<L, S>(alloc, me, s, place, whose, builder, onward, access, &answer)
}

/// What a statement that began asked for is done.
fn carry_out<L: Language, S: Shared>(
    alloc: Global,
    me: &mut Private,
    s: &mut S,
    place: Place,
    whose: &At,
    progress: Progress,
) -> Result<Stepped, NoMemory>
    requires own { IsSome (content (S.store (S.meaning s.old)) (Object.Text me.old.part)) }
    requires home { IsSome (content (S.store (S.meaning s.old)) (Object.Text place.home)) }
    requires legal { IsLegalProgress progress }
    ensures ended { (devices : List Device) → IfOk result (λ e. record { me = me.new; after = S.meaning s.new; end = e } ≡ spec.carries_out (L.ways devices) S.store S.serving S.lending me.old.part progress place whose.now me.old (S.meaning s.old)) }
    ensures kept { Keeps result (S.holds s.old) (S.holds s.new) me.old.part me.new.part (S.store (S.meaning s.old)) (S.store (S.meaning s.new)) }
{
    match progress {
        Progress::Ended(end) => Ok(end),
        Progress::Asks(access, builder, onward) => {
            ask_and_finish::<L, S>(alloc, me, s, &place, whose, builder, onward, &access)
        }
    }
}

/// The statement at a place, which wants some `@` variables, is executed.
#[tactic(auto, using(crate::proofs::Kept::both_kept))]
fn execute_over<L: Language, S: Shared>(
    alloc: Global,
    me: &mut Private,
    s: &mut S,
    d: &DeviceTable,
    place: Place,
    whose: &At,
) -> Result<Stepped, NoMemory>
    requires own { IsSome (content (S.store (S.meaning s.old)) (Object.Text me.old.part)) }
    requires home { IsSome (content (S.store (S.meaning s.old)) (Object.Text place.home)) }
    ensures ended { IfOk result (λ e. record { me = me.new; after = S.meaning s.new; end = e } ≡ spec.executes_over (L.ways d.now) S.store S.serving S.lending whose.now place me.old (S.meaning s.old)) }
    ensures kept { Keeps result (S.holds s.old) (S.holds s.new) me.old.part me.new.part (S.store (S.meaning s.old)) (S.store (S.meaning s.new)) }
{
    let progress = begin::<L, S>(alloc, me, s, d, &place, whose)?;
    carry_out::<L, S>(alloc, me, s, place, whose, progress)
}

/// A statement that was opened over texts alone goes on; what it asks for is beside.
pub fn go_through<L: Language, S: Shared>(
    alloc: Global,
    me: &mut Private,
    s: &mut S,
    d: &DeviceTable,
    place: Place,
    opening: Opening,
    access: &Option<Access>,
) -> Result<Stepped, NoMemory>
    requires own { IsSome (content (S.store (S.meaning s.old)) (Object.Text me.old.part)) }
    requires home { IsSome (content (S.store (S.meaning s.old)) (Object.Text place.home)) }
    requires legal { IsLegalOpening opening access.now }
    ensures ended { (before : Private) (m : S.Meaning) → me.old.part ≡ before.part → Opens (L.ways d.now) place before me.old (spec.seen_by before.part place.home At.None (S.store m)) access.now opening → S.meaning s.old ≡ spec.texts_lent S.store S.serving S.lending before.part place.home m → IfOk result (λ e. record { me = me.new; after = S.meaning s.new; end = e } ≡ spec.executes (L.ways d.now) S.store S.serving S.lending place before m) }
    ensures kept { Keeps result (S.holds s.old) (S.holds s.new) me.old.part me.new.part (S.store (S.meaning s.old)) (S.store (S.meaning s.new)) }
{
    match opening {
        Opening::Leads => Ok(counts()),
        Opening::Ends(end) => Ok(end),
        Opening::Asks(builder, onward) => match access {
            Some(asked) => {
                ask_and_finish::<L, S>(alloc, me, s, &place, &At::None, builder, onward, asked)
            }
            None => unreachable!(),
        },
        Opening::Wants(whose) => execute_over::<L, S>(alloc, me, s, d, place, &whose),
    }
}

/// The statement at a place is executed.
#[tactic(auto, using(crate::proofs::Kept::both_kept))]
fn execute<L: Language, S: Shared>(
    alloc: Global,
    me: &mut Private,
    s: &mut S,
    d: &DeviceTable,
    place: Place,
) -> Result<Stepped, NoMemory>
    requires stands { me.old.place ≡ Some place }
    requires own { IsSome (content (S.store (S.meaning s.old)) (Object.Text me.old.part)) }
    requires home { IsSome (content (S.store (S.meaning s.old)) (Object.Text place.home)) }
    ensures ended { IfOk result (λ e. record { me = me.new; after = S.meaning s.new; end = e } ≡ spec.executes (L.ways d.now) S.store S.serving S.lending place me.old (S.meaning s.old)) }
    ensures kept { Keeps result (S.holds s.old) (S.holds s.new) me.old.part me.new.part (S.store (S.meaning s.old)) (S.store (S.meaning s.new)) }
{
    let mut access = None;
    let opening = open::<L, S>(alloc, me, s, d, &place, &mut access)?;
    go_through::<L, S>(alloc, me, s, d, place, opening, &access)
}

/// Statements in the program of a home, one after another over one loan of texts, at most so many, up to the first after which the turn
/// doesn't go on. What that asks for goes to the caller.
pub fn run_lent<L: Language, S: Shared>(
    alloc: Global,
    me: &mut Private,
    s: &mut S,
    d: &DeviceTable,
    home: Part,
    left: u16,
    access: &mut Option<Access>,
) -> Result<Ran, NoMemory>
    requires own { IsSome (content (S.store (S.meaning s.old)) (Object.Text me.old.part)) }
    requires home { IsSome (content (S.store (S.meaning s.old)) (Object.Text home)) }
    requires empty { access.old ≡ None }
    ensures ran { IfOk result (RunsOn (L.ways d.now) home (spec.seen_by me.old.part home At.None (S.store (S.meaning s.old))) left me.old me.new access.new) }
    ensures lent { S.meaning s.new ≡ spec.texts_lent S.store S.serving S.lending me.old.part home (S.meaning s.old) }
    ensures kept { Keeps result (S.holds s.old) (S.holds s.new) me.old.part me.new.part (S.store (S.meaning s.old)) (S.store (S.meaning s.new)) }
{
    let part = me.part;
    let Lent {
        own,
        home: text,
        globals,
        ..
    } = s.lend(part, home, &At::None);
    run_on::<L>(alloc, me, own, text, globals, d, home, left, access)
}

/// One step of a partition whose own text is in the store, and that of the home of its place: the first of the six rules that applies.
/// After want of memory nothing is said of the partition and of what the store means.
pub fn step<L: Language, S: Shared>(
    alloc: Global,
    me: &mut Private,
    s: &mut S,
    d: &DeviceTable,
) -> Result<Stepped, NoMemory>
    requires own { IsSome (content (S.store (S.meaning s.old)) (Object.Text me.old.part)) }
    requires home { PlaceIn (is_present (S.store (S.meaning s.old))) me.old.place }
    ensures stepped { IfOk result (λ e. record { me = me.new; after = S.meaning s.new; end = e } ≡ spec.step (L.ways d.now) S.store S.serving S.lending me.old (S.meaning s.old)) }
    ensures kept { Keeps result (S.holds s.old) (S.holds s.new) me.old.part me.new.part (S.store (S.meaning s.old)) (S.store (S.meaning s.new)) }
{
    let rule = due(me);
    me.halt = false;
    match rule {
        Rule::Reset => give_back_and_reset(alloc, me, s),
        Rule::Halt => halt(alloc, me),
        Rule::Show => show(alloc, me, s),
        Rule::Insert => insert_literal(alloc, me, s),
        Rule::Read => read_typed_line(alloc, me, s),
        Rule::Put => enter_line(alloc, me, s),
        Rule::Execute(place) => execute::<L, S>(alloc, me, s, d, place),
    }
}
