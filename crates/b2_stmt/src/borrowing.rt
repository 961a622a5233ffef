// Texts of others: what RETURN, RETURN CLEAR ALL, RUN and GOSUB' ask for of them.
ghost use Rattle.std.specs.Prelude.{◌≡◌, ◌&&◌, true, IfOk, Some, None};
ghost use Rattle.std.specs.Option.{option_map_or};
ghost use Rattle.b2_flow.specs.Stacks.{entered_last};
ghost use Rattle.b2_access.specs.Lending.{SeenLent};
ghost use Rattle.b2_stmt.specs.Asked.{HasLegalNames, carried};
ghost use Rattle.b2_stmt.specs.Borrowing as spec;
ghost use Rattle.b2_stmt.specs.Calls.{forgets, goes_back, may_forget_all};
ghost use Rattle.b2_stmt.specs.RunControl.{runs};
ghost use Rattle.b2_stmt.specs.Marked.{calls_mark, mark_place};
ghost use Rattle.b2_stmt.specs.Plan.{by_access};

use crate::asked::{Asked, do_asked};
use crate::calls::{forget, go_back, may_forget_all};
use crate::marked::{call_into, code_of_none, mark_place};
use crate::run_control::run_program;
use b2_access::{Access, Outcome, Planned, Private, homes_entered};
use b2_base::NoMemory;
use b2_dec::ValueList;
use b2_flow::Place;
use b2_text::Text;

/// That all texts are given back that were entered.
fn ask_to_drop(me: &Private) -> Access
    ensures { Some result ≡ spec.asks_to_drop true me.now }
{
    Access::Drop {
        homes: homes_entered(&me.stack),
    }
}

/// Whether RUN finds its line.
fn finds_line(n: Option<u16>, own: &Text) -> bool
    ensures { result ≡ spec.finds_line n own.now.lines }
{
    match n {
        Some(n) => own.line(n).is_some(),
        None => true,
    }
}

/// That the text of the partition that is selected is entered, where a DEFFN' stands in no text that is lent.
fn ask_to_enter(n: u8, me: &Private) -> Option<Access>
    ensures { result ≡ spec.asks_to_enter n None me.now }
{
    if !me.stack.has_room() {
        return None;
    }
    match me.global {
        Some(name) => Some(Access::Enter { name, mark: n }),
        None => None,
    }
}

/// GOSUB' where a place was found for it, or none. Where a text is to be entered, nothing is done, and that is asked for.
fn call_or_enter(
    me: &mut Private,
    n: u8,
    found: Option<Place>,
    args: ValueList,
    back: Option<Place>,
    access: &mut Option<Access>,
) -> Outcome
    requires empty { access.old ≡ None }
    ensures ended { (s : SeenLent) → record { me = me.new; globals = s.globals; planned = option_map_or Planned.Ask access.new (Planned.Done result) } ≡ by_access (spec.asks_to_enter n found me.old) s me.old (calls_mark found args back me.old) }
    ensures part { me.new.part ≡ me.old.part }
{
    match found {
        Some(to) => call_into(me, None, to, args, back),
        None => {
            *access = ask_to_enter(n, me);
            Outcome::Failed(code_of_none(me))
        }
    }
}

/// RETURN. Where its call entered a text nothing is done, and it asks for that to be left.
pub fn go_back_or_leave(me: &mut Private, access: &mut Option<Access>) -> Outcome
    requires empty { access.old ≡ None }
    ensures ended { (s : SeenLent) → record { me = me.new; globals = s.globals; planned = option_map_or Planned.Ask access.new (Planned.Done result) } ≡ by_access (spec.asks_to_leave (entered_last me.old.stack)) s me.old (goes_back me.old) }
    ensures part { me.new.part ≡ me.old.part }
{
    match me.stack.entered_last() {
        Some(home) => {
            *access = Some(Access::Leave { home });
            Outcome::Repeat
        }
        None => go_back(me),
    }
}

/// RETURN CLEAR. Where all are forgotten nothing is done, and it asks for all texts to be given back.
fn forget_or_drop(
    me: &mut Private,
    place: &Place,
    all: bool,
    access: &mut Option<Access>,
) -> Outcome
    requires empty { access.old ≡ None }
    ensures ended { (s : SeenLent) → record { me = me.new; globals = s.globals; planned = option_map_or Planned.Ask access.new (Planned.Done result) } ≡ by_access (spec.asks_to_drop (all && may_forget_all place.now me.old) me.old) s me.old (forgets all place.now me.old) }
    ensures part { me.new.part ≡ me.old.part }
{
    let may_go = may_forget_all(me, *place);
    if all && may_go {
        *access = Some(ask_to_drop(me));
        return Outcome::Repeat;
    }
    forget(me, *place, all)
}

/// RUN. Where its line is found nothing is done, and it asks for all texts to be given back.
fn run_or_drop(me: &mut Private, own: &Text, n: Option<u16>, access: &mut Option<Access>) -> Outcome
    requires empty { access.old ≡ None }
    ensures ended { (s : SeenLent) → record { me = me.new; globals = s.globals; planned = option_map_or Planned.Ask access.new (Planned.Done result) } ≡ by_access (spec.asks_to_drop (spec.finds_line n own.now.lines) me.old) s me.old (runs n own.now.lines me.old) }
    ensures part { me.new.part ≡ me.old.part }
{
    if finds_line(n, own) {
        *access = Some(ask_to_drop(me));
        return Outcome::Repeat;
    }
    run_program(me, own, n)
}

/// Does what was asked for. Where that is a text of another, nothing is done, and the access goes to the caller.
pub fn do_or_ask(
    me: &mut Private,
    own: &Text,
    home: &Text,
    place: Place,
    asked: Asked,
    access: &mut Option<Access>,
) -> Result<Outcome, NoMemory>
    requires named { HasLegalNames asked }
    requires empty { access.old ≡ None }
    ensures ended { (s : SeenLent) → IfOk result (λ o. record { me = me.new; globals = s.globals; planned = option_map_or Planned.Ask access.new (Planned.Done o) } ≡ by_access (spec.asks_of_others asked place me.old own.now.lines home.now.lines) s me.old (carried asked place me.old own.now.lines home.now.lines)) }
    ensures part { me.new.part ≡ me.old.part }
{
    match asked {
        Asked::Return => Ok(go_back_or_leave(me, access)),
        Asked::Forget(all) => Ok(forget_or_drop(me, &place, all, access)),
        Asked::Run(n) => Ok(run_or_drop(me, own, n, access)),
        Asked::CallMark(n, args, back) => {
            let found = mark_place(n, place, me.part, own, home);
            Ok(call_or_enter(me, n, found, args, back, access))
        }
        asked => do_asked(me, own, home, place, asked),
    }
}
