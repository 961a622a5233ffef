// What the statements of a language do.
ghost use Rattle.std.specs.Prelude.{◌≡◌, ℕ, Bool, true, false, List, None, IfOk, is_some};
ghost use Rattle.std.specs.Option.{option_map_or};
ghost use Rattle.b2_access.specs.declared.devices.Device.{Device};
ghost use Rattle.b2_access.specs.Answering.{can_answer};
ghost use Rattle.b2_access.specs.Found.{IsFound, seen_found, statement_found};
ghost use Rattle.b2_access.specs.Lending.{globals_lent, seen_lent};
ghost use Rattle.b2_access.specs.JumpTargets.{lead_seen};
ghost use Rattle.b2_access.specs.Fast.{ChangesFast, DoneFast};
ghost use Rattle.b2_vars.specs.Globals.{unreached};
ghost use Rattle.b2_language.specs.Languages.{AreLawful, AskForListed, GoByListed, KeepOpenFiles, Ways};
ghost use Rattle.b2_language.specs.Wanted.{names_globals};

use b2_access::{Access, Answer, DeviceTable, Found, Lead, Lent, Outcome, Planned, Private};
use b2_base::NoMemory;
use std::alloc::Global;

/// A language: what the statements of its rows do at the place of a partition. LIST is none of them, since the machine has it.
pub trait Language {
    /// What they do, over the devices that there are.
    ghost ways: { List Device → Ways };

    /// The rows whose statements are planned at once.
    ghost at_once: { ℕ → Bool };

    /// Whether statements of a row are built.
    fn is_built(row: u16) -> bool
        ensures built { (devices : List Device) → result ≡ (ways devices).built row };

    /// What a statement of a row plans.
    fn plan(
        alloc: Global,
        row: u16,
        me: &mut Private,
        lent: &mut Lent<'_>,
        devices: &DeviceTable,
    ) -> Result<Planned, NoMemory>
        ensures planned { IfOk result (λ p. record { me = me.new; globals = globals_lent lent.new; planned = p } ≡ (ways devices.now).plan row me.old (seen_lent lent.old)) }
        ensures same_texts { (lent.new.own ≡ lent.old.own) × (lent.new.home ≡ lent.old.home) }
        ensures same_reference { lent.new.globals.ghost_name ≡ lent.old.globals.ghost_name }
        ensures part { me.new.part ≡ me.old.part };

    /// How it finishes, by the access that it asked for and its answer, which is one that the access can have.
    fn finish(
        alloc: Global,
        row: u16,
        me: &mut Private,
        lent: &mut Lent<'_>,
        access: &Access,
        answer: &Answer,
    ) -> Result<Outcome, NoMemory>
        requires possible { can_answer access.now answer.now ≡ true }
        ensures finished { (devices : List Device) → IfOk result (λ o. record { me = me.new; globals = globals_lent lent.new; outcome = o } ≡ (ways devices).finish row access.now answer.now me.old (seen_lent lent.old)) }
        ensures same_reference { lent.new.globals.ghost_name ≡ lent.old.globals.ghost_name }
        ensures part { me.new.part ≡ me.old.part };

    /// Whether statements of a row are planned at once where their unit was found in a line of the program: they mostly ask for
    /// nothing there.
    fn is_at_once(row: u16) -> bool
        ensures at_once { result ≡ at_once row };

    /// What `plan` says of such a statement, at its place in a line of the program: how it has ended. Where it asks for an access after
    /// all, nothing has changed, the access goes to the caller, and the outcome says nothing.
    fn plan_at_once(
        alloc: Global,
        me: &mut Private,
        lent: &mut Lent<'_>,
        found: &Found<'_>,
        access: &mut Option<Access>,
    ) -> Result<Outcome, NoMemory>
        requires at_once { at_once found.now.unit.now.row ≡ true }
        requires found { IsFound found.now found.now.home.now.lines me.old }
        requires empty { access.old ≡ None }
        ensures planned { (devices : List Device) → IfOk result (λ o. record { me = me.new; globals = globals_lent lent.new; planned = option_map_or Planned.Ask access.new (Planned.Done o) } ≡ (ways devices).plan found.now.unit.now.row me.old (seen_found found.now (globals_lent lent.old))) }
        ensures same_texts { (lent.new.own ≡ lent.old.own) × (lent.new.home ≡ lent.old.home) }
        ensures same_reference { lent.new.globals.ghost_name ≡ lent.old.globals.ghost_name }
        ensures part { me.new.part ≡ me.old.part };

    /// Does a statement done fast that was found in a line of the program and names no `@` variables: all that it does is done, and where
    /// it leads is told. Where the language can't, or it is for a fault or an access, nothing has changed; nor where memory failed, which the lead then says.
    fn do_fast(me: &mut Private, found: &Found<'_>) -> Lead
        requires found { IsFound found.now found.now.home.now.lines me.old }
        requires local { names_globals (statement_found found.now).tree ≡ false }
        ensures fast { (devices : List Device) → DoneFast (lead_seen result) found.now me.old me.new ((ways devices).plan found.now.unit.now.row me.old (seen_found found.now (unreached None))) }
        ensures built { (devices : List Device) → is_some (lead_seen result) ≡ true → (ways devices).built found.now.unit.now.row ≡ true }
        ensures undisturbed { ChangesFast me.old me.new }
        ensures part { me.new.part ≡ me.old.part };

    /// What `plan` says of any statement that was found so; where the language has no shorter way it is looked up again.
    fn plan_found(
        alloc: Global,
        me: &mut Private,
        lent: &mut Lent<'_>,
        devices: &DeviceTable,
        found: &Found<'_>,
    ) -> Result<Planned, NoMemory>
        requires found { IsFound found.now lent.old.home.now.lines me.old }
        ensures planned { IfOk result (λ p. record { me = me.new; globals = globals_lent lent.new; planned = p } ≡ (ways devices.now).plan found.now.unit.now.row me.old (seen_lent lent.old)) }
        ensures same_texts { (lent.new.own ≡ lent.old.own) × (lent.new.home ≡ lent.old.home) }
        ensures same_reference { lent.new.globals.ghost_name ≡ lent.old.globals.ghost_name }
        ensures part { me.new.part ≡ me.old.part }
    {
        Self::plan(alloc, found.unit.row, me, lent, devices)
    }

    /// What is planned at once is built.
    ghost at_once_is_built: { (devices : List Device) (r : ℕ) → at_once r ≡ true → (ways devices).built r ≡ true };

    /// What it owes its machine.
    ghost lawful: { (devices : List Device) → AreLawful (ways devices) };

    /// Its statements ask for devices that the table lists for their partition, and for no others.
    ghost asks_listed: { AskForListed ways };

    /// They plan by what the table lists for their partition, and by nothing else of it.
    ghost goes_by_listed: { GoByListed ways };

    /// They keep the files that are open on platters that the table lists for their partition, at their first sectors or after them.
    ghost keeps_open: { KeepOpenFiles ways };
}
