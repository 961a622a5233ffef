// The world: events and runs.
ghost use Rattle.std.specs.Prelude.{◌≡◌, [], IfOk, IfErr, OnOk, length};
ghost use Rattle.b2_audit.specs.Marks.{is_clean};
ghost use Rattle.b2_boot.specs.Quotas.{quota_at};
ghost use Rattle.b2_sched.specs.Start.{CanStart, booted};
ghost use Rattle.b2_sched.specs.World.{does, does_all, turns_from, rounds, happens, ran, GivesTurns, Key, Front, Halt, Reset, Turn};

use crate::basic::Basic;
use crate::start::{
    areas_of, devices_of, fronts_of, platter_addresses, printer_addresses, privates_of, quotas_of,
};
use b2_access::{DeviceTable, Private};
use b2_audit::{Seen, Watched};
use b2_base::{NoMemory, Part, Term};
use b2_boot::{Boot, Event};
use b2_machine::turn;
use b2_platter::Platter;
use b2_store::{Ends, Rows, StoreBoot};
use b2_term::KeyItem;
use std::alloc::Global;
use std::marker::Model;

/// The devices that there are, partitions with their quotas, the store that they share, the marks of what they touch and write there, and counts of turns, counting steps and
/// dropped keys. Contracts see it as one record.
#[derive(Drop)]
pub struct World<S: Ends> {
    alloc: Global,
    quotas: Rows<Part, u16>,
    devices: DeviceTable,
    privates: Rows<Part, Private>,
    stores: S,
    seen: Seen,
    turns: u64,
    steps: u64,
    dropped: u64,
}

impl<S: Ends> Model for World<S> {
    ghost use Rattle.std.specs.Coded.{codes};
    ghost use Rattle.b2_vars.specs.Tables.{coded_vars};
    ghost use Rattle.b2_sched.specs.Presence.{ArePresent};
    ghost use Rattle.b2_sched.specs.World.{WorldState};

    ghost Value = { WorldState };

    ghost coded = { Prim.hlevel (codes, coded_vars) };

    ghost view = { λ w. record { quotas = w.quotas; devices = w.devices; privates = w.privates; store = S.store (S.meaning w.stores); marks = w.seen; turns = w.turns; steps = w.steps; dropped = w.dropped } };

    ghost invariant = { λ w. ArePresent w.privates (S.store (S.meaning w.stores)) w.seen };
}

impl<S: Ends + Drop> World<S> {
    /// The world of a boot and of the images of its platters, in its order: each partition as it starts, empty texts, idle
    /// terminals, printers that printed nothing, devices that nobody holds, and nothing marked or counted.
    pub fn boot(alloc: Global, b: &Boot, platters: Vec<Platter>) -> Result<World<S>, NoMemory>
        requires start { CanStart b.now }
        requires as_many { length b.now.platters ≡ length platters.items }
        ensures started { IfOk result (λ w. w ≡ booted b.now platters.items) }
    {
        let quotas = quotas_of(alloc, &b.partitions, b.quota)?;
        let privates = privates_of(alloc, &b.partitions)?;
        let devices = DeviceTable::new(devices_of(alloc, &b.printers, &b.platters)?);
        let start = StoreBoot {
            partitions: areas_of(alloc, &b.partitions)?,
            terminals: fronts_of(alloc, &b.terminals)?,
            printers: printer_addresses(alloc, &b.printers)?,
            platters: platter_addresses(alloc, &b.platters)?,
        };
        let stores = S::new(alloc, &start, platters)?;
        let seen = Seen::new(alloc);
        Ok(World {
            alloc,
            quotas,
            devices,
            privates,
            stores,
            seen,
            turns: 0,
            steps: 0,
            dropped: 0,
        })
    }

    /// What happens. Where memory fails, no partition is present afterwards, so that none runs on; it fails only in turns.
    pub fn event(&mut self, e: &Event) -> Result<(), NoMemory>
        ensures happened { OnOk result (self.new ≡ happens e.now self.old) }
        ensures ended { IfErr result (λ _. self.new.privates ≡ []) }
        ensures memory { IfErr result (λ _. GivesTurns e.now) }
    {
        match *e {
            Event::Key(t, k) => self.key(t, k),
            Event::Front(t, p) => self.set_front(t, p),
            Event::Halt(p) => self.halt(p),
            Event::Reset(p) => self.reset(p),
            Event::Turn(p, quota) => return self.turn(p, quota),
            Event::Rounds(n) => return self.rounds(n),
        }
        Ok(())
    }

    /// All events of a log, in order. Where memory fails it ends, and no partition is present afterwards.
    pub fn run(&mut self, log: &[Event]) -> Result<(), NoMemory>
        ensures ran { OnOk result (self.new ≡ ran log.now self.old) }
        ensures ended { IfErr result (λ _. self.new.privates ≡ []) }
    {
        for e in log {
            self.event(e)?;
        }
        Ok(())
    }

    /// How many turns there were.
    pub fn turns(&self) -> u64
        ensures value { result ≡ self.now.turns }
    {
        self.turns
    }

    /// How many counting steps there were.
    pub fn steps(&self) -> u64
        ensures value { result ≡ self.now.steps }
    {
        self.steps
    }

    /// How many keys were dropped.
    pub fn dropped(&self) -> u64
        ensures value { result ≡ self.now.dropped }
    {
        self.dropped
    }

    /// Whether a partition is clean: in none of its steps it touched what a step of another had written.
    pub fn clean(&self, p: Part) -> bool
        ensures value { result ≡ is_clean p self.now.marks }
    {
        self.seen.is_clean(p)
    }

    /// The store that the partitions share.
    pub fn stores(&self) -> &S
        ensures value { S.store (S.meaning result.now) ≡ self.now.store }
    {
        &self.stores
    }

    /// Queues a key at a terminal. It is counted where it is dropped.
    fn key(&mut self, t: Term, k: KeyItem)
        ensures { self.new ≡ does (Key t k) self.old }
    {
        if let Some(false) = self.stores.key(t, k) {
            self.dropped = self.dropped.saturating_add(1);
        }
    }

    /// Puts a partition in front of a terminal.
    fn set_front(&mut self, t: Term, p: Part)
        ensures { self.new ≡ does (Front t p) self.old }
    {
        self.stores.set_front(t, p);
    }

    /// Asks a partition for a halt.
    fn halt(&mut self, p: Part)
        ensures { self.new ≡ does (Halt p) self.old }
    {
        let Some(me) = self.privates.get_mut(p) else {
            return;
        };
        me.flag_halt();
    }

    /// Asks a partition for a reset.
    fn reset(&mut self, p: Part)
        ensures { self.new ≡ does (Reset p) self.old }
    {
        let Some(me) = self.privates.get_mut(p) else {
            return;
        };
        me.flag_reset();
    }

    /// A turn of a partition over the store, which is watched meanwhile; an absent one has none.
    #[inline(always)]
    fn turn(&mut self, part: Part, quota: u16) -> Result<(), NoMemory>
        ensures turned { OnOk result (self.new ≡ does (Turn part quota) self.old) }
        ensures ended { IfErr result (λ _. self.new.privates ≡ []) }
    {
        let Some(me) = self.privates.get_mut(part) else {
            return Ok(());
        };
        let mut watched = Watched::new(&mut self.stores, &mut self.seen);
        match turn::<Basic, _>(self.alloc, me, &mut watched, &self.devices, quota) {
            Ok(turned) => {
                self.turns = self.turns.saturating_add(1);
                self.steps = self.steps.saturating_add(u64::from(turned.steps));
                Ok(())
            }
            Err(no_memory) => {
                self.privates = Rows::new(self.alloc);
                Err(no_memory)
            }
        }
    }

    /// A turn of a partition with its quota; an absent one has none.
    #[inline(always)]
    fn turn_in_round(&mut self, part: Part) -> Result<(), NoMemory>
        ensures turned { OnOk result (self.new ≡ does (Turn part (quota_at part self.old.quotas)) self.old) }
        ensures ended { IfErr result (λ _. self.new.privates ≡ []) }
    {
        if self.privates.get(part).is_some() {
            let quota = quota_of(&self.quotas, part);
            self.turn(part, quota)
        } else {
            Ok(())
        }
    }

    /// A turn of each partition, by number.
    fn round(&mut self) -> Result<(), NoMemory>
        ensures turned { OnOk result (self.new ≡ does_all (turns_from self.old.quotas 1 16) self.old) }
        ensures ended { IfErr result (λ _. self.new.privates ≡ []) }
    {
        for n in 1..17u8 {
            self.turn_in_round(Part::known(n))?;
        }
        Ok(())
    }

    /// Some rounds.
    fn rounds(&mut self, n: u32) -> Result<(), NoMemory>
        ensures turned { OnOk result (self.new ≡ does_all (rounds self.old.quotas n) self.old) }
        ensures ended { IfErr result (λ _. self.new.privates ≡ []) }
    {
        for _ in 0..n {
            self.round()?;
        }
        Ok(())
    }
}

/// The quota of a partition in a round, and 1 where it isn't listed.
#[inline(always)]
fn quota_of(quotas: &Rows<Part, u16>, part: Part) -> u16
    ensures { result ≡ quota_at part quotas.now }
{
    match quotas.get(part) {
        Some(quota) => *quota,
        None => 1,
    }
}
