// The `@` variables of partitions, with spare ones that are lent where none are found.
ghost use Rattle.std.specs.Prelude.{◌≡◌, Some, IfOk, IsSome, is_some};
ghost use Rattle.std.specs.Borrow.{sem};
ghost use Rattle.b2_store.specs.Spares.{LendsSpared, index_held, row_held};

use crate::rows::{Rows, row_index};
use b2_base::{NoMemory, Part};
use b2_vars::Vars;
use std::marker::Model;

/// The `@` variables of partitions in rows, and spare ones in a row after these, which belong to no partition. Contracts see the list of
/// the rows before the spare.
#[derive(Drop)]
pub struct Spared {
    rows: Vec<(Part, Vars)>,
}

impl Model for Spared {
    ghost use Rattle.std.specs.Prelude.{ℕ, List, ◌-◌, ◌<◌, length, take};
    ghost use Rattle.std.specs.Coded.{codes};
    ghost use Rattle.b2_vars.specs.Tables.{VarsState};
    ghost use Rattle.b2_vars.specs.contracts.vars.Vars as vars;

    ghost Value = { List (ℕ × VarsState) };

    ghost coded = { Prim.hlevel (codes, vars.the_row.coded) };

    ghost view = { λ s. take (length s.rows.items - 1) s.rows.items };

    ghost invariant = { λ s. 0 < length s.rows.items };
}

impl Spared {
    /// Rows, and a spare.
    pub fn new(rows: Rows<Part, Vars>, spare: Vars) -> Result<Spared, NoMemory>
        ensures { IfOk result (λ s. s ≡ rows) }
    {
        let mut all = rows.rows;
        all.push((Part::known(1), spare))?;
        Ok(Spared { rows: all })
    }

    /// The index of the row of a partition, None where no row is its, and where none is given.
    fn index_of(&self, p: &Option<Part>) -> Option<usize>
        ensures { result ≡ index_held p.now self.now }
    {
        let last = self.rows.len() - 1;
        match p {
            Some(p) => row_index(&self.rows[..last], *p),
            None => None,
        }
    }

    /// Whether a partition that is given has a row.
    #[tactic(auto, using(crate::proofs::Spares::has_row))]
    pub fn has(&self, p: &Option<Part>) -> bool
        ensures { result ≡ is_some (row_held p.now self.now) }
    {
        self.index_of(p).is_some()
    }

    /// The variables of a partition that is given, to be read and changed; the spare where it has no row, and where none is given.
    pub fn lend(&mut self, p: &Option<Part>) -> &mut Vars
        ensures* writes_back { sem 𝓛 (LendsSpared self.entry p.now result) }
        ensures there { IsSome (row_held p.now self.old) → Some result.now ≡ row_held p.now self.old }
    {
        let index = match self.index_of(p) {
            Some(index) => index,
            None => self.rows.len() - 1,
        };
        let row = &mut self.rows[index];
        &mut row.1
    }
}
