// Two platters at once: one is taken out while files are moved to the other, and put back where it was. No image is copied.
ghost use Rattle.std.specs.Prelude.{◌≡◌, false, Ok, IsSome, OnOk, IfErr, OnErr};
ghost use Rattle.std.specs.Map.{lookup};
ghost use Rattle.std.specs.Str.{bytes_eq};
ghost use Rattle.b2_store.specs.FileWork.{moved};
ghost use Rattle.b2_store.specs.TwoRows.{MoveFails, rows_moved};

use crate::rows::{Rows, row_index};
use b2_base::{Addr, Fault, Name8};
use b2_platter::Platter;
use b2_progfile::{move_file, move_platter};
use std::alloc::Global;

/// Moves the file of a name to another platter, or all live files where none is given.
pub fn move_files(
    alloc: Global,
    from: &Platter,
    to: &mut Platter,
    name: Option<Name8>,
) -> Result<(), Fault>
    ensures ok { OnOk result (moved name from.now to.old ≡ Ok to.new) }
    ensures fails { IfErr result (MoveFails name (moved name from.now to.old)) }
    ensures kept { OnErr result (to.new ≡ to.old) }
{
    let Some(name) = name else {
        return move_platter(alloc, from, to);
    };
    match move_file(from, name, to) {
        Ok(()) => Ok(()),
        Err(code) => Err(Fault::Code(code)),
    }
}

/// Moves the file of a name from the platter of one row to that of another, or all live files.
fn move_between_rows(
    alloc: Global,
    rows: &mut Vec<(Addr, Platter)>,
    from: Addr,
    to: Addr,
    name: Option<Name8>,
) -> Result<(), Fault>
    requires from { IsSome (lookup (λ k. bytes_eq k from) rows.old.items) }
    requires to { IsSome (lookup (λ k. bytes_eq k to) rows.old.items) }
    requires apart { bytes_eq from to ≡ false }
    ensures ok { OnOk result (rows_moved name from to rows.old.items ≡ Ok rows.new.items) }
    ensures fails { IfErr result (MoveFails name (rows_moved name from to rows.old.items)) }
    ensures kept { OnErr result (rows.new.items ≡ rows.old.items) }
{
    let i = row_index(rows, from).unwrap();
    let taken = rows.remove(i);
    let j = row_index(rows, to).unwrap();
    let other = &mut rows[j];
    let result = move_files(alloc, &taken.1, &mut other.1, name);
    rows.insert(i, taken).unwrap();
    result
}

impl Rows<Addr, Platter> {
    /// Moves the file of a name from the platter of one address to that of another, or all live files where no name is given.
    pub fn move_between(
        &mut self,
        alloc: Global,
        from: Addr,
        to: Addr,
        name: Option<Name8>,
    ) -> Result<(), Fault>
        requires from { IsSome (lookup (λ k. bytes_eq k from) self.old) }
        requires to { IsSome (lookup (λ k. bytes_eq k to) self.old) }
        requires apart { bytes_eq from to ≡ false }
        ensures ok { OnOk result (rows_moved name from to self.old ≡ Ok self.new) }
        ensures fails { IfErr result (MoveFails name (rows_moved name from to self.old)) }
        ensures kept { OnErr result (self.new ≡ self.old) }
    {
        move_between_rows(alloc, &mut self.rows, from, to, name)
    }
}
