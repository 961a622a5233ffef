// LIST.
ghost use Rattle.std.specs.Prelude.{◌≡◌, ◌++◌, ◌∷◌, [], true, IfOk, OnOk};
ghost use Rattle.b2_atom.specs.declared.rows.TheConstants as row;
ghost use Rattle.b2_rows.specs.Rows.{is_phrase, tree_at};
ghost use Rattle.b2_lister.specs.Listing.{listing};
ghost use Rattle.b2_machine.specs.Listed as spec;

use b2_atom::LentAtoms;
use b2_base::lexical::rest_after;
use b2_base::{ByteList, NoMemory};
use b2_lister::list;
use b2_rows::named_lines;
use b2_text::Text;
use std::alloc::Global;

/// The first and the last of the lines that LIST names: all, or one alone, where no second one is named.
#[tactic(auto, using(crate::proofs::ListRows::list_lines, crate::proofs::ListRows::list_is))]
pub fn named_range(unit: &[u8]) -> (u16, u16)
    requires phrase { is_phrase row.LIST unit.now ≡ true }
    ensures { result ≡ spec.named_range (tree_at row.LIST unit.now) }
{
    let (from, to) = named_lines(rest_after(unit, 1));
    (from, to.unwrap_or(from))
}

/// Adds a line as it is listed, and a newline.
fn add_line(alloc: Global, n: u16, atoms: &LentAtoms<'_>, out: &mut Vec<u8>) -> Result<(), NoMemory>
    ensures { OnOk result (out.new.items ≡ out.old.items ++ listing n atoms.now ++ 10 ∷ []) }
{
    list(alloc, n, atoms.bytes(), out)?;
    out.push(b'\n')?;
    Ok(())
}

/// The lines of a text from a number to another as they are listed, each ended by a newline.
#[tactic(auto, using(crate::proofs::Listings::nothing_listed))]
pub fn range_listed(alloc: Global, text: &Text, from: u16, to: u16) -> Result<ByteList, NoMemory>
    ensures { IfOk result (λ lines. lines ≡ spec.range_listed (from, to) text.now.lines) }
{
    let mut out = Vec::new(alloc);
    if from > to {
        return Ok(ByteList::new(out));
    }
    let mut left = text.lines(from, to);
    while let Some(line) = left.next() {
        add_line(alloc, line.number, &line.lend(), &mut out)?;
    }
    Ok(ByteList::new(out))
}
