// A program is saved.
ghost use Rattle.std.specs.Prelude.{◌≡◌, ◌+◌, ◌-◌, ◌*◌, ◌^◌, ◌<◌, ◌≤◌, ℕ, not, true, Some, None, Ok, is_some, IfSome, IfOk, IfErr, OnOk, OnErr, length};
ghost use Rattle.std.specs.Str.{bytes_eq};
ghost use Rattle.std.specs.FinMap.{get, insert};
ghost use Rattle.b2_base.specs.declared.codes.TheConstants.{D86_NO_ROOM};
ghost use Rattle.b2_platter.specs.Layout.{layout_of};
ghost use Rattle.b2_platter.specs.Image.{index_of, sectors_at};
ghost use Rattle.b2_platter.specs.Checks.{IsGood};
ghost use Rattle.b2_platter.specs.Edits.{is_data_sector, put_from};
ghost use Rattle.b2_catalog.specs.Catalogue.{catalogue};
ghost use Rattle.b2_catalog.specs.Calls.{reuse_refusal};
ghost use Rattle.b2_catalog.specs.Ways.{place};
ghost use Rattle.b2_progfile.specs.Programs.{IsProgramFile};
ghost use Rattle.b2_catalog.specs.Making.{KeepsOthers, MakesFile, files_without};
ghost use Rattle.b2_progfile.specs.Saving.{SaveFails, Saved, file_filled, lines_within, or_then, pieces_count, text_sectors, program_saved, program_sectors, save_refusal, size_refusal};
ghost use Rattle.b2_catalog.specs.Results.{FailsBy};

use crate::spelling::{piece_at, pieces_count, program_of};
use b2_base::codes::{
    D82_NO_FILE, D83_NAME_PRESENT, D84_NOT_SCRATCHED, D85_INDEX_FULL, D86_NO_ROOM,
};
use b2_base::{Code, Fault, Name8};
use b2_catalog::{Entry, look, make_file, set_used};
use b2_platter::{Platter, checks, image};
use b2_text::Text;
use std::alloc::Global;

/// The most bytes of a program that are counted: more than all lines together can have.
const MOST_BYTES: usize = 16_777_216;

/// Whether two names differ.
fn differ(old: Name8, name: Name8) -> bool
    ensures { result ≡ not (bytes_eq old name) }
{
    old != name
}

/// Whether there is a free slot for a name.
fn has_place(p: &Platter, name: Name8) -> bool
    ensures { result ≡ is_some (place p.now name) }
{
    let bytes = p.image();
    has_slot(bytes, &name.bytes())
}

/// Whether an index has a free slot for a name.
fn has_slot(bytes: &[u8], name: &[u8]) -> bool
    requires some { 1 ≤ index_of bytes.now }
    requires room { 256 * index_of bytes.now ≤ length bytes.now }
    requires len { length name.now ≡ 8 }
    ensures { result ≡ is_some (place bytes.now name.now) }
{
    let index = image::index(bytes);
    let first = checks::hash(index, name);
    for j in 0..index {
        if checks::has_free(bytes, (first + j) % index) {
            return true;
        }
    }
    false
}

/// Whether the file of a name is too small for some sectors.
fn is_small(p: &Platter, old: Name8, count: u32) -> bool
    ensures value { result ≡ is_some (size_refusal (get (catalogue p.now) old) count) }
{
    let _image = p.image();
    match look(p, old) {
        None => false,
        Some(e) => e.end - e.start < count,
    }
}

/// Why a file that is too small isn't taken again: as it is refused by itself, or else D86.
fn small_code(p: &Platter, old: Name8, name: Name8) -> Code
    ensures { or_then (reuse_refusal p.now old name) (Some D86_NO_ROOM) ≡ Some result }
{
    let other = differ(old, name);
    if other && look(p, name).is_some() {
        return Code::known(D83_NAME_PRESENT);
    }
    let Some(e) = look(p, old) else {
        return Code::known(D82_NO_FILE);
    };
    if e.live {
        return Code::known(D84_NOT_SCRATCHED);
    }
    if other && !has_place(p, name) {
        return Code::known(D85_INDEX_FULL);
    }
    Code::known(D86_NO_ROOM)
}

/// Makes a file for some sectors: a new one, or a scratched one that is taken again.
fn make_program_file(
    p: &mut Platter,
    old: Option<Name8>,
    name: Name8,
    count: u32,
) -> Result<Entry, Code>
    requires some { 1 ≤ count }
    requires few { count ≤ 16777216 }
    ensures err { IfErr result (λ code. (save_refusal p.old old name count ≡ Some code) × (p.new ≡ p.old)) }
    ensures ok { OnOk result (save_refusal p.old old name count ≡ None) }
    ensures made { IfOk result (MakesFile p.old old name true (count + 1) p.new) }
    ensures file { IfOk result (λ e. get (catalogue p.new) e.name ≡ Some e) }
    ensures named { IfOk result (λ e. e.name ≡ name) }
    ensures live { IfOk result (λ e. e.live ≡ true) }
    ensures kind { IfOk result (λ e. e.program ≡ true) }
    ensures room { IfOk result (λ e. e.start + count ≤ e.end) }
    ensures files { IfOk result (λ e. catalogue p.new ≡ insert (files_without p.old old) name e) }
    ensures index { OnOk result (index_of p.new ≡ index_of p.old) }
    ensures others { IfOk result (λ e. KeepsOthers p.old p.new e) }
{
    match old {
        None => make_file(p, None, name, true, count + 1),
        Some(old) => {
            if is_small(p, old, count) {
                return Err(small_code(p, old, name));
            }
            make_file(p, Some(old), name, true, count + 1)
        }
    }
}

/// Writes the sectors that hold some bytes.
fn put_pieces(p: &mut Platter, at: u32, bytes: &[u8], count: u32)
    requires count { count ≡ pieces_count bytes.now }
    requires ends { at + count < 2 ^ 32 }
    requires good { IsGood p.old }
    requires sectors { (n : ℕ) → at ≤ n → n < at + count → is_data_sector (layout_of p.old) p.old n ≡ true }
    ensures { p.new ≡ put_from p.old at (text_sectors bytes.now) }
{
    for k in 0..count {
        p.put_file(at + k, &piece_at(bytes, k as usize));
    }
}

/// Fills a file with the sectors that hold some bytes, and says how many they are.
fn fill_program_file(p: &mut Platter, e: Entry, bytes: &[u8], count: u32)
    requires file { get (catalogue p.old) e.name ≡ Some e }
    requires live { e.live ≡ true }
    requires count { count ≡ pieces_count bytes.now }
    requires some { 1 ≤ count }
    requires room { e.start + count ≤ e.end }
    ensures image { p.new ≡ file_filled p.old e.start e.end (text_sectors bytes.now) }
    ensures files { catalogue p.new ≡ insert (catalogue p.old) e.name (record e { used = count }) }
    ensures there { sectors_at p.new e.start count ≡ text_sectors bytes.now }
    ensures others { KeepsOthers p.old p.new e }
{
    let _image = p.image();
    put_pieces(p, e.start, bytes, count);
    set_used(p, e, count);
}

/// Saves the lines of a text from a number to another as a program file: a new one, or the sectors of a scratched one where
/// an old name is given. The codes are those of `enter` and of `reuse`, and after those of `reuse` D86 where the old file
/// is too small. A fault leaves the platter as it was.
pub fn save(
    alloc: Global,
    p: &mut Platter,
    t: &Text,
    from: u16,
    to: u16,
    old: Option<Name8>,
    name: Name8,
) -> Result<(), Fault>
    ensures value { OnOk result (program_saved p.old old name (lines_within from to t.now.lines) ≡ Ok p.new) }
    ensures fails { IfErr result (FailsBy (program_saved p.old old name (lines_within from to t.now.lines))) }
    ensures ok { OnOk result (save_refusal p.old old name (length (program_sectors (lines_within from to t.now.lines))) ≡ None) }
    ensures image { OnOk result (Saved p.old old name (lines_within from to t.now.lines) p.new) }
    ensures file { OnOk result (IfSome (get (catalogue p.new) name) (λ e. IsProgramFile p.new e (lines_within from to t.now.lines))) }
    ensures there { OnOk result (is_some (get (catalogue p.new) name) ≡ true) }
    ensures files { OnOk result (IfSome (get (catalogue p.new) name) (λ e. catalogue p.new ≡ insert (files_without p.old old) name e)) }
    ensures others { OnOk result (IfSome (get (catalogue p.new) name) (λ e. KeepsOthers p.old p.new e)) }
    ensures err { IfErr result (SaveFails p.old old name (lines_within from to t.now.lines)) }
    ensures kept { OnErr result (p.new ≡ p.old) }
{
    let bytes = program_of(alloc, t, from, to)?;
    if bytes.len() > MOST_BYTES {
        return Err(Fault::NoMemory);
    }
    let count = pieces_count(&bytes);
    match make_program_file(p, old, name, count) {
        Ok(e) => {
            fill_program_file(p, e, &bytes, count);
            Ok(())
        }
        Err(code) => Err(Fault::Code(code)),
    }
}
