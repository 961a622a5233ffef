// The marks of loans, and of accesses: by what they reach, and by what they write of that.
ghost use Rattle.std.specs.Prelude.{◌≡◌, ◌++◌, ◌||◌, map, is_some, true, OnOk, IfErr};
ghost use Rattle.b2_access.specs.AccessRows.{holder_entered, reach, row};
ghost use Rattle.b2_access.specs.Borrowers.{homes_marked};
ghost use Rattle.b2_access.specs.Holding.{devices_changed};
ghost use Rattle.b2_access.specs.Loans.{globals_objects, lender_at, loan_touched, name_objects};
ghost use Rattle.b2_access.specs.Reach.{DevicePart, borrow_where, borrows, device_objects, entered_objects, if_any, if_left, objects_held, part_objects, terminal_objects, text_objects, variable_objects, where_written};
ghost use Rattle.b2_access.specs.Touching.{touched, written_by as objects_by_answer};
ghost use Rattle.b2_audit.specs.Marks.{object_index, touch_all, write_all};
ghost use Rattle.b2_audit.specs.Watching.{GrowsMarks, lent_objects};

use crate::seen::Seen;
use b2_access::{
    Access, Answer, At, Devices, DevicesWritten, Object, Shared, TextUse, all_parts,
    devices_reached, devices_written, is_marked, reached_by, written_by,
};
use b2_base::{Addr, Name8, NoMemory, Part, Term};

/// Whose `@` variables a store lends, None where nobody's.
fn lender<S: Shared>(store: &S, home: Part, at: &At) -> Option<Part>
    ensures { result ≡ lender_at home at.now (S.store (S.meaning store.now)) }
{
    match at {
        At::None => None,
        At::Home => Some(home),
        At::Named(name) => store.holder(*name),
    }
}

/// Marks that a name is touched by which `@` variables are asked for, where they are by one.
fn touch_asked(seen: &mut Seen, who: Part, at: &At)
    ensures { seen.new ≡ touch_all who (name_objects at.now) seen.old }
{
    if let At::Named(name) = at {
        seen.touch(who, Object::Name(*name));
    }
}

/// Marks that the `@` variables of a partition are touched, where there is one.
fn touch_lent(seen: &mut Seen, who: Part, lender: Option<Part>)
    ensures { seen.new ≡ touch_all who (globals_objects lender) seen.old }
{
    if let Some(p) = lender {
        seen.touch(who, Object::Globals(p));
    }
}

/// Marks what a loan of a store touches: the own text, that of the home, the `@` variables that are asked for, and the name by which they
/// are, whoever holds it.
#[tactic(auto, using(crate::proofs::InParts::lent_in_parts))]
pub(crate) fn mark_lent<S: Shared>(seen: &mut Seen, store: &S, who: Part, home: Part, at: &At)
    ensures { seen.new ≡ touch_all who (loan_touched who home at.now (S.store (S.meaning store.now))) seen.old }
{
    seen.touch_text(who, who);
    seen.touch_text(who, home);
    touch_asked(seen, who, at);
    touch_lent(seen, who, lender(store, home, at));
}

/// Marks that the `@` variables of a partition are written, where there is one. It takes no memory.
fn write_lent(seen: &mut Seen, who: Part, lender: Option<Part>)
    ensures { seen.new ≡ write_all who (globals_objects lender) seen.old }
{
    if let Some(p) = lender {
        match seen.write(who, Object::Globals(p)) {
            Ok(()) => {}
            Err(NoMemory) => unreachable!(),
        }
    }
}

/// Marks that the `@` variables that a store lends are written.
pub(crate) fn mark_reached<S: Shared>(seen: &mut Seen, store: &S, who: Part, home: Part, at: &At)
    ensures { seen.new ≡ write_all who (lent_objects home at.now (S.store (S.meaning store.now))) seen.old }
{
    write_lent(seen, who, lender(store, home, at));
}

/// Marks that a terminal is touched, where one is reached.
fn touch_terminal(seen: &mut Seen, who: Part, terminal: Option<Term>)
    ensures { seen.new ≡ touch_all who (terminal_objects terminal) seen.old }
{
    if let Some(term) = terminal {
        seen.touch(who, Object::Terminal(term));
    }
}

/// Marks that the own text is touched, as it is used.
fn touch_text(seen: &mut Seen, who: Part, text: TextUse)
    ensures { seen.new ≡ touch_all who (text_objects who text) seen.old }
{
    match text {
        TextUse::Unused => {}
        TextUse::Read => seen.touch(who, Object::Text(who)),
        TextUse::Edited => {
            seen.touch(who, Object::Borrow(who));
            seen.touch(who, Object::Text(who));
        }
    }
}

/// Marks that the own `@` variables are touched, where they are reached.
fn touch_variables(seen: &mut Seen, who: Part, variables: bool)
    ensures { seen.new ≡ touch_all who (variable_objects who variables) seen.old }
{
    if variables {
        seen.touch(who, Object::Globals(who));
    }
}

/// Marks that a platter is touched, and who holds it.
fn touch_disk(seen: &mut Seen, who: Part, addr: Addr)
    ensures { seen.new ≡ touch_all who (part_objects addr DevicePart.WithPlatter) seen.old }
{
    seen.touch(who, Object::Hog(addr));
    seen.touch(who, Object::Platter(addr));
}

/// Marks that a printer is touched, and who holds it.
fn touch_printer(seen: &mut Seen, who: Part, addr: Addr)
    ensures { seen.new ≡ touch_all who (part_objects addr DevicePart.WithPrinter) seen.old }
{
    seen.touch(who, Object::Hog(addr));
    seen.touch(who, Object::Printer(addr));
}

/// Marks that it is touched who holds each of some devices.
fn touch_holders(seen: &mut Seen, who: Part, addresses: &[Addr])
    ensures { seen.new ≡ touch_all who (objects_held addresses.now) seen.old }
{
    for addr in addresses {
        seen.touch(who, Object::Hog(*addr));
    }
}

/// Marks the devices that an access reaches.
#[tactic(auto, using(crate::proofs::InParts::taken_are_held, crate::proofs::InParts::freed_are_held))]
#[inline(always)]
fn touch_devices(seen: &mut Seen, who: Part, access: &Access)
    ensures { seen.new ≡ touch_all who (device_objects (reach access.now).devices) seen.old }
{
    match devices_reached(access) {
        Devices::NoDevice => {}
        Devices::Disk(addr) => touch_disk(seen, who, addr),
        Devices::TwoDisks(from, to) => {
            touch_disk(seen, who, from);
            touch_disk(seen, who, to);
        }
        Devices::Printer(addr) => touch_printer(seen, who, addr),
        Devices::Taken(addresses) | Devices::Freed(addresses) => {
            touch_holders(seen, who, addresses);
        }
    }
}

/// Marks that names are touched.
#[inline(always)]
fn touch_names(seen: &mut Seen, who: Part, name: Option<Name8>, other: Option<Name8>)
    ensures { seen.new ≡ touch_all who (map Object.Name (if_any name ++ if_any other)) seen.old }
{
    if let Some(name) = name {
        seen.touch(who, Object::Name(name));
    }
    if let Some(name) = other {
        seen.touch(who, Object::Name(name));
    }
}

/// Marks that it is touched who stands inside the texts that a mask marks.
#[tactic(auto, using(crate::proofs::InParts::none_marked))]
fn touch_homes(seen: &mut Seen, who: Part, homes: u16)
    ensures { seen.new ≡ touch_all who (borrows (homes_marked homes)) seen.old }
{
    if homes == 0 {
        return;
    }
    for home in &all_parts() {
        if is_marked(homes, *home) {
            seen.touch(who, Object::Borrow(*home));
        }
    }
}

/// Marks that it is touched who stands inside a text that is left, where one is, and inside those that are given back.
#[tactic(auto, using(crate::proofs::InParts::borrows_in_parts))]
fn touch_borrowers(seen: &mut Seen, who: Part, left: Option<Part>, homes: u16)
    ensures { seen.new ≡ touch_all who (borrows (if_left left ++ homes_marked homes)) seen.old }
{
    if let Some(home) = left {
        seen.touch(who, Object::Borrow(home));
    }
    touch_homes(seen, who, homes);
}

/// Marks that a name by which a text is entered is touched, where one is, with the text of who holds it and who stands inside that.
fn touch_entered<S: Shared>(seen: &mut Seen, store: &S, who: Part, entered: Option<Name8>)
    ensures { seen.new ≡ touch_all who (entered_objects entered (holder_entered entered (S.store (S.meaning store.now)))) seen.old }
{
    let Some(name) = entered else {
        return;
    };
    seen.touch(who, Object::Name(name));
    if let Some(holder) = store.holder(name) {
        seen.touch_text(who, holder);
        seen.touch(who, Object::Borrow(holder));
    }
}

/// Marks what an access of a store touches, whatever it will be answered: all that it reaches.
#[tactic(auto, using(crate::proofs::InParts::touched_in_parts))]
pub(crate) fn mark_touched<S: Shared>(seen: &mut Seen, store: &S, who: Part, access: &Access)
    ensures { seen.new ≡ touch_all who (touched (S.store (S.meaning store.now)) who access.now) seen.old }
{
    let reached = reached_by(access);
    touch_terminal(seen, who, reached.terminal);
    touch_text(seen, who, reached.text);
    touch_variables(seen, who, reached.variables);
    touch_borrowers(seen, who, reached.left, reached.homes);
    touch_devices(seen, who, access);
    touch_entered(seen, store, who, reached.entered);
    touch_names(seen, who, reached.name, reached.old_name);
}

/// Marks that a terminal is written, where one is.
fn write_terminal(seen: &mut Seen, who: Part, terminal: Option<Term>) -> Result<(), NoMemory>
    ensures written { OnOk result (seen.new ≡ write_all who (terminal_objects terminal) seen.old) }
    ensures memory { IfErr result (λ _. ⊥) }
{
    match terminal {
        Some(term) => seen.write(who, Object::Terminal(term)),
        None => Ok(()),
    }
}

/// Marks that an object is written, where it is. Memory fails only for a name or a device.
fn write_where(seen: &mut Seen, who: Part, object: Object, written: bool) -> Result<(), NoMemory>
    ensures written { OnOk result (seen.new ≡ write_all who (where_written written object) seen.old) }
    ensures memory { IfErr result (λ _. object_index object ≡ None) }
{
    if written {
        seen.write(who, object)
    } else {
        Ok(())
    }
}

/// Marks that it is written who stands inside the texts that a mask marks.
#[tactic(auto, using(crate::proofs::InParts::none_marked))]
fn write_homes(seen: &mut Seen, who: Part, homes: u16) -> Result<(), NoMemory>
    ensures written { OnOk result (seen.new ≡ write_all who (borrows (homes_marked homes)) seen.old) }
    ensures memory { IfErr result (λ _. ⊥) }
{
    if homes == 0 {
        return Ok(());
    }
    for home in &all_parts() {
        write_where(seen, who, Object::Borrow(*home), is_marked(homes, *home))?;
    }
    Ok(())
}

/// Marks that it is written who stands inside a text that is left, where one is, and inside those that are given back.
#[tactic(auto, using(crate::proofs::InParts::borrows_in_parts_written))]
fn write_borrowers(
    seen: &mut Seen,
    who: Part,
    left: Option<Part>,
    homes: u16,
) -> Result<(), NoMemory>
    ensures written { OnOk result (seen.new ≡ write_all who (borrows (if_left left ++ homes_marked homes)) seen.old) }
    ensures memory { IfErr result (λ _. ⊥) }
{
    if let Some(home) = left {
        seen.write(who, Object::Borrow(home))?;
    }
    write_homes(seen, who, homes)
}

/// Marks that it is written who stands inside the text that was entered, where one was.
fn write_entered(
    seen: &mut Seen,
    who: Part,
    enters: bool,
    home: Option<Part>,
) -> Result<(), NoMemory>
    ensures written { OnOk result (seen.new ≡ write_all who (borrow_where enters home) seen.old) }
    ensures memory { IfErr result (λ _. ⊥) }
{
    match home {
        Some(home) => write_where(seen, who, Object::Borrow(home), enters),
        None => Ok(()),
    }
}

/// Marks that names are written. Memory fails only where there is one.
#[inline(always)]
fn write_names(
    seen: &mut Seen,
    who: Part,
    name: Option<Name8>,
    other: Option<Name8>,
) -> Result<(), NoMemory>
    ensures written { OnOk result (seen.new ≡ write_all who (map Object.Name (if_any name ++ if_any other)) seen.old) }
    ensures memory { IfErr result (λ _. (is_some name || is_some other) ≡ true) }
{
    if let Some(name) = name {
        seen.write(who, Object::Name(name))?;
    }
    if let Some(name) = other {
        seen.write(who, Object::Name(name))?;
    }
    Ok(())
}

/// Marks that it is written who holds each of some devices.
fn write_holders(seen: &mut Seen, who: Part, addresses: &[Addr]) -> Result<(), NoMemory>
    ensures { OnOk result (seen.new ≡ write_all who (objects_held addresses.now) seen.old) }
{
    for addr in addresses {
        seen.write(who, Object::Hog(*addr))?;
    }
    Ok(())
}

/// Marks the devices that an access writes. Memory fails only there.
#[inline(always)]
fn write_devices(seen: &mut Seen, who: Part, access: &Access) -> Result<(), NoMemory>
    ensures written { OnOk result (seen.new ≡ write_all who (devices_changed access.now) seen.old) }
    ensures memory { IfErr result (λ _. GrowsMarks access.now) }
{
    match devices_written(access) {
        DevicesWritten::NoDevice => Ok(()),
        DevicesWritten::Platter(addr) => seen.write(who, Object::Platter(addr)),
        DevicesWritten::Printer(addr) => seen.write(who, Object::Printer(addr)),
        DevicesWritten::Holders(addresses) => write_holders(seen, who, addresses),
    }
}

/// Marks what an access writes where nothing stops it. Memory fails only where it may write a device or a name.
#[tactic(auto, using(crate::proofs::InParts::written_in_parts))]
#[inline(always)]
fn mark_each_written(
    seen: &mut Seen,
    who: Part,
    access: &Access,
    entered: Option<Part>,
) -> Result<(), NoMemory>
    ensures written { OnOk result (seen.new ≡ write_all who ((row access.now).writes who entered) seen.old) }
    ensures memory { IfErr result (λ _. GrowsMarks access.now) }
{
    let written = written_by(access);
    write_terminal(seen, who, written.terminal)?;
    write_where(seen, who, Object::Text(who), written.text)?;
    write_where(seen, who, Object::Globals(who), written.variables)?;
    write_borrowers(seen, who, written.left, written.homes)?;
    write_names(seen, who, written.name, written.old_name)?;
    write_entered(seen, who, written.enters, entered)?;
    write_devices(seen, who, access)
}

/// Marks what an access wrote, by its answer. Memory fails only where it may write a device or a name.
#[inline(always)]
pub(crate) fn mark_written(
    seen: &mut Seen,
    who: Part,
    access: &Access,
    answer: &Answer,
) -> Result<(), NoMemory>
    ensures written { OnOk result (seen.new ≡ write_all who (objects_by_answer answer.now who access.now) seen.old) }
    ensures memory { IfErr result (λ _. GrowsMarks access.now) }
{
    if answer.stops() {
        return Ok(());
    }
    mark_each_written(seen, who, access, answer.entered_in())
}
