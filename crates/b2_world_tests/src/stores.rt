// A store that is watched, and the accesses of partitions. Partitions 1, 2, 3 and 16 have texts of 64 bytes; 1, 2 and 16 are in
// front of the terminals 1, 2 and 12, of which the first goes round to 1, 3 and 2. Two platters of 64 sectors stand at D10 and D20; D20 has a file DATA of 4 sectors. A printer stands
// at 215.
//
// `store | CALL | ..`: what the calls answer one after another. Accesses begin with the number of the partition that asks, as
// `accesses.rt` names them. Others are `press TERMINAL BYTES` and `special TERMINAL N` for keys, `front TERMINAL PARTITION`, `shown
// TERMINAL` for its transcript, `printed ADDRESS` for what a printer printed, `platter ADDRESS PLACE COUNT` for the sectors of a
// platter and bytes of it in hexadecimal digits, and `clean` for the partitions that are not. `at once 1 limits ..` and the like are
// accesses over the store without its watch, which want no memory.
// `image | IMAGE | CALL | ..`: the same, where D20 has the image that is spelled.
// Each row is answered over a store in rows and over one in two lists (`main.rt`).
ghost use Rattle.std.specs.Prelude.{◌≡◌, ◌≤◌, IfOk, IfErr, length, true};
ghost use Rattle.std.specs.List.{list_all};
ghost use Rattle.b2_access.specs.declared.accesses.Access.{Access as AccessSpec};
ghost use Rattle.b2_access.specs.Touching.{IsLegal, MayWantMemory};
ghost use Rattle.b2_store.specs.Start.{has_order};
ghost use Rattle.b2_term.specs.Orders.{is_order};

use crate::accesses::access_of;
use crate::images::platter_spelled;
use crate::pieces::{show_count, show_named, word};
use b2_access::{Access, Answer, Shared};
use b2_audit::{Seen, Watched};
use b2_base::lexical::{first_bytes, rest_after};
use b2_base::{Addr, Name8, NoMemory, Part, Term};
use b2_cases::{Sheet, small_of, str_of, whole_of};
use b2_catalog::enter;
use b2_dec::{Value, whole};
use b2_platter::Platter;
use b2_store::{Ends, StoreBoot};
use b2_term::{KeyItem, PartList, is_order};
use std::alloc::Global;

/// The area of each text and of each partition's `@` variables.
const AREA: usize = 64;

/// A platter with a file.
fn with_file(alloc: Global) -> Result<Platter, NoMemory> {
    let mut platter = Platter::blank(alloc, 64, 1)?;
    let _entered = enter(&mut platter, Name8::of(b"DATA").unwrap(), false, 4);
    Ok(platter)
}

/// These partitions as an order, and the first alone where they are none.
fn ordered(parts: &[Part]) -> PartList
    requires { length parts.now ≤ 16 }
    ensures { is_order result ≡ true }
{
    if is_order(parts) {
        PartList::of(parts)
    } else {
        PartList::of(&[Part::known(1)])
    }
}

/// The terminals: the first goes round to 1, 3 and 2, and the others stay with who is in front of them.
fn terminals_of(alloc: Global) -> Result<Vec<(Term, Part, PartList)>, NoMemory>
    ensures { IfOk result (λ terminals. list_all has_order terminals.items ≡ true) }
{
    let three = ordered(&[Part::known(1), Part::known(3), Part::known(2)]);
    let mut terminals = Vec::new(alloc);
    terminals.push((Term::known(1), Part::known(1), three))?;
    terminals.push((Term::known(2), Part::known(2), ordered(&[Part::known(2)])))?;
    terminals.push((
        Term::known(12),
        Part::known(16),
        ordered(&[Part::known(16)]),
    ))?;
    Ok(terminals)
}

/// What the store starts with, but for its platters.
fn start_of(alloc: Global) -> Result<StoreBoot, NoMemory>
    ensures two { IfOk result (λ b. length b.platters.items ≡ 2) }
    ensures orders { IfOk result (λ b. list_all has_order b.terminals.items ≡ true) }
{
    Ok(StoreBoot {
        partitions: Vec::from_slice(
            alloc,
            &[
                (Part::known(1), AREA, AREA),
                (Part::known(2), AREA, AREA),
                (Part::known(3), AREA, AREA),
                (Part::known(16), AREA, AREA),
            ],
        )?,
        terminals: terminals_of(alloc)?,
        printers: Vec::from_slice(alloc, &[Addr::of(b"215").unwrap()])?,
        platters: Vec::from_slice(
            alloc,
            &[Addr::of(b"D10").unwrap(), Addr::of(b"D20").unwrap()],
        )?,
    })
}

/// A blank platter, and another one.
fn two_platters(alloc: Global, platter: Platter) -> Result<Vec<Platter>, NoMemory>
    ensures two { IfOk result (λ platters. length platters.items ≡ 2) }
{
    let mut platters = Vec::new(alloc);
    platters.push(Platter::blank(alloc, 64, 1)?)?;
    platters.push(platter)?;
    Ok(platters)
}

/// The store as it starts, with a platter at D20.
fn four_partitions<S: Ends>(alloc: Global, platter: Platter) -> Result<S, NoMemory> {
    let platters = two_platters(alloc, platter)?;
    let start = start_of(alloc)?;
    S::new(alloc, &start, platters)
}

/// Shows a word, and a partition's number.
fn show_part(sheet: &mut Sheet<'_>, name: &str, part: Part) {
    show_count(sheet, name, u64::from(part.number()));
}

/// Shows numbers with blanks between them.
fn show_numbers(sheet: &mut Sheet<'_>, numbers: &[i64]) {
    for number in numbers {
        sheet.show(" ");
        sheet.show_signed(*number);
    }
}

/// Shows values, each with a blank before it.
fn show_values(sheet: &mut Sheet<'_>, values: &[Value]) {
    for value in values {
        sheet.show(" ");
        match value {
            Value::Number(number) => match whole(*number) {
                Some(number) => sheet.show_signed(number),
                None => sheet.show("no whole number"),
            },
            Value::Alpha(bytes) => sheet.show_bytes(bytes.bytes()),
        }
    }
}

/// Shows how many bytes there are, and those up to the last that isn't 00.
fn show_block(sheet: &mut Sheet<'_>, bytes: &[u8]) {
    sheet.show_number(bytes.len() as u64);
    sheet.show(" bytes ");
    let mut used = 0;
    for (place, byte) in bytes.iter().enumerate() {
        if *byte != 0 {
            used = place + 1;
        }
    }
    show_each(sheet, first_bytes(bytes, used));
}

/// Shows each byte in hexadecimal digits.
fn show_each(sheet: &mut Sheet<'_>, bytes: &[u8]) {
    for byte in bytes {
        sheet.show_hex(*byte);
    }
}

/// Shows the values of a record, and the place after it.
fn show_record(sheet: &mut Sheet<'_>, values: &[Value], place: u32) {
    sheet.show("values");
    show_values(sheet, values);
    show_count(sheet, " then ", u64::from(place));
}

/// Shows an answer.
pub fn show_answer(sheet: &mut Sheet<'_>, answer: &Answer) {
    match answer {
        Answer::Done => sheet.show("done"),
        Answer::Line(line) => show_named(sheet, "line", line.bytes()),
        Answer::Special(n) => show_count(sheet, "special ", u64::from(*n)),
        Answer::Key(byte) => show_named(sheet, "key", &[*byte]),
        Answer::NoKeys => sheet.show("no keys"),
        Answer::Four(start, end, used, kind) => {
            sheet.show("four");
            show_numbers(
                sheet,
                &[
                    i64::from(*start),
                    i64::from(*end),
                    i64::from(*used),
                    i64::from(*kind),
                ],
            );
        }
        Answer::Bytes(bytes) => show_named(sheet, "bytes", bytes.bytes()),
        Answer::Block(bytes) => show_block(sheet, bytes.bytes()),
        Answer::Moved(place) => show_count(sheet, "moved ", u64::from(*place)),
        Answer::Values(values, place) => show_record(sheet, values.values(), *place),
        Answer::AtEnd => sheet.show("at end"),
        Answer::Holder(part) => show_part(sheet, "held by ", *part),
        Answer::NoPart => sheet.show("held by nobody"),
        Answer::Entered(part, spot) => {
            show_part(sheet, "entered ", *part);
            sheet.show(" at");
            show_numbers(sheet, &[i64::from(spot.line), i64::from(spot.unit)]);
        }
        Answer::Wait(part) => show_part(sheet, "wait for ", *part),
        Answer::Locked(part) => show_part(sheet, "locked by ", *part),
        Answer::Refused(code) => sheet.show_code(*code),
        _ => sheet.show("another answer"),
    }
}

/// Asks a store of any kind.
fn asked<S: Shared>(stores: &mut S, who: Part, access: &Access) -> Result<Answer, NoMemory>
    requires legal { IsLegal access.now }
    ensures same { S.holds stores.new ≡ S.holds stores.old }
    ensures memory { IfErr result (λ _. S.wants access.now) }
{
    stores.serve(who, access)
}

/// Makes an access over the watched store, and shows its answer.
fn ask<S: Ends>(sheet: &mut Sheet<'_>, stores: &mut S, seen: &mut Seen, who: Part, access: &Access)
    requires legal { IsLegal access.now }
{
    let mut watched = Watched::new(stores, seen);
    match asked(&mut watched, who, access) {
        Ok(answer) => show_answer(sheet, &answer),
        Err(NoMemory) => sheet.no_memory(),
    }
}

/// The same for an access that is spelled.
fn ask_spelled<S: Ends>(
    sheet: &mut Sheet<'_>,
    stores: &mut S,
    seen: &mut Seen,
    who: &[u8],
    spelled: &[u8],
) {
    let Some(who) = Part::of(small_of(who)) else {
        return sheet.show("no such call");
    };
    match access_of(sheet, spelled) {
        Some(access) => ask(sheet, stores, seen, who, &access),
        None => sheet.show("no such call"),
    }
}

/// The answer to an access that wants no memory, and so is never refused for want of it; None where it is another.
fn answered_at_once<S: Ends>(stores: &mut S, who: Part, access: &Access) -> Option<Answer>
    requires plain { (a : AccessSpec) → S.wants a → MayWantMemory a }
    requires legal { IsLegal access.now }
{
    match access {
        Access::Key { .. }
        | Access::Release { .. }
        | Access::Erase { .. }
        | Access::ClearAll { .. }
        | Access::Leave { .. }
        | Access::Drop { .. }
        | Access::FindPart { .. }
        | Access::OpenDevices { .. }
        | Access::CloseDevices { .. }
        | Access::Limits { .. }
        | Access::Scratch { .. }
        | Access::RawSave { .. }
        | Access::RawEnd { .. }
        | Access::BlockSave { .. }
        | Access::Format { .. } => {
            match asked(stores, who, access) {
                Ok(answer) => Some(answer),
                Err(NoMemory) => unreachable!(),
            }
        }
        _ => None,
    }
}

/// Makes an access at once that is spelled, and shows its answer.
fn ask_at_once<S: Ends>(sheet: &mut Sheet<'_>, stores: &mut S, spelled: &[u8])
    requires plain { (a : AccessSpec) → S.wants a → MayWantMemory a }
{
    let (_, numbered) = word(spelled);
    let (number, rest) = word(numbered);
    let Some(access) = access_of(sheet, rest) else {
        return sheet.show("no such call");
    };
    let Some(who) = Part::of(small_of(number)) else {
        return sheet.show("no such call");
    };
    match answered_at_once(stores, who, &access) {
        Some(answer) => show_answer(sheet, &answer),
        None => sheet.show("no such call"),
    }
}

/// Queues a key at a terminal, and shows whether it was taken.
fn press<S: Ends>(sheet: &mut Sheet<'_>, stores: &mut S, terminal: Term, key: KeyItem) {
    sheet.show(match stores.key(terminal, key) {
        Some(true) => " taken",
        Some(false) => " dropped",
        None => " no terminal",
    });
}

/// Queues each byte as a key.
fn press_all<S: Ends>(sheet: &mut Sheet<'_>, stores: &mut S, terminal: Term, keys: &[u8]) {
    for key in keys {
        press(sheet, stores, terminal, KeyItem::Byte(*key));
    }
}

/// Shows what a terminal has shown.
fn show_terminal<S: Ends>(sheet: &mut Sheet<'_>, stores: &S, terminal: Term) {
    match stores.terminal(terminal) {
        Some(terminal) => show_named(sheet, "shown", terminal.transcript()),
        None => sheet.show("no terminal"),
    }
}

/// Puts a partition in front of a terminal.
fn put_in_front<S: Ends>(sheet: &mut Sheet<'_>, stores: &mut S, terminal: Term, number: u8) {
    match Part::of(number) {
        Some(part) => {
            stores.set_front(terminal, part);
            sheet.show("set");
        }
        None => sheet.misread(),
    }
}

/// Does what isn't an access at a terminal.
fn at_keyboard<S: Ends>(sheet: &mut Sheet<'_>, stores: &mut S, call: &str, rest: &[u8]) {
    let (number, text) = word(rest);
    let Some(terminal) = Term::of(small_of(number)) else {
        return sheet.misread();
    };
    match call {
        "press" => {
            sheet.show("keys");
            let keys = sheet.spelled(text);
            press_all(sheet, stores, terminal, &keys);
        }
        "special" => {
            sheet.show("keys");
            press(sheet, stores, terminal, KeyItem::Special(small_of(text)));
        }
        "front" => put_in_front(sheet, stores, terminal, small_of(text)),
        _ => show_terminal(sheet, stores, terminal),
    }
}

/// Shows how many sectors the platter of an address has, and some of its bytes; or that there is none.
fn show_platter<S: Ends>(sheet: &mut Sheet<'_>, stores: &S, address: Addr, numbers: &[u8]) {
    let Some(platter) = stores.platter(address) else {
        return sheet.show("no platter");
    };
    let (place, count) = word(numbers);
    sheet.show_number(u64::from(platter.sectors()));
    sheet.show(" sectors ");
    let from = rest_after(platter.image(), whole_of(place) as usize);
    show_each(sheet, first_bytes(from, whole_of(count) as usize));
}

/// Shows what the printer of an address printed, or that there is none.
fn show_printer<S: Ends>(sheet: &mut Sheet<'_>, stores: &S, address: Addr) {
    match stores.printer(address) {
        Some(printed) => show_named(sheet, "printed", printed),
        None => sheet.show("no printer"),
    }
}

/// Shows what stands at an address.
fn show_device<S: Ends>(sheet: &mut Sheet<'_>, stores: &S, call: &str, spelled: &[u8]) {
    let (address, numbers) = word(spelled);
    match Addr::of(address) {
        Some(address) if matches!(call, "platter") => show_platter(sheet, stores, address, numbers),
        Some(address) => show_printer(sheet, stores, address),
        None => sheet.misread(),
    }
}

/// Shows the partitions that are not clean.
pub fn show_clean(sheet: &mut Sheet<'_>, seen: &Seen) {
    sheet.show("not clean");
    for number in 1..17u8 {
        let part = Part::known(number);
        if !seen.is_clean(part) {
            show_part(sheet, " ", part);
        }
    }
}

/// Makes a call, and shows its answer.
fn answer<S: Ends>(sheet: &mut Sheet<'_>, stores: &mut S, seen: &mut Seen, cell: &[u8])
    requires plain { (a : AccessSpec) → S.wants a → MayWantMemory a }
{
    let (first, rest) = word(cell);
    let call = str_of(first);
    match call {
        "press" | "special" | "front" | "shown" => at_keyboard(sheet, stores, call, rest),
        "clean" => show_clean(sheet, seen),
        "platter" | "printed" => show_device(sheet, stores, call, rest),
        "at" => ask_at_once(sheet, stores, rest),
        _ => ask_spelled(sheet, stores, seen, first, rest),
    }
}

/// What the calls in the cells answer, over a store.
fn answer_all<S: Ends>(sheet: &mut Sheet<'_>, stores: &mut S)
    requires plain { (a : AccessSpec) → S.wants a → MayWantMemory a }
{
    let mut seen = Seen::new(sheet.alloc());
    for place in 0..u64::MAX {
        if sheet.is_empty() {
            break;
        }
        if place > 0 {
            sheet.show(", ");
        }
        let cell = sheet.cell();
        answer(sheet, stores, &mut seen, cell);
    }
}

/// The same where D20 has this platter.
fn answer_over<S: Ends + Drop>(sheet: &mut Sheet<'_>, platter: Platter)
    requires plain { (a : AccessSpec) → S.wants a → MayWantMemory a }
{
    match four_partitions::<S>(sheet.alloc(), platter) {
        Ok(mut stores) => answer_all(sheet, &mut stores),
        Err(NoMemory) => sheet.no_memory(),
    }
}

/// What the calls in the cells answer, over a store of this make.
pub fn called<S: Ends + Drop>(sheet: &mut Sheet<'_>)
    requires plain { (a : AccessSpec) → S.wants a → MayWantMemory a }
{
    match with_file(sheet.alloc()) {
        Ok(platter) => answer_over::<S>(sheet, platter),
        Err(NoMemory) => sheet.no_memory(),
    }
}

/// What the calls in the cells answer where D20 has an image of its own.
pub fn called_over_image<S: Ends + Drop>(sheet: &mut Sheet<'_>)
    requires plain { (a : AccessSpec) → S.wants a → MayWantMemory a }
{
    let spelled = sheet.cell();
    match platter_spelled(sheet, spelled) {
        Some(platter) => answer_over::<S>(sheet, platter),
        None => sheet.show("no such image"),
    }
}
