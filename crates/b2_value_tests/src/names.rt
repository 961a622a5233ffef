// The small values: codes, numbers of partitions and terminals, names, addresses, and short lists.
//
// - `name code | NUMBER`, `name part | NUMBER`, `name term | NUMBER`: what is made of the number.
// - `name known | NUMBER`: the code of a number that is known to be one, and the partition and the terminal where there are any.
// - `name name8 | TEXT` and `name address | TEXT`: its bytes.
// - `name file | TEXT | ENDING`: its bytes with the ending; `name no_file` has none.
// - `name addresses | ADDRESSES`: the list of the default one and these.
// - `name line | ITEMS`: the line of these pieces.
// - `name bytes | TEXT`: the bytes of the list made from a slice, of one made from a `Vec`, and the `Vec` given back.
use b2_base::{Addr, AddrList, ByteList, Code, FileName, LineText, Name8, Part, Term};
use b2_cases::{Sheet, small_of};

pub fn answer(call: &str, sheet: &mut Sheet<'_>) {
    match call {
        "code" => code(sheet),
        "part" => part(sheet),
        "term" => term(sheet),
        "known" => known(sheet),
        "name8" => name8(sheet),
        "address" => address(sheet),
        "file" => file(sheet),
        "no_file" => sheet.show_quoted(FileName::empty().bytes()),
        "addresses" => addresses(sheet),
        "line" => line(sheet),
        "bytes" => bytes(sheet),
        _ => sheet.no_such_call(),
    }
}

fn code(sheet: &mut Sheet<'_>) {
    match Code::new(small_of(sheet.cell())) {
        Some(code) => sheet.show_code(code),
        None => sheet.show("none"),
    }
}

fn part(sheet: &mut Sheet<'_>) {
    match Part::of(small_of(sheet.cell())) {
        Some(part) => sheet.show_number(u64::from(part.number())),
        None => sheet.show("none"),
    }
}

fn term(sheet: &mut Sheet<'_>) {
    match Term::of(small_of(sheet.cell())) {
        Some(term) => sheet.show_number(u64::from(term.number())),
        None => sheet.show("none"),
    }
}

fn known(sheet: &mut Sheet<'_>) {
    let n = small_of(sheet.cell());
    if n < 1 || n > 99 {
        return sheet.misread();
    }
    sheet.show_code(Code::known(n));
    if n <= 16 {
        sheet.show(" ");
        sheet.show_number(u64::from(Part::known(n).number()));
    }
    if n <= 12 {
        sheet.show(" ");
        sheet.show_number(u64::from(Term::known(n).number()));
    }
}

fn name8(sheet: &mut Sheet<'_>) {
    match Name8::of(&sheet.bytes()) {
        Some(name) => sheet.show_quoted(&name.bytes()),
        None => sheet.show("none"),
    }
}

fn address(sheet: &mut Sheet<'_>) {
    match Addr::of(&sheet.bytes()) {
        Some(address) => sheet.show_bytes(&address.bytes()),
        None => sheet.show("none"),
    }
}

fn file(sheet: &mut Sheet<'_>) {
    let text = sheet.bytes();
    let ending = sheet.bytes();
    match FileName::of(&text) {
        Some(name) if name.bytes().len() + ending.len() > 200 => sheet.misread(),
        Some(name) => sheet.show_bytes(name.with(&ending).bytes()),
        None => sheet.show("none"),
    }
}

fn addresses(sheet: &mut Sheet<'_>) {
    let mut list = AddrList::new();
    list.push(Addr::default());
    sheet.open();
    for _ in 0..11 {
        if !sheet.has_items() {
            break;
        }
        match Addr::of(sheet.word()) {
            Some(address) if list.addresses().len() < 12 => list.push(address),
            _ => sheet.misread(),
        }
    }
    for address in list.addresses() {
        sheet.show_bytes(&address.bytes());
        sheet.show(" ");
    }
}

fn line(sheet: &mut Sheet<'_>) {
    let mut line = LineText::empty();
    sheet.open();
    for _ in 0..240u8 {
        if !sheet.has_items() {
            break;
        }
        let piece = sheet.quoted();
        if line.bytes().len() + piece.len() > 240 {
            return sheet.misread();
        }
        line.add(&piece);
    }
    sheet.show_bytes(line.bytes());
}

fn bytes(sheet: &mut Sheet<'_>) {
    let text = sheet.bytes();
    match ByteList::from_slice(sheet.alloc(), &text) {
        Ok(copied) => sheet.show_bytes(copied.bytes()),
        Err(_) => sheet.no_memory(),
    }
    let list = ByteList::new(text);
    sheet.show(" ");
    sheet.show_bytes(list.bytes());
    sheet.show(" ");
    sheet.show_bytes(&list.into_vec());
}
