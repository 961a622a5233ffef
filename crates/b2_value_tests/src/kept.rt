// Bytes of a value, and lists of values and of kinds.
//
// - `value bytes | BYTES | BYTE | BYTES`: the bytes, to which one and then more are added, how many there are and whether there
//   are none; and the same after all are dropped.
// - `value values | VALUES` and `value kinds | KINDS`: the list, and how many are given back.
use crate::items::{next_packed, next_values};
use crate::packing::next_kinds;
use crate::showing::show_values;
use b2_base::lexical::first;
use b2_cases::Sheet;
use b2_dec::{Bytes, Kind, KindList, ValueList};

pub fn answer(call: &str, sheet: &mut Sheet<'_>) {
    match call {
        "bytes" => bytes(sheet),
        "values" => values(sheet),
        "kinds" => kinds(sheet),
        _ => sheet.no_such_call(),
    }
}

fn show_kept(sheet: &mut Sheet<'_>, bytes: &Bytes) {
    sheet.show_quoted(bytes.bytes());
    sheet.show(" ");
    sheet.show_number(bytes.len() as u64);
    sheet.show(" ");
    sheet.show_truth(bytes.is_empty());
}

fn bytes(sheet: &mut Sheet<'_>) {
    let start = next_packed(sheet);
    let one = first(&next_packed(sheet));
    let more = next_packed(sheet);
    let Some(mut kept) = Bytes::of(&start) else {
        return sheet.show("none");
    };
    if kept.len() + 1 + more.len() > 255 {
        return sheet.misread();
    }
    kept.push(one);
    kept.extend(&more);
    show_kept(sheet, &kept);
    sheet.show(", ");
    kept.clear();
    show_kept(sheet, &kept);
}

fn values(sheet: &mut Sheet<'_>) {
    let list = ValueList::new(next_values(sheet));
    show_values(sheet, list.values());
    sheet.show(", ");
    sheet.show_number(list.into_vec().len() as u64);
}

fn kinds(sheet: &mut Sheet<'_>) {
    let list = KindList::new(next_kinds(sheet));
    for kind in list.kinds() {
        sheet.show(match *kind {
            Kind::Number => "N",
            Kind::Alpha => "A",
        });
    }
    sheet.show(", ");
    sheet.show_number(list.into_vec().len() as u64);
}
