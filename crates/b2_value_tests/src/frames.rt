// The loops and calls that haven't ended.
//
// - `frame calls | FRAMES | CALL ..`: what each call gives, and the frames that are left, the lowest first. A call is
//   `loop_of VARIABLE`, `end_loop`, `pop_call`, `drop_immediate` or `clear`.
// - `frame homes | FRAMES`: the partitions that the frames name: their marks as a number, where that of partition h is
//   2 ^ (h - 1), and each of them.
// - `frame full | TIMES | FRAME`: how many of so many pushes of the frame were taken, what one more push gives, how many frames
//   there are then, the 200th, and whether one is above it; the same again after all are dropped.
//
// A frame is a letter. Loops: I, J, K and I1 of those variables, up to 9 by steps of 2, in line 30 of partition 4; x and y up
// to 3 by steps of 1, in the immediate line of partition 3. Calls: c back to line 10 of partition 1, e back to line 20 of
// partition 2 from 16, s back to the ready state.
use crate::showing::show_dec;
use b2_base::Part;
use b2_base::lexical::first;
use b2_cases::{Sheet, str_of};
use b2_dec::Dec;
use b2_flow::{Frame, Place, Stack, Var2};

pub fn answer(call: &str, sheet: &mut Sheet<'_>) {
    match call {
        "calls" => calls(sheet),
        "homes" => homes(sheet),
        "full" => full(sheet),
        _ => sheet.no_such_call(),
    }
}

/// The second unit of a line, or of the immediate line.
fn place(home: Part, line: Option<u16>) -> Place {
    Place {
        home,
        line,
        unit: 2,
    }
}

/// A call, and where it leads back to.
fn call_back(back: Option<Place>, entered: Option<Part>) -> Frame {
    Frame::Call { back, entered }
}

/// Returns whether a word names a variable or a frame.
fn is_name(word: &[u8]) -> bool {
    word.len() == 1 || word.len() == 2
}

/// The variable that a word names.
fn variable(word: &[u8]) -> Var2 {
    Var2 {
        letter: first(word),
        digit: word.get(1).copied(),
    }
}

/// The frame that a word names.
fn frame_of(word: &[u8]) -> Frame {
    match str_of(word) {
        "c" => call_back(Some(place(Part::known(1), Some(10))), None),
        "e" => call_back(Some(place(Part::known(2), Some(20))), Some(Part::known(16))),
        "s" => call_back(None, None),
        "x" | "y" => Frame::For {
            var: variable(word),
            limit: Dec::of_whole(3),
            step: Dec::of_whole(1),
            body: place(Part::known(3), None),
        },
        _ => Frame::For {
            var: variable(word),
            limit: Dec::of_whole(9),
            step: Dec::of_whole(2),
            body: place(Part::known(4), Some(30)),
        },
    }
}

/// Reads a cell that names frames, and pushes them.
fn push_named(stack: &mut Stack, sheet: &mut Sheet<'_>) {
    sheet.open();
    for _ in 0..u64::MAX {
        if !sheet.has_items() {
            break;
        }
        let word = sheet.word();
        if !is_name(word) || stack.push(frame_of(word)).is_err() {
            sheet.misread();
        }
    }
}

/// Shows a place: its partition, its line where it has one, and its unit.
fn show_place(sheet: &mut Sheet<'_>, place: Place) {
    sheet.show_number(u64::from(place.home.number()));
    if let Some(line) = place.line {
        sheet.show(":");
        sheet.show_number(u64::from(line));
    }
    sheet.show(":");
    sheet.show_number(u64::from(place.unit));
}

/// Shows what a call has: where it leads back to, and the partition whose text it entered.
fn show_call(sheet: &mut Sheet<'_>, back: Option<Place>, entered: Option<Part>) {
    match back {
        Some(place) => show_place(sheet, place),
        None => sheet.show("ready"),
    }
    if let Some(part) = entered {
        sheet.show(" from ");
        sheet.show_number(u64::from(part.number()));
    }
}

/// Shows what a loop has: its limit, its step and its body.
fn show_loop(sheet: &mut Sheet<'_>, limit: Dec, step: Dec, body: Place) {
    show_dec(sheet, limit);
    sheet.show(" by ");
    show_dec(sheet, step);
    sheet.show(" in ");
    show_place(sheet, body);
}

/// Shows a frame in parentheses; a loop begins with its variable.
fn show_frame(sheet: &mut Sheet<'_>, frame: Frame) {
    sheet.show(" (");
    match frame {
        Frame::Call { back, entered } => show_call(sheet, back, entered),
        Frame::For {
            var,
            limit,
            step,
            body,
        } => {
            sheet.show_letter(var.letter);
            if let Some(digit) = var.digit {
                sheet.show_letter(digit);
            }
            sheet.show(" to ");
            show_loop(sheet, limit, step, body);
        }
    }
    sheet.show(")");
}

/// Shows how many frames there are, and each of them, the lowest first.
fn show_stack(sheet: &mut Sheet<'_>, stack: &Stack) {
    sheet.show_number(stack.len() as u64);
    for k in 0..=stack.len() {
        if let Some(frame) = stack.frame(k) {
            show_frame(sheet, frame);
        }
    }
}

fn calls(sheet: &mut Sheet<'_>) {
    let Ok(mut stack) = Stack::new(sheet.alloc()) else {
        return sheet.no_memory();
    };
    push_named(&mut stack, sheet);
    for _ in 0..100u8 {
        if sheet.is_empty() {
            break;
        }
        one_call(&mut stack, sheet);
        sheet.show(", ");
    }
    show_stack(sheet, &stack);
}

fn one_call(stack: &mut Stack, sheet: &mut Sheet<'_>) {
    sheet.open();
    let call = str_of(sheet.word());
    let word = sheet.word();
    match call {
        "loop_of" => match stack.loop_of(variable(word)) {
            Ok((limit, step, body)) => show_loop(sheet, limit, step, body),
            Err(code) => sheet.show_code(code),
        },
        "pop_call" => match stack.pop_call() {
            Ok((back, entered)) => show_call(sheet, back, entered),
            Err(code) => sheet.show_code(code),
        },
        "end_loop" => stack.end_loop(),
        "drop_immediate" => stack.drop_immediate(),
        "clear" => stack.clear(),
        _ => sheet.misread(),
    }
}

fn homes(sheet: &mut Sheet<'_>) {
    let Ok(mut stack) = Stack::new(sheet.alloc()) else {
        return sheet.no_memory();
    };
    push_named(&mut stack, sheet);
    let marks = stack.homes();
    sheet.show_number(u64::from(marks));
    for number in 1..17u8 {
        if let Some(part) = Part::of(number) {
            if marks & part.bit() != 0 {
                sheet.show(" ");
                sheet.show_number(u64::from(number));
            }
        }
    }
}

/// Pushes the frame that a word names so many times; gives how often it was taken.
fn push_often(stack: &mut Stack, word: &[u8], times: u16) -> u16 {
    let mut taken = 0u16;
    for _ in 0..times {
        if stack.push(frame_of(word)).is_ok() {
            taken = taken.saturating_add(1);
        }
    }
    taken
}

/// Fills a stack, and shows what one more push gives, and what stands at the top.
fn show_filled(stack: &mut Stack, word: &[u8], times: u16, sheet: &mut Sheet<'_>) {
    let taken = push_often(stack, word, times);
    sheet.show_number(u64::from(taken));
    sheet.show(" taken, ");
    sheet.show_outcome(stack.push(frame_of(b"I")));
    sheet.show(", ");
    sheet.show_number(stack.len() as u64);
    sheet.show(" there");
    if let Some(top) = stack.frame(199) {
        show_frame(sheet, top);
    }
    sheet.show(", ");
    sheet.show_truth(stack.frame(200).is_some());
    sheet.show("; ");
}

fn full(sheet: &mut Sheet<'_>) {
    sheet.open();
    let times = sheet.number();
    let word = sheet.cell();
    let Ok(mut stack) = Stack::new(sheet.alloc()) else {
        return sheet.no_memory();
    };
    for _ in 0..2u8 {
        show_filled(&mut stack, word, times, sheet);
        stack.clear();
    }
}
