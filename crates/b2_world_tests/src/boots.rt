// Boot files, the boots that they are, and boots with a group alone.
//
// `boot | LINE | ..`: the boot of a file of these lines, or the first check that it fails. A line `T` stands for a terminal 1
// with partition 1 in front, `P` for a partition 1 on it, and `D` for a partition 1 on it with the disk D11.
//
// `alone | NAME | PARTITION PARTITION ..`: the boot of a name with these partitions alone.
use crate::pieces::{show_count, word};
use b2_base::{Addr, NoMemory, Part};
use b2_boot::{Boot, BootErr, BootPartition, BootPlatter, BootPrinter, BootTerminal, boot_of};
use b2_cases::{Sheet, small_of, str_of};

/// The line `T`.
const TERMINAL: &[u8] = b"terminal=[{number=1,front=1}]";

/// The line `P`.
const PARTITION: &[u8] = b"partition=[{number=1,terminal=1,text=8,data=8,globals=2}]";

/// The line `D`.
const ON_DISK: &[u8] = b"partition=[{number=1,terminal=1,text=8,data=8,globals=2,disk=\"D11\"}]";

/// Partition 1 on terminal 1.
const ONE: &[u8] = b"\
quota=20
terminal=[{number=1,front=1}]
partition=[{number=1,terminal=1,text=8,data=8,globals=2}]
";

/// Partitions 1 and 2, each on the terminal of its number, listed from the last to the first.
const TWO: &[u8] = b"\
quota=20
terminal=[{number=2,front=2},{number=1,front=1}]
partition=[{number=2,terminal=2,text=8,data=8,globals=2},{number=1,terminal=1,text=8,data=8,globals=2}]
";

/// The same two, where a turn of a round has one step.
const STEPS: &[u8] = b"\
quota=1
terminal=[{number=1,front=1},{number=2,front=2}]
partition=[{number=1,terminal=1,text=8,data=8,globals=2},{number=2,terminal=2,text=8,data=8,globals=2}]
";

/// Partitions 1 and 2 share terminal 1, and 1 is in front.
const SHARED: &[u8] = b"\
quota=20
terminal=[{number=1,front=1}]
partition=[{number=1,terminal=1,text=8,data=8,globals=2},{number=2,terminal=1,text=8,data=8,globals=2}]
";

/// Partitions 1 and 2 share terminal 1, 2 is in front, and partition 5 is on terminal 3. A round grants 60 steps.
const THREE: &[u8] = b"\
quota=20
terminal=[{number=1,front=2},{number=3,front=5}]
partition=[{number=1,terminal=1,text=8,data=8,globals=2},{number=2,terminal=1,text=4,data=8,globals=0},{number=5,terminal=3,text=8,data=2,globals=2}]
";

/// Partitions 1 and 2 share terminal 1, which goes round to 2 first; 2 is in front.
const ROUND: &[u8] = b"\
quota=20
terminal=[{number=1,front=2,order=[2,1]}]
partition=[{number=1,terminal=1,text=8,data=8,globals=2},{number=2,terminal=1,text=8,data=8,globals=2}]
";

/// Partition 2 on terminal 1, and partition 1 on terminal 2.
const CROSSED: &[u8] = b"\
quota=20
terminal=[{number=1,front=2},{number=2,front=1}]
partition=[{number=2,terminal=1,text=8,data=8,globals=2},{number=1,terminal=2,text=8,data=8,globals=2}]
";

/// Partitions 1 and 2, each on the terminal of its number and with a disk, and a third disk; listed from the last to the first.
const DISKS: &[u8] = b"\
quota=20
terminal=[{number=2,front=2},{number=1,front=1}]
partition=[{number=2,terminal=2,text=8,data=8,globals=2,disk=\"310\"},{number=1,terminal=1,text=8,data=8,globals=2,disk=\"D11\"}]
platter=[{address=\"D11\",blank=64},{address=\"B10\",image=\"a.img\"},{address=\"310\",blank=16}]
";

/// Partition 1 starts with a program of its disk, and partition 2 has none.
const LOADING: &[u8] = b"\
quota=20
terminal=[{number=1,front=1},{number=2,front=2}]
partition=[{number=1,terminal=1,text=8,data=8,globals=2,disk=\"D11\",program=\"START\"},{number=2,terminal=2,text=8,data=8,globals=2,disk=\"D11\"}]
platter=[{address=\"D11\",blank=16}]
";

/// Partitions 1 and 2, each on the terminal of its number; two printers, of which partition 2 has one for itself, and two disks,
/// of which it has one; listed from the last to the first.
const DEVICES: &[u8] = b"\
quota=20
terminal=[{number=2,front=2},{number=1,front=1}]
partition=[{number=2,terminal=2,text=8,data=8,globals=2,disk=\"D12\"},{number=1,terminal=1,text=8,data=8,globals=2,disk=\"D11\"}]
platter=[{address=\"D12\",blank=16,for=2},{address=\"D11\",blank=16}]
printer=[{address=\"215\",for=2},{address=\"204\"}]
";

/// Partitions 1 and 2, each on the terminal of its number, of which 1 has a quota of its own. A round grants 70 steps.
const UNLIKE: &[u8] = b"\
quota=20
terminal=[{number=2,front=2},{number=1,front=1}]
partition=[{number=2,terminal=2,text=8,data=8,globals=2},{number=1,terminal=1,text=8,data=8,globals=2,quota=50}]
";

/// The file of the boot of a name, an empty one where there is none.
fn file_named(name: &[u8]) -> &'static [u8] {
    match str_of(name) {
        "one" => ONE,
        "two" => TWO,
        "steps" => STEPS,
        "shared" => SHARED,
        "three" => THREE,
        "round" => ROUND,
        "crossed" => CROSSED,
        "disks" => DISKS,
        "loading" => LOADING,
        "devices" => DEVICES,
        "unlike" => UNLIKE,
        _ => b"",
    }
}

/// The boot of a name, None where there is none.
pub fn named(sheet: &mut Sheet<'_>, name: &[u8]) -> Option<Boot> {
    match boot_of(sheet.alloc(), file_named(name)) {
        Ok(boot) => Some(boot),
        Err(BootErr::Check(_)) => None,
        Err(BootErr::NoMemory) => {
            sheet.no_memory();
            None
        }
    }
}

/// What is said where there is no such boot.
pub fn no_boot(sheet: &mut Sheet<'_>) {
    sheet.show("no such boot");
}

/// Shows the order in which a terminal goes round.
fn show_order(sheet: &mut Sheet<'_>, parts: &[Part]) {
    sheet.show(" order");
    for part in parts {
        show_count(sheet, " ", u64::from(part.number()));
    }
}

/// Shows a terminal and who is in front of it, and its order where that isn't the front alone.
fn show_terminal(sheet: &mut Sheet<'_>, terminal: &BootTerminal) {
    show_count(sheet, ", terminal ", u64::from(terminal.number.number()));
    show_count(sheet, " front ", u64::from(terminal.front.number()));
    match terminal.order.parts() {
        [part] if *part == terminal.front => {}
        parts => show_order(sheet, parts),
    }
}

/// Shows an address.
fn show_address(sheet: &mut Sheet<'_>, address: Addr) {
    sheet.show_letters(&address.bytes());
}

/// Shows a partition, where it is and the sizes of its areas; its disk, the name of its program with all blanks, and its own quota.
fn show_partition(sheet: &mut Sheet<'_>, partition: &BootPartition) {
    show_count(sheet, ", partition ", u64::from(partition.number.number()));
    show_count(sheet, " terminal ", u64::from(partition.terminal.number()));
    show_count(sheet, " text ", u64::from(partition.text));
    show_count(sheet, " data ", u64::from(partition.vars));
    show_count(sheet, " globals ", u64::from(partition.globals));
    if let Some(disk) = partition.disk {
        sheet.show(" disk ");
        show_address(sheet, disk);
    }
    if let Some(name) = partition.program {
        sheet.show(" program \"");
        sheet.show_letters(&name.bytes());
        sheet.show("\"");
    }
    if let Some(quota) = partition.quota {
        show_count(sheet, " quota ", u64::from(quota));
    }
}

/// Shows a platter, and its image or how many sectors it has.
fn show_platter(sheet: &mut Sheet<'_>, platter: &BootPlatter) {
    sheet.show(", platter ");
    show_address(sheet, platter.address);
    if let Some(name) = &platter.image {
        sheet.show(" image ");
        sheet.show_letters(name.bytes());
    }
    if let Some(sectors) = platter.blank {
        show_count(sheet, " blank ", u64::from(sectors));
    }
    show_only(sheet, platter.only);
}

/// Shows a printer.
fn show_printer(sheet: &mut Sheet<'_>, printer: &BootPrinter) {
    sheet.show(", printer ");
    show_address(sheet, printer.address);
    show_only(sheet, printer.only);
}

/// Shows for whom a device is, where it is for one partition alone.
fn show_only(sheet: &mut Sheet<'_>, only: Option<Part>) {
    if let Some(part) = only {
        show_count(sheet, " for ", u64::from(part.number()));
    }
}

/// Shows the terminals and the partitions of a boot.
fn show_desks(sheet: &mut Sheet<'_>, boot: &Boot) {
    for terminal in &boot.terminals {
        show_terminal(sheet, terminal);
    }
    for partition in &boot.partitions {
        show_partition(sheet, partition);
    }
}

/// Shows the devices of a boot.
fn show_devices(sheet: &mut Sheet<'_>, boot: &Boot) {
    for platter in &boot.platters {
        show_platter(sheet, platter);
    }
    for printer in &boot.printers {
        show_printer(sheet, printer);
    }
}

/// Shows what a boot says.
fn show_boot(sheet: &mut Sheet<'_>, boot: &Boot) {
    show_count(sheet, "quota ", u64::from(boot.quota));
    show_desks(sheet, boot);
    show_devices(sheet, boot);
}

/// Appends the line that a cell stands for.
fn push_line(sheet: &mut Sheet<'_>, file: &mut Vec<u8>, cell: &[u8]) {
    match str_of(cell) {
        "T" => sheet.append(file, TERMINAL),
        "P" => sheet.append(file, PARTITION),
        "D" => sheet.append(file, ON_DISK),
        _ => {
            let bytes = sheet.spelled(cell);
            sheet.append(file, &bytes);
        }
    }
}

/// The file of the lines in the cells, with a newline between two.
fn file_of(sheet: &mut Sheet<'_>) -> Vec<u8> {
    let mut file = Vec::new(sheet.alloc());
    for line in 0..u64::MAX {
        if sheet.is_empty() {
            break;
        }
        if line > 0 {
            sheet.append(&mut file, b"\n");
        }
        let cell = sheet.cell();
        push_line(sheet, &mut file, cell);
    }
    file
}

/// The boot of a file, or the first check that it fails.
pub fn read(sheet: &mut Sheet<'_>) {
    let file = file_of(sheet);
    match boot_of(sheet.alloc(), &file) {
        Ok(boot) => show_boot(sheet, &boot),
        Err(BootErr::Check(check)) => show_count(sheet, "check ", u64::from(check)),
        Err(BootErr::NoMemory) => sheet.no_memory(),
    }
}

/// The partitions of the numbers in a cell. One that is no partition's is misread.
pub fn group_of(sheet: &mut Sheet<'_>) -> Vec<Part> {
    let mut group = Vec::new(sheet.alloc());
    let cell = sheet.cell();
    let mut left = cell;
    for _ in 0..cell.len() {
        if left.is_empty() {
            break;
        }
        let (number, rest) = word(left);
        match Part::of(small_of(number)) {
            Some(part) => sheet.push(&mut group, part),
            None => sheet.misread(),
        }
        left = rest;
    }
    group
}

/// Shows a boot with the group of the next cell alone.
fn show_alone(sheet: &mut Sheet<'_>, boot: &Boot) {
    let group = group_of(sheet);
    match boot.alone(sheet.alloc(), &group) {
        Ok(alone) => show_boot(sheet, &alone),
        Err(NoMemory) => sheet.no_memory(),
    }
}

/// The boot of a name with a group alone.
pub fn left_alone(sheet: &mut Sheet<'_>) {
    let name = sheet.cell();
    match named(sheet, name) {
        Some(boot) => show_alone(sheet, &boot),
        None => no_boot(sheet),
    }
}
