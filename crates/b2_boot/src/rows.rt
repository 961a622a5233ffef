// What a boot file says before its checks: the rows of its tables, in the file's order.
ghost use Rattle.std.specs.Prelude.{◌≡◌, IfOk, IfSome, Option, Some, true, codes, option_map, option_and_then};
ghost use Rattle.std.specs.Option.{option_copied};
ghost use Rattle.toml.specs.View.{view, table_view, items_view};
ghost use Rattle.toml.specs.Data.{Members, get_member, as_array, as_integer, as_table};
ghost use Rattle.b2_boot.specs.Rows as spec;

use b2_base::{ByteList, NoMemory};
use std::alloc::Global;
use std::marker::Model;
use toml::{Table, Value};

/// A row that a table of the file may say.
pub trait TableRow: Sized + Drop {
    /// The row that a table says, None where a key is unknown, missing or of another kind.
    ghost of_table: { Members → Option Self };

    /// That row.
    fn from_table(alloc: Global, table: &Table) -> Result<Option<Self>, NoMemory>
        ensures { IfOk result (λ found. found ≡ of_table (table_view table.now)) };
}

/// Which table of the file a key stands in.
#[derive(Clone, Copy)]
pub enum Section {
    File,
    Terminal,
    Partition,
    Platter,
    Printer,
}

/// A terminal as it is written, with 65,535 in place of each number outside 0 to 65,535; and the numbers of its order, where it
/// has one, with 255 in place of each outside 0 to 255.
#[derive(Drop)]
pub struct TerminalRow {
    pub number: u16,
    pub front: u16,
    pub order: Option<ByteList>,
}

/// A partition as it is written, with 65,535 in place of each number outside 0 to 65,535. Its sizes are in KiB, its disk and its
/// program may be any texts, and its quota is from 1 to 1000 where it has one of its own.
#[derive(Drop)]
pub struct PartitionRow {
    pub number: u16,
    pub terminal: u16,
    pub text: u16,
    pub vars: u16,
    pub globals: u16,
    pub disk: Option<ByteList>,
    pub program: Option<ByteList>,
    pub quota: Option<u16>,
}

/// A platter as it is written: its address and the name of its image, which may be any texts, or how many sectors it has,
/// blank, and of which version, where one is said; and the number of the partition that it is for, where it has one, with 65,535
/// in place of one outside 0 to 65,535.
#[derive(Drop)]
pub struct PlatterRow {
    pub address: ByteList,
    pub image: Option<ByteList>,
    pub blank: Option<u32>,
    pub only: Option<u16>,
    pub version: Option<u8>,
}

/// A printer as it is written: its address, which may be any text, and the number of the partition that it is for, where it
/// has one, with 65,535 in place of one outside 0 to 65,535.
#[derive(Drop)]
pub struct PrinterRow {
    pub address: ByteList,
    pub only: Option<u16>,
}

/// All rows of a file. Contracts see it as the record of its lists.
#[derive(Drop)]
pub struct BootRows {
    pub quota: u16,
    pub terminals: Vec<TerminalRow>,
    pub partitions: Vec<PartitionRow>,
    pub platters: Vec<PlatterRow>,
    pub printers: Vec<PrinterRow>,
}

impl Model for BootRows {
    ghost use Rattle.b2_boot.specs.Rows.{RowsState};

    ghost Value = { RowsState };

    ghost view = { λ b. record { quota = b.quota; terminals = b.terminals.items; partitions = b.partitions.items; platters = b.platters.items; printers = b.printers.items } };
}

/// The document that bytes spell, None where they spell none.
pub fn document(alloc: Global, bytes: &[u8]) -> Result<Option<Table>, NoMemory>
    ensures { IfOk result (λ found. option_map table_view found ≡ spec.document_of bytes.now) }
{
    match toml::table_from_slice(alloc, bytes) {
        Ok(table) => Ok(Some(table)),
        Err(fault) => {
            if fault.is_memory() {
                Err(NoMemory)
            } else {
                Ok(None)
            }
        }
    }
}

/// A whole number as it is, or 65,535 where it is outside 0 to 65,535.
fn small(n: i64) -> u16
    ensures { result ≡ spec.small n }
{
    match u16::try_from(n) {
        Ok(n) => n,
        Err(_) => u16::MAX,
    }
}

/// The same for a number that is there.
fn small_if_some(found: Option<i64>) -> Option<u16>
    ensures { result ≡ option_map spec.small found }
{
    match found {
        Some(n) => Some(small(n)),
        None => None,
    }
}

/// Whether a section may have a key.
fn is_known(section: Section, key: &[u8]) -> bool
    ensures { result ≡ spec.is_known section key.now }
{
    match section {
        Section::File => {
            key == b"quota".as_slice()
                || key == b"terminal".as_slice()
                || key == b"partition".as_slice()
                || key == b"platter".as_slice()
                || key == b"printer".as_slice()
        }
        Section::Terminal => {
            key == b"number".as_slice() || key == b"front".as_slice() || key == b"order".as_slice()
        }
        Section::Partition => {
            key == b"number".as_slice()
                || key == b"terminal".as_slice()
                || key == b"text".as_slice()
                || key == b"data".as_slice()
                || key == b"globals".as_slice()
                || key == b"disk".as_slice()
                || key == b"program".as_slice()
                || key == b"quota".as_slice()
        }
        Section::Platter => {
            key == b"address".as_slice()
                || key == b"image".as_slice()
                || key == b"blank".as_slice()
                || key == b"for".as_slice()
                || key == b"version".as_slice()
        }
        Section::Printer => key == b"address".as_slice() || key == b"for".as_slice(),
    }
}

/// Whether a section may have all keys of a table.
fn all_known(section: Section, table: &Table) -> bool
    ensures { result ≡ spec.all_known section (table_view table.now) }
{
    for (key, _value) in table.iter() {
        if !is_known(section, key.as_bytes()) {
            return false;
        }
    }
    true
}

/// What stands at a key, None where nothing is there.
fn value_at<'a>(table: &'a Table, key: &str) -> Option<&'a Value>
    ensures { option_map (λ value. view value.now) result ≡ get_member key.now (table_view table.now) }
{
    table.get(key)
}

/// The number at a key, None where none is there.
fn number_of_key(table: &Table, key: &str) -> Option<u16>
    ensures { result ≡ spec.number_of_key key.now (table_view table.now) }
{
    match value_at(table, key) {
        Some(value) => small_if_some(value.as_integer()),
        None => None,
    }
}

/// The text at a key, None where none is there.
fn text_of_key<'a>(table: &'a Table, key: &str) -> Option<&'a str>
    ensures { option_copied result ≡ spec.text_of_key key.now (table_view table.now) }
{
    match value_at(table, key) {
        Some(value) => value.as_str(),
        None => None,
    }
}

/// A whole number as it is, or 255 where it is outside 0 to 255.
fn tiny(n: i64) -> u8
    ensures { result ≡ spec.tiny n }
{
    match u8::try_from(n) {
        Ok(n) => n,
        Err(_) => u8::MAX,
    }
}

/// All items as numbers, None where one is no whole number.
fn numbers_in(alloc: Global, items: &[Value]) -> Result<Option<ByteList>, NoMemory>
    ensures { IfOk result (λ found. found ≡ spec.numbers_in (items_view items.now)) }
{
    let mut numbers = Vec::new(alloc);
    for item in items {
        match item.as_integer() {
            Some(n) => numbers.push(tiny(n))?,
            None => return Ok(None),
        }
    }
    Ok(Some(ByteList::new(numbers)))
}

/// The order that a value says, None where it is no list of whole numbers.
fn order_in(alloc: Global, value: &Value) -> Result<Option<ByteList>, NoMemory>
    ensures { IfOk result (λ found. found ≡ option_and_then spec.numbers_in (as_array (view value.now))) }
{
    match value.as_array() {
        Some(array) => numbers_in(alloc, array.as_slice()),
        None => Ok(None),
    }
}

/// The order of a terminal, None within where none is said, and None where that is no list of whole numbers.
fn order_said(alloc: Global, table: &Table) -> Result<Option<Option<ByteList>>, NoMemory>
    ensures { IfOk result (λ found. found ≡ spec.order_of_key (get_member (codes "order") (table_view table.now))) }
{
    match value_at(table, "order") {
        Some(value) => match order_in(alloc, value)? {
            Some(order) => Ok(Some(Some(order))),
            None => Ok(None),
        },
        None => Ok(Some(None)),
    }
}

/// The row of a terminal, None where a key is unknown, missing or of another kind.
fn terminal_said(alloc: Global, table: &Table) -> Result<Option<TerminalRow>, NoMemory>
    ensures { IfOk result (λ found. found ≡ spec.terminal_said (table_view table.now)) }
{
    if !all_known(Section::Terminal, table) {
        return Ok(None);
    }
    let Some(number) = number_of_key(table, "number") else {
        return Ok(None);
    };
    let Some(front) = number_of_key(table, "front") else {
        return Ok(None);
    };
    let Some(order) = order_said(alloc, table)? else {
        return Ok(None);
    };
    Ok(Some(TerminalRow {
        number,
        front,
        order,
    }))
}

/// The sizes of a partition, None where one is missing or of another kind.
fn sizes(table: &Table, number: u16, terminal: u16) -> Option<PartitionRow>
    ensures { result ≡ spec.sizes_of (table_view table.now) number terminal }
{
    let Some(text) = number_of_key(table, "text") else {
        return None;
    };
    let Some(vars) = number_of_key(table, "data") else {
        return None;
    };
    let Some(globals) = number_of_key(table, "globals") else {
        return None;
    };
    Some(PartitionRow {
        number,
        terminal,
        text,
        vars,
        globals,
        disk: None,
        program: None,
        quota: None,
    })
}

/// A partition with the disk that a value says, None where that is no text.
fn on_disk(
    alloc: Global,
    row: PartitionRow,
    value: &Value,
) -> Result<Option<PartitionRow>, NoMemory>
    ensures { IfOk result (λ found. found ≡ spec.with_disk (Some (view value.now)) row) }
{
    let mut row = row;
    let Some(text) = value.as_str() else {
        return Ok(None);
    };
    row.disk = Some(ByteList::from_slice(alloc, text.as_bytes())?);
    Ok(Some(row))
}

/// A partition with the program that a value says, None where that is no text.
fn with_program(
    alloc: Global,
    row: PartitionRow,
    value: &Value,
) -> Result<Option<PartitionRow>, NoMemory>
    ensures { IfOk result (λ found. found ≡ spec.with_program (Some (view value.now)) row) }
{
    let mut row = row;
    let Some(text) = value.as_str() else {
        return Ok(None);
    };
    row.program = Some(ByteList::from_slice(alloc, text.as_bytes())?);
    Ok(Some(row))
}

/// A partition but for its disk, its program and its quota, None where a key is missing or of another kind.
fn on_terminal(table: &Table) -> Option<PartitionRow>
    ensures { result ≡ spec.partition_from (spec.number_of_key (codes "number") (table_view table.now)) (spec.number_of_key (codes "terminal") (table_view table.now)) (spec.sizes_of (table_view table.now)) }
{
    let Some(number) = number_of_key(table, "number") else {
        return None;
    };
    let Some(terminal) = number_of_key(table, "terminal") else {
        return None;
    };
    sizes(table, number, terminal)
}

/// A partition but for its program and its quota, None where a key is missing or of another kind.
fn disk_row(alloc: Global, table: &Table) -> Result<Option<PartitionRow>, NoMemory>
    ensures { IfOk result (λ found. found ≡ spec.disk_row (table_view table.now)) }
{
    let Some(row) = on_terminal(table) else {
        return Ok(None);
    };
    match value_at(table, "disk") {
        Some(value) => on_disk(alloc, row, value),
        None => Ok(Some(row)),
    }
}

/// A partition but for its quota, None where a key is missing or of another kind.
fn program_row(alloc: Global, table: &Table) -> Result<Option<PartitionRow>, NoMemory>
    ensures { IfOk result (λ found. found ≡ spec.program_row (table_view table.now)) }
{
    let Some(row) = disk_row(alloc, table)? else {
        return Ok(None);
    };
    match value_at(table, "program") {
        Some(value) => with_program(alloc, row, value),
        None => Ok(Some(row)),
    }
}

/// The quota of a partition, None within where none is said, and None where that is no whole number from 1 to 1000.
fn own_quota(table: &Table) -> Option<Option<u16>>
    ensures { result ≡ spec.quota_of_key (get_member (codes "quota") (table_view table.now)) }
{
    match value_at(table, "quota") {
        Some(value) => match ranged_value(1, 1000, value) {
            Some(quota) => Some(Some(quota as u16)),
            None => None,
        },
        None => Some(None),
    }
}

/// The row of a partition, None where a key is unknown, missing or of another kind, or its quota is out of range.
fn partition_row(alloc: Global, table: &Table) -> Result<Option<PartitionRow>, NoMemory>
    ensures { IfOk result (λ found. found ≡ spec.partition_row (table_view table.now)) }
{
    if !all_known(Section::Partition, table) {
        return Ok(None);
    }
    let Some(quota) = own_quota(table) else {
        return Ok(None);
    };
    let Some(row) = program_row(alloc, table)? else {
        return Ok(None);
    };
    let mut row = row;
    row.quota = quota;
    Ok(Some(row))
}

/// The number of the partition that a device is for, None within where none is named, and None where that is no number.
fn only_said(table: &Table) -> Option<Option<u16>>
    ensures { result ≡ spec.only_of_key (get_member (codes "for") (table_view table.now)) }
{
    match value_at(table, "for") {
        Some(value) => match small_if_some(value.as_integer()) {
            Some(number) => Some(Some(number)),
            None => None,
        },
        None => Some(None),
    }
}

/// A platter with an image, None where that is no text.
fn of_image(
    alloc: Global,
    address: &[u8],
    only: Option<u16>,
    value: &Value,
) -> Result<Option<PlatterRow>, NoMemory>
    ensures { IfOk result (λ found. found ≡ spec.of_image address.now only (view value.now)) }
{
    let Some(name) = value.as_str() else {
        return Ok(None);
    };
    Ok(Some(PlatterRow {
        address: ByteList::from_slice(alloc, address)?,
        image: Some(ByteList::from_slice(alloc, name.as_bytes())?),
        blank: None,
        only,
        version: None,
    }))
}

/// A whole number in a range, as it is written, and None outside it.
fn ranged(least: u32, most: u32, n: i64) -> Option<u32>
    ensures { result ≡ spec.ranged least most n }
{
    match u32::try_from(n) {
        Ok(n) if n >= least && n <= most => Some(n),
        _ => None,
    }
}

/// The same where a value is a whole number.
fn ranged_value(least: u32, most: u32, value: &Value) -> Option<u32>
    ensures { result ≡ option_and_then (spec.ranged least most) (as_integer (view value.now)) }
{
    match value.as_integer() {
        Some(n) => ranged(least, most, n),
        None => None,
    }
}

/// The version of a platter, None within where none is said, and None where that is neither 1 nor 2.
fn version_said(table: &Table) -> Option<Option<u8>>
    ensures { result ≡ spec.version_of_key (get_member (codes "version") (table_view table.now)) }
{
    match value_at(table, "version") {
        Some(value) => match ranged_value(1, 2, value) {
            Some(version) => Some(Some(version as u8)),
            None => None,
        },
        None => Some(None),
    }
}

/// The most sectors of a blank platter of a version, which is 1 where none is said.
fn most_blank(version: Option<u8>) -> u32
    ensures { result ≡ spec.most_blank version }
{
    match version {
        Some(2) => 262_144,
        _ => 32_512,
    }
}

/// A blank platter of a version, None where that is no number of its sectors.
fn of_sectors(
    alloc: Global,
    address: &[u8],
    only: Option<u16>,
    version: Option<u8>,
    value: &Value,
) -> Result<Option<PlatterRow>, NoMemory>
    ensures { IfOk result (λ found. found ≡ spec.of_sectors address.now only version (view value.now)) }
{
    let Some(sectors) = ranged_value(16, most_blank(version), value) else {
        return Ok(None);
    };
    Ok(Some(PlatterRow {
        address: ByteList::from_slice(alloc, address)?,
        image: None,
        blank: Some(sectors),
        only,
        version,
    }))
}

/// A platter with an image or blank, None where it is both or neither, or a version stands beside an image.
fn platter_from(
    alloc: Global,
    address: &[u8],
    only: Option<u16>,
    version: Option<u8>,
    image: Option<&Value>,
    blank: Option<&Value>,
) -> Result<Option<PlatterRow>, NoMemory>
    ensures { IfOk result (λ found. found ≡ spec.platter_from (Some address.now) (Some only) (Some version) (option_map (λ value. view value.now) image.entry) (option_map (λ value. view value.now) blank.entry)) }
{
    match image {
        Some(value) => match blank {
            Some(_) => Ok(None),
            None => match version {
                Some(_) => Ok(None),
                None => of_image(alloc, address, only, value),
            },
        },
        None => match blank {
            Some(value) => of_sectors(alloc, address, only, version, value),
            None => Ok(None),
        },
    }
}

/// The row of a platter, None where a key is unknown, missing or of another kind.
fn platter_row(alloc: Global, table: &Table) -> Result<Option<PlatterRow>, NoMemory>
    ensures { IfOk result (λ found. found ≡ spec.platter_row (table_view table.now)) }
{
    if !all_known(Section::Platter, table) {
        return Ok(None);
    }
    let Some(address) = text_of_key(table, "address") else {
        return Ok(None);
    };
    let Some(only) = only_said(table) else {
        return Ok(None);
    };
    let Some(version) = version_said(table) else {
        return Ok(None);
    };
    platter_from(
        alloc,
        address.as_bytes(),
        only,
        version,
        value_at(table, "image"),
        value_at(table, "blank"),
    )
}

/// The row of a printer, None where a key is unknown, missing or of another kind.
fn printer_row(alloc: Global, table: &Table) -> Result<Option<PrinterRow>, NoMemory>
    ensures { IfOk result (λ found. found ≡ spec.printer_row (table_view table.now)) }
{
    if !all_known(Section::Printer, table) {
        return Ok(None);
    }
    let Some(address) = text_of_key(table, "address") else {
        return Ok(None);
    };
    let Some(only) = only_said(table) else {
        return Ok(None);
    };
    Ok(Some(PrinterRow {
        address: ByteList::from_slice(alloc, address.as_bytes())?,
        only,
    }))
}

impl TableRow for TerminalRow {
    ghost use Rattle.b2_boot.specs.Rows.{terminal_said};

    ghost of_table = { terminal_said };

    fn from_table(alloc: Global, table: &Table) -> Result<Option<TerminalRow>, NoMemory> {
        terminal_said(alloc, table)
    }
}

impl TableRow for PartitionRow {
    ghost use Rattle.b2_boot.specs.Rows.{partition_row};

    ghost of_table = { partition_row };

    fn from_table(alloc: Global, table: &Table) -> Result<Option<PartitionRow>, NoMemory> {
        partition_row(alloc, table)
    }
}

impl TableRow for PlatterRow {
    ghost use Rattle.b2_boot.specs.Rows.{platter_row};

    ghost of_table = { platter_row };

    fn from_table(alloc: Global, table: &Table) -> Result<Option<PlatterRow>, NoMemory> {
        platter_row(alloc, table)
    }
}

impl TableRow for PrinterRow {
    ghost use Rattle.b2_boot.specs.Rows.{printer_row};

    ghost of_table = { printer_row };

    fn from_table(alloc: Global, table: &Table) -> Result<Option<PrinterRow>, NoMemory> {
        printer_row(alloc, table)
    }
}

/// The row that an item of an array is, None where it is none.
fn table_row_in<R: TableRow>(alloc: Global, item: &Value) -> Result<Option<R>, NoMemory>
    ensures { IfOk result (λ found. found ≡ option_and_then R.of_table (as_table (view item.now))) }
{
    match item.as_table() {
        Some(table) => R::from_table(alloc, table),
        None => Ok(None),
    }
}

/// All items as rows, None where one is none.
fn rows_in<R: TableRow>(alloc: Global, items: &[Value]) -> Result<Option<Vec<R>>, NoMemory>
    ensures { IfOk result (λ found. option_map (λ rows. rows.items) found ≡ spec.rows_in R.of_table (items_view items.now)) }
{
    let mut rows = Vec::new(alloc);
    for item in items {
        match table_row_in(alloc, item)? {
            Some(row) => rows.push(row)?,
            None => return Ok(None),
        }
    }
    Ok(Some(rows))
}

/// The items of the array at a key: none where the key isn't there, and None where something else stands there.
fn items_at<'a>(table: &'a Table, key: &str) -> Option<&'a [Value]>
    ensures { option_map (λ items. items_view items.now) result ≡ spec.items_of_key (get_member key.now (table_view table.now)) }
{
    match value_at(table, key) {
        Some(value) => match value.as_array() {
            Some(array) => Some(array.as_slice()),
            None => None,
        },
        None => Some(&[]),
    }
}

/// The quota of a turn, None where it is missing, of another kind or outside 1 to 1000.
fn quota(table: &Table) -> Option<u16>
    ensures value { result ≡ spec.quota_of (spec.number_of_key (codes "quota") (table_view table.now)) }
    ensures in_range { IfSome result (λ quota. spec.is_between 1 1000 quota ≡ true) }
{
    let Some(quota) = number_of_key(table, "quota") else {
        return None;
    };
    if quota >= 1 && quota <= 1000 {
        Some(quota)
    } else {
        None
    }
}

/// The rows of the tables at a key, None where a key of one is unknown, missing or of another kind.
fn rows_at<R: TableRow>(alloc: Global, table: &Table, key: &str) -> Result<Option<Vec<R>>, NoMemory>
    ensures { IfOk result (λ found. option_map (λ rows. rows.items) found ≡ spec.rows_at R.of_table key.now (table_view table.now)) }
{
    match items_at(table, key) {
        Some(items) => rows_in(alloc, items),
        None => Ok(None),
    }
}

/// What a document says, None where a key is unknown, missing or of another kind, or a quota or a blank platter's sectors are
/// out of range.
pub fn boot_rows(alloc: Global, table: &Table) -> Result<Option<BootRows>, NoMemory>
    ensures value { IfOk result (λ found. found ≡ spec.document_rows (table_view table.now)) }
    ensures quota { IfOk result (λ found. IfSome found (λ rows. spec.is_between 1 1000 rows.quota ≡ true)) }
{
    if !all_known(Section::File, table) {
        return Ok(None);
    }
    let Some(quota) = quota(table) else {
        return Ok(None);
    };
    let Some(terminals) = rows_at(alloc, table, "terminal")? else {
        return Ok(None);
    };
    let Some(partitions) = rows_at(alloc, table, "partition")? else {
        return Ok(None);
    };
    let Some(platters) = rows_at(alloc, table, "platter")? else {
        return Ok(None);
    };
    let Some(printers) = rows_at(alloc, table, "printer")? else {
        return Ok(None);
    };
    Ok(Some(BootRows {
        quota,
        terminals,
        partitions,
        platters,
        printers,
    }))
}
