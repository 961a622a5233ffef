// What is said of a disk image.
ghost use Rattle.std.specs.Prelude.{◌≡◌, ◌++◌, IfOk, OnOk};
ghost use Rattle.b2_platter.specs.Checks.{own_check};
ghost use Rattle.b2_raw.specs.Report.{report_of, bad_report, good_report};

use b2_base::NoMemory;
use b2_catalog::listing;
use b2_platter::Platter;
use itoa::Buffer;

/// Appends the report on a good image: `good`, and its listing.
fn report_good(platter: &Platter, into: &mut Vec<u8>) -> Result<(), NoMemory>
    ensures { OnOk result (into.new.items ≡ into.old.items ++ good_report platter.now) }
{
    into.extend_from_slice(b"good\n")?;
    listing(platter, into)
}

/// Appends the report on an image that fails a check first: `bad` and its number.
fn report_bad(check: u8, into: &mut Vec<u8>) -> Result<(), NoMemory>
    ensures { OnOk result (into.new.items ≡ into.old.items ++ bad_report check) }
{
    let mut number = Buffer::new();
    into.extend_from_slice(b"bad ")?;
    into.extend_from_slice(number.format(check).as_bytes())?;
    into.push(b'\n')?;
    Ok(())
}

/// Appends the report on an image: a line `good` and the listing where it fails no check, and else a line `bad N` with the first
/// check that it fails, which is handed back.
pub fn report(bytes: Vec<u8>, into: &mut Vec<u8>) -> Result<Option<u8>, NoMemory>
    ensures check { IfOk result (λ failed. failed ≡ own_check bytes.items) }
    ensures appended { OnOk result (into.new.items ≡ into.old.items ++ report_of bytes.items) }
{
    match Platter::open(bytes) {
        Ok(platter) => {
            report_good(&platter, into)?;
            Ok(None)
        }
        Err(failed) => {
            report_bad(failed.0, into)?;
            Ok(Some(failed.0))
        }
    }
}
