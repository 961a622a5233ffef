// The bytes of an input within a limit.
ghost use Rattle.std.specs.Prelude.{◌≡◌, ◌<◌, ◌^◌, IfOk, IfErr};
ghost use Rattle.b2_base.specs.Files.{IsFetched};
ghost use Rattle.b2_base.specs.Seen.{shelf_seen, Later};
ghost use Rattle.b2_status.specs.Fetches.{FetchFails};

use crate::status::Status;
use b2_base::{Fetch, FileName, Shelf};
use std::alloc::Global;

/// The bytes of an input within its limit.
pub fn fetch_input<F: Shelf>(
    alloc: Global,
    name: FileName,
    limit: u32,
    shelf: &mut F,
) -> Result<Vec<u8>, Status>
    requires { limit < 2 ^ 31 }
    ensures same { F.files shelf.new ≡ F.files shelf.old }
    ensures later { Later (shelf_seen F.files F.faults F.misses F.longs shelf.old) (shelf_seen F.files F.faults F.misses F.longs shelf.new) }
    ensures ok { IfOk result (λ bytes. IsFetched (F.files shelf.old) name limit bytes.items) }
    ensures err { IfErr result (λ status. FetchFails name limit (shelf_seen F.files F.faults F.misses F.longs shelf.old) (shelf_seen F.files F.faults F.misses F.longs shelf.new) status) }
{
    let mut bytes = Vec::new(alloc);
    match shelf.fetch(name.bytes(), limit as usize, &mut bytes) {
        Fetch::Done => Ok(bytes),
        Fetch::Missing => Err(Status::Missing(name)),
        Fetch::Failed => Err(Status::ReadFault(name)),
        Fetch::TooLong => Err(Status::TooLong(name, limit)),
        Fetch::NoMemory => Err(Status::NoMemory),
    }
}
