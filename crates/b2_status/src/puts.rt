// What the program says in the end.
ghost use Rattle.b2_base.specs.Seen.{sink_seen};
ghost use Rattle.b2_status.specs.Puts.{PutEnds};

use crate::status::Status;
use b2_base::{FileName, Keep, Sink};

/// Puts the last words of a call, which are whole, and says how the call ends.
pub fn put_last<O: Sink>(bytes: &[u8], sink: &mut O) -> Status
    ensures { PutEnds bytes.now (sink_seen O.written O.faults sink.old) (sink_seen O.written O.faults sink.new) result }
{
    match sink.put(bytes) {
        Keep::Done => Status::Ok,
        Keep::Failed => Status::WriteFault(FileName::empty()),
        Keep::NoMemory => Status::KeepNoMemory(FileName::empty()),
    }
}
