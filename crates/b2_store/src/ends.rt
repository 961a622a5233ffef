// A shared store from its start to its end: how it is made, what the outside does to it, and what is shown of it.
ghost use Rattle.std.specs.Prelude.{◌≡◌, IfOk, length, option_copied, true};
ghost use Rattle.std.specs.List.{list_all};
ghost use Rattle.b2_access.specs.Store.{content};
ghost use Rattle.b2_store.specs.Changes.{keyed_at, front_at, room_at};
ghost use Rattle.b2_store.specs.Plainly.{ServesPlainly};
ghost use Rattle.b2_store.specs.Start.{has_order, store_at_start};

use crate::boot::StoreBoot;
use b2_access::{Object, Shared};
use b2_base::{Addr, NoMemory, Part, Term};
use b2_platter::Platter;
use b2_term::{KeyItem, Terminal};
use std::alloc::Global;

/// A shared store that a world can be made with: it starts from a boot, takes keys and fronts from outside, and shows what is kept of it
/// in the end.
pub trait Ends: Shared + Sized {
    /// The store of a boot: empty texts, no `@` variables, idle terminals, printers that printed nothing, and these platters, one for each
    /// address of the boot, in its order. Nobody holds a device. The order in which a terminal goes round has a partition, and none twice.
    fn new(alloc: Global, b: &StoreBoot, platters: Vec<Platter>) -> Result<Self, NoMemory>
        requires as_many { length b.now.platters.items ≡ length platters.items }
        requires orders { list_all has_order b.now.terminals.items ≡ true }
        ensures at_start { IfOk result (λ s. Self.store (Self.meaning s) ≡ store_at_start b.now platters.items) };

    /// A terminal, None exactly where it isn't listed.
    fn terminal(&self, t: Term) -> Option<&Terminal>
        ensures listed { option_copied result ≡ content (Self.store (Self.meaning self.now)) (Object.Terminal t) };

    /// The bytes that a printer printed, None exactly where its address isn't listed.
    fn printer(&self, a: Addr) -> Option<&[u8]>
        ensures listed { option_copied result ≡ content (Self.store (Self.meaning self.now)) (Object.Printer a) };

    /// A platter, None exactly where its address isn't listed.
    fn platter(&self, a: Addr) -> Option<&Platter>
        ensures listed { option_copied result ≡ content (Self.store (Self.meaning self.now)) (Object.Platter a) };

    /// Queues a key at a terminal. It answers whether there was room, None exactly where the terminal isn't listed.
    fn key(&mut self, t: Term, k: KeyItem) -> Option<bool>
        ensures room { result ≡ room_at (content (Self.store (Self.meaning self.old)) (Object.Terminal t)) }
        ensures queued { Self.store (Self.meaning self.new) ≡ keyed_at t k (Self.store (Self.meaning self.old)) };

    /// Puts a partition in front of a terminal, where it is listed.
    fn set_front(&mut self, t: Term, p: Part)
        ensures front { Self.store (Self.meaning self.new) ≡ front_at t p (Self.store (Self.meaning self.old)) };

    /// Seen as the store in it, it serves as a plain one.
    ghost serves_plainly: { ServesPlainly Self.store Self.serving };
}
