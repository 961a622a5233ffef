// A boot: the quota of a turn, its terminals and partitions by number, and its platters and printers by address.
ghost use Rattle.std.specs.Prelude.{◌≡◌, unwrap_or};

use b2_base::{Addr, FileName, Name8, Part, Term};
use b2_term::PartList;
use std::marker::Model;

/// A terminal, the partition in front of it, and the order in which it goes round.
#[derive(Drop)]
pub struct BootTerminal {
    pub number: Term,
    pub front: Part,
    pub order: PartList,
}

/// A partition on its terminal, and where it has them its disk, the program that it starts from there, and its own quota in a
/// round. The sizes of its text, its variables and its globals are in KiB.
#[derive(Clone, Copy)]
pub struct BootPartition {
    pub number: Part,
    pub terminal: Term,
    pub text: u16,
    pub vars: u16,
    pub globals: u16,
    pub disk: Option<Addr>,
    pub program: Option<Name8>,
    pub quota: Option<u16>,
}

impl BootPartition {
    /// Its quota in a round: its own, or that of the boot where it has none.
    pub fn quota_or(&self, of_boot: u16) -> u16
        ensures value { result ≡ unwrap_or self.now.quota of_boot }
    {
        match self.quota {
            Some(own) => own,
            None => of_boot,
        }
    }
}

/// A platter at its address: the name of its image, or how many sectors it has, blank; the partition that alone may use it, if
/// one is named; and the version of a blank one, 1 where none is named.
#[derive(Drop)]
pub struct BootPlatter {
    pub address: Addr,
    pub image: Option<FileName>,
    pub blank: Option<u32>,
    pub only: Option<Part>,
    pub version: Option<u8>,
}

/// A printer at its address, and the partition that alone may use it, if one is named.
#[derive(Clone, Copy)]
pub struct BootPrinter {
    pub address: Addr,
    pub only: Option<Part>,
}

/// What the machine starts with. Contracts see it as one record of lists.
#[derive(Drop)]
pub struct Boot {
    pub quota: u16,
    pub terminals: Vec<BootTerminal>,
    pub partitions: Vec<BootPartition>,
    pub platters: Vec<BootPlatter>,
    pub printers: Vec<BootPrinter>,
}

impl Model for Boot {
    ghost use Rattle.b2_boot.specs.Boots.{BootState};

    ghost Value = { BootState };

    ghost view = { λ b. record { quota = b.quota; terminals = b.terminals.items; partitions = b.partitions.items; platters = b.platters.items; printers = b.printers.items } };
}
