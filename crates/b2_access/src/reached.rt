// What an access reaches, and what it writes of that.
ghost use Rattle.std.specs.Prelude.{◌≡◌, ◌||◌, ℕ, Option, is_some, true, false, Some, None};
ghost use Rattle.b2_access.specs.AccessRows.{names_of, reach as reach_by, row, writes_by};
ghost use Rattle.b2_access.specs.Reach as reach;
ghost use Rattle.b2_access.specs.Holding.{changes_device, changes_name, devices_changed};
ghost use Rattle.b2_access.specs.Reach.{device_objects_written, devices_of, is_device_written, reach_of};

use crate::accesses::Access;
use b2_base::{Addr, Name8, Part, Term};

/// How the text of the partition that asks is reached.
#[derive(Clone, Copy)]
pub enum TextUse {
    /// Not at all.
    Unused,
    /// It is read.
    Read,
    /// It is edited, where nobody stands inside.
    Edited,
}

/// What an access reaches of what the store has so far, beside devices.
#[derive(Clone, Copy)]
pub struct Reached {
    /// The terminal that it names.
    pub terminal: Option<Term>,
    /// The text of the partition that asks.
    pub text: TextUse,
    /// Whether the `@` variables of the partition that asks.
    pub variables: bool,
    /// A text that is left: who stands inside.
    pub left: Option<Part>,
    /// The texts that are given back, by the bits of their partitions: who stands inside each.
    pub homes: u16,
    /// A name by which a text is entered: that of who holds it, with who stands inside.
    pub entered: Option<Name8>,
    /// A name.
    pub name: Option<Name8>,
    /// A name that is given up.
    pub old_name: Option<Name8>,
}

/// Nothing.
fn reaches_nothing() -> Reached
    ensures { result ≡ record { terminal = None; text = TextUse.Unused; variables = false; left = None; homes = 0; entered = None; name = None; old_name = None } }
{
    Reached {
        terminal: None,
        text: TextUse::Unused,
        variables: false,
        left: None,
        homes: 0,
        entered: None,
        name: None,
        old_name: None,
    }
}

/// A terminal.
fn at_terminal(term: Term) -> Reached
    ensures { reach_of result ≡ reach.at_terminal term }
{
    Reached {
        terminal: Some(term),
        ..reaches_nothing()
    }
}

/// The text of the partition that asks, which is edited, with the texts that are given back and a name that is given up for that, where
/// there is one.
fn edited_text(homes: u16, old: Option<Name8>) -> Reached
    ensures { reach_of result ≡ record (reach.own_text homes) { names = reach.if_any old } }
{
    Reached {
        text: TextUse::Edited,
        homes,
        old_name: old,
        ..reaches_nothing()
    }
}

/// A name, and one that is given up where there is one.
fn at_names(name: Name8, old: Option<Name8>) -> Reached
    ensures { reach_of result ≡ reach.at_names (names_of name old) }
{
    Reached {
        name: Some(name),
        old_name: old,
        ..reaches_nothing()
    }
}

/// What an access reaches beside devices.
pub fn reached_by(access: &Access) -> Reached
    ensures reached { record (reach_of result) { devices = (reach_by access.now).devices } ≡ reach_by access.now }
{
    match access {
        Access::Show { term, .. }
        | Access::ReadLine { term }
        | Access::Insert { term, .. }
        | Access::Key { term }
        | Access::Release { term } => at_terminal(*term),
        Access::PutLine { homes, .. } | Access::Erase { homes, .. } => edited_text(*homes, None),
        Access::LoadProgram {
            declared,
            homes,
            ..
        } => edited_text(*homes, *declared),
        Access::ClearAll { name, homes } => Reached {
            variables: true,
            ..edited_text(*homes, *name)
        },
        Access::SaveProgram { .. } => Reached {
            text: TextUse::Read,
            ..reaches_nothing()
        },
        Access::Enter { name, .. } => Reached {
            entered: Some(*name),
            ..reaches_nothing()
        },
        Access::Leave { home } => Reached {
            left: Some(*home),
            ..reaches_nothing()
        },
        Access::Drop { homes } => Reached {
            homes: *homes,
            ..reaches_nothing()
        },
        Access::Declare { name, old } => at_names(*name, *old),
        Access::FindPart { name } => at_names(*name, None),
        Access::PrintTo { .. }
        | Access::OpenDevices { .. }
        | Access::CloseDevices { .. }
        | Access::Limits { .. }
        | Access::ListDisk { .. }
        | Access::Scratch { .. }
        | Access::Format { .. }
        | Access::DataNew { .. }
        | Access::DataOpen { .. }
        | Access::DataSave { .. }
        | Access::DataEnd { .. }
        | Access::DataLoad { .. }
        | Access::Skip { .. }
        | Access::RawSave { .. }
        | Access::RawEnd { .. }
        | Access::RawLoad { .. }
        | Access::BlockSave { .. }
        | Access::BlockLoad { .. }
        | Access::MovePlatter { .. }
        | Access::MoveFile { .. } => reaches_nothing(),
    }
}

/// Which devices an access reaches, in the order written.
#[derive(Clone, Copy)]
pub enum Devices<'a> {
    /// None.
    NoDevice,
    /// A platter, and who holds it.
    Disk(Addr),
    /// Two platters, and who holds them.
    TwoDisks(Addr, Addr),
    /// A printer, and who holds it.
    Printer(Addr),
    /// Who holds each of these, which are taken.
    Taken(&'a [Addr]),
    /// Who holds each of these, which are freed where the partition that asks holds them.
    Freed(&'a [Addr]),
}

/// Which devices an access reaches.
pub fn devices_reached(access: &Access) -> Devices<'_>
    ensures reached { devices_of result ≡ (reach_by access.now).devices }
{
    match access {
        Access::Show { .. }
        | Access::ReadLine { .. }
        | Access::Insert { .. }
        | Access::Key { .. }
        | Access::Release { .. }
        | Access::PutLine { .. }
        | Access::Erase { .. }
        | Access::ClearAll { .. }
        | Access::Enter { .. }
        | Access::Leave { .. }
        | Access::Drop { .. }
        | Access::Declare { .. }
        | Access::FindPart { .. } => Devices::NoDevice,
        Access::PrintTo { addr, .. } => Devices::Printer(*addr),
        Access::OpenDevices { addrs } => Devices::Taken(addrs.addresses()),
        Access::CloseDevices { addrs } => Devices::Freed(addrs.addresses()),
        Access::Limits { addr, .. }
        | Access::ListDisk { addr }
        | Access::Scratch { addr, .. }
        | Access::Format { addr, .. }
        | Access::DataNew { addr, .. }
        | Access::DataOpen { addr, .. }
        | Access::RawSave { addr, .. }
        | Access::RawEnd { addr, .. }
        | Access::RawLoad { addr, .. }
        | Access::BlockSave { addr, .. }
        | Access::BlockLoad { addr, .. }
        | Access::SaveProgram { addr, .. }
        | Access::LoadProgram { addr, .. } => Devices::Disk(*addr),
        Access::DataSave { slot, .. }
        | Access::DataEnd { slot }
        | Access::DataLoad { slot, .. }
        | Access::Skip { slot, .. } => Devices::Disk(slot.addr),
        Access::MovePlatter { from, to } | Access::MoveFile { from, to, .. } => {
            Devices::TwoDisks(*from, *to)
        }
    }
}

/// What an access writes of what it reaches, where nothing stops it, beside devices.
#[derive(Clone, Copy)]
pub struct Written {
    /// The terminal that it names.
    pub terminal: Option<Term>,
    /// Whether the text of the partition that asks.
    pub text: bool,
    /// Whether the `@` variables of the partition that asks.
    pub variables: bool,
    /// A text that is left: who stands inside.
    pub left: Option<Part>,
    /// The texts that are given back, by the bits of their partitions: who stands inside each.
    pub homes: u16,
    /// Whether who stands inside the text that is entered.
    pub enters: bool,
    /// A name.
    pub name: Option<Name8>,
    /// A name that is given up.
    pub old_name: Option<Name8>,
}

/// Nothing is written.
fn writes_nothing() -> Written
    ensures { result ≡ record { terminal = None; text = false; variables = false; left = None; homes = 0; enters = false; name = None; old_name = None } }
{
    Written {
        terminal: None,
        text: false,
        variables: false,
        left: None,
        homes: 0,
        enters: false,
        name: None,
        old_name: None,
    }
}

/// A terminal is written.
fn writes_terminal(term: Term) -> Written
    ensures { result ≡ record { terminal = Some term; text = false; variables = false; left = None; homes = 0; enters = false; name = None; old_name = None } }
{
    Written {
        terminal: Some(term),
        ..writes_nothing()
    }
}

/// The text of the partition that asks is written, the texts that are given back for that, and a name that is given up, where there is one.
fn writes_text(variables: bool, homes: u16, old: Option<Name8>) -> Written
    ensures { result ≡ record { terminal = None; text = true; variables = variables; left = None; homes = homes; enters = false; name = None; old_name = old } }
{
    Written {
        text: true,
        variables,
        homes,
        old_name: old,
        ..writes_nothing()
    }
}

/// A name is written, and one that is given up where there is one.
fn writes_names(name: Name8, old: Option<Name8>) -> Written
    ensures { result ≡ record { terminal = None; text = false; variables = false; left = None; homes = 0; enters = false; name = Some name; old_name = old } }
{
    Written {
        name: Some(name),
        old_name: old,
        ..writes_nothing()
    }
}

/// What an access writes beside devices, where nothing stops it.
#[tactic(auto, using(crate::proofs::Appended::nothing_after, crate::proofs::Appended::nothing_after_both))]
pub fn written_by(access: &Access) -> Written
    ensures written { (who : ℕ) (holder : Option ℕ) → writes_by result (devices_changed access.now) who holder ≡ (row access.now).writes who holder }
    ensures names { (is_some result.name || is_some result.old_name) ≡ changes_name access.now }
{
    match access {
        Access::Show { term, .. }
        | Access::ReadLine { term }
        | Access::Insert { term, .. }
        | Access::Key { term }
        | Access::Release { term } => writes_terminal(*term),
        Access::PutLine { homes, .. } | Access::Erase { homes, .. } => {
            writes_text(false, *homes, None)
        }
        Access::LoadProgram {
            declared,
            homes,
            ..
        } => writes_text(false, *homes, *declared),
        Access::ClearAll { name, homes } => writes_text(true, *homes, *name),
        Access::Enter { .. } => Written {
            enters: true,
            ..writes_nothing()
        },
        Access::Leave { home } => Written {
            left: Some(*home),
            ..writes_nothing()
        },
        Access::Drop { homes } => Written {
            homes: *homes,
            ..writes_nothing()
        },
        Access::Declare { name, old } => writes_names(*name, *old),
        Access::FindPart { .. }
        | Access::PrintTo { .. }
        | Access::OpenDevices { .. }
        | Access::CloseDevices { .. }
        | Access::Limits { .. }
        | Access::ListDisk { .. }
        | Access::Scratch { .. }
        | Access::Format { .. }
        | Access::DataNew { .. }
        | Access::DataOpen { .. }
        | Access::DataSave { .. }
        | Access::DataEnd { .. }
        | Access::DataLoad { .. }
        | Access::Skip { .. }
        | Access::RawSave { .. }
        | Access::RawEnd { .. }
        | Access::RawLoad { .. }
        | Access::BlockSave { .. }
        | Access::BlockLoad { .. }
        | Access::SaveProgram { .. }
        | Access::MovePlatter { .. }
        | Access::MoveFile { .. } => writes_nothing(),
    }
}

/// Which devices an access writes.
#[derive(Clone, Copy)]
pub enum DevicesWritten<'a> {
    /// None.
    NoDevice,
    /// A platter.
    Platter(Addr),
    /// A printer.
    Printer(Addr),
    /// Who holds each of these.
    Holders(&'a [Addr]),
}

/// Which devices an access writes, where nothing stops it.
pub fn devices_written(access: &Access) -> DevicesWritten<'_>
    ensures written { device_objects_written result ≡ devices_changed access.now }
    ensures any { is_device_written result ≡ changes_device access.now }
{
    match access {
        Access::Show { .. }
        | Access::ReadLine { .. }
        | Access::Insert { .. }
        | Access::Key { .. }
        | Access::Release { .. }
        | Access::PutLine { .. }
        | Access::Erase { .. }
        | Access::ClearAll { .. }
        | Access::Enter { .. }
        | Access::Leave { .. }
        | Access::Drop { .. }
        | Access::Declare { .. }
        | Access::FindPart { .. }
        | Access::Limits { .. }
        | Access::ListDisk { .. }
        | Access::DataOpen { .. }
        | Access::DataLoad { .. }
        | Access::Skip { .. }
        | Access::RawLoad { .. }
        | Access::BlockLoad { .. }
        | Access::LoadProgram { .. } => DevicesWritten::NoDevice,
        Access::PrintTo { addr, .. } => DevicesWritten::Printer(*addr),
        Access::OpenDevices { addrs } | Access::CloseDevices { addrs } => {
            DevicesWritten::Holders(addrs.addresses())
        }
        Access::Scratch { addr, .. }
        | Access::Format { addr, .. }
        | Access::DataNew { addr, .. }
        | Access::RawSave { addr, .. }
        | Access::RawEnd { addr, .. }
        | Access::BlockSave { addr, .. }
        | Access::SaveProgram { addr, .. } => DevicesWritten::Platter(*addr),
        Access::MovePlatter { to, .. } | Access::MoveFile { to, .. } => {
            DevicesWritten::Platter(*to)
        }
        Access::DataSave { slot, .. } | Access::DataEnd { slot } => {
            DevicesWritten::Platter(slot.addr)
        }
    }
}
