//! What a partition has for itself, what it is lent, and what it asks of the store that all partitions share.
//!
//! A partition is `Private`: its variables, its frames, where it runs and what waits to be shown. A statement plans over that
//! and over what is `Lent`: the texts of its home and of its own, and `@` variables. It ends at once or asks for one `Access`
//! of an `Object`, of which there is an `Answer`. `Shared` is a store of any kind that serves accesses and lends. `DeviceTable`
//! says which devices a partition may use. `statement_placed` gives the statement at a place, `Found` is one where it was found, `goal_place` the place to which a goal
//! on a line leads, and `to_line` and its like say so as the end of a statement. `typed_by_mark` is what a special function key
//! types, `after_show` and `after_show_or_print` what becomes of a partition once something was shown or printed, and `drop_frames` what an edit leaves of it.
//!
//! Stands on `b2_text`, `b2_vars` and `b2_flow` for what a partition has, on `b2_term` for terminals, on `b2_rows` for goals
//! on a line, on `b2_dec` for values, on `b2_atom` for lines and on `b2_base`. The definitions are in `specs/`: a partition in
//! `Partition`, what it is lent in `Lending`, what a statement plans and how it finishes in `Planning`, what is planned at a
//! place in `Courses`, places in `Places`, `Placed`, `Found` and `Going`, keys in `Marks`, what was shown in `Showing`, and the devices
//! in `Devices`; the store in `Store`, what a shared store is in `Sharing`, and what a loan leaves in `Loans`. What an access
//! reaches is in `Reach`, what it writes and does of that, as a task, and which answers it tells in `AccessRows`, a line an
//! access; what a disk does in `Disks`, what stops an access in `Stopping`, and how it is served by these in `Serving`. What a
//! statement leaves of a partition is in `Homes`, `Keeping` and `OwnTerminal`, for which devices it asks in `OwnDevices`, and
//! what it may change in `Working` and `Steering`. What holds of serving stands in `laws`: that it is local, when each answer
//! that stops an access comes (`Causes`), which answers each can have (`Answering`), who stands inside a text after each (`Entering`),
//! and to whom names and answers lead (`Leading`). It is proved over rows and tasks, not by accesses.
#![tactic(auto)]

mod accesses;
mod devices;
mod ending;
mod fast;
mod home_mask;
mod jumps;
mod key_literals;
pub mod laws;
mod lending;
mod objects;
mod placed;
mod places;
mod planned;
mod private;
mod reached;
mod setting;
mod shared;
mod showing;

pub use accesses::{Access, Answer};
pub use devices::{Device, DeviceTable};
pub use ending::{failing, goes_or};
pub use fast::{Lead, lead_on, lead_to_goal};
pub use home_mask::{all_parts, homes_entered, is_marked};
pub use jumps::{failed, named_at, to_found, to_goal, to_line, to_place};
pub use key_literals::typed_by_mark;
pub use lending::{At, Lent};
pub use objects::Object;
pub use placed::{Found, line_named, statement_on, statement_placed};
pub use places::{goal_place, place_after};
pub use planned::{Outcome, Planned};
pub use private::{Private, drop_frames};
pub use reached::{
    Devices, DevicesWritten, Reached, TextUse, Written, devices_reached, devices_written,
    reached_by, written_by,
};
pub use setting::setting_of;
pub use shared::Shared;
pub use showing::{after_show, after_show_or_print};
