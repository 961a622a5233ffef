//! What PRINT, PRINTUSING and CONVERT show.
//!
//! `lay` puts the items of PRINT into columns and zones, and begins a new line before an item that would pass the width.
//! `lay_number` and its like do the same for one item. All append straight to the text that they are lent.
//! Two items are for the screen as a whole: the cursor at a place, and a box. They show sequences of bytes that begin
//! with 02, and the width doesn't act on them.
//! `using` puts values into the fields of an image, and `convert` one number. Each of them shows exactly what its
//! definition gives, has each code exactly where the definition has it, and leaves what was lent as it was after any
//! error.
//!
//! The definitions are functions on whole lists: `specs/Columns.antt` says where the next byte goes, `specs/Screen.antt`
//! what places the cursor and draws a box, `specs/Layout.antt` what items become on lines of a width, `specs/Images.antt`
//! what an image is made of, `specs/Filling.antt` what a value becomes in a field, and `specs/Imaged.antt` what values
//! become in an image. `specs/Reading.antt` says which column a screen is at that reads bytes, and `specs/Laws.antt` what
//! holds of all of them.
//!
//! Stands on `b2_dectext` for the printed form of a number and for what a field is made of, on `b2_dec` for numbers and
//! values, on `b2_alpha` for padding, and on `b2_base`.
#![tactic(auto)]

mod columns;
mod filling;
mod image;
mod imaging;
mod laws;
mod layout;
mod screen;

pub use columns::column_after;
pub use imaging::{convert, using};
pub use laws::{
    law_column_is_read, law_fields_keep_their_width, law_items_go_on, law_lines_fit,
    law_pieces_are_the_image, law_screen_stays_within, law_zones_end,
};
pub use layout::{
    Item, are_on_screen, lay, lay_bytes, lay_hex, lay_line, lay_number, lay_outline, lay_place,
    lay_tab, lay_zone,
};
pub use screen::{SCREEN_COLUMNS, SCREEN_ROWS};
