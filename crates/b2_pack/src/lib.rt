//! Values in packed fields: what PACK, UNPACK, $PACK and $UNPACK do with a buffer.
//!
//! PACK and UNPACK put numbers side by side as rows of decimal digits, by an image; $PACK and $UNPACK put values of either
//! kind into the fields of a specification. `specs/Images.antt` has what an image is, `specs/Specification.antt` the pairs
//! of a specification, `specs/Rows.antt` and `specs/FieldValues.antt` one number in nibbles and one value in a field,
//! `specs/Packing.antt` and `specs/Unpacking.antt` whole lists of them with their codes, and `specs/Laws.antt` what holds
//! of all this: what is packed comes back.
//!
//! Packing tests everything before it writes, and takes no memory; unpacking takes memory for what it gives alone.
//! Stands on `b2_dec`, on `b2_dectext` for what a field is made of and for rounding, and on `b2_alpha` for padding.
#![tactic(auto)]

mod field_values;
mod image;
mod laws;
mod nibbles;
mod packing;
mod rows;
mod specification;
mod unpacking;

pub use image::is_image;
pub use laws::{
    law_fields_keep_values, law_images_are_read, law_rows_keep_numbers,
    law_rows_side_by_side_keep_numbers, law_there_is_one_way_to_pack,
    law_unpacking_gives_what_was_packed, law_written_pairs_are_read,
};
pub use packing::{check_fields, check_pack, fields, pack};
pub use specification::is_specification;
pub use unpacking::{unfields, unpack};
