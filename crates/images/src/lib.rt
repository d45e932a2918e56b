// Images: the links of a hall as bytes, written and read.
#![tactic(auto)]

mod fields;
pub mod image_read;
pub mod image_write;
