// The form of an image: the numbers in its bytes, and whether bytes are an image.
#![tactic(auto)]

pub mod fields;
pub mod image_check;
