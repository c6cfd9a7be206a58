//! Images: code as bytes.
//!
//! Below it stand `mc_protocol`, `mc_script` and `mc_code`. The crates above use which bytes are an image of a code, and that
//! no other code has them (`specs/Image.antt`).
#![tactic(auto)]

mod fault;
mod fields;
mod image_laws;
mod image_reader;
mod image_version;
mod image_writer;
mod read_declared;
mod read_section;
mod read_template;
mod well_formed;

pub use fault::{ImageFault, ImageKind};
pub use image_laws::{codes_have_images, images_are_of_one_code, images_are_written_again};
pub use image_reader::decode;
pub use image_writer::encode;
