//! The boot image: which words of RAM and ROM it sets, with the byte time of the serial part, the unit of the clock and
//! the registers that the clock starts with. It is read from the image format or made of the bytes of a raw ROM.
#![tactic(auto)]

mod constants;
mod fault;
mod header;
mod image;
mod numbers;
mod patch;
mod reading;
mod rom;
mod runs;
mod segment;
mod word_map;
mod writing;

pub use constants::{ClockStart, Constant};
pub use fault::{ImageFault, ImageKind};
pub use image::Image;
pub use numbers::image_numbers;
pub use reading::read_image;
pub use rom::raw_rom;
pub use word_map::{WordAddress, WordMap};
pub use writing::{image_laws, write_image};
