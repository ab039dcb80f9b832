//! A history that can be edited, an image and a log, and the answers of the run from reset that they determine.
#![tactic(auto)]

mod edits;
mod queries;
mod timeline;
mod writer;

pub use input_log::MAX_POSITION;
pub use present_run::{Jumps, lacking_laws};
pub use timeline::Timeline;
pub use writer::Writer;
