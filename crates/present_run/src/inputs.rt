//! What determines a run.

use input_log::Log;
use r3k_image::Image;

/// A boot image and a log.
#[derive(Drop)]
pub(crate) struct Inputs {
    pub image: Image,
    pub log: Log,
}
