//! Tests of what the program reads and writes: images, logs, sources, lines of scripts and texts of replies.
#![tactic(auto)]

#[cfg(test)]
mod assembler;
#[cfg(test)]
mod image_format;
#[cfg(test)]
mod image_patches;
#[cfg(test)]
mod log_edits;
#[cfg(test)]
mod log_format;
#[cfg(test)]
mod reply_texts;
#[cfg(test)]
mod same;
#[cfg(test)]
mod script_lines;
#[cfg(test)]
mod tables;
