//! Tests of single parts: instructions, registers, entries, caches, devices, pages and trees, by values from outside.
#![tactic(auto)]

#[cfg(test)]
mod bus;
#[cfg(test)]
mod caches;
#[cfg(test)]
mod clock;
#[cfg(test)]
mod control_registers;
#[cfg(test)]
mod effects;
#[cfg(test)]
mod encodings;
#[cfg(test)]
mod entries;
#[cfg(test)]
mod indexes;
#[cfg(test)]
mod lists;
#[cfg(test)]
mod pages;
#[cfg(test)]
mod same;
#[cfg(test)]
mod serial_part;
#[cfg(test)]
mod texts;
#[cfg(test)]
mod vectors;
