//! Tests of the machine step by step: exceptions, translation, devices and their interrupts.
#![tactic(auto)]

#[cfg(test)]
mod devices;
#[cfg(test)]
mod external_lines;
#[cfg(test)]
mod interrupts;
#[cfg(test)]
mod isolated;
#[cfg(test)]
mod machine;
#[cfg(test)]
mod register_stores;
#[cfg(test)]
mod registers;
#[cfg(test)]
mod silo;
#[cfg(test)]
mod steps;
#[cfg(test)]
mod translation;
