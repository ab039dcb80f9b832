//! The bus of the KN02 system module: the physical map, the serial part, the clock, and the board's
//! control and status register, CSR, with its interrupt lines. Time is that of the machine's steps.
#![tactic(auto)]

mod bus;
mod csr;
mod equal;
pub mod laws;
mod lines;
mod load;
mod numbers;
mod parts;
mod region;
mod schedule;
mod store;

pub use bus::{Bus, Lines};
pub use numbers::bus_numbers;
pub use region::{ClockRegister, Device, Region};
