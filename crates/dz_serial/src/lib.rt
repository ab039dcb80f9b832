//! The four-line serial part (DZ) of the KN02 system module: a silo for received characters, a
//! scanner for the lines that can send, and the registers CSR, RBUF, LPR, TCR, MSR and TDR. Time is
//! counted in ticks.
#![tactic(auto)]

mod dz;
mod line;
mod numbers;
mod quiet;
mod read;
mod registers;
mod scan;
mod silo;
mod write;

pub use dz::Dz;
pub use line::SerialLine;
pub use numbers::dz_numbers;
pub use quiet::quiet_laws;
pub use registers::{CSR, MSR, RBUF, TCR};
pub use write::Sent;
