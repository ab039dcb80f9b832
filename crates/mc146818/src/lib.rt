//! The clock: a part that behaves like the MC146818, a real-time clock with an alarm, a periodic
//! interrupt and RAM. Its time is that of the machine's steps: each is a tick, a unit is a number
//! of ticks that the image sets, and a second is 8192 units.
#![tactic(auto)]

mod clock;
mod divider;
pub mod laws;
mod numbers;
mod quiet;
pub mod registers;
mod time;

pub use clock::Clock;
pub use numbers::clock_numbers;
pub use quiet::quiet_laws;
