//! Tests of runs, of what is kept of them, and of what queries cost, by direct calls.
#![tactic(auto)]

#[cfg(test)]
mod asked;
#[cfg(test)]
mod carried;
#[cfg(test)]
mod facts;
#[cfg(test)]
mod lists;
#[cfg(test)]
mod live;
#[cfg(test)]
mod meets;
#[cfg(test)]
mod reuse;
#[cfg(test)]
mod running;
#[cfg(test)]
mod states;
