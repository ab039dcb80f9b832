//! A program for tests of refused memory. It plays a script on a machine with 16 pages and spans of 64 steps. Or it makes the calls
//! that take memory, or those that take none, and shows what each gave. What lacked memory is done once more. `bench/refuse` runs
//! it and refuses its requests for memory in turn. By itself it asks for memory only in those calls.
#![tactic(auto)]

mod calls;
mod free;
mod input;
mod record;
mod script;
mod show;

use input::{Wanted, asked_for, read_all};
use show::Show;
use workbench::{FromRead, ToWrite};

fn main(rt: HostRuntime) {
    let mut buffer = [0u8; input::ROOM];
    let length = read_all(&mut FromRead::new(rt.reader()), &mut buffer);
    let mut show = Show::new(ToWrite::new(rt.stdout()));
    match asked_for(&buffer[..length]) {
        Some(Wanted::Script { boot, log, script }) => {
            script::play::<16, 64, _>(rt.alloc(), boot, log, script, &mut show);
        }
        Some(Wanted::Calls) => calls::play::<16, 64, _>(rt.alloc(), &mut show),
        Some(Wanted::Free) => free::play::<16, 64, _>(rt.alloc(), &mut show),
        None => show.line(&[b"no mode"]),
    }
}
