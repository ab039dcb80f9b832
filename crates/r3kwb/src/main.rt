//! The program: the workbench on its words, standard input, standard output and standard error.
#![tactic(auto)]

use std::env;
use std::io::ErrorKind;
use std::process::ExitCode;
use workbench::{FromRead, NoWords, Order, ToWrite, r3kwb};

fn main(rt: HostRuntime) -> ExitCode {
    let arguments = arguments(&rt);
    let words = match &arguments {
        Ok(arguments) => words(&rt, arguments),
        Err(why) => Err(*why),
    };
    let status = r3kwb(
        rt.alloc(),
        words
            .as_ref()
            .map(|words| words.as_slice())
            .map_err(|why| *why),
        &mut FromRead::new(rt.reader()),
        &mut ToWrite::new(rt.stdout()),
        &mut ToWrite::new(rt.stderr()),
        &mut Order::new(),
    );
    ExitCode::from(status)
}

// The program's words. This function and the next stand outside `main`, as their size moves the code of quick steps (docs/DECISIONS.md).
#[inline(never)]
fn arguments(rt: &HostRuntime) -> Result<Vec<String>, NoWords> {
    match env::args(rt) {
        Err(error) if error.kind() == ErrorKind::OutOfMemory => Err(NoWords::NoMemory),
        Err(_) => Err(NoWords::NotText),
        Ok(arguments) => arguments.collect(rt.alloc()).map_err(|_| NoWords::NoMemory),
    }
}

// The same as the program takes them.
#[inline(never)]
fn words<'a>(rt: &HostRuntime, arguments: &'a [String]) -> Result<Vec<&'a str>, NoWords> {
    let mut words = Vec::new(rt.alloc());
    for word in arguments {
        words.push(word.as_str()).map_err(|_| NoWords::NoMemory)?;
    }
    Ok(words)
}
