//! The program's line, read by clap.
ghost use Rattle.std.specs.Prelude.{◌≡◌, ◌≤◌, ℕ, false, map, IfOk, IfErr, MatchOption};
ghost use Rattle.std.specs.Option.{option_copied};
ghost use Rattle.clap.specs.Words.{app_of, kind_of, rule_of};
ghost use Rattle.clap.specs.declared.error.kind.ErrorKind.TheVariants.{InvalidValue};
ghost use Rattle.wb_options.specs.Options.{command_line, option_rule, IsFaultOf, IsKind, IsNotText, IsSize};
ghost use Rattle.wb_options.specs.Options.{IsLine, IsLineFault, max_size};

use crate::arguments::{Kind, MAX_SIZE, Options};
use crate::fault::RunFault;
use clap::error::ErrorKind;
use clap::{Arg, Command, Error};
use std::alloc::{AllocError, Global};

/// Reads the program's line: its words, of which the first is the program's name.
///
/// Kind, size and the log's size are those of the words, and else a ROM, 0 and 0. Words are read as
/// clap reads them: `--size 5` or `--size=5`, each option at most once. A wrong line is `Usage`, and a
/// call for help is `Help`, each with clap's text for the user.
pub fn options<'a>(alloc: Global, words: &'a [&'a str]) -> Result<Options, RunFault>
    ensures line { IfOk result (λ options.
        IsLine (map (λ word. word.now) words.entry.now) options.kind options.size options.log_size) }
    ensures fault { IfErr result (IsLineFault (map (λ word. word.now) words.entry.now)) }
{
    let mut command = command(alloc)?;
    let matches = match command.try_get_matches_from_mut(words) {
        Ok(matches) => matches,
        Err(error) => return Err(fault_from(alloc, &error)),
    };
    let Some(kind) = kind_named(matches.get_str("kind")) else {
        return Err(wrong_value(alloc, &mut command, "--kind is rom, image or source"));
    };
    let Some(size) = size_named(matches.get_str("size")) else {
        return Err(wrong_value(alloc, &mut command, "--size is a number from 0 to 67108864"));
    };
    let Some(log_size) = size_named(matches.get_str("log")) else {
        return Err(wrong_value(alloc, &mut command, "--log is a number from 0 to 67108864"));
    };
    Ok(Options {
        kind,
        size,
        log_size,
    })
}

/// The fault of words that are not text, which is one of the program's line.
pub fn not_text(alloc: Global) -> RunFault
    ensures { IsNotText result }
{
    match command(alloc) {
        Err(_) => RunFault::Memory,
        Ok(mut command) => wrong_value(alloc, &mut command, "the words are not all UTF-8 text"),
    }
}

// What help says after the options.
const AFTER_HELP: &str = "\
Standard input is the bytes of the kind, then those of the log (0 bytes are the empty log), and then a
script: one command a line, up to `quit` or the end.
Replies go to standard output. A fault prints one line to standard error.

Statuses: 0 good, also for this help; 1 a bad image, source or log; 2 a wrong line; 3 a failed read or
write, or input that ends within the image or the log; 4 out of memory.

docs/USING.md explains the commands, and what an image, a source and a log are. bin/wb takes an image and a
script by name.";

fn command<'a>(alloc: Global) -> Result<Command<'a>, AllocError>
    ensures { IfOk result (λ command. app_of command ≡ command_line) }
{
    let kind = option(
        alloc,
        "kind",
        "KIND",
        "What the input begins with: rom, image or source [default: rom]",
    );
    let size = option(
        alloc,
        "size",
        "N",
        "How many bytes of it that takes, 0 to 67108864 [default: 0]",
    );
    let log = option(
        alloc,
        "log",
        "N",
        "How many bytes after them the log takes, 0 to 67108864 [default: 0]",
    );
    Command::new(alloc, "r3kwb")
        .about("Boots an image, runs a script and prints its replies")
        .after_help(AFTER_HELP)
        .arg(kind)?
        .arg(size)?
        .arg(log)
}

// An option with one value, and what help says of it.
fn option<'a>(alloc: Global, name: &'a str, value: &'a str, help: &'a str) -> Arg<'a>
    ensures rule { rule_of result ≡ option_rule name.now }
    ensures local { result.global ≡ false }
{
    Arg::new(alloc, name)
        .long(name)
        .value_name(value)
        .help(help)
}

// The fault for a mistake in the words, or for a call for help.
fn fault_from(alloc: Global, error: &Error) -> RunFault
    ensures { IsFaultOf (kind_of error.now) result }
{
    match error.kind() {
        ErrorKind::OutOfMemory => RunFault::Memory,
        kind => match error.to_string(alloc) {
            Err(_) => RunFault::Memory,
            Ok(text) if kind == ErrorKind::DisplayHelp => RunFault::Help(text),
            Ok(text) => RunFault::Usage(text),
        },
    }
}

// The fault for a value that an option does not take.
fn wrong_value(alloc: Global, command: &mut Command<'_>, message: &str) -> RunFault
    ensures { IsFaultOf InvalidValue result }
{
    match command.error(ErrorKind::InvalidValue, message) {
        Err(_) => RunFault::Memory,
        Ok(error) => fault_from(alloc, &error),
    }
}

fn kind_named(value: Option<&str>) -> Option<Kind>
    ensures { MatchOption result ((kind : Kind) → ¬ IsKind (option_copied value.entry) kind)
        (IsKind (option_copied value.entry)) }
{
    match value {
        None | Some("rom") => Some(Kind::Rom),
        Some("image") => Some(Kind::Image),
        Some("source") => Some(Kind::Source),
        Some(_) => None,
    }
}

fn size_named(value: Option<&str>) -> Option<u32>
    ensures { MatchOption result
        ((size : ℕ) → size ≤ max_size → ¬ IsSize (option_copied value.entry) size)
        (λ size. IsSize (option_copied value.entry) size × (size ≤ max_size)) }
{
    let Some(text) = value else {
        return Some(0);
    };
    if text.starts_with('+') {
        return None;
    }
    let size = text.parse::<u32>().ok()?;
    (size <= MAX_SIZE).then_some(size)
}
