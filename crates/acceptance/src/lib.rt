//! Tests of the whole program's calls: its command line, its readers and writers, and calls that fail. What the program answers to
//! scripts is tested by the dialogues of .ci/dialogues.
#![tactic(auto)]

#[cfg(test)]
mod calls;
#[cfg(test)]
mod command_line;
#[cfg(test)]
mod failing;
#[cfg(test)]
mod readers;
#[cfg(test)]
mod same;
