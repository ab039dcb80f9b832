//! A machine with 16 pages of RAM and a program in ROM, and lists of what is done to it and asked of it.

use cop0::number::{BAD_VADDR, CAUSE, CONTEXT, ENTRY_HI, ENTRY_LO, EPC, INDEX, RANDOM, STATUS};
use input_log::{Event, Log};
use r3k_asm::assemble;
use r3k_live::FlatMemory;
use r3k_machine::step::step;
use r3k_machine::{Core, Done, Traced, Where};
use samples::{DOLLARS, filled, program};
use std::alloc::Global;
use std::process::Abort;
use std::test::Fail;

/// Plays lists, each on a machine of its own. A list begins with a line of `$`, which says what it is about. Comments have lines of `#`.
/// The lines up to `-- ` are its program, in which `; ` may stand between instructions, and `entry I | H | L | H | L` is a translation
/// entry by Index and the halves of EntryHi and EntryLo. A list without `-- ` is the start of the programs after it, or stands in them in
/// place of `<start>`. Then comes what is done and asked, with commas or line feeds between:
///
///     run N                  runs N steps
///     receive E ..           runs a step with these events: L:B is a byte B on line L, fL:B one with a framing error, and wL:V a level of
///                            external line L
///     sends S ..             runs as many steps, each of which sends this byte, as L:B, or `none`
///     gives K W ..           runs as many steps, after each of which register K holds this, once a pending load has landed
///     sent S, stored A       the byte that the last step sent, and the word of RAM that it stored into
///     touched F P            the pages that it fetched from and loaded from or stored into
///     pc A, next A, delay D  the next instruction's address, that of the one after it, and whether it stands in a delay slot
///     register K W ..        what registers from K on hold
///     landed K W ..          the same, once a pending load has landed
///     load K W, load none    the pending load
///     status W, epc A ..     a control register, by its name in `cop0`
///     hi I W, lo I W         the two words of a translation entry
///     where A cached P ..    where an address leads
///     taken P E C            an exception or an interrupt was taken: the PC at its handler, EPC and Cause
///     unmapped B             it was of translation: the bad address, of which Context and EntryHi have the page
///     ram A W ..             the words of RAM from an address on
///
/// N*X stands for N times X, also in a program, N+M for a sum, and numbers are as in a source. A list with rows `| X | Y` is played for
/// each row with X in place of $1, Y in place of $2 and so on. With rows `/ X | Y` too it is played for each of them too, with X in place
/// of %1.
pub fn plays(rt: &(impl Abort + AllocGlobal), lists: &str) -> Result<(), Fail> {
    let alloc = rt.alloc();
    let mut start = String::new(alloc);
    for list in &samples::lists(alloc, lists)? {
        let (_, lines) = list.as_str().split_once('\n').ok_or("no name")?;
        match lines.split_once("\n-- ") {
            Some((own, asked)) => {
                let source = program_of(alloc, start.as_str(), own)?;
                Machine::boot(alloc, source.as_str())?.play(rt, alloc, list.as_str(), asked)?;
            }
            None => start = lines.to_string(alloc)?,
        }
    }
    Ok(())
}

// The program of a start and a list's own lines.
fn program_of(alloc: Global, start: &str, own: &str) -> Result<String, Fail> {
    let text = if own.contains("<start>") {
        own.replace(alloc, "<start>", start)?
    } else {
        [start, own].concat(alloc)?
    };
    let mut program = String::new(alloc);
    for line in text.as_str().lines() {
        match line.strip_prefix("entry ") {
            Some(entry) => program.push_str(filled(alloc, ENTRY, entry, &DOLLARS)?.as_str())?,
            None => program.push_str(line)?,
        }
        program.push_str("\n")?;
    }
    Ok(program)
}

// What puts a translation entry into its place, in 9 steps.
const ENTRY: &str =
    "lui r1, $2; ori r1, r1, $3; mtc0 r1, c10; lui r2, $4; ori r2, r2, $5; mtc0 r2, c2; ori r3, r0, $1; mtc0 r3, c0; tlbwi";

/// The processor and its memory.
#[derive(Drop)]
pub struct Machine {
    pub core: Core,
    memory: FlatMemory<16>,
    // What the last step reported.
    done: Done,
}

impl Machine {
    /// The machine at reset, with the words of a source.
    pub fn boot(alloc: Global, source: &str) -> Result<Machine, Fail> {
        let image = assemble(alloc, program(alloc, source)?.as_str().as_bytes())?;
        Ok(Machine {
            core: Core::reset(alloc, &image)?,
            memory: FlatMemory::boot(alloc, &image)?,
            done: Traced::default().done,
        })
    }

    /// Plays a list. A message gives the clause that fails, and the list.
    pub fn play(
        &mut self,
        rt: &impl Abort,
        alloc: Global,
        list: &str,
        asked: &str,
    ) -> Result<(), Fail> {
        for line in asked.lines() {
            for clause in line.split(", ") {
                let mut words = Vec::new(alloc);
                for word in clause.split_whitespace() {
                    let (times, word) = word.split_once('*').unwrap_or(("1", word));
                    for _ in 0..number(times)? {
                        words.push(word)?;
                    }
                }
                assert!(rt; self.holds(alloc, words.as_slice())?, "{clause} of {list}");
            }
        }
        Ok(())
    }

    // Does what some words say, or else asks it, and answers whether all was as they say.
    fn holds(&mut self, alloc: Global, words: &[&str]) -> Result<bool, Fail> {
        match words {
            [] => {}
            ["run", steps] => self.run(number(steps)?),
            ["receive", events @ ..] => self.receive(events_of(alloc, events)?.events()),
            ["sends", wants @ ..] => return self.each("sent", 0, wants),
            ["writes", wants @ ..] => return self.each("wrote", 0, wants),
            ["gives", register, wants @ ..] => return self.each("landed", number(register)?, wants),
            _ => return self.asks(words),
        }
        Ok(true)
    }

    /// Runs `steps` steps.
    pub fn run(&mut self, steps: u32) {
        for _ in 0..steps {
            self.receive(&[]);
        }
    }

    // Runs a step with these events.
    fn receive(&mut self, events: &[Event]) {
        self.done = step(&mut self.core, &mut self.memory, events);
    }

    // Runs as many steps, each of which leaves this under a name.
    fn each(&mut self, name: &str, at: u32, wants: &[&str]) -> Result<bool, Fail> {
        for want in wants {
            self.run(1);
            if self.value(name, at)? != option(want)? {
                return Ok(false);
            }
        }
        Ok(true)
    }

    // Whether all is as some words say.
    fn asks(&self, words: &[&str]) -> Result<bool, Fail> {
        let (core, cop0) = (&self.core, self.core.cop0());
        Ok(match words {
            ["touched", fetch, other] => self.done.touched == [option(fetch)?, option(other)?],
            ["load", "none"] => core.load().is_none(),
            ["where", at, "refill"] => core.where_is(number(at)?) == Where::Refill,
            ["where", at, "adel"] => core.where_is(number(at)?) == Where::Adel,
            ["where", at, "cached", to] => core.where_is(number(at)?) == Where::Cached(number(to)?),
            ["where", at, "uncached", to] => {
                core.where_is(number(at)?) == Where::Uncached(number(to)?)
            }
            ["taken", pc, epc, cause] => {
                core.pc() == number(pc)?
                    && cop0.read(EPC) == number(epc)?
                    && cop0.read(CAUSE) == number(cause)?
            }
            ["unmapped", bad] => {
                let bad = number(bad)?;
                cop0.read(BAD_VADDR) == bad
                    && cop0.read(CONTEXT) == (bad & 0x7FFF_F000) >> 10
                    && cop0.read(ENTRY_HI) == bad & 0xFFFF_F000
            }
            [name, want] => self.value(name, 0)? == option(want)?,
            [name, first, wants @ ..] => {
                let (mut at, next) = (number(first)?, if *name == "ram" { 4 } else { 1 });
                for want in wants {
                    if self.value(name, at)? != option(want)? {
                        return Ok(false);
                    }
                    at = at.wrapping_add(next);
                }
                true
            }
            _ => false,
        })
    }

    // What stands under a name, or at a place under it.
    fn value(&self, name: &str, at: u32) -> Result<Option<u32>, Fail> {
        let (core, cop0) = (&self.core, self.core.cop0());
        let register = core.registers().get(at as usize).copied();
        let loaded = match core.load() {
            Some(load) if load.register() as u32 == at => Some(load.value()),
            _ => None,
        };
        Ok(Some(match name {
            "sent" => match self.done.sent {
                Some(sent) => u32::from_be_bytes([0, 0, sent.line.number(), sent.byte]),
                None => return Ok(None),
            },
            "stored" => return Ok(self.done.stored),
            "wrote" => self.done.wrote.index() as u32,
            "register" => return Ok(register),
            "load" => return Ok(loaded),
            "landed" => return Ok(loaded.or(register)),
            "ram" => return Ok(self.memory.words().get(at as usize / 4).copied()),
            "pc" => core.pc(),
            "next" => core.next_pc(),
            "delay" => core.delay() as u32,
            "hi" => core.entry(at % 64).hi,
            "lo" => core.entry(at % 64).lo,
            "index" => cop0.read(INDEX),
            "random" => cop0.read(RANDOM),
            "entrylo" => cop0.read(ENTRY_LO),
            "context" => cop0.read(CONTEXT),
            "badvaddr" => cop0.read(BAD_VADDR),
            "entryhi" => cop0.read(ENTRY_HI),
            "status" => cop0.read(STATUS),
            "cause" => cop0.read(CAUSE),
            "epc" => cop0.read(EPC),
            _ => return Err("no such name".into()),
        }))
    }
}

// A number as in a source, a sum, or a line and a byte as 256 times the one and the other.
fn number(word: &str) -> Result<u32, Fail> {
    let mut number = 0u32;
    for part in word.split(':') {
        number = number.wrapping_mul(256);
        for term in part.split('+') {
            number = number.wrapping_add(u32::try_from(samples::number(term)?)?);
        }
    }
    Ok(number)
}

// A number, or `none`.
fn option(word: &str) -> Result<Option<u32>, Fail> {
    match word {
        "none" => Ok(None),
        _ => Ok(Some(number(word)?)),
    }
}

// The events of one step, in the log that has them.
fn events_of(alloc: Global, words: &[&str]) -> Result<Log, Fail> {
    let mut log = Log::new(alloc);
    for word in words {
        let (framing, wire) = (word.strip_prefix("f"), word.strip_prefix("w"));
        let [_, _, line, byte] = number(framing.or(wire).unwrap_or(word))?.to_be_bytes();
        if framing.is_some() {
            log.ferr(0, line, byte)?;
        } else if wire.is_some() {
            log.wire(0, line, byte)?;
        } else {
            log.add(0, line, byte)?;
        }
    }
    Ok(log)
}
