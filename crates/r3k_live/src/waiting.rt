//! Loops that wait. They come back to the very state from which they began, so that all turns up to the next event are known, and pass
//! at once.

ghost use Rattle.std.specs.Prelude.{◌≡◌, ◌+◌, ◌*◌, ◌^◌, ◌<◌, ◌≤◌, Contains, IsTrue, ℕ, List, length, slice_index};
ghost use Rattle.input_log.specs.Event.{LogEvent};
ghost use Rattle.r3k_word.specs.declared.layout.TheConstants.{PAGE_WORDS};
ghost use Rattle.r3k_machine.specs.SameProcessor.{with_processor};
ghost use Rattle.r3k_machine.specs.State.{State};
ghost use Rattle.r3k_live.specs.Going.{AreLeft, HasGone, HasGoneFor};
ghost use Rattle.r3k_live.specs.Living.{state_of};
ghost use Rattle.r3k_live.specs.Waiting.{HasPassed, held_at};
ghost use Rattle.r3k_live.specs.declared.waiting.Found.TheVariants.{Back};

use crate::flat::FlatMemory;
use crate::recorder::Recorder;
use crate::stores::Held;
use crate::stretch::{get_ready, quick_pages, stretch};
use input_log::Cursor;
use r3k_machine::{Core, Processor, quiet_laws};

// The longest turn that is looked for, and how often the PC may come back to where it was with other registers.
const LONGEST: u32 = 128;

const RETURNS: u32 = 2;

/// After how many steps of a stretch it is first looked whether the machine waits.
pub(crate) const PATIENCE: u32 = 512;

// Where it does not wait, it is looked the next time after a stretch that is longer by this factor.
const MORE_PATIENCE: u32 = 2;

// What was found of a turn.
#[derive(Clone, Copy)]
enum Found {
    // It came back to where it began.
    Back,
    // It did not.
    NotBack,
    // The quiet times ended before it came round once more.
    NoTime,
}

// The steps of a turn, and what was found of it.
#[derive(Clone, Copy)]
struct Turn {
    steps: u32,
    found: Found,
}

// The patience after a turn.
fn patience_after(patience: u32, found: Found) -> u32 {
    match found {
        Found::Back => PATIENCE,
        Found::NotBack => patience.saturating_mul(MORE_PATIENCE),
        Found::NoTime => patience,
    }
}

/// Makes steps where the machine may wait, some or none. It changes how long a stretch is before the next time.
#[inline(never)]
pub(crate) fn wait<const PAGES: u32, const SPAN: u32>(
    core: &mut Core,
    memory: &mut FlatMemory<PAGES>,
    time: u64,
    events: &Cursor,
    most: u32,
    stop: u64,
    recorder: &mut Recorder<PAGES, SPAN>,
    patience: &mut u32,
) -> u32
    requires room { recorder.old.steps + most ≤ SPAN }
    requires time { time + most < 2 ^ 64 }
    requires elsewhere { ¬ (core.old.pc ≡ stop) }
    ensures bound { result ≤ most }
    ensures steps { recorder.new.steps ≡ recorder.old.steps + result }
    ensures goes { (log : List LogEvent) (from : ℕ) (start : State) (made : ℕ) → time ≡ from + made → AreLeft time events.now log →
        HasGone PAGES log from start made (state_of core.old memory.old) recorder.old →
        HasGoneFor PAGES log from start stop made result recorder.old (state_of core.new memory.new) recorder.new }
{
    let turn = go_round(core, memory, time, events, most, stop, recorder);
    let Found::Back = turn.found else {
        *patience = patience_after(*patience, turn.found);
        return turn.steps;
    };
    let time = time + turn.steps as u64;
    let again = go_round_again(
        core,
        memory,
        time,
        events,
        most - turn.steps,
        turn.steps,
        stop,
        recorder,
    );
    *patience = patience_after(*patience, again.found);
    turn.steps + again.steps
}

// Makes steps up to one that comes to an address, at most `most` and maybe fewer. Where they would also have to end at another one, they are
// made one at a time.
#[inline(always)]
fn come_back<const PAGES: u32, const SPAN: u32>(
    core: &mut Core,
    memory: &mut FlatMemory<PAGES>,
    time: u64,
    events: &Cursor,
    most: u32,
    pc: u32,
    stop: u64,
    recorder: &mut Recorder<PAGES, SPAN>,
) -> u32
    requires some { 0 < most }
    requires room { recorder.old.steps + most ≤ SPAN }
    ensures bound { result ≤ most }
    ensures steps { recorder.new.steps ≡ recorder.old.steps + result }
    ensures goes { (log : List LogEvent) (from : ℕ) (start : State) (made : ℕ) → time ≡ from + made → AreLeft time events.now log →
        HasGone PAGES log from start made (state_of core.old memory.old) recorder.old →
        HasGoneFor PAGES log from start stop made result recorder.old (state_of core.new memory.new) recorder.new }
{
    if stop > u64::from(u32::MAX) {
        return stretch(core, memory, time, events, most, u64::from(pc), recorder);
    }
    stretch(core, memory, time, events, 1, stop, recorder)
}

// Makes steps until PC and registers are what they were, or this does not come soon.
fn go_round<const PAGES: u32, const SPAN: u32>(
    core: &mut Core,
    memory: &mut FlatMemory<PAGES>,
    time: u64,
    events: &Cursor,
    most: u32,
    stop: u64,
    recorder: &mut Recorder<PAGES, SPAN>,
) -> Turn
    requires room { recorder.old.steps + most ≤ SPAN }
    requires time { time + most < 2 ^ 64 }
    requires elsewhere { ¬ (core.old.pc ≡ stop) }
    ensures bound { result.steps ≤ most }
    ensures steps { recorder.new.steps ≡ recorder.old.steps + result.steps }
    ensures some { result.found ≡ Back → 0 < result.steps }
    ensures elsewhere { result.found ≡ Back → ¬ (core.new.pc ≡ stop) }
    ensures goes { (log : List LogEvent) (from : ℕ) (start : State) (made : ℕ) → time ≡ from + made → AreLeft time events.now log →
        HasGone PAGES log from start made (state_of core.old memory.old) recorder.old →
        HasGoneFor PAGES log from start stop made result.steps recorder.old (state_of core.new memory.new) recorder.new }
{
    let pc = core.pc();
    let registers = *core.registers();
    let longest = most.min(LONGEST);
    let mut returns = 0;
    let mut steps = 0;
    while steps < longest {
        let more = come_back(
            core,
            memory,
            time + steps as u64,
            events,
            longest - steps,
            pc,
            stop,
            recorder,
        );
        if more == 0 {
            break;
        }
        steps += more;
        if core.pc() as u64 == stop {
            break;
        }
        if core.pc() == pc {
            if *core.registers() == registers {
                let found = Found::Back;
                return Turn { steps, found };
            }
            returns += 1;
            if returns == RETURNS {
                break;
            }
        }
    }
    let found = Found::NotBack;
    Turn { steps, found }
}

// Makes the steps of a turn once more. If they come back to the very same state, all other turns that there is time for pass at once.
fn go_round_again<const PAGES: u32, const SPAN: u32>(
    core: &mut Core,
    memory: &mut FlatMemory<PAGES>,
    time: u64,
    events: &Cursor,
    most: u32,
    turn: u32,
    stop: u64,
    recorder: &mut Recorder<PAGES, SPAN>,
) -> Turn
    requires room { recorder.old.steps + most ≤ SPAN }
    requires turn { 0 < turn }
    requires before { turn ≤ recorder.old.steps }
    requires elsewhere { ¬ (core.old.pc ≡ stop) }
    ensures bound { result.steps ≤ most }
    ensures steps { recorder.new.steps ≡ recorder.old.steps + result.steps }
    ensures goes { (log : List LogEvent) (from : ℕ) (start : State) (made : ℕ) → time ≡ from + made → AreLeft time events.now log →
        HasGone PAGES log from start made (state_of core.old memory.old) recorder.old →
        HasGoneFor PAGES log from start stop made result.steps recorder.old (state_of core.new memory.new) recorder.new }
{
    quiet_laws();
    let none = Turn {
        steps: 0,
        found: Found::NoTime,
    };
    let Some(mut ready) = get_ready(core, memory, time, events, most, recorder) else {
        return none;
    };
    if ready.steps < turn {
        return none;
    }
    let since = recorder.steps();
    let Some(held) = recorder.held(since - turn, memory.words()) else {
        let found = Found::NotBack;
        return Turn { steps: 0, found };
    };
    let processor = core.processor();
    let steps = quick_pages(core, memory, &mut ready.page, turn, stop, recorder);
    if steps < turn {
        core.elapse(steps);
        let found = Found::NotBack;
        return Turn { steps, found };
    }
    let more = ready.steps - turn;
    let passed = pass_turns(
        core,
        memory.words(),
        &processor,
        &held,
        since,
        turn,
        more,
        recorder,
    );
    core.elapse(turn + passed);
    let found = if passed > 0 {
        Found::Back
    } else if more < turn {
        Found::NoTime
    } else {
        Found::NotBack
    };
    let steps = turn + passed;
    Turn { steps, found }
}

// How many steps of further turns pass at once after a turn from `since` steps on: all whole turns among `most` steps, if it came back to the
// processor and to the words with which it began, else none.
fn pass_turns<const PAGES: u32, const SPAN: u32>(
    core: &Core,
    words: &[u32],
    processor: &Processor,
    held: &[Held],
    since: u32,
    turn: u32,
    most: u32,
    recorder: &mut Recorder<PAGES, SPAN>,
) -> u32
    requires turn { 0 < turn }
    requires made { recorder.old.steps ≡ since + turn }
    requires room { recorder.old.steps + most ≤ SPAN }
    requires words { PAGES * PAGE_WORDS ≤ length words.now }
    ensures bound { result ≤ most }
    ensures turns { (k : ℕ) × (result ≡ turn * k) }
    ensures stays { result ≡ 0 → recorder.new ≡ recorder.old }
    ensures processor { 0 < result → core.now ≡ with_processor core.now processor.now }
    ensures held { 0 < result → (place : ℕ) → since < slice_index recorder.old.last place → Contains held.now (held_at words.now place) }
    ensures passed { 0 < result → HasPassed PAGES since result recorder.old recorder.new }
{
    if !core.is_at(processor) {
        return 0;
    }
    let Some(again) = recorder.held(since, words) else {
        return 0;
    };
    if *again != *held {
        return 0;
    }
    let turns = most / turn;
    if turns == 0 {
        return 0;
    }
    recorder.pass(since, turn * turns, held);
    turn * turns
}
