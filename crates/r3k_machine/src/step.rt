//! One step, in its written order.

ghost use Rattle.std.specs.Prelude.{◌≡◌, None};
ghost use Rattle.r3k_machine.specs.Step.{arrived, completing, fallen, fetching, outcome_of_instruction, outcome_of_word, interrupted, outcome_of_interrupt_or_instruction, loading, next, received, received_as, sampled, storing, ticked, report};
ghost use Rattle.r3k_machine.specs.Reports.{IsPage, IsReport};

use crate::exception::Exception;
use crate::execute::execute_word;
use crate::load_store::{Stored, Word, fetch};
use crate::memory::Mem;
use crate::state::Core;
use crate::target::Destination;
use dz_serial::{Sent, SerialLine};
use input_log::{Event, Kind};
use kn02_bus::Bus;
use r3k_decode::Register;
use r3k_word::layout::PAGE_BYTES;

/// What a step reports: the byte that it sent, the physical address of the word of RAM that it stored into, and the pages
/// that it fetched from and loaded from or stored into, of RAM first and then of ROM, and the registers that it wrote.
#[derive(Clone, Copy, Debug, PartialEq, Eq)]
pub struct Done {
    pub sent: Option<Sent>,
    pub stored: Option<u32>,
    pub touched: [Option<u32>; 2],
    pub wrote: Destination,
}

impl Done {
    // A step that at most fetched.
    #[inline(always)]
    pub(crate) fn fetching(page: Option<u32>) -> Done
        ensures { result ≡ fetching page }
    {
        Done {
            sent: None,
            stored: None,
            touched: [page, None],
            wrote: Destination::none(),
        }
    }

    // A step whose instruction touched no memory but the page that it was fetched from.
    #[inline(always)]
    pub(crate) fn completing(page: u32, wrote: Destination) -> Done
        ensures { result ≡ completing page wrote }
    {
        Done {
            sent: None,
            stored: None,
            touched: [Some(page), None],
            wrote,
        }
    }

    // A step that fetched and loaded, from a page or from the isolated cache.
    #[inline(always)]
    pub(crate) fn loading(page: u32, loaded: Option<u32>, register: Register) -> Done
        ensures { result ≡ loading page loaded register }
    {
        Done {
            sent: None,
            stored: None,
            touched: [Some(page), loaded],
            wrote: Destination::register(register),
        }
    }

    // A step that fetched and stored.
    #[inline(always)]
    pub(crate) fn storing(page: u32, stored: Stored) -> Done
        ensures { result ≡ storing page stored }
    {
        Done {
            sent: stored.sent,
            stored: stored.address,
            touched: [
                Some(page),
                stored.address.map(|address| address / PAGE_BYTES),
            ],
            wrote: Destination::none(),
        }
    }
}

// The log's events take effect.
#[inline(never)]
fn receive(bus: &mut Bus, events: &[Event])
    ensures { bus.new ≡ received events.now bus.old }
{
    for event in events {
        receive_one(bus, *event);
    }
}

// An event of the log takes effect.
fn receive_one(bus: &mut Bus, event: Event)
    ensures { bus.new ≡ received_as event.kind bus.old event.line event.byte }
{
    match event.kind {
        Kind::Byte => bus.receive(SerialLine::new(event.line), event.byte),
        Kind::Framing => bus.receive_framing(SerialLine::new(event.line), event.byte),
        Kind::Wire => bus.wire(event.line, event.byte == 1),
    }
}

impl Core {
    // The log's events take effect.
    #[inline(always)]
    #[tactic(auto, unfolding(crate::specs::Step::arrived))]
    pub(crate) fn arrive(&mut self, events: &[Event])
        ensures { self.new ≡ arrived events.now self.old }
    {
        if !events.is_empty() {
            receive(&mut self.bus, events);
        }
    }

    // Clock and serial part advance.
    #[inline(always)]
    #[tactic(auto, unfolding(crate::specs::Step::ticked))]
    pub(crate) fn tick(&mut self)
        ensures { self.new ≡ ticked self.old }
    {
        self.bus.tick();
    }

    // Cause takes the interrupt lines.
    #[inline(always)]
    #[tactic(auto, unfolding(crate::specs::Step::sampled))]
    pub(crate) fn sample(&mut self)
        ensures { self.new ≡ sampled self.old }
    {
        let lines = self.bus.lines();
        self.processor.cop0.sample(lines.board, lines.clock);
    }

    // Takes the interrupt in place of the instruction at the PC.
    #[inline(always)]
    fn interrupt(&mut self) -> Done
        ensures state { self.new ≡ interrupted self.old }
        ensures report { result ≡ fetching None }
    {
        self.enter(Exception::Interrupt);
        Done::fetching(None)
    }

    // Random falls.
    #[inline(always)]
    pub(crate) fn fall(&mut self)
        ensures { self.new ≡ fallen self.old }
    {
        self.processor.cop0.fall();
    }
}

// Runs the instruction that was fetched, or takes its exception.
#[inline(always)]
pub(crate) fn run_fetched<M: Mem>(core: &mut Core, memory: &mut M, fetched: Word) -> Done
    requires { IsPage M.ram fetched.page }
    ensures state { record { core = core.new; words = M.words memory.new }
        ≡ (outcome_of_word M.ram (record { core = core.old; words = M.words memory.old }) fetched).state }
    ensures report { result ≡ (outcome_of_word M.ram (record { core = core.old; words = M.words memory.old }) fetched).done }
    ensures within { IsReport M.ram (M.words memory.old) (M.words memory.new) result }
{
    match execute_word(core, memory, fetched) {
        Ok(done) => done,
        Err(exception) => {
            core.enter(exception);
            Done::fetching(Some(fetched.page))
        }
    }
}

// Runs the instruction at the PC, or takes its exception.
#[inline(always)]
fn run_instruction<M: Mem>(core: &mut Core, memory: &mut M) -> Done
    ensures state { record { core = core.new; words = M.words memory.new }
        ≡ (outcome_of_instruction M.ram (record { core = core.old; words = M.words memory.old })).state }
    ensures report { result ≡ (outcome_of_instruction M.ram (record { core = core.old; words = M.words memory.old })).done }
    ensures within { IsReport M.ram (M.words memory.old) (M.words memory.new) result }
{
    match fetch(core, memory) {
        Ok(fetched) => run_fetched(core, memory, fetched),
        Err(exception) => {
            core.enter(exception);
            Done::fetching(None)
        }
    }
}

// Takes an interrupt where one is wanted, else runs the instruction at the PC.
#[inline(always)]
fn interrupt_or_run<M: Mem>(core: &mut Core, memory: &mut M) -> Done
    ensures state { record { core = core.new; words = M.words memory.new }
        ≡ (outcome_of_interrupt_or_instruction M.ram (record { core = core.old; words = M.words memory.old })).state }
    ensures report { result
        ≡ (outcome_of_interrupt_or_instruction M.ram (record { core = core.old; words = M.words memory.old })).done }
    ensures within { IsReport M.ram (M.words memory.old) (M.words memory.new) result }
{
    if core.cop0().wanted() {
        core.interrupt()
    } else {
        run_instruction(core, memory)
    }
}

/// One step: the bytes of its time arrive, clock and serial part advance, the interrupt lines are sampled, an interrupt is
/// taken or the instruction at the PC is run, and Random falls.
#[tactic(auto, unfolding(crate::specs::Step::outcome_of_step))]
#[inline(always)]
pub fn step<M: Mem>(core: &mut Core, memory: &mut M, events: &[Event]) -> Done
    ensures state { record { core = core.new; words = M.words memory.new }
        ≡ next M.ram events.now (record { core = core.old; words = M.words memory.old }) }
    ensures report { result ≡ report M.ram events.now (record { core = core.old; words = M.words memory.old }) }
    // Pages and words are those of the machine, and no word but the one that it stored into differs.
    ensures within { IsReport M.ram (M.words memory.old) (M.words memory.new) result }
{
    core.arrive(events);
    core.tick();
    core.sample();
    let done = interrupt_or_run(core, memory);
    core.fall();
    done
}
