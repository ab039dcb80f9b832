//! The trace of a step: what the step did.

ghost use Rattle.std.specs.Prelude.{◌≡◌, IfOk, IfSome, MatchResult, Some, Ok, Err};
ghost use Rattle.r3k_decode.specs.Decoding.{operation_of};
ghost use Rattle.r3k_machine.specs.Exceptions.{entered};
ghost use Rattle.r3k_machine.specs.Step.{completion_of_effect, completion_of_operation, completion_of_word, next, outcome_of_completion, outcome_of_instruction, outcome_of_interrupt_or_instruction, outcome_of_word, raised, report};
ghost use Rattle.r3k_machine.specs.Traced.{access_at, access_of, hi_lo_of, is_local, reach_of, reach_over_bus, took, traced, traced_completion, traced_instruction, traced_interrupt_or_instruction, transfer_of, transfer_to, with_word, word_left, write_of};
ghost use Rattle.r3k_machine.specs.Reports.{IsPage, IsRamWord, IsReport};

use crate::address::{Physical, Where};
use crate::exception::Exception;
use crate::execute::{perform_effect, perform_load};
use crate::load_store::{Word, fetch};
use crate::memory::Mem;
use crate::state::Core;
use crate::step::Done;
use cop0::{Coprocessor, ExcCode};
use input_log::Event;
use kn02_bus::Region;
use r3k_decode::{Insn, decode};
use r3k_exec::{Covered, Effect, effect};
use r3k_table::mnemonic::Mnemonic;
use r3k_word::arithmetic::HiLo;

/// A register and the value that is written into it.
#[derive(Clone, Copy, Debug, PartialEq, Eq)]
pub struct RegisterWrite {
    pub register: u8,
    pub value: u32,
}

/// Whether an access loads or stores.
#[derive(Clone, Copy, Debug, PartialEq, Eq)]
pub enum AccessKind {
    Load,
    Store,
}

/// What an access reaches.
#[derive(Clone, Copy, Debug, PartialEq, Eq)]
pub enum Reach {
    /// RAM, ROM or a device, over the bus.
    Bus,
    /// The isolated cache alone.
    Isolated,
    /// Nothing: a store to ROM or to an unassigned address is ignored.
    Ignored,
}

/// An access of the word at a physical address: the word that a load returned, or that a store left in RAM. For a store that went
/// elsewhere, the word has the stored bytes in their lanes, and 0 in the other lanes.
#[derive(Clone, Copy, Debug, PartialEq, Eq)]
pub struct Access {
    pub kind: AccessKind,
    pub reach: Reach,
    pub address: u32,
    pub word: u32,
}

/// A transfer of control: a jump, a taken branch, `rfe` or an exception.
#[derive(Clone, Copy, Debug, PartialEq, Eq)]
pub struct Transfer {
    /// The target, for an exception its vector, for `rfe` the PC after the step.
    pub to: u32,
    /// Whether the instruction is `j` or a branch without a link, which stay within a function as a rule.
    pub local: bool,
}

/// The trace of a step.
#[derive(Clone, Copy, Debug, PartialEq, Eq)]
pub struct Traced {
    /// The PC before the step.
    pub pc: u32,
    /// The word that was fetched, if one was.
    pub word: Option<u32>,
    /// The register that the step wrote, with the value. The value of a load or of a move from coprocessor 0 is the one in the load slot.
    pub write: Option<RegisterWrite>,
    /// HI and LO after the step, if it wrote one of them.
    pub hi_lo: Option<HiLo>,
    /// The word that the step loaded from or stored into.
    pub access: Option<Access>,
    /// Where the step transferred control to, if it did.
    pub transfer: Option<Transfer>,
    /// What the step reports.
    pub done: Done,
    /// Whether TS became 1: several entries matched an address.
    pub shuts_down: bool,
    /// The interrupt or the exception that was taken in place of the instruction.
    pub exception: Option<ExcCode>,
}

impl Default for Traced {
    /// A step that did nothing, which fills places that are not used.
    fn default() -> Traced {
        Traced {
            pc: 0,
            word: None,
            write: None,
            hi_lo: None,
            access: None,
            transfer: None,
            done: Done::fetching(None),
            shuts_down: false,
            exception: None,
        }
    }
}

// Takes an exception in place of the instruction at the PC, whose word was fetched from a page or was not fetched.
fn take(core: &mut Core, word: Option<u32>, page: Option<u32>, exception: Exception) -> Traced
    ensures core { core.new ≡ entered core.old exception }
    ensures traced { result ≡ took core.old word page exception }
{
    let pc = core.pc();
    core.enter(exception);
    let vector = core.pc();
    Traced {
        pc,
        word,
        write: None,
        hi_lo: None,
        access: None,
        transfer: Some(Transfer {
            to: vector,
            local: false,
        }),
        done: Done::fetching(page),
        shuts_down: false,
        exception: Some(exception.code()),
    }
}

// The register that a step wrote, by its report and the processor after it.
fn write_of(done: &Done, core: &Core) -> Option<RegisterWrite>
    ensures { result ≡ write_of done.now.wrote core.now }
{
    let number = done.wrote.index();
    if number == 0 || number > 31 {
        return None;
    }
    let value = match core.load() {
        None => core.registers()[number],
        Some(load) => load.value(),
    };
    Some(RegisterWrite {
        register: number as u8,
        value,
    })
}

// HI and LO, if a step wrote one of them.
fn hi_lo_of(done: &Done, core: &Core) -> Option<HiLo>
    ensures { result ≡ hi_lo_of done.now.wrote core.now }
{
    if done.wrote.index() < 32 {
        return None;
    }
    Some(HiLo {
        hi: core.hi(),
        lo: core.lo(),
    })
}

// What an access over the bus reaches.
fn reach_over_bus(kind: AccessKind, region: Region) -> Reach
    ensures { result ≡ reach_over_bus kind region }
{
    match (kind, region) {
        (AccessKind::Store, Region::Rom | Region::Unassigned) => Reach::Ignored,
        _ => Reach::Bus,
    }
}

impl Core {
    // What an access of a physical address reaches.
    fn reach(&self, pages: u32, kind: AccessKind, physical: Physical) -> Reach
        ensures { result ≡ reach_of pages self.now kind physical }
    {
        if self.is_isolated(physical) {
            return Reach::Isolated;
        }
        reach_over_bus(kind, Region::of(physical.address, pages))
    }

    // The access that an address leads to, without its word.
    fn access(&self, pages: u32, kind: AccessKind, place: Where) -> Option<Access>
        ensures { result ≡ access_at pages self.now kind place }
    {
        let physical = match place {
            Where::Cached(address) => Physical {
                address,
                cacheable: true,
            },
            Where::Uncached(address) => Physical {
                address,
                cacheable: false,
            },
            _ => return None,
        };
        Some(Access {
            kind,
            reach: self.reach(pages, kind, physical),
            address: physical.address / 4 * 4,
            word: 0,
        })
    }
}

// An access with its word.
fn with_word(word: u32, access: Option<Access>) -> Option<Access>
    ensures { result ≡ with_word word access }
{
    match access {
        None => None,
        Some(access) => Some(Access { word, ..access }),
    }
}

// The word that a store left.
fn word_left<M: Mem>(memory: &M, done: Done, covered: Covered) -> u32
    requires { IfSome done.stored (IsRamWord M.ram) }
    ensures { result ≡ word_left (M.words memory.now) done.stored covered }
{
    match done.stored {
        Some(address) => memory.word((address / 4) as usize),
        None => covered.word,
    }
}

// A transfer to the target of a jump, if the jump has one.
fn transfer_to(local: bool, target: Option<u32>) -> Option<Transfer>
    ensures { result ≡ transfer_to local target }
{
    match target {
        None => None,
        Some(to) => Some(Transfer { to, local }),
    }
}

// Whether a jump of an instruction stays within a function.
fn is_local(insn: &Insn) -> bool
    ensures { result ≡ is_local (Some insn.now) }
{
    match insn.mnemonic() {
        Mnemonic::Jr => false,
        _ => true,
    }
}

// Where an instruction transferred control to, by the processor after it.
fn transfer_of(local: bool, effect: &Effect, core: &Core) -> Option<Transfer>
    ensures { result ≡ transfer_of local (Some effect.now) core.now }
{
    match *effect {
        Effect::Jump { target } => transfer_to(local, target),
        Effect::JumpAndLink { target, .. } => transfer_to(false, target),
        Effect::ReturnFromException => Some(Transfer {
            to: core.pc(),
            local: false,
        }),
        _ => None,
    }
}

// What an instruction that completed reports, and the word that it accessed.
#[derive(Clone, Copy)]
struct Performed {
    done: Done,
    access: Option<Access>,
}

// Performs the effect of the instruction at the PC, which was fetched from a page. An exception leaves the words as they were, and the
// processor as the access left it.
fn perform<M: Mem>(
    core: &mut Core,
    memory: &mut M,
    page: u32,
    effect: Effect,
) -> Result<Performed, Exception>
    requires { IsPage M.ram page }
    ensures completes { MatchResult result
        (λ performed. completion_of_effect M.ram (record { core = core.old; words = M.words memory.old }) page effect
        ≡ Ok (record { state = record { core = core.new; words = M.words memory.new }; done = performed.done }))
        (λ exception. (completion_of_effect M.ram (record { core = core.old; words = M.words memory.old }) page effect
        ≡ Err (raised core.new exception)) × (M.words memory.new ≡ M.words memory.old)) }
    ensures access { IfOk result (λ performed. performed.access ≡ access_of M.ram (record { core = core.old; words = M.words memory.old }) (Some effect)
        (record { state = record { core = core.new; words = M.words memory.new }; done = performed.done })) }
    ensures report { IfOk result (λ performed. IsReport M.ram (M.words memory.old) (M.words memory.new) performed.done) }
{
    match effect {
        Effect::Load {
            kind,
            register,
            address,
        } => {
            let access = core.access(memory.ram_pages(), AccessKind::Load, core.where_is(address));
            let loaded = perform_load(core, memory, kind, register, address)?;
            let done = Done::loading(page, loaded.page, register);
            Ok(Performed {
                done,
                access: with_word(loaded.word, access),
            })
        }
        Effect::Store {
            kind,
            address,
            value,
        } => {
            let access = core.access(
                memory.ram_pages(),
                AccessKind::Store,
                core.where_is(address),
            );
            let done = perform_effect(core, memory, page, effect)?;
            let word = word_left(memory, done, kind.stored(address, value));
            Ok(Performed {
                done,
                access: with_word(word, access),
            })
        }
        _ => Ok(Performed {
            done: perform_effect(core, memory, page, effect)?,
            access: None,
        }),
    }
}

// Runs an instruction of the word that was fetched at the PC, or takes its exception.
fn follow_insn<M: Mem>(core: &mut Core, memory: &mut M, fetched: Word, insn: &Insn) -> Traced
    requires page { IsPage M.ram fetched.page }
    requires insn { operation_of fetched.word ≡ Some insn.now }
    ensures state { record { core = core.new; words = M.words memory.new }
        ≡ (outcome_of_completion (record { core = core.old; words = M.words memory.old }) fetched.page
        (completion_of_operation M.ram (record { core = core.old; words = M.words memory.old }) fetched (Some insn.now))).state }
    ensures traced { result ≡ traced_completion M.ram (record { core = core.old; words = M.words memory.old }) fetched
        (completion_of_operation M.ram (record { core = core.old; words = M.words memory.old }) fetched (Some insn.now)) }
    ensures within { IsReport M.ram (M.words memory.old) (M.words memory.new) result.done }
{
    let pc = core.pc();
    let effect = effect(insn, core.operands(insn, pc));
    match perform(core, memory, fetched.page, effect) {
        Err(exception) => take(core, Some(fetched.word), Some(fetched.page), exception),
        Ok(performed) => {
            let done = performed.done;
            let access = performed.access;
            let write = write_of(&done, core);
            let hi_lo = hi_lo_of(&done, core);
            let transfer = transfer_of(is_local(insn), &effect, core);
            Traced {
                pc,
                word: Some(fetched.word),
                write,
                hi_lo,
                access,
                transfer,
                done,
                shuts_down: false,
                exception: None,
            }
        }
    }
}

// Runs the instruction that was fetched, or takes its exception.
fn follow_fetched<M: Mem>(core: &mut Core, memory: &mut M, fetched: Word) -> Traced
    requires { IsPage M.ram fetched.page }
    ensures state { record { core = core.new; words = M.words memory.new }
        ≡ (outcome_of_word M.ram (record { core = core.old; words = M.words memory.old }) fetched).state }
    ensures traced { result ≡ traced_completion M.ram (record { core = core.old; words = M.words memory.old }) fetched
        (completion_of_word M.ram (record { core = core.old; words = M.words memory.old }) fetched) }
    ensures within { IsReport M.ram (M.words memory.old) (M.words memory.new) result.done }
{
    let word = Some(fetched.word);
    let page = Some(fetched.page);
    if core.is_unusable(fetched.word) {
        return take(
            core,
            word,
            page,
            Exception::CoprocessorUnusable(Coprocessor::Cp0),
        );
    }
    match decode(fetched.word) {
        None => take(core, word, page, Exception::without_row(fetched.word)),
        Some(insn) => follow_insn(core, memory, fetched, &insn),
    }
}

// Runs the instruction at the PC, or takes its exception.
fn follow_instruction<M: Mem>(core: &mut Core, memory: &mut M) -> Traced
    ensures state { record { core = core.new; words = M.words memory.new }
        ≡ (outcome_of_instruction M.ram (record { core = core.old; words = M.words memory.old })).state }
    ensures traced { result ≡ traced_instruction M.ram (record { core = core.old; words = M.words memory.old }) }
    ensures within { IsReport M.ram (M.words memory.old) (M.words memory.new) result.done }
{
    match fetch(core, memory) {
        Ok(fetched) => follow_fetched(core, memory, fetched),
        Err(exception) => take(core, None, None, exception),
    }
}

// Takes an interrupt if one is wanted, else runs the instruction at the PC.
fn follow_interrupt_or_instruction<M: Mem>(core: &mut Core, memory: &mut M) -> Traced
    ensures state { record { core = core.new; words = M.words memory.new }
        ≡ (outcome_of_interrupt_or_instruction M.ram (record { core = core.old; words = M.words memory.old })).state }
    ensures traced { result ≡ traced_interrupt_or_instruction M.ram (record { core = core.old; words = M.words memory.old }) }
    ensures within { IsReport M.ram (M.words memory.old) (M.words memory.new) result.done }
{
    if core.cop0().wanted() {
        return take(core, None, None, Exception::Interrupt);
    }
    follow_instruction(core, memory)
}

/// Makes a step as `step` does, and returns its trace.
#[tactic(auto, unfolding(crate::specs::Step::outcome_of_step, crate::specs::Traced::traced))]
pub fn follow<M: Mem>(core: &mut Core, memory: &mut M, events: &[Event]) -> Traced
    ensures state { record { core = core.new; words = M.words memory.new }
        ≡ next M.ram events.now (record { core = core.old; words = M.words memory.old }) }
    ensures traced { result ≡ traced M.ram events.now (record { core = core.old; words = M.words memory.old }) }
    ensures report { result.done ≡ report M.ram events.now (record { core = core.old; words = M.words memory.old }) }
    // Pages and words are those of the machine, and no word but the one that it stored into differs.
    ensures within { IsReport M.ram (M.words memory.old) (M.words memory.new) result.done }
{
    let before = core.cop0().is_shut_down();
    core.arrive(events);
    core.tick();
    core.sample();
    let mut traced = follow_interrupt_or_instruction(core, memory);
    core.fall();
    traced.shuts_down = !before && core.cop0().is_shut_down();
    traced
}
