//! What an instruction does to the machine.

ghost use Rattle.std.specs.Prelude.{◌≡◌, ◌<◌, IfOk, IfSome};
ghost use Rattle.cop0.specs.Changes as control;
ghost use Rattle.cop0.specs.Registers.{written};
ghost use Rattle.r3k_machine.specs.Exceptions.{is_unusable};
ghost use Rattle.r3k_machine.specs.Flow.{moved};
ghost use Rattle.r3k_machine.specs.State.{landed, with_register};
ghost use Rattle.r3k_machine.specs.Core.{HoldsZero};
ghost use Rattle.r3k_machine.specs.Step.{IsCompletion, branched, completion_of_word, core_after_loading, operands_of, passed, completion_of_effect};
ghost use Rattle.r3k_machine.specs.LoadSlot.{slot_after_load};
ghost use Rattle.r3k_machine.specs.LoadStore.{core_after_load, loaded_from};
ghost use Rattle.r3k_machine.specs.Reports.{IsPage, IsReport};

use crate::exception::Exception;
use crate::flow::{Flow, write_register};
use crate::load_store::{Loaded, Word, load, store};
use crate::memory::Mem;
use crate::state::Core;
use crate::step::Done;
use crate::target::Destination;
use cop0::Coprocessor;
use cop0::number::{INDEX, RANDOM};
use r3k_decode::{Insn, Register, decode};
use r3k_exec::{Effect, LoadKind, Operands, effect};
use r3k_word::field::field;

impl Core {
    // The values that an instruction at an address reads.
    #[inline]
    pub(crate) fn operands(&self, insn: &Insn, pc: u32) -> Operands
        ensures operands { result ≡ record (operands_of self.now insn.now) { pc = pc } }
        ensures zero { HoldsZero self.now.registers }
    {
        Operands {
            rs: self.processor.registers[insn.rs().index()],
            rt: self.processor.registers[insn.rt().index()],
            hi: self.processor.hi,
            lo: self.processor.lo,
            pc,
        }
    }

    // Whether the word is one of coprocessor 0, and that is not usable.
    #[inline]
    pub(crate) fn is_unusable(&self, word: u32) -> bool
        ensures { result ≡ is_unusable self.now word }
    {
        field::<31, 26>(word) == 16 && !self.processor.cop0.is_usable()
    }

    // Completes an instruction, but for what it writes: the pending load lands, and the next instruction follows.
    #[inline]
    pub(crate) fn complete(&mut self)
        ensures { self.new ≡ passed self.old }
    {
        self.processor.flow.complete(&mut self.processor.registers);
    }

    // The same, where it stands in a flow that is kept apart from it.
    #[inline]
    pub(crate) fn complete_in(&mut self, flow: &mut Flow)
        ensures flow { flow.new ≡ moved flow.old }
        ensures core { self.new ≡ record self.old { registers = landed self.old.registers (slot_after_load flow.old.slot flow.old.value) } }
    {
        flow.complete(&mut self.processor.registers);
    }

    // Writes a register. r0 stays 0.
    #[inline]
    pub(crate) fn set_register(&mut self, register: Register, value: u32)
        ensures { self.new ≡ record self.old { registers = with_register self.old.registers register value } }
    {
        write_register(&mut self.processor.registers, register, value);
    }

    #[inline]
    pub(crate) fn set_hi(&mut self, value: u32)
        ensures { self.new ≡ record self.old { hi = value } }
    {
        self.processor.hi = value;
    }

    #[inline]
    pub(crate) fn set_lo(&mut self, value: u32)
        ensures { self.new ≡ record self.old { lo = value } }
    {
        self.processor.lo = value;
    }

    // Writes a control register.
    #[inline]
    pub(crate) fn write_control(&mut self, register: Register, value: u32)
        ensures { self.new ≡ record self.old { cop0 = written self.old.cop0 register value } }
    {
        self.processor.cop0.write(register.number(), value);
    }

    // Returns from an exception.
    #[inline]
    pub(crate) fn return_from_exception(&mut self)
        ensures { self.new ≡ record self.old { cop0 = control.returned self.old.cop0 } }
    {
        self.processor.cop0.rfe();
    }

    // Fills the load slot. A load into r0 leaves it empty.
    #[inline]
    pub(crate) fn set_slot(&mut self, register: Register, value: u32)
        ensures { self.new ≡ record self.old { load = slot_after_load register value } }
    {
        self.processor.flow.set_slot(register, value);
    }

    // Marks the next instruction as one in a delay slot, with the target after it.
    #[inline]
    pub(crate) fn branch(&mut self, target: Option<u32>)
        ensures { self.new ≡ branched self.old target }
    {
        self.processor.flow.branch(target);
    }
}

/// Loads into a register: the value waits in the slot. An exception leaves the processor as the access left it.
#[inline(always)]
pub(crate) fn perform_load<M: Mem>(
    core: &mut Core,
    memory: &M,
    kind: LoadKind,
    register: Register,
    address: u32,
) -> Result<Loaded, Exception>
    ensures loaded { result ≡ loaded_from M.ram (M.words memory.now) core.old kind address }
    ensures page { IfOk result (λ loaded. IfSome loaded.page (IsPage M.ram)) }
    ensures core { core.new ≡ core_after_loading (core_after_load M.ram core.old kind address) kind register address result }
{
    let loaded = load(core, memory, kind, address)?;
    core.complete();
    let kept = core.registers()[register.index()];
    core.set_slot(register, kind.loaded(address, loaded.word, kept));
    Ok(loaded)
}

/// Performs the effect of the instruction at the PC, which was fetched from a page. An exception leaves the words as they were, and the
/// processor as the access left it.
#[inline(always)]
pub(crate) fn perform_effect<M: Mem>(
    core: &mut Core,
    memory: &mut M,
    page: u32,
    effect: Effect,
) -> Result<Done, Exception>
    requires { IsPage M.ram page }
    ensures completes { IsCompletion result
        (record { core = core.old; words = M.words memory.old }) (record { core = core.new; words = M.words memory.new })
        (completion_of_effect M.ram (record { core = core.old; words = M.words memory.old }) page effect) }
    ensures report { IfOk result (IsReport M.ram (M.words memory.old) (M.words memory.new)) }
{
    match effect {
        Effect::Write { register, value } => {
            core.complete();
            core.set_register(register, value);
        }
        Effect::WriteHi { value } => {
            core.complete();
            core.set_hi(value);
        }
        Effect::WriteLo { value } => {
            core.complete();
            core.set_lo(value);
        }
        Effect::WriteHiLo { hi, lo } => {
            core.complete();
            core.set_hi(hi);
            core.set_lo(lo);
        }
        Effect::Jump { target } => {
            core.complete();
            core.branch(target);
        }
        Effect::JumpAndLink {
            target,
            register,
            value,
        } => {
            core.complete();
            core.branch(target);
            core.set_register(register, value);
        }
        Effect::Trap(trap) => return Err(Exception::of(trap)),
        Effect::Load {
            kind,
            register,
            address,
        } => {
            let loaded = perform_load(core, memory, kind, register, address)?;
            return Ok(Done::loading(page, loaded.page, register));
        }
        Effect::Store {
            kind,
            address,
            value,
        } => {
            let stored = store(core, memory, kind, address, value)?;
            core.complete();
            return Ok(Done::storing(page, stored));
        }
        Effect::MoveFromControl { register, control } => {
            let value = core.cop0().read(control.number());
            core.complete();
            core.set_slot(register, value);
        }
        Effect::MoveToControl { control, value } => {
            core.complete();
            core.write_control(control, value);
        }
        Effect::ReturnFromException => {
            core.complete();
            core.return_from_exception();
        }
        Effect::ReadEntry => {
            core.complete();
            core.read_entry();
        }
        Effect::WriteIndexedEntry => {
            core.complete();
            core.write_entry(INDEX);
        }
        Effect::WriteRandomEntry => {
            core.complete();
            core.write_entry(RANDOM);
        }
        Effect::ProbeEntry => {
            core.complete();
            core.probe_entry();
        }
    }
    Ok(Done::completing(page, Destination::of_effect(effect)))
}

/// Runs the instruction that was fetched. An exception leaves the words as they were, and the processor as the access left it.
#[inline(always)]
pub(crate) fn execute_word<M: Mem>(
    core: &mut Core,
    memory: &mut M,
    fetched: Word,
) -> Result<Done, Exception>
    requires { IsPage M.ram fetched.page }
    ensures completes { IsCompletion result
        (record { core = core.old; words = M.words memory.old }) (record { core = core.new; words = M.words memory.new })
        (completion_of_word M.ram (record { core = core.old; words = M.words memory.old }) fetched) }
    ensures report { IfOk result (IsReport M.ram (M.words memory.old) (M.words memory.new)) }
{
    if core.is_unusable(fetched.word) {
        return Err(Exception::CoprocessorUnusable(Coprocessor::Cp0));
    }
    let Some(insn) = decode(fetched.word) else {
        return Err(Exception::without_row(fetched.word));
    };
    let effect = effect(&insn, core.operands(&insn, core.pc()));
    perform_effect(core, memory, fetched.page, effect)
}
