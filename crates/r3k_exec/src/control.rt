//! System calls, breakpoints, and the instructions of coprocessor 0.

ghost use Rattle.std.specs.Prelude.{◌≡◌};
ghost use Rattle.r3k_exec.specs.Effects.{syscall_effect, break_effect, mfc0_effect, mtc0_effect, tlbr_effect, tlbwi_effect, tlbwr_effect, tlbp_effect, rfe_effect};

use crate::operands::{Effect, Operands, Trap};
use r3k_decode::Insn;

/// System call.
#[inline]
pub(crate) fn syscall(_insn: &Insn, _operands: Operands) -> Effect
    ensures { result ≡ syscall_effect _insn.now _operands }
{
    Effect::Trap(Trap::SystemCall)
}

/// Breakpoint.
#[inline]
pub(crate) fn break_(_insn: &Insn, _operands: Operands) -> Effect
    ensures { result ≡ break_effect _insn.now _operands }
{
    Effect::Trap(Trap::Breakpoint)
}

/// Move from coprocessor 0.
#[inline]
pub(crate) fn mfc0(insn: &Insn, _operands: Operands) -> Effect
    ensures { result ≡ mfc0_effect insn.now _operands }
{
    Effect::MoveFromControl {
        register: insn.rt(),
        control: insn.rd(),
    }
}

/// Move to coprocessor 0.
#[inline]
pub(crate) fn mtc0(insn: &Insn, operands: Operands) -> Effect
    ensures { result ≡ mtc0_effect insn.now operands }
{
    Effect::MoveToControl {
        control: insn.rd(),
        value: operands.rt,
    }
}

/// Read the entry that Index names.
#[inline]
pub(crate) fn tlbr(_insn: &Insn, _operands: Operands) -> Effect
    ensures { result ≡ tlbr_effect _insn.now _operands }
{
    Effect::ReadEntry
}

/// Write the entry that Index names.
#[inline]
pub(crate) fn tlbwi(_insn: &Insn, _operands: Operands) -> Effect
    ensures { result ≡ tlbwi_effect _insn.now _operands }
{
    Effect::WriteIndexedEntry
}

/// Write the entry that Random names.
#[inline]
pub(crate) fn tlbwr(_insn: &Insn, _operands: Operands) -> Effect
    ensures { result ≡ tlbwr_effect _insn.now _operands }
{
    Effect::WriteRandomEntry
}

/// Probe for the entry of EntryHi.
#[inline]
pub(crate) fn tlbp(_insn: &Insn, _operands: Operands) -> Effect
    ensures { result ≡ tlbp_effect _insn.now _operands }
{
    Effect::ProbeEntry
}

/// Restore from exception.
#[inline]
pub(crate) fn rfe(_insn: &Insn, _operands: Operands) -> Effect
    ensures { result ≡ rfe_effect _insn.now _operands }
{
    Effect::ReturnFromException
}
