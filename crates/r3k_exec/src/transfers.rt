//! Loads and stores.

ghost use Rattle.std.specs.Prelude.{◌≡◌, IsTrue};
ghost use Rattle.r3k_decode.specs.Fields.{fields_at};
ghost use Rattle.r3k_exec.specs.Effects.{lb_effect, lh_effect, lwl_effect, lw_effect, lbu_effect, lhu_effect, lwr_effect, sb_effect, sh_effect, swl_effect, sw_effect, swr_effect, address_of};

use crate::access::{LoadKind, StoreKind};
use crate::immediate::extended;
use crate::operands::{Effect, Operands};
use r3k_decode::Insn;
use r3k_word::arithmetic::add;

// The address of a load or a store.
#[inline]
fn address(insn: &Insn, operands: Operands) -> u32
    requires { IsTrue (fields_at insn.now.row).imm }
    ensures { result ≡ address_of insn.now operands }
{
    add(operands.rs, extended(insn))
}

/// Load byte.
#[inline]
pub(crate) fn lb(insn: &Insn, operands: Operands) -> Effect
    requires { IsTrue (fields_at insn.now.row).imm }
    ensures { result ≡ lb_effect insn.now operands }
{
    Effect::Load {
        kind: LoadKind::Byte,
        register: insn.rt(),
        address: address(insn, operands),
    }
}

/// Load halfword.
#[inline]
pub(crate) fn lh(insn: &Insn, operands: Operands) -> Effect
    requires { IsTrue (fields_at insn.now.row).imm }
    ensures { result ≡ lh_effect insn.now operands }
{
    Effect::Load {
        kind: LoadKind::Half,
        register: insn.rt(),
        address: address(insn, operands),
    }
}

/// Load word left.
#[inline]
pub(crate) fn lwl(insn: &Insn, operands: Operands) -> Effect
    requires { IsTrue (fields_at insn.now.row).imm }
    ensures { result ≡ lwl_effect insn.now operands }
{
    Effect::Load {
        kind: LoadKind::Left,
        register: insn.rt(),
        address: address(insn, operands),
    }
}

/// Load word.
#[inline]
pub(crate) fn lw(insn: &Insn, operands: Operands) -> Effect
    requires { IsTrue (fields_at insn.now.row).imm }
    ensures { result ≡ lw_effect insn.now operands }
{
    Effect::Load {
        kind: LoadKind::Word,
        register: insn.rt(),
        address: address(insn, operands),
    }
}

/// Load byte unsigned.
#[inline]
pub(crate) fn lbu(insn: &Insn, operands: Operands) -> Effect
    requires { IsTrue (fields_at insn.now.row).imm }
    ensures { result ≡ lbu_effect insn.now operands }
{
    Effect::Load {
        kind: LoadKind::ByteUnsigned,
        register: insn.rt(),
        address: address(insn, operands),
    }
}

/// Load halfword unsigned.
#[inline]
pub(crate) fn lhu(insn: &Insn, operands: Operands) -> Effect
    requires { IsTrue (fields_at insn.now.row).imm }
    ensures { result ≡ lhu_effect insn.now operands }
{
    Effect::Load {
        kind: LoadKind::HalfUnsigned,
        register: insn.rt(),
        address: address(insn, operands),
    }
}

/// Load word right.
#[inline]
pub(crate) fn lwr(insn: &Insn, operands: Operands) -> Effect
    requires { IsTrue (fields_at insn.now.row).imm }
    ensures { result ≡ lwr_effect insn.now operands }
{
    Effect::Load {
        kind: LoadKind::Right,
        register: insn.rt(),
        address: address(insn, operands),
    }
}

/// Store byte.
#[inline]
pub(crate) fn sb(insn: &Insn, operands: Operands) -> Effect
    requires { IsTrue (fields_at insn.now.row).imm }
    ensures { result ≡ sb_effect insn.now operands }
{
    Effect::Store {
        kind: StoreKind::Byte,
        address: address(insn, operands),
        value: operands.rt,
    }
}

/// Store halfword.
#[inline]
pub(crate) fn sh(insn: &Insn, operands: Operands) -> Effect
    requires { IsTrue (fields_at insn.now.row).imm }
    ensures { result ≡ sh_effect insn.now operands }
{
    Effect::Store {
        kind: StoreKind::Half,
        address: address(insn, operands),
        value: operands.rt,
    }
}

/// Store word left.
#[inline]
pub(crate) fn swl(insn: &Insn, operands: Operands) -> Effect
    requires { IsTrue (fields_at insn.now.row).imm }
    ensures { result ≡ swl_effect insn.now operands }
{
    Effect::Store {
        kind: StoreKind::Left,
        address: address(insn, operands),
        value: operands.rt,
    }
}

/// Store word.
#[inline]
pub(crate) fn sw(insn: &Insn, operands: Operands) -> Effect
    requires { IsTrue (fields_at insn.now.row).imm }
    ensures { result ≡ sw_effect insn.now operands }
{
    Effect::Store {
        kind: StoreKind::Word,
        address: address(insn, operands),
        value: operands.rt,
    }
}

/// Store word right.
#[inline]
pub(crate) fn swr(insn: &Insn, operands: Operands) -> Effect
    requires { IsTrue (fields_at insn.now.row).imm }
    ensures { result ≡ swr_effect insn.now operands }
{
    Effect::Store {
        kind: StoreKind::Right,
        address: address(insn, operands),
        value: operands.rt,
    }
}
