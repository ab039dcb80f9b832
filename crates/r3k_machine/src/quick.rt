//! Quick steps: those before which nothing happens but counting, and whose instruction touches registers, PC and memory alone.

ghost use Rattle.std.specs.Prelude.{◌≡◌, ◌⊎◌, ◌-◌, ◌*◌, ◌/◌, ◌%◌, ◌^◌, ◌<◌, ◌≤◌, ℕ, [], IfSome, IsTrue, None, Ok, Some, nat_eq, true};
ghost use Rattle.r3k_exec.specs.declared.operands.Effect.TheVariants.{Load, Store};
ghost use Rattle.r3k_table.specs.Mnemonics.{number_of};
ghost use Rattle.r3k_word.specs.Layout.{place_of_word};
ghost use Rattle.r3k_machine.specs.declared.address.TheConstants.{KSEG0, KSEG2};
ghost use Rattle.r3k_word.specs.Word.{difference_of};
ghost use Rattle.r3k_word.specs.declared.layout.TheConstants.{PAGE_BYTES, PAGE_WORDS};
ghost use Rattle.kn02_bus.specs.Region.{region_of};
ghost use Rattle.cop0.specs.Changes.{StaysQuiet};
ghost use Rattle.cop0.specs.Registers.{written};
ghost use Rattle.cop0.specs.declared.number.TheConstants.{ENTRY_LO, STATUS};
ghost use Rattle.r3k_machine.specs.Quiet.{GoesOverBus, IsCodePage, IsFetchedFrom, IsFetchedOverBus, IsIndexIn, IsMeant, IsOverBusFor, IsQuick, IsQuickEffect, IsQuietFor, IsReached, Knows, Leaves, elapsed, steady_over_bus};
ghost use Rattle.r3k_machine.specs.Address.{meaning};
ghost use Rattle.tlb64.specs.Kept.{IsSole};
ghost use Rattle.r3k_machine.specs.Flow.{with_flow};
ghost use Rattle.r3k_machine.specs.Locality.{fetched_page};
ghost use Rattle.r3k_machine.specs.Step.{completion_of_effect, outcome_of_instruction, outcome_of_step};
ghost use Rattle.r3k_machine.specs.Reports.{IsPage, IsReport};

use crate::address::{KSEG0, KSEG2, Use};
use crate::flow::Flow;
use crate::laws::quiet_laws;
use crate::load_store::{Loaded, Stored, Word, put};
use crate::memory::Mem;
use crate::state::Core;
use crate::step::{Done, run_fetched};
use crate::target::Destination;
use cop0::number::{ENTRY_LO, RANDOM, STATUS};
use r3k_decode::Register;
use r3k_exec::{Effect, LoadKind, StoreKind, effect_by_name};
use r3k_table::mnemonic::Mnemonic;
use r3k_word::arithmetic::subtract;
use r3k_word::layout::{PAGE_BYTES, PAGE_WORDS, page_of, place_of};

/// A page that is run in: the number of the virtual page, the page of RAM or ROM that its words are fetched from, and how many bytes
/// from kseg0 on loads and stores reach over the bus. That is all of kseg0 and kseg1 where the mode is the kernel's and the cache is
/// not isolated, or else none.
#[derive(Clone, Copy, Debug)]
pub struct CodePage {
    pub number: u32,
    pub page: u32,
    pub over_bus: u32,
}

impl Core {
    /// How many steps may be made of which each is quiet as long as its instruction is quick.
    #[inline]
    pub fn quiet(&self) -> Option<u32>
        ensures { IfSome result (λ steps. IsQuietFor steps self.now) }
    {
        let lines = self.bus.lines();
        let cop0 = self.cop0();
        if cop0.wanted() || !cop0.is_sampled(lines.board, lines.clock) {
            return None;
        }
        Some(self.bus.quiet())
    }

    /// This many ticks and falls of Random pass at once.
    pub fn elapse(&mut self, steps: u32)
        ensures { self.new ≡ elapsed steps self.old }
    {
        self.bus.pass(steps);
        self.processor.cop0.fall_by(steps);
    }

    // Whether a write of a control register is quick.
    #[inline(always)]
    fn is_quick_control(&self, control: Register, value: u32) -> bool
        ensures { IsTrue result → (control ≡ ENTRY_LO) ⊎ ((control ≡ STATUS) × StaysQuiet self.now.cop0 (written self.now.cop0 STATUS value)) }
    {
        match control.number() {
            ENTRY_LO => true,
            STATUS => self.cop0().stays_quiet(value),
            _ => false,
        }
    }

    /// How many bytes from kseg0 on loads and stores reach over the bus: all of kseg0 and kseg1, or none.
    #[inline]
    pub fn over_bus(&self) -> u32
        ensures { IsOverBusFor result self.now }
    {
        if self.cop0().in_user_mode() || self.cop0().is_isolated() {
            return 0;
        }
        KSEG2 - KSEG0
    }

    // The physical address of a load or store that goes over the bus, where that is no exception and sets no TS. It changes nothing. That
    // it is of a whole word is said, so that one comparison is enough.
    #[inline(always)]
    fn reached(
        &mut self,
        access: Use,
        aligned: bool,
        word: bool,
        address: u32,
        over_bus: u32,
    ) -> Option<u32>
        requires over_bus { IsOverBusFor over_bus self.old }
        requires word { IsTrue word → aligned ≡ nat_eq (address % 4) 0 }
        ensures reached { IfSome result (IsReached self.old (meaning self.old access aligned address)) }
        ensures core { self.new ≡ self.old }
    {
        if is_over_bus(aligned, word, address, over_bus) {
            return Some(address & 0x1FFF_FFFF);
        }
        // Taken apart, so that the compiler knows on each way whether there is one.
        let physical = match access {
            Use::Fetch => return None,
            Use::Load => self.load_reached(aligned, address)?,
            Use::Store => self.store_reached(aligned, address)?,
        };
        Some(physical)
    }

    // The same for a load of any address. It stands outside the line of a step that does not need it.
    #[inline(never)]
    fn load_reached(&mut self, aligned: bool, address: u32) -> Option<u32>
        ensures reached { IfSome result (IsReached self.old (meaning self.old Use.Load aligned address)) }
        ensures core { self.new ≡ self.old }
    {
        self.reached_by(Use::Load, aligned, address)
    }

    // The same for a store.
    #[inline(never)]
    fn store_reached(&mut self, aligned: bool, address: u32) -> Option<u32>
        ensures reached { IfSome result (IsReached self.old (meaning self.old Use.Store aligned address)) }
        ensures core { self.new ≡ self.old }
    {
        self.reached_by(Use::Store, aligned, address)
    }

    // The same for any access. A page of kuseg that was looked up before takes no further call.
    #[inline(always)]
    fn reached_by(&mut self, access: Use, aligned: bool, address: u32) -> Option<u32>
        ensures reached { IfSome result (IsReached self.old (meaning self.old access aligned address)) }
        ensures core { self.new ≡ self.old }
    {
        if !aligned || address >= KSEG0 {
            return self.reached_elsewhere(access, aligned, address);
        }
        match self.kept_low(access, address) {
            Some(lo) => self.reached_through(access, address, lo),
            None => self.reached_by_search(access, address),
        }
    }

    // The same for an aligned address of kuseg, by EntryLo of its one entry.
    #[inline(always)]
    fn reached_through(&self, access: Use, address: u32, lo: u32) -> Option<u32>
        requires kuseg { address < KSEG0 }
        requires sole { IsSole self.now.entries address self.now.cop0.entry_hi lo }
        ensures { IfSome result (IsReached self.now (meaning self.now access true address)) }
    {
        let physical = self.through(access, true, address, lo)?;
        if self.is_isolated(physical) {
            return None;
        }
        Some(physical.address)
    }

    // The same by a search for that entry.
    #[inline(never)]
    fn reached_by_search(&mut self, access: Use, address: u32) -> Option<u32>
        requires kuseg { address < KSEG0 }
        ensures reached { IfSome result (IsReached self.old (meaning self.old access true address)) }
        ensures core { self.new ≡ self.old }
    {
        let lo = self.searched_low(access, address)?;
        self.reached_through(access, address, lo)
    }

    // The same for all other addresses.
    #[inline(never)]
    fn reached_elsewhere(&mut self, access: Use, aligned: bool, address: u32) -> Option<u32>
        ensures reached { IfSome result (IsReached self.old (meaning self.old access aligned address)) }
        ensures core { self.new ≡ self.old }
    {
        let physical = self.found(access, aligned, address)?;
        if self.is_isolated(physical) {
            return None;
        }
        Some(physical.address)
    }
}

impl CodePage {
    /// The number in the page of the word at an address, if that is aligned and lies in the page.
    #[inline(always)]
    pub fn index(self, address: u32) -> Option<usize>
        requires { self.number < 2 ^ 20 }
        ensures index { IfSome result (IsIndexIn self address) }
        ensures within { IfSome result (λ index. index < PAGE_WORDS) }
    {
        let offset = subtract(address, self.number * PAGE_BYTES);
        // Rotated, so that one comparison finds what is not aligned and what is outside.
        let index = offset / 4 + offset % 4 * 0x4000_0000;
        if index >= PAGE_WORDS {
            return None;
        }
        Some(index as usize)
    }

    /// A page of kseg0 or kseg1, where these go over the bus.
    #[inline(always)]
    pub fn unmapped(number: u32, page: u32) -> CodePage
        ensures code { (pages : ℕ) (core : Core) → number < 2 ^ 20 → IsFetchedFrom pages core number page → GoesOverBus core → IsCodePage pages core result }
        ensures number { result.number ≡ number }
        ensures page { result.page ≡ page }
    {
        CodePage {
            number,
            page,
            over_bus: KSEG2 - KSEG0,
        }
    }

    /// Whether a virtual page is one of kseg0 or kseg1, and these go over the bus. Wherever they do, the words of such a page are fetched
    /// from the same page of memory.
    #[inline(always)]
    pub fn goes_over_bus(self, number: u32) -> bool
        requires { self.over_bus ≤ KSEG2 - KSEG0 }
        ensures some { IsTrue result → 0 < self.over_bus }
        ensures fetched { IsTrue result → number ≡ self.number → (pages : ℕ) (core : Core) → IsCodePage pages core self → IsFetchedOverBus pages number self.page }
    {
        subtract(number, KSEG0 / PAGE_BYTES) < self.over_bus / PAGE_BYTES
    }
}

// The physical address that the instruction at an address is fetched from, where that is no exception and sets no TS. It changes nothing.
// Where loads go over the bus, so do fetches, which is seen at once.
#[inline(always)]
fn fetched_at(core: &mut Core, address: u32, over_bus: u32) -> Option<u32>
    requires over_bus { IsOverBusFor over_bus core.old }
    ensures means { IfSome result (IsMeant (meaning core.old Use.Fetch (nat_eq (address % 4) 0) address)) }
    ensures core { core.new ≡ core.old }
{
    let aligned = address % 4 == 0;
    if let Some(physical) = core.reached(Use::Fetch, aligned, true, address, over_bus) {
        return Some(physical);
    }
    let physical = core.found(Use::Fetch, aligned, address)?;
    Some(physical.address)
}

/// The page of the PC, where its words are fetched without an exception. It changes nothing. The core stands where the flow does.
#[inline(always)]
pub fn code_page<M: Mem>(core: &mut Core, flow: Flow, memory: &M, over_bus: u32) -> Option<CodePage>
    requires over_bus { IsOverBusFor over_bus (with_flow core.old flow) }
    ensures number { IfSome result (λ page. page.number ≡ flow.pc / PAGE_BYTES) }
    ensures code { IfSome result (λ page. IsCodePage M.ram (with_flow core.old flow) page) }
    ensures page { IfSome result (λ page. IsPage M.ram page.page) }
    ensures core { core.new ≡ core.old }
{
    let address = flow.pc();
    let physical = fetched_at(core, address, over_bus)?;
    let place = place_of(memory.ram_pages(), physical / 4 * 4)?;
    Some(CodePage {
        number: address / PAGE_BYTES,
        page: page_of(place) as u32,
        over_bus,
    })
}

// Whether an address is aligned, and among those from kseg0 on that go over the bus.
#[inline]
fn is_over_bus(aligned: bool, word: bool, address: u32, over_bus: u32) -> bool
    requires within { over_bus ≤ KSEG2 - KSEG0 }
    requires word { IsTrue word → aligned ≡ nat_eq (address % 4) 0 }
    ensures aligned { IsTrue result → IsTrue aligned }
    ensures over { IsTrue result → difference_of address KSEG0 < over_bus }
{
    let offset = subtract(address, KSEG0);
    if word {
        // Rotated, so that one comparison finds what is not aligned and what is outside.
        return offset / 4 + offset % 4 * 0x4000_0000 < over_bus / 4;
    }
    aligned && offset < over_bus
}

// What a load over the bus gives, where it is the same before ticks that only count and after them.
#[inline]
fn steady_over_bus<M: Mem>(core: &Core, memory: &M, physical: u32) -> Option<Loaded>
    ensures loaded { result ≡ steady_over_bus (M.words memory.now) core.now.bus (region_of M.ram physical)
        (place_of_word M.ram (physical / 4 * 4)) }
    ensures page { IfSome result (λ loaded. IfSome loaded.page (IsPage M.ram)) }
{
    let pages = memory.ram_pages();
    if let Some(place) = place_of(pages, physical / 4 * 4) {
        return Some(Loaded {
            word: memory.word(place),
            page: Some(page_of(place) as u32),
        });
    }
    let word = core.steady(physical, pages)?;
    Some(Loaded { word, page: None })
}

// Makes a load of the instruction at the PC, which was fetched from a page, if it is of such a word, and its address is known without
// a search. Else it changes nothing.
#[inline(always)]
fn load_quick<M: Mem>(
    core: &mut Core,
    flow: &mut Flow,
    memory: &M,
    page: u32,
    over_bus: u32,
    kind: LoadKind,
    register: Register,
    address: u32,
) -> Option<Done>
    requires page { IsPage M.ram page }
    requires over_bus { IsOverBusFor over_bus core.old }
    ensures quick { IfSome result (λ done. IsQuickEffect M.ram (record { core = with_flow core.old flow.old; words = M.words memory.now }) (Load kind register address)) }
    ensures ran { IfSome result (λ done.
        completion_of_effect M.ram (record { core = with_flow core.old flow.old; words = M.words memory.now }) page (Load kind register address)
        ≡ Ok (record { state = record { core = with_flow core.new flow.new; words = M.words memory.now }; done = done })) }
    ensures within { IfSome result (IsReport M.ram (M.words memory.now) (M.words memory.now)) }
    ensures next { IfSome result (λ _. Leaves Next.WordAfterLoad flow.new) }
    ensures fetched { IfSome result (λ done. fetched_page done ≡ Some page) }
    ensures core { result ≡ None → core.new ≡ core.old }
    ensures flow { result ≡ None → flow.new ≡ flow.old }
{
    let physical = core.reached(
        Use::Load,
        kind.is_aligned(address),
        matches!(kind, LoadKind::Word),
        address,
        over_bus,
    )?;
    kn02_bus::laws::quiet_laws();
    let loaded = steady_over_bus(core, memory, physical)?;
    core.complete_in(flow);
    let kept = core.registers()[register.index()];
    flow.set_slot(register, kind.loaded(address, loaded.word, kept));
    Some(Done::loading(page, loaded.page, register))
}

// The same. Whole words have code of their own.
#[inline(always)]
fn load_by_kind<M: Mem>(
    core: &mut Core,
    flow: &mut Flow,
    memory: &M,
    page: u32,
    over_bus: u32,
    kind: LoadKind,
    register: Register,
    address: u32,
) -> Option<Done>
    requires page { IsPage M.ram page }
    requires over_bus { IsOverBusFor over_bus core.old }
    ensures quick { IfSome result (λ done. IsQuickEffect M.ram (record { core = with_flow core.old flow.old; words = M.words memory.now }) (Load kind register address)) }
    ensures ran { IfSome result (λ done.
        completion_of_effect M.ram (record { core = with_flow core.old flow.old; words = M.words memory.now }) page (Load kind register address)
        ≡ Ok (record { state = record { core = with_flow core.new flow.new; words = M.words memory.now }; done = done })) }
    ensures within { IfSome result (IsReport M.ram (M.words memory.now) (M.words memory.now)) }
    ensures next { IfSome result (λ _. Leaves Next.WordAfterLoad flow.new) }
    ensures fetched { IfSome result (λ done. fetched_page done ≡ Some page) }
    ensures core { result ≡ None → core.new ≡ core.old }
    ensures flow { result ≡ None → flow.new ≡ flow.old }
{
    match kind {
        LoadKind::Word => load_quick(
            core,
            flow,
            memory,
            page,
            over_bus,
            LoadKind::Word,
            register,
            address,
        ),
        LoadKind::Byte => load_quick(
            core,
            flow,
            memory,
            page,
            over_bus,
            LoadKind::Byte,
            register,
            address,
        ),
        LoadKind::ByteUnsigned => load_quick(
            core,
            flow,
            memory,
            page,
            over_bus,
            LoadKind::ByteUnsigned,
            register,
            address,
        ),
        kind => load_quick(core, flow, memory, page, over_bus, kind, register, address),
    }
}

// Makes a store of the instruction at the PC, which was fetched from a page, if it is into a word of RAM that is known without a
// search. Else it changes nothing.
#[inline(always)]
fn store_quick<M: Mem>(
    core: &mut Core,
    flow: &mut Flow,
    memory: &mut M,
    page: u32,
    over_bus: u32,
    kind: StoreKind,
    address: u32,
    value: u32,
) -> Option<Done>
    requires page { IsPage M.ram page }
    requires over_bus { IsOverBusFor over_bus core.old }
    ensures quick { IfSome result (λ done. IsQuickEffect M.ram (record { core = with_flow core.old flow.old; words = M.words memory.old }) (Store kind address value)) }
    ensures ran { IfSome result (λ done.
        completion_of_effect M.ram (record { core = with_flow core.old flow.old; words = M.words memory.old }) page (Store kind address value)
        ≡ Ok (record { state = record { core = with_flow core.new flow.new; words = M.words memory.new }; done = done })) }
    ensures within { IfSome result (IsReport M.ram (M.words memory.old) (M.words memory.new)) }
    ensures next { IfSome result (λ _. Leaves Next.WordAfterNone flow.new) }
    ensures fetched { IfSome result (λ done. fetched_page done ≡ Some page) }
    ensures core { result ≡ None → core.new ≡ core.old }
    ensures flow { result ≡ None → flow.new ≡ flow.old }
    ensures words { result ≡ None → M.words memory.new ≡ M.words memory.old }
    ensures opened { (other : ℕ) → M.is_open memory.new other ≡ M.is_open memory.old other }
{
    let physical = core.reached(
        Use::Store,
        kind.is_aligned(address),
        matches!(kind, StoreKind::Word),
        address,
        over_bus,
    )?;
    let address = put(memory, physical, kind.stored(address, value))?;
    core.complete_in(flow);
    let stored = Stored {
        address: Some(address),
        sent: None,
    };
    Some(Done::storing(page, stored))
}

// The same. Whole words have code of their own.
#[inline(always)]
fn store_by_kind<M: Mem>(
    core: &mut Core,
    flow: &mut Flow,
    memory: &mut M,
    page: u32,
    over_bus: u32,
    kind: StoreKind,
    address: u32,
    value: u32,
) -> Option<Done>
    requires page { IsPage M.ram page }
    requires over_bus { IsOverBusFor over_bus core.old }
    ensures quick { IfSome result (λ done. IsQuickEffect M.ram (record { core = with_flow core.old flow.old; words = M.words memory.old }) (Store kind address value)) }
    ensures ran { IfSome result (λ done.
        completion_of_effect M.ram (record { core = with_flow core.old flow.old; words = M.words memory.old }) page (Store kind address value)
        ≡ Ok (record { state = record { core = with_flow core.new flow.new; words = M.words memory.new }; done = done })) }
    ensures within { IfSome result (IsReport M.ram (M.words memory.old) (M.words memory.new)) }
    ensures next { IfSome result (λ _. Leaves Next.WordAfterNone flow.new) }
    ensures fetched { IfSome result (λ done. fetched_page done ≡ Some page) }
    ensures core { result ≡ None → core.new ≡ core.old }
    ensures flow { result ≡ None → flow.new ≡ flow.old }
    ensures words { result ≡ None → M.words memory.new ≡ M.words memory.old }
    ensures opened { (other : ℕ) → M.is_open memory.new other ≡ M.is_open memory.old other }
{
    match kind {
        StoreKind::Word => store_quick(
            core,
            flow,
            memory,
            page,
            over_bus,
            StoreKind::Word,
            address,
            value,
        ),
        StoreKind::Byte => store_quick(
            core,
            flow,
            memory,
            page,
            over_bus,
            StoreKind::Byte,
            address,
            value,
        ),
        kind => store_quick(core, flow, memory, page, over_bus, kind, address, value),
    }
}

/// What a quick step leaves next. It is said on each way apart, so that the compiler knows it there. The steps that write a register are
/// apart from those whose destination the compiler knows, so that these are recorded without its number.
#[derive(Clone, Copy, Debug, PartialEq, Eq)]
pub enum Next {
    /// The next word, with no load pending.
    Word,
    /// The same, after a write of HI or LO.
    WordAfterHiLo,
    /// The same, where no register was written.
    WordAfterNone,
    /// The next word, maybe with a load pending.
    WordAfterLoad,
    /// The word in a delay slot.
    DelaySlot,
}

/// A quick step that was made: what it reports, and what it leaves next.
#[derive(Clone, Copy, Debug)]
pub struct Quick {
    pub done: Done,
    pub next: Next,
}

// Performs the effect of the instruction at the PC, which was fetched from a page, if it is quick, and that is known without a
// search. Else it changes nothing.
#[inline(always)]
fn perform_quick<M: Mem>(
    core: &mut Core,
    flow: &mut Flow,
    memory: &mut M,
    page: u32,
    over_bus: u32,
    effect: Effect,
) -> Option<Quick>
    requires page { IsPage M.ram page }
    requires over_bus { IsOverBusFor over_bus core.old }
    ensures quick { IfSome result (λ quick. IsQuickEffect M.ram (record { core = with_flow core.old flow.old; words = M.words memory.old }) effect) }
    ensures ran { IfSome result (λ quick.
        completion_of_effect M.ram (record { core = with_flow core.old flow.old; words = M.words memory.old }) page effect
        ≡ Ok (record { state = record { core = with_flow core.new flow.new; words = M.words memory.new }; done = quick.done })) }
    ensures within { IfSome result (λ quick. IsReport M.ram (M.words memory.old) (M.words memory.new) quick.done) }
    ensures fetched { IfSome result (λ quick. fetched_page quick.done ≡ Some page) }
    ensures next { IfSome result (λ quick. Leaves quick.next flow.new) }
    ensures knows { IfSome result (λ quick. Knows quick.next (M.known memory.old) (M.known memory.new)) }
    ensures core { result ≡ None → core.new ≡ core.old }
    ensures flow { result ≡ None → flow.new ≡ flow.old }
    ensures words { result ≡ None → M.words memory.new ≡ M.words memory.old }
    ensures opened { (other : ℕ) → M.is_open memory.new other ≡ M.is_open memory.old other }
{
    let mut next = Next::Word;
    match effect {
        Effect::Write { register, value } => {
            core.complete_in(flow);
            core.set_register(register, value);
        }
        Effect::WriteHi { value } => {
            core.complete_in(flow);
            core.set_hi(value);
            next = Next::WordAfterHiLo;
        }
        Effect::WriteLo { value } => {
            core.complete_in(flow);
            core.set_lo(value);
            next = Next::WordAfterHiLo;
        }
        Effect::WriteHiLo { hi, lo } => {
            core.complete_in(flow);
            core.set_hi(hi);
            core.set_lo(lo);
            next = Next::WordAfterHiLo;
        }
        Effect::Jump { target } => {
            // Each way is apart, so that the compiler knows there whether the branch is taken.
            match target {
                Some(address) => {
                    core.complete_in(flow);
                    flow.branch(Some(address));
                }
                None => {
                    core.complete_in(flow);
                    flow.branch(None);
                }
            }
            next = Next::DelaySlot;
        }
        Effect::JumpAndLink {
            target,
            register,
            value,
        } => {
            core.complete_in(flow);
            flow.branch(target);
            core.set_register(register, value);
            next = Next::DelaySlot;
        }
        Effect::Load {
            kind,
            register,
            address,
        } => {
            let done = load_by_kind(core, flow, memory, page, over_bus, kind, register, address)?;
            return Some(Quick {
                done,
                next: Next::WordAfterLoad,
            });
        }
        Effect::Store {
            kind,
            address,
            value,
        } => {
            let done = store_by_kind(core, flow, memory, page, over_bus, kind, address, value)?;
            return Some(Quick {
                done,
                next: Next::WordAfterNone,
            });
        }
        Effect::MoveFromControl { register, control } => {
            if over_bus == 0 || control.number() == RANDOM {
                return None;
            }
            let value = core.cop0().read(control.number());
            core.complete_in(flow);
            flow.set_slot(register, value);
            next = Next::WordAfterLoad;
        }
        Effect::MoveToControl { control, value } => {
            if over_bus == 0 || !core.is_quick_control(control, value) {
                return None;
            }
            core.complete_in(flow);
            core.write_control(control, value);
            next = Next::WordAfterNone;
        }
        Effect::ReturnFromException => {
            if over_bus == 0 || !core.cop0().returns_quietly() {
                return None;
            }
            core.complete_in(flow);
            core.return_from_exception();
            next = Next::WordAfterNone;
        }
        _ => return None,
    }
    let done = Done::completing(page, Destination::of_effect(effect));
    Some(Quick { done, next })
}

/// Runs the instruction at the PC, which is the word of this number in this open page, if the page has such a word, and it is known and
/// quick. Else it changes nothing. Its name was looked up before. The core stands where the flow does, which is kept apart from it.
#[inline(always)]
pub fn quick_step<M: Mem>(
    core: &mut Core,
    flow: &mut Flow,
    memory: &mut M,
    page: CodePage,
    index: usize,
    name: Mnemonic,
) -> Option<Quick>
    requires code { IsCodePage M.ram (with_flow core.old flow.old) page }
    requires page { IsPage M.ram page.page }
    requires opened { IsTrue (M.is_open memory.old page.page) }
    requires within { index ≤ PAGE_WORDS }
    requires here { index < PAGE_WORDS → IsIndexIn page flow.old.pc index }
    requires named { number_of name ≡ (M.known memory.old page.page index).row }
    ensures inside { IfSome result (λ _. index < PAGE_WORDS) }
    ensures quick { IfSome result (λ quick. IsQuick M.ram (record { core = with_flow core.old flow.old; words = M.words memory.old })) }
    ensures ran { IfSome result (λ quick. outcome_of_instruction M.ram (record { core = with_flow core.old flow.old; words = M.words memory.old })
        ≡ record { state = record { core = with_flow core.new flow.new; words = M.words memory.new }; done = quick.done }) }
    ensures within { IfSome result (λ quick. IsReport M.ram (M.words memory.old) (M.words memory.new) quick.done) }
    ensures fetched { IfSome result (λ quick. fetched_page quick.done ≡ Some page.page) }
    ensures next { IfSome result (λ quick. Leaves quick.next flow.new) }
    ensures knows { IfSome result (λ quick. Knows quick.next (M.known memory.old) (M.known memory.new)) }
    ensures core { result ≡ None → core.new ≡ core.old }
    ensures flow { result ≡ None → flow.new ≡ flow.old }
    ensures words { result ≡ None → M.words memory.new ≡ M.words memory.old }
    ensures opened { (other : ℕ) → M.is_open memory.new other ≡ M.is_open memory.old other }
{
    let insn = memory.insn(page.page, index);
    let effect = effect_by_name(name, insn, core.operands(insn, flow.pc()));
    perform_quick(core, flow, memory, page.page, page.over_bus, effect)
}

/// Makes the step of the instruction at the PC if that lies in this page, at a time at which the step is quiet. Else it changes
/// nothing. The instruction may be any, and may take an exception.
#[inline]
pub fn quiet_step<M: Mem>(core: &mut Core, memory: &mut M, page: CodePage) -> Option<Done>
    requires quiet { IsQuietFor 1 core.old }
    requires code { IsCodePage M.ram core.old page }
    requires page { IsPage M.ram page.page }
    ensures ran { IfSome result (λ done. outcome_of_step M.ram [] (record { core = core.old; words = M.words memory.old })
        ≡ record { state = record { core = core.new; words = M.words memory.new }; done = done }) }
    ensures here { IfSome result (λ done. core.old.pc / PAGE_BYTES ≡ page.number) }
    ensures within { IfSome result (IsReport M.ram (M.words memory.old) (M.words memory.new)) }
    ensures core { result ≡ None → core.new ≡ core.old }
    ensures words { result ≡ None → M.words memory.new ≡ M.words memory.old }
{
    quiet_laws();
    let index = page.index(core.pc())?;
    let fetched = Word {
        word: memory.word(page.page as usize * PAGE_WORDS as usize + index),
        page: page.page,
    };
    core.tick();
    let done = run_fetched(core, memory, fetched);
    core.fall();
    Some(done)
}

/// Decodes the word at an address, if that lies in this page, which is open, and some words after it, up to one that is known. The
/// answer is whether it was not known, and can be. Only time depends on it.
#[inline(always)]
pub fn learn<M: Mem>(memory: &mut M, page: CodePage, address: u32) -> bool
    requires number { page.number < 2 ^ 20 }
    requires page { IsPage M.ram page.page }
    requires opened { IsTrue (M.is_open memory.old page.page) }
    ensures words { M.words memory.new ≡ M.words memory.old }
    ensures opened { (other : ℕ) → M.is_open memory.new other ≡ M.is_open memory.old other }
{
    let Some(index) = page.index(address) else {
        return false;
    };
    if !memory.learn(page.page, index) {
        return false;
    }
    learn_ahead(memory, page.page, index);
    true
}

// How many words are decoded after one.
const AHEAD: usize = 15;

// Decodes some words of an open page after one, up to one that is known.
#[cold]
#[inline(never)]
fn learn_ahead<M: Mem>(memory: &mut M, page: u32, first: usize)
    requires page { IsPage M.ram page }
    requires opened { IsTrue (M.is_open memory.old page) }
    requires first { first < PAGE_WORDS }
    ensures words { M.words memory.new ≡ M.words memory.old }
    ensures opened { (other : ℕ) → M.is_open memory.new other ≡ M.is_open memory.old other }
{
    for index in first + 1..(first + 1 + AHEAD).min(PAGE_WORDS as usize) {
        if !memory.learn(page, index) {
            return;
        }
    }
}
