//! Stretches of quick steps.

ghost use Rattle.std.specs.Prelude.{◌≡◌, ◌+◌, ◌-◌, ◌*◌, ◌/◌, ◌^◌, ◌<◌, ◌≤◌, All, IfSome, IsFalse, IsTrue, None, Some, ℕ, [], List};
ghost use Rattle.input_log.specs.Event.{LogEvent};
ghost use Rattle.r3k_table.specs.Mnemonics.{number_of};
ghost use Rattle.r3k_word.specs.declared.layout.TheConstants.{PAGE_BYTES, PAGE_WORDS};
ghost use Rattle.r3k_machine.specs.declared.flow.Flow.{Flow};
ghost use Rattle.r3k_machine.specs.Core.{Core};
ghost use Rattle.r3k_machine.specs.Flow.{IsStraight, with_flow};
ghost use Rattle.r3k_machine.specs.Locality.{fetched_page};
ghost use Rattle.r3k_machine.specs.Quiet.{IsCodePage, IsIndexIn, IsQuietFor, Knows, LeadsOn, Leaves};
ghost use Rattle.r3k_machine.specs.Run.{arriving};
ghost use Rattle.r3k_machine.specs.State.{State};
ghost use Rattle.r3k_machine.specs.Reports.{IsPage, IsRamWord, IsReport};
ghost use Rattle.r3k_pages.specs.Pages.{holds};
ghost use Rattle.r3k_live.specs.Going.{AreLeft, Ends, GoesOn, GoesOnBy, GoesOnce, GoesOver, HasGone, HasGoneFor, IsFreeFor, IsWordAt, MayGoOn};
ghost use Rattle.r3k_live.specs.Living.{known_in, state_of};
ghost use Rattle.r3k_live.specs.Recording.{IsNoted, IsReady, TouchesStored};
ghost use Rattle.r3k_live.specs.Slots.{is_open};

use crate::flat::{FlatMemory, first_known};
use crate::index::WordIndex;
use crate::recorder::Recorder;
use crate::waiting::wait;
use input_log::Cursor;
use r3k_machine::step::step;
use r3k_machine::{
    CodePage, Core, Flow, Mem, Next, Quick, code_page, learn, quick_step, quiet_laws, quiet_step,
};
use r3k_table::mnemonic::Mnemonic;
use r3k_word::layout::{PAGE_BYTES, PAGE_WORDS};

// The number of the word at an address, if that is one of the page.
fn halt_in(page: CodePage, address: u64) -> usize
    requires { page.number < 2 ^ 20 }
    ensures word { IsWordAt page address result }
    ensures within { result ≤ PAGE_WORDS }
{
    let start = u64::from(page.number * PAGE_BYTES);
    if address < start {
        return PAGE_WORDS as usize;
    }
    ((address - start) / 4).min(u64::from(PAGE_WORDS)) as usize
}

// Makes the quick step of a word of the page, at which the PC stands. Else it changes nothing, as after the last word. It is still to be
// recorded: on each way apart that may come next, so that the compiler keeps no more there than what comes next wants.
#[inline(always)]
fn step_quickly<const PAGES: u32>(
    core: &mut Core,
    flow: &mut Flow,
    memory: &mut FlatMemory<PAGES>,
    page: CodePage,
    index: usize,
    name: Mnemonic,
) -> Option<Quick>
    requires code { IsCodePage PAGES (with_flow core.old flow.old) page }
    requires page { IsPage PAGES page.page }
    requires opened { IsTrue (is_open PAGES memory.old.opened.items page.page) }
    requires within { index ≤ PAGE_WORDS }
    requires here { index < PAGE_WORDS → IsIndexIn page flow.old.pc index }
    requires named { number_of name ≡ (known_in PAGES memory.old page.page index).row }
    ensures inside { IfSome result (λ _. index < PAGE_WORDS) }
    ensures goes { IfSome result (λ quick. GoesOnBy PAGES page quick.done (state_of (with_flow core.old flow.old) memory.old)
        (state_of (with_flow core.new flow.new) memory.new)) }
    ensures leads { IfSome result (λ _. LeadsOn (with_flow core.old flow.old) (with_flow core.new flow.new)) }
    ensures next { IfSome result (λ quick. Leaves quick.next flow.new) }
    ensures reports { IfSome result (λ quick. IsReport PAGES memory.old.words.items memory.new.words.items quick.done) }
    ensures pages { IfSome result (λ quick. TouchesStored quick.done) }
    ensures fetched { IfSome result (λ quick. fetched_page quick.done ≡ Some page.page) }
    ensures knows { IfSome result (λ quick. Knows quick.next (known_in PAGES memory.old) (known_in PAGES memory.new)) }
    ensures core { result ≡ None → core.new ≡ core.old }
    ensures flow { result ≡ None → flow.new ≡ flow.old }
    ensures words { result ≡ None → memory.new.words.items ≡ memory.old.words.items }
    ensures opened { IsTrue (is_open PAGES memory.new.opened.items page.page) }
{
    quiet_laws();
    quick_step(core, flow, memory, page, index, name)
}

// How many steps are recorded when straight steps from a word end at the latest: not past where all steps end, and before there are `most`
// steps after `begun`. At the end of the page they end by themselves, which needs no count.
#[inline(always)]
fn last_of(first: usize, begun: u32, most: u32, steps: u32, halt: usize) -> u32
    requires first { first < PAGE_WORDS }
    requires halt { halt ≤ PAGE_WORDS }
    requires begun { begun ≤ steps }
    requires made { steps ≤ begun + most }
    requires fits { begun + most < 2 ^ 32 }
    ensures ends { Ends most begun first halt (first + (result - steps)) steps }
    ensures least { steps ≤ result }
{
    if halt == PAGE_WORDS as usize {
        return begun + most;
    }
    let end = if first <= halt {
        halt
    } else {
        PAGE_WORDS as usize
    };
    (u64::from(steps) + (end - first) as u64).min(u64::from(begun + most)) as u32
}

// The number of the word in a delay slot, if there is a step for it. It is narrower than a place, so that the compiler takes no place over
// from the loop, which it would then count there.
#[inline(always)]
fn delay_slot(index: usize, steps: u32, last: u32) -> Option<u32>
    requires { index ≤ PAGE_WORDS }
    ensures { IfSome result (λ slot. (slot ≡ index) × (steps < last)) }
{
    if steps < last {
        Some(index as u32)
    } else {
        None
    }
}

// Makes quick steps from word to word, up to a jump, and gives the number of the word in the jump's delay slot, if its step may follow.
// `begun` steps were recorded before the first one of the page, and `most` may be made in all. The count of recorded steps is at hand
// after each, so it also ends the loops. Most steps find no load pending: they have a loop of their own, which keeps no load slot. The name
// of the next word is looked up before each step, so that a processor that guessed wrong what comes next finds that out sooner.
#[inline]
fn step_straight<const PAGES: u32, const SPAN: u32>(
    core: &mut Core,
    flow: &mut Flow,
    memory: &mut FlatMemory<PAGES>,
    page: CodePage,
    first: usize,
    halt: usize,
    begun: u32,
    most: u32,
    recorder: &mut Recorder<PAGES, SPAN>,
) -> Option<u32>
    requires may { MayGoOn PAGES most page (with_flow core.old flow.old) recorder.old }
    requires page { IsPage PAGES page.page }
    requires opened { IsTrue (is_open PAGES memory.old.opened.items page.page) }
    requires straight { IsStraight flow.old }
    requires here { IsIndexIn page flow.old.pc first }
    requires within { first < PAGE_WORDS }
    requires halt { halt ≤ PAGE_WORDS }
    requires begun { begun ≤ recorder.old.steps }
    requires made { recorder.old.steps ≤ begun + most }
    requires room { begun + most ≤ SPAN }
    ensures goes { (address : ℕ) → IsWordAt page address halt → GoesOn PAGES most address page (recorder.old.steps - begun) (recorder.new.steps - begun)
        (state_of (with_flow core.old flow.old) memory.old) (state_of (with_flow core.new flow.new) memory.new) recorder.old recorder.new }
    ensures least { recorder.old.steps ≤ recorder.new.steps }
    ensures within { IfSome result (λ slot. slot ≤ PAGE_WORDS) }
    ensures here { IfSome result (λ slot. slot < PAGE_WORDS → IsIndexIn page flow.new.pc slot) }
    ensures room { IfSome result (λ _. recorder.new.steps < begun + most) }
    ensures elsewhere { IfSome result (λ slot. slot < PAGE_WORDS → (address : ℕ) → IsWordAt page address halt → ¬ (flow.new.pc ≡ address)) }
    ensures opened { IsTrue (is_open PAGES memory.new.opened.items page.page) }
{
    let last = last_of(first, begun, most, recorder.steps(), halt);
    let mut index = WordIndex::new(first_known(PAGES, page.page), first);
    let mut ahead = memory.insn(page.page, first).mnemonic();
    while recorder.steps() < last {
        let at = index.number();
        flow.pin_straight(index.address(page));
        let name = ahead;
        ahead = memory.name_after(page.page, at);
        let quick = step_quickly(core, flow, memory, page, at, name)?;
        match quick.next {
            Next::DelaySlot => {
                recorder.note_again(quick.done);
                return delay_slot(at + 1, recorder.steps(), last);
            }
            Next::WordAfterLoad => {
                recorder.note_again(quick.done);
                index.advance();
                continue;
            }
            Next::Word => {
                recorder.note_again(quick.done);
                index.advance();
            }
            Next::WordAfterHiLo => {
                recorder.note_again(quick.done);
                index.advance();
            }
            Next::WordAfterNone => {
                recorder.note_again(quick.done);
                ahead = memory.name_after(page.page, at);
                index.advance();
            }
        }
        while recorder.steps() < last {
            let at = index.number();
            flow.pin_straight(index.address(page));
            flow.pin_unloaded();
            let name = ahead;
            ahead = memory.name_after(page.page, at);
            let quick = step_quickly(core, flow, memory, page, at, name)?;
            match quick.next {
                Next::DelaySlot => {
                    recorder.note_again(quick.done);
                    return delay_slot(at + 1, recorder.steps(), last);
                }
                Next::WordAfterLoad => {
                    recorder.note_again(quick.done);
                    index.advance();
                    break;
                }
                Next::Word => {
                    recorder.note_again(quick.done);
                    index.advance();
                }
                Next::WordAfterHiLo => {
                    recorder.note_again(quick.done);
                    index.advance();
                }
                Next::WordAfterNone => {
                    recorder.note_again(quick.done);
                    ahead = memory.name_after(page.page, at);
                    index.advance();
                }
            }
        }
    }
    flow.pin_straight(index.address(page));
    None
}

// Records a quick step from a page that was touched before, and says whether it leaves a delay slot. What may come next has a way of its
// own each, as where it is straight.
#[inline(always)]
fn note_apart<const PAGES: u32, const SPAN: u32>(
    quick: Quick,
    recorder: &mut Recorder<PAGES, SPAN>,
) -> bool
    requires room { recorder.old.steps < SPAN }
    requires stored { IfSome quick.done.stored (IsRamWord PAGES) }
    requires touched { All (λ page. IfSome page (IsPage PAGES)) quick.done.touched }
    requires pages { TouchesStored quick.done }
    requires again { IfSome (fetched_page quick.done) (λ page. IsTrue (holds recorder.old.touched page)) }
    ensures noted { IsNoted PAGES quick.done recorder.old recorder.new }
    ensures delay { (flow : Flow) → Leaves quick.next flow → result ≡ flow.delay }
{
    match quick.next {
        Next::DelaySlot => {
            recorder.note_again(quick.done);
            true
        }
        Next::WordAfterLoad => {
            recorder.note_again(quick.done);
            false
        }
        Next::Word => {
            recorder.note_again(quick.done);
            false
        }
        Next::WordAfterHiLo => {
            recorder.note_again(quick.done);
            false
        }
        Next::WordAfterNone => {
            recorder.note_again(quick.done);
            false
        }
    }
}

// Makes quick steps in an open page that was touched before, up to `most` in all after `begun`, and ends after one that comes to an
// address. Their ticks and falls of Random are still to come. It gives whether the core stands straight.
#[inline]
fn quick_steps<const PAGES: u32, const SPAN: u32>(
    core: &mut Core,
    flow: &mut Flow,
    memory: &mut FlatMemory<PAGES>,
    page: CodePage,
    begun: u32,
    most: u32,
    stop: u64,
    recorder: &mut Recorder<PAGES, SPAN>,
) -> bool
    requires may { MayGoOn PAGES most page (with_flow core.old flow.old) recorder.old }
    requires page { IsPage PAGES page.page }
    requires opened { IsTrue (is_open PAGES memory.old.opened.items page.page) }
    requires straight { IsStraight flow.old }
    requires begun { begun ≤ recorder.old.steps }
    requires made { recorder.old.steps ≤ begun + most }
    requires room { begun + most ≤ SPAN }
    ensures goes { GoesOn PAGES most stop page (recorder.old.steps - begun) (recorder.new.steps - begun)
        (state_of (with_flow core.old flow.old) memory.old) (state_of (with_flow core.new flow.new) memory.new) recorder.old recorder.new }
    ensures least { recorder.old.steps ≤ recorder.new.steps }
    ensures straight { IsTrue result → IsStraight flow.new }
    ensures opened { IsTrue (is_open PAGES memory.new.opened.items page.page) }
{
    let halt = halt_in(page, stop);
    loop {
        let Some(index) = page.index(flow.pc()) else {
            return true;
        };
        let Some(slot) = step_straight(core, flow, memory, page, index, halt, begun, most, recorder)
        else {
            return flow.is_straight();
        };
        let slot = slot as usize;
        let name = memory.insn(page.page, slot).mnemonic();
        let Some(quick) = step_quickly(core, flow, memory, page, slot, name) else {
            return false;
        };
        if note_apart(quick, recorder) {
            return false;
        }
    }
}

// Where quick steps may go on that ended in a page: there, once the word at the PC is decoded that they did not know, or in the page of the
// PC, if they left theirs. It opens the page.
#[inline(always)]
fn page_to_go_on<const PAGES: u32>(
    core: &mut Core,
    flow: &Flow,
    memory: &mut FlatMemory<PAGES>,
    page: CodePage,
) -> Option<CodePage>
    requires code { IsCodePage PAGES (with_flow core.old flow.now) page }
    requires page { IsPage PAGES page.page }
    requires opened { IsTrue (is_open PAGES memory.old.opened.items page.page) }
    ensures code { IfSome result (IsCodePage PAGES (with_flow core.new flow.now)) }
    ensures page { IfSome result (λ next. IsPage PAGES next.page) }
    ensures opened { IfSome result (λ next. IsTrue (is_open PAGES memory.new.opened.items next.page)) }
    ensures number { IfSome result (λ next. next.number ≡ flow.now.pc / PAGE_BYTES) }
    ensures stays { result ≡ None → IsTrue (is_open PAGES memory.new.opened.items page.page) }
    ensures core { core.new ≡ core.old }
    ensures words { memory.new.words.items ≡ memory.old.words.items }
{
    if flow.pc() / PAGE_BYTES == page.number {
        if !learn(memory, page, flow.pc()) {
            return None;
        }
        return Some(page);
    }
    let next = code_page(core, *flow, memory, page.over_bus)?;
    memory.open_page(next.page);
    Some(next)
}

// The page in which quick steps go on at once that ended in a page: they stand straight, in another virtual page. It opens the page.
#[inline(always)]
fn ready_page<const PAGES: u32, const SPAN: u32>(
    memory: &mut FlatMemory<PAGES>,
    page: CodePage,
    straight: bool,
    number: u32,
    recorder: &Recorder<PAGES, SPAN>,
) -> Option<CodePage>
    requires number { number < 2 ^ 20 }
    requires code { (core : Core) × IsCodePage PAGES core page }
    ensures straight { IfSome result (λ _. IsTrue straight) }
    ensures number { IfSome result (λ next. next.number ≡ number) }
    ensures other { IfSome result (λ _. ¬ (number ≡ page.number)) }
    ensures ready { IfSome result (λ next. IsReady PAGES number next.page recorder.now) }
    ensures code { IfSome result (λ next. (core : Core) → IsCodePage PAGES core page → IsCodePage PAGES core next) }
    ensures opened { IfSome result (λ next. IsTrue (is_open PAGES memory.new.opened.items next.page)) }
    ensures stays { result ≡ None → memory.new ≡ memory.old }
    ensures words { memory.new.words.items ≡ memory.old.words.items }
{
    if !straight || !page.goes_over_bus(number) || number == page.number {
        return None;
    }
    let ready = recorder.ready(number)?;
    memory.open_page(ready);
    Some(CodePage::unmapped(number, ready))
}

// Makes the quick step of the word at the PC, which is in this page, where the page was not touched before, or the word was not known. It
// says whether quick steps may go on in the page, or gives nothing where it made no step. It stands outside the line of the others.
#[cold]
#[inline(never)]
fn first_step<const PAGES: u32, const SPAN: u32>(
    core: &mut Core,
    flow: &mut Flow,
    memory: &mut FlatMemory<PAGES>,
    page: CodePage,
    recorder: &mut Recorder<PAGES, SPAN>,
) -> Option<bool>
    requires code { IsCodePage PAGES (with_flow core.old flow.old) page }
    requires page { IsPage PAGES page.page }
    requires opened { IsTrue (is_open PAGES memory.old.opened.items page.page) }
    requires room { recorder.old.steps < SPAN }
    ensures goes { IfSome result (λ _. GoesOnce PAGES (state_of (with_flow core.old flow.old) memory.old) (state_of (with_flow core.new flow.new) memory.new)
        recorder.old recorder.new) }
    ensures straight { IfSome result (λ goes. IsTrue goes → IsStraight flow.new) }
    ensures touched { IfSome result (λ goes. IsTrue goes → IsTrue (holds recorder.new.touched page.page)) }
    ensures code { IsCodePage PAGES (with_flow core.new flow.new) page }
    ensures opened { IsTrue (is_open PAGES memory.new.opened.items page.page) }
    ensures core { result ≡ None → core.new ≡ core.old }
    ensures flow { result ≡ None → flow.new ≡ flow.old }
    ensures words { result ≡ None → memory.new.words.items ≡ memory.old.words.items }
    ensures recorder { result ≡ None → recorder.new ≡ recorder.old }
{
    quiet_laws();
    let _learned = learn(memory, page, flow.pc());
    let index = page.index(flow.pc())?;
    let name = memory.insn(page.page, index).mnemonic();
    let quick = quick_step(core, flow, memory, page, index, name)?;
    recorder.note(quick.done);
    recorder.note_code_page(flow.pc() / PAGE_BYTES);
    Some(flow.is_straight() && recorder.has_touched(page.page))
}

// Makes quick steps from page to page, as `quick_pages` does, where the flow stands apart from the core.
#[inline(always)]
fn steps_over_pages<const PAGES: u32, const SPAN: u32>(
    core: &mut Core,
    flow: &mut Flow,
    memory: &mut FlatMemory<PAGES>,
    page: &mut CodePage,
    most: u32,
    stop: u64,
    recorder: &mut Recorder<PAGES, SPAN>,
) -> u32
    requires may { MayGoOn PAGES most page.old (with_flow core.old flow.old) recorder.old }
    requires page { IsPage PAGES page.old.page }
    requires opened { IsTrue (is_open PAGES memory.old.opened.items page.old.page) }
    requires room { recorder.old.steps + most ≤ SPAN }
    ensures goes { GoesOver PAGES most stop result (state_of (with_flow core.old flow.old) memory.old)
        (state_of (with_flow core.new flow.new) memory.new) recorder.old recorder.new }
    ensures code { IsCodePage PAGES (with_flow core.new flow.new) page.new }
    ensures page { IsPage PAGES page.new.page }
    ensures opened { IsTrue (is_open PAGES memory.new.opened.items page.new.page) }
{
    quiet_laws();
    if !flow.is_straight() {
        return 0;
    }
    let begun = recorder.steps();
    loop {
        let before = recorder.steps();
        let straight = quick_steps(core, flow, memory, *page, begun, most, stop, recorder);
        let here = flow.pc() / PAGE_BYTES;
        if let Some(next) = ready_page(memory, *page, straight, here, recorder) {
            *page = next;
            continue;
        }
        recorder.note_code_page(here);
        let steps = recorder.steps();
        if !straight || steps - begun == most {
            return steps - begun;
        }
        let Some(next) = page_to_go_on(core, flow, memory, *page) else {
            return steps - begun;
        };
        *page = next;
        if steps != before && recorder.has_touched(next.page) {
            recorder.note_ready(next);
            continue;
        }
        if !goes_on(steps - begun, most, flow.pc(), stop) {
            return steps - begun;
        }
        // A copy, so that nothing refers to where the other steps stand.
        let mut first = *flow;
        let made = first_step(core, &mut first, memory, next, recorder);
        *flow = first;
        let Some(goes) = made else {
            return steps - begun;
        };
        if !goes {
            return recorder.steps() - begun;
        }
    }
}

/// Makes quick steps in an open page that was touched before, and goes on with them from page to page, and over words that were not known.
/// They are at most `most`, and it ends after one that comes to an address. Their ticks and falls of Random are still to come.
/// The page of the last of them is open. It is never in line, so that the compiler can keep all that a step needs in registers.
#[inline(never)]
pub(crate) fn quick_pages<const PAGES: u32, const SPAN: u32>(
    core: &mut Core,
    memory: &mut FlatMemory<PAGES>,
    page: &mut CodePage,
    most: u32,
    stop: u64,
    recorder: &mut Recorder<PAGES, SPAN>,
) -> u32
    requires may { MayGoOn PAGES most page.old core.old recorder.old }
    requires page { IsPage PAGES page.old.page }
    requires opened { IsTrue (is_open PAGES memory.old.opened.items page.old.page) }
    requires room { recorder.old.steps + most ≤ SPAN }
    ensures goes { GoesOver PAGES most stop result (state_of core.old memory.old) (state_of core.new memory.new) recorder.old recorder.new }
    ensures code { IsCodePage PAGES core.new page.new }
    ensures page { IsPage PAGES page.new.page }
    ensures opened { IsTrue (is_open PAGES memory.new.opened.items page.new.page) }
{
    // Copies, which nothing else refers to.
    let mut flow = core.flow();
    let mut here = *page;
    let made = steps_over_pages(core, &mut flow, memory, &mut here, most, stop, recorder);
    core.set_flow(flow);
    *page = here;
    made
}

// Whether one more step is wanted after some of at most `most` steps: there is room for it, and none of them came to the address where
// steps end.
#[inline(always)]
fn goes_on(made: u32, most: u32, pc: u32, stop: u64) -> bool
    ensures room { IsTrue result → made < most }
    ensures past { IsTrue result → 0 < made → ¬ (pc ≡ stop) }
{
    made < most && (made == 0 || pc as u64 != stop)
}

// Makes the step of the instruction at the PC, if it is wanted and the PC is in the page. The step is quiet.
#[inline(always)]
fn quiet_on<const PAGES: u32, const SPAN: u32>(
    core: &mut Core,
    memory: &mut FlatMemory<PAGES>,
    page: CodePage,
    wanted: bool,
    recorder: &mut Recorder<PAGES, SPAN>,
) -> u32
    requires quiet { IsTrue wanted → IsQuietFor 1 core.old }
    requires code { IsCodePage PAGES core.old page }
    requires page { IsPage PAGES page.page }
    requires room { IsTrue wanted → recorder.old.steps < SPAN }
    ensures bound { result ≤ 1 }
    ensures wanted { 0 < result → IsTrue wanted }
    ensures steps { recorder.new.steps ≡ recorder.old.steps + result }
    ensures goes { (log : List LogEvent) (from : ℕ) (start : State) (address made : ℕ) → (IsTrue wanted → arriving log (from + made) ≡ []) →
        HasGone PAGES log from start made (state_of core.old memory.old) recorder.old →
        HasGoneFor PAGES log from start address made result recorder.old (state_of core.new memory.new) recorder.new }
{
    if !wanted {
        return 0;
    }
    let Some(done) = quiet_step(core, memory, page) else {
        return 0;
    };
    recorder.note(done);
    recorder.note_code_page(core.pc() / PAGE_BYTES);
    1
}

// Decodes the word at the PC, if that is in a delay slot of this page, where quick steps do not learn it.
#[inline(always)]
fn learn_in_slot<const PAGES: u32>(core: &Core, memory: &mut FlatMemory<PAGES>, page: CodePage)
    requires number { page.number < 2 ^ 20 }
    requires page { IsPage PAGES page.page }
    requires opened { IsTrue (is_open PAGES memory.old.opened.items page.page) }
    ensures words { memory.new.words.items ≡ memory.old.words.items }
{
    if core.delay() {
        let _learned = learn(memory, page, core.pc());
    }
}

// Makes quick steps as long as they stay in open pages, and then one more of the last page, at most `most` in all. It ends after one that
// comes to an address.
#[inline(always)]
fn run_in<const PAGES: u32, const SPAN: u32>(
    core: &mut Core,
    memory: &mut FlatMemory<PAGES>,
    mut page: CodePage,
    most: u32,
    stop: u64,
    recorder: &mut Recorder<PAGES, SPAN>,
) -> u32
    requires may { MayGoOn PAGES most page core.old recorder.old }
    requires page { IsPage PAGES page.page }
    requires opened { IsTrue (is_open PAGES memory.old.opened.items page.page) }
    requires room { recorder.old.steps + most ≤ SPAN }
    ensures bound { result ≤ most }
    ensures steps { recorder.new.steps ≡ recorder.old.steps + result }
    ensures goes { (log : List LogEvent) (from : ℕ) (start : State) (made : ℕ) → IsFreeFor most log (from + made) →
        HasGone PAGES log from start made (state_of core.old memory.old) recorder.old →
        HasGoneFor PAGES log from start stop made result recorder.old (state_of core.new memory.new) recorder.new }
{
    quiet_laws();
    let made = quick_pages(core, memory, &mut page, most, stop, recorder);
    core.elapse(made);
    learn_in_slot(core, memory, page);
    let wanted = goes_on(made, most, core.pc(), stop);
    made + quiet_on(core, memory, page, wanted, recorder)
}

/// Where quick steps may begin: the page of the PC, and how many steps the times are quiet for.
#[derive(Clone, Copy)]
pub(crate) struct Ready {
    pub(crate) page: CodePage,
    pub(crate) steps: u32,
}

/// Whether quick steps may begin where the machine stands, at most `most`: the times are quiet, and the page was touched before. It opens
/// the page.
#[inline(always)]
pub(crate) fn get_ready<const PAGES: u32, const SPAN: u32>(
    core: &mut Core,
    memory: &mut FlatMemory<PAGES>,
    time: u64,
    events: &Cursor,
    most: u32,
    recorder: &Recorder<PAGES, SPAN>,
) -> Option<Ready>
    ensures steps { IfSome result (λ ready. (0 < ready.steps) × (ready.steps ≤ most)) }
    ensures may { IfSome result (λ ready. MayGoOn PAGES ready.steps ready.page core.old recorder.now) }
    ensures page { IfSome result (λ ready. IsPage PAGES ready.page.page) }
    ensures opened { IfSome result (λ ready. IsTrue (is_open PAGES memory.new.opened.items ready.page.page)) }
    ensures free { IfSome result (λ ready. (log : List LogEvent) → AreLeft time events.now log → IsFreeFor ready.steps log time) }
    ensures core { core.new ≡ core.old }
    ensures words { memory.new.words.items ≡ memory.old.words.items }
{
    let quiet = core.quiet()?;
    let steps = u64::from(most.min(quiet)).min(events.free(time)) as u32;
    if steps == 0 {
        return None;
    }
    let page = code_page(core, core.flow(), memory, core.over_bus())?;
    if !recorder.has_touched(page.page) {
        return None;
    }
    memory.open_page(page.page);
    Some(Ready { page, steps })
}

/// Makes steps from where the machine stands, in quiet times. It makes none where the times are not quiet, or the page was not touched
/// yet.
#[inline(always)]
pub(crate) fn stretch<const PAGES: u32, const SPAN: u32>(
    core: &mut Core,
    memory: &mut FlatMemory<PAGES>,
    time: u64,
    events: &Cursor,
    most: u32,
    stop: u64,
    recorder: &mut Recorder<PAGES, SPAN>,
) -> u32
    requires room { recorder.old.steps + most ≤ SPAN }
    ensures bound { result ≤ most }
    ensures steps { recorder.new.steps ≡ recorder.old.steps + result }
    ensures goes { (log : List LogEvent) (from : ℕ) (start : State) (made : ℕ) → time ≡ from + made → AreLeft time events.now log →
        HasGone PAGES log from start made (state_of core.old memory.old) recorder.old →
        HasGoneFor PAGES log from start stop made result recorder.old (state_of core.new memory.new) recorder.new }
{
    let Some(ready) = get_ready(core, memory, time, events, most, recorder) else {
        return 0;
    };
    run_in(core, memory, ready.page, ready.steps, stop, recorder)
}

/// Makes steps, at least one and at most `most`: a stretch, and more where the machine waits after as long a stretch as this, or else one
/// step. It ends after a step that comes to an address.
#[inline(always)]
pub(crate) fn advance<const PAGES: u32, const SPAN: u32>(
    core: &mut Core,
    memory: &mut FlatMemory<PAGES>,
    time: u64,
    events: &mut Cursor,
    most: u32,
    stop: u64,
    recorder: &mut Recorder<PAGES, SPAN>,
    patience: &mut u32,
) -> u32
    requires some { 0 < most }
    requires room { recorder.old.steps + most ≤ SPAN }
    requires time { time + most < 2 ^ 64 }
    ensures some { 0 < result }
    ensures bound { result ≤ most }
    ensures goes { (log : List LogEvent) (from : ℕ) (start : State) (made : ℕ) → time ≡ from + made → AreLeft time events.old log →
        HasGone PAGES log from start made (state_of core.old memory.old) recorder.old →
        HasGoneFor PAGES log from start stop made result recorder.old (state_of core.new memory.new) recorder.new }
    ensures left { AreLeft (time + result) events.new events.old }
{
    let longest = most.min(*patience);
    let made = stretch(core, memory, time, events, longest, stop, recorder);
    if made > 0 && made == *patience && core.pc() as u64 != stop {
        let time = time + made as u64;
        let more = most - made;
        return made + wait(core, memory, time, events, more, stop, recorder, patience);
    }
    if made > 0 {
        return made;
    }
    let done = step(core, memory, events.next(time));
    recorder.note(done);
    recorder.note_code_page(core.pc() / PAGE_BYTES);
    1
}
