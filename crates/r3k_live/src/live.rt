//! The machine that runs.

ghost use Rattle.std.specs.Prelude.{◌≡◌, ◌+◌, ◌-◌, ◌^◌, ◌||◌, ◌<◌, ◌≤◌, ℕ, [], IfOk, IfSome, List, None, length, min, slice_index, unwrap_or};
ghost use Rattle.r3k_word.specs.Layout.{word_count_of};
ghost use Rattle.r3k_word.specs.declared.layout.TheConstants.{MAX_RAM_PAGES};
ghost use Rattle.input_log.specs.Log.{AreInOrder, AreWithin};
ghost use Rattle.r3k_pages.specs.Pages.{SameOutside, holds};
ghost use Rattle.r3k_machine.specs.Reports.{DifferAt, IsRamWord};
ghost use Rattle.r3k_live.specs.Changes.{AreChanges};
ghost use Rattle.r3k_machine.specs.Reset.{reset};
ghost use Rattle.r3k_machine.specs.Run.{run, trace};
ghost use Rattle.r3k_machine.specs.Step.{next};
ghost use Rattle.r3k_machine.specs.Traced.{traced};
ghost use Rattle.r3k_live.specs.Living.{counted, state_of};
ghost use Rattle.r3k_live.specs.Record.{dirty_pages, stores_in};
ghost use Rattle.r3k_live.specs.Recording.{Records};
ghost use Rattle.r3k_live.specs.CodePages.{AddsCodePages};
ghost use Rattle.r3k_live.specs.Visits.{first_visit};

use crate::boundary::Boundary;
use crate::changes::Changes;
use crate::flat::FlatMemory;
use crate::recorder::Recorder;
use crate::stretch::advance;
use crate::waiting::PATIENCE;
use input_log::{Cursor, Event};
use r3k_image::Image;
use r3k_machine::{Core, Done, Mem, Traced, follow};
use r3k_word::layout::PAGE_BYTES;
use std::alloc::{AllocError, Global};
use std::marker::Model;
use std::rc::Rc;

/// The machine that runs, with `PAGES` pages of RAM: its core, one flat memory, and the count of all steps that it has made.
#[derive(Drop)]
pub struct Live<const PAGES: u32> {
    core: Core,
    memory: FlatMemory<PAGES>,
    steps: u64,
    // A state at which it stood, and what it may have changed since: where it stands is kept with the words of that one, but for these.
    base: Rc<Boundary<PAGES>>,
    changed: Changes<PAGES>,
}

impl<const PAGES: u32> Model for Live<PAGES> {
    ghost use Rattle.r3k_live.specs.Living.{Living};
    ghost use Rattle.r3k_live.specs.Changes.{AreChanges};

    ghost Value = { Living };

    ghost view = { λ live. record { state = record { core = live.core; words = live.memory.words.items }; steps = live.steps } };

    ghost invariant = { λ live. AreChanges live.changed live.base.value.words live.memory.words.items };
}

/// A count of steps after some more. It stands still at the greatest number.
pub fn counted(before: u64, steps: u32) -> u64
    ensures { result ≡ counted before steps }
{
    before.saturating_add(steps as u64)
}

// No address of an instruction.
const NOWHERE: u64 = u64::MAX;

impl<const PAGES: u32> Live<PAGES> {
    /// The machine at reset. All its memory is taken here.
    pub fn new(alloc: Global, image: &Image) -> Result<Live<PAGES>, AllocError>
        requires { PAGES ≤ MAX_RAM_PAGES }
        ensures { IfOk result (λ live. live ≡ record { state = reset PAGES image.now; steps = 0 }) }
    {
        let mut core = Core::reset(alloc, image)?;
        let memory = FlatMemory::<PAGES>::boot(alloc, image)?;
        let changed = Changes::new(alloc)?;
        let base = Boundary::new(alloc, &mut core, memory.words(), changed.pages())?;
        Ok(Live {
            core,
            memory,
            steps: 0,
            base,
            changed,
        })
    }

    /// Makes it stand at a boundary. It takes no memory and makes no step.
    pub fn load(&mut self, boundary: Rc<Boundary<PAGES>>)
        ensures { self.new ≡ record { state = boundary.entry.value; steps = self.old.steps } }
    {
        let held = self.base.memory();
        self.memory
            .load(boundary.memory(), held, self.changed.pages());
        self.core.restore(boundary.core());
        self.base = boundary;
        self.changed.clear();
    }

    /// Runs `steps` steps, at most `SPAN`, from a time on, with the events of their times, and records what they report in a
    /// recorder that is empty. It notes there in which virtual pages the PC stands, at the start and after each step. It takes no
    /// memory.
    pub fn run<const SPAN: u32>(
        &mut self,
        from: u64,
        events: &[Event],
        steps: u32,
        recorder: &mut Recorder<PAGES, SPAN>,
    )
        requires steps { steps ≤ SPAN }
        requires time { from + steps < 2 ^ 64 }
        requires in_order { AreInOrder events.now }
        requires empty { Records PAGES [] recorder.old }
        ensures state { self.new.state ≡ run PAGES events.now from self.old.state steps }
        ensures count { self.new.steps ≡ counted self.old.steps steps }
        ensures least { self.old.steps ≤ self.new.steps }
        ensures recorded { Records PAGES (trace PAGES events.now from self.old.state steps) recorder.new }
        ensures dirty { SameOutside (dirty_pages PAGES (trace PAGES events.now from self.old.state steps)) self.old.state.words self.new.state.words }
        ensures code_pages { AddsCodePages PAGES events.now from self.old.state steps recorder.old.code_pages recorder.new.code_pages }
    {
        let _stopped = self.go_on(from, events, steps, NOWHERE, recorder);
    }

    /// The same, but it ends after the first step that leaves this address in the PC, and gives the number of steps to there.
    pub fn visit<const SPAN: u32>(
        &mut self,
        from: u64,
        events: &[Event],
        steps: u32,
        address: u32,
        recorder: &mut Recorder<PAGES, SPAN>,
    ) -> Option<u32>
        requires steps { steps ≤ SPAN }
        requires time { from + steps < 2 ^ 64 }
        requires in_order { AreInOrder events.now }
        requires empty { Records PAGES [] recorder.old }
        ensures found { result ≡ first_visit PAGES events.now from self.old.state address 0 steps }
        ensures state { self.new.state ≡ run PAGES events.now from self.old.state (unwrap_or result steps) }
        ensures count { self.new.steps ≡ counted self.old.steps (unwrap_or result steps) }
        ensures bound { unwrap_or result steps ≤ steps }
        ensures least { self.old.steps ≤ self.new.steps }
        ensures recorded { Records PAGES (trace PAGES events.now from self.old.state (unwrap_or result steps)) recorder.new }
        ensures dirty { SameOutside (dirty_pages PAGES (trace PAGES events.now from self.old.state (unwrap_or result steps)))
            self.old.state.words self.new.state.words }
        ensures code_pages { AddsCodePages PAGES events.now from self.old.state (unwrap_or result steps) recorder.old.code_pages recorder.new.code_pages }
    {
        self.go_on(from, events, steps, address as u64, recorder)
    }

    /// Makes a step, in which these events take effect, and says what it did. It takes no memory.
    pub fn follow(&mut self, events: &[Event]) -> Traced
        ensures state { self.new.state ≡ next PAGES events.now self.old.state }
        ensures traced { result ≡ traced PAGES events.now self.old.state }
        ensures count { self.new.steps ≡ counted self.old.steps 1 }
        ensures least { self.old.steps ≤ self.new.steps }
    {
        let traced = follow(&mut self.core, &mut self.memory, events);
        mark_stored(&mut self.changed, traced.done);
        self.steps = counted(self.steps, 1);
        traced
    }

    // Steps until the PC holds an address, or `steps` times.
    fn go_on<const SPAN: u32>(
        &mut self,
        from: u64,
        events: &[Event],
        steps: u32,
        stop: u64,
        recorder: &mut Recorder<PAGES, SPAN>,
    ) -> Option<u32>
        requires steps { steps ≤ SPAN }
        requires time { from + steps < 2 ^ 64 }
        requires in_order { AreInOrder events.now }
        requires empty { Records PAGES [] recorder.old }
        ensures found { stop < 2 ^ 32 → result ≡ first_visit PAGES events.now from self.old.state stop 0 steps }
        ensures never { 2 ^ 32 ≤ stop → result ≡ None }
        ensures state { self.new.state ≡ run PAGES events.now from self.old.state (unwrap_or result steps) }
        ensures count { self.new.steps ≡ counted self.old.steps (unwrap_or result steps) }
        ensures bound { unwrap_or result steps ≤ steps }
        ensures least { self.old.steps ≤ self.new.steps }
        ensures recorded { Records PAGES (trace PAGES events.now from self.old.state (unwrap_or result steps)) recorder.new }
        ensures dirty { SameOutside (dirty_pages PAGES (trace PAGES events.now from self.old.state (unwrap_or result steps)))
            self.old.state.words self.new.state.words }
        ensures code_pages { AddsCodePages PAGES events.now from self.old.state (unwrap_or result steps) recorder.old.code_pages recorder.new.code_pages }
    {
        let stopped = step_until(
            &mut self.core,
            &mut self.memory,
            from,
            Cursor::new(events),
            steps,
            stop,
            recorder,
        );
        self.steps = counted(self.steps, stopped.unwrap_or(steps));
        self.changed
            .add(recorder.dirty_marks().pages(), recorder.blocks());
        stopped
    }

    /// Keeps where it stands. It copies only what may have changed since it last stood at a state that is kept.
    pub fn keep(&mut self, alloc: Global) -> Result<Rc<Boundary<PAGES>>, AllocError>
        ensures kept { IfOk result (λ boundary. boundary.value ≡ self.old.state) }
        ensures same { self.new ≡ self.old }
    {
        let words = self.memory.words();
        let kept = self
            .base
            .after(alloc, &mut self.core, words, &self.changed)?;
        self.base = kept.clone()?;
        self.changed.clear();
        Ok(kept)
    }

    /// All words of RAM and ROM, RAM first.
    pub fn words(&self) -> &[u32]
        ensures words { result.now ≡ self.now.state.words }
        ensures whole { length result.now ≡ word_count_of PAGES }
    {
        self.memory.words()
    }

    /// The word at a place in the list of all words.
    pub fn word(&self, place: usize) -> u32
        requires { place < word_count_of PAGES }
        ensures { result ≡ slice_index self.now.state.words place }
    {
        self.memory.word(place)
    }

    /// The core.
    pub fn core(&self) -> &Core
        ensures { result.now ≡ self.now.state.core }
    {
        &self.core
    }

    /// How many steps it has made since it was made, up to the greatest number.
    pub fn steps(&self) -> u64
        ensures { result ≡ self.now.steps }
    {
        self.steps
    }
}

// Marks the word that a step stored into.
fn mark_stored<const PAGES: u32>(changed: &mut Changes<PAGES>, done: Done)
    requires { IfSome done.stored (IsRamWord PAGES) }
    ensures { (a b c : List ℕ) → AreChanges changed.old a b → DifferAt done.stored b c → AreChanges changed.new a c }
{
    if let Some(address) = done.stored {
        changed.mark(address);
    }
}

// The one loop that steps: `steps` steps, or until the PC holds an address, all of which are recorded.
#[inline(never)]
fn step_until<const PAGES: u32, const SPAN: u32>(
    core: &mut Core,
    memory: &mut FlatMemory<PAGES>,
    from: u64,
    mut events: Cursor,
    steps: u32,
    stop: u64,
    recorder: &mut Recorder<PAGES, SPAN>,
) -> Option<u32>
    requires steps { steps ≤ SPAN }
    requires time { from + steps < 2 ^ 64 }
    requires empty { Records PAGES [] recorder.old }
    ensures found { stop < 2 ^ 32 → result ≡ first_visit PAGES events.entry from (state_of core.old memory.old) stop 0 steps }
    ensures never { 2 ^ 32 ≤ stop → result ≡ None }
    ensures state { state_of core.new memory.new ≡ run PAGES events.entry from (state_of core.old memory.old) (unwrap_or result steps) }
    ensures recorded { Records PAGES (trace PAGES events.entry from (state_of core.old memory.old) (unwrap_or result steps)) recorder.new }
    ensures dirty { SameOutside (dirty_pages PAGES (trace PAGES events.entry from (state_of core.old memory.old) (unwrap_or result steps)))
        memory.old.words.items memory.new.words.items }
    ensures stayed { (place : ℕ) → slice_index recorder.new.last place ≡ 0 → slice_index memory.old.words.items place ≡ slice_index memory.new.words.items place }
    ensures bound { unwrap_or result steps ≤ steps }
    ensures code_pages { AddsCodePages PAGES events.entry from (state_of core.old memory.old) (unwrap_or result steps) recorder.old.code_pages recorder.new.code_pages }
{
    recorder.note_code_page(core.pc() / PAGE_BYTES);
    let mut made = 0;
    let mut patience = PATIENCE;
    while made < steps {
        let time = from + made as u64;
        let more = advance(
            core,
            memory,
            time,
            &mut events,
            steps - made,
            stop,
            recorder,
            &mut patience,
        );
        made += more;
        if core.pc() as u64 == stop {
            return Some(made);
        }
    }
    None
}
