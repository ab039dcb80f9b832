//! The present run of a history: the image and the log that determine it, and all that is kept of it and of earlier runs.
//!
//! A run is cut into spans of `SPAN` steps. Of each span that was run a record is kept: where it starts and ends, and what its
//! steps reported. There may be several of a number, of different pasts. A query joins the spans before its position, one after the
//! other. A record is joined as it is if it serves: its events are those of the log, and its start is where the run stands, except for
//! pages that it does not touch. These pages are carried over to its end. It then comes first of its number. Where none serves, the span
//! is run, and its record comes first. For the rest of the way the machine goes on: from the last end, from where it stands, or from a
//! state that is kept inside the span.
//!
//! A record that is known to start where the one before it ends is looked at before the others of its number. Its start can differ from
//! where the run stands only in pages that are known (`Frontier`). Of another one that serves both memories are compared.
//!
//! An edit of the log forgets the spans from its time on, and their ends stay. Once a span ends where it ended before, all that go
//! on from there are joined again at once. `rejoin_from` is the first end from which that is known, as each edit breaks the chain at
//! its own times. A patch changes the start of the run, so no span stays joined.
//!
//! The last 8 states inside spans that were asked for are kept too (`recent_states`), up to the next edit.

ghost use Rattle.std.specs.Prelude.{◌≡◌, ◌/◌, ◌%◌, ◌<◌, ◌≤◌, ℕ, [], Contains, IfOk, length, nat_eq};
ghost use Rattle.std.specs.List.{IsDistinct};
ghost use Rattle.r3k_image.specs.Boot.{FitsRam};
ghost use Rattle.present_run.specs.Reuse.{ServesFirst};
ghost use Rattle.present_run.specs.Runs.{AreRecentStates, AreRecentStates-prop, BelongTo, BelongTo-prop};
ghost use Rattle.present_run.specs.Sizes.{AreSizes};

use crate::inputs::Inputs;
use crate::recent_states::RecentStates;
use crate::runs::Runs;
use input_log::Log;
use r3k_image::Image;
use std::alloc::{AllocError, Global};

/// The run from reset that an image and a log determine. All that is kept of runs is kept for this one: each query answers of it, and
/// each edit of the image or of the log makes it another one.
#[derive(Drop)]
pub struct Present<const PAGES: u32, const SPAN: u32> {
    pub(crate) alloc: Global,
    pub(crate) inputs: Inputs,
    pub(crate) runs: Runs<PAGES, SPAN>,
    // States of the run inside spans.
    pub(crate) recent_states: RecentStates<PAGES>,
    ghost fits: { FitsRam PAGES inputs.image },
    ghost of: { BelongTo {pages = PAGES} {span = SPAN} inputs.image inputs.log runs } by { BelongTo-prop inputs.image inputs.log runs },
    ghost are_recent: { AreRecentStates PAGES SPAN (record { image = inputs.image; log = inputs.log }) runs.records.kept.valid recent_states } by { AreRecentStates-prop PAGES SPAN (record { image = inputs.image; log = inputs.log }) runs.records.kept.valid recent_states },
}

impl<const PAGES: u32, const SPAN: u32> Present<PAGES, SPAN> {
    ghost use Rattle.present_run.specs.TimelineView.{TimelineView};
    ghost use Rattle.present_run.specs.Shown.{holding_of, view_of};

    /// The run at reset, of an image that fits. Records of each span are to be kept of at most so many pasts.
    pub fn boot(
        alloc: Global,
        image: Image,
        log: Log,
        pasts: usize,
    ) -> Result<Present<PAGES, SPAN>, AllocError>
        requires sizes { AreSizes PAGES SPAN }
        requires pasts { 0 < pasts }
        requires fits { FitsRam PAGES image }
        ensures { IfOk result (λ present. view_of present ≡
            record { history = record { image = image; log = log }; rows = []; pasts = pasts; steps = 0; recent_states = [] }) }
    {
        let inputs = Inputs { image, log };
        let runs = Runs::boot(alloc, &inputs, pasts)?;
        let recent_states = RecentStates::new(alloc)?;
        Ok(Present {
            alloc,
            inputs,
            runs,
            recent_states,
        })
    }

    /// The boot image as it now stands.
    pub fn image(&self) -> &Image
        ensures { result.now ≡ (view_of self.now).history.image }
    {
        &self.inputs.image
    }

    /// The log as it now stands.
    pub fn log(&self) -> &Log
        ensures { result.now ≡ (view_of self.now).history.log }
    {
        &self.inputs.log
    }

    /// How many states inside spans are kept: at most 8, each of another position. No span starts at one. Of each span before one the
    /// record that was used last serves.
    pub fn recent_states(&self) -> usize
        ensures len { result ≡ length (view_of self.now).recent_states }
        ensures few { length (view_of self.now).recent_states ≤ 8 }
        ensures distinct { IsDistinct nat_eq (view_of self.now).recent_states }
        ensures inside { (position : ℕ) → Contains (view_of self.now).recent_states position → ¬ (position % SPAN ≡ 0) }
        ensures served { (position : ℕ) → Contains (view_of self.now).recent_states position →
            (index : ℕ) → index < position / SPAN → ServesFirst PAGES SPAN (holding_of self.now) index }
    {
        self.recent_states.len()
    }

    /// How many steps were run so far, for all queries together, up to the greatest number.
    pub fn steps_run(&self) -> u64
        ensures { result ≡ (view_of self.now).steps }
    {
        self.runs.machine.live.steps()
    }
}
