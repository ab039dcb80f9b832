//! The history, and what is kept of its runs.

ghost use Rattle.std.specs.Prelude.{◌≡◌, ◌⊎◌, ◌/◌, ◌%◌, ◌<◌, ◌≤◌, ℕ, [], Contains, MatchResult, length, nat_eq};
ghost use Rattle.std.specs.List.{IsDistinct};
ghost use Rattle.r3k_image.specs.Boot.{FitsRam};
ghost use Rattle.r3k_image.specs.declared.fault.ImageFault.TheVariants.{Bad, Memory};
ghost use Rattle.r3k_image.specs.declared.fault.ImageKind.TheVariants.{Pages};
ghost use Rattle.present_run.specs.Reuse.{ServesFirst};
ghost use Rattle.present_run.specs.Sizes.{AreSizes};
ghost use Rattle.present_run.specs.TimelineView.{holding};

use input_log::Log;
use present_run::Present;
use r3k_image::{Image, ImageFault, ImageKind};
use std::alloc::Global;
use std::marker::Model;

/// An image and a log that can be edited, on a machine with `PAGES` pages of RAM. Queries are answered as if the machine was
/// run from reset for each. What was run is kept in spans of `SPAN` steps, for one past or several, and is run again only where none of
/// what is kept applies. The last 8 states inside spans that were asked for are kept too, up to the next edit.
#[derive(Drop)]
pub struct Timeline<const PAGES: u32, const SPAN: u32> {
    pub(crate) present: Present<PAGES, SPAN>,
}

impl<const PAGES: u32, const SPAN: u32> Model for Timeline<PAGES, SPAN> {
    ghost use Rattle.std.specs.Coded.{codes};
    ghost use Rattle.present_run.specs.History.{history_code};
    ghost use Rattle.present_run.specs.TimelineView.{TimelineView};
    ghost use Rattle.present_run.specs.Shown.{view_of};

    ghost Value = { TimelineView };

    ghost coded = { Prim.hlevel (history_code, codes) };

    ghost view = { λ t. view_of t.present };
}

impl<const PAGES: u32, const SPAN: u32> Timeline<PAGES, SPAN> {
    /// The timeline of an image and a log, which keeps one record of each span. An image that sets a word of RAM past the machine's is
    /// refused. Where it is refused, for this or for want of memory, image and log are dropped.
    pub fn new(alloc: Global, image: Image, log: Log) -> Result<Timeline<PAGES, SPAN>, ImageFault>
        requires sizes { AreSizes PAGES SPAN }
        ensures { MatchResult result
            (λ t. FitsRam PAGES image × (t ≡ record { history = record { image = image; log = log }; rows = []; pasts = 1; steps = 0; recent_states = [] }))
            (λ fault. ((fault ≡ Memory) × FitsRam PAGES image) ⊎ ((fault ≡ Bad Pages) × ¬ FitsRam PAGES image)) }
    {
        Timeline::with_pasts(alloc, image, log, 1)
    }

    /// The same, which keeps records of each span in several pasts, at most `pasts`. So an edit that is taken back runs no span again,
    /// and neither do questions of two pasts in turn. Of each span the record that was used least recently is dropped first.
    pub fn with_pasts(
        alloc: Global,
        image: Image,
        log: Log,
        pasts: usize,
    ) -> Result<Timeline<PAGES, SPAN>, ImageFault>
        requires sizes { AreSizes PAGES SPAN }
        requires pasts { 0 < pasts }
        ensures { MatchResult result
            (λ t. FitsRam PAGES image × (t ≡ record { history = record { image = image; log = log }; rows = []; pasts = pasts; steps = 0; recent_states = [] }))
            (λ fault. ((fault ≡ Memory) × FitsRam PAGES image) ⊎ ((fault ≡ Bad Pages) × ¬ FitsRam PAGES image)) }
    {
        if !image.fits(PAGES) {
            return Err(ImageFault::Bad(ImageKind::Pages));
        }
        let present = Present::boot(alloc, image, log, pasts)?;
        Ok(Timeline { present })
    }

    /// The boot image as it now stands.
    pub fn image(&self) -> &Image
        ensures { result.now ≡ self.now.history.image }
    {
        self.present.image()
    }

    /// The log as it now stands.
    pub fn log(&self) -> &Log
        ensures { result.now ≡ self.now.history.log }
    {
        self.present.log()
    }

    /// How many states inside spans are kept: at most 8, each of another position. No span starts at one. Of each span before one the
    /// record that was used last serves. That they are states of the run follows from what `core_at` and `word_at` answer there
    /// without a step.
    pub fn recent_states(&self) -> usize
        ensures len { result ≡ length self.now.recent_states }
        ensures few { length self.now.recent_states ≤ 8 }
        ensures distinct { IsDistinct nat_eq self.now.recent_states }
        ensures inside { (position : ℕ) → Contains self.now.recent_states position → ¬ (position % SPAN ≡ 0) }
        ensures served { (position : ℕ) → Contains self.now.recent_states position →
            (index : ℕ) → index < position / SPAN → ServesFirst PAGES SPAN (holding self.now) index }
    {
        self.present.recent_states()
    }

    /// How many steps were run so far, for all queries together, up to the greatest number.
    pub fn steps_run(&self) -> u64
        ensures { result ≡ self.now.steps }
    {
        self.present.steps_run()
    }
}
