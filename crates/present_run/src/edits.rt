//! Edits of the history. Records of spans outlive them, though they may no longer be those of the run.

ghost use Rattle.std.specs.Prelude.{◌≡◌, IfOk};
ghost use Rattle.input_log.specs.Edits.{ChangesBy, edited, event_place};
ghost use Rattle.r3k_image.specs.Boot.{FitsRam};
ghost use Rattle.r3k_image.specs.Patch.{patching};
ghost use Rattle.refusal.specs.Given.{ChangesOrLacks};
ghost use Rattle.present_run.specs.TimelineView.{with_image, with_log};
ghost use Rattle.present_run.specs.Shown.{view_of};

use crate::present::Present;
use input_log::{Edit, log_laws};
use r3k_word::layout::place_of;
use refusal::Fault;

impl<const PAGES: u32, const SPAN: u32> Present<PAGES, SPAN> {
    /// Makes an edit of the log, and reports the place that the event then has which it adds, sets or moves. Its refusals are
    /// those of `Log`.
    pub fn edit(&mut self, edit: Edit) -> Result<Option<usize>, Fault>
        ensures log { ChangesBy edit (with_log (view_of self.old) (edited edit (view_of self.old).history.log)) (view_of self.old) (view_of self.new) result }
        ensures place { IfOk result (λ place. place ≡ event_place edit (view_of self.old).history.log) }
    {
        log_laws();
        let (from, last) = self.inputs.log.times_of(edit);
        let place = self.inputs.log.edit(edit)?;
        self.runs.machine.forget();
        self.runs.records.forget(from, last);
        self.recent_states.clear();
        Ok(place)
    }

    /// Sets a word of the image, by its physical address, also where its value stays the same. `Unaligned` if the address is not
    /// a multiple of 4, `NotMemory` if it is neither in the machine's RAM nor in ROM.
    pub fn patch(&mut self, address: u32, word: u32) -> Result<(), Fault>
        ensures image { ChangesOrLacks (with_image (view_of self.old) (patching PAGES address word (view_of self.old).history.image)) (view_of self.old) (view_of self.new) result }
        ensures fits { FitsRam PAGES (view_of self.new).history.image }
    {
        if address % 4 != 0 {
            return Err(Fault::Unaligned);
        }
        let Some(place) = place_of(PAGES, address) else {
            return Err(Fault::NotMemory);
        };
        let reset = self.runs.records.reset_with(self.alloc, place, word)?;
        let Ok(()) = self.inputs.image.patch(address, word) else {
            return Err(Fault::Memory);
        };
        self.runs.machine.forget();
        self.runs.records.restart(reset);
        self.recent_states.clear();
        Ok(())
    }
}
