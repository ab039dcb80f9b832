//! What the present run holds and reports, up to a position: by the records of its spans, and for the rest by the machine and its
//! recorder.

ghost use Rattle.std.specs.Prelude.{◌≡◌, ℕ, ◌+◌, ◌-◌, ◌*◌, ◌/◌, ◌%◌, ◌^◌, ◌<◌, ◌≤◌, [], IfOk, IfSome, List, Some, length, slice_get, slice_index};
ghost use Rattle.input_log.specs.Event.{LogEvent};
ghost use Rattle.r3k_image.specs.Boot.{Boot};
ghost use Rattle.r3k_word.specs.Layout.{word_count_of};
ghost use Rattle.r3k_machine.specs.Run.{console_of, last_writer, senders_of, state_at, trace_at};
ghost use Rattle.r3k_live.specs.Record.{sent_from};
ghost use Rattle.present_run.specs.Console.{Shows};
ghost use Rattle.input_log.specs.Limits.{max_position};
ghost use Rattle.present_run.specs.Reuse.{Reaches, Spends};
ghost use Rattle.present_run.specs.Shown.{Stays, holding_of};
ghost use Rattle.present_run.specs.Runs.{steps_between};
ghost use Rattle.present_run.specs.Sent.{Seeks};

use crate::present::Present;
use crate::sent::{Shown, seek};
use arrayvec::ArrayVec;
use dz_serial::SerialLine;
use r3k_live::SentAt;
use r3k_machine::Target;
use std::alloc::AllocError;

impl<const PAGES: u32, const SPAN: u32> Present<PAGES, SPAN> {
    /// The last step before a position that wrote a word of RAM or a register.
    pub fn last_writer(&mut self, position: u64, target: Target) -> Result<Option<u64>, AllocError>
        requires position { position ≤ max_position }
        ensures stays { Stays self.old self.new }
        ensures writer { IfOk result (λ step. step ≡ last_writer target (trace_at PAGES self.new.inputs.image self.new.inputs.log position)) }
        ensures spends { Spends PAGES SPAN (position / SPAN) (position % SPAN)
            (holding_of self.old) (holding_of self.new) }
        ensures reaches { IfOk result (λ _. Reaches PAGES SPAN (position / SPAN)
            (holding_of self.old) (holding_of self.new)) }
    {
        let index = self.record(position)?;
        if let Some(step) = self.runs.machine.recorder.writer(target) {
            return Ok(Some(index * SPAN as u64 + step as u64));
        }
        Ok(self.writer_before(index, target))
    }

    /// What is shown of the console of a line before a position: how many bytes it has, and those from a place on, at most
    /// `count` of them.
    pub fn console(
        &mut self,
        position: u64,
        line: SerialLine,
        from: u64,
        count: usize,
    ) -> Result<Shown, AllocError>
        requires position { position ≤ max_position }
        requires count { count ≤ 256 }
        ensures stays { Stays self.old self.new }
        ensures shown { IfOk result (Shows from count (console_of line (trace_at PAGES self.new.inputs.image self.new.inputs.log position))) }
        ensures spends { Spends PAGES SPAN (position / SPAN) (position % SPAN)
            (holding_of self.old) (holding_of self.new) }
        ensures reaches { IfOk result (λ _. Reaches PAGES SPAN (position / SPAN)
            (holding_of self.old) (holding_of self.new)) }
    {
        let index = self.record(position)?;
        let mut shown = self.shown_before(index, line, from, count);
        shown.take_of(line, self.runs.machine.recorder.sent(), from, count);
        Ok(shown)
    }

    /// The step that sent a byte of a line, by its place in the console, if it came before a position.
    pub fn sender(
        &mut self,
        position: u64,
        line: SerialLine,
        place: u64,
    ) -> Result<Option<u64>, AllocError>
        requires position { position ≤ max_position }
        ensures stays { Stays self.old self.new }
        ensures sender { IfOk result (λ step. step ≡
            slice_get (senders_of line 0 (trace_at PAGES self.new.inputs.image self.new.inputs.log position)) place) }
        ensures spends { Spends PAGES SPAN (position / SPAN) (position % SPAN)
            (holding_of self.old) (holding_of self.new) }
        ensures reaches { IfOk result (λ _. Reaches PAGES SPAN (position / SPAN)
            (holding_of self.old) (holding_of self.new)) }
    {
        let index = self.record(position)?;
        match self.sender_before(index, line, place) {
            Ok(step) => Ok(Some(step)),
            Err(left) => match seek(line, self.runs.machine.recorder.sent(), left) {
                Ok(step) => Ok(Some(index * SPAN as u64 + step as u64)),
                Err(_) => Ok(None),
            },
        }
    }
}

impl<const PAGES: u32, const SPAN: u32> Present<PAGES, SPAN> {
    // The last step of the first `count` spans that wrote a word or a register.
    fn writer_before(&self, count: u64, target: Target) -> Option<u64>
        requires joined { count ≤ self.now.runs.records.kept.valid }
        requires near { count * SPAN ≤ max_position }
        ensures { result ≡ last_writer target (trace_at PAGES self.now.inputs.image self.now.inputs.log (count * SPAN)) }
    {
        let (index, step) = self
            .runs
            .records
            .reports
            .last_writer(&self.runs.records.kept, count, target)?;
        Some(index * SPAN as u64 + step as u64)
    }

    // The bytes that a span's steps sent, each with its step, counted from its start.
    fn sent_in(&self, index: u64) -> &[SentAt]
        requires joined { index < self.now.runs.records.kept.valid }
        ensures { result.now ≡ sent_from 0
            (steps_between PAGES self.now.inputs.image self.now.inputs.log (index * SPAN) ((index + 1) * SPAN)) }
    {
        match self.runs.records.kept.first(index) {
            Some(fact) => fact.sent(),
            None => &[],
        }
    }

    // Which of the first `spans` spans sent the byte of a line at a place, or `spans` where they sent fewer.
    fn sending_span(&self, spans: u64, line: SerialLine, place: u64) -> u64
        requires joined { spans ≤ self.now.runs.records.kept.valid }
        ensures within { result ≤ spans }
        ensures from { length (console_of line (trace_at PAGES self.now.inputs.image self.now.inputs.log (result * SPAN))) ≤ place }
        ensures to { result < spans → place < length (console_of line (trace_at PAGES self.now.inputs.image self.now.inputs.log ((result + 1) * SPAN))) }
    {
        self.runs.records.reports.find(line, place, spans)
    }

    // How many bytes of a line the first `spans` spans sent.
    fn count_of(&self, spans: u64, line: SerialLine) -> u64
        requires joined { spans ≤ self.now.runs.records.kept.valid }
        ensures { result ≡ length (console_of line (trace_at PAGES self.now.inputs.image self.now.inputs.log (spans * SPAN))) }
    {
        self.runs.records.reports.count(line, spans)
    }

    // What is shown of the console of a line by the steps of the first `spans` spans.
    fn shown_before(&self, spans: u64, line: SerialLine, from: u64, count: usize) -> Shown
        requires joined { spans ≤ self.now.runs.records.kept.valid }
        requires near { spans * SPAN ≤ max_position }
        requires count { count ≤ 256 }
        ensures shown { Shows from count (console_of line (trace_at PAGES self.now.inputs.image self.now.inputs.log (spans * SPAN))) result }
        ensures few { result.total ≤ spans * SPAN }
    {
        let mut index = self.sending_span(spans, line, from);
        let mut shown = Shown {
            total: self.count_of(index, line),
            bytes: ArrayVec::new(),
        };
        while index < spans && shown.bytes.len() < count {
            shown.take_of(line, self.sent_in(index), from, count);
            index = self.sending_span(spans, line, shown.total);
        }
        shown.total = self.count_of(spans, line);
        shown
    }

    // The step that sent the byte of a line at a place, in the first `spans` spans, or how many places are left after their bytes.
    fn sender_before(&self, spans: u64, line: SerialLine, place: u64) -> Result<u64, u64>
        requires joined { spans ≤ self.now.runs.records.kept.valid }
        requires near { spans * SPAN ≤ max_position }
        ensures { Seeks (senders_of line 0 (trace_at PAGES self.now.inputs.image self.now.inputs.log (spans * SPAN))) place result }
    {
        let index = self.sending_span(spans, line, place);
        let left = place - self.count_of(index, line);
        if index == spans {
            return Err(left);
        }
        let step = seek(line, self.sent_in(index), left)?;
        Ok(index * SPAN as u64 + step as u64)
    }
}
