//! Queries: what the run of the history from reset holds and reports. They leave the history as it is.
//!
//! They refuse in this order: `Range` for a number out of its range, `Unaligned` for an address that is not a multiple of 4,
//! `NotMemory` for one of neither RAM nor ROM, `TooFar` for a position above the greatest, `Memory`, and `NotFound` after a whole
//! search that found nothing.
//!
//! A query needs a record that serves for each whole span before its position. It runs a span only where no kept record serves.
//! Then it goes the rest of the way. The last 8 states inside spans that were asked for are kept too.

ghost use Rattle.std.specs.Prelude.{◌≡◌, ◌≤◌, IfOk, MatchResult, Ok};
ghost use Rattle.refusal.specs.Given.{Gives, GivesFault};
ghost use Rattle.input_log.specs.Limits.{max_position};
ghost use Rattle.timeline.specs.Query.{console_at, core_at, followed, jumps_at, next_pc, register_writer_at, sent_at, word_at, writer_at, writer_of};
ghost use Rattle.present_run.specs.Jumps.{jumping_of, steps_followed};
ghost use Rattle.present_run.specs.TimelineView.{Asks, AsksOn, KeepsState};

use crate::timeline::Timeline;
use crate::writer::Writer;
use arrayvec::ArrayVec;
use dz_serial::SerialLine;
use input_log::MAX_POSITION;
use present_run::Jumps;
use r3k_machine::{Core, Target, Traced};
use r3k_word::layout::place_of;
use refusal::Fault;

// The most steps that a search for a PC or for jumps goes.
const MAX_VISIT: u64 = 1_048_576;

// The most steps that are followed, or jumps that are returned, at once.
const MAX_FOLLOWED: u64 = 64;

impl<const PAGES: u32, const SPAN: u32> Timeline<PAGES, SPAN> {
    /// The processor at a position.
    pub fn core_at(&mut self, position: u64) -> Result<Box<Core>, Fault>
        ensures core { MatchResult result (λ core. core_at PAGES self.old.history position ≡ Ok core.value)
            (GivesFault (core_at PAGES self.old.history position)) }
        ensures asks { Asks PAGES SPAN position 0 self.old self.new result }
        ensures keeps_state { KeepsState SPAN position self.old self.new result }
        ensures same { self.new.history ≡ self.old.history }
    {
        if position > MAX_POSITION {
            return Err(Fault::TooFar);
        }
        Ok(self.present.core_at(position)?)
    }

    /// The word of RAM or ROM at a physical address, at a position.
    pub fn word_at(&mut self, position: u64, address: u32) -> Result<u32, Fault>
        ensures word { Gives (word_at PAGES self.old.history position address) result }
        ensures asks { Asks PAGES SPAN position 0 self.old self.new result }
        ensures keeps_state { KeepsState SPAN position self.old self.new result }
        ensures same { self.new.history ≡ self.old.history }
    {
        if address % 4 != 0 {
            return Err(Fault::Unaligned);
        }
        let Some(place) = place_of(PAGES, address) else {
            return Err(Fault::NotMemory);
        };
        if position > MAX_POSITION {
            return Err(Fault::TooFar);
        }
        Ok(self.present.word_at(position, place)?)
    }

    /// How many bytes were sent on a line before a position, and those from a place on, at most `count`. `Range` for a line above 3
    /// and for a count that is not 1 to 256.
    pub fn console_at(
        &mut self,
        position: u64,
        line: u8,
        from: u64,
        count: usize,
    ) -> Result<(u64, ArrayVec<u8, 256>), Fault>
        ensures shown { MatchResult result
            (λ shown. console_at PAGES self.old.history position line from count ≡ Ok (shown.0, shown.1.items))
            (GivesFault (console_at PAGES self.old.history position line from count)) }
        ensures asks { Asks PAGES SPAN position 0 self.old self.new result }
        ensures recent_states { self.new.recent_states ≡ self.old.recent_states }
        ensures same { self.new.history ≡ self.old.history }
    {
        if line > 3 || count == 0 || count > 256 {
            return Err(Fault::Range);
        }
        if position > MAX_POSITION {
            return Err(Fault::TooFar);
        }
        let shown = self
            .present
            .console(position, SerialLine::new(line), from, count)?;
        Ok((shown.total, shown.bytes))
    }

    /// Who stored last into the word of RAM or ROM at a physical address, before a position.
    pub fn writer_at(&mut self, position: u64, address: u32) -> Result<Writer, Fault>
        ensures writer { Gives (writer_at PAGES self.old.history position address) result }
        ensures asks { Asks PAGES SPAN position 0 self.old self.new result }
        ensures recent_states { self.new.recent_states ≡ self.old.recent_states }
        ensures same { self.new.history ≡ self.old.history }
    {
        if address % 4 != 0 {
            return Err(Fault::Unaligned);
        }
        if place_of(PAGES, address).is_none() {
            return Err(Fault::NotMemory);
        }
        if position > MAX_POSITION {
            return Err(Fault::TooFar);
        }
        let set = self.present.image().word(address);
        let step = self.present.last_writer(position, Target::Memory(address))?;
        Ok(writer_of(step, set))
    }

    /// The last step before a position that wrote a register: 1 to 31, 32 for HI, 33 for LO. A load counts at its own step. `NotFound`
    /// where no step did, as none writes r0. `Range` for a register above 33.
    pub fn register_writer_at(&mut self, position: u64, register: u8) -> Result<u64, Fault>
        ensures step { Gives (register_writer_at PAGES self.old.history position register) result }
        ensures asks { Asks PAGES SPAN position 0 self.old self.new result }
        ensures recent_states { self.new.recent_states ≡ self.old.recent_states }
        ensures same { self.new.history ≡ self.old.history }
    {
        if register > 33 {
            return Err(Fault::Range);
        }
        if position > MAX_POSITION {
            return Err(Fault::TooFar);
        }
        let writer = self
            .present
            .last_writer(position, Target::Register(register))?;
        writer.ok_or(Fault::NotFound)
    }

    /// The step that sent a byte of a line, by its place among the line's bytes, if that was before a position. `Range` for a line
    /// above 3.
    pub fn sent_at(&mut self, position: u64, line: u8, place: u64) -> Result<u64, Fault>
        ensures step { Gives (sent_at PAGES self.old.history position line place) result }
        ensures asks { Asks PAGES SPAN position 0 self.old self.new result }
        ensures recent_states { self.new.recent_states ≡ self.old.recent_states }
        ensures same { self.new.history ≡ self.old.history }
    {
        if line > 3 {
            return Err(Fault::Range);
        }
        if position > MAX_POSITION {
            return Err(Fault::TooFar);
        }
        let sender = self.present.sender(position, SerialLine::new(line), place)?;
        sender.ok_or(Fault::NotFound)
    }

    /// The least position after one, at most `limit` steps after it, at which the PC holds an address. `Range` for a limit that is
    /// not 1 to 1,048,576.
    pub fn next_pc(&mut self, position: u64, address: u32, limit: u64) -> Result<u64, Fault>
        ensures found { Gives (next_pc PAGES self.old.history position address limit) result }
        ensures bound { IfOk result (λ found. found ≤ max_position) }
        ensures asks { Asks PAGES SPAN position limit self.old self.new result }
        ensures recent_states { self.new.recent_states ≡ self.old.recent_states }
        ensures same { self.new.history ≡ self.old.history }
    {
        if limit == 0 || limit > MAX_VISIT {
            return Err(Fault::Range);
        }
        if address % 4 != 0 {
            return Err(Fault::Unaligned);
        }
        let last = position.saturating_add(limit);
        if last > MAX_POSITION {
            return Err(Fault::TooFar);
        }
        let found = self.present.next_visit(position, address, last)?;
        found.ok_or(Fault::NotFound)
    }

    /// What each of `count` steps from a position on does. `Range` for a count that is not 1 to 64.
    pub fn follow(&mut self, position: u64, count: u64) -> Result<ArrayVec<Traced, 64>, Fault>
        ensures steps { MatchResult result
            (λ steps. followed PAGES self.old.history position count ≡ Ok steps.items)
            (GivesFault (followed PAGES self.old.history position count)) }
        ensures asks { Asks PAGES SPAN position count self.old self.new result }
        ensures recent_states { self.new.recent_states ≡ self.old.recent_states }
        ensures same { self.new.history ≡ self.old.history }
    {
        if count == 0 || count > MAX_FOLLOWED {
            return Err(Fault::Range);
        }
        if position.saturating_add(count) > MAX_POSITION {
            return Err(Fault::TooFar);
        }
        Ok(self.present.follow(position, count)?)
    }

    /// Returns the next steps from a position on that transfer control, at most `count` of those within the next 1,048,576 steps, and the
    /// position from which to ask for later ones. Jumps within a function are returned only if `local` is set. `Range` for a count that
    /// is not 1 to 64.
    pub fn jumps(&mut self, position: u64, local: bool, count: u64) -> Result<Jumps, Fault>
        ensures jumps { MatchResult result
            (λ found. jumps_at PAGES self.old.history position local count ≡ Ok (jumping_of found))
            (GivesFault (jumps_at PAGES self.old.history position local count)) }
        ensures asks { AsksOn PAGES SPAN position (steps_followed position result) self.old self.new result }
        ensures recent_states { self.new.recent_states ≡ self.old.recent_states }
        ensures same { self.new.history ≡ self.old.history }
    {
        if count == 0 || count > MAX_FOLLOWED {
            return Err(Fault::Range);
        }
        if position > MAX_POSITION {
            return Err(Fault::TooFar);
        }
        if position == MAX_POSITION {
            return Ok(Jumps::none_after(position));
        }
        let last = position + MAX_VISIT.min(MAX_POSITION - position);
        Ok(self.present.jumps(position, local, count, last)?)
    }
}

// Who wrote a word last: a step, or else the image, or else nobody.
fn writer_of(step: Option<u64>, set: Option<u32>) -> Writer
    ensures { result ≡ writer_of step set }
{
    match (step, set) {
        (Some(step), _) => Writer::Step(step),
        (None, Some(_)) => Writer::Image,
        (None, None) => Writer::Never,
    }
}
