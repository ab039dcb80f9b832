//! Lists of answers, asked one by one.

ghost use Rattle.std.specs.Prelude.{◌≡◌, ◌⊎◌, ◌+◌, ◌-◌, ◌*◌, ◌%◌, ◌≤◌, Err, IfSome, MatchResult, Ok};
ghost use Rattle.std.specs.Option.{SomeIff};
ghost use Rattle.input_log.specs.Limits.{max_position};
ghost use Rattle.refusal.specs.Given.{GivesFault};
ghost use Rattle.timeline.specs.TimelineView.{Asks};
ghost use Rattle.wb_session.specs.Cost.{LeavesBy};
ghost use Rattle.wb_session.specs.Lists.{pcs_at, senders_at, states_after, states_apart, stores_at};
ghost use Rattle.wb_session.specs.Session.{triple_of};

use crate::session::Session;
use arrayvec::ArrayVec;
use input_log::MAX_POSITION;
use r3k_word::layout::place_of;
use refusal::Fault;
use timeline::Writer;
use wb_text::{Address, Distance, FindCount, LineNumber, PositionCount, StoreCount, Timed};

impl<const PAGES: u32, const SPAN: u32> Session<PAGES, SPAN> {
    /// The last steps before the position that stored into a word, at most `count`, the last one first, and the word after each.
    pub(crate) fn last_stores(
        &mut self,
        address: Address,
        count: StoreCount,
    ) -> Result<ArrayVec<Timed, 32>, Fault>
        ensures stores { MatchResult result
            (λ stores. stores_at PAGES self.old.timeline.history self.old.position address count ≡ Ok stores.items)
            (GivesFault (stores_at PAGES self.old.timeline.history self.old.position address count)) }
        ensures same { triple_of self.new ≡ triple_of self.old }
        ensures asks { Asks PAGES SPAN self.old.position ((2 * count - 1) * SPAN) self.old.timeline self.new.timeline result }
        ensures leaves { LeavesBy SPAN (states_after (stores_at PAGES self.old.timeline.history self.old.position address count))
            self.old.timeline.recent_states self.new.timeline.recent_states result }
    {
        let address = address.get() as u32;
        if address % 4 != 0 {
            return Err(Fault::Unaligned);
        }
        if place_of(PAGES, address).is_none() {
            return Err(Fault::NotMemory);
        }
        let mut stores = ArrayVec::new();
        let mut before = self.position;
        for _ in 0..count.get() {
            let step = match self.timeline.writer_at(before, address) {
                Ok(Writer::Step(step)) => step,
                Ok(Writer::Image) => return Ok(stores),
                Ok(Writer::Never) => return Ok(stores),
                Err(fault) => return Err(fault),
            };
            match self.timeline.word_at(step + 1, address) {
                Ok(word) => stores.push(Timed { time: step, word }),
                Err(fault) => return Err(fault),
            }
            before = step;
        }
        Ok(stores)
    }

    /// The steps before the position that sent the bytes of a line from a place on, at most `count`.
    pub(crate) fn senders(
        &mut self,
        line: LineNumber,
        from: u64,
        count: FindCount,
    ) -> Result<ArrayVec<u64, 64>, Fault>
        ensures senders { MatchResult result
            (λ steps. senders_at PAGES self.old.timeline.history self.old.position line from count ≡ Ok steps.items)
            (GivesFault (senders_at PAGES self.old.timeline.history self.old.position line from count)) }
        ensures same { triple_of self.new ≡ triple_of self.old }
        ensures asks { Asks PAGES SPAN self.old.position ((count - 1) * (self.old.position % SPAN)) self.old.timeline self.new.timeline result }
        ensures recent_states { self.new.timeline.recent_states ≡ self.old.timeline.recent_states }
    {
        let number = line.get() as u8;
        let mut steps = ArrayVec::new();
        for more in 0..count.get() {
            let Some(place) = from.checked_add(more) else {
                return Ok(steps);
            };
            match self.timeline.sent_at(self.position, number, place) {
                Ok(step) => steps.push(step),
                Err(Fault::NotFound) => return Ok(steps),
                Err(fault) => return Err(fault),
            }
        }
        Ok(steps)
    }

    /// The PC at the position and at later ones, `distance` apart.
    pub(crate) fn pcs_from(
        &mut self,
        distance: Distance,
        count: PositionCount,
    ) -> Result<ArrayVec<Timed, 64>, Fault>
        ensures pcs { MatchResult result
            (λ pcs. pcs_at PAGES self.old.timeline.history self.old.position distance count ≡ Ok pcs.items)
            (GivesFault (pcs_at PAGES self.old.timeline.history self.old.position distance count)) }
        ensures same { triple_of self.new ≡ triple_of self.old }
        ensures asks { Asks PAGES SPAN (self.old.position + (count - 1) * distance) ((count - 1) * SPAN) self.old.timeline self.new.timeline result }
        ensures leaves { LeavesBy SPAN (states_apart self.old.position distance count)
            self.old.timeline.recent_states self.new.timeline.recent_states result }
    {
        let later = count.get() - 1;
        let Some(last) = position_after(self.position, distance.get(), later) else {
            return Err(Fault::TooFar);
        };
        // The last one first: then no span before it is run again.
        let last_pc = match self.timeline.core_at(last) {
            Ok(core) => core.pc(),
            Err(fault) => return Err(fault),
        };
        let mut pcs = ArrayVec::new();
        let mut position = self.position;
        for _ in 0..later {
            match self.timeline.core_at(position) {
                Ok(core) => pcs.push(Timed {
                    time: position,
                    word: core.pc(),
                }),
                Err(fault) => return Err(fault),
            }
            position += distance.get();
        }
        pcs.push(Timed {
            time: last,
            word: last_pc,
        });
        Ok(pcs)
    }
}

// The position that is so many times a distance after one, unless it is past the greatest.
fn position_after(position: u64, distance: u64, times: u64) -> Option<u64>
    ensures { SomeIff result (position + times * distance ≤ max_position) (position + times * distance) }
{
    let way = times.checked_mul(distance)?;
    let position = position.checked_add(way)?;
    if position > MAX_POSITION {
        return None;
    }
    Some(position)
}
