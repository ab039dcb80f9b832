//! A timeline in spans of 64 steps that is asked and edited, and how many steps it runs for each answer.
ghost use Rattle.timeline.specs.Sizes.{AreSizes};

use input_log::Log;
use r3k_image::{Image, read_image, write_image};
use refusal::Fault;
use samples::shown;
use std::alloc::{AllocError, Global};
use std::fmt::Debug;
use std::test::Fail;
use timeline::Timeline;

/// The timeline, and how many steps it had run when that was asked last.
#[derive(Drop)]
pub struct Asked<const PAGES: u32, const SPAN: u32> {
    timeline: Box<Timeline<PAGES, SPAN>>,
    steps: u64,
}

impl<const PAGES: u32, const SPAN: u32> Asked<PAGES, SPAN> {
    /// Of an image, with no events.
    pub fn of(alloc: Global, image: Image) -> Result<Asked<PAGES, SPAN>, Fail>
        requires { AreSizes PAGES SPAN }
    {
        Ok(Asked {
            timeline: boxed(alloc, Timeline::new(alloc, image, Log::new(alloc))?)?,
            steps: 0,
        })
    }

    // Begins anew, with the same image and no events, and keeps so many pasts.
    fn begin(&mut self, alloc: Global, pasts: u64) -> Result<(), Fail>
        requires { AreSizes PAGES SPAN }
    {
        if pasts == 0 {
            return Err("no past".into());
        }
        let image = read_image(alloc, &write_image(alloc, self.timeline.image())?)?;
        let timeline = Timeline::with_pasts(alloc, image, Log::new(alloc), pasts as usize)?;
        self.timeline = boxed(alloc, timeline)?;
        self.steps = 0;
        Ok(())
    }

    /// Does or asks what a clause says, and gives the answer.
    pub fn answer(&mut self, alloc: Global, name: &str, numbers: &[u64]) -> Result<String, Fail>
        requires { AreSizes PAGES SPAN }
    {
        match (name, numbers) {
            ("pasts", [pasts]) => {
                self.begin(alloc, *pasts)?;
                Ok(String::new(alloc))
            }
            ("costs", []) => Ok(shown(alloc, &self.cost())?),
            ("costs-at-most", [most]) => Ok(shown(alloc, &(self.cost() <= *most))?),
            ("events", []) => Ok(shown(alloc, &self.timeline.log().events().len())?),
            _ => self.state(alloc, name, numbers),
        }
    }

    // What the run holds at a position, and what it reported before.
    fn state(&mut self, alloc: Global, name: &str, numbers: &[u64]) -> Result<String, Fail>
        requires { AreSizes PAGES SPAN }
    {
        match (name, numbers) {
            ("pc", [position]) => {
                let core = self.timeline.core_at(*position);
                answered(alloc, core.map(|core| core.pc()))
            }
            ("console", [position]) => {
                let (total, bytes) = self.timeline.console_at(*position, 0, 0, 8)?;
                Ok(shown(alloc, &(total, bytes.as_slice()))?)
            }
            ("word", [position, address]) => {
                let address = u32::try_from(*address)?;
                answered(alloc, self.timeline.word_at(*position, address))
            }
            ("writer", [position, address]) => {
                let address = u32::try_from(*address)?;
                answered(alloc, self.timeline.writer_at(*position, address))
            }
            _ => self.search(alloc, name, numbers),
        }
    }

    // Searches of the run.
    fn search(&mut self, alloc: Global, name: &str, numbers: &[u64]) -> Result<String, Fail>
        requires { AreSizes PAGES SPAN }
    {
        match (name, numbers) {
            ("regwriter", [position, register]) => {
                let register = u8::try_from(*register)?;
                answered(alloc, self.timeline.register_writer_at(*position, register))
            }
            ("next", [position, address, limit]) => {
                let address = u32::try_from(*address)?;
                answered(alloc, self.timeline.next_pc(*position, address, *limit))
            }
            ("sender", [position, line, place]) => {
                let line = u8::try_from(*line)?;
                answered(alloc, self.timeline.sent_at(*position, line, *place))
            }
            ("trace", [position, count]) => {
                let steps = self.timeline.follow(*position, *count);
                answered(alloc, steps.map(|steps| steps.len()))
            }
            ("jumps", [position, local, count]) => {
                let found = self.timeline.jumps(*position, *local == 1, *count);
                answered(alloc, found.map(|found| found.next))
            }
            _ => self.edit(alloc, name, numbers),
        }
    }

    // Edits as is said.
    fn edit(&mut self, alloc: Global, name: &str, numbers: &[u64]) -> Result<String, Fail> {
        match (name, numbers) {
            ("add", [time, byte]) => self.burst(1, *time, u8::try_from(*byte)?)?,
            ("burst", [count, time, byte]) => self.burst(*count, *time, u8::try_from(*byte)?)?,
            ("ferr", [time, byte]) => {
                self.timeline.ferr(*time, 0, u8::try_from(*byte)?)?;
            }
            ("wire", [time, line, level]) => {
                let (line, level) = (u8::try_from(*line)?, u8::try_from(*level)?);
                self.timeline.wire(*time, line, level)?;
            }
            _ => return self.edit_events(alloc, name, numbers),
        }
        Ok(String::new(alloc))
    }

    // Edits events of the log, or the image.
    fn edit_events(&mut self, alloc: Global, name: &str, numbers: &[u64]) -> Result<String, Fail> {
        match (name, numbers) {
            ("del", [place]) => self.timeline.del(*place)?,
            ("set", [place, byte]) => self.timeline.set(*place, u8::try_from(*byte)?)?,
            ("erase", [from, to]) => return answered(alloc, self.timeline.erase(*from, *to)),
            ("patch", [address, word]) => {
                let (address, word) = (u32::try_from(*address)?, u32::try_from(*word)?);
                return answered(alloc, self.timeline.patch(address, word));
            }
            _ => return Err("no clause".into()),
        }
        Ok(String::new(alloc))
    }

    // How many steps were run since this was asked last.
    fn cost(&mut self) -> u64 {
        let now = self.timeline.steps_run();
        let cost = now.saturating_sub(self.steps);
        self.steps = now;
        cost
    }

    // This many bytes at once.
    fn burst(&mut self, count: u64, time: u64, byte: u8) -> Result<(), Fail> {
        for _ in 0..count {
            self.timeline.add(time, 0, byte)?;
        }
        Ok(())
    }
}

/// Boxes a large value. Functions that own it are then checked in less time, as its end is proved in `Box` alone.
pub fn boxed<T: Drop>(alloc: Global, value: T) -> Result<Box<T>, AllocError> {
    Box::new(alloc, value).map_err(|_| AllocError)
}

// An answer, or why it is refused.
fn answered<T: Debug + Drop>(alloc: Global, found: Result<T, Fault>) -> Result<String, Fail> {
    match found {
        Ok(found) => Ok(shown(alloc, &found)?),
        Err(fault) => Ok(shown(alloc, &fault)?),
    }
}
