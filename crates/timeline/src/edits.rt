//! Edits of the history. Records of spans outlive them, though they may no longer be those of the run.

ghost use Rattle.std.specs.Prelude.{◌≡◌, IfOk, length};
ghost use Rattle.input_log.specs.declared.event.Kind.TheVariants.{Byte, Framing, Wire};
ghost use Rattle.input_log.specs.Edits.{ChangesBy, adding, deleting, edited, erasing, event_place, moving, setting, up_to, without};
ghost use Rattle.r3k_image.specs.Boot.{FitsRam};
ghost use Rattle.r3k_image.specs.Patch.{patching};
ghost use Rattle.refusal.specs.Given.{Changes, ChangesOrLacks};
ghost use Rattle.present_run.specs.TimelineView.{with_image, with_log};

use crate::timeline::Timeline;
use input_log::{Edit, Kind};
use refusal::Fault;

impl<const PAGES: u32, const SPAN: u32> Timeline<PAGES, SPAN> {
    /// Makes an edit of the log, and gives the place in the log that the event then has which it adds, sets or moves. Its refusals
    /// are those of the call that is named after it.
    pub fn edit(&mut self, edit: Edit) -> Result<Option<usize>, Fault>
        ensures log { ChangesBy edit (with_log self.old (edited edit self.old.history.log)) self.old self.new result }
        ensures place { IfOk result (λ place. place ≡ event_place edit self.old.history.log) }
    {
        self.present.edit(edit)
    }

    /// Adds the arrival of a byte after all events of its time or an earlier one, and gives its place in the log. `Range` for a
    /// time or a line out of its range, and for a full log.
    pub fn add(&mut self, time: u64, line: u8, byte: u8) -> Result<usize, Fault>
        ensures log { ChangesOrLacks (with_log self.old (adding (record { time = time; kind = Byte; line = line; byte = byte }) self.old.history.log)) self.old self.new result }
        ensures place { IfOk result (λ place. place ≡ length (up_to time self.old.history.log)) }
    {
        Ok(
            self.edit(Edit::Add {
                time,
                kind: Kind::Byte,
                line,
                byte,
            })?
            .unwrap_or(0),
        )
    }

    /// Adds the arrival of a byte with a framing error, as `add` does that of a byte.
    pub fn ferr(&mut self, time: u64, line: u8, byte: u8) -> Result<usize, Fault>
        ensures log { ChangesOrLacks (with_log self.old (adding (record { time = time; kind = Framing; line = line; byte = byte }) self.old.history.log)) self.old self.new result }
        ensures place { IfOk result (λ place. place ≡ length (up_to time self.old.history.log)) }
    {
        Ok(
            self.edit(Edit::Add {
                time,
                kind: Kind::Framing,
                line,
                byte,
            })?
            .unwrap_or(0),
        )
    }

    /// Adds a level, 0 or 1, of an external line, 0 to 2, as `add` does a byte. Another line or level is `Range` too.
    pub fn wire(&mut self, time: u64, line: u8, level: u8) -> Result<usize, Fault>
        ensures log { ChangesOrLacks (with_log self.old (adding (record { time = time; kind = Wire; line = line; byte = level }) self.old.history.log)) self.old self.new result }
        ensures place { IfOk result (λ place. place ≡ length (up_to time self.old.history.log)) }
    {
        Ok(
            self.edit(Edit::Add {
                time,
                kind: Kind::Wire,
                line,
                byte: level,
            })?
            .unwrap_or(0),
        )
    }

    /// Deletes an event by its place in the log. `NoEvent` if there is none.
    pub fn del(&mut self, place: u64) -> Result<(), Fault>
        ensures { Changes (with_log self.old (deleting place self.old.history.log)) self.old self.new result }
    {
        self.edit(Edit::Delete { place })?;
        Ok(())
    }

    /// Gives an event another byte. `NoEvent` if there is none, `Range` if it is the level of an external line and the byte is
    /// above 1.
    pub fn set(&mut self, place: u64, byte: u8) -> Result<(), Fault>
        ensures { Changes (with_log self.old (setting place byte self.old.history.log)) self.old self.new result }
    {
        self.edit(Edit::Set { place, byte })?;
        Ok(())
    }

    /// Moves an event to another time, as if it was deleted and added again, and gives its new place in the log. `Range` for a time
    /// out of its range, else `NoEvent` if there is no such event.
    pub fn move_to(&mut self, place: u64, time: u64) -> Result<usize, Fault>
        ensures log { Changes (with_log self.old (moving place time self.old.history.log)) self.old self.new result }
        ensures place { IfOk result (λ now. now ≡ length (up_to time (without place self.old.history.log))) }
    {
        Ok(self.edit(Edit::Move { place, time })?.unwrap_or(0))
    }

    /// Takes out all events of the times from one position up to another, which is left out, in one edit. `Range` for a position
    /// above the greatest, and for `from` above `to`. It takes no memory.
    pub fn erase(&mut self, from: u64, to: u64) -> Result<(), Fault>
        ensures { Changes (with_log self.old (erasing from to self.old.history.log)) self.old self.new result }
    {
        self.edit(Edit::Erase { from, to })?;
        Ok(())
    }

    /// Sets a word of the image, by its physical address, also where its value stays the same. `Unaligned` if the address is not
    /// a multiple of 4, `NotMemory` if it is neither in the machine's RAM nor in ROM.
    pub fn patch(&mut self, address: u32, word: u32) -> Result<(), Fault>
        ensures image { ChangesOrLacks (with_image self.old (patching PAGES address word self.old.history.image)) self.old self.new result }
        ensures fits { FitsRam PAGES self.new.history.image }
    {
        self.present.patch(address, word)
    }
}
