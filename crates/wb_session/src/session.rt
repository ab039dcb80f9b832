//! A session: an image, a log and a position, and the answer to each command.

ghost use Rattle.std.specs.Prelude.{◌≡◌, ◌⊎◌, Err, IsOk, MatchResult, Ok};
ghost use Rattle.input_log.specs.Edits.{takes_memory};
ghost use Rattle.r3k_image.specs.Boot.{FitsRam};
ghost use Rattle.timeline.specs.Sizes.{AreSizes};
ghost use Rattle.wb_text.specs.declared.command.Command.TheVariants as command;
ghost use Rattle.wb_session.specs.Session.{Answers, AnswersAs, IsNewFault, answer, begun, edits, log_shown, moved, triple_of};
ghost use Rattle.wb_session.specs.Cost.{AsksNothing, Costs, Edits};

use crate::showing::{
    control_of, devices_of, entry_shown, events_from, place_shown, registers_of, writer_shown,
};
use input_log::{Edit, Kind, Log};
use r3k_image::Image;
use refusal::Fault;
use std::alloc::Global;
use std::marker::Model;
use timeline::{MAX_POSITION, Timeline};
use wb_options::RunFault;
use wb_text::{
    Address, ByteCount, Command, Distance, EntryNumber, EventCount, FindCount, JumpCount, JumpKind,
    LineNumber, PositionCount, RegisterNumber, Reply, StepCount, StoreCount, TraceCount, WordValue,
    WrittenNumber,
};

// How many pasts are kept side by side.
const KEPT_PASTS: usize = 4;

/// A session on a machine with `PAGES` pages of RAM. Runs are kept in spans of `SPAN` steps, of the pasts that were asked of last.
#[derive(Drop)]
pub struct Session<const PAGES: u32, const SPAN: u32> {
    pub(crate) timeline: Timeline<PAGES, SPAN>,
    pub(crate) position: u64,
}

impl<const PAGES: u32, const SPAN: u32> Model for Session<PAGES, SPAN> {
    ghost use Rattle.std.specs.Coded.{codes};
    ghost use Rattle.timeline.specs.History.{history_code};
    ghost use Rattle.wb_session.specs.Session.{Held, IsSession, triple_of};

    ghost Value = { Held };

    ghost coded = { Prim.hlevel (history_code, codes) };

    ghost view = { λ s. record { timeline = s.timeline; position = s.position } };

    ghost invariant = { λ s. IsSession PAGES SPAN (triple_of (record { timeline = s.timeline; position = s.position })) };
}

impl<const PAGES: u32, const SPAN: u32> Session<PAGES, SPAN> {
    /// The session of an image and a log, at position 0. An image that sets a word of RAM past the machine's is refused,
    /// and then image and log are dropped.
    pub fn new(alloc: Global, image: Image, log: Log) -> Result<Session<PAGES, SPAN>, RunFault>
        requires sizes { AreSizes PAGES SPAN }
        ensures { MatchResult result
            (λ s. FitsRam PAGES image × (s ≡ begun image log))
            (IsNewFault PAGES image) }
    {
        Ok(Session {
            timeline: Timeline::with_pasts(alloc, image, log, KEPT_PASTS)?,
            position: 0,
        })
    }

    /// The history of the session, and what is kept of its runs.
    pub fn timeline(&self) -> &Timeline<PAGES, SPAN>
        ensures { result.now ≡ self.now.timeline }
    {
        &self.timeline
    }

    /// Answers a command. Its cost depends on the command: one query of the history, several, or none.
    pub fn apply(&mut self, command: Command) -> Reply
        ensures answers { Answers PAGES (triple_of self.old) command (triple_of self.new) result }
        ensures costs { Costs PAGES SPAN command self.old self.new result }
    {
        match command {
            Command::Pos => Reply::Position(self.position),
            Command::Goto(position) => self.goto(position),
            Command::Step(count) => self.step(count),
            Command::Back(count) => self.back(count),
            Command::Visit { address, limit } => self.visit(address, limit),
            Command::Regs => self.registers(),
            Command::Reg(number) => self.register(number),
            Command::Cp0 => self.control(),
            Command::Tlb(number) => self.entry(number),
            Command::Where(address) => self.place(address),
            Command::Mem { address, count } => match self.words(address, count) {
                Ok(words) => Reply::Memory(words),
                Err(fault) => Reply::Fault(fault),
            },
            Command::Dis { address, count } => match self.words(address, count) {
                Ok(words) => Reply::Instructions(words),
                Err(fault) => Reply::Fault(fault),
            },
            Command::Console { line, from, count } => self.console(line, from, count),
            Command::Find { line, place } => self.find(line, place),
            Command::Writer(address) => self.writer(address),
            Command::Stores { address, count } => self.stores(address, count),
            Command::Finds { line, place, count } => self.finds(line, place, count),
            Command::RegisterWriter(number) => self.register_writer(number),
            Command::Pcs { distance, count } => self.pcs(distance, count),
            Command::Devices => self.devices(),
            Command::Trace(count) => self.trace(count),
            Command::Jumps { kind, count } => self.jumps(kind, count),
            Command::Log { from, count } => self.events(from, count),
            Command::Add { time, line, byte } => self.edit(Edit::Add {
                time: time.get(),
                kind: Kind::Byte,
                line: line.get() as u8,
                byte: byte.get() as u8,
            }),
            Command::Ferr { time, line, byte } => self.edit(Edit::Add {
                time: time.get(),
                kind: Kind::Framing,
                line: line.get() as u8,
                byte: byte.get() as u8,
            }),
            Command::Wire { time, line, level } => self.edit(Edit::Add {
                time: time.get(),
                kind: Kind::Wire,
                line: line.get() as u8,
                byte: level.get() as u8,
            }),
            Command::Del(place) => self.edit(Edit::Delete { place }),
            Command::Set { event, byte } => self.edit(Edit::Set {
                place: event,
                byte: byte.get() as u8,
            }),
            Command::Move { event, time } => self.edit(Edit::Move {
                place: event,
                time: time.get(),
            }),
            Command::Erase { from, to } => self.edit(Edit::Erase { from, to }),
            Command::Patch { address, word } => self.patch(address, word),
            Command::Quit => Reply::Nothing,
        }
    }

    // Moves to a position.
    fn goto(&mut self, position: u64) -> Reply
        ensures answers { answer (triple_of self.new) result ≡ moved (triple_of self.old) position }
        ensures costs { AsksNothing self.old self.new }
    {
        if position > MAX_POSITION {
            return Reply::Fault(Fault::TooFar);
        }
        self.position = position;
        Reply::Position(position)
    }

    // Moves forward.
    fn step(&mut self, count: u64) -> Reply
        ensures answers { Answers PAGES (triple_of self.old) (command.Step count) (triple_of self.new) result }
        ensures costs { Costs PAGES SPAN (command.Step count) self.old self.new result }
    {
        match self.position.checked_add(count) {
            Some(position) => self.goto(position),
            None => Reply::Fault(Fault::TooFar),
        }
    }

    // Moves back.
    fn back(&mut self, count: u64) -> Reply
        ensures answers { Answers PAGES (triple_of self.old) (command.Back count) (triple_of self.new) result }
        ensures costs { Costs PAGES SPAN (command.Back count) self.old self.new result }
    {
        match self.position.checked_sub(count) {
            Some(position) => self.goto(position),
            None => Reply::Fault(Fault::TooFar),
        }
    }

    // Moves forward to the next position at which the PC holds an address.
    fn visit(&mut self, address: Address, limit: StepCount) -> Reply
        ensures answers { Answers PAGES (triple_of self.old) (command.Visit address limit) (triple_of self.new) result }
        ensures costs { Costs PAGES SPAN (command.Visit address limit) self.old self.new result }
    {
        match self
            .timeline
            .next_pc(self.position, address.get() as u32, limit.get())
        {
            Ok(position) => {
                self.position = position;
                Reply::Position(position)
            }
            Err(fault) => Reply::Fault(fault),
        }
    }

    // Shows the registers.
    fn registers(&mut self) -> Reply
        ensures answers { Answers PAGES (triple_of self.old) command.Regs (triple_of self.new) result }
        ensures costs { Costs PAGES SPAN command.Regs self.old self.new result }
    {
        match self.timeline.core_at(self.position) {
            Ok(core) => Reply::Registers(registers_of(core.as_ref())),
            Err(fault) => Reply::Fault(fault),
        }
    }

    // Shows a register.
    fn register(&mut self, register: RegisterNumber) -> Reply
        ensures answers { Answers PAGES (triple_of self.old) (command.Reg register) (triple_of self.new) result }
        ensures costs { Costs PAGES SPAN (command.Reg register) self.old self.new result }
    {
        match self.timeline.core_at(self.position) {
            Ok(core) => Reply::Register {
                number: register,
                value: core.registers()[register.get() as usize],
            },
            Err(fault) => Reply::Fault(fault),
        }
    }

    // Shows the control registers.
    fn control(&mut self) -> Reply
        ensures answers { Answers PAGES (triple_of self.old) command.Cp0 (triple_of self.new) result }
        ensures costs { Costs PAGES SPAN command.Cp0 self.old self.new result }
    {
        match self.timeline.core_at(self.position) {
            Ok(core) => Reply::Control(control_of(core.cop0())),
            Err(fault) => Reply::Fault(fault),
        }
    }

    // Shows a translation entry.
    fn entry(&mut self, number: EntryNumber) -> Reply
        ensures answers { Answers PAGES (triple_of self.old) (command.Tlb number) (triple_of self.new) result }
        ensures costs { Costs PAGES SPAN (command.Tlb number) self.old self.new result }
    {
        match self.timeline.core_at(self.position) {
            Ok(core) => entry_shown(number, core.entry(number.get() as u32)),
            Err(fault) => Reply::Fault(fault),
        }
    }

    // Shows where an address leads.
    fn place(&mut self, address: Address) -> Reply
        ensures answers { Answers PAGES (triple_of self.old) (command.Where address) (triple_of self.new) result }
        ensures costs { Costs PAGES SPAN (command.Where address) self.old self.new result }
    {
        match self.timeline.core_at(self.position) {
            Ok(core) => Reply::Where(place_shown(core.where_is(address.get() as u32))),
            Err(fault) => Reply::Fault(fault),
        }
    }

    // Shows bytes that were sent on a line.
    fn console(&mut self, line: LineNumber, from: u64, count: ByteCount) -> Reply
        ensures answers { Answers PAGES (triple_of self.old) (command.Console line from count) (triple_of self.new) result }
        ensures costs { Costs PAGES SPAN (command.Console line from count) self.old self.new result }
    {
        let number = line.get() as u8;
        match self
            .timeline
            .console_at(self.position, number, from, count.get() as usize)
        {
            Ok((total, bytes)) => Reply::Console { line, total, bytes },
            Err(fault) => Reply::Fault(fault),
        }
    }

    // Shows the step that sent a byte.
    fn find(&mut self, line: LineNumber, place: u64) -> Reply
        ensures answers { Answers PAGES (triple_of self.old) (command.Find line place) (triple_of self.new) result }
        ensures costs { Costs PAGES SPAN (command.Find line place) self.old self.new result }
    {
        match self
            .timeline
            .sent_at(self.position, line.get() as u8, place)
        {
            Ok(step) => Reply::Found(step),
            Err(fault) => Reply::Fault(fault),
        }
    }

    // Shows the last writer of a word.
    fn writer(&mut self, address: Address) -> Reply
        ensures answers { Answers PAGES (triple_of self.old) (command.Writer address) (triple_of self.new) result }
        ensures costs { Costs PAGES SPAN (command.Writer address) self.old self.new result }
    {
        match self.timeline.writer_at(self.position, address.get() as u32) {
            Ok(writer) => Reply::Writer(writer_shown(writer)),
            Err(fault) => Reply::Fault(fault),
        }
    }

    // Shows the last stores into a word.
    fn stores(&mut self, address: Address, count: StoreCount) -> Reply
        ensures answers { Answers PAGES (triple_of self.old) (command.Stores address count) (triple_of self.new) result }
        ensures costs { Costs PAGES SPAN (command.Stores address count) self.old self.new result }
    {
        match self.last_stores(address, count) {
            Ok(stores) => Reply::Stores(stores),
            Err(fault) => Reply::Fault(fault),
        }
    }

    // Shows the steps that sent bytes.
    fn finds(&mut self, line: LineNumber, place: u64, count: FindCount) -> Reply
        ensures answers { Answers PAGES (triple_of self.old) (command.Finds line place count) (triple_of self.new) result }
        ensures costs { Costs PAGES SPAN (command.Finds line place count) self.old self.new result }
    {
        match self.senders(line, place, count) {
            Ok(steps) => Reply::Finds {
                first: place,
                steps,
            },
            Err(fault) => Reply::Fault(fault),
        }
    }

    // Shows the last step that wrote a register.
    fn register_writer(&mut self, number: WrittenNumber) -> Reply
        ensures answers { Answers PAGES (triple_of self.old) (command.RegisterWriter number) (triple_of self.new) result }
        ensures costs { Costs PAGES SPAN (command.RegisterWriter number) self.old self.new result }
    {
        match self
            .timeline
            .register_writer_at(self.position, number.get() as u8)
        {
            Ok(step) => Reply::RegisterWriter(Some(step)),
            Err(Fault::NotFound) => Reply::RegisterWriter(None),
            Err(fault) => Reply::Fault(fault),
        }
    }

    // Shows the PC at positions.
    fn pcs(&mut self, distance: Distance, count: PositionCount) -> Reply
        ensures answers { Answers PAGES (triple_of self.old) (command.Pcs distance count) (triple_of self.new) result }
        ensures costs { Costs PAGES SPAN (command.Pcs distance count) self.old self.new result }
    {
        match self.pcs_from(distance, count) {
            Ok(pcs) => Reply::Pcs(pcs),
            Err(fault) => Reply::Fault(fault),
        }
    }

    // Shows what the devices hold.
    fn devices(&mut self) -> Reply
        ensures answers { Answers PAGES (triple_of self.old) command.Devices (triple_of self.new) result }
        ensures costs { Costs PAGES SPAN command.Devices self.old self.new result }
    {
        match self.timeline.core_at(self.position) {
            Ok(core) => Reply::Devices(devices_of(core.bus())),
            Err(fault) => Reply::Fault(fault),
        }
    }

    // Shows what steps from the position on do.
    fn trace(&mut self, count: TraceCount) -> Reply
        ensures answers { Answers PAGES (triple_of self.old) (command.Trace count) (triple_of self.new) result }
        ensures costs { Costs PAGES SPAN (command.Trace count) self.old self.new result }
    {
        match self.timeline.follow(self.position, count.get()) {
            Ok(steps) => Reply::Trace {
                first: self.position,
                steps,
            },
            Err(fault) => Reply::Fault(fault),
        }
    }

    // Shows the next steps that transfer control.
    fn jumps(&mut self, kind: JumpKind, count: JumpCount) -> Reply
        ensures answers { Answers PAGES (triple_of self.old) (command.Jumps kind count) (triple_of self.new) result }
        ensures costs { Costs PAGES SPAN (command.Jumps kind count) self.old self.new result }
    {
        match self
            .timeline
            .jumps(self.position, kind.get() == 1, count.get())
        {
            Ok(found) => Reply::Jumps {
                next: found.next,
                jumps: found.jumps,
            },
            Err(fault) => Reply::Fault(fault),
        }
    }

    // Shows events of the log.
    fn events(&self, from: u64, count: EventCount) -> Reply
        ensures { result ≡ log_shown from count self.now.timeline.history.log }
    {
        let events = self.timeline.log().events();
        Reply::Log {
            total: events.len() as u64,
            first: from,
            events: events_from(events, from, count.get() as usize),
        }
    }

    // Edits the log, and shows the place of the event that this adds, sets or moves, or how many events are left.
    fn edit(&mut self, edit: Edit) -> Reply
        ensures answers { AnswersAs (takes_memory edit) (edits (triple_of self.old) edit) (triple_of self.old) (triple_of self.new) result }
        ensures costs { Edits self.old self.new result }
    {
        match self.timeline.edit(edit) {
            Ok(Some(place)) => Reply::Event(place as u64),
            Ok(None) => Reply::Left(self.timeline.log().events().len() as u64),
            Err(fault) => Reply::Fault(fault),
        }
    }

    // Sets a word of the image.
    fn patch(&mut self, address: Address, word: WordValue) -> Reply
        ensures answers { Answers PAGES (triple_of self.old) (command.Patch address word) (triple_of self.new) result }
        ensures costs { Costs PAGES SPAN (command.Patch address word) self.old self.new result }
    {
        match self.timeline.patch(address.get() as u32, word.get() as u32) {
            Ok(()) => Reply::Patched,
            Err(fault) => Reply::Fault(fault),
        }
    }
}
