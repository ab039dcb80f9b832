//! A machine that runs a program in spans of 64 steps, its record, kept places of its run, and kept records of spans. Beside it a timeline.
ghost use Rattle.std.specs.Prelude.{◌≡◌, ◌^◌, ◌<◌, ◌≤◌, IfOk};
ghost use Rattle.r3k_word.specs.declared.layout.TheConstants.{MAX_RAM_PAGES};
ghost use Rattle.timeline.specs.Sizes.{AreSizes};

use crate::asked::{Asked, boxed};
use checkpoints::Kept;
use cop0::number::{RANDOM, STATUS};
use input_log::Log;
use r3k_image::Image;
use r3k_live::{Boundary, Live, Recorder, SentAt, counted};
use r3k_machine::Target;
use r3k_pages::PageMarks;
use r3k_word::layout::{PAGE_WORDS, ROM_PAGES, address_of, word_count};
use samples::{NONE, number, shown};
use span_fact::Fact;
use std::alloc::{AllocError, Global};
use std::rc::Rc;
use std::test::Fail;

/// The machine, its image, the log and its record, and what is kept of its run.
#[derive(Drop)]
pub struct Running<const PAGES: u32, const SPAN: u32> {
    image: Image,
    // Boxed, as is all that is large, so that its end is proved once.
    live: Box<Live<PAGES>>,
    recorder: Box<Recorder<PAGES, SPAN>>,
    log: Log,
    places: Vec<Rc<Boundary<PAGES>>>,
    // The record that was made last, until it is put.
    fact: Option<Fact<PAGES, SPAN>>,
    kept: Box<Kept<PAGES, SPAN>>,
    timeline: Box<Asked<PAGES, SPAN>>,
}

impl<const PAGES: u32, const SPAN: u32> Running<PAGES, SPAN> {
    /// On an image, with a timeline of another one. Place 0 is reset.
    pub fn of(alloc: Global, image: Image, other: Image) -> Result<Running<PAGES, SPAN>, Fail>
        requires { AreSizes PAGES SPAN }
    {
        let mut live = boxed(alloc, Live::new(alloc, &image)?)?;
        let mut places = Vec::new(alloc);
        places.push(live.keep(alloc)?)?;
        Ok(Running {
            image,
            live,
            recorder: boxed(alloc, Recorder::new(alloc)?)?,
            log: Log::new(alloc),
            places,
            fact: None,
            kept: boxed(alloc, Kept::new(alloc, 1))?,
            timeline: boxed(alloc, Asked::of(alloc, other)?)?,
        })
    }

    /// Ends it. That what it has is freed is proved here alone.
    pub fn end(self) {}

    /// Does or asks what a clause says, and gives the answer.
    pub fn answer(&mut self, alloc: Global, clause: &str) -> Result<String, Fail>
        requires { AreSizes PAGES SPAN }
    {
        let (name, words) = clause.split_once(' ').unwrap_or((clause, ""));
        let mut numbers = Vec::new(alloc);
        for word in words.split_whitespace() {
            numbers.push(number(word)?)?;
        }
        self.does(alloc, name, numbers.as_slice())
    }

    // Changes the log or runs the machine, or does what the functions below it do.
    fn does(&mut self, alloc: Global, name: &str, numbers: &[u64]) -> Result<String, Fail>
        requires { AreSizes PAGES SPAN }
    {
        match (name, numbers) {
            ("", []) => {}
            ("log", []) => self.log = Log::new(alloc),
            ("byte" | "framing" | "level", [time, line, byte]) => {
                self.receive(name, *time, *line, *byte)?;
            }
            ("bytes", [count, time, line, byte]) => self.receive_many(*count, *time, *line, *byte)?,
            ("run", [from, steps]) => self.run(*from, *steps)?,
            ("visit", [from, steps, address]) => {
                return self.visit(alloc, *from, *steps, u32::try_from(*address)?);
            }
            _ => return self.does_with_places(alloc, name, numbers),
        }
        Ok(String::new(alloc))
    }

    // Keeps a place, or goes to one.
    fn does_with_places(
        &mut self,
        alloc: Global,
        name: &str,
        numbers: &[u64],
    ) -> Result<String, Fail>
        requires { AreSizes PAGES SPAN }
    {
        match (name, numbers) {
            ("keep", []) => self.places.push(self.live.keep(alloc)?)?,
            ("reset", []) => self.keep_reset(alloc)?,
            ("poke", [place, word, value]) => {
                self.keep_poked(alloc, *place, *word as usize, u32::try_from(*value)?)?;
            }
            ("load", [place]) => self.load(*place)?,
            _ => return self.does_with_records(alloc, name, numbers),
        }
        Ok(String::new(alloc))
    }

    // Makes a record, or changes which are kept.
    fn does_with_records(
        &mut self,
        alloc: Global,
        name: &str,
        numbers: &[u64],
    ) -> Result<String, Fail>
        requires { AreSizes PAGES SPAN }
    {
        match (name, numbers) {
            ("record", [place, index]) => self.record_from(alloc, *place, *index)?,
            ("put", []) => self.put(alloc)?,
            ("link", []) => self.link(alloc)?,
            ("join", []) => self.join()?,
            ("truncate", [index]) => self.kept.truncate_valid(*index),
            _ => return self.reports(alloc, name, numbers),
        }
        Ok(String::new(alloc))
    }

    // How the machine stands, and what the last run reported.
    fn reports(&mut self, alloc: Global, name: &str, numbers: &[u64]) -> Result<String, Fail>
        requires { AreSizes PAGES SPAN }
    {
        let core = self.live.core();
        Ok(match (name, numbers) {
            ("stands", []) => shown(alloc, &(core.pc(), self.live.steps()))?,
            ("then", []) => shown(alloc, &(core.next_pc(), core.delay()))?,
            ("random", []) => shown(alloc, &core.cop0().read(RANDOM))?,
            ("status", []) => shown(alloc, &core.cop0().read(STATUS))?,
            ("holds", []) => shown(alloc, &self.holds(alloc)?)?,
            _ => return self.reports_of_run(alloc, name, numbers),
        })
    }

    // A word of memory, what the last run reported, and the sum of two counts of steps.
    fn reports_of_run(&mut self, alloc: Global, name: &str, numbers: &[u64]) -> Result<String, Fail>
        requires { AreSizes PAGES SPAN }
    {
        match (name, numbers) {
            ("memory", [place]) => {
                let word = self.live.words().get(*place as usize).ok_or("no word")?;
                Ok(shown(alloc, word)?)
            }
            ("reports", []) => self.last_report(alloc),
            ("counted", [before, steps]) => {
                Ok(shown(alloc, &counted(*before, u32::try_from(*steps)?))?)
            }
            _ => self.keeps(alloc, name, numbers),
        }
    }

    // What the last run reported.
    fn last_report(&self, alloc: Global) -> Result<String, Fail>
        requires { AreSizes PAGES SPAN }
    {
        let written = shown(alloc, &self.written(alloc)?)?;
        let (dirty, touched) = (self.recorder.dirty(alloc)?, self.recorder.touched(alloc)?);
        let rest = reported(alloc, self.recorder.sent(), &dirty, &touched)?;
        Ok([written.as_str(), rest.as_str()].concat(alloc)?)
    }

    // What is kept.
    fn keeps(&mut self, alloc: Global, name: &str, numbers: &[u64]) -> Result<String, Fail>
        requires { AreSizes PAGES SPAN }
    {
        Ok(match (name, numbers) {
            ("kept", [place, word]) => self.kept_word(alloc, *place, *word as usize)?,
            ("differ", [one, other]) => self.differ(alloc, *one, *other)?,
            ("fact", []) => self.fact_reports(alloc)?,
            ("starts", [place]) => self.starts(alloc, *place)?,
            ("writers", addresses) => self.writers(alloc, addresses)?,
            _ => return self.keeps_records(alloc, name, numbers),
        })
    }

    // Which records are kept, and which of them serve.
    fn keeps_records(&mut self, alloc: Global, name: &str, numbers: &[u64]) -> Result<String, Fail>
        requires { AreSizes PAGES SPAN }
    {
        Ok(match (name, numbers) {
            ("records" | "links", []) => shown(alloc, &self.spans(alloc, name, 0)?)?,
            ("taken", [place]) => shown(alloc, &self.spans(alloc, name, *place)?)?,
            ("valid", []) => shown(alloc, &self.kept.valid())?,
            ("near", [index, place, pages @ ..]) => {
                let place = self.place(*place)?;
                shown(alloc, &self.near(alloc, *index, &place, pages)?)?
            }
            _ => return self.timeline.answer(alloc, name, numbers),
        })
    }

    // The word at a place of memory, in a place that is kept.
    fn kept_word(&self, alloc: Global, place: u64, word: usize) -> Result<String, Fail>
        requires { AreSizes PAGES SPAN }
    {
        let place = self.place(place)?;
        if word >= word_count(PAGES) {
            return Err("no word".into());
        }
        Ok(shown(alloc, &place.memory().word(word))?)
    }

    // What differs at two places.
    fn differ(&self, alloc: Global, one: u64, other: u64) -> Result<String, Fail>
        requires { AreSizes PAGES SPAN }
    {
        let (one, other) = (self.place(one)?, self.place(other)?);
        differences(alloc, &one, &other)
    }

    // What differs between the start of the record that was made last and a place.
    fn starts(&self, alloc: Global, place: u64) -> Result<String, Fail>
        requires { AreSizes PAGES SPAN }
    {
        let place = self.place(place)?;
        differences(alloc, self.fact()?.start(), &place)
    }

    // The last steps of the record that stored into the words at addresses.
    fn writers(&self, alloc: Global, addresses: &[u64]) -> Result<String, Fail> {
        let fact = self.fact()?;
        let mut steps = Vec::new(alloc);
        for address in addresses {
            let step = fact.writer(Target::Memory(u32::try_from(*address)?));
            steps.push(step.map_or(NONE, |step| step as u64))?;
        }
        Ok(shown(alloc, &steps)?)
    }

    // Keeps the state at reset of another machine of the image.
    fn keep_reset(&mut self, alloc: Global) -> Result<(), Fail>
        requires { AreSizes PAGES SPAN }
    {
        let reset = Live::<PAGES>::new(alloc, &self.image)?.keep(alloc)?;
        self.places.push(reset)?;
        Ok(())
    }

    // Keeps a place with another word.
    fn keep_poked(&mut self, alloc: Global, place: u64, word: usize, value: u32) -> Result<(), Fail>
        requires { AreSizes PAGES SPAN }
    {
        let place = self.place(place)?;
        if word >= word_count(PAGES) {
            return Err("no word".into());
        }
        let poked = place.with_word(alloc, word, value)?;
        let poked = Rc::new(alloc, poked).map_err(|_| AllocError)?;
        self.places.push(poked)?;
        Ok(())
    }

    // Goes back to a place.
    fn load(&mut self, place: u64) -> Result<(), Fail> {
        let place = self.place(place)?;
        self.live.load(place);
        Ok(())
    }

    // Makes the record of a span from a place on, and keeps where it ends.
    fn record_from(&mut self, alloc: Global, place: u64, index: u64) -> Result<(), Fail> {
        let start = self.place(place)?;
        let fact = self.record(alloc, start, index)?;
        self.places.push(fact.end().clone()?)?;
        self.fact = Some(fact);
        Ok(())
    }

    // One more event comes.
    fn receive(&mut self, kind: &str, time: u64, line: u64, byte: u64) -> Result<(), Fail> {
        let (line, byte) = (u8::try_from(line)?, u8::try_from(byte)?);
        match kind {
            "framing" => self.log.ferr(time, line, byte)?,
            "level" => self.log.wire(time, line, byte)?,
            _ => self.log.add(time, line, byte)?,
        };
        Ok(())
    }

    // So many bytes come.
    fn receive_many(&mut self, count: u64, time: u64, line: u64, byte: u64) -> Result<(), Fail> {
        for _ in 0..count {
            self.receive("byte", time, line, byte)?;
        }
        Ok(())
    }

    // Runs steps from a time on.
    fn run(&mut self, from: u64, steps: u64) -> Result<(), Fail> {
        let steps = within_span::<SPAN>(from, steps)?;
        self.recorder.clear();
        let events = self.log.window(0, MOST);
        self.live.run(from, events, steps, &mut self.recorder);
        Ok(())
    }

    // Runs steps from a time on until it comes to an address, and gives how many it made.
    fn visit(
        &mut self,
        alloc: Global,
        from: u64,
        steps: u64,
        address: u32,
    ) -> Result<String, Fail> {
        let steps = within_span::<SPAN>(from, steps)?;
        self.recorder.clear();
        let events = self.log.window(0, MOST);
        let found = self
            .live
            .visit(from, events, steps, address, &mut self.recorder);
        Ok(shown(alloc, &found)?)
    }

    // The places of words that are not those of the image, and what stands there.
    fn holds(&self, alloc: Global) -> Result<Vec<(usize, u32)>, Fail>
        requires { AreSizes PAGES SPAN }
    {
        let mut found = Vec::new(alloc);
        for place in 0..word_count(PAGES) {
            let word = self.live.word(place);
            let booted = self.image.word(address_of(PAGES, place)).unwrap_or(0);
            if word != booted {
                found.push((place, word))?;
            }
            if self.live.words()[place] != word {
                return Err("two words at a place".into());
            }
        }
        Ok(found)
    }

    // The places of words that the last run stored into, and their last steps, as they are listed and as each place gives them.
    fn written(&self, alloc: Global) -> Result<Vec<(u32, u32)>, Fail>
        requires { AreSizes PAGES SPAN }
    {
        let mut found = Vec::new(alloc);
        for place in 0..PAGES * PAGE_WORDS {
            if let Some(step) = self.recorder.writer(Target::Memory(4 * place)) {
                found.push((place, step))?;
            }
        }
        let mut listed = Vec::new(alloc);
        for written in &self.recorder.writers(alloc)? {
            listed.push((written.place, written.step))?;
        }
        if found != listed {
            return Err("other words are listed".into());
        }
        Ok(found)
    }

    // The record that was made last.
    fn fact(&self) -> Result<&Fact<PAGES, SPAN>, Fail> {
        Ok(self.fact.as_ref().ok_or("no record")?)
    }

    // A place that is kept.
    fn place(&self, number: u64) -> Result<Rc<Boundary<PAGES>>, Fail> {
        let place = self.places.get(number as usize).ok_or("no place")?;
        Ok(place.clone()?)
    }

    // The record of a span. Where memory is refused, as in a run with failing allocations, at most the span's steps were made, and the next
    // call makes it.
    fn record(
        &mut self,
        alloc: Global,
        start: Rc<Boundary<PAGES>>,
        index: u64,
    ) -> Result<Fact<PAGES, SPAN>, Fail>
        ensures index { IfOk result (λ fact. fact.index ≡ index) }
        ensures start { IfOk result (λ fact. fact.start ≡ start.entry.value) }
    {
        if index >= 1 << 31 {
            return Err("too far".into());
        }
        let (from, to) = (index * SPAN as u64, (index + 1) * SPAN as u64);
        let events = self.log.window(from, to);
        let (again, steps) = (start.clone()?, self.live.steps());
        self.live.load(start.clone()?);
        let made = Fact::make(
            alloc,
            &mut self.live,
            &mut self.recorder,
            start,
            index,
            events,
        );
        if let Ok(fact) = made {
            return Ok(fact);
        }
        if self.live.steps() > steps.saturating_add(SPAN as u64) {
            return Err("more steps than a span has".into());
        }
        self.live.load(again.clone()?);
        Ok(Fact::make(
            alloc,
            &mut self.live,
            &mut self.recorder,
            again,
            index,
            events,
        )?)
    }

    // The number of the record that was made last, its events, and what it reports.
    fn fact_reports(&self, alloc: Global) -> Result<String, Fail> {
        let fact = self.fact()?;
        let mut events = Vec::new(alloc);
        for event in fact.events() {
            events.push((event.time, event.kind, event.line, event.byte))?;
        }
        let begin = shown(alloc, &(fact.index(), events.as_slice()))?;
        let rest = reported(alloc, fact.sent(), fact.dirty(), fact.touched())?;
        Ok([begin.as_str(), rest.as_str()].concat(alloc)?)
    }

    // Keeps the record that was made last. Where memory is refused, all that is kept is as it was, and the next call keeps it.
    fn put(&mut self, alloc: Global) -> Result<(), Fail> {
        let fact = self.fact.take().ok_or("no record")?;
        let (start, index) = (fact.start().clone()?, fact.index());
        let before = self.records_kept(alloc)?;
        if self.kept.put(fact).is_err() {
            if self.records_kept(alloc)? != before {
                return Err("other records are kept".into());
            }
            let fact = self.record(alloc, start, index)?;
            self.kept.put(fact)?;
        }
        Ok(())
    }

    // How many records are valid, which are kept, and which are taken at reset.
    fn records_kept(&self, alloc: Global) -> Result<String, Fail> {
        let records = self.spans(alloc, "records", 0)?;
        let taken = self.spans(alloc, "taken", 0)?;
        Ok(shown(alloc, &(self.kept.valid(), records, taken))?)
    }

    // Keeps the first two records from reset on, and links them.
    fn link(&mut self, alloc: Global) -> Result<(), Fail> {
        let start = self.place(0)?;
        let zero = self.record(alloc, start, 0)?;
        let one = self.record(alloc, zero.end().clone()?, 1)?;
        self.kept.put(zero)?;
        self.kept.put(one)?;
        if self.kept.next(0).is_some() {
            return Err("linked before".into());
        }
        self.kept.link(0);
        Ok(())
    }

    // The spans of the first 72, and the last one that there can be, that have a record, or one that is taken, or one that is linked.
    fn spans(&self, alloc: Global, name: &str, start: u64) -> Result<Vec<u64>, Fail> {
        let start = self.place(start)?;
        let mut found = Vec::new(alloc);
        for index in (0..72).chain([u64::MAX]) {
            let is_found = match name {
                "records" => match self.kept.first(index) {
                    Some(fact) if fact.index() != index => return Err("a wrong number".into()),
                    fact => fact.is_some(),
                },
                "taken" => self.kept.applies(index, &start, self.log.events(), None),
                _ => index < u64::MAX && self.kept.next(index) == Some(0),
            };
            if is_found {
                found.push(index)?;
            }
        }
        Ok(found)
    }

    // Whether the record of a span is taken for a start and the events, and whether it nearly applies there, where these pages are said to
    // differ, and those that do.
    fn near(
        &self,
        alloc: Global,
        index: u64,
        start: &Boundary<PAGES>,
        pages: &[u64],
    ) -> Result<(bool, bool), Fail>
        requires { AreSizes PAGES SPAN }
    {
        let mut differing = PageMarks::new(alloc)?;
        for page in pages {
            if *page >= (PAGES + ROM_PAGES) as u64 {
                return Err("no page".into());
            }
            differing.mark(*page as u32);
        }
        if self.kept.count(index) > 1 {
            return Err("several records".into());
        }
        if let Some(fact) = self.kept.first(index) {
            differing.add_differing(fact.start().memory(), start.memory());
        }
        let events = self.log.events();
        Ok((
            self.kept.applies(index, start, events, Some(&differing)),
            self.kept.nearly(index, start, events, &differing),
        ))
    }

    // One more record becomes valid.
    fn join(&mut self) -> Result<(), Fail> {
        let valid = self.kept.valid();
        if valid >= 72 || self.kept.first(valid).is_none() {
            return Err("no next record".into());
        }
        self.kept.join();
        Ok(())
    }
}

// Above all times of these tests.
const MOST: u64 = 1 << 32;

// A number of steps from a time on, if it is at most a span's.
fn within_span<const SPAN: u32>(from: u64, steps: u64) -> Result<u32, Fail>
    ensures steps { IfOk result (λ steps. steps ≤ SPAN) }
    ensures from { IfOk result (λ _. from < 2 ^ 32) }
{
    let steps = u32::try_from(steps)?;
    if steps > SPAN || from >= MOST {
        return Err("too far".into());
    }
    Ok(steps)
}

// What differs in two states: the core, and pages.
fn differences<const PAGES: u32>(
    alloc: Global,
    one: &Boundary<PAGES>,
    other: &Boundary<PAGES>,
) -> Result<String, Fail>
    requires { PAGES ≤ MAX_RAM_PAGES }
{
    let mut pages = Vec::new(alloc);
    for page in 0..PAGES + ROM_PAGES {
        if !one.memory().same_page(page, other.memory()) {
            pages.push(page)?;
        }
    }
    let is_same = one.core() == other.core();
    let core = if is_same { "" } else { "core" };
    Ok(shown(alloc, &(core, pages))?)
}

// The bytes sent, and the pages that were stored into and touched.
fn reported(
    alloc: Global,
    sent: &[SentAt],
    dirty: &[u32],
    touched: &[u32],
) -> Result<String, Fail> {
    let mut bytes = Vec::new(alloc);
    for sent in sent {
        bytes.push((sent.line.number(), sent.byte, sent.step))?;
    }
    let bytes = bytes.as_slice();
    Ok(shown(alloc, &("sent", bytes, "dirty", dirty, "touched", touched))?)
}
