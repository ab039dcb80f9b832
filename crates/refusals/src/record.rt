//! The record of the first span of the echo program.
ghost use Rattle.std.specs.Prelude.{◌≤◌};
ghost use Rattle.r3k_word.specs.declared.layout.TheConstants.{MAX_RAM_PAGES};

use crate::show::Show;
use checkpoints::Kept;
use r3k_image::Image;
use r3k_live::{Boundary, Live, Recorder};
use r3k_machine::Target;
use span_fact::Fact;
use std::alloc::{AllocError, Global};
use std::rc::Rc;
use workbench::Sink;

/// A machine at reset, its recorder, and that state kept.
#[derive(Drop)]
pub struct Machine<const PAGES: u32, const SPAN: u32> {
    pub live: Live<PAGES>,
    pub recorder: Recorder<PAGES, SPAN>,
    pub start: Rc<Boundary<PAGES>>,
}

/// The machine of an image.
pub fn machine_of<const PAGES: u32, const SPAN: u32>(
    alloc: Global,
    image: &Image,
) -> Result<Machine<PAGES, SPAN>, AllocError>
    requires pages { PAGES ≤ MAX_RAM_PAGES }
{
    let mut live = Live::<PAGES>::new(alloc, image)?;
    let start = live.keep(alloc)?;
    Ok(Machine {
        live,
        recorder: Recorder::<PAGES, SPAN>::new(alloc)?,
        start,
    })
}

/// Loads the machine with the state that is kept and makes the record of the first span.
pub fn record_of<const PAGES: u32, const SPAN: u32>(
    alloc: Global,
    machine: &mut Machine<PAGES, SPAN>,
) -> Result<Fact<PAGES, SPAN>, AllocError> {
    let start = machine.start.clone()?;
    machine.live.load(start.clone()?);
    Fact::make(
        alloc,
        &mut machine.live,
        &mut machine.recorder,
        start,
        0,
        &[],
    )
}

/// Makes the record, and once more with the same machine where it lacked memory, and keeps it.
pub fn show_record<const PAGES: u32, const SPAN: u32, W: Sink>(
    alloc: Global,
    name: &[u8],
    image: &Image,
    show: &mut Show<W>,
) -> Result<(), AllocError>
    requires pages { PAGES ≤ MAX_RAM_PAGES }
{
    let mut machine = machine_of::<PAGES, SPAN>(alloc, image)?;
    let fact = match record_of(alloc, &mut machine) {
        Ok(fact) => fact,
        Err(_) => {
            show.line(&[name, b"memory"]);
            record_of(alloc, &mut machine)?
        }
    };
    show_fact(name, &fact, show);
    let mut kept = Kept::<PAGES, SPAN>::new(alloc, 1);
    kept.put(fact)?;
    show_applies(name, &kept, &machine, show);
    Ok(())
}

// Shows what a record reports: its end, its last store into word 0x100, the bytes sent, and the pages touched.
fn show_fact<const PAGES: u32, const SPAN: u32, W: Sink>(
    name: &[u8],
    fact: &Fact<PAGES, SPAN>,
    show: &mut Show<W>,
) {
    show.text(name);
    show.number(
        b" writer",
        fact.writer(Target::Memory(0x100)).unwrap_or(0) as u64,
    );
    show.text(name);
    show.number(b" sent", fact.sent().len() as u64);
    for page in fact.touched() {
        show.text(name);
        show.number(b" page", *page as u64);
    }
}

/// Shows whether the record of the first span is taken at reset.
pub fn show_applies<const PAGES: u32, const SPAN: u32, W: Sink>(
    name: &[u8],
    kept: &Kept<PAGES, SPAN>,
    machine: &Machine<PAGES, SPAN>,
    show: &mut Show<W>,
) {
    show.text(name);
    let applies = kept.applies(0, &machine.start, &[], None);
    show.number(b" applies", applies as u64);
}
