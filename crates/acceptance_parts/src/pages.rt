//! Snapshots of memory that share their pages: those that are known to be equal are taken from an earlier snapshot.
ghost use Rattle.std.specs.Prelude.{◌≡◌, ◌^◌, ◌<◌, ◌≤◌, IfOk, length};
ghost use Rattle.r3k_word.specs.Layout.{word_count_of};
ghost use Rattle.r3k_word.specs.declared.layout.TheConstants.{MAX_RAM_PAGES};
ghost use Rattle.r3k_pages.specs.Pages.{SameOutside};

use crate::lists::within;
use crate::same::{same, same_at};
use r3k_asm::assemble;
use r3k_image::Image;
use r3k_pages::{PageMarks, Snapshot, page_laws};
use r3k_word::layout::{PAGE_WORDS, ROM_PAGES, address_of, page_of, word_count};
use samples::ECHO;
use std::alloc::{AllocError, Global};
use std::process::Abort;
use std::test::Fail;

// The word that stands at a place at first: no two places have the same.
fn first_word(place: usize) -> u32
    requires { place < 2 ^ 31 }
{
    0x8000_0000 + place as u32
}

// A memory, filled.
fn filled<const PAGES: u32>(alloc: Global) -> Result<Vec<u32>, AllocError>
    requires { PAGES ≤ MAX_RAM_PAGES }
    ensures { IfOk result (λ words. length words.items ≡ word_count_of PAGES) }
{
    let mut words = vec![in alloc; 0; word_count(PAGES)]?;
    for place in 0..word_count(PAGES) {
        words[place] = first_word(place);
    }
    Ok(words)
}

// A set of pages.
fn set_of<const PAGES: u32>(alloc: Global, pages: &[u32]) -> Result<PageMarks<PAGES>, Fail>
    requires { PAGES ≤ MAX_RAM_PAGES }
{
    let mut set = PageMarks::new(alloc)?;
    for page in pages {
        set.mark(within(*page, 0, PAGES + ROM_PAGES - 1)?);
    }
    Ok(set)
}

// Turns all bits of the word at a place of a page that is in a set: what is the same outside the set stays so.
fn turn<const PAGES: u32>(
    rt: &impl Abort,
    earlier: &Snapshot<PAGES>,
    set: &PageMarks<PAGES>,
    words: &mut Vec<u32>,
    place: usize,
)
    requires { SameOutside set.now earlier.now words.old.items }
    ensures same { SameOutside set.now earlier.now words.new.items }
    ensures whole { length words.new.items ≡ length words.old.items }
{
    let page = page_of(place);
    assert!(rt; place < words.len());
    assert!(rt; set.pages().iter().any(|other| *other as usize == page));
    page_laws();
    words[place] = !words[place];
}

// Turns the first and the last word of each page of a set, and takes a snapshot.
fn after<const PAGES: u32>(
    rt: &impl Abort,
    alloc: Global,
    words: &mut Vec<u32>,
    earlier: &Snapshot<PAGES>,
    dirty: &PageMarks<PAGES>,
) -> Result<Snapshot<PAGES>, AllocError>
    requires pages { PAGES ≤ MAX_RAM_PAGES }
    requires whole { length words.old.items ≡ word_count_of PAGES }
    requires earlier { earlier.now ≡ words.old.items }
    ensures snapshot { IfOk result (λ snapshot. snapshot ≡ words.new.items) }
    ensures whole { length words.new.items ≡ word_count_of PAGES }
{
    for page in dirty.pages() {
        let first = *page as usize * PAGE_WORDS as usize;
        turn(rt, earlier, dirty, words, first);
        turn(rt, earlier, dirty, words, first + PAGE_WORDS as usize - 1);
    }
    Snapshot::capture(alloc, words, Some(earlier), dirty)
}

// A snapshot of the same memory, with a set of pages that may have changed, but did not.
fn again<const PAGES: u32>(
    alloc: Global,
    words: &[u32],
    earlier: &Snapshot<PAGES>,
    set: &PageMarks<PAGES>,
) -> Result<Snapshot<PAGES>, AllocError>
    requires pages { PAGES ≤ MAX_RAM_PAGES }
    requires whole { length words.now ≡ word_count_of PAGES }
    requires earlier { earlier.now ≡ words.now }
{
    Snapshot::capture(alloc, words, Some(earlier), set)
}

// A snapshot has the words of a memory, but for these pages, whose first and last word are turned.
fn holds<const PAGES: u32>(rt: &impl Abort, snapshot: &Snapshot<PAGES>, turned: &[u32])
    requires { PAGES ≤ MAX_RAM_PAGES }
{
    for place in 0..word_count(PAGES) {
        let at = place % PAGE_WORDS as usize;
        let is_end = at == 0 || at == PAGE_WORDS as usize - 1;
        let turned = is_end && turned.contains(&(page_of(place) as u32));
        let word = first_word(place);
        let want = if turned { !word } else { word };
        same_at(rt, &place, &snapshot.word(place), &want);
    }
}

// Of all pages these alone differ.
fn differ_in<const PAGES: u32>(
    rt: &impl Abort,
    one: &Snapshot<PAGES>,
    other: &Snapshot<PAGES>,
    pages: &[u32],
)
    requires { PAGES ≤ MAX_RAM_PAGES }
{
    for page in 0..PAGES + ROM_PAGES {
        let same = !pages.contains(&page);
        same_at(rt, &page, &one.same_page(page, other), &same);
        same_at(rt, &page, &other.same_page(page, one), &same);
    }
}

// With a set of pages that change: the later snapshot has the new words and the earlier one the old ones.
fn changed<const PAGES: u32>(rt: &impl Abort, alloc: Global, dirty: &[u32]) -> Result<(), Fail>
    requires { PAGES ≤ MAX_RAM_PAGES }
{
    let mut words = filled::<PAGES>(alloc)?;
    let before = words.clone()?;
    let none = PageMarks::new(alloc)?;
    let set = set_of(alloc, dirty)?;
    let earlier = Snapshot::<PAGES>::capture(alloc, &words, None, &none)?;
    let later = after(rt, alloc, &mut words, &earlier, &set)?;
    holds(rt, &earlier, &[]);
    holds(rt, &later, dirty);
    differ_in(rt, &earlier, &later, dirty);
    // What is turned twice is as it was, and no page stands for another one.
    let turned = words.clone()?;
    let back = after(rt, alloc, &mut words, &later, &set)?;
    assert!(rt; words == before);
    differ_in(rt, &earlier, &back, &[]);
    differ_in(rt, &later, &back, dirty);
    later.copy_to(&mut words, &back, &none);
    assert!(rt; words == turned);
    back.copy_to(&mut words, &later, &none);
    assert!(rt; words == before);
    // Where all of memory changes, a snapshot gives its words back.
    words.fill(7);
    holds(rt, &earlier, &[]);
    let sevens = Snapshot::<PAGES>::capture(alloc, &words, None, &none)?;
    earlier.copy_to(&mut words, &sevens, &none);
    assert!(rt; words == before);
    Ok(())
}

// No page, also with no RAM and with pages that fill their groups; the first page and the last of RAM and of ROM, and pages at the ends of
// a group; and many.
#[test]
fn pages_change(rt: HostRuntime) -> Result<(), Fail> {
    changed::<0>(&rt, rt.alloc(), &[])?;
    changed::<16>(&rt, rt.alloc(), &[])?;
    changed::<32>(&rt, rt.alloc(), &[])?;
    changed::<40>(&rt, rt.alloc(), &[])?;
    for page in [0, 15, 16, 31, 32, 63, 64, 79] {
        changed::<16>(&rt, rt.alloc(), &[page])?;
    }
    for page in [0, 31, 32, 39, 40, 95, 96, 103] {
        changed::<40>(&rt, rt.alloc(), &[page])?;
    }
    changed::<16>(&rt, rt.alloc(), &[0, 15, 16, 31, 32, 79])?;
    changed::<16>(&rt, rt.alloc(), &[1, 2, 3, 30, 77, 78])?;
    changed::<40>(&rt, rt.alloc(), &[0, 31, 32, 39, 40, 103])
}

// A page that is handed over as changed, but did not, is the same; and so is all memory.
#[test]
fn set_that_is_too_large(rt: HostRuntime) -> Result<(), Fail> {
    stays_the_same::<16>(&rt, rt.alloc(), &[5], &[5, 40])
}

fn stays_the_same<const PAGES: u32>(
    rt: &impl Abort,
    alloc: Global,
    one: &[u32],
    two: &[u32],
) -> Result<(), Fail>
    requires { PAGES ≤ MAX_RAM_PAGES }
{
    let none = PageMarks::new(alloc)?;
    let one = set_of(alloc, one)?;
    let two = set_of(alloc, two)?;
    let words = filled::<PAGES>(alloc)?;
    let earlier = Snapshot::<PAGES>::capture(alloc, &words, None, &none)?;
    let later = again(alloc, &words, &earlier, &two)?;
    holds(rt, &later, &[]);
    differ_in(rt, &earlier, &later, &[]);
    // Without an earlier one the set says nothing.
    let alone = Snapshot::<PAGES>::capture(alloc, &words, None, &one)?;
    holds(rt, &alone, &[]);
    Ok(())
}

// Pages of two spans, one of them in both: each snapshot stands for its own time.
#[test]
fn snapshots_one_after_another(rt: HostRuntime) -> Result<(), Fail> {
    let alloc = rt.alloc();
    let none = PageMarks::new(alloc)?;
    let mut words = filled::<16>(alloc)?;
    let first = Snapshot::<16>::capture(alloc, &words, None, &none)?;
    let set = set_of(alloc, &[3, 70])?;
    let second = after(&rt, alloc, &mut words, &first, &set)?;
    let set = set_of(alloc, &[3, 4, 33])?;
    let third = after(&rt, alloc, &mut words, &second, &set)?;
    drop(first);
    differ_in(&rt, &second, &third, &[3, 4, 33]);
    holds(&rt, &second, &[3, 70]);
    holds(&rt, &third, &[4, 33, 70]);
    drop(second);
    holds(&rt, &third, &[4, 33, 70]);
    Ok(())
}

// One word of a snapshot is set, and the snapshot that it was is as before.
#[test]
fn one_word_is_set(rt: HostRuntime) -> Result<(), Fail> {
    let none = PageMarks::new(rt.alloc())?;
    let words = filled::<16>(rt.alloc())?;
    let snapshot = Snapshot::<16>::capture(rt.alloc(), &words, None, &none)?;
    for place in [0, 1023, 1024, 33 * 1024 + 5, 80 * 1024 - 1] {
        word_is_set(&rt, rt.alloc(), &snapshot, place)?;
    }
    holds(&rt, &snapshot, &[]);
    Ok(())
}

// Sets a word and sets it back: only its page differs between.
fn word_is_set(
    rt: &impl Abort,
    alloc: Global,
    snapshot: &Snapshot<16>,
    place: usize,
) -> Result<(), Fail>
    requires { place < word_count_of 16 }
{
    let set = snapshot.with_word(alloc, place, 7)?;
    differ_in(rt, snapshot, &set, &[page_of(place) as u32]);
    same(rt, &set.word(place), &7);
    holds(rt, &set.with_word(alloc, place, first_word(place))?, &[]);
    Ok(())
}

// Of pages that all differ the named ones are taken from the other one, and taken back, with one that does not differ.
#[test]
fn pages_of_another(rt: HostRuntime) -> Result<(), Fail> {
    let alloc = rt.alloc();
    let all = [0, 1, 15, 16, 31, 32, 63, 64, 79];
    let none = PageMarks::new(alloc)?;
    let mut words = filled::<16>(alloc)?;
    let own = Snapshot::<16>::capture(alloc, &words, None, &none)?;
    let other = after(&rt, alloc, &mut words, &own, &set_of(alloc, &all)?)?;
    are_overlaid(&rt, alloc, &own, &other, &all)
}

// Takes none of the differing pages from the other snapshot, each alone, and four at once.
fn are_overlaid(
    rt: &impl Abort,
    alloc: Global,
    own: &Snapshot<16>,
    other: &Snapshot<16>,
    all: &[u32],
) -> Result<(), Fail> {
    is_overlaid(rt, alloc, own, other, &[])?;
    for page in all {
        is_overlaid(rt, alloc, own, other, &[*page])?;
    }
    is_overlaid(rt, alloc, own, other, &[1, 16, 31, 79])?;
    holds(rt, own, &[]);
    holds(rt, other, all);
    Ok(())
}

fn is_overlaid(
    rt: &impl Abort,
    alloc: Global,
    own: &Snapshot<16>,
    other: &Snapshot<16>,
    pages: &[u32],
) -> Result<(), Fail> {
    let mut set = set_of(alloc, pages)?;
    let both = own.overlay(alloc, &set, other)?;
    holds(rt, &both, pages);
    set.mark(5);
    let back = both.overlay(alloc, &set, own)?;
    holds(rt, &back, &[]);
    Ok(())
}

// The memory that an image sets, of 16 pages of RAM.
fn memory_of(alloc: Global, image: &Image) -> Result<Vec<u32>, AllocError>
    ensures { IfOk result (λ words. length words.items ≡ word_count_of 16) }
{
    let mut words = vec![in alloc; 0; word_count(16)]?;
    for place in 0..word_count(16) {
        words[place] = image.word(address_of(16, place)).unwrap_or(0);
    }
    Ok(words)
}

// The first page of ROM of the echo program, with another word in it.
#[test]
fn page_of_the_echo_program(rt: HostRuntime) -> Result<(), Fail> {
    let none = PageMarks::new(rt.alloc())?;
    let mut image = assemble(rt.alloc(), ECHO.as_bytes())?;
    let words = memory_of(rt.alloc(), &image)?;
    let own = Snapshot::<16>::capture(rt.alloc(), &words, None, &none)?;
    image.patch(0x1FC0_0010, 0x2405_0011)?;
    let words = memory_of(rt.alloc(), &image)?;
    let other = Snapshot::<16>::capture(rt.alloc(), &words, None, &none)?;
    let both = own.overlay(rt.alloc(), &set_of(rt.alloc(), &[16])?, &other)?;
    same(&rt, &own.word(16 * 1024 + 4), &0x2405_0001);
    same(&rt, &both.word(16 * 1024 + 4), &0x2405_0011);
    differ_in(&rt, &own, &both, &[16]);
    Ok(())
}

// A set of pages has each once, in the order in which they came.
#[test]
fn marked_pages(rt: HostRuntime) -> Result<(), Fail> {
    let mut marks = PageMarks::<16>::new(rt.alloc())?;
    same(&rt, &marks.pages().len(), &0);
    marks.add(&[3, 79]);
    marks.add(&[0, 79, 3, 16, 0]);
    same(&rt, &marks.pages(), &[3, 79, 0, 16].as_slice());
    marks.clear();
    same(&rt, &marks.pages().len(), &0);
    marks.add(&[79]);
    same(&rt, &marks.pages(), &[79].as_slice());
    marks.mark(5);
    marks.mark(79);
    same(&rt, &marks.pages(), &[79, 5].as_slice());
    let held = [marks.holds(5), marks.holds(6), marks.holds(80)];
    same(&rt, &held, &[true, false, false]);
    let ascending = marks.ascending(rt.alloc())?;
    same(&rt, &ascending.as_slice(), &[5, 79].as_slice());
    Ok(())
}

// Pages that are blank in one of two snapshots are brought back.
#[test]
fn blank_pages(rt: HostRuntime) -> Result<(), Fail> {
    let alloc = rt.alloc();
    let none = PageMarks::new(alloc)?;
    let mut words = vec![in alloc; 0; word_count(16)]?;
    let blank = Snapshot::<16>::capture(alloc, &words, None, &none)?;
    let set = set_of(alloc, &[5, 9])?;
    let other = after(&rt, alloc, &mut words, &blank, &set)?;
    differ_in(&rt, &blank, &other, &[5, 9]);
    blank.copy_to(&mut words, &other, &none);
    assert!(rt; words.iter().all(|word| *word == 0));
    Ok(())
}

// Where an allocation fails, as in a run with failing ones, memory and the earlier snapshot are as they were.
#[test]
fn refused_memory(rt: HostRuntime) -> Result<(), Fail> {
    let Ok(words) = filled::<16>(rt.alloc()) else {
        return Ok(());
    };
    let Ok(mut set) = PageMarks::new(rt.alloc()) else {
        return Ok(());
    };
    set.add(&[0, 79]);
    let Ok(earlier) = Snapshot::<16>::capture(rt.alloc(), &words, None, &set) else {
        return Ok(());
    };
    if let Ok(later) = again(rt.alloc(), &words, &earlier, &set) {
        holds(&rt, &later, &[]);
    }
    holds(&rt, &earlier, &[]);
    Ok(())
}
