//! The image format, raw ROMs, and images made word by word.
use crate::same::{same, same_at};
use crate::tables::{changed, numbers, rows};
use r3k_image::{
    ClockStart, Constant, Image, ImageFault, ImageKind, WordAddress, WordMap, raw_rom, read_image,
    write_image,
};
use samples::{EMPTY_IMAGE, LOAD_SLOT, number, shown};
use std::alloc::{AllocError, Global};
use std::process::Abort;
use std::test::Fail;

/// The clock of a raw ROM.
pub const CLOCK: [u8; 12] = [0, 0, 0, 0, 0, 0, 1, 1, 1, 0, 0x20, 6];

/// Compares the bytes that an image is written as.
pub fn writes(rt: &(impl Abort + AllocGlobal), image: &Image, bytes: &[u8]) -> Result<(), Fail> {
    same(rt, &write_image(rt.alloc(), image)?.as_slice(), &bytes);
    Ok(())
}

/// Compares words of an image: `ADDRESS WORD` with `; ` between, and `none` for a word that is not set.
pub fn has_words(rt: &impl Abort, image: &Image, words: &str) -> Result<(), Fail> {
    for row in words.split("; ") {
        let (address, word) = row.split_once(' ').ok_or("no word")?;
        let address = u32::try_from(number(address)?)?;
        let wanted = match word {
            "none" => None,
            _ => Some(u32::try_from(number(word)?)?),
        };
        same_at(rt, &address, &image.word(address), &wanted);
    }
    Ok(())
}

/// Compares an image's byte time, its unit and the start of its clock.
pub fn has_constants(rt: &impl Abort, image: &Image, byte_time: u16, unit: u16, clock: &[u8; 12]) {
    same(rt, &image.byte_time(), &byte_time);
    same(rt, &image.unit(), &unit);
    same(rt, &image.clock_start(), clock);
}

/// A header, with words after it: how many segments there are, and of each its address, its count and its words.
pub fn image_bytes(alloc: Global, header: &[u8], words: &str) -> Result<Vec<u8>, Fail> {
    let mut bytes = header.to_vec(alloc)?;
    for word in &numbers(alloc, words)? {
        bytes.extend_from_slice(&u32::try_from(*word)?.to_le_bytes())?;
    }
    Ok(bytes)
}

// The fault of an image, or `None`.
fn fault(alloc: Global, bytes: &[u8]) -> Result<String, AllocError> {
    shown(alloc, &read_image(alloc, bytes).err())
}

#[test]
fn empty_image(rt: HostRuntime) -> Result<(), Fail> {
    let image = read_image(rt.alloc(), &EMPTY_IMAGE)?;
    has_constants(&rt, &image, 16, 1, &CLOCK);
    has_words(&rt, &image, "0 none")?;
    assert!(rt; image.fits(0));
    writes(&rt, &image, &EMPTY_IMAGE)
}

#[test]
fn load_slot(rt: HostRuntime) -> Result<(), Fail> {
    let image = read_image(rt.alloc(), &LOAD_SLOT)?;
    let words =
        "0xff none; 0x100 5; 0x102 none; 0x104 none; 0x1fbffffc none; 0x1fc00000 0x3c01a000; \
0x1fc0000c 0x00402021; 0x1fc00010 none; 0xfffffffc none";
    has_words(&rt, &image, words)?;
    assert!(rt; !image.fits(0));
    assert!(rt; image.fits(1));
    for end in 0..LOAD_SLOT.len() {
        let fault = read_image(rt.alloc(), &LOAD_SLOT[..end]).err();
        same_at(&rt, &end, &fault, &Some(ImageFault::Bad(ImageKind::Short)));
    }
    writes(&rt, &image, &LOAD_SLOT)
}

#[test]
fn faults_of_the_header(rt: HostRuntime) -> Result<(), Fail> {
    let short = read_image(rt.alloc(), b"another").err();
    same(&rt, &short, &Some(ImageFault::Bad(ImageKind::Short)));
    for (change, wanted) in &rows(rt.alloc(), HEADERS)? {
        let bytes = changed(rt.alloc(), &EMPTY_IMAGE, change.as_str())?;
        same_at(&rt, &change, &fault(rt.alloc(), &bytes)?, wanted);
    }
    Ok(())
}

// Changes of a byte of `EMPTY_IMAGE`, which has 32, and the fault.
const HEADERS: &str = "
9 0xff 32 = None
7 0x0d 32 = Some Bad Magic
8 0 32; 10 1 32 = Some Bad ByteTime
12 0 32; 14 1 32 = Some Bad Unit
26 0x80 32; 27 7 32 = Some Bad ClockStart
28 1 32 = Some Bad Short
";

#[test]
fn faults_of_segments(rt: HostRuntime) -> Result<(), Fail> {
    for (words, wanted) in &rows(rt.alloc(), SEGMENTS)? {
        let bytes = image_bytes(rt.alloc(), &EMPTY_IMAGE[..28], words.as_str())?;
        same_at(&rt, &words, &fault(rt.alloc(), &bytes)?, wanted);
    }
    Ok(())
}

// The words after the header of `EMPTY_IMAGE`, and the fault.
const SEGMENTS: &str = "
1 0 1 0x04030201; 1 0x01fffffc 1 0x04030201; 1 0x1fc3fffc 1 0x04030201 = None
1 0 1 0x04030201 0x04030201 = Some Bad Extra
1 0 1; 1 0 0x00800000 = Some Bad Short
1 0 0; 1 2 1 0x04030201; 1 0 0x40000000; 1 0x01fffffc 2 0x04030201 0x04030201 = Some Bad Segment
1 0x1fbffffc 2 0x04030201 0x04030201; 1 0x1fc3fffc 2 0x04030201 0x04030201 = Some Bad Segment
1 0xfffffffc 2 0x04030201 0x04030201 = Some Bad Segment
// two segments that may touch
2 0x100 1 5 0x104 1 6; 2 0x100 1 5 0x108 1 6 = None
2 0x100 1 5 0xfc 1 6; 2 0x100 1 5 0x100 1 6 = Some Bad Segment
";

#[test]
fn raw_roms(rt: HostRuntime) -> Result<(), Fail> {
    let image = raw_rom(rt.alloc(), &[0x11, 0x22, 0x33, 0x44, 0x55])?;
    let words = "0x1fc00000 0x44332211; 0x1fc00004 0x55; 0x1fc00008 none";
    has_words(&rt, &image, words)?;
    has_constants(&rt, &image, 16, 1, &CLOCK);
    assert!(rt; image.fits(0));
    has_words(&rt, &raw_rom(rt.alloc(), &[])?, "0x1fc00000 none")?;
    // The longest, and one longer.
    let mut bytes = vec![in rt.alloc(); 0xA5u8; 262_144]?;
    let image = raw_rom(rt.alloc(), &bytes)?;
    has_words(&rt, &image, "0x1fc3fffc 0xa5a5a5a5; 0x1fc40000 none")?;
    bytes.push(0xA5)?;
    let fault = raw_rom(rt.alloc(), &bytes).err();
    same(&rt, &fault, &Some(ImageFault::Bad(ImageKind::RawSize)));
    Ok(())
}

// Segments that touch are written as one, also where RAM ends and where ROM does.
#[test]
fn touching_segments_are_joined(rt: HostRuntime) -> Result<(), Fail> {
    let header = b"R3KIMG1\n\x02\0\0\0\x03\0\0\0\0\0\0\0\0\0\x01\x01\x01\0\x20\x06";
    let apart = "4 0x100 1 5 0x104 2 6 7 0x110 1 8 0x01fffffc 1 9";
    let joined = "3 0x100 3 5 6 7 0x110 1 8 0x01fffffc 1 9";
    let image = read_image(rt.alloc(), &image_bytes(rt.alloc(), header, apart)?)?;
    writes(&rt, &image, &image_bytes(rt.alloc(), header, joined)?)
}

#[test]
fn image_of_words(rt: HostRuntime) -> Result<(), Fail> {
    let mut words = WordMap::new(rt.alloc());
    for (address, word) in [
        (0x1FC0_0004, 0x8C22_0100),
        (0x1FC0_000C, 0x0040_2021),
        (0x100, 5),
        (0x1FC0_0008, 0x0040_1821),
        (0x1FC0_0000, 0x3C01_A000),
    ] {
        let address = WordAddress::new(address).ok_or("no word")?;
        assert!(rt; words.insert(address, 0)?);
        assert!(rt; !words.insert(address, word)?);
    }
    same(&rt, &WordAddress::new(0x101), &None);
    same(&rt, &WordAddress::new(0x0200_0000), &None);
    let (byte_time, unit) = (Constant::plain_byte_time(), Constant::plain_unit());
    let image = words.image(rt.alloc(), byte_time, unit, ClockStart::plain())?;
    writes(&rt, &image, &LOAD_SLOT)?;
    same(&rt, &Constant::new(0), &None);
    same(&rt, &Constant::new(65536), &None);
    let start = ClockStart::new(&CLOCK).ok_or("no start")?;
    same(&rt, &start.get(), &CLOCK);
    Ok(())
}

/// One segment of 8,388,608 words: all of the RAM that a machine may have.
#[test]
fn large_image(rt: HostRuntime) -> Result<(), Fail> {
    let alloc = rt.alloc();
    let mut bytes = Vec::with_capacity(alloc, 40 + 4 * 8_388_608)?;
    bytes.extend_from_slice(&EMPTY_IMAGE[..28])?;
    bytes.extend_from_slice(b"\x01\0\0\0\0\0\0\0\0\0\x80\0")?;
    for place in 0..8_388_608u32 {
        bytes.extend_from_slice(&place.wrapping_mul(2_654_435_769).to_le_bytes())?;
    }
    let image = read_image(alloc, &bytes)?;
    for turn in 0..1000u32 {
        let place = turn * 8388;
        let word = place.wrapping_mul(2_654_435_769);
        same(&rt, &image.word(4 * place), &Some(word));
    }
    same(&rt, &image.word(0x0200_0000), &None);
    assert!(rt; image.fits(8192));
    assert!(rt; !image.fits(8191));
    Ok(())
}
