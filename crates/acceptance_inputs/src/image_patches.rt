//! Patches of an image.
use crate::image_format::{has_words, image_bytes, writes};
use crate::same::{same, same_at};
use crate::tables::rows;
use r3k_image::read_image;
use refusal::Fault;
use samples::{EMPTY_IMAGE, LOAD_SLOT, number, shown};
use std::test::Fail;

// The segments of `LOAD_SLOT` after patches of 0xfc, 0x104, 0x200 and 0x1fc00010: words 0xfc, 0x100 and 0x104 are one run.
const PATCHED: &str = "3 0xfc 3 7 5 0 0x200 1 0xffffffff \
0x1fc00000 5 0x3c01a000 0x8c220100 0x00401821 0x00402021 0x24050011";

#[test]
fn patches(rt: HostRuntime) -> Result<(), Fail> {
    let mut image = read_image(rt.alloc(), &LOAD_SLOT)?;
    // The value that the word has.
    image.patch(0x100, 5)?;
    writes(&rt, &image, &LOAD_SLOT)?;
    // Words of their own, one of them just before a segment, and words after a segment, one of them with the value 0.
    image.patch(0x200, 0xFFFF_FFFF)?;
    image.patch(0xFC, 7)?;
    image.patch(0x104, 0)?;
    image.patch(0x1FC0_0010, 0x2405_0011)?;
    let patched = image_bytes(rt.alloc(), &EMPTY_IMAGE[..28], PATCHED)?;
    writes(&rt, &image, &patched)?;
    // Set words have another value, and no other word is touched.
    image.patch(0x1FC0_0004, 1)?;
    image.patch(0xFC, 0)?;
    let words =
        "0xf8 none; 0xfc 0; 0x100 5; 0x104 0; 0x108 none; 0x1fc00000 0x3c01a000; 0x1fc00004 1; \
0x1fc00008 0x00401821; 0x1fc00010 0x24050011; 0x1fc00014 none";
    has_words(&rt, &image, words)
}

#[test]
fn patches_at_the_ends(rt: HostRuntime) -> Result<(), Fail> {
    let mut image = read_image(rt.alloc(), &EMPTY_IMAGE)?;
    for address in [0x1FC3_FFFC, 0x01FF_FFFC, 0x1FC0_0000, 0, 0x01FF_FFF8] {
        image.patch(address, address)?;
    }
    for address in [0, 0x01FF_FFF8, 0x01FF_FFFC, 0x1FC0_0000, 0x1FC3_FFFC] {
        same_at(&rt, &address, &image.word(address), &Some(address));
    }
    assert!(rt; image.fits(8192));
    assert!(rt; !image.fits(8191));
    Ok(())
}

#[test]
fn refused_patches(rt: HostRuntime) -> Result<(), Fail> {
    let mut image = read_image(rt.alloc(), &LOAD_SLOT)?;
    for (address, wanted) in &rows(rt.alloc(), REFUSED)? {
        let fault = image.patch(u32::try_from(number(address.as_str())?)?, 0);
        same_at(&rt, &address, &shown(rt.alloc(), &fault.err())?, wanted);
    }
    writes(&rt, &image, &LOAD_SLOT)
}

// Addresses, and why no word is patched there.
const REFUSED: &str = "
0x101; 0x102; 0x02000001; 0x1fe00002; 0xffffffff = Some Unaligned
0x02000000; 0x1fbffffc; 0x1fc40000; 0x1fe00000; 0xfffffffc = Some NotMemory
";

// Where an allocation fails, as in a run with failing ones, the word is as it was, and the next call may succeed.
#[test]
fn refused_growth(rt: HostRuntime) -> Result<(), Fail> {
    let mut image = read_image(rt.alloc(), &EMPTY_IMAGE)?;
    for address in [0, 4, 8, 12, 16, 0x100, 0x200, 0x300, 0x400, 0x404] {
        if let Err(fault) = image.patch(address, 1) {
            same(&rt, &fault, &Fault::Memory);
            same(&rt, &image.word(address), &None);
            image.patch(address, 1)?;
        }
        same(&rt, &image.word(address), &Some(1));
    }
    Ok(())
}
