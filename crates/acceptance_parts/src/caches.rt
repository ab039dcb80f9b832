//! The isolated caches on their own.
use crate::same::same;
use dcache::Caches;
use std::test::Fail;

// Addresses 0x40 and 0x10040 share slot 16, with tags 0 and 1.
#[test]
fn isolated_caches(rt: HostRuntime) -> Result<(), Fail> {
    let mut caches = Caches::new(rt.alloc())?;
    caches.store_word(false, 0x40, 7);
    same(&rt, &caches.load(false, 0x40), &(7, true));
    same(&rt, &caches.load(false, 0x1_0040), &(7, false));
    same(&rt, &caches.load(true, 0x40), &(0, false));
    caches.store_part(false, 0x40);
    same(&rt, &caches.load(false, 0x40), &(7, false));
    same(&rt, &caches.load(true, 0x40), &(0, false));
    Ok(())
}

// The last slot's address, 0xFFFC, and the highest address share slot 16,383.
#[test]
fn last_slot(rt: HostRuntime) -> Result<(), Fail> {
    let mut caches = Caches::new(rt.alloc())?;
    caches.store_word(true, 0xFFFF_FFFC, 9);
    same(&rt, &caches.load(true, 0xFFFF_FFFC), &(9, true));
    same(&rt, &caches.load(true, 0xFFFC), &(9, false));
    same(&rt, &caches.load(true, 0), &(0, false));
    same(&rt, &caches.load(false, 0xFFFF_FFFC), &(0, false));
    Ok(())
}

#[test]
fn copies(rt: HostRuntime) -> Result<(), Fail> {
    let mut caches = Caches::new(rt.alloc())?;
    caches.store_word(false, 0x40, 7);
    caches.store_word(true, 0x44, 8);
    let copy = caches.copy(rt.alloc())?;
    assert!(rt; copy == caches);
    caches.store_part(true, 0x44);
    assert!(rt; copy != caches);
    caches.assign(&copy);
    assert!(rt; copy == caches);
    same(&rt, &caches.load(true, 0x44), &(8, true));
    Ok(())
}
