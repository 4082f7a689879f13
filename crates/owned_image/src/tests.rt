//! Worked rows of puts: how many cells each takes, and that every key is found after every put.
use crate::Image;
use key_types::NoMemory;
use std::alloc::Global;
use std::process::Abort;
use std::test::Fail;

/// Each key finds its last put among the first so many puts, and none where they don't have it.
fn check_lookups(rt: &impl Abort, image: &Image, keys: &[&[u8]], puts: usize) {
    let done = keys.split_at(puts.min(keys.len())).0;
    for key in keys {
        assert!(rt; key.len() < 1000);
        let number = done
            .iter()
            .rposition(|other| *other == *key)
            .map(|place| place.saturating_add(1));
        assert_eq!(rt; image.lookup(key).map(|rec| rec.number as usize), number);
    }
}

/// Puts values of one byte under the keys, and compares the cells taken and what every key finds after every put.
fn check_puts(
    rt: &impl Abort,
    alloc: Global,
    keys: &[&[u8]],
    cells: &[u32],
) -> Result<Image, NoMemory> {
    let mut image = Image::new(alloc, 64)?;
    for (n, (key, taken)) in keys.iter().zip(cells).enumerate() {
        assert!(rt; image.takes(key, &[7]));
        image.put(key, &[7]);
        assert_eq!(rt; image.used(), *taken);
        check_lookups(rt, &image, keys, n.saturating_add(1));
    }
    Ok(image)
}

#[test]
fn seven_keys_and_an_eighth(rt: HostRuntime) -> Result<(), Fail> {
    let keys: [&[u8]; 8] = [
        b"\x40\x80\x38\x38",
        b"\x40\x81\x38\x38",
        b"\x40\x82\x38\x38",
        b"\x40\x83\x38\x38",
        b"\x40\x84\x38\x38",
        b"\x40\x85\x38\x38",
        b"\x40\x86\x38\x38",
        b"\x40\x00\x38\x38",
    ];
    let image = check_puts(&rt, rt.alloc(), &keys, &[3, 7, 9, 11, 13, 15, 20, 24])?;
    assert_eq!(rt; image.lookup(b"\x40\x87\x38\x38"), None);
    Ok(())
}

#[test]
fn nine_keys_over_a_split_node(rt: HostRuntime) -> Result<(), Fail> {
    let keys: [&[u8]; 9] = [
        b"\x40\x00\x38\x38",
        b"\x40\x40\x38\x38",
        b"\x40\x80\x38\x38",
        b"\x40\xa0\x38\x38",
        b"\x40\xc0\x38\x38",
        b"\x40\xe0\x38\x38",
        b"\x40\xff\x38\x38",
        b"\x40\x41\x38\x38",
        b"\x40\x48\x38\x38",
    ];
    check_puts(&rt, rt.alloc(), &keys, &[3, 7, 9, 11, 13, 15, 29, 31, 34])?;
    Ok(())
}

#[test]
fn keys_that_begin_others(rt: HostRuntime) -> Result<(), Fail> {
    let longer: [&[u8]; 3] = [b"a", b"ab", b"abcd"];
    check_puts(&rt, rt.alloc(), &longer, &[3, 6, 9])?;
    let shorter: [&[u8]; 4] = [b"abc", b"ab", b"a", b"a"];
    let image = check_puts(&rt, rt.alloc(), &shorter, &[3, 6, 9, 10])?;
    assert_eq!(rt; image.lookup(b"abcd"), None);
    assert_eq!(rt; image.lookup(b"b"), None);
    Ok(())
}

#[test]
fn a_full_image_takes_no_put(rt: HostRuntime) -> Result<(), Fail> {
    let mut image = Image::new(rt.alloc(), 20)?;
    assert!(rt; image.takes(b"a", b""));
    image.put(b"a", b"");
    assert_eq!(rt; image.used(), 3);
    assert!(rt; !image.takes(b"a", b""));
    Ok(())
}
