//! The walk to a key, step by step, over the image after one put of the key 61 with an empty value: its record is cell 1,
//! its chain cell 2.
use crate::find::find;
use crate::source::SliceWords;
use crate::walk::{advance, lookup, next_word, start};
use crate::{Advance, Place, Rec, Role};

const CHAIN: Place = Place {
    role: Role::Chain,
    ptr: 91,
    part: 0,
    taken: 0,
};

const HEAD: Place = Place {
    role: Role::Head,
    ptr: 0xffff_fffe,
    part: 0,
    taken: 1,
};

#[test]
fn finds_one_put(rt: HostRuntime) {
    let key = [0x61];
    assert_eq!(rt; next_word(&start()), 1);
    assert_eq!(rt; advance(&start(), 91, &key), Advance::On(CHAIN));
    assert_eq!(rt; next_word(&CHAIN), 11);
    assert_eq!(rt;
        advance(&CHAIN, 0xffff_fffe_6100_0000, &key),
        Advance::On(HEAD)
    );
    assert_eq!(rt; next_word(&HEAD), 4);
    let found = Rec {
        cell: 1,
        number: 1,
        length: 0,
    };
    assert_eq!(rt; advance(&HEAD, 1, &key), Advance::Found(found));
}

#[test]
fn another_byte_is_absent(rt: HostRuntime) {
    assert_eq!(rt;
        advance(&CHAIN, 0xffff_fffe_6100_0000, &[0x62]),
        Advance::Absent
    );
}

#[test]
fn the_opening_image_has_no_key(rt: HostRuntime) {
    let words = [0; 16];
    assert_eq!(rt; lookup(&words, &[0x61]), None);
}

#[test]
fn a_source_of_the_opening_image_has_no_key(rt: HostRuntime) {
    let words = [0; 16];
    let from = SliceWords { words: &words };
    assert_eq!(rt; find(&from, &mut (), &[0x61]), None);
}
