//! The worked words of sparse cells, split indices and record heads.
use super::*;
use std::test::Fail;

#[test]
fn a_third_child_takes_the_least_free_slot(rt: HostRuntime) -> Result<(), Fail> {
    // bytes 61 and 62 in slots 0 and 1
    let word: u64 = 0x0006_0000_0000_6261;
    assert_eq!(rt; sparse_count(word), 2);
    assert_eq!(rt; sparse_add(word, 0x60), (0x0026_0000_0060_6261, 2));
    assert_eq!(rt; sparse_add(word, 0x63), (0x004e_0000_0063_6261, 2));
    Ok(())
}

#[test]
fn children_are_found_and_listed(rt: HostRuntime) -> Result<(), Fail> {
    let word: u64 = 0x0026_0000_0060_6261;
    assert_eq!(rt; sparse_count(word), 3);
    assert_eq!(rt; sparse_ordered(word, 0), (0x60, 2));
    assert_eq!(rt; sparse_ordered(word, 2), (0x62, 1));
    assert_eq!(rt; sparse_find(word, 0x60), Some(2));
    // slot 3 is free, though its byte is 00
    assert_eq!(rt; sparse_find(word, 0), None);
    Ok(())
}

#[test]
fn fields_of_words(rt: HostRuntime) -> Result<(), Fail> {
    assert_eq!(rt; kind_of(Ptr(0)), Some(Kind::Nothing));
    assert_eq!(rt; kind_of(Ptr(0xffff_fffe)), Some(Kind::Content));
    assert_eq!(rt; kind_of(Ptr(32 * 7 + 0x1d)), None);
    assert_eq!(rt; half(with_half(7, true, Ptr(9)), true), Ptr(9));
    assert_eq!(rt; chain_byte(0x6362_6100, 2), 0x62);
    assert_eq!(rt; chain_tail(0x0000_0045_6362_6100), Ptr(0x45));
    assert_eq!(rt; split_index(0xb5, 1), 6);
    assert_eq!(rt; head_parts(record_head(3, 5)), (3, 5));
    Ok(())
}
