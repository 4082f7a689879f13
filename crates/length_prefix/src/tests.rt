use super::*;
use std::test::Fail;

#[test]
fn strings_are_written_and_read(rt: HostRuntime) -> Result<(), Fail> {
    let mut out = ByteList::new(rt.alloc());
    put_counted(&mut out, b"ab")?;
    out.push(0xFF)?;
    assert_eq!(rt; out.as_slice(), [0, 2, b'a', b'b', 0xFF].as_slice());
    assert_eq!(rt;
        counted(out.as_slice()),
        Some((b"ab".as_slice(), [0xFF].as_slice()))
    );
    assert_eq!(rt; counted(&[1, 0, 7]), None);
    assert_eq!(rt; stated_length(&[1, 2, 3]), Some(258));
    Ok(())
}
