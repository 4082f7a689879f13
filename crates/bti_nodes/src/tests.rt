//! The worked rows of nodes: what is written, what is read, and what is refused.
ghost use Rattle.std.specs.Prelude.{◌<◌, ◌≤◌, length};
ghost use Rattle.bti_nodes.specs.Spelling.{IsNode, bytes_in};

use super::*;
use key_types::{ByteList, ListOf, NoMemory};
use std::alloc::Global;
use std::process::Abort;
use std::test::Fail;

const NO_PAYLOAD: Payload = Payload {
    count: 0,
    bytes: [0; 7],
};

/// The bytes of a node.
fn written(alloc: Global, payload: Payload, children: Vec<Child>) -> Result<ByteList, NoMemory>
    requires count { payload.count ≤ 7 }
    requires node { IsNode (record { payload = bytes_in payload; children = children.items }) }
{
    let parts = NodeParts {
        payload,
        children: ListOf::from_vec(children),
    };
    let mut out = ByteList::new(alloc);
    encode_node(&parts, &mut out)?;
    Ok(out)
}

/// Asserts that the bytes are a node with this payload and these children, in order.
fn reads_as(rt: &impl Abort, page: &[u8], payload: &[u8], children: &[Child])
    requires { 0 < length page.now }
{
    match parse_node(page, 0, 100000) {
        Ok(node) => {
            assert_eq!(rt; node.payload(), payload);
            assert_eq!(rt; node.places(), children.len());
            for place in 0..node.places() {
                assert_eq!(rt; node.child(place), children.get(place).copied());
            }
        }
        Err(cause) => panic!(rt; "refused: {cause:?}"),
    }
}

/// Why no node begins with the bytes.
fn refusal(page: &[u8], position: u64) -> Option<NodeError>
    requires { 0 < length page.now }
{
    match parse_node(page, 0, position) {
        Ok(_) => None,
        Err(cause) => Some(cause),
    }
}

fn child(byte: u8, distance: u64) -> Child {
    Child { byte, distance }
}

#[test]
fn few_children_are_written(rt: HostRuntime) -> Result<(), Fail> {
    let alloc = rt.alloc();
    let bytes = written(alloc, signed_payload(-1), vec![in alloc]?)?;
    assert_eq!(rt; bytes.as_slice(), [0x01, 0xFF].as_slice());
    let near = vec![in alloc;
        Child {
            byte: 0x40,
            distance: 2
        },
    ]?;
    assert_eq!(rt;
        written(alloc, NO_PAYLOAD, near)?.as_slice(),
        [0x12, 0x40].as_slice()
    );
    let single = vec![in alloc;
        Child {
            byte: 0x40,
            distance: 16
        },
    ]?;
    assert_eq!(rt;
        written(alloc, NO_PAYLOAD, single)?.as_slice(),
        [0x20, 0x40, 0x10].as_slice()
    );
    let short = vec![in alloc;
        Child {
            byte: 0x40,
            distance: 256
        },
    ]?;
    assert_eq!(rt;
        written(alloc, NO_PAYLOAD, short)?.as_slice(),
        [0x31, 0x00, 0x40].as_slice()
    );
    let paid = vec![in alloc;
        Child {
            byte: 0x63,
            distance: 3
        },
    ]?;
    let bytes = written(alloc, unsigned_payload(16401), paid)?;
    assert_eq!(rt; bytes.as_slice(), [0x22, 0x63, 0x03, 0x40, 0x11].as_slice());
    Ok(())
}

#[test]
fn many_children_are_written(rt: HostRuntime) -> Result<(), Fail> {
    let alloc = rt.alloc();
    let far = vec![in alloc;
        Child {
            byte: 0x40,
            distance: 65536
        },
    ]?;
    let bytes = written(alloc, NO_PAYLOAD, far)?;
    assert_eq!(rt;
        bytes.as_slice(),
        [0x80, 0x01, 0x40, 0x01, 0x00, 0x00].as_slice()
    );
    let two = vec![in alloc;
        Child {
            byte: 0x11,
            distance: 6
        },
        Child {
            byte: 0x22,
            distance: 3
        },
    ]?;
    let bytes = written(alloc, NO_PAYLOAD, two)?;
    assert_eq!(rt;
        bytes.as_slice(),
        [0x50, 0x02, 0x11, 0x22, 0x06, 0x03].as_slice()
    );
    let wide = vec![in alloc;
        Child {
            byte: 0x11,
            distance: 256
        },
        Child {
            byte: 0x22,
            distance: 3
        },
    ]?;
    let bytes = written(alloc, NO_PAYLOAD, wide)?;
    assert_eq!(rt;
        bytes.as_slice(),
        [0x60, 0x02, 0x11, 0x22, 0x10, 0x00, 0x03].as_slice()
    );
    Ok(())
}

#[test]
fn dense_children_are_written(rt: HostRuntime) -> Result<(), Fail> {
    let alloc = rt.alloc();
    let four = vec![in alloc;
        Child {
            byte: 0x61,
            distance: 8
        },
        Child {
            byte: 0x62,
            distance: 6
        },
        Child {
            byte: 0x63,
            distance: 4
        },
        Child {
            byte: 0x64,
            distance: 2
        },
    ]?;
    let bytes = written(alloc, NO_PAYLOAD, four)?;
    assert_eq!(rt;
        bytes.as_slice(),
        [0xA0, 0x61, 0x03, 0x00, 0x80, 0x06, 0x00, 0x40, 0x02].as_slice()
    );
    let dense = vec![in alloc;
        Child {
            byte: 0x61,
            distance: 300
        },
        Child {
            byte: 0x62,
            distance: 6
        },
        Child {
            byte: 0x63,
            distance: 4
        },
        Child {
            byte: 0x64,
            distance: 2
        },
    ]?;
    let bytes = written(alloc, NO_PAYLOAD, dense)?;
    assert_eq!(rt;
        bytes.as_slice(),
        [0xA0, 0x61, 0x03, 0x12, 0xC0, 0x06, 0x00, 0x40, 0x02].as_slice()
    );
    Ok(())
}

#[test]
fn nodes_are_read(rt: HostRuntime) {
    reads_as(&rt, &[0x01, 0xFF], &[0xFF], &[]);
    reads_as(&rt, &[0x12, 0x40], &[], &[child(0x40, 2)]);
    reads_as(&rt, &[0x20, 0x40, 0x10], &[], &[child(0x40, 16)]);
    reads_as(&rt, &[0x31, 0x00, 0x40], &[], &[child(0x40, 256)]);
    reads_as(
        &rt,
        &[0x22, 0x63, 0x03, 0x40, 0x11],
        &[0x40, 0x11],
        &[child(0x63, 3)],
    );
    reads_as(
        &rt,
        &[0x80, 0x01, 0x40, 0x01, 0x00, 0x00],
        &[],
        &[child(0x40, 65536)],
    );
    reads_as(
        &rt,
        &[0x50, 0x02, 0x11, 0x22, 0x06, 0x03],
        &[],
        &[child(0x11, 6), child(0x22, 3)],
    );
    reads_as(
        &rt,
        &[0x60, 0x02, 0x11, 0x22, 0x10, 0x00, 0x03],
        &[],
        &[child(0x11, 256), child(0x22, 3)],
    );
    let four = [
        child(0x61, 8),
        child(0x62, 6),
        child(0x63, 4),
        child(0x64, 2),
    ];
    reads_as(
        &rt,
        &[0x50, 0x04, 0x61, 0x62, 0x63, 0x64, 0x08, 0x06, 0x04, 0x02],
        &[],
        &four,
    );
    reads_as(
        &rt,
        &[0xA0, 0x61, 0x03, 0x00, 0x80, 0x06, 0x00, 0x40, 0x02],
        &[],
        &four,
    );
    let far = [
        child(0x61, 300),
        child(0x62, 6),
        child(0x63, 4),
        child(0x64, 2),
    ];
    reads_as(
        &rt,
        &[0xA0, 0x61, 0x03, 0x12, 0xC0, 0x06, 0x00, 0x40, 0x02],
        &[],
        &far,
    );
}

#[test]
fn others_are_refused(rt: HostRuntime) {
    assert_eq!(rt; refusal(&[0x50, 0x00], 10), Some(NodeError::BadOrder));
    assert_eq!(rt; refusal(&[0x12, 0x40], 1), Some(NodeError::BadPointer));
    assert_eq!(rt; refusal(&[0x00], 10), Some(NodeError::BadPayload));
    assert_eq!(rt; refusal(&[0x22, 0x63, 0x03], 10), Some(NodeError::PastPage));
    assert_eq!(rt;
        refusal(&[0x50, 0x02, 0x22, 0x11, 0x06, 0x03], 10),
        Some(NodeError::BadOrder)
    );
    assert_eq!(rt; refusal(&[0x01, 0xFF], 0), None);
}

#[test]
fn children_are_found(rt: HostRuntime) {
    let sparse = [0x50, 0x02, 0x11, 0x22, 0x06, 0x03];
    let dense = [0xA0, 0x61, 0x03, 0x00, 0x80, 0x00, 0x00, 0x40, 0x02];
    for (page, byte, wanted) in [
        (sparse.as_slice(), 0x22, Some(child(0x22, 3))),
        (sparse.as_slice(), 0x12, None),
        (dense.as_slice(), 0x61, Some(child(0x61, 8))),
        (dense.as_slice(), 0x62, None),
        (dense.as_slice(), 0x64, Some(child(0x64, 2))),
        (dense.as_slice(), 0x65, None),
    ] {
        match node_of(page, 0, 10) {
            Ok(node) => assert_eq!(rt; node.find(byte), wanted),
            Err(cause) => panic!(rt; "refused: {cause:?}"),
        }
    }
}
