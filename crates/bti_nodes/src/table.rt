//! The sixteen types of nodes (after BtiFormat.md; numbers, names and greatest distances are this project's own).
ghost use Rattle.std.specs.Prelude.{◌≡◌, ◌<◌, ◌≤◌, ◌^◌, length};
ghost use Rattle.bti_nodes.specs.Grammar.{node_kind_at, IsWidth, HasRow, body_len};
ghost use Rattle.bti_nodes.specs.Spelling.{kind_of_number};

/// How the children of a node stand.
#[derive(Clone, Copy, Debug, PartialEq, Eq)]
pub enum Shape {
    /// There are none.
    Leaf,
    /// One, whose distance begins in the first byte.
    Short,
    /// One.
    Single,
    /// Bytes in order, then distances.
    Sparse,
    /// A distance for each byte of a range.
    Dense,
}

/// A type of node.
#[derive(Clone, Copy, Debug, PartialEq, Eq)]
pub struct Kind {
    pub shape: Shape,
    /// How many bits a distance has.
    pub width: usize,
}

/// The types by their numbers, from 0 on.
const KINDS: [Kind; 16] = [
    Kind {
        shape: Shape::Leaf,
        width: 0,
    },
    Kind {
        shape: Shape::Short,
        width: 4,
    },
    Kind {
        shape: Shape::Single,
        width: 8,
    },
    Kind {
        shape: Shape::Short,
        width: 12,
    },
    Kind {
        shape: Shape::Single,
        width: 16,
    },
    Kind {
        shape: Shape::Sparse,
        width: 8,
    },
    Kind {
        shape: Shape::Sparse,
        width: 12,
    },
    Kind {
        shape: Shape::Sparse,
        width: 16,
    },
    Kind {
        shape: Shape::Sparse,
        width: 24,
    },
    Kind {
        shape: Shape::Sparse,
        width: 40,
    },
    Kind {
        shape: Shape::Dense,
        width: 12,
    },
    Kind {
        shape: Shape::Dense,
        width: 16,
    },
    Kind {
        shape: Shape::Dense,
        width: 24,
    },
    Kind {
        shape: Shape::Dense,
        width: 32,
    },
    Kind {
        shape: Shape::Dense,
        width: 40,
    },
    Kind {
        shape: Shape::Dense,
        width: 64,
    },
];

/// The type that a node's first byte names, in its high four bits.
pub fn kind_of(bytes: &[u8]) -> Kind
    requires { 0 < length bytes.now }
    ensures kind { result ≡ node_kind_at bytes.now }
    ensures width { IsWidth result.shape result.width }
{
    kind_by(usize::from(bytes[0] >> 4))
}

/// The type of that number.
pub fn kind_by(number: usize) -> Kind
    requires { number < 16 }
    ensures kind { result ≡ kind_of_number number }
    ensures width { IsWidth result.shape result.width }
    ensures row { HasRow result.shape result.width }
    ensures written { number < 15 → result.width ≤ 40 }
{
    KINDS[number]
}

/// How many bytes of a node stand before its payload.
pub fn body_len(kind: Kind, places: usize) -> usize
    requires width { IsWidth kind.shape kind.width }
    requires few { places ≤ 256 }
    ensures value { result ≡ body_len kind.shape kind.width places }
    ensures short { result < 2 ^ 16 }
{
    match kind.shape {
        Shape::Leaf => 1,
        Shape::Short => (4 + kind.width) / 8 + 1,
        Shape::Single => 2 + kind.width / 8,
        Shape::Sparse => 2 + places + (places * kind.width).div_ceil(8),
        Shape::Dense => 3 + (places * kind.width).div_ceil(8),
    }
}
