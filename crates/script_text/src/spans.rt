//! Where the puts and gets of a batch stand in its buffer, and what a batch lends of them.
//!
//! `batch` keeps the spans, and they always lie in its buffer; what is lent is public. The strings of a key stand one
//! behind the other, and the value of a put behind them.
ghost use Rattle.std.specs.Prelude.{◌≡◌, ◌≤◌, ◌+◌, ◌++◌, length};
ghost use Rattle.script_text.specs.Pieces.{piece_from, put_in, get_in, PutLies, GetLies, LendsPut, LendsGet};

/// Where the strings of a key stand.
#[derive(Clone, Copy, Debug)]
pub struct KeySpan {
    pub start: usize,
    /// The length of the partition's string.
    pub partition: u16,
    /// The length of the string within the partition.
    pub clustering: u16,
}

/// Where a put stands.
#[derive(Clone, Copy, Debug)]
pub struct PutSpan {
    pub key: KeySpan,
    pub line: u32,
    /// The length of the value.
    pub value: u16,
}

/// Where a get stands.
#[derive(Clone, Copy, Debug)]
pub struct GetSpan {
    pub key: KeySpan,
    pub line: u32,
    pub reader: u32,
}

/// A row, or the static value of a partition, that a line puts.
#[derive(Clone, Copy, Debug)]
pub struct PutLine<'a> {
    /// The number of the line, counted from 1.
    pub line: u32,
    /// The string of the partition.
    pub partition: &'a [u8],
    /// The string of the partition, and behind it that of the row within it. A static value's is that of its partition.
    pub key: &'a [u8],
    /// The bytes of the value, a text or a blob.
    pub value: &'a [u8],
}

/// A row, or the static value of a partition, that a line asks for.
#[derive(Clone, Copy, Debug)]
pub struct GetLine<'a> {
    /// The number of the line, counted from 1.
    pub line: u32,
    /// The number of the reader that it goes to, counted from 0.
    pub reader: u32,
    /// The string of the partition.
    pub partition: &'a [u8],
    /// The string of the partition, and behind it that of the row within it. A static value's is that of its partition.
    pub key: &'a [u8],
}

/// So many bytes from a place on.
fn piece(buffer: &[u8], start: usize, count: usize) -> &[u8]
    requires { start + count ≤ length buffer.now }
    ensures { result.now ≡ piece_from start count buffer.now }
{
    let (_, rest) = buffer.split_at(start);
    let (piece, _) = rest.split_at(count);
    piece
}

/// The put that stands there.
pub fn lend_put(buffer: &[u8], span: PutSpan) -> PutLine<'_>
    requires { PutLies (length buffer.now) span }
    ensures { LendsPut result (put_in buffer.now span) }
{
    let KeySpan {
        start,
        partition,
        clustering,
    } = span.key;
    let key = usize::from(partition) + usize::from(clustering);
    PutLine {
        line: span.line,
        partition: piece(buffer, start, usize::from(partition)),
        key: piece(buffer, start, key),
        value: piece(buffer, start + key, usize::from(span.value)),
    }
}

/// The get that stands there.
pub fn lend_get(buffer: &[u8], span: GetSpan) -> GetLine<'_>
    requires { GetLies (length buffer.now) span }
    ensures { LendsGet result (get_in buffer.now span) }
{
    let KeySpan {
        start,
        partition,
        clustering,
    } = span.key;
    GetLine {
        line: span.line,
        reader: span.reader,
        partition: piece(buffer, start, usize::from(partition)),
        key: piece(
            buffer,
            start,
            usize::from(partition) + usize::from(clustering),
        ),
    }
}
