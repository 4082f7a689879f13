//! The footer of the partition index: the file's last bytes, which say where the trie's root stands, and the first
//! and the last partition's string before them. A table is opened with it.
ghost use Rattle.std.specs.Prelude.{◌≡◌, ◌≤◌, ◌<◌, ◌++◌, ◌⊎◌, ◌↔◌, length, List, ℕ, IfSome, IsNone, IsTrue};
ghost use Rattle.key_types.specs.Columns.{columns_of};
ghost use Rattle.index_files.specs.Footers.{footer_numbers, AreStrings, EndsIn, EndsInNone, IsSoundFooter};

use byteorder::{BigEndian, ByteOrder};
use key_decode::is_partition_string;
use key_types::Schema;
use length_prefix::counted;

/// How many bytes the numbers of a footer have.
const NUMBERS: usize = 24;

/// The numbers of a footer: where its strings begin, how many partitions there are, and where the trie's root stands.
#[derive(Clone, Copy, Debug, PartialEq, Eq)]
pub struct FooterNumbers {
    pub strings: u64,
    pub partitions: u64,
    pub root: u64,
}

/// A footer where its bytes stand: the first and the last partition's string, and the numbers.
#[derive(Clone, Copy, Debug)]
pub struct FooterParts<'b> {
    pub first: &'b [u8],
    pub last: &'b [u8],
    pub numbers: FooterNumbers,
}

/// The numbers that the bytes spell.
fn footer_numbers(bytes: &[u8]) -> FooterNumbers
    requires { 24 ≤ length bytes.now }
    ensures { result ≡ footer_numbers bytes.now }
{
    FooterNumbers {
        strings: BigEndian::read_u64(bytes),
        partitions: BigEndian::read_u64(&bytes[8..]),
        root: BigEndian::read_u64(&bytes[16..]),
    }
}

/// Whether a footer may have these strings and numbers: those of no partition at all, or of some.
fn is_sound(schema: &Schema, first: &[u8], last: &[u8], numbers: FooterNumbers) -> bool
    ensures { IsTrue result ↔ IsSoundFooter (columns_of schema.now) first.now last.now numbers }
{
    if numbers.partitions == 0 {
        return numbers.root == 0 && numbers.strings == 0 && first.is_empty() && last.is_empty();
    }
    0 < numbers.root
        && numbers.root < numbers.strings
        && is_partition_string(schema, first)
        && is_partition_string(schema, last)
}

/// The strings at the end of those bytes, from that place on, where two strings fill them.
fn strings_in(bytes: &[u8], from: u64) -> Option<(&[u8], &[u8])>
    ensures some { IfSome result (λ p. AreStrings bytes.now from p.0.now p.1.now) }
    ensures none { IsNone result → (first last : List ℕ) → AreStrings bytes.now from first last → ⊥ }
{
    if from > bytes.len() as u64 {
        return None;
    }
    let (_, strings) = bytes.split_at(from as usize);
    let (first, rest) = counted(strings)?;
    let (last, rest) = counted(rest)?;
    if !rest.is_empty() {
        return None;
    }
    Some((first, last))
}

/// The footer of a partition index of which these are the last bytes, from a position on: all of it, or more than two
/// strings and the numbers can have. `None` exactly where it has no footer.
pub fn footer_in<'b>(schema: &Schema, tail: &'b [u8], start: u64) -> Option<FooterParts<'b>>
    requires whole { 28 ≤ length tail.now }
    requires enough { (start ≡ 0) ⊎ (2076 ≤ length tail.now) }
    ensures some { IfSome result (λ f. EndsIn (columns_of schema.now) start tail.now f.first.now f.last.now f.numbers) }
    ensures none { IsNone result → EndsInNone (columns_of schema.now) start tail.now }
{
    let (front, numbers) = tail.split_at(tail.len() - NUMBERS);
    let numbers = footer_numbers(numbers);
    if numbers.strings < start {
        return None;
    }
    let (first, last) = strings_in(front, numbers.strings - start)?;
    if !is_sound(schema, first, last, numbers) {
        return None;
    }
    Some(FooterParts {
        first,
        last,
        numbers,
    })
}
