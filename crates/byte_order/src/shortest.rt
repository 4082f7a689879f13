//! Shortest unique prefixes and separators of byte strings, after the keys of Cassandra's BTI indexes. The index writers
//! call these for each key, so strings are compared a word at a time.
ghost use Rattle.std.specs.Prelude.{◌≡◌, ◌≢◌, ◌≤◌, ◌<◌, [], length, option_copied, slice_index, take, IfSome, MatchOption};
ghost use Rattle.std.specs.declared.cmp.Ordering.TheVariants.{Less};
ghost use Rattle.key_types.specs.Table.{string_cmp};
ghost use Rattle.byte_order.specs.Strings.{Differ, IsSeparatorLength, IsUniqueLength, neighbours, separator_size, unique_size};

/// How many bytes a word has.
const WORD: usize = 8;

/// A number of words that both strings have at their front, in bytes: the most of them.
fn shared_words(a: &[u8], b: &[u8]) -> usize
    ensures shared { take result a.now ≡ take result b.now }
    ensures most { (result ≤ length a.now) × (result ≤ length b.now) }
{
    let mut at = 0;
    'words: while a.len() - at >= WORD && b.len() - at >= WORD {
        if a[at..at + WORD] != b[at..at + WORD] {
            break;
        }
        at += WORD;
    }
    at
}

/// How many bytes both strings have at their front.
fn shared_len(a: &[u8], b: &[u8]) -> usize
    ensures shared { take result a.now ≡ take result b.now }
    ensures most { (result ≤ length a.now) × (result ≤ length b.now) }
    ensures differ { result < length a.now → result < length b.now → slice_index a.now result ≢ slice_index b.now result }
{
    let mut at = shared_words(a, b);
    'bytes: while at < a.len() && at < b.len() && a[at] == b[at] {
        at += 1;
    }
    at
}

/// The length of the shortest prefix of the key, of at least one byte, that is a prefix of neither neighbour.
pub fn unique_len(prev: Option<&[u8]>, key: &[u8], next: Option<&[u8]>) -> usize
    requires some { key.now ≢ [] }
    requires before { IfSome prev (λ prev. Differ prev.now key.now) }
    requires behind { IfSome next (λ next. Differ key.now next.now) }
    ensures shortest { IsUniqueLength key.now (neighbours (option_copied prev.entry) (option_copied next.entry)) result }
    ensures size { result ≡ unique_size (option_copied prev.entry) key.now (option_copied next.entry) }
{
    let before = match prev {
        Some(prev) => shared_len(prev, key),
        None => 0,
    };
    let behind = match next {
        Some(next) => shared_len(key, next),
        None => 0,
    };
    before.max(behind) + 1
}

/// The length of the shortest prefix of `next` that is above `prev`, which is below `next`.
pub fn separator_len(prev: &[u8], next: &[u8]) -> usize
    requires { string_cmp prev.now next.now ≡ Less }
    ensures shortest { IsSeparatorLength prev.now next.now result }
    ensures size { result ≡ separator_size prev.now next.now }
{
    shared_len(prev, next) + 1
}
