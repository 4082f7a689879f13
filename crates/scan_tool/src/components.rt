//! Lists of leading components from the front of bytes: as many as stand there, at most one of each type. The text of
//! a bound is made of two. The first number that passes its type is marked, and read on as 0.
ghost use Rattle.grammar.specs.Code.{Gives};
ghost use Rattle.key_types.specs.Kinds.{kinds_of, values_of};
ghost use Rattle.scan_tool.specs.Bounds.{further_at, leading_at, leading_list, perhaps_list};

use grammar::{Stop, read_sign};
use key_text::read_marked;
use key_types::{TypeList, ValueList};
use std::alloc::Global;

/// Components with a comma before each.
fn read_further<'a>(
    alloc: Global,
    kinds: &TypeList,
    out_of_range: &mut Option<usize>,
    bytes: &'a [u8],
) -> Result<(ValueList, &'a [u8]), Stop>
    ensures { Gives (λ x. ((values_of x.0, out_of_range.new), x.1.now)) result
        (further_at (kinds_of kinds.now) out_of_range.old bytes.now) }
{
    match (kinds, bytes) {
        (TypeList::More(kind, kinds), [b',', ..]) => {
            let rest = read_sign(b',', bytes)?;
            let (value, rest) = read_marked(alloc, kind, out_of_range, rest)?;
            let (values, rest) = read_further(alloc, kinds, out_of_range, rest)?;
            let values = ValueList::More(Box::new(alloc, value)?, Box::new(alloc, values)?);
            Ok((values, rest))
        }
        _ => Ok((ValueList::End, bytes)),
    }
}

/// Components with a comma between each two.
fn read_leading<'a>(
    alloc: Global,
    kinds: &TypeList,
    out_of_range: &mut Option<usize>,
    bytes: &'a [u8],
) -> Result<(ValueList, &'a [u8]), Stop>
    ensures { Gives (λ x. ((values_of x.0, out_of_range.new), x.1.now)) result
        (leading_at (kinds_of kinds.now) out_of_range.old bytes.now) }
{
    match (kinds, bytes) {
        (TypeList::End, _) | (_, [b')', ..]) => Ok((ValueList::End, bytes)),
        (TypeList::More(kind, kinds), _) => {
            let (value, rest) = read_marked(alloc, kind, out_of_range, bytes)?;
            let (values, rest) = read_further(alloc, kinds, out_of_range, rest)?;
            let values = ValueList::More(Box::new(alloc, value)?, Box::new(alloc, values)?);
            Ok((values, rest))
        }
    }
}

/// Components in parentheses.
pub fn read_list<'a>(
    alloc: Global,
    kinds: &TypeList,
    out_of_range: &mut Option<usize>,
    bytes: &'a [u8],
) -> Result<(ValueList, &'a [u8]), Stop>
    ensures { Gives (λ x. ((values_of x.0, out_of_range.new), x.1.now)) result
        (leading_list (kinds_of kinds.now) out_of_range.old bytes.now) }
{
    let rest = read_sign(b'(', bytes)?;
    let (values, rest) = read_leading(alloc, kinds, out_of_range, rest)?;
    let rest = read_sign(b')', rest)?;
    Ok((values, rest))
}

/// Components in parentheses where a list stands, and else none.
pub fn read_perhaps<'a>(
    alloc: Global,
    kinds: &TypeList,
    out_of_range: &mut Option<usize>,
    bytes: &'a [u8],
) -> Result<(ValueList, &'a [u8]), Stop>
    ensures { Gives (λ x. ((values_of x.0, out_of_range.new), x.1.now)) result
        (perhaps_list (kinds_of kinds.now) out_of_range.old bytes.now) }
{
    match bytes {
        [b'(', ..] => read_list(alloc, kinds, out_of_range, bytes),
        _ => Ok((ValueList::End, bytes)),
    }
}
