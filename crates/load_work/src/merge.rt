//! The answers of all readers, put into the order of the gets.

ghost use Rattle.std.specs.Prelude.{◌≡◌, ◌<◌, ℕ, IfOk, All, Some, length, vec_len, slice_get};
ghost use Rattle.std.specs.Global.{Vec};
ghost use Rattle.load_work.specs.declared.batch.Answer.{Answer};
ghost use Rattle.load_work.specs.Reads.{gets_of};
ghost use Rattle.load_work.specs.Merge.{IsMerge};

use crate::batch::Answer;
use key_types::NoMemory;
use script_text::GetLine;
use std::alloc::Global;

/// The answers of all readers, each of which answered its gets in their order.
///
/// Gets are passed from the last one to the first, so that each answer is the last one that its reader has left.
pub(crate) fn merge(
    alloc: Global,
    gets: &[GetLine],
    lists: Vec<Vec<Answer>>,
) -> Result<Vec<Answer>, NoMemory>
    requires readers { All (λ g. g.reader < vec_len lists) gets.now }
    requires long { (q : ℕ) (list : Vec Answer) → slice_get lists.items q ≡ Some list →
        length list.items ≡ length (gets_of q gets.now) }
    ensures { IfOk result (λ answers. IsMerge gets.now lists.items answers.items) }
{
    let mut lists = lists;
    let mut answers = Vec::new(alloc);
    let mut left = gets.len();
    'gets: while left > 0 {
        left -= 1;
        match lists[gets[left].reader as usize].pop() {
            Some(answer) => answers.push(answer)?,
            None => unreachable!(),
        }
    }
    answers.as_mut_slice().reverse();
    Ok(answers)
}
