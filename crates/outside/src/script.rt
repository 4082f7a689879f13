//! The scripted failures of what stands in memory for the outside: which call fails, and how much it keeps.
ghost use Rattle.std.specs.Prelude.{◌≡◌};
ghost use Rattle.outside.specs.Script.{kept_by};

/// A call that fails, and how much of its piece it keeps: the call with this number, counted from 1, keeps the first
/// `keep` bytes, or the whole piece where it is shorter.
#[derive(Clone, Copy, Debug, PartialEq, Eq)]
pub struct Fail {
    pub call: u64,
    pub keep: u32,
}

/// How many bytes the call keeps, where it is to fail. Where two entries name it, the first one counts.
pub fn kept_by(fails: &[Fail], call: u64) -> Option<u32>
    ensures { result ≡ kept_by fails.now call }
{
    let mut rest = fails;
    'fails: while let [fail, after @ ..] = rest {
        if fail.call == call {
            return Some(fail.keep);
        }
        rest = after;
    }
    None
}
