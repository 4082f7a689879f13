//! All runs of a command in which one call fails: the first, the second, and so on until none is left to fail.
use crate::judged::{are_undisturbed, suits};
use crate::trial::{Command, Failing, Files, Left, run_failing};
use crate::trial_error::TrialError;
use outside::Fail;
use std::alloc::Global;
use std::thread::Threads;

/// No command here makes so many calls.
const MOST_CALLS: u64 = 1_000;

/// A failing append or push keeps nothing, a byte, or its whole piece.
const KEEPS: [u32; 3] = [0, 1, u32::MAX];

/// How many runs had a fault, and how many of them left what they may not.
#[derive(Clone, Copy, PartialEq, Eq)]
pub struct Score {
    pub runs: u32,
    pub bad: u32,
}

/// A command over files, and what it leaves where nothing fails.
#[derive(Drop)]
pub struct Undisturbed<'u> {
    pub command: Command<'u>,
    pub before: &'u Files,
    pub whole: Left,
}

impl<'u> Undisturbed<'u> {
    /// Runs the command while nothing fails.
    pub fn new<R: Threads + Sync>(
        rt: &R,
        alloc: Global,
        command: Command<'u>,
        before: &'u Files,
    ) -> Result<Undisturbed<'u>, TrialError> {
        let whole = run_failing(rt, alloc, command, before, Failing::Nothing)?;
        Ok(Undisturbed {
            command,
            before,
            whole,
        })
    }

    /// Lets one call fail, and answers whether it was made.
    fn fail_one<R: Threads + Sync>(
        &self,
        rt: &R,
        alloc: Global,
        failing: Failing,
        score: &mut Score,
    ) -> Result<bool, TrialError> {
        let left = run_failing(rt, alloc, self.command, self.before, failing)?;
        if are_undisturbed(&left, &self.whole) {
            return Ok(false);
        }
        score.runs = score.runs.saturating_add(1);
        if !suits(failing, &left, &self.whole, self.before) {
            score.bad = score.bad.saturating_add(1);
        }
        Ok(true)
    }

    /// Lets each call of one kind fail, where `failing` names the call by its number.
    fn fail_calls<R: Threads + Sync>(
        &self,
        rt: &R,
        alloc: Global,
        kind: CallKind,
        score: &mut Score,
    ) -> Result<(), TrialError> {
        for call in 1..MOST_CALLS {
            if !self.fail_one(rt, alloc, kind.failing(call), score)? {
                break;
            }
        }
        Ok(())
    }

    /// Lets each call of each kind fail in turn.
    pub fn fail_each<R: Threads + Sync>(&self, rt: &R, alloc: Global) -> Result<Score, TrialError> {
        let mut score = Score { runs: 0, bad: 0 };
        self.fail_calls(rt, alloc, CallKind::Pull, &mut score)?;
        for keep in KEEPS {
            self.fail_calls(rt, alloc, CallKind::Push(keep), &mut score)?;
            self.fail_calls(rt, alloc, CallKind::OfStore(keep), &mut score)?;
        }
        Ok(score)
    }
}

/// A kind of call, and how many bytes a failing one keeps.
#[derive(Clone, Copy)]
enum CallKind {
    Pull,
    Push(u32),
    OfStore(u32),
}

impl CallKind {
    fn failing(self, call: u64) -> Failing {
        match self {
            CallKind::Pull => Failing::Source(call),
            CallKind::Push(keep) => Failing::Sink(Fail { call, keep }),
            CallKind::OfStore(keep) => Failing::Store(Fail { call, keep }),
        }
    }
}
