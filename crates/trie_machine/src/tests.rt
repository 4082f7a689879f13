//! Worked rows: scripts of puts and events, with what each of them answers.
use crate::{Bad, BeginError, Event, Machine, Outcome};
use key_types::{KeyBytes, NoMemory};
use std::alloc::Global;
use std::process::Abort;
use std::test::Fail;
use trie_image::Rec;

/// A step of a script. Events are those of reader 0 where none is named.
#[derive(Clone, Copy)]
enum Step<'a> {
    /// The writer gets a put.
    Begin(&'a [u8], &'a [u8]),
    /// The put under way makes all its stores; the answer is that of the last one.
    Run,
    /// A find of the key begins.
    Front(&'a [u8]),
    Load,
    Copy(Rec, u32),
    Finish,
    Split(u32),
    Join(u32, u32),
}

/// What a step answers.
#[derive(Clone, Copy, PartialEq, Eq, Debug)]
enum Answer {
    Begun(Result<(), BeginError>),
    Made(Result<Outcome, Bad>),
}

const BEGUN: Answer = Answer::Begun(Ok(()));

const MOVED: Answer = Answer::Made(Ok(Outcome::Moved));

fn made(outcome: Outcome) -> Answer {
    Answer::Made(Ok(outcome))
}

fn not_enabled(events: u64) -> Answer {
    Answer::Made(Err(Bad::NotEnabled(events)))
}

fn found(rec: Rec, at: u64) -> Answer {
    made(Outcome::Found { hit: Some(rec), at })
}

/// Makes all stores of the put under way.
fn run(machine: &mut Machine, alloc: Global) -> Answer {
    for _ in 0..1000 {
        if machine.apply(alloc, Event::Prepare).is_err() {
            break;
        }
    }
    let published = machine.apply(alloc, Event::Publish);
    if published.is_err() {
        return Answer::Made(published);
    }
    Answer::Made(machine.apply(alloc, Event::Finish))
}

fn begin(
    rt: &impl Abort,
    machine: &mut Machine,
    alloc: Global,
    key: &[u8],
    value: &[u8],
) -> Answer {
    assert!(rt; !key.is_empty() && key.len() <= 2048 && value.len() <= 65_535);
    Answer::Begun(machine.begin(alloc, key, value))
}

fn front(machine: &mut Machine, alloc: Global, bytes: &[u8]) -> Result<Answer, NoMemory> {
    let mut key = KeyBytes::new(alloc);
    key.extend(bytes)?;
    let front = Event::Front { reader: 0, key };
    Ok(Answer::Made(machine.apply(alloc, front)))
}

fn take(
    rt: &impl Abort,
    machine: &mut Machine,
    alloc: Global,
    step: Step,
) -> Result<Answer, NoMemory> {
    let event = match step {
        Step::Begin(key, value) => return Ok(begin(rt, machine, alloc, key, value)),
        Step::Run => return Ok(run(machine, alloc)),
        Step::Front(key) => return front(machine, alloc, key),
        Step::Load => Event::Load { reader: 0 },
        Step::Copy(rec, word) => Event::Copy {
            reader: 0,
            rec,
            word,
        },
        Step::Finish => Event::Finish,
        Step::Split(from) => Event::Split { from },
        Step::Join(from, into) => Event::Join { from, into },
    };
    Ok(Answer::Made(machine.apply(alloc, event)))
}

/// Plays a script on a new machine of 1,024 cells with one reader, and compares each answer.
fn play(rt: &impl Abort, alloc: Global, script: &[(Step, Answer)]) -> Result<(), NoMemory> {
    let mut machine = Machine::new(alloc, 1024, 1)?;
    for (step, answer) in script {
        let is = take(rt, &mut machine, alloc, *step)?;
        assert_eq!(rt; is, *answer);
    }
    Ok(())
}

#[test]
fn refused_events(rt: HostRuntime) -> Result<(), Fail> {
    let script = [
        (Step::Load, not_enabled(0)),
        (Step::Finish, not_enabled(0)),
        (Step::Split(0), made(Outcome::Reader(1))),
        (Step::Join(1, 1), not_enabled(1)),
        (Step::Join(1, 0), made(Outcome::Quiet)),
    ];
    play(&rt, rt.alloc(), &script)?;
    Ok(())
}

#[test]
fn one_put_at_a_time(rt: HostRuntime) -> Result<(), Fail> {
    let script = [
        (Step::Begin(b"a", b""), BEGUN),
        (
            Step::Begin(b"b", b""),
            Answer::Begun(Err(BeginError::Busy(1))),
        ),
        (Step::Run, made(Outcome::Finished(1))),
        (Step::Begin(b"b", b""), BEGUN),
    ];
    play(&rt, rt.alloc(), &script)?;
    Ok(())
}

#[test]
fn find_in_replaced_node(rt: HostRuntime) -> Result<(), Fail> {
    let first = Rec {
        cell: 1,
        number: 1,
        length: 1,
    };
    let script = [
        (Step::Begin(b"a", b"1"), BEGUN),
        (Step::Run, made(Outcome::Finished(1))),
        (Step::Begin(b"b", b"2"), BEGUN),
        (Step::Run, made(Outcome::Finished(2))),
        (Step::Begin(b"c", b"3"), BEGUN),
        (Step::Run, made(Outcome::Finished(3))),
        (Step::Begin(b"d", b"4"), BEGUN),
        (Step::Run, made(Outcome::Finished(4))),
        (Step::Begin(b"e", b"5"), BEGUN),
        (Step::Run, made(Outcome::Finished(5))),
        (Step::Begin(b"f", b"6"), BEGUN),
        (Step::Run, made(Outcome::Finished(6))),
        (Step::Front(b"a"), made(Outcome::Front(6))),
        (Step::Load, MOVED),
        (Step::Load, MOVED),
        (Step::Begin(b"g", b"7"), BEGUN),
        (Step::Run, made(Outcome::Finished(7))),
        (Step::Begin(b"a", b"9"), BEGUN),
        (Step::Run, made(Outcome::Finished(8))),
        (Step::Load, MOVED),
        (Step::Load, found(first, 6)),
        (Step::Copy(first, 0), made(Outcome::Word(0x31))),
        (Step::Copy(first, 1), not_enabled(78)),
    ];
    play(&rt, rt.alloc(), &script)?;
    Ok(())
}

#[test]
fn find_of_a_key_that_another_begins(rt: HostRuntime) -> Result<(), Fail> {
    let second = Rec {
        cell: 3,
        number: 2,
        length: 1,
    };
    let script = [
        (Step::Begin(b"a", b"1"), BEGUN),
        (Step::Run, made(Outcome::Finished(1))),
        (Step::Front(b"ab"), made(Outcome::Front(1))),
        (Step::Load, MOVED),
        (Step::Begin(b"ab", b"2"), BEGUN),
        (Step::Run, made(Outcome::Finished(2))),
        (Step::Load, MOVED),
        (Step::Load, MOVED),
        (Step::Load, MOVED),
        (Step::Load, found(second, 2)),
    ];
    play(&rt, rt.alloc(), &script)?;
    Ok(())
}
