ghost use Rattle.std.specs.Prelude.{◌≡◌, ◌<◌};
ghost use Rattle.std.specs.Thread.{IsSync};
ghost use Rattle.ow_board.specs.Board.{size, IsPassOf};

use crate::{Board, Gone, Left, Pass, Taken, board, generation_of, is_full, second_of};
use std::alloc::{AllocError, Global};
use std::process::Abort;
use std::test::Fail;
use std::thread;
use std::thread::Threads;
use std::time::Instant;

const SLOTS: u32 = 4;

const TRIES: u64 = 5_000;

// What a thread put on a board and took from it. Containers are numbers, each put once.
#[derive(Drop)]
struct Tally {
    put: Vec<u64>,
    taken: Vec<u64>,
}

// The next choice of a linear congruence.
fn choice(state: &mut u64, below: u32) -> u32
    requires { 0 < below }
    ensures { result < below }
{
    *state = state
        .wrapping_mul(6_364_136_223_846_793_005)
        .wrapping_add(1_442_695_040_888_963_407);
    ((*state >> 33) % u64::from(below)) as u32
}

fn work(
    board: &Board<u64>,
    mut pass: Pass<u64>,
    alloc: Global,
    worker: u64,
    seed: u64,
) -> Result<Tally, AllocError>
    requires board { IsPassOf board.now pass × (size board.now ≡ 4) }
    requires worker { worker < 4 }
{
    let mut tally = Tally {
        put: Vec::new(alloc),
        taken: Vec::new(alloc),
    };
    let mut state = seed;
    for round in 0..TRIES {
        let slot = choice(&mut state, SLOTS);
        if choice(&mut state, 2) == 0 {
            let container = 4 * round + worker;
            if board.put(&mut pass, slot, 1, 0, container).is_ok() {
                tally.put.push(container)?;
            }
            continue;
        }
        let seen = board.look(&mut pass, slot);
        if is_full(seen) {
            if let Ok(container) = board.take(&mut pass, slot, seen) {
                tally.taken.push(container)?;
            }
        }
    }
    Ok(tally)
}

type Outcome = Result<Tally, AllocError>;

fn two<R: Threads>(
    rt: &R,
    alloc: Global,
    board: &Board<u64>,
    passes: (Pass<u64>, Pass<u64>),
    worker: u64,
    seed: u64,
) -> (Outcome, Outcome)
    requires passes { IsPassOf board.now passes.0 × IsPassOf board.now passes.1 }
    requires slots { size board.now ≡ 4 }
    requires worker { worker < 3 }
{
    let (a, b) = passes;
    thread::join(
        rt,
        move ||
            requires { IsPassOf board.now a × (size board.now ≡ 4) × (worker < 3) }
        { work(board, a, alloc, worker, seed ^ worker) },
        move ||
            requires { IsPassOf board.now b × (size board.now ≡ 4) × (worker < 3) }
        { work(board, b, alloc, worker + 1, seed ^ (worker + 1)) },
    )
}

fn four<R: Threads + Sync>(
    rt: &R,
    alloc: Global,
    board: &Board<u64>,
    front: (Pass<u64>, Pass<u64>),
    back: (Pass<u64>, Pass<u64>),
    seed: u64,
) -> ((Outcome, Outcome), (Outcome, Outcome))
    requires front { IsPassOf board.now front.0 × IsPassOf board.now front.1 }
    requires back { IsPassOf board.now back.0 × IsPassOf board.now back.1 }
    requires slots { size board.now ≡ 4 }
{
    thread::join(
        rt,
        move ||
            requires { IsSync R.row × IsPassOf board.now front.0 × IsPassOf board.now front.1 × (size board.now ≡ 4) }
        { two(rt, alloc, board, front, 0, seed) },
        move ||
            requires { IsSync R.row × IsPassOf board.now back.0 × IsPassOf board.now back.1 × (size board.now ≡ 4) }
        { two(rt, alloc, board, back, 2, seed) },
    )
}

fn gather(put: &mut Vec<u64>, found: &mut Vec<u64>, tally: Tally) -> Result<(), AllocError> {
    put.extend_from_slice(tally.put.as_slice())?;
    found.extend_from_slice(tally.taken.as_slice())
}

// Four threads over one board, and then each container that was put was taken once or is left. How many were taken.
fn contest<R: Threads + Abort + Sync>(
    rt: &R,
    alloc: Global,
    seed: u64,
) -> Result<usize, AllocError> {
    let (board, mut pass) = board::<u64>(alloc, SLOTS)?;
    let front = (board.split(&mut pass), board.split(&mut pass));
    let back = (board.split(&mut pass), board.split(&mut pass));
    let ((a, b), (c, d)) = four(rt, alloc, &board, front, back, seed);
    let mut put = Vec::new(alloc);
    let mut found = Vec::new(alloc);
    gather(&mut put, &mut found, a?)?;
    gather(&mut put, &mut found, b?)?;
    gather(&mut put, &mut found, c?)?;
    gather(&mut put, &mut found, d?)?;
    let taken = found.len();
    let Ok(Left { slots }) = board.close(alloc, pass) else {
        return Err(AllocError);
    };
    for container in slots.into_iter().flatten() {
        found.push(container)?;
    }
    put.sort()?;
    found.sort()?;
    assert!(rt; put.as_slice() == found.as_slice(), "the seed was {seed}");
    Ok(taken)
}

#[test]
fn four_threads_take_each_container_once(rt: HostRuntime) -> Result<(), Fail> {
    let start = Instant::now(&rt)?;
    let mut taken = 0usize;
    for seed in 0..1_000_000u64 {
        if start.elapsed(&rt)?.as_secs() >= 2 {
            break;
        }
        taken = taken.saturating_add(contest(&rt, rt.alloc(), seed << 3)?);
    }
    assert!(rt; taken > 0);
    Ok(())
}

#[test]
fn two_passes_share_a_board(rt: HostRuntime) -> Result<(), Fail> {
    let (board, mut pass) = board::<u64>(rt.alloc(), 2)?;
    let mut other = board.split(&mut pass);
    assert!(rt; board.put(&mut pass, 0, 1, 5, 77).is_ok());
    let earlier = board.look(&mut other, 0);
    assert!(rt; is_full(earlier));
    let Err(Taken { word, container }) = board.put(&mut pass, 0, 2, 6, 78) else {
        panic!(rt; "the slot was full")
    };
    assert_eq!(rt; (word, container), (21_474_836_486, 78));
    let seen = board.look(&mut pass, 0);
    assert!(rt; is_full(seen));
    assert_eq!(rt; (seen, earlier), (21_474_836_486, 21_474_836_486));
    assert_eq!(rt; (generation_of(seen), second_of(seen)), (1, 5));
    let Ok(77) = board.take(&mut pass, 0, seen) else {
        panic!(rt; "the container was there")
    };
    let Err(Gone { word: 0 }) = board.take(&mut other, 0, earlier) else {
        panic!(rt; "the container was gone")
    };
    assert!(rt; board.put(&mut other, 1, 1, 4_294_967_295, 79).is_ok());
    board.join(&mut pass, other);
    assert_eq!(rt; board.look(&mut pass, 1), 18_446_744_069_414_584_326);
    let Ok(Left { slots }) = board.close(rt.alloc(), pass) else {
        panic!(rt; "there was memory")
    };
    assert!(rt; slots.as_slice() == [None, Some(79)].as_slice());
    Ok(())
}
