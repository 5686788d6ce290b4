//! Times a round of put, look and take on a board, on one thread and on four.
#![tactic(auto)]

ghost use Rattle.std.specs.Prelude.{◌≡◌, ◌≤◌, ◌<◌};
ghost use Rattle.std.specs.Thread.{IsSync};
ghost use Rattle.ow_board.specs.Board.{IsPassOf, size};

use anyhow::Context;
use ow_board::{Board, Pass, board, is_full};
use std::thread::Threads;
use std::time::{Clock, Duration, Instant};
use std::{env, thread};

/// How many rounds each thread makes, and whether they are timed.
#[derive(Clone, Copy)]
struct Asked {
    rounds: u64,
    timed: bool,
}

/// Makes the rounds on one slot, and counts those whose container was put and taken.
fn work(board: &Board<u64>, mut pass: Pass<u64>, slot: u32, rounds: u64) -> (Pass<u64>, u64)
    requires { IsPassOf board.now pass × (slot < size board.now) }
    ensures { IsPassOf board.now result.0 }
{
    let mut won = 0u64;
    for round in 0..rounds {
        let put = board.put(&mut pass, slot, 1, 5, round).is_ok();
        let seen = board.look(&mut pass, slot);
        if is_full(seen) && board.take(&mut pass, slot, seen).is_ok() && put {
            won = won.wrapping_add(1);
        }
    }
    (pass, won)
}

/// The same in two threads, each on a slot of its own or both on one.
fn two<R: Threads>(
    rt: &R,
    board: &Board<u64>,
    passes: (Pass<u64>, Pass<u64>),
    slots: (u32, u32),
    rounds: u64,
) -> u64
    requires passes { IsPassOf board.now passes.0 × IsPassOf board.now passes.1 }
    requires slots { (slots.0 < size board.now) × (slots.1 < size board.now) }
{
    let (a, b) = passes;
    let (first, second) = slots;
    let (x, y) = thread::join(
        rt,
        move ||
            requires { IsPassOf board.now a × (first < size board.now) }
        { work(board, a, first, rounds).1 },
        move ||
            requires { IsPassOf board.now b × (second < size board.now) }
        { work(board, b, second, rounds).1 },
    );
    x.wrapping_add(y)
}

/// The same in four threads, on slots whose numbers are `apart` apart.
fn four<R: Threads + Sync>(
    rt: &R,
    board: &Board<u64>,
    front: (Pass<u64>, Pass<u64>),
    back: (Pass<u64>, Pass<u64>),
    apart: u32,
    rounds: u64,
) -> u64
    requires front { IsPassOf board.now front.0 × IsPassOf board.now front.1 }
    requires back { IsPassOf board.now back.0 × IsPassOf board.now back.1 }
    requires slots { (apart ≤ 16) × (size board.now ≡ 64) }
{
    let (x, y) = thread::join(
        rt,
        move ||
            requires { IsSync R.row × IsPassOf board.now front.0 × IsPassOf board.now front.1 × (apart ≤ 16) × (size board.now ≡ 64) }
        { two(rt, board, front, (0, apart), rounds) },
        move ||
            requires { IsSync R.row × IsPassOf board.now back.0 × IsPassOf board.now back.1 × (apart ≤ 16) × (size board.now ≡ 64) }
        { two(rt, board, back, (2 * apart, 3 * apart), rounds) },
    );
    x.wrapping_add(y)
}

/// Times four threads on slots whose numbers are `apart` apart.
fn time_four<R: Threads + Print + Clock + Sync>(
    rt: &R,
    board: &Board<u64>,
    pass: &mut Pass<u64>,
    apart: u32,
    asked: Asked,
) -> anyhow::Result<()>
    requires pass { IsPassOf board.now pass.old }
    requires slots { (apart ≤ 16) × (size board.now ≡ 64) }
    ensures { IsPassOf board.now pass.new }
{
    let front = (board.split(pass), board.split(pass));
    let back = (board.split(pass), board.split(pass));
    let start = Instant::now(rt)?;
    let won = four(rt, board, front, back, apart, asked.rounds);
    print!(rt; "four threads, slots {apart} apart: ")?;
    print_rounds(rt, asked, start.elapsed(rt)?, won)
}

/// How many rounds put and took their container, and how long a round of one thread was.
fn print_rounds<R: Print>(rt: &R, asked: Asked, took: Duration, won: u64) -> anyhow::Result<()> {
    if asked.timed {
        let nanos = took.as_nanos() / u128::from(asked.rounds.max(1));
        println!(rt; "{won} rounds won, {nanos} ns each")?;
    } else {
        println!(rt; "{won} rounds won")?;
    }
    Ok(())
}

fn main(rt: HostRuntime) -> anyhow::Result<()> {
    let mut words = env::args(&rt)?.skip(1);
    let rounds = words.next().context("say how many rounds")?.parse::<u64>()?;
    let timed = words.next().is_none();
    let asked = Asked { rounds, timed };
    let (board, pass) = board::<u64>(rt.alloc(), 64)?;
    let start = Instant::now(&rt)?;
    let (mut pass, won) = work(&board, pass, 0, rounds);
    print!(rt; "one thread: ")?;
    print_rounds(&rt, asked, start.elapsed(&rt)?, won)?;
    time_four(&rt, &board, &mut pass, 16, asked)?;
    time_four(&rt, &board, &mut pass, 1, asked)?;
    if timed {
        time_four(&rt, &board, &mut pass, 0, asked)?;
    }
    Ok(())
}
