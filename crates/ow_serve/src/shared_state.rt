// What all threads share.
ghost use Rattle.std.specs.Prelude.{◌≡◌, ◌≤◌};
ghost use Rattle.ow_board.specs.Board.{size};

use ow_board::Board;
use ow_desk::Desk;
use ow_http::Routes;
use ow_traits::Keeper;
use std::sync::Mutex;
use std::sync::atomic::{AtomicBool, Ordering};

/// How many slots the board has: those of the greatest pool.
pub(crate) const SLOTS: u32 = 512;

/// The hall in its lock, the board, the routes by which connections read requests, and whether workers, sweeper and reaper are to end.
#[derive(Drop)]
pub(crate) struct SharedState<P: Keeper + Drop, B: Drop> {
    pub(crate) desk: Mutex<Desk<P>>,
    pub(crate) board: Board<B>,
    pub(crate) routes: Routes,
    over: AtomicBool,
    ghost wide: { 512 ≤ size board },
}

impl<P: Keeper + Drop, B: Drop> SharedState<P, B> {
    /// Nobody is to end yet.
    pub(crate) fn new(desk: Desk<P>, board: Board<B>, routes: Routes) -> SharedState<P, B>
        requires { 512 ≤ size board }
        ensures { result.board ≡ board }
    {
        SharedState {
            desk: Mutex::new(desk),
            board,
            routes,
            over: AtomicBool::new(false),
        }
    }

    /// Whether the threads that aren't connections are to end.
    pub(crate) fn is_over(&self) -> bool {
        self.over.load(Ordering::SeqCst)
    }

    /// They are to end once they have read it.
    pub(crate) fn end(&self) {
        self.over.store(true, Ordering::SeqCst);
    }
}

impl<P: Keeper + Drop, B: Drop> SharedState<P, B> {
    /// The desk, which nobody locks any more.
    pub(crate) fn into_desk(self) -> Desk<P> {
        let SharedState { desk, .. } = self;
        desk.into_inner()
    }
}
