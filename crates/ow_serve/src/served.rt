// The result of a service.
ghost use Rattle.std.specs.Prelude.{◌≡◌, [], None};

use ow_audit::Difference;
use ow_desk::Receipts;
use ow_hall::Book;
use ow_peer::Ending;
use ow_traits::Keeper;
use ow_value::Str;
use std::alloc::Global;

/// How a service ended.
#[derive(Drop)]
pub enum ServedEnd {
    /// No peer will come any more, or as many came as were to be accepted, and all that was accepted has ended.
    Closed,
    /// The listener failed. All that was accepted has ended.
    ListenFault,
    /// No thread was available for a worker, the sweeper or the reaper. No peer was accepted.
    NoWorker,
    /// The store failed at the opening.
    StoreFault,
    /// The kept rows are not allowed: the first bad one has this key.
    BadKept(Str),
    /// No memory was left. Peers may have been served, and threads may go on; book, receipts and endings are left out.
    NoMemory,
    /// The receipts aren't the book.
    Unmatched(Difference),
}

/// The result of a service, and what it leaves.
#[derive(Drop)]
pub struct Served<P: Keeper + Drop> {
    /// How it ended.
    pub end: ServedEnd,
    /// The store, where it could be taken out of what the threads shared.
    pub store: Option<P>,
    /// The book as it was when all threads had ended.
    pub book: Option<Book>,
    /// The receipts of the service itself, which hold the opening and the drains; the receipts of the peers, in the order in which they
    /// were
    /// accepted; and the receipts of workers, sweeper and reaper.
    pub receipts: Vec<Receipts<P>>,
    /// How the connections of the peers ended, in the same order.
    pub endings: Vec<Ending>,
    /// By how much the count of the listener's faults rose.
    pub listener_faults: u64,
    /// How many duties got no thread.
    pub spawner_faults: u64,
}

/// It ends so, and leaves neither a book nor receipts.
pub(crate) fn nothing<P: Keeper + Drop>(
    alloc: Global,
    end: ServedEnd,
    store: Option<P>,
) -> Served<P>
    ensures end { result.end ≡ end }
    ensures store { result.store ≡ store }
    ensures book { result.book ≡ None }
    ensures receipts { result.receipts.items ≡ [] }
    ensures endings { result.endings.items ≡ [] }
    ensures counts { (result.listener_faults ≡ 0) × (result.spawner_faults ≡ 0) }
{
    Served {
        end,
        store,
        book: None,
        receipts: Vec::new(alloc),
        endings: Vec::new(alloc),
        listener_faults: 0,
        spawner_faults: 0,
    }
}
