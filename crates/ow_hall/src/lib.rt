#![tactic(auto)]

//! The controller: rows and floor, and one book of all that was asked and answered.
mod book;
mod bytes;
mod entry;
mod fronts;
mod hall;
mod known;
mod laws;
mod opening;
mod openings;
mod places;
mod posting;
mod refusals;
mod state;
mod store_answer;
mod views;

pub use book::Book;
pub use entry::{Entries, Entry};
pub use fronts::{
    answered_in, collected_in, drain_in, fired_in, order_in, reply_in, reply_of, store_fired,
    swept_in,
};
pub use hall::{Hall, Undone, unanswered};
pub use laws::{
    legal_books_keep_activations, legal_books_keep_limits, legal_books_keep_steps,
    stops_leave_whole_calls,
};
pub use posting::{Posting, posting_of};
pub use refusals::{Reopened, StartFault, StartRefusal, SweepRefusal};
