//! What a server keeps besides its queue, and what its calls do with it: pushes, the ranks that wait, and common parts.
//!
//! **Puts and pushes.** A server whose charge is near its limit pushes a unit to another server where there is room. It asks that
//! server for room; the answer is a promise of room, or no. After a promise it sends the unit, or a cancel if the unit was granted
//! meanwhile, and the other server acknowledges either. A server has at most one push as sender. `specs/Put.antt` says what each
//! answer to a put means, `specs/Pushes.antt` what a push is, when one begins and what each call makes of it.
//!
//! **Ranks that wait.** A server is the home of some ranks. A rank that reserves at its home is parked there if no free unit is
//! permitted to it. Its home asks the other servers one after the other, in ring order, and while one has not answered the rank gets
//! nothing else. After each answer without a unit, the home looks at its own queue again, then asks the next server; after the last
//! the rank is idle. A server that had no unit for another home's rank keeps a wish. When a unit becomes free there for which no rank
//! waits, the wish is taken off, and a hint goes to the rank's home, which asks that server again. `specs/Parked.antt` says what
//! waits, `specs/Grants.antt` what is granted, and `specs/Calls.antt` what each call makes of both. What is granted is the best unit
//! (`grant_laws`). No free unit lies for an idle rank (`parked_laws`), or for a rank that waits elsewhere and has a wish
//! (`wish_laws`). `specs/Rest.antt` has the words of the latter two.
//!
//! **Common parts** of batches are the bytes that all units of a batch share, held once. They count against the limit of the queue.
//! `specs/Store.antt` says what a store is, what each call makes of it, and when a part is due to be freed. That is exactly if its
//! batch is closed and it was fetched as often as units of the batch were accepted. `batch_laws` says this of the definitions.
//!
//! All three stand on the queue of `work_queue`, and know nothing of each other.
#![tactic(auto)]

mod granting;
mod hinting;
mod laws;
mod offering;
mod parking;
mod part_laws;
mod parts;
mod promising;
mod pushing;
mod putting;
mod reserving;
mod ring;
mod standing;
mod steps;
mod stores;
mod tables;
mod waits;
mod wishes;

pub use laws::{grant_laws, parked_laws, wish_laws};
pub use parking::Parked;
pub use part_laws::batch_laws;
pub use parts::Part;
pub use promising::push_query;
pub use pushing::{Push, PushQuery, PushState};
pub use putting::{PutStep, put};
pub use ring::ToAsk;
pub use steps::ReserveStep;
pub use stores::BatchStore;
pub use waits::Waiting;
pub use wishes::Wish;
