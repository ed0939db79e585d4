//! Ranks and servers in threads in which an actor fails.
//!
//! A server breaks at each letter, while ranks wait, work and finish: each of the others hears what it should and no
//! more, and the letter is not in the journal. A rank fails while its batch is going on: it tells each server once, and
//! sends nothing else. Each start of a thread is refused in turn, and all that were started have ended. Whole runs in
//! which ranks fail end with that. No allocation fails here: a letter whose stamp is the last that is given makes its
//! receiver's next one too late.

mod batches;
mod broken;
mod scenes;
mod starts;
mod wholes;
