//! Who takes part in a run.

use crate::names::{Rank, Server};

/// A rank or a server. In order each rank comes before each server, and then the lower number before the higher.
#[derive(Clone, Copy, Debug, PartialEq, Eq)]
pub enum Actor {
    Rank(Rank),
    Server(Server),
}
