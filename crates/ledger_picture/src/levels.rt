//! What a server holds: its charge, and how many units are free at it.

use adlb_unit::Server;
use bag_ledger::Entry;
use ledger_checker::Machine;

/// The server whose charge or free units the entry may change.
pub(crate) fn keeper_of(entry: &Entry) -> Option<Server> {
    match entry {
        Entry::Accepted { server, .. } => Some(*server),
        Entry::Kept { server, .. } => Some(*server),
        Entry::Freed { server, .. } => Some(*server),
        Entry::Granted { server, .. } => Some(*server),
        Entry::Fetched { server, .. } => Some(*server),
        Entry::CommonFetched { server, .. } => Some(*server),
        Entry::Promised { server, .. } => Some(*server),
        Entry::Left { server, .. } => Some(*server),
        Entry::Arrived { server, .. } => Some(*server),
        Entry::Withdrawn { server, .. } => Some(*server),
        _ => None,
    }
}

/// How many units are free at that server after the entry, from how many were before.
pub(crate) fn free_after(free: u64, entry: &Entry) -> u64 {
    match entry {
        Entry::Accepted { .. } => free.saturating_add(1),
        Entry::Arrived { .. } => free.saturating_add(1),
        Entry::Granted { .. } => free.saturating_sub(1),
        Entry::Left { .. } => free.saturating_sub(1),
        _ => free,
    }
}

/// The server's charge.
pub(crate) fn charge_of(machine: &Machine, server: Server) -> u64 {
    if !machine.is_server(server) {
        return 0;
    }
    let limit = machine.limit();
    match machine.left_of(server, limit) {
        Some(left) => limit.saturating_sub(left),
        None => limit,
    }
}
