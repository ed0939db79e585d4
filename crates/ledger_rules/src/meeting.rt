//! Whether the bag meets a rule.

ghost use Rattle.std.specs.Prelude.{◌≡◌, ◌==◌, ◌&&◌, ◌+◌, ◌%◌, ◌≤◌, is_none, length, nat_lt, not, true};
ghost use Rattle.adlb_unit.specs.Ids.{same_unit};
ghost use Rattle.adlb_unit.specs.Permit.{permitted};
ghost use Rattle.adlb_unit.specs.Targets.{home_of};
ghost use Rattle.bag_ledger.specs.Bag.{rank_at, unit_of, part_of, promise_of, putting, keeping, offer, wish, open_call, has_declined, all_declined, charge, is_due, is_free_at, is_placed_at, is_travelling, info_of, has_fit_at};
ghost use Rattle.bag_ledger.specs.Step.{has, fits, is_server, is_closing, is_of, is_pinned, is_pinned_to, is_running, is_travelling_to, trying, counting, fetching, same_info};
ghost use Rattle.bag_ledger.specs.Steps.{has_cause};
ghost use Rattle.ledger_rules.specs.Table.{meets};

use crate::rules::Rule;
use adlb_unit::{BatchId, End, Info, Rank, Server, UnitId, permits};
use bag_ledger::{RankState, Status};
use bag_tables::reading::{
    counting, fetching, is_closing, is_due, is_free_at, is_of, is_over, is_pinned, is_pinned_to,
    is_placed_at, is_travelling, is_travelling_to, offer, open_call, same_info, same_number,
    same_server, same_unit, trying, wish,
};
use ledger_checker::Machine;

/// The bag, as the machine keeps it, meets the rule (`meets`).
pub fn meets(machine: &Machine, rule: Rule) -> bool
    requires { length machine.now.ranks ≤ 32 }
    ensures { result ≡ meets machine.now rule }
{
    match rule {
        Rule::InTurn => !machine.has_due(),
        Rule::InRun(rank) => is_in_run(machine, rank),
        Rule::Runs(rank) => runs(machine, rank),
        Rule::Next(rank, call) => has_next(machine, rank, call),
        Rule::Outside(rank) => is_outside(machine, rank),
        Rule::Within(rank) => is_within(machine, rank),
        Rule::Brings(rank, call) => brings(machine, rank, call),
        Rule::IsServer(server) => machine.is_server(server),
        Rule::Undeclined(rank, server) => is_undeclined(machine, rank, server),
        Rule::Charged(server, used) => is_charged(machine, server, used),
        Rule::TooMuch(rank, used) => is_too_much(machine, rank, used),
        Rule::Puts(id) => puts(machine, id),
        Rule::TakesUnit(server, id) => takes_unit(machine, server, id),
        Rule::AllDeclined(rank) => all_declined(machine, rank),
        Rule::Begins(batch) => begins(machine, batch),
        Rule::TakesCommon(server, batch) => takes_common(machine, server, batch),
        Rule::Ends(batch) => ends(machine, batch),
        Rule::Keeps(server, batch) => keeps(machine, server, batch),
        Rule::Due(batch) => is_due_now(machine, batch),
        Rule::Wants(rank, call) => wants(machine, rank, call),
        Rule::FreeAt(id, server) => is_free(machine, id, server),
        Rule::Permits(rank, id) => is_permitted(machine, rank, id),
        Rule::Tries(rank, call) => tries(machine, rank, call),
        Rule::NoneFits(server, rank) => none_fits(machine, server, rank),
        Rule::PinnedTo(id, rank) => is_pinned_for(machine, id, rank),
        Rule::AwaitsOwn(rank, id) => awaits_own(machine, rank, id),
        Rule::PinnedAt(id, server, rank) => is_pinned_at(machine, id, server, rank),
        Rule::AwaitsCommon(rank, batch) => awaits_common(machine, rank, batch),
        Rule::HasLength(id, n) => has_length(machine, id, n),
        Rule::Stays(id) => stays(machine, id),
        Rule::Elsewhere(id, server) => is_elsewhere(machine, id, server),
        Rule::Unpromised(id) => machine.promise(id).is_none(),
        Rule::Fits(server, n) => has_room(machine, server, n as u64),
        Rule::PromisedAt(id, server) => is_promised(machine, id, server),
        Rule::TravelsTo(id, server) => travels(machine, id, server),
        Rule::Counts(rank, call) => counts(machine, rank, call),
        Rule::IsHome(server, rank) => is_home(machine, server, rank),
        Rule::Tells(server, rank, info) => tells(machine, server, rank, info),
        Rule::Settled => machine.is_settled(),
        Rule::NotExhausted => !machine.exhausted(),
        Rule::IsOpen(rank, call) => is_open(machine, rank, call),
        Rule::HasCause(end) => has_cause(machine, end),
    }
}

// Of a rank.

// The rank is in the run.
fn is_in_run(machine: &Machine, rank: Rank) -> bool
    ensures { result ≡ has (rank_at machine.now rank) (λ r. true) }
{
    machine.rank(rank).is_some()
}

// The rank runs.
fn runs(machine: &Machine, rank: Rank) -> bool
    ensures { result ≡ has (rank_at machine.now rank) (λ r. is_running r.status) }
{
    match machine.rank(rank) {
        None => false,
        Some(r) => matches!(r.status, Status::Running),
    }
}

// The rank's next call has this number.
fn has_next(machine: &Machine, rank: Rank, call: u64) -> bool
    ensures { result ≡ has (rank_at machine.now rank) (λ r. r.next == call) }
{
    match machine.rank(rank) {
        None => false,
        Some(r) => r.next == call,
    }
}

// No batch of the rank goes on.
fn is_outside(machine: &Machine, rank: Rank) -> bool
    ensures { result ≡ has (rank_at machine.now rank) (λ r. is_none r.batch) }
{
    match machine.rank(rank) {
        None => false,
        Some(r) => r.batch.is_none(),
    }
}

// A batch of the rank goes on.
fn is_within(machine: &Machine, rank: Rank) -> bool
    ensures { result ≡ has (rank_at machine.now rank) (λ r. not (is_none r.batch)) }
{
    match machine.rank(rank) {
        None => false,
        Some(r) => !r.batch.is_none(),
    }
}

// The rank brings something in this call.
fn brings(machine: &Machine, rank: Rank, call: u64) -> bool
    ensures { result ≡ has (rank_at machine.now rank) (λ r. has (offer r.status) (λ o. o.0 == call)) }
{
    match machine.rank(rank) {
        None => false,
        Some(r) => match offer(r) {
            None => false,
            Some((pending, _)) => same_number(pending, call),
        },
    }
}

// The server has not declined the rank's call.
fn is_undeclined(machine: &Machine, rank: Rank, server: Server) -> bool
    ensures { result ≡ has (rank_at machine.now rank) (λ r. not (has_declined r server)) }
{
    match machine.rank(rank) {
        None => false,
        Some(r) => !r.declined.has(server),
    }
}

// Each server has declined the rank's call.
fn all_declined(machine: &Machine, rank: Rank) -> bool
    ensures { result ≡ has (rank_at machine.now rank) (all_declined machine.now) }
{
    match machine.rank(rank) {
        None => false,
        Some(r) => r.declined.has_all(machine.servers()),
    }
}

// What the rank brings goes over the limit.
fn is_too_much(machine: &Machine, rank: Rank, used: u64) -> bool
    ensures { result ≡ has (rank_at machine.now rank) (λ r. has (offer r.status) (λ o. nat_lt machine.now.limit (used + o.1))) }
{
    match machine.rank(rank) {
        None => false,
        Some(r) => match offer(r) {
            None => false,
            Some((_, n)) => is_over(machine.limit(), used, n),
        },
    }
}

// The rank reserves or tries in this call.
fn wants(machine: &Machine, rank: Rank, call: u64) -> bool
    ensures { result ≡ has (rank_at machine.now rank) (λ r. has (wish r.status) (λ w. w.0 == call)) }
{
    match machine.rank(rank) {
        None => false,
        Some(r) => match wish(r) {
            None => false,
            Some((pending, _types)) => same_number(pending, call),
        },
    }
}

// The rank tries in this call.
fn tries(machine: &Machine, rank: Rank, call: u64) -> bool
    ensures { result ≡ has (rank_at machine.now rank) (λ r. has (trying r.status) (λ w. w.0 == call)) }
{
    match machine.rank(rank) {
        None => false,
        Some(r) => match trying(r) {
            None => false,
            Some((pending, _types)) => same_number(pending, call),
        },
    }
}

// Nothing that is free at the server is for the rank.
fn none_fits(machine: &Machine, server: Server, rank: Rank) -> bool
    ensures { result ≡ has (rank_at machine.now rank) (λ r. has (trying r.status) (λ w. not (has_fit_at machine.now server rank w.1))) }
{
    match machine.rank(rank) {
        None => false,
        Some(r) => match trying(r) {
            None => false,
            Some((_, types)) => !machine.has_fit_at(server, rank, &types),
        },
    }
}

// The rank counts in this call.
fn counts(machine: &Machine, rank: Rank, call: u64) -> bool
    ensures { result ≡ has (rank_at machine.now rank) (λ r. has (counting r.status) (λ c. c.0 == call)) }
{
    match machine.rank(rank) {
        None => false,
        Some(r) => match counting(r) {
            None => false,
            Some((pending, _)) => same_number(pending, call),
        },
    }
}

// This is what is free at the server of the type.
fn tells(machine: &Machine, server: Server, rank: Rank, info: Info) -> bool
    ensures { result ≡ has (rank_at machine.now rank) (λ r. has (counting r.status) (λ c. same_info info (info_of machine.now server c.1))) }
{
    match machine.rank(rank) {
        None => false,
        Some(r) => match counting(r) {
            None => false,
            Some((_, kind)) => same_info(info, machine.info(server, kind)),
        },
    }
}

// An end can answer the rank's call.
fn is_open(machine: &Machine, rank: Rank, call: u64) -> bool
    ensures { result ≡ has (rank_at machine.now rank) (λ r. has (open_call r.status) (λ c. c == call)) }
{
    match machine.rank(rank) {
        None => false,
        Some(r) => match open_call(r) {
            None => false,
            Some(pending) => same_number(pending, call),
        },
    }
}

// Of a unit that is put, and of a batch.

// The unit is being put.
fn puts(machine: &Machine, id: UnitId) -> bool
    ensures { result ≡ has (rank_at machine.now id.rank) (λ r. has (putting r.status) (λ u. same_unit u.id id)) }
{
    match machine.rank(id.rank) {
        None => false,
        Some(r) => match &r.status {
            Status::Putting { unit } => same_unit(unit.id, id),
            _ => false,
        },
    }
}

// The unit that is put fits at the server.
fn takes_unit(machine: &Machine, server: Server, id: UnitId) -> bool
    ensures { result ≡ has (rank_at machine.now id.rank) (λ r. has (putting r.status) (λ u. is_server machine.now server && fits machine.now server (length u.body))) }
{
    match machine.rank(id.rank) {
        None => false,
        Some(r) => match &r.status {
            Status::Putting { unit } => has_room(machine, server, unit.body.len() as u64),
            _ => false,
        },
    }
}

// The batch is being begun.
fn begins(machine: &Machine, batch: BatchId) -> bool
    ensures { result ≡ has (rank_at machine.now batch.rank) (λ r. has (keeping r.status) (λ k. k.0 == batch.number)) }
{
    match machine.rank(batch.rank) {
        None => false,
        Some(r) => match &r.status {
            Status::Keeping { call, .. } => same_number(*call, batch.number),
            _ => false,
        },
    }
}

// The common part that is brought fits at the server.
fn takes_common(machine: &Machine, server: Server, batch: BatchId) -> bool
    ensures { result ≡ has (rank_at machine.now batch.rank) (λ r. has (keeping r.status) (λ k. is_server machine.now server && fits machine.now server (length k.1))) }
{
    match machine.rank(batch.rank) {
        None => false,
        Some(r) => match &r.status {
            Status::Keeping { common, .. } => has_room(machine, server, common.len() as u64),
            _ => false,
        },
    }
}

// The batch is being ended.
fn ends(machine: &Machine, batch: BatchId) -> bool
    ensures { result ≡ has (rank_at machine.now batch.rank) (λ r. is_closing r.status && is_of batch r.batch) }
{
    match machine.rank(batch.rank) {
        None => false,
        Some(r) => is_closing(r) && is_of(r.batch, batch),
    }
}

// The server keeps the common part.
fn keeps(machine: &Machine, server: Server, batch: BatchId) -> bool
    ensures { result ≡ has (part_of machine.now batch) (λ p. (p.server.0 == server.0) && not p.freed) }
{
    match machine.part(batch) {
        None => false,
        Some(part) => same_server(part.server, server) && !part.freed,
    }
}

// The common part is due.
fn is_due_now(machine: &Machine, batch: BatchId) -> bool
    ensures { result ≡ has (part_of machine.now batch) is_due }
{
    match machine.part(batch) {
        None => false,
        Some(part) => is_due(part),
    }
}

// Of a server.

// The server is charged with this.
fn is_charged(machine: &Machine, server: Server, used: u64) -> bool
    ensures { result ≡ is_server machine.now server && (used == charge machine.now server) }
{
    machine.is_server(server) && machine.is_charge(server, used)
}

// This many bytes fit at the server.
fn has_room(machine: &Machine, server: Server, n: u64) -> bool
    ensures { result ≡ is_server machine.now server && fits machine.now server n }
{
    machine.is_server(server) && machine.fits(server, n)
}

// The server is the rank's home.
fn is_home(machine: &Machine, server: Server, rank: Rank) -> bool
    ensures { result ≡ is_server machine.now server && (server.0 == home_of machine.now.servers rank) }
{
    machine.is_server(server) && server.0 == rank.0 % machine.servers()
}

// The end was brought about.
fn has_cause(machine: &Machine, end: End) -> bool
    ensures { result ≡ has_cause machine.now end }
{
    match end {
        End::NoMoreWork => machine.done(),
        End::Exhausted => machine.exhausted(),
    }
}

// Of a unit.

// The unit is free at the server.
fn is_free(machine: &Machine, id: UnitId, server: Server) -> bool
    ensures { result ≡ has (unit_of machine.now id) (λ u. is_free_at server u.place) }
{
    match machine.unit(id) {
        None => false,
        Some(unit) => is_free_at(unit.place, server),
    }
}

// The rank, which is in this state, wants the unit, and may have it.
fn permitted_with(machine: &Machine, r: &RankState, rank: Rank, id: UnitId) -> bool
    ensures { result ≡ has (wish r.now.status) (λ w. has (unit_of machine.now id) (λ u. permitted rank w.1 u.unit.kind u.unit.target)) }
{
    match (wish(r), machine.unit(id)) {
        (Some((_, types)), Some(u)) => permits(rank, &types, u.unit.kind, u.unit.target),
        _ => false,
    }
}

// The rank wants the unit, and may have it.
fn is_permitted(machine: &Machine, rank: Rank, id: UnitId) -> bool
    ensures { result ≡ has (rank_at machine.now rank) (λ r. has (wish r.status) (λ w. has (unit_of machine.now id) (λ u. permitted rank w.1 u.unit.kind u.unit.target))) }
{
    match machine.rank(rank) {
        None => false,
        Some(r) => permitted_with(machine, r, rank, id),
    }
}

// The unit is pinned to the rank.
fn is_pinned_for(machine: &Machine, id: UnitId, rank: Rank) -> bool
    ensures { result ≡ has (unit_of machine.now id) (λ u. is_pinned_to rank u.place) }
{
    match machine.unit(id) {
        None => false,
        Some(unit) => is_pinned_to(unit.place, rank),
    }
}

// The unit is pinned at the server to the rank.
fn is_pinned_at(machine: &Machine, id: UnitId, server: Server, rank: Rank) -> bool
    ensures { result ≡ has (unit_of machine.now id) (λ u. is_pinned server rank u.place) }
{
    match machine.unit(id) {
        None => false,
        Some(unit) => is_pinned(unit.place, server, rank),
    }
}

// The rank awaits the own bytes of the unit.
fn awaits_own(machine: &Machine, rank: Rank, id: UnitId) -> bool
    ensures { result ≡ has (rank_at machine.now rank) (λ r. has (fetching r.status) (λ f. same_unit f.0 id && not f.1)) }
{
    match machine.rank(rank) {
        None => false,
        Some(r) => match fetching(r) {
            None => false,
            Some((fetched, own)) => same_unit(fetched, id) && !own,
        },
    }
}

// The unit is one of the batch.
fn is_unit_of(machine: &Machine, id: UnitId, batch: BatchId) -> bool
    ensures { result ≡ has (unit_of machine.now id) (λ u. is_of batch u.unit.common) }
{
    match machine.unit(id) {
        None => false,
        Some(unit) => is_of(unit.unit.common, batch),
    }
}

// The rank awaits the common bytes of the batch.
fn awaits_common(machine: &Machine, rank: Rank, batch: BatchId) -> bool
    ensures { result ≡ has (rank_at machine.now rank) (λ r. has (fetching r.status) (λ f. f.1 && has (unit_of machine.now f.0) (λ u. is_of batch u.unit.common))) }
{
    match machine.rank(rank) {
        None => false,
        Some(r) => match fetching(r) {
            None => false,
            Some((fetched, own)) => own && is_unit_of(machine, fetched, batch),
        },
    }
}

// The unit has this many bytes.
fn has_length(machine: &Machine, id: UnitId, n: u32) -> bool
    ensures { result ≡ has (unit_of machine.now id) (λ u. length u.unit.body == n) }
{
    match machine.unit(id) {
        None => false,
        Some(unit) => unit.unit.body.len() == n as usize,
    }
}

// The unit does not travel.
fn stays(machine: &Machine, id: UnitId) -> bool
    ensures { result ≡ has (unit_of machine.now id) (λ u. not (is_travelling u.place)) }
{
    match machine.unit(id) {
        None => false,
        Some(unit) => !is_travelling(unit.place),
    }
}

// The unit is not at the server.
fn is_elsewhere(machine: &Machine, id: UnitId, server: Server) -> bool
    ensures { result ≡ has (unit_of machine.now id) (λ u. not (is_placed_at server u.place)) }
{
    match machine.unit(id) {
        None => false,
        Some(unit) => !is_placed_at(unit.place, server),
    }
}

// The server has promised room for the unit.
fn is_promised(machine: &Machine, id: UnitId, server: Server) -> bool
    ensures { result ≡ has (promise_of machine.now id) (λ p. p.server.0 == server.0) }
{
    match machine.promise(id) {
        None => false,
        Some(promise) => same_server(promise.server, server),
    }
}

// The unit travels to the server.
fn travels(machine: &Machine, id: UnitId, server: Server) -> bool
    ensures { result ≡ has (unit_of machine.now id) (λ u. is_travelling_to server u.place) }
{
    match machine.unit(id) {
        None => false,
        Some(unit) => is_travelling_to(unit.place, server),
    }
}
