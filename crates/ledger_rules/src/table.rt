//! The table: which rules an entry is under.

ghost use Rattle.std.specs.Prelude.{◌≡◌, ◌≤◌, ◌∷◌, [], length};
ghost use Rattle.bag_ledger.specs.declared.entries.Entry.TheVariants.{Refused, Accepted, Rejected, Kept, Closed, Freed, Granted, Looked, NoCurrent, Fetched, CommonFetched, Promised, Left, Arrived, Withdrawn, Counted, Exhausted, Over};
ghost use Rattle.ledger_rules.specs.Table.{beginning, broken, rules_of};

use crate::meeting::meets;
use crate::rules::Rule;
use adlb_unit::{BatchId, End, Info, Rank, Server, UnitId};
use bag_ledger::Entry;
use ledger_checker::Machine;

// The first of these rules that the bag does not meet, if there is one.
fn broken(machine: &Machine, rules: &[Rule]) -> Option<Rule>
    requires { length machine.now.ranks ≤ 32 }
    ensures { result ≡ broken machine.now rules.now }
{
    for rule in rules {
        if !meets(machine, *rule) {
            return Some(*rule);
        }
    }
    None
}

// Of each entry the first of its rules that the bag does not meet.

fn begins(machine: &Machine, rank: Rank, call: u64) -> Option<Rule>
    requires { length machine.now.ranks ≤ 32 }
    ensures { result ≡ broken machine.now (beginning rank call []) }
{
    let rules = [
        Rule::InTurn,
        Rule::InRun(rank),
        Rule::Runs(rank),
        Rule::Next(rank, call),
    ];
    broken(machine, &rules)
}

fn begins_with(machine: &Machine, rank: Rank, call: u64, rule: Rule) -> Option<Rule>
    requires { length machine.now.ranks ≤ 32 }
    ensures { result ≡ broken machine.now (beginning rank call (rule ∷ [])) }
{
    let rules = [
        Rule::InTurn,
        Rule::InRun(rank),
        Rule::Runs(rank),
        Rule::Next(rank, call),
        rule,
    ];
    broken(machine, &rules)
}

fn refused(machine: &Machine, server: Server, id: UnitId, used: u64) -> Option<Rule>
    requires { length machine.now.ranks ≤ 32 }
    ensures { result ≡ broken machine.now (rules_of (Refused server id used)) }
{
    let rules = [
        Rule::InTurn,
        Rule::InRun(id.rank),
        Rule::Brings(id.rank, id.number),
        Rule::IsServer(server),
        Rule::Undeclined(id.rank, server),
        Rule::Charged(server, used),
        Rule::TooMuch(id.rank, used),
    ];
    broken(machine, &rules)
}

fn accepted(machine: &Machine, server: Server, id: UnitId) -> Option<Rule>
    requires { length machine.now.ranks ≤ 32 }
    ensures { result ≡ broken machine.now (rules_of (Accepted server id)) }
{
    let rules = [
        Rule::InTurn,
        Rule::InRun(id.rank),
        Rule::Puts(id),
        Rule::IsServer(server),
        Rule::Undeclined(id.rank, server),
        Rule::TakesUnit(server, id),
    ];
    broken(machine, &rules)
}

fn rejected(machine: &Machine, rank: Rank, call: u64) -> Option<Rule>
    requires { length machine.now.ranks ≤ 32 }
    ensures { result ≡ broken machine.now (rules_of (Rejected rank call)) }
{
    let rules = [
        Rule::InTurn,
        Rule::InRun(rank),
        Rule::Brings(rank, call),
        Rule::AllDeclined(rank),
    ];
    broken(machine, &rules)
}

fn kept(machine: &Machine, server: Server, batch: BatchId) -> Option<Rule>
    requires { length machine.now.ranks ≤ 32 }
    ensures { result ≡ broken machine.now (rules_of (Kept server batch)) }
{
    let rules = [
        Rule::InTurn,
        Rule::InRun(batch.rank),
        Rule::Begins(batch),
        Rule::IsServer(server),
        Rule::Undeclined(batch.rank, server),
        Rule::TakesCommon(server, batch),
    ];
    broken(machine, &rules)
}

fn closed(machine: &Machine, server: Server, batch: BatchId) -> Option<Rule>
    requires { length machine.now.ranks ≤ 32 }
    ensures { result ≡ broken machine.now (rules_of (Closed server batch)) }
{
    let rules = [
        Rule::InTurn,
        Rule::InRun(batch.rank),
        Rule::Ends(batch),
        Rule::IsServer(server),
        Rule::Keeps(server, batch),
    ];
    broken(machine, &rules)
}

fn freed(machine: &Machine, server: Server, batch: BatchId) -> Option<Rule>
    requires { length machine.now.ranks ≤ 32 }
    ensures { result ≡ broken machine.now (rules_of (Freed server batch)) }
{
    let rules = [
        Rule::IsServer(server),
        Rule::Keeps(server, batch),
        Rule::Due(batch),
    ];
    broken(machine, &rules)
}

fn granted(machine: &Machine, server: Server, rank: Rank, call: u64, id: UnitId) -> Option<Rule>
    requires { length machine.now.ranks ≤ 32 }
    ensures { result ≡ broken machine.now (rules_of (Granted server rank call id)) }
{
    let rules = [
        Rule::InTurn,
        Rule::InRun(rank),
        Rule::Wants(rank, call),
        Rule::IsServer(server),
        Rule::FreeAt(id, server),
        Rule::Permits(rank, id),
    ];
    broken(machine, &rules)
}

fn looked(machine: &Machine, server: Server, rank: Rank, call: u64) -> Option<Rule>
    requires { length machine.now.ranks ≤ 32 }
    ensures { result ≡ broken machine.now (rules_of (Looked server rank call)) }
{
    let rules = [
        Rule::InTurn,
        Rule::InRun(rank),
        Rule::Tries(rank, call),
        Rule::IsServer(server),
        Rule::NoneFits(server, rank),
    ];
    broken(machine, &rules)
}

fn gave_up(machine: &Machine, rank: Rank, call: u64) -> Option<Rule>
    requires { length machine.now.ranks ≤ 32 }
    ensures { result ≡ broken machine.now (rules_of (NoCurrent rank call)) }
{
    let rules = [
        Rule::InTurn,
        Rule::InRun(rank),
        Rule::Tries(rank, call),
        Rule::AllDeclined(rank),
    ];
    broken(machine, &rules)
}

fn fetched(machine: &Machine, server: Server, rank: Rank, id: UnitId) -> Option<Rule>
    requires { length machine.now.ranks ≤ 32 }
    ensures { result ≡ broken machine.now (rules_of (Fetched server rank id)) }
{
    let rules = [
        Rule::InTurn,
        Rule::InRun(rank),
        Rule::AwaitsOwn(rank, id),
        Rule::IsServer(server),
        Rule::PinnedAt(id, server, rank),
    ];
    broken(machine, &rules)
}

fn common_fetched(machine: &Machine, server: Server, rank: Rank, batch: BatchId) -> Option<Rule>
    requires { length machine.now.ranks ≤ 32 }
    ensures { result ≡ broken machine.now (rules_of (CommonFetched server rank batch)) }
{
    let rules = [
        Rule::InTurn,
        Rule::InRun(rank),
        Rule::AwaitsCommon(rank, batch),
        Rule::IsServer(server),
        Rule::Keeps(server, batch),
    ];
    broken(machine, &rules)
}

fn promised(machine: &Machine, server: Server, id: UnitId, n: u32) -> Option<Rule>
    requires { length machine.now.ranks ≤ 32 }
    ensures { result ≡ broken machine.now (rules_of (Promised server id n)) }
{
    let rules = [
        Rule::InTurn,
        Rule::HasLength(id, n),
        Rule::IsServer(server),
        Rule::Stays(id),
        Rule::Elsewhere(id, server),
        Rule::Unpromised(id),
        Rule::Fits(server, n),
    ];
    broken(machine, &rules)
}

fn left(machine: &Machine, server: Server, to: Server, id: UnitId) -> Option<Rule>
    requires { length machine.now.ranks ≤ 32 }
    ensures { result ≡ broken machine.now (rules_of (Left server to id)) }
{
    let rules = [
        Rule::InTurn,
        Rule::FreeAt(id, server),
        Rule::IsServer(server),
        Rule::IsServer(to),
        Rule::PromisedAt(id, to),
    ];
    broken(machine, &rules)
}

fn arrived(machine: &Machine, server: Server, id: UnitId) -> Option<Rule>
    requires { length machine.now.ranks ≤ 32 }
    ensures { result ≡ broken machine.now (rules_of (Arrived server id)) }
{
    let rules = [
        Rule::InTurn,
        Rule::TravelsTo(id, server),
        Rule::IsServer(server),
    ];
    broken(machine, &rules)
}

fn withdrawn(machine: &Machine, server: Server, id: UnitId) -> Option<Rule>
    requires { length machine.now.ranks ≤ 32 }
    ensures { result ≡ broken machine.now (rules_of (Withdrawn server id)) }
{
    let rules = [
        Rule::InTurn,
        Rule::Stays(id),
        Rule::IsServer(server),
        Rule::PromisedAt(id, server),
    ];
    broken(machine, &rules)
}

fn counted(machine: &Machine, server: Server, rank: Rank, call: u64, info: Info) -> Option<Rule>
    requires { length machine.now.ranks ≤ 32 }
    ensures { result ≡ broken machine.now (rules_of (Counted server rank call info)) }
{
    let rules = [
        Rule::InTurn,
        Rule::InRun(rank),
        Rule::Counts(rank, call),
        Rule::IsServer(server),
        Rule::IsHome(server, rank),
        Rule::Tells(server, rank, info),
    ];
    broken(machine, &rules)
}

fn exhausted(machine: &Machine) -> Option<Rule>
    requires { length machine.now.ranks ≤ 32 }
    ensures { result ≡ broken machine.now (rules_of Exhausted) }
{
    let rules = [Rule::InTurn, Rule::Settled, Rule::NotExhausted];
    broken(machine, &rules)
}

fn over(machine: &Machine, rank: Rank, call: u64, end: End) -> Option<Rule>
    requires { length machine.now.ranks ≤ 32 }
    ensures { result ≡ broken machine.now (rules_of (Over rank call end)) }
{
    let rules = [
        Rule::InTurn,
        Rule::InRun(rank),
        Rule::IsOpen(rank, call),
        Rule::HasCause(end),
    ];
    broken(machine, &rules)
}

/// The first rule of the entry, in the order of the table, that the bag does not meet (`broken`, `rules_of`); nothing exactly if the
/// entry is a step (`rule_laws`).
pub fn first_broken(machine: &Machine, entry: &Entry) -> Option<Rule>
    requires { length machine.now.ranks ≤ 32 }
    ensures { result ≡ broken machine.now (rules_of entry.now) }
{
    match entry {
        Entry::Putting { rank, call, .. } => begins(machine, *rank, *call),
        Entry::Refused { server, id, used } => refused(machine, *server, *id, *used),
        Entry::Accepted { server, id } => accepted(machine, *server, *id),
        Entry::Rejected { rank, call } => rejected(machine, *rank, *call),
        Entry::Keeping { rank, call, .. } => begins_with(
            machine,
            *rank,
            *call,
            Rule::Outside(*rank),
        ),
        Entry::Kept { server, batch } => kept(machine, *server, *batch),
        Entry::Closing { rank, call } => begins_with(machine, *rank, *call, Rule::Within(*rank)),
        Entry::Closed { server, batch } => closed(machine, *server, *batch),
        Entry::Freed { server, batch } => freed(machine, *server, *batch),
        Entry::Asked { rank, call, .. } => begins(machine, *rank, *call),
        Entry::Tried { rank, call, .. } => begins(machine, *rank, *call),
        Entry::Granted {
            server,
            rank,
            call,
            id,
        } => granted(machine, *server, *rank, *call, *id),
        Entry::Looked { server, rank, call } => looked(machine, *server, *rank, *call),
        Entry::NoCurrent { rank, call } => gave_up(machine, *rank, *call),
        Entry::Fetching { rank, call, id } => begins_with(
            machine,
            *rank,
            *call,
            Rule::PinnedTo(*id, *rank),
        ),
        Entry::Fetched { server, rank, id } => fetched(machine, *server, *rank, *id),
        Entry::CommonFetched {
            server,
            rank,
            batch,
        } => common_fetched(machine, *server, *rank, *batch),
        Entry::Promised { server, id, length } => promised(machine, *server, *id, *length),
        Entry::Left { server, to, id } => left(machine, *server, *to, *id),
        Entry::Arrived { server, id } => arrived(machine, *server, *id),
        Entry::Withdrawn { server, id } => withdrawn(machine, *server, *id),
        Entry::Counting { rank, call, .. } => begins(machine, *rank, *call),
        Entry::Counted {
            server,
            rank,
            call,
            info,
        } => counted(machine, *server, *rank, *call, *info),
        Entry::Done { rank, call } => begins(machine, *rank, *call),
        Entry::Exhausted => exhausted(machine),
        Entry::Over { rank, call, end } => over(machine, *rank, *call, *end),
        Entry::Finished { rank, call } => begins_with(machine, *rank, *call, Rule::Outside(*rank)),
    }
}
