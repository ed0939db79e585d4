//! What is counted of the free units of a type.

ghost use Rattle.std.specs.Prelude.{◌≡◌, ◌<◌, ◌≤◌, ◌+◌, ◌^◌, length, not, int_lt, true, false};
ghost use Rattle.std.specs.List.Sorted.{IsPartitionPoint};
ghost use Rattle.adlb_unit.specs.Infos.{info_of_prios};
ghost use Rattle.work_queue.specs.inside.Counting.{run_with};
ghost use Rattle.work_queue.specs.inside.Index.{IsInOrder, as_high, prios_in};

use crate::entries::{Entry, run_comes_first};
use crate::indexing::run_at;
use crate::parted::Parted;
use adlb_unit::{Info, WorkType};

// How many entries are of an earlier run, or of this run and of no lower priority than its first.
fn top_end(entries: &Parted<Entry>, first: &Entry) -> usize
    requires { IsInOrder entries.now.items }
    ensures within { result ≤ length entries.now.items }
    ensures point { IsPartitionPoint (λ x. as_high first.now x ≡ true) (λ x. as_high first.now x ≡ false) entries.now.items result }
{
    entries.partition_point(|x| run_comes_first(x, first, !(x.prio < first.prio)))
}

// `n` more units are counted, of which `at` have the highest priority of them, that of `first`.
fn with_run(info: Info, n: u64, first: &Entry, at: u64) -> Info
    requires free { info.free + n < 2 ^ 64 }
    requires at_top { info.at_top ≤ info.free }
    requires at { at ≤ n }
    ensures { result ≡ run_with info n first.now.prio at }
{
    let free = info.free + n;
    let prio = first.prio;
    let only = Info {
        free,
        top: Some(prio),
        at_top: at,
    };
    let Some(top) = info.top else {
        return only;
    };
    if top < prio {
        return only;
    }
    Info {
        free,
        top: Some(top),
        at_top: if prio < top {
            info.at_top
        } else {
            info.at_top + at
        },
    }
}

// What is counted of the entries of the type: each run is counted by the places where it and its highest priority end.
pub(crate) fn count_kind(entries: &Parted<Entry>, kind: WorkType) -> Info
    requires { IsInOrder entries.now.items }
    ensures { result ≡ info_of_prios (prios_in kind entries.now.items) }
{
    let mut info = Info {
        free: 0,
        top: None,
        at_top: 0,
    };
    let mut place = 0;
    while place < entries.len() {
        let run = run_at(entries, place);
        if run.first.kind == kind {
            let top = top_end(entries, &run.first).min(run.end);
            info = with_run(
                info,
                (run.end - place) as u64,
                &run.first,
                (top - place) as u64,
            );
        }
        place = run.end;
    }
    info
}
