//! How a command ends.

ghost use Rattle.std.specs.Prelude.{◌≡◌};
ghost use Rattle.run_command.specs.Kept.{Kept};

use crate::faults::RunFault;
use crate::reasons::Reason;
use adlb_unit::Config;
use flow_app::FlowOutcome;
use job_report::Outcome;
use ledger_rules::Complaint;
use packed_ledger::Ledger;
use run_command::{Ended, Fault, Kept};
use tour_app::TourOutcome;

/// What is kept of a run, by what its ranks ran.
#[derive(Drop)]
pub enum AnyKept {
    /// Puzzles and batches of items.
    Puzzles(Kept<Outcome>),
    /// Tours through cities.
    Tours(Kept<TourOutcome>),
    /// The rules of a flow.
    Flows(Kept<FlowOutcome>),
}

/// What a rank of some kind of program leaves.
pub trait Left {
    ghost use Rattle.command_ends.specs.declared.ends.AnyKept.{AnyKept};

    // What is kept of a run, among all that a command keeps.
    ghost holds: { Kept Self → AnyKept };

    /// What is kept of a run, among all that a command keeps (`holds`).
    fn any(kept: Kept<Self>) -> AnyKept
        ensures { result ≡ holds kept };
}

impl Left for Outcome {
    ghost use Rattle.command_ends.specs.declared.ends.AnyKept.TheVariants.{Puzzles};

    ghost holds = { Puzzles };

    fn any(kept: Kept<Outcome>) -> AnyKept
        ensures { result ≡ Puzzles kept }
    {
        AnyKept::Puzzles(kept)
    }
}

impl Left for TourOutcome {
    ghost use Rattle.command_ends.specs.declared.ends.AnyKept.TheVariants.{Tours};

    ghost holds = { Tours };

    fn any(kept: Kept<TourOutcome>) -> AnyKept
        ensures { result ≡ Tours kept }
    {
        AnyKept::Tours(kept)
    }
}

impl Left for FlowOutcome {
    ghost use Rattle.command_ends.specs.declared.ends.AnyKept.TheVariants.{Flows};

    ghost holds = { Flows };

    fn any(kept: Kept<FlowOutcome>) -> AnyKept
        ensures { result ≡ Flows kept }
    {
        AnyKept::Flows(kept)
    }
}

impl AnyKept {
    ghost use Rattle.command_ends.specs.Ends.{config_kept, ledger_kept};

    /// The configuration of the run.
    pub fn config(&self) -> Config
        ensures { result ≡ config_kept self.now }
    {
        match self {
            AnyKept::Puzzles(kept) => kept.report().config,
            AnyKept::Tours(kept) => kept.report().config,
            AnyKept::Flows(kept) => kept.report().config,
        }
    }

    /// The ledger of the run.
    pub fn ledger(&self) -> &Ledger
        ensures { result.now ≡ ledger_kept self.now }
    {
        match self {
            AnyKept::Puzzles(kept) => &kept.report().ledger,
            AnyKept::Tours(kept) => &kept.report().ledger,
            AnyKept::Flows(kept) => &kept.report().ledger,
        }
    }
}

/// How a command ended: its exit status, why it did not write its whole output, if so, and what it kept of a run.
/// Something is kept if some of the output was written, or if a write failed. After a check it has what is wrong with
/// the ledger, if anything is.
#[derive(Drop)]
pub struct RunEnd {
    pub status: u8,
    pub fault: Option<RunFault>,
    pub kept: Option<AnyKept>,
    pub complaint: Option<Complaint>,
}

impl RunEnd {
    ghost use Rattle.std.specs.Prelude.{None, option_map};
    ghost use Rattle.command_ends.specs.Ends.{fault_run, status_of};

    /// The end of a command with this fault, if there is one, which keeps nothing.
    pub fn new(fault: Option<RunFault>) -> RunEnd
        ensures status { result.status ≡ status_of fault }
        ensures fault { result.fault ≡ fault }
        ensures kept { result.kept ≡ None }
    {
        RunEnd {
            status: RunEnd::status_of(fault),
            fault,
            kept: None,
            complaint: None,
        }
    }

    /// The end of a check with no fault, which found this wrong with the ledger, if anything.
    pub fn complaining(complaint: Option<Complaint>) -> RunEnd
        ensures status { result.status ≡ status_of None }
        ensures fault { result.fault ≡ None }
        ensures kept { result.kept ≡ None }
        ensures complaint { result.complaint ≡ complaint }
    {
        RunEnd {
            status: 0,
            fault: None,
            kept: None,
            complaint,
        }
    }

    /// The end of a command that ran ranks over an input, as its run ended.
    pub fn of<W: Reason, O: Left>(ended: Ended<W, O>) -> RunEnd
        ensures status { result.status ≡ status_of result.fault }
        ensures fault { result.fault ≡ option_map (fault_run W.means) ended.fault }
        ensures kept { result.kept ≡ option_map O.holds ended.kept }
    {
        let Ended { fault, kept } = ended;
        let fault = RunEnd::fault_of(fault);
        RunEnd {
            status: RunEnd::status_of(fault),
            fault,
            kept: RunEnd::kept_of(kept),
            complaint: None,
        }
    }

    // What is kept of a run, if anything is.
    fn kept_of<O: Left>(kept: Option<Kept<O>>) -> Option<AnyKept>
        ensures { result ≡ option_map O.holds kept }
    {
        match kept {
            None => None,
            Some(kept) => Some(O::any(kept)),
        }
    }

    // The fault of a run, as that of a command.
    fn fault_of<W: Reason>(met: Option<Fault<W>>) -> Option<RunFault>
        ensures { result ≡ option_map (fault_run W.means) met }
    {
        match met {
            None => None,
            Some(met) => Some(RunFault::from(met)),
        }
    }

    // The exit status of an end with this fault, if there is one.
    fn status_of(fault: Option<RunFault>) -> u8
        ensures { result ≡ status_of fault }
    {
        match &fault {
            None => 0,
            Some(fault) => fault.status(),
        }
    }
}
