//! The numbers of a picture.

ghost use Rattle.std.specs.Prelude.{◌≡◌, ◌↔◌, IfSome, None};
ghost use Rattle.bag_ledger.specs.Bag.{start};
ghost use Rattle.bag_ledger.specs.Runs.{IsFirstIllegal, IsLegal};
ghost use Rattle.ledger_picture.specs.Numbers.{IsNumbersOf};

use adlb_unit::Config;
use ledger_rules::Complaint;
use packed_ledger::Ledger;

/// What a picture says of its ledger: how many ranks, servers and entries it has, and the place, from 0, of the first
/// entry that is no step, if any. The picture has a lane for each rank and each server.
#[derive(Clone, Copy)]
pub struct Numbers {
    pub ranks: u32,
    pub servers: u32,
    pub entries: u64,
    pub illegal: Option<u64>,
}

impl Numbers {
    /// The numbers of this ledger, of which this is wrong, if anything is.
    pub(crate) fn of(config: &Config, ledger: &Ledger, complaint: &Option<Complaint>) -> Numbers
        requires none { (complaint.now ≡ None) ↔ IsLegal config.now ledger.now }
        requires least { IfSome complaint.now (λ c. IsFirstIllegal (start config.now) ledger.now c.place) }
        ensures { IsNumbersOf config.now ledger.now result }
    {
        let illegal = match complaint {
            Some(complaint) => Some(complaint.place),
            None => None,
        };
        Numbers {
            ranks: config.ranks,
            servers: config.servers,
            entries: ledger.len(),
            illegal,
        }
    }

    /// How many entries are drawn: those up to the first that is no step, and that one. One at least, since a picture has a column.
    pub(crate) fn shown(self) -> u64 {
        match self.illegal {
            Some(place) => place.saturating_add(1),
            None => self.entries.max(1),
        }
    }
}
