//! What is charged to each server.

ghost use Rattle.std.specs.Prelude.{◌≡◌, ◌+◌, ◌<◌, ◌≤◌, ◌^◌, ℕ, MatchOption, Some};
ghost use Rattle.bag_tables.specs.Charges.{bytes_at, charged_at};

use adlb_unit::Server;

/// The bytes that are charged to each server of a run, which has at most 8.
#[derive(Drop)]
pub struct Charges {
    sums: [u128; 8],
}

impl Charges {
    /// Nothing is charged.
    pub fn new() -> Charges
        ensures { (k : ℕ) → charged_at result k ≡ 0 }
    {
        Charges { sums: [0; 8] }
    }

    /// What is charged to the server.
    pub fn at(&self, server: Server) -> u128
        requires { server.0 < 8 }
        ensures { result ≡ charged_at self.now server.0 }
    {
        self.sums[server.0 as usize]
    }

    /// Moves a charge of `n` bytes from one server to another; `None` is no server.
    pub fn shift(&mut self, from: Option<Server>, to: Option<Server>, n: u64)
        requires held { (k : ℕ) → k < 8 → bytes_at from k n ≤ charged_at self.old k }
        requires room { (k : ℕ) → k < 8 → charged_at self.old k + n < 2 ^ 128 }
        ensures { (k : ℕ) → k < 8 → charged_at self.new k + bytes_at from k n ≡ charged_at self.old k + bytes_at to k n }
    {
        if let Some(server) = from {
            self.lower(server, n);
        }
        if let Some(server) = to {
            self.raise(server, n);
        }
    }

    fn lower(&mut self, server: Server, n: u64)
        requires { (k : ℕ) → k < 8 → bytes_at (Some server) k n ≤ charged_at self.old k }
        ensures { (k : ℕ) → k < 8 → charged_at self.new k + bytes_at (Some server) k n ≡ charged_at self.old k }
    {
        let at = server.0 as usize;
        if at < 8 {
            self.sums[at] -= n as u128;
        }
    }

    fn raise(&mut self, server: Server, n: u64)
        requires { (k : ℕ) → k < 8 → charged_at self.old k + n < 2 ^ 128 }
        ensures { (k : ℕ) → k < 8 → charged_at self.new k ≡ charged_at self.old k + bytes_at (Some server) k n }
    {
        let at = server.0 as usize;
        if at < 8 {
            self.sums[at] += n as u128;
        }
    }
}

// What is left of the room below what is charged to the server.
pub(crate) fn left_of(charges: &Charges, server: Server, room: u64) -> Option<u64>
    requires { server.0 < 8 }
    ensures { MatchOption result (room < charged_at charges.now server.0) (λ left. left + charged_at charges.now server.0 ≡ room) }
{
    let used = charges.at(server);
    if used > room as u128 {
        return None;
    }
    Some(room - used as u64)
}
