//! The numbers of a run.

ghost use Rattle.std.specs.Prelude.{◌≡◌, ◌^◌};

/// The numbers of a run. Those that are allowed are 1 to 32 ranks, 1 to 8 servers, and a limit of 64 to `2^30` bytes.
#[derive(Clone, Copy, Debug, PartialEq, Eq)]
pub struct Settings {
    /// How many ranks work.
    pub ranks: u32,
    /// How many servers keep the units.
    pub servers: u32,
    /// How many bytes of units a server takes at most. A unit that no server takes is worked by the rank that made it.
    pub limit: u64,
}

impl Settings {
    /// These numbers of ranks and servers, and a limit of `2^26` bytes.
    pub fn new(ranks: u32, servers: u32) -> Settings
        ensures ranks { result.ranks ≡ ranks }
        ensures servers { result.servers ≡ servers }
        ensures limit { result.limit ≡ 2 ^ 26 }
    {
        Settings {
            ranks,
            servers,
            limit: 1 << 26,
        }
    }
}

impl Default for Settings {
    /// Four ranks and two servers, and a limit of `2^26` bytes.
    fn default() -> Settings {
        Settings::new(4, 2)
    }
}
