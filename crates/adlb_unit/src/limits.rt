//! The limits of a run's numbers.

ghost use Rattle.std.specs.Prelude.{◌≡◌};
ghost use Rattle.adlb_unit.specs.Limits.{body_limit, rank_limit, server_limit, stamp_limit, type_limit};

/// Stamps are below this number.
pub const STAMP_LIMIT: u64 = 1 << 48;

/// A unit's own bytes are at most this many.
pub const BODY_LIMIT: usize = 1 << 20;

/// A run has at most this many ranks.
pub const RANK_LIMIT: u32 = 32;

/// A run has at most this many servers.
pub const SERVER_LIMIT: u32 = 8;

/// A list of types has at most this many.
pub const TYPE_LIMIT: usize = 16;

/// The constants are the numbers of `specs/Limits.antt`.
pub fn limits_as_stated()
    ensures stamp { STAMP_LIMIT ≡ stamp_limit }
    ensures body { BODY_LIMIT ≡ body_limit }
    ensures rank { RANK_LIMIT ≡ rank_limit }
    ensures server { SERVER_LIMIT ≡ server_limit }
    ensures types { TYPE_LIMIT ≡ type_limit }
{}
