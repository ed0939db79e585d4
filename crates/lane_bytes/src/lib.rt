//! Kernels over the lanes of `std::simd`: how many bytes lie in a range, their sum and the greatest of them.
//!
//!     let vowels = count_range(b"abcabc", b'a', b'a'); // 2
//!     let sum = sum_bytes(b"abcabc"); // 588
//!     let most = max_byte(b"abcabc"); // 99
//!
//! It stands on nothing else of the workspace. `specs/Answers.antt` says what the kernels answer. Each reads whole lanes
//! while there are enough elements, and the rest one by one.
#![tactic(auto)]

mod counting;
mod greatest;
mod summing;

pub use counting::count_range;
pub use greatest::max_byte;
pub use summing::sum_bytes;

/// The number of bytes that are read at a time.
pub(crate) const LANES: usize = 32;
