//! The pieces of a body.

ghost use Rattle.std.specs.Prelude.{◌≡◌, ◌++◌, OnOk, length};

use adlb_unit::{NoMemory, or_no_memory};

/// Appends the piece. Its only error is `NoMemory`.
pub(crate) fn append(bytes: &mut Vec<u8>, piece: &[u8]) -> Result<(), NoMemory>
    ensures { OnOk result (bytes.new.items ≡ bytes.old.items ++ piece.now) }
{
    or_no_memory(bytes.extend_from_slice(piece))
}

/// The bytes in place.
pub(crate) fn array_of<const N: usize>(bytes: &[u8]) -> [u8; N]
    requires { length bytes.now ≡ N }
    ensures { result ≡ bytes.now }
{
    let mut array = [0u8; N];
    array.copy_from_slice(bytes);
    array
}
