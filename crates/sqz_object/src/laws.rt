//! Laws of the definitions. Each is the contract of a function that does nothing.

ghost use Rattle.std.specs.Prelude.{◌≡◌};
ghost use Rattle.sqz_object.specs.Bytes.{number_of, bytes_of};

use crate::order::Order;

/// Encoding the word that four bytes encode gives those four bytes again.
pub fn four_bytes(order: Order, bytes: [u8; 4])
    ensures { bytes_of order (number_of order bytes) ≡ bytes }
{}
