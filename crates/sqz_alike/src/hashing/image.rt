//! The digest of an image.

ghost use Rattle.std.specs.Prelude.{◌≡◌, IfOk};
ghost use Rattle.sha2.specs.Sha256.{sha256};
ghost use Rattle.sqz_alike.specs.Seen.{seen};
ghost use Rattle.sqz_alike.specs.Written.{written};

use crate::hashing::object::hash_object;
use crate::hashing::walk::Walk;
use sha2::{Digest, Sha256};
use sqz_trace::Live;
use std::alloc::{AllocError, Global};

/// Returns the SHA-256 of the live objects of an image, written down as a breadth-first walk from
/// the special objects array finds them. Alike images have the same digest.
///
/// Runs in time and memory linear in the objects. Fails only if out of memory.
pub fn digest(alloc: Global, live: &Live<'_>) -> Result<[u8; 32], AllocError>
    ensures { IfOk result (λ digest. digest ≡ sha256 (written (seen live.now))) }
{
    let mut walk = Walk::of(alloc, live)?;
    let mut hasher = Sha256::new();
    let mut next = 0;
    while next < walk.found.len() {
        let object = walk.found[next];
        hash_object(live, object, &mut walk, &mut hasher)?;
        next += 1;
    }
    Ok(hasher.finalize())
}
