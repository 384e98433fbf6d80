//! Words that are hashed.

ghost use Rattle.std.specs.Prelude.{[], ◌∷◌};
ghost use Rattle.sqz_object.specs.Bytes.{bytes_of, spelling_of};
ghost use Rattle.sqz_object.specs.declared.order.Order.TheVariants.{Little};
ghost use Rattle.sqz_alike.specs.Hashing.{Takes};

use sha2::{Digest, Sha256};
use sqz_object::{Order, WordList, put_word};

/// Hashes words as four bytes each.
pub(crate) fn hash_words<W: WordList>(words: &W, order: Order, hasher: &mut Sha256)
    ensures { Takes hasher.old hasher.new (spelling_of order (W.words words.now)) }
{
    for k in 0..words.count() {
        hash_word(words.word(k), order, hasher);
    }
}

/// Hashes two words as four bytes each, the lowest byte first.
pub(crate) fn hash_pair(first: u32, second: u32, hasher: &mut Sha256)
    ensures { Takes hasher.old hasher.new (spelling_of Little (first ∷ second ∷ [])) }
{
    hash_word(first, Order::Little, hasher);
    hash_word(second, Order::Little, hasher);
}

/// Hashes a word as four bytes.
fn hash_word(word: u32, order: Order, hasher: &mut Sha256)
    ensures { Takes hasher.old hasher.new (bytes_of order word) }
{
    let bytes = put_word(order, word);
    hasher.update(bytes);
}
