//! Laws of the definitions. Each is the contract of a function that changes nothing.

ghost use Rattle.std.specs.Prelude.{◌≡◌, ◌↔◌, ℕ, ◌<◌, ◌^◌, length, slice_index};
ghost use Rattle.std.specs.List.{concat};
ghost use Rattle.sqz_image.specs.Objects.{object_count};
ghost use Rattle.sqz_alike.specs.Alike.{AreAlike};
ghost use Rattle.sqz_alike.specs.Seen.{seen};
ghost use Rattle.sqz_alike.specs.Written.{written};

use sqz_image::Heap;
use sqz_image::laws::heap_bounds;
use sqz_trace::Live;

/// Two images are alike exactly if they are written down as the same bytes. So alike images have
/// the same digest, and images with the same digest are alike unless SHA-256 collides.
pub fn alike_images_have_one_digest(one: &Live<'_>, other: &Live<'_>)
    ensures { ∥ AreAlike (seen one.now) (seen other.now) ∥₁
        ↔ (written (seen one.now) ≡ written (seen other.now)) }
{
    word_bounds(one.graph.heap);
    word_bounds(other.graph.heap);
}

/// There are fewer than 2^30 objects and fewer than 2^30 data words, and each word has 32 bits. The
/// call reads the words for their proof alone: each word that is read has 32 bits.
fn word_bounds(heap: &Heap)
    ensures objects { object_count heap.now < 2 ^ 30 }
    ensures few { length (concat heap.now.chunks) < 2 ^ 30 }
    ensures words { (k : ℕ) → slice_index (concat heap.now.chunks) k < 2 ^ 32 }
{
    heap_bounds(heap); // fewer than 2^30 objects
    let words = heap.data();
    for k in 0..words.len() {
        let _word = words.at(k);
    }
}
