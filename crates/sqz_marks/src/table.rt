//! The lock-free mark table that workers share.
//!
//! A rule of `atomic_table` sees only words and views. If a step needs another number (the object
//! whose words are counted, the weight of a new pass), a type parameter with a ghost member stands
//! for it: `grow::<Brand>(..)` and `part::<Brand>(..)`. The proof of the call picks the member of
//! `Brand` (in `proofs/`). Only the contract reads the argument with that number, so the body has
//! `let _ = object;`.

ghost use Rattle.std.specs.Prelude.{◌≡◌, ◌≢◌, ℕ, ◌+◌, ◌*◌, ◌^◌, ◌<◌, ◌≤◌, length, sum, Some};
ghost use Rattle.std.specs.Prelude.{IfOk, IfErr};
ghost use Rattle.sqz_image.specs.declared.fault.Fault.TheVariants.{OutOfMemory};
ghost use Rattle.sqz_image.specs.Objects.{object_count, chunk_words};
ghost use Rattle.sqz_trace.specs.declared.shades.Shade.TheVariants.{White, Black};
ghost use Rattle.sqz_trace.specs.Edges.{out_edges, edge_target, strong_target, HasEdge};
ghost use Rattle.sqz_trace.specs.Shades.{marks_of};
ghost use Rattle.sqz_regions.specs.Bases.{AreSums};
ghost use Rattle.sqz_trace.specs.Live.{live_words};
ghost use Rattle.sqz_regions.specs.Regions.{region_at, region_count};
ghost use Rattle.sqz_marks.specs.declared.claim.Claim.TheVariants.{Won};
ghost use Rattle.sqz_marks.specs.Core.{times, HasWon, HasSeen, HasBlackened, first_view, looked};
ghost use Rattle.sqz_marks.specs.Core.{counted, blackened};
ghost use Rattle.sqz_marks.specs.Table.{IsPassOf, knowing, KeepsSeen, IsNewTo, HasCountedAll};
ghost use Rattle.sqz_marks.specs.Table.{AreEdgesOfSeen, start_of, shade_of, AreClosed};
ghost use Rattle.sqz_marks.specs.Claims.{IsClaim};

use crate::claim::Claim;
use crate::closed::{Closed, read_shades, read_sums, shade_of};
use crate::pass::Pass;
use crate::plays::{Blacken, Claiming, CountedObject, Counting, Key, Look, MarkingRule};
use crate::view::View;
use crate::workers::Workers;
use atomic_table::{Seat, Table};
use sqz_image::laws::heap_bounds;
use sqz_image::{Fault, Heap, Slot};
use sqz_object::ObjectIndex;
use sqz_regions::Regions;
use sqz_trace::{OutEdges, Shade, Weak};
use std::alloc::Global;
use std::marker::{Brand, Model};
use std::snapshot::Snapshot;

/// The mark table: one word per object with its shade, and one word per region with the number of
/// words of marked objects that were counted there. Each change is one atomic step. Workers share
/// the table by `&`, each with a pass of its own; it is lock-free, and no call waits.
#[derive(Drop)]
pub struct MarkTable<'a> {
    heap: &'a Heap,
    regions: &'a Regions<'a>,
    weak: Weak,
    workers: Workers,
    pub(crate) table: Table<(), View, Key<'a>, MarkingRule, Global>,
}

impl<'a> Model for MarkTable<'a> {
    ghost use Rattle.std.specs.Prelude.{◌≡◌, ◌+◌, Some};
    ghost use Rattle.sqz_image.specs.Objects.{object_count, find};
    ghost use Rattle.sqz_regions.specs.Regions.{region_count};
    ghost use Rattle.sqz_marks.specs.Table.{SharedMarks, start_of};

    ghost Value = { SharedMarks };

    ghost view = { λ marks. record {
      table = marks.table.shared.table_id;
      heap = marks.regions.now;
      weak = marks.weak;
      workers = marks.workers;
    } };

    ghost invariant = { λ marks. (marks.heap.now ≡ marks.regions.now.memory)
        × (marks.table.shared.key.0.value ≡ marks.regions.now)
        × (marks.table.shared.key.1 ≡ marks.weak) × (marks.table.shared.key.2 ≡ marks.workers)
        × (marks.table.shared.table_id.words ≡ object_count marks.regions.now.memory + region_count
        marks.regions.now.cut marks.regions.now.memory)
        × (marks.table.shared.table_id.slots ≡ 0)
        × (find marks.regions.now.memory marks.regions.now.memory.special
        ≡ Some (start_of marks.regions.now.memory)) };
}

impl<'a> MarkTable<'a> {
    /// Returns the table at the beginning of marking, and the pass that is the share of all
    /// workers. The special objects array is grey, and the pass has won and counted it; every
    /// other object is white. Takes 8 bytes per object and per region, and twice that while it is
    /// made. Fails only if out of memory.
    pub fn new(
        alloc: Global,
        heap: &'a Heap,
        weak: Weak,
        regions: &'a Regions<'a>,
        workers: Workers,
    ) -> Result<(Self, Pass), Fault>
        requires { regions.now.memory ≡ heap.now }
        ensures table { IfOk result (λ made.
            (made.0.heap ≡ regions.now) × (made.0.weak ≡ weak) × (made.0.workers ≡ workers)) }
        ensures pass { IfOk result (λ made.
            IsPassOf made.0 made.1 × (made.1.view ≡ first_view workers (start_of heap.now))) }
        ensures refused { IfErr result (λ fault. fault ≡ OutOfMemory) }
    {
        heap_bounds(heap); // fewer than 2^30 words
        let special = heap.special();
        let objects = heap.len() as usize;
        let mut words = vec![in alloc; 0u64; objects + regions.count() as usize]?;
        words[special as usize] = 1;
        words[objects + regions.region(special) as usize] = u64::from(heap.chunk_length(special));
        let weight = workers.number();
        let key = (Snapshot::of(regions), weak, workers);
        let (table, seat) = Table::of_words(alloc, &words, &key)?;
        let pass = Pass {
            seat,
            weight,
            workers,
        };
        Ok((
            MarkTable {
                heap,
                regions,
                weak,
                workers,
                table,
            },
            pass,
        ))
    }

    /// Returns the shade of an object. It is not white if the pass won the object or has seen it
    /// marked, and black if the pass knows it to be black. For an object that the pass has not
    /// seen, the shade may be out of date.
    pub fn look(&self, pass: &mut Pass, object: ObjectIndex) -> Shade
        requires of { IsPassOf self.now pass.old }
        requires inside { object < object_count self.now.heap.memory }
        ensures step { pass.new ≡ knowing pass.old (looked object result pass.old.view) }
        ensures unwon { HasWon pass.old.view object → result ≢ White }
        ensures unseen { HasSeen pass.old.view object → result ≢ White }
        ensures black { HasBlackened pass.old.view object → result ≡ Black }
        ensures keeps { KeepsSeen pass.old.view pass.new.view }
    {
        shade_of(
            self.table
                .shared
                .load::<Look>(&mut pass.seat, object as usize),
        )
    }

    /// Makes the object that a strong slot of a parent points to grey, if it is white. The pass
    /// has seen the parent marked. If it wins an object, it had neither seen nor counted it.
    pub fn claim(&self, pass: &mut Pass, parent: ObjectIndex, slot: Slot) -> Claim
        requires of { IsPassOf self.now pass.old }
        requires inside { parent < object_count self.now.heap.memory }
        requires seen { HasSeen pass.old.view parent }
        ensures claim { IsClaim (strong_target self.now.heap.memory self.now.weak parent slot)
            pass.old pass.new result }
        ensures inside { (object : ℕ) → result ≡ Won object
            → object < object_count self.now.heap.memory }
        ensures new { (object : ℕ) → result ≡ Won object → IsNewTo pass.old.view object }
        ensures keeps { KeepsSeen pass.old.view pass.new.view }
    {
        self.claim_of(pass, &self.edges(parent), slot)
    }

    /// Returns the heap whose objects the table marks.
    pub fn heap(&self) -> &'a Heap
        ensures { result.now ≡ self.now.heap.memory }
    {
        self.heap
    }

    /// Returns the outgoing edges of an object, to claim its targets. The header of the object is
    /// read here, and not again.
    pub fn edges(&self, object: ObjectIndex) -> OutEdges<'_>
        requires { object < object_count self.now.heap.memory }
        ensures { result ≡ out_edges self.now.heap.memory self.now.weak object }
    {
        OutEdges::of(self.heap, self.weak, object)
    }

    /// As `claim`, for a parent whose header was read before: `edges` are its edges. The pass has
    /// seen the parent marked. If it wins an object, it had neither seen nor counted it.
    pub fn claim_of(&self, pass: &mut Pass, edges: &OutEdges<'_>, slot: Slot) -> Claim
        requires of { IsPassOf self.now pass.old }
        requires seen { AreEdgesOfSeen self.now.heap.memory self.now.weak pass.old.view edges.now }
        ensures claim { IsClaim (edge_target edges.now slot) pass.old pass.new result }
        ensures inside { (object : ℕ) → result ≡ Won object
            → object < object_count self.now.heap.memory }
        ensures new { (object : ℕ) → result ≡ Won object → IsNewTo pass.old.view object }
        ensures keeps { KeepsSeen pass.old.view pass.new.view }
    {
        let Some(object) = edges.target(slot) else {
            return Claim::Nothing;
        };
        match self
            .table
            .shared
            .fetch_max::<Claiming>(&mut pass.seat, object as usize, 1)
        {
            0 => Claim::Won(object),
            _ => Claim::Seen(object),
        }
    }

    /// Adds the length of an object's chunk in words to the sum of its region. The pass won the
    /// object and has not counted it.
    pub fn count(&self, pass: &mut Pass, object: ObjectIndex)
        requires of { IsPassOf self.now pass.old }
        requires inside { object < object_count self.now.heap.memory }
        requires won { HasWon pass.old.view object }
        requires new { times object pass.old.view.counted ≡ 0 }
        ensures step { pass.new ≡ knowing pass.old (counted object pass.old.view) }
    {
        let region = self.regions.region(object);
        let words = self.heap.chunk_length(object);
        self.grow::<Brand>(&mut pass.seat, object, region, words);
    }

    /// Makes an object black. The pass has seen it and all targets of its edges marked.
    pub fn blacken(&self, pass: &mut Pass, object: ObjectIndex)
        requires of { IsPassOf self.now pass.old }
        requires inside { object < object_count self.now.heap.memory }
        requires seen { HasSeen pass.old.view object }
        requires targets { (target : ℕ) → HasEdge self.now.heap.memory self.now.weak object target
            → HasSeen pass.old.view target }
        ensures step { pass.new ≡ knowing pass.old (blackened object pass.old.view) }
    {
        self.table
            .shared
            .fetch_max::<Blacken>(&mut pass.seat, object as usize, 2);
    }

    /// Ends the marking. The pass is the share of all workers, and has counted every object that
    /// it won. Returns the shades, and the sums of the regions; from the heap's base on, all these
    /// words fit below 2^32, as `bases` requires. Fails only if out of memory; it then returns the
    /// table and the pass unchanged.
    pub fn close(self, alloc: Global, pass: Pass) -> Result<Closed, (Self, Pass)>
        requires of { IsPassOf self pass }
        requires whole { pass.view.weight ≡ self.workers }
        requires counted { HasCountedAll pass.view }
        ensures closed { IfOk result (λ closed.
            AreClosed self.entry.heap.memory self.entry.weak pass.view closed.shades.items) }
        ensures sums { IfOk result (λ closed.
            AreSums self.entry.heap (marks_of closed.shades.items) closed.live_words.items) }
        ensures whole { IfOk result (λ closed. sum closed.live_words.items
            ≡ live_words self.entry.heap.memory (marks_of closed.shades.items)) }
        ensures room { IfOk result (λ closed.
            self.entry.heap.memory.base + 4 * sum closed.live_words.items ≤ 2 ^ 32) }
        ensures refused { IfErr result (λ back. (back.0 ≡ self.entry) × (back.1 ≡ pass)) }
    {
        heap_bounds(self.heap); // all words have addresses up to 2^32
        let objects = self.heap.len() as usize;
        let regions = self.regions.count() as usize;
        let Ok(mut shades) = vec![in alloc; Shade::White; objects] else {
            return Err((self, pass));
        };
        let Ok(mut live_words) = vec![in alloc; 0u32; regions] else {
            return Err((self, pass));
        };
        let MarkTable {
            heap: _,
            regions: _,
            weak: _,
            workers: _,
            table,
        } = self;
        let Pass {
            seat,
            weight: _,
            workers: _,
        } = pass;
        let closed = table.close_with(seat);
        read_shades(&closed, &mut shades);
        read_sums(&closed, objects, &mut live_words);
        closed.free();
        Ok(Closed { shades, live_words })
    }

    /// Adds an object's length in words to the sum of its region.
    fn grow<O: CountedObject>(
        &self,
        seat: &mut Seat<(), View>,
        object: ObjectIndex,
        region: u32,
        words: u32,
    )
        requires of { seat.old.table_id ≡ self.now.table }
        requires object { object ≡ O.object }
        requires region { region ≡ region_at self.now.heap.cut self.now.heap.memory object }
        requires inside { region < region_count self.now.heap.cut self.now.heap.memory }
        requires words { words ≡ length (chunk_words self.now.heap.memory object) }
        requires won { HasWon seat.old.me.0 object }
        requires new { times object seat.old.me.0.counted ≡ 0 }
        ensures table { seat.new.table_id ≡ seat.old.table_id }
        ensures step { seat.new.me ≡ (counted object seat.old.me.0, seat.old.me.1) }
    {
        let _ = object;
        let word = self.heap.len() as usize + region as usize;
        self.table
            .shared
            .fetch_add::<Counting<O>>(seat, word, u64::from(words));
    }
}
