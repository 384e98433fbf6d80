//! Objects after the move.

ghost use Rattle.std.specs.Prelude.{◌≡◌, ◌+◌, ◌^◌, ◌<◌, ◌≤◌, Bool, List, ◌++◌, map, length, IfOk};
ghost use Rattle.sqz_object.specs.Chunk.{chunk_kind};
ghost use Rattle.sqz_image.specs.Objects.{object_count};
ghost use Rattle.sqz_trace.specs.declared.weak.Weak.{Weak};
ghost use Rattle.sqz_regions.specs.Bases.{ArePlacesOf};
ghost use Rattle.sqz_slide.specs.Moved.{nil_place, moved_field, moved_weak, moved_class};
ghost use Rattle.sqz_regions.specs.Regions.{region_count};
ghost use Rattle.sqz_slide.specs.Moved.{moved_header, moved};
ghost use Rattle.sqz_slide.specs.Pieces.{moved_in};

use crate::piece_sizes::piece_size;
use sqz_image::{Heap, Object};
use sqz_object::{Address, Kind, Words};
use sqz_regions::{Forward, Regions};
use sqz_trace::{Weak, is_weak, named_by, nil, strong_fields};
use std::alloc::{AllocError, Global};

/// What the move needs: the heap, the policy on weak slots, and the new address of each live
/// object.
#[derive(Drop)]
pub(crate) struct Mover<'a> {
    pub heap: &'a Heap,
    pub weak: Weak,
    pub forward: &'a Forward,
    ghost one_each: { length forward.now ≡ object_count heap.now },
}

impl Mover<'_> {
    /// Returns the word of a slot after the move: the new address of the object that it points to,
    /// or the word unchanged if it points to no object or to a dead one.
    pub(crate) fn moved_field(&self, word: u32) -> u32
        ensures moved { (marks : List Bool)
            → ArePlacesOf self.now.heap.now marks self.now.forward.now
            → result ≡ moved_field self.now.heap.now marks word }
        ensures room { word + 4 ≤ 2 ^ 32 → result + 4 ≤ 2 ^ 32 }
    {
        let Some(named) = named_by(self.heap, word) else {
            return word;
        };
        match self.forward.place(named) {
            Some(place) => place,
            None => word,
        }
    }

    /// Returns a class word after the move: its low two bits stay.
    pub(crate) fn moved_class(&self, word: u32) -> u32
        ensures { (marks : List Bool)
            → ArePlacesOf self.now.heap.now marks self.now.forward.now
            → result ≡ moved_class self.now.heap.now marks word }
    {
        let header_type = word % 4;
        self.moved_field(word - header_type) + header_type
    }

    /// Returns the new address of nil, if nil is live.
    pub(crate) fn nil_place(&self) -> Option<Address>
        ensures { (marks : List Bool)
            → ArePlacesOf self.now.heap.now marks self.now.forward.now
            → result ≡ nil_place self.now.heap.now self.now.weak marks }
    {
        self.forward.place(nil(self.heap, self.weak)?)
    }

    /// Returns the word of a weak slot after the move: the new address of the object that it
    /// points to, or `nil` if that object is dead, or the word unchanged if it points to no
    /// object. `nil` is the new address of nil.
    pub(crate) fn moved_weak(&self, word: u32, nil: Option<Address>) -> u32
        ensures { (weak : Weak) (marks : List Bool)
            → ArePlacesOf self.now.heap.now marks self.now.forward.now
            → nil ≡ nil_place self.now.heap.now weak marks
            → result ≡ moved_weak self.now.heap.now weak marks word }
    {
        let Some(named) = named_by(self.heap, word) else {
            return word;
        };
        self.forward.place(named).or(nil).unwrap_or(word)
    }

    /// Returns the words of the region's live objects after the move, in order. Room for all of
    /// them is allocated at once.
    pub(crate) fn piece_of(
        &self,
        alloc: Global,
        regions: &Regions<'_>,
        region: u32,
    ) -> Result<Vec<u32>, AllocError>
        requires regions { regions.now.memory ≡ self.now.heap.now }
        requires region { region < region_count regions.now.cut regions.now.memory }
        ensures { IfOk result (λ words. (marks : List Bool)
            → ArePlacesOf self.now.heap.now marks self.now.forward.now
            → words.items ≡ moved_in regions.now self.now.weak marks region) }
    {
        let (from, to) = regions.objects(region);
        let room = piece_size(self.heap, self.forward, from, to) as usize;
        let mut words = Vec::with_capacity(alloc, room)?;
        for index in from..to {
            if self.forward.place(index).is_some() {
                let object = self.heap.object(index);
                self.push_moved(&object, &mut words)?;
            }
        }
        Ok(words)
    }

    /// Appends the words of an object after the move.
    fn push_moved(&self, object: &Object<'_>, words: &mut Vec<u32>) -> Result<(), AllocError>
        ensures { IfOk result (λ _. (marks : List Bool)
            → ArePlacesOf self.now.heap.now marks self.now.forward.now
            → words.new.items ≡ words.old.items
            ++ moved self.now.heap.now self.now.weak marks object.now) }
    {
        self.push_header(object, words)?;
        let count = strong_fields(self.heap, self.weak, object) as usize;
        let (strong, others) = object.fields().split_at(count);
        self.push_strong(&strong, words)?;
        if is_weak(self.weak, object) {
            self.push_weak(&others, self.nil_place(), words)?;
        } else {
            push_untraced(&others, words)?;
        }
        Ok(())
    }

    /// Appends the header words of an object after the move.
    fn push_header(&self, object: &Object<'_>, words: &mut Vec<u32>) -> Result<(), AllocError>
        ensures { IfOk result (λ _. (marks : List Bool)
            → ArePlacesOf self.now.heap.now marks self.now.forward.now
            → words.new.items ≡ words.old.items
            ++ moved_header self.now.heap.now marks (chunk_kind object.now) object.now) }
    {
        let header = object.words();
        match object.header().kind {
            Kind::Three => {
                let class = self.moved_class(header.at(1));
                words.extend_from_slice(&[header.at(0), class, header.at(2)])?;
            }
            Kind::Two => {
                let class = self.moved_class(header.at(0));
                words.extend_from_slice(&[class, header.at(1)])?;
            }
            Kind::Free | Kind::Short => words.push(header.at(0))?,
        }
        Ok(())
    }

    /// Appends strong fields after the move.
    fn push_strong(&self, fields: &Words<'_>, words: &mut Vec<u32>) -> Result<(), AllocError>
        ensures { IfOk result (λ _. (marks : List Bool)
            → ArePlacesOf self.now.heap.now marks self.now.forward.now
            → words.new.items ≡ words.old.items
            ++ map (moved_field self.now.heap.now marks) fields.now) }
    {
        for index in 0..fields.len() {
            words.push(self.moved_field(fields.at(index)))?;
        }
        Ok(())
    }

    /// Appends weak fields after the move. `nil` is the new address of nil.
    fn push_weak(
        &self,
        fields: &Words<'_>,
        nil: Option<Address>,
        words: &mut Vec<u32>,
    ) -> Result<(), AllocError>
        ensures { IfOk result (λ _. (weak : Weak) (marks : List Bool)
            → ArePlacesOf self.now.heap.now marks self.now.forward.now
            → nil ≡ nil_place self.now.heap.now weak marks
            → words.new.items ≡ words.old.items
            ++ map (moved_weak self.now.heap.now weak marks) fields.now) }
    {
        for index in 0..fields.len() {
            words.push(self.moved_weak(fields.at(index), nil))?;
        }
        Ok(())
    }
}

/// Appends fields that are not slots, unchanged.
fn push_untraced(fields: &Words<'_>, words: &mut Vec<u32>) -> Result<(), AllocError>
    ensures { IfOk result (λ _. words.new.items ≡ words.old.items ++ fields.now) }
{
    for index in 0..fields.len() {
        words.push(fields.at(index))?;
    }
    Ok(())
}
