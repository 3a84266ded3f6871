// Slots of 64 words, each for the copy and the twin of one page.
ghost use Rattle.std.specs.Prelude.{◌≡◌, ◌+◌, ◌*◌, IfOk, Some, replicate, slice_set, vec_len};
ghost use Rattle.basics.specs.Sizes.{place_of};
ghost use Rattle.model.specs.Cache.{on_page, placed};
ghost use Rattle.pages.specs.Diffs.{diff_at};
ghost use Rattle.pages.specs.Memory.{memory};
ghost use Rattle.page_cache.specs.Slots.{differs, in_slot};

use basics::{PAGE_WORDS, STATION_PAGES};
use pages::PageDiff;
use std::alloc::{AllocError, Global};

// Copies and twins lie apart, so that one can be read while the other is written.
#[derive(Drop)]
pub struct Slots {
    copies: Vec<u32>,
    twins: Vec<u32>,
    ghost copied: { vec_len copies ≡ 16384 },
    ghost twinned: { vec_len twins ≡ 16384 },
}

impl Slots {
    // All words are 0.
    pub fn new(heap: Global) -> Result<Slots, AllocError>
        ensures copies { IfOk result (λ s. s.copies.items ≡ replicate 16384 0) }
        ensures twins { IfOk result (λ s. s.twins.items ≡ replicate 16384 0) }
    {
        let copies = vec![in heap; 0; STATION_PAGES * PAGE_WORDS]?;
        let twins = vec![in heap; 0; STATION_PAGES * PAGE_WORDS]?;
        Ok(Slots { copies, twins })
    }

    // The copy of a word whose page is in this slot.
    pub fn copy(&self, slot: u8, word: u32) -> u32
        ensures { result ≡ in_slot (Some slot) (memory self.now.copies.items) (place_of word) }
    {
        self.copies[index(slot, word)]
    }

    // How much the word adds to the count of dirty words: 1 if its copy is not its twin, else 0.
    pub fn dirty_at(&self, slot: u8, word: u32) -> u32
        ensures { result ≡ differs (in_slot (Some slot) (memory self.now.copies.items) (place_of word)) (in_slot (Some slot) (memory self.now.twins.items) (place_of word)) }
    {
        let at = index(slot, word);
        u32::from(self.copies[at] != self.twins[at])
    }

    // The copy of the word becomes this.
    pub fn write(&mut self, slot: u8, word: u32, value: u32)
        ensures copies { self.new.copies.items ≡ slice_set self.old.copies.items (64 * slot + place_of word) value }
        ensures twins { self.new.twins ≡ self.old.twins }
    {
        let at = index(slot, word);
        self.copies[at] = value;
    }

    // Copy and twin of the slot become these words.
    pub fn fill(&mut self, slot: u8, words: &[u32; 64])
        ensures copies { memory self.new.copies.items ≡ on_page slot (placed words.now) (memory self.old.copies.items) }
        ensures twins { memory self.new.twins.items ≡ on_page slot (placed words.now) (memory self.old.twins.items) }
    {
        pages::fill(self.copies.as_mut_slice(), u16::from(slot), words).unwrap();
        pages::fill(self.twins.as_mut_slice(), u16::from(slot), words).unwrap();
    }

    // The diff of the slot; its twin becomes its copy.
    pub fn flush(&mut self, slot: u8) -> PageDiff
        ensures diff { result ≡ diff_at slot (memory self.old.copies.items) (memory self.old.twins.items) }
        ensures copies { self.new.copies ≡ self.old.copies }
        ensures twins { memory self.new.twins.items ≡ on_page slot (memory self.old.copies.items) (memory self.old.twins.items) }
    {
        let copies = self.copies.as_slice();
        let twins = self.twins.as_mut_slice();
        pages::flush(copies, twins, u16::from(slot)).unwrap()
    }
}

// Where a word of a slot lies.
fn index(slot: u8, word: u32) -> usize
    ensures { result ≡ 64 * slot + place_of word }
{
    PAGE_WORDS * usize::from(slot) + word as usize % PAGE_WORDS
}
