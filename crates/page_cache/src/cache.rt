// All that is kept of a station's pages.
ghost use Rattle.std.specs.Prelude.{◌≡◌, ℕ, ◌≤◌, T, is_some, None, vec_len, vec_capacity, slice_index_or};
ghost use Rattle.model.specs.Cache.{is_in};
ghost use Rattle.promise.specs.Station.{once};
ghost use Rattle.page_cache.specs.Slots.{dirty_words, seen, slot_of};

use crate::slots::Slots;

mod access;
mod moves;
mod start;

// table: of each page its slot, so that a word is found without a search; pages: of each slot its page, in memory that is taken at the start; dirty: how many words differ from their twins.
#[derive(Drop)]
pub struct PageCache {
    table: Vec<Option<u8>>,
    pages: Vec<u16>,
    slots: Slots,
    dirty: u32,
    ghost mapped: { vec_len table ≡ 1024 },
    ghost room: { 256 ≤ vec_capacity pages },
    ghost few: { vec_len pages ≤ 256 },
    ghost slotted: { (p : ℕ) → slice_index_or table.items p None ≡ slot_of p pages.items },
    ghost distinct: { T (once pages.items) },
    ghost counted: { dirty ≡ dirty_words pages.items (seen pages.items slots.copies.items) (seen pages.items slots.twins.items) },
}

impl PageCache {
    // The slot of a page, if it is there.
    #[tactic(auto, using(crate::proofs::SlotLaws::is_in_slot))]
    fn slot(&self, page: usize) -> Option<u8>
        ensures slot { result ≡ slot_of page self.now.pages.items }
        ensures there { is_in page self.now.pages.items ≡ is_some result }
    {
        *self.table.get(page)?
    }
}
