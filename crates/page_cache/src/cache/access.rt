// Words read and written: a look-up in the slot table and an access, no search and no walk.
ghost use Rattle.std.specs.Prelude.{◌≡◌, length, if◌then◌else◌, Some, None};
ghost use Rattle.basics.specs.Sizes.{page_of};
ghost use Rattle.model.specs.Cache.{is_clean, is_in, wrote};
ghost use Rattle.page_cache.specs.Caches.{cache_of};

use crate::cache::PageCache;
use basics::PAGE_WORDS;

impl PageCache {
    // Whether the page is there.
    pub fn has(&self, page: u16) -> bool
        ensures { result ≡ is_in page (cache_of self.now).present }
    {
        self.slot(usize::from(page)).is_some()
    }

    // How many pages there are.
    pub fn len(&self) -> usize
        ensures { result ≡ length (cache_of self.now).present }
    {
        self.pages.len()
    }

    // Whether in every page copy and twin are the same.
    pub fn is_clean(&self) -> bool
        ensures { result ≡ is_clean (cache_of self.now) }
    {
        self.dirty == 0
    }

    // The copy's word becomes this, if its page is there; says whether it is.
    pub fn write(&mut self, word: u32, value: u32) -> bool
        ensures answer { result ≡ is_in (page_of word) (cache_of self.old).present }
        ensures after { cache_of self.new ≡ (if is_in (page_of word) (cache_of self.old).present then wrote word value (cache_of self.old) else cache_of self.old) }
    {
        let Some(slot) = self.slot(word as usize / PAGE_WORDS) else {
            return false;
        };
        let others = self.dirty - self.slots.dirty_at(slot, word);
        self.slots.write(slot, word, value);
        self.dirty = others + self.slots.dirty_at(slot, word);
        true
    }

    // The copy's word, if its page is there.
    pub fn read(&self, word: u32) -> Option<u32>
        ensures { result ≡ (if is_in (page_of word) (cache_of self.now).present then Some ((cache_of self.now).copy word) else None) }
    {
        let slot = self.slot(word as usize / PAGE_WORDS)?;
        Some(self.slots.copy(slot, word))
    }
}
