// Pages that come, are flushed, and go.
ghost use Rattle.std.specs.Prelude.{◌≡◌, ◌<◌, false, length, is_ok, if◌then◌else◌, Some, None, Ok};
ghost use Rattle.model.specs.Cache.{changes_at, empty, flushed_at, installed, is_in};
ghost use Rattle.page_cache.specs.Caches.{cache_of, installs};

use crate::cache::PageCache;
use basics::{PAGES, Refusal, STATION_PAGES};

impl PageCache {
    // The diff of a page, if it is there: its twin becomes its copy.
    pub fn flush(&mut self, page: u16) -> Option<[Option<u32>; 64]>
        ensures answer { result ≡ (if is_in page (cache_of self.old).present then Some (changes_at page (cache_of self.old).copy (cache_of self.old).twin) else None) }
        ensures after { cache_of self.new ≡ (if is_in page (cache_of self.old).present then flushed_at page (cache_of self.old) else cache_of self.old) }
    {
        let slot = self.slot(usize::from(page))?;
        let diff = self.slots.flush(slot);
        self.dirty -= diff.count;
        Some(diff.changes)
    }

    // A page that came: copy and twin become it. Refused where there is no such page, where it is present, and where there is no room.
    pub fn install(&mut self, page: u16, words: &[u32; 64]) -> Result<(), Refusal>
        ensures answer { result ≡ installs (cache_of self.old) page (Ok tt) }
        ensures after { cache_of self.new ≡ (if is_ok result then installed page words.now (cache_of self.old) else cache_of self.old) }
    {
        if page >= PAGES {
            return Err(Refusal::Malformed);
        }
        if self.has(page) {
            return Err(Refusal::PageState);
        }
        if self.len() >= STATION_PAGES {
            return Err(Refusal::PagesFull);
        }
        self.install_next(page, words);
        Ok(())
    }

    // Into the next slot; `install` has made the tests.
    fn install_next(&mut self, page: u16, words: &[u32; 64])
        requires known { page < 1024 }
        requires absent { is_in page self.old.pages.items ≡ false }
        requires room { length self.old.pages.items < 256 }
        ensures { cache_of self.new ≡ installed page words.now (cache_of self.old) }
    {
        let slot = self.pages.len() as u8;
        self.slots.fill(slot, words);
        self.table[usize::from(page)] = Some(slot);
        self.pages.push_reserved(page);
    }

    // All pages go.
    pub fn clear(&mut self)
        ensures { cache_of self.new ≡ empty }
    {
        self.table.fill(None);
        self.pages.clear();
        self.dirty = 0;
    }
}
