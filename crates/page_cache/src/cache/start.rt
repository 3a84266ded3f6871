// A cache without pages.
ghost use Rattle.std.specs.Prelude.{◌≡◌, IfOk};
ghost use Rattle.model.specs.Cache.{empty};
ghost use Rattle.page_cache.specs.Caches.{cache_of};

use crate::cache::PageCache;
use crate::slots::Slots;
use basics::{PAGES, STATION_PAGES};
use std::alloc::{AllocError, Global};

impl PageCache {
    // No page is there. All the memory that it will ever take is taken here.
    pub fn new(heap: Global) -> Result<PageCache, AllocError>
        ensures { IfOk result (λ c. cache_of c ≡ empty) }
    {
        let table = vec![in heap; None; usize::from(PAGES)]?;
        let pages = Vec::with_capacity(heap, STATION_PAGES)?;
        let slots = Slots::new(heap)?;
        Ok(PageCache {
            table,
            pages,
            slots,
            dirty: 0,
        })
    }
}
