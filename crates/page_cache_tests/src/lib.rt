// Examples of a station's pages, as a station would use them.
#![tactic(auto)]

#[cfg(test)]
mod tests {
    use basics::Refusal;
    use page_cache::PageCache;
    use std::test::Fail;

    // Page 3 has the words 192 to 255, and its word 197 is 7 here.
    fn page_three() -> [u32; 64] {
        let mut words = [0; 64];
        words[5] = 7;
        words
    }

    #[test]
    fn a_fresh_cache_has_no_page(rt: HostRuntime) -> Result<(), Fail> {
        let mut cache = PageCache::new(rt.alloc())?;
        assert_eq!(rt; cache.len(), 0);
        assert!(rt; !cache.has(0));
        assert!(rt; cache.is_clean());
        assert_eq!(rt; cache.read(0), None);
        assert!(rt; !cache.write(0, 1));
        assert_eq!(rt; cache.flush(0), None);
        Ok(())
    }

    #[test]
    fn a_page_is_read_as_it_came(rt: HostRuntime) -> Result<(), Fail> {
        let mut cache = PageCache::new(rt.alloc())?;
        assert_eq!(rt; cache.install(3, &page_three()), Ok(()));
        assert_eq!(rt; cache.len(), 1);
        assert!(rt; cache.has(3));
        assert!(rt; cache.is_clean());
        assert_eq!(rt; cache.read(197), Some(7));
        assert_eq!(rt; cache.read(255), Some(0));
        assert_eq!(rt; cache.read(191), None);
        assert_eq!(rt; cache.read(256), None);
        Ok(())
    }

    #[test]
    fn a_diff_says_what_was_written_and_says_it_once(rt: HostRuntime) -> Result<(), Fail> {
        let mut cache = PageCache::new(rt.alloc())?;
        assert_eq!(rt; cache.install(3, &page_three()), Ok(()));
        assert!(rt; cache.write(197, 9));
        assert_eq!(rt; cache.read(197), Some(9));
        assert!(rt; !cache.is_clean());
        let mut changes = [None; 64];
        changes[5] = Some(9);
        assert_eq!(rt; cache.flush(3), Some(changes));
        assert!(rt; cache.is_clean());
        assert_eq!(rt; cache.flush(3), Some([None; 64]));
        assert_eq!(rt; cache.read(197), Some(9));
        Ok(())
    }

    #[test]
    fn a_word_written_back_is_no_change(rt: HostRuntime) -> Result<(), Fail> {
        let mut cache = PageCache::new(rt.alloc())?;
        assert_eq!(rt; cache.install(3, &page_three()), Ok(()));
        assert!(rt; cache.write(197, 9));
        assert!(rt; cache.write(197, 7));
        assert!(rt; cache.is_clean());
        assert_eq!(rt; cache.flush(3), Some([None; 64]));
        Ok(())
    }

    #[test]
    fn pages_are_flushed_one_by_one(rt: HostRuntime) -> Result<(), Fail> {
        let mut cache = PageCache::new(rt.alloc())?;
        assert_eq!(rt; cache.install(3, &page_three()), Ok(()));
        assert_eq!(rt; cache.install(1023, &[1; 64]), Ok(()));
        assert!(rt; cache.write(65535, 4));
        assert!(rt; !cache.write(65536, 4));
        assert_eq!(rt; cache.flush(3), Some([None; 64]));
        assert!(rt; !cache.is_clean());
        let mut changes = [None; 64];
        changes[63] = Some(4);
        assert_eq!(rt; cache.flush(1023), Some(changes));
        assert!(rt; cache.is_clean());
        Ok(())
    }

    // The lowest number that applies is given.
    #[test]
    fn a_page_is_refused(rt: HostRuntime) -> Result<(), Fail> {
        let mut cache = PageCache::new(rt.alloc())?;
        for page in 0..256 {
            assert_eq!(rt; cache.install(page, &[0; 64]), Ok(()));
        }
        assert_eq!(rt; cache.len(), 256);
        assert_eq!(rt; cache.install(1024, &[0; 64]), Err(Refusal::Malformed));
        assert_eq!(rt; cache.install(255, &[0; 64]), Err(Refusal::PageState));
        assert_eq!(rt; cache.install(256, &[0; 64]), Err(Refusal::PagesFull));
        assert_eq!(rt; cache.len(), 256);
        Ok(())
    }

    #[test]
    fn all_pages_go(rt: HostRuntime) -> Result<(), Fail> {
        let mut cache = PageCache::new(rt.alloc())?;
        assert_eq!(rt; cache.install(3, &page_three()), Ok(()));
        assert!(rt; cache.write(197, 9));
        cache.clear();
        assert_eq!(rt; cache.len(), 0);
        assert!(rt; cache.is_clean());
        assert_eq!(rt; cache.read(197), None);
        assert_eq!(rt; cache.install(3, &page_three()), Ok(()));
        assert_eq!(rt; cache.read(197), Some(7));
        Ok(())
    }
}
