// Pages of lent words: a page's words copied out or written, a diff put in, and the diff of a copy and its twin.
#![tactic(auto)]

ghost use Rattle.std.specs.Prelude.{◌≡◌, ℕ, ◌+◌, ◌*◌, ◌<◌, ◌≤◌, ◌&&◌, length, if◌then◌else◌, Some, None, Ok, Err, slice_index, slice_index_or};
ghost use Rattle.std.specs.Option.{unwrap_or};
ghost use Rattle.basics.specs.declared.Refusal.TheVariants.{Malformed};
ghost use Rattle.model.specs.Cache.{on_page, placed};
ghost use Rattle.model.specs.Home.{page_at, patched};
ghost use Rattle.pages.specs.Diffs.{diff_at};
ghost use Rattle.pages.specs.Memory.{memory, has_page};

use basics::{PAGE_WORDS, Refusal};
use std::ops::Range;

// The words of a page, or refused where the lent words do not reach so far.
pub fn page_words(words: &[u32], page: u16) -> Result<[u32; 64], Refusal>
    ensures { result ≡ (if has_page page words.now then Ok (page_at page (memory words.now)) else Err Malformed) }
{
    let part = part_of(words, page)?;
    let mut copy = [0; PAGE_WORDS];
    copy.copy_from_slice(&words[part]);
    Ok(copy)
}

// Puts the changes of a page in, and leaves every other word as it was; refused where the lent words do not reach so far.
pub fn patch(words: &mut [u32], page: u16, changes: &[Option<u32>; 64]) -> Result<(), Refusal>
    ensures answer { result ≡ (if has_page page words.old then Ok tt else Err Malformed) }
    ensures after { memory words.new ≡ (if has_page page words.old then patched page changes.now (memory words.old) else memory words.old) }
{
    let part = part_of(words, page)?;
    put_in(&mut words[part], changes);
    Ok(())
}

// Writes all words of a page, and leaves every other word as it was; refused where the lent words do not reach so far.
pub fn fill(words: &mut [u32], page: u16, new: &[u32; 64]) -> Result<(), Refusal>
    ensures answer { result ≡ (if has_page page words.old then Ok tt else Err Malformed) }
    ensures after { memory words.new ≡ (if has_page page words.old then on_page page (placed new.now) (memory words.old) else memory words.old) }
{
    let part = part_of(words, page)?;
    words[part].copy_from_slice(new);
    Ok(())
}

// Where copy and twin of a page differ: the copy's word for each such place, and how many there are. They are counted in the pass that finds them, so that a cache's count of dirty words costs no second one.
#[derive(Clone, Copy, Debug, PartialEq, Eq)]
pub struct PageDiff {
    pub changes: [Option<u32>; 64],
    pub count: u32,
}

// The diff of a page's copy and twin. In the same pass the twin becomes the copy; every other word stays as it was. Refused where the lent words do not reach so far.
pub fn flush(copies: &[u32], twins: &mut [u32], page: u16) -> Result<PageDiff, Refusal>
    ensures answer { result ≡ (if has_page page copies.now && has_page page twins.old then Ok (diff_at page (memory copies.now) (memory twins.old)) else Err Malformed) }
    ensures after { memory twins.new ≡ (if has_page page copies.now && has_page page twins.old then on_page page (memory copies.now) (memory twins.old) else memory twins.old) }
{
    let copy = &copies[part_of(copies, page)?];
    let part = part_of(twins, page)?;
    Ok(flush_part(copy, &mut twins[part]))
}

// Which part of the words the page is; refused where there are not all of them.
fn part_of(words: &[u32], page: u16) -> Result<Range<usize>, Refusal>
    ensures { result ≡ (if has_page page words.now then Ok (record { start = 64 * page; end = 64 * page + 64 }) else Err Malformed) }
{
    let start = PAGE_WORDS * usize::from(page);
    let end = start + PAGE_WORDS;
    if words.len() < end {
        return Err(Refusal::Malformed);
    }
    Ok(start..end)
}

// Writes the changed words of one page, by place: of words written through a zip a proof knows nothing.
fn put_in(part: &mut [u32], changes: &[Option<u32>; 64])
    requires { length part.old ≡ 64 }
    ensures { (k : ℕ) → k < 64 → slice_index part.new k ≡ unwrap_or (slice_index_or changes.now k None) (slice_index part.old k) }
{
    for (place, word) in part.iter_mut().enumerate() {
        *word = changes[place].unwrap_or(*word);
    }
}

// Collects the words of one page whose copy is not their twin, by place for the same reason; the twin becomes the copy.
fn flush_part(copy: &[u32], twin: &mut [u32]) -> PageDiff
    requires copied { length copy.now ≡ 64 }
    requires twinned { length twin.old ≡ 64 }
    ensures diff { result ≡ diff_at 0 (memory copy.now) (memory twin.old) }
    ensures after { twin.new ≡ copy.now }
{
    let mut changes = [None; PAGE_WORDS];
    let mut count = 0;
    for (place, word) in copy.iter().enumerate() {
        if *word != twin[place] {
            changes[place] = Some(*word);
            twin[place] = *word;
            count += 1;
        }
    }
    PageDiff { changes, count }
}
