//! A set of pages.

ghost use Rattle.std.specs.Prelude.{◌≡◌, ◌<◌, true, false, length, replicate, slice_set, IfOk, IfSome};
ghost use Rattle.xv_dirty.specs.Pages.{member, members, least, no_pages};

use crate::level::{Level, WORD};
use std::alloc::Global;
use std::marker::Model;
use std::mem;
use xv_base::NoMemory;

/// A set of pages below a number. All memory is taken when it is made, and every other call takes a few steps,
/// however many pages and members there are: the one that looks at more than three words is `least`, at one for each
/// 262,144 pages.
#[derive(Drop)]
pub struct DirtySet {
    /// Whether each page is a member.
    pages: Level,
    /// Whether each word of the pages has a member.
    words: Level,
    /// Whether each word of those bits has one set.
    groups: Level,
    /// How many members there are.
    count: u32,
}

impl Model for DirtySet {
    ghost use Rattle.std.specs.Prelude.{List, Bool};
    ghost use Rattle.xv_dirty.specs.Levels.{IsSummed};

    ghost Value = { List Bool };

    ghost view = { λ s. s.pages };

    ghost invariant = { λ s. IsSummed s.pages s.words s.groups s.count };
}

impl DirtySet {
    /// All pages below this number.
    pub fn full(alloc: Global, pages: u32) -> Result<DirtySet, NoMemory>
        ensures { IfOk result (λ set. set ≡ replicate pages true) }
    {
        DirtySet::of(alloc, pages, true)
    }

    /// No page, of those below this number.
    pub fn empty(alloc: Global, pages: u32) -> Result<DirtySet, NoMemory>
        ensures { IfOk result (λ set. set ≡ no_pages pages) }
    {
        DirtySet::of(alloc, pages, false)
    }

    /// All pages below this number, or none of them.
    fn of(alloc: Global, pages: u32, all: bool) -> Result<DirtySet, NoMemory>
        ensures { IfOk result (λ set. set ≡ replicate pages all) }
    {
        let words = (pages as usize).div_ceil(WORD);
        let Ok(page_level) = Level::of(alloc, pages as usize, all) else {
            return Err(NoMemory);
        };
        let Ok(word_level) = Level::of(alloc, words, all) else {
            return Err(NoMemory);
        };
        let Ok(group_level) = Level::of(alloc, words.div_ceil(WORD), all) else {
            return Err(NoMemory);
        };
        Ok(DirtySet {
            pages: page_level,
            words: word_level,
            groups: group_level,
            count: if all { pages } else { 0 },
        })
    }

    /// Puts a page into the set, if it is not there.
    pub fn insert(&mut self, page: u32)
        requires { page < length self.old }
        ensures { self.new ≡ slice_set self.old page true }
    {
        let at = page as usize;
        if self.pages.has(at) {
            return;
        }
        self.pages.insert(at);
        self.words.insert(at / WORD);
        self.groups.insert(at / WORD / WORD);
        self.count += 1;
    }

    /// Takes a page out of the set, if it is there.
    pub fn remove(&mut self, page: u32)
        requires { page < length self.old }
        ensures { self.new ≡ slice_set self.old page false }
    {
        let at = page as usize;
        if !self.pages.has(at) {
            return;
        }
        self.count -= 1;
        if !self.pages.remove(at) {
            return;
        }
        if !self.words.remove(at / WORD) {
            return;
        }
        self.groups.remove(at / WORD / WORD);
    }

    /// Whether a page is in the set.
    pub fn contains(&self, page: u32) -> bool
        requires { page < length self.now }
        ensures { result ≡ member self.now page }
    {
        self.pages.has(page as usize)
    }

    /// The least page in the set, or none where it is empty.
    pub fn least(&self) -> Option<u32>
        ensures exactly { result ≡ least self.now }
        ensures within { IfSome result (λ page. page < length self.now) }
        ensures there { IfSome result (λ page. member self.now page ≡ true) }
    {
        let Some(group) = self.groups.first() else {
            return None;
        };
        let word = self.words.first_of(group);
        let page = self.pages.first_of(word);
        Some(page as u32)
    }

    /// How many pages are in the set.
    pub fn count(&self) -> u32
        ensures { result ≡ members self.now }
    {
        self.count
    }

    /// Hands all pages over to an empty set of the same range, and is empty then.
    pub fn take_into(&mut self, other: &mut DirtySet)
        requires none { members other.old ≡ 0 }
        requires same_range { length other.old ≡ length self.old }
        ensures taken { other.new ≡ self.old }
        ensures none_left { self.new ≡ no_pages (length self.old) }
    {
        mem::swap(self, other);
    }
}
