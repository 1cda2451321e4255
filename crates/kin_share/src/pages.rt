//! Chunks in pages that clones share.

ghost use Rattle.std.specs.Prelude.{◌≡◌, ◌<◌, ◌++◌, ◌∷◌, [], IfOk, OnOk, OnErr, length, slice_index_or, slice_set};

use crate::runs::Chunk;
use std::alloc::{AllocError, Global};
use std::marker::Model;
use std::sync::Arc;

/// Some chunks.
#[derive(Drop)]
pub(crate) struct Leaf<T> {
    alloc: Global,
    chunks: Vec<Chunk<T>>,
}

impl<T> Model for Leaf<T> {
    ghost use Rattle.std.specs.Prelude.{List};

    ghost Value = { List (List T) };

    ghost view = { λ a. a.chunks.items };
}

impl<T: Copy + Drop> Leaf<T> {
    fn set(&mut self, chunk: usize, place: usize, item: T) -> Result<(), AllocError>
        requires chunk { chunk < length self.old }
        requires place { place < length (slice_index_or self.old chunk []) }
        ensures ok { OnOk result (self.new ≡ slice_set self.old chunk (slice_set (slice_index_or self.old chunk []) place item)) }
        ensures err { OnErr result (self.new ≡ self.old) }
    {
        self.chunks[chunk].set(place, item)
    }
}

/// A clone shares each chunk. O(n).
impl<T: Copy + Drop> Clone for Leaf<T> {
    ghost is_clone = { λ leaf result. result ≡ leaf };

    fn clone(&self) -> Result<Leaf<T>, AllocError> {
        Ok(Leaf {
            alloc: self.alloc,
            chunks: self.chunks.clone()?,
        })
    }
}

/// 64 chunks, which clones share.
#[derive(Drop)]
pub(crate) struct Page<T> {
    leaf: Arc<Leaf<T>, Global>,
}

impl<T> Model for Page<T> {
    ghost use Rattle.std.specs.Prelude.{List};
    ghost use Rattle.std.specs.Arc.{arc_value};

    ghost Value = { List (List T) };

    ghost view = { λ a. arc_value a.leaf };
}

impl<T: Copy + Drop> Page<T> {
    fn of(alloc: Global, chunks: Vec<Chunk<T>>) -> Result<Page<T>, AllocError>
        ensures { IfOk result (λ p. p ≡ chunks.items) }
    {
        Ok(Page {
            leaf: Arc::new(alloc, Leaf { alloc, chunks })?,
        })
    }

    fn chunk(&self, chunk: usize) -> &Chunk<T>
        requires { chunk < length self.now }
        ensures { result.now ≡ slice_index_or self.now chunk [] }
    {
        &self.leaf.chunks[chunk]
    }

    fn set(&mut self, chunk: usize, place: usize, item: T) -> Result<(), AllocError>
        requires chunk { chunk < length self.old }
        requires place { place < length (slice_index_or self.old chunk []) }
        ensures ok { OnOk result (self.new ≡ slice_set self.old chunk (slice_set (slice_index_or self.old chunk []) place item)) }
        ensures err { OnErr result (self.new ≡ self.old) }
    {
        let leaf = Arc::make_mut(&mut self.leaf)?;
        leaf.set(chunk, place, item)
    }
}

/// A clone shares the page. O(1).
impl<T: Copy + Drop> Clone for Page<T> {
    ghost is_clone = { λ page result. result ≡ page };

    fn clone(&self) -> Result<Page<T>, AllocError> {
        Ok(Page {
            leaf: self.leaf.clone()?,
        })
    }
}

// The same chunks.
fn copied<T: Copy + Drop>(chunks: &Vec<Chunk<T>>) -> Result<Vec<Chunk<T>>, AllocError>
    ensures { IfOk result (λ c. c.items ≡ chunks.now.items) }
{
    chunks.clone()
}

/// Chunks in pages of 64. A clone of n chunks copies n / 64 pointers and at most 64.
#[derive(Drop)]
pub(crate) struct Pages<T> {
    alloc: Global,
    pages: Vec<Page<T>>,
    last: Vec<Chunk<T>>,
    count: usize,
}

// So many chunks has a page.
const PAGE: usize = 64;

impl<T> Model for Pages<T> {
    ghost use Rattle.std.specs.Prelude.{List};
    ghost use Rattle.kin_share.specs.Chunks.{joined, IsChunked};

    ghost Value = { List (List T) };

    ghost view = { λ a. joined a.pages.items a.last.items };

    ghost invariant = { λ a. IsChunked a.pages.items a.last.items a.count };
}

impl<T: Copy + Drop> Pages<T> {
    /// No chunks.
    pub(crate) fn new(alloc: Global) -> Pages<T>
        ensures { result ≡ [] }
    {
        Pages {
            alloc,
            pages: Vec::new(alloc),
            last: Vec::new(alloc),
            count: 0,
        }
    }

    /// How many chunks.
    pub(crate) fn len(&self) -> usize
        ensures { result ≡ length self.now }
    {
        self.count
    }

    /// A chunk. O(1).
    pub(crate) fn chunk(&self, chunk: usize) -> &Chunk<T>
        requires { chunk < length self.now }
        ensures { result.now ≡ slice_index_or self.now chunk [] }
    {
        let page = chunk / PAGE;
        if page < self.pages.len() {
            return self.pages[page].chunk(chunk % PAGE);
        }
        &self.last[chunk - PAGE * self.pages.len()]
    }

    /// One more chunk at the end.
    pub(crate) fn push(&mut self, chunk: Chunk<T>) -> Result<(), AllocError>
        ensures ok { OnOk result (self.new ≡ self.old ++ chunk ∷ []) }
        ensures err { OnErr result (self.new ≡ self.old) }
    {
        let Some(more) = self.count.checked_add(1) else {
            return Err(AllocError);
        };
        if self.last.len() == PAGE {
            let page = Page::of(self.alloc, copied(&self.last)?)?;
            let mut last = Vec::with_capacity(self.alloc, 4)?;
            last.push(chunk)?;
            self.pages.push(page)?;
            self.last = last;
            self.count = more;
            return Ok(());
        }
        self.last.push(chunk)?;
        self.count = more;
        Ok(())
    }

    /// Writes over an item of a chunk.
    pub(crate) fn set(&mut self, chunk: usize, place: usize, item: T) -> Result<(), AllocError>
        requires chunk { chunk < length self.old }
        requires place { place < length (slice_index_or self.old chunk []) }
        ensures ok { OnOk result (self.new ≡ slice_set self.old chunk (slice_set (slice_index_or self.old chunk []) place item)) }
        ensures err { OnErr result (self.new ≡ self.old) }
    {
        let page = chunk / PAGE;
        if page < self.pages.len() {
            return self.pages[page].set(chunk % PAGE, place, item);
        }
        let at = chunk - PAGE * self.pages.len();
        self.last[at].set(place, item)
    }
}

/// A clone shares the pages and the chunks.
impl<T: Copy + Drop> Clone for Pages<T> {
    ghost is_clone = { λ pages result. result ≡ pages };

    fn clone(&self) -> Result<Pages<T>, AllocError> {
        Ok(Pages {
            alloc: self.alloc,
            pages: self.pages.clone()?,
            last: self.last.clone()?,
            count: self.count,
        })
    }
}
