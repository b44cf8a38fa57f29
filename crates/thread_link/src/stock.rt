//! The pages of a row, which come back to the pushing end.

use crate::{Piece, Sheet};
use crossbeam_queue::ArrayQueue;
use std::alloc::{AllocError, Global};
use std::sync::{Arc, Wait};
use std::thread;

/// The pages that are not in the row.
#[derive(Drop)]
pub(crate) struct Stock {
    unused: Vec<Box<Piece>>,
    returned: Returns,
}

/// The queue by which pages come back.
#[derive(Drop)]
pub(crate) struct Returns {
    queue: Arc<ArrayQueue<Box<Piece>>, Global>,
}

impl Stock {
    /// Creates the stock of a row for `capacity` pieces. It has two pages more than the row: one is written while the
    /// row is full, and one is read.
    pub(crate) fn new(alloc: Global, capacity: usize) -> Result<(Stock, Returns), AllocError> {
        let count = capacity.saturating_add(2);
        let mut unused = Vec::with_capacity(alloc, count)?;
        for _ in 0..count {
            unused.push(Box::new(alloc, Piece::new(&[0]))?)?;
        }
        let queue = Arc::new(alloc, ArrayQueue::new(alloc, count)?)?;
        let other = Arc::try_clone(&queue)?;
        Ok((
            Stock {
                unused,
                returned: Returns { queue },
            },
            Returns { queue: other },
        ))
    }

    /// Returns a page to write on. Takes one that came back before one that was never used, since its bytes are more
    /// likely in a cache.
    #[inline]
    pub(crate) fn take<R: Wait>(&mut self, rt: &R) -> Box<Piece> {
        for _ in rt.forever() {
            if let Some(page) = self.returned.queue.pop(rt) {
                return page;
            }
            if let Some(page) = self.unused.pop() {
                return page;
            }
            // There is always one, since there are two pages more than places in the row.
            thread::yield_now();
        }
        unreachable!()
    }

    /// Puts back a page that the row did not take.
    #[cold]
    pub(crate) fn put_back<R: Wait>(&self, rt: &R, page: Box<Piece>) {
        self.returned.put(rt, page);
    }
}

impl Returns {
    /// Creates the queue of a row that has no pages.
    pub(crate) fn none(alloc: Global) -> Result<Returns, AllocError> {
        let queue = Arc::new(alloc, ArrayQueue::new(alloc, 1)?)?;
        Ok(Returns { queue })
    }

    /// Gives the page of a sheet that was read back to the pushing end, and drops a frame.
    #[inline]
    pub(crate) fn put_read<R: Wait>(&self, rt: &R, sheet: Sheet) {
        if let Sheet::Written(page) = sheet {
            self.put(rt, page);
        }
    }

    /// Gives a page back to the pushing end.
    #[inline]
    pub(crate) fn put<R: Wait>(&self, rt: &R, page: Box<Piece>) {
        // There is room for all pages.
        let _ = self.queue.push(rt, page);
    }
}
