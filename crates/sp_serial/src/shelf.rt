//! Places where the words of a search are kept for the next one.
use crate::spare_buffers::SpareBuffers;
use std::alloc::{AllocError, Global};
use std::cell::RefCell;
use std::sync::Mutex;

/// A place where the words of a search that found its answer are kept for the next one.
pub trait Shelf<const P: u32> {
    /// Takes kept words, if there are any.
    fn take(&self) -> Option<SpareBuffers<P>>;

    /// Keeps words for the next search. If there is no place for them, they are freed.
    fn put(&self, spare: SpareBuffers<P>);
}

/// A place for the words of each thread, empty while they are in use. No thread waits for another.
#[derive(Drop)]
pub struct SharedShelf<const P: u32> {
    places: Vec<Mutex<Option<SpareBuffers<P>>>>,
}

// Returns `most` empty places.
fn open_places<const P: u32>(
    alloc: Global,
    most: usize,
) -> Result<Vec<Mutex<Option<SpareBuffers<P>>>>, AllocError> {
    let mut places = Vec::with_capacity(alloc, most)?;
    for _ in 0..most {
        places.push(Mutex::new(None))?;
    }
    Ok(places)
}

impl<const P: u32> SharedShelf<P> {
    /// Returns `most` empty places, or none if there is no memory for them.
    pub(crate) fn new(alloc: Global, most: usize) -> SharedShelf<P> {
        let places = match open_places(alloc, most) {
            Ok(places) => places,
            Err(_) => Vec::new(alloc),
        };
        SharedShelf { places }
    }
}

impl<const P: u32> Shelf<P> for SharedShelf<P> {
    fn take(&self) -> Option<SpareBuffers<P>> {
        for place in &self.places {
            let Some(mut held) = place.try_lock() else {
                continue;
            };
            if let Some(spare) = held.take() {
                return Some(spare);
            }
        }
        None
    }

    fn put(&self, spare: SpareBuffers<P>) {
        let mut left = Some(spare);
        for place in &self.places {
            let Some(mut held) = place.try_lock() else {
                continue;
            };
            if held.is_none() {
                *held = left.take();
                return;
            }
        }
    }
}

/// A place for the words of a single caller, without a lock.
#[derive(Drop)]
pub struct OwnShelf<const P: u32> {
    spare: RefCell<Option<SpareBuffers<P>>>,
}

impl<const P: u32> OwnShelf<P> {
    /// Returns an empty place. It takes no memory.
    pub(crate) fn new() -> OwnShelf<P> {
        OwnShelf {
            spare: RefCell::new(None),
        }
    }
}

impl<const P: u32> Shelf<P> for OwnShelf<P> {
    fn take(&self) -> Option<SpareBuffers<P>> {
        self.spare.try_replace(None).unwrap_or(None)
    }

    fn put(&self, spare: SpareBuffers<P>) {
        drop(self.spare.try_replace(Some(spare)));
    }
}
