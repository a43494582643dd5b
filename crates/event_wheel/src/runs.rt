// Where the runs of equal times in the buckets' chains begin and end, so that a search passes each in one step.

use crate::chains::Ends;
use crate::link::Link;
use sg_text::NoMemory;
use std::alloc::Global;

/// At the key of a run's first node the key of its last, and at that of its last the key of its first. These are hints: who
/// follows one looks at the nodes there.
#[derive(Drop)]
pub struct Runs {
    ends: Vec<Ends>,
}

impl Runs {
    /// No runs.
    pub fn new(alloc: Global) -> Runs {
        Runs {
            ends: Vec::new(alloc),
        }
    }

    /// Makes room for runs of nodes with keys below this one.
    pub fn reserve(&mut self, keys: usize) -> Result<(), NoMemory> {
        if self.ends.len() < keys {
            self.ends.resize(keys, Ends::none())?;
        }
        Ok(())
    }

    // What is kept at a key.
    fn at(&self, key: usize) -> Ends {
        match self.ends.get(key) {
            Some(ends) => *ends,
            None => Ends::none(),
        }
    }

    /// The last node of the run of two or more that this one begins.
    pub fn last_of(&self, first: Link) -> Link {
        match first.key() {
            Some(key) => self.at(key).last,
            None => Link::none(),
        }
    }

    fn set_last(&mut self, first: Link, last: Link) {
        let Some(first) = first.key() else {
            return;
        };
        if let Some(ends) = self.ends.get_mut(first) {
            ends.last = last;
        }
    }

    fn set_first(&mut self, last: Link, first: Link) {
        let Some(last) = last.key() else {
            return;
        };
        if let Some(ends) = self.ends.get_mut(last) {
            ends.first = first;
        }
    }

    // This run, or none where it is a single node's.
    fn set(&mut self, first: Link, last: Link) {
        let single = first.key() == last.key();
        self.set_last(first, if single { Link::none() } else { last });
        self.set_first(last, if single { Link::none() } else { first });
    }

    /// A new node ends the run that this other one ended, or stands alone.
    pub fn put(&mut self, key: Link, before: Link) {
        self.set(key, key);
        if let Some(last) = before.key() {
            let first = self.at(last).first.or(before);
            self.set_first(before, Link::none());
            self.set(first, key);
        }
    }

    /// A node was taken from between these others.
    pub fn take(&mut self, key: usize, before: Link, after: Link) {
        let ends = self.at(key);
        if !ends.last.is_none() && !after.is_none() {
            self.set(after, ends.last);
        }
        if !ends.first.is_none() && !before.is_none() {
            self.set(ends.first, before);
        }
    }
}
