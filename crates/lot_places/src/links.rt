ghost use Rattle.std.specs.Prelude.{◌≡◌, ◌+◌, ◌<◌, ◌≤◌, [], ◌∷◌, ◌++◌, length, remove, slice_index, IfOk};
ghost use Rattle.std.specs.List.{range_with_len};
ghost use Rattle.lot_places.specs.Links.{times, StandsIn};

use std::alloc::{AllocError, Global};
use std::marker::Model;

/// Where a walk along the places in use stands: before the first, between two, or behind the last.
#[derive(Clone, Copy)]
pub struct Cursor {
    /// How many places it has passed.
    pub passed: usize,
    // The place that it passed last, or the entry behind the places where it has passed none.
    before: usize,
}

/// A fixed row of places, some in use, in an order of their own, and the others free.
///
/// A place that is taken into use or out of it leaves all others where they are. Only `new` takes memory.
#[derive(Drop)]
pub struct Links {
    // The place that comes after each one, among those in use or among the free ones; and in one entry
    // behind them the first in use. What comes after the last of either kind has no meaning.
    next: Vec<usize>,
    room: usize,
    len: usize,
    // The last place in use, or the entry behind the places where there is none.
    last: usize,
    // The first free place.
    free: usize,
}

impl Model for Links {
    ghost use Rattle.lot_places.specs.Links.{Row, row_of, IsLinked};

    ghost Value = { Row };

    ghost view = { λ l. row_of l.next.items l.room l.len l.free };

    ghost invariant = { λ l. IsLinked l.next.items l.room l.len l.last l.free };
}

impl Links {
    pub fn new(alloc: Global, room: usize) -> Result<Links, AllocError>
        ensures { IfOk result (λ row. row ≡ record { room = room; used = []; free = range_with_len 0 room }) }
    {
        let mut next = Vec::with_capacity(alloc, room.saturating_add(1))?;
        for place in 0..room {
            next.push(place + 1)?;
        }
        next.push(room)?;
        Ok(Links {
            next,
            room,
            len: 0,
            last: room,
            free: 0,
        })
    }

    pub fn hollow(alloc: Global) -> Links
        ensures { result ≡ record { room = 0; used = []; free = [] } }
    {
        Links {
            next: Vec::new(alloc),
            room: 0,
            len: 0,
            last: 0,
            free: 0,
        }
    }

    pub fn room(&self) -> usize
        ensures { result ≡ self.now.room }
    {
        self.room
    }

    pub fn len(&self) -> usize
        ensures count { result ≡ length self.now.used }
        ensures fits { result ≤ self.now.room }
    {
        self.len
    }

    /// Takes the first free place into use, as the last.
    pub fn append(&mut self) -> usize
        requires { length self.old.used < self.old.room }
        ensures room { self.new.room ≡ self.old.room }
        ensures used { self.new.used ≡ self.old.used ++ result ∷ [] }
        ensures free { self.old.free ≡ result ∷ self.new.free }
        ensures place { result < self.old.room }
        ensures unused { times result self.old.used ≡ 0 }
    {
        let place = self.free;
        self.free = self.next[place];
        self.next[self.last] = place;
        self.last = place;
        self.len += 1;
        place
    }

    /// Before the first place in use.
    pub fn start(&self) -> Cursor
        ensures stands { StandsIn self.now result }
        ensures first { result.passed ≡ 0 }
    {
        Cursor {
            passed: 0,
            before: self.room,
        }
    }

    /// The place before which the cursor stands.
    pub fn place(&self, cursor: Cursor) -> usize
        requires stands { StandsIn self.now cursor }
        requires more { cursor.passed < length self.now.used }
        ensures used { result ≡ slice_index self.now.used cursor.passed }
        ensures place { result < self.now.room }
    {
        self.next[cursor.before]
    }

    /// Behind that place.
    pub fn past(&self, cursor: Cursor) -> Cursor
        requires stands { StandsIn self.now cursor }
        requires more { cursor.passed < length self.now.used }
        ensures stands { StandsIn self.now result }
        ensures one { result.passed ≡ cursor.passed + 1 }
    {
        let before = self.next[cursor.before];
        Cursor {
            passed: cursor.passed + 1,
            before,
        }
    }

    /// Takes that place out of use. The cursor then stands before the one that came after it.
    pub fn remove(&mut self, cursor: Cursor)
        requires stands { StandsIn self.old cursor }
        requires more { cursor.passed < length self.old.used }
        ensures left { self.new ≡ record self.old {
          used = remove self.old.used cursor.passed;
          free = slice_index self.old.used cursor.passed ∷ self.old.free;
        } }
        ensures stands { StandsIn self.new cursor }
    {
        let place = self.next[cursor.before];
        let after = self.next[place];
        let last = if place == self.last {
            cursor.before
        } else {
            self.last
        };
        self.next[cursor.before] = after;
        self.next[place] = self.free;
        self.free = place;
        self.last = last;
        self.len -= 1;
    }
}
