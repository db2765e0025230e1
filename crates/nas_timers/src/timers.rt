//! The timers that run.
ghost use Rattle.std.specs.Prelude.{◌≡◌, [], None, Some};
ghost use Rattle.nas_timers.specs.Places.{is_at, place_of};
ghost use Rattle.nas_timers.specs.Timers.{deadline_of, due_of, is_sooner, soonest_from, sooner_of, started, stopped};

use crate::TimerId;
use crate::timer_id::NAMES;
use arrayvec::ArrayVec;
use nas_base::Moment;
use std::marker::Model;

// A timer that runs, and its deadline.
#[derive(Clone, Copy, Debug)]
struct Entry {
    id: TimerId,
    at: Moment,
}

impl Model for Entry {
    ghost use Rattle.nas_timers.specs.Timers.{Running};

    ghost Value = { Running };

    ghost view = { λ e. record { id = e.id; at = e.at } };

    ghost inverse = { λ t. record { id = t.id; at = t.at } };
}

impl Entry {
    // Whether its deadline is earlier, or the same with a name before the other's.
    fn is_sooner(&self, other: &Entry) -> bool
        ensures { result ≡ is_sooner self.now other.now }
    {
        self.at < other.at || self.at == other.at && self.id.is_before(&other.id)
    }
}

impl Default for Entry {
    fn default() -> Self {
        Entry {
            id: TimerId::T3510,
            at: Moment(0),
        }
    }
}

// The sooner of a timer and what was found before it.
fn sooner_of(entry: Entry, found: Option<Entry>) -> Entry
    ensures { Some result ≡ sooner_of entry found }
{
    match found {
        Some(other) if !entry.is_sooner(&other) => other,
        _ => entry,
    }
}

/// Timers that run, each with a deadline, and no name twice. There is room for each name, so no start is refused.
#[derive(Debug, Drop)]
pub struct Timers {
    entries: ArrayVec<Entry, NAMES>,
}

impl Model for Timers {
    ghost use Rattle.std.specs.Prelude.{◌≡◌, true, List};
    ghost use Rattle.nas_timers.specs.Timers.{Running, are_timers};

    ghost Value = { List Running };

    ghost view = { λ t. t.entries.items };

    ghost invariant = { λ t. are_timers t.entries.items ≡ true };
}

impl Timers {
    /// No timer runs.
    pub fn new() -> Timers
        ensures { result ≡ [] }
    {
        Timers {
            entries: ArrayVec::new(),
        }
    }

    /// The same timers once more.
    pub fn copy(&self) -> Timers
        ensures { result ≡ self.now }
    {
        let mut entries = ArrayVec::new();
        for entry in self.entries.as_slice() {
            entries.push(*entry);
        }
        Timers { entries }
    }

    /// The timer runs until this moment, whatever its deadline was; all others stay.
    pub fn start(&mut self, id: TimerId, at: Moment)
        ensures { self.new ≡ started id at self.old }
    {
        // To read the name shows that it is one of them, so that there is room.
        let _session = id.session();
        let index = self.place_of(&id);
        let entry = Entry { id, at };
        if self.is_at(index, &id) {
            self.entries[index] = entry;
        } else {
            self.entries.insert(index, entry);
        }
    }

    /// The timer runs no longer; all others stay.
    pub fn stop(&mut self, id: TimerId)
        ensures { self.new ≡ stopped id self.old }
    {
        let index = self.place_of(&id);
        if self.is_at(index, &id) {
            self.entries.remove(index);
        }
    }

    // How many names stand before this one.
    fn place_of(&self, id: &TimerId) -> usize
        ensures { result ≡ place_of id.now self.now }
    {
        let mut place = 0;
        for entry in self.entries.as_slice() {
            if !entry.id.is_before(id) {
                return place;
            }
            place += 1;
        }
        place
    }

    // Whether this name stands at a place.
    fn is_at(&self, place: usize, id: &TimerId) -> bool
        ensures { result ≡ is_at place id.now self.now }
    {
        match self.entries.as_slice().get(place) {
            Some(entry) => entry.id.is(id),
            None => false,
        }
    }

    /// The timer with the least deadline that isn't after this moment; of several with that deadline the first by name. None
    /// exactly where each deadline is after it.
    pub fn due(&self, now: Moment) -> Option<TimerId>
        ensures { result ≡ due_of now self.now }
    {
        match self.soonest(now) {
            Some(entry) => Some(entry.id),
            None => None,
        }
    }

    // The first of the timers that are due.
    fn soonest(&self, now: Moment) -> Option<Entry>
        ensures { result ≡ soonest_from now None self.now }
    {
        let mut found: Option<Entry> = None;
        for entry in self.entries.as_slice() {
            if entry.at <= now {
                found = Some(sooner_of(*entry, found));
            }
        }
        found
    }

    /// The deadline of a timer, or None exactly where it doesn't run.
    pub fn deadline(&self, id: TimerId) -> Option<Moment>
        ensures { result ≡ deadline_of id self.now }
    {
        for entry in self.entries.as_slice() {
            if entry.id.is(&id) {
                return Some(entry.at);
            }
        }
        None
    }
}
