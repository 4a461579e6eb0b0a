//! What was answered, in order.

ghost use Rattle.std.specs.Prelude.{◌≡◌, ◌+◌, ◌<◌, ◌≤◌, ◌↔◌, ◌++◌, ◌∷◌, [], length, map, slice_get, Some, OnOk, OnErr, IsOk, IsTrue};
ghost use Rattle.zd_model.specs.Entries.{shown_entry};

use std::alloc::Global;
use std::convert::From;
use std::marker::Model;
use zd_base::Memory;
use zd_model::Entry;

/// The pieces that were answered, in the order of their answers.
///
/// Contracts see the entries as `items`, each without the room of its bytes, and as `room` how many
/// more the history takes without memory.
#[derive(Drop)]
pub struct History {
    entries: Vec<Entry>,
}

impl Model for History {
    ghost use Rattle.std.specs.Prelude.{◌-◌, map, vec_len, vec_capacity};
    ghost use Rattle.zd_model.specs.Entries.{shown_entry};
    ghost use Rattle.zd_model.specs.History.{HistoryEntry};
    ghost use Rattle.zd_model.specs.Room.{ListWithRoom};

    ghost Value = { ListWithRoom HistoryEntry };

    ghost view = { λ h. record {
      items = map shown_entry h.entries.items;
      room = vec_capacity h.entries - vec_len h.entries;
    } };
}

impl History {
    /// No entries. It takes no memory.
    pub fn new(alloc: Global) -> Self
        ensures { result.items ≡ [] }
    {
        History {
            entries: Vec::new(alloc),
        }
    }

    /// Appends an entry, without memory where there is room. A refusal leaves the entries as they
    /// were.
    pub fn push(&mut self, item: Entry) -> Result<(), Memory>
        ensures ok { OnOk result (self.new.items ≡ self.old.items ++ shown_entry item ∷ []) }
        ensures err { OnErr result (self.new.items ≡ self.old.items) }
        ensures room { 0 < self.old.room → IsOk result }
        ensures room_left { self.old.room ≤ self.new.room + 1 }
    {
        self.entries.push(item).map_err(|_| Memory)
    }

    /// How many entries.
    pub fn len(&self) -> usize
        ensures { result ≡ length self.now.items }
    {
        self.entries.len()
    }

    /// Whether there are none.
    pub fn is_empty(&self) -> bool
        ensures { IsTrue result ↔ (self.now.items ≡ []) }
    {
        self.entries.is_empty()
    }

    /// Entry i, counted from 0.
    pub fn get(&self, i: usize) -> &Entry
        requires { i < length self.now.items }
        ensures { slice_get self.now.items i ≡ Some (shown_entry result.now) }
    {
        &self.entries[i]
    }

    /// How many more entries it takes without memory.
    pub fn room(&self) -> usize
        ensures { result ≡ self.now.room }
    {
        self.entries.capacity() - self.entries.len()
    }

    /// Makes room for at least `n` more entries. The entries stay, and a refusal changes nothing.
    pub fn reserve(&mut self, n: usize) -> Result<(), Memory>
        ensures ok { OnOk result (n ≤ self.new.room) }
        ensures room { n ≤ self.old.room → IsOk result }
        ensures room_left { self.old.room ≤ self.new.room }
        ensures same { self.new.items ≡ self.old.items }
    {
        self.entries.reserve(n).map_err(|_| Memory)
    }
}

impl From<Vec<Entry>> for History {
    ghost from_gives = { λ entries history. history.items ≡ map shown_entry entries.items };

    /// The same entries. It takes no memory.
    fn from(entries: Vec<Entry>) -> History {
        History { entries }
    }
}

impl From<History> for Vec<Entry> {
    ghost from_gives = { λ history entries. map shown_entry entries.items ≡ history.items };

    /// The same entries. It takes no memory.
    fn from(history: History) -> Vec<Entry> {
        history.entries
    }
}
