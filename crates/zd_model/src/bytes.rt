//! Bytes that are seen as a list.

ghost use Rattle.std.specs.Prelude.{◌≡◌, ◌+◌, ◌<◌, ◌≤◌, [], ◌∷◌, ◌++◌, length, replicate, slice_get, Some, IfOk, OnOk, OnErr, IsOk, IsTrue, ◌↔◌};
ghost use Rattle.std.specs.Borrow.{sem};

use std::alloc::Global;
use std::convert::From;
use std::marker::Model;
use zd_base::Memory;

/// A list of bytes, with room for more.
///
/// Contracts see the bytes as `items`, and as `room` how many more it takes without memory.
#[derive(Drop)]
pub struct Bytes {
    bytes: Vec<u8>,
}

impl Model for Bytes {
    ghost use Rattle.std.specs.Prelude.{ℕ, ◌-◌, vec_len, vec_capacity};
    ghost use Rattle.zd_model.specs.Room.{ListWithRoom};

    ghost Value = { ListWithRoom ℕ };

    ghost view = { λ b. record {
      items = b.bytes.items;
      room = vec_capacity b.bytes - vec_len b.bytes;
    } };
}

impl Bytes {
    ghost use Rattle.zd_model.specs.Lending.{LendsAll};

    /// No bytes. It takes no memory.
    pub fn new(alloc: Global) -> Self
        ensures { result.items ≡ [] }
    {
        Bytes {
            bytes: Vec::new(alloc),
        }
    }

    /// No bytes, and room for at least `n`.
    pub fn with_room(alloc: Global, n: usize) -> Result<Bytes, Memory>
        ensures empty { IfOk result (λ b. b.items ≡ []) }
        ensures room { IfOk result (λ b. n ≤ b.room) }
    {
        let bytes = Vec::with_capacity(alloc, n).map_err(|_| Memory)?;
        Ok(Bytes { bytes })
    }

    /// Appends a byte, without memory where there is room. A refusal leaves the bytes as they were.
    pub fn push(&mut self, item: u8) -> Result<(), Memory>
        ensures ok { OnOk result (self.new.items ≡ self.old.items ++ item ∷ []) }
        ensures err { OnErr result (self.new.items ≡ self.old.items) }
        ensures room { 0 < self.old.room → IsOk result }
        ensures room_left { self.old.room ≤ self.new.room + 1 }
    {
        self.bytes.push(item).map_err(|_| Memory)
    }

    /// How many bytes.
    pub fn len(&self) -> usize
        ensures { result ≡ length self.now.items }
    {
        self.bytes.len()
    }

    /// Whether there are none.
    pub fn is_empty(&self) -> bool
        ensures { IsTrue result ↔ (self.now.items ≡ []) }
    {
        self.bytes.is_empty()
    }

    /// Byte i, counted from 0.
    pub fn get(&self, i: usize) -> &u8
        requires { i < length self.now.items }
        ensures { slice_get self.now.items i ≡ Some result.now }
    {
        &self.bytes[i]
    }

    /// How many more bytes it takes without memory.
    pub fn room(&self) -> usize
        ensures { result ≡ self.now.room }
    {
        self.bytes.capacity() - self.bytes.len()
    }

    /// Appends `n` zeros, without memory.
    pub fn add_zeros(&mut self, n: usize)
        requires { n ≤ self.old.room }
        ensures items { self.new.items ≡ self.old.items ++ replicate n 0 }
        ensures room_left { self.old.room ≤ self.new.room + n }
    {
        let len = self.bytes.len() + n;
        self.bytes.resize(len, 0).unwrap();
    }

    /// Drops all bytes and keeps their room.
    pub fn clear(&mut self)
        ensures empty { self.new.items ≡ [] }
        ensures room { self.new.room ≡ self.old.room + length self.old.items }
    {
        self.bytes.clear();
    }

    /// All bytes.
    pub fn bytes(&self) -> &[u8]
        ensures { result.now ≡ self.now.items }
    {
        &self.bytes
    }

    /// All bytes, to be written.
    pub fn bytes_mut(&mut self) -> &mut [u8]
        ensures* writes_back { sem 𝓛 (LendsAll self.entry result) }
        ensures value { result.now ≡ self.old.items }
    {
        self.bytes.as_mut_slice()
    }
}

impl From<Vec<u8>> for Bytes {
    ghost from_gives = { λ v b. b.items ≡ v.items };

    /// The same bytes. It takes no memory.
    fn from(bytes: Vec<u8>) -> Bytes {
        Bytes { bytes }
    }
}

impl From<Bytes> for Vec<u8> {
    ghost from_gives = { λ b v. v.items ≡ b.items };

    /// The same bytes. It takes no memory.
    fn from(bytes: Bytes) -> Vec<u8> {
        bytes.bytes
    }
}
