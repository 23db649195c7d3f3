ghost use Rattle.std.specs.Prelude.{◌≡◌, ◌<◌, [], get_or, is_some, length, position, IfOk, OnOk, OnErr};
ghost use Rattle.std.specs.List.{flat_map, list_any};
ghost use Rattle.std.specs.Str.{bytes_eq};
ghost use Rattle.indexmap.specs.IndexSet.{insert_key};

use indexmap::IndexSet;
use row_core::{Bytes, NoMemory};
use std::alloc::Global;
use std::marker::Model;

/// Texts of bytes, each once, in the order in which they first came. One is found by its hash.
#[derive(Drop)]
pub struct ByteSet {
    alloc: Global,
    texts: IndexSet<Vec<u8>>,
}

impl Model for ByteSet {
    ghost use Rattle.std.specs.Prelude.{List, ℕ, map};

    ghost Value = { List (List ℕ) };

    ghost view = { λ set. map (λ text. text.items) set.texts.keys };
}

impl ByteSet {
    pub fn new(alloc: Global) -> Self
        ensures { result ≡ [] }
    {
        ByteSet {
            alloc,
            texts: IndexSet::new(alloc),
        }
    }

    pub fn len(&self) -> usize
        ensures { result ≡ length self.now }
    {
        self.texts.len()
    }

    /// The place of these bytes, if they are there.
    pub fn place_of(&self, bytes: &[u8]) -> Option<usize>
        ensures place { result ≡ position (bytes_eq bytes.now) self.now }
        ensures found { is_some result ≡ list_any (bytes_eq bytes.now) self.now }
    {
        self.texts.get_index_of(bytes)
    }

    /// The bytes at a place.
    pub fn get(&self, place: usize) -> &[u8]
        requires { place < length self.now }
        ensures { result.now ≡ get_or self.now place [] }
    {
        self.texts.as_slice()[place].as_slice()
    }

    /// Adds these bytes at the end, unless they are there already.
    pub fn insert(&mut self, bytes: &[u8]) -> Result<(), NoMemory>
        ensures ok { OnOk result (self.new ≡ insert_key bytes_eq self.old bytes.now) }
        ensures err { OnErr result (self.new ≡ self.old) }
    {
        if self.texts.contains(bytes) {
            return Ok(());
        }
        let text = copy(self.alloc, bytes)?;
        self.texts.insert(text)?;
        Ok(())
    }

    /// All texts, one after another.
    pub fn joined(&self) -> Result<Bytes, NoMemory>
        ensures { IfOk result (λ bytes. bytes ≡ flat_map (λ text. text) self.now) }
    {
        let bytes = join(self.alloc, self.texts.as_slice())?;
        Ok(bytes)
    }
}

fn copy(alloc: Global, bytes: &[u8]) -> Result<Vec<u8>, NoMemory>
    ensures { IfOk result (λ made. made.items ≡ bytes.now) }
{
    Ok(bytes.to_vec(alloc)?)
}

fn join(alloc: Global, texts: &[Vec<u8>]) -> Result<Bytes, NoMemory>
    ensures { IfOk result (λ bytes. bytes ≡ flat_map (λ text. text.items) texts.now) }
{
    let mut bytes = Bytes::new(alloc);
    for text in texts {
        bytes.extend(text.as_slice())?;
    }
    Ok(bytes)
}

/// No bytes, in the room of these.
pub fn emptied(bytes: Bytes) -> Bytes
    ensures { result ≡ [] }
{
    let mut room = bytes.into_vec();
    room.clear();
    Bytes::from_vec(room)
}
