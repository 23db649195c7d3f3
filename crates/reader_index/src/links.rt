ghost use Rattle.std.specs.Prelude.{◌≡◌, ◌+◌, ◌<◌, ◌≤◌, [], ◌∷◌, ◌++◌, length, map, All, vec_len, vec_capacity, OnOk};
ghost use Rattle.reader_index.specs.Links.{AreLinked};
ghost use Rattle.reader_index.specs.Tasks.{read_by};

use crate::Read;
use row_core::NoMemory;
use std::alloc::Global;

/// All reads in order of their readers, each linked to the one before it of the same producer.
#[derive(Debug, Drop)]
pub struct Links {
    pub reads: Vec<Read>,
    pub earlier: Vec<usize>,
    pub last: Vec<usize>,
}

impl Links {
    pub fn new(alloc: Global) -> Self
        ensures reads { result.reads.items ≡ [] }
        ensures linked { AreLinked 0 0 [] result.earlier.items result.last.items }
    {
        Links {
            reads: Vec::new(alloc),
            earlier: Vec::new(alloc),
            last: Vec::new(alloc),
        }
    }

    /// Takes the room of so many tasks and reads.
    pub fn reserve(&mut self, tasks: usize, reads: usize) -> Result<(), NoMemory>
        ensures reads { self.new.reads.items ≡ self.old.reads.items }
        ensures earlier { self.new.earlier.items ≡ self.old.earlier.items }
        ensures last { self.new.last.items ≡ self.old.last.items }
        ensures room_reads { OnOk result
            (vec_len self.new.reads + reads ≤ vec_capacity self.new.reads) }
        ensures room_earlier { OnOk result
            (vec_len self.new.earlier + reads ≤ vec_capacity self.new.earlier) }
        ensures room_last { OnOk result
            (vec_len self.new.last + tasks ≤ vec_capacity self.new.last) }
    {
        self.reads.reserve(reads)?;
        self.earlier.reserve(reads)?;
        self.last.reserve(tasks)?;
        Ok(())
    }

    /// A read more, of a reader that is no producer yet. There is room for it.
    fn add_read(&mut self, reader: usize, producer: usize)
        requires linked { AreLinked (reader + 1) reader
            self.old.reads.items self.old.earlier.items self.old.last.items }
        requires producer { producer < reader }
        requires room_reads { vec_len self.old.reads < vec_capacity self.old.reads }
        requires room_earlier { vec_len self.old.earlier < vec_capacity self.old.earlier }
        ensures linked { AreLinked (reader + 1) reader
            self.new.reads.items self.new.earlier.items self.new.last.items }
        ensures reads { self.new.reads.items
            ≡ self.old.reads.items ++ read_by reader producer ∷ [] }
        ensures reads_len { vec_len self.new.reads ≡ vec_len self.old.reads + 1 }
        ensures earlier_len { vec_len self.new.earlier ≡ vec_len self.old.earlier + 1 }
        ensures reads_room { vec_capacity self.new.reads ≡ vec_capacity self.old.reads }
        ensures earlier_room { vec_capacity self.new.earlier ≡ vec_capacity self.old.earlier }
        ensures last_len { vec_len self.new.last ≡ vec_len self.old.last }
        ensures last_room { vec_capacity self.new.last ≡ vec_capacity self.old.last }
    {
        self.reads.push_reserved(Read { reader, producer });
        self.earlier.push_reserved(self.last[producer]);
        self.last[producer] = self.reads.len();
    }

    /// The reads of a task more, which nobody reads from yet. There is room for them.
    pub fn add_task(&mut self, reader: usize, producers: &[usize])
        requires linked { AreLinked reader reader
            self.old.reads.items self.old.earlier.items self.old.last.items }
        requires inside { All (λ producer. producer < reader) producers.now }
        requires room_reads { vec_len self.old.reads + length producers.now
            ≤ vec_capacity self.old.reads }
        requires room_earlier { vec_len self.old.earlier + length producers.now
            ≤ vec_capacity self.old.earlier }
        requires room_last { vec_len self.old.last < vec_capacity self.old.last }
        ensures linked { AreLinked (reader + 1) (reader + 1)
            self.new.reads.items self.new.earlier.items self.new.last.items }
        ensures reads { self.new.reads.items
            ≡ self.old.reads.items ++ map (read_by reader) producers.now }
        ensures reads_len { vec_len self.new.reads
            ≡ vec_len self.old.reads + length producers.now }
        ensures earlier_len { vec_len self.new.earlier
            ≡ vec_len self.old.earlier + length producers.now }
        ensures last_len { vec_len self.new.last ≡ vec_len self.old.last + 1 }
        ensures reads_room { vec_capacity self.new.reads ≡ vec_capacity self.old.reads }
        ensures earlier_room { vec_capacity self.new.earlier ≡ vec_capacity self.old.earlier }
        ensures last_room { vec_capacity self.new.last ≡ vec_capacity self.old.last }
    {
        for place in 0..producers.len() {
            self.add_read(reader, producers[place]);
        }
        self.last.push_reserved(0);
    }
}
