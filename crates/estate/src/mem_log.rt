ghost use Rattle.std.specs.Prelude.{◌≡◌, ◌+◌, ◌<◌, ◌≤◌, ◌⊎◌, [], ◌∷◌, ◌++◌, List, take, drop, length, map, true, false, nat_le, if◌then◌else◌, All, vec_len, vec_capacity, IfOk, OnOk, OnErr};
ghost use Rattle.estate.specs.Disk.{overwritten, applied, disk_of, disk_at, log_of, wrote, synced, after_event, after_changes, kept, filled, last_halved, chosen_log, mem_disk};

use crate::log_change::LogChange;
use crate::log_event::LogEvent;
use crate::mem_disk::MemDisk;
use crate::write::Write;
use row_core::{Bytes, NoMemory};
use std::alloc::Global;

/// A log in memory. It keeps what happened to it, so that a crash may be tried at each moment.
#[derive(Debug, Drop)]
pub struct MemLog {
    bytes: Vec<u8>,
    pub changes: Vec<LogChange>,
    // Whether something was written since the last sync, which then has room, so that it takes no
    // memory.
    unsynced: bool,
    ghost is: { bytes.items ≡ log_of changes.items },
    ghost settled: { unsynced ≡ false → (disk_of changes.items).writes ≡ [] },
    ghost room: { unsynced ≡ true → vec_len changes < vec_capacity changes },
}

impl MemLog {
    pub fn new(alloc: Global) -> Self
        ensures { result.changes.items ≡ [] }
    {
        MemLog {
            bytes: Vec::new(alloc),
            changes: Vec::new(alloc),
            unsynced: false,
        }
    }

    pub fn len(&self) -> u64
        ensures { result ≡ length (log_of self.now.changes.items) }
    {
        self.bytes.len() as u64
    }

    pub fn read(&self, alloc: Global, at: u64, len: u64) -> Result<Bytes, NoMemory>
        requires { at + len ≤ length (log_of self.now.changes.items) }
        ensures { IfOk result (λ bytes. bytes
            ≡ take len (drop at (log_of self.now.changes.items))) }
    {
        let tail = &self.bytes.as_slice()[at as usize..];
        Bytes::from_slice(alloc, &tail[..len as usize])
    }

    /// Writes over what is there, in its place.
    pub fn write(
        &mut self,
        alloc: Global,
        at: u64,
        bytes: &Bytes,
        since: u64,
    ) -> Result<(), NoMemory>
        ensures ok { OnOk result
            (self.new.changes.items ≡ self.old.changes.items ++ wrote since at bytes.now ∷ []) }
        ensures err { OnErr result (self.new.changes.items ≡ self.old.changes.items) }
    {
        self.changes.reserve(2)?;
        let write = Write {
            at,
            bytes: Bytes::from_slice(alloc, bytes.as_slice())?,
        };
        overwrite(&mut self.bytes, at as usize, bytes.as_slice())?;
        self.changes.push_reserved(LogChange {
            since,
            event: LogEvent::Wrote(write),
        });
        self.unsynced = true;
        Ok(())
    }

    /// The log that a crash at a moment leaves by its choice, all of it on the disk.
    pub fn crash(&self, alloc: Global, moment: u64, choice: u32) -> Result<MemLog, NoMemory>
        requires { choice ≤ 3 }
        ensures whole { IfOk result (λ log.
            log_of log.changes.items ≡ chosen_log choice (disk_at moment self.now.changes.items)) }
        ensures synced { IfOk result (λ log. (disk_of log.changes.items).writes ≡ []) }
        ensures first { IfOk result (λ log. All (λ change. change.since ≡ 0) log.changes.items) }
    {
        let mut disk = replayed(alloc, &self.changes, moment)?;
        let writes = kept_writes(alloc, &disk.writes, choice)?;
        apply_all(&mut disk.durable, &writes)?;
        let mut made = MemLog::new(alloc);
        made.write(alloc, 0, &Bytes::from_vec(disk.durable), 0)?;
        made.sync(0);
        Ok(made)
    }

    /// Takes no memory.
    pub fn sync(&mut self, since: u64)
        ensures changes { (self.new.changes.items ≡ self.old.changes.items)
            ⊎ (self.new.changes.items ≡ self.old.changes.items ++ synced since ∷ []) }
        ensures synced { (disk_of self.new.changes.items).writes ≡ [] }
    {
        if self.unsynced {
            self.changes.push_reserved(LogChange {
                since,
                event: LogEvent::Synced,
            });
            self.unsynced = false;
        }
    }
}

// The disk at a moment.
fn replayed(alloc: Global, changes: &[LogChange], moment: u64) -> Result<MemDisk, NoMemory>
    ensures { IfOk result (λ disk. mem_disk disk ≡ disk_at moment changes.now) }
{
    let mut disk = MemDisk::new(alloc);
    for change in changes {
        take_change(alloc, &mut disk, change, moment)?;
    }
    Ok(disk)
}

fn take_change(
    alloc: Global,
    disk: &mut MemDisk,
    change: &LogChange,
    moment: u64,
) -> Result<(), NoMemory>
    ensures { OnOk result (mem_disk disk.new ≡ after_changes (mem_disk disk.old)
        (if nat_le change.now.since moment then change.now ∷ [] else [])) }
{
    if change.since <= moment {
        return take_event(alloc, disk, &change.event);
    }
    Ok(())
}

fn take_event(alloc: Global, disk: &mut MemDisk, event: &LogEvent) -> Result<(), NoMemory>
    ensures { OnOk result (mem_disk disk.new ≡ after_event (mem_disk disk.old) event.now) }
{
    match event {
        LogEvent::Wrote(write) => disk.writes.push(write.copy(alloc)?)?,
        LogEvent::Synced => {
            apply_all(&mut disk.durable, &disk.writes)?;
            disk.writes.clear();
        }
    }
    Ok(())
}

// What stays of the writes.
fn kept_writes(alloc: Global, writes: &[Write], choice: u32) -> Result<Vec<Write>, NoMemory>
    requires { choice ≤ 3 }
    ensures { IfOk result (λ made. made.items ≡ kept choice writes.now) }
{
    match choice {
        0 => Ok(Vec::new(alloc)),
        1 => copied(alloc, writes),
        2 => all_filled(alloc, writes),
        _ => {
            let mut made = copied(alloc, writes)?;
            halve_last(alloc, &mut made)?;
            Ok(made)
        }
    }
}

fn copied(alloc: Global, writes: &[Write]) -> Result<Vec<Write>, NoMemory>
    ensures { IfOk result (λ made. made.items ≡ writes.now) }
{
    let mut made = Vec::new(alloc);
    for write in writes {
        made.push(write.copy(alloc)?)?;
    }
    Ok(made)
}

fn all_filled(alloc: Global, writes: &[Write]) -> Result<Vec<Write>, NoMemory>
    ensures { IfOk result (λ made. made.items ≡ map filled writes.now) }
{
    let mut made = Vec::new(alloc);
    for write in writes {
        made.push(write.filled(alloc)?)?;
    }
    Ok(made)
}

fn halve_last(alloc: Global, writes: &mut Vec<Write>) -> Result<(), NoMemory>
    ensures { OnOk result (writes.new.items ≡ last_halved writes.old.items) }
{
    if let Some(last) = writes.pop() {
        writes.push(last.halved(alloc)?)?;
    }
    Ok(())
}

fn apply_all(log: &mut Vec<u8>, writes: &[Write]) -> Result<(), NoMemory>
    ensures { OnOk result (log.new.items ≡ applied writes.now log.old.items) }
{
    for write in writes {
        overwrite(log, write.at as usize, write.bytes.as_slice())?;
    }
    Ok(())
}

// The log with these bytes written at a place.
fn overwrite(log: &mut Vec<u8>, at: usize, bytes: &[u8]) -> Result<(), NoMemory>
    ensures ok { OnOk result (log.new.items ≡ overwritten log.old.items at bytes.now) }
    ensures err { OnErr result (log.new.items ≡ log.old.items) }
{
    let start = at.min(log.len());
    let over = bytes.len().min(log.len() - start);
    log.extend_from_slice(&bytes[over..])?;
    log[start..start + over].copy_from_slice(&bytes[..over]);
    Ok(())
}
