// Clauses on content hold where the inputs tell what they hold.
ghost use Rattle.std.specs.Prelude.{◌≡◌, ◌<◌, [], length, map, slice_index_or, IsTrue, IfOk};
ghost use Rattle.estate.specs.Contents.{Contents, KeepsContents};
ghost use Rattle.estate.specs.Changes.{InputCause, InputSteady};

use crate::{InputError, Sizes};
use row_core::Bytes;

/// The job's text and the files of its tables. The files of a table are numbered from 0, in the
/// byte order of their names.
pub trait Inputs {
    /// What they hold, and how often they have failed.
    ghost contents: { Self → Contents };

    fn job_text(&mut self) -> Result<Bytes, InputError>
        ensures keeps { KeepsContents (contents self.old) (contents self.new) }
        ensures text { IfOk result (λ text. IsTrue (contents self.old).told →
            text ≡ (contents self.old).job) }
        ensures cause { InputCause (contents self.old).faults (contents self.new).faults result }
        ensures steady { InputSteady (contents self.old).faults (contents self.new).faults result };

    /// The sizes of a table's files, in bytes.
    fn file_sizes(&mut self, table: &Bytes) -> Result<Sizes, InputError>
        ensures keeps { KeepsContents (contents self.old) (contents self.new) }
        ensures sizes { IfOk result (λ sizes. IsTrue (contents self.old).told →
            sizes ≡ map length ((contents self.old).files table.now)) }
        ensures cause { InputCause (contents self.old).faults (contents self.new).faults result }
        ensures steady { InputSteady (contents self.old).faults (contents self.new).faults result };

    fn read_file(&mut self, table: &Bytes, file: u32) -> Result<Bytes, InputError>
        requires { IsTrue (contents self.old).told →
            file < length ((contents self.old).files table.now) }
        ensures keeps { KeepsContents (contents self.old) (contents self.new) }
        ensures bytes { IfOk result (λ bytes. IsTrue (contents self.old).told →
            bytes ≡ slice_index_or ((contents self.old).files table.now) file []) }
        ensures cause { InputCause (contents self.old).faults (contents self.new).faults result }
        ensures steady { InputSteady (contents self.old).faults (contents self.new).faults result };
}
