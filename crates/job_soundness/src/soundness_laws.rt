ghost use Rattle.job_soundness.specs.Laws.{BlockLaw, CommitLaw, EventLaw, OneListLaw, PartLaw, PutLaw, RowsLaw, SinksLaw};

use event_codec::one_spelling;
use plan_composition::sinks_have_the_text as executions_have_the_text;

/// A log says one list of events at most.
pub fn logs_say_one_list()
    ensures { OneListLaw }
{
    one_spelling();
}

/// A log with one block more says the old events and those of the block.
pub fn logs_say_a_block_more()
    ensures { BlockLaw }
{}

/// What rows are spelled by is read as those rows.
pub fn rows_are_read()
    ensures { RowsLaw }
{}

/// Where a part with a new name is put, the parts that were done stay true.
pub fn parts_stay_true()
    ensures { PutLaw }
{}

/// One legal event more stays right, where it is true and fits.
pub fn events_stay_right()
    ensures { EventLaw }
{}

/// One part more stays right, where its name is new and its epoch was opened.
pub fn parts_stay_right()
    ensures { PartLaw }
{}

/// The job's commit may be appended where none stands and the job is complete.
pub fn commits_stay_right()
    ensures { CommitLaw }
{}

/// Where each node is in a complete vertex, the text of the sinks' winners is the one that the plan
/// commits: what a commit is made of.
pub fn sinks_have_the_text()
    ensures { SinksLaw }
{
    executions_have_the_text();
}
