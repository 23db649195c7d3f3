ghost use Rattle.std.specs.Prelude.{◌≡◌, ◌⊎◌, ℕ, List, Option, [], ◌∷◌, map, string_bytes, IsTrue, IsNone, IfSome, IfErr, Contains, Some, None, MatchResult};
ghost use Rattle.estate.specs.Changes.{Rose, Leads, Stays};
ghost use Rattle.batch_words.specs.declared.word_kind.WordKind.{WordKind};
ghost use Rattle.batch_commands.specs.Answers.{status_of, printed_line};
ghost use Rattle.batch_commands.specs.Causes.{HasFault, HasFinished, IsTaken, RunCause, outside};
ghost use Rattle.batch_commands.specs.Commits.{Commits, MayCommit, NameFree, NameTaken, StaysUnlessFailed};
ghost use Rattle.batch_commands.specs.Orders.{run_refusal};
ghost use Rattle.batch_commands.specs.Outcomes.{IsAnswered, IsMet, RunOutcome};
ghost use Rattle.batch_commands.specs.Refusals.{answer_to, job_answer, word_answer};
ghost use Rattle.batch_commands.specs.declared.job_refusal.JobRefusal.{JobRefusal};
ghost use Rattle.batch_commands.specs.declared.refused_kind.RefusedKind.{RefusedKind};
ghost use Rattle.batch_commands.specs.declared.unbuilt.Unbuilt.{Unbuilt};
ghost use Rattle.batch_commands.specs.declared.unbuilt.Unbuilt.TheVariants as unbuilt;
ghost use Rattle.batch_commands.specs.declared.word_refusal.WordRefusal.TheVariants as words_refused;

use crate::commit_job::commit_job;
use crate::lines::answer_line;
use crate::orders::check_run;
use crate::printing::print_outcome;
use crate::refusal::Refusal;
use crate::{Answer, Outcome};
use estate::{Clock, Estate, Gate, Inputs, Printer};
use row_core::Bytes;
use std::alloc::Global;

/// Serves the words of a command that runs: `run` commits the job that the inputs tell, and prints one
/// line. It waits for nobody and always returns; the clock and the gate are not asked yet.
pub fn run<E: Estate, I: Inputs, P: Printer, C: Clock, G: Gate>(
    alloc: Global,
    words: &[String],
    estate: &mut E,
    inputs: &mut I,
    printer: &mut P,
    _clock: &mut C,
    _gate: &G,
) -> Outcome
    // When it answers Finished, the sink has exactly one commit of the job's id: the job's text, and the text that the
    // definition gives for its plan over the tables' files. What was there before stays.
    ensures committed { result.answer ≡ Answer.Finished →
        Commits (I.contents inputs.old) (E.world estate.old) (E.world estate.new) }

    // Whatever it answers, and at each crash since the start, that commit may have been added where its id was free, and
    // nothing else.
    ensures adds { MayCommit (I.contents inputs.old) (E.world estate.old) (E.world estate.new) }

    // Where the job's name has a commit, nothing is added, whatever fails.
    ensures once { NameTaken (I.contents inputs.old) (E.world estate.old) →
        Leads Stays (E.world estate.old) (E.world estate.new) }

    // Where it answers anything but Finished or a print fault, the estate is as it was, but for a sink that failed.
    ensures stays { (result.answer ≡ Answer.Finished) ⊎ (result.answer ≡ Answer.PrintFault)
        ⊎ StaysUnlessFailed (E.world estate.old) (E.world estate.new) result.answer }

    // An accepted job whose name is free is committed, where nothing fails and memory suffices.
    ensures completes { IsNone (run_refusal (map string_bytes words.now))
        → NameFree (I.contents inputs.old) (E.world estate.old)
        → ¬ (Rose (I.contents inputs.old).faults (I.contents inputs.new).faults)
        → ¬ (Rose (E.world estate.old).counts.sink_faults (E.world estate.new).counts.sink_faults)
        → ¬ (Rose (P.printed printer.old).faults (P.printed printer.new).faults)
        → Contains (Answer.Finished ∷ Answer.NoMemory ∷ []) result.answer }

    // Words that ask for no run without workers are refused, with their first fault or as not built; no others are.
    ensures words { IfSome (run_refusal (map string_bytes words.now)) (λ refused.
        Contains (word_answer refused ∷ Answer.NoMemory ∷ []) result.answer) }
    ensures usage { (at : ℕ) (kind : WordKind) → result.answer ≡ Answer.Usage at kind
        → run_refusal (map string_bytes words.now) ≡ Some (words_refused.Usage at kind) }
    ensures unbuilt { (what : Unbuilt) → result.answer ≡ Answer.NotBuilt what
        → (what ≡ unbuilt.Commit)
        ⊎ (run_refusal (map string_bytes words.now) ≡ Some (words_refused.NotBuilt what)) }

    // A job is refused exactly where its text, or its plan, has a fault, and for the first.
    ensures refused { (kind : RefusedKind) (node : Option ℕ) (name : Option (List ℕ))
        → result.answer ≡ Answer.JobRefused kind node name
        → HasFault (I.contents inputs.old) (record { kind = kind; node = node; name = name }) }
    ensures refused_always { IsNone (run_refusal (map string_bytes words.now))
        → (fault : JobRefusal)
        → IsTrue (I.contents inputs.old).told → HasFault (I.contents inputs.old) fault
        → Contains (job_answer fault ∷ Answer.InputFault ∷ Answer.NoMemory ∷ []) result.answer }

    // `not-built commit` exactly where the sink has a commit under the job's name.
    ensures id_taken { result.answer ≡ Answer.NotBuilt unbuilt.Commit →
        IsTaken (I.contents inputs.old) (E.world estate.old) }
    ensures id_taken_always { IsNone (run_refusal (map string_bytes words.now))
        → NameTaken (I.contents inputs.old) (E.world estate.old)
        → Contains (Answer.NotBuilt unbuilt.Commit ∷ Answer.InputFault ∷ Answer.SinkFault
        ∷ Answer.NoMemory ∷ []) result.answer }

    // A fault is answered only where the count of its own object rose in this call.
    ensures input_fault { result.answer ≡ Answer.InputFault →
        Rose (I.contents inputs.old).faults (I.contents inputs.new).faults }
    ensures sink_fault { result.answer ≡ Answer.SinkFault →
        Rose (E.world estate.old).counts.sink_faults (E.world estate.new).counts.sink_faults }
    ensures print_fault { result.answer ≡ Answer.PrintFault →
        Rose (P.printed printer.old).faults (P.printed printer.new).faults }
    ensures print_fault_commits { result.answer ≡ Answer.PrintFault →
        Commits (I.contents inputs.old) (E.world estate.old) (E.world estate.new) }

    // A fault that was met is the answer, unless memory ran out for its line; a refusal stays what it is where its
    // line was not printed.
    ensures input_met { IsAnswered Answer.InputFault
        (I.contents inputs.old).faults (I.contents inputs.new).faults result.answer }
    ensures sink_met { IsAnswered Answer.SinkFault
        (E.world estate.old).counts.sink_faults (E.world estate.new).counts.sink_faults
        result.answer }
    ensures print_met { result.answer ≡ Answer.Finished →
        (P.printed printer.new).faults ≡ (P.printed printer.old).faults }

    // All of it at once, with the cause of each answer and what was printed.
    ensures outcome { RunOutcome (map string_bytes words.now)
        (outside (I.contents inputs.old) (E.world estate.old))
        (outside (I.contents inputs.new) (E.world estate.new))
        (P.printed printer.old) (P.printed printer.new) result.answer }

    ensures status { result.status ≡ status_of result.answer }
{
    Outcome::new(run_answer(alloc, words, estate, inputs, printer))
}

// The answer, after its line was printed. The line for want of memory is made before all others.
fn run_answer<E: Estate, I: Inputs, P: Printer>(
    alloc: Global,
    words: &[String],
    estate: &mut E,
    inputs: &mut I,
    printer: &mut P,
) -> Answer
    ensures { RunOutcome (map string_bytes words.now)
        (outside (I.contents inputs.old) (E.world estate.old))
        (outside (I.contents inputs.new) (E.world estate.new))
        (P.printed printer.old) (P.printed printer.new) result }
{
    let Ok(no_memory) = answer_line(alloc, &[], &Answer::NoMemory) else {
        return Answer::NoMemory;
    };
    let line = run_line(alloc, words, estate, inputs);
    print_outcome(alloc, printer, Answer::Finished, line, &no_memory)
}

// Commits the job, and gives the line to print, or why not.
fn run_line<E: Estate, I: Inputs>(
    alloc: Global,
    words: &[String],
    estate: &mut E,
    inputs: &mut I,
) -> Result<Bytes, Refusal>
    ensures why { MatchResult result
        (λ line. (run_refusal (map string_bytes words.now) ≡ None)
        × HasFinished (I.contents inputs.old) (E.world estate.old) (E.world estate.new) line)
        (λ refusal. RunCause (run_refusal (map string_bytes words.now)) []
        (outside (I.contents inputs.old) (E.world estate.old))
        (outside (I.contents inputs.new) (E.world estate.new)) (answer_to refusal)) }
    ensures stays { IfErr result (λ refusal.
        StaysUnlessFailed (E.world estate.old) (E.world estate.new) (answer_to refusal)) }
    ensures adds { MayCommit (I.contents inputs.old) (E.world estate.old) (E.world estate.new) }
    ensures input_met { IsMet Refusal.InputFault
        (I.contents inputs.old).faults (I.contents inputs.new).faults result }
    ensures sink_met { IsMet Refusal.SinkFault (E.world estate.old).counts.sink_faults
        (E.world estate.new).counts.sink_faults result }
{
    check_run(words)?;
    commit_job(alloc, estate, inputs)
}
