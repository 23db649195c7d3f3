ghost use Rattle.std.specs.Prelude.{◌≡◌, ◌≤◌, ℕ, List, length, Option, Err, [], ◌∷◌, ◌++◌, map, string_bytes, IsTrue, Contains, IfErr, MatchResult};
ghost use Rattle.estate.specs.Changes.{LogRose, Rose, Leads, Stays};
ghost use Rattle.event_log.specs.declared.log.TheConstants.{LOG_LIMIT};
ghost use Rattle.job_json.specs.declared.job.Job.{Job};
ghost use Rattle.batch_words.specs.declared.word_kind.WordKind.{WordKind};
ghost use Rattle.batch_commands.specs.Answers.{status_of, printed_line};
ghost use Rattle.batch_commands.specs.Causes.{HasFault, LookCause, outside};
ghost use Rattle.batch_commands.specs.Events.{IsBadLog, IsGoodLog, IsTooLong};
ghost use Rattle.job_events.specs.Logs.{IsAccepted};
ghost use Rattle.batch_commands.specs.Orders.{AsksForEvents, AsksOfJob, view_of};
ghost use Rattle.batch_commands.specs.Outcomes.{IsAnswered, IsMet, IsNotShown, LookOutcome};
ghost use Rattle.batch_commands.specs.Refusals.{answer_to, job_answer, word_answer};
ghost use Rattle.batch_commands.specs.Views.{ShowsAsked};
ghost use Rattle.batch_commands.specs.declared.job_refusal.JobRefusal.{JobRefusal};
ghost use Rattle.batch_commands.specs.declared.log_refusal.LogRefusal.TheVariants as log;
ghost use Rattle.batch_commands.specs.declared.quantity.Quantity.{Quantity};
ghost use Rattle.batch_commands.specs.declared.refused_kind.RefusedKind.{RefusedKind};
ghost use Rattle.batch_commands.specs.declared.unbuilt.Unbuilt.{Unbuilt};
ghost use Rattle.batch_commands.specs.declared.word_refusal.WordRefusal.TheVariants as words_refused;

use crate::lines::answer_line;
use crate::orders::read_view;
use crate::printing::print_outcome;
use crate::refusal::Refusal;
use crate::view_text::view_text;
use crate::{Answer, Outcome};
use estate::{Estate, Inputs, Printer};
use row_core::Bytes;
use std::alloc::Global;

/// Serves the words of a command that only shows something: `check` how many nodes and sinks the job has
/// that the inputs tell, `plan` its vertices, `reference` the text that it commits, and `events` the events
/// of the estate's log, a line each. `events` reads the log alone, the others the inputs alone. It waits for
/// nobody and always returns.
pub fn look<E: Estate, I: Inputs, P: Printer>(
    alloc: Global,
    words: &[String],
    estate: &mut E,
    inputs: &mut I,
    printer: &mut P,
) -> Outcome
    // Nothing is written to the estate.
    ensures writes_nothing { Leads Stays (E.world estate.old) (E.world estate.new) }

    // Where it answers Shown, exactly the text was printed that the words ask for.
    ensures shown { result.answer ≡ Answer.Shown → IsTrue (P.printed printer.old).told →
        (text : List ℕ)
        × ShowsAsked (view_of (map string_bytes words.now))
        (I.contents inputs.old) (E.world estate.old) text
        × ((P.printed printer.new).bytes ≡ (P.printed printer.old).bytes ++ text) }

    // An accepted job is shown, where nothing fails and memory suffices.
    ensures completes { AsksOfJob (map string_bytes words.now)
        → IsTrue (I.contents inputs.old).told
        → (job : Job) → IsAccepted (I.contents inputs.old).job job
        → ¬ (Rose (I.contents inputs.old).faults (I.contents inputs.new).faults)
        → ¬ (Rose (P.printed printer.old).faults (P.printed printer.new).faults)
        → Contains (Answer.Shown ∷ Answer.NoMemory ∷ []) result.answer }

    // So is a log of which nothing is wrong, and which is no longer than a log may be.
    ensures shows_log { AsksForEvents (map string_bytes words.now)
        → IsTrue (E.world estate.old).told
        → IsGoodLog (E.world estate.old).holding.log
        → length (E.world estate.old).holding.log ≤ LOG_LIMIT
        → ¬ (LogRose (E.world estate.old) (E.world estate.new))
        → ¬ (Rose (P.printed printer.old).faults (P.printed printer.new).faults)
        → Contains (Answer.Shown ∷ Answer.NoMemory ∷ []) result.answer }

    // Words that ask for nothing to see are refused, with their first fault; no others are. All that `look` knows is built.
    ensures words { IfErr (view_of (map string_bytes words.now)) (λ refused.
        Contains (word_answer refused ∷ Answer.NoMemory ∷ []) result.answer) }
    ensures usage { (at : ℕ) (kind : WordKind) → result.answer ≡ Answer.Usage at kind
        → view_of (map string_bytes words.now) ≡ Err (words_refused.Usage at kind) }
    ensures built { (what : Unbuilt) → ¬ (result.answer ≡ Answer.NotBuilt what) }

    // A job is refused exactly where its text, or its plan, has a fault, and for the first.
    ensures refused { (kind : RefusedKind) (node : Option ℕ) (name : Option (List ℕ))
        → result.answer ≡ Answer.JobRefused kind node name
        → HasFault (I.contents inputs.old) (record { kind = kind; node = node; name = name }) }
    ensures refused_always { AsksOfJob (map string_bytes words.now) → (fault : JobRefusal)
        → IsTrue (I.contents inputs.old).told → HasFault (I.contents inputs.old) fault
        → Contains (job_answer fault ∷ Answer.InputFault ∷ Answer.NoMemory ∷ []) result.answer }

    // A log is refused exactly where it is longer than a log may be, and then it is not looked into, or something is
    // wrong with it, and then for the first place.
    ensures too_large { (what : Quantity) (number : ℕ) → result.answer ≡ Answer.TooLarge what number
        → IsTrue (E.world estate.old).told
        → IsTooLong (E.world estate.old).holding.log what number }
    ensures too_large_always { AsksForEvents (map string_bytes words.now)
        → IsTrue (E.world estate.old).told → (what : Quantity) (number : ℕ)
        → IsTooLong (E.world estate.old).holding.log what number
        → Contains (Answer.TooLarge what number ∷ Answer.LogFault ∷ Answer.NoMemory ∷ [])
        result.answer }
    ensures bad_log { (block event : ℕ) → result.answer ≡ Answer.BadLog block event
        → IsTrue (E.world estate.old).told
        → IsBadLog (E.world estate.old).holding.log block event }
    ensures bad_log_always { AsksForEvents (map string_bytes words.now)
        → IsTrue (E.world estate.old).told
        → (block event : ℕ) → IsBadLog (E.world estate.old).holding.log block event
        → IsNotShown result.answer }

    // A fault is answered only where the count of its own object rose in this call.
    ensures input_fault { result.answer ≡ Answer.InputFault →
        Rose (I.contents inputs.old).faults (I.contents inputs.new).faults }
    ensures log_fault { result.answer ≡ Answer.LogFault →
        LogRose (E.world estate.old) (E.world estate.new) }
    ensures print_fault { result.answer ≡ Answer.PrintFault →
        Rose (P.printed printer.old).faults (P.printed printer.new).faults }

    // A fault that was met is the answer, unless memory ran out for its line; a refusal stays what it is where its
    // line was not printed.
    ensures input_met { IsAnswered Answer.InputFault
        (I.contents inputs.old).faults (I.contents inputs.new).faults result.answer }
    ensures log_met { IsAnswered Answer.LogFault (E.world estate.old).counts.log_faults
        (E.world estate.new).counts.log_faults result.answer }
    ensures print_met { result.answer ≡ Answer.Shown →
        (P.printed printer.new).faults ≡ (P.printed printer.old).faults }

    // All of it at once, with the cause of each answer; it never answers Finished or a fault of the sink.
    ensures outcome { LookOutcome (map string_bytes words.now)
        (outside (I.contents inputs.old) (E.world estate.old))
        (outside (I.contents inputs.new) (E.world estate.new))
        (P.printed printer.old) (P.printed printer.new) result.answer }

    ensures status { result.status ≡ status_of result.answer }
{
    Outcome::new(look_answer(alloc, words, estate, inputs, printer))
}

// The answer, after the text or its line was printed. The line for want of memory is made before all others.
fn look_answer<E: Estate, I: Inputs, P: Printer>(
    alloc: Global,
    words: &[String],
    estate: &mut E,
    inputs: &mut I,
    printer: &mut P,
) -> Answer
    ensures { LookOutcome (map string_bytes words.now)
        (outside (I.contents inputs.old) (E.world estate.old))
        (outside (I.contents inputs.new) (E.world estate.new))
        (P.printed printer.old) (P.printed printer.new) result }
{
    let Ok(no_memory) = answer_line(alloc, &[], &Answer::NoMemory) else {
        return Answer::NoMemory;
    };
    let text = asked_text(alloc, words, estate, inputs);
    print_outcome(alloc, printer, Answer::Shown, text, &no_memory)
}

// The text that the words ask for, or why there is none.
fn asked_text<E: Estate, I: Inputs>(
    alloc: Global,
    words: &[String],
    estate: &mut E,
    inputs: &mut I,
) -> Result<Bytes, Refusal>
    ensures why { MatchResult result
        (ShowsAsked (view_of (map string_bytes words.now))
        (I.contents inputs.old) (E.world estate.old))
        (λ refusal. LookCause (view_of (map string_bytes words.now)) []
        (outside (I.contents inputs.old) (E.world estate.old))
        (outside (I.contents inputs.new) (E.world estate.new)) (answer_to refusal)) }
    ensures writes_nothing { Leads Stays (E.world estate.old) (E.world estate.new) }
    ensures input_met { IsMet Refusal.InputFault
        (I.contents inputs.old).faults (I.contents inputs.new).faults result }
    ensures log_met { IsMet (Refusal.Log log.Fault) (E.world estate.old).counts.log_faults
        (E.world estate.new).counts.log_faults result }
{
    let view = read_view(words)?;
    view_text(alloc, view, estate, inputs)
}
