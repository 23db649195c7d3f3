ghost use Rattle.std.specs.Prelude.{◌≡◌, false, map, string_bytes, IsTrue};
ghost use Rattle.batch_commands.specs.Answers.{status_of};
ghost use Rattle.batch_commands.specs.Causes.{outside};
ghost use Rattle.batch_commands.specs.Orders.{is_view};
ghost use Rattle.batch_commands.specs.Outcomes.{LookOutcome, RunOutcome};

use crate::orders::is_view;
use crate::{Outcome, look, run};
use estate::{Clock, Estate, Gate, Inputs, Printer};
use std::alloc::Global;

/// Serves the words after the program's name by the call that they are of: `look` where the first one only
/// asks to see something, else `run`.
pub fn serve<E: Estate, I: Inputs, P: Printer, C: Clock, G: Gate>(
    alloc: Global,
    words: &[String],
    estate: &mut E,
    inputs: &mut I,
    printer: &mut P,
    clock: &mut C,
    gate: &G,
) -> Outcome
    ensures looks { IsTrue (is_view (map string_bytes words.now)) →
        LookOutcome (map string_bytes words.now)
        (outside (I.contents inputs.old) (E.world estate.old))
        (outside (I.contents inputs.new) (E.world estate.new))
        (P.printed printer.old) (P.printed printer.new) result.answer }
    ensures runs { is_view (map string_bytes words.now) ≡ false →
        RunOutcome (map string_bytes words.now)
        (outside (I.contents inputs.old) (E.world estate.old))
        (outside (I.contents inputs.new) (E.world estate.new))
        (P.printed printer.old) (P.printed printer.new) result.answer }
    ensures status { result.status ≡ status_of result.answer }
{
    if is_view(words) {
        look(alloc, words, estate, inputs, printer)
    } else {
        run(alloc, words, estate, inputs, printer, clock, gate)
    }
}
