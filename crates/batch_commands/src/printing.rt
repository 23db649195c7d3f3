ghost use Rattle.std.specs.Prelude.{◌≡◌, []};
ghost use Rattle.batch_commands.specs.Answers.{printed_line};
ghost use Rattle.batch_commands.specs.Refusals.{answer_to};
ghost use Rattle.batch_commands.specs.Printing.{PrintsOutcome, PrintsRefusal, TriesToAdd};

use crate::Answer;
use crate::lines::answer_line;
use crate::refusal::Refusal;
use estate::Printer;
use row_core::Bytes;
use std::alloc::Global;

/// Prints the text of a command that was done, or the line of its refusal, and gives the answer: `done`,
/// where all went well. A job that is committed stays so where its line can't be printed.
pub fn print_outcome<P: Printer>(
    alloc: Global,
    printer: &mut P,
    done: Answer,
    outcome: Result<Bytes, Refusal>,
    no_memory: &Bytes,
) -> Answer
    requires { no_memory.now ≡ printed_line [] Answer.NoMemory }
    ensures { PrintsOutcome done outcome (P.printed printer.old) (P.printed printer.new) result }
{
    match outcome {
        Ok(bytes) => match printer.print(&bytes) {
            Ok(()) => done,
            Err(_) => Answer::PrintFault,
        },
        Err(refusal) => print_refusal(alloc, printer, Answer::from(refusal), no_memory),
    }
}

// Prints the line of a refusal, or the one that was made before all others where there is no memory for it.
fn print_refusal<P: Printer>(
    alloc: Global,
    printer: &mut P,
    refused: Answer,
    no_memory: &Bytes,
) -> Answer
    requires { no_memory.now ≡ printed_line [] Answer.NoMemory }
    ensures { PrintsRefusal refused (P.printed printer.old) (P.printed printer.new) result }
{
    match answer_line(alloc, &[], &refused) {
        Ok(line) => {
            try_print(printer, &line);
            refused
        }
        Err(_) => {
            try_print(printer, no_memory);
            Answer::NoMemory
        }
    }
}

// Prints the line; a refusal stays what it is where its line can't be printed.
fn try_print<P: Printer>(printer: &mut P, line: &Bytes)
    ensures { TriesToAdd line.now (P.printed printer.old) (P.printed printer.new) }
{
    let _printed = printer.print(line);
}
