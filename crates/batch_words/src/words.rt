ghost use Rattle.std.specs.Prelude.{◌≡◌, ℕ, ◌<◌, ◌≢◌, [], length, drop, map, string_bytes, Err, IfErr, MatchResult};
ghost use Rattle.batch_words.specs.Words.{meaning, run_order, generate_order, alone, faults_after, items_from};
ghost use Rattle.batch_words.specs.Readings.{Holds, IsFirst};
ghost use Rattle.batch_words.specs.declared.word_kind.WordKind.TheVariants.{OtherCall};

use crate::reading::{Reading, fault};
use crate::{Order, WordError, WordKind};

/// What the words after the program's name ask for: a command and its options, or the first fault.
/// It takes no memory, so it never answers NoMemory. Every command is accepted, so it never answers
/// OtherCall.
pub fn read_words(words: &[String]) -> Result<Order, WordError>
    ensures meaning { result ≡ meaning (map string_bytes words.now) }
    ensures memory { result ≢ Err WordError.NoMemory }
    ensures other_call { IfErr result (λ e. (at : ℕ) → e ≢ WordError.Fault at OtherCall) }
{
    let Some(command) = words.first() else {
        return Err(fault(0, WordKind::NoCommand));
    };
    match command.as_str() {
        "run" => run_order(words),
        "generate" => generate_order(words),
        "check" => lone_order(Order::Check, words),
        "plan" => lone_order(Order::Plan, words),
        "reference" => lone_order(Order::Reference, words),
        "events" => lone_order(Order::Events, words),
        _ => Err(fault(0, WordKind::UnknownCommand)),
    }
}

fn run_order(words: &[String]) -> Result<Order, WordError>
    requires { 0 < length words.now }
    ensures { result ≡ run_order (items_from 1 (drop 1 (map string_bytes words.now))) }
{
    let reading = read_rest(false, words)?;
    Ok(Order::Run {
        workers: reading.workers.unwrap_or(0),
    })
}

fn generate_order(words: &[String]) -> Result<Order, WordError>
    requires { 0 < length words.now }
    ensures { result ≡ generate_order (items_from 1 (drop 1 (map string_bytes words.now))) }
{
    let reading = read_rest(true, words)?;
    match reading.number {
        Some(n) => Ok(Order::Generate {
            n,
            workers: reading.workers.unwrap_or(0),
        }),
        None => Err(fault(0, WordKind::MissingNumber)),
    }
}

// The options, and the number if the command takes one, of the words after the command.
fn read_rest(takes_number: bool, words: &[String]) -> Result<Reading, WordError>
    requires { 0 < length words.now }
    ensures { let items = items_from 1 (drop 1 (map string_bytes words.now)) in MatchResult result
        (λ reading. (faults_after takes_number [] items ≡ []) × Holds reading items)
        (λ error. IsFirst (faults_after takes_number [] items) error) }
{
    let mut reading = Reading {
        workers: None,
        number: None,
    };
    let mut at = 1;
    while at < words.len() {
        at = reading.read(takes_number, words, at)?;
    }
    Ok(reading)
}

// The order of a command that takes no further word.
fn lone_order(order: Order, words: &[String]) -> Result<Order, WordError>
    requires { 0 < length words.now }
    ensures { result ≡ alone order (drop 1 (map string_bytes words.now)) }
{
    if words.len() > 1 {
        return Err(fault(1, WordKind::UnknownWord));
    }
    Ok(order)
}
