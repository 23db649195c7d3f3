ghost use Rattle.std.specs.Prelude.{◌≡◌, ◌+◌, ◌<◌, ◌≤◌, Bool, length, drop, map, Some, false, [], ◌∷◌, slice_index_or, string_bytes, IfOk};
ghost use Rattle.std.specs.Str.{bytes_eq};
ghost use Rattle.batch_words.specs.Words.{items_from, lone_item, option_name};

use crate::number::read_number;
use crate::{WordError, WordKind};

/// The greatest number of workers that an option may ask for.
pub const WORKERS_LIMIT: u32 = 64;

/// The greatest number of a generated job.
pub const GENERATOR_LIMIT: u32 = 100_000;

// What was read of the words after the command so far.
#[derive(Clone, Copy, Debug)]
pub struct Reading {
    pub workers: Option<u32>,
    pub number: Option<u32>,
}

impl Reading {
    ghost use Rattle.batch_words.specs.Words.Item.{Workers};
    ghost use Rattle.batch_words.specs.Readings.{ReadsOn};

    // Reads the item at this place. The answer is the place after it.
    pub fn read(
        &mut self,
        takes_number: bool,
        words: &[String],
        at: usize,
    ) -> Result<usize, WordError>
        requires { at < length words.now }
        ensures next { IfOk result (λ next. (at < next) × (next ≤ length words.now)) }
        ensures read { let texts = map string_bytes words.now in
            ReadsOn takes_number self.old self.new (items_from at (drop at texts))
            (λ next. items_from next (drop next texts)) result }
    {
        let word = word_at(words, at);
        if word == "--workers" {
            if at + 1 == words.len() {
                return Err(fault(at, WordKind::MissingNumber));
            }
            let number = word_at(words, at + 1);
            self.read_workers(at, at + 1, number)?;
            Ok(at + 2)
        } else {
            self.read_word(takes_number, at, word)?;
            Ok(at + 1)
        }
    }

    // Reads a word that is an item by itself.
    fn read_word(&mut self, takes_number: bool, at: usize, word: &str) -> Result<(), WordError>
        requires { bytes_eq word.now option_name ≡ false }
        ensures { ReadsOn takes_number self.old self.new (lone_item at word.now ∷ [])
            (λ _. []) result }
    {
        if let Some(number) = word.strip_prefix("--workers=") {
            return self.read_workers(at, at, number);
        }
        if word.starts_with("--") || !takes_number || self.number.is_some() {
            return Err(fault(at, WordKind::UnknownWord));
        }
        let number = read_number(word, 1, GENERATOR_LIMIT);
        if number.is_none() {
            return Err(fault(at, WordKind::BadNumber));
        }
        self.number = number;
        Ok(())
    }

    // Reads the number of an option, which stands at the option's place or at the next.
    fn read_workers(&mut self, at: usize, number_at: usize, text: &str) -> Result<(), WordError>
        ensures { (takes_number : Bool) → ReadsOn takes_number self.old self.new
            (Workers at (Some (number_at, text.now)) ∷ []) (λ _. []) result }
    {
        let workers = read_number(text, 0, WORKERS_LIMIT);
        if self.workers.is_some() && (workers.is_some() || at < number_at) {
            return Err(fault(at, WordKind::Repeated));
        }
        if workers.is_none() {
            return Err(fault(number_at, WordKind::BadNumber));
        }
        self.workers = workers;
        Ok(())
    }
}

fn word_at(words: &[String], at: usize) -> &str
    requires { at < length words.now }
    ensures { result.now ≡ slice_index_or (map string_bytes words.now) at [] }
{
    words[at].as_str()
}

// The fault of this kind at this place.
pub fn fault(at: usize, kind: WordKind) -> WordError
    ensures { result ≡ WordError.Fault at kind }
{
    WordError::Fault {
        at: at as u64,
        kind,
    }
}
