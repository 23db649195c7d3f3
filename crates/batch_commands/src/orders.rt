ghost use Rattle.std.specs.Prelude.{◌≡◌, map, string_bytes, Some, None, MatchResult};
ghost use Rattle.batch_words.specs.declared.word_kind.WordKind.TheVariants.{OtherCall};
ghost use Rattle.batch_commands.specs.Orders.{is_view, run_refusal, view_of};

use crate::Unbuilt;
use crate::job_view::JobView;
use crate::view::View;
use crate::word_refusal::WordRefusal;
use batch_words::{Order, WordKind, read_words};

/// Whether the words ask for a run without workers, or why they are refused.
pub fn check_run(words: &[String]) -> Result<(), WordRefusal>
    ensures { MatchResult result
        (λ _. run_refusal (map string_bytes words.now) ≡ None)
        (λ refusal. run_refusal (map string_bytes words.now) ≡ Some refusal) }
{
    match read_words(words)? {
        Order::Run { workers: 0 } => Ok(()),
        Order::Run { .. } => Err(not_built(Unbuilt::Workers)),
        Order::Generate { .. } => Err(not_built(Unbuilt::Generate)),
        Order::Check | Order::Plan | Order::Reference | Order::Events => Err(other_call()),
    }
}

/// What the words ask to see, or why they are refused.
pub fn read_view(words: &[String]) -> Result<View, WordRefusal>
    ensures { result ≡ view_of (map string_bytes words.now) }
{
    match read_words(words)? {
        Order::Check => Ok(View::OfJob(JobView::Check)),
        Order::Plan => Ok(View::OfJob(JobView::Plan)),
        Order::Reference => Ok(View::OfJob(JobView::Reference)),
        Order::Events => Ok(View::Events),
        Order::Run { .. } | Order::Generate { .. } => Err(other_call()),
    }
}

/// Whether the first word is a command that only shows something.
pub fn is_view(words: &[String]) -> bool
    ensures { result ≡ is_view (map string_bytes words.now) }
{
    let Some(word) = words.first() else {
        return false;
    };
    let word = word.as_str();
    word == "check" || word == "plan" || word == "reference" || word == "events"
}

fn not_built(what: Unbuilt) -> WordRefusal
    ensures { result ≡ WordRefusal.NotBuilt what }
{
    WordRefusal::NotBuilt { what }
}

// A command of the other call is the fault of the first word.
fn other_call() -> WordRefusal
    ensures { result ≡ WordRefusal.Usage 0 OtherCall }
{
    WordRefusal::Usage {
        at: 0,
        kind: WordKind::OtherCall,
    }
}
