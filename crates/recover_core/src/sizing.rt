ghost use Rattle.std.specs.Prelude.{◌≡◌, ◌<◌, ◌^◌, length};
ghost use Rattle.event_codec.specs.Spelling.{event_bytes};
ghost use Rattle.graph_model.specs.declared.event.Event.TheVariants.{Reset};

use estate::Names;
use graph_model::Subs;

/// How many bytes a reset has on the log.
pub fn reset_len(gone: &Names, subtasks: &Subs) -> u128
    ensures len { result ≡ length (event_bytes (Reset gone.now subtasks.now)) }
    ensures few { result < 2 ^ 80 }
{
    let gone = gone.as_slice().len() as u128;
    let subtasks = subtasks.as_slice().len() as u128;
    9 + 16 * gone + 8 * subtasks
}
