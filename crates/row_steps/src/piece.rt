ghost use Rattle.std.specs.Prelude.{◌≡◌, ◌==◌, ◌∷◌, ◌<◌, length, IfSome, position};
ghost use Rattle.plan_model.specs.Operators.{pieces};
ghost use Rattle.row_steps.specs.Pieces.{pieces_left};

/// The text up to the first separator, and the text behind it, if there is a separator.
pub fn first_piece(text: &[u8], separator: u8) -> (&[u8], Option<&[u8]>)
    ensures pieces { pieces separator text.now ≡ result.0.now ∷ pieces_left separator result.1 }
    ensures shorter { IfSome result.1 (λ after. length after.now < length text.now) }
{
    match place_of(text, separator) {
        Some(at) => (&text[..at], Some(&text[at + 1..])),
        None => (text, None),
    }
}

// Where the byte first stands.
fn place_of(text: &[u8], byte: u8) -> Option<usize>
    ensures { result ≡ position (λ one. one == byte) text.now }
{
    text.iter().position(|one| *one == byte)
}
