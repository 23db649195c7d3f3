ghost use Rattle.std.specs.Prelude.{⊤, ◌∷◌, MatchOption, IfOk};
ghost use Rattle.row_core.specs.Decoding.{Begins, NoneBegins};
ghost use Rattle.event_codec.specs.Spelling.{side_bytes, flag_bytes, cause_bytes, CauseFits};
ghost use Rattle.event_codec.specs.Fronts.{side_free, flag_free, cause_free};

use crate::writing::{put_one, put_two};
use crate::{Readable, Writable};
use estate::PartName;
use graph_model::Cause;
use plan_model::Side;
use row_core::{Bytes, NoMemory};
use std::alloc::Global;

impl Writable for Side {
    ghost spell = { side_bytes };

    ghost short = { λ side. ⊤ };

    ghost fits = { λ side. ⊤ };

    fn put(&self, bytes: &mut Bytes) -> Result<(), NoMemory> {
        match self {
            Side::Left => bytes.push(0),
            Side::Right => bytes.push(1),
        }
    }
}

impl Readable for Side {
    ghost spell = { side_bytes };

    ghost fits = { λ side. ⊤ };

    fn read(alloc: Global, bytes: &[u8]) -> Result<Option<(Self, &[u8])>, NoMemory> {
        match bytes {
            [0, rest @ ..] => Ok(Some((Side::Left, rest))),
            [1, rest @ ..] => Ok(Some((Side::Right, rest))),
            _ => Ok(None),
        }
    }

    ghost free = { side_free };
}

impl Writable for bool {
    ghost spell = { flag_bytes };

    ghost short = { λ flag. ⊤ };

    ghost fits = { λ flag. ⊤ };

    fn put(&self, bytes: &mut Bytes) -> Result<(), NoMemory> {
        if *self { bytes.push(1) } else { bytes.push(0) }
    }
}

impl Readable for bool {
    ghost spell = { flag_bytes };

    ghost fits = { λ flag. ⊤ };

    fn read(alloc: Global, bytes: &[u8]) -> Result<Option<(Self, &[u8])>, NoMemory> {
        match bytes {
            [0, rest @ ..] => Ok(Some((false, rest))),
            [1, rest @ ..] => Ok(Some((true, rest))),
            _ => Ok(None),
        }
    }

    ghost free = { flag_free };
}

impl Writable for Cause {
    ghost spell = { cause_bytes };

    ghost short = { λ cause. ⊤ };

    ghost fits = { CauseFits };

    fn put(&self, bytes: &mut Bytes) -> Result<(), NoMemory> {
        match self {
            Cause::Gate { name, code } => put_two(0, name, code, bytes),
            Cause::Lost { name } => put_one(1, name, bytes),
        }
    }
}

impl Readable for Cause {
    ghost spell = { cause_bytes };

    ghost fits = { CauseFits };

    fn read(alloc: Global, bytes: &[u8]) -> Result<Option<(Self, &[u8])>, NoMemory> {
        match bytes {
            [0, rest @ ..] => read_gate(alloc, rest),
            [1, rest @ ..] => read_lost(alloc, rest),
            _ => Ok(None),
        }
    }

    ghost free = { cause_free };
}

// The cause behind the byte of an attempt that the gate refused.
fn read_gate(alloc: Global, bytes: &[u8]) -> Result<Option<(Cause, &[u8])>, NoMemory>
    ensures { IfOk result
        (λ read. MatchOption read (NoneBegins cause_bytes CauseFits (0 ∷ bytes.now))
        (λ x. Begins cause_bytes CauseFits (0 ∷ bytes.now) x.0 x.1.now)) }
{
    match <(PartName, u32) as Readable>::read(alloc, bytes)? {
        Some(((name, code), rest)) => Ok(Some((Cause::Gate { name, code }, rest))),
        None => Ok(None),
    }
}

// And of a part that was found lost.
fn read_lost(alloc: Global, bytes: &[u8]) -> Result<Option<(Cause, &[u8])>, NoMemory>
    ensures { IfOk result
        (λ read. MatchOption read (NoneBegins cause_bytes CauseFits (1 ∷ bytes.now))
        (λ x. Begins cause_bytes CauseFits (1 ∷ bytes.now) x.0 x.1.now)) }
{
    match PartName::read(alloc, bytes)? {
        Some((name, rest)) => Ok(Some((Cause::Lost { name }, rest))),
        None => Ok(None),
    }
}
