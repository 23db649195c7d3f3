ghost use Rattle.event_codec.specs.Spelling.{word, IsWord, counted, IsCounted, AreFit, name_bytes, NameFits, sub_bytes, SubFits};
ghost use Rattle.event_codec.specs.Fronts.{counted_free, word_free, name_free, sub_free};

use crate::reading::read_list;
use crate::writing::put_list;
use crate::{Readable, Writable};
use estate::Names;
use graph_model::Subs;
use row_core::{Bytes, NoMemory};
use std::alloc::Global;
use vertex_builder::NodeList;

impl Writable for NodeList {
    ghost spell = { counted word };

    ghost short = { λ nodes. IsCounted nodes };

    ghost fits = { AreFit IsWord };

    fn put(&self, bytes: &mut Bytes) -> Result<(), NoMemory> {
        put_list(self.as_slice(), bytes)
    }
}

impl Readable for NodeList {
    ghost spell = { counted word };

    ghost fits = { AreFit IsWord };

    fn read(alloc: Global, bytes: &[u8]) -> Result<Option<(Self, &[u8])>, NoMemory> {
        match read_list(alloc, bytes)? {
            Some((items, rest)) => Ok(Some((NodeList::from_vec(items), rest))),
            None => Ok(None),
        }
    }

    ghost free = { counted_free word IsWord word_free };
}

impl Writable for Names {
    ghost spell = { counted name_bytes };

    ghost short = { λ names. IsCounted names };

    ghost fits = { AreFit NameFits };

    fn put(&self, bytes: &mut Bytes) -> Result<(), NoMemory> {
        put_list(self.as_slice(), bytes)
    }
}

impl Readable for Names {
    ghost spell = { counted name_bytes };

    ghost fits = { AreFit NameFits };

    fn read(alloc: Global, bytes: &[u8]) -> Result<Option<(Self, &[u8])>, NoMemory> {
        match read_list(alloc, bytes)? {
            Some((items, rest)) => Ok(Some((Names::from_vec(items), rest))),
            None => Ok(None),
        }
    }

    ghost free = { counted_free name_bytes NameFits name_free };
}

impl Writable for Subs {
    ghost spell = { counted sub_bytes };

    ghost short = { λ subs. IsCounted subs };

    ghost fits = { AreFit SubFits };

    fn put(&self, bytes: &mut Bytes) -> Result<(), NoMemory> {
        put_list(self.as_slice(), bytes)
    }
}

impl Readable for Subs {
    ghost spell = { counted sub_bytes };

    ghost fits = { AreFit SubFits };

    fn read(alloc: Global, bytes: &[u8]) -> Result<Option<(Self, &[u8])>, NoMemory> {
        match read_list(alloc, bytes)? {
            Some((items, rest)) => Ok(Some((Subs::from_vec(items), rest))),
            None => Ok(None),
        }
    }

    ghost free = { counted_free sub_bytes SubFits sub_free };
}
