//! The sources behind the first one.
ghost use Rattle.std.specs.Prelude.{◌≡◌, ◌∷◌, ◌++◌, ℕ, List, map, string_bytes, IfOk, IsErrOf};
ghost use Rattle.hume_ports.specs.Ports.{names};
ghost use Rattle.hume_run.specs.inner.Texts.{texts_of};
ghost use Rattle.hume_run.specs.inner.UnionReads.{AreRead, ReadFails, ReadsStop};
ghost use Rattle.hume_run.specs.Sources.{AreThere};

use hume_calls::{SourceError, read_source};
use hume_ports::{Port, find};
use std::alloc::Global;

/// The texts of all sources: the first one is given, and the others are read from the ports of these names, in their order.
pub fn read_others(
    alloc: Global,
    ports: &mut [Box<dyn Port>],
    first: Vec<u8>,
    others: &[String],
) -> Result<Vec<Vec<u8>>, SourceError>
    requires there { AreThere (map string_bytes others.now) (names (map view ports.old)) }
    ensures read { IfOk result (λ texts. (read : List (List ℕ)) × (texts_of texts.items ≡ first.items ∷ read)
        × AreRead (map string_bytes others.now) read (map view ports.old) (map view ports.new)) }
    ensures failed { IsErrOf result SourceError.Failed → ReadFails (map string_bytes others.now) (map view ports.old) (map view ports.new) }
    ensures memory { IsErrOf result SourceError.NoMemory → ReadsStop (map string_bytes others.now) (map view ports.old) (map view ports.new) }
    ensures same_names { names (map view ports.new) ≡ names (map view ports.old) }
{
    let mut texts = Vec::new(alloc);
    match texts.push(first) {
        Ok(()) => {}
        Err(_) => return Err(SourceError::NoMemory),
    }
    match add_others(alloc, ports, others, &mut texts) {
        Ok(()) => Ok(texts),
        Err(error) => Err(error),
    }
}

// Adds the texts of these sources.
#[cycle(add_others)]
fn add_others(
    alloc: Global,
    ports: &mut [Box<dyn Port>],
    sources: &[String],
    texts: &mut Vec<Vec<u8>>,
) -> Result<(), SourceError>
    requires there { AreThere (map string_bytes sources.now) (names (map view ports.old)) }
    ensures read { IfOk result (λ done. (read : List (List ℕ)) × (texts_of texts.new.items ≡ texts_of texts.old.items ++ read)
        × AreRead (map string_bytes sources.now) read (map view ports.old) (map view ports.new)) }
    ensures failed { IsErrOf result SourceError.Failed → ReadFails (map string_bytes sources.now) (map view ports.old) (map view ports.new) }
    ensures memory { IsErrOf result SourceError.NoMemory → ReadsStop (map string_bytes sources.now) (map view ports.old) (map view ports.new) }
    ensures same_names { names (map view ports.new) ≡ names (map view ports.old) }
{
    let Some((source, later)) = sources.split_first() else {
        return Ok(());
    };
    let Some(at) = find(ports, source.as_str()) else {
        unreachable!()
    };
    let text = match read_source(alloc, ports, at) {
        Ok(text) => text,
        Err(error) => return Err(error),
    };
    match texts.push(text) {
        Ok(()) => {}
        Err(_) => return Err(SourceError::NoMemory),
    }
    add_others(alloc, ports, later, texts)
}
