//! The call over its ports.
ghost use Rattle.std.specs.Prelude.{◌≡◌, ◌↔◌, ℕ, List, [], ◌∷◌, map, string_bytes};
ghost use Rattle.hume_ports.specs.Ports.{names};
ghost use Rattle.port_acts.specs.Places.{IsPlaceOf};
ghost use Rattle.run_rounds.specs.Streams.{std_out};
ghost use Rattle.hume_c.specs.Headline.{Answers, Headline, IsUsage};
ghost use Rattle.hume_c.specs.inner.Told.{EndsText, EndsTold};

use crate::texts::text_of;
use crate::words::{Kind, is_name, kind_of};
use hume_calls::{SourceError, Status, end_unaccepted, read_source};
use hume_front::accept_typed;
use hume_model::Core;
use hume_ports::{Failed, Port, find};
use port_acts::write_and_finish;
use std::alloc::Global;
use typed_core::Trees;

/// Does what the words `KIND NAME SOURCE` ask for, over the ports, and says how it ended. Of two ports with one name the first is meant.
pub fn hume_c(alloc: Global, words: &[String], ports: &mut [Box<dyn Port>]) -> Status
    ensures usage { (result ≡ Status.Usage) ↔ IsUsage (map string_bytes words.now) (names (map view ports.old)) }
    ensures idle { result ≡ Status.Usage → map view ports.new ≡ map view ports.old }
    ensures run { Headline (map string_bytes words.now) (map view ports.old) (map view ports.new) result }
{
    match words {
        [kind, name, source] => ask(
            alloc,
            ports,
            kind.as_str(),
            name.as_bytes(),
            source.as_str(),
        ),
        _ => Status::Usage,
    }
}

// Does what three words ask for.
fn ask(alloc: Global, ports: &mut [Box<dyn Port>], kind: &str, name: &[u8], source: &str) -> Status
    ensures usage { (result ≡ Status.Usage) ↔ IsUsage (kind.now ∷ name.now ∷ source.now ∷ []) (names (map view ports.old)) }
    ensures idle { result ≡ Status.Usage → map view ports.new ≡ map view ports.old }
    ensures run { Headline (kind.now ∷ name.now ∷ source.now ∷ []) (map view ports.old) (map view ports.new) result }
{
    let Some(kind) = kind_of(kind) else {
        return Status::Usage;
    };
    if !is_name(name) {
        return Status::Usage;
    }
    let Some(out) = find(ports, "std_out") else {
        return Status::Usage;
    };
    let Some(at) = find(ports, source) else {
        return Status::Usage;
    };
    answer(alloc, ports, kind, name, source, at, out)
}

// Reads the source from the port at the place `at`, and goes on with its text.
fn answer(
    alloc: Global,
    ports: &mut [Box<dyn Port>],
    kind: Kind,
    name: &[u8],
    source: &str,
    at: usize,
    out: usize,
) -> Status
    requires source { IsPlaceOf source.now (names (map view ports.old)) at }
    requires out { IsPlaceOf std_out (names (map view ports.old)) out }
    ensures answers { Answers (record { kind = kind; name = name.now; source = source.now }) (map view ports.old) (map view ports.new) result }
    ensures used { result ≡ Status.Usage → ⊥ }
{
    match read_source(alloc, ports, at) {
        Ok(text) => tell(alloc, ports, kind, name, &text, out),
        Err(SourceError::Failed) => Status::Fault,
        Err(SourceError::NoMemory) => Status::NoMemory,
    }
}

// Tells the text of an accepted source, or the rule that another one breaks.
fn tell(
    alloc: Global,
    ports: &mut [Box<dyn Port>],
    kind: Kind,
    name: &[u8],
    text: &[u8],
    out: usize,
) -> Status
    requires out { IsPlaceOf std_out (names (map view ports.old)) out }
    ensures ends { (source : List ℕ) → EndsText (record { kind = kind; name = name.now; source = source }) text.now (map view ports.old)
        (map view ports.new) result }
    ensures used { result ≡ Status.Usage → ⊥ }
{
    match accept_typed(alloc, text) {
        Ok(source) => tell_text(
            alloc,
            ports,
            kind,
            name,
            &source.accepted.core,
            &source.trees,
            out,
        ),
        Err(error) => end_unaccepted(alloc, ports, out, error),
    }
}

// Memory is taken before the first byte is written.
fn tell_text(
    alloc: Global,
    ports: &mut [Box<dyn Port>],
    kind: Kind,
    name: &[u8],
    core: &Core,
    trees: &Trees,
    out: usize,
) -> Status
    requires out { IsPlaceOf std_out (names (map view ports.old)) out }
    ensures ends { EndsTold kind name.now core.now trees.now (map view ports.old) (map view ports.new) result }
    ensures used { result ≡ Status.Usage → ⊥ }
{
    let Ok(text) = text_of(alloc, kind, name, core, trees) else {
        return Status::NoMemory;
    };
    match write_and_finish(ports, out, &text) {
        Ok(()) => Status::Done,
        Err(Failed) => Status::Fault,
    }
}
