ghost use Rattle.std.specs.Prelude.{◌≡◌, ◌<◌, ◌≤◌, ◌+◌, [], ◌∷◌, length, map, take, IfOk, IfSome, IsErrOf};
ghost use Rattle.hume_base.specs.declared.limits.TheConstants.{MAX_SOURCE_BYTES as MAX};
ghost use Rattle.hume_ports.specs.Ports.{names, left_of, ForNameAt};
ghost use Rattle.port_acts.specs.Early.{read_each};
ghost use Rattle.port_acts.specs.Ends.{Made, Fails};
ghost use Rattle.hume_calls.specs.Few.{source_few};
ghost use Rattle.hume_calls.specs.Reading.{script_reads, script_text, source_reads, source_text};

use box_calculus::MAX_SCRIPT_BYTES;
use hume_base::limits::MAX_SOURCE_BYTES;
use hume_ports::{Failed, Port, fill_at};
use std::alloc::Global;
use thiserror::Error;

/// Why a source or a script wasn't read.
#[derive(Debug, Drop, Error)]
pub enum SourceError {
    #[error("the port failed")]
    Failed,
    #[error("out of memory")]
    NoMemory,
}

/// Reads the source from the port at that place, to its end or to one byte more than a source may have.
pub fn read_source(
    alloc: Global,
    ports: &mut [Box<dyn Port>],
    at: usize,
) -> Result<Vec<u8>, SourceError>
    requires { at < length ports.old }
    ensures made { IfOk result (λ text. ForNameAt at (map view ports.old) (λ name.
        Made (read_each (source_reads name)) ((name, text.items) ∷ []) (map view ports.old) (map view ports.new))) }
    ensures text { IfOk result (λ text. ForNameAt at (map view ports.old) (λ name.
        IfSome (left_of name (map view ports.old)) (λ left. text.items ≡ source_text left))) }
    ensures short { IfOk result (λ text. length text.items ≤ MAX + 1) }
    ensures failed { IsErrOf result SourceError.Failed → ForNameAt at (map view ports.old) (λ name.
        Fails (source_few name) [] (read_each (source_reads name)) (map view ports.old) (map view ports.new)) }
    ensures memory { IsErrOf result SourceError.NoMemory → map view ports.new ≡ map view ports.old }
    ensures same_names { names (map view ports.new) ≡ names (map view ports.old) }
{
    read_whole(alloc, ports, at, MAX_SOURCE_BYTES + 1)
}

/// Reads a script from the port at that place, to its end or to one byte more than its lines may have.
pub fn read_script(
    alloc: Global,
    ports: &mut [Box<dyn Port>],
    at: usize,
) -> Result<Vec<u8>, SourceError>
    requires { at < length ports.old }
    ensures made { IfOk result (λ text. ForNameAt at (map view ports.old) (λ name.
        Made (read_each (script_reads name)) ((name, text.items) ∷ []) (map view ports.old) (map view ports.new))) }
    ensures text { IfOk result (λ text. ForNameAt at (map view ports.old) (λ name.
        IfSome (left_of name (map view ports.old)) (λ left. text.items ≡ script_text left))) }
    ensures whole { IfOk result (λ text. script_text text.items ≡ text.items) }
    ensures failed { IsErrOf result SourceError.Failed → ForNameAt at (map view ports.old) (λ name.
        Fails (source_few name) [] (read_each (script_reads name)) (map view ports.old) (map view ports.new)) }
    ensures memory { IsErrOf result SourceError.NoMemory → map view ports.new ≡ map view ports.old }
    ensures same_names { names (map view ports.new) ≡ names (map view ports.old) }
{
    read_whole(alloc, ports, at, MAX_SCRIPT_BYTES + 1)
}

// Reads the port at that place, to its end or until so many bytes have come.
fn read_whole(
    alloc: Global,
    ports: &mut [Box<dyn Port>],
    at: usize,
    most: usize,
) -> Result<Vec<u8>, SourceError>
    requires { at < length ports.old }
    ensures made { IfOk result (λ text. ForNameAt at (map view ports.old) (λ name.
        Made (read_each ((name, most) ∷ [])) ((name, text.items) ∷ []) (map view ports.old) (map view ports.new))) }
    ensures text { IfOk result (λ text. ForNameAt at (map view ports.old) (λ name.
        IfSome (left_of name (map view ports.old)) (λ left. text.items ≡ take most left))) }
    ensures whole { IfOk result (λ text. take most text.items ≡ text.items) }
    ensures short { IfOk result (λ text. length text.items ≤ most) }
    ensures failed { IsErrOf result SourceError.Failed → ForNameAt at (map view ports.old) (λ name.
        Fails (source_few name) [] (read_each ((name, most) ∷ [])) (map view ports.old) (map view ports.new)) }
    ensures memory { IsErrOf result SourceError.NoMemory → map view ports.new ≡ map view ports.old }
    ensures same_names { names (map view ports.new) ≡ names (map view ports.old) }
{
    let Ok(mut text) = vec![in alloc; 0u8; most] else {
        return Err(SourceError::NoMemory);
    };
    match fill_at(ports, at, &mut text) {
        Ok(count) => {
            text.truncate(count);
            Ok(text)
        }
        Err(Failed) => Err(SourceError::Failed),
    }
}
