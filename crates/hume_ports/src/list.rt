ghost use Rattle.std.specs.Prelude.{◌≡◌, ◌<◌, ◌≤◌, ℕ, true, [], ◌∷◌, length, map, take, IfOk, IfSome, IsOk, OnOk, OnErr};
ghost use Rattle.std.specs.Io.{ReadsAtMost};
ghost use Rattle.std.specs.Io.KnownBytes.{IsAtEnd};
ghost use Rattle.hume_ports.specs.Port.{IsRead, IsWrite, IsFinish};
ghost use Rattle.hume_ports.specs.Ports.{names, ForNameAt, StepAt, Untouched, left_of, flushed_of};
ghost use Rattle.hume_ports.specs.Delivery.{Progress, ReadFailure, WriteFailure, FinishFailure, Roomy};

use crate::{Failed, Port};

/// Reads from the port at that place.
pub fn read_at(ports: &mut [Box<dyn Port>], at: usize, buf: &mut [u8]) -> Result<usize, Failed>
    requires place { at < length ports.old }
    requires room { 0 < length buf.old }
    ensures step { StepAt (map view ports.old) (map view ports.new) at (λ old new.
        IsRead old new result buf.new) }
    ensures bound { ReadsAtMost result buf.new }

    ensures taken { IfOk result (λ count. ForNameAt at (map view ports.old) (λ name.
        Progress (map view ports.old) (map view ports.new) ((name, take count buf.new) ∷ []) [])) }
    ensures end { IfOk result (λ count. count ≡ 0 → ForNameAt at (map view ports.old) (λ name.
        IsAtEnd (left_of name (map view ports.new)))) }
    ensures failed { OnErr result (ForNameAt at (map view ports.old) (λ name.
        ReadFailure name (map view ports.old) (map view ports.new) [] [])) }
    ensures roomy { Roomy (map view ports.old) [] → IsOk result }

    ensures same_names { names (map view ports.new) ≡ names (map view ports.old) }
    ensures untouched { ForNameAt at (map view ports.old) (λ name.
        Untouched (name ∷ []) (map view ports.old) (map view ports.new)) }
{
    read_from(&mut ports[at], buf)
}

/// Reads from the port at that place until the buffer is full or nothing is left, and says how many bytes came.
pub fn fill_at(ports: &mut [Box<dyn Port>], at: usize, buf: &mut [u8]) -> Result<usize, Failed>
    requires { at < length ports.old }
    ensures bound { ReadsAtMost result buf.new }

    ensures taken { IfOk result (λ count. ForNameAt at (map view ports.old) (λ name.
        Progress (map view ports.old) (map view ports.new) ((name, take count buf.new) ∷ []) [])) }
    ensures front { IfOk result (λ count. ForNameAt at (map view ports.old) (λ name.
        IfSome (left_of name (map view ports.old)) (λ left. take count buf.new ≡ take (length buf.new) left))) }
    ensures end { IfOk result (λ count. count < length buf.new → ForNameAt at (map view ports.old) (λ name.
        IsAtEnd (left_of name (map view ports.new)))) }
    ensures failed { OnErr result (ForNameAt at (map view ports.old) (λ name.
        (count : ℕ) × (count < length buf.new) × ReadFailure name
        (map view ports.old) (map view ports.new) ((name, take count buf.new) ∷ []) [])) }
    ensures roomy { Roomy (map view ports.old) [] → IsOk result }

    ensures same_names { names (map view ports.new) ≡ names (map view ports.old) }
    ensures untouched { ForNameAt at (map view ports.old) (λ name.
        Untouched (name ∷ []) (map view ports.old) (map view ports.new)) }
{
    let mut filled = 0;
    while filled < buf.len() {
        match read_at(ports, at, &mut buf[filled..]) {
            Ok(0) => return Ok(filled),
            Ok(count) => filled += count,
            Err(failed) => return Err(failed),
        }
    }
    Ok(filled)
}

/// Writes to the port at that place.
pub fn write_at(ports: &mut [Box<dyn Port>], at: usize, bytes: &[u8]) -> Result<(), Failed>
    requires { at < length ports.old }
    ensures step { StepAt (map view ports.old) (map view ports.new) at (λ old new.
        IsWrite old new result bytes.now) }

    ensures given { OnOk result (ForNameAt at (map view ports.old) (λ name.
        Progress (map view ports.old) (map view ports.new) [] ((name, bytes.now) ∷ []))) }
    ensures failed { OnErr result (ForNameAt at (map view ports.old) (λ name.
        (count : ℕ) × (count ≤ length bytes.now) × WriteFailure name
        (map view ports.old) (map view ports.new) [] ((name, take count bytes.now) ∷ []))) }
    ensures roomy { ForNameAt at (map view ports.old) (λ name.
        Roomy (map view ports.old) ((name, bytes.now) ∷ []) → IsOk result) }

    ensures same_names { names (map view ports.new) ≡ names (map view ports.old) }
    ensures untouched { ForNameAt at (map view ports.old) (λ name.
        Untouched (name ∷ []) (map view ports.old) (map view ports.new)) }
{
    write_to(&mut ports[at], bytes)
}

/// Finishes the port at that place.
pub fn finish_at(ports: &mut [Box<dyn Port>], at: usize) -> Result<(), Failed>
    requires { at < length ports.old }
    ensures step { StepAt (map view ports.old) (map view ports.new) at (λ old new.
        IsFinish old new result) }

    ensures finished { OnOk result (Progress (map view ports.old) (map view ports.new) [] []) }
    ensures flushed { OnOk result (ForNameAt at (map view ports.old) (λ name.
        flushed_of name (map view ports.new) ≡ true)) }
    ensures failed { OnErr result (ForNameAt at (map view ports.old) (λ name.
        FinishFailure name (map view ports.old) (map view ports.new) [] [])) }
    ensures roomy { Roomy (map view ports.old) [] → IsOk result }

    ensures same_names { names (map view ports.new) ≡ names (map view ports.old) }
    ensures untouched { ForNameAt at (map view ports.old) (λ name.
        Untouched (name ∷ []) (map view ports.old) (map view ports.new)) }
{
    finish_of(&mut ports[at])
}

fn read_from(port: &mut Box<dyn Port>, buf: &mut [u8]) -> Result<usize, Failed>
    requires { 0 < length buf.old }
    ensures { IsRead (view port.old) (view port.new) result buf.new }
{
    port.read(buf)
}

fn write_to(port: &mut Box<dyn Port>, bytes: &[u8]) -> Result<(), Failed>
    ensures { IsWrite (view port.old) (view port.new) result bytes.now }
{
    port.write(bytes)
}

fn finish_of(port: &mut Box<dyn Port>) -> Result<(), Failed>
    ensures { IsFinish (view port.old) (view port.new) result }
{
    port.finish()
}
