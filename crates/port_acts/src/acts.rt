ghost use Rattle.std.specs.Prelude.{◌≡◌, ◌<◌, ℕ, List, [], ◌∷◌, length, map, take, All, IfOk, OnErr};
ghost use Rattle.std.specs.Io.{ReadsAtMost};
ghost use Rattle.std.specs.Io.KnownBytes.{IsAtEnd};
ghost use Rattle.hume_ports.specs.Ports.{names, ForNameAt, left_of};
ghost use Rattle.port_acts.specs.Acts.{wants, writes, finishes, finish_each, AreNamed};
ghost use Rattle.port_acts.specs.Ends.{Made, Fails, Ends, never, nothing};

use hume_ports::{Failed, Port, finish_at, read_at, write_at};

/// Reads once from the port at that place, for a want of any number of values. Reads in turn are one want.
pub fn read_act(ports: &mut [Box<dyn Port>], at: usize, buf: &mut [u8]) -> Result<usize, Failed>
    requires place { at < length ports.old }
    requires room { 0 < length buf.old }
    ensures bound { ReadsAtMost result buf.new }
    ensures made { IfOk result (λ count. ForNameAt at (map view ports.old) (λ name.
        (wanted : ℕ) → Made (wants name wanted ∷ []) ((name, take count buf.new) ∷ []) (map view ports.old) (map view ports.new))) }
    ensures end { IfOk result (λ count. count ≡ 0 → ForNameAt at (map view ports.old) (λ name.
        IsAtEnd (left_of name (map view ports.new)))) }
    ensures failed { OnErr result (ForNameAt at (map view ports.old) (λ name.
        (wanted : ℕ) → Fails nothing [] (wants name wanted ∷ []) (map view ports.old) (map view ports.new))) }
    ensures same_names { names (map view ports.new) ≡ names (map view ports.old) }
{
    read_at(ports, at, buf)
}

/// Writes to the port at that place.
pub fn write_act(ports: &mut [Box<dyn Port>], at: usize, bytes: &[u8]) -> Result<(), Failed>
    requires { at < length ports.old }
    ensures ends { ForNameAt at (map view ports.old) (λ name.
        Ends never [] (writes name bytes.now ∷ []) [] (map view ports.old) (map view ports.new) result) }
    ensures same_names { names (map view ports.new) ≡ names (map view ports.old) }
{
    write_at(ports, at, bytes)
}

/// Finishes the port at that place.
pub fn finish_act(ports: &mut [Box<dyn Port>], at: usize) -> Result<(), Failed>
    requires { at < length ports.old }
    ensures ends { ForNameAt at (map view ports.old) (λ name.
        Ends never [] (finishes name ∷ []) [] (map view ports.old) (map view ports.new) result) }
    ensures same_names { names (map view ports.new) ≡ names (map view ports.old) }
{
    finish_at(ports, at)
}

/// Writes to the port at that place, and finishes it: all that a call owes whose answer is one line.
pub fn write_and_finish(ports: &mut [Box<dyn Port>], at: usize, bytes: &[u8]) -> Result<(), Failed>
    requires { at < length ports.old }
    ensures ends { ForNameAt at (map view ports.old) (λ name.
        Ends never [] (writes name bytes.now ∷ finishes name ∷ []) [] (map view ports.old) (map view ports.new) result) }
    ensures same_names { names (map view ports.new) ≡ names (map view ports.old) }
{
    match write_act(ports, at, bytes) {
        Ok(()) => {}
        Err(failed) => return Err(failed),
    }
    finish_act(ports, at)
}

/// Finishes the ports at these places, in turn.
pub fn finish_acts(ports: &mut [Box<dyn Port>], places: &[usize]) -> Result<(), Failed>
    requires { All (λ at. at < length (names (map view ports.old))) places.now }
    ensures ends { (all : List (List ℕ)) → AreNamed (names (map view ports.old)) places.now all
        → Ends never [] (finish_each all) [] (map view ports.old) (map view ports.new) result }
    ensures same_names { names (map view ports.new) ≡ names (map view ports.old) }
{
    for at in places {
        match finish_act(ports, *at) {
            Ok(()) => {}
            Err(failed) => return Err(failed),
        }
    }
    Ok(())
}
