ghost use Rattle.std.specs.Prelude.{◌≡◌, ◌<◌, length, map, IfSome};
ghost use Rattle.std.specs.Str.{bytes_eq};
ghost use Rattle.hume_ports.specs.Ports.{place_of, names};

use crate::Port;

/// The least place of a port with that name.
pub fn find(ports: &[Box<dyn Port>], name: &str) -> Option<usize>
    ensures place { result ≡ place_of name.now (names (map view ports.now)) }
    ensures within { IfSome result (λ at. at < length ports.now) }
{
    find_bytes(ports, name.as_bytes())
}

/// The least place of a port with that name, which is given by its bytes.
pub fn find_bytes(ports: &[Box<dyn Port>], name: &[u8]) -> Option<usize>
    ensures place { result ≡ place_of name.now (names (map view ports.now)) }
    ensures within { IfSome result (λ at. at < length ports.now) }
{
    for (at, port) in ports.iter().enumerate() {
        if has_name(port, name) {
            return Some(at);
        }
    }
    None
}

fn has_name(port: &Box<dyn Port>, name: &[u8]) -> bool
    ensures { result ≡ bytes_eq (view port.now).name name.now }
{
    port.name().as_bytes() == name
}
