ghost use Rattle.std.specs.Prelude.{◌≡◌};
ghost use Rattle.hume_streams.specs.Lines.{without_return, is_empty};

/// A line without its final carriage return, if it has one.
pub fn without_return(line: &[u8]) -> &[u8]
    ensures { result.now ≡ without_return line.now }
{
    if line.last() == Some(&b'\r') {
        return &line[..line.len() - 1];
    }
    line
}

/// Whether a line has nothing but spaces and tabs before its carriage return.
pub fn is_empty(line: &[u8]) -> bool
    ensures { result ≡ is_empty line.now }
{
    let text = without_return(line);
    for byte in text {
        if *byte != b' ' && *byte != b'\t' {
            return false;
        }
    }
    true
}
