//! The words of the command.
use std::alloc::{AllocError, Global};
use std::env;
use std::io::ErrorKind;

pub(crate) const STD_IN: &str = "std_in";

pub(crate) const STD_OUT: &str = "std_out";

/// The words after the program's own name. Where one isn't UTF-8 there are none, so that the call is one of no form.
pub(crate) fn words_of_command(rt: &HostRuntime, alloc: Global) -> Result<Vec<String>, AllocError> {
    let mut words = Vec::new(alloc);
    match env::args(rt) {
        Ok(args) => {
            for word in args.skip(1) {
                words.push(word)?;
            }
        }
        Err(error) if error.kind() == ErrorKind::OutOfMemory => return Err(AllocError),
        Err(_) => {}
    }
    Ok(words)
}

/// Whether the port of that name is no file.
pub(crate) fn is_standard(name: &str) -> bool {
    name == STD_IN || name == STD_OUT
}
