//! The files of the system.
use hume_base::{Ty, Types};
use hume_ports::{FilePort, Port, StdIn, fill_at};
use look_sources::Page;
use look_told::{Bad, Disk, first_bad, put_front};
use std::alloc::{AllocError, Global};
use std::fs;
use std::fs::OpenOptions;
use std::io::ErrorKind;

/// The files that the runtime reaches.
#[derive(Drop)]
pub(crate) struct HostDisk<'a> {
    pub(crate) rt: &'a HostRuntime,
}

impl<'a> Disk for HostDisk<'a> {
    /// Of `std_in` those of the standard input.
    fn text(&self, alloc: Global, name: &str, most: usize) -> Result<Option<Vec<u8>>, AllocError> {
        let mut ports: Vec<Box<dyn Port>> = Vec::new(alloc);
        if name == "std_in" {
            ports.push(Box::new(alloc, StdIn::make(self.rt, alloc, name)?)?)?;
        } else {
            ports.push(Box::new(alloc, FilePort::make(self.rt, alloc, name)?)?)?;
        }
        let mut text = vec![in alloc; 0u8; most]?;
        if ports.is_empty() {
            return Ok(None);
        }
        match fill_at(&mut ports, 0, &mut text) {
            Ok(count) => {
                text.truncate(count);
                Ok(Some(text))
            }
            Err(_) => Ok(None),
        }
    }

    fn first_bad(
        &self,
        alloc: Global,
        name: &str,
        types: &Types,
        ty: &Ty,
        most: u32,
    ) -> Result<Option<Bad>, AllocError> {
        let mut port: Box<dyn Port> = Box::new(alloc, FilePort::make(self.rt, alloc, name)?)?;
        first_bad(alloc, types, ty, &mut port, most)
    }

    fn put_front(
        &self,
        alloc: Global,
        name: &str,
        line: u64,
        page: &mut Page,
    ) -> Result<(), AllocError> {
        let mut port: Box<dyn Port> = Box::new(alloc, FilePort::make(self.rt, alloc, name)?)?;
        put_front(alloc, &mut port, line, page)
    }

    fn can_be_read_again(&self, name: &str) -> bool {
        if name == "std_in" || name == "std_out" {
            return false;
        }
        match fs::metadata(self.rt, name) {
            Ok(data) => data.is_file() && fs::open(self.rt, name).is_ok(),
            Err(_) => false,
        }
    }

    fn why_unreadable(&self, name: &str) -> Option<&'static [u8]> {
        match fs::metadata(self.rt, name) {
            Err(error) => Some(if error.kind() == ErrorKind::PermissionDenied {
                b"permission denied".as_slice()
            } else {
                b"no such file"
            }),
            Ok(data) if data.is_dir() => Some(b"it is a folder"),
            Ok(data) if data.is_file() && fs::open(self.rt, name).is_err() => {
                Some(b"permission denied")
            }
            Ok(_) => None,
        }
    }

    fn why_unwritable(&self, name: &str) -> Option<&'static [u8]> {
        match fs::metadata(self.rt, name) {
            Err(_) if is_folder(self.rt, folder_of(name)) => None,
            Err(_) => Some(b"no such folder"),
            Ok(data) if data.is_dir() => Some(b"it is a folder"),
            Ok(data) if data.is_file() && !may_be_written(self.rt, name) => {
                Some(b"permission denied")
            }
            Ok(_) => None,
        }
    }
}

fn is_folder(rt: &HostRuntime, name: &str) -> bool {
    match fs::metadata(rt, name) {
        Ok(data) => data.is_dir(),
        Err(_) => false,
    }
}

// The folder of a file: what stands up to the last slash.
fn folder_of(name: &str) -> &str {
    match name.rfind('/') {
        None => ".",
        Some(place) => name.get(..=place).unwrap_or("."),
    }
}

// Whether the file can be opened for writing; that leaves it as it is.
fn may_be_written(rt: &HostRuntime, name: &str) -> bool {
    OpenOptions::new().append(true).open(rt, name).is_ok()
}
