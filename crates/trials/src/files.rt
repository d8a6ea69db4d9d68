use hume_base::limits::MAX_SOURCE_BYTES;
use hume_ports::{FilePort, Port, fill_at};
use std::alloc::{AllocError, Global};

/// The bytes of the file of that name, as many as a source may have and some more; none where it can't be read.
pub(crate) fn read_file(
    rt: &HostRuntime,
    alloc: Global,
    name: &str,
) -> Result<Option<Vec<u8>>, AllocError> {
    let mut ports: Vec<Box<dyn Port>> = Vec::new(alloc);
    ports.push(Box::new(alloc, FilePort::make(rt, alloc, name)?)?)?;
    let mut bytes = vec![in alloc; 0u8; MAX_SOURCE_BYTES + 64]?;
    match fill_at(&mut ports, 0, &mut bytes) {
        Ok(count) => {
            bytes.truncate(count);
            Ok(Some(bytes))
        }
        Err(_) => Ok(None),
    }
}
