// The files in memory, by their names; a later one of a name stands before an earlier one.
use halo_outside::Named;
use std::alloc::{AllocError, Global};

/// The bytes of a file; none where there is no file of the name.
pub fn bytes_of<'a>(files: &'a [Named], name: &str) -> &'a [u8] {
    for file in files.iter().rev() {
        if file.name.as_str() == name {
            return &file.bytes;
        }
    }
    &[]
}

/// Whether there is a file of the name.
fn is_there(files: &[Named], name: &str) -> bool {
    files.iter().any(|file| file.name.as_str() == name)
}

/// Adds a file.
pub fn add(
    alloc: Global,
    files: &mut Vec<Named>,
    name: &str,
    bytes: Vec<u8>,
) -> Result<(), AllocError> {
    let name = String::from_str(alloc, name)?;
    files.push(Named { name, bytes })?;
    Ok(())
}

/// Copies of the files that some words name.
pub fn named_by(
    alloc: Global,
    files: &[Named],
    words: &[String],
) -> Result<Vec<Named>, AllocError> {
    let mut named = Vec::new(alloc);
    for word in words {
        if is_there(files, word.as_str()) {
            let bytes = Vec::from_slice(alloc, bytes_of(files, word.as_str()))?;
            add(alloc, &mut named, word.as_str(), bytes)?;
        }
    }
    Ok(named)
}
