//! Images of sources, and what the commands print of them.

use image_forge::{Parts, forge_image};
use nd_base::{Bytes, MemFiles, MemSink, OutOfMemory};
use ndis_run::tool_main;
use std::alloc::{AllocError, Global};
use sys_forge::ForgeRefusal;

/// A source text with the label of its entry.
fn parts(alloc: Global, source: &[u8], entry: &[u8]) -> Result<Parts, OutOfMemory> {
    let source = Bytes::copy(alloc, source)?;
    match Bytes::copy(alloc, entry) {
        Ok(entry) => Ok(Parts { source, entry }),
        Err(_) => Err(OutOfMemory),
    }
}

/// The file of a source.
pub fn image(alloc: Global, source: &[u8], entry: &[u8]) -> Result<Bytes, ForgeRefusal> {
    match parts(alloc, source, entry) {
        Ok(parts) => forge_image(alloc, &parts),
        Err(_) => Err(ForgeRefusal::OutOfMemory),
    }
}

/// Whether a source is refused so.
pub fn is_refused(alloc: Global, source: &[u8], entry: &[u8], wanted: ForgeRefusal) -> bool {
    match image(alloc, source, entry) {
        Ok(_) => false,
        Err(refusal) => refusal == wanted,
    }
}

fn words_of(alloc: Global, row: &[&str]) -> Result<Vec<String>, AllocError> {
    let mut words = Vec::new(alloc);
    for word in row {
        words.push(String::from_str(alloc, word)?)?;
    }
    Ok(words)
}

/// Whether these words end with status 0 and print this text.
pub fn prints(alloc: Global, row: &[&str], files: &mut MemFiles, text: &[u8]) -> bool {
    let mut out = MemSink::new(alloc);
    match words_of(alloc, row) {
        Ok(words) => tool_main(alloc, &words, files, &mut out) == 0 && out.written() == text,
        Err(_) => false,
    }
}

/// Files of which one is the image of a source.
pub fn files_of(alloc: Global, source: &[u8], entry: &[u8]) -> Option<MemFiles> {
    let mut files = MemFiles::new(alloc);
    match image(alloc, source, entry) {
        Ok(file) if files.put("driver.sys", file.as_slice()).is_ok() => Some(files),
        _ => None,
    }
}

/// Whether the image of a source is shown so.
pub fn shows(alloc: Global, source: &[u8], entry: &[u8], text: &[u8]) -> bool {
    match files_of(alloc, source, entry) {
        Some(mut files) => prints(alloc, &["show-image", "driver.sys"], &mut files, text),
        None => false,
    }
}

/// Whether the image of a source runs so, and has this log.
pub fn runs(alloc: Global, source: &[u8], entry: &[u8], text: &[u8], log: &[u8]) -> bool {
    let row = ["run0", "driver.sys", "run.log"];
    match files_of(alloc, source, entry) {
        Some(mut files) => {
            prints(alloc, &row, &mut files, text)
                && files.get("run.log").is_some_and(|found| found == log)
        }
        None => false,
    }
}
