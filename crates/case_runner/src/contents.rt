//! The bytes that a list's contents are.

use crate::lists::{Content, Parts, Stored};
use crate::pieces::built_bytes;
use anyhow::{Context, Result};
use std::alloc::{AllocError, Global};
use std::fs;
use std::rt::Files;

/// The bytes of a content of the list with this name.
pub fn bytes_of(rt: &(impl Files + AllocGlobal), list: &str, content: &Content) -> Result<Vec<u8>> {
    match content {
        Content::Text(text) => Ok(text.as_bytes().to_vec(rt.alloc())?),
        Content::Bytes(bytes) => Ok(bytes.to_vec(rt.alloc())?),
        Content::Stored(stored) => stored_bytes(rt, list, stored),
    }
}

/// The name of a file that lies beside a list.
fn beside(alloc: Global, list: &str, file: &str) -> Result<String, AllocError> {
    match list.rsplit_once('/') {
        Some((folder, _)) => format!(in alloc; "{folder}/{file}"),
        None => String::from_str(alloc, file),
    }
}

/// The bytes of the file with this name, or those that it tells in pieces.
fn whole_bytes(rt: &(impl Files + AllocGlobal), name: &str) -> Result<Vec<u8>> {
    if name.ends_with(".pieces") {
        return built_bytes(rt.alloc(), &fs::read_to_string(rt, name)?);
    }
    Ok(fs::read(rt, name)?)
}

/// The bytes of a stored file, cut off and changed.
fn stored_bytes(rt: &(impl Files + AllocGlobal), list: &str, stored: &Stored) -> Result<Vec<u8>> {
    let name = beside(rt.alloc(), list, &stored.file)?;
    let mut bytes = whole_bytes(rt, &name).with_context(|| &name)?;
    if let Some(first) = stored.first {
        bytes.truncate(usize::try_from(first)?);
    }
    for (place, new) in &stored.with {
        replace(&mut bytes, *place as usize, new).context("bytes behind the end of a file")?;
    }
    Ok(bytes)
}

/// Puts bytes in place of those at a place; `None` where the file has too few.
fn replace(bytes: &mut [u8], place: usize, new: &[u8]) -> Option<()> {
    let end = place.checked_add(new.len())?;
    if end > bytes.len() {
        return None;
    }
    bytes[place..end].copy_from_slice(new);
    Some(())
}

/// Whether a file has these bytes at these places.
pub fn has_parts(bytes: &[u8], parts: &Parts) -> bool {
    parts.has.iter().all(|(place, part)| match bytes.get(*place as usize..) {
        Some(rest) => rest.starts_with(part),
        None => false,
    })
}
