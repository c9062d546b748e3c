//! Lists of cases, as they are written.

use anyhow::{Context, Result};
use serde::Deserialize;
use std::collections::BTreeMap;
use std::fs;
use std::rt::Files;

/// A list of cases.
#[derive(Drop, Deserialize)]
#[serde(deny_unknown_fields)]
pub struct List {
    /// What stands under names before each case that doesn't give them itself.
    #[serde(default)]
    pub files: BTreeMap<String, Content>,
    #[serde(rename = "case")]
    pub cases: Vec<Case>,
}

/// Calls, what stands under names before them, and what must come out.
#[derive(Drop, Deserialize)]
#[serde(deny_unknown_fields)]
pub struct Case {
    pub name: String,
    #[serde(default)]
    pub files: BTreeMap<String, Content>,
    /// Two numbers: the calls are made anew for each length from the first to below the second, and the case's own files are
    /// cut off there.
    #[serde(default)]
    pub lengths: Vec<u64>,
    /// The reads and writes that fail, counted from 0 over all calls.
    #[serde(default)]
    pub failing_calls: Vec<u64>,
    /// The printed pieces that fail, counted from 0 over all calls.
    #[serde(default)]
    pub failing_puts: Vec<u64>,
    pub calls: Vec<Call>,
    /// The names of a file, a board and an input on which the file's program is seen to run safely before the calls.
    #[serde(default)]
    pub safe: Vec<String>,
    /// What stands under names after the calls, where that is not what stood there before.
    #[serde(default)]
    pub after: BTreeMap<String, Wanted>,
}

/// A command line.
#[derive(Drop, Deserialize)]
#[serde(deny_unknown_fields)]
pub struct Call {
    /// The words without the program's name, with a blank between two.
    pub words: String,
    #[serde(default)]
    pub status: u8,
    /// What is printed, with `{length}` for the length at which files are cut off. Where this is missing, it is not looked at.
    pub prints: Option<String>,
    /// Lines that standard error has, beside others. Where there are none, it is not looked at.
    #[serde(default)]
    pub stderr: Vec<String>,
    /// Whether `clap` takes the words too. Where this is missing, it is not asked.
    pub clap: Option<bool>,
}

/// The bytes of a file.
#[derive(Drop, Deserialize)]
#[serde(untagged)]
pub enum Content {
    Text(String),
    Bytes(Vec<u8>),
    Stored(Stored),
}

/// A file that lies beside the list, or a changed copy of it.
#[derive(Drop, Deserialize)]
#[serde(deny_unknown_fields)]
pub struct Stored {
    pub file: String,
    /// How many of its bytes are taken. Where this is missing, all are.
    pub first: Option<u64>,
    /// Bytes that stand in place of others, by their place.
    #[serde(default)]
    pub with: BTreeMap<u32, Vec<u8>>,
}

/// What must stand under a name.
#[derive(Drop, Deserialize)]
#[serde(untagged)]
pub enum Wanted {
    Parts(Parts),
    Whole(Content),
}

/// Bytes that a file has at some places.
#[derive(Drop, Deserialize)]
#[serde(deny_unknown_fields)]
pub struct Parts {
    pub has: BTreeMap<u32, Vec<u8>>,
}

/// Reads a list.
pub fn read_list(rt: &(impl Files + AllocGlobal), name: &str) -> Result<List> {
    let text = fs::read_to_string(rt, name).with_context(|| name)?;
    toml::from_str(rt.alloc(), &text).with_context(|| name)
}
