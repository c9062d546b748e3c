//! Files that are built of pieces, which a text tells.

use anyhow::Result;
use serde::Deserialize;
use std::alloc::{AllocError, Global};

/// The pieces of a file, one behind the other.
#[derive(Drop, Deserialize)]
#[serde(deny_unknown_fields)]
struct Pieces {
    #[serde(rename = "piece")]
    pieces: Vec<Piece>,
}

/// A text with words behind it, which may stand several times.
#[derive(Drop, Deserialize)]
#[serde(deny_unknown_fields)]
struct Piece {
    #[serde(default)]
    text: String,
    #[serde(default)]
    words: Vec<u32>,
    /// How many times the piece stands. Where this is missing, it stands once.
    times: Option<u32>,
    /// What each of the first words grows by from one time to the next.
    #[serde(default)]
    steps: Vec<u32>,
}

/// The bytes of the file whose pieces a text tells.
pub fn built_bytes(alloc: Global, text: &str) -> Result<Vec<u8>> {
    let list: Pieces = toml::from_str(alloc, text)?;
    let mut bytes = Vec::new(alloc);
    for piece in list.pieces {
        push_piece(&mut bytes, piece)?;
    }
    Ok(bytes)
}

/// Appends a piece as many times as it stands.
fn push_piece(bytes: &mut Vec<u8>, mut piece: Piece) -> Result<(), AllocError> {
    for _ in 0..piece.times.unwrap_or(1) {
        bytes.extend_from_slice(piece.text.as_bytes())?;
        push_words(bytes, &piece.words)?;
        for (word, step) in piece.words.iter_mut().zip(&piece.steps) {
            *word = word.wrapping_add(*step);
        }
    }
    Ok(())
}

/// Appends words, each with its low byte first.
fn push_words(bytes: &mut Vec<u8>, words: &[u32]) -> Result<(), AllocError> {
    for word in words {
        bytes.extend_from_slice(&word.to_le_bytes())?;
    }
    Ok(())
}
