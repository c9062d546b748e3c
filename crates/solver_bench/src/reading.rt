use anyhow::{Context, Result, bail};
use placement_programme::{Choice, Programme, Side, Var, VarName};
use std::alloc::Global;

/// A base is below 2 to the power of 104.
const MOST_BASE: u128 = 20_282_409_603_651_670_423_947_251_286_016;

/// A side as it is read.
#[derive(Drop)]
struct DraftSide {
    fixed: u128,
    rows: Vec<u64>,
    vars: Vec<Var>,
}

/// A programme as it is read.
#[derive(Drop)]
struct Draft {
    base: u128,
    off: DraftSide,
    on: DraftSide,
    has_on: bool,
}

pub(crate) fn number(word: &str) -> Result<u128> {
    word.parse::<u128>().context("a word is no number")
}

pub(crate) fn small_number(word: &str) -> Result<u64> {
    word.parse::<u64>().context("a word is no number")
}

/// A small number: a row, a variable, or how often something is there.
pub(crate) fn count(word: &str) -> Result<u32> {
    word.parse::<u32>().context("a word is no number")
}

/// A row and a weight, as `ROW:WEIGHT`.
fn weight(word: &str) -> Result<(u32, u64)> {
    let (row, weight) = word.split_once(':').context("a weight has no row")?;
    Ok((count(row)?, small_number(weight)?))
}

fn read_rows(alloc: Global, words: &str) -> Result<Vec<u64>> {
    let mut rows = Vec::new(alloc);
    for word in words.split_whitespace() {
        rows.push(small_number(word)?)?;
    }
    Ok(rows)
}

/// The side and the numbers of a choice, as `on 1 2`.
pub(crate) fn read_choice(alloc: Global, words: &str) -> Result<Choice> {
    let (side, numbers) = words.split_once(' ').unwrap_or((words, ""));
    let mut take = Vec::new(alloc);
    for word in numbers.split_whitespace() {
        take.push(count(word)?)?;
    }
    Ok(Choice {
        on: side == "on",
        take,
    })
}

fn read_weights(alloc: Global, words: &str) -> Result<Vec<(u32, u64)>> {
    let mut weights = Vec::new(alloc);
    for word in words.split_whitespace() {
        weights.push(weight(word)?)?;
    }
    Ok(weights)
}

fn read_var(alloc: Global, words: &str) -> Result<Var> {
    let (gain, weights) = match words.split_once(' ') {
        Some((gain, weights)) => (gain, weights),
        None => (words, ""),
    };
    Ok(Var {
        name: VarName::StaticData { object: 0 },
        gain: number(gain)?,
        weights: read_weights(alloc, weights)?,
    })
}

impl DraftSide {
    fn empty(alloc: Global) -> DraftSide {
        DraftSide {
            fixed: 0,
            rows: Vec::new(alloc),
            vars: Vec::new(alloc),
        }
    }

    fn into_side(self) -> Result<Side> {
        let DraftSide { fixed, rows, vars } = self;
        Side::of(fixed, rows, vars).context("a side isn't within the bounds")
    }
}

impl Draft {
    fn empty(alloc: Global) -> Draft {
        Draft {
            base: 0,
            off: DraftSide::empty(alloc),
            on: DraftSide::empty(alloc),
            has_on: false,
        }
    }

    /// The side whose lines are being read.
    fn side(&mut self) -> &mut DraftSide {
        if self.has_on {
            &mut self.on
        } else {
            &mut self.off
        }
    }

    fn begin_side(&mut self, words: &str) -> Result<()> {
        let (name, fixed) = words.split_once(" fixed ").context("a side has no cost")?;
        self.has_on = name == "on";
        self.side().fixed = number(fixed)?;
        Ok(())
    }

    fn take_line(&mut self, alloc: Global, key: &str, words: &str) -> Result<()> {
        match key {
            "base" => self.base = number(words)?,
            "#" | "ask" | "optimum" => {}
            "side" => self.begin_side(words)?,
            "rows" => self.side().rows = read_rows(alloc, words)?,
            "var" => self.side().vars.push(read_var(alloc, words)?)?,
            _ => bail!("a line has no known key"),
        }
        Ok(())
    }

    fn into_programme(self) -> Result<Programme> {
        let Draft {
            base,
            off,
            on,
            has_on,
        } = self;
        if base >= MOST_BASE {
            bail!("the base is too large");
        }
        let off = off.into_side()?;
        let on = if has_on { Some(on.into_side()?) } else { None };
        Ok(Programme { base, off, on })
    }
}

/// Reads a programme: `base N`, then for each side `side off|on fixed N`, `rows` with the capacities and a line
/// `var GAIN ROW:WEIGHT ..` a variable. A line `optimum N`, `ask ..` or `# ..` is left aside.
pub(crate) fn read_programme(alloc: Global, text: &str) -> Result<Programme> {
    let mut draft = Draft::empty(alloc);
    for line in text.lines() {
        if let Some((key, words)) = line.split_once(' ') {
            draft.take_line(alloc, key, words)?;
        }
    }
    draft.into_programme()
}
