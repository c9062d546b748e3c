//! One case: its calls, and the first difference to what must come out.

use crate::clap_words::clap_takes;
use crate::contents::{bytes_of, has_parts};
use crate::lists::{Call, Case, Content, List, Wanted};
use crate::outside::Outside;
use anyhow::{Result, bail};
use explanations::is_seen_safe;
use std::alloc::{AllocError, Global};
use std::collections::BTreeMap;
use std::ops::Range;
use std::rt::Files;

/// What stands under each name.
type Held = BTreeMap<String, Vec<u8>>;

/// Runs the calls of a case of the list with this name, and tells the first difference to what must come out; `None` where there is none.
pub fn first_difference(
    rt: &(impl Files + AllocGlobal),
    name: &str,
    list: &List,
    case: &Case,
) -> Result<Option<String>> {
    match case.lengths.as_slice() {
        [] => difference_at(rt, name, list, case, None),
        [from, to] => cut_difference(rt, *from..*to, name, list, case),
        _ => bail!("`lengths` are two numbers"),
    }
}

/// The first difference at one of the lengths at which the case's files are cut off.
fn cut_difference(
    rt: &(impl Files + AllocGlobal),
    lengths: Range<u64>,
    name: &str,
    list: &List,
    case: &Case,
) -> Result<Option<String>> {
    for length in lengths {
        if let Some(difference) = difference_at(rt, name, list, case, Some(length))? {
            return Ok(Some(format!(in rt.alloc(); "at length {length}: {difference}")?));
        }
    }
    Ok(None)
}

/// The first difference of the calls, and of the files behind them; where a length is given, with the case's files cut off
/// there.
fn difference_at(
    rt: &(impl Files + AllocGlobal),
    name: &str,
    list: &List,
    case: &Case,
    length: Option<u64>,
) -> Result<Option<String>> {
    let mut before = BTreeMap::new(rt.alloc());
    add_contents(rt, name, &list.files, None, &mut before)?;
    add_contents(rt, name, &case.files, length, &mut before)?;
    if let Some(difference) = safety_difference(rt.alloc(), &before, &case.safe)? {
        return Ok(Some(difference));
    }
    let mut outside = Outside::new(rt.alloc(), &before, case)?;
    if let Some(difference) = called_difference(rt.alloc(), &mut outside, &case.calls, length)? {
        return Ok(Some(difference));
    }
    file_difference(rt, name, &mut outside, case, &before)
}

/// Puts contents under their names, at most so many bytes of each.
fn add_contents(
    rt: &(impl Files + AllocGlobal),
    list: &str,
    contents: &BTreeMap<String, Content>,
    length: Option<u64>,
    held: &mut Held,
) -> Result<()> {
    for (name, content) in contents {
        let mut bytes = bytes_of(rt, list, content)?;
        if let Some(length) = length {
            bytes.truncate(usize::try_from(length)?);
        }
        held.insert(name.clone()?, bytes)?;
    }
    Ok(())
}

/// The difference of a program that must be seen to run safely, by the names of its file, of a board and of an input.
fn safety_difference(alloc: Global, held: &Held, names: &[String]) -> Result<Option<String>> {
    let [file, board, input] = names else {
        return match names {
            [] => Ok(None),
            _ => bail!("`safe` has three names"),
        };
    };
    let (Some(file), Some(board), Some(input)) = (held.get(file), held.get(board), held.get(input))
    else {
        bail!("`safe` names what the case doesn't give");
    };
    match is_seen_safe(alloc, file, board, input) {
        Ok(true) => Ok(None),
        _ => Ok(Some(String::from_str(alloc, "is not seen to run safely")?)),
    }
}

/// The first call that answers or prints something else than it must.
fn called_difference(
    alloc: Global,
    outside: &mut Outside,
    calls: &[Call],
    length: Option<u64>,
) -> Result<Option<String>> {
    for call in calls {
        let (status, explained) = made_call(alloc, outside, call)?;
        if let Some(difference) = call_difference(alloc, call, length, status, outside.printed())? {
            return Ok(Some(difference));
        }
        if let Some(difference) = explained_difference(alloc, call, &explained)? {
            return Ok(Some(difference));
        }
        if let Some(difference) = clap_difference(alloc, call)? {
            return Ok(Some(difference));
        }
    }
    Ok(None)
}

/// Makes a call, and gives its status and what standard error says of it, which is nothing where it is not looked at.
fn made_call(
    alloc: Global,
    outside: &mut Outside,
    call: &Call,
) -> Result<(u8, Vec<u8>), AllocError> {
    let mut words = Vec::new(alloc);
    for word in call.words.split(' ') {
        words.push(String::from_str(alloc, word)?)?;
    }
    Ok(match call.stderr.is_empty() {
        true => (outside.call(&words), Vec::new(alloc)),
        false => outside.explained_call(&words),
    })
}

/// The first line that standard error must have and has not.
fn explained_difference(
    alloc: Global,
    call: &Call,
    explained: &[u8],
) -> Result<Option<String>, AllocError> {
    let explained = String::from_utf8_lossy(alloc, explained)?;
    for wanted in &call.stderr {
        if !explained.lines().any(|line| line == wanted.as_str()) {
            let words = &call.words;
            return Ok(Some(format!(in alloc;
                "`{words}` standard error, expected {wanted:?} in {explained:?}"
            )?));
        }
    }
    Ok(None)
}

/// The difference of a call's status and print to what they must be.
fn call_difference(
    alloc: Global,
    call: &Call,
    length: Option<u64>,
    status: u8,
    printed: &[u8],
) -> Result<Option<String>, AllocError> {
    let words = &call.words;
    if let Some(prints) = &call.prints {
        let wanted = wanted_print(alloc, prints, length)?;
        if printed != wanted.as_bytes() {
            let got = String::from_utf8_lossy(alloc, printed)?;
            return Ok(Some(format!(in alloc;
                "`{words}` prints, expected {wanted:?}, got {got:?}"
            )?));
        }
    }
    if status != call.status {
        let wanted = call.status;
        return Ok(Some(format!(in alloc; "`{words}` status, expected {wanted}, got {status}")?));
    }
    Ok(None)
}

/// What must be printed: the text, with the length in place of `{length}` where one is given.
fn wanted_print(alloc: Global, prints: &str, length: Option<u64>) -> Result<String, AllocError> {
    match length {
        Some(length) => prints.replace(alloc, "{length}", &format!(in alloc; "{length}")?),
        None => String::from_str(alloc, prints),
    }
}

/// The difference of what `clap` says of a call's words to what it must.
fn clap_difference(alloc: Global, call: &Call) -> Result<Option<String>> {
    let Some(wanted) = call.clap else {
        return Ok(None);
    };
    let Ok(taken) = clap_takes(alloc, &call.words) else {
        bail!("clap has no memory");
    };
    if taken == wanted {
        return Ok(None);
    }
    let words = &call.words;
    Ok(Some(format!(in alloc; "`{words}` clap, expected {wanted}, got {taken}")?))
}

/// The first name under which what must stand there after the calls does not. A name that only the words of a call have may
/// not stand for anything.
fn file_difference(
    rt: &(impl Files + AllocGlobal),
    list: &str,
    outside: &mut Outside,
    case: &Case,
    before: &Held,
) -> Result<Option<String>> {
    for name in names(rt.alloc(), case, before)? {
        let got = outside.content(name);
        let difference = match case.after.get(name) {
            Some(wanted) => wanted_difference(rt, list, wanted, got.as_deref())?,
            None => content_difference(
                rt.alloc(),
                before.get(name).map(|bytes| bytes.as_slice()),
                got.as_deref(),
            )?,
        };
        if let Some(difference) = difference {
            return Ok(Some(format!(in rt.alloc(); "`{name}` {difference}")?));
        }
    }
    Ok(None)
}

/// All names that a case gives, and the words of its calls.
fn names<'a>(alloc: Global, case: &'a Case, before: &'a Held) -> Result<Vec<&'a str>, AllocError> {
    let mut names = Vec::new(alloc);
    for name in case.after.keys().chain(before.keys()) {
        names.push(name.as_str())?;
    }
    for call in &case.calls {
        for word in call.words.split(' ') {
            names.push(word)?;
        }
    }
    Ok(names)
}

/// The difference of what stands under a name to what must.
fn wanted_difference(
    rt: &(impl Files + AllocGlobal),
    list: &str,
    wanted: &Wanted,
    got: Option<&[u8]>,
) -> Result<Option<String>> {
    match wanted {
        Wanted::Whole(content) => {
            let bytes = bytes_of(rt, list, content)?;
            Ok(content_difference(rt.alloc(), Some(&bytes), got)?)
        }
        Wanted::Parts(parts) if got.is_some_and(|bytes| has_parts(bytes, parts)) => Ok(None),
        Wanted::Parts(_) => Ok(Some(String::from_str(
            rt.alloc(),
            "differs, expected the bytes of `has`, got others",
        )?)),
    }
}

/// The difference of a file, or of none, to what must be there.
fn content_difference(
    alloc: Global,
    wanted: Option<&[u8]>,
    got: Option<&[u8]>,
) -> Result<Option<String>, AllocError> {
    let difference = match (wanted, got) {
        (Some(wanted), Some(got)) if wanted != got => {
            let same = wanted.iter().zip(got).take_while(|(a, b)| a == b).count();
            format!(in alloc;
                "differs at byte {same}, expected {} bytes, got {}",
                wanted.len(),
                got.len()
            )?
        }
        (Some(_), None) => String::from_str(alloc, "is missing")?,
        (None, Some(_)) => String::from_str(alloc, "is there, expected nothing")?,
        _ => return Ok(None),
    };
    Ok(Some(difference))
}
