ghost use Rattle.std.specs.Prelude.{◌≡◌, IfOk, map, option_map, string_bytes};
ghost use Rattle.toml.specs.{Data.{get_member, as_str}, View.{view, table_view}};
ghost use Rattle.board_config.specs.{Board.{plain_texts, plain_regions}, Values.{data_of, elements_of, all_of, pair_of, pairs_of, texts_of, text_lists_of}};

use std::alloc::{AllocError, Global};
use toml::{Table, Value};

/// The value at a key.
pub fn find<'a>(table: &'a Table, name: &str) -> Option<&'a Value>
    ensures { data_of result ≡ get_member name.now (table_view table.now) }
{
    table.get(name)
}

/// The elements of an array.
fn elements(value: &Value) -> Option<&[Value]>
    ensures { option_map (λ items. map view items.now) result ≡ elements_of (view value.now) }
{
    let items = value.as_array()?;
    Some(items)
}

/// An array of two integers.
pub fn pair(value: &Value) -> Option<(i64, i64)>
    ensures { result ≡ pair_of (view value.now) }
{
    match elements(value)? {
        [first, second] => first.as_integer().zip(second.as_integer()),
        _ => None,
    }
}

/// An array of arrays of two integers.
pub fn pairs(alloc: Global, value: &Value) -> Result<Option<Vec<(i64, i64)>>, AllocError>
    ensures { IfOk result (λ pairs. option_map (λ p. p.items) pairs ≡ pairs_of (view value.now)) }
{
    match elements(value) {
        Some(elements) => all_pairs(alloc, elements),
        None => Ok(None),
    }
}

fn all_pairs(alloc: Global, elements: &[Value]) -> Result<Option<Vec<(i64, i64)>>, AllocError>
    ensures { IfOk result (λ pairs. option_map (λ p. p.items) pairs ≡ all_of pair_of (map view elements.now)) }
{
    let mut pairs = Vec::new(alloc);
    for element in elements {
        let Some(pair) = pair(element) else {
            return Ok(None);
        };
        pairs.push(pair)?;
    }
    Ok(Some(pairs))
}

/// An array of texts.
pub fn texts(alloc: Global, value: &Value) -> Result<Option<Vec<String>>, AllocError>
    ensures { IfOk result (λ texts. option_map plain_texts texts ≡ texts_of (view value.now)) }
{
    match elements(value) {
        Some(elements) => all_texts(alloc, elements),
        None => Ok(None),
    }
}

fn all_texts(alloc: Global, elements: &[Value]) -> Result<Option<Vec<String>>, AllocError>
    ensures { IfOk result (λ texts. option_map plain_texts texts ≡ all_of as_str (map view elements.now)) }
{
    let mut texts = Vec::new(alloc);
    for element in elements {
        let Some(text) = element.as_str() else {
            return Ok(None);
        };
        let text = String::from_str(alloc, text)?;
        texts.push(text)?;
    }
    Ok(Some(texts))
}

/// An array of arrays of texts.
pub fn text_lists(alloc: Global, value: &Value) -> Result<Option<Vec<Vec<String>>>, AllocError>
    ensures { IfOk result (λ lists. option_map plain_regions lists ≡ text_lists_of (view value.now)) }
{
    match elements(value) {
        Some(elements) => all_text_lists(alloc, elements),
        None => Ok(None),
    }
}

fn all_text_lists(alloc: Global, elements: &[Value]) -> Result<Option<Vec<Vec<String>>>, AllocError>
    ensures { IfOk result (λ lists. option_map plain_regions lists ≡ all_of texts_of (map view elements.now)) }
{
    let mut lists = Vec::new(alloc);
    for element in elements {
        let Some(list) = texts(alloc, element)? else {
            return Ok(None);
        };
        lists.push(list)?;
    }
    Ok(Some(lists))
}
