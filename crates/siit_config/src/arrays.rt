//! Arrays of which each item stands for something.
ghost use Rattle.std.specs.Prelude.{◌≡◌, IfOk, map, option_map};
ghost use Rattle.toml.specs.Data.{as_str, as_table};
ghost use Rattle.toml.specs.View.{items_view, table_view, view};
ghost use Rattle.siit_config.specs.Devices.{entry_in};
ghost use Rattle.siit_config.specs.Keys.{all_of, two_texts};

use crate::names::mapping_entry_of;
use siit_eamt::Eam;
use std::alloc::{AllocError, Global};
use toml::{Table, Value};

/// The tables that all items are, None where one isn't a table.
pub(crate) fn tables<'a>(
    alloc: Global,
    items: &'a [Value],
) -> Result<Option<Vec<&'a Table>>, AllocError>
    ensures { IfOk result (λ found.
        option_map (λ tables. map (λ t. table_view t.now) tables.items) found ≡ all_of as_table (items_view items.now)) }
{
    let mut tables = Vec::new(alloc);
    for item in items {
        let Some(table) = item.as_table() else {
            return Ok(None);
        };
        tables.push(table)?;
    }
    Ok(Some(tables))
}

/// The texts that all items are, None where one isn't a text.
pub(crate) fn texts<'a>(
    alloc: Global,
    items: &'a [Value],
) -> Result<Option<Vec<&'a str>>, AllocError>
    ensures { IfOk result (λ found.
        option_map (λ texts. map (λ t. t.now) texts.items) found ≡ all_of as_str (items_view items.now)) }
{
    let mut texts = Vec::new(alloc);
    for item in items {
        let Some(text) = item.as_str() else {
            return Ok(None);
        };
        texts.push(text)?;
    }
    Ok(Some(texts))
}

/// The entries that all items are, None where one isn't an array of two texts. An entry itself is None where one of its
/// texts is no prefix.
pub(crate) fn entries(
    alloc: Global,
    items: &[Value],
) -> Result<Option<Vec<Option<Eam>>>, AllocError>
    ensures { IfOk result (λ found.
        option_map (λ entries. entries.items) found ≡ all_of entry_in (items_view items.now)) }
{
    let mut entries = Vec::new(alloc);
    for item in items {
        let Some((first, second)) = two_texts(item) else {
            return Ok(None);
        };
        entries.push(mapping_entry_of(first, second))?;
    }
    Ok(Some(entries))
}

fn two_texts(value: &Value) -> Option<(&str, &str)>
    ensures { option_map (λ texts. (texts.0.now, texts.1.now)) result ≡ two_texts (view value.now) }
{
    match value.as_array()?.as_slice() {
        [first, second] => Some((first.as_str()?, second.as_str()?)),
        _ => None,
    }
}
