//! The first line of version 2 of the JSON, which is about the input.

ghost use Rattle.std.specs.Prelude.{◌≡◌, IfOk, map, string_bytes};
ghost use Rattle.std.specs.Str.Lines.{lines};
ghost use Rattle.serde_json.specs.Data.{array, string};
ghost use Rattle.serde_json.specs.View.{items_of, view};
ghost use Rattle.ospf_table.specs.Head.{head_data, head_line, texts_data};

use crate::objects::data_line;
use crate::outside::{is_nowhere, outside_of};
use ospf_lsa::Listing;
use serde_json::{Value, json};
use std::alloc::{AllocError, Global};

// The version of the JSON that begins with this line.
const VERSION: u64 = 2;

/// The line about a listing, of whose input so many LSAs were left out: how many LSAs were read,
/// whether routes outside the area are missing, the version, and each line of standard error.
///
/// `AllocError` where memory runs out.
pub fn head_line(
    alloc: Global,
    listing: &Listing,
    left_out: u64,
    warnings: &str,
) -> Result<String, AllocError>
    ensures { IfOk result (λ line. string_bytes line
        ≡ head_line listing.now left_out warnings.now) }
{
    let value = head_value(alloc, listing, left_out, warnings)?;
    data_line(alloc, &value)
}

// What was read, the version, and what standard error gets.
fn head_value(
    alloc: Global,
    listing: &Listing,
    left_out: u64,
    warnings: &str,
) -> Result<Value, AllocError>
    ensures { IfOk result (λ value. view value
        ≡ head_data listing.now left_out warnings.now) }
{
    let warnings = warnings_value(alloc, warnings)?;
    let lsas = listing.lsas().len();
    let outside = !is_nowhere(outside_of(listing));
    json!(in alloc;
        {"input": {"left_out": left_out, "lsas": lsas}, "outside": outside, "version": VERSION,
            "warnings": warnings}
    )
}

// The lines of a text as an array.
fn warnings_value(alloc: Global, text: &str) -> Result<Value, AllocError>
    ensures { IfOk result (λ value. view value ≡ texts_data (lines text.now)) }
{
    let texts = lines_of(alloc, text)?;
    let value = texts_value(alloc, &texts)?;
    Ok(value)
}

// The lines of a text, without their ends.
fn lines_of(alloc: Global, text: &str) -> Result<Vec<&str>, AllocError>
    ensures { IfOk result (λ texts. map (λ line. line.now) texts.items ≡ lines text.now) }
{
    text.lines().collect(alloc)
}

// Texts as an array.
fn texts_value(alloc: Global, texts: &[&str]) -> Result<Value, AllocError>
    ensures { IfOk result (λ value. view value
        ≡ array (items_of (map (λ text. string text.now) texts.now))) }
{
    let mut items = Vec::new(alloc);
    for text in texts {
        items.push(Value::try_from_str(alloc, text)?)?;
    }
    Ok(Value::Array(items))
}
