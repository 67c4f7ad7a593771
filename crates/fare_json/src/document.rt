//! The JSON of a text.
ghost use Rattle.std.specs.Prelude.{◌≡◌, ◌++◌, [], Some, OnOk, IfOk};
ghost use Rattle.json.specs.Json.{document};
ghost use Rattle.json.specs.Tree.{json_tokens};
ghost use Rattle.fare_json.specs.Lines.{is_gap, json_of, json_text, object_of, pieces};

use crate::object::put_object;
use crate::pieces::{lines_of, words_of};
use json::Writer;
use std::alloc::{AllocError, Global};

// Writes the object of a line.
fn put_line(alloc: Global, line: &[u8], writer: &mut Writer) -> Result<(), AllocError>
    ensures kept { writer.new.before ≡ writer.old.before }
    ensures written { OnOk result (writer.new.tokens ≡ writer.old.tokens ++ json_tokens (object_of (pieces is_gap line.now))) }
{
    let words = words_of(alloc, line)?;
    put_object(&words, writer)
}

// Writes the array of a text.
fn put_lines(alloc: Global, text: &[u8], writer: &mut Writer) -> Result<(), AllocError>
    ensures kept { writer.new.before ≡ writer.old.before }
    ensures written { OnOk result (writer.new.tokens ≡ writer.old.tokens ++ json_tokens (json_of text.now)) }
{
    let lines = lines_of(alloc, text)?;
    writer.begin_array()?;
    for line in &lines {
        put_line(alloc, line, writer)?;
    }
    writer.end_array()
}

/// The JSON of a text: an array with an object for each line, in order, in which the line's first word is the `kind`, and
/// the others are the members that they are by their places. It has no space, and reads back as that JSON. A text that no
/// line of the table fits has a JSON too: a line whose keyword is another one is its kind alone, and a word where a number
/// belongs is a string.
pub fn json_of(alloc: Global, text: &[u8]) -> Result<Vec<u8>, AllocError>
    ensures text { IfOk result (λ json. json.items ≡ json_text text.now) }
    ensures reads_back { IfOk result (λ json. document json.items ≡ Some (json_of text.now)) }
{
    let mut writer = Writer::new(Vec::new(alloc));
    put_lines(alloc, text, &mut writer)?;
    Ok(writer.into_inner())
}
