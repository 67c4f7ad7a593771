//! The value of a word.
ghost use Rattle.std.specs.Prelude.{◌≡◌, ◌++◌, OnOk};
ghost use Rattle.json.specs.Tree.{json_tokens};
ghost use Rattle.fare_json.specs.Lines.{is_number, text_value, value_of};

use json::Writer;
use std::alloc::AllocError;

// Whether the whole word is a number, as JSON spells it.
fn is_number(word: &str) -> bool
    ensures { result ≡ is_number word.now }
{
    json::is_number(word)
}

// Writes what a word says.
fn put_text(word: &str, writer: &mut Writer) -> Result<(), AllocError>
    ensures kept { writer.new.before ≡ writer.old.before }
    ensures written { OnOk result (writer.new.tokens ≡ writer.old.tokens ++ json_tokens (text_value word.now)) }
{
    if word == "none" {
        writer.null()
    } else if is_number(word) {
        writer.number(word)
    } else {
        writer.string(word)
    }
}

/// Writes what a word says: `none` nothing, a number itself, another one its text.
pub(crate) fn put_word(word: &[u8], writer: &mut Writer) -> Result<(), AllocError>
    ensures kept { writer.new.before ≡ writer.old.before }
    ensures written { OnOk result (writer.new.tokens ≡ writer.old.tokens ++ json_tokens (value_of word.now)) }
{
    match std::str::from_utf8(word) {
        Ok(text) => put_text(text, writer),
        Err(_) => writer.null(),
    }
}
