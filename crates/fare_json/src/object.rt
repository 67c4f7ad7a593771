//! The object of a line.
ghost use Rattle.std.specs.Prelude.{◌≡◌, ◌++◌, ◌∷◌, OnOk, map, option_map};
ghost use Rattle.std.specs.List.{slice_get};
ghost use Rattle.json.specs.Json.{Members};
ghost use Rattle.json.specs.Token.{begin_object};
ghost use Rattle.json.specs.Tree.{json_tokens, members_tokens};
ghost use Rattle.fare_json.specs.Lines.{members_of, object_of, with_member};

use crate::name::Name;
use crate::part::{Part, parts_of};
use crate::value::put_word;
use json::Writer;
use std::alloc::AllocError;

// Writes the member that a part is, by its word where one stands there.
fn put_member(part: Part, word: Option<&[u8]>, writer: &mut Writer) -> Result<(), AllocError>
    ensures kept { writer.new.before ≡ writer.old.before }
    ensures written { OnOk result ((members : Members) → writer.new.tokens ++ members_tokens members ≡ writer.old.tokens ++ members_tokens (with_member part (option_map (λ w. w.now) word.entry) members)) }
{
    match part {
        Part::Value(name) => match word {
            Some(word) => {
                writer.key(name.text())?;
                put_word(word, writer)
            }
            None => Ok(()),
        },
        Part::Label => Ok(()),
        Part::Flag(name) => {
            writer.key(name.text())?;
            writer.boolean(word.is_some())
        }
        Part::Nothing(name) => {
            writer.key(name.text())?;
            writer.null()
        }
    }
}

// The word at a place, where one stands there.
fn word_at<'a>(words: &[&'a [u8]], place: usize) -> Option<&'a [u8]>
    ensures { option_map (λ w. w.now) result ≡ slice_get (map (λ w. w.now) words.now) place }
{
    words.get(place).copied()
}

// Writes the members that parts are, by the words at their places, and closes the object.
fn put_members(parts: &[Part], words: &[&[u8]], writer: &mut Writer) -> Result<(), AllocError>
    ensures kept { writer.new.before ≡ writer.old.before }
    ensures written { OnOk result (writer.new.tokens ≡ writer.old.tokens ++ members_tokens (members_of parts.now (map (λ w. w.now) words.now))) }
{
    for (place, part) in parts.iter().enumerate() {
        put_member(*part, word_at(words, place), writer)?;
    }
    writer.end_object()
}

/// Writes the object of a line of these words.
pub(crate) fn put_object(words: &[&[u8]], writer: &mut Writer) -> Result<(), AllocError>
    ensures kept { writer.new.before ≡ writer.old.before }
    ensures written { OnOk result (writer.new.tokens ≡ writer.old.tokens ++ json_tokens (object_of (map (λ w. w.now) words.now))) }
{
    writer.begin_object()?;
    match words {
        [] => writer.end_object(),
        [keyword, rest @ ..] => {
            put_member(Part::Value(Name::Kind), Some(*keyword), writer)?;
            put_members(parts_of(keyword, rest), rest, writer)
        }
    }
}
