//! What the texts of faults are made of.

ghost use Rattle.std.specs.Prelude.{◌++◌, [], Some, length, codes, ◌==◌, if◌then◌else◌};
ghost use Rattle.std.specs.Fmt.{WritesOnOk, decimal};
ghost use Rattle.grain_fault.specs.Table.{mismatch_text, size_text, out_of_bounds_text, after_unless_empty, or_else, spaced, kind_text, non_pure_text, thrown_value_text};
ghost use Rattle.grain_fault.specs.Texts.{system_text};
ghost use Rattle.grain_value.specs.Writing.{plain};

use crate::faults::MalformedKind;
use grain_value::{Array, Dynamic, Text};
use std::fmt;

/// Writes a label and the text after it.
pub(crate) fn write_labelled<W: fmt::Write>(
    label: &str,
    text: &Text,
    f: &mut fmt::Formatter<W>,
) -> fmt::Result
    ensures { WritesOnOk W.write_str_gives f.old result (label.now ++ text.now) f.new }
{
    f.write_str(label)?;
    f.write_str(text.as_str())
}

/// Writes a text, or another one where it is empty.
pub(crate) fn write_or_else<W: fmt::Write>(
    text: &Text,
    other: &str,
    f: &mut fmt::Formatter<W>,
) -> fmt::Result
    ensures { WritesOnOk W.write_str_gives f.old result
        (or_else text.now other.now) f.new }
{
    if text.is_empty() {
        f.write_str(other)
    } else {
        f.write_str(text.as_str())
    }
}

/// Writes a failure of the host's own: the reason, after what it is about, if anything.
pub(crate) fn write_system_error<W: fmt::Write>(
    about: &Text,
    reason: &Text,
    f: &mut fmt::Formatter<W>,
) -> fmt::Result
    ensures { WritesOnOk W.write_str_gives f.old result
        (system_text about.now reason.now) f.new }
{
    if about.is_empty() {
        f.write_str(reason.as_str())
    } else {
        write!(f, "{about}: {reason}")
    }
}

/// Writes that nothing is at an index.
pub(crate) fn write_index_not_found<W: fmt::Write>(
    index: &Dynamic,
    f: &mut fmt::Formatter<W>,
) -> fmt::Result
    ensures { WritesOnOk W.write_str_gives f.old result
        (codes "Invalid index: " ++ plain index.now) f.new }
{
    write!(f, "Invalid index: {index}")
}

/// Writes a label and the requested and the actual type, without one that is empty.
pub(crate) fn write_mismatch<W: fmt::Write>(
    label: &str,
    requested: &Text,
    actual: &Text,
    f: &mut fmt::Formatter<W>,
) -> fmt::Result
    ensures { WritesOnOk W.write_str_gives f.old result
        (label.now ++ mismatch_text requested.now actual.now) f.new }
{
    f.write_str(label)?;
    write_types(requested, actual, f)
}

// Writes the types of a mismatch.
fn write_types<W: fmt::Write>(
    requested: &Text,
    actual: &Text,
    f: &mut fmt::Formatter<W>,
) -> fmt::Result
    ensures { WritesOnOk W.write_str_gives f.old result
        (mismatch_text requested.now actual.now) f.new }
{
    if actual.is_empty() {
        write!(f, ", expecting {requested}")
    } else if requested.is_empty() {
        write!(f, ": {actual}")
    } else {
        write!(f, ": {actual} (expecting {requested})")
    }
}

/// Writes that an array of this length has nothing at an index.
pub(crate) fn write_array_bounds<W: fmt::Write>(
    length: usize,
    index: i64,
    f: &mut fmt::Formatter<W>,
) -> fmt::Result
    ensures { WritesOnOk W.write_str_gives f.old result
        (codes "Array index " ++ out_of_bounds_text index
        (size_text (codes "array") (codes "element") length)) f.new }
{
    let size = Size {
        length,
        whole: "array",
        item: "element",
    };
    write!(f, "Array index {index} out of bounds: {size}")
}

/// Writes that a text of this length has nothing at an index.
pub(crate) fn write_string_bounds<W: fmt::Write>(
    length: usize,
    index: i64,
    f: &mut fmt::Formatter<W>,
) -> fmt::Result
    ensures { WritesOnOk W.write_str_gives f.old result
        (codes "String index " ++ out_of_bounds_text index
        (size_text (codes "string") (codes "character") length)) f.new }
{
    let size = Size {
        length,
        whole: "string",
        item: "character",
    };
    write!(f, "String index {index} out of bounds: {size}")
}

/// Writes that this many bits have none at an index.
pub(crate) fn write_bit_field_bounds<W: fmt::Write>(
    length: usize,
    index: i64,
    f: &mut fmt::Formatter<W>,
) -> fmt::Result
    ensures { WritesOnOk W.write_str_gives f.old result
        (codes "Bit-field index " ++ out_of_bounds_text index
        (codes "only " ++ (decimal length ++ codes " bits in bit-field"))) f.new }
{
    write!(
        f,
        "Bit-field index {index} out of bounds: only {length} bits in bit-field"
    )
}

/// Writes that a shared value is in use, with its name if it has one.
pub(crate) fn write_data_race<W: fmt::Write>(
    variable: &Text,
    f: &mut fmt::Formatter<W>,
) -> fmt::Result
    ensures { WritesOnOk W.write_str_gives f.old result
        (codes "Data race detected" ++ after_unless_empty (codes " on ") variable.now) f.new }
{
    if variable.is_empty() {
        f.write_str("Data race detected")
    } else {
        write_labelled("Data race detected on ", variable, f)
    }
}

/// Writes that a native that writes was called on a value that may not be written.
pub(crate) fn write_non_pure_call<W: fmt::Write>(
    function: &Text,
    f: &mut fmt::Formatter<W>,
) -> fmt::Result
    ensures { WritesOnOk W.write_str_gives f.old result
        (non_pure_text function.now) f.new }
{
    let function = function.as_str();
    if let Some(property) = function.strip_prefix("get$") {
        write!(
            f,
            "Non-pure property {property} cannot be accessed on constant"
        )
    } else if let Some(property) = function.strip_prefix("set$") {
        write!(f, "Cannot modify property '{property}' of constant")
    } else if function == "index$get$" {
        f.write_str("Non-pure indexer cannot be accessed on constant")
    } else if function == "index$set$" {
        f.write_str("Cannot assign to indexer of constant")
    } else {
        write!(
            f,
            "Non-pure method '{function}' cannot be called on constant"
        )
    }
}

/// Writes what would be too large.
pub(crate) fn write_too_large<W: fmt::Write>(what: &Text, f: &mut fmt::Formatter<W>) -> fmt::Result
    ensures { WritesOnOk W.write_str_gives f.old result
        (what.now ++ codes " too large") f.new }
{
    f.write_str(what.as_str())?;
    f.write_str(" too large")
}

/// Writes why custom syntax is not known, and its tokens.
pub(crate) fn write_custom_syntax<W: fmt::Write>(
    reason: &Text,
    tokens: &Array,
    f: &mut fmt::Formatter<W>,
) -> fmt::Result
    ensures { WritesOnOk W.write_str_gives f.old result
        (reason.now ++ (codes ": " ++ spaced [] tokens.now)) f.new }
{
    let tokens = Spaced(tokens);
    write!(f, "{reason}: {tokens}")
}

/// Writes that a script threw a value.
pub(crate) fn write_runtime_error<W: fmt::Write>(
    value: &Dynamic,
    f: &mut fmt::Formatter<W>,
) -> fmt::Result
    ensures { WritesOnOk W.write_str_gives f.old result
        (codes "Runtime error" ++ thrown_value_text value.now) f.new }
{
    f.write_str("Runtime error")?;
    write_thrown_value(value, f)
}

// Writes a value that was thrown, after a colon. Unit and the empty text write nothing.
fn write_thrown_value<W: fmt::Write>(value: &Dynamic, f: &mut fmt::Formatter<W>) -> fmt::Result
    ensures { WritesOnOk W.write_str_gives f.old result
        (thrown_value_text value.now) f.new }
{
    match value {
        Dynamic::Unit => Ok(()),
        Dynamic::Text(text) => {
            if text.is_empty() {
                Ok(())
            } else {
                write_labelled(": ", text, f)
            }
        }
        _ => write!(f, ": {value}"),
    }
}

/// Writes what a program asks for that is not there.
pub(crate) fn write_malformed<W: fmt::Write>(
    kind: &MalformedKind,
    f: &mut fmt::Formatter<W>,
) -> fmt::Result
    ensures { WritesOnOk W.write_str_gives f.old result
        (codes "Malformed program: " ++ kind_text kind.now) f.new }
{
    write!(f, "Malformed program: {kind}")
}

/// How many items a whole has.
#[derive(Clone, Copy)]
struct Size<'a> {
    length: usize,
    whole: &'a str,
    item: &'a str,
}

impl fmt::Display for Size<'_> {
    ghost output = { λ s. Some (size_text s.whole.now s.item.now s.length) };

    fn fmt<W: fmt::Write>(&self, f: &mut fmt::Formatter<W>) -> fmt::Result {
        let Size {
            length,
            whole,
            item,
        } = *self;
        if length == 0 {
            write!(f, "{whole} is empty")
        } else if length == 1 {
            write!(f, "only 1 {item} in {whole}")
        } else {
            write!(f, "only {length} {item}s in {whole}")
        }
    }
}

/// Values by their plain texts, with a blank between each two.
#[derive(Drop)]
struct Spaced<'a>(&'a Array);

impl fmt::Display for Spaced<'_> {
    ghost output = { λ s. Some (spaced [] s.0.now) };

    fn fmt<W: fmt::Write>(&self, f: &mut fmt::Formatter<W>) -> fmt::Result {
        let values = self.0;
        let mut lead = "";
        for index in 0..values.len() {
            let value = values.at(index);
            write!(f, "{lead}{value}")?;
            lead = " ";
        }
        Ok(())
    }
}
