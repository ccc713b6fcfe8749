//! Cursors: what a loop still goes over.

ghost use Rattle.std.specs.Prelude.{◌≡◌, ◌<◌, drop, negsuc, Some, None, is_none, IfOk, IfErr};
ghost use Rattle.grain_value.specs.Items.{items_of, integers_in};
ghost use Rattle.grain_value.specs.declared.values.Dynamic.TheVariants as dynamic;
ghost use Rattle.grain_stack.specs.Cursors.{items_left, first_cell, Gives, IsRange, bytes_in, characters_in};
ghost use Rattle.grain_stack.specs.Entries.{first_of};

use grain_value::{Array, Blob, Dynamic, Text};

/// The items that a cursor has left.
#[derive(Drop)]
pub enum Left {
    /// The values of a list, from an index on.
    Values { items: Array, next: usize },
    /// The bytes of a byte string, from an index on.
    Bytes { items: Blob, next: usize },
    /// The characters of a text, from a byte on.
    Characters { items: Text, next: usize },
    /// The integers from one to another. The last belongs to them if the range is inclusive.
    Range { from: i64, to: i64, inclusive: bool },
}

/// Where a loop stands.
#[derive(Drop)]
pub struct Cursor {
    /// The items that are left.
    pub left: Left,
    /// The number of the last item that was counted, from 0 on, or -1 if none was.
    pub counter: i64,
}

impl Cursor {
    /// A cursor that has counted nothing and has all items of a value left: the values of a list,
    /// the characters of a text, the bytes of a byte string, or the integers of a range. It gives
    /// any other value back.
    pub fn over(value: Dynamic) -> Result<Cursor, Dynamic>
        ensures items { IfOk result (λ cursor. items_of value ≡ Some (items_left cursor.left)) }
        ensures counter { IfOk result (λ cursor. cursor.counter ≡ negsuc 0) }
        ensures none { IfErr result (λ other. items_of value ≡ None) }
        ensures other { IfErr result (λ other. other ≡ value) }
    {
        match value {
            Dynamic::Array(items) => Ok(Cursor::begun(Left::Values { items, next: 0 })),
            Dynamic::Text(items) => Ok(Cursor::begun(Left::characters(items))),
            Dynamic::Blob(items) => Ok(Cursor::begun(Left::Bytes { items, next: 0 })),
            Dynamic::Range {
                from,
                to,
                inclusive,
            } => Ok(Cursor::begun(Left::Range {
                from,
                to,
                inclusive,
            })),
            other => Err(other),
        }
    }

    // A cursor that has counted nothing.
    fn begun(left: Left) -> Cursor
        ensures { result ≡ record { left = left; counter = negsuc 0 } }
    {
        Cursor { left, counter: -1 }
    }

    /// Whether no item is left.
    pub fn is_over(&self) -> bool
        ensures { result ≡ is_none (first_of (items_left self.now.left)) }
    {
        self.left.is_over()
    }

    /// The number of the cell that the first of the items that are left is, if it is one.
    pub fn first_cell(&self) -> Option<usize>
        ensures { result ≡ first_cell (items_left self.now.left) }
    {
        match &self.left {
            Left::Values { items, next } => cell_at(items, *next),
            _ => None,
        }
    }

    /// The first of the items that are left, which then is no longer left, or nothing if none is.
    /// It does not count it.
    pub fn next(&mut self) -> Option<Dynamic>
        ensures given { Gives (items_left self.old.left) result (items_left self.new.left) }
        ensures counter { self.new.counter ≡ self.old.counter }
    {
        self.left.next()
    }
}

impl Left {
    // All characters of a text.
    fn characters(items: Text) -> Left
        ensures { items_of (dynamic.Text items) ≡ Some (items_left result) }
    {
        let _text = items.as_str();
        Left::Characters { items, next: 0 }
    }

    // Whether there is no item.
    fn is_over(&self) -> bool
        ensures { result ≡ is_none (first_of (items_left self.now)) }
    {
        match self {
            Left::Values { items, next } => *next >= items.len(),
            Left::Bytes { items, next } => *next >= items.len(),
            Left::Characters { items, next } => begins_none(items, *next),
            Left::Range {
                from,
                to,
                inclusive,
            } => is_past(*from, *to, *inclusive),
        }
    }

    // The first item, which then is no longer left.
    fn next(&mut self) -> Option<Dynamic>
        ensures { Gives (items_left self.old) result (items_left self.new) }
    {
        match self {
            Left::Values { items, next } => next_value(items, next),
            Left::Bytes { items, next } => next_byte(items, next),
            Left::Characters { items, next } => next_character(items, next),
            Left::Range { .. } => self.next_integer(),
        }
    }

    // The first integer of a range, which then begins after it.
    fn next_integer(&mut self) -> Option<Dynamic>
        requires { IsRange self.old }
        ensures { Gives (items_left self.old) result (items_left self.new) }
    {
        let Left::Range {
            from,
            to,
            inclusive,
        } = &*self
        else {
            unreachable!();
        };
        let (first, last, inclusive) = (*from, *to, *inclusive);
        if first < last {
            *self = Left::Range {
                from: first + 1,
                to: last,
                inclusive,
            };
            return Some(Dynamic::Int(first));
        }
        // the end is given once, and nothing need be above it
        if first == last && inclusive {
            *self = Left::Range {
                from: first,
                to: last,
                inclusive: false,
            };
            return Some(Dynamic::Int(first));
        }
        None
    }
}

// The number of the cell that the value at the index is, if it is one.
fn cell_at(items: &Array, index: usize) -> Option<usize>
    ensures { result ≡ first_cell (drop index items.now) }
{
    if index >= items.len() {
        return None;
    }
    items.at(index).as_cell()
}

// Whether a range has no integers.
fn is_past(from: i64, to: i64, inclusive: bool) -> bool
    ensures { result ≡ is_none (first_of (integers_in from to inclusive)) }
{
    if from < to {
        return false;
    }
    if from == to {
        return !inclusive;
    }
    true
}

// Whether no character begins at the byte.
fn begins_none(items: &Text, at: usize) -> bool
    ensures { result ≡ is_none (first_of (characters_in (drop at items.now))) }
{
    let Some((_, rest)) = items.as_str().split_at_checked(at) else {
        return true;
    };
    match rest.chars().next() {
        Some(_) => false,
        None => true,
    }
}

// The value at the index, which goes on by one. The list keeps unit in its place.
fn next_value(items: &mut Array, next: &mut usize) -> Option<Dynamic>
    ensures { Gives (drop next.old items.old) result (drop next.new items.new) }
{
    if *next >= items.len() {
        return None;
    }
    let value = items.take(*next);
    *next += 1;
    Some(value)
}

// The byte at the index, which goes on by one.
fn next_byte(items: &Blob, next: &mut usize) -> Option<Dynamic>
    ensures { Gives (bytes_in (drop next.old items.now)) result
        (bytes_in (drop next.new items.now)) }
{
    if *next >= items.len() {
        return None;
    }
    let byte = items.as_slice()[*next];
    *next += 1;
    Some(Dynamic::Int(i64::from(byte)))
}

// The character that begins at the byte, which goes on to the first of the next character.
fn next_character(items: &Text, next: &mut usize) -> Option<Dynamic>
    ensures { Gives (characters_in (drop next.old items.now)) result
        (characters_in (drop next.new items.now)) }
{
    let Some((_, rest)) = items.as_str().split_at_checked(*next) else {
        return None;
    };
    let character = rest.chars().next()?;
    *next += character.len_utf8();
    Some(Dynamic::Char(character))
}
