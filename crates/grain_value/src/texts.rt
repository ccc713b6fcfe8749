//! Texts: names, the fields of faults, and what is written.

ghost use Rattle.std.specs.declared.alloc.Global.{Global};
ghost use Rattle.std.specs.Prelude.{◌≡◌, ◌==◌, ◌<◌, ◌^◌, ◌++◌, [], length, Some, IfOk, IfErr, IfSome, is_ok, if◌then◌else◌, slice_get, string_bytes};
ghost use Rattle.std.specs.Char.{encode_utf8};
ghost use Rattle.std.specs.Str.{chars};
ghost use Rattle.std.specs.Fmt.{decimal, signed_decimal};
ghost use Rattle.grain_value.specs.Quoting.{quoted_text};

use crate::appending::append;
use crate::memory::OutOfMemory;
use crate::quoting::Quoted;
use std::alloc::Global;
use std::fmt;
use std::marker::Model;
use std::rc::Rc;

/// A text. A copy shares its characters until one of the two is written, so that a copy takes no memory.
/// Clauses see the bytes, which are UTF-8.
#[derive(Drop)]
pub struct Text {
    // the allocator of the characters
    alloc: Global,
    // nothing, where the text is empty and has taken no memory
    shared: Option<Rc<String>>,
}

impl Model for Text {
    ghost use Rattle.std.specs.Prelude.{ℕ, List, [], string_bytes};
    ghost use Rattle.std.specs.Option.{option_map, unwrap_or};

    ghost Value = { List ℕ };

    ghost view = { λ t. unwrap_or (option_map (λ s. string_bytes s.value) t.shared) [] };
}

impl Text {
    /// The empty text. It takes no memory.
    pub fn new(alloc: Global) -> Text
        ensures { result ≡ [] }
    {
        Text {
            alloc,
            shared: None,
        }
    }

    /// The allocator of the text. There is only one, the global one.
    pub fn allocator(&self) -> Global
        ensures { (alloc : Global) → result ≡ alloc }
    {
        self.alloc
    }

    /// A text of these characters.
    pub fn copy_of(alloc: Global, s: &str) -> Result<Text, OutOfMemory>
        ensures { IfOk result (λ t. t ≡ s.now) }
    {
        let characters = String::from_str(alloc, s)?;
        let shared = Rc::new(alloc, characters)?;
        Ok(Text {
            alloc,
            shared: Some(shared),
        })
    }

    /// An equal text, which shares its characters with this one. It takes no memory, and answers that there
    /// is none only where the number of texts that share them would no longer fit.
    pub fn copy(&self, alloc: Global) -> Result<Text, OutOfMemory>
        ensures { IfOk result (λ t. t ≡ self.now) }
    {
        let shared = match &self.shared {
            Some(characters) => Some(characters.clone()?),
            None => None,
        };
        Ok(Text { alloc, shared })
    }

    /// How many bytes the text has.
    pub fn len(&self) -> usize
        ensures { result ≡ length self.now }
    {
        self.as_str().len()
    }

    /// How many characters the text has.
    pub fn char_count(&self) -> usize
        ensures value { result ≡ length (chars self.now) }
        ensures small { result < 2 ^ 63 }
    {
        self.as_str().chars().count()
    }

    /// Whether the text has no bytes.
    pub fn is_empty(&self) -> bool
        ensures { result ≡ (length self.now == 0) }
    {
        self.as_str().is_empty()
    }

    /// The byte at the index, if there is one.
    pub fn get(&self, index: usize) -> Option<u8>
        ensures { result ≡ slice_get self.now index }
    {
        self.as_str().as_bytes().get(index).copied()
    }

    /// The text as it is.
    pub fn as_str(&self) -> &str
        ensures { result.now ≡ self.now }
    {
        match &self.shared {
            Some(characters) => characters.as_str(),
            None => "",
        }
    }

    // The text as a `String` of its own.
    pub(crate) fn into_string(self) -> Result<String, OutOfMemory>
        ensures { IfOk result (λ s. string_bytes s ≡ self) }
    {
        match self.shared {
            Some(characters) => Ok(Rc::unwrap_or_clone(characters)?),
            None => Ok(String::new(self.alloc)),
        }
    }

    // Takes memory for characters that are to be written, if the text has none yet.
    fn begin(&mut self) -> Result<(), OutOfMemory>
        ensures { self.new ≡ self.old }
    {
        if self.shared.is_none() {
            let characters = Rc::new(self.alloc, String::new(self.alloc))?;
            self.shared = Some(characters);
        }
        Ok(())
    }

    /// Puts these characters at the end. After want of memory the text is as it was.
    pub fn push_str(&mut self, s: &str) -> Result<(), OutOfMemory>
        ensures { self.new ≡ (if is_ok result then self.old ++ s.now else self.old) }
    {
        self.begin()?;
        let Some(characters) = &mut self.shared else {
            return Err(OutOfMemory);
        };
        Rc::make_mut(characters)?.push_str(s)?;
        Ok(())
    }

    /// Puts a character at the end, as UTF-8. After want of memory the text is as it was.
    pub fn push(&mut self, character: char) -> Result<(), OutOfMemory>
        ensures { self.new
            ≡ (if is_ok result then self.old ++ encode_utf8 character else self.old) }
    {
        self.begin()?;
        let Some(characters) = &mut self.shared else {
            return Err(OutOfMemory);
        };
        Rc::make_mut(characters)?.push(character)?;
        Ok(())
    }

    /// Puts a number's decimal digits at the end. After want of memory the text is as it was.
    pub fn push_number(&mut self, number: u64) -> Result<(), OutOfMemory>
        ensures { self.new ≡ (if is_ok result then self.old ++ decimal number else self.old) }
    {
        self.push_display(&number)
    }

    /// Puts an integer's decimal digits at the end, after a minus if it is below zero. After want
    /// of memory the text is as it was.
    pub fn push_integer(&mut self, integer: i64) -> Result<(), OutOfMemory>
        ensures { self.new
            ≡ (if is_ok result then self.old ++ signed_decimal integer else self.old) }
    {
        self.push_display(&integer)
    }

    /// Puts these characters at the end between quotes, with the escapes `\"`, `\\`, `\n`, `\r`
    /// and `\t`. After want of memory the text is as it was.
    pub fn push_quoted(&mut self, s: &str) -> Result<(), OutOfMemory>
        ensures { self.new ≡ (if is_ok result then self.old ++ quoted_text s.now else self.old) }
    {
        self.push_display(&Quoted(s))
    }

    /// Puts at the end what `{}` prints of a value. After want of memory the text is as it was.
    pub fn push_display<D: fmt::Display>(&mut self, value: &D) -> Result<(), OutOfMemory>
        ensures output { IfSome (D.output value.now) (λ text.
            self.new ≡ (if is_ok result then self.old ++ text else self.old)) }
        ensures unchanged { IfErr result (λ _. self.new ≡ self.old) }
    {
        self.begin()?;
        let Some(characters) = &mut self.shared else {
            return Err(OutOfMemory);
        };
        append(Rc::make_mut(characters)?, value)
    }
}

impl fmt::Display for Text {
    ghost output = { λ t. Some t };

    fn fmt<W: fmt::Write>(&self, f: &mut fmt::Formatter<W>) -> fmt::Result {
        let text = self.as_str();
        write!(f, "{text}")
    }
}
