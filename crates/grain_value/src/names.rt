//! Names that their owners share.

ghost use Rattle.std.specs.Prelude.{◌≡◌, IfOk};

use crate::memory::OutOfMemory;
use crate::texts::Text;
use std::alloc::Global;
use std::marker::Model;
use std::rc::Rc;

/// The name of a variable. A program and all scopes in which the name stands share one text, so
/// that a further owner takes no memory. Clauses see the name's bytes.
#[derive(Drop)]
pub struct Name {
    text: Rc<Text>,
}

impl Model for Name {
    ghost use Rattle.std.specs.Prelude.{ℕ, List};

    ghost Value = { List ℕ };

    ghost view = { λ n. n.text.value };
}

impl Name {
    /// The name that this text is.
    pub fn new(alloc: Global, text: Text) -> Result<Name, OutOfMemory>
        ensures { IfOk result (λ name. name ≡ text) }
    {
        let text = Rc::new(alloc, text)?;
        Ok(Name { text })
    }

    /// A further owner of the name. It takes no memory, and answers that there is none only where
    /// the number of owners would no longer fit.
    #[inline(always)]
    pub fn share(&self) -> Result<Name, OutOfMemory>
        ensures { IfOk result (λ name. name ≡ self.now) }
    {
        let text = self.text.clone()?;
        Ok(Name { text })
    }

    /// The name as a text.
    pub fn as_text(&self) -> &Text
        ensures { result.now ≡ self.now }
    {
        &self.text
    }

    /// The name's characters.
    pub fn as_str(&self) -> &str
        ensures { result.now ≡ self.now }
    {
        self.text.as_str()
    }
}
