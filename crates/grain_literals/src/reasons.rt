//! Why a listing is refused.

ghost use Rattle.std.specs.Prelude.{◌≡◌};
ghost use Rattle.grain_literals.specs.Reasons.{reason_text};

/// Why a listing is refused.
#[derive(Clone, Copy, Debug, PartialEq, Eq)]
pub enum Reason {
    /// It has more bytes than a listing may have.
    TooLong,
    /// Its bytes are no UTF-8.
    NotUtf8,
    /// Its first line that is not empty is not the header.
    MissingHeader,
    /// A line begins with no word of the format.
    UnknownWord,
    /// A line may not stand where it stands, or stands for a second time.
    OutOfPlace,
    /// A pool would have more entries than one may have.
    TooMany,
    /// A value or a quoted text is missing or not of its form.
    BadValue,
    /// Another operand is missing, wrong or surplus.
    BadOperand,
    /// An earlier line has the label.
    LabelTwice,
    /// A block has no `end`.
    UnfinishedChunk,
    /// There is no `main`.
    MissingMain,
    /// No line has the label.
    UnknownLabel,
    /// The format has it, and this program does not read it yet.
    NotBuilt,
}

impl Reason {
    /// The reason in words.
    pub fn text(self) -> &'static str
        ensures { result.now ≡ reason_text self }
    {
        match self {
            Reason::TooLong => "too long",
            Reason::NotUtf8 => "not UTF-8",
            Reason::MissingHeader => "missing header",
            Reason::UnknownWord => "unknown word",
            Reason::OutOfPlace => "out of place",
            Reason::TooMany => "too many",
            Reason::BadValue => "bad value",
            Reason::BadOperand => "bad operand",
            Reason::LabelTwice => "label twice",
            Reason::UnfinishedChunk => "unfinished chunk",
            Reason::MissingMain => "missing main",
            Reason::UnknownLabel => "unknown label",
            Reason::NotBuilt => "not built",
        }
    }
}
