//! Operator tokens.

ghost use Rattle.std.specs.Prelude.{◌≡◌};
ghost use Rattle.grain_value.specs.Tokens.{token_in, token_from_comparisons, token_from_assignments};

/// An operator, by which an instruction finds its built-in.
#[derive(Clone, Copy, Debug, PartialEq, Eq)]
pub enum Token {
    /// `+`
    Plus,
    /// `-`
    Minus,
    /// `*`
    Multiply,
    /// `/`
    Divide,
    /// `%`
    Modulo,
    /// `**`
    PowerOf,
    /// `<<`
    LeftShift,
    /// `>>`
    RightShift,
    /// `&`
    Ampersand,
    /// `|`
    Pipe,
    /// `^`
    XOr,
    /// `==`
    EqualsTo,
    /// `!=`
    NotEqualsTo,
    /// `<`
    LessThan,
    /// `<=`
    LessThanEqualsTo,
    /// `>`
    GreaterThan,
    /// `>=`
    GreaterThanEqualsTo,
    /// `..`
    ExclusiveRange,
    /// `..=`
    InclusiveRange,
    /// `!`
    Bang,
    /// `+=`
    PlusAssign,
    /// `-=`
    MinusAssign,
    /// `*=`
    MultiplyAssign,
    /// `/=`
    DivideAssign,
    /// `%=`
    ModuloAssign,
    /// `**=`
    PowerOfAssign,
    /// `<<=`
    LeftShiftAssign,
    /// `>>=`
    RightShiftAssign,
    /// `&=`
    AndAssign,
    /// `|=`
    OrAssign,
    /// `^=`
    XOrAssign,
    /// `neg`, which is `-` on one value.
    UnaryMinus,
    /// `other`, which has no built-in.
    Other,
}

impl Token {
    /// The token that is written so, if any: an operator, `neg` or `other`.
    pub fn lookup_from_syntax(syntax: &str) -> Option<Token>
        ensures { result ≡ token_in syntax.now }
    {
        match syntax {
            "+" => Some(Token::Plus),
            "-" => Some(Token::Minus),
            "*" => Some(Token::Multiply),
            "/" => Some(Token::Divide),
            "%" => Some(Token::Modulo),
            "**" => Some(Token::PowerOf),
            "<<" => Some(Token::LeftShift),
            ">>" => Some(Token::RightShift),
            "&" => Some(Token::Ampersand),
            "|" => Some(Token::Pipe),
            "^" => Some(Token::XOr),
            _ => Token::lookup_from_comparisons(syntax),
        }
    }

    // The same from the operators that compare on: those of arithmetic and of bits are left out.
    fn lookup_from_comparisons(syntax: &str) -> Option<Token>
        ensures { result ≡ token_from_comparisons syntax.now }
    {
        match syntax {
            "==" => Some(Token::EqualsTo),
            "!=" => Some(Token::NotEqualsTo),
            "<" => Some(Token::LessThan),
            "<=" => Some(Token::LessThanEqualsTo),
            ">" => Some(Token::GreaterThan),
            ">=" => Some(Token::GreaterThanEqualsTo),
            ".." => Some(Token::ExclusiveRange),
            "..=" => Some(Token::InclusiveRange),
            "!" => Some(Token::Bang),
            _ => Token::lookup_from_assignments(syntax),
        }
    }

    // The same from the operators that assign on: these, `neg` and `other`.
    fn lookup_from_assignments(syntax: &str) -> Option<Token>
        ensures { result ≡ token_from_assignments syntax.now }
    {
        match syntax {
            "+=" => Some(Token::PlusAssign),
            "-=" => Some(Token::MinusAssign),
            "*=" => Some(Token::MultiplyAssign),
            "/=" => Some(Token::DivideAssign),
            "%=" => Some(Token::ModuloAssign),
            "**=" => Some(Token::PowerOfAssign),
            "<<=" => Some(Token::LeftShiftAssign),
            ">>=" => Some(Token::RightShiftAssign),
            "&=" => Some(Token::AndAssign),
            "|=" => Some(Token::OrAssign),
            "^=" => Some(Token::XOrAssign),
            "neg" => Some(Token::UnaryMinus),
            "other" => Some(Token::Other),
            _ => None,
        }
    }
}
