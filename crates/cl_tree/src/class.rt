/// What the grammar tells of a token. Some classes look at the token after it, and at the partner of a `(`.
#[derive(Clone, Copy, Debug, PartialEq, Eq)]
pub enum Class {
    /// An identifier that is no typedef name.
    Ident,
    /// The same directly before `:`.
    IdentColon,
    /// An identifier that is visible as a typedef name.
    TypedefName,
    /// The same directly before `:`.
    TypedefColon,
    /// A number or a character constant.
    Constant,
    /// A string literal.
    String,
    /// `(` before what begins no type.
    LeftParen,
    /// `(` before what may begin a type.
    TypeParen,
    /// The same where its partner stands directly before `{`.
    LiteralParen,
    /// `)`.
    RightParen,
    /// `[`.
    LeftBracket,
    /// `]`.
    RightBracket,
    /// `{`.
    LeftBrace,
    /// `}`.
    RightBrace,
    /// `.`.
    Dot,
    /// `->`.
    Arrow,
    /// `++`.
    PlusPlus,
    /// `--`.
    MinusMinus,
    /// `&`.
    Ampersand,
    /// `*`.
    Star,
    /// `*` before `]`.
    StarBracket,
    /// `+`.
    Plus,
    /// `-`.
    Minus,
    /// `~`.
    Tilde,
    /// `!`.
    Bang,
    /// `/`.
    Slash,
    /// `%`.
    Percent,
    /// `<<`.
    ShiftLeft,
    /// `>>`.
    ShiftRight,
    /// `<`.
    Less,
    /// `>`.
    Greater,
    /// `<=`.
    LessEqual,
    /// `>=`.
    GreaterEqual,
    /// `==`.
    EqualEqual,
    /// `!=`.
    BangEqual,
    /// `^`.
    Caret,
    /// `|`.
    Bar,
    /// `&&`.
    AndAnd,
    /// `||`.
    OrOr,
    /// `?`.
    Question,
    /// `:`.
    Colon,
    /// `;`.
    Semicolon,
    /// `...`.
    Ellipsis,
    /// `,`.
    Comma,
    /// `,` before `}` or `...`.
    LastComma,
    /// `,` before `[` or `.`.
    DesignationComma,
    /// `=`.
    Equal,
    /// `*=`.
    StarEqual,
    /// `/=`.
    SlashEqual,
    /// `%=`.
    PercentEqual,
    /// `+=`.
    PlusEqual,
    /// `-=`.
    MinusEqual,
    /// `<<=`.
    ShiftLeftEqual,
    /// `>>=`.
    ShiftRightEqual,
    /// `&=`.
    AmpersandEqual,
    /// `^=`.
    CaretEqual,
    /// `|=`.
    BarEqual,
    /// `sizeof`.
    Sizeof,
    /// `_Alignof`.
    Alignof,
    /// `_Generic`.
    Generic,
    /// `default`.
    Default,
    /// `case`.
    Case,
    /// `if`.
    If,
    /// `else`.
    Else,
    /// `switch`.
    Switch,
    /// `while`.
    While,
    /// `do`.
    Do,
    /// `for`.
    For,
    /// `goto`.
    Goto,
    /// `continue`.
    Continue,
    /// `break`.
    Break,
    /// `return`.
    Return,
    /// `_Static_assert`.
    StaticAssert,
    /// `typedef`.
    Typedef,
    /// `extern`.
    Extern,
    /// `static`.
    Static,
    /// `_Thread_local`.
    ThreadLocal,
    /// `auto`.
    Auto,
    /// `register`.
    Register,
    /// `void`.
    Void,
    /// `char`.
    Char,
    /// `short`.
    Short,
    /// `int`.
    Int,
    /// `long`.
    Long,
    /// `float`.
    Float,
    /// `double`.
    Double,
    /// `signed`.
    Signed,
    /// `unsigned`.
    Unsigned,
    /// `_Bool`.
    Bool,
    /// `struct`.
    Struct,
    /// `union`.
    Union,
    /// `enum`.
    Enum,
    /// `const`.
    Const,
    /// `restrict`.
    Restrict,
    /// `volatile`.
    Volatile,
    /// `_Atomic`.
    Atomic,
    /// `_Atomic` directly before `(`.
    AtomicParen,
    /// `inline`.
    Inline,
    /// `_Noreturn`.
    Noreturn,
    /// `_Alignas`.
    Alignas,
    /// A token that no production takes.
    Other,
}
