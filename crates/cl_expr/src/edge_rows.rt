//! The edges of the places, one place after the other. Written by tools/grammar/emit_expr.py.

ghost use Rattle.std.specs.Prelude.{◌≡◌};
ghost use Rattle.cl_expr.specs.code.Table as t;

use crate::table::Edge;
use cl_tree::{Act, Class, Nonterminal, Separator, Symbol, Terminal};

macro_rules! is {
    ($class:ident) => {
        Terminal::Is(Class::$class)
    };
}

macro_rules! token {
    ($terminal:expr) => {
        Symbol::Token($terminal, Act::Stay)
    };
}

macro_rules! act {
    ($terminal:expr, $act:ident) => {
        Symbol::Token($terminal, Act::$act)
    };
}

macro_rules! node {
    ($goal:ident) => {
        Symbol::Node(Nonterminal::$goal)
    };
}

macro_rules! edge {
    ($symbol:expr, $next:expr) => {
        Edge {
            before: None,
            symbol: $symbol,
            next: $next,
        }
    };
}

macro_rules! after {
    ($class:ident, $act:ident, $symbol:expr, $next:expr) => {
        Edge {
            before: Some(Separator {
                class: Class::$class,
                act: Act::$act,
            }),
            symbol: $symbol,
            next: $next,
        }
    };
}

// a list, in lines as they stand
macro_rules! rows {
    ($($row:expr),* $(,)?) => {
        [$($row),*]
    };
}

static EDGES: [Edge; 466] = rows! {
    edge!(token!(Terminal::Name), 2), edge!(token!(is!(Constant)), 3), edge!(token!(is!(String)), 4),
    edge!(token!(is!(LeftParen)), 5), edge!(token!(is!(String)), 4), edge!(node!(Expression), 6),
    edge!(token!(is!(RightParen)), 7), edge!(token!(is!(Generic)), 9), edge!(token!(Terminal::Open), 10),
    edge!(node!(AssignmentExpression), 11), edge!(token!(is!(Comma)), 12), edge!(node!(GenericAssocList), 13),
    edge!(token!(is!(RightParen)), 14), edge!(node!(GenericAssociation), 16), after!(Comma, Stay, node!(GenericAssociation), 16),
    edge!(node!(TypeName), 18), edge!(token!(is!(Default)), 21), edge!(token!(is!(Colon)), 19),
    edge!(node!(AssignmentExpression), 20), edge!(token!(is!(Colon)), 22), edge!(node!(AssignmentExpression), 23),
    edge!(node!(PostfixExpression), 25), edge!(token!(is!(LeftBracket)), 26), edge!(token!(Terminal::Open), 29),
    edge!(token!(is!(Dot)), 32), edge!(token!(is!(Arrow)), 34), edge!(token!(is!(PlusPlus)), 36),
    edge!(token!(is!(MinusMinus)), 37), edge!(node!(Expression), 27), edge!(token!(is!(RightBracket)), 28),
    edge!(node!(ArgumentExpressionList), 30), edge!(token!(is!(RightParen)), 31), edge!(token!(is!(RightParen)), 31),
    edge!(token!(Terminal::Name), 33), edge!(token!(Terminal::Name), 35), edge!(token!(is!(LiteralParen)), 39),
    edge!(node!(TypeName), 40), edge!(token!(is!(RightParen)), 41), edge!(token!(is!(LeftBrace)), 42),
    edge!(node!(InitializerList), 43), edge!(token!(is!(RightBrace)), 44), edge!(token!(is!(LastComma)), 45),
    edge!(token!(is!(RightBrace)), 46), edge!(node!(AssignmentExpression), 48),
    after!(Comma, Stay, node!(AssignmentExpression), 48), edge!(token!(is!(PlusPlus)), 50), edge!(token!(is!(MinusMinus)), 52),
    edge!(node!(UnaryOperator), 54), edge!(token!(is!(Sizeof)), 56), edge!(token!(is!(Alignof)), 61),
    edge!(node!(UnaryExpression), 51), edge!(node!(UnaryExpression), 53), edge!(node!(CastExpression), 55),
    edge!(node!(UnaryExpression), 57), edge!(token!(is!(TypeParen)), 58), edge!(node!(TypeName), 59),
    edge!(token!(is!(RightParen)), 60), edge!(token!(Terminal::TypeOpen), 62), edge!(node!(TypeName), 63),
    edge!(token!(is!(RightParen)), 64), edge!(token!(is!(Ampersand)), 66), edge!(token!(is!(Star)), 67),
    edge!(token!(is!(Plus)), 68), edge!(token!(is!(Minus)), 69), edge!(token!(is!(Tilde)), 70), edge!(token!(is!(Bang)), 71),
    edge!(token!(is!(TypeParen)), 73), edge!(node!(TypeName), 74), edge!(token!(is!(RightParen)), 75),
    edge!(node!(CastExpression), 76), edge!(node!(MultiplicativeExpression), 78), edge!(token!(is!(Star)), 79),
    edge!(token!(is!(Slash)), 81), edge!(token!(is!(Percent)), 83), edge!(node!(CastExpression), 80),
    edge!(node!(CastExpression), 82), edge!(node!(CastExpression), 84), edge!(node!(AdditiveExpression), 86),
    edge!(token!(is!(Plus)), 87), edge!(token!(is!(Minus)), 89), edge!(node!(MultiplicativeExpression), 88),
    edge!(node!(MultiplicativeExpression), 90), edge!(node!(ShiftExpression), 92), edge!(token!(is!(ShiftLeft)), 93),
    edge!(token!(is!(ShiftRight)), 95), edge!(node!(AdditiveExpression), 94), edge!(node!(AdditiveExpression), 96),
    edge!(node!(RelationalExpression), 98), edge!(token!(is!(Less)), 99), edge!(token!(is!(Greater)), 101),
    edge!(token!(is!(LessEqual)), 103), edge!(token!(is!(GreaterEqual)), 105), edge!(node!(ShiftExpression), 100),
    edge!(node!(ShiftExpression), 102), edge!(node!(ShiftExpression), 104), edge!(node!(ShiftExpression), 106),
    edge!(node!(EqualityExpression), 108), edge!(token!(is!(EqualEqual)), 109), edge!(token!(is!(BangEqual)), 111),
    edge!(node!(RelationalExpression), 110), edge!(node!(RelationalExpression), 112), edge!(node!(AndExpression), 114),
    edge!(token!(is!(Ampersand)), 115), edge!(node!(EqualityExpression), 116), edge!(node!(ExclusiveOrExpression), 118),
    edge!(token!(is!(Caret)), 119), edge!(node!(AndExpression), 120), edge!(node!(InclusiveOrExpression), 122),
    edge!(token!(is!(Bar)), 123), edge!(node!(ExclusiveOrExpression), 124), edge!(node!(LogicalAndExpression), 126),
    edge!(token!(is!(AndAnd)), 127), edge!(node!(InclusiveOrExpression), 128), edge!(node!(LogicalOrExpression), 130),
    edge!(token!(is!(OrOr)), 131), edge!(node!(LogicalAndExpression), 132), edge!(node!(LogicalOrExpression), 134),
    edge!(token!(is!(Question)), 135), edge!(node!(Expression), 136), edge!(token!(is!(Colon)), 137),
    edge!(node!(ConditionalExpression), 138), edge!(node!(UnaryExpression), 140), edge!(node!(AssignmentOperator), 141),
    edge!(node!(AssignmentExpression), 142), edge!(token!(is!(Equal)), 144), edge!(token!(is!(StarEqual)), 145),
    edge!(token!(is!(SlashEqual)), 146), edge!(token!(is!(PercentEqual)), 147), edge!(token!(is!(PlusEqual)), 148),
    edge!(token!(is!(MinusEqual)), 149), edge!(token!(is!(ShiftLeftEqual)), 150), edge!(token!(is!(ShiftRightEqual)), 151),
    edge!(token!(is!(AmpersandEqual)), 152), edge!(token!(is!(CaretEqual)), 153), edge!(token!(is!(BarEqual)), 154),
    edge!(node!(Expression), 156), edge!(token!(is!(Comma)), 157), edge!(node!(AssignmentExpression), 158),
    edge!(node!(DeclarationSpecifiers), 160), edge!(node!(InitDeclaratorList), 161), edge!(act!(is!(Semicolon), Finish), 162),
    edge!(act!(is!(Semicolon), Finish), 162), edge!(node!(OtherSpecifier), 164), edge!(node!(TypeSpecifier), 165),
    edge!(node!(OtherSpecifier), 164), edge!(node!(TypeSpecifier), 165), edge!(node!(LaterSpecifier), 165),
    edge!(node!(InitDeclarator), 167), after!(Comma, Declare, node!(InitDeclarator), 167), edge!(node!(Declarator), 169),
    edge!(act!(is!(Equal), Declare), 170), edge!(node!(Initializer), 171), edge!(act!(is!(Typedef), Typedef), 173),
    edge!(token!(is!(Extern)), 174), edge!(token!(is!(Static)), 175), edge!(token!(is!(ThreadLocal)), 176),
    edge!(token!(is!(Auto)), 177), edge!(token!(is!(Register)), 178), edge!(token!(is!(Void)), 180),
    edge!(token!(is!(Char)), 181), edge!(token!(is!(Short)), 182), edge!(token!(is!(Int)), 183), edge!(token!(is!(Long)), 184),
    edge!(token!(is!(Float)), 185), edge!(token!(is!(Double)), 186), edge!(token!(is!(Signed)), 187),
    edge!(token!(is!(Unsigned)), 188), edge!(token!(is!(Bool)), 189), edge!(node!(StructOrUnion), 191),
    edge!(token!(Terminal::Name), 192), edge!(act!(is!(LeftBrace), Open), 193), edge!(act!(is!(LeftBrace), Open), 193),
    edge!(node!(StructDeclarationList), 194), edge!(act!(is!(RightBrace), Shut), 195), edge!(token!(is!(Struct)), 197),
    edge!(token!(is!(Union)), 198), edge!(node!(StructDeclaration), 200), edge!(node!(StructDeclaration), 200),
    edge!(node!(SpecifierQualifierList), 202), edge!(node!(StructDeclaratorList), 203), edge!(act!(is!(Semicolon), Forget), 204),
    edge!(act!(is!(Semicolon), Forget), 204), edge!(node!(TypeQualifier), 206), edge!(node!(TypeSpecifier), 207),
    edge!(node!(TypeQualifier), 206), edge!(node!(TypeSpecifier), 207), edge!(node!(LaterQualifier), 207),
    edge!(node!(StructDeclarator), 209), after!(Comma, Forget, node!(StructDeclarator), 209), edge!(node!(Declarator), 211),
    edge!(act!(is!(Colon), Forget), 212), edge!(node!(ConstantExpression), 213), edge!(token!(is!(Colon)), 215),
    edge!(node!(ConstantExpression), 216), edge!(token!(is!(Enum)), 218), edge!(token!(Terminal::Name), 219),
    edge!(act!(is!(LeftBrace), Open), 220), edge!(act!(is!(LeftBrace), Open), 220), edge!(node!(EnumeratorList), 221),
    edge!(act!(is!(RightBrace), Shut), 222), edge!(token!(is!(LastComma)), 223), edge!(act!(is!(RightBrace), Shut), 224),
    edge!(node!(Enumerator), 226), after!(Comma, Declare, node!(Enumerator), 226), edge!(act!(Terminal::Name, Name), 228),
    edge!(token!(is!(Equal)), 229), edge!(node!(ConstantExpression), 230), edge!(token!(is!(AtomicParen)), 232),
    edge!(token!(Terminal::TypeOpen), 233), edge!(node!(TypeName), 234), edge!(token!(is!(RightParen)), 235),
    edge!(token!(is!(Const)), 237), edge!(token!(is!(Restrict)), 238), edge!(token!(is!(Volatile)), 239),
    edge!(token!(is!(Atomic)), 240), edge!(token!(is!(Inline)), 242), edge!(token!(is!(Noreturn)), 243),
    edge!(token!(is!(Alignas)), 245), edge!(token!(Terminal::TypeOpen), 246), edge!(token!(is!(LeftParen)), 249),
    edge!(node!(TypeName), 247), edge!(token!(is!(RightParen)), 248), edge!(node!(ConstantExpression), 250),
    edge!(token!(is!(RightParen)), 251), edge!(node!(Pointer), 253), edge!(node!(DirectDeclarator), 254),
    edge!(act!(Terminal::Name, Name), 256), edge!(token!(Terminal::Open), 257), edge!(node!(Declarator), 258),
    edge!(token!(is!(RightParen)), 259), edge!(node!(DirectDeclarator), 261), edge!(token!(is!(LeftBracket)), 262),
    edge!(act!(Terminal::TypeOpen, Open), 275), edge!(act!(is!(LeftParen), Open), 278), edge!(node!(TypeQualifierList), 263),
    edge!(node!(AssignmentExpression), 264), edge!(token!(is!(RightBracket)), 265), edge!(token!(is!(Static)), 271),
    edge!(token!(is!(StarBracket)), 269), edge!(node!(AssignmentExpression), 264), edge!(token!(is!(RightBracket)), 265),
    edge!(token!(is!(Static)), 266), edge!(token!(is!(StarBracket)), 269), edge!(token!(is!(RightBracket)), 265),
    edge!(node!(AssignmentExpression), 267), edge!(token!(is!(RightBracket)), 268), edge!(token!(is!(RightBracket)), 270),
    edge!(node!(TypeQualifierList), 272), edge!(node!(AssignmentExpression), 273), edge!(node!(AssignmentExpression), 273),
    edge!(token!(is!(RightBracket)), 274), edge!(node!(ParameterTypeList), 276), edge!(act!(is!(RightParen), Close), 277),
    edge!(node!(IdentifierList), 279), edge!(act!(is!(RightParen), Close), 280), edge!(act!(is!(RightParen), Close), 280),
    edge!(node!(Pointer), 282), edge!(node!(DirectAnyDeclarator), 283), edge!(act!(Terminal::Name, Name), 287),
    edge!(token!(is!(LeftParen)), 288), edge!(token!(is!(LeftBracket)), 295), edge!(act!(Terminal::TypeOpen, Open), 308),
    edge!(node!(AnyDeclarator), 289), edge!(token!(is!(RightParen)), 294), edge!(token!(is!(RightParen)), 291),
    edge!(token!(is!(RightParen)), 293), edge!(node!(TypeQualifierList), 296), edge!(node!(AssignmentExpression), 297),
    edge!(token!(is!(RightBracket)), 298), edge!(token!(is!(Static)), 302), edge!(token!(is!(StarBracket)), 306),
    edge!(node!(AssignmentExpression), 297), edge!(token!(is!(RightBracket)), 298), edge!(token!(is!(Static)), 299),
    edge!(token!(is!(RightBracket)), 298), edge!(node!(AssignmentExpression), 300), edge!(token!(is!(RightBracket)), 301),
    edge!(node!(TypeQualifierList), 303), edge!(node!(AssignmentExpression), 304), edge!(node!(AssignmentExpression), 304),
    edge!(token!(is!(RightBracket)), 305), edge!(token!(is!(RightBracket)), 307), edge!(node!(ParameterTypeList), 309),
    edge!(act!(is!(RightParen), Close), 310), edge!(node!(DirectParameterDeclarator), 312), edge!(token!(is!(LeftBracket)), 313),
    edge!(act!(Terminal::TypeOpen, Open), 326), edge!(act!(is!(LeftParen), Open), 329), edge!(node!(TypeQualifierList), 314),
    edge!(node!(AssignmentExpression), 315), edge!(token!(is!(RightBracket)), 316), edge!(token!(is!(Static)), 322),
    edge!(token!(is!(StarBracket)), 320), edge!(node!(AssignmentExpression), 315), edge!(token!(is!(RightBracket)), 316),
    edge!(token!(is!(Static)), 317), edge!(token!(is!(StarBracket)), 320), edge!(token!(is!(RightBracket)), 316),
    edge!(node!(AssignmentExpression), 318), edge!(token!(is!(RightBracket)), 319), edge!(token!(is!(RightBracket)), 321),
    edge!(node!(TypeQualifierList), 323), edge!(node!(AssignmentExpression), 324), edge!(node!(AssignmentExpression), 324),
    edge!(token!(is!(RightBracket)), 325), edge!(node!(ParameterTypeList), 327), edge!(act!(is!(RightParen), Close), 328),
    edge!(node!(IdentifierList), 330), edge!(act!(is!(RightParen), Close), 331), edge!(act!(is!(RightParen), Close), 331),
    edge!(token!(is!(Star)), 333), edge!(node!(TypeQualifierList), 334), edge!(node!(Pointer), 335), edge!(node!(Pointer), 335),
    edge!(node!(TypeQualifier), 337), edge!(node!(TypeQualifier), 337), edge!(node!(ParameterList), 339),
    edge!(token!(is!(LastComma)), 340), edge!(token!(is!(Ellipsis)), 341), edge!(node!(ParameterDeclaration), 343),
    after!(Comma, Finish, node!(ParameterDeclaration), 343), edge!(node!(DeclarationSpecifiers), 345),
    edge!(node!(AnyDeclarator), 346), edge!(token!(Terminal::Name), 350), after!(Comma, Stay, token!(Terminal::Name), 350),
    edge!(node!(SpecifierQualifierList), 352), edge!(node!(AbstractDeclarator), 353), edge!(node!(DirectAbstractDeclarator), 355),
    edge!(token!(is!(LeftBracket)), 356), edge!(token!(is!(LeftParen)), 369), edge!(act!(Terminal::TypeOpen, Open), 371),
    edge!(node!(TypeQualifierList), 357), edge!(node!(AssignmentExpression), 358), edge!(token!(is!(RightBracket)), 359),
    edge!(token!(is!(Static)), 363), edge!(token!(is!(StarBracket)), 367), edge!(node!(AssignmentExpression), 358),
    edge!(token!(is!(RightBracket)), 359), edge!(token!(is!(Static)), 360), edge!(token!(is!(RightBracket)), 359),
    edge!(node!(AssignmentExpression), 361), edge!(token!(is!(RightBracket)), 362), edge!(node!(TypeQualifierList), 364),
    edge!(node!(AssignmentExpression), 365), edge!(node!(AssignmentExpression), 365), edge!(token!(is!(RightBracket)), 366),
    edge!(token!(is!(RightBracket)), 368), edge!(token!(is!(RightParen)), 370), edge!(node!(ParameterTypeList), 372),
    edge!(act!(is!(RightParen), Close), 373), edge!(token!(Terminal::Typed), 375), edge!(token!(is!(LeftBrace)), 377),
    edge!(node!(InitializerList), 378), edge!(token!(is!(RightBrace)), 379), edge!(token!(is!(LastComma)), 380),
    edge!(token!(is!(RightBrace)), 381), edge!(node!(Designation), 383), edge!(node!(Initializer), 384),
    edge!(node!(Initializer), 384), after!(DesignationComma, Stay, node!(Designation), 383),
    after!(Comma, Stay, node!(Initializer), 384), edge!(node!(DesignatorList), 386), edge!(token!(is!(Equal)), 387),
    edge!(node!(Designator), 389), edge!(node!(Designator), 389), edge!(token!(is!(LeftBracket)), 391),
    edge!(token!(is!(Dot)), 394), edge!(node!(ConstantExpression), 392), edge!(token!(is!(RightBracket)), 393),
    edge!(token!(Terminal::Name), 395), edge!(token!(is!(StaticAssert)), 397), edge!(token!(Terminal::Open), 398),
    edge!(node!(ConstantExpression), 399), edge!(token!(is!(Comma)), 400), edge!(token!(is!(String)), 401),
    edge!(token!(is!(String)), 401), edge!(token!(is!(RightParen)), 402), edge!(token!(is!(Semicolon)), 403),
    edge!(token!(Terminal::Label), 405), edge!(token!(is!(Case)), 410), edge!(token!(is!(Default)), 416),
    edge!(token!(is!(Colon)), 406), edge!(node!(Statement), 407), edge!(node!(ConstantExpression), 411),
    edge!(token!(is!(Colon)), 412), edge!(node!(Statement), 413), edge!(token!(is!(Colon)), 417), edge!(node!(Statement), 418),
    edge!(act!(is!(LeftBrace), Open), 422), edge!(node!(BlockItemList), 423), edge!(act!(is!(RightBrace), Close), 424),
    edge!(act!(is!(RightBrace), Close), 424), edge!(Symbol::Entry, 426), edge!(Symbol::Entry, 426),
    edge!(node!(UnlabelledExpression), 428), edge!(token!(is!(Semicolon)), 429), edge!(token!(is!(Semicolon)), 429),
    edge!(token!(is!(If)), 431), edge!(token!(is!(Switch)), 442), edge!(token!(Terminal::Open), 432),
    edge!(node!(Expression), 433), edge!(act!(is!(RightParen), Open), 434), edge!(node!(Statement), 435),
    edge!(act!(is!(Else), Close), 438), edge!(node!(Statement), 439), edge!(token!(Terminal::Open), 443),
    edge!(node!(Expression), 444), edge!(token!(is!(RightParen)), 445), edge!(node!(Statement), 446),
    edge!(act!(is!(Do), Open), 450), edge!(token!(is!(While)), 457), edge!(token!(is!(For)), 464), edge!(node!(Statement), 451),
    edge!(act!(is!(While), Close), 452), edge!(token!(Terminal::Open), 453), edge!(node!(Expression), 454),
    edge!(token!(is!(RightParen)), 455), edge!(token!(is!(Semicolon)), 456), edge!(token!(Terminal::Open), 458),
    edge!(node!(Expression), 459), edge!(token!(is!(RightParen)), 460), edge!(node!(Statement), 461),
    edge!(token!(Terminal::Open), 465), edge!(node!(PlainExpression), 466), edge!(token!(is!(Semicolon)), 467),
    edge!(node!(Declaration), 475), edge!(token!(is!(Semicolon)), 467), edge!(node!(Expression), 468),
    edge!(token!(is!(Semicolon)), 469), edge!(token!(is!(Semicolon)), 469), edge!(node!(Expression), 470),
    edge!(token!(is!(RightParen)), 471), edge!(token!(is!(RightParen)), 471), edge!(node!(Statement), 472),
    edge!(node!(Expression), 476), edge!(token!(is!(Semicolon)), 477), edge!(token!(is!(Semicolon)), 477),
    edge!(node!(Expression), 478), edge!(token!(is!(RightParen)), 479), edge!(token!(is!(RightParen)), 479),
    edge!(node!(Statement), 480), edge!(token!(is!(Goto)), 484), edge!(token!(is!(Continue)), 487),
    edge!(token!(is!(Break)), 489), edge!(token!(is!(Return)), 491), edge!(token!(Terminal::Name), 485),
    edge!(token!(is!(Semicolon)), 486), edge!(token!(is!(Semicolon)), 488), edge!(token!(is!(Semicolon)), 490),
    edge!(node!(Expression), 492), edge!(token!(is!(Semicolon)), 493), edge!(token!(is!(Semicolon)), 493),
    edge!(node!(PlainExpression), 495), edge!(token!(is!(Semicolon)), 496), edge!(token!(is!(Semicolon)), 496),
    edge!(node!(BlockSpecifiers), 498), edge!(node!(InitDeclaratorList), 499), edge!(act!(is!(Semicolon), Finish), 500),
    edge!(act!(is!(Semicolon), Finish), 500), edge!(node!(DeclarationSpecifiers), 502), edge!(node!(Declarator), 503),
    edge!(node!(FunctionBody), 504), edge!(act!(is!(LeftBrace), Begin), 506), edge!(node!(BlockItemList), 507),
    edge!(act!(is!(RightBrace), Close), 508), edge!(act!(is!(RightBrace), Close), 508),
};

/// The edges of all places, one place after the other.
pub fn all_edges() -> &'static [Edge]
    ensures { result.now ≡ t.all_edges }
{
    &EDGES
}
