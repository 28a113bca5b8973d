//! The right sides of the productions, one after the other. Written by tools/grammar/emit_tree.py.

ghost use Rattle.std.specs.Prelude.{◌≡◌};
ghost use Rattle.cl_tree.specs.Grammar as g;

use crate::class::Class;
use crate::grammar::{Act, Again, Part, Separator, Symbol, Terminal};
use crate::nonterminal::Nonterminal;

macro_rules! is {
    ($class:ident) => {
        Terminal::Is(Class::$class)
    };
}

macro_rules! token {
    ($terminal:expr) => {
        Symbol::Token($terminal, Act::Stay)
    };
}

macro_rules! act {
    ($terminal:expr, $act:ident) => {
        Symbol::Token($terminal, Act::$act)
    };
}

macro_rules! node {
    ($goal:ident) => {
        Symbol::Node(Nonterminal::$goal)
    };
}

macro_rules! again {
    ($class:ident, $act:ident, $part:expr) => {
        Again {
            separator: Separator {
                class: Class::$class,
                act: Act::$act,
            },
            part: $part,
        }
    };
}

// a list, in lines as they stand
macro_rules! rows {
    ($($row:expr),* $(,)?) => {
        [$($row),*]
    };
}

static PARTS: [Part; 548] = rows! {
    Part::One(token!(Terminal::Name)),
    Part::One(token!(is!(Constant))),
    Part::One(token!(is!(String))), Part::Many(token!(is!(String))),
    Part::One(token!(is!(LeftParen))), Part::One(node!(Expression)), Part::One(token!(is!(RightParen))),
    Part::One(token!(is!(Generic))), Part::One(token!(Terminal::Open)), Part::One(node!(AssignmentExpression)),
    Part::One(token!(is!(Comma))), Part::One(node!(GenericAssocList)), Part::One(token!(is!(RightParen))),
    Part::One(node!(GenericAssociation)),
    Part::One(node!(TypeName)), Part::One(token!(is!(Colon))), Part::One(node!(AssignmentExpression)),
    Part::One(token!(is!(Default))), Part::One(token!(is!(Colon))), Part::One(node!(AssignmentExpression)),
    Part::One(node!(PostfixExpression)), Part::One(token!(is!(LeftBracket))), Part::One(node!(Expression)),
    Part::One(token!(is!(RightBracket))),
    Part::One(node!(PostfixExpression)), Part::One(token!(Terminal::Open)), Part::Optional(node!(ArgumentExpressionList)),
    Part::One(token!(is!(RightParen))),
    Part::One(node!(PostfixExpression)), Part::One(token!(is!(Dot))), Part::One(token!(Terminal::Name)),
    Part::One(node!(PostfixExpression)), Part::One(token!(is!(Arrow))), Part::One(token!(Terminal::Name)),
    Part::One(node!(PostfixExpression)), Part::One(token!(is!(PlusPlus))),
    Part::One(node!(PostfixExpression)), Part::One(token!(is!(MinusMinus))),
    Part::One(token!(is!(LiteralParen))), Part::One(node!(TypeName)), Part::One(token!(is!(RightParen))),
    Part::One(token!(is!(LeftBrace))), Part::One(node!(InitializerList)), Part::One(token!(is!(RightBrace))),
    Part::One(token!(is!(LiteralParen))), Part::One(node!(TypeName)), Part::One(token!(is!(RightParen))),
    Part::One(token!(is!(LeftBrace))), Part::One(node!(InitializerList)), Part::One(token!(is!(LastComma))),
    Part::One(token!(is!(RightBrace))),
    Part::One(node!(AssignmentExpression)),
    Part::One(token!(is!(PlusPlus))), Part::One(node!(UnaryExpression)),
    Part::One(token!(is!(MinusMinus))), Part::One(node!(UnaryExpression)),
    Part::One(node!(UnaryOperator)), Part::One(node!(CastExpression)),
    Part::One(token!(is!(Sizeof))), Part::One(node!(UnaryExpression)),
    Part::One(token!(is!(Sizeof))), Part::One(token!(is!(TypeParen))), Part::One(node!(TypeName)),
    Part::One(token!(is!(RightParen))),
    Part::One(token!(is!(Alignof))), Part::One(token!(Terminal::TypeOpen)), Part::One(node!(TypeName)),
    Part::One(token!(is!(RightParen))),
    Part::One(token!(is!(Ampersand))),
    Part::One(token!(is!(Star))),
    Part::One(token!(is!(Plus))),
    Part::One(token!(is!(Minus))),
    Part::One(token!(is!(Tilde))),
    Part::One(token!(is!(Bang))),
    Part::One(token!(is!(TypeParen))), Part::One(node!(TypeName)), Part::One(token!(is!(RightParen))),
    Part::One(node!(CastExpression)),
    Part::One(node!(MultiplicativeExpression)), Part::One(token!(is!(Star))), Part::One(node!(CastExpression)),
    Part::One(node!(MultiplicativeExpression)), Part::One(token!(is!(Slash))), Part::One(node!(CastExpression)),
    Part::One(node!(MultiplicativeExpression)), Part::One(token!(is!(Percent))), Part::One(node!(CastExpression)),
    Part::One(node!(AdditiveExpression)), Part::One(token!(is!(Plus))), Part::One(node!(MultiplicativeExpression)),
    Part::One(node!(AdditiveExpression)), Part::One(token!(is!(Minus))), Part::One(node!(MultiplicativeExpression)),
    Part::One(node!(ShiftExpression)), Part::One(token!(is!(ShiftLeft))), Part::One(node!(AdditiveExpression)),
    Part::One(node!(ShiftExpression)), Part::One(token!(is!(ShiftRight))), Part::One(node!(AdditiveExpression)),
    Part::One(node!(RelationalExpression)), Part::One(token!(is!(Less))), Part::One(node!(ShiftExpression)),
    Part::One(node!(RelationalExpression)), Part::One(token!(is!(Greater))), Part::One(node!(ShiftExpression)),
    Part::One(node!(RelationalExpression)), Part::One(token!(is!(LessEqual))), Part::One(node!(ShiftExpression)),
    Part::One(node!(RelationalExpression)), Part::One(token!(is!(GreaterEqual))), Part::One(node!(ShiftExpression)),
    Part::One(node!(EqualityExpression)), Part::One(token!(is!(EqualEqual))), Part::One(node!(RelationalExpression)),
    Part::One(node!(EqualityExpression)), Part::One(token!(is!(BangEqual))), Part::One(node!(RelationalExpression)),
    Part::One(node!(AndExpression)), Part::One(token!(is!(Ampersand))), Part::One(node!(EqualityExpression)),
    Part::One(node!(ExclusiveOrExpression)), Part::One(token!(is!(Caret))), Part::One(node!(AndExpression)),
    Part::One(node!(InclusiveOrExpression)), Part::One(token!(is!(Bar))), Part::One(node!(ExclusiveOrExpression)),
    Part::One(node!(LogicalAndExpression)), Part::One(token!(is!(AndAnd))), Part::One(node!(InclusiveOrExpression)),
    Part::One(node!(LogicalOrExpression)), Part::One(token!(is!(OrOr))), Part::One(node!(LogicalAndExpression)),
    Part::One(node!(LogicalOrExpression)), Part::One(token!(is!(Question))), Part::One(node!(Expression)),
    Part::One(token!(is!(Colon))), Part::One(node!(ConditionalExpression)),
    Part::One(node!(UnaryExpression)), Part::One(node!(AssignmentOperator)), Part::One(node!(AssignmentExpression)),
    Part::One(token!(is!(Equal))),
    Part::One(token!(is!(StarEqual))),
    Part::One(token!(is!(SlashEqual))),
    Part::One(token!(is!(PercentEqual))),
    Part::One(token!(is!(PlusEqual))),
    Part::One(token!(is!(MinusEqual))),
    Part::One(token!(is!(ShiftLeftEqual))),
    Part::One(token!(is!(ShiftRightEqual))),
    Part::One(token!(is!(AmpersandEqual))),
    Part::One(token!(is!(CaretEqual))),
    Part::One(token!(is!(BarEqual))),
    Part::One(node!(Expression)), Part::One(token!(is!(Comma))), Part::One(node!(AssignmentExpression)),
    Part::One(node!(DeclarationSpecifiers)), Part::Optional(node!(InitDeclaratorList)), Part::One(act!(is!(Semicolon), Finish)),
    Part::One(node!(OtherSpecifier)), Part::Many(node!(OtherSpecifier)),
    Part::Many(node!(OtherSpecifier)), Part::One(node!(TypeSpecifier)), Part::Many(node!(LaterSpecifier)),
    Part::One(node!(InitDeclarator)),
    Part::One(node!(Declarator)), Part::One(act!(is!(Equal), Declare)), Part::One(node!(Initializer)),
    Part::One(act!(is!(Typedef), Typedef)),
    Part::One(token!(is!(Extern))),
    Part::One(token!(is!(Static))),
    Part::One(token!(is!(ThreadLocal))),
    Part::One(token!(is!(Auto))),
    Part::One(token!(is!(Register))),
    Part::One(token!(is!(Void))),
    Part::One(token!(is!(Char))),
    Part::One(token!(is!(Short))),
    Part::One(token!(is!(Int))),
    Part::One(token!(is!(Long))),
    Part::One(token!(is!(Float))),
    Part::One(token!(is!(Double))),
    Part::One(token!(is!(Signed))),
    Part::One(token!(is!(Unsigned))),
    Part::One(token!(is!(Bool))),
    Part::One(node!(StructOrUnion)), Part::Optional(token!(Terminal::Name)), Part::One(act!(is!(LeftBrace), Open)),
    Part::One(node!(StructDeclarationList)), Part::One(act!(is!(RightBrace), Shut)),
    Part::One(node!(StructOrUnion)), Part::One(token!(Terminal::Name)),
    Part::One(token!(is!(Struct))),
    Part::One(token!(is!(Union))),
    Part::One(node!(StructDeclaration)), Part::Many(node!(StructDeclaration)),
    Part::One(node!(SpecifierQualifierList)), Part::Optional(node!(StructDeclaratorList)),
    Part::One(act!(is!(Semicolon), Forget)),
    Part::One(node!(TypeQualifier)), Part::Many(node!(TypeQualifier)),
    Part::Many(node!(TypeQualifier)), Part::One(node!(TypeSpecifier)), Part::Many(node!(LaterQualifier)),
    Part::One(node!(StructDeclarator)),
    Part::One(node!(Declarator)), Part::One(act!(is!(Colon), Forget)), Part::One(node!(ConstantExpression)),
    Part::One(token!(is!(Colon))), Part::One(node!(ConstantExpression)),
    Part::One(token!(is!(Enum))), Part::Optional(token!(Terminal::Name)), Part::One(act!(is!(LeftBrace), Open)),
    Part::One(node!(EnumeratorList)), Part::One(act!(is!(RightBrace), Shut)),
    Part::One(token!(is!(Enum))), Part::Optional(token!(Terminal::Name)), Part::One(act!(is!(LeftBrace), Open)),
    Part::One(node!(EnumeratorList)), Part::One(token!(is!(LastComma))), Part::One(act!(is!(RightBrace), Shut)),
    Part::One(token!(is!(Enum))), Part::One(token!(Terminal::Name)),
    Part::One(node!(Enumerator)),
    Part::One(act!(Terminal::Name, Name)),
    Part::One(act!(Terminal::Name, Name)), Part::One(token!(is!(Equal))), Part::One(node!(ConstantExpression)),
    Part::One(token!(is!(AtomicParen))), Part::One(token!(Terminal::TypeOpen)), Part::One(node!(TypeName)),
    Part::One(token!(is!(RightParen))),
    Part::One(token!(is!(Const))),
    Part::One(token!(is!(Restrict))),
    Part::One(token!(is!(Volatile))),
    Part::One(token!(is!(Atomic))),
    Part::One(token!(is!(Inline))),
    Part::One(token!(is!(Noreturn))),
    Part::One(token!(is!(Alignas))), Part::One(token!(Terminal::TypeOpen)), Part::One(node!(TypeName)),
    Part::One(token!(is!(RightParen))),
    Part::One(token!(is!(Alignas))), Part::One(token!(is!(LeftParen))), Part::One(node!(ConstantExpression)),
    Part::One(token!(is!(RightParen))),
    Part::One(node!(Pointer)), Part::One(node!(DirectDeclarator)),
    Part::One(act!(Terminal::Name, Name)),
    Part::One(token!(Terminal::Open)), Part::One(node!(Declarator)), Part::One(token!(is!(RightParen))),
    Part::One(node!(DirectDeclarator)), Part::One(token!(is!(LeftBracket))), Part::Optional(node!(TypeQualifierList)),
    Part::Optional(node!(AssignmentExpression)), Part::One(token!(is!(RightBracket))),
    Part::One(node!(DirectDeclarator)), Part::One(token!(is!(LeftBracket))), Part::One(token!(is!(Static))),
    Part::Optional(node!(TypeQualifierList)), Part::One(node!(AssignmentExpression)), Part::One(token!(is!(RightBracket))),
    Part::One(node!(DirectDeclarator)), Part::One(token!(is!(LeftBracket))), Part::One(node!(TypeQualifierList)),
    Part::One(token!(is!(Static))), Part::One(node!(AssignmentExpression)), Part::One(token!(is!(RightBracket))),
    Part::One(node!(DirectDeclarator)), Part::One(token!(is!(LeftBracket))), Part::Optional(node!(TypeQualifierList)),
    Part::One(token!(is!(StarBracket))), Part::One(token!(is!(RightBracket))),
    Part::One(node!(DirectDeclarator)), Part::One(act!(Terminal::TypeOpen, Open)), Part::One(node!(ParameterTypeList)),
    Part::One(act!(is!(RightParen), Close)),
    Part::One(node!(DirectDeclarator)), Part::One(act!(is!(LeftParen), Open)), Part::Optional(node!(IdentifierList)),
    Part::One(act!(is!(RightParen), Close)),
    Part::One(node!(Pointer)), Part::One(node!(DirectParameterDeclarator)),
    Part::One(act!(Terminal::Name, Name)),
    Part::One(token!(is!(LeftParen))), Part::One(node!(ParameterDeclarator)), Part::One(token!(is!(RightParen))),
    Part::One(node!(DirectParameterDeclarator)), Part::One(token!(is!(LeftBracket))), Part::Optional(node!(TypeQualifierList)),
    Part::Optional(node!(AssignmentExpression)), Part::One(token!(is!(RightBracket))),
    Part::One(node!(DirectParameterDeclarator)), Part::One(token!(is!(LeftBracket))), Part::One(token!(is!(Static))),
    Part::Optional(node!(TypeQualifierList)), Part::One(node!(AssignmentExpression)), Part::One(token!(is!(RightBracket))),
    Part::One(node!(DirectParameterDeclarator)), Part::One(token!(is!(LeftBracket))), Part::One(node!(TypeQualifierList)),
    Part::One(token!(is!(Static))), Part::One(node!(AssignmentExpression)), Part::One(token!(is!(RightBracket))),
    Part::One(node!(DirectParameterDeclarator)), Part::One(token!(is!(LeftBracket))), Part::Optional(node!(TypeQualifierList)),
    Part::One(token!(is!(StarBracket))), Part::One(token!(is!(RightBracket))),
    Part::One(node!(DirectParameterDeclarator)), Part::One(act!(Terminal::TypeOpen, Open)), Part::One(node!(ParameterTypeList)),
    Part::One(act!(is!(RightParen), Close)),
    Part::One(node!(DirectParameterDeclarator)), Part::One(act!(is!(LeftParen), Open)), Part::Optional(node!(IdentifierList)),
    Part::One(act!(is!(RightParen), Close)),
    Part::One(token!(is!(Star))), Part::Optional(node!(TypeQualifierList)),
    Part::One(token!(is!(Star))), Part::Optional(node!(TypeQualifierList)), Part::One(node!(Pointer)),
    Part::One(node!(TypeQualifier)), Part::Many(node!(TypeQualifier)),
    Part::One(node!(ParameterList)), Part::One(token!(is!(LastComma))), Part::One(token!(is!(Ellipsis))),
    Part::One(node!(ParameterDeclaration)),
    Part::One(node!(DeclarationSpecifiers)), Part::One(node!(ParameterDeclarator)),
    Part::One(node!(DeclarationSpecifiers)), Part::One(node!(AbstractDeclarator)),
    Part::One(token!(Terminal::Name)),
    Part::One(node!(SpecifierQualifierList)), Part::One(node!(AbstractDeclarator)),
    Part::One(node!(Pointer)), Part::One(node!(DirectAbstractDeclarator)),
    Part::One(token!(is!(LeftParen))), Part::One(node!(AbstractDeclarator)), Part::One(token!(is!(RightParen))),
    Part::One(token!(is!(LeftBracket))), Part::Optional(node!(TypeQualifierList)), Part::Optional(node!(AssignmentExpression)),
    Part::One(token!(is!(RightBracket))),
    Part::One(token!(is!(LeftBracket))), Part::One(token!(is!(Static))), Part::Optional(node!(TypeQualifierList)),
    Part::One(node!(AssignmentExpression)), Part::One(token!(is!(RightBracket))),
    Part::One(token!(is!(LeftBracket))), Part::One(node!(TypeQualifierList)), Part::One(token!(is!(Static))),
    Part::One(node!(AssignmentExpression)), Part::One(token!(is!(RightBracket))),
    Part::One(token!(is!(LeftBracket))), Part::One(token!(is!(StarBracket))), Part::One(token!(is!(RightBracket))),
    Part::One(node!(DirectAbstractDeclarator)), Part::One(token!(is!(LeftBracket))), Part::Optional(node!(TypeQualifierList)),
    Part::Optional(node!(AssignmentExpression)), Part::One(token!(is!(RightBracket))),
    Part::One(node!(DirectAbstractDeclarator)), Part::One(token!(is!(LeftBracket))), Part::One(token!(is!(Static))),
    Part::Optional(node!(TypeQualifierList)), Part::One(node!(AssignmentExpression)), Part::One(token!(is!(RightBracket))),
    Part::One(node!(DirectAbstractDeclarator)), Part::One(token!(is!(LeftBracket))), Part::One(node!(TypeQualifierList)),
    Part::One(token!(is!(Static))), Part::One(node!(AssignmentExpression)), Part::One(token!(is!(RightBracket))),
    Part::One(node!(DirectAbstractDeclarator)), Part::One(token!(is!(LeftBracket))), Part::One(token!(is!(StarBracket))),
    Part::One(token!(is!(RightBracket))),
    Part::One(token!(is!(LeftParen))), Part::One(token!(is!(RightParen))),
    Part::One(act!(Terminal::TypeOpen, Open)), Part::One(node!(ParameterTypeList)), Part::One(act!(is!(RightParen), Close)),
    Part::One(node!(DirectAbstractDeclarator)), Part::One(token!(is!(LeftParen))), Part::One(token!(is!(RightParen))),
    Part::One(node!(DirectAbstractDeclarator)), Part::One(act!(Terminal::TypeOpen, Open)), Part::One(node!(ParameterTypeList)),
    Part::One(act!(is!(RightParen), Close)),
    Part::One(token!(Terminal::Typed)),
    Part::One(token!(is!(LeftBrace))), Part::One(node!(InitializerList)), Part::One(token!(is!(RightBrace))),
    Part::One(token!(is!(LeftBrace))), Part::One(node!(InitializerList)), Part::One(token!(is!(LastComma))),
    Part::One(token!(is!(RightBrace))),
    Part::Optional(node!(Designation)), Part::One(node!(Initializer)),
    Part::One(node!(DesignatorList)), Part::One(token!(is!(Equal))),
    Part::One(node!(Designator)), Part::Many(node!(Designator)),
    Part::One(token!(is!(LeftBracket))), Part::One(node!(ConstantExpression)), Part::One(token!(is!(RightBracket))),
    Part::One(token!(is!(Dot))), Part::One(token!(Terminal::Name)),
    Part::One(token!(is!(StaticAssert))), Part::One(token!(Terminal::Open)), Part::One(node!(ConstantExpression)),
    Part::One(token!(is!(Comma))), Part::One(token!(is!(String))), Part::Many(token!(is!(String))),
    Part::One(token!(is!(RightParen))), Part::One(token!(is!(Semicolon))),
    Part::One(token!(Terminal::Label)), Part::One(token!(is!(Colon))), Part::One(node!(ClosedStatement)),
    Part::One(token!(is!(Case))), Part::One(node!(ConstantExpression)), Part::One(token!(is!(Colon))),
    Part::One(node!(ClosedStatement)),
    Part::One(token!(is!(Default))), Part::One(token!(is!(Colon))), Part::One(node!(ClosedStatement)),
    Part::One(token!(Terminal::Label)), Part::One(token!(is!(Colon))), Part::One(node!(OpenStatement)),
    Part::One(token!(is!(Case))), Part::One(node!(ConstantExpression)), Part::One(token!(is!(Colon))),
    Part::One(node!(OpenStatement)),
    Part::One(token!(is!(Default))), Part::One(token!(is!(Colon))), Part::One(node!(OpenStatement)),
    Part::One(act!(is!(LeftBrace), Open)), Part::Optional(node!(BlockItemList)), Part::One(act!(is!(RightBrace), Close)),
    Part::One(Symbol::Entry), Part::Many(Symbol::Entry),
    Part::Optional(node!(UnlabelledExpression)), Part::One(token!(is!(Semicolon))),
    Part::One(token!(is!(If))), Part::One(token!(Terminal::Open)), Part::One(node!(Expression)),
    Part::One(act!(is!(RightParen), Open)), Part::One(node!(ClosedStatement)),
    Part::One(token!(is!(If))), Part::One(token!(Terminal::Open)), Part::One(node!(Expression)),
    Part::One(act!(is!(RightParen), Open)), Part::One(node!(OpenStatement)),
    Part::One(token!(is!(If))), Part::One(token!(Terminal::Open)), Part::One(node!(Expression)),
    Part::One(act!(is!(RightParen), Open)), Part::One(node!(ClosedStatement)), Part::One(act!(is!(Else), Close)),
    Part::One(node!(ClosedStatement)),
    Part::One(token!(is!(If))), Part::One(token!(Terminal::Open)), Part::One(node!(Expression)),
    Part::One(act!(is!(RightParen), Open)), Part::One(node!(ClosedStatement)), Part::One(act!(is!(Else), Close)),
    Part::One(node!(OpenStatement)),
    Part::One(token!(is!(Switch))), Part::One(token!(Terminal::Open)), Part::One(node!(Expression)),
    Part::One(token!(is!(RightParen))), Part::One(node!(ClosedStatement)),
    Part::One(token!(is!(Switch))), Part::One(token!(Terminal::Open)), Part::One(node!(Expression)),
    Part::One(token!(is!(RightParen))), Part::One(node!(OpenStatement)),
    Part::One(act!(is!(Do), Open)), Part::One(node!(Statement)), Part::One(act!(is!(While), Close)),
    Part::One(token!(Terminal::Open)), Part::One(node!(Expression)), Part::One(token!(is!(RightParen))),
    Part::One(token!(is!(Semicolon))),
    Part::One(token!(is!(While))), Part::One(token!(Terminal::Open)), Part::One(node!(Expression)),
    Part::One(token!(is!(RightParen))), Part::One(node!(ClosedStatement)),
    Part::One(token!(is!(For))), Part::One(token!(Terminal::Open)), Part::Optional(node!(PlainExpression)),
    Part::One(token!(is!(Semicolon))), Part::Optional(node!(Expression)), Part::One(token!(is!(Semicolon))),
    Part::Optional(node!(Expression)), Part::One(token!(is!(RightParen))), Part::One(node!(ClosedStatement)),
    Part::One(token!(is!(For))), Part::One(token!(Terminal::Open)), Part::One(node!(Declaration)),
    Part::Optional(node!(Expression)), Part::One(token!(is!(Semicolon))), Part::Optional(node!(Expression)),
    Part::One(token!(is!(RightParen))), Part::One(node!(ClosedStatement)),
    Part::One(token!(is!(While))), Part::One(token!(Terminal::Open)), Part::One(node!(Expression)),
    Part::One(token!(is!(RightParen))), Part::One(node!(OpenStatement)),
    Part::One(token!(is!(For))), Part::One(token!(Terminal::Open)), Part::Optional(node!(PlainExpression)),
    Part::One(token!(is!(Semicolon))), Part::Optional(node!(Expression)), Part::One(token!(is!(Semicolon))),
    Part::Optional(node!(Expression)), Part::One(token!(is!(RightParen))), Part::One(node!(OpenStatement)),
    Part::One(token!(is!(For))), Part::One(token!(Terminal::Open)), Part::One(node!(Declaration)),
    Part::Optional(node!(Expression)), Part::One(token!(is!(Semicolon))), Part::Optional(node!(Expression)),
    Part::One(token!(is!(RightParen))), Part::One(node!(OpenStatement)),
    Part::One(token!(is!(Goto))), Part::One(token!(Terminal::Name)), Part::One(token!(is!(Semicolon))),
    Part::One(token!(is!(Continue))), Part::One(token!(is!(Semicolon))),
    Part::One(token!(is!(Break))), Part::One(token!(is!(Semicolon))),
    Part::One(token!(is!(Return))), Part::Optional(node!(Expression)), Part::One(token!(is!(Semicolon))),
    Part::Optional(node!(PlainExpression)), Part::One(token!(is!(Semicolon))),
    Part::One(node!(BlockSpecifiers)), Part::Optional(node!(InitDeclaratorList)), Part::One(act!(is!(Semicolon), Finish)),
    Part::One(node!(DeclarationSpecifiers)), Part::One(node!(Declarator)), Part::One(node!(FunctionBody)),
    Part::One(act!(is!(LeftBrace), Begin)), Part::Optional(node!(BlockItemList)), Part::One(act!(is!(RightBrace), Close)),
};

static AGAIN: [Again; 9] = [
    again!(Comma, Stay, 0),
    again!(Comma, Stay, 0),
    again!(Comma, Declare, 0),
    again!(Comma, Forget, 0),
    again!(Comma, Declare, 0),
    again!(Comma, Finish, 0),
    again!(Comma, Stay, 0),
    again!(DesignationComma, Stay, 0),
    again!(Comma, Stay, 1),
];

/// The parts of the right sides, one production's after the other's.
pub fn parts() -> &'static [Part]
    ensures { result.now ≡ g.all_parts }
{
    &PARTS
}

/// How the lists go on, one production's after the other's.
pub fn agains() -> &'static [Again]
    ensures { result.now ≡ g.all_agains }
{
    &AGAIN
}
