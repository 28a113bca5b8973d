//! The productions. Written by tools/grammar/emit_tree.py.

ghost use Rattle.std.specs.Prelude.{◌≡◌, map};
ghost use Rattle.cl_tree.specs.Grammar as g;

use crate::class::Class;
use crate::grammar::{Production, Span, Terminal, Unit};
use crate::nonterminal::Nonterminal;
use crate::rule::Rule;

macro_rules! row {
    ($of:ident, $rule:ident, $choice:expr, $from:expr, $to:expr, $bar:expr, $scoped:expr) => {
        Production {
            of: Nonterminal::$of,
            rule: Rule::$rule,
            choice: $choice,
            parts: Span {
                from: $from,
                to: $to,
            },
            again: Span { from: 0, to: 0 },
            bar: $bar,
            scoped: $scoped,
        }
    };
}

// a production, with its right side from one part up to another
macro_rules! made {
    ($of:ident, $rule:ident, $choice:expr, $from:expr, $to:expr) => {
        row!($of, $rule, $choice, $from, $to, None, false)
    };
}

// a production after which no typedef name may stand
macro_rules! untyped {
    ($of:ident, $rule:ident, $choice:expr, $from:expr, $to:expr) => {
        row!($of, $rule, $choice, $from, $to, Some(Terminal::Typed), false)
    };
}

// a statement that is a block
macro_rules! scoped {
    ($of:ident, $rule:ident, $choice:expr, $from:expr, $to:expr) => {
        row!($of, $rule, $choice, $from, $to, None, true)
    };
}

// the same, after which an `else` may stand only where no statement derives after that
macro_rules! without_else {
    ($of:ident, $rule:ident, $choice:expr, $from:expr, $to:expr) => {
        row!($of, $rule, $choice, $from, $to, Some(Terminal::Is(Class::Else)), true)
    };
}

// a list whose members are separated
macro_rules! list {
    ($of:ident, $rule:ident, $from:expr, $to:expr, $again:expr, $end:expr) => {
        Production {
            of: Nonterminal::$of,
            rule: Rule::$rule,
            choice: 0,
            parts: Span {
                from: $from,
                to: $to,
            },
            again: Span {
                from: $again,
                to: $end,
            },
            bar: None,
            scoped: false,
        }
    };
}

macro_rules! unit {
    ($of:ident, $by:ident) => {
        Unit {
            of: Nonterminal::$of,
            by: Nonterminal::$by,
        }
    };
}

static PRODUCTIONS: [Production; 189] = [
    made!(PrimaryExpression, PrimaryExpression, 0, 0, 1),
    made!(PrimaryExpression, PrimaryExpression, 1, 1, 2),
    made!(PrimaryExpression, PrimaryExpression, 2, 2, 4),
    made!(PrimaryExpression, PrimaryExpression, 3, 4, 7),
    made!(GenericSelection, GenericSelection, 0, 7, 13),
    list!(GenericAssocList, GenericAssocList, 13, 14, 0, 1),
    made!(GenericAssociation, GenericAssociation, 0, 14, 17),
    made!(GenericAssociation, GenericAssociation, 1, 17, 20),
    made!(PostfixExpression, PostfixExpression, 1, 20, 24),
    made!(PostfixExpression, PostfixExpression, 2, 24, 28),
    made!(PostfixExpression, PostfixExpression, 3, 28, 31),
    made!(PostfixExpression, PostfixExpression, 4, 31, 34),
    made!(PostfixExpression, PostfixExpression, 5, 34, 36),
    made!(PostfixExpression, PostfixExpression, 6, 36, 38),
    made!(PostfixExpression, PostfixExpression, 7, 38, 44),
    made!(PostfixExpression, PostfixExpression, 8, 44, 51),
    list!(ArgumentExpressionList, ArgumentExpressionList, 51, 52, 1, 2),
    made!(UnaryExpression, UnaryExpression, 1, 52, 54),
    made!(UnaryExpression, UnaryExpression, 2, 54, 56),
    made!(UnaryExpression, UnaryExpression, 3, 56, 58),
    made!(UnaryExpression, UnaryExpression, 4, 58, 60),
    made!(UnaryExpression, UnaryExpression, 5, 60, 64),
    made!(UnaryExpression, UnaryExpression, 6, 64, 68),
    made!(UnaryOperator, UnaryOperator, 0, 68, 69),
    made!(UnaryOperator, UnaryOperator, 1, 69, 70),
    made!(UnaryOperator, UnaryOperator, 2, 70, 71),
    made!(UnaryOperator, UnaryOperator, 3, 71, 72),
    made!(UnaryOperator, UnaryOperator, 4, 72, 73),
    made!(UnaryOperator, UnaryOperator, 5, 73, 74),
    made!(CastExpression, CastExpression, 1, 74, 78),
    made!(
        MultiplicativeExpression,
        MultiplicativeExpression,
        1,
        78,
        81
    ),
    made!(
        MultiplicativeExpression,
        MultiplicativeExpression,
        2,
        81,
        84
    ),
    made!(
        MultiplicativeExpression,
        MultiplicativeExpression,
        3,
        84,
        87
    ),
    made!(AdditiveExpression, AdditiveExpression, 1, 87, 90),
    made!(AdditiveExpression, AdditiveExpression, 2, 90, 93),
    made!(ShiftExpression, ShiftExpression, 1, 93, 96),
    made!(ShiftExpression, ShiftExpression, 2, 96, 99),
    made!(RelationalExpression, RelationalExpression, 1, 99, 102),
    made!(RelationalExpression, RelationalExpression, 2, 102, 105),
    made!(RelationalExpression, RelationalExpression, 3, 105, 108),
    made!(RelationalExpression, RelationalExpression, 4, 108, 111),
    made!(EqualityExpression, EqualityExpression, 1, 111, 114),
    made!(EqualityExpression, EqualityExpression, 2, 114, 117),
    made!(AndExpression, AndExpression, 1, 117, 120),
    made!(ExclusiveOrExpression, ExclusiveOrExpression, 1, 120, 123),
    made!(InclusiveOrExpression, InclusiveOrExpression, 1, 123, 126),
    made!(LogicalAndExpression, LogicalAndExpression, 1, 126, 129),
    made!(LogicalOrExpression, LogicalOrExpression, 1, 129, 132),
    made!(ConditionalExpression, ConditionalExpression, 1, 132, 137),
    made!(AssignmentExpression, AssignmentExpression, 1, 137, 140),
    made!(AssignmentOperator, AssignmentOperator, 0, 140, 141),
    made!(AssignmentOperator, AssignmentOperator, 1, 141, 142),
    made!(AssignmentOperator, AssignmentOperator, 2, 142, 143),
    made!(AssignmentOperator, AssignmentOperator, 3, 143, 144),
    made!(AssignmentOperator, AssignmentOperator, 4, 144, 145),
    made!(AssignmentOperator, AssignmentOperator, 5, 145, 146),
    made!(AssignmentOperator, AssignmentOperator, 6, 146, 147),
    made!(AssignmentOperator, AssignmentOperator, 7, 147, 148),
    made!(AssignmentOperator, AssignmentOperator, 8, 148, 149),
    made!(AssignmentOperator, AssignmentOperator, 9, 149, 150),
    made!(AssignmentOperator, AssignmentOperator, 10, 150, 151),
    made!(Expression, Expression, 1, 151, 154),
    made!(Declaration, Declaration, 0, 154, 157),
    untyped!(DeclarationSpecifiers, DeclarationSpecifiers, 0, 157, 159),
    made!(DeclarationSpecifiers, DeclarationSpecifiers, 0, 159, 162),
    list!(InitDeclaratorList, InitDeclaratorList, 162, 163, 2, 3),
    made!(InitDeclarator, InitDeclarator, 1, 163, 166),
    made!(StorageClassSpecifier, StorageClassSpecifier, 0, 166, 167),
    made!(StorageClassSpecifier, StorageClassSpecifier, 1, 167, 168),
    made!(StorageClassSpecifier, StorageClassSpecifier, 2, 168, 169),
    made!(StorageClassSpecifier, StorageClassSpecifier, 3, 169, 170),
    made!(StorageClassSpecifier, StorageClassSpecifier, 4, 170, 171),
    made!(StorageClassSpecifier, StorageClassSpecifier, 5, 171, 172),
    made!(LaterTypeSpecifier, TypeSpecifier, 0, 172, 173),
    made!(LaterTypeSpecifier, TypeSpecifier, 1, 173, 174),
    made!(LaterTypeSpecifier, TypeSpecifier, 2, 174, 175),
    made!(LaterTypeSpecifier, TypeSpecifier, 3, 175, 176),
    made!(LaterTypeSpecifier, TypeSpecifier, 4, 176, 177),
    made!(LaterTypeSpecifier, TypeSpecifier, 5, 177, 178),
    made!(LaterTypeSpecifier, TypeSpecifier, 6, 178, 179),
    made!(LaterTypeSpecifier, TypeSpecifier, 7, 179, 180),
    made!(LaterTypeSpecifier, TypeSpecifier, 8, 180, 181),
    made!(LaterTypeSpecifier, TypeSpecifier, 9, 181, 182),
    made!(StructOrUnionSpecifier, StructOrUnionSpecifier, 0, 182, 187),
    made!(StructOrUnionSpecifier, StructOrUnionSpecifier, 1, 187, 189),
    made!(StructOrUnion, StructOrUnion, 0, 189, 190),
    made!(StructOrUnion, StructOrUnion, 1, 190, 191),
    made!(StructDeclarationList, StructDeclarationList, 0, 191, 193),
    made!(StructDeclaration, StructDeclaration, 0, 193, 196),
    untyped!(SpecifierQualifierList, SpecifierQualifierList, 0, 196, 198),
    made!(SpecifierQualifierList, SpecifierQualifierList, 0, 198, 201),
    list!(StructDeclaratorList, StructDeclaratorList, 201, 202, 3, 4),
    made!(StructDeclarator, StructDeclarator, 1, 202, 205),
    made!(StructDeclarator, StructDeclarator, 1, 205, 207),
    made!(EnumSpecifier, EnumSpecifier, 0, 207, 212),
    made!(EnumSpecifier, EnumSpecifier, 1, 212, 218),
    made!(EnumSpecifier, EnumSpecifier, 2, 218, 220),
    list!(EnumeratorList, EnumeratorList, 220, 221, 4, 5),
    made!(Enumerator, Enumerator, 0, 221, 222),
    made!(Enumerator, Enumerator, 1, 222, 225),
    made!(AtomicTypeSpecifier, AtomicTypeSpecifier, 0, 225, 229),
    made!(TypeQualifier, TypeQualifier, 0, 229, 230),
    made!(TypeQualifier, TypeQualifier, 1, 230, 231),
    made!(TypeQualifier, TypeQualifier, 2, 231, 232),
    made!(TypeQualifier, TypeQualifier, 3, 232, 233),
    made!(FunctionSpecifier, FunctionSpecifier, 0, 233, 234),
    made!(FunctionSpecifier, FunctionSpecifier, 1, 234, 235),
    made!(AlignmentSpecifier, AlignmentSpecifier, 0, 235, 239),
    made!(AlignmentSpecifier, AlignmentSpecifier, 1, 239, 243),
    made!(Declarator, Declarator, 0, 243, 245),
    made!(DirectDeclarator, DirectDeclarator, 0, 245, 246),
    made!(DirectDeclarator, DirectDeclarator, 1, 246, 249),
    made!(DirectDeclarator, DirectDeclarator, 2, 249, 254),
    made!(DirectDeclarator, DirectDeclarator, 3, 254, 260),
    made!(DirectDeclarator, DirectDeclarator, 4, 260, 266),
    made!(DirectDeclarator, DirectDeclarator, 5, 266, 271),
    made!(DirectDeclarator, DirectDeclarator, 6, 271, 275),
    made!(DirectDeclarator, DirectDeclarator, 7, 275, 279),
    made!(ParameterDeclarator, Declarator, 0, 279, 281),
    made!(DirectParameterDeclarator, DirectDeclarator, 0, 281, 282),
    made!(DirectParameterDeclarator, DirectDeclarator, 1, 282, 285),
    made!(DirectParameterDeclarator, DirectDeclarator, 2, 285, 290),
    made!(DirectParameterDeclarator, DirectDeclarator, 3, 290, 296),
    made!(DirectParameterDeclarator, DirectDeclarator, 4, 296, 302),
    made!(DirectParameterDeclarator, DirectDeclarator, 5, 302, 307),
    made!(DirectParameterDeclarator, DirectDeclarator, 6, 307, 311),
    made!(DirectParameterDeclarator, DirectDeclarator, 7, 311, 315),
    made!(Pointer, Pointer, 0, 315, 317),
    made!(Pointer, Pointer, 1, 317, 320),
    made!(TypeQualifierList, TypeQualifierList, 0, 320, 322),
    made!(ParameterTypeList, ParameterTypeList, 1, 322, 325),
    list!(ParameterList, ParameterList, 325, 326, 5, 6),
    made!(ParameterDeclaration, ParameterDeclaration, 0, 326, 328),
    made!(ParameterDeclaration, ParameterDeclaration, 1, 328, 330),
    list!(IdentifierList, IdentifierList, 330, 331, 6, 7),
    made!(TypeName, TypeName, 0, 331, 333),
    made!(AbstractDeclarator, AbstractDeclarator, 1, 333, 335),
    made!(
        DirectAbstractDeclarator,
        DirectAbstractDeclarator,
        0,
        335,
        338
    ),
    made!(
        DirectAbstractDeclarator,
        DirectAbstractDeclarator,
        1,
        338,
        342
    ),
    made!(
        DirectAbstractDeclarator,
        DirectAbstractDeclarator,
        2,
        342,
        347
    ),
    made!(
        DirectAbstractDeclarator,
        DirectAbstractDeclarator,
        3,
        347,
        352
    ),
    made!(
        DirectAbstractDeclarator,
        DirectAbstractDeclarator,
        4,
        352,
        355
    ),
    made!(
        DirectAbstractDeclarator,
        DirectAbstractDeclarator,
        1,
        355,
        360
    ),
    made!(
        DirectAbstractDeclarator,
        DirectAbstractDeclarator,
        2,
        360,
        366
    ),
    made!(
        DirectAbstractDeclarator,
        DirectAbstractDeclarator,
        3,
        366,
        372
    ),
    made!(
        DirectAbstractDeclarator,
        DirectAbstractDeclarator,
        4,
        372,
        376
    ),
    made!(
        DirectAbstractDeclarator,
        DirectAbstractDeclarator,
        5,
        376,
        378
    ),
    made!(
        DirectAbstractDeclarator,
        DirectAbstractDeclarator,
        5,
        378,
        381
    ),
    made!(
        DirectAbstractDeclarator,
        DirectAbstractDeclarator,
        5,
        381,
        384
    ),
    made!(
        DirectAbstractDeclarator,
        DirectAbstractDeclarator,
        5,
        384,
        388
    ),
    made!(TypedefName, TypedefName, 0, 388, 389),
    made!(Initializer, Initializer, 1, 389, 392),
    made!(Initializer, Initializer, 2, 392, 396),
    list!(InitializerList, InitializerList, 396, 398, 7, 9),
    made!(Designation, Designation, 0, 398, 400),
    made!(DesignatorList, DesignatorList, 0, 400, 402),
    made!(Designator, Designator, 0, 402, 405),
    made!(Designator, Designator, 1, 405, 407),
    made!(
        StaticAssertDeclaration,
        StaticAssertDeclaration,
        0,
        407,
        415
    ),
    made!(ClosedLabeledStatement, LabeledStatement, 0, 415, 418),
    made!(ClosedLabeledStatement, LabeledStatement, 1, 418, 422),
    made!(ClosedLabeledStatement, LabeledStatement, 2, 422, 425),
    made!(OpenLabeledStatement, LabeledStatement, 0, 425, 428),
    made!(OpenLabeledStatement, LabeledStatement, 1, 428, 432),
    made!(OpenLabeledStatement, LabeledStatement, 2, 432, 435),
    made!(CompoundStatement, CompoundStatement, 0, 435, 438),
    made!(BlockItemList, BlockItemList, 0, 438, 440),
    made!(ExpressionStatement, ExpressionStatement, 0, 440, 442),
    without_else!(OpenSelectionStatement, SelectionStatement, 0, 442, 447),
    scoped!(OpenSelectionStatement, SelectionStatement, 0, 447, 452),
    scoped!(ClosedSelectionStatement, SelectionStatement, 1, 452, 459),
    scoped!(OpenSelectionStatement, SelectionStatement, 1, 459, 466),
    scoped!(ClosedSelectionStatement, SelectionStatement, 2, 466, 471),
    scoped!(OpenSelectionStatement, SelectionStatement, 2, 471, 476),
    scoped!(ClosedIterationStatement, IterationStatement, 1, 476, 483),
    scoped!(ClosedIterationStatement, IterationStatement, 0, 483, 488),
    scoped!(ClosedIterationStatement, IterationStatement, 2, 488, 497),
    scoped!(ClosedIterationStatement, IterationStatement, 3, 497, 505),
    scoped!(OpenIterationStatement, IterationStatement, 0, 505, 510),
    scoped!(OpenIterationStatement, IterationStatement, 2, 510, 519),
    scoped!(OpenIterationStatement, IterationStatement, 3, 519, 527),
    made!(JumpStatement, JumpStatement, 0, 527, 530),
    made!(JumpStatement, JumpStatement, 1, 530, 532),
    made!(JumpStatement, JumpStatement, 2, 532, 534),
    made!(JumpStatement, JumpStatement, 3, 534, 537),
    made!(BlockExpressionStatement, ExpressionStatement, 0, 537, 539),
    made!(BlockDeclaration, Declaration, 0, 539, 542),
    made!(FunctionDefinition, FunctionDefinition, 0, 542, 545),
    made!(FunctionBody, CompoundStatement, 0, 545, 548),
];

static UNITS: [Unit; 76] = [
    unit!(PrimaryExpression, GenericSelection),
    unit!(PostfixExpression, PrimaryExpression),
    unit!(UnaryExpression, PostfixExpression),
    unit!(CastExpression, UnaryExpression),
    unit!(MultiplicativeExpression, CastExpression),
    unit!(AdditiveExpression, MultiplicativeExpression),
    unit!(ShiftExpression, AdditiveExpression),
    unit!(RelationalExpression, ShiftExpression),
    unit!(EqualityExpression, RelationalExpression),
    unit!(AndExpression, EqualityExpression),
    unit!(ExclusiveOrExpression, AndExpression),
    unit!(InclusiveOrExpression, ExclusiveOrExpression),
    unit!(LogicalAndExpression, InclusiveOrExpression),
    unit!(LogicalOrExpression, LogicalAndExpression),
    unit!(ConditionalExpression, LogicalOrExpression),
    unit!(AssignmentExpression, ConditionalExpression),
    unit!(Expression, AssignmentExpression),
    unit!(ConstantExpression, ConditionalExpression),
    unit!(Declaration, StaticAssertDeclaration),
    unit!(InitDeclarator, Declarator),
    unit!(TypeSpecifier, LaterTypeSpecifier),
    unit!(TypeSpecifier, TypedefName),
    unit!(StructDeclaration, StaticAssertDeclaration),
    unit!(StructDeclarator, Declarator),
    unit!(Declarator, DirectDeclarator),
    unit!(ParameterTypeList, ParameterList),
    unit!(ParameterDeclaration, DeclarationSpecifiers),
    unit!(TypeName, SpecifierQualifierList),
    unit!(AbstractDeclarator, Pointer),
    unit!(AbstractDeclarator, DirectAbstractDeclarator),
    unit!(Initializer, AssignmentExpression),
    unit!(Statement, ClosedStatement),
    unit!(Statement, OpenStatement),
    unit!(LabeledStatement, ClosedLabeledStatement),
    unit!(LabeledStatement, OpenLabeledStatement),
    unit!(BlockItem, BlockDeclaration),
    unit!(BlockItem, BlockStatement),
    unit!(SelectionStatement, ClosedSelectionStatement),
    unit!(SelectionStatement, OpenSelectionStatement),
    unit!(IterationStatement, ClosedIterationStatement),
    unit!(IterationStatement, OpenIterationStatement),
    unit!(OtherSpecifier, StorageClassSpecifier),
    unit!(OtherSpecifier, TypeQualifier),
    unit!(OtherSpecifier, FunctionSpecifier),
    unit!(OtherSpecifier, AlignmentSpecifier),
    unit!(LaterTypeSpecifier, AtomicTypeSpecifier),
    unit!(LaterTypeSpecifier, StructOrUnionSpecifier),
    unit!(LaterTypeSpecifier, EnumSpecifier),
    unit!(LaterSpecifier, OtherSpecifier),
    unit!(LaterSpecifier, LaterTypeSpecifier),
    unit!(LaterQualifier, TypeQualifier),
    unit!(LaterQualifier, LaterTypeSpecifier),
    unit!(ParameterDeclarator, DirectParameterDeclarator),
    unit!(AnyDeclarator, ParameterDeclarator),
    unit!(AnyDeclarator, AbstractDeclarator),
    unit!(DirectAnyDeclarator, DirectParameterDeclarator),
    unit!(DirectAnyDeclarator, DirectAbstractDeclarator),
    unit!(ClosedStatement, ClosedLabeledStatement),
    unit!(ClosedStatement, CompoundStatement),
    unit!(ClosedStatement, ExpressionStatement),
    unit!(ClosedStatement, ClosedSelectionStatement),
    unit!(ClosedStatement, ClosedIterationStatement),
    unit!(ClosedStatement, JumpStatement),
    unit!(OpenStatement, OpenLabeledStatement),
    unit!(OpenStatement, OpenSelectionStatement),
    unit!(OpenStatement, OpenIterationStatement),
    unit!(UnlabelledExpression, Expression),
    unit!(PlainExpression, Expression),
    unit!(BlockStatement, LabeledStatement),
    unit!(BlockStatement, CompoundStatement),
    unit!(BlockStatement, BlockExpressionStatement),
    unit!(BlockStatement, SelectionStatement),
    unit!(BlockStatement, IterationStatement),
    unit!(BlockStatement, JumpStatement),
    unit!(BlockDeclaration, StaticAssertDeclaration),
    unit!(BlockSpecifiers, DeclarationSpecifiers),
];

/// The productions that make a node, in the order of N1570 A.2.
pub fn productions() -> &'static [Production]
    ensures { map g.plain result.now ≡ g.productions }
{
    &PRODUCTIONS
}

/// The productions whose right side is one nonterminal.
pub fn units() -> &'static [Unit]
    ensures { result.now ≡ g.units }
{
    &UNITS
}
