//! The places, by their numbers. Written by tools/grammar/emit_expr.py.

ghost use Rattle.std.specs.Prelude.{◌≡◌};
ghost use Rattle.cl_expr.specs.code.Table as t;

use crate::table::{Head, Label, Row, Ways};
use cl_tree::{Class, Nonterminal, Rule, Terminal};

macro_rules! row {
    ($first:expr, $last:expr, $label:expr, $bar:expr, $scoped:expr, $corner:expr, $turning:expr, $named:expr) => {
        Row {
            first: $first,
            last: $last,
            label: $label,
            bar: $bar,
            scoped: $scoped,
            corner: $corner,
            turning: $turning,
            named: $named,
        }
    };
}

macro_rules! label {
    ($rule:ident, $choice:expr) => {
        Some(Label {
            rule: Rule::$rule,
            choice: $choice,
        })
    };
}

// a place in the midst of a production: its edges from one up to another
macro_rules! inner {
    ($first:expr, $last:expr) => {
        row!($first, $last, None, None, false, None, None, false)
    };
}

// a place where a node may end
macro_rules! ending {
    ($first:expr, $last:expr, $rule:ident, $choice:expr) => {
        row!($first, $last, label!($rule, $choice), None, false, None, None, false)
    };
}

// the same of a declarator that names something, or of a statement that ends with an `if` without `else`
macro_rules! naming {
    ($first:expr, $last:expr, $rule:ident, $choice:expr) => {
        row!($first, $last, label!($rule, $choice), None, false, None, None, true)
    };
}

// a place where a node may end before anything but a typedef name
macro_rules! untyped {
    ($first:expr, $last:expr, $rule:ident, $choice:expr) => {
        row!($first, $last, label!($rule, $choice), Some(Terminal::Typed), false, None, None, false)
    };
}

// a place where a block may end
macro_rules! scoped {
    ($first:expr, $last:expr, $rule:ident, $choice:expr) => {
        row!($first, $last, label!($rule, $choice), None, true, None, None, false)
    };
}

// the same of a block that ends with an `if` without `else`
macro_rules! open {
    ($first:expr, $last:expr, $rule:ident, $choice:expr) => {
        row!($first, $last, label!($rule, $choice), None, true, None, None, true)
    };
}

// the same where an `else` may follow
macro_rules! without_else {
    ($first:expr, $last:expr, $rule:ident, $choice:expr) => {
        row!($first, $last, label!($rule, $choice), Some(Terminal::Is(Class::Else)), true, None, None, true)
    };
}

// a place where a production begins with a nonterminal that is read before
macro_rules! corner {
    ($first:expr, $last:expr, $goal:ident, $next:expr) => {
        row!($first, $last, None, None, false, Some(Head { goal: Nonterminal::$goal, next: $next }), None, false)
    };
}

// a place after a declarator of a parameter, or after a statement within another one
macro_rules! turning {
    ($first:expr, $last:expr, $named:expr, $other:expr) => {
        row!($first, $last, None, None, false, None, Some(Ways { named: $named, other: $other }), false)
    };
}

// a list, in lines as they stand
macro_rules! rows {
    ($($row:expr),* $(,)?) => {
        [$($row),*]
    };
}

static ROWS: [Row; 509] = rows! {
    inner!(0, 0), inner!(0, 4), ending!(4, 4, PrimaryExpression, 0), ending!(4, 4, PrimaryExpression, 1),
    ending!(4, 5, PrimaryExpression, 2), inner!(5, 6), inner!(6, 7), ending!(7, 7, PrimaryExpression, 3), inner!(7, 8),
    inner!(8, 9), inner!(9, 10), inner!(10, 11), inner!(11, 12), inner!(12, 13), ending!(13, 13, GenericSelection, 0),
    inner!(13, 14), ending!(14, 15, GenericAssocList, 0), inner!(15, 17), inner!(17, 18), inner!(18, 19),
    ending!(19, 19, GenericAssociation, 0), inner!(19, 20), inner!(20, 21), ending!(21, 21, GenericAssociation, 1),
    corner!(21, 22, PostfixExpression, 25), inner!(22, 28), inner!(28, 29), inner!(29, 30), ending!(30, 30, PostfixExpression, 1),
    inner!(30, 32), inner!(32, 33), ending!(33, 33, PostfixExpression, 2), inner!(33, 34), ending!(34, 34, PostfixExpression, 3),
    inner!(34, 35), ending!(35, 35, PostfixExpression, 4), ending!(35, 35, PostfixExpression, 5),
    ending!(35, 35, PostfixExpression, 6), inner!(35, 36), inner!(36, 37), inner!(37, 38), inner!(38, 39), inner!(39, 40),
    inner!(40, 42), ending!(42, 42, PostfixExpression, 7), inner!(42, 43), ending!(43, 43, PostfixExpression, 8), inner!(43, 44),
    ending!(44, 45, ArgumentExpressionList, 0), inner!(45, 50), inner!(50, 51), ending!(51, 51, UnaryExpression, 1),
    inner!(51, 52), ending!(52, 52, UnaryExpression, 2), inner!(52, 53), ending!(53, 53, UnaryExpression, 3), inner!(53, 55),
    ending!(55, 55, UnaryExpression, 4), inner!(55, 56), inner!(56, 57), ending!(57, 57, UnaryExpression, 5), inner!(57, 58),
    inner!(58, 59), inner!(59, 60), ending!(60, 60, UnaryExpression, 6), inner!(60, 66), ending!(66, 66, UnaryOperator, 0),
    ending!(66, 66, UnaryOperator, 1), ending!(66, 66, UnaryOperator, 2), ending!(66, 66, UnaryOperator, 3),
    ending!(66, 66, UnaryOperator, 4), ending!(66, 66, UnaryOperator, 5), inner!(66, 67), inner!(67, 68), inner!(68, 69),
    inner!(69, 70), ending!(70, 70, CastExpression, 1), corner!(70, 71, MultiplicativeExpression, 78), inner!(71, 74),
    inner!(74, 75), ending!(75, 75, MultiplicativeExpression, 1), inner!(75, 76), ending!(76, 76, MultiplicativeExpression, 2),
    inner!(76, 77), ending!(77, 77, MultiplicativeExpression, 3), corner!(77, 78, AdditiveExpression, 86), inner!(78, 80),
    inner!(80, 81), ending!(81, 81, AdditiveExpression, 1), inner!(81, 82), ending!(82, 82, AdditiveExpression, 2),
    corner!(82, 83, ShiftExpression, 92), inner!(83, 85), inner!(85, 86), ending!(86, 86, ShiftExpression, 1), inner!(86, 87),
    ending!(87, 87, ShiftExpression, 2), corner!(87, 88, RelationalExpression, 98), inner!(88, 92), inner!(92, 93),
    ending!(93, 93, RelationalExpression, 1), inner!(93, 94), ending!(94, 94, RelationalExpression, 2), inner!(94, 95),
    ending!(95, 95, RelationalExpression, 3), inner!(95, 96), ending!(96, 96, RelationalExpression, 4),
    corner!(96, 97, EqualityExpression, 108), inner!(97, 99), inner!(99, 100), ending!(100, 100, EqualityExpression, 1),
    inner!(100, 101), ending!(101, 101, EqualityExpression, 2), corner!(101, 102, AndExpression, 114), inner!(102, 103),
    inner!(103, 104), ending!(104, 104, AndExpression, 1), corner!(104, 105, ExclusiveOrExpression, 118), inner!(105, 106),
    inner!(106, 107), ending!(107, 107, ExclusiveOrExpression, 1), corner!(107, 108, InclusiveOrExpression, 122),
    inner!(108, 109), inner!(109, 110), ending!(110, 110, InclusiveOrExpression, 1), corner!(110, 111, LogicalAndExpression, 126),
    inner!(111, 112), inner!(112, 113), ending!(113, 113, LogicalAndExpression, 1), corner!(113, 114, LogicalOrExpression, 130),
    inner!(114, 115), inner!(115, 116), ending!(116, 116, LogicalOrExpression, 1), corner!(116, 117, LogicalOrExpression, 134),
    inner!(117, 118), inner!(118, 119), inner!(119, 120), inner!(120, 121), ending!(121, 121, ConditionalExpression, 1),
    corner!(121, 122, UnaryExpression, 140), inner!(122, 123), inner!(123, 124), ending!(124, 124, AssignmentExpression, 1),
    inner!(124, 135), ending!(135, 135, AssignmentOperator, 0), ending!(135, 135, AssignmentOperator, 1),
    ending!(135, 135, AssignmentOperator, 2), ending!(135, 135, AssignmentOperator, 3), ending!(135, 135, AssignmentOperator, 4),
    ending!(135, 135, AssignmentOperator, 5), ending!(135, 135, AssignmentOperator, 6), ending!(135, 135, AssignmentOperator, 7),
    ending!(135, 135, AssignmentOperator, 8), ending!(135, 135, AssignmentOperator, 9), ending!(135, 135, AssignmentOperator, 10),
    corner!(135, 136, Expression, 156), inner!(136, 137), inner!(137, 138), ending!(138, 138, Expression, 1), inner!(138, 139),
    inner!(139, 141), inner!(141, 142), ending!(142, 142, Declaration, 0), inner!(142, 144),
    untyped!(144, 146, DeclarationSpecifiers, 0), ending!(146, 147, DeclarationSpecifiers, 0), inner!(147, 148),
    ending!(148, 149, InitDeclaratorList, 0), corner!(149, 150, Declarator, 169), inner!(150, 151), inner!(151, 152),
    ending!(152, 152, InitDeclarator, 1), inner!(152, 158), ending!(158, 158, StorageClassSpecifier, 0),
    ending!(158, 158, StorageClassSpecifier, 1), ending!(158, 158, StorageClassSpecifier, 2),
    ending!(158, 158, StorageClassSpecifier, 3), ending!(158, 158, StorageClassSpecifier, 4),
    ending!(158, 158, StorageClassSpecifier, 5), inner!(158, 168), ending!(168, 168, TypeSpecifier, 0),
    ending!(168, 168, TypeSpecifier, 1), ending!(168, 168, TypeSpecifier, 2), ending!(168, 168, TypeSpecifier, 3),
    ending!(168, 168, TypeSpecifier, 4), ending!(168, 168, TypeSpecifier, 5), ending!(168, 168, TypeSpecifier, 6),
    ending!(168, 168, TypeSpecifier, 7), ending!(168, 168, TypeSpecifier, 8), ending!(168, 168, TypeSpecifier, 9),
    inner!(168, 169), inner!(169, 171), ending!(171, 172, StructOrUnionSpecifier, 1), inner!(172, 173), inner!(173, 174),
    ending!(174, 174, StructOrUnionSpecifier, 0), inner!(174, 176), ending!(176, 176, StructOrUnion, 0),
    ending!(176, 176, StructOrUnion, 1), inner!(176, 177), ending!(177, 178, StructDeclarationList, 0), inner!(178, 179),
    inner!(179, 181), inner!(181, 182), ending!(182, 182, StructDeclaration, 0), inner!(182, 184),
    untyped!(184, 186, SpecifierQualifierList, 0), ending!(186, 187, SpecifierQualifierList, 0), inner!(187, 188),
    ending!(188, 189, StructDeclaratorList, 0), corner!(189, 190, Declarator, 211), inner!(190, 191), inner!(191, 192),
    ending!(192, 192, StructDeclarator, 1), inner!(192, 193), inner!(193, 194), ending!(194, 194, StructDeclarator, 1),
    inner!(194, 195), inner!(195, 197), ending!(197, 198, EnumSpecifier, 2), inner!(198, 199), inner!(199, 201),
    ending!(201, 201, EnumSpecifier, 0), inner!(201, 202), ending!(202, 202, EnumSpecifier, 1), inner!(202, 203),
    ending!(203, 204, EnumeratorList, 0), inner!(204, 205), ending!(205, 206, Enumerator, 0), inner!(206, 207),
    ending!(207, 207, Enumerator, 1), inner!(207, 208), inner!(208, 209), inner!(209, 210), inner!(210, 211),
    ending!(211, 211, AtomicTypeSpecifier, 0), inner!(211, 215), ending!(215, 215, TypeQualifier, 0),
    ending!(215, 215, TypeQualifier, 1), ending!(215, 215, TypeQualifier, 2), ending!(215, 215, TypeQualifier, 3),
    inner!(215, 217), ending!(217, 217, FunctionSpecifier, 0), ending!(217, 217, FunctionSpecifier, 1), inner!(217, 218),
    inner!(218, 220), inner!(220, 221), inner!(221, 222), ending!(222, 222, AlignmentSpecifier, 0), inner!(222, 223),
    inner!(223, 224), ending!(224, 224, AlignmentSpecifier, 1), corner!(224, 225, Pointer, 253), inner!(225, 226),
    naming!(226, 226, Declarator, 0), inner!(226, 228), naming!(228, 228, DirectDeclarator, 0), inner!(228, 229),
    inner!(229, 230), naming!(230, 230, DirectDeclarator, 1), corner!(230, 231, DirectDeclarator, 261), inner!(231, 234),
    inner!(234, 239), inner!(239, 243), inner!(243, 244), naming!(244, 244, DirectDeclarator, 2), inner!(244, 245),
    inner!(245, 246), naming!(246, 246, DirectDeclarator, 4), inner!(246, 247), naming!(247, 247, DirectDeclarator, 5),
    inner!(247, 249), inner!(249, 250), inner!(250, 251), naming!(251, 251, DirectDeclarator, 3), inner!(251, 252),
    inner!(252, 253), naming!(253, 253, DirectDeclarator, 6), inner!(253, 255), inner!(255, 256),
    naming!(256, 256, DirectDeclarator, 7), corner!(256, 257, Pointer, 282), inner!(257, 258), turning!(258, 258, 284, 285),
    naming!(258, 258, Declarator, 0), ending!(258, 258, AbstractDeclarator, 1), inner!(258, 262),
    naming!(262, 262, DirectDeclarator, 0), inner!(262, 264), turning!(264, 264, 290, 292), inner!(264, 265),
    naming!(265, 265, DirectDeclarator, 1), inner!(265, 266), ending!(266, 266, DirectAbstractDeclarator, 0),
    ending!(266, 266, DirectAbstractDeclarator, 5), inner!(266, 271), inner!(271, 274), inner!(274, 275),
    ending!(275, 275, DirectAbstractDeclarator, 1), inner!(275, 276), inner!(276, 277),
    ending!(277, 277, DirectAbstractDeclarator, 3), inner!(277, 279), inner!(279, 280), inner!(280, 281),
    ending!(281, 281, DirectAbstractDeclarator, 2), inner!(281, 282), ending!(282, 282, DirectAbstractDeclarator, 4),
    inner!(282, 283), inner!(283, 284), ending!(284, 284, DirectAbstractDeclarator, 5),
    corner!(284, 285, DirectParameterDeclarator, 312), inner!(285, 288), inner!(288, 293), inner!(293, 297), inner!(297, 298),
    naming!(298, 298, DirectDeclarator, 2), inner!(298, 299), inner!(299, 300), naming!(300, 300, DirectDeclarator, 4),
    inner!(300, 301), naming!(301, 301, DirectDeclarator, 5), inner!(301, 303), inner!(303, 304), inner!(304, 305),
    naming!(305, 305, DirectDeclarator, 3), inner!(305, 306), inner!(306, 307), naming!(307, 307, DirectDeclarator, 6),
    inner!(307, 309), inner!(309, 310), naming!(310, 310, DirectDeclarator, 7), inner!(310, 311), ending!(311, 313, Pointer, 0),
    ending!(313, 314, Pointer, 0), ending!(314, 314, Pointer, 1), inner!(314, 315), ending!(315, 316, TypeQualifierList, 0),
    corner!(316, 317, ParameterList, 339), inner!(317, 318), inner!(318, 319), ending!(319, 319, ParameterTypeList, 1),
    inner!(319, 320), ending!(320, 321, ParameterList, 0), corner!(321, 322, DeclarationSpecifiers, 345), inner!(322, 323),
    turning!(323, 323, 347, 348), ending!(323, 323, ParameterDeclaration, 0), ending!(323, 323, ParameterDeclaration, 1),
    inner!(323, 324), ending!(324, 325, IdentifierList, 0), corner!(325, 326, SpecifierQualifierList, 352), inner!(326, 327),
    ending!(327, 327, TypeName, 0), corner!(327, 328, DirectAbstractDeclarator, 355), inner!(328, 331), inner!(331, 336),
    inner!(336, 339), inner!(339, 340), ending!(340, 340, DirectAbstractDeclarator, 1), inner!(340, 341), inner!(341, 342),
    ending!(342, 342, DirectAbstractDeclarator, 3), inner!(342, 344), inner!(344, 345), inner!(345, 346),
    ending!(346, 346, DirectAbstractDeclarator, 2), inner!(346, 347), ending!(347, 347, DirectAbstractDeclarator, 4),
    inner!(347, 348), ending!(348, 348, DirectAbstractDeclarator, 5), inner!(348, 349), inner!(349, 350),
    ending!(350, 350, DirectAbstractDeclarator, 5), inner!(350, 351), ending!(351, 351, TypedefName, 0), inner!(351, 352),
    inner!(352, 353), inner!(353, 355), ending!(355, 355, Initializer, 1), inner!(355, 356), ending!(356, 356, Initializer, 2),
    inner!(356, 358), inner!(358, 359), ending!(359, 361, InitializerList, 0), inner!(361, 362), inner!(362, 363),
    ending!(363, 363, Designation, 0), inner!(363, 364), ending!(364, 365, DesignatorList, 0), inner!(365, 367), inner!(367, 368),
    inner!(368, 369), ending!(369, 369, Designator, 0), inner!(369, 370), ending!(370, 370, Designator, 1), inner!(370, 371),
    inner!(371, 372), inner!(372, 373), inner!(373, 374), inner!(374, 375), inner!(375, 377), inner!(377, 378),
    ending!(378, 378, StaticAssertDeclaration, 0), inner!(378, 381), inner!(381, 382), inner!(382, 383),
    turning!(383, 383, 408, 409), naming!(383, 383, LabeledStatement, 0), ending!(383, 383, LabeledStatement, 0),
    inner!(383, 384), inner!(384, 385), inner!(385, 386), turning!(386, 386, 414, 415), naming!(386, 386, LabeledStatement, 1),
    ending!(386, 386, LabeledStatement, 1), inner!(386, 387), inner!(387, 388), turning!(388, 388, 419, 420),
    naming!(388, 388, LabeledStatement, 2), ending!(388, 388, LabeledStatement, 2), inner!(388, 389), inner!(389, 391),
    inner!(391, 392), ending!(392, 392, CompoundStatement, 0), inner!(392, 393), ending!(393, 394, BlockItemList, 0),
    inner!(394, 396), inner!(396, 397), ending!(397, 397, ExpressionStatement, 0), inner!(397, 399), inner!(399, 400),
    inner!(400, 401), inner!(401, 402), inner!(402, 403), turning!(403, 403, 436, 437), open!(403, 403, SelectionStatement, 0),
    without_else!(403, 404, SelectionStatement, 0), inner!(404, 405), turning!(405, 405, 440, 441),
    open!(405, 405, SelectionStatement, 1), scoped!(405, 405, SelectionStatement, 1), inner!(405, 406), inner!(406, 407),
    inner!(407, 408), inner!(408, 409), turning!(409, 409, 447, 448), open!(409, 409, SelectionStatement, 2),
    scoped!(409, 409, SelectionStatement, 2), inner!(409, 412), inner!(412, 413), inner!(413, 414), inner!(414, 415),
    inner!(415, 416), inner!(416, 417), inner!(417, 418), scoped!(418, 418, IterationStatement, 1), inner!(418, 419),
    inner!(419, 420), inner!(420, 421), inner!(421, 422), turning!(422, 422, 462, 463), open!(422, 422, IterationStatement, 0),
    scoped!(422, 422, IterationStatement, 0), inner!(422, 423), inner!(423, 426), inner!(426, 427), inner!(427, 429),
    inner!(429, 430), inner!(430, 432), inner!(432, 433), inner!(433, 434), turning!(434, 434, 473, 474),
    open!(434, 434, IterationStatement, 2), scoped!(434, 434, IterationStatement, 2), inner!(434, 436), inner!(436, 437),
    inner!(437, 439), inner!(439, 440), inner!(440, 441), turning!(441, 441, 481, 482), open!(441, 441, IterationStatement, 3),
    scoped!(441, 441, IterationStatement, 3), inner!(441, 445), inner!(445, 446), inner!(446, 447),
    ending!(447, 447, JumpStatement, 0), inner!(447, 448), ending!(448, 448, JumpStatement, 1), inner!(448, 449),
    ending!(449, 449, JumpStatement, 2), inner!(449, 451), inner!(451, 452), ending!(452, 452, JumpStatement, 3),
    inner!(452, 454), inner!(454, 455), ending!(455, 455, ExpressionStatement, 0), inner!(455, 456), inner!(456, 458),
    inner!(458, 459), ending!(459, 459, Declaration, 0), inner!(459, 460), inner!(460, 461), inner!(461, 462),
    ending!(462, 462, FunctionDefinition, 0), inner!(462, 463), inner!(463, 465), inner!(465, 466),
    ending!(466, 466, CompoundStatement, 0),
};

/// The places.
pub fn rows() -> &'static [Row]
    ensures { result.now ≡ t.rows }
{
    &ROWS
}
