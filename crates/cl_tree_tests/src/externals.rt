use crate::reading::{after_external, external};
use std::test::Fail;

/// A text and a part of its tree as it is written out; `none` where it is no external declaration. `T` and `U` are typedef
/// names before.
struct Case {
    text: &'static [u8],
    part: &'static str,
}

static CASES: [Case; 18] = [
    Case {
        text: b"int f(void) { return 1; }",
        part: "(FunctionDefinition.0 (DeclarationSpecifiers.0 (TypeSpecifier.3 int)) (DirectDeclarator.6 (DirectDeclarator.0 f) ( (ParameterList.0 (DeclarationSpecifiers.0 (TypeSpecifier.0 void))) )) (CompoundStatement.0 { (BlockItemList.0 (JumpStatement.3 return (PrimaryExpression.1 1) ;)) }))",
    },
    Case {
        text: b"int f(void) { return 1 +; ( }",
        part: "(CompoundStatement.0 { (BlockItemList.0 (Bad.0) (Bad.0)) }))",
    },
    Case {
        text: b"T f(T T) { }",
        part: "(ParameterDeclaration.0 (DeclarationSpecifiers.0 (TypedefName.0 T)) (DirectDeclarator.0 T))",
    },
    Case {
        text: b"static struct S { int a; } *f() { { } }",
        part: "(Declarator.0 (Pointer.0 *) (DirectDeclarator.7 (DirectDeclarator.0 f) ( ))) (CompoundStatement.0 { (BlockItemList.0 (CompoundStatement.0 { })) }))",
    },
    Case {
        text: b"int f(a, b) { }",
        part: "(DirectDeclarator.7 (DirectDeclarator.0 f) ( (IdentifierList.0 a b) )) (CompoundStatement.0 { }))",
    },
    Case {
        text: b"int (*g(int T))(int u) <% %>",
        part: "(CompoundStatement.0 <% %>))",
    },
    Case {
        text: b"int x = 3, *y;",
        part: "(Declaration.0",
    },
    Case {
        text: b"int f(void);",
        part: "(InitDeclaratorList.0 (DirectDeclarator.6",
    },
    Case {
        text: b"struct S { int a; };",
        part: "(Declaration.0",
    },
    Case {
        text: b"_Static_assert(1, \"a\");",
        part: "(StaticAssertDeclaration.0",
    },
    Case {
        text: b"int f(void) { } ;",
        part: "none",
    },
    Case {
        text: b"int f(a) int a; { }",
        part: "none",
    },
    Case {
        text: b"int x = { 1 }",
        part: "none",
    },
    Case {
        text: b"f(void) { }",
        part: "none",
    },
    Case {
        text: b"int f(void) {",
        part: "none",
    },
    Case {
        text: b"int f(void) { } }",
        part: "none",
    },
    Case {
        text: b"int f(void), g(void) { }",
        part: "none",
    },
    Case {
        text: b"",
        part: "none",
    },
];

#[test]
fn trees(rt: HostRuntime) -> Result<(), Fail> {
    let alloc = rt.alloc();
    for case in CASES.as_slice() {
        let tree = external(alloc, case.text)?;
        assert!(rt; tree.as_str().contains(case.part), "{tree}");
    }
    Ok(())
}

/// Two external declarations, the number of the token with which the second begins, and a part of its tree.
struct Pair {
    text: &'static [u8],
    from: u32,
    part: &'static str,
}

/// What an item declares counts in the next one; parameters and what a body declares don't.
static PAIRS: [Pair; 7] = [
    Pair {
        text: b"typedef int X; X x;",
        from: 4,
        part: "(TypedefName.0 X)",
    },
    Pair {
        text: b"int X; X x;",
        from: 3,
        part: "none",
    },
    Pair {
        text: b"int T; T x;",
        from: 3,
        part: "none",
    },
    Pair {
        text: b"int f(int T) { } T x;",
        from: 8,
        part: "(TypedefName.0 T)",
    },
    Pair {
        text: b"int T(void) { } T x;",
        from: 7,
        part: "none",
    },
    Pair {
        text: b"int f(void) { typedef int X; } X x;",
        from: 11,
        part: "none",
    },
    Pair {
        text: b"enum { T } f(enum { U } u) { } U x = sizeof(T);",
        from: 14,
        part: "(UnaryExpression.4 sizeof",
    },
];

#[test]
fn one_after_the_other(rt: HostRuntime) -> Result<(), Fail> {
    let alloc = rt.alloc();
    for pair in PAIRS.as_slice() {
        let tree = after_external(alloc, pair.text, pair.from)?;
        assert!(rt; tree.as_str().contains(pair.part), "{tree}");
    }
    Ok(())
}
