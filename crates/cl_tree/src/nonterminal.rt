/// A nonterminal of the grammar: those of N1570 A.2, and some that tell apart where one of them stands.
#[derive(Clone, Copy, Debug, PartialEq, Eq)]
pub enum Nonterminal {
    /// primary-expression (6.5.1).
    PrimaryExpression,
    /// generic-selection (6.5.1.1).
    GenericSelection,
    /// generic-assoc-list (6.5.1.1).
    GenericAssocList,
    /// generic-association (6.5.1.1).
    GenericAssociation,
    /// postfix-expression (6.5.2).
    PostfixExpression,
    /// argument-expression-list (6.5.2).
    ArgumentExpressionList,
    /// unary-expression (6.5.3).
    UnaryExpression,
    /// unary-operator (6.5.3).
    UnaryOperator,
    /// cast-expression (6.5.4).
    CastExpression,
    /// multiplicative-expression (6.5.5).
    MultiplicativeExpression,
    /// additive-expression (6.5.6).
    AdditiveExpression,
    /// shift-expression (6.5.7).
    ShiftExpression,
    /// relational-expression (6.5.8).
    RelationalExpression,
    /// equality-expression (6.5.9).
    EqualityExpression,
    /// AND-expression (6.5.10).
    AndExpression,
    /// exclusive-OR-expression (6.5.11).
    ExclusiveOrExpression,
    /// inclusive-OR-expression (6.5.12).
    InclusiveOrExpression,
    /// logical-AND-expression (6.5.13).
    LogicalAndExpression,
    /// logical-OR-expression (6.5.14).
    LogicalOrExpression,
    /// conditional-expression (6.5.15).
    ConditionalExpression,
    /// assignment-expression (6.5.16).
    AssignmentExpression,
    /// assignment-operator (6.5.16).
    AssignmentOperator,
    /// expression (6.5.17).
    Expression,
    /// constant-expression (6.6).
    ConstantExpression,
    /// declaration (6.7).
    Declaration,
    /// declaration-specifiers (6.7).
    DeclarationSpecifiers,
    /// init-declarator-list (6.7).
    InitDeclaratorList,
    /// init-declarator (6.7).
    InitDeclarator,
    /// storage-class-specifier (6.7.1).
    StorageClassSpecifier,
    /// type-specifier (6.7.2).
    TypeSpecifier,
    /// struct-or-union-specifier (6.7.2.1).
    StructOrUnionSpecifier,
    /// struct-or-union (6.7.2.1).
    StructOrUnion,
    /// struct-declaration-list (6.7.2.1).
    StructDeclarationList,
    /// struct-declaration (6.7.2.1).
    StructDeclaration,
    /// specifier-qualifier-list (6.7.2.1).
    SpecifierQualifierList,
    /// struct-declarator-list (6.7.2.1).
    StructDeclaratorList,
    /// struct-declarator (6.7.2.1).
    StructDeclarator,
    /// enum-specifier (6.7.2.2).
    EnumSpecifier,
    /// enumerator-list (6.7.2.2).
    EnumeratorList,
    /// enumerator (6.7.2.2).
    Enumerator,
    /// atomic-type-specifier (6.7.2.4).
    AtomicTypeSpecifier,
    /// type-qualifier (6.7.3).
    TypeQualifier,
    /// function-specifier (6.7.4).
    FunctionSpecifier,
    /// alignment-specifier (6.7.5).
    AlignmentSpecifier,
    /// declarator (6.7.6).
    Declarator,
    /// direct-declarator (6.7.6).
    DirectDeclarator,
    /// pointer (6.7.6).
    Pointer,
    /// type-qualifier-list (6.7.6).
    TypeQualifierList,
    /// parameter-type-list (6.7.6).
    ParameterTypeList,
    /// parameter-list (6.7.6).
    ParameterList,
    /// parameter-declaration (6.7.6).
    ParameterDeclaration,
    /// identifier-list (6.7.6).
    IdentifierList,
    /// type-name (6.7.7).
    TypeName,
    /// abstract-declarator (6.7.7).
    AbstractDeclarator,
    /// direct-abstract-declarator (6.7.7).
    DirectAbstractDeclarator,
    /// typedef-name (6.7.8).
    TypedefName,
    /// initializer (6.7.9).
    Initializer,
    /// initializer-list (6.7.9).
    InitializerList,
    /// designation (6.7.9).
    Designation,
    /// designator-list (6.7.9).
    DesignatorList,
    /// designator (6.7.9).
    Designator,
    /// static_assert-declaration (6.7.10).
    StaticAssertDeclaration,
    /// statement (6.8).
    Statement,
    /// labeled-statement (6.8.1).
    LabeledStatement,
    /// compound-statement (6.8.2).
    CompoundStatement,
    /// block-item-list (6.8.2).
    BlockItemList,
    /// block-item (6.8.2).
    BlockItem,
    /// expression-statement (6.8.3).
    ExpressionStatement,
    /// selection-statement (6.8.4).
    SelectionStatement,
    /// iteration-statement (6.8.5).
    IterationStatement,
    /// jump-statement (6.8.6).
    JumpStatement,
    /// function-definition (6.9.1).
    FunctionDefinition,
    /// A specifier of a declaration that is no type specifier (6.7).
    OtherSpecifier,
    /// A type specifier that is no typedef name: any after another one (6.7.2).
    LaterTypeSpecifier,
    /// A specifier of a declaration after a type specifier (6.7).
    LaterSpecifier,
    /// A qualifier, or a type specifier after another one (6.7.2.1).
    LaterQualifier,
    /// A declarator of a parameter: after its `(` a type begins parameters (6.7.6).
    ParameterDeclarator,
    /// A direct-declarator of a parameter (6.7.6).
    DirectParameterDeclarator,
    /// A declarator of a parameter, or an abstract one (6.7.6).
    AnyDeclarator,
    /// A direct-declarator of a parameter, or an abstract one (6.7.6).
    DirectAnyDeclarator,
    /// A statement that ends with no `if` without `else`: only after such a one the `else` of an `if` around it stands (6.8).
    ClosedStatement,
    /// A statement that ends with an `if` without `else` (6.8).
    OpenStatement,
    /// A labeled-statement that ends with no `if` without `else` (6.8.1).
    ClosedLabeledStatement,
    /// A labeled-statement that ends with an `if` without `else` (6.8.1).
    OpenLabeledStatement,
    /// A selection-statement that ends with no `if` without `else` (6.8.4).
    ClosedSelectionStatement,
    /// A selection-statement that ends with an `if` without `else` (6.8.4).
    OpenSelectionStatement,
    /// An iteration-statement that ends with no `if` without `else` (6.8.5).
    ClosedIterationStatement,
    /// An iteration-statement that ends with an `if` without `else` (6.8.5).
    OpenIterationStatement,
    /// An expression that begins with no label: that of an expression statement (6.8.3).
    UnlabelledExpression,
    /// An expression that begins with no label and no typedef name: where a declaration may stand too (6.8.3).
    PlainExpression,
    /// A statement of a block: it begins with no typedef name (6.8.2).
    BlockStatement,
    /// An expression-statement of a block (6.8.2).
    BlockExpressionStatement,
    /// A declaration of a block: it begins with no label (6.8.2).
    BlockDeclaration,
    /// The specifiers of a declaration of a block (6.8.2).
    BlockSpecifiers,
    /// The compound-statement of a function-definition: its parameters are declared in it (6.9.1).
    FunctionBody,
}
