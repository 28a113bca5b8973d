/// What a tree is: a rule of the grammar (N1570 A.2), one token, or what is no tree of the grammar.
#[derive(Clone, Copy, Debug, PartialEq, Eq)]
pub enum Rule {
    /// One token.
    Token,
    /// Tokens that are no item of a block.
    Bad,
    /// primary-expression (6.5.1).
    PrimaryExpression,
    /// generic-selection (6.5.1.1).
    GenericSelection,
    /// generic-assoc-list (6.5.1.1).
    GenericAssocList,
    /// generic-association (6.5.1.1).
    GenericAssociation,
    /// postfix-expression (6.5.2).
    PostfixExpression,
    /// argument-expression-list (6.5.2).
    ArgumentExpressionList,
    /// unary-expression (6.5.3).
    UnaryExpression,
    /// unary-operator (6.5.3).
    UnaryOperator,
    /// cast-expression (6.5.4).
    CastExpression,
    /// multiplicative-expression (6.5.5).
    MultiplicativeExpression,
    /// additive-expression (6.5.6).
    AdditiveExpression,
    /// shift-expression (6.5.7).
    ShiftExpression,
    /// relational-expression (6.5.8).
    RelationalExpression,
    /// equality-expression (6.5.9).
    EqualityExpression,
    /// AND-expression (6.5.10).
    AndExpression,
    /// exclusive-OR-expression (6.5.11).
    ExclusiveOrExpression,
    /// inclusive-OR-expression (6.5.12).
    InclusiveOrExpression,
    /// logical-AND-expression (6.5.13).
    LogicalAndExpression,
    /// logical-OR-expression (6.5.14).
    LogicalOrExpression,
    /// conditional-expression (6.5.15).
    ConditionalExpression,
    /// assignment-expression (6.5.16).
    AssignmentExpression,
    /// assignment-operator (6.5.16).
    AssignmentOperator,
    /// expression (6.5.17).
    Expression,
    /// constant-expression (6.6).
    ConstantExpression,
    /// declaration (6.7).
    Declaration,
    /// declaration-specifiers (6.7).
    DeclarationSpecifiers,
    /// init-declarator-list (6.7).
    InitDeclaratorList,
    /// init-declarator (6.7).
    InitDeclarator,
    /// storage-class-specifier (6.7.1).
    StorageClassSpecifier,
    /// type-specifier (6.7.2).
    TypeSpecifier,
    /// struct-or-union-specifier (6.7.2.1).
    StructOrUnionSpecifier,
    /// struct-or-union (6.7.2.1).
    StructOrUnion,
    /// struct-declaration-list (6.7.2.1).
    StructDeclarationList,
    /// struct-declaration (6.7.2.1).
    StructDeclaration,
    /// specifier-qualifier-list (6.7.2.1).
    SpecifierQualifierList,
    /// struct-declarator-list (6.7.2.1).
    StructDeclaratorList,
    /// struct-declarator (6.7.2.1).
    StructDeclarator,
    /// enum-specifier (6.7.2.2).
    EnumSpecifier,
    /// enumerator-list (6.7.2.2).
    EnumeratorList,
    /// enumerator (6.7.2.2).
    Enumerator,
    /// atomic-type-specifier (6.7.2.4).
    AtomicTypeSpecifier,
    /// type-qualifier (6.7.3).
    TypeQualifier,
    /// function-specifier (6.7.4).
    FunctionSpecifier,
    /// alignment-specifier (6.7.5).
    AlignmentSpecifier,
    /// declarator (6.7.6).
    Declarator,
    /// direct-declarator (6.7.6).
    DirectDeclarator,
    /// pointer (6.7.6).
    Pointer,
    /// type-qualifier-list (6.7.6).
    TypeQualifierList,
    /// parameter-type-list (6.7.6).
    ParameterTypeList,
    /// parameter-list (6.7.6).
    ParameterList,
    /// parameter-declaration (6.7.6).
    ParameterDeclaration,
    /// identifier-list (6.7.6).
    IdentifierList,
    /// type-name (6.7.7).
    TypeName,
    /// abstract-declarator (6.7.7).
    AbstractDeclarator,
    /// direct-abstract-declarator (6.7.7).
    DirectAbstractDeclarator,
    /// typedef-name (6.7.8).
    TypedefName,
    /// initializer (6.7.9).
    Initializer,
    /// initializer-list (6.7.9).
    InitializerList,
    /// designation (6.7.9).
    Designation,
    /// designator-list (6.7.9).
    DesignatorList,
    /// designator (6.7.9).
    Designator,
    /// static_assert-declaration (6.7.10).
    StaticAssertDeclaration,
    /// statement (6.8).
    Statement,
    /// labeled-statement (6.8.1).
    LabeledStatement,
    /// compound-statement (6.8.2).
    CompoundStatement,
    /// block-item-list (6.8.2).
    BlockItemList,
    /// block-item (6.8.2).
    BlockItem,
    /// expression-statement (6.8.3).
    ExpressionStatement,
    /// selection-statement (6.8.4).
    SelectionStatement,
    /// iteration-statement (6.8.5).
    IterationStatement,
    /// jump-statement (6.8.6).
    JumpStatement,
    /// translation-unit (6.9).
    TranslationUnit,
    /// external-declaration (6.9).
    ExternalDeclaration,
    /// function-definition (6.9.1).
    FunctionDefinition,
}
