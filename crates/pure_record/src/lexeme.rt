//! What a token is to the grammar of records.
/// What has one spelling: the keywords and signs of the grammar of records, and the end of the source.
#[derive(Clone, Copy, Debug, PartialEq, Eq)]
pub enum Mark {
    Begin,
    End,
    Typedecl,
    Consts,
    Axiomatization,
    Bar,
    Colon,
    DoubleColon,
    Comma,
    Semicolon,
    Percent,
    OpenParenthesis,
    CloseParenthesis,
    OpenBracket,
    CloseBracket,
    OpenBrace,
    CloseBrace,
    SourceEnd,
}

/// Which of the words that mean something the text of an identifier is: a node's, or a name of Pure.
#[derive(Clone, Copy, Debug, PartialEq, Eq)]
pub enum Word {
    Axiom,
    Assume,
    AllIntro,
    AllElim,
    ImpIntro,
    ImpElim,
    Beta,
    Refl,
    Subst,
    Ext,
    Iff,
    Fun,
    Prop,
    All,
    Imp,
    Eq,
    Protect,
    Other,
}

/// A token by what the grammar tells apart and what is said: a mark; an identifier by its number among the record's names, with its word; a type variable, fixed or schematic; a schematic variable of terms; a bound variable; a number. `Other` are the tokens that stand nowhere in a record.
#[derive(Clone, Copy, Debug)]
pub enum Lexeme {
    Marked { mark: Mark },
    Identifier { name: u32, word: Word },
    TypeVariable { name: u32 },
    SchematicType { name: u32, index: u32 },
    SchematicTerm { name: u32, index: u32 },
    Bound { place: u32 },
    Numeral { value: u32 },
    Other,
}
