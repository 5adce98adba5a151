//! What may come next in a record: the parts of its grammar that are still to come.
ghost use Rattle.std.specs.Prelude.{◌≡◌, option_map, reverse};
ghost use Rattle.pure_record.specs.Machine as spec;

use crate::lexeme::{Lexeme, Mark, Word};

/// A part of the grammar: a mark, an identifier, a number, a type, what may follow a constructor and what follows each of its arguments, a term, what follows its parenthesis, the variable of a term and that of an entry, the entries of the two maps, the lines, the items and lines, a whole record.
#[derive(Clone, Copy, Debug, PartialEq, Eq)]
pub enum Symbol {
    Just { mark: Mark },
    Identifier,
    Numeral,
    Typ,
    Arguments,
    MoreArguments,
    Term,
    InParentheses,
    Variable,
    VariableName,
    SchematicName,
    TypBinds,
    TermBinds,
    Lines,
    Items,
    Record,
}

/// The number of a mark.
fn mark_number(mark: Mark) -> u8
    ensures { result ≡ spec.mark_number mark }
{
    match mark {
        Mark::Begin => 0,
        Mark::End => 1,
        Mark::Typedecl => 2,
        Mark::Consts => 3,
        Mark::Axiomatization => 4,
        Mark::Bar => 5,
        Mark::Colon => 6,
        Mark::DoubleColon => 7,
        Mark::Comma => 8,
        Mark::Semicolon => 9,
        Mark::Percent => 10,
        Mark::OpenParenthesis => 11,
        Mark::CloseParenthesis => 12,
        Mark::OpenBracket => 13,
        Mark::CloseBracket => 14,
        Mark::OpenBrace => 15,
        Mark::CloseBrace => 16,
        Mark::SourceEnd => 17,
    }
}

/// Whether the lexeme is this mark.
pub(crate) fn is_mark(mark: Mark, lexeme: Lexeme) -> bool
    ensures { result ≡ spec.is_mark mark lexeme }
{
    match lexeme {
        Lexeme::Marked { mark: found } => mark_number(found) == mark_number(mark),
        _ => false,
    }
}

/// What is to come behind the first lexeme of the part `Identifier`, the last part first.
fn identifier_on(lexeme: Lexeme) -> Option<&'static [Symbol]>
    ensures { option_map (λ xs. reverse xs.now) result ≡ spec.identifier_on lexeme }
{
    match lexeme {
        Lexeme::Identifier { .. } => Some(&[]),
        _ => None,
    }
}

/// What is to come behind the first lexeme of the part `Numeral`, the last part first.
fn numeral_on(lexeme: Lexeme) -> Option<&'static [Symbol]>
    ensures { option_map (λ xs. reverse xs.now) result ≡ spec.numeral_on lexeme }
{
    match lexeme {
        Lexeme::Numeral { .. } => Some(&[]),
        _ => None,
    }
}

/// What is to come behind the first lexeme of the part `Typ`, the last part first.
fn typ_on(lexeme: Lexeme) -> Option<&'static [Symbol]>
    ensures { option_map (λ xs. reverse xs.now) result ≡ spec.typ_on lexeme }
{
    match lexeme {
        Lexeme::TypeVariable { .. } => Some(&[]),
        Lexeme::SchematicType { .. } => Some(&[]),
        Lexeme::Identifier { .. } => Some(&[Symbol::Arguments]),
        _ => None,
    }
}

/// What is to come behind the first lexeme of the part `Arguments`, the last part first.
fn arguments_on(lexeme: Lexeme) -> Option<&'static [Symbol]>
    ensures { option_map (λ xs. reverse xs.now) result ≡ spec.arguments_on lexeme }
{
    match lexeme {
        Lexeme::Marked {
            mark: Mark::OpenParenthesis,
        } => Some(&[Symbol::MoreArguments, Symbol::Typ]),
        _ => None,
    }
}

/// What is to come behind the first lexeme of the part `MoreArguments`, the last part first.
fn more_arguments_on(lexeme: Lexeme) -> Option<&'static [Symbol]>
    ensures { option_map (λ xs. reverse xs.now) result ≡ spec.more_arguments_on lexeme }
{
    match lexeme {
        Lexeme::Marked { mark: Mark::Comma } => Some(&[Symbol::MoreArguments, Symbol::Typ]),
        Lexeme::Marked {
            mark: Mark::CloseParenthesis,
        } => Some(&[]),
        _ => None,
    }
}

/// What is to come behind the first lexeme of the part `Term`, the last part first.
fn term_on(lexeme: Lexeme) -> Option<&'static [Symbol]>
    ensures { option_map (λ xs. reverse xs.now) result ≡ spec.term_on lexeme }
{
    match lexeme {
        Lexeme::Marked {
            mark: Mark::OpenBracket,
        } => Some(&[
            Symbol::Just {
                mark: Mark::CloseBracket,
            },
            Symbol::Typ,
            Symbol::Just { mark: Mark::Colon },
            Symbol::Identifier,
        ]),
        Lexeme::Marked {
            mark: Mark::OpenBrace,
        } => Some(&[
            Symbol::Just {
                mark: Mark::CloseBrace,
            },
            Symbol::Typ,
            Symbol::Just { mark: Mark::Colon },
            Symbol::VariableName,
        ]),
        Lexeme::Bound { .. } => Some(&[]),
        Lexeme::Marked {
            mark: Mark::OpenParenthesis,
        } => Some(&[Symbol::InParentheses]),
        _ => None,
    }
}

/// What is to come behind the percent sign of an abstraction, the last part first.
fn abstraction_on() -> Option<&'static [Symbol]>
    ensures { option_map (λ xs. reverse xs.now) result ≡ spec.in_parentheses_on (Lexeme.Marked Mark.Percent) }
{
    Some(&[
        Symbol::Just {
            mark: Mark::CloseParenthesis,
        },
        Symbol::Term,
        Symbol::Just {
            mark: Mark::Semicolon,
        },
        Symbol::Typ,
    ])
}

/// What is to come behind the bracket of a constant that is applied, the last part first.
fn applied_constant_on() -> Option<&'static [Symbol]>
    ensures { option_map (λ xs. reverse xs.now) result ≡ spec.in_parentheses_on (Lexeme.Marked Mark.OpenBracket) }
{
    Some(&[
        Symbol::Just {
            mark: Mark::CloseParenthesis,
        },
        Symbol::Term,
        Symbol::Just {
            mark: Mark::CloseBracket,
        },
        Symbol::Typ,
        Symbol::Just { mark: Mark::Colon },
        Symbol::Identifier,
    ])
}

/// What is to come behind the brace of a variable that is applied, the last part first.
fn applied_variable_on() -> Option<&'static [Symbol]>
    ensures { option_map (λ xs. reverse xs.now) result ≡ spec.in_parentheses_on (Lexeme.Marked Mark.OpenBrace) }
{
    Some(&[
        Symbol::Just {
            mark: Mark::CloseParenthesis,
        },
        Symbol::Term,
        Symbol::Just {
            mark: Mark::CloseBrace,
        },
        Symbol::Typ,
        Symbol::Just { mark: Mark::Colon },
        Symbol::VariableName,
    ])
}

/// What is to come behind the second of two parentheses, the last part first.
fn applied_compound_on() -> Option<&'static [Symbol]>
    ensures { option_map (λ xs. reverse xs.now) result ≡ spec.in_parentheses_on (Lexeme.Marked Mark.OpenParenthesis) }
{
    Some(&[
        Symbol::Just {
            mark: Mark::CloseParenthesis,
        },
        Symbol::Term,
        Symbol::InParentheses,
    ])
}

/// What is to come behind the first lexeme of the part `InParentheses`, the last part first.
fn in_parentheses_on(lexeme: Lexeme) -> Option<&'static [Symbol]>
    ensures { option_map (λ xs. reverse xs.now) result ≡ spec.in_parentheses_on lexeme }
{
    match lexeme {
        Lexeme::Marked {
            mark: Mark::Percent,
        } => abstraction_on(),
        Lexeme::Marked {
            mark: Mark::OpenBracket,
        } => applied_constant_on(),
        Lexeme::Marked {
            mark: Mark::OpenBrace,
        } => applied_variable_on(),
        Lexeme::Bound { .. } => Some(&[
            Symbol::Just {
                mark: Mark::CloseParenthesis,
            },
            Symbol::Term,
        ]),
        Lexeme::Marked {
            mark: Mark::OpenParenthesis,
        } => applied_compound_on(),
        _ => None,
    }
}

/// What is to come behind the first lexeme of the part `Variable`, the last part first.
fn variable_on(lexeme: Lexeme) -> Option<&'static [Symbol]>
    ensures { option_map (λ xs. reverse xs.now) result ≡ spec.variable_on lexeme }
{
    match lexeme {
        Lexeme::Marked {
            mark: Mark::OpenBrace,
        } => Some(&[
            Symbol::Just {
                mark: Mark::CloseBrace,
            },
            Symbol::Typ,
            Symbol::Just { mark: Mark::Colon },
            Symbol::VariableName,
        ]),
        _ => None,
    }
}

/// What is to come behind the first lexeme of the part `VariableName`, the last part first.
fn variable_name_on(lexeme: Lexeme) -> Option<&'static [Symbol]>
    ensures { option_map (λ xs. reverse xs.now) result ≡ spec.variable_name_on lexeme }
{
    match lexeme {
        Lexeme::Identifier { .. } => Some(&[]),
        Lexeme::SchematicTerm { .. } => Some(&[]),
        _ => None,
    }
}

/// What is to come behind the first lexeme of the part `SchematicName`, the last part first.
fn schematic_name_on(lexeme: Lexeme) -> Option<&'static [Symbol]>
    ensures { option_map (λ xs. reverse xs.now) result ≡ spec.schematic_name_on lexeme }
{
    match lexeme {
        Lexeme::SchematicTerm { .. } => Some(&[]),
        _ => None,
    }
}

/// What is to come behind the first lexeme of the part `TypBinds`, the last part first.
fn typ_binds_on(lexeme: Lexeme) -> Option<&'static [Symbol]>
    ensures { option_map (λ xs. reverse xs.now) result ≡ spec.typ_binds_on lexeme }
{
    match lexeme {
        Lexeme::SchematicType { .. } => Some(&[
            Symbol::TypBinds,
            Symbol::Just {
                mark: Mark::Semicolon,
            },
            Symbol::Typ,
        ]),
        Lexeme::Marked {
            mark: Mark::CloseBracket,
        } => Some(&[]),
        _ => None,
    }
}

/// What is to come behind the first lexeme of the part `TermBinds`, the last part first.
fn term_binds_on(lexeme: Lexeme) -> Option<&'static [Symbol]>
    ensures { option_map (λ xs. reverse xs.now) result ≡ spec.term_binds_on lexeme }
{
    match lexeme {
        Lexeme::Marked {
            mark: Mark::OpenBrace,
        } => Some(&[
            Symbol::TermBinds,
            Symbol::Just {
                mark: Mark::Semicolon,
            },
            Symbol::Term,
            Symbol::Just {
                mark: Mark::CloseBrace,
            },
            Symbol::Typ,
            Symbol::Just { mark: Mark::Colon },
            Symbol::SchematicName,
        ]),
        Lexeme::Marked {
            mark: Mark::CloseBracket,
        } => Some(&[]),
        _ => None,
    }
}

/// What follows the word of an axiom, the last part first.
fn axiom_on() -> Option<&'static [Symbol]>
    ensures { option_map (λ xs. reverse xs.now) result ≡ spec.node_on Word.Axiom }
{
    Some(&[
        Symbol::Lines,
        Symbol::Just { mark: Mark::Bar },
        Symbol::TermBinds,
        Symbol::Just {
            mark: Mark::OpenBracket,
        },
        Symbol::TypBinds,
        Symbol::Just {
            mark: Mark::OpenBracket,
        },
        Symbol::Identifier,
    ])
}

/// What follows a word that stands before a term, the last part first.
fn one_term_on() -> Option<&'static [Symbol]>
    ensures { option_map (λ xs. reverse xs.now) result ≡ spec.node_on Word.Assume }
{
    Some(&[
        Symbol::Lines,
        Symbol::Just { mark: Mark::Bar },
        Symbol::Term,
    ])
}

/// What follows a word that stands before two terms, the last part first.
fn two_terms_on() -> Option<&'static [Symbol]>
    ensures { option_map (λ xs. reverse xs.now) result ≡ spec.node_on Word.Ext }
{
    Some(&[
        Symbol::Lines,
        Symbol::Just { mark: Mark::Bar },
        Symbol::Term,
        Symbol::Term,
    ])
}

/// What follows a word that stands before three terms, the last part first.
fn three_terms_on() -> Option<&'static [Symbol]>
    ensures { option_map (λ xs. reverse xs.now) result ≡ spec.node_on Word.Subst }
{
    Some(&[
        Symbol::Lines,
        Symbol::Just { mark: Mark::Bar },
        Symbol::Term,
        Symbol::Term,
        Symbol::Term,
    ])
}

/// What follows a word that stands before a variable and a number, the last part first.
fn variable_and_number_on() -> Option<&'static [Symbol]>
    ensures { option_map (λ xs. reverse xs.now) result ≡ spec.node_on Word.AllIntro }
{
    Some(&[
        Symbol::Lines,
        Symbol::Just { mark: Mark::Bar },
        Symbol::Numeral,
        Symbol::Variable,
    ])
}

/// What follows a word that stands before a term and a number, the last part first.
fn term_and_number_on() -> Option<&'static [Symbol]>
    ensures { option_map (λ xs. reverse xs.now) result ≡ spec.node_on Word.AllElim }
{
    Some(&[
        Symbol::Lines,
        Symbol::Just { mark: Mark::Bar },
        Symbol::Numeral,
        Symbol::Term,
    ])
}

/// What follows a word that stands before two numbers, the last part first.
fn two_numbers_on() -> Option<&'static [Symbol]>
    ensures { option_map (λ xs. reverse xs.now) result ≡ spec.node_on Word.ImpElim }
{
    Some(&[
        Symbol::Lines,
        Symbol::Just { mark: Mark::Bar },
        Symbol::Numeral,
        Symbol::Numeral,
    ])
}

/// What follows the word of a node, the last part first.
fn node_on(word: Word) -> Option<&'static [Symbol]>
    ensures { option_map (λ xs. reverse xs.now) result ≡ spec.node_on word }
{
    match word {
        Word::Axiom => axiom_on(),
        Word::Assume => one_term_on(),
        Word::AllIntro => variable_and_number_on(),
        Word::AllElim => term_and_number_on(),
        Word::ImpIntro => term_and_number_on(),
        Word::ImpElim => two_numbers_on(),
        Word::Beta => one_term_on(),
        Word::Refl => one_term_on(),
        Word::Subst => three_terms_on(),
        Word::Ext => two_terms_on(),
        Word::Iff => two_terms_on(),
        _ => None,
    }
}

/// What is to come behind the first lexeme of the lines, the last part first.
fn lines_on(lexeme: Lexeme) -> Option<&'static [Symbol]>
    ensures { option_map (λ xs. reverse xs.now) result ≡ spec.lines_on lexeme }
{
    match lexeme {
        Lexeme::Identifier { word, .. } => node_on(word),
        Lexeme::Marked { mark: Mark::End } => Some(&[Symbol::Just {
            mark: Mark::SourceEnd,
        }]),
        _ => None,
    }
}

/// What is to come behind the first lexeme of the items and lines, the last part first.
fn items_on(lexeme: Lexeme) -> Option<&'static [Symbol]>
    ensures { option_map (λ xs. reverse xs.now) result ≡ spec.items_on lexeme }
{
    match lexeme {
        Lexeme::Marked {
            mark: Mark::Typedecl,
        } => Some(&[
            Symbol::Items,
            Symbol::Just { mark: Mark::Bar },
            Symbol::Numeral,
            Symbol::Identifier,
        ]),
        Lexeme::Marked { mark: Mark::Consts } => Some(&[
            Symbol::Items,
            Symbol::Just { mark: Mark::Bar },
            Symbol::Typ,
            Symbol::Just {
                mark: Mark::DoubleColon,
            },
            Symbol::Identifier,
        ]),
        Lexeme::Marked {
            mark: Mark::Axiomatization,
        } => Some(&[
            Symbol::Items,
            Symbol::Just { mark: Mark::Bar },
            Symbol::Term,
            Symbol::Just { mark: Mark::Colon },
            Symbol::Identifier,
        ]),
        _ => lines_on(lexeme),
    }
}

/// What is to come in place of the part, behind its first lexeme, the last part first.
pub(crate) fn opened(symbol: Symbol, lexeme: Lexeme) -> Option<&'static [Symbol]>
    ensures { option_map (λ xs. reverse xs.now) result ≡ spec.opened symbol lexeme }
{
    match symbol {
        Symbol::Just { mark } => {
            if is_mark(mark, lexeme) {
                Some(&[])
            } else {
                None
            }
        }
        Symbol::Identifier => identifier_on(lexeme),
        Symbol::Numeral => numeral_on(lexeme),
        Symbol::Typ => typ_on(lexeme),
        Symbol::Arguments => arguments_on(lexeme),
        Symbol::MoreArguments => more_arguments_on(lexeme),
        Symbol::Term => term_on(lexeme),
        Symbol::InParentheses => in_parentheses_on(lexeme),
        Symbol::Variable => variable_on(lexeme),
        Symbol::VariableName => variable_name_on(lexeme),
        Symbol::SchematicName => schematic_name_on(lexeme),
        Symbol::TypBinds => typ_binds_on(lexeme),
        Symbol::TermBinds => term_binds_on(lexeme),
        Symbol::Lines => lines_on(lexeme),
        Symbol::Items => items_on(lexeme),
        Symbol::Record => {
            if is_mark(Mark::Begin, lexeme) {
                Some(&[Symbol::Items])
            } else {
                None
            }
        }
    }
}

/// Whether the part may be left out, and is, as the lexeme doesn't begin it.
pub(crate) fn passes(symbol: Symbol, lexeme: Lexeme) -> bool
    ensures { result ≡ spec.passes symbol lexeme }
{
    match symbol {
        Symbol::Arguments => !is_mark(Mark::OpenParenthesis, lexeme),
        _ => false,
    }
}
