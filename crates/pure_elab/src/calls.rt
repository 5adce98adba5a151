//! The calls that elaborate.
ghost use Rattle.std.specs.Prelude.{◌≡◌, [], length, IfOk, IfErr, OnOk};
ghost use Rattle.pure_text.specs.Lists.{Each};
ghost use Rattle.pure_definitions.specs.Types.Typ as tree;
ghost use Rattle.pure_definitions.specs.Terms.Term as term_tree;
ghost use Rattle.pure_definitions.specs.Terms.Subst.{inst_typ};
ghost use Rattle.pure_definitions.specs.Declarations.Certified.{IsCertifiedTyp};
ghost use Rattle.pure_logic.specs.Content.{Content, IsCertifiedOf, IsProposition};
ghost use Rattle.pure_tunify.specs.Unifiers.{IsOldPair};
ghost use Rattle.pure_tunify.specs.Settings.{composed};
ghost use Rattle.pure_tunify.specs.Answers.{AreSettled, IsDecided};
ghost use Rattle.pure_tunify.specs.Working.{HasImagesWithin};
ghost use Rattle.pure_elab.specs.Sound.{IsSoundVocabulary};
ghost use Rattle.pure_elab.specs.Faults.{term_faults};
ghost use Rattle.pure_elab.specs.Numbered.{with_fixed};
ghost use Rattle.pure_elab.specs.Drafts as drafts;
ghost use Rattle.pure_elab.specs.Table.{sort_among};
ghost use Rattle.pure_elab.specs.Typings.{fresh_index};
ghost use Rattle.pure_elab.specs.Answers as answers;
ghost use Rattle.pure_elab.specs.Answers.{IsFixedTyp, IsDraftOf, IsTyped, IsTypingFault, IsElaborated, IsElabFault, IsElaboratedTyp, IsElabTypFault};
ghost use Rattle.pure_elab.specs.Laws.{IsMostGeneralTerm};
ghost use Rattle.pure_elab.specs.Finished.{IsLimited, IsSolution, IsFinished, IsNameRefusal, NamesAPlace, IsFaultFrom, HasConstraintsOf};

use crate::draft::{Constraints, constrain_to, draft, raw_place};
use crate::fault::{ElabFault, FaultAt, NameFault};
use crate::faults::{with_term, with_typ};
use crate::language::Language;
use crate::numbered::number_term;
use crate::numbers::{Numbering, no_numbers};
use crate::scope::Scope;
use crate::settled::settled;
use crate::sorts::{VariableSort, sorts_of_term, sorts_of_typ};
use crate::written::written_typ;
use pure_read::{Raw, RawNode, RawTyp};
use pure_term::Term;
use pure_tunify::{Equation, Settings, TypFault, pairs_of, settle, settle_given, written_out};
use pure_typ::{Args, Name, Typ, TypNode, whole_size_of_typ};
use std::alloc::{AllocError, Global};
use std::sync::Arc;

/// The index of the fresh variables of unification.
const FRESH_INDEX: u32 = 2;

/// For how many constraints there is room at first.
const FIRST_ROOM: usize = 8;

/// More nodes than an image has that is made anew wherever it stands.
const MANY: u64 = 64;

/// A text with so many nodes isn't short.
const SHORT: u32 = 200;

/// The type of propositions. It takes no memory.
fn prop() -> Typ
    ensures { result ≡ tree.prop }
{
    Typ {
        node: TypNode::Con {
            name: Name::PROP,
            args: Args::Nullary,
        },
    }
}

/// The fault of a name, as one of elaboration.
fn fault_of(found: FaultAt) -> ElabFault
    ensures { result ≡ answers.fault_of found }
{
    let at = found.at;
    match found.fault {
        NameFault::UnknownName => ElabFault::UnknownName { at },
        NameFault::UnknownSort => ElabFault::UnknownSort { at },
        NameFault::WrongCount => ElabFault::WrongCount { at },
        NameFault::Schematic => ElabFault::Schematic { at },
    }
}

/// Refuses a term with a fault of names.
fn check_names<L: Language>(alloc: Global, language: &L, raw: &Raw) -> Result<(), ElabFault>
    ensures ok { OnOk result (term_faults (L.vocabulary language.now) [] raw.now ≡ []) }
    ensures fault { IfErr result (λ f. IsNameRefusal (term_faults (L.vocabulary language.now) [] raw.now) f) }
{
    let typ = prop();
    let scope = Scope::Empty;
    let found = with_term(language, &typ, &scope, raw, None)?;
    match found {
        None => Ok(()),
        Some(found) => Err(fault_of(found)),
    }
}

/// Makes the term's schematic type variables fixed.
fn fixed<L: Language>(alloc: Global, language: &L, term: &Arc<Term>) -> Result<Term, AllocError>
    ensures { IfOk result (λ t. t ≡ with_fixed (L.vocabulary language.now).fresh term.now.value) }
{
    let mut numbers = no_numbers(alloc);
    let first = language.first_fresh();
    let fixed = number_term(alloc, Numbering::Fixed, first, &mut numbers, term)?;
    let copy = fixed.copy(alloc)?;
    Ok(copy)
}

/// Whether an image, as it was set, has many nodes.
fn has_large_image(settings: &Settings) -> bool {
    for bind in settings.binds() {
        if whole_size_of_typ(&bind.image) > MANY {
            return true;
        }
    }
    false
}

/// The draft's term under the settings; none exactly where it isn't within the limits. Where an image is large, the images are
/// written out first, so that each is made once and is one part wherever it stands. The draft is let go of.
fn put_in(
    alloc: Global,
    term: Arc<Term>,
    settings: &Settings,
) -> Result<Option<Arc<Term>>, AllocError>
    requires { HasImagesWithin settings.now.sets }
    ensures { IfOk result (IsLimited (inst_typ (composed settings.now.sets) term.value)) }
{
    if has_large_image(settings) {
        let full = written_out(settings, alloc)?;
        let found = settled(&full, alloc, &term)?;
        return Ok(found);
    }
    let found = settled(settings, alloc, &term)?;
    Ok(found)
}

/// The term with the unknowns that are left made fixed, where it is within the limits.
fn finished<L: Language>(
    alloc: Global,
    language: &L,
    found: Option<Arc<Term>>,
) -> Result<Term, ElabFault>
    ensures { (t : term_tree.Term) → IsLimited t found → IsFinished (L.vocabulary language.now) t result }
{
    match found {
        None => Err(ElabFault::Big),
        Some(term) => {
            let term = fixed(alloc, language, &term)?;
            Ok(term)
        }
    }
}

/// Why the constraints have no typing.
fn typing_fault(places: &[u32], fault: TypFault) -> ElabFault
    requires { NamesAPlace places.now fault }
    ensures { IsFaultFrom places.now fault result }
{
    match fault {
        TypFault::NoTyping { index } => ElabFault::IllTyped {
            at: places[index as usize],
        },
        TypFault::Big { .. } => ElabFault::Big,
        TypFault::Memory => ElabFault::Memory,
    }
}

/// The unifier of the pairs, which are let go of.
fn settings_of<L: Language>(
    alloc: Global,
    language: &L,
    pairs: Vec<Equation>,
) -> Result<Settings, TypFault>
    requires { Each (IsOldPair fresh_index 0) pairs.items }
    ensures ok { IfOk result (AreSettled (L.vocabulary language.now).algebra fresh_index 0 pairs.items) }
    ensures fault { IfErr result (IsDecided (L.vocabulary language.now).algebra fresh_index 0 pairs.items) }
{
    let pairs = pairs_of(alloc, pairs)?;
    let all = pairs.as_slice();
    let settings = settle(alloc, language.order(), all, FRESH_INDEX, 0)?;
    Ok(settings)
}

/// The draft's term under the unifier of the pairs; none where it isn't within the limits. Draft, pairs and unifier are let go of.
fn solved<L: Language>(
    alloc: Global,
    language: &L,
    term: Arc<Term>,
    pairs: Vec<Equation>,
) -> Result<Option<Arc<Term>>, TypFault>
    requires { Each (IsOldPair fresh_index 0) pairs.items }
    ensures ok { IfOk result (IsSolution (L.vocabulary language.now).algebra pairs.items term.value) }
    ensures fault { IfErr result (IsDecided (L.vocabulary language.now).algebra fresh_index 0 pairs.items) }
{
    let settings = settings_of(alloc, language, pairs)?;
    let found = put_in(alloc, term, &settings)?;
    Ok(found)
}

/// The term under the unifier of the constraints.
fn typed<L: Language>(
    alloc: Global,
    language: &L,
    term: Arc<Term>,
    constraints: Constraints,
) -> Result<Term, ElabFault>
    requires old { Each (IsOldPair fresh_index 0) constraints.pairs.items }
    requires placed { length constraints.pairs.items ≡ length constraints.places.items }
    ensures ok { IfOk result (λ t. (d : drafts.Draft) → HasConstraintsOf d term.value constraints → IsTyped (L.vocabulary language.now) d t) }
    ensures fault { IfErr result (λ f. (d : drafts.Draft) → HasConstraintsOf d term.value constraints → IsTypingFault (L.vocabulary language.now) d f) }
{
    let Constraints { pairs, places, .. } = constraints;
    match solved(alloc, language, term, pairs) {
        Err(fault) => Err(typing_fault(places.as_slice(), fault)),
        Ok(found) => finished(alloc, language, found),
    }
}

/// The draft of a whole term that has to have this type, with these sorts of its type variables.
fn whole_draft<L: Language>(
    alloc: Global,
    language: &L,
    sorts: &[VariableSort],
    raw: &Raw,
    typ: Typ,
) -> Result<(Arc<Term>, Constraints), AllocError>
    ensures draft { IfOk result (λ found. HasConstraintsOf (drafts.whole_draft (L.vocabulary language.now) (sort_among sorts.now) raw.now typ) found.0.value found.1) }
    ensures sound { OnOk result (term_faults (L.vocabulary language.now) [] raw.now ≡ []) }
{
    let mut constraints = Constraints {
        next: 0,
        pairs: Vec::with_capacity(alloc, FIRST_ROOM)?,
        places: Vec::with_capacity(alloc, FIRST_ROOM)?,
        numbers: no_numbers(alloc),
    };
    let scope = Scope::Empty;
    let drafted = draft(alloc, language, sorts, &mut constraints, &scope, raw)?;
    let place = raw_place(raw);
    constrain_to(alloc, &mut constraints, place, &drafted.typ, typ)?;
    Ok((drafted.term, constraints))
}

/// The draft of a text that has to have this type. Where a name is at fault there is none.
fn text_draft<L: Language>(
    alloc: Global,
    language: &L,
    raw: &Raw,
    typ: Typ,
) -> Result<(Arc<Term>, Constraints), AllocError>
    ensures { IfOk result (λ found. (d : drafts.Draft) × IsDraftOf (L.vocabulary language.now) raw.now typ d × HasConstraintsOf d found.0.value found.1) }
{
    let sorts = sorts_of_term(alloc, language, raw)?;
    let found = whole_draft(alloc, language, sorts.as_slice(), raw, typ)?;
    Ok(found)
}

/// The same, where one pass over the pairs finds the unifier.
fn solved_soon<L: Language>(
    alloc: Global,
    language: &L,
    term: Arc<Term>,
    pairs: Vec<Equation>,
) -> Result<Option<Arc<Term>>, AllocError>
    requires { Each (IsOldPair fresh_index 0) pairs.items }
    ensures { IfOk result (IsSolution (L.vocabulary language.now).algebra pairs.items term.value) }
{
    let settings = settle_given(alloc, language.order(), pairs, FRESH_INDEX, 0)?;
    let found = put_in(alloc, term, &settings)?;
    Ok(found)
}

/// The term under the unifier of the constraints, where one pass over them finds it.
fn typed_soon<L: Language>(
    alloc: Global,
    language: &L,
    term: Arc<Term>,
    constraints: Constraints,
) -> Result<Term, ElabFault>
    requires { Each (IsOldPair fresh_index 0) constraints.pairs.items }
    ensures { IfOk result (λ t. (d : drafts.Draft) → HasConstraintsOf d term.value constraints → IsTyped (L.vocabulary language.now) d t) }
{
    let Constraints { pairs, .. } = constraints;
    let found = solved_soon(alloc, language, term, pairs)?;
    finished(alloc, language, found)
}

/// The term that the text says at this type, where one pass over its draft finds it.
fn elaborate_soon<L: Language>(
    alloc: Global,
    language: &L,
    raw: &Raw,
    typ: Typ,
) -> Result<Term, ElabFault>
    requires { IsFixedTyp typ }
    ensures { IfOk result (IsElaborated (L.vocabulary language.now) raw.now typ) }
{
    let found = text_draft(alloc, language, raw, typ)?;
    typed_soon(alloc, language, found.0, found.1)
}

/// The term that the text says at this type, or its fault. The pairs of its constraints are kept, so that a reason is found.
fn elaborate_again<L: Language>(
    alloc: Global,
    language: &L,
    raw: &Raw,
    typ: Typ,
) -> Result<Term, ElabFault>
    requires { IsFixedTyp typ }
    ensures ok { IfOk result (IsElaborated (L.vocabulary language.now) raw.now typ) }
    ensures fault { IfErr result (IsElabFault (L.vocabulary language.now) raw.now typ) }
{
    match text_draft(alloc, language, raw, typ) {
        Ok(found) => typed(alloc, language, found.0, found.1),
        Err(_) => {
            check_names(alloc, language, raw)?;
            Err(ElabFault::Memory)
        }
    }
}

/// What is left of a count when the nodes of a text are counted.
fn left_behind(raw: &Raw, count: u32) -> u32 {
    let left = count.saturating_sub(1);
    if left == 0 {
        return 0;
    }
    match &raw.node {
        RawNode::Leaf { .. } => left,
        RawNode::Abs { body, .. } => left_behind(body, left),
        RawNode::App { fun, arg, .. } => left_behind(arg, left_behind(fun, left)),
        RawNode::Typed { term, .. } => left_behind(term, left),
    }
}

/// The term that the text says at this type, or its fault. Most texts are short and have none, and then no constraint is
/// copied. A long one is elaborated once alone: what it costs to find its fault may be much.
fn elaborate_to<L: Language>(
    alloc: Global,
    language: &L,
    raw: &Raw,
    typ: Typ,
) -> Result<Term, ElabFault>
    requires { IsFixedTyp typ }
    ensures ok { IfOk result (IsElaborated (L.vocabulary language.now) raw.now typ) }
    ensures fault { IfErr result (IsElabFault (L.vocabulary language.now) raw.now typ) }
{
    if left_behind(raw, SHORT) == 0 {
        return elaborate_again(alloc, language, raw, typ);
    }
    let copy = typ.copy(alloc)?;
    match elaborate_soon(alloc, language, raw, copy) {
        Ok(term) => Ok(term),
        Err(_) => elaborate_again(alloc, language, raw, typ),
    }
}

/// The proposition that the text says, under a most general typing; or the first fault of its names, before all typing, or
/// the first constraint without a common solution with those before it (Isabelle/Isar Implementation manual, section 2.2, on
/// type reconstruction).
pub fn elaborate<L: Language>(alloc: Global, language: &L, raw: &Raw) -> Result<Term, ElabFault>
    ensures ok { IfOk result (IsElaborated (L.vocabulary language.now) raw.now tree.prop) }
    ensures fault { IfErr result (IsElabFault (L.vocabulary language.now) raw.now tree.prop) }
    ensures general { IfOk result (IsMostGeneralTerm (L.vocabulary language.now) raw.now tree.prop) }
    ensures certified { IfOk result (λ t. (Q : Content) → IsSoundVocabulary Q.declarations (L.vocabulary language.now) → IsProposition Q t) }
{
    let typ = prop();
    elaborate_to(alloc, language, raw, typ)
}

/// The term that the text says at this type, under a most general typing; or its fault.
pub fn elaborate_at<L: Language>(
    alloc: Global,
    language: &L,
    raw: &Raw,
    typ: &Typ,
) -> Result<Term, ElabFault>
    requires { IsFixedTyp typ.now }
    ensures ok { IfOk result (IsElaborated (L.vocabulary language.now) raw.now typ.now) }
    ensures fault { IfErr result (IsElabFault (L.vocabulary language.now) raw.now typ.now) }
    ensures general { IfOk result (IsMostGeneralTerm (L.vocabulary language.now) raw.now typ.now) }
    ensures certified { IfOk result (λ t. (Q : Content) → IsSoundVocabulary Q.declarations (L.vocabulary language.now) → IsCertifiedTyp Q.declarations typ.now → IsCertifiedOf Q t typ.now) }
{
    let copy = typ.copy(alloc)?;
    elaborate_to(alloc, language, raw, copy)
}

/// The type that the text says; or the first fault of its names.
pub fn elaborate_typ<L: Language>(
    alloc: Global,
    language: &L,
    raw: &RawTyp,
) -> Result<Typ, ElabFault>
    ensures ok { IfOk result (IsElaboratedTyp (L.vocabulary language.now) raw.now) }
    ensures fault { IfErr result (IsElabTypFault (L.vocabulary language.now) raw.now) }
    ensures certified { IfOk result (λ t. (Q : Content) → IsSoundVocabulary Q.declarations (L.vocabulary language.now) → IsCertifiedTyp Q.declarations t) }
{
    match with_typ(language, raw, None) {
        Some(found) => Err(fault_of(found)),
        None => {
            let sorts = sorts_of_typ(alloc, language, raw)?;
            let typ = written_typ(alloc, language, sorts.as_slice(), raw)?;
            Ok(typ)
        }
    }
}
