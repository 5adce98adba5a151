//! What the definitions mean: laws, each carried by the contract of a function that does nothing.
ghost use Rattle.pure_certify.specs.Laws.{OneFault, FaultyIsNotSound, CertifiedTypExactly, CertifiedExactly, FaultyIsNotCertified, OneTermFault};

/// There is one first fault at most, and none where all parts are sound.
pub fn one_fault()
    ensures one { OneFault }
    ensures faulty { FaultyIsNotSound }
{}

/// A type is certified exactly where its sorts ascend and its parts are sound.
pub fn certified_typ_exactly()
    ensures { CertifiedTypExactly }
{}

/// A term is certified exactly where its sorts ascend, its parts are sound and it has a type.
pub fn certified_exactly()
    ensures { CertifiedExactly }
{}

/// A term with a fault isn't certified, and has one fault at most.
pub fn one_term_fault()
    ensures one { OneTermFault }
    ensures faulty { FaultyIsNotCertified }
{}
