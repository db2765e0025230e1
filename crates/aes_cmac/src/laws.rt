//! What the definitions give, for values from outside and for all octets. These functions do nothing: their contracts are the
//! laws.
ghost use Rattle.aes_cmac.specs.Published.{PublishedVectors};
ghost use Rattle.aes_cmac.specs.Substitution.{SubstitutionHasInverse};

/// The definitions give what FIPS 197, SP 800-38A and RFC 4493 print: a last round key, two blocks, a text in the counter mode,
/// the subkeys, and the MACs of messages of 0, 16, 40 and 64 octets.
pub fn published_vectors_hold()
    ensures { PublishedVectors }
{}

/// The table of the substitution is the affine map of the field's inverse on all 256 octets, and the substitution can be undone.
pub fn substitution_has_inverse()
    ensures { SubstitutionHasInverse }
{}
