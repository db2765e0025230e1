//! What the definitions give for values from outside. These functions do nothing: their contracts are the laws.
ghost use Rattle.key_chain.specs.Published.{PublishedVectors};

/// The definition of HMAC gives what RFC 4231 prints, for a key that is shorter than a block and for one that is longer.
pub fn published_vectors_hold()
    ensures { PublishedVectors }
{}
