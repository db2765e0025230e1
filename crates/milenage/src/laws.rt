//! What both ends know of each other, for all keys and challenges, and what the definitions give for values from outside. These
//! functions do nothing: their contracts are the laws.
ghost use Rattle.std.specs.Prelude.{◌<◌, ◌^◌};
ghost use Rattle.milenage.specs.HomeLaws.{AutsIsRight, CallsOnlyRaise, ChallengesRise};
ghost use Rattle.milenage.specs.Laws.{AutsOpens, VectorIsTaken};
ghost use Rattle.milenage.specs.Published.{PublishedVectors};

/// The definitions give what TS 35.208 prints for its test set 1: OPc, MAC-A, MAC-S, RES, CK, IK, and AK of f5 and of f5*.
pub fn published_vectors_hold()
    ensures { PublishedVectors }
{}

/// A handset takes the vector of its own keys exactly where it is one for 5G and its sequence number is greater than the
/// handset's, and then with the same RES, CK, IK and AK.
pub fn vector_is_taken(
    k: &[u8; 16],
    opc: &[u8; 16],
    rand: &[u8; 16],
    sqn: u64,
    field: &[u8; 2],
    sqn_ms: u64,
)
    requires { sqn < 2 ^ 48 }
    ensures { VectorIsTaken k.now opc.now rand.now sqn field.now sqn_ms }
{}

/// The AUTS of an answer tells the home network of the same keys the handset's sequence number.
pub fn auts_opens(k: &[u8; 16], opc: &[u8; 16], rand: &[u8; 16], autn: &[u8; 16], sqn_ms: u64)
    requires { sqn_ms < 2 ^ 48 }
    ensures { AutsOpens k.now opc.now rand.now autn.now sqn_ms }
{}

/// No call of a home network lowers an SQN_HE, and none changes anything else or another subscriber.
pub fn calls_only_raise()
    ensures { CallsOnlyRaise }
{}

/// A challenge that is given for a subscriber has a greater sequence number than SQN_HE, and so than each that was given before.
pub fn challenges_rise()
    ensures { ChallengesRise }
{}

/// An AUTS that a handset of the subscriber's keys answers is right, and the next challenge is fresh for that handset, unless no
/// sequence number is left.
pub fn auts_is_right()
    ensures { AutsIsRight }
{}
