//! The causes of 5GMM that are used here (TS 24.501 clause 9.11.3.2).

/// 5GMM cause 3: illegal UE.
pub const ILLEGAL_UE: u8 = 3;

/// 5GMM cause 9: UE identity cannot be derived by the network.
pub const UE_IDENTITY_CANNOT_BE_DERIVED_BY_THE_NETWORK: u8 = 9;

/// 5GMM cause 10: implicitly deregistered.
pub const IMPLICITLY_DEREGISTERED: u8 = 10;

/// 5GMM cause 20: MAC failure.
pub const MAC_FAILURE: u8 = 20;

/// 5GMM cause 21: synch failure.
pub const SYNCH_FAILURE: u8 = 21;

/// 5GMM cause 23: UE security capabilities mismatch.
pub const UE_SECURITY_CAPABILITIES_MISMATCH: u8 = 23;

/// 5GMM cause 26: non 5G authentication unacceptable.
pub const NON_5G_AUTHENTICATION_UNACCEPTABLE: u8 = 26;

/// 5GMM cause 71: ngKSI already in use.
pub const NGKSI_ALREADY_IN_USE: u8 = 71;

/// 5GMM cause 90: payload was not forwarded.
pub const PAYLOAD_WAS_NOT_FORWARDED: u8 = 90;

/// 5GMM cause 96: invalid mandatory information.
pub const INVALID_MANDATORY_INFORMATION: u8 = 96;

/// 5GMM cause 97: message type non existent or not implemented.
pub const MESSAGE_TYPE_NON_EXISTENT_OR_NOT_IMPLEMENTED: u8 = 97;

/// 5GMM cause 98: message type not compatible with the protocol state.
pub const MESSAGE_TYPE_NOT_COMPATIBLE_WITH_THE_PROTOCOL_STATE: u8 = 98;

/// 5GMM cause 111: protocol error unspecified.
pub const PROTOCOL_ERROR_UNSPECIFIED: u8 = 111;
