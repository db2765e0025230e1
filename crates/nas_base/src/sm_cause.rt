//! The causes of 5GSM that are used here (TS 24.501 clause 9.11.4.2).

/// 5GSM cause 26: insufficient resources.
pub const INSUFFICIENT_RESOURCES: u8 = 26;

/// 5GSM cause 27: missing or unknown DNN.
pub const MISSING_OR_UNKNOWN_DNN: u8 = 27;

/// 5GSM cause 28: unknown PDU session type.
pub const UNKNOWN_PDU_SESSION_TYPE: u8 = 28;

/// 5GSM cause 36: regular deactivation.
pub const REGULAR_DEACTIVATION: u8 = 36;

/// 5GSM cause 43: invalid PDU session identity.
pub const INVALID_PDU_SESSION_IDENTITY: u8 = 43;

/// 5GSM cause 47: PTI mismatch.
pub const PTI_MISMATCH: u8 = 47;

/// 5GSM cause 50: PDU session type IPv4 only allowed.
pub const PDU_SESSION_TYPE_IPV4_ONLY_ALLOWED: u8 = 50;

/// 5GSM cause 51: PDU session type IPv6 only allowed.
pub const PDU_SESSION_TYPE_IPV6_ONLY_ALLOWED: u8 = 51;

/// 5GSM cause 83: semantic error in the QoS operation.
pub const SEMANTIC_ERROR_IN_THE_QOS_OPERATION: u8 = 83;

/// 5GSM cause 84: syntactical error in the QoS operation.
pub const SYNTACTICAL_ERROR_IN_THE_QOS_OPERATION: u8 = 84;

/// 5GSM cause 96: invalid mandatory information.
pub const INVALID_MANDATORY_INFORMATION: u8 = 96;

/// 5GSM cause 97: message type non existent or not implemented.
pub const MESSAGE_TYPE_NON_EXISTENT_OR_NOT_IMPLEMENTED: u8 = 97;

/// 5GSM cause 98: message type not compatible with the protocol state.
pub const MESSAGE_TYPE_NOT_COMPATIBLE_WITH_THE_PROTOCOL_STATE: u8 = 98;
