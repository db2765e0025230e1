//! The information element identifiers of the messages that are read and written here (TS 24.501 clauses 8.2 and 8.3).

/// PDU session ID.
pub const PDU_SESSION_ID: u8 = 0x12;

/// Integrity protection maximum data rate.
pub const INTEGRITY_PROTECTION_MAXIMUM_DATA_RATE: u8 = 0x13;

/// Allowed NSSAI.
pub const ALLOWED_NSSAI: u8 = 0x15;

/// Authentication parameter AUTN.
pub const AUTHENTICATION_PARAMETER_AUTN: u8 = 0x20;

/// Authentication parameter RAND.
pub const AUTHENTICATION_PARAMETER_RAND: u8 = 0x21;

/// S-NSSAI.
pub const S_NSSAI: u8 = 0x22;

/// DNN.
pub const DNN: u8 = 0x25;

/// PDU address.
pub const PDU_ADDRESS: u8 = 0x29;

/// Session AMBR.
pub const SESSION_AMBR: u8 = 0x2a;

/// Authentication response parameter, which is RES*.
pub const AUTHENTICATION_RESPONSE_PARAMETER: u8 = 0x2d;

/// UE security capability.
pub const UE_SECURITY_CAPABILITY: u8 = 0x2e;

/// Authentication failure parameter, which is AUTS.
pub const AUTHENTICATION_FAILURE_PARAMETER: u8 = 0x30;

/// Additional 5G security information.
pub const ADDITIONAL_5G_SECURITY_INFORMATION: u8 = 0x36;

/// Local time zone.
pub const LOCAL_TIME_ZONE: u8 = 0x46;

/// Universal time and local time zone.
pub const UNIVERSAL_TIME_AND_LOCAL_TIME_ZONE: u8 = 0x47;

/// PDU session status.
pub const PDU_SESSION_STATUS: u8 = 0x50;

/// Last visited registered TAI.
pub const LAST_VISITED_REGISTERED_TAI: u8 = 0x52;

/// TAI list.
pub const TAI_LIST: u8 = 0x54;

/// Maximum number of supported packet filters.
pub const MAXIMUM_NUMBER_OF_SUPPORTED_PACKET_FILTERS: u8 = 0x55;

/// RQ timer value.
pub const RQ_TIMER_VALUE: u8 = 0x56;

/// Selected EPS NAS security algorithms.
pub const SELECTED_EPS_NAS_SECURITY_ALGORITHMS: u8 = 0x57;

/// 5GMM cause.
pub const CAUSE_5GMM: u8 = 0x58;

/// 5GSM cause.
pub const CAUSE_5GSM: u8 = 0x59;

/// Old PDU session ID, which has the identifier of the 5GSM cause.
pub const OLD_PDU_SESSION_ID: u8 = 0x59;

/// T3512 value.
pub const T3512_VALUE: u8 = 0x5e;

/// NAS message container.
pub const NAS_MESSAGE_CONTAINER: u8 = 0x71;

/// 5G-GUTI.
pub const GUTI_5G: u8 = 0x77;

/// Authorized QoS flow descriptions.
pub const AUTHORIZED_QOS_FLOW_DESCRIPTIONS: u8 = 0x79;

/// Requested QoS rules, and authorized ones.
pub const QOS_RULES: u8 = 0x7a;

/// Request type, in the high half of the octet.
pub const REQUEST_TYPE: u8 = 0x80;

/// PDU session type, in the high half of the octet.
pub const PDU_SESSION_TYPE: u8 = 0x90;

/// SSC mode, in the high half of the octet.
pub const SSC_MODE: u8 = 0xa0;

/// Configuration update indication, in the high half of the octet.
pub const CONFIGURATION_UPDATE_INDICATION: u8 = 0xd0;
