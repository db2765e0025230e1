//! The words that say in which state an end is.

/// The state of a handset's 5G mobility management (TS 24.501 clause 5.1.3.2.1). A registration that is under way tells where
/// it began, since a handset that was registered before stays so until it is rejected.
#[derive(Clone, Copy, Debug, PartialEq, Eq)]
pub enum MmWord {
    /// 5GMM-DEREGISTERED.
    Deregistered,
    /// 5GMM-REGISTERED-INITIATED, from Deregistered.
    RegisteringNew,
    /// 5GMM-REGISTERED-INITIATED, from Registered.
    RegisteringAgain,
    /// 5GMM-REGISTERED.
    Registered,
    /// 5GMM-SERVICE-REQUEST-INITIATED.
    Serving,
    /// 5GMM-DEREGISTERED-INITIATED.
    Deregistering,
}

/// The state of a PDU session at a handset (TS 24.501 clause 6.1.3.2).
#[derive(Clone, Copy, Debug, PartialEq, Eq)]
pub enum SmWord {
    /// PDU SESSION INACTIVE.
    Inactive,
    /// PDU SESSION ACTIVE PENDING.
    ActivePending,
    /// PDU SESSION ACTIVE.
    Active,
    /// PDU SESSION MODIFICATION PENDING.
    ModificationPending,
    /// PDU SESSION INACTIVE PENDING.
    InactivePending,
}

/// The state of a subscriber at the AMF (TS 24.501 clause 5.1.3.2.3).
#[derive(Clone, Copy, Debug, PartialEq, Eq)]
pub enum AmfWord {
    /// 5GMM-DEREGISTERED.
    Deregistered,
    /// 5GMM-COMMON-PROCEDURE-INITIATED, for a registration.
    Common,
    /// 5GMM-REGISTERED.
    Registered,
    /// 5GMM-DEREGISTERED-INITIATED.
    Deregistering,
}

/// The state of a PDU session at the SMF (TS 24.501 clause 6.1.3.3). None is kept of a session that isn't there.
#[derive(Clone, Copy, Debug, PartialEq, Eq)]
pub enum SmfWord {
    /// PDU SESSION ACTIVE.
    Active,
    /// PDU SESSION MODIFICATION PENDING.
    Modifying,
    /// Active, while copies of the last command or of its answer may still be under way.
    Settling,
    /// PDU SESSION INACTIVE PENDING.
    Releasing,
}
