//! What the network's QoS operations make of a session's rules.
ghost use Rattle.ue_sm.specs.Outcome.{GivesRules};
ghost use Rattle.ue_sm.specs.Rules.{ruled};

use nas_base::sm_cause::{
    SEMANTIC_ERROR_IN_THE_QOS_OPERATION, SYNTACTICAL_ERROR_IN_THE_QOS_OPERATION,
};
use nas_qos::{ApplyRefusal, OpsRefusal, Rules, apply, read_ops};
use std::alloc::Global;

/// Why operations were not applied.
#[derive(Clone, Copy)]
pub enum Unruled {
    /// They are refused with this cause.
    Refused(u8),
    /// There was no memory left.
    Memory,
}

/// The rules behind the operations that the octets are.
pub fn ruled(alloc: Global, octets: &[u8], rules: &Rules) -> Result<Rules, Unruled>
    ensures { GivesRules result (ruled octets.now rules.now) }
{
    let ops = match read_ops(alloc, octets) {
        Ok(ops) => ops,
        Err(OpsRefusal::Syntax { at: _ }) => {
            return Err(Unruled::Refused(SYNTACTICAL_ERROR_IN_THE_QOS_OPERATION));
        }
        Err(OpsRefusal::Memory) => return Err(Unruled::Memory),
    };
    match apply(alloc, rules, &ops) {
        Ok(rules) => Ok(rules),
        Err(ApplyRefusal::Qos(_)) => Err(Unruled::Refused(SEMANTIC_ERROR_IN_THE_QOS_OPERATION)),
        Err(ApplyRefusal::Memory) => Err(Unruled::Memory),
    }
}
