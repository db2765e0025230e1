//! The modification of PDU sessions.
ghost use Rattle.std.specs.Prelude.{◌≡◌, ◌≤◌, length, IfOk, OnOk, Ok};
ghost use Rattle.nas_qos.specs.Operations.{ops_octets};
ghost use Rattle.smf_core.specs.Drafts.{by};
ghost use Rattle.smf_core.specs.Modification.{ambr_after, asked_by, changes_nothing, is_last, modification, modification_asked, modification_command, modification_rejected, modification_requested, modification_requested_in, modifying, requested_in_active};
ghost use Rattle.smf_core.specs.Sameness.{are_same_rules, is_same_ambr, is_unchanged};
ghost use Rattle.smf_core.specs.Work.{frame};

use crate::draft::Work;
use crate::held::{Command, Held, LastCommand, Modification, Phase};
use crate::kept_message::KeptMessage;
use crate::release::is_no_transaction;
use nas_base::sm_cause::{
    INSUFFICIENT_RESOURCES, INVALID_PDU_SESSION_IDENTITY, SEMANTIC_ERROR_IN_THE_QOS_OPERATION,
    SYNTACTICAL_ERROR_IN_THE_QOS_OPERATION,
};
use nas_base::{Memory, Octets, Psi, Writer};
use nas_elements::Ambr;
use nas_qos::{ApplyRefusal, OpsRefusal, RuleOps, Rules, apply, read_ops, write_ops};
use nas_timers::TimerId;
use sm_messages::{
    PduSessionModificationCommand, PduSessionModificationReject, Session, Sm, SmFrame,
};
use std::alloc::Global;

// What operations are written as.
fn spelled_ops(alloc: Global, ops: &RuleOps) -> Result<Octets, Memory>
    requires { length (ops_octets ops.now) ≤ 2048 }
    ensures { IfOk result (λ octets. octets ≡ ops_octets ops.now) }
{
    let mut out = Writer::new();
    let _ = write_ops(ops, &mut out);
    match Octets::copy(alloc, out.octets()) {
        Ok(octets) => Ok(octets),
        Err(_) => Err(Memory),
    }
}

// PDU SESSION MODIFICATION COMMAND, spelled.
fn spelled_command(
    alloc: Global,
    psi: Psi,
    pti: u8,
    ambr: Option<Ambr>,
    ops: &RuleOps,
) -> Result<KeptMessage, Memory>
    ensures { IfOk result (λ message. message ≡ frame psi pti (modification_command ambr ops.now)) }
{
    let _ops = ops.as_slice();
    let rules = spelled_ops(alloc, ops)?;
    let frame = SmFrame {
        psi: psi.0,
        pti,
        body: Sm::PduSessionModificationCommand(PduSessionModificationCommand {
            cause: None,
            ambr,
            rules: Some(rules),
        }),
    };
    KeptMessage::of(alloc, &frame)
}

// The session AMBR that a session has after a modification.
#[tactic(auto, unfolding(nas_base::specs::Branches::per))]
fn ambr_after(ambr: Option<Ambr>, old: Ambr) -> Ambr
    ensures { result ≡ ambr_after ambr old }
{
    match ambr {
        Some(new) => new,
        None => old,
    }
}

/// A modification of a session whose rules become these: its command, not sent yet, and what the session becomes by it.
///
/// # Errors
///
/// `Memory`.
pub fn modification(
    alloc: Global,
    psi: Psi,
    pti: u8,
    ambr: Option<Ambr>,
    ops: &RuleOps,
    rules: Rules,
    session: &Session,
) -> Result<Modification, Memory>
    ensures { IfOk result (λ m. m ≡ modification psi pti ambr ops.now rules session.now) }
{
    let command = Command {
        message: spelled_command(alloc, psi, pti, ambr, ops)?,
        timer: TimerId::T3591(psi),
        sendings: 1,
    };
    Ok(Modification {
        command,
        rules,
        ambr: ambr_after(ambr, session.ambr),
    })
}

// Whether these are the same bit rates.
fn is_same_ambr(a: &Ambr, b: &Ambr) -> bool
    ensures { result ≡ is_same_ambr a.now b.now }
{
    a.down_unit == b.down_unit && a.down == b.down && a.up_unit == b.up_unit && a.up == b.up
}

// Whether these leave a session as it is.
#[tactic(auto, unfolding(crate::specs::Sameness::is_unchanged))]
fn is_unchanged(session: &Session, rules: &Rules, ambr: &Ambr) -> bool
    ensures { result ≡ is_unchanged session.now rules.now ambr.now }
{
    are_same_rules(rules, &session.rules) && is_same_ambr(ambr, &session.ambr)
}

// Whether these are the same rules.
fn are_same_rules(rules: &Rules, others: &Rules) -> bool
    ensures { result ≡ are_same_rules rules.now others.now }
{
    let _rules = rules.as_slice();
    let _others = others.as_slice();
    rules.equals(others)
}

// Whether a command is the session's last one once more.
#[tactic(auto, unfolding(nas_base::specs::Branches::per))]
fn is_last(message: &KeptMessage, last: &Option<LastCommand>) -> bool
    ensures { result ≡ is_last message.now last.now }
{
    match last {
        Some(last) => message.equals(&last.message),
        None => false,
    }
}

/// Whether a modification isn't issued: it leaves the session as it is, or its
/// command is the session's last one once more.
pub fn changes_nothing(
    modification: &Modification,
    last: &Option<LastCommand>,
    session: &Session,
) -> bool
    ensures { result ≡ changes_nothing modification.now last.now session.now }
{
    is_unchanged(session, &modification.rules, &modification.ambr)
        || is_last(&modification.command.message, last)
}

impl<'a> Work<'a> {
    /// A modification's command is given out.
    #[tactic(auto, unfolding(crate::specs::Modification::modifying))]
    pub fn modifying(
        &mut self,
        modification: Modification,
        psi: Psi,
        session: Session,
    ) -> Result<(), Memory>
        ensures { OnOk result (self.new ≡ by (modifying modification psi session) self.old) }
    {
        let command = &modification.command;
        let message = command.message.copy(self.alloc())?;
        let timer = command.timer;
        let phase = Phase::Modifying(modification);
        self.give_out(message, timer, psi, Held { session, phase })
    }

    // PDU SESSION MODIFICATION REJECT.
    fn modification_rejected(&mut self, psi: Psi, pti: u8, cause: u8) -> Result<(), Memory>
        ensures { OnOk result (self.new ≡ by (modification_rejected psi pti cause) self.old) }
    {
        self.say(
            psi,
            pti,
            Sm::PduSessionModificationReject(PduSessionModificationReject { cause }),
        )
    }

    /// PDU SESSION MODIFICATION REQUEST.
    #[tactic(auto, unfolding(crate::specs::Modification::modification_requested, nas_base::specs::Branches::per, nas_base::specs::Branches::chosen))]
    pub fn modification_requested(
        &mut self,
        rules: &Option<Octets>,
        psi: Psi,
        pti: u8,
    ) -> Result<(), Memory>
        ensures { OnOk result (self.new ≡ by (modification_requested rules.now psi pti) self.old) }
    {
        if is_no_transaction(pti) {
            return Ok(());
        }
        let Some(held) = self.held(psi) else {
            return self.modification_rejected(psi, pti, INVALID_PDU_SESSION_IDENTITY);
        };
        let Held { session, phase } = held.copy(self.alloc())?;
        self.modification_requested_in(phase, rules, psi, pti, session)
    }

    // The same of a session.
    fn modification_requested_in(
        &mut self,
        phase: Phase,
        rules: &Option<Octets>,
        psi: Psi,
        pti: u8,
        session: Session,
    ) -> Result<(), Memory>
        ensures { OnOk result (self.new ≡ by (modification_requested_in phase rules.now psi pti session) self.old) }
    {
        match phase {
            Phase::Active(last) => self.requested_in_active(rules, &last, psi, pti, session),
            Phase::Settling(_) => self.modification_rejected(psi, pti, INSUFFICIENT_RESOURCES),
            Phase::Modifying(_) | Phase::Releasing(_) => Ok(()),
        }
    }

    // The same of a session in Active.
    #[tactic(auto, unfolding(crate::specs::Modification::requested_in_active, nas_base::specs::Branches::per))]
    fn requested_in_active(
        &mut self,
        rules: &Option<Octets>,
        last: &Option<LastCommand>,
        psi: Psi,
        pti: u8,
        session: Session,
    ) -> Result<(), Memory>
        ensures { OnOk result (self.new ≡ by (requested_in_active rules.now last.now psi pti session) self.old) }
    {
        let Some(octets) = rules else {
            return self.modification_rejected(psi, pti, SEMANTIC_ERROR_IN_THE_QOS_OPERATION);
        };
        match read_ops(self.alloc(), octets.as_slice()) {
            Ok(ops) => self.asked_by(&ops, last, psi, pti, session),
            Err(OpsRefusal::Syntax { at: _ }) => self.modification_rejected(
                psi,
                pti,
                SYNTACTICAL_ERROR_IN_THE_QOS_OPERATION,
            ),
            Err(OpsRefusal::Memory) => Err(Memory),
        }
    }

    // The same by the operations that it asks for.
    fn asked_by(
        &mut self,
        ops: &RuleOps,
        last: &Option<LastCommand>,
        psi: Psi,
        pti: u8,
        session: Session,
    ) -> Result<(), Memory>
        ensures { OnOk result (self.new ≡ by (asked_by (Ok ops.now) last.now psi pti session) self.old) }
    {
        match apply(self.alloc(), &session.rules, ops) {
            Ok(rules) => {
                let m = modification(self.alloc(), psi, pti, None, ops, rules, &session)?;
                self.modification_asked(m, last, psi, pti, session)
            }
            Err(ApplyRefusal::Qos(_)) => self.modification_rejected(
                psi,
                pti,
                SEMANTIC_ERROR_IN_THE_QOS_OPERATION,
            ),
            Err(ApplyRefusal::Memory) => Err(Memory),
        }
    }

    // The same by the modification that it comes to.
    #[tactic(auto, unfolding(nas_base::specs::Branches::chosen))]
    fn modification_asked(
        &mut self,
        modification: Modification,
        last: &Option<LastCommand>,
        psi: Psi,
        pti: u8,
        session: Session,
    ) -> Result<(), Memory>
        ensures { OnOk result (self.new ≡ by (modification_asked modification last.now psi pti session) self.old) }
    {
        if changes_nothing(&modification, last, &session) {
            return self.modification_rejected(psi, pti, SEMANTIC_ERROR_IN_THE_QOS_OPERATION);
        }
        self.modifying(modification, psi, session)
    }
}
