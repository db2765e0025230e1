//! The commands of the network.
ghost use Rattle.std.specs.Prelude.{◌≡◌, Ok, Err};
ghost use Rattle.std.specs.Str.{bytes_eq};
ghost use Rattle.ue_sm.specs.NetworkCommands.{again, answer_with, applied_to, is_same, is_same_ambr, is_same_cause, is_same_if_there, last_answered, last_of, message_of, mismatched, modification_commanded, release_commanded, rules_by, same_answer};
ghost use Rattle.ue_sm.specs.Outcome.{GivesRules, Works};

use crate::rules::{Unruled, ruled};
use crate::work::Work;
use crate::{Answer, Answered, Cell};
use nas_base::sm_cause::PTI_MISMATCH;
use nas_base::{Memory, Octets, Psi};
use nas_elements::Ambr;
use nas_qos::Rules;
use sm_messages::{
    FiveGsmStatus, PduSessionModificationCommand, PduSessionModificationCommandReject,
    PduSessionReleaseComplete, Session, Sm,
};
use std::alloc::Global;

// What a command is answered with.
fn message_of(answer: Answer) -> Sm
    ensures { result ≡ message_of answer }
{
    match answer {
        Answer::Complete => Sm::PduSessionModificationComplete,
        Answer::Refused(cause) => {
            Sm::PduSessionModificationCommandReject(PduSessionModificationCommandReject { cause })
        }
        Answer::Mismatch => Sm::FiveGsmStatus(FiveGsmStatus {
            cause: PTI_MISMATCH,
        }),
    }
}

// Whether two causes are the same, or both absent.
fn is_same_cause(one: Option<u8>, other: Option<u8>) -> bool
    ensures { result ≡ is_same_if_there is_same_cause one other }
{
    match (one, other) {
        (None, None) => true,
        (Some(one), Some(other)) => one == other,
        _ => false,
    }
}

// The same of AMBRs.
fn is_same_ambr(one: Option<Ambr>, other: Option<Ambr>) -> bool
    ensures { result ≡ is_same_if_there is_same_ambr one other }
{
    match (one, other) {
        (None, None) => true,
        (Some(one), Some(other)) => {
            one.down_unit == other.down_unit
                && one.down == other.down
                && one.up_unit == other.up_unit
                && one.up == other.up
        }
        _ => false,
    }
}

// The same of octets.
fn are_same_octets(one: &Option<Octets>, other: &Option<Octets>) -> bool
    ensures { result ≡ is_same_if_there bytes_eq one.now other.now }
{
    match (one, other) {
        (None, None) => true,
        (Some(one), Some(other)) => one.as_slice() == other.as_slice(),
        _ => false,
    }
}

// Whether two commands are the same but for their transactions.
fn is_same(one: &PduSessionModificationCommand, other: &PduSessionModificationCommand) -> bool
    ensures { result ≡ is_same one.now other.now }
{
    is_same_cause(one.cause, other.cause)
        && is_same_ambr(one.ambr, other.ambr)
        && are_same_octets(&one.rules, &other.rules)
}

// The last command that was answered, in the states in which an equal one gets the same answer.
#[tactic(auto, unfolding(nas_base::specs::Branches::per))]
fn again(pti: u8, command: &PduSessionModificationCommand, cell: &Cell) -> Option<Answer>
    ensures { result ≡ again pti command.now (last_answered cell.now) }
{
    match cell {
        Cell::Inactive | Cell::ActivePending(_) | Cell::InactivePending(_, _) => None,
        Cell::Active(held) | Cell::ModificationPending(held, _) => {
            again_of(pti, command, &held.answered)
        }
    }
}

// The answer to the last command, where this one is equal.
#[tactic(auto, unfolding(nas_base::specs::Branches::chosen, nas_base::specs::Branches::per))]
fn again_of(
    pti: u8,
    command: &PduSessionModificationCommand,
    last: &Option<Answered>,
) -> Option<Answer>
    ensures { result ≡ again pti command.now last.now }
{
    match last {
        Some(last) if last.pti == pti && is_same(&last.command, command) => Some(last.answer),
        _ => None,
    }
}

/// The answer that a message gets again: a MODIFICATION COMMAND that is equal to the last that the session answered.
#[tactic(auto, unfolding(crate::specs::NetworkCommands::same_answer, nas_base::specs::Branches::per))]
pub fn same_answer(pti: u8, message: &Sm, cell: &Cell) -> Option<Answer>
    ensures { result ≡ same_answer pti message.now cell.now }
{
    match message {
        Sm::PduSessionModificationCommand(command) => again(pti, command, cell),
        _ => None,
    }
}

// The rules that a command makes of a session's.
#[tactic(auto, unfolding(nas_base::specs::Branches::per))]
fn rules_by(
    alloc: Global,
    command: &PduSessionModificationCommand,
    session: &Session,
) -> Result<Rules, Unruled>
    ensures { GivesRules result (rules_by command.now session.now) }
{
    match &command.rules {
        Some(octets) => ruled(alloc, octets.as_slice(), &session.rules),
        None => match session.rules.copy(alloc) {
            Ok(rules) => Ok(rules),
            Err(Memory) => Err(Unruled::Memory),
        },
    }
}

// The command and what it is answered with.
fn last_of(pti: u8, command: PduSessionModificationCommand, answer: Answer) -> Answered
    ensures { result ≡ last_of pti command answer }
{
    Answered {
        pti,
        command,
        answer,
    }
}

impl Work {
    /// A command is answered.
    pub fn answer(&mut self, alloc: Global, psi: Psi, pti: u8, answer: Answer) -> Result<(), Memory>
        ensures { Works self.old self.new result (answer_with psi pti answer self.old) }
    {
        self.say(alloc, psi, pti, message_of(answer))
    }

    /// A MODIFICATION COMMAND that is taken.
    #[tactic(auto, unfolding(crate::specs::NetworkCommands::modification_commanded, nas_base::specs::Branches::per))]
    pub fn modification_commanded(
        &mut self,
        alloc: Global,
        psi: Psi,
        pti: u8,
        command: PduSessionModificationCommand,
    ) -> Result<(), Memory>
        ensures { Works self.old self.new result (modification_commanded psi pti command self.old) }
    {
        let Some(session) = self.state.cell(psi).session() else {
            return Ok(());
        };
        match rules_by(alloc, &command, session) {
            Ok(rules) => self.complete(alloc, psi, pti, command, rules),
            Err(Unruled::Refused(cause)) => self.refuse(alloc, psi, pti, command, cause),
            Err(Unruled::Memory) => Err(Memory),
        }
    }

    // The command was applied.
    #[tactic(auto, using(crate::proofs::CellPlaces::put_put, crate::proofs::Stops::stopped_keeps))]
    fn complete(
        &mut self,
        alloc: Global,
        psi: Psi,
        pti: u8,
        command: PduSessionModificationCommand,
        rules: Rules,
    ) -> Result<(), Memory>
        ensures { Works self.old self.new result (applied_to (Ok rules) psi pti command self.old) }
    {
        self.stop_timer(psi)?;
        self.answer(alloc, psi, pti, Answer::Complete)?;
        let cell = self.state.take(psi);
        let answered = last_of(pti, command, Answer::Complete);
        self.state.put(psi, cell.completed(answered, rules));
        Ok(())
    }

    // The command is refused.
    #[tactic(auto, using(crate::proofs::CellPlaces::put_put, crate::proofs::Stops::stopped_keeps))]
    fn refuse(
        &mut self,
        alloc: Global,
        psi: Psi,
        pti: u8,
        command: PduSessionModificationCommand,
        cause: u8,
    ) -> Result<(), Memory>
        ensures { Works self.old self.new result (applied_to (Err cause) psi pti command self.old) }
    {
        self.stop_timer(psi)?;
        self.answer(alloc, psi, pti, Answer::Refused(cause))?;
        let cell = self.state.take(psi);
        let answered = last_of(pti, command, Answer::Refused(cause));
        self.state.put(psi, cell.refused(answered));
        Ok(())
    }

    /// A MODIFICATION COMMAND whose transaction is unknown.
    #[tactic(auto, unfolding(crate::specs::NetworkCommands::mismatched, nas_base::specs::Branches::per), using(crate::proofs::CellPlaces::put_put))]
    pub fn mismatched(
        &mut self,
        alloc: Global,
        psi: Psi,
        pti: u8,
        message: Sm,
    ) -> Result<(), Memory>
        ensures { Works self.old self.new result (mismatched psi pti message self.old) }
    {
        let Sm::PduSessionModificationCommand(command) = message else {
            return Ok(());
        };
        self.answer(alloc, psi, pti, Answer::Mismatch)?;
        let cell = self.state.take(psi);
        let answered = last_of(pti, command, Answer::Mismatch);
        self.state.put(psi, cell.answering(answered));
        Ok(())
    }

    /// PDU SESSION RELEASE COMMAND.
    #[tactic(auto, unfolding(crate::specs::NetworkCommands::release_commanded), using(crate::proofs::Stops::stopped_keeps))]
    pub fn release_commanded(&mut self, alloc: Global, psi: Psi, pti: u8) -> Result<(), Memory>
        ensures { Works self.old self.new result (release_commanded psi pti self.old) }
    {
        self.stop_timer(psi)?;
        let complete = Sm::PduSessionReleaseComplete(PduSessionReleaseComplete { cause: None });
        self.say(alloc, psi, pti, complete)?;
        self.state.put(psi, Cell::Inactive);
        Ok(())
    }
}
