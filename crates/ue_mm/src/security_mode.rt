//! Security mode control.
ghost use Rattle.std.specs.Prelude.{◌≡◌, true, IfOk, OnOk};
ghost use Rattle.ue_mm.specs.SecurityMode.{are_supported, command_passed, command_completed, is_acceptable, is_wanted, made, picked_current, picked_pending, security_mode_commanded, command_picked, taken_into_use, command_under_current, command_under_pending, wanted_request, whole_request};

use crate::acts::Protection;
use crate::procedures::{Phase, Registration};
use crate::registration::{registration_request, told_sessions};
use crate::work::Work;
use crate::{HandsetConfig, Pending, UeOut};
use key_chain::nas_keys;
use mm_entity::{counted, open};
use mm_messages::{Mm, SecurityModeCommand, SecurityModeComplete, SecurityModeReject, encode_mm};
use nas_base::mm_cause::UE_SECURITY_CAPABILITIES_MISMATCH;
use nas_base::{Dir, Ksi, Memory, Octets, Writer};
use nas_elements::{Algs, Asi, Status};
use nas_security::Context;
use nas_timers::TimerId;
use std::alloc::Global;

// Whether the algorithms are 128-NIA2, and 128-NEA2 or no ciphering.
fn are_supported(algs: Algs) -> bool
    ensures { result ≡ are_supported algs }
{
    algs.nia == 2 && (algs.nea == 0 || algs.nea == 2)
}

// Whether the whole registration request is asked for.
#[tactic(auto, unfolding(nas_base::specs::Branches::per))]
fn is_wanted(asi: &Option<Asi>) -> bool
    ensures { result ≡ is_wanted asi.now }
{
    match asi {
        Some(asi) => asi.asks_for_whole_message(),
        None => false,
    }
}

// Whether the capability that is told back is the handset's, and has the algorithms.
fn is_acceptable(command: &SecurityModeCommand, config: &HandsetConfig) -> bool
    ensures { result ≡ is_acceptable command.now config.now }
{
    command.capability.as_slice() == config.capability.as_slice()
        && config.capability.has_ea(command.algs.nea)
        && config.capability.has_ia(command.algs.nia)
}

// The context of a pending key, with the keys of the algorithms and counts 0.
fn made(pending: &Pending, algs: Algs) -> Context
    requires { are_supported algs ≡ true }
    ensures { result ≡ made pending.now algs }
{
    Context {
        challenge: pending.challenge,
        ksi: pending.ksi,
        kamf: pending.kamf,
        algs,
        keys: nas_keys(&pending.kamf, algs.nea, algs.nia),
        up: 0,
        down: 0,
    }
}

// The whole request of a registration.
fn whole_request(
    alloc: Global,
    config: &HandsetConfig,
    registration: &Registration,
    held: Status,
) -> Result<Octets, Memory>
    ensures { IfOk result (λ octets. octets ≡ whole_request config.now registration.now held) }
{
    let sessions = told_sessions(registration.kind, held);
    let message = registration_request(config, registration, sessions);
    let mut out = Writer::new();
    if encode_mm(&message, &mut out).is_err() {
        unreachable!();
    }
    match Octets::copy(alloc, out.octets()) {
        Ok(octets) => Ok(octets),
        Err(_) => Err(Memory),
    }
}

impl Work {
    /// A frame of header type 3 that holds a SECURITY MODE COMMAND.
    #[tactic(auto, unfolding(crate::specs::SecurityMode::security_mode_commanded, nas_base::specs::Branches::chosen))]
    pub fn security_mode_commanded(
        &mut self,
        alloc: Global,
        command: &SecurityModeCommand,
        octets: &[u8],
    ) -> Result<(), Memory>
        ensures { OnOk result (self.new ≡ security_mode_commanded command.now octets.now self.old) }
    {
        if !are_supported(command.algs) {
            return Ok(());
        }
        self.command_picked(alloc, command, octets)
    }

    // The ngKSI picks the pending key or the current context.
    #[tactic(auto, unfolding(nas_base::specs::Branches::per))]
    fn command_picked(
        &mut self,
        alloc: Global,
        command: &SecurityModeCommand,
        octets: &[u8],
    ) -> Result<(), Memory>
        requires { are_supported command.now.algs ≡ true }
        ensures { OnOk result (self.new ≡ command_picked command.now octets.now self.old) }
    {
        if let Some(pending) = self.picked_pending(command.ksi) {
            let context = made(&pending, command.algs);
            return self.command_under_pending(alloc, command, &context, octets);
        }
        match self.picked_current(command.ksi) {
            Some(context) => self.command_under_current(alloc, command, &context, octets),
            None => Ok(()),
        }
    }

    // The pending key of this ngKSI. No command takes one while the handset deregisters.
    #[tactic(auto, unfolding(nas_base::specs::Branches::chosen, nas_base::specs::Branches::per))]
    fn picked_pending(&self, ksi: Ksi) -> Option<Pending>
        ensures { result ≡ picked_pending ksi self.now }
    {
        if self.phase.is_deregistering() {
            return None;
        }
        match self.common.pending {
            Some(pending) if pending.ksi == ksi => Some(pending),
            _ => None,
        }
    }

    // The current context, where it has this ngKSI.
    #[tactic(auto, unfolding(nas_base::specs::Branches::chosen, nas_base::specs::Branches::per))]
    fn picked_current(&self, ksi: Ksi) -> Option<Context>
        ensures { result ≡ picked_current ksi self.now }
    {
        match self.common.current {
            Some(context) if context.ksi == ksi => Some(context),
            _ => None,
        }
    }

    // The command under a pending key.
    #[tactic(auto, unfolding(nas_base::specs::Branches::per))]
    fn command_under_pending(
        &mut self,
        alloc: Global,
        command: &SecurityModeCommand,
        context: &Context,
        octets: &[u8],
    ) -> Result<(), Memory>
        ensures { OnOk result (self.new ≡ command_under_pending command.now context.now octets.now self.old) }
    {
        let mut out = Writer::new();
        let Some(count) = open(context, Dir::Down, octets, &mut out) else {
            return Ok(());
        };
        self.note(context, count)?;
        self.command_passed(alloc, command, counted(*context, Dir::Down, count))
    }

    // A command that passed under a pending key.
    #[tactic(auto, unfolding(crate::specs::SecurityMode::command_passed, nas_base::specs::Branches::chosen))]
    fn command_passed(
        &mut self,
        alloc: Global,
        command: &SecurityModeCommand,
        context: Context,
    ) -> Result<(), Memory>
        ensures { OnOk result (self.new ≡ command_passed command.now context self.old) }
    {
        if is_acceptable(command, &self.common.config) {
            return self.take(alloc, command, context);
        }
        self.common.pending = None;
        self.answer(Mm::SecurityModeReject(SecurityModeReject {
            cause: UE_SECURITY_CAPABILITIES_MISMATCH,
        }))
    }

    // The context is taken into use.
    fn take(
        &mut self,
        alloc: Global,
        command: &SecurityModeCommand,
        context: Context,
    ) -> Result<(), Memory>
        ensures { OnOk result (self.new ≡ taken_into_use command.now context self.old) }
    {
        self.common.secure = true;
        self.common.current = Some(context);
        self.common.pending = None;
        self.common.stored = None;
        self.tell(UeOut::Took(context))?;
        self.stop(TimerId::T3516)?;
        self.tell(UeOut::Abandon)?;
        self.complete(alloc, &command.asi)
    }

    // The command under the current context: it was sent again, since its answer was lost.
    #[tactic(auto, unfolding(nas_base::specs::Branches::chosen, nas_base::specs::Branches::per))]
    fn command_under_current(
        &mut self,
        alloc: Global,
        command: &SecurityModeCommand,
        context: &Context,
        octets: &[u8],
    ) -> Result<(), Memory>
        ensures { OnOk result (self.new ≡ command_under_current command.now context.now octets.now self.old) }
    {
        let mut out = Writer::new();
        let Some(count) = open(context, Dir::Down, octets, &mut out) else {
            return Ok(());
        };
        self.count(context, count)?;
        if self.phase.is_deregistering() {
            return Ok(());
        }
        self.complete(alloc, &command.asi)
    }

    // SECURITY MODE COMPLETE.
    #[tactic(auto, unfolding(crate::specs::SecurityMode::command_completed))]
    fn complete(&mut self, alloc: Global, asi: &Option<Asi>) -> Result<(), Memory>
        ensures { OnOk result (self.new ≡ command_completed asi.now self.old) }
    {
        let message = self.wanted_request(alloc, is_wanted(asi))?;
        self.say(
            false,
            Protection::CipheredWithNewContext,
            Mm::SecurityModeComplete(SecurityModeComplete { message }),
        )
    }

    // The whole request, where it is wanted and a registration is open.
    #[tactic(auto, unfolding(nas_base::specs::Branches::chosen))]
    fn wanted_request(&self, alloc: Global, wanted: bool) -> Result<Option<Octets>, Memory>
        ensures { IfOk result (λ request. request ≡ wanted_request wanted self.now) }
    {
        match &self.phase {
            Phase::Registering(registration) if wanted => {
                Ok(Some(whole_request(alloc, &self.common.config, registration, self.held)?))
            }
            _ => Ok(None),
        }
    }
}
