//! What a handset makes of octets that reach it.
ghost use Rattle.std.specs.Prelude.{◌≡◌, Ok, OnOk};
ghost use Rattle.ue_mm.specs.Delivery.{action, by_table, command_inside, command_of, delivered, is_permitted_type, is_plain_allowed, may_reject, new_context, passed, plain, plain_message, protected, taken, frame_under_current};

use crate::work::Work;
use collision_rules::{Action, collide_mm, permitted_ue};
use mm_entity::{FIVE_GMM_STATUS, header_type, inside, is_too_long, message_type, open};
use mm_messages::{Mm, MmRefusal, decode_mm, kind_of};
use nas_base::mm_cause::{
    INVALID_MANDATORY_INFORMATION, MESSAGE_TYPE_NON_EXISTENT_OR_NOT_IMPLEMENTED,
    MESSAGE_TYPE_NOT_COMPATIBLE_WITH_THE_PROTOCOL_STATE,
};
use nas_base::{Dir, Memory, MmKind, Writer};
use nas_layout::Half;
use nas_security::Context;
use std::alloc::Global;

// Type of identity SUCI (TS 24.501 clause 9.11.3.3).
const SUCI: Half = Half(1);

// Whether a plain reject with this cause is taken (TS 24.501 clause 4.4.4.2).
fn may_reject(cause: u8) -> bool
    ensures { result ≡ may_reject cause }
{
    cause < 72 || 86 < cause
}

// Whether a plain message is taken before secure exchange.
fn is_plain_allowed(message: &Mm) -> bool
    ensures { result ≡ is_plain_allowed message.now }
{
    match message {
        Mm::IdentityRequest(request) => request.identity_type == SUCI,
        Mm::RegistrationReject(reject) => may_reject(reject.cause),
        Mm::ServiceReject(reject) => may_reject(reject.cause),
        _ => permitted_ue(kind_of(message)),
    }
}

// Whether a plain message of this type is answered where a part of it is wrong.
#[tactic(auto, unfolding(nas_base::specs::Branches::per))]
fn is_permitted_type(code: u8) -> bool
    ensures { result ≡ is_permitted_type code }
{
    match MmKind::from_code(code) {
        Some(kind) => permitted_ue(kind),
        None => false,
    }
}

impl Work {
    /// Octets reached the handset.
    #[tactic(auto, unfolding(crate::specs::Delivery::delivered, nas_base::specs::Branches::chosen))]
    pub fn delivered(&mut self, alloc: Global, octets: &[u8]) -> Result<(), Memory>
        ensures { OnOk result (self.new ≡ delivered octets.now self.old) }
    {
        if !self.common.connected || is_too_long(octets) {
            return Ok(());
        }
        match header_type(octets) {
            0 => self.plain(alloc, octets),
            3 => self.new_context(alloc, octets),
            _ => self.protected(alloc, octets),
        }
    }

    // A plain message.
    #[tactic(auto, unfolding(crate::specs::Delivery::plain, nas_base::specs::Branches::chosen))]
    fn plain(&mut self, alloc: Global, octets: &[u8]) -> Result<(), Memory>
        ensures { OnOk result (self.new ≡ plain octets.now self.old) }
    {
        if self.common.secure {
            return Ok(());
        }
        match decode_mm(alloc, octets) {
            Ok(message) => self.plain_message(alloc, &message),
            Err(MmRefusal::Ignored { at: _ }) => Ok(()),
            Err(MmRefusal::UnknownType { n: _ }) => self.status(
                MESSAGE_TYPE_NON_EXISTENT_OR_NOT_IMPLEMENTED,
            ),
            Err(MmRefusal::Mandatory { part: _, at: _ }) => {
                if is_permitted_type(message_type(octets)) {
                    return self.status(INVALID_MANDATORY_INFORMATION);
                }
                Ok(())
            }
            Err(MmRefusal::Memory) => Err(Memory),
        }
    }

    // A plain message by the table. It is taken, or nothing is done.
    #[tactic(auto, unfolding(nas_base::specs::Branches::chosen))]
    fn plain_message(&mut self, alloc: Global, message: &Mm) -> Result<(), Memory>
        ensures { OnOk result (self.new ≡ plain_message message.now self.old) }
    {
        if !is_plain_allowed(message) {
            return Ok(());
        }
        match collide_mm(self.phase.word(), kind_of(message)) {
            Action::Take => self.taken(alloc, message),
            Action::Discard | Action::Status98 | Action::Status43 | Action::Status47 => Ok(()),
        }
    }

    // A frame of header type 3, by the command inside.
    #[tactic(auto, unfolding(crate::specs::Delivery::new_context, nas_base::specs::Branches::per))]
    fn new_context(&mut self, alloc: Global, octets: &[u8]) -> Result<(), Memory>
        ensures { OnOk result (self.new ≡ new_context octets.now self.old) }
    {
        match decode_mm(alloc, inside(octets)) {
            Ok(message) => self.command_inside(alloc, &message, octets),
            Err(MmRefusal::Memory) => Err(Memory),
            Err(_) => Ok(()),
        }
    }

    // The message inside such a frame, where it is a SECURITY MODE COMMAND.
    #[tactic(auto, unfolding(nas_base::specs::Branches::per))]
    fn command_inside(&mut self, alloc: Global, message: &Mm, octets: &[u8]) -> Result<(), Memory>
        ensures { OnOk result (self.new ≡ command_inside (command_of (Ok message.now)) octets.now self.old) }
    {
        match message {
            Mm::SecurityModeCommand(command) => self.security_mode_commanded(
                alloc, command, octets,
            ),
            _ => Ok(()),
        }
    }

    // A frame of another header type, under the current context.
    #[tactic(auto, unfolding(crate::specs::Delivery::protected, nas_base::specs::Branches::per))]
    fn protected(&mut self, alloc: Global, octets: &[u8]) -> Result<(), Memory>
        ensures { OnOk result (self.new ≡ protected octets.now self.old) }
    {
        match self.common.current {
            Some(context) => self.frame_under_current(alloc, &context, octets),
            None => Ok(()),
        }
    }

    #[tactic(auto, unfolding(nas_base::specs::Branches::per))]
    fn frame_under_current(
        &mut self,
        alloc: Global,
        context: &Context,
        octets: &[u8],
    ) -> Result<(), Memory>
        ensures { OnOk result (self.new ≡ frame_under_current context.now octets.now self.old) }
    {
        let mut out = Writer::new();
        let Some(count) = open(context, Dir::Down, octets, &mut out) else {
            return Ok(());
        };
        self.count(context, count)?;
        self.passed(alloc, out.octets())
    }

    // The plain octets of a frame that passed.
    #[tactic(auto, unfolding(crate::specs::Delivery::passed, nas_base::specs::Branches::chosen))]
    fn passed(&mut self, alloc: Global, octets: &[u8]) -> Result<(), Memory>
        ensures { OnOk result (self.new ≡ passed octets.now self.old) }
    {
        match decode_mm(alloc, octets) {
            Ok(message) => self.by_table(alloc, &message),
            Err(MmRefusal::Ignored { at: _ }) => Ok(()),
            Err(MmRefusal::UnknownType { n: _ }) => self.status(
                MESSAGE_TYPE_NON_EXISTENT_OR_NOT_IMPLEMENTED,
            ),
            Err(MmRefusal::Mandatory { part: _, at: _ }) => {
                if message_type(octets) == FIVE_GMM_STATUS {
                    return Ok(());
                }
                self.status(INVALID_MANDATORY_INFORMATION)
            }
            Err(MmRefusal::Memory) => Err(Memory),
        }
    }

    // A message that passed, by the table.
    fn by_table(&mut self, alloc: Global, message: &Mm) -> Result<(), Memory>
        ensures { OnOk result (self.new ≡ by_table (action message.now self.old) message.now self.old) }
    {
        match collide_mm(self.phase.word(), kind_of(message)) {
            Action::Take => self.taken(alloc, message),
            Action::Status98 => self.status(MESSAGE_TYPE_NOT_COMPATIBLE_WITH_THE_PROTOCOL_STATE),
            Action::Discard | Action::Status43 | Action::Status47 => Ok(()),
        }
    }

    // The row of a message that the table takes. SECURITY MODE COMMAND has its row under header type 3 alone.
    #[tactic(auto, unfolding(crate::specs::Delivery::taken))]
    fn taken(&mut self, alloc: Global, message: &Mm) -> Result<(), Memory>
        ensures { OnOk result (self.new ≡ taken message.now self.old) }
    {
        match message {
            Mm::AuthenticationRequest(request) => self.authentication_requested(request),
            Mm::AuthenticationReject => self.deregister_and_erase(),
            Mm::IdentityRequest(request) => self.identity_requested(request),
            Mm::RegistrationAccept(accept) => self.registration_accepted(accept),
            Mm::RegistrationReject(reject) => self.registration_rejected(reject),
            Mm::ServiceAccept(_) => self.service_accepted(),
            Mm::ServiceReject(reject) => self.service_rejected(reject),
            Mm::DeregistrationRequestUeTerminated(_) => self.deregistration_requested(),
            Mm::DeregistrationAcceptUeOriginating => self.deregister(),
            Mm::DlNasTransport(transport) => self.transported(alloc, transport),
            Mm::ConfigurationUpdateCommand(command) => self.configuration_updated(command),
            _ => Ok(()),
        }
    }
}
