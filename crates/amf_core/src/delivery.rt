//! What an AMF makes of octets that come up a link.
ghost use Rattle.std.specs.Prelude.{◌≡◌, [], IfOk, Ok, OnOk, option_map};
ghost use Rattle.mm_messages.specs.Messages.{mm_in};
ghost use Rattle.amf_core.specs.Delivery.{action, brought_up, by_table, check_of, ciphered, ciphered_for, failed, failed_request, freshened, integrity_protected, is_permitted_type, message_of, named_inside, passed, plain, received, sender, taken, taken_plain, under_either, under_new_context};
ghost use Rattle.amf_core.specs.Work.{by};

use crate::Record;
use crate::checks::{Check, checked_in_use, checked_pending};
use crate::work::Work;
use collision_rules::{Action, collide_amf, permitted_amf};
use mm_entity::{
    EPD_5GMM, FIVE_GMM_STATUS, header_type, inside, is_too_long, message_type, octet_at,
};
use mm_messages::{Mm, MmRefusal, decode_mm, kind_of};
use nas_base::mm_cause::{
    INVALID_MANDATORY_INFORMATION, MESSAGE_TYPE_NON_EXISTENT_OR_NOT_IMPLEMENTED,
    MESSAGE_TYPE_NOT_COMPATIBLE_WITH_THE_PROTOCOL_STATE,
};
use nas_base::{Memory, MmKind, Writer};
use std::alloc::Global;

// Whether a plain message of this type is answered where a part of it is wrong.
#[tactic(auto, unfolding(nas_base::specs::Branches::per))]
fn is_permitted_type(code: u8) -> bool
    ensures { result ≡ is_permitted_type code }
{
    match MmKind::from_code(code) {
        Some(kind) => permitted_amf(kind),
        None => false,
    }
}

// The message in octets, if they are one.
fn message_in(alloc: Global, octets: &[u8]) -> Result<Option<Mm>, Memory>
    ensures { IfOk result (λ message. message ≡ message_of (mm_in octets.now)) }
{
    match decode_mm(alloc, octets) {
        Ok(message) => Ok(Some(message)),
        Err(MmRefusal::Memory) => Err(Memory),
        Err(MmRefusal::Ignored { at: _ })
        | Err(MmRefusal::UnknownType { n: _ })
        | Err(MmRefusal::Mandatory { part: _, at: _ }) => Ok(None),
    }
}

// Octets under the context in use of a subscriber, if there is one.
#[tactic(auto, unfolding(nas_base::specs::Branches::per))]
fn check_of(s: Option<Record>, link: u16, octets: &[u8], out: &mut Writer) -> Option<Check>
    requires { out.old ≡ [] }
    ensures { option_map (λ check. record { check = check; message = out.new }) result ≡ check_of s link octets.now }
{
    match s {
        Some(s) => checked_in_use(link, octets, s, out),
        None => None,
    }
}

impl<'a> Work<'a> {
    /// Octets came up a link; `fresh` where they are the first of a connection.
    pub fn bring_up(
        &mut self,
        alloc: Global,
        link: u16,
        fresh: bool,
        octets: &[u8],
    ) -> Result<(), Memory>
        ensures { OnOk result (self.new ≡ by (brought_up link fresh octets.now) self.old) }
    {
        self.freshen(fresh, link)?;
        self.received(alloc, link, octets)
    }

    // Octets on their link.
    #[tactic(auto, unfolding(crate::specs::Delivery::received, nas_base::specs::Branches::chosen))]
    fn received(&mut self, alloc: Global, link: u16, octets: &[u8]) -> Result<(), Memory>
        ensures { OnOk result (self.new ≡ by (received link octets.now) self.old) }
    {
        if octet_at(octets, 0) != EPD_5GMM || is_too_long(octets) {
            return Ok(());
        }
        match header_type(octets) {
            0 => self.plain(alloc, link, octets),
            1 => self.integrity_protected(alloc, link, octets),
            2 => self.ciphered(alloc, link, octets),
            4 => self.under_new_context(alloc, link, octets),
            _ => Ok(()),
        }
    }

    // The first message of a connection finds its link not secure.
    #[tactic(auto, unfolding(crate::specs::Delivery::freshened, nas_base::specs::Branches::chosen))]
    fn freshen(&mut self, fresh: bool, link: u16) -> Result<(), Memory>
        ensures { OnOk result (self.new ≡ by (freshened fresh link) self.old) }
    {
        if !fresh {
            return Ok(());
        }
        let mut record = self.link(link);
        record.secure = false;
        self.put_link(record)
    }

    // A plain message.
    #[tactic(auto, unfolding(crate::specs::Delivery::plain, nas_base::specs::Branches::chosen))]
    fn plain(&mut self, alloc: Global, link: u16, octets: &[u8]) -> Result<(), Memory>
        ensures { OnOk result (self.new ≡ by (plain link octets.now) self.old) }
    {
        if self.link(link).secure {
            return Ok(());
        }
        match decode_mm(alloc, octets) {
            Ok(message) => {
                if permitted_amf(kind_of(&message)) {
                    return self.taken_plain(alloc, link, message);
                }
                Ok(())
            }
            Err(MmRefusal::Ignored { at: _ }) => Ok(()),
            Err(MmRefusal::UnknownType { n: _ }) => self.status(
                link,
                MESSAGE_TYPE_NON_EXISTENT_OR_NOT_IMPLEMENTED,
            ),
            Err(MmRefusal::Mandatory { part: _, at: _ }) => {
                if is_permitted_type(message_type(octets)) {
                    return self.status(link, INVALID_MANDATORY_INFORMATION);
                }
                Ok(())
            }
            Err(MmRefusal::Memory) => Err(Memory),
        }
    }

    // The subscriber that a frame of header type 1 is checked for.
    #[tactic(auto, unfolding(nas_base::specs::Branches::per))]
    fn sender(&self, link: u16, message: &Option<Mm>) -> Option<Record>
        ensures { result ≡ sender link message.now self.now.work }
    {
        match self.named_inside(message) {
            Some(s) => Some(s),
            None => self.subscriber_of_link(link),
        }
    }

    // The subscriber that a request inside names.
    #[tactic(auto, unfolding(nas_base::specs::Branches::per))]
    fn named_inside(&self, message: &Option<Mm>) -> Option<Record>
        ensures { result ≡ named_inside message.now self.now.work }
    {
        match message {
            Some(Mm::RegistrationRequest(request)) => self.kept_for(&request.identity),
            Some(Mm::ServiceRequest(request)) => self.kept_for(&request.identity),
            Some(Mm::DeregistrationRequestUeOriginating(request)) => {
                self.kept_for(&request.identity)
            }
            _ => None,
        }
    }

    // A frame of header type 1.
    #[tactic(auto, unfolding(crate::specs::Delivery::integrity_protected, nas_base::specs::Branches::per))]
    fn integrity_protected(&mut self, alloc: Global, link: u16, octets: &[u8]) -> Result<(), Memory>
        ensures { OnOk result (self.new ≡ by (integrity_protected link octets.now) self.old) }
    {
        let message = message_in(alloc, inside(octets))?;
        let s = self.sender(link, &message);
        let mut out = Writer::new();
        match check_of(s, link, octets, &mut out) {
            Some(check) => self.passed(alloc, link, out.octets(), check),
            None => self.failed(alloc, link, message),
        }
    }

    // A frame of header type 1 that failed.
    #[tactic(auto, unfolding(nas_base::specs::Branches::chosen, nas_base::specs::Branches::per))]
    fn failed(&mut self, alloc: Global, link: u16, message: Option<Mm>) -> Result<(), Memory>
        ensures { OnOk result (self.new ≡ by (failed link message) self.old) }
    {
        if self.link(link).secure {
            return Ok(());
        }
        match message {
            Some(message) => self.failed_request(alloc, link, message),
            None => Ok(()),
        }
    }

    // The request inside it.
    fn failed_request(&mut self, alloc: Global, link: u16, message: Mm) -> Result<(), Memory>
        ensures { OnOk result (self.new ≡ by (failed_request link message) self.old) }
    {
        match message {
            Mm::RegistrationRequest(request) => {
                self.registration_requested(alloc, &request, link, &None)
            }
            Mm::ServiceRequest(_) => self.service_refused(link),
            _ => Ok(()),
        }
    }

    // A frame of header type 2.
    #[tactic(auto, unfolding(crate::specs::Delivery::ciphered, nas_base::specs::Branches::per))]
    fn ciphered(&mut self, alloc: Global, link: u16, octets: &[u8]) -> Result<(), Memory>
        ensures { OnOk result (self.new ≡ by (ciphered link octets.now) self.old) }
    {
        let s = self.subscriber_of_link(link);
        let mut out = Writer::new();
        match check_of(s, link, octets, &mut out) {
            Some(check) => self.passed(alloc, link, out.octets(), check),
            None => Ok(()),
        }
    }

    // A frame of header type 4.
    #[tactic(auto, unfolding(crate::specs::Delivery::under_new_context, nas_base::specs::Branches::per))]
    fn under_new_context(&mut self, alloc: Global, link: u16, octets: &[u8]) -> Result<(), Memory>
        ensures { OnOk result (self.new ≡ by (under_new_context link octets.now) self.old) }
    {
        match self.subscriber_of_link(link) {
            Some(s) => self.under_either(alloc, link, octets, s),
            None => Ok(()),
        }
    }

    // The same for a subscriber: under the context that was commanded on this link, then under the one in use.
    #[tactic(auto, unfolding(nas_base::specs::Branches::per))]
    fn under_either(
        &mut self,
        alloc: Global,
        link: u16,
        octets: &[u8],
        s: Record,
    ) -> Result<(), Memory>
        ensures { OnOk result (self.new ≡ by (under_either link octets.now s) self.old) }
    {
        let mut out = Writer::new();
        match checked_pending(link, octets, &s, &mut out) {
            Some(check) => self.passed(alloc, link, out.octets(), check),
            None => self.ciphered_for(alloc, link, octets, s),
        }
    }

    // The same under the context in use.
    #[tactic(auto, unfolding(nas_base::specs::Branches::per))]
    fn ciphered_for(
        &mut self,
        alloc: Global,
        link: u16,
        octets: &[u8],
        s: Record,
    ) -> Result<(), Memory>
        ensures { OnOk result (self.new ≡ by (ciphered_for link octets.now s) self.old) }
    {
        let mut out = Writer::new();
        match checked_in_use(link, octets, s, &mut out) {
            Some(check) => self.passed(alloc, link, out.octets(), check),
            None => Ok(()),
        }
    }

    // A message that passed.
    #[tactic(auto, unfolding(crate::specs::Delivery::passed, nas_base::specs::Branches::chosen))]
    fn passed(
        &mut self,
        alloc: Global,
        link: u16,
        octets: &[u8],
        check: Check,
    ) -> Result<(), Memory>
        ensures { OnOk result (self.new ≡ by (passed link octets.now check) self.old) }
    {
        self.note(link, &check)?;
        match decode_mm(alloc, octets) {
            Ok(message) => self.by_table(alloc, link, check, message),
            Err(MmRefusal::Ignored { at: _ }) => Ok(()),
            Err(MmRefusal::UnknownType { n: _ }) => self.status(
                link,
                MESSAGE_TYPE_NON_EXISTENT_OR_NOT_IMPLEMENTED,
            ),
            Err(MmRefusal::Mandatory { part: _, at: _ }) => {
                if message_type(octets) == FIVE_GMM_STATUS {
                    return Ok(());
                }
                self.status(link, INVALID_MANDATORY_INFORMATION)
            }
            Err(MmRefusal::Memory) => Err(Memory),
        }
    }

    // A message that passed, by the table of collisions.
    fn by_table(
        &mut self,
        alloc: Global,
        link: u16,
        check: Check,
        message: Mm,
    ) -> Result<(), Memory>
        ensures { OnOk result (self.new ≡ by (by_table (action message check.subscriber) link check message) self.old) }
    {
        let s = &check.subscriber;
        match collide_amf(s.word(), s.registered, kind_of(&message)) {
            Action::Take => self.taken(alloc, link, check, message),
            Action::Status98 => self.status(
                link,
                MESSAGE_TYPE_NOT_COMPATIBLE_WITH_THE_PROTOCOL_STATE,
            ),
            Action::Discard | Action::Status43 | Action::Status47 => Ok(()),
        }
    }

    // The row of a message that passed.
    #[tactic(auto, unfolding(crate::specs::Delivery::taken, nas_base::specs::Branches::chosen))]
    fn taken(&mut self, alloc: Global, link: u16, check: Check, message: Mm) -> Result<(), Memory>
        ensures { OnOk result (self.new ≡ by (taken link check message) self.old) }
    {
        let s = check.subscriber;
        match message {
            Mm::RegistrationRequest(request) => {
                let passed = Some(s.supi);
                self.registration_requested(alloc, &request, link, &passed)
            }
            Mm::RegistrationComplete => self.registration_completed(&check.challenge, s),
            Mm::ConfigurationUpdateComplete => self.update_completed(&check.challenge, s),
            Mm::DeregistrationRequestUeOriginating(request) => {
                self.deregistration_requested(&request, link, &s)
            }
            Mm::DeregistrationAcceptUeTerminated => self.deregistration_accepted(link, &s),
            Mm::ServiceRequest(_) => self.service_requested(link, &s),
            Mm::AuthenticationResponse(response) => self.responded(&response, link, s),
            Mm::AuthenticationFailure(failure) => {
                self.authentication_failed(alloc, &failure, link, s)
            }
            Mm::IdentityResponse(response) => self.identity_told(alloc, &response, link),
            Mm::SecurityModeComplete(complete) => {
                if check.is_pending {
                    return self.mode_completed(alloc, &complete, link, s);
                }
                Ok(())
            }
            Mm::SecurityModeReject(_) => self.mode_rejected(link, s),
            Mm::UlNasTransport(transport) => {
                self.transported(transport, link, check.challenge, &s)
            }
            _ => Ok(()),
        }
    }

    // The row of a plain message before secure exchange.
    #[tactic(auto, unfolding(crate::specs::Delivery::taken_plain, nas_base::specs::Branches::per))]
    fn taken_plain(&mut self, alloc: Global, link: u16, message: Mm) -> Result<(), Memory>
        ensures { OnOk result (self.new ≡ by (taken_plain link message) self.old) }
    {
        match message {
            Mm::RegistrationRequest(request) => {
                self.registration_requested(alloc, &request, link, &None)
            }
            Mm::ServiceRequest(_) => self.service_refused(link),
            Mm::IdentityResponse(response) => self.identity_told(alloc, &response, link),
            Mm::AuthenticationResponse(response) => match self.subscriber_of_link(link) {
                Some(s) => self.responded(&response, link, s),
                None => Ok(()),
            },
            Mm::AuthenticationFailure(failure) => match self.subscriber_of_link(link) {
                Some(s) => self.authentication_failed(alloc, &failure, link, s),
                None => Ok(()),
            },
            Mm::SecurityModeReject(_) => match self.subscriber_of_link(link) {
                Some(s) => self.mode_rejected(link, s),
                None => Ok(()),
            },
            Mm::DeregistrationAcceptUeTerminated => match self.subscriber_of_link(link) {
                Some(s) => self.deregistration_accepted(link, &s),
                None => Ok(()),
            },
            _ => Ok(()),
        }
    }
}
