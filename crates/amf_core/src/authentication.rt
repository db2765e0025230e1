//! The answers to AUTHENTICATION REQUEST.
ghost use Rattle.std.specs.Prelude.{◌≡◌, OnOk};
ghost use Rattle.amf_core.specs.Authentication.{answered, asking_on, authentication_failed, authentication_rejected, challenged_again, commanding, failed_by, is_expected, made, mode_commanded, next_link, responded, resynchronised};
ghost use Rattle.amf_core.specs.Work.{by};

use crate::challenges::challenge_open;
use crate::registration::is_on;
use crate::work::Work;
use crate::{Authentication, Challenging, Phase, Procedure, Purpose, Record};
use key_chain::nas_keys;
use mm_messages::{AuthenticationFailure, AuthenticationResponse, Mm};
use nas_base::Memory;
use nas_base::mm_cause::{
    MAC_FAILURE, NGKSI_ALREADY_IN_USE, NON_5G_AUTHENTICATION_UNACCEPTABLE, SYNCH_FAILURE,
};
use nas_elements::Algs;
use nas_security::Context;
use std::alloc::Global;

/// A challenge that waits for the answer to its AUTHENTICATION REQUEST.
#[derive(Drop)]
pub struct Asking {
    pub challenging: Challenging,
    pub auth: Authentication,
}

// The challenge that waits for the answer to its AUTHENTICATION REQUEST on this link.
#[tactic(auto, unfolding(crate::specs::Authentication::asking_on, nas_base::specs::Branches::chosen))]
fn asking_on(link: u16, procedure: &Procedure) -> Option<Asking>
    ensures { result ≡ asking_on link procedure.now }
{
    let Procedure::Challenging(challenging) = procedure else {
        return None;
    };
    if !is_on(link, challenging.link) {
        return None;
    }
    match &challenging.phase {
        Phase::Auth(auth) => Some(Asking {
            challenging: challenging.copy(),
            auth: *auth,
        }),
        Phase::Mode(_) => None,
    }
}

// The context of a challenge that was answered.
fn made(auth: &Authentication) -> Context
    ensures { result ≡ made auth.now }
{
    Context {
        challenge: auth.challenge,
        ksi: auth.ksi,
        kamf: auth.kamf,
        algs: Algs {
            nea: auth.nea,
            nia: 2,
        },
        keys: nas_keys(&auth.kamf, auth.nea, 2),
        up: 0,
        down: 0,
    }
}

// The challenge, once it commands its context.
fn commanding(asking: &Asking) -> Challenging
    ensures { result ≡ commanding asking.now }
{
    Challenging {
        purpose: asking.challenging.purpose.copy(),
        link: asking.challenging.link,
        phase: Phase::Mode(made(&asking.auth)),
        sendings: 1,
    }
}

// Whether an answer is the right one.
#[tactic(auto, unfolding(nas_base::specs::Branches::per))]
fn is_expected(res_star: &Option<[u8; 16]>, auth: &Authentication) -> bool
    ensures { result ≡ is_expected res_star.now auth.now }
{
    match res_star {
        Some(octets) => *octets == auth.res_star,
        None => false,
    }
}

// The link of a challenge that takes the place of another.
fn next_link(challenging: &Challenging, s: &Record) -> Option<u16>
    ensures { result ≡ next_link challenging.now.purpose challenging.now s.now }
{
    match challenging.purpose {
        Purpose::Registration(_) => challenging.link,
        Purpose::Command => s.link,
    }
}

impl<'a> Work<'a> {
    // The context is commanded.
    fn command_mode(&mut self, asking: &Asking, s: Record) -> Result<(), Memory>
        ensures { OnOk result (self.new ≡ by (mode_commanded asking.now s) self.old) }
    {
        let challenging = commanding(asking);
        let s = challenge_open(&challenging, s);
        self.put_challenge(&challenging, s)
    }

    // AUTHENTICATION REJECT; the challenge ends.
    fn reject_authentication(&mut self, link: u16, s: Record) -> Result<(), Memory>
        ensures { OnOk result (self.new ≡ by (authentication_rejected link s) self.old) }
    {
        self.end_open(s.copy())?;
        self.answer_for(&s, link, Mm::AuthenticationReject)
    }

    // An answer to a challenge that waits for it.
    #[tactic(auto, unfolding(nas_base::specs::Branches::chosen))]
    fn answered(
        &mut self,
        response: &AuthenticationResponse,
        link: u16,
        asking: &Asking,
        s: Record,
    ) -> Result<(), Memory>
        ensures { OnOk result (self.new ≡ by (answered response.now link asking.now s) self.old) }
    {
        if is_expected(&response.res_star, &asking.auth) {
            return self.command_mode(asking, s);
        }
        self.reject_authentication(link, s)
    }

    /// AUTHENTICATION RESPONSE.
    #[tactic(auto, unfolding(crate::specs::Authentication::responded, nas_base::specs::Branches::per))]
    pub fn responded(
        &mut self,
        response: &AuthenticationResponse,
        link: u16,
        s: Record,
    ) -> Result<(), Memory>
        ensures { OnOk result (self.new ≡ by (responded response.now link s) self.old) }
    {
        match asking_on(link, &s.procedure) {
            Some(asking) => self.answered(response, link, &asking, s),
            None => Ok(()),
        }
    }

    // Another challenge for the same purpose.
    fn challenge_again(
        &mut self,
        alloc: Global,
        challenging: &Challenging,
        s: Record,
    ) -> Result<(), Memory>
        ensures { OnOk result (self.new ≡ by (challenged_again challenging.now s) self.old) }
    {
        let link = next_link(challenging, &s);
        self.challenge(alloc, challenging.purpose.copy(), link, None, s)
    }

    // Another challenge behind an AUTS that is right.
    #[tactic(auto, unfolding(nas_base::specs::Branches::chosen))]
    fn resynchronised(
        &mut self,
        alloc: Global,
        auts: &[u8; 14],
        asking: &Asking,
        s: Record,
    ) -> Result<(), Memory>
        ensures { OnOk result (self.new ≡ by (resynchronised auts.now asking.now s) self.old) }
    {
        let rand = asking.auth.challenge.rand;
        if self.resync(alloc, &s.supi, &rand, auts)? {
            return self.challenge_again(alloc, &asking.challenging, s);
        }
        Ok(())
    }

    // A challenge that failed, by the cause.
    #[tactic(auto, unfolding(nas_base::specs::Branches::chosen, nas_base::specs::Branches::per))]
    fn failed_by(
        &mut self,
        alloc: Global,
        failure: &AuthenticationFailure,
        link: u16,
        asking: &Asking,
        s: Record,
    ) -> Result<(), Memory>
        ensures { OnOk result (self.new ≡ by (failed_by failure.now link asking.now s) self.old) }
    {
        match failure.cause {
            MAC_FAILURE | NON_5G_AUTHENTICATION_UNACCEPTABLE => self.reject_authentication(link, s),
            SYNCH_FAILURE => match &failure.auts {
                Some(auts) => self.resynchronised(alloc, auts, asking, s),
                None => Ok(()),
            },
            NGKSI_ALREADY_IN_USE => self.challenge_again(alloc, &asking.challenging, s),
            _ => Ok(()),
        }
    }

    /// AUTHENTICATION FAILURE.
    #[tactic(auto, unfolding(crate::specs::Authentication::authentication_failed, nas_base::specs::Branches::per))]
    pub fn authentication_failed(
        &mut self,
        alloc: Global,
        failure: &AuthenticationFailure,
        link: u16,
        s: Record,
    ) -> Result<(), Memory>
        ensures { OnOk result (self.new ≡ by (authentication_failed failure.now link s) self.old) }
    {
        match asking_on(link, &s.procedure) {
            Some(asking) => self.failed_by(alloc, failure, link, &asking, s),
            None => Ok(()),
        }
    }
}
