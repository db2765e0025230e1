//! Challenges: how one starts, what is sent of it, and how a procedure ends.
ghost use Rattle.std.specs.Prelude.{◌≡◌, ◌^◌, ◌<◌, OnOk};
ghost use Rattle.amf_core.specs.Challenges.{VectorFits, asked_for, authentication, authentication_request, begun_with, by_vector, capability_of, challenge, challenge_begun, challenge_open, challenge_put, challenge_refused, challenge_sent, chosen_nea, claimed, claimed_one, ended, idle, is_ksi_taken, kamf_of, new_ksi, request_sent, security_mode_command, stopped, told};
ghost use Rattle.amf_core.specs.Work.{by};

use crate::acts::Protection;
use crate::work::Work;
use crate::{Authentication, Challenging, Configured, Phase, Procedure, Purpose, Record};
use key_chain::{ABBA, challenge_kamf, res_star};
use milenage::{HomeRefusal, Vector};
use mm_messages::{AuthenticationRequest, Mm, SecurityModeCommand};
use nas_base::mm_cause::PROTOCOL_ERROR_UNSPECIFIED;
use nas_base::{Ksi, Memory, Supi};
use nas_elements::{Asi, Capability};
use nas_layout::Abba;
use nas_security::{Challenge, Context};
use nas_timers::TimerId;
use std::alloc::Global;

// Additional 5G security information: the whole initial message is requested (TS 24.501 clause 9.11.3.12).
const WHOLE_MESSAGE: Asi = Asi(2);

// Whether a new context can't have this number.
#[tactic(auto, unfolding(nas_base::specs::Branches::per))]
fn is_ksi_taken(ksi: u8, s: &Record) -> bool
    ensures { result ≡ is_ksi_taken ksi s.now }
{
    let in_use = match &s.in_use {
        Some(context) => context.ksi.0 == ksi,
        None => false,
    };
    let last = match s.last_ksi {
        Some(last) => last.0 == ksi,
        None => false,
    };
    in_use || last
}

// The least number that a new context can have. Two are taken at most.
#[tactic(auto, unfolding(crate::specs::Challenges::new_ksi))]
fn new_ksi(s: &Record) -> Ksi
    ensures { result ≡ new_ksi s.now }
{
    if !is_ksi_taken(0, s) {
        Ksi(0)
    } else if !is_ksi_taken(1, s) {
        Ksi(1)
    } else {
        Ksi(2)
    }
}

// The capability that a subscriber told last, or none at all.
#[tactic(auto, unfolding(nas_base::specs::Branches::per))]
fn capability_of(s: &Record) -> Capability
    ensures { result ≡ capability_of s.now }
{
    match &s.capability {
        Some(capability) => capability.copy(),
        None => Capability::from_slice(&[0, 0]).unwrap(),
    }
}

// The ciphering for a capability.
fn chosen_nea(config: &Configured, capability: &Capability) -> u8
    ensures { result ≡ chosen_nea config.now capability.now }
{
    if !capability.has_ea(0) || capability.has_ea(2) && config.nea == 2 {
        2
    } else {
        0
    }
}

// KAMF of a vector.
fn kamf_of(config: &Configured, supi: &Supi, v: &Vector) -> [u8; 32]
    ensures { result ≡ kamf_of config.now supi.now v.now }
{
    challenge_kamf(&v.ck, &v.ik, &v.autn, &config.plmn, supi, &ABBA)
}

// What the answer to a vector is compared with, and what comes of it.
fn authentication(config: &Configured, v: &Vector, s: &Record) -> Authentication
    requires { v.now.sqn < 2 ^ 48 }
    ensures { result ≡ authentication config.now v.now s.now }
{
    Authentication {
        challenge: Challenge {
            sqn: v.sqn,
            rand: v.rand,
        },
        ksi: new_ksi(s),
        autn: v.autn,
        res_star: res_star(&v.ck, &v.ik, &config.plmn, &v.rand, &v.res),
        kamf: kamf_of(config, &s.supi, v),
        nea: chosen_nea(config, &capability_of(s)),
    }
}

// What the command of a challenge asks for.
fn asked_for(purpose: &Purpose) -> Option<Asi>
    ensures { result ≡ asked_for purpose.now }
{
    match purpose {
        Purpose::Registration(_) => Some(WHOLE_MESSAGE),
        Purpose::Command => None,
    }
}

// AUTHENTICATION REQUEST.
fn authentication_request(auth: &Authentication) -> AuthenticationRequest
    ensures { result ≡ authentication_request auth.now }
{
    AuthenticationRequest {
        ksi: auth.ksi,
        abba: Abba::from_slice(&ABBA).unwrap(),
        rand: Some(auth.challenge.rand),
        autn: Some(auth.autn),
    }
}

// SECURITY MODE COMMAND of this context.
fn security_mode_command(
    context: &Context,
    challenging: &Challenging,
    s: &Record,
) -> SecurityModeCommand
    ensures { result ≡ security_mode_command context.now challenging.now s.now }
{
    SecurityModeCommand {
        algs: context.algs,
        ksi: context.ksi,
        capability: capability_of(s),
        asi: asked_for(&challenging.purpose),
    }
}

/// A subscriber with a challenge.
pub fn challenge_open(challenging: &Challenging, s: Record) -> Record
    ensures { result ≡ challenge_open challenging.now s }
{
    Record {
        procedure: Procedure::Challenging(challenging.copy()),
        ..s
    }
}

/// A subscriber without a procedure.
pub fn idle(s: Record) -> Record
    ensures { result ≡ idle s }
{
    Record {
        procedure: Procedure::Idle,
        ..s
    }
}

// A subscriber with the capability that it tells, if it does.
#[tactic(auto, unfolding(nas_base::specs::Branches::per))]
fn told(capability: Option<Capability>, s: Record) -> Record
    ensures { result ≡ told capability s }
{
    match capability {
        Some(capability) => Record {
            capability: Some(capability),
            ..s
        },
        None => s,
    }
}

impl<'a> Work<'a> {
    /// The timer of what is open is stopped.
    #[tactic(auto, unfolding(crate::specs::Challenges::stopped))]
    pub fn stop_open(&mut self, s: &Record) -> Result<(), Memory>
        ensures { OnOk result (self.new ≡ by (stopped s.now) self.old) }
    {
        match &s.procedure {
            Procedure::Idle => Ok(()),
            Procedure::Challenging(_) => self.stop(TimerId::T3560, s),
            Procedure::Accepting(_) => self.stop(TimerId::T3550, s),
            Procedure::Updating(_) => self.stop(TimerId::T3555, s),
            Procedure::Deregistering(_) => self.stop(TimerId::T3522, s),
        }
    }

    /// What is open ends.
    #[tactic(auto, unfolding(crate::specs::Challenges::ended))]
    pub fn end_open(&mut self, s: Record) -> Result<(), Memory>
        ensures { OnOk result (self.new ≡ by (ended s) self.old) }
    {
        self.stop_open(&s)?;
        self.put(idle(s))
    }

    // AUTHENTICATION REQUEST is sent.
    fn send_request(&mut self, auth: &Authentication, link: u16, s: &Record) -> Result<(), Memory>
        ensures { OnOk result (self.new ≡ by (request_sent auth.now link s.now) self.old) }
    {
        let message = Mm::AuthenticationRequest(authentication_request(auth));
        self.answer_for(s, link, message)
    }

    // What a challenge waits for the answer to.
    #[tactic(auto, unfolding(crate::specs::Challenges::challenge_sent, nas_base::specs::Branches::per))]
    fn send_challenge(&mut self, challenging: &Challenging, s: &Record) -> Result<(), Memory>
        ensures { OnOk result (self.new ≡ by (challenge_sent challenging.now s.now) self.old) }
    {
        match &challenging.phase {
            Phase::Auth(auth) => match challenging.link {
                Some(link) => self.send_request(auth, link, s),
                None => Ok(()),
            },
            Phase::Mode(context) => {
                let message = Mm::SecurityModeCommand(security_mode_command(
                    context,
                    challenging,
                    s,
                ));
                let protection = Protection::IntegrityProtectedWithNewContext(s.supi.copy());
                self.say_on(challenging.link, protection, message)
            }
        }
    }

    /// A challenge stands as the subscriber's procedure, what it waits for is sent, and its timer runs.
    pub fn put_challenge(&mut self, challenging: &Challenging, s: Record) -> Result<(), Memory>
        ensures { OnOk result (self.new ≡ by (challenge_put challenging.now s) self.old) }
    {
        self.put(s.copy())?;
        self.send_challenge(challenging, &s)?;
        self.start(TimerId::T3560, &s)
    }

    // The subscriber is that of the link which it was last challenged on.
    #[tactic(auto, unfolding(nas_base::specs::Branches::per))]
    fn claim(&mut self, link: Option<u16>, supi: &Supi) -> Result<(), Memory>
        ensures { OnOk result (self.new ≡ by (claimed link supi.now) self.old) }
    {
        match link {
            Some(link) => self.claim_one(link, supi),
            None => Ok(()),
        }
    }

    // The same of a link that there is.
    fn claim_one(&mut self, link: u16, supi: &Supi) -> Result<(), Memory>
        ensures { OnOk result (self.new ≡ by (claimed_one link supi.now) self.old) }
    {
        let mut record = self.link(link);
        record.supi = Some(supi.copy());
        self.put_link(record)
    }

    // A challenge that there is a vector for.
    #[tactic(auto, unfolding(crate::specs::Challenges::challenge_begun))]
    fn begin_challenge(
        &mut self,
        purpose: Purpose,
        link: Option<u16>,
        v: &Vector,
        s: Record,
    ) -> Result<(), Memory>
        requires { v.now.sqn < 2 ^ 48 }
        ensures { OnOk result (self.new ≡ by (challenge_begun purpose link v.now s) self.old) }
    {
        let auth = authentication(self.config(), v, &s);
        self.begin_with(auth, purpose, link, s)
    }

    // The same, with what the answer is compared with.
    fn begin_with(
        &mut self,
        auth: Authentication,
        purpose: Purpose,
        link: Option<u16>,
        s: Record,
    ) -> Result<(), Memory>
        ensures { OnOk result (self.new ≡ by (begun_with auth purpose link s) self.old) }
    {
        self.claim(link, &s.supi)?;
        let challenging = Challenging {
            purpose,
            link,
            phase: Phase::Auth(auth),
            sendings: 1,
        };
        let s = Record {
            last_ksi: Some(auth.ksi),
            ..s
        };
        let s = challenge_open(&challenging, s);
        self.put_challenge(&challenging, s)
    }

    // A challenge that there is no vector for.
    #[tactic(auto, unfolding(nas_base::specs::Branches::per))]
    fn refuse_challenge(&mut self, purpose: &Purpose, link: Option<u16>) -> Result<(), Memory>
        ensures { OnOk result (self.new ≡ by (challenge_refused purpose.now link) self.old) }
    {
        match purpose {
            Purpose::Registration(_) => match link {
                Some(link) => self.reject(link, PROTOCOL_ERROR_UNSPECIFIED),
                None => Ok(()),
            },
            Purpose::Command => Ok(()),
        }
    }

    /// What comes of the home network's answer.
    pub fn by_vector(
        &mut self,
        answer: Result<Vector, HomeRefusal>,
        purpose: Purpose,
        link: Option<u16>,
        capability: Option<Capability>,
        s: Record,
    ) -> Result<(), Memory>
        requires { VectorFits answer }
        ensures { OnOk result (self.new ≡ by (by_vector answer purpose link capability s) self.old) }
    {
        match answer {
            Ok(v) => self.begin_challenge(purpose, link, &v, told(capability, idle(s))),
            Err(_) => {
                self.put(idle(s))?;
                self.refuse_challenge(&purpose, link)
            }
        }
    }

    /// A challenge starts; what is open ends.
    #[tactic(auto, unfolding(crate::specs::Challenges::challenge))]
    pub fn challenge(
        &mut self,
        alloc: Global,
        purpose: Purpose,
        link: Option<u16>,
        capability: Option<Capability>,
        s: Record,
    ) -> Result<(), Memory>
        ensures { OnOk result (self.new ≡ by (challenge purpose link capability s) self.old) }
    {
        self.stop_open(&s)?;
        let answer = self.next_vector(alloc, &s.supi)?;
        self.by_vector(answer, purpose, link, capability, s)
    }
}
