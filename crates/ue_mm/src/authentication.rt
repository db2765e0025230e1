//! Primary authentication.
ghost use Rattle.std.specs.Prelude.{◌≡◌, ◌<◌, ◌^◌, OnOk};
ghost use Rattle.milenage.specs.Checking.{SqnFits};
ghost use Rattle.ue_mm.specs.Authentication.{accepted, answer_again, answered, authentication_requested, challenged, failure, is_ksi_refused, is_same, kamf_of, response};

use crate::work::Work;
use crate::{HandsetConfig, Pending, Stored};
use key_chain::{challenge_kamf, res_star};
use milenage::{AutnAnswer, check_autn};
use mm_messages::{AuthenticationFailure, AuthenticationRequest, AuthenticationResponse, Mm};
use nas_base::mm_cause::{
    MAC_FAILURE, NGKSI_ALREADY_IN_USE, NON_5G_AUTHENTICATION_UNACCEPTABLE,
    PROTOCOL_ERROR_UNSPECIFIED, SYNCH_FAILURE,
};
use nas_base::{Ksi, Memory};
use nas_layout::Abba;
use nas_security::{Challenge, Context};
use nas_timers::TimerId;

/// An AUTHENTICATION REQUEST that has RAND and AUTN (TS 24.501 clause 8.2.1).
#[derive(Drop)]
pub struct Request {
    pub ksi: Ksi,
    pub abba: Abba,
    pub rand: [u8; 16],
    pub autn: [u8; 16],
}

// What MILENAGE gives for a challenge that is accepted.
#[derive(Clone, Copy)]
struct Answer {
    sqn: u64,
    res: [u8; 8],
    ck: [u8; 16],
    ik: [u8; 16],
}

impl Request {
    /// An equal value.
    pub fn copy(&self) -> Request
        ensures { result ≡ self.now }
    {
        Request {
            ksi: self.ksi,
            abba: self.abba.copy(),
            rand: self.rand,
            autn: self.autn,
        }
    }

    // Whether it is equal in all its parts.
    fn is_same(&self, other: &Request) -> bool
        ensures { result ≡ is_same self.now other.now }
    {
        self.ksi == other.ksi
            && self.abba.as_slice() == other.abba.as_slice()
            && self.rand == other.rand
            && self.autn == other.autn
    }
}

// KAMF of the challenge.
fn kamf_of(config: &HandsetConfig, ck: &[u8; 16], ik: &[u8; 16], request: &Request) -> [u8; 32]
    ensures { result ≡ kamf_of config.now ck.now ik.now request.now }
{
    challenge_kamf(
        ck,
        ik,
        &request.autn,
        &config.plmn,
        &config.supi,
        request.abba.as_slice(),
    )
}

// The answer to the challenge that was accepted last, where the request is the same.
#[tactic(auto, unfolding(nas_base::specs::Branches::chosen, nas_base::specs::Branches::per))]
fn answer_again(stored: &Option<Stored>, request: &Request) -> Option<[u8; 16]>
    ensures { result ≡ answer_again stored.now request.now }
{
    match stored {
        Some(stored) if stored.request.is_same(request) => Some(stored.res_star),
        _ => None,
    }
}

// Whether the ngKSI says that no key is to come of it, or is that of the current context.
#[tactic(auto, unfolding(nas_base::specs::Branches::per))]
fn is_ksi_refused(current: &Option<Context>, ksi: Ksi) -> bool
    ensures { result ≡ is_ksi_refused current.now ksi }
{
    if ksi.0 == 7 {
        return true;
    }
    match current {
        Some(context) => context.ksi == ksi,
        None => false,
    }
}

impl Work {
    /// AUTHENTICATION REQUEST.
    #[tactic(auto, unfolding(crate::specs::Authentication::authentication_requested, nas_base::specs::Branches::per))]
    pub fn authentication_requested(
        &mut self,
        request: &AuthenticationRequest,
    ) -> Result<(), Memory>
        ensures { OnOk result (self.new ≡ authentication_requested request.now self.old) }
    {
        let Some(rand) = request.rand else {
            return self.status(PROTOCOL_ERROR_UNSPECIFIED);
        };
        let Some(autn) = request.autn else {
            return self.status(PROTOCOL_ERROR_UNSPECIFIED);
        };
        self.challenged(Request {
            ksi: request.ksi,
            abba: request.abba.copy(),
            rand,
            autn,
        })
    }

    // A challenge, in the order of its cases.
    #[tactic(auto, unfolding(crate::specs::Authentication::challenged, nas_base::specs::Branches::chosen, nas_base::specs::Branches::per))]
    fn challenged(&mut self, request: Request) -> Result<(), Memory>
        ensures { OnOk result (self.new ≡ challenged request self.old) }
    {
        if let Some(res_star) = answer_again(&self.common.stored, &request) {
            return self.respond(res_star);
        }
        if is_ksi_refused(&self.common.current, request.ksi) {
            return self.fail(NGKSI_ALREADY_IN_USE, None);
        }
        let config = &self.common.config;
        let answer = check_autn(
            &config.k,
            &config.opc,
            &request.rand,
            &request.autn,
            self.common.sqn,
        );
        self.answered(answer, request)
    }

    // What MILENAGE answers.
    fn answered(&mut self, answer: AutnAnswer, request: Request) -> Result<(), Memory>
        requires { SqnFits answer }
        ensures { OnOk result (self.new ≡ answered answer request self.old) }
    {
        match answer {
            AutnAnswer::Accepted {
                sqn,
                res,
                ck,
                ik,
                ak: _,
            } => { self.accept_challenge(request, Answer { sqn, res, ck, ik }) }
            AutnAnswer::MacFailure => self.fail(MAC_FAILURE, None),
            AutnAnswer::NotFiveG => self.fail(NON_5G_AUTHENTICATION_UNACCEPTABLE, None),
            AutnAnswer::SynchFailure { auts } => self.fail(SYNCH_FAILURE, Some(auts)),
        }
    }

    // The challenge is accepted: its key waits for a command, and the request is kept with its answer.
    fn accept_challenge(&mut self, request: Request, answer: Answer) -> Result<(), Memory>
        requires { answer.sqn < 2 ^ 48 }
        ensures { OnOk result (self.new ≡ accepted request answer.sqn answer.res answer.ck answer.ik self.old) }
    {
        let config = &self.common.config;
        let res_star = res_star(
            &answer.ck,
            &answer.ik,
            &config.plmn,
            &request.rand,
            &answer.res,
        );
        let pending = Pending {
            challenge: Challenge {
                sqn: answer.sqn,
                rand: request.rand,
            },
            ksi: request.ksi,
            kamf: kamf_of(config, &answer.ck, &answer.ik, &request),
        };
        self.common.sqn = answer.sqn;
        self.common.pending = Some(pending);
        self.common.stored = Some(Stored { request, res_star });
        self.start(TimerId::T3516)?;
        self.respond(res_star)
    }

    // AUTHENTICATION RESPONSE.
    fn respond(&mut self, res_star: [u8; 16]) -> Result<(), Memory>
        ensures { OnOk result (self.new ≡ response res_star self.old) }
    {
        self.answer(Mm::AuthenticationResponse(AuthenticationResponse {
            res_star: Some(res_star),
        }))
    }

    // AUTHENTICATION FAILURE.
    fn fail(&mut self, cause: u8, auts: Option<[u8; 14]>) -> Result<(), Memory>
        ensures { OnOk result (self.new ≡ failure cause auts self.old) }
    {
        self.answer(Mm::AuthenticationFailure(AuthenticationFailure { cause, auts }))
    }
}
