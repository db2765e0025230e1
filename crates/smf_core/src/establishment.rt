//! The establishment of PDU sessions.
ghost use Rattle.std.specs.Prelude.{◌≡◌, ◌≤◌, [], ◌∷◌, length, option_map, IfOk, OnOk};
ghost use Rattle.nas_qos.specs.declared.part.Part.TheVariants.{All};
ghost use Rattle.sm_messages.specs.Messages.{spelling};
ghost use Rattle.smf_core.specs.Drafts.{by};
ghost use Rattle.smf_core.specs.Establishment.{accept, accepted, addressed, answered, asked_for, default_rules, default_rules_octets, establishment_requested, has_slice, is_known_kind, is_same_sd, is_same_slice, kind_of_address, named, narrowed, new_session, newly_requested, only_allowed, or_first, refused, repeated, selected, subscribed, wanted};
ghost use Rattle.smf_core.specs.Work.{frame};

use crate::cell::{Answer, Cell};
use crate::draft::Work;
use crate::held::{Held, Phase};
use crate::kept_message::KeptMessage;
use crate::release::is_no_transaction;
use nas_base::sm_cause::{
    INSUFFICIENT_RESOURCES, MISSING_OR_UNKNOWN_DNN, PDU_SESSION_TYPE_IPV4_ONLY_ALLOWED,
    PDU_SESSION_TYPE_IPV6_ONLY_ALLOWED, UNKNOWN_PDU_SESSION_TYPE,
};
use nas_base::{Memory, Octets, Psi};
use nas_elements::{Address, Ambr, Dnn, Dnns, Nssai, Slice};
use nas_layout::Half;
use nas_qos::{Filter, Filters, Part, Parts, Rule, Rules};
use nas_security::Challenge;
use sm_messages::{
    FlowDescriptions, PduSessionEstablishmentAccept, PduSessionEstablishmentReject, Session,
    SessionType, Sm, SmFrame,
};
use std::alloc::Global;

/// Whose request is answered: the identities of its head, and the challenge of the context that it came under.
#[derive(Clone, Copy)]
pub struct Asking {
    pub psi: Psi,
    pub pti: u8,
    pub challenge: Challenge,
}

/// What a request asks for: a PDU session type of 1 to 3, on a data network that
/// has such kinds of addresses, and a slice.
#[derive(Drop)]
pub struct Asked {
    pub kind: u8,
    pub kinds: u8,
    pub dnn: Dnn,
    pub slice: Slice,
}

// One filter, which is for all packets of both directions.
fn default_filters(alloc: Global) -> Result<Filters, Memory>
    ensures { IfOk result (λ filters. filters ≡ record { id = 1; direction = 3; parts = All ∷ [] } ∷ []) }
{
    let mut parts = Vec::new(alloc);
    if parts.push(Part::All).is_err() {
        return Err(Memory);
    }
    let filter = Filter {
        id: 1,
        direction: 3,
        parts: Parts { items: parts },
    };
    let mut items = Vec::new(alloc);
    if items.push(filter).is_err() {
        return Err(Memory);
    }
    Ok(Filters { items })
}

// The QoS rules of a new session.
fn default_rules(alloc: Global) -> Result<Rules, Memory>
    ensures { IfOk result (λ rules. rules ≡ default_rules) }
{
    let rule = Rule {
        id: 1,
        default: true,
        filters: default_filters(alloc)?,
        precedence: 255,
        qfi: 1,
    };
    let mut items = Vec::new(alloc);
    if items.push(rule).is_err() {
        return Err(Memory);
    }
    Ok(Rules { items })
}

// The same as ESTABLISHMENT ACCEPT tells them.
fn default_rules_octets(alloc: Global) -> Result<Octets, Memory>
    ensures { IfOk result (λ octets. octets ≡ default_rules_octets) }
{
    match Octets::copy(
        alloc,
        &[0x01, 0x00, 0x06, 0x31, 0x31, 0x01, 0x01, 0xff, 0x01],
    ) {
        Ok(octets) => Ok(octets),
        Err(_) => Err(Memory),
    }
}

// Whether this is one of the three types, where a type is asked for.
#[tactic(auto, unfolding(nas_base::specs::Branches::per))]
fn is_known_kind(kind: &Option<SessionType>) -> bool
    ensures { result ≡ is_known_kind kind.now }
{
    match kind {
        Some(kind) => 1 <= kind.0 && kind.0 <= 3,
        None => true,
    }
}

// The type that is asked for on a data network of these kinds.
#[tactic(auto, unfolding(nas_base::specs::Branches::per, nas_base::specs::Branches::chosen))]
fn wanted(kind: &Option<SessionType>, kinds: u8) -> u8
    ensures { result ≡ wanted kind.now kinds }
{
    match kind {
        Some(kind) => kind.0,
        None if kinds == 2 => 2,
        None => 1,
    }
}

// The cause that says which type a data network has.
#[tactic(auto, unfolding(nas_base::specs::Branches::chosen))]
fn only_allowed(kinds: u8) -> u8
    ensures { result ≡ only_allowed kinds }
{
    if kinds == 1 {
        PDU_SESSION_TYPE_IPV4_ONLY_ALLOWED
    } else {
        PDU_SESSION_TYPE_IPV6_ONLY_ALLOWED
    }
}

// The type that a request gets, or the cause of its refusal.
#[tactic(auto, unfolding(nas_base::specs::Branches::chosen))]
fn selected(kind: u8, kinds: u8) -> Result<u8, u8>
    ensures { result ≡ selected kind kinds }
{
    if kind == 3 {
        return Ok(kinds);
    }
    if kinds == 3 || kinds == kind {
        return Ok(kind);
    }
    Err(only_allowed(kinds))
}

// The cause that ESTABLISHMENT ACCEPT tells where both types were asked for, and the data network has one.
#[tactic(auto, unfolding(nas_base::specs::Branches::chosen))]
fn narrowed(kind: u8, kinds: u8) -> Option<u8>
    ensures { result ≡ narrowed kind kinds }
{
    if kind == 3 && kinds != 3 {
        return Some(only_allowed(kinds));
    }
    None
}

// The type of an address.
fn kind_of_address(address: &Address) -> SessionType
    ensures { result ≡ kind_of_address address.now }
{
    match address {
        Address::V4(_) => SessionType(1),
        Address::V6(_) => SessionType(2),
        Address::V4V6(_, _) => SessionType(3),
    }
}

// Whether these are the same slice.
fn is_same_slice(a: &Slice, b: &Slice) -> bool
    ensures { result ≡ is_same_slice a.now b.now }
{
    a.sst == b.sst && is_same_sd(&a.sd, &b.sd)
}

fn is_same_sd(a: &Option<[u8; 3]>, b: &Option<[u8; 3]>) -> bool
    ensures { result ≡ is_same_sd a.now b.now }
{
    match (a, b) {
        (None, None) => true,
        (Some(a), Some(b)) => a == b,
        _ => false,
    }
}

// Whether a slice is one of these.
fn has_slice(slice: &Slice, slices: &Nssai) -> bool
    ensures { result ≡ has_slice slice.now slices.now }
{
    slices
        .as_slice()
        .iter()
        .any(|other| is_same_slice(slice, other))
}

// The data network that a request names, or else the first.
fn named_dnn<'b>(dnn: &'b Option<Dnn>, dnns: &'b Dnns) -> Option<&'b Dnn>
    ensures { option_map (λ d. d.now) result ≡ or_first dnn.now dnns.now }
{
    match dnn {
        Some(name) => Some(name),
        None => match dnns.as_slice() {
            [first, ..] => Some(first),
            [] => None,
        },
    }
}

// The slice that a request names, or else the first.
fn named_slice<'b>(slice: &'b Option<Slice>, slices: &'b Nssai) -> Option<&'b Slice>
    ensures { option_map (λ s. s.now) result ≡ or_first slice.now slices.now }
{
    match slice {
        Some(named) => Some(named),
        None => match slices.as_slice() {
            [first, ..] => Some(first),
            [] => None,
        },
    }
}

// A new session.
fn new_session(
    alloc: Global,
    asked: &Asked,
    address: Address,
    ambr: Ambr,
) -> Result<Session, Memory>
    ensures { IfOk result (λ session. session ≡ new_session asked.now address ambr) }
{
    Ok(Session {
        kind: kind_of_address(&address).0,
        address: Some(address),
        dnn: Some(asked.dnn.copy()),
        slice: Some(asked.slice.copy()),
        ambr,
        rules: default_rules(alloc)?,
    })
}

// PDU SESSION ESTABLISHMENT ACCEPT.
fn accept(alloc: Global, asked: &Asked, address: Address, ambr: Ambr) -> Result<Sm, Memory>
    ensures { IfOk result (λ body. body ≡ accept asked.now address ambr) }
{
    Ok(Sm::PduSessionEstablishmentAccept(PduSessionEstablishmentAccept {
        session_type: kind_of_address(&address),
        ssc_mode: Half(1),
        rules: default_rules_octets(alloc)?,
        ambr,
        cause: narrowed(asked.kind, asked.kinds),
        address: Some(address),
        slice: Some(asked.slice.copy()),
        flows: Some(FlowDescriptions),
        dnn: Some(asked.dnn.copy()),
    }))
}

impl<'a> Work<'a> {
    // An answer is said, and it is kept.
    #[tactic(auto, unfolding(crate::specs::Establishment::answered))]
    fn answered(&mut self, asking: Asking, held: Option<Held>, body: Sm) -> Result<(), Memory>
        requires { length (spelling (frame asking.psi asking.pti body)) ≤ 4096 }
        ensures { OnOk result (self.new ≡ by (answered asking held body) self.old) }
    {
        let frame = SmFrame {
            psi: asking.psi.0,
            pti: asking.pti,
            body,
        };
        let message = KeptMessage::of(self.alloc(), &frame)?;
        let answer = Answer {
            challenge: asking.challenge,
            message: message.copy(self.alloc())?,
        };
        self.put(
            asking.psi,
            Cell {
                held,
                answer: Some(answer),
            },
        )?;
        self.say_frame(asking.psi, message)
    }

    // PDU SESSION ESTABLISHMENT REJECT.
    fn refused(&mut self, asking: Asking, cause: u8) -> Result<(), Memory>
        ensures { OnOk result (self.new ≡ by (refused asking cause) self.old) }
    {
        let body = Sm::PduSessionEstablishmentReject(PduSessionEstablishmentReject { cause });
        self.answered(asking, None, body)
    }

    // The request is accepted with this address.
    #[tactic(auto, unfolding(crate::specs::Establishment::accepted))]
    fn accepted(&mut self, asking: Asking, asked: &Asked, address: Address) -> Result<(), Memory>
        ensures { OnOk result (self.new ≡ by (accepted asking asked.now address) self.old) }
    {
        let ambr = self.config().ambr;
        let session = new_session(self.alloc(), asked, address, ambr)?;
        let held = Held {
            session,
            phase: Phase::Active(None),
        };
        let _dnn = asked.dnn.as_slice();
        let _slice = asked.slice.size();
        let _address = address.size();
        let body = accept(self.alloc(), asked, address, ambr)?;
        self.answered(asking, Some(held), body)
    }

    // The same with the least free address of a kind, if there is one.
    #[tactic(auto, unfolding(nas_base::specs::Branches::per))]
    fn addressed(&mut self, asking: Asking, asked: &Asked, kind: u8) -> Result<(), Memory>
        ensures { OnOk result (self.new ≡ by (addressed asking asked.now kind) self.old) }
    {
        match self.take(kind)? {
            Some(address) => self.accepted(asking, asked, address),
            None => self.refused(asking, INSUFFICIENT_RESOURCES),
        }
    }

    // The same by what the data network has.
    #[tactic(auto, unfolding(crate::specs::Establishment::subscribed))]
    fn subscribed(&mut self, asking: Asking, asked: &Asked) -> Result<(), Memory>
        ensures { OnOk result (self.new ≡ by (subscribed asking asked.now) self.old) }
    {
        match selected(asked.kind, asked.kinds) {
            Ok(kind) => self.addressed(asking, asked, kind),
            Err(cause) => self.refused(asking, cause),
        }
    }

    // What a request asks for that names these, or the cause of its refusal.
    #[tactic(auto, unfolding(nas_base::specs::Branches::chosen))]
    fn named(&self, kind: &Option<SessionType>, dnn: &Dnn, slice: &Slice) -> Result<Asked, u8>
        ensures { result ≡ named kind.now dnn.now slice.now self.now.work }
    {
        if !self.dnns().has(dnn) || !has_slice(slice, self.slices()) {
            return Err(MISSING_OR_UNKNOWN_DNN);
        }
        let kinds = self.config().kinds.of(dnn, self.has_v6());
        Ok(Asked {
            kind: wanted(kind, kinds),
            kinds,
            dnn: dnn.copy(),
            slice: slice.copy(),
        })
    }

    // The same where it needn't name them.
    #[tactic(auto, unfolding(crate::specs::Establishment::asked_for, nas_base::specs::Branches::per, nas_base::specs::Branches::chosen))]
    fn asked_for<'x>(
        &'x self,
        kind: &Option<SessionType>,
        dnn: &'x Option<Dnn>,
        slice: &'x Option<Slice>,
    ) -> Result<Asked, u8>
        ensures { result ≡ asked_for kind.now dnn.now slice.now self.now.work }
    {
        if !is_known_kind(kind) {
            return Err(UNKNOWN_PDU_SESSION_TYPE);
        }
        let Some(network) = named_dnn(dnn, self.dnns()) else {
            return Err(MISSING_OR_UNKNOWN_DNN);
        };
        let Some(part) = named_slice(slice, self.slices()) else {
            return Err(MISSING_OR_UNKNOWN_DNN);
        };
        self.named(kind, network, part)
    }

    // A new request.
    #[tactic(auto, unfolding(crate::specs::Establishment::newly_requested))]
    fn newly_requested(
        &mut self,
        asking: Asking,
        kind: &Option<SessionType>,
        dnn: &Option<Dnn>,
        slice: &Option<Slice>,
    ) -> Result<(), Memory>
        ensures { OnOk result (self.new ≡ by (newly_requested asking kind.now dnn.now slice.now) self.old) }
    {
        self.removed(asking.psi)?;
        match self.asked_for(kind, dnn, slice) {
            Ok(asked) => self.subscribed(asking, &asked),
            Err(cause) => self.refused(asking, cause),
        }
    }

    // A repeated request: the same answer, unless its session is gone.
    #[tactic(auto, unfolding(nas_base::specs::Branches::chosen))]
    fn repeated(&mut self, asking: Asking, kept: Answer) -> Result<(), Memory>
        ensures { OnOk result (self.new ≡ by (repeated asking kept) self.old) }
    {
        let is_gone = self.held(asking.psi).is_none();
        if is_gone && kept.message.is_accept() {
            return Ok(());
        }
        self.say_frame(asking.psi, kept.message)
    }

    /// PDU SESSION ESTABLISHMENT REQUEST.
    #[tactic(auto, unfolding(crate::specs::Establishment::establishment_requested, nas_base::specs::Branches::per, nas_base::specs::Branches::chosen))]
    pub fn establishment_requested(
        &mut self,
        asking: Asking,
        kind: &Option<SessionType>,
        dnn: &Option<Dnn>,
        slice: &Option<Slice>,
    ) -> Result<(), Memory>
        ensures { OnOk result (self.new ≡ by (establishment_requested asking kind.now dnn.now slice.now) self.old) }
    {
        if is_no_transaction(asking.pti) {
            return Ok(());
        }
        let Some(kept) = self.cell(asking.psi).copied_answer(self.alloc())? else {
            return self.newly_requested(asking, kind, dnn, slice);
        };
        let last = kept.message.pti();
        if !kept.challenge.equals(&asking.challenge) || last < asking.pti {
            return self.newly_requested(asking, kind, dnn, slice);
        }
        if asking.pti == last {
            return self.repeated(asking, kept);
        }
        Ok(())
    }
}
