//! What passes a check, and what octets do that pass none.
ghost use Rattle.std.specs.Prelude.{true};
ghost use Rattle.amf_laws.specs.Passing.{FailedRequestsRejected, OpensWherePassing, PlainDoByKind, SecuresWherePassing, UncheckedDoNothing, Uplinks};

use amf_core::Amf;
use milenage::Home;
use nas_base::Moment;

/// How octets arrive: on which link, and whether they are the first of a connection.
#[derive(Clone, Copy)]
pub struct Arrival {
    pub link: u16,
    pub fresh: bool,
}

/// A message that an AMF takes as passed, passes (`nas_security`): each pass that a step tells is of a subscriber that was kept, whose
/// context in use, or the one that was commanded on this link, has the challenge that is told, and under that the octets are the frame
/// of a message at the count that is told (TS 24.501 clause 4.4.4.3).
pub fn opened_where_passing(
    amf: &Amf,
    home: &Home,
    now: Moment,
    rand: &[u8; 16],
    arrival: Arrival,
    octets: &[u8],
)
    ensures { OpensWherePassing amf.now arrival.link octets.now (Uplinks amf.now home.now now rand.now arrival.link arrival.fresh octets.now) }
{}

/// The first message of a connection leaves its link not secure, whatever its octets are, unless they passed a check in this very step
/// (TS 24.501 clause 4.4.2.5).
pub fn fresh_uplink_clears_the_mark(
    amf: &Amf,
    home: &Home,
    now: Moment,
    rand: &[u8; 16],
    link: u16,
    octets: &[u8],
)
    ensures { SecuresWherePassing link (Uplinks amf.now home.now now rand.now link true octets.now) }
{}

/// Octets that pass no check, which a step tells by telling no pass, change nothing, and are answered by nothing, except on a link that isn't secure plain ones, and a frame of
/// header type 1 with a REGISTRATION REQUEST or a SERVICE REQUEST inside; and except that the first of a connection leave their link not
/// secure. So a DEREGISTRATION REQUEST that fails changes no record (TS 24.501 clause 4.4.4.3).
pub fn unchecked_octets_do_nothing(
    amf: &Amf,
    home: &Home,
    now: Moment,
    rand: &[u8; 16],
    arrival: Arrival,
    octets: &[u8],
)
    ensures { UncheckedDoNothing amf.now home.now now rand.now arrival.link arrival.fresh octets.now }
{}

/// What plain octets do on a link that isn't secure: the row of a message that is permitted, STATUS 97, STATUS 96, or nothing; and where
/// each of them comes (TS 24.501 clauses 4.4.4.3, 7.4 and 7.5.1).
pub fn plain_octets_by_kind(
    amf: &Amf,
    home: &Home,
    now: Moment,
    rand: &[u8; 16],
    arrival: Arrival,
    octets: &[u8],
)
    ensures { PlainDoByKind amf.now home.now now rand.now arrival.link arrival.fresh octets.now }
{}

/// On a link that isn't secure a SERVICE REQUEST that passes no check, so that the step tells no pass, plain or in a frame of header type 1, is answered by SERVICE REJECT
/// with cause 9, and changes no record of a subscriber (TS 24.501 clauses 4.4.4.3 and 5.6.1.5).
pub fn failed_service_request_changes_nothing(
    amf: &Amf,
    home: &Home,
    now: Moment,
    rand: &[u8; 16],
    arrival: Arrival,
    octets: &[u8],
)
    ensures { FailedRequestsRejected amf.now home.now now rand.now arrival.link arrival.fresh octets.now }
{}
