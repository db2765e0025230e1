//! What a network tells of the QoS flows of a session.

use nas_layout::{Coded, Readable, Spelled};

/// That QoS flow descriptions are there (TS 24.501 clause 9.11.4.12). What they describe is not kept: they are written as one
/// description, which creates flow 1 with 5QI 9.
#[derive(Clone, Copy, Debug, PartialEq, Eq)]
pub struct FlowDescriptions;

impl Coded for FlowDescriptions {
    ghost use Rattle.sm_messages.specs.FlowDescriptions.{flow_descriptions};

    ghost coding = { flow_descriptions };

    ghost most = { 6 };

    fn octets(&self) -> Spelled<'_> {
        Spelled::of_octets(&[0x01, 0x20, 0x41, 0x01, 0x01, 0x09])
    }
}

impl Readable for FlowDescriptions {
    fn read_from(_octets: &[u8]) -> Option<FlowDescriptions> {
        Some(FlowDescriptions)
    }

    fn is_read_back(&self) {}
}
