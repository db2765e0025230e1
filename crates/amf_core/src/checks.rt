//! Octets that pass the check of a context, and what an AMF notes of it.
ghost use Rattle.std.specs.Prelude.{◌≡◌, [], OnOk, option_map};
ghost use Rattle.amf_core.specs.Checks.{checked_in_use, checked_pending, noted, passed_in_use, passed_pending};
ghost use Rattle.amf_core.specs.Work.{by};

use crate::security_mode::{Commanding, commanding_on};
use crate::work::Work;
use crate::{AmfOut, Challenging, Phase, Procedure, Record};
use mm_entity::{counted, open};
use nas_base::{Count, Dir, Memory, Writer};
use nas_security::{Challenge, Context, Pass};

/// What passed: the subscriber as it is afterwards, the challenge of the context and whether the context still waits to be taken into
/// use, and the count.
#[derive(Drop)]
pub struct Check {
    pub subscriber: Record,
    pub challenge: Challenge,
    pub is_pending: bool,
    pub count: Count,
}

// What passed under the context in use.
fn passed_in_use(link: u16, context: &Context, count: Count, s: Record) -> Check
    ensures { result ≡ passed_in_use link context.now count s }
{
    Check {
        subscriber: Record {
            in_use: Some(counted(*context, Dir::Up, count)),
            link: Some(link),
            ..s
        },
        challenge: context.challenge,
        is_pending: false,
        count,
    }
}

/// Octets under the context in use, whose plain message is written where they pass.
#[tactic(auto, unfolding(crate::specs::Checks::checked_in_use, nas_base::specs::Branches::per))]
pub fn checked_in_use(link: u16, octets: &[u8], s: Record, out: &mut Writer) -> Option<Check>
    requires { out.old ≡ [] }
    ensures { option_map (λ check. record { check = check; message = out.new }) result ≡ checked_in_use link octets.now s }
{
    let context = s.in_use?;
    let count = open(&context, Dir::Up, octets, out)?;
    Some(passed_in_use(link, &context, count, s))
}

// What passed under the context that was commanded.
fn passed_pending(link: u16, commanding: &Commanding, count: Count, s: Record) -> Check
    ensures { result ≡ passed_pending link commanding.now count s }
{
    let challenging = Challenging {
        purpose: commanding.challenging.purpose.copy(),
        link: commanding.challenging.link,
        phase: Phase::Mode(counted(commanding.context, Dir::Up, count)),
        sendings: commanding.challenging.sendings,
    };
    Check {
        subscriber: Record {
            procedure: Procedure::Challenging(challenging),
            link: Some(link),
            ..s
        },
        challenge: commanding.context.challenge,
        is_pending: true,
        count,
    }
}

/// Octets under the context that was commanded on this link, whose plain message is written where they pass.
#[tactic(auto, unfolding(crate::specs::Checks::checked_pending, nas_base::specs::Branches::per))]
pub fn checked_pending(link: u16, octets: &[u8], s: &Record, out: &mut Writer) -> Option<Check>
    requires { out.old ≡ [] }
    ensures { option_map (λ check. record { check = check; message = out.new }) result ≡ checked_pending link octets.now s.now }
{
    let commanding = commanding_on(link, &s.procedure)?;
    let count = open(&commanding.context, Dir::Up, octets, out)?;
    Some(passed_pending(link, &commanding, count, s.copy()))
}

impl<'a> Work<'a> {
    /// That a message passed is noted.
    pub fn note(&mut self, link: u16, check: &Check) -> Result<(), Memory>
        ensures { OnOk result (self.new ≡ by (noted link check.now) self.old) }
    {
        self.put(check.subscriber.copy())?;
        let mut record = self.link(link);
        record.secure = true;
        record.supi = Some(check.subscriber.supi.copy());
        self.put_link(record)?;
        self.tell(AmfOut::Passed(Pass {
            supi: check.subscriber.supi.copy(),
            challenge: check.challenge,
            count: check.count,
        }))
    }
}
