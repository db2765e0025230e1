//! How what is said becomes octets: spelled, and protected under the contexts of the subscribers.
ghost use Rattle.std.specs.Prelude.{◌≡◌, ◌≤◌, [], OnOk, length};
ghost use Rattle.mm_messages.specs.Messages.{spelling};
ghost use Rattle.amf_core.specs.Framing.{by, ciphered_for, framed, framed_all, framed_ciphered, framed_out, framed_plain, framed_with_new_context, sent, under_in_use, under_new, with_record};
ghost use Rattle.amf_core.specs.State.{subscriber_in};

use crate::acts::{Act, Acts, Protection};
use crate::draft::Draft;
use crate::security_mode::{Commanding, commanding_of};
use crate::{AmfOut, AmfOuts, Challenging, Phase, Procedure, Record};
use mm_entity::{frame_under, spelled};
use mm_messages::Mm;
use nas_base::{Dir, Memory, Octets, Supi, Writer};
use nas_security::{Context, Pass, Send};
use std::alloc::Global;
use std::marker::Model;

/// The AMF, whose contexts' counts the messages take, and what was sent and told so far.
#[derive(Drop)]
pub struct Framing<'a> {
    core: Draft<'a>,
    outs: AmfOuts,
}

impl<'a> Model for Framing<'a> {
    ghost use Rattle.amf_core.specs.Framing as states;

    ghost Value = { states.Framing };

    ghost view = { λ f. record { framed = record { amf = f.core.amf; outs = f.outs }; home = f.core.home; before = f.core.before } };
}

impl<'a> Framing<'a> {
    /// Nothing is sent yet.
    pub fn new(alloc: Global, core: Draft<'a>) -> Framing<'a>
        ensures { result ≡ record { framed = record { amf = core.entry.amf; outs = [] }; home = core.entry.home; before = core.entry.before } }
    {
        Framing {
            core,
            outs: AmfOuts::new(alloc),
        }
    }

    /// What it leaves, and what goes out.
    pub fn end(self) -> (Draft<'a>, AmfOuts)
        ensures { result ≡ (record { amf = self.entry.framed.amf; home = self.entry.home; before = self.entry.before }, self.entry.framed.outs) }
    {
        (self.core, self.outs)
    }

    // The record of a subscriber, by the digits of its SUPI.
    fn subscriber(&self, supi: &[u8]) -> Option<Record>
        ensures { result ≡ subscriber_in supi.now self.now.framed.amf.subscribers }
    {
        self.core.subscriber(supi)
    }

    // A record whose count was taken takes the place of that of its subscriber.
    fn put(&mut self, subscriber: Record) -> Result<(), Memory>
        ensures { OnOk result (self.new ≡ by (with_record subscriber) self.old) }
    {
        self.core.put(subscriber)
    }

    // One more goes out.
    fn push(&mut self, alloc: Global, out: AmfOut) -> Result<(), Memory>
        ensures { OnOk result (self.new ≡ by (framed_out out) self.old) }
    {
        self.outs.push(alloc, out)
    }

    /// What was said, one after the other.
    pub fn all(&mut self, alloc: Global, acts: Acts) -> Result<(), Memory>
        ensures { OnOk result (self.new ≡ by (framed_all acts) self.old) }
    {
        for act in acts.items {
            self.one(alloc, act)?;
        }
        Ok(())
    }

    // One thing that was said.
    #[tactic(auto, unfolding(crate::specs::Framing::framed))]
    fn one(&mut self, alloc: Global, act: Act) -> Result<(), Memory>
        ensures { OnOk result (self.new ≡ by (framed act) self.old) }
    {
        match act {
            Act::Tell(out) => self.push(alloc, out),
            Act::Say {
                link,
                protection,
                message,
            } => match protection {
                Protection::Plain => self.plain(alloc, link, &message),
                Protection::Ciphered(supi) => self.ciphered(alloc, link, &supi, &message),
                Protection::IntegrityProtectedWithNewContext(supi) => {
                    self.with_new_context(alloc, link, &supi, &message)
                }
            },
        }
    }

    // A plain message.
    #[tactic(auto, unfolding(nas_base::specs::Branches::chosen))]
    fn plain(&mut self, alloc: Global, link: u16, message: &Mm) -> Result<(), Memory>
        ensures { OnOk result (self.new ≡ by (framed_plain link (spelling message.now)) self.old) }
    {
        let mut out = Writer::new();
        if !spelled(message, &mut out) {
            return Ok(());
        }
        self.send(alloc, link, out.octets(), None)
    }

    // A message of header type 2.
    #[tactic(auto, unfolding(crate::specs::Framing::framed_ciphered, nas_base::specs::Branches::per))]
    fn ciphered(
        &mut self,
        alloc: Global,
        link: u16,
        supi: &Supi,
        message: &Mm,
    ) -> Result<(), Memory>
        ensures { OnOk result (self.new ≡ by (framed_ciphered link supi.now (spelling message.now)) self.old) }
    {
        match self.subscriber(supi.as_slice()) {
            Some(s) => self.ciphered_for(alloc, link, message, s),
            None => self.plain(alloc, link, message),
        }
    }

    // The same for a subscriber that is kept.
    #[tactic(auto, unfolding(nas_base::specs::Branches::per))]
    fn ciphered_for(
        &mut self,
        alloc: Global,
        link: u16,
        message: &Mm,
        s: Record,
    ) -> Result<(), Memory>
        ensures { OnOk result (self.new ≡ by (ciphered_for link (spelling message.now) s) self.old) }
    {
        match s.in_use {
            Some(context) => self.under_in_use(alloc, link, message, context, s),
            None => self.plain(alloc, link, message),
        }
    }

    // The same under the context in use.
    #[tactic(auto, unfolding(nas_base::specs::Branches::chosen))]
    fn under_in_use(
        &mut self,
        alloc: Global,
        link: u16,
        message: &Mm,
        context: Context,
        s: Record,
    ) -> Result<(), Memory>
        ensures { OnOk result (self.new ≡ by (under_in_use link (spelling message.now) context s) self.old) }
    {
        let mut context = context;
        let mut out = Writer::new();
        let Some(pass) = frame_under(&mut context, Dir::Down, 2, message, &s.supi, &mut out) else {
            return Ok(());
        };
        self.put(Record {
            in_use: Some(context),
            ..s
        })?;
        self.send(alloc, link, out.octets(), Some(pass))
    }

    // A message of header type 3.
    #[tactic(auto, unfolding(crate::specs::Framing::framed_with_new_context, nas_base::specs::Branches::per))]
    fn with_new_context(
        &mut self,
        alloc: Global,
        link: u16,
        supi: &Supi,
        message: &Mm,
    ) -> Result<(), Memory>
        ensures { OnOk result (self.new ≡ by (framed_with_new_context link supi.now (spelling message.now)) self.old) }
    {
        let Some(s) = self.subscriber(supi.as_slice()) else {
            return Ok(());
        };
        match commanding_of(&s.procedure) {
            Some(commanding) => self.under_new(alloc, link, message, &commanding, s),
            None => Ok(()),
        }
    }

    // The same under the context that is commanded.
    #[tactic(auto, unfolding(nas_base::specs::Branches::chosen))]
    fn under_new(
        &mut self,
        alloc: Global,
        link: u16,
        message: &Mm,
        commanding: &Commanding,
        s: Record,
    ) -> Result<(), Memory>
        ensures { OnOk result (self.new ≡ by (under_new link (spelling message.now) commanding.now s) self.old) }
    {
        let mut context = commanding.context;
        let mut out = Writer::new();
        let Some(pass) = frame_under(&mut context, Dir::Down, 3, message, &s.supi, &mut out) else {
            return Ok(());
        };
        let challenging = Challenging {
            purpose: commanding.challenging.purpose.copy(),
            link: commanding.challenging.link,
            phase: Phase::Mode(context),
            sendings: commanding.challenging.sendings,
        };
        self.put(Record {
            procedure: Procedure::Challenging(challenging),
            ..s
        })?;
        self.send(alloc, link, out.octets(), Some(pass))
    }

    // Octets go out.
    fn send(
        &mut self,
        alloc: Global,
        link: u16,
        octets: &[u8],
        pass: Option<Pass>,
    ) -> Result<(), Memory>
        requires { length octets.now ≤ 4100 }
        ensures { OnOk result (self.new ≡ by (sent link octets.now pass) self.old) }
    {
        let Ok(octets) = Octets::copy(alloc, octets) else {
            return Err(Memory);
        };
        let send = Send {
            link,
            fresh: false,
            octets,
            pass,
        };
        self.push(alloc, AmfOut::Send(send))
    }
}
