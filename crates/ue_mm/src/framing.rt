//! How what is said becomes octets: spelled, and protected under the current context.
ghost use Rattle.std.specs.Prelude.{◌≡◌, ◌≤◌, [], OnOk, length};
ghost use Rattle.mm_messages.specs.Messages.{spelling};
ghost use Rattle.ue_mm.specs.Framing.{framed, framed_all, framed_out, framed_plain, framed_protected};
ghost use Rattle.ue_mm.specs.declared.acts.Act.TheVariants.{Say};
ghost use Rattle.ue_mm.specs.declared.outs.UeOut.TheVariants.{Send};

use crate::acts::{Act, Acts, Protection};
use crate::{UeOut, UeOuts};
use mm_entity::{frame_under, spelled};
use mm_messages::Mm;
use nas_base::{Dir, Memory, Octets, Supi, Writer};
use nas_security::{Context, Pass};
use std::alloc::Global;

/// The current context, whose counts the messages take, and what was sent and told so far.
#[derive(Drop)]
pub struct Framed {
    pub current: Option<Context>,
    pub outs: UeOuts,
}

impl Framed {
    /// What was said, one after the other.
    pub fn all(&mut self, alloc: Global, supi: &Supi, acts: Acts) -> Result<(), Memory>
        ensures { OnOk result (self.new ≡ framed_all supi.now acts self.old) }
    {
        for act in acts.items {
            self.one(alloc, supi, act)?;
        }
        Ok(())
    }

    // One thing that was said.
    #[tactic(auto, unfolding(crate::specs::Framing::framed))]
    fn one(&mut self, alloc: Global, supi: &Supi, act: Act) -> Result<(), Memory>
        ensures { OnOk result (self.new ≡ framed supi.now act self.old) }
    {
        match act {
            Act::Tell(out) => self.outs.push(alloc, out),
            Act::Say {
                fresh,
                protection,
                message,
            } => self.say(alloc, supi, fresh, protection, &message),
        }
    }

    // A message that was said.
    #[tactic(auto, unfolding(crate::specs::Framing::framed))]
    fn say(
        &mut self,
        alloc: Global,
        supi: &Supi,
        fresh: bool,
        protection: Protection,
        message: &Mm,
    ) -> Result<(), Memory>
        ensures { OnOk result (self.new ≡ framed supi.now (Say fresh protection message.now) self.old) }
    {
        match protection {
            Protection::Plain => self.plain(alloc, fresh, message),
            Protection::IntegrityProtected => self.protected(alloc, supi, 1, fresh, message),
            Protection::Ciphered => self.protected(alloc, supi, 2, fresh, message),
            Protection::CipheredWithNewContext => self.protected(alloc, supi, 4, fresh, message),
        }
    }

    // A plain message.
    #[tactic(auto, unfolding(nas_base::specs::Branches::chosen))]
    fn plain(&mut self, alloc: Global, fresh: bool, message: &Mm) -> Result<(), Memory>
        ensures { OnOk result (self.new ≡ framed_plain fresh (spelling message.now) self.old) }
    {
        let mut out = Writer::new();
        if !spelled(message, &mut out) {
            return Ok(());
        }
        self.send(alloc, fresh, out.octets(), None)
    }

    // A message under the current context.
    #[tactic(auto, unfolding(nas_base::specs::Branches::chosen, nas_base::specs::Branches::per))]
    fn protected(
        &mut self,
        alloc: Global,
        supi: &Supi,
        header: u8,
        fresh: bool,
        message: &Mm,
    ) -> Result<(), Memory>
        requires { (1 ≤ header) × (header ≤ 4) }
        ensures { OnOk result (self.new ≡ framed_protected supi.now header fresh (spelling message.now) self.old) }
    {
        let Some(mut context) = self.current else {
            return Ok(());
        };
        let mut out = Writer::new();
        let Some(pass) = frame_under(&mut context, Dir::Up, header, message, supi, &mut out) else {
            return Ok(());
        };
        self.current = Some(context);
        self.send(alloc, fresh, out.octets(), Some(pass))
    }

    // Octets go out.
    fn send(
        &mut self,
        alloc: Global,
        fresh: bool,
        octets: &[u8],
        pass: Option<Pass>,
    ) -> Result<(), Memory>
        requires { length octets.now ≤ 4100 }
        ensures { OnOk result (self.new ≡ framed_out (Send fresh octets.now pass) self.old) }
    {
        let Ok(octets) = Octets::copy(alloc, octets) else {
            return Err(Memory);
        };
        let send = UeOut::Send {
            fresh,
            octets,
            pass,
        };
        self.outs.push(alloc, send)
    }
}
