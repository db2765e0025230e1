//! A network on its way through inputs.

use crate::network_inputs::{Input, Word};
use crate::network_texts::{delivery_text, refusal_text, view_text};
use nas_base::{Moment, Supi};
use nas_network::{NetCommand, NetConfig, Network, Subscriber};
use probe_words::{Refusal, push};
use std::alloc::Global;

// The number of links.
const LINKS: u16 = 64;

/// A network, its subscribers, the RAND of its challenges, and what it answered so far.
#[derive(Drop)]
pub struct Course {
    network: Network,
    supis: Vec<Supi>,
    rand: [u8; 16],
    pub told: String,
}

impl Course {
    /// A network that was just made.
    pub fn new(alloc: Global, config: &NetConfig) -> Result<Course, Refusal> {
        let network = Network::new(alloc, config)?;
        Ok(Course {
            network,
            supis: supis_of(alloc, config.subscribers.as_slice())?,
            rand: [0; 16],
            told: String::new(alloc),
        })
    }

    /// What comes of the next word, behind the other answers.
    pub fn go(&mut self, alloc: Global, word: Word) -> Result<(), Refusal> {
        match word {
            Word::Random(rand) => {
                self.rand = rand;
                Ok(())
            }
            Word::Input(input) => self.step(alloc, input),
        }
    }

    // What comes of an input, behind the other answers.
    fn step(&mut self, alloc: Global, input: Input) -> Result<(), Refusal> {
        let came = self.came(alloc, input)?;
        let views = self.views(alloc)?;
        if !self.told.is_empty() {
            push(&mut self.told, " ")?;
        }
        push(&mut self.told, came.as_str())?;
        push(&mut self.told, views.as_str())
    }

    // What comes of an input, with a comma behind each.
    fn came(&mut self, alloc: Global, input: Input) -> Result<String, Refusal> {
        match input {
            Input::Command(command) => self.command(alloc, &command),
            Input::Octets {
                link,
                fresh,
                octets,
            } => self.deliver(alloc, link, fresh, &octets),
            Input::Tick(now) => self.tick(alloc, now),
            Input::Drop { link } => self.drop_link(alloc, link),
            Input::Copy => {
                self.network = self.network.copy(alloc)?;
                Ok(String::new(alloc))
            }
        }
    }

    fn command(&mut self, alloc: Global, command: &NetCommand) -> Result<String, Refusal> {
        let rand = self.rand;
        match self.network.command(alloc, &rand, command) {
            Ok(delivery) => delivery_text(alloc, &delivery),
            Err(refusal) => refusal_text(alloc, refusal),
        }
    }

    fn tick(&mut self, alloc: Global, now: Moment) -> Result<String, Refusal> {
        let rand = self.rand;
        let delivery = self.network.tick(alloc, &rand, now)?;
        delivery_text(alloc, &delivery)
    }

    fn deliver(
        &mut self,
        alloc: Global,
        link: u16,
        fresh: bool,
        octets: &[u8],
    ) -> Result<String, Refusal> {
        if link < 1 || link > LINKS {
            return Err(Refusal::Unreadable);
        }
        let rand = self.rand;
        let delivery = self.network.deliver(alloc, &rand, link, fresh, octets)?;
        delivery_text(alloc, &delivery)
    }

    fn drop_link(&mut self, alloc: Global, link: u16) -> Result<String, Refusal> {
        if link < 1 || link > LINKS {
            return Err(Refusal::Unreadable);
        }
        self.network.drop_link(alloc, link)?;
        Ok(String::new(alloc))
    }

    // What can be seen of each subscriber.
    fn views(&self, alloc: Global) -> Result<String, Refusal> {
        let mut line = String::new(alloc);
        for supi in &self.supis {
            if !line.is_empty() {
                push(&mut line, "|")?;
            }
            let view = self.seen(alloc, supi)?;
            push(&mut line, view.as_str())?;
        }
        Ok(line)
    }

    fn seen(&self, alloc: Global, supi: &Supi) -> Result<String, Refusal> {
        match self.network.view(supi) {
            Some(view) => view_text(alloc, &view),
            None => Err(Refusal::Unreadable),
        }
    }
}

// The SUPIs of the subscribers, in their order.
fn supis_of(alloc: Global, subscribers: &[Subscriber]) -> Result<Vec<Supi>, Refusal> {
    let mut supis = Vec::new(alloc);
    for subscriber in subscribers {
        supis
            .push(subscriber.supi.copy())
            .map_err(|_| Refusal::Memory)?;
    }
    Ok(supis)
}
