//! Scripts: the events of a run, each with its line.

use crate::Event;
use nas_base::Octets1M;
use std::marker::Model;

/// An event, with its line as it was given, which holds no line feed.
#[derive(Drop)]
pub struct ScriptLine {
    pub event: Event,
    pub text: Octets1M,
}

impl Model for ScriptLine {
    ghost use Rattle.std.specs.Prelude.{◌≡◌, true};
    ghost use Rattle.nas_world.specs.Script.{Line, is_one_line};

    ghost Value = { Line };

    ghost view = { λ l. record { event = l.event; text = l.text } };

    ghost invariant = { λ l. is_one_line l.text ≡ true };
}

/// At most 65,536 events in order.
#[derive(Drop)]
pub struct Script {
    pub items: Vec<ScriptLine>,
}

impl Model for Script {
    ghost use Rattle.std.specs.Prelude.{List, ◌≤◌, length};
    ghost use Rattle.nas_world.specs.Script.{Line};

    ghost Value = { List Line };

    ghost view = { λ s. s.items.items };

    ghost invariant = { λ s. length s.items.items ≤ 65536 };
}
