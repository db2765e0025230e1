//! 5GSM messages as text.
ghost use Rattle.std.specs.Prelude.{◌≡◌, ◌++◌, IfOk, OnOk};
ghost use Rattle.nas_show.specs.Shown.{Shows, session, session_head, session_text};
ghost use Rattle.sm_messages.specs.Messages.{sm_in};

use crate::ShowRefusal;
use crate::lines::{Lines, append};
use nas_base::Memory;
use sm_messages::{SmFrame, SmRefusal, decode_sm, kind_of, tell};
use std::alloc::Global;

/// A 5GSM message.
pub fn show_session(alloc: Global, octets: &[u8]) -> Result<Vec<u8>, ShowRefusal>
    ensures { Shows (λ text. text.items) result (session (sm_in octets.now)) }
{
    match decode_sm(alloc, octets) {
        Ok(frame) => match session_text_of(alloc, &frame) {
            Ok(text) => Ok(text),
            Err(Memory) => Err(ShowRefusal::Memory),
        },
        Err(SmRefusal::Ignored { at }) => Err(ShowRefusal::Octets { place: at }),
        Err(SmRefusal::UnknownType { n: _ }) => Err(ShowRefusal::Octets { place: 3 }),
        Err(SmRefusal::Mandatory { part: _, at }) => Err(ShowRefusal::Octets { place: at }),
        Err(SmRefusal::Memory) => Err(ShowRefusal::Memory),
    }
}

// Its type, its two identities, and its lines.
#[tactic(auto, using(crate::proofs::LinesTold::lines_told), unfolding(crate::specs::Shown::session_text))]
fn session_text_of(alloc: Global, frame: &SmFrame) -> Result<Vec<u8>, Memory>
    ensures { IfOk result (λ text. text.items ≡ session_text frame.now) }
{
    let mut text = Vec::new(alloc);
    let kind = kind_of(&frame.body).code();
    append_session_head(alloc, &mut text, kind, frame.psi, frame.pti)?;
    let mut lines = Lines::new(alloc, text);
    tell(&frame.body, &mut lines)?;
    Ok(lines.into_text())
}

// The line of its head.
#[tactic(auto, unfolding(crate::specs::Shown::session_head))]
fn append_session_head(
    alloc: Global,
    text: &mut Vec<u8>,
    kind: u8,
    psi: u8,
    pti: u8,
) -> Result<(), Memory>
    ensures { OnOk result (text.new.items ≡ text.old.items ++ session_head kind psi pti) }
{
    let Ok(code) = hex::encode(alloc, [kind]) else {
        return Err(Memory);
    };
    let Ok(line) = format!(in alloc; "5gsm {code} psi {psi} pti {pti}\n") else {
        return Err(Memory);
    };
    append(text, line.as_bytes())
}
