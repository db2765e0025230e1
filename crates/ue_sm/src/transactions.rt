//! What a handset has under way on a session.
ghost use Rattle.std.specs.Prelude.{◌≡◌, ◌≤◌, ◌<◌, length, IfOk};
ghost use Rattle.sm_messages.specs.Messages.{spelling};
ghost use Rattle.ue_sm.specs.Transactions.{opened, sent_again};

use crate::messages::{copied, spelled};
use nas_base::{Memory, Octets, Pti};
use nas_elements::Dnn;
use sm_messages::SmFrame;
use sm_messages::laws::frame_is_read_back;
use std::alloc::Global;
use std::marker::Model;

/// A request of the handset's that awaits its answer: the identity of the transaction, the octets of the request, which
/// are made once and sent as they are each time, the data network that its transport names, if any, and how often it
/// was sent. Its timer is that of the session's state (`timer_of` in specs/Cells.antt).
#[derive(Drop)]
pub struct Transaction {
    pti: Pti,
    octets: Octets,
    dnn: Option<Dnn>,
    sendings: u8,
}

impl Model for Transaction {
    ghost use Rattle.ue_sm.specs.Transactions.{IsKept, OpenTransaction, request_in};

    ghost Value = { OpenTransaction };

    ghost view = { λ t. record { request = request_in t.octets; dnn = t.dnn; sendings = t.sendings } };

    ghost invariant = { λ t. IsKept t.octets t.pti t.sendings };
}

impl Transaction {
    /// A transaction whose request is sent for the first time.
    ///
    /// # Errors
    ///
    /// `Memory`.
    #[tactic(auto, using(crate::proofs::Requests::request_spelled))]
    pub(crate) fn new(
        alloc: Global,
        pti: Pti,
        request: &SmFrame,
        dnn: Option<Dnn>,
    ) -> Result<Transaction, Memory>
        requires named { request.now.pti ≡ pti }
        requires short { length (spelling request.now) ≤ 4096 }
        ensures { IfOk result (λ t. t ≡ opened request.now dnn) }
    {
        frame_is_read_back(request);
        let octets = spelled(alloc, request)?;
        Ok(Transaction {
            pti,
            octets,
            dnn,
            sendings: 1,
        })
    }

    /// Its identity.
    pub fn pti(&self) -> Pti
        ensures { result ≡ self.now.request.pti }
    {
        let _octets = &self.octets;
        self.pti
    }

    /// The octets of its request.
    pub fn octets(&self) -> &Octets
        ensures value { result.now ≡ spelling self.now.request }
    {
        &self.octets
    }

    /// The data network that the transport of its request names.
    pub fn dnn(&self) -> Option<Dnn>
        ensures { result ≡ self.now.dnn }
    {
        copied_name(&self.dnn)
    }

    /// How often its request was sent.
    pub fn sendings(&self) -> u8
        ensures { result ≡ self.now.sendings }
    {
        self.sendings
    }

    /// The same, whose request was sent once more.
    pub(crate) fn sent_again(self) -> Transaction
        requires { self.sendings < 5 }
        ensures { result ≡ sent_again self }
    {
        Transaction {
            pti: self.pti,
            octets: self.octets,
            dnn: self.dnn,
            sendings: self.sendings + 1,
        }
    }

    /// An equal value.
    ///
    /// # Errors
    ///
    /// `Memory`.
    pub fn copy(&self, alloc: Global) -> Result<Transaction, Memory>
        ensures { IfOk result (λ copy. copy ≡ self.now) }
    {
        let octets = copied(alloc, &self.octets)?;
        Ok(Transaction {
            pti: self.pti,
            octets,
            dnn: copied_name(&self.dnn),
            sendings: self.sendings,
        })
    }
}

// An equal name, where there is one.
fn copied_name(dnn: &Option<Dnn>) -> Option<Dnn>
    ensures { result ≡ dnn.now }
{
    match dnn {
        Some(dnn) => Some(dnn.copy()),
        None => None,
    }
}
