//! The calls of nas_elements:
//!
//!     read_address OCTETS
//!     read_algs OCTETS
//!     read_ambr OCTETS
//!     read_asi OCTETS
//!     read_capability OCTETS
//!     read_dnn OCTETS
//!     read_guti OCTETS
//!     read_identity OCTETS
//!     read_nssai OCTETS
//!     read_slice OCTETS
//!     read_status OCTETS
//!     read_stmsi OCTETS
//!     read_suci OCTETS
//!     read_tai_list OCTETS
//!     read_timer3 OCTETS
//!
//! The answer is the octets that the value is written as, or `wrong` with the place as a decimal number where there is no value,
//! or `full` where it has more octets than a writer has room for.

use nas_base::{Full, Writer};
use nas_elements::{
    Address, Algs, Ambr, Asi, Capability, Dnn, Guti, Identity, IdentityRefusal, Nssai, Slice,
    Status, Stmsi, Suci, TaiList, Timer3, Wrong,
};
use probe_words::{Refusal, octets, word, written};
use std::alloc::Global;

// What came of reading a value, and of writing it.
type Told = Result<Result<(), Full>, Wrong>;

/// The answer to a call.
pub fn answer(alloc: Global, words: &[&str]) -> Result<String, Refusal> {
    let [call, input] = words else {
        return Err(Refusal::Unreadable);
    };
    let given = octets(alloc, input)?;
    let mut out = Writer::new();
    match rewritten(alloc, call, &given, &mut out)? {
        Ok(full) => written(alloc, full, &out),
        Err(Wrong { at }) => word(format!(in alloc; "wrong {at}")),
    }
}

// Reads the octets as the call has them, and writes the value.
fn rewritten(alloc: Global, call: &str, given: &[u8], out: &mut Writer) -> Result<Told, Refusal> {
    if call == "read_identity" {
        return identity(alloc, given, out);
    }
    match named_value(call, given, out) {
        Some(told) => Ok(told),
        None => session_value(call, given, out).ok_or(Refusal::Unreadable),
    }
}

// An identity of any kind.
fn identity(alloc: Global, given: &[u8], out: &mut Writer) -> Result<Told, Refusal> {
    match Identity::read(alloc, given) {
        Ok(value) => Ok(Ok(value.write(out))),
        Err(IdentityRefusal::Wrong { at }) => Ok(Err(Wrong { at })),
        Err(IdentityRefusal::Memory) => Err(Refusal::Memory),
    }
}

fn named_value(call: &str, given: &[u8], out: &mut Writer) -> Option<Told> {
    match place_value(call, given, out) {
        Some(told) => Some(told),
        None => mobility_value(call, given, out),
    }
}

// Who and where a handset is.
fn place_value(call: &str, given: &[u8], out: &mut Writer) -> Option<Told> {
    match call {
        "read_guti" => Some(Guti::read(given).map(|value| value.write(out))),
        "read_stmsi" => Some(Stmsi::read(given).map(|value| value.write(out))),
        "read_suci" => Some(Suci::read(given).map(|value| value.write(out))),
        "read_tai_list" => Some(TaiList::read(given).map(|value| value.write(out))),
        _ => None,
    }
}

// What else 5GMM messages have.
fn mobility_value(call: &str, given: &[u8], out: &mut Writer) -> Option<Told> {
    match call {
        "read_algs" => Some(Algs::read(given).map(|value| value.write(out))),
        "read_asi" => Some(Asi::read(given).map(|value| value.write(out))),
        "read_capability" => Some(Capability::read(given).map(|value| value.write(out))),
        "read_status" => Some(Status::read(given).map(|value| value.write(out))),
        "read_timer3" => Some(Timer3::read(given).map(|value| value.write(out))),
        _ => None,
    }
}

// What a session has.
fn session_value(call: &str, given: &[u8], out: &mut Writer) -> Option<Told> {
    match call {
        "read_address" => Some(Address::read(given).map(|value| value.write(out))),
        "read_ambr" => Some(Ambr::read(given).map(|value| value.write(out))),
        "read_dnn" => Some(Dnn::read(given).map(|value| value.write(out))),
        "read_nssai" => Some(Nssai::read(given).map(|value| value.write(out))),
        "read_slice" => Some(Slice::read(given).map(|value| value.write(out))),
        _ => None,
    }
}
