//! The published test vectors of the ciphers and key derivations, computed by the calls themselves.
ghost use Rattle.std.specs.Prelude.{◌≡◌, ◌++◌, IfOk, OnOk};
ghost use Rattle.nas_cli.specs.Vectors.{cipher_lines, hmac_line, milenage_lines, output_lines, resynchronisation_lines, value_line, vectors_text};

use aes_cmac::{cmac, encrypt_block};
use key_chain::hmac256;
use milenage::{F2345, f1, f1_star, f5_star, f2345, opc_of};
use nas_base::Memory;
use std::alloc::Global;

/// FIPS 197 appendix C.1.
pub const AES_KEY: [u8; 16] = [
    0x00, 0x01, 0x02, 0x03, 0x04, 0x05, 0x06, 0x07, 0x08, 0x09, 0x0a, 0x0b, 0x0c, 0x0d, 0x0e, 0x0f,
];

pub const AES_BLOCK: [u8; 16] = [
    0x00, 0x11, 0x22, 0x33, 0x44, 0x55, 0x66, 0x77, 0x88, 0x99, 0xaa, 0xbb, 0xcc, 0xdd, 0xee, 0xff,
];

/// RFC 4493 section 4.
pub const CMAC_KEY: [u8; 16] = [
    0x2b, 0x7e, 0x15, 0x16, 0x28, 0xae, 0xd2, 0xa6, 0xab, 0xf7, 0x15, 0x88, 0x09, 0xcf, 0x4f, 0x3c,
];

pub const CMAC_BLOCK: [u8; 16] = [
    0x6b, 0xc1, 0xbe, 0xe2, 0x2e, 0x40, 0x9f, 0x96, 0xe9, 0x3d, 0x7e, 0x11, 0x73, 0x93, 0x17, 0x2a,
];

/// TS 35.208 clause 4.3, test set 1.
pub const K: [u8; 16] = [
    0x46, 0x5b, 0x5c, 0xe8, 0xb1, 0x99, 0xb4, 0x9f, 0xaa, 0x5f, 0x0a, 0x2e, 0xe2, 0x38, 0xa6, 0xbc,
];

pub const OP: [u8; 16] = [
    0xcd, 0xc2, 0x02, 0xd5, 0x12, 0x3e, 0x20, 0xf6, 0x2b, 0x6d, 0x67, 0x6a, 0xc7, 0x2c, 0xb3, 0x18,
];

pub const RAND: [u8; 16] = [
    0x23, 0x55, 0x3c, 0xbe, 0x96, 0x37, 0xa8, 0x9d, 0x21, 0x8a, 0xe6, 0x4d, 0xae, 0x47, 0xbf, 0x35,
];

pub const SQN: [u8; 6] = [0xff, 0x9b, 0xb4, 0xd0, 0xb6, 0x07];

pub const AMF_FIELD: [u8; 2] = [0xb9, 0xb9];

/// RFC 4231 section 4.2, test case 1.
pub const HMAC_KEY: [u8; 20] = [0x0b; 20];

pub const HMAC_TEXT: [u8; 8] = [0x48, 0x69, 0x20, 0x54, 0x68, 0x65, 0x72, 0x65];

/// The lines, each a name and a value in lower-case hex.
#[tactic(auto, unfolding(crate::specs::Vectors::vectors_text))]
pub fn vectors_of(alloc: Global) -> Result<Vec<u8>, Memory>
    ensures { IfOk result (λ text. text.items ≡ vectors_text) }
{
    let mut text = Vec::new(alloc);
    append_ciphers(alloc, &mut text)?;
    append_milenage(alloc, &mut text)?;
    append_hmac(alloc, &mut text)?;
    Ok(text)
}

// Appends a name and a value.
#[tactic(auto, unfolding(crate::specs::Vectors::value_line))]
fn append_value(alloc: Global, text: &mut Vec<u8>, name: &str, value: &[u8]) -> Result<(), Memory>
    ensures { OnOk result (text.new.items ≡ text.old.items ++ value_line name.now value.now) }
{
    let Ok(hex) = hex::encode(alloc, value) else {
        return Err(Memory);
    };
    let Ok(line) = format!(in alloc; "{name} {hex}\n") else {
        return Err(Memory);
    };
    match text.extend_from_slice(line.as_bytes()) {
        Ok(()) => Ok(()),
        Err(_) => Err(Memory),
    }
}

// Appends the lines of AES and CMAC.
#[tactic(auto, unfolding(crate::specs::Vectors::cipher_lines), using(crate::proofs::VectorInputs::vector_steps))]
fn append_ciphers(alloc: Global, text: &mut Vec<u8>) -> Result<(), Memory>
    ensures { OnOk result (text.new.items ≡ text.old.items ++ cipher_lines) }
{
    append_value(alloc, text, "aes", &encrypt_block(&AES_KEY, &AES_BLOCK))?;
    append_value(alloc, text, "cmac", &cmac(&CMAC_KEY, &[]))?;
    append_value(alloc, text, "cmac16", &cmac(&CMAC_KEY, &CMAC_BLOCK))
}

// Appends the lines of MILENAGE.
#[tactic(auto, unfolding(crate::specs::Vectors::milenage_lines), using(crate::proofs::VectorInputs::vector_steps))]
fn append_milenage(alloc: Global, text: &mut Vec<u8>) -> Result<(), Memory>
    ensures { OnOk result (text.new.items ≡ text.old.items ++ milenage_lines) }
{
    let opc = opc_of(&K, &OP);
    append_value(alloc, text, "opc", &opc)?;
    append_outputs(alloc, text, &opc)?;
    append_resynchronisation(alloc, text, &opc)
}

// Appends what an authentication vector is made of.
#[tactic(auto, unfolding(crate::specs::Vectors::output_lines), using(crate::proofs::VectorInputs::vector_steps))]
fn append_outputs(alloc: Global, text: &mut Vec<u8>, opc: &[u8; 16]) -> Result<(), Memory>
    ensures { OnOk result (text.new.items ≡ text.old.items ++ output_lines opc.now) }
{
    let F2345 { res, ck, ik, ak } = f2345(&K, opc, &RAND);
    append_value(alloc, text, "f1", &f1(&K, opc, &RAND, &SQN, &AMF_FIELD))?;
    append_value(alloc, text, "f2", &res)?;
    append_value(alloc, text, "f3", &ck)?;
    append_value(alloc, text, "f4", &ik)?;
    append_value(alloc, text, "f5", &ak)
}

// Appends what an AUTS is made of.
#[tactic(auto, unfolding(crate::specs::Vectors::resynchronisation_lines), using(crate::proofs::VectorInputs::vector_steps))]
fn append_resynchronisation(alloc: Global, text: &mut Vec<u8>, opc: &[u8; 16]) -> Result<(), Memory>
    ensures { OnOk result (text.new.items ≡ text.old.items ++ resynchronisation_lines opc.now) }
{
    append_value(
        alloc,
        text,
        "f1s",
        &f1_star(&K, opc, &RAND, &SQN, &AMF_FIELD),
    )?;
    append_value(alloc, text, "f5s", &f5_star(&K, opc, &RAND))
}

// Appends the line of HMAC.
#[tactic(auto, unfolding(crate::specs::Vectors::hmac_line), using(crate::proofs::VectorInputs::vector_steps))]
fn append_hmac(alloc: Global, text: &mut Vec<u8>) -> Result<(), Memory>
    ensures { OnOk result (text.new.items ≡ text.old.items ++ hmac_line) }
{
    append_value(alloc, text, "hmac", &hmac256(&HMAC_KEY, &HMAC_TEXT))
}
