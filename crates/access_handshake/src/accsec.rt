ghost use Rattle.std.specs.Prelude.{◌≡◌, IsTrue, IfOk};
ghost use Rattle.access_handshake.specs.Accsec.{has_secmec, is_known_secmec, accsecrd_chosen, accsecrd_offer, answer_to_secmec, accsec_answer};

use crate::parameter::find_parameter;
use byteorder::{BigEndian, ByteOrder};
use ddm_codepoints::code_point::{ACCSECRD, SECMEC};
use ddm_codepoints::value::{USER_ALONE, USER_AND_PASSWORD};
use link_ends::{NoMemory, Octets};
use std::alloc::Global;

/// The answer to ACCSEC, with the object that says it.
#[derive(Debug, Drop)]
pub enum AccsecAnswer {
    /// The mechanism that is asked is chosen: ACCSECRD repeats it.
    Chosen { secmec: u16, object: Octets },
    /// It isn't known: ACCSECRD offers the known ones.
    Offer(Octets),
}

/// Whether the parameters are objects one after another with a SECMEC of at least two bytes.
pub fn has_secmec(params: &[u8]) -> bool
    ensures { result ≡ has_secmec params.now }
{
    match find_parameter(params, SECMEC) {
        Some(data) => data.len() >= 2,
        None => false,
    }
}

/// The answer to ACCSEC with these parameters. Of a repeated SECMEC the first counts, and of a longer one its first two
/// bytes. DDM, volume 3, ACCSEC.
pub fn answer_accsec(alloc: Global, params: &[u8]) -> Result<AccsecAnswer, NoMemory>
    requires { IsTrue (has_secmec params.now) }
    ensures { IfOk result (λ answer. answer ≡ accsec_answer params.now) }
{
    let data = find_parameter(params, SECMEC).unwrap();
    answer_secmec(alloc, BigEndian::read_u16(data))
}

/// The answer to the mechanism that is asked.
fn answer_secmec(alloc: Global, secmec: u16) -> Result<AccsecAnswer, NoMemory>
    ensures { IfOk result (λ answer. answer ≡ answer_to_secmec secmec) }
{
    if !is_known_secmec(secmec) {
        return Ok(AccsecAnswer::Offer(Octets::of(alloc, &accsecrd_offer())?));
    }
    let object = Octets::of(alloc, &accsecrd_chosen(secmec))?;
    Ok(AccsecAnswer::Chosen { secmec, object })
}

fn is_known_secmec(secmec: u16) -> bool
    ensures { result ≡ is_known_secmec secmec }
{
    secmec == USER_AND_PASSWORD || secmec == USER_ALONE
}

/// ACCSECRD with the mechanism that is chosen.
#[tactic(auto, unfolding(crate::specs::Accsec::accsecrd_chosen))]
fn accsecrd_chosen(secmec: u16) -> [u8; 10]
    ensures { result ≡ accsecrd_chosen secmec }
{
    let mut object = [0; 10];
    BigEndian::write_u16_into(&[10, ACCSECRD, 6, SECMEC, secmec], &mut object);
    object
}

/// ACCSECRD with the mechanisms that could be chosen.
#[tactic(auto, unfolding(crate::specs::Accsec::accsecrd_offer))]
fn accsecrd_offer() -> [u8; 12]
    ensures { result ≡ accsecrd_offer }
{
    let mut object = [0; 12];
    let fields = [12, ACCSECRD, 8, SECMEC, USER_AND_PASSWORD, USER_ALONE];
    BigEndian::write_u16_into(&fields, &mut object);
    object
}
