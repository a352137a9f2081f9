ghost use Rattle.std.specs.Prelude.{◌≡◌, ◌*◌, ◌≤◌, ◌==◌, find, length, vec_len, IfOk};
ghost use Rattle.access_handshake.specs.Managers.{managers_of, level_pair, greatest_level, granted, granted_list, is_too_low};

use byteorder::{BigEndian, ByteOrder};
use ddm_codepoints::code_point::{AGENT, CMNTCPIP, RDB, SECMGR, SQLAM};
use link_ends::{NoMemory, Octets};
use std::alloc::Global;

/// The level that the gateway has of AGENT, SQLAM, RDB and SECMGR, and needs of SQLAM.
pub(crate) const LEVEL: u16 = 7;

/// The level that the gateway has of CMNTCPIP.
pub(crate) const CMNTCPIP_LEVEL: u16 = 5;

/// How many bytes a manager and its level take.
const PAIR: usize = 4;

/// A manager, and the level of it that is asked or granted.
#[derive(Clone, Copy, Debug)]
pub(crate) struct ManagerLevel {
    pub code: u16,
    pub level: u16,
}

/// The managers that a list of levels names, in order.
pub(crate) fn managers_of(alloc: Global, list: &[u8]) -> Result<Vec<ManagerLevel>, NoMemory>
    ensures managers { IfOk result (λ asked. asked.items ≡ managers_of list.now) }
    ensures size { IfOk result (λ asked. 4 * vec_len asked ≤ length list.now) }
{
    let mut asked = Vec::new(alloc);
    let mut rest = list;
    while rest.len() >= PAIR {
        let (pair, after) = rest.split_at(PAIR);
        asked.push(ManagerLevel {
            code: BigEndian::read_u16(pair),
            level: BigEndian::read_u16(&pair[2..]),
        })?;
        rest = after;
    }
    Ok(asked)
}

/// Whether SQLAM is asked below the level that the gateway needs. Where it is named again, the first counts.
pub(crate) fn is_too_low(asked: &[ManagerLevel]) -> bool
    ensures { result ≡ is_too_low asked.now }
{
    match first_asked(asked, SQLAM) {
        Some(manager) => manager.level < LEVEL,
        None => false,
    }
}

/// The first time that this manager is named.
fn first_asked(asked: &[ManagerLevel], code: u16) -> Option<ManagerLevel>
    ensures { result ≡ find (λ manager. manager.code == code) asked.now }
{
    asked.iter().copied().find(|manager| manager.code == code)
}

/// The greatest level that the gateway has of this manager; 0 if it has none.
fn greatest_level(code: u16) -> u16
    ensures { result ≡ greatest_level code }
{
    match code {
        AGENT | SQLAM | RDB | SECMGR => LEVEL,
        CMNTCPIP => CMNTCPIP_LEVEL,
        _ => 0,
    }
}

/// The bytes of a manager and its level.
pub(crate) fn level_pair(manager: ManagerLevel) -> [u8; 4]
    ensures { result ≡ level_pair manager }
{
    let mut pair = [0; PAIR];
    BigEndian::write_u16(&mut pair, manager.code);
    BigEndian::write_u16(&mut pair[2..], manager.level);
    pair
}

/// What is granted of what is asked.
fn granted(asked: ManagerLevel) -> ManagerLevel
    ensures { result ≡ granted asked }
{
    ManagerLevel {
        code: asked.code,
        level: asked.level.min(greatest_level(asked.code)),
    }
}

/// The bytes of the levels that are granted, in the asked order.
pub(crate) fn granted_list(alloc: Global, asked: &[ManagerLevel]) -> Result<Octets, NoMemory>
    ensures levels { IfOk result (λ list. list ≡ granted_list asked.now) }
    ensures size { IfOk result (λ list. length list ≡ 4 * length asked.now) }
{
    let mut list = Octets::new(alloc);
    for manager in asked {
        list.push_all(&level_pair(granted(*manager)))?;
    }
    Ok(list)
}
