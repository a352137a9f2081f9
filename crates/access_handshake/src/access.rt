ghost use Rattle.std.specs.Prelude.{◌≡◌, ◌≤◌, ◌++◌, length, IfOk, OnOk};
ghost use Rattle.dss_frame.specs.Dss.{canonical};
ghost use Rattle.access_handshake.specs.Access.{request, hello_chain, accsec_object, access_chain};

use crate::manager::{CMNTCPIP_LEVEL, LEVEL};
use byteorder::{BigEndian, ByteOrder};
use ddm_codepoints::code_point::{
    ACCSEC, AGENT, CMNTCPIP, EXCSAT, MGRLVLLS, RDB, RDBNAM, SECMEC, SECMGR, SQLAM,
};
use ddm_codepoints::padded_name;
use dss_frame::{Dss, Kind, write_dss};
use link_ends::{NoMemory, Octets};
use std::alloc::Global;

/// What stands behind the length of a request DSS that is the last of its chain: D0 and the format byte.
const REQUEST: u16 = 0xD001;

/// What a requester gave for its access to a database.
#[derive(Debug, Drop)]
pub struct Access {
    /// The security mechanism.
    pub secmec: u16,
    /// The SECCHK object.
    pub secchk: Octets,
    /// The ACCRDB object.
    pub accrdb: Octets,
}

/// The gateway's EXCSAT, as a chain of its own. DDM, volume 3, EXCSAT.
pub fn hello(alloc: Global) -> Result<Octets, NoMemory>
    ensures { IfOk result (λ chain. chain ≡ hello_chain) }
{
    Octets::of(alloc, &hello_bytes())
}

#[tactic(auto, unfolding(crate::specs::Access::hello_chain, dss_frame::specs::Dss::canonical, dss_frame::specs::Dss::further))]
fn hello_bytes() -> [u8; 34]
    ensures { result ≡ hello_chain }
{
    let mut chain = [0; 34];
    let fields = [
        34,
        REQUEST,
        1,
        28,
        EXCSAT,
        24,
        MGRLVLLS,
        AGENT,
        LEVEL,
        SQLAM,
        LEVEL,
        RDB,
        LEVEL,
        SECMGR,
        LEVEL,
        CMNTCPIP,
        CMNTCPIP_LEVEL,
    ];
    BigEndian::write_u16_into(&fields, &mut chain);
    chain
}

/// ACCSEC with this mechanism and the name of the database. DDM, volume 3, ACCSEC.
pub fn accsec_command(alloc: Global, secmec: u16, rdb: &[u8]) -> Result<Octets, NoMemory>
    requires { length rdb.now ≤ 18 }
    ensures { IfOk result (λ object. object ≡ accsec_object secmec rdb.now) }
{
    Octets::of(alloc, &accsec_bytes(secmec, rdb))
}

fn accsec_bytes(secmec: u16, rdb: &[u8]) -> [u8; 32]
    requires { length rdb.now ≤ 18 }
    ensures { result ≡ accsec_object secmec rdb.now }
{
    let mut object = [0; 32];
    let fields = [32, ACCSEC, 6, SECMEC, secmec, 22, RDBNAM];
    BigEndian::write_u16_into(&fields, &mut object[..14]);
    object[14..].copy_from_slice(&padded_name(rdb));
    object
}

/// ACCSEC, SECCHK and ACCRDB as one canonical chain, numbered from 1 to 3.
pub fn access_chain(alloc: Global, access: &Access, rdb: &[u8]) -> Result<Octets, NoMemory>
    requires { length rdb.now ≤ 18 }
    ensures { IfOk result (λ chain. chain ≡ access_chain access.now rdb.now) }
{
    let mut chain = Octets::new(alloc);
    put_request(
        &mut chain,
        1,
        true,
        accsec_command(alloc, access.secmec, rdb)?,
    )?;
    put_request(
        &mut chain,
        2,
        true,
        Octets::of(alloc, access.secchk.as_slice())?,
    )?;
    put_request(
        &mut chain,
        3,
        false,
        Octets::of(alloc, access.accrdb.as_slice())?,
    )?;
    Ok(chain)
}

/// Appends a request DSS in its canonical spelling.
fn put_request(chain: &mut Octets, corr: u16, chained: bool, body: Octets) -> Result<(), NoMemory>
    ensures { OnOk result (chain.new ≡ chain.old ++ canonical (request corr chained body)) }
{
    let dss = Dss {
        kind: Kind::Request,
        chained,
        same: false,
        go_on: false,
        corr,
        body,
    };
    write_dss(&dss, chain)
}
