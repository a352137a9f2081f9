ghost use Rattle.std.specs.Prelude.{◌≡◌, ◌≤◌, ◌++◌, length, IfOk, OnOk};
ghost use Rattle.ddm_objects.specs.Builder.{nothing_built, after_begin, after_put};
ghost use Rattle.ddm_codepoints.specs.CodePoint.{accrdb};
ghost use Rattle.dss_frame.specs.Dss.{canonical};
ghost use Rattle.access_handshake.specs.Access.{request, hello_object};
ghost use Rattle.script_commands.specs.Start.{secchk_object, product_parameters, accrdb_object, start_bytes};

use crate::object::{codes_of, put_object, put_outer};
use access_handshake::{accsec_command, hello};
use ddm_codepoints::code_point::{
    ACCRDB, CCSIDSBC, PASSWORD, PRDID, RDBACCCL, RDBNAM, SECCHK, SECMEC, SQLAM, TYPDEFNAM,
    TYPDEFOVR, USRID,
};
use ddm_codepoints::padded_name;
use ddm_codepoints::value::USER_AND_PASSWORD;
use ddm_objects::Builder;
use dss_frame::{Dss, Kind, write_dss};
use link_ends::{NoMemory, Octets};
use std::alloc::Global;

/// How many bytes the header of a DSS of one segment has.
const HEADER: usize = 6;

/// The product that an application of a script says it is.
const PRODUCT: &[u8] = b"SCR01010";

/// The type definition whose numbers have the high byte first and whose characters are EBCDIC. DDM, volume 3, TYPDEFNAM.
const TYPDEF: &[u8] = b"QTDSQL370";

/// CCSID 37.
const US_ENGLISH: u16 = 37;

/// The gateway's own EXCSAT says the managers that an application of a script has too. DDM, volume 3, EXCSAT.
#[tactic(auto, unfolding(access_handshake::specs::Access::hello_chain, dss_frame::specs::Dss::canonical, dss_frame::specs::Dss::further))]
fn excsat_object(alloc: Global) -> Result<Octets, NoMemory>
    ensures { IfOk result (λ object. object ≡ hello_object) }
{
    let chain = hello(alloc)?;
    Octets::of(alloc, &chain.as_slice()[HEADER..])
}

/// SECCHK. DDM, volume 3, SECCHK.
#[tactic(auto, unfolding(crate::specs::Start::secchk_object))]
fn secchk_object(
    alloc: Global,
    rdb: &[u8],
    user: &[u8],
    password: &[u8],
) -> Result<Octets, NoMemory>
    requires name { length rdb.now ≤ 18 }
    requires user { length user.now ≤ 8 }
    requires password { length password.now ≤ 8 }
    ensures { IfOk result (λ object. object ≡ secchk_object rdb.now user.now password.now) }
{
    let mut builder = Builder::new(alloc);
    builder.begin(SECCHK)?;
    put_object(&mut builder, SECMEC, &USER_AND_PASSWORD.to_be_bytes())?;
    put_object(&mut builder, USRID, codes_of(alloc, user)?.as_slice())?;
    put_object(
        &mut builder,
        PASSWORD,
        codes_of(alloc, password)?.as_slice(),
    )?;
    put_object(&mut builder, RDBNAM, &padded_name(rdb))?;
    builder.end()?;
    Ok(builder.finish())
}

/// ACCRDB that is begun, with the manager of the access and the product. DDM, volume 3, RDBACCCL, PRDID.
fn begin_accrdb(alloc: Global) -> Result<Builder, NoMemory>
    ensures { IfOk result (λ builder. builder ≡ after_put (after_begin nothing_built accrdb) product_parameters) }
{
    let mut builder = Builder::new(alloc);
    builder.begin(ACCRDB)?;
    put_object(&mut builder, RDBACCCL, &SQLAM.to_be_bytes())?;
    put_object(&mut builder, PRDID, codes_of(alloc, PRODUCT)?.as_slice())?;
    Ok(builder)
}

/// ACCRDB. DDM, volume 3, ACCRDB.
#[tactic(auto, unfolding(crate::specs::Start::accrdb_object))]
fn accrdb_object(alloc: Global, rdb: &[u8]) -> Result<Octets, NoMemory>
    requires { length rdb.now ≤ 18 }
    ensures { IfOk result (λ object. object ≡ accrdb_object rdb.now) }
{
    let mut builder = begin_accrdb(alloc)?;
    put_object(&mut builder, TYPDEFNAM, codes_of(alloc, TYPDEF)?.as_slice())?;
    put_object(&mut builder, RDBNAM, &padded_name(rdb))?;
    put_outer(&mut builder, TYPDEFOVR, CCSIDSBC, &US_ENGLISH.to_be_bytes())?;
    builder.end()?;
    Ok(builder.finish())
}

/// Appends a request DSS in its canonical spelling.
fn put_request(out: &mut Octets, corr: u16, chained: bool, body: Octets) -> Result<(), NoMemory>
    ensures { OnOk result (out.new ≡ out.old ++ canonical (request corr chained body)) }
{
    let dss = Dss {
        kind: Kind::Request,
        chained,
        same: false,
        go_on: false,
        corr,
        body,
    };
    write_dss(&dss, out)
}

/// The two chains by which an application gets access to this database as this user: EXCSAT and ACCSEC, then SECCHK and
/// ACCRDB.
pub fn start_chains(
    alloc: Global,
    rdb: &[u8],
    user: &[u8],
    password: &[u8],
) -> Result<Octets, NoMemory>
    requires name { length rdb.now ≤ 18 }
    requires user { length user.now ≤ 8 }
    requires password { length password.now ≤ 8 }
    ensures { IfOk result (λ bytes. bytes ≡ start_bytes rdb.now user.now password.now) }
{
    let mut out = Octets::new(alloc);
    put_request(&mut out, 1, true, excsat_object(alloc)?)?;
    put_request(
        &mut out,
        2,
        false,
        accsec_command(alloc, USER_AND_PASSWORD, rdb)?,
    )?;
    put_request(
        &mut out,
        1,
        true,
        secchk_object(alloc, rdb, user, password)?,
    )?;
    put_request(&mut out, 2, false, accrdb_object(alloc, rdb)?)?;
    Ok(out)
}
