//! The code points of DDM that the gateway knows, by the standard's names (DDM, volume 3). Those of SRVLST, RLSCONV and
//! RTNSETSTT are this project's own.

/// Exchange Server Attributes.
pub const EXCSAT: u16 = 0x1041;

/// Access Security.
pub const ACCSEC: u16 = 0x106D;

/// Security Check.
pub const SECCHK: u16 = 0x106E;

/// Access RDB.
pub const ACCRDB: u16 = 0x2001;

/// RDB Commit Unit of Work.
pub const RDBCMM: u16 = 0x200E;

/// RDB Rollback Unit of Work.
pub const RDBRLLBCK: u16 = 0x200F;

/// Begin Binding a Package to an RDB.
pub const BGNBND: u16 = 0x2002;

/// Bind SQL Statement to an RDB Package.
pub const BNDSQLSTT: u16 = 0x2004;

/// Close Query.
pub const CLSQRY: u16 = 0x2005;

/// Continue Query.
pub const CNTQRY: u16 = 0x2006;

/// Drop RDB Package.
pub const DRPPKG: u16 = 0x2007;

/// Describe SQL Statement.
pub const DSCSQLSTT: u16 = 0x2008;

/// End Binding a Package to an RDB.
pub const ENDBND: u16 = 0x2009;

/// Execute Immediate SQL Statement.
pub const EXCSQLIMM: u16 = 0x200A;

/// Execute SQL Statement.
pub const EXCSQLSTT: u16 = 0x200B;

/// Open Query.
pub const OPNQRY: u16 = 0x200C;

/// Prepare SQL Statement.
pub const PRPSQLSTT: u16 = 0x200D;

/// Rebind an Existing RDB Package.
pub const REBIND: u16 = 0x2010;

/// Set SQL Environment.
pub const EXCSQLSET: u16 = 0x2014;

/// FD:OCA Data Descriptor.
pub const FDODSC: u16 = 0x0010;

/// Externalized FD:OCA Data.
pub const EXTDTA: u16 = 0x146C;

/// FD:OCA Data.
pub const FDODTA: u16 = 0x147A;

/// Server Attributes Reply Data.
pub const EXCSATRD: u16 = 0x1443;

/// Access Security Reply Data.
pub const ACCSECRD: u16 = 0x14AC;

/// SQL Communications Area Reply Data.
pub const SQLCARD: u16 = 0x2408;

/// SQLDA Reply Data.
pub const SQLDARD: u16 = 0x2411;

/// SQL Program Variable Data.
pub const SQLDTA: u16 = 0x2412;

/// SQL Data Reply Data.
pub const SQLDTARD: u16 = 0x2413;

/// SQL Statement.
pub const SQLSTT: u16 = 0x2414;

/// Query Answer Set Description.
pub const QRYDSC: u16 = 0x241A;

/// Query Answer Set Data.
pub const QRYDTA: u16 = 0x241B;

/// Server List.
pub const SRVLST: u16 = 0x244E;

/// SQL Statement Attributes.
pub const SQLATTR: u16 = 0x2450;

/// Code Point.
pub const CODPNT: u16 = 0x000C;

/// Data Type Definition Name.
pub const TYPDEFNAM: u16 = 0x002F;

/// TYPDEF Overrides.
pub const TYPDEFOVR: u16 = 0x0035;

/// Product-Specific Identifier.
pub const PRDID: u16 = 0x112E;

/// Server Class Name.
pub const SRVCLSNM: u16 = 0x1147;

/// Severity Code.
pub const SVRCOD: u16 = 0x1149;

/// Syntax Error Code.
pub const SYNERRCD: u16 = 0x114A;

/// Server Product Release Level.
pub const SRVRLSLV: u16 = 0x115A;

/// External Name.
pub const EXTNAM: u16 = 0x115E;

/// Server Name.
pub const SRVNAM: u16 = 0x116D;

/// Release Conversation.
pub const RLSCONV: u16 = 0x119F;

/// CCSID for Single-Byte Characters.
pub const CCSIDSBC: u16 = 0x119C;

/// CCSID for Double-Byte Characters.
pub const CCSIDDBC: u16 = 0x119D;

/// CCSID for Mixed-Byte Characters.
pub const CCSIDMBC: u16 = 0x119E;

/// User ID at the Target System.
pub const USRID: u16 = 0x11A0;

/// Password.
pub const PASSWORD: u16 = 0x11A1;

/// Security Mechanism.
pub const SECMEC: u16 = 0x11A2;

/// Security Check Code.
pub const SECCHKCD: u16 = 0x11A4;

/// Manager-Level List.
pub const MGRLVLLS: u16 = 0x1404;

/// Return SET Statement.
pub const RTNSETSTT: u16 = 0x210E;

/// RDB Access Manager Class.
pub const RDBACCCL: u16 = 0x210F;

/// Relational Database Name.
pub const RDBNAM: u16 = 0x2110;

/// RDB Package Name, Consistency Token, and Section Number.
pub const PKGNAMCSN: u16 = 0x2113;

/// Query Block Size.
pub const QRYBLKSZ: u16 = 0x2114;

/// Unit of Work Disposition.
pub const UOWDSP: u16 = 0x2115;

/// Correlation Token.
pub const CRRTKN: u16 = 0x2135;

/// Manager-Level Conflict.
pub const MGRLVLRM: u16 = 0x1210;

/// Security Check Reply.
pub const SECCHKRM: u16 = 0x1219;

/// Permanent Agent Error.
pub const AGNPRMRM: u16 = 0x1232;

/// Resource Limits Reached.
pub const RSCLMTRM: u16 = 0x1233;

/// Conversational Protocol Error.
pub const PRCCNVRM: u16 = 0x1245;

/// Data Stream Syntax Error.
pub const SYNTAXRM: u16 = 0x124C;

/// Command Not Supported.
pub const CMDNSPRM: u16 = 0x1250;

/// Parameter Value Not Supported.
pub const VALNSPRM: u16 = 0x1252;

/// Access to RDB Completed.
pub const ACCRDBRM: u16 = 0x2201;

/// Query Not Open.
pub const QRYNOPRM: u16 = 0x2202;

/// RDB Not Accessed.
pub const RDBNACRM: u16 = 0x2204;

/// Open Query Complete.
pub const OPNQRYRM: u16 = 0x2205;

/// End of Query.
pub const ENDQRYRM: u16 = 0x220B;

/// End Unit of Work Condition.
pub const ENDUOWRM: u16 = 0x220C;

/// Abnormal End Unit of Work Condition.
pub const ABNUOWRM: u16 = 0x220D;

/// RDB Not Found.
pub const RDBNFNRM: u16 = 0x2211;

/// SQL Error Condition.
pub const SQLERRRM: u16 = 0x2213;

/// The manager AGENT, Agent.
pub const AGENT: u16 = 0x1403;

/// The manager SQLAM, SQL Application Manager.
pub const SQLAM: u16 = 0x2407;

/// The manager RDB, Relational Database.
pub const RDB: u16 = 0x240F;

/// The manager SECMGR, Security Manager.
pub const SECMGR: u16 = 0x1440;

/// The manager CMNTCPIP, TCP/IP Communication Manager.
pub const CMNTCPIP: u16 = 0x1474;

/// The manager UNICODEMGR, Unicode Manager.
pub const UNICODEMGR: u16 = 0x1C08;
