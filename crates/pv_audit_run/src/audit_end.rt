// How `audit` ends, apart from how its input was read.
ghost use Rattle.std.specs.Prelude.{◌≡◌};
ghost use Rattle.pv_audit_run.specs.AuditEnds.{audit_status};

use pv_io::ReadEnd;
use pv_run::{Status, status_of_unread};

/// How the audit of a text in memory ended.
#[derive(Clone, Copy, Debug, PartialEq, Eq)]
pub enum AuditEnd {
    /// Each report agrees. That was written.
    Done,
    /// A report doesn't agree. Which one, and where, was written.
    Refuted,
    /// The values of a serial run depend on too many outcomes together. Of which report, and on how many, was written.
    Limit,
    /// The text is no trace. Its first line at fault was named.
    Malformed,
    /// The output failed. A beginning of what was to be written was.
    WriteFault,
    /// There was no memory. A beginning of what was to be written was.
    NoMemory,
}

/// The status of `audit`, by how [`read_and_audit`](crate::read_and_audit) ended.
pub fn status_of_audit(ended: Result<AuditEnd, ReadEnd>) -> Status
    ensures { result ≡ audit_status ended }
{
    match ended {
        Ok(AuditEnd::Done) => Status::Done,
        Ok(AuditEnd::Refuted) => Status::Refuted,
        Ok(AuditEnd::Limit) => Status::Limit,
        Ok(AuditEnd::Malformed) => Status::Malformed,
        Ok(AuditEnd::WriteFault) => Status::WriteFault,
        Ok(AuditEnd::NoMemory) => Status::NoMemory,
        Err(why) => status_of_unread(why),
    }
}
